//! Theorems on generic parameters that a reader relies on, and that no call's contract states. Each is a
//! function with no body to run: its contract is the theorem, proved for every value.
ghost use Rattle.std.specs.Prelude.{◌≡◌, ◌+◌, List, ℕ, length};
ghost use Rattle.std.specs.List.{position};
ghost use Rattle.hir_signature.specs.Generics.{count_bound, is_type_named, is_const_named, is_lifetime_named};
ghost use Rattle.hir_signature.specs.FirstOfName.{IsFirst, IsTypeNamed, IsConstNamed, IsLifetimeNamed};
ghost use Rattle.hir_signature.specs.declared.param_data.LifetimeParamData.{LifetimeParamData};
ghost use Rattle.hir_signature.specs.declared.param_data.LifetimeBoundType.TheVariants.{EarlyBound, LateBound};
ghost use Rattle.hir_signature.specs.declared.any_param.TypeOrConstParamData.{TypeOrConstParamData};

/// Each lifetime is early bound or late bound, and none is both.
pub fn lifetimes_are_early_or_late()
    ensures { (lifetimes : List LifetimeParamData)
        → count_bound EarlyBound lifetimes + count_bound LateBound lifetimes ≡ length lifetimes }
{}

/// A find by name returns the index of the first type, constant or lifetime of that name: no earlier one has
/// it. Where it returns `None`, none has that name.
pub fn finds_answer_the_first()
    ensures types { (name : List ℕ) (params : List TypeOrConstParamData)
        → IsFirst (IsTypeNamed name) params (position (is_type_named name) params) }
    ensures consts { (name : List ℕ) (params : List TypeOrConstParamData)
        → IsFirst (IsConstNamed name) params (position (is_const_named name) params) }
    ensures lifetimes { (name : List ℕ) (lifetimes : List LifetimeParamData)
        → IsFirst (IsLifetimeNamed name) lifetimes (position (is_lifetime_named name) lifetimes) }
{}
