//! The three kinds of generic parameters: types, constants and lifetimes.
ghost use Rattle.std.specs.Prelude.{◌≡◌};
ghost use Rattle.hir_collections.specs.Exact.{exact};

use hir_base::Name;
use hir_collections::{ExactEq, TryClone};
use hir_path::{ConstRef, TypeRefId};

/// Where a type parameter comes from.
#[derive(Clone, Copy, PartialEq, Eq, Hash)]
pub enum TypeParamProvenance {
    /// It is written in a list `<..>`.
    TypeParamList,
    /// It is the `Self` of a trait.
    TraitSelf,
    /// It is an `impl Trait` in argument position.
    ArgumentImplTrait,
}

impl ExactEq for TypeParamProvenance {
    ghost eq_decides = { Prim.search exact };
}

impl TryClone for TypeParamProvenance {
    ghost clone_is_same = { Prim.search exact };
}

/// A parameter that is a type.
#[derive(Drop, Clone, PartialEq, Eq, Hash)]
pub struct TypeParamData {
    /// Its name. An `impl Trait` in argument position has none.
    pub name: Option<Name>,
    /// The default, which is taken if no argument is given.
    pub default: Option<TypeRefId>,
    pub provenance: TypeParamProvenance,
}

impl ExactEq for TypeParamData {
    ghost use Rattle.hir_signature.specs.same.SameData.{type_params_decide};

    ghost eq_decides = { type_params_decide };
}

impl TryClone for TypeParamData {
    ghost clone_is_same = { Prim.search exact };
}

/// When a lifetime parameter gets its argument.
#[derive(Drop, Clone, PartialEq, Eq, Hash)]
pub enum LifetimeBoundType {
    /// Where the definition is named.
    EarlyBound,
    /// Where the function is called.
    LateBound,
}

impl ExactEq for LifetimeBoundType {
    ghost eq_decides = { Prim.search exact };
}

impl TryClone for LifetimeBoundType {
    ghost clone_is_same = { Prim.search exact };
}

/// A parameter that is a lifetime.
#[derive(Drop, Clone, PartialEq, Eq, Hash)]
pub struct LifetimeParamData {
    pub name: Name,
    pub bound_type: LifetimeBoundType,
}

impl LifetimeParamData {
    ghost use Rattle.hir_signature.specs.Params.{is_bound};

    /// Returns whether it is late bound.
    pub fn is_late_bound(&self) -> bool
        ensures { result ≡ is_bound LifetimeBoundType.LateBound self.now }
    {
        match self.bound_type {
            LifetimeBoundType::EarlyBound => false,
            LifetimeBoundType::LateBound => true,
        }
    }

    /// Returns whether it is early bound.
    pub fn is_early_bound(&self) -> bool
        ensures { result ≡ is_bound LifetimeBoundType.EarlyBound self.now }
    {
        match self.bound_type {
            LifetimeBoundType::EarlyBound => true,
            LifetimeBoundType::LateBound => false,
        }
    }
}

impl ExactEq for LifetimeParamData {
    ghost eq_decides = { Prim.search exact };
}

impl TryClone for LifetimeParamData {
    ghost clone_is_same = { Prim.search exact };
}

/// A parameter that is a constant.
#[derive(Drop, Clone, PartialEq, Eq, Hash)]
pub struct ConstParamData {
    pub name: Name,
    /// The type of the constant.
    pub ty: TypeRefId,
    /// The default, which is taken if no argument is given.
    pub default: Option<ConstRef>,
}

impl ExactEq for ConstParamData {
    ghost eq_decides = { Prim.search exact };
}

impl TryClone for ConstParamData {
    ghost clone_is_same = { Prim.search exact };
}
