//! Types, lifetimes and bounds as they are written: their paths are not resolved.
ghost use Rattle.std.specs.Prelude.{◌≡◌, ◌≢◌, IsTrue, ◌↔◌, [], Some};
ghost use Rattle.std.specs.Option.{option_map};
ghost use Rattle.hir_path.specs.Lists.{all_but, last_of};
ghost use Rattle.hir_collections.specs.Exact.{exact};

use hir_base::{ExternAbi, LifetimeParamId, Name, TypeParamId};
use hir_collections::{Boxed, ExactEq, Seq, ShortList, TryClone};
use hir_path::{ConstRef, LifetimeRefId, PatId, Path, PathId, TypeBound, TypeRefId};
use std::alloc::AllocError;

/// Whether the target of a reference or a pointer may be written.
#[derive(Clone, Copy, PartialEq, Eq, Hash)]
pub enum Mutability {
    /// It may only be read.
    Shared,
    /// It may be written.
    Mut,
}

impl Mutability {
    ghost use Rattle.hir_node.specs.Keywords.{ref_keyword, ptr_keyword};

    /// `Mut` where it is mutable, else `Shared`.
    pub fn from_mutable(mutable: bool) -> Mutability
        ensures { IsTrue mutable ↔ (result ≡ Mutability.Mut) }
    {
        if mutable {
            Mutability::Mut
        } else {
            Mutability::Shared
        }
    }

    /// Returns what is written after `&`: nothing or `mut `, with a space.
    pub fn as_keyword_for_ref(self) -> &'static str
        ensures { result.now ≡ ref_keyword self }
    {
        match self {
            Mutability::Shared => "",
            Mutability::Mut => "mut ",
        }
    }

    /// Returns what is written after `*`: `const ` or `mut `, with a space.
    pub fn as_keyword_for_ptr(self) -> &'static str
        ensures { result.now ≡ ptr_keyword self }
    {
        match self {
            Mutability::Shared => "const ",
            Mutability::Mut => "mut ",
        }
    }

    /// Returns whether it is `Mut`.
    pub fn is_mut(&self) -> bool
        ensures { IsTrue result ↔ (self.now ≡ Mutability.Mut) }
    {
        match self {
            Mutability::Shared => false,
            Mutability::Mut => true,
        }
    }

    /// Returns whether it is `Shared`.
    pub fn is_shared(&self) -> bool
        ensures { IsTrue result ↔ (self.now ≡ Mutability.Shared) }
    {
        match self {
            Mutability::Shared => true,
            Mutability::Mut => false,
        }
    }
}

impl ExactEq for Mutability {
    ghost eq_decides = { Prim.search exact };
}

impl TryClone for Mutability {
    ghost clone_is_same = { Prim.search exact };
}

/// Whether `&` makes a pointer or a reference.
#[derive(Clone, Copy, PartialEq, Eq, Hash)]
pub enum Rawness {
    /// A pointer: `&raw`.
    RawPtr,
    /// A reference.
    Ref,
}

impl Rawness {
    /// `RawPtr` where it is raw, else `Ref`.
    pub fn from_raw(is_raw: bool) -> Rawness
        ensures { IsTrue is_raw ↔ (result ≡ Rawness.RawPtr) }
    {
        if is_raw {
            Rawness::RawPtr
        } else {
            Rawness::Ref
        }
    }

    /// Returns whether it is `RawPtr`.
    pub fn is_raw(&self) -> bool
        ensures { IsTrue result ↔ (self.now ≡ Rawness.RawPtr) }
    {
        match self {
            Rawness::RawPtr => true,
            Rawness::Ref => false,
        }
    }
}

impl ExactEq for Rawness {
    ghost eq_decides = { Prim.search exact };
}

impl TryClone for Rawness {
    ghost clone_is_same = { Prim.search exact };
}

/// A trait, named by its path.
#[derive(Clone, Copy, PartialEq, Eq, Hash)]
pub struct TraitRef {
    pub path: PathId,
}

impl ExactEq for TraitRef {
    ghost eq_decides = { Prim.search exact };
}

impl TryClone for TraitRef {
    ghost clone_is_same = { Prim.search exact };
}

/// The type of a function pointer.
#[derive(Drop, Clone, PartialEq, Eq, Hash)]
pub struct FnType {
    /// The lifetimes of a `for<..>` before it, where one is written.
    pub binder: Option<Seq<Name>>,
    /// The parameters, each with its name where it has one, and last the return type.
    pub params: Seq<(Option<Name>, TypeRefId)>,
    /// Whether `...` follows the parameters.
    pub is_varargs: bool,
    pub is_unsafe: bool,
    pub abi: ExternAbi,
}

impl FnType {
    /// Returns the parameters without the last entry, and the type of that entry: the return type.
    ///
    /// The list must have an entry.
    pub fn split_params_and_ret(&self) -> (&[(Option<Name>, TypeRefId)], TypeRefId)
        requires { self.now.params ≢ [] }
        ensures params { result.0.now ≡ all_but 1 self.now.params }
        ensures ret { Some result.1 ≡ option_map (λ entry. entry.1) (last_of self.now.params) }
    {
        match self.params.as_slice() {
            [params @ .., ret] => (params, ret.1),
            [] => unreachable!(),
        }
    }
}

impl ExactEq for FnType {
    ghost use Rattle.hir_node.specs.same.SameStructs.{functions_decide};

    ghost eq_decides = { functions_decide };
}

impl TryClone for FnType {
    ghost clone_is_same = { Prim.search exact };
}

/// The type of an array.
#[derive(Drop, Clone, PartialEq, Eq, Hash)]
pub struct ArrayType {
    /// The type of its items.
    pub ty: TypeRefId,
    /// The number of its items.
    pub len: ConstRef,
}

impl ExactEq for ArrayType {
    ghost eq_decides = { Prim.search exact };
}

impl TryClone for ArrayType {
    ghost clone_is_same = { Prim.search exact };
}

/// The type of a reference.
#[derive(Drop, Clone, PartialEq, Eq, Hash)]
pub struct RefType {
    /// The type of what it refers to.
    pub ty: TypeRefId,
    pub lifetime: Option<LifetimeRefId>,
    pub mutability: Mutability,
}

impl ExactEq for RefType {
    ghost eq_decides = { Prim.search exact };
}

impl TryClone for RefType {
    ghost clone_is_same = { Prim.search exact };
}

/// A lifetime.
#[derive(Drop, Clone, PartialEq, Eq, Hash)]
pub enum LifetimeRef {
    Named(Name),
    /// `'static`
    Static,
    /// `'_`
    Placeholder,
    /// A parameter of a definition.
    Param(LifetimeParamId),
    /// What could not be lowered.
    Error,
}

impl ExactEq for LifetimeRef {
    ghost eq_decides = { Prim.search exact };
}

impl TryClone for LifetimeRef {
    ghost clone_is_same = { Prim.search exact };
}

/// A type.
#[derive(Drop, PartialEq, Eq, Hash)]
pub enum TypeRef {
    /// `!`
    Never,
    /// `_`
    Placeholder,
    /// What could not be lowered.
    Error,
    Tuple(ShortList<TypeRefId>),
    Path(Path),
    RawPtr(TypeRefId, Mutability),
    Reference(Boxed<RefType>),
    Array(ArrayType),
    Slice(TypeRefId),
    /// A function pointer. The last entry of its parameters is the return type.
    Fn(Boxed<FnType>),
    ImplTrait(Seq<TypeBound>),
    DynTrait(Seq<TypeBound>),
    TypeParam(TypeParamId),
    /// A type, and a pattern that its values match.
    PatternType(TypeRefId, PatId),
}

impl Clone for TypeRef {
    ghost is_clone = { λ x y. y ≡ x };

    fn clone(&self) -> Result<TypeRef, AllocError> {
        match self {
            TypeRef::Never => Ok(TypeRef::Never),
            TypeRef::Placeholder => Ok(TypeRef::Placeholder),
            TypeRef::Error => Ok(TypeRef::Error),
            TypeRef::Tuple(types) => Ok(TypeRef::Tuple(types.try_clone()?)),
            TypeRef::Path(path) => Ok(TypeRef::Path(path.try_clone()?)),
            TypeRef::RawPtr(ty, mutability) => Ok(TypeRef::RawPtr(*ty, *mutability)),
            TypeRef::Reference(reference) => Ok(TypeRef::Reference(reference.try_clone()?)),
            TypeRef::Array(array) => Ok(TypeRef::Array(array.try_clone()?)),
            TypeRef::Slice(ty) => Ok(TypeRef::Slice(*ty)),
            TypeRef::Fn(function) => Ok(TypeRef::Fn(function.try_clone()?)),
            TypeRef::ImplTrait(bounds) => Ok(TypeRef::ImplTrait(bounds.try_clone()?)),
            TypeRef::DynTrait(bounds) => Ok(TypeRef::DynTrait(bounds.try_clone()?)),
            TypeRef::TypeParam(param) => Ok(TypeRef::TypeParam(*param)),
            TypeRef::PatternType(ty, pat) => Ok(TypeRef::PatternType(*ty, *pat)),
        }
    }
}

impl ExactEq for TypeRef {
    ghost use Rattle.hir_node.specs.same.SameTypes.{types_decide};

    ghost eq_decides = { types_decide };
}

impl TryClone for TypeRef {
    ghost clone_is_same = { λ x y h. h };
}
