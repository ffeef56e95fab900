//! The definitions whose signature keeps only the generic parameters, and how structs lie in memory.

ghost use Rattle.std.specs.Prelude.{◌≡◌, false, None};
ghost use Rattle.hir_collections.specs.Exact.{exact};
ghost use Rattle.hir_defs.specs.Tables.{plain_code, plain_tells, generic_def};

use hir_base::{
    AdtId, ConstId, EnumId, GenericDefId, ImplId, StaticId, TraitId, TypeAliasId, UnionId,
};
use hir_collections::{ExactEq, HasCode, TryClone};

/// A definition whose signature keeps only the generic parameters.
#[derive(Clone, Copy, PartialEq, Eq, Hash)]
pub enum PlainDef {
    Enum(EnumId),
    Union(UnionId),
    Const(ConstId),
    Static(StaticId),
    Impl(ImplId),
    Trait(TraitId),
    TypeAlias(TypeAliasId),
}

impl PlainDef {
    /// Returns the same definition, as one that may have generic parameters.
    pub fn generic_def(self) -> GenericDefId
        ensures { result ≡ generic_def self }
    {
        match self {
            PlainDef::Enum(id) => GenericDefId::AdtId(AdtId::EnumId(id)),
            PlainDef::Union(id) => GenericDefId::AdtId(AdtId::UnionId(id)),
            PlainDef::Const(id) => GenericDefId::ConstId(id),
            PlainDef::Static(id) => GenericDefId::StaticId(id),
            PlainDef::Impl(id) => GenericDefId::ImplId(id),
            PlainDef::Trait(id) => GenericDefId::TraitId(id),
            PlainDef::TypeAlias(id) => GenericDefId::TypeAliasId(id),
        }
    }
}

impl ExactEq for PlainDef {
    ghost eq_decides = { Prim.search exact };
}

impl TryClone for PlainDef {
    ghost clone_is_same = { Prim.search exact };
}

impl HasCode for PlainDef {
    ghost code = { plain_code };

    ghost code_tells = { λ x y. plain_tells _ x y (Prim.search exact) };
}

/// How a struct lies in memory: what `#[repr(..)]` says.
#[derive(Clone, Copy, PartialEq, Eq)]
pub struct Repr {
    /// Whether it is `repr(C)`.
    pub c: bool,
    /// The bytes of `align`, where it is written.
    pub align: Option<u64>,
    /// The bytes of `packed`, where it is written.
    pub pack: Option<u64>,
}

/// The layout of a struct for which no `#[repr(..)]` is written.
impl Default for Repr {
    ghost is_default = { λ repr. repr ≡ record { c = false; align = None; pack = None } };

    fn default() -> Repr {
        Repr {
            c: false,
            align: None,
            pack: None,
        }
    }
}

impl ExactEq for Repr {
    ghost eq_decides = { Prim.search exact };
}

impl TryClone for Repr {
    ghost clone_is_same = { Prim.search exact };
}
