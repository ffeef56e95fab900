//! Enums of ids: what may own, define or name something, by kind.
//! Each variant holds the id of its name; the three owners of expression stores convert into
//! `ExpressionStoreOwnerId`.
ghost use Rattle.std.specs.Prelude.{◌≡◌};
ghost use Rattle.hir_collections.specs.Exact.{exact};

use crate::ids::{
    ConstId, EnumId, EnumVariantId, FunctionId, ImplId, Macro2Id, MacroRulesId, ProcMacroId,
    StaticId, StructId, TraitId, TypeAliasId, UnionId,
};
use hir_collections::{ExactEq, TryClone};

/// A struct, a union or an enum.
#[derive(Clone, Copy, PartialEq, Eq, Hash)]
pub enum AdtId {
    StructId(StructId),
    UnionId(UnionId),
    EnumId(EnumId),
}

impl ExactEq for AdtId {
    ghost eq_decides = { Prim.search exact };
}

impl TryClone for AdtId {
    ghost clone_is_same = { Prim.search exact };
}

/// What may have generic parameters.
#[derive(Clone, Copy, PartialEq, Eq, Hash)]
pub enum GenericDefId {
    AdtId(AdtId),
    ConstId(ConstId),
    FunctionId(FunctionId),
    ImplId(ImplId),
    StaticId(StaticId),
    TraitId(TraitId),
    TypeAliasId(TypeAliasId),
}

impl ExactEq for GenericDefId {
    ghost eq_decides = { Prim.search exact };
}

impl TryClone for GenericDefId {
    ghost clone_is_same = { Prim.search exact };
}

/// What has a body.
#[derive(Clone, Copy, PartialEq, Eq, Hash)]
pub enum DefWithBodyId {
    /// Its block.
    FunctionId(FunctionId),
    /// Its initializer.
    StaticId(StaticId),
    /// Its initializer.
    ConstId(ConstId),
    /// The discriminant of a variant of an enum.
    VariantId(EnumVariantId),
}

impl ExactEq for DefWithBodyId {
    ghost eq_decides = { Prim.search exact };
}

impl TryClone for DefWithBodyId {
    ghost clone_is_same = { Prim.search exact };
}

/// What has fields.
#[derive(Clone, Copy, PartialEq, Eq, Hash)]
pub enum VariantId {
    EnumVariantId(EnumVariantId),
    StructId(StructId),
    UnionId(UnionId),
}

impl ExactEq for VariantId {
    ghost eq_decides = { Prim.search exact };
}

impl TryClone for VariantId {
    ghost clone_is_same = { Prim.search exact };
}

/// What an expression store belongs to.
#[derive(Clone, Copy, PartialEq, Eq, Hash)]
pub enum ExpressionStoreOwnerId {
    /// The signature of a definition.
    Signature(GenericDefId),
    /// The body of a definition.
    Body(DefWithBodyId),
    /// The fields of a struct, a union or a variant of an enum.
    VariantFields(VariantId),
}

impl ExactEq for ExpressionStoreOwnerId {
    ghost eq_decides = { Prim.search exact };
}

impl TryClone for ExpressionStoreOwnerId {
    ghost clone_is_same = { Prim.search exact };
}

impl From<GenericDefId> for ExpressionStoreOwnerId {
    ghost use Rattle.hir_base.specs.declared.defs.ExpressionStoreOwnerId.TheVariants.{Signature};

    ghost from_gives = { λ id owner. owner ≡ Signature id };

    fn from(id: GenericDefId) -> ExpressionStoreOwnerId {
        ExpressionStoreOwnerId::Signature(id)
    }
}

impl From<DefWithBodyId> for ExpressionStoreOwnerId {
    ghost use Rattle.hir_base.specs.declared.defs.ExpressionStoreOwnerId.TheVariants.{Body};

    ghost from_gives = { λ id owner. owner ≡ Body id };

    fn from(id: DefWithBodyId) -> ExpressionStoreOwnerId {
        ExpressionStoreOwnerId::Body(id)
    }
}

impl From<VariantId> for ExpressionStoreOwnerId {
    ghost use Rattle.hir_base.specs.declared.defs.ExpressionStoreOwnerId.TheVariants.{VariantFields};

    ghost from_gives = { λ id owner. owner ≡ VariantFields id };

    fn from(id: VariantId) -> ExpressionStoreOwnerId {
        ExpressionStoreOwnerId::VariantFields(id)
    }
}

/// A macro, by how it is written.
#[derive(Clone, Copy, PartialEq, Eq, Hash)]
pub enum MacroId {
    Macro2Id(Macro2Id),
    MacroRulesId(MacroRulesId),
    ProcMacroId(ProcMacroId),
}

impl ExactEq for MacroId {
    ghost eq_decides = { Prim.search exact };
}

impl TryClone for MacroId {
    ghost clone_is_same = { Prim.search exact };
}

/// What may be a lang item.
#[derive(Clone, Copy, PartialEq, Eq, Hash)]
pub enum LangItemTarget {
    ImplId(ImplId),
    EnumId(EnumId),
    FunctionId(FunctionId),
    StaticId(StaticId),
    StructId(StructId),
    UnionId(UnionId),
    TypeAliasId(TypeAliasId),
    TraitId(TraitId),
    EnumVariantId(EnumVariantId),
    ConstId(ConstId),
    MacroId(MacroId),
}

impl ExactEq for LangItemTarget {
    ghost eq_decides = { Prim.search exact };
}

impl TryClone for LangItemTarget {
    ghost clone_is_same = { Prim.search exact };
}

/// What has a name of its own, or may be written without one.
#[derive(Clone, Copy, PartialEq, Eq, Hash)]
pub enum NamedDef {
    EnumId(EnumId),
    FunctionId(FunctionId),
    StaticId(StaticId),
    StructId(StructId),
    UnionId(UnionId),
    TypeAliasId(TypeAliasId),
    TraitId(TraitId),
    EnumVariantId(EnumVariantId),
    ConstId(ConstId),
    MacroId(MacroId),
}

impl ExactEq for NamedDef {
    ghost eq_decides = { Prim.search exact };
}

impl TryClone for NamedDef {
    ghost clone_is_same = { Prim.search exact };
}
