//! The facts about a definition outside of a store that a caller asked for, and nobody provided.
ghost use Rattle.hir_collections.specs.Exact.{exact};

use hir_base::{
    BlockId, CrateId, DefWithBodyId, EnumVariantId, GenericDefId, LifetimeParamId, NamedDef,
    TypeParamId, VariantId,
};
use hir_collections::{ExactEq, TryClone};
use std::fmt;
use thiserror::Error;

/// What is missing about a definition outside of a store, with its id. The text is the kind alone.
#[derive(Clone, Copy, Drop, PartialEq, Eq, Error)]
pub enum Missing {
    /// Whether the definition has a name, and which.
    #[error("Name")]
    Name(NamedDef),
    /// The enum of the variant.
    #[error("Variant")]
    Variant(EnumVariantId),
    /// What the crate is called.
    #[error("Crate")]
    Crate(CrateId),
    /// The signature of the definition.
    #[error("Signature")]
    Signature(GenericDefId),
    /// The body of the definition.
    #[error("Body")]
    Body(DefWithBodyId),
    /// The fields of the struct, the union or the variant of an enum.
    #[error("Fields")]
    Fields(VariantId),
    /// The type parameter among those of its parent.
    #[error("TypeParam")]
    TypeParam(TypeParamId),
    /// The lifetime parameter among those of its parent.
    #[error("LifetimeParam")]
    LifetimeParam(LifetimeParamId),
    /// The map of the block's definitions.
    #[error("DefMap")]
    DefMap(BlockId),
}

/// What is missing, and the id, as `Signature(FunctionId(7))`.
impl fmt::Debug for Missing {
    ghost use Rattle.std.specs.Prelude.{Some};
    ghost use Rattle.hir_store_core.specs.MissingTexts.{missing_text};

    ghost debug_output = { λ missing. Some (missing_text missing) };

    fn fmt<W: fmt::Write>(&self, f: &mut fmt::Formatter<W>) -> fmt::Result {
        match self {
            Missing::Name(id) => write!(f, "Name({id})"),
            Missing::Variant(id) => write!(f, "Variant({id})"),
            Missing::Crate(id) => write!(f, "Crate({id})"),
            Missing::Signature(id) => write!(f, "Signature({id})"),
            Missing::Body(id) => write!(f, "Body({id})"),
            Missing::Fields(id) => write!(f, "Fields({id})"),
            Missing::TypeParam(id) => write!(f, "TypeParam({id})"),
            Missing::LifetimeParam(id) => write!(f, "LifetimeParam({id})"),
            Missing::DefMap(id) => write!(f, "DefMap({id})"),
        }
    }
}

impl ExactEq for Missing {
    ghost eq_decides = { Prim.search exact };
}

impl TryClone for Missing {
    ghost clone_is_same = { Prim.search exact };
}
