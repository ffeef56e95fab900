//! An id that a node names, of any of the six arenas.

ghost use Rattle.std.specs.Prelude.{Some};
ghost use Rattle.hir_collections.specs.Exact.{exact};

use hir_collections::ExactEq;
use hir_node::{BindingId, ExprId, LabelId, LifetimeRefId, PatId, TypeRefId};
use std::fmt;

/// An id that a node names, of any of the six arenas. Its text is the kind of id and the number, as
/// `LabelId(3)`.
#[derive(Clone, Copy, Drop, PartialEq, Eq)]
pub enum NamedId {
    Expr(ExprId),
    Pat(PatId),
    TypeRef(TypeRefId),
    Lifetime(LifetimeRefId),
    Binding(BindingId),
    Label(LabelId),
}

impl ExactEq for NamedId {
    ghost eq_decides = { Prim.search exact };
}

impl fmt::Display for NamedId {
    ghost use Rattle.hir_error.specs.NamedIds.{named_id_text};

    ghost output = { λ id. Some (named_id_text id) };

    fn fmt<W: fmt::Write>(&self, f: &mut fmt::Formatter<W>) -> fmt::Result {
        match self {
            NamedId::Expr(id) => write!(f, "ExprId({})", id.into_raw()),
            NamedId::Pat(id) => write!(f, "PatId({})", id.into_raw()),
            NamedId::TypeRef(id) => write!(f, "TypeRefId({})", id.into_raw()),
            NamedId::Lifetime(id) => write!(f, "LifetimeRefId({})", id.into_raw()),
            NamedId::Binding(id) => write!(f, "BindingId({})", id.into_raw()),
            NamedId::Label(id) => write!(f, "LabelId({})", id.into_raw()),
        }
    }
}

/// Writes the text that `Display` writes.
impl fmt::Debug for NamedId {
    ghost use Rattle.hir_error.specs.NamedIds.{named_id_text};

    ghost debug_output = { λ id. Some (named_id_text id) };

    fn fmt<W: fmt::Write>(&self, f: &mut fmt::Formatter<W>) -> fmt::Result {
        fmt::Display::fmt(self, f)
    }
}
