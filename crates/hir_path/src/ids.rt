//! The ids of what a store holds: expressions, patterns, bindings, labels, types and lifetimes.
//! Each is the number of an item in an arena; ids of two kinds can't be mixed up.
ghost use Rattle.std.specs.Prelude.{◌≡◌, Some, None, IsTrue, IsSome, ◌↔◌, codes};
ghost use Rattle.hir_collections.specs.Exact.{exact};
ghost use Rattle.hir_path.specs.Ids.{expr_of, pat_of, expr_or_pat_text};

use hir_collections::{ExactEq, Idx, Kind, TryClone};
use std::fmt::{self, Debug, Display};

/// The kind of expressions. It is a marker: no value of it exists.
pub enum ExprKind {}

impl Kind for ExprKind {
    ghost name = { codes "ExprId" };

    fn name() -> &'static str {
        "ExprId"
    }
}

/// The kind of patterns. It is a marker: no value of it exists.
pub enum PatKind {}

impl Kind for PatKind {
    ghost name = { codes "PatId" };

    fn name() -> &'static str {
        "PatId"
    }
}

/// The kind of bindings. It is a marker: no value of it exists.
pub enum BindingKind {}

impl Kind for BindingKind {
    ghost name = { codes "BindingId" };

    fn name() -> &'static str {
        "BindingId"
    }
}

/// The kind of labels. It is a marker: no value of it exists.
pub enum LabelKind {}

impl Kind for LabelKind {
    ghost name = { codes "LabelId" };

    fn name() -> &'static str {
        "LabelId"
    }
}

/// The kind of references to types. It is a marker: no value of it exists.
pub enum TypeRefKind {}

impl Kind for TypeRefKind {
    ghost name = { codes "TypeRefId" };

    fn name() -> &'static str {
        "TypeRefId"
    }
}

/// The kind of references to lifetimes. It is a marker: no value of it exists.
pub enum LifetimeRefKind {}

impl Kind for LifetimeRefKind {
    ghost name = { codes "LifetimeRefId" };

    fn name() -> &'static str {
        "LifetimeRefId"
    }
}

/// The number of an expression.
pub type ExprId = Idx<ExprKind>;

/// The number of a pattern.
pub type PatId = Idx<PatKind>;

/// The number of a binding.
pub type BindingId = Idx<BindingKind>;

/// The number of a label.
pub type LabelId = Idx<LabelKind>;

/// The number of a reference to a type.
pub type TypeRefId = Idx<TypeRefKind>;

/// The number of a reference to a lifetime.
pub type LifetimeRefId = Idx<LifetimeRefKind>;

/// The number of an expression or of a pattern.
#[derive(Clone, Copy, PartialEq, Eq, Hash)]
pub enum ExprOrPatId {
    ExprId(ExprId),
    PatId(PatId),
}

impl ExprOrPatId {
    /// Returns the id, if it is that of an expression.
    pub fn as_expr(self) -> Option<ExprId>
        ensures { result ≡ expr_of self }
    {
        match self {
            ExprOrPatId::ExprId(id) => Some(id),
            ExprOrPatId::PatId(_) => None,
        }
    }

    /// Returns whether it is that of an expression.
    pub fn is_expr(&self) -> bool
        ensures { IsTrue result ↔ IsSome (expr_of self.now) }
    {
        match self {
            ExprOrPatId::ExprId(_) => true,
            ExprOrPatId::PatId(_) => false,
        }
    }

    /// Returns the id, if it is that of a pattern.
    pub fn as_pat(self) -> Option<PatId>
        ensures { result ≡ pat_of self }
    {
        match self {
            ExprOrPatId::ExprId(_) => None,
            ExprOrPatId::PatId(id) => Some(id),
        }
    }

    /// Returns whether it is that of a pattern.
    pub fn is_pat(&self) -> bool
        ensures { IsTrue result ↔ IsSome (pat_of self.now) }
    {
        match self {
            ExprOrPatId::ExprId(_) => false,
            ExprOrPatId::PatId(_) => true,
        }
    }
}

/// Writes the text of the id that it holds, as `ExprId(3)`.
impl Display for ExprOrPatId {
    ghost output = { λ id. Some (expr_or_pat_text id) };

    fn fmt<W: fmt::Write>(&self, f: &mut fmt::Formatter<W>) -> fmt::Result {
        match self {
            ExprOrPatId::ExprId(id) => Display::fmt(id, f),
            ExprOrPatId::PatId(id) => Display::fmt(id, f),
        }
    }
}

impl Debug for ExprOrPatId {
    ghost debug_output = { λ id. Some (expr_or_pat_text id) };

    fn fmt<W: fmt::Write>(&self, f: &mut fmt::Formatter<W>) -> fmt::Result {
        Display::fmt(self, f)
    }
}

/// The id of an expression.
impl From<ExprId> for ExprOrPatId {
    ghost use Rattle.hir_path.specs.declared.ids.ExprOrPatId.TheVariants.{ExprId as of_expr};

    ghost from_gives = { λ id either. either ≡ of_expr id };

    fn from(id: ExprId) -> ExprOrPatId {
        ExprOrPatId::ExprId(id)
    }
}

/// The id of a pattern.
impl From<PatId> for ExprOrPatId {
    ghost use Rattle.hir_path.specs.declared.ids.ExprOrPatId.TheVariants.{PatId as of_pat};

    ghost from_gives = { λ id either. either ≡ of_pat id };

    fn from(id: PatId) -> ExprOrPatId {
        ExprOrPatId::PatId(id)
    }
}

impl ExactEq for ExprOrPatId {
    ghost eq_decides = { Prim.search exact };
}

impl TryClone for ExprOrPatId {
    ghost clone_is_same = { Prim.search exact };
}
