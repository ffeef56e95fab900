//! What a line asks.
ghost use Rattle.hir_collections.specs.Exact.{exact};

use hir_base::{HygieneId, Name};
use hir_collections::ExactEq;
use hir_node::ExprId;

/// A question on a store alone.
#[derive(Clone, Copy, PartialEq, Eq)]
pub enum StoreQuestion {
    /// `children E`: the child expressions.
    Children(ExprId),
    /// `root-of E`: the first root whose end of expressions is past this id.
    RootOf(ExprId),
}

impl ExactEq for StoreQuestion {
    ghost eq_decides = { Prim.search exact };
}

/// A question on the body of a store.
#[derive(Drop, PartialEq, Eq)]
pub enum BodyQuestion {
    /// `chain E`: the names that the expression sees, innermost first.
    Chain(ExprId),
    /// `resolve E NAME`, `resolve E NAME N`: the binding that the name of this hygiene resolves to at the
    /// expression.
    Resolve(ExprId, Name, HygieneId),
    /// `print`: the body, printed as that of a function.
    Print,
    /// `captures E`: the bindings that the closure captures.
    Captures(ExprId),
}

impl ExactEq for BodyQuestion {
    ghost use Rattle.hir_show_grammar.specs.same.SameQuestions.{body_questions_decide};

    ghost eq_decides = { body_questions_decide };
}

/// A line that asks something.
#[derive(Drop, PartialEq, Eq)]
pub enum Question {
    OfStore(StoreQuestion),
    OfBody(BodyQuestion),
}

impl ExactEq for Question {
    ghost use Rattle.hir_show_grammar.specs.same.SameQuestions.{questions_decide};

    ghost eq_decides = { questions_decide };
}
