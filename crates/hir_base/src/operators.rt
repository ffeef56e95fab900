//! Operators of expressions and patterns.
ghost use Rattle.hir_collections.specs.Exact.{exact};

use hir_collections::{ExactEq, TryClone};

/// Operators on numbers and bits. Each may also come before `=`.
#[derive(Clone, Copy, PartialEq, Eq, Hash)]
pub enum ArithOp {
    /// `+`
    Add,
    /// `-`
    Sub,
    /// `*`
    Mul,
    /// `/`
    Div,
    /// `%`
    Rem,
    /// `<<`
    Shl,
    /// `>>`
    Shr,
    /// `^`
    BitXor,
    /// `|`
    BitOr,
    /// `&`
    BitAnd,
}

impl ExactEq for ArithOp {
    ghost eq_decides = { Prim.search exact };
}

impl TryClone for ArithOp {
    ghost clone_is_same = { Prim.search exact };
}

/// Short-circuiting operators on truth values.
#[derive(Clone, Copy, PartialEq, Eq, Hash)]
pub enum LogicOp {
    /// `&&`
    And,
    /// `||`
    Or,
}

impl ExactEq for LogicOp {
    ghost eq_decides = { Prim.search exact };
}

impl TryClone for LogicOp {
    ghost clone_is_same = { Prim.search exact };
}

/// Which side of a comparison has to be the smaller.
#[derive(Clone, Copy, PartialEq, Eq, Hash)]
pub enum Ordering {
    /// `<` and `<=`
    Less,
    /// `>` and `>=`
    Greater,
}

impl ExactEq for Ordering {
    ghost eq_decides = { Prim.search exact };
}

impl TryClone for Ordering {
    ghost clone_is_same = { Prim.search exact };
}

/// Comparisons.
#[derive(Clone, Copy, PartialEq, Eq, Hash)]
pub enum CmpOp {
    /// `==`, or `!=` if it is negated.
    Eq { negated: bool },
    /// `<` and `>` if it is strict, else `<=` and `>=`.
    Ord { ordering: Ordering, strict: bool },
}

impl ExactEq for CmpOp {
    ghost eq_decides = { Prim.search exact };
}

impl TryClone for CmpOp {
    ghost clone_is_same = { Prim.search exact };
}

/// Operators between two expressions.
#[derive(Clone, Copy, PartialEq, Eq, Hash)]
pub enum BinaryOp {
    LogicOp(LogicOp),
    ArithOp(ArithOp),
    CmpOp(CmpOp),
    /// `=`, after the operator if there is one.
    Assignment { op: Option<ArithOp> },
}

impl ExactEq for BinaryOp {
    ghost eq_decides = { Prim.search exact };
}

impl TryClone for BinaryOp {
    ghost clone_is_same = { Prim.search exact };
}

/// Operators of ranges.
#[derive(Clone, Copy, PartialEq, Eq, Hash)]
pub enum RangeOp {
    /// `..`, without the end.
    Exclusive,
    /// `..=`, with the end.
    Inclusive,
}

impl ExactEq for RangeOp {
    ghost eq_decides = { Prim.search exact };
}

impl TryClone for RangeOp {
    ghost clone_is_same = { Prim.search exact };
}

/// Operators before an expression.
#[derive(Clone, Copy, PartialEq, Eq, Hash)]
pub enum UnaryOp {
    /// `*`
    Deref,
    /// `!`
    Not,
    /// `-`
    Neg,
}

impl ExactEq for UnaryOp {
    ghost eq_decides = { Prim.search exact };
}

impl TryClone for UnaryOp {
    ghost clone_is_same = { Prim.search exact };
}
