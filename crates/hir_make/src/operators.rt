//! Helpers that make operators, indexing and arrays.

ghost use Rattle.std.specs.Prelude.{◌≡◌, Some, IfOk, IfErr};
ghost use Rattle.hir_make.specs.Adding.{AddsExpr, RefusesExpr};

use crate::adding::add_expr;
use hir_base::{BinaryOp, UnaryOp};
use hir_collections::ShortList;
use hir_error::HirError;
use hir_node::{Array, Expr, ExprId};
use hir_store::ExpressionStoreBuilder;
use std::alloc::Global;

/// Adds `lhs op rhs`, as `a + b`, `a == b`, `a && b` and `a += b`. A plain `=` is `assign`.
///
/// An error, where an allocation fails or no id is left, leaves the builder as it was.
pub fn binary(
    builder: &mut ExpressionStoreBuilder,
    lhs: ExprId,
    op: BinaryOp,
    rhs: ExprId,
) -> Result<ExprId, HirError>
    ensures ok { IfOk result (λ id. AddsExpr builder.old (Expr.BinaryOp lhs rhs (Some op)) id builder.new) }
    ensures err { IfErr result (λ fault. RefusesExpr builder.old fault builder.new) }
{
    add_expr(
        builder,
        Expr::BinaryOp {
            lhs,
            rhs,
            op: Some(op),
        },
    )
}

/// Adds `op expr`: `*expr`, `!expr` or `-expr`. `&expr` is `reference`.
///
/// An error, where an allocation fails or no id is left, leaves the builder as it was.
pub fn unary(
    builder: &mut ExpressionStoreBuilder,
    op: UnaryOp,
    expr: ExprId,
) -> Result<ExprId, HirError>
    ensures ok { IfOk result (λ id. AddsExpr builder.old (Expr.UnaryOp expr op) id builder.new) }
    ensures err { IfErr result (λ fault. RefusesExpr builder.old fault builder.new) }
{
    add_expr(builder, Expr::UnaryOp { expr, op })
}

/// Adds `base[index]`.
///
/// An error, where an allocation fails or no id is left, leaves the builder as it was.
pub fn index(
    builder: &mut ExpressionStoreBuilder,
    base: ExprId,
    index: ExprId,
) -> Result<ExprId, HirError>
    ensures ok { IfOk result (λ id. AddsExpr builder.old (Expr.Index base index) id builder.new) }
    ensures err { IfErr result (λ fault. RefusesExpr builder.old fault builder.new) }
{
    add_expr(builder, Expr::Index { base, index })
}

/// Adds the array `[elements]`.
///
/// An error, where an allocation fails or no id is left, leaves the builder as it was.
pub fn array(
    alloc: Global,
    builder: &mut ExpressionStoreBuilder,
    elements: &[ExprId],
) -> Result<ExprId, HirError>
    ensures ok { IfOk result (λ id.
        AddsExpr builder.old (Expr.Array (Array.ElementList elements.now)) id builder.new) }
    ensures err { IfErr result (λ fault. RefusesExpr builder.old fault builder.new) }
{
    let elements = ShortList::from_slice(alloc, elements)?;
    add_expr(builder, Expr::Array(Array::ElementList { elements }))
}
