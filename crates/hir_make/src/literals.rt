//! Helpers that make literals; `int`, a number without a type, is with the other expressions.

ghost use Rattle.std.specs.Prelude.{◌≡◌, Some, None, IfOk, IfErr};
ghost use Rattle.hir_node.specs.declared.literal.Literal.TheVariants as literal;
ghost use Rattle.hir_make.specs.Adding.{AddsExpr, RefusesExpr};

use crate::adding::add_expr;
use hir_base::{BuiltinInt, BuiltinUint};
use hir_collections::Text;
use hir_error::HirError;
use hir_node::{Expr, ExprId, FloatTypeWrapper, Literal};
use hir_store::ExpressionStoreBuilder;
use std::alloc::Global;

/// Adds `true` or `false`.
///
/// An error, where an allocation fails or no id is left, leaves the builder as it was.
pub fn bool_(builder: &mut ExpressionStoreBuilder, value: bool) -> Result<ExprId, HirError>
    ensures ok { IfOk result (λ id. AddsExpr builder.old (Expr.Literal (literal.Bool value)) id builder.new) }
    ensures err { IfErr result (λ fault. RefusesExpr builder.old fault builder.new) }
{
    add_expr(builder, Expr::Literal(Literal::Bool(value)))
}

/// Adds the character `value`, as `'a'`.
///
/// An error, where an allocation fails or no id is left, leaves the builder as it was.
pub fn char_(builder: &mut ExpressionStoreBuilder, value: char) -> Result<ExprId, HirError>
    ensures ok { IfOk result (λ id. AddsExpr builder.old (Expr.Literal (literal.Char value)) id builder.new) }
    ensures err { IfErr result (λ fault. RefusesExpr builder.old fault builder.new) }
{
    add_expr(builder, Expr::Literal(Literal::Char(value)))
}

/// Adds the string of this text, which is written without quotes and escapes.
///
/// An error, where an allocation fails or no id is left, leaves the builder as it was.
pub fn string(
    alloc: Global,
    builder: &mut ExpressionStoreBuilder,
    text: &str,
) -> Result<ExprId, HirError>
    ensures ok { IfOk result (λ id.
        AddsExpr builder.old (Expr.Literal (literal.String text.now)) id builder.new) }
    ensures err { IfErr result (λ fault. RefusesExpr builder.old fault builder.new) }
{
    let text = Text::from_str(alloc, text)?;
    add_expr(builder, Expr::Literal(Literal::String(text)))
}

/// Adds the floating point number of this text, as `1.5`, which has no type written after it. The text isn't
/// tested.
///
/// An error, where an allocation fails or no id is left, leaves the builder as it was.
pub fn float(
    alloc: Global,
    builder: &mut ExpressionStoreBuilder,
    text: &str,
) -> Result<ExprId, HirError>
    ensures ok { IfOk result (λ id.
        AddsExpr builder.old (Expr.Literal (literal.Float text.now None)) id builder.new) }
    ensures err { IfErr result (λ fault. RefusesExpr builder.old fault builder.new) }
{
    let number = FloatTypeWrapper::new(Text::from_str(alloc, text)?);
    add_expr(builder, Expr::Literal(Literal::Float(number, None)))
}

/// Adds the number `value` with its signed type, as `7i32`.
///
/// An error, where an allocation fails or no id is left, leaves the builder as it was.
pub fn typed_int(
    builder: &mut ExpressionStoreBuilder,
    value: i128,
    suffix: BuiltinInt,
) -> Result<ExprId, HirError>
    ensures ok { IfOk result (λ id.
        AddsExpr builder.old (Expr.Literal (literal.Int value (Some suffix))) id builder.new) }
    ensures err { IfErr result (λ fault. RefusesExpr builder.old fault builder.new) }
{
    add_expr(builder, Expr::Literal(Literal::Int(value, Some(suffix))))
}

/// Adds the number `value` with its unsigned type, as `7u8`.
///
/// An error, where an allocation fails or no id is left, leaves the builder as it was.
pub fn typed_uint(
    builder: &mut ExpressionStoreBuilder,
    value: u128,
    suffix: BuiltinUint,
) -> Result<ExprId, HirError>
    ensures ok { IfOk result (λ id.
        AddsExpr builder.old (Expr.Literal (literal.Uint value (Some suffix))) id builder.new) }
    ensures err { IfErr result (λ fault. RefusesExpr builder.old fault builder.new) }
{
    add_expr(builder, Expr::Literal(Literal::Uint(value, Some(suffix))))
}
