//! Helpers that make `match`, loops, labels, jumps, and `let` in a condition. Each adds one node as the last
//! of its arena; `while_` adds three expressions. An error says that an allocation fails or that the builder
//! has no id left; but for `while_` it leaves the builder as it was.

ghost use Rattle.std.specs.Prelude.{◌≡◌, length, Some, None, IfOk, IfErr};
ghost use Rattle.hir_make.specs.Adding.{AddsExpr, RefusesExpr, AddsLabel, RefusesLabel, with_plain_break, with_while_test, RefusesWhile};
ghost use Rattle.hir_make.specs.Parts.{label_named};

use crate::adding::add_expr;
use hir_base::Name;
use hir_collections::Seq;
use hir_error::HirError;
use hir_node::{Expr, ExprId, Label, LabelId, LoopSource, MatchArm, PatId};
use hir_store::ExpressionStoreBuilder;
use std::alloc::Global;

/// Adds `match expr { arms }`.
///
/// An error, where an allocation fails or no id is left, leaves the builder as it was.
pub fn match_(
    builder: &mut ExpressionStoreBuilder,
    expr: ExprId,
    arms: Vec<MatchArm>,
) -> Result<ExprId, HirError>
    ensures ok { IfOk result (λ id. AddsExpr builder.old (Expr.Match expr arms.items) id builder.new) }
    ensures err { IfErr result (λ fault. RefusesExpr builder.old fault builder.new) }
{
    let arms = Seq::from_vec(arms);
    add_expr(builder, Expr::Match { expr, arms })
}

/// The arm `pat => expr`.
pub fn arm(pat: PatId, expr: ExprId) -> MatchArm
    ensures { result ≡ record { pat = pat; guard = None; expr = expr } }
{
    MatchArm {
        pat,
        guard: None,
        expr,
    }
}

/// The arm `pat if guard => expr`.
pub fn arm_if(pat: PatId, guard: ExprId, expr: ExprId) -> MatchArm
    ensures { result ≡ record { pat = pat; guard = Some guard; expr = expr } }
{
    MatchArm {
        pat,
        guard: Some(guard),
        expr,
    }
}

/// Adds the condition `let pat = expr`, as an `if` or a guard has it. The statement is `let_`.
///
/// An error, where an allocation fails or no id is left, leaves the builder as it was.
pub fn let_expr(
    builder: &mut ExpressionStoreBuilder,
    pat: PatId,
    expr: ExprId,
) -> Result<ExprId, HirError>
    ensures ok { IfOk result (λ id. AddsExpr builder.old (Expr.Let pat expr) id builder.new) }
    ensures err { IfErr result (λ fault. RefusesExpr builder.old fault builder.new) }
{
    add_expr(builder, Expr::Let { pat, expr })
}

/// Adds the label `name`, which has its apostrophe, as `'outer`.
///
/// An error, where an allocation fails or no id is left, leaves the builder as it was.
pub fn label(
    alloc: Global,
    builder: &mut ExpressionStoreBuilder,
    name: &str,
) -> Result<LabelId, HirError>
    ensures ok { IfOk result (λ id. AddsLabel builder.old (label_named name.now) id builder.new) }
    ensures err { IfErr result (λ fault. RefusesLabel builder.old fault builder.new) }
{
    let name = Name::new(alloc, name)?;
    Ok(builder.alloc_label(Label { name })?)
}

/// Adds `loop body`, with `label:` before it where there is one. The body is a block.
///
/// An error, where an allocation fails or no id is left, leaves the builder as it was.
pub fn loop_(
    builder: &mut ExpressionStoreBuilder,
    label: Option<LabelId>,
    body: ExprId,
) -> Result<ExprId, HirError>
    ensures ok { IfOk result (λ id.
        AddsExpr builder.old (Expr.Loop body label LoopSource.Loop) id builder.new) }
    ensures err { IfErr result (λ fault. RefusesExpr builder.old fault builder.new) }
{
    add_expr(
        builder,
        Expr::Loop {
            body,
            label,
            source: LoopSource::Loop,
        },
    )
}

/// Adds `while condition body`, with `label:` before it where there is one, as rust-analyzer lowers it:
/// `loop if condition body else break`. The `break`, the `if` and the loop come in this order, and the id is
/// that of the loop. The body is a block.
///
/// An error, where an allocation fails or no id is left, leaves the builder as it was, or with the `break`,
/// or with the `break` and the `if`.
pub fn while_(
    builder: &mut ExpressionStoreBuilder,
    label: Option<LabelId>,
    condition: ExprId,
    body: ExprId,
) -> Result<ExprId, HirError>
    ensures ok { IfOk result (λ id. AddsExpr (with_while_test builder.old condition body)
        (Expr.Loop (length (with_plain_break builder.old).exprs) label LoopSource.While) id builder.new) }
    ensures err { IfErr result (λ fault. RefusesWhile builder.old condition body fault builder.new) }
{
    let stop = builder.alloc_expr(Expr::Break {
        expr: None,
        label: None,
    })?;
    let test = builder.alloc_expr(Expr::If {
        condition,
        then_branch: body,
        else_branch: Some(stop),
    })?;
    add_expr(
        builder,
        Expr::Loop {
            body: test,
            label,
            source: LoopSource::While,
        },
    )
}

/// Adds `break label value`, each where there is one.
///
/// An error, where an allocation fails or no id is left, leaves the builder as it was.
pub fn break_(
    builder: &mut ExpressionStoreBuilder,
    label: Option<LabelId>,
    value: Option<ExprId>,
) -> Result<ExprId, HirError>
    ensures ok { IfOk result (λ id. AddsExpr builder.old (Expr.Break value label) id builder.new) }
    ensures err { IfErr result (λ fault. RefusesExpr builder.old fault builder.new) }
{
    add_expr(builder, Expr::Break { expr: value, label })
}

/// Adds `continue label`, or `continue`.
///
/// An error, where an allocation fails or no id is left, leaves the builder as it was.
pub fn continue_(
    builder: &mut ExpressionStoreBuilder,
    label: Option<LabelId>,
) -> Result<ExprId, HirError>
    ensures ok { IfOk result (λ id. AddsExpr builder.old (Expr.Continue label) id builder.new) }
    ensures err { IfErr result (λ fault. RefusesExpr builder.old fault builder.new) }
{
    add_expr(builder, Expr::Continue { label })
}

/// Adds `return value`, or `return`.
///
/// An error, where an allocation fails or no id is left, leaves the builder as it was.
pub fn return_(
    builder: &mut ExpressionStoreBuilder,
    value: Option<ExprId>,
) -> Result<ExprId, HirError>
    ensures ok { IfOk result (λ id. AddsExpr builder.old (Expr.Return value) id builder.new) }
    ensures err { IfErr result (λ fault. RefusesExpr builder.old fault builder.new) }
{
    add_expr(builder, Expr::Return { expr: value })
}
