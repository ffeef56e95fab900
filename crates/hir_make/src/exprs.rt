//! Helpers that make expressions. Each adds one expression as the last of the builder and returns its id; all
//! but `assign` add nothing else. An error says that an allocation fails or that the builder has no id left;
//! but for `assign` it leaves the builder as it was.

ghost use Rattle.std.specs.Prelude.{◌≡◌, ◌++◌, ◌∷◌, [], length, Some, None, IfOk, IfErr};
ghost use Rattle.hir_path.specs.Paths.{one_name};
ghost use Rattle.hir_node.specs.declared.type_ref.Rawness.TheVariants as rawness;
ghost use Rattle.hir_node.specs.declared.literal.Literal.TheVariants as literal;
ghost use Rattle.hir_make.specs.Adding.{AddsExpr, RefusesExpr, with_pat, RefusesAssign};
ghost use Rattle.hir_make.specs.Parts.{closure_of, block_of, plain_block, no_types};

use crate::adding::{add_expr, add_pat, path};
use hir_base::Name;
use hir_collections::{Seq, ShortList};
use hir_error::HirError;
use hir_node::{
    CaptureBy, ClosureKind, Expr, ExprId, Literal, Mutability, Pat, PatId, Rawness, Statement,
    TypeRefId, Unsafe,
};
use hir_store::ExpressionStoreBuilder;
use std::alloc::{AllocError, Global};

/// Adds the expression `name`, a path without hygiene.
///
/// An error, where an allocation fails or no id is left, leaves the builder as it was.
pub fn local(
    alloc: Global,
    builder: &mut ExpressionStoreBuilder,
    name: &str,
) -> Result<ExprId, HirError>
    ensures ok { IfOk result (λ id. AddsExpr builder.old (Expr.Path (one_name name.now)) id builder.new) }
    ensures err { IfErr result (λ fault. RefusesExpr builder.old fault builder.new) }
{
    let path = path(alloc, name)?;
    add_expr(builder, Expr::Path(path))
}

/// Adds the number `value`, which has no type written after it.
///
/// An error, where an allocation fails or no id is left, leaves the builder as it was.
pub fn int(builder: &mut ExpressionStoreBuilder, value: i128) -> Result<ExprId, HirError>
    ensures ok { IfOk result (λ id. AddsExpr builder.old
        (Expr.Literal (literal.Int value None)) id builder.new) }
    ensures err { IfErr result (λ fault. RefusesExpr builder.old fault builder.new) }
{
    add_expr(builder, Expr::Literal(Literal::Int(value, None)))
}

/// Adds the tuple `(exprs)`.
///
/// An error, where an allocation fails or no id is left, leaves the builder as it was.
pub fn tuple(
    alloc: Global,
    builder: &mut ExpressionStoreBuilder,
    exprs: &[ExprId],
) -> Result<ExprId, HirError>
    ensures ok { IfOk result (λ id. AddsExpr builder.old (Expr.Tuple exprs.now) id builder.new) }
    ensures err { IfErr result (λ fault. RefusesExpr builder.old fault builder.new) }
{
    let exprs = ShortList::from_slice(alloc, exprs)?;
    add_expr(builder, Expr::Tuple { exprs })
}

/// Adds the call `callee(args)`.
///
/// An error, where an allocation fails or no id is left, leaves the builder as it was.
pub fn call(
    alloc: Global,
    builder: &mut ExpressionStoreBuilder,
    callee: ExprId,
    args: &[ExprId],
) -> Result<ExprId, HirError>
    ensures ok { IfOk result (λ id. AddsExpr builder.old (Expr.Call callee args.now) id builder.new) }
    ensures err { IfErr result (λ fault. RefusesExpr builder.old fault builder.new) }
{
    let args = ShortList::from_slice(alloc, args)?;
    add_expr(builder, Expr::Call { callee, args })
}

/// Adds the call `receiver.name(args)`, without generic arguments.
///
/// An error, where an allocation fails or no id is left, leaves the builder as it was.
pub fn method_call(
    alloc: Global,
    builder: &mut ExpressionStoreBuilder,
    receiver: ExprId,
    name: &str,
    args: &[ExprId],
) -> Result<ExprId, HirError>
    ensures ok { IfOk result (λ id.
        AddsExpr builder.old (Expr.MethodCall receiver name.now args.now None) id builder.new) }
    ensures err { IfErr result (λ fault. RefusesExpr builder.old fault builder.new) }
{
    let method_name = Name::new(alloc, name)?;
    let args = ShortList::from_slice(alloc, args)?;
    add_expr(
        builder,
        Expr::MethodCall {
            receiver,
            method_name,
            args,
            generic_args: None,
        },
    )
}

/// Adds `expr.name`, or `expr.0` where the name is the number of a field of a tuple.
///
/// An error, where an allocation fails or no id is left, leaves the builder as it was.
pub fn field(
    alloc: Global,
    builder: &mut ExpressionStoreBuilder,
    expr: ExprId,
    name: &str,
) -> Result<ExprId, HirError>
    ensures ok { IfOk result (λ id. AddsExpr builder.old (Expr.Field expr name.now) id builder.new) }
    ensures err { IfErr result (λ fault. RefusesExpr builder.old fault builder.new) }
{
    let name = Name::new(alloc, name)?;
    add_expr(builder, Expr::Field { expr, name })
}

/// Adds `&expr` or `&mut expr`.
///
/// An error, where an allocation fails or no id is left, leaves the builder as it was.
pub fn reference(
    builder: &mut ExpressionStoreBuilder,
    expr: ExprId,
    mutability: Mutability,
) -> Result<ExprId, HirError>
    ensures ok { IfOk result (λ id.
        AddsExpr builder.old (Expr.Ref expr rawness.Ref mutability) id builder.new) }
    ensures err { IfErr result (λ fault. RefusesExpr builder.old fault builder.new) }
{
    add_expr(
        builder,
        Expr::Ref {
            expr,
            rawness: Rawness::Ref,
            mutability,
        },
    )
}

/// Adds `if condition then_branch`, with `else else_branch` where there is one. Each branch is a block, and
/// the second may be another `if`.
///
/// An error, where an allocation fails or no id is left, leaves the builder as it was.
pub fn if_(
    builder: &mut ExpressionStoreBuilder,
    condition: ExprId,
    then_branch: ExprId,
    else_branch: Option<ExprId>,
) -> Result<ExprId, HirError>
    ensures ok { IfOk result (λ id.
        AddsExpr builder.old (Expr.If condition then_branch else_branch) id builder.new) }
    ensures err { IfErr result (λ fault. RefusesExpr builder.old fault builder.new) }
{
    add_expr(
        builder,
        Expr::If {
            condition,
            then_branch,
            else_branch,
        },
    )
}

/// Adds the assignment `name = value`, and before it the pattern `name`, a path without hygiene, which it
/// assigns to.
///
/// An error, where an allocation fails or no id is left, leaves the builder as it was, or with that pattern
/// alone.
pub fn assign(
    alloc: Global,
    builder: &mut ExpressionStoreBuilder,
    name: &str,
    value: ExprId,
) -> Result<ExprId, HirError>
    ensures ok { IfOk result (λ id.
        AddsExpr (with_pat builder.old (Pat.Path (one_name name.now)))
        (Expr.Assignment (length builder.old.pats) value) id builder.new) }
    ensures err { IfErr result (λ fault.
        RefusesAssign builder.old (Pat.Path (one_name name.now)) fault builder.new) }
{
    let path = path(alloc, name)?;
    let target = add_pat(builder, Pat::Path(path))?;
    add_expr(builder, Expr::Assignment { target, value })
}

/// Adds the closure `|args| body`, which has no types written and isn't `move`.
///
/// An error, where an allocation fails or no id is left, leaves the builder as it was.
pub fn closure(
    alloc: Global,
    builder: &mut ExpressionStoreBuilder,
    args: &[PatId],
    body: ExprId,
) -> Result<ExprId, HirError>
    ensures ok { IfOk result (λ id. AddsExpr builder.old (closure_of args.now body) id builder.new) }
    ensures err { IfErr result (λ fault. RefusesExpr builder.old fault builder.new) }
{
    let arg_types = no_types(alloc, args)?;
    let args = ShortList::from_slice(alloc, args)?;
    add_expr(
        builder,
        Expr::Closure {
            args,
            arg_types,
            ret_type: None,
            body,
            closure_kind: ClosureKind::Closure,
            capture_by: CaptureBy::Ref,
        },
    )
}

/// No type for each argument.
fn no_types(alloc: Global, args: &[PatId]) -> Result<Seq<Option<TypeRefId>>, AllocError>
    ensures { IfOk result (λ types. types ≡ no_types args.now) }
{
    Ok(Seq::from_vec(vec![in alloc; None; args.len()]?))
}

/// Adds the block `{ statements tail }`, which has no label, isn't unsafe and holds no items.
///
/// An error, where an allocation fails or no id is left, leaves the builder as it was.
pub fn block(
    builder: &mut ExpressionStoreBuilder,
    statements: Vec<Statement>,
    tail: ExprId,
) -> Result<ExprId, HirError>
    ensures ok { IfOk result (λ id. AddsExpr builder.old (block_of statements.items tail) id builder.new) }
    ensures err { IfErr result (λ fault. RefusesExpr builder.old fault builder.new) }
{
    add_expr(builder, plain_block(statements, Some(tail)))
}

/// Adds the block `{ statements }`, whose value is `()`; it has no label, isn't unsafe and holds no items.
///
/// An error, where an allocation fails or no id is left, leaves the builder as it was.
pub fn block_without_tail(
    builder: &mut ExpressionStoreBuilder,
    statements: Vec<Statement>,
) -> Result<ExprId, HirError>
    ensures ok { IfOk result (λ id. AddsExpr builder.old (plain_block statements.items None) id builder.new) }
    ensures err { IfErr result (λ fault. RefusesExpr builder.old fault builder.new) }
{
    add_expr(builder, plain_block(statements, None))
}

/// A block without a label, which isn't unsafe and holds no items.
fn plain_block(statements: Vec<Statement>, tail: Option<ExprId>) -> Expr
    ensures { result ≡ plain_block statements.items tail }
{
    Expr::Block {
        id: None,
        statements: Seq::from_vec(statements),
        tail,
        label: None,
        unsafe_: Unsafe::No,
    }
}
