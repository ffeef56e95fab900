//! Helpers that make statements. They take no memory and can't be refused.

ghost use Rattle.std.specs.Prelude.{◌≡◌, Some, None, true};

use hir_node::{ExprId, PatId, Statement, TypeRefId};

/// `let pat = value;`, without a type.
pub fn let_(pat: PatId, value: ExprId) -> Statement
    ensures { result ≡ Statement.Let pat None (Some value) None }
{
    let_with_value(pat, None, value, None)
}

/// `let pat: type_ref = value;`.
pub fn let_typed(pat: PatId, type_ref: TypeRefId, value: ExprId) -> Statement
    ensures { result ≡ Statement.Let pat (Some type_ref) (Some value) None }
{
    let_with_value(pat, Some(type_ref), value, None)
}

/// `let pat = value else else_branch;`, without a type. The branch is a block.
pub fn let_else(pat: PatId, value: ExprId, else_branch: ExprId) -> Statement
    ensures { result ≡ Statement.Let pat None (Some value) (Some else_branch) }
{
    let_with_value(pat, None, value, Some(else_branch))
}

/// A `let` with a value.
fn let_with_value(
    pat: PatId,
    type_ref: Option<TypeRefId>,
    value: ExprId,
    else_branch: Option<ExprId>,
) -> Statement
    ensures { result ≡ Statement.Let pat type_ref (Some value) else_branch }
{
    Statement::Let {
        pat,
        type_ref,
        initializer: Some(value),
        else_branch,
    }
}

/// `expr;`.
pub fn statement(expr: ExprId) -> Statement
    ensures { result ≡ Statement.Expr expr true }
{
    Statement::Expr {
        expr,
        has_semi: true,
    }
}
