//! The variables that an assignment writes to.

use hir::{Expr, ExpressionStore, HirError, PatId};
use std::alloc::Global;

/// The patterns in the target of an assignment, of which each path is a variable that is assigned to; none of
/// another expression.
pub fn targets(
    alloc: Global,
    store: &ExpressionStore,
    expr: &Expr,
) -> Result<Vec<PatId>, HirError> {
    let mut found = Vec::new(alloc);
    if let Expr::Assignment { target, value: _ } = expr
        && store.has_pat(*target)
    {
        store.try_walk_pats(*target, &mut |pat: PatId| found.push(pat))?;
    }
    Ok(found)
}
