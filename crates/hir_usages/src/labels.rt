//! The labels around an expression.
ghost use Rattle.std.specs.Prelude.{◌≡◌, IfOk};
ghost use Rattle.std.specs.FinMap as map;
ghost use Rattle.hir_scope.specs.Paths.{chain};
ghost use Rattle.hir_usages.specs.Labels.{labels_along};

use hir_node::{ExprId, LabelId};
use hir_scope::ExprScopes;
use hir_scope::laws::a_chain_goes_outward;
use std::alloc::{AllocError, Global};

/// Returns the labels of the blocks and loops around an expression, innermost first; none where the
/// expression has no scope. Those outside a closure are among them, though no `break` in it may name one:
/// what a jump leaves is `jump_target` of the store.
///
/// Fails with `AllocError` where an allocation fails. It takes time in the number of scopes of the chain.
pub fn labels_at(
    alloc: Global,
    scopes: &ExprScopes,
    expr: ExprId,
) -> Result<Vec<LabelId>, AllocError>
    ensures { IfOk result (λ found. found.items
        ≡ labels_along (chain scopes.now.scopes (map.get scopes.now.scope_by_expr expr))) }
{
    a_chain_goes_outward();
    let mut found = Vec::new(alloc);
    let mut current = scopes.scope_for(expr);
    while let Some(inner) = current {
        let outer = scopes.parent(inner);
        if let Some(label) = scopes.label(inner) {
            found.push(label)?;
        }
        current = outer;
    }
    Ok(found)
}
