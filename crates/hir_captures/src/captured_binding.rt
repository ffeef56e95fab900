//! The binding that a use captures.
ghost use Rattle.std.specs.Prelude.{◌≡◌, ◌<◌, ◌-◌, length, Some};
ghost use Rattle.hir_scope.specs.Paths.{chain};
ghost use Rattle.hir_captures.specs.Captures.{resolve_outside};

use hir_base::HygieneId;
use hir_node::BindingId;
use hir_scope::laws::{a_chain_goes_outward, chains_are_short};
use hir_scope::{ExprScopes, ScopeId};

/// Returns the number of scopes along the chain of a scope.
pub(crate) fn depth(scopes: &ExprScopes, scope: ScopeId) -> usize
    requires { scope < length scopes.now.scopes }
    ensures { result ≡ length (chain scopes.now.scopes (Some scope)) }
{
    scopes.parents_stand_earlier();
    a_chain_goes_outward();
    chains_are_short();
    let _ = scopes.scope_count();
    let mut depth = 0;
    for _ in scopes.scope_chain(Some(scope)) {
        depth += 1;
    }
    depth
}

/// Returns the binding that a use of this name and hygiene in this scope captures: the one that it resolves
/// to, where the entry is in one of this number of outermost scopes of the chain.
// The chain is walked once: by its entries up to where the name is found, and from there on by its parents.
pub(crate) fn captured_binding(
    scopes: &ExprScopes,
    scope: ScopeId,
    name: &str,
    hygiene: HygieneId,
    outermost: usize,
) -> Option<BindingId>
    requires { scope < length scopes.now.scopes }
    ensures { result ≡ resolve_outside (length (chain scopes.now.scopes (Some scope)) - outermost)
        (chain scopes.now.scopes (Some scope)) name.now hygiene }
{
    scopes.parents_stand_earlier();
    match scopes.find_name_in_scope(scope, name, hygiene) {
        Some(found) => {
            let outer = depth(scopes, found.0);
            if outer <= outermost {
                Some(found.1.binding())
            } else {
                None
            }
        }
        None => None,
    }
}
