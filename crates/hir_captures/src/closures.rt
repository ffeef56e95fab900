//! The bindings that a closure captures.
ghost use Rattle.std.specs.Prelude.{◌≡◌, ◌↔◌, ◌<◌, ℕ, Some, Err, IfOk, IsSome};
ghost use Rattle.std.specs.FinMap as map;
ghost use Rattle.hir_node.specs.declared.node_id.NodeId.TheVariants as node;
ghost use Rattle.hir_body.specs.Bodies.{BodyReaches};
ghost use Rattle.hir_scope.specs.BodyScopes.{ChainsAreFrames, entry_nodes_of_body};
ghost use Rattle.hir_captures.specs.Captures.{AreCaptures, IsReachedClosure};

use crate::captured_binding::depth;
use crate::code::Code;
use crate::distinct::DistinctBindings;
use crate::fault::CapturesFault;
use crate::laws::lengths_decide_captures;
use crate::tasks::{Task, Tasks};
use hir_body::Body;
use hir_node::{BindingId, Expr, ExprId};
use hir_scope::ExprScopes;
use std::alloc::Global;

/// Returns the bindings that a closure captures: those of outside that its code uses, in the order of their
/// first use, each once. What is in a constant or a type isn't the closure's code.
///
/// Returns `NotAClosure` exactly where the expression isn't a closure that the body reaches, also where it
/// doesn't exist, and `Memory` where an allocation fails. `scopes` have to be those of the body, as
/// `ExprScopes::new_body` makes them. It takes time in the number of nodes under the closure, the bindings of
/// the store, and the scopes and entries of the chains in which names are looked up, and doesn't recurse.
pub fn captures(
    alloc: Global,
    body: &Body,
    scopes: &ExprScopes,
    closure: ExprId,
) -> Result<Vec<BindingId>, CapturesFault>
    requires reached { (expr : ℕ) → IsSome (map.get scopes.now.scope_by_expr expr)
        ↔ BodyReaches body.now (node.Expr expr) }
    requires chains { ChainsAreFrames body.now.store.nodes (entry_nodes_of_body body.now) scopes.now }
    ensures captures { IfOk result (λ found. AreCaptures body.now closure found.items) }
    ensures closure { IfOk result (λ found. IsReachedClosure body.now closure) }
    ensures no_closure { result ≡ Err CapturesFault.NotAClosure ↔ (IsReachedClosure body.now closure → ⊥) }
{
    let store = body.store();
    body.has_no_fault();
    store.has_no_fault();
    lengths_decide_captures();
    if store.has_expr(closure)
        && let Expr::Closure { .. } = &store[closure]
        && let Some(scope) = scopes.scope_for(closure)
    {
        let code = Code {
            store,
            scopes,
            outermost: depth(scopes, scope),
        };
        let mut found = DistinctBindings::new(alloc, store.bindings().len())?;
        let mut unread = Tasks::new(alloc);
        unread.stack.push(Task::Expr(closure))?;
        code.read_all(&mut unread, &mut found)?;
        return Ok(found.into_bindings());
    }
    Err(CapturesFault::NotAClosure)
}
