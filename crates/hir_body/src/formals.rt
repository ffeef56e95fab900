//! Formal parameters, and the tests of each.

ghost use Rattle.std.specs.Prelude.{◌≡◌, ◌<◌, ◌↔◌, All, IfNone, IfSome, IsTrue, length, map};
ghost use Rattle.hir_collections.specs.Exact.{exact};
ghost use Rattle.hir_forest.specs.Verdict.{first_below};
ghost use Rattle.hir_node.specs.declared.node_id.NodeId.{NodeId};
ghost use Rattle.hir_node.specs.declared.node_id.NodeId.TheVariants as node;
ghost use Rattle.hir_store_core.specs.NodeSets.{IsIn};
ghost use Rattle.hir_body.specs.Bodies.{AreBelow, formals_of, range_fault, repeated_fault, under_fault};
ghost use Rattle.hir_body.specs.internal.Bodies.{GainsAll};

use crate::body_fault::BodyFault;
use hir_collections::{ExactEq, TryClone};
use hir_node::{BindingId, PatId};
use hir_store_core::{ExpressionStore, NodeSet};

/// A parameter as the body has it, and as the user wrote it.
///
/// The two differ where a body copies its parameters into local variables, as the body of an `async fn` does.
#[derive(Clone, Copy, PartialEq, Eq)]
pub struct Param<Id> {
    /// The parameter itself: the id that the analysis of a body uses.
    pub formal: Id,
    /// The id of what the user wrote, which an editor uses.
    pub user_written: Id,
}

impl<Id: ExactEq> ExactEq for Param<Id> {
    ghost eq_decides = { Prim.search (exact, Id.eq_decides) };
}

impl<Id: TryClone> TryClone for Param<Id> {
    ghost clone_is_same = { Prim.search (exact, Id.clone_is_same) };
}

/// Returns whether both bindings of the self parameter exist; without one there is nothing to test.
pub(crate) fn self_is_in_range(
    store: &ExpressionStore,
    self_param: Option<Param<BindingId>>,
) -> bool
    ensures { IsTrue result ↔ IfSome self_param (AreBelow (length store.now.nodes.bindings)) }
{
    match self_param {
        Some(param) => { store.has_binding(param.formal) && store.has_binding(param.user_written) }
        None => true,
    }
}

/// Returns whether both patterns of a parameter exist.
fn param_is_in_range(store: &ExpressionStore, param: Param<PatId>) -> bool
    ensures { IsTrue result ↔ AreBelow (length store.now.nodes.pats) param }
{
    store.has_pat(param.formal) && store.has_pat(param.user_written)
}

/// Returns the first parameter with a pattern that doesn't exist.
pub(crate) fn first_out_of_range(
    store: &ExpressionStore,
    params: &[Param<PatId>],
) -> Option<BodyFault>
    ensures { first_below (length params.now) (range_fault (length store.now.nodes.pats) params.now) result }
{
    for (i, param) in params.iter().enumerate() {
        if !param_is_in_range(store, *param) {
            return Some(BodyFault::ParamOutOfRange(i));
        }
    }
    None
}

/// Adds the formals to a set that has none of them. The fault is a formal that is in it already.
pub(crate) fn add_formals(params: &[Param<PatId>], set: &mut NodeSet) -> Option<BodyFault>
    requires in_range { All (λ p. p.formal < set.old.sizes.pats) params.now }
    requires none { (n : NodeId) → IsIn set.old n → ⊥ }
    ensures fault { first_below (length params.now) (repeated_fault (formals_of params.now)) result }
    ensures added { IfNone result (GainsAll set.old (map node.Pat (formals_of params.now)) set.new) }
{
    for (i, param) in params.iter().enumerate() {
        if set.has_pat(param.formal) {
            return Some(BodyFault::ParamRepeated(i));
        }
        set.add_pat(param.formal);
    }
    None
}

/// Returns the first formal that is among the nodes under others.
pub(crate) fn first_under(params: &[Param<PatId>], under: &NodeSet) -> Option<BodyFault>
    requires in_range { All (λ p. p.formal < under.now.sizes.pats) params.now }
    ensures { first_below (length params.now) (under_fault (IsIn under.now) (formals_of params.now)) result }
{
    for (i, param) in params.iter().enumerate() {
        if under.has_pat(param.formal) {
            return Some(BodyFault::ParamUnder(i));
        }
    }
    None
}
