//! Theorems that a reader relies on, and that no call's contract states. Each is a function that does
//! nothing: its contract is the theorem.

ghost use Rattle.std.specs.Prelude.{◌≡◌, ◌<◌, ◌≤◌, ◌∷◌, ℕ, None, Some, List, Option, IsPermutation, length, map, slice_get};
ghost use Rattle.std.specs.List.{All, flat_map};
ghost use Rattle.hir_node.specs.declared.node_id.NodeId.{NodeId};
ghost use Rattle.hir_validate.specs.Nodes.{Has, children_of};
ghost use Rattle.hir_validate.specs.declared.node_arenas.Nodes.{Nodes};
ghost use Rattle.hir_store_core.specs.Contents.{Contents, contents_fault};
ghost use Rattle.hir_store_core.specs.Under.{IsReached};
ghost use Rattle.hir_scope.specs.OpenFrames.{open_frames, open_frames_step};
ghost use Rattle.hir_scope.specs.ScopingForms.{form_of};
ghost use Rattle.hir_scope.specs.Order.{met_in_form};
ghost use Rattle.hir_scope.specs.ChildContexts.{children_with_base, child_with_base, child_contexts};
ghost use Rattle.hir_scope.specs.Frames.{Chain};
ghost use Rattle.hir_scope.specs.BodyScopes.{entry_nodes_of_body, entry_nodes_of_signature};
ghost use Rattle.hir_scope.specs.Chains.{InContext, Occurs, HasChain};
ghost use Rattle.hir_body.specs.Bodies.{BodyContents, body_fault};
ghost use Rattle.hir_scope.specs.Scopes.{Scope, ScopeIsInRange, ParentsStandEarlier};
ghost use Rattle.hir_scope.specs.Paths.{path};

use hir_body::laws::{entry_nodes_are_disjoint, entry_nodes_are_in_range};
use hir_store_core::laws::{
    children_are_disjoint, one_parent, rank_decreases, roots_are_disjoint, roots_stand_apart,
};

/// The frames that a node leaves open are what its form leaves open, by what its children leave open.
pub fn open_frames_unfold()
    ensures { (c : Contents) → contents_fault c None → (n : NodeId) → Has c.nodes n
        → open_frames c.nodes n ≡ open_frames_step c.nodes (open_frames c.nodes) n }
{
    rank_decreases();
}

/// The child contexts of a node are of the node's children, each once.
pub fn child_contexts_hold_the_children()
    ensures { (s : Nodes) (n : NodeId) → IsPermutation (children_of s n)
        (map (λ child_context. child_context.child) (child_contexts s n)) }
{}

/// The child contexts of a node are of its child calls in the order in which scopes are made.
#[tactic(auto, using(crate::proofs::ChildLemmas::child_contexts_follow))]
pub fn child_contexts_follow_the_order()
    ensures { (s : Nodes) (n : NodeId)
        → map child_with_base (child_contexts s n) ≡ flat_map children_with_base (met_in_form (form_of s n)) }
{}

/// A node occurs in a context exactly where it is reached.
#[tactic(auto, using(crate::proofs::UnderLemmas::reached_occurs, crate::proofs::UnderLemmas::occurs_reached))]
pub fn what_is_reached_occurs()
    ensures occurs { (s : Nodes) (entry_nodes : List InContext) (n : NodeId)
        → IsReached s (map (λ at. at.node) entry_nodes) n
        → (at : InContext) × Occurs s entry_nodes at × (at.node ≡ n) }
    ensures reached { (s : Nodes) (entry_nodes : List InContext) (at : InContext) → Occurs s entry_nodes at
        → IsReached s (map (λ at. at.node) entry_nodes) at.node }
{}

/// The path of a scope has at most as many members as there are scopes.
#[tactic(auto, using(crate::proofs::PathLemmas::path_fits))]
pub fn chains_are_short()
    ensures { (scopes : List Scope) → ParentsStandEarlier scopes → (scope : Option ℕ)
        → ScopeIsInRange scopes scope
        → length (path scopes scope) ≤ length scopes }
{}

/// The path of a scope is the scope, and then the path of its parent. All scopes on it exist.
#[tactic(auto, using(crate::proofs::PathLemmas::path_step, crate::proofs::PathLemmas::path_members))]
pub fn a_chain_goes_outward()
    ensures step { (scopes : List Scope) → ParentsStandEarlier scopes → (scope : ℕ) (found : Scope)
        → slice_get scopes scope ≡ Some found → path scopes (Some scope) ≡ scope ∷ path scopes found.parent }
    ensures in_range { (scopes : List Scope) → ParentsStandEarlier scopes → (scope : Option ℕ)
        → ScopeIsInRange scopes scope
        → All (λ member. member < length scopes) (path scopes scope) }
{}

/// The chain of an expression of a body or of a signature is unique: the expression occurs in one context
/// only.
pub fn a_reached_node_has_one_chain()
    ensures bodies { (b : BodyContents) → contents_fault b.store None → body_fault b None
        → (expr : ℕ) (x y : Chain) → HasChain b.store.nodes (entry_nodes_of_body b) expr x
        → HasChain b.store.nodes (entry_nodes_of_body b) expr y → x ≡ y }
    ensures signatures { (c : Contents) → contents_fault c None
        → (expr : ℕ) (x y : Chain) → HasChain c.nodes (entry_nodes_of_signature c) expr x
        → HasChain c.nodes (entry_nodes_of_signature c) expr y → x ≡ y }
{
    rank_decreases();
    one_parent();
    children_are_disjoint();
    entry_nodes_are_in_range();
    entry_nodes_are_disjoint();
    roots_stand_apart();
    roots_are_disjoint();
}
