//! Theorems that a reader relies on. Each is a function that does nothing: its contract is the theorem.
ghost use Rattle.std.specs.Prelude.{◌≡◌, ◌↔◌, ℕ, List, None, Option};
ghost use Rattle.std.specs.List.{All};
ghost use Rattle.hir_node.specs.declared.node_id.NodeId.{NodeId};
ghost use Rattle.hir_store_core.specs.Contents.{Contents, contents_fault};
ghost use Rattle.hir_body.specs.Bodies.{BodyContents, body_fault};
ghost use Rattle.hir_scope.specs.Frames.{Chain};
ghost use Rattle.hir_captures.specs.Captures.{AreCaptures, AreChains, IsOn, IsReachedClosure, captures_by};
ghost use Rattle.hir_captures.specs.Uses.{code_step, code_under, uses_in};

use hir_scope::laws::a_reached_node_has_one_chain;
use hir_store_core::laws::{children_of_reached_are_reached, rank_decreases};

/// The code under a node is the node, and then the code under its children, in the order in which scopes are
/// made.
pub fn code_under_unfold()
    ensures { (c : Contents) → contents_fault c None → (n : NodeId) (assignment : Option ℕ)
        → code_under c.nodes n assignment ≡ code_step c.nodes (code_under c.nodes) n assignment }
{
    rank_decreases();
}

/// The chain of each use in a closure of a body is some frames put on the closure's own.
pub fn uses_stand_on_their_closure()
    ensures { (b : BodyContents) → contents_fault b.store None → body_fault b None
        → (closure : ℕ) → IsReachedClosure b closure → (chain : ℕ → Chain) → AreChains b chain
        → All (λ one. IsOn (chain closure) (chain one.expr)) (uses_in b.store closure) }
{
    rank_decreases();
    children_of_reached_are_reached();
    a_reached_node_has_one_chain();
}

/// The list of captures of a closure of a body is unique.
pub fn captures_unique()
    ensures { (b : BodyContents) → contents_fault b.store None → body_fault b None
        → (closure : ℕ) → IsReachedClosure b closure → (xs ys : List ℕ)
        → AreCaptures b closure xs → AreCaptures b closure ys → xs ≡ ys }
{
    rank_decreases();
    children_of_reached_are_reached();
    a_reached_node_has_one_chain();
}

/// The captures of a closure of a body are those that the lengths of chains give: between the closure and a
/// use are as many frames as the chain of the use is longer than the closure's own.
pub fn lengths_decide_captures()
    ensures { (b : BodyContents) → contents_fault b.store None → body_fault b None
        → (closure : ℕ) → IsReachedClosure b closure → (chain : ℕ → Chain) → AreChains b chain
        → (xs : List ℕ) → AreCaptures b closure xs ↔ (xs ≡ captures_by chain b.store closure) }
{
    rank_decreases();
    children_of_reached_are_reached();
    a_reached_node_has_one_chain();
}
