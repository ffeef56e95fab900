//! Theorems on signatures that a reader relies on, and that no call's contract states. Each is a function
//! that does nothing: its contract is the theorem. `ExpressionStore::has_no_fault` gives what they require.

ghost use Rattle.std.specs.Prelude.{◌≢◌, ◌⊎◌, ◌↔◌, None, Contains};
ghost use Rattle.std.specs.List.{AllPairs};
ghost use Rattle.hir_node.specs.declared.node_id.NodeId.{NodeId};
ghost use Rattle.hir_store_core.specs.Contents.{Contents, contents_fault};
ghost use Rattle.hir_signature.specs.Signatures.{SignatureReaches, signature_nodes};

use hir_store_core::laws::{
    reached_is_decided, reached_is_listed, reached_is_listed_once, roots_are_disjoint,
};

/// `signature_nodes` lists the nodes that a signature over a store reaches, and no others, each once; so each
/// node is reached or it isn't. These are under the roots of the store: a body is reached from its formals
/// too, and from the last root alone.
pub fn what_a_signature_reaches_is_listed()
    ensures listed { (c : Contents) → contents_fault c None
        → (n : NodeId) → Contains (signature_nodes c) n ↔ SignatureReaches c n }
    ensures once { (c : Contents) → contents_fault c None → AllPairs (λ n m. n ≢ m) (signature_nodes c) }
    ensures decided { (c : Contents) → contents_fault c None
        → (n : NodeId) → SignatureReaches c n ⊎ (SignatureReaches c n → ⊥) }
{
    roots_are_disjoint();
    reached_is_listed();
    reached_is_listed_once();
    reached_is_decided();
}
