//! Theorems on bodies that a reader relies on, and that no call's contract states. Each is a function that
//! does nothing: its contract is the theorem. `Body::has_no_fault` and `ExpressionStore::has_no_fault` give
//! what they require. Where one follows from theorems on stores, it calls these.

ghost use Rattle.std.specs.Prelude.{◌≡◌, ◌≢◌, ◌⊎◌, ◌↔◌, Option, None, Contains};
ghost use Rattle.std.specs.Bool.{Decides};
ghost use Rattle.std.specs.List.{AllPairs};
ghost use Rattle.hir_source_map.specs.ComparedPart.{compared_part};
ghost use Rattle.hir_store_core.specs.Contents.{contents_fault};
ghost use Rattle.hir_validate.specs.Nodes.{Has};
ghost use Rattle.hir_node.specs.declared.node_id.NodeId.{NodeId};
ghost use Rattle.hir_body.specs.declared.body_fault.BodyFault.{BodyFault};
ghost use Rattle.hir_body.specs.declared.body_source_map.BodySourceMap.{BodySourceMap};
ghost use Rattle.hir_body.specs.Bodies.{BodyContents, body_fault, entry_nodes, BodyReaches, body_nodes};
ghost use Rattle.hir_store_core.specs.Under.{AreDisjoint};

use crate::body_source_map::BodySourceMap;
use hir_store_core::laws::{
    reached_is_decided, reached_is_listed, reached_is_listed_once, reached_nodes_are_in_range,
    roots_stand_apart, under_two_is_under_one,
};

/// The first fault of a body's parts is unique: a body is accepted exactly where its parts have none.
pub fn first_body_fault_unique()
    ensures { (b : BodyContents) (f g : Option BodyFault) → body_fault b f → body_fault b g → f ≡ g }
{}

/// The formals and the last root of a body exist.
pub fn entry_nodes_are_in_range()
    ensures { (b : BodyContents) → contents_fault b.store None → body_fault b None
        → (n : NodeId) → Contains (entry_nodes b) n → Has b.store.nodes n }
{
    roots_stand_apart();
}

/// The formals and the last root of a body are disjoint: no two have a common descendant.
pub fn entry_nodes_are_disjoint()
    ensures { (b : BodyContents) → contents_fault b.store None → body_fault b None
        → AreDisjoint b.store.nodes (entry_nodes b) }
{
    roots_stand_apart();
    under_two_is_under_one();
}

/// The nodes that a body reaches exist.
pub fn nodes_of_a_body_are_in_range()
    ensures { (b : BodyContents) → contents_fault b.store None → body_fault b None
        → (n : NodeId) → BodyReaches b n → Has b.store.nodes n }
{
    entry_nodes_are_in_range();
    reached_nodes_are_in_range();
}

/// `body_nodes` lists the nodes that a body reaches, and no others, each once; so each node is reached or it
/// isn't. Each sum and each count over what a body reaches is over this list.
pub fn what_a_body_reaches_is_listed()
    ensures listed { (b : BodyContents) → contents_fault b.store None
        → (n : NodeId) → Contains (body_nodes b) n ↔ BodyReaches b n }
    ensures once { (b : BodyContents) → contents_fault b.store None → body_fault b None
        → AllPairs (λ n m. n ≢ m) (body_nodes b) }
    ensures decided { (b : BodyContents) → contents_fault b.store None
        → (n : NodeId) → BodyReaches b n ⊎ (BodyReaches b n → ⊥) }
{
    entry_nodes_are_disjoint();
    reached_is_listed();
    reached_is_listed_once();
    reached_is_decided();
}

/// Source maps of bodies are equal exactly where the compared parts of their stores' source maps and the
/// sources of `self` are the same.
pub fn source_maps_are_compared_by_their_parts()
    ensures { (x y : BodySourceMap) → Decides (⟦<BodySourceMap as PartialEq>⟧.eq x y)
        ((compared_part x.store ≡ compared_part y.store) × (x.self_param_syntax ≡ y.self_param_syntax)) }
{}
