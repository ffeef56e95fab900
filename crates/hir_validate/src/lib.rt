//! The faults of nodes with their roots: which node names an id out of range, holds a part that is wrong in
//! itself, or isn't in a forest.
//! The nodes of a store have none. This crate has the faults, the search for the first one, which also finds
//! the parents of all nodes, and the tests that a store has too.
#![tactic(auto)]

mod edges;
mod fault;
mod first_fault;
mod node_arenas;
mod nodes;
mod range;
mod sizes;
mod tested_node;
mod type_parts;

pub use fault::FinishFault;
pub use first_fault::validated_parents;
pub use node_arenas::Nodes;
pub use nodes::NodeSlices;
pub use sizes::Sizes;
pub use type_parts::as_path;
