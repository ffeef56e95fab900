//! The parents of a graph of numbered nodes, noted edge by edge; the first fault of the graph and its roots,
//! in time linear in nodes, edges and roots and without recursion; the theorems of a graph that has none, a
//! forest; and the table of the descendants of marked nodes. It knows nothing of what the nodes are.
#![tactic(auto)]

mod chains;
mod faults;
mod laws;
mod parent_table;
mod parents;
mod roots;
mod under;

pub use laws::{
    child_rows_add_up, children_are_lower, fault_is_within, fault_unique, faultless_is_forest,
    heights_are_bounded, roots_are_compared_by_all_fields, ways_are_short,
};
pub use parents::Parents;
pub use roots::{Ends, ForestFault, Root};
