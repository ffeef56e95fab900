//! The tests of the crates that use no other: of `hir_forest` graphs with the fault that each must have, a
//! million nodes, parents, and the descendants of marked nodes; of `hir_show_io` lines, sources and sinks
//! that fail, and output that waits; of `hir_pretty_layout` what pages look like, in lines and in one line,
//! and calls that are refused.
#![tactic(auto)]

#[cfg(test)]
mod edges;
#[cfg(test)]
mod fakes;
#[cfg(test)]
mod graphs;
#[cfg(test)]
mod page_growths;
#[cfg(test)]
mod pages;
#[cfg(test)]
mod parents;
#[cfg(test)]
mod reading;
#[cfg(test)]
mod std_ends;
#[cfg(test)]
mod under;
#[cfg(test)]
mod writing;
