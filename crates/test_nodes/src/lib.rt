//! The tests of `hir_node`, `hir_path` and `hir_show_grammar` through their public surface, of what no golden
//! case of `hir_golden` asks: visitors that compare their calls, the copy of an iterator, cuts of cuts,
//! theorems, hashes, sizes, small calls, and what lines make that no golden case can see.
#![tactic(auto)]

#[cfg(test)]
mod build;
#[cfg(test)]
mod calls;
#[cfg(test)]
mod child_pats;
#[cfg(test)]
mod cuts;
#[cfg(test)]
mod hashes;
#[cfg(test)]
mod kept_lines;
#[cfg(test)]
mod lines;
#[cfg(test)]
mod says;
#[cfg(test)]
mod small;
#[cfg(test)]
mod wanted_calls;
