//! What golden cases can't ask of `hir_store`: builders that come back or are compared, an arena that is
//! replaced, a long chain, sets of nodes, values that take no memory, and texts of faults. What stores answer
//! is in the golden cases of `hir_golden`. A test in which an allocation fails ends with that error.
#![tactic(auto)]

#[cfg(test)]
mod accepted_stores;
#[cfg(test)]
mod ancestors;
#[cfg(test)]
mod bounds;
#[cfg(test)]
mod build;
#[cfg(test)]
mod entries;
#[cfg(test)]
mod laws;
#[cfg(test)]
mod lazy_box;
#[cfg(test)]
mod lookups;
#[cfg(test)]
mod nodes;
#[cfg(test)]
mod outcomes;
#[cfg(test)]
mod refused_memory;
#[cfg(test)]
mod refused_stores;
#[cfg(test)]
mod texts;
#[cfg(test)]
mod under;
