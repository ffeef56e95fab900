//! What golden cases can't ask of `hir_body`, `hir_signature`, `hir_defs` and `hir_scope`: parts that come
//! back, generic parameters one by one, orders from both ends, parameters that are compared, refusals as
//! errors, bodies that are built and walked by calls, and scopes item by item. What is accepted, and why not,
//! is in the golden cases of `hir_golden`.
#![tactic(auto)]

#[cfg(test)]
mod additions;
#[cfg(test)]
mod bodies;
#[cfg(test)]
mod data;
#[cfg(test)]
mod errors;
#[cfg(test)]
mod generics;
#[cfg(test)]
mod memory;
#[cfg(test)]
mod order;
#[cfg(test)]
mod owners;
#[cfg(test)]
mod params;
#[cfg(test)]
mod scopes;
#[cfg(test)]
mod sentences;
#[cfg(test)]
mod signatures;
#[cfg(test)]
mod trees;
#[cfg(test)]
mod walk;
