//! Tests of `hir_collections` and `hir_base` through their public surface, as a user would call it.
#![tactic(auto)]

#[cfg(test)]
mod arenas;
#[cfg(test)]
mod lists;
#[cfg(test)]
mod maps;
#[cfg(test)]
mod same;
#[cfg(test)]
mod showing;
#[cfg(test)]
mod steps;
#[cfg(test)]
mod tables;
#[cfg(test)]
mod words;
