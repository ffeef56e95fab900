//! Uses and renames of small bodies, each as its source text says.
#![tactic(auto)]

#[cfg(test)]
mod bodies;
#[cfg(test)]
mod printed;
#[cfg(test)]
mod renames;
#[cfg(test)]
mod uses;
