//! A second writer for the code that prints nodes: a plain list of pieces, which is laid out at the end. The
//! tests print the same nodes by the one buffer and by the list, and compare both texts with those of the
//! golden cases, so that the trait of five calls is seen to fit more than one writer.
#![tactic(auto)]

#[cfg(test)]
mod blocks;
#[cfg(test)]
mod cases;
#[cfg(test)]
mod exprs;
#[cfg(test)]
mod forms;
#[cfg(test)]
mod layout;
mod list;
#[cfg(test)]
mod literals;
#[cfg(test)]
mod missing;
#[cfg(test)]
mod paths;
#[cfg(test)]
mod pats;
#[cfg(test)]
mod printed;
#[cfg(test)]
mod signatures;
#[cfg(test)]
mod stores;
#[cfg(test)]
mod tests;
#[cfg(test)]
mod types;

pub use list::{Piece, PieceList};
