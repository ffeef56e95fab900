//! The tests of `hir_show_run`, of what neither a contract of it says nor a golden case of `hir_golden` asks:
//! inputs by one byte a call, ends that fail at any byte, faults that no line makes, runs to an exit, and
//! failed allocations.
#![tactic(auto)]

#[cfg(test)]
mod again;
#[cfg(test)]
mod ends;
#[cfg(test)]
mod exits;
#[cfg(test)]
mod fakes;
#[cfg(test)]
mod growths;
#[cfg(test)]
mod reports;
