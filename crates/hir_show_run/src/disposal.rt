//! What becomes of the memory of what a run made, when the run ends.

use std::mem::{drop, forget};

/// What becomes of the memory of a run's store, body and scopes when the run ends.
#[derive(Clone, Copy)]
pub(crate) enum Disposal {
    /// The memory is given back.
    GiveBack,
    /// The memory is left to the end of the process, which takes it all back at once.
    Leave,
}

impl Disposal {
    /// Ends the use of a value: drops it, or leaves its memory.
    pub(crate) fn release<T: Drop>(self, value: T) {
        match self {
            Disposal::GiveBack => drop(value),
            Disposal::Leave => forget(value),
        }
    }
}
