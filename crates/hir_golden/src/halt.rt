//! Why the program ends before all rows are compared.

use std::alloc::{AllocError, AllocFailed};
use std::io::{Error, ErrorKind};

/// Why the program ends before all rows are compared.
#[derive(Clone, Copy, Drop)]
pub(crate) enum Halt {
    /// Out of memory.
    Memory,
    /// The report can't be written, or the arguments can't be read.
    Outside,
}

impl From<AllocError> for Halt {
    fn from(_: AllocError) -> Halt {
        Halt::Memory
    }
}

impl<T: Drop> From<AllocFailed<T>> for Halt {
    fn from(_: AllocFailed<T>) -> Halt {
        Halt::Memory
    }
}

impl From<Error> for Halt {
    fn from(error: Error) -> Halt {
        if error.kind() == ErrorKind::OutOfMemory {
            Halt::Memory
        } else {
            Halt::Outside
        }
    }
}
