//! How the program fails.

ghost use Rattle.std.specs.Prelude.{◌≡◌};

use crate::asking::MemoryRefused;
use hir_body::{BodyFault, RefusedBody};
use hir_collections::ExactEq;
use hir_show_io::LineFault;
use hir_store::{FinishFault, Refused};
use std::fmt;
use std::mem::drop;
use thiserror::Error;

/// How the program fails.
#[derive(Clone, Copy, Debug, Drop, PartialEq, Eq, Error)]
pub enum RunFault {
    /// The line of this number, from 1, may not come there.
    BadLine(u64),
    /// The builder was refused.
    Refused(FinishFault),
    /// The body was refused.
    BodyRefused(BodyFault),
    /// A read failed.
    InputFailed,
    /// A write failed.
    OutputFailed,
    /// An allocation failed.
    OutOfMemory,
}

/// The text that `report` writes of it, without the line end.
impl fmt::Display for RunFault {
    ghost use Rattle.hir_show_run.specs.Texts.{display_text};

    ghost output = { display_text };

    fn fmt<W: fmt::Write>(&self, f: &mut fmt::Formatter<W>) -> fmt::Result {
        match self {
            RunFault::BadLine(number) => write!(f, "bad line {number}"),
            RunFault::Refused(fault) => write!(f, "refused {fault}"),
            RunFault::BodyRefused(fault) => write!(f, "refused {fault}"),
            RunFault::InputFailed => f.write_str("input failed"),
            RunFault::OutputFailed => f.write_str("output failed"),
            RunFault::OutOfMemory => f.write_str("out of memory"),
        }
    }
}

impl ExactEq for RunFault {
    ghost use Rattle.hir_collections.specs.Exact.{exact};

    ghost eq_decides = { Prim.search exact };
}

impl From<MemoryRefused> for RunFault {
    ghost use Rattle.std.specs.Prelude.{◌≡◌};
    ghost use Rattle.hir_show_run.specs.declared.fault.RunFault.TheVariants as to;

    ghost from_gives = { λ _ failure. failure ≡ to.OutOfMemory };

    fn from(_refused: MemoryRefused) -> RunFault {
        RunFault::OutOfMemory
    }
}

impl From<LineFault> for RunFault {
    ghost use Rattle.std.specs.Prelude.{◌≡◌};
    ghost use Rattle.hir_show_run.specs.Faults.{fault_of_line};

    ghost from_gives = { λ fault failure. failure ≡ fault_of_line fault };

    fn from(fault: LineFault) -> RunFault {
        match fault {
            LineFault::OutOfMemory => RunFault::OutOfMemory,
            LineFault::InputFailed => RunFault::InputFailed,
            LineFault::OutputFailed => RunFault::OutputFailed,
        }
    }
}

impl From<FinishFault> for RunFault {
    ghost use Rattle.std.specs.Prelude.{◌≡◌};
    ghost use Rattle.hir_show_run.specs.Faults.{fault_of_finish};

    ghost from_gives = { λ fault failure. failure ≡ fault_of_finish fault };

    fn from(fault: FinishFault) -> RunFault {
        match fault {
            FinishFault::Memory => RunFault::OutOfMemory,
            FinishFault::NoRoots
            | FinishFault::IdOutOfRange(_)
            | FinishFault::NotAPath(_)
            | FinishFault::NoReturnType(_)
            | FinishFault::NoSelfArgument(_)
            | FinishFault::ArgumentLists(_)
            | FinishFault::SharedChild(_)
            | FinishFault::Cycle(_)
            | FinishFault::RootOutOfRange(_)
            | FinishFault::RootRepeated(_)
            | FinishFault::RootUnderRoot(_)
            | FinishFault::RootEnds(_) => RunFault::Refused(fault),
        }
    }
}

/// The builder that is given back is dropped.
impl From<Refused> for RunFault {
    ghost use Rattle.std.specs.Prelude.{◌≡◌};
    ghost use Rattle.hir_show_run.specs.Faults.{fault_of_finish};

    ghost from_gives = { λ refused failure. failure ≡ fault_of_finish refused.fault };

    fn from(refused: Refused) -> RunFault {
        let fault = refused.fault;
        drop(refused);
        RunFault::from(fault)
    }
}

impl From<BodyFault> for RunFault {
    ghost use Rattle.std.specs.Prelude.{◌≡◌};
    ghost use Rattle.hir_show_run.specs.Faults.{fault_of_body};

    ghost from_gives = { λ fault failure. failure ≡ fault_of_body fault };

    fn from(fault: BodyFault) -> RunFault {
        match fault {
            BodyFault::Memory => RunFault::OutOfMemory,
            BodyFault::NoRoot
            | BodyFault::SelfOutOfRange
            | BodyFault::ParamOutOfRange(_)
            | BodyFault::ParamRepeated(_)
            | BodyFault::ParamUnder(_)
            | BodyFault::RootInParam => RunFault::BodyRefused(fault),
        }
    }
}

/// The parts that are given back are dropped.
impl From<RefusedBody> for RunFault {
    ghost use Rattle.std.specs.Prelude.{◌≡◌};
    ghost use Rattle.hir_show_run.specs.Faults.{fault_of_body};

    ghost from_gives = { λ refused failure. failure ≡ fault_of_body refused.fault };

    fn from(refused: RefusedBody) -> RunFault {
        let reason = refused.fault;
        drop(refused);
        RunFault::from(reason)
    }
}
