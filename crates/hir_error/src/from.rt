//! What each refusal turns into.

ghost use Rattle.std.specs.Prelude.{◌≡◌};
ghost use Rattle.hir_collections.specs.declared.arena.ArenaFault.TheVariants.{Memory};
ghost use Rattle.hir_error.specs.declared.error.HirError.TheVariants as error;

use crate::HirError;
use crate::missing_ids::missing_id;
use hir_body::{BodyFault, RefusedBody};
use hir_captures::CapturesFault;
use hir_collections::ArenaFault;
use hir_pretty::PrintFault;
use hir_scope::ScopesFault;
use hir_signature::{RefusedSignature, SignatureFault};
use hir_store::{FinishFault, Refused};
use hir_store_core::Missing;
use hir_usages::RenameFault;
use std::alloc::{AllocError, AllocFailed};

impl From<ArenaFault> for HirError {
    ghost from_gives = { λ fault made. made ≡ error.Arena fault };

    fn from(fault: ArenaFault) -> HirError {
        HirError::Arena(fault)
    }
}

impl From<FinishFault> for HirError {
    ghost from_gives = { λ fault made. made ≡ error.Store fault };

    fn from(fault: FinishFault) -> HirError {
        HirError::Store(fault)
    }
}

impl From<BodyFault> for HirError {
    ghost from_gives = { λ fault made. made ≡ error.Body fault };

    fn from(fault: BodyFault) -> HirError {
        HirError::Body(fault)
    }
}

impl From<SignatureFault> for HirError {
    ghost from_gives = { λ fault made. made ≡ error.Signature fault };

    fn from(fault: SignatureFault) -> HirError {
        HirError::Signature(fault)
    }
}

impl From<Missing> for HirError {
    ghost from_gives = { λ fault made. made ≡ error.Missing fault };

    fn from(fault: Missing) -> HirError {
        HirError::Missing(fault)
    }
}

impl From<ScopesFault> for HirError {
    ghost from_gives = { λ fault made. made ≡ error.Scopes fault };

    fn from(fault: ScopesFault) -> HirError {
        HirError::Scopes(fault)
    }
}

impl From<PrintFault> for HirError {
    ghost from_gives = { λ fault made. made ≡ error.Print fault };

    fn from(fault: PrintFault) -> HirError {
        HirError::Print(fault)
    }
}

impl From<CapturesFault> for HirError {
    ghost from_gives = { λ fault made. made ≡ error.Captures fault };

    fn from(fault: CapturesFault) -> HirError {
        HirError::Captures(fault)
    }
}

impl From<RenameFault> for HirError {
    ghost from_gives = { λ fault made. made ≡ error.Rename fault };

    fn from(fault: RenameFault) -> HirError {
        HirError::Rename(fault)
    }
}

impl From<AllocError> for HirError {
    ghost from_gives = { λ _ made. made ≡ error.Arena Memory };

    fn from(_: AllocError) -> HirError {
        HirError::Arena(ArenaFault::Memory)
    }
}

/// The value that is given back is dropped.
impl<T: Drop> From<AllocFailed<T>> for HirError {
    ghost from_gives = { λ _ made. made ≡ error.Arena Memory };

    fn from(_: AllocFailed<T>) -> HirError {
        HirError::from(ArenaFault::Memory)
    }
}

/// The element that is given back is dropped.
impl<T: Drop> From<(ArenaFault, T)> for HirError {
    ghost from_gives = { λ refused made. made ≡ error.Arena refused.0 };

    fn from(refused: (ArenaFault, T)) -> HirError {
        HirError::Arena(refused.0)
    }
}

/// The builder that is given back says which id a node names that doesn't exist, and is dropped.
impl From<Refused> for HirError {
    ghost use Rattle.hir_store.specs.Building.{nodes_of};
    ghost use Rattle.hir_error.specs.StoreErrors.{store_error};

    ghost from_gives = { λ refused made. made ≡ store_error (nodes_of refused.builder) refused.fault };

    fn from(refused: Refused) -> HirError {
        let Refused { fault, builder } = refused;
        match fault {
            FinishFault::IdOutOfRange(node) => match missing_id(&builder, &node) {
                Some(named) => HirError::IdOutOfRange { node, named },
                None => HirError::Store(FinishFault::IdOutOfRange(node)),
            },
            FinishFault::NoRoots
            | FinishFault::NotAPath(_)
            | FinishFault::NoReturnType(_)
            | FinishFault::NoSelfArgument(_)
            | FinishFault::ArgumentLists(_)
            | FinishFault::SharedChild(_)
            | FinishFault::Cycle(_)
            | FinishFault::RootOutOfRange(_)
            | FinishFault::RootRepeated(_)
            | FinishFault::RootUnderRoot(_)
            | FinishFault::RootEnds(_)
            | FinishFault::Memory => HirError::Store(fault),
        }
    }
}

/// The parts that are given back are dropped.
impl From<RefusedBody> for HirError {
    ghost from_gives = { λ refused made. made ≡ error.Body refused.fault };

    fn from(refused: RefusedBody) -> HirError {
        HirError::Body(refused.fault)
    }
}

/// The parts that are given back are dropped.
impl<P: Drop> From<RefusedSignature<P>> for HirError {
    ghost from_gives = { λ refused made. made ≡ error.Signature refused.fault };

    fn from(refused: RefusedSignature<P>) -> HirError {
        HirError::Signature(refused.fault)
    }
}
