//! Why a signature is refused.

ghost use Rattle.hir_signature.specs.Signatures.{ids_fault};

use hir_collections::ExactEq;
use std::fmt::{self, Display};

/// Why a signature is refused: the first of its faults, in this order. The text is the name.
#[derive(Clone, Copy, Debug, PartialEq, Eq)]
pub enum SignatureFault {
    /// An id of the lists, the return type, the parameters or the predicates isn't in the store.
    IdOutOfRange,
    /// A bound of a predicate names as a path a type that isn't one.
    NotAPath,
    /// An allocation failed. The tests take no memory, so no constructor returns it.
    Memory,
}

impl Display for SignatureFault {
    ghost use Rattle.std.specs.Prelude.{Some};
    ghost use Rattle.hir_signature.specs.FaultTexts.{signature_fault_text};

    ghost output = { λ fault. Some (signature_fault_text fault) };

    fn fmt<W: fmt::Write>(&self, f: &mut fmt::Formatter<W>) -> fmt::Result {
        match self {
            SignatureFault::IdOutOfRange => f.write_str("IdOutOfRange"),
            SignatureFault::NotAPath => f.write_str("NotAPath"),
            SignatureFault::Memory => f.write_str("Memory"),
        }
    }
}

impl std::error::Error for SignatureFault {}

impl ExactEq for SignatureFault {
    ghost use Rattle.hir_collections.specs.Exact.{exact};

    ghost eq_decides = { Prim.search exact };
}

/// The parts of a signature that was refused, as they were, with their first fault.
#[derive(Drop, PartialEq, Eq)]
#[derive_where(Debug)]
pub struct RefusedSignature<P> {
    pub fault: SignatureFault,
    #[derive_where(skip(Debug))]
    pub parts: P,
}

/// Writes the text of its fault.
impl<P> Display for RefusedSignature<P> {
    ghost use Rattle.std.specs.Prelude.{Some};
    ghost use Rattle.hir_signature.specs.FaultTexts.{signature_fault_text};

    ghost output = { λ refused. Some (signature_fault_text refused.fault) };

    fn fmt<W: fmt::Write>(&self, f: &mut fmt::Formatter<W>) -> fmt::Result {
        Display::fmt(&self.fault, f)
    }
}

impl<P: Drop> std::error::Error for RefusedSignature<P> {}

/// Returns the first fault, by whether all ids exist and whether what is named as a path is one.
pub(crate) fn ids_fault(in_range: bool, paths: bool) -> Option<SignatureFault>
    ensures { ids_fault in_range paths result }
{
    if !in_range {
        return Some(SignatureFault::IdOutOfRange);
    }
    if !paths {
        return Some(SignatureFault::NotAPath);
    }
    None
}
