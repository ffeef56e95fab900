//! The error that each refusal turns into.

ghost use Rattle.std.specs.Prelude.{◌↔◌, IsTrue};
ghost use Rattle.hir_error.specs.OutOfMemory.{IsOutOfMemory};

use crate::missing_text::MissingText;
use crate::named_id::NamedId;
use crate::sentences::{BodyText, RenameText, SignatureText, StoreText};
use hir_body::BodyFault;
use hir_captures::CapturesFault;
use hir_collections::{ArenaFault, ExactEq};
use hir_node::NodeId;
use hir_pretty::PrintFault;
use hir_scope::ScopesFault;
use hir_signature::SignatureFault;
use hir_store::FinishFault;
use hir_store_core::Missing;
use hir_usages::RenameFault;
use std::fmt::{self, Display};

/// The refusal of a call of the crates of the store, of definitions, scopes, captures, uses and printing (not
/// of `hir_show_io`, `hir_show_grammar` and `hir_show_run`). Its text is a sentence that says what was refused
/// and why, as `ExprId(1) names ExprId(99), which doesn't exist`, and of a definition that is missing what is
/// missing, as `no signature of FunctionId(7)`. The text of a fault alone is its name.
///
/// A refusal that gives something back (a builder, the parts of a body, an element) drops it when it turns
/// into this error.
#[derive(Clone, Copy, Debug, Drop, PartialEq, Eq)]
pub enum HirError {
    /// An element, a name, a list or an entry of a table wasn't made or added.
    Arena(ArenaFault),
    /// The builder isn't a well-formed store.
    Store(FinishFault),
    /// The builder isn't a well-formed store, since this node names this id, which doesn't exist. The fault
    /// is `IdOutOfRange`, and the builder that came back with it says which id that is.
    IdOutOfRange { node: NodeId, named: NamedId },
    /// The parts aren't a body.
    Body(BodyFault),
    /// The parts aren't a signature.
    Signature(SignatureFault),
    /// The tables lack a definition.
    Missing(Missing),
    /// Scopes weren't made.
    Scopes(ScopesFault),
    /// A text wasn't printed.
    Print(PrintFault),
    /// A closure's captures weren't found.
    Captures(CapturesFault),
    /// A binding wasn't renamed.
    Rename(RenameFault),
    /// A path with this many segments was to be made with another number of lists of generic arguments.
    ArgumentLists { segments: usize, lists: usize },
}

impl Display for HirError {
    ghost use Rattle.std.specs.Prelude.{Some};
    ghost use Rattle.hir_error.specs.Texts.{error_text};

    ghost output = { λ error. Some (error_text error) };

    fn fmt<W: fmt::Write>(&self, f: &mut fmt::Formatter<W>) -> fmt::Result {
        match self {
            HirError::Arena(ArenaFault::Memory) => f.write_str("out of memory"),
            HirError::Arena(ArenaFault::Full) => f.write_str("an arena is full"),
            HirError::Store(fault) => StoreText(*fault).fmt(f),
            HirError::IdOutOfRange { node, named } => {
                write!(f, "{node} names {named}, which doesn't exist")
            }
            HirError::Body(fault) => BodyText(*fault).fmt(f),
            HirError::Signature(fault) => SignatureText(*fault).fmt(f),
            HirError::Missing(missing) => MissingText(*missing).fmt(f),
            HirError::Scopes(ScopesFault::Missing) => {
                f.write_str("the tables lack the body, signature or fields of the definition")
            }
            HirError::Scopes(ScopesFault::Full) => {
                f.write_str("there are too many scopes or entries of scopes")
            }
            HirError::Scopes(ScopesFault::Memory) => f.write_str("out of memory"),
            HirError::Print(PrintFault::Missing(missing)) => MissingText(*missing).fmt(f),
            HirError::Print(PrintFault::Memory) => f.write_str("out of memory"),
            HirError::Captures(CapturesFault::NotAClosure) => {
                f.write_str("the expression isn't a closure that the body reaches")
            }
            HirError::Captures(CapturesFault::Memory) => f.write_str("out of memory"),
            HirError::Rename(fault) => RenameText(*fault).fmt(f),
            HirError::ArgumentLists { segments, lists } => write!(
                f,
                "a path needs one list of arguments for each segment (segments: {segments}, lists: {lists})"
            ),
        }
    }
}

impl std::error::Error for HirError {}

impl HirError {
    /// Whether it says that an allocation failed, in any call.
    pub fn is_out_of_memory(self) -> bool
        ensures { IsTrue result ↔ IsOutOfMemory self }
    {
        match self {
            HirError::Arena(fault) => fault.is_same(&ArenaFault::Memory),
            HirError::Store(fault) => fault.is_same(&FinishFault::Memory),
            HirError::IdOutOfRange { node: _, named: _ } => false,
            HirError::Body(fault) => fault.is_same(&BodyFault::Memory),
            HirError::Signature(fault) => fault.is_same(&SignatureFault::Memory),
            HirError::Missing(_) => false,
            HirError::Scopes(fault) => fault.is_same(&ScopesFault::Memory),
            HirError::Print(fault) => fault.is_same(&PrintFault::Memory),
            HirError::Captures(fault) => fault.is_same(&CapturesFault::Memory),
            HirError::Rename(fault) => fault.is_same(&RenameFault::Memory),
            HirError::ArgumentLists {
                segments: _,
                lists: _,
            } => false,
        }
    }
}

impl ExactEq for HirError {
    ghost use Rattle.hir_error.specs.same.SameErrors.{errors_decide};

    ghost eq_decides = { errors_decide };
}
