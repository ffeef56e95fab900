//! What the text of an error says of nodes, bodies, signatures and renames that are refused: a sentence for
//! each fault.

ghost use Rattle.std.specs.Prelude.{◌≡◌};
ghost use Rattle.hir_error.specs.Texts.{node_of};

use crate::named_id::NamedId;
use hir_body::BodyFault;
use hir_node::{ExprOrPatId, NodeId};
use hir_signature::SignatureFault;
use hir_store::FinishFault;
use hir_usages::RenameFault;
use std::fmt::{self, Display};

/// Why a builder is refused, in words.
#[derive(Clone, Copy, Drop)]
pub(crate) struct StoreText(pub FinishFault);

impl Display for StoreText {
    ghost use Rattle.std.specs.Prelude.{Some};
    ghost use Rattle.hir_error.specs.Texts.{store_sentence};

    ghost output = { λ text. Some (store_sentence text.0) };

    fn fmt<W: fmt::Write>(&self, f: &mut fmt::Formatter<W>) -> fmt::Result {
        match self.0 {
            FinishFault::NoRoots => f.write_str(
                "there are nodes of a body, but no list of roots was begun",
            ),
            FinishFault::IdOutOfRange(node) => write!(f, "{node} names an id that doesn't exist"),
            FinishFault::NotAPath(node) => {
                write!(
                    f,
                    "{node} names as the path of a bound a type that isn't a path"
                )
            }
            FinishFault::NoReturnType(node) => {
                write!(f, "{node} is a function type without a return type")
            }
            FinishFault::NoSelfArgument(node) => {
                write!(f, "{node} has generic arguments that lack their self type")
            }
            FinishFault::ArgumentLists(node) => {
                write!(
                    f,
                    "{node} has a path without one list of arguments for each segment"
                )
            }
            FinishFault::SharedChild(node) => write!(f, "{node} is a child more than once"),
            FinishFault::Cycle(node) => write!(f, "{node} is on a cycle, or a descendant of one"),
            FinishFault::RootOutOfRange(index) => {
                write!(f, "root {index} is an expression that doesn't exist")
            }
            FinishFault::RootRepeated(index) => write!(f, "root {index} repeats an earlier root"),
            FinishFault::RootUnderRoot(index) => {
                write!(f, "root {index} is a descendant of another root")
            }
            FinishFault::RootEnds(index) => {
                write!(
                    f,
                    "an end of root {index} is past its arena, or less than that of the root before"
                )
            }
            FinishFault::Memory => f.write_str("out of memory"),
        }
    }
}

/// Why a body is refused, in words. Parameters are counted from 0.
#[derive(Clone, Copy, Drop)]
pub(crate) struct BodyText(pub BodyFault);

impl Display for BodyText {
    ghost use Rattle.std.specs.Prelude.{Some};
    ghost use Rattle.hir_error.specs.Texts.{body_sentence};

    ghost output = { λ text. Some (body_sentence text.0) };

    fn fmt<W: fmt::Write>(&self, f: &mut fmt::Formatter<W>) -> fmt::Result {
        match self.0 {
            BodyFault::NoRoot => f.write_str("the store of the body has no root"),
            BodyFault::SelfOutOfRange => {
                f.write_str("the self parameter has a binding that doesn't exist")
            }
            BodyFault::ParamOutOfRange(index) => {
                write!(f, "parameter {index} has a pattern that doesn't exist")
            }
            BodyFault::ParamRepeated(index) => {
                write!(
                    f,
                    "parameter {index} has the pattern of an earlier parameter"
                )
            }
            BodyFault::ParamUnder(index) => {
                write!(
                    f,
                    "parameter {index} is a descendant of another parameter or of the last root"
                )
            }
            BodyFault::RootInParam => f.write_str("the last root is a descendant of a parameter"),
            BodyFault::Memory => f.write_str("out of memory"),
        }
    }
}

/// Why a signature is refused, in words.
#[derive(Clone, Copy, Drop)]
pub(crate) struct SignatureText(pub SignatureFault);

impl Display for SignatureText {
    ghost use Rattle.std.specs.Prelude.{Some};
    ghost use Rattle.hir_error.specs.Texts.{signature_sentence};

    ghost output = { λ text. Some (signature_sentence text.0) };

    fn fmt<W: fmt::Write>(&self, f: &mut fmt::Formatter<W>) -> fmt::Result {
        match self.0 {
            SignatureFault::IdOutOfRange => {
                f.write_str("the signature names an id that doesn't exist")
            }
            SignatureFault::NotAPath => {
                f.write_str("the signature names as the path of a bound a type that isn't a path")
            }
            SignatureFault::Memory => f.write_str("out of memory"),
        }
    }
}

/// The node that a use is.
fn node_of(usage: ExprOrPatId) -> NodeId
    ensures { result ≡ node_of usage }
{
    match usage {
        ExprOrPatId::ExprId(id) => NodeId::Expr(id),
        ExprOrPatId::PatId(id) => NodeId::Pat(id),
    }
}

/// Why a binding may not have a name, in words.
#[derive(Clone, Copy, Drop)]
pub(crate) struct RenameText(pub RenameFault);

impl Display for RenameText {
    ghost use Rattle.std.specs.Prelude.{Some};
    ghost use Rattle.hir_error.specs.Texts.{rename_sentence};

    ghost output = { λ text. Some (rename_sentence text.0) };

    fn fmt<W: fmt::Write>(&self, f: &mut fmt::Formatter<W>) -> fmt::Result {
        match self.0 {
            RenameFault::NotBound => f.write_str("the body has no entry of the binding"),
            RenameFault::IsSelf => {
                f.write_str("self has no other name, and no other variable is named self")
            }
            RenameFault::SameFrame { other } => {
                let other = NamedId::Binding(other);
                write!(f, "{other} has the name in the same frame")
            }
            RenameFault::Hidden { usage, by } => {
                let usage = node_of(usage);
                let by = NamedId::Binding(by);
                write!(f, "{usage} would resolve to {by}")
            }
            RenameFault::Captures { usage, was: _ } => {
                let usage = node_of(usage);
                write!(f, "{usage} would resolve to the renamed binding")
            }
            RenameFault::Memory => f.write_str("out of memory"),
        }
    }
}
