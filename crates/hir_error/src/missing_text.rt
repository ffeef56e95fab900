//! What the text of an error says of a definition that is missing.

use hir_store_core::Missing;
use std::fmt::{self, Display};

/// What is missing, in words: what of the definition, and which definition.
#[derive(Clone, Copy, Drop)]
pub(crate) struct MissingText(pub Missing);

impl Display for MissingText {
    ghost use Rattle.std.specs.Prelude.{Some};
    ghost use Rattle.hir_error.specs.Texts.{missing_text};

    ghost output = { λ lack. Some (missing_text lack.0) };

    fn fmt<W: fmt::Write>(&self, f: &mut fmt::Formatter<W>) -> fmt::Result {
        match self.0 {
            Missing::Name(id) => write!(f, "no name of {id}"),
            Missing::Variant(id) => write!(f, "no enum of {id}"),
            Missing::Crate(id) => write!(f, "no name of {id}"),
            Missing::Signature(id) => write!(f, "no signature of {id}"),
            Missing::Body(id) => write!(f, "no body of {id}"),
            Missing::Fields(id) => write!(f, "no fields of {id}"),
            Missing::TypeParam(id) => write!(f, "no type parameter {id}"),
            Missing::LifetimeParam(id) => write!(f, "no lifetime parameter {id}"),
            Missing::DefMap(id) => write!(f, "no definition map of {id}"),
        }
    }
}
