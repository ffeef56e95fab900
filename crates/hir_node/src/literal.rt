//! Literals: texts, bytes, characters, truth values and numbers.
ghost use Rattle.std.specs.Prelude.{◌≡◌, Some};
ghost use Rattle.hir_collections.specs.Exact.{exact};

use hir_base::{BuiltinFloat, BuiltinInt, BuiltinUint};
use hir_collections::{ExactEq, Seq, Text, TryClone};
use hir_path::PatId;
use std::fmt;
use std::marker::Model;

/// A floating point number, kept as its text so that it is rounded once, by the caller that reads it as a
/// number.
#[derive(Drop, Clone, PartialEq, Eq)]
pub struct FloatTypeWrapper(Text);

impl Model for FloatTypeWrapper {
    ghost use Rattle.std.specs.Prelude.{List, ℕ};

    ghost Value = { List ℕ };

    ghost view = { λ number. number.0 };

    ghost inverse = { λ text. record { 0 = text } };
}

impl FloatTypeWrapper {
    /// Returns the number with this text.
    pub fn new(text: Text) -> FloatTypeWrapper
        ensures { result ≡ text }
    {
        FloatTypeWrapper(text)
    }

    /// Returns the text of the number.
    pub fn as_str(&self) -> &str
        ensures { result.now ≡ self.now }
    {
        self.0.as_str()
    }
}

/// Writes the text of the number, unchanged.
impl fmt::Display for FloatTypeWrapper {
    ghost output = { λ number. Some number };

    fn fmt<W: fmt::Write>(&self, f: &mut fmt::Formatter<W>) -> fmt::Result {
        f.write_str(self.0.as_str())
    }
}

impl ExactEq for FloatTypeWrapper {
    ghost eq_decides = { Prim.search exact };
}

impl TryClone for FloatTypeWrapper {
    ghost clone_is_same = { Prim.search exact };
}

/// A literal. A number may have its type written after it. It takes 48 bytes.
#[derive(Drop, Clone, PartialEq, Eq)]
pub enum Literal {
    String(Text),
    ByteString(Seq<u8>),
    /// The bytes of a C string, without the zero at its end.
    CString(Seq<u8>),
    Char(char),
    Bool(bool),
    Int(i128, Option<BuiltinInt>),
    Uint(u128, Option<BuiltinUint>),
    Float(FloatTypeWrapper, Option<BuiltinFloat>),
}

impl Literal {
    ghost use Rattle.hir_node.specs.Literals.{negate};

    /// Negates an `Int`; the least number stays as it is. `None` for every other literal.
    pub fn negate(self) -> Option<Literal>
        ensures { result ≡ negate self }
    {
        match self {
            Literal::Int(value, suffix) => Some(Literal::Int(value.wrapping_neg(), suffix)),
            Literal::String(_)
            | Literal::ByteString(_)
            | Literal::CString(_)
            | Literal::Char(_)
            | Literal::Bool(_)
            | Literal::Uint(_, _)
            | Literal::Float(_, _) => None,
        }
    }
}

impl ExactEq for Literal {
    ghost use Rattle.hir_node.specs.same.SameLiterals.{literals_decide};

    ghost eq_decides = { literals_decide };
}

impl TryClone for Literal {
    ghost clone_is_same = { Prim.search exact };
}

/// What a range pattern may end in.
#[derive(Drop, Clone, PartialEq, Eq)]
pub enum LiteralOrConst {
    Literal(Literal),
    /// A pattern that names a constant.
    Const(PatId),
}

impl ExactEq for LiteralOrConst {
    ghost use Rattle.hir_node.specs.same.SameLiterals.{ends_decide};

    ghost eq_decides = { ends_decide };
}

impl TryClone for LiteralOrConst {
    ghost clone_is_same = { Prim.search exact };
}
