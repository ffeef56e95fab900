//! The names of definitions, bindings and path segments.
ghost use Rattle.std.specs.Prelude.{◌≡◌, ◌↔◌, ◌≤◌, length, IfOk, IfErr, IsOk, IsTrue, Some, codes};
ghost use Rattle.std.specs.Str.{IsAscii};
ghost use Rattle.std.specs.Cmp.Lexicographic.{pointwise};
ghost use Rattle.std.specs.Bool.{nat_eq};
ghost use Rattle.std.specs.Cmp.Rules.{comparing, hashing};
ghost use Rattle.std.proofs.Common.{rules};
ghost use Rattle.std.specs.Hash as fed;

use crate::short_text::{MOST_BYTES, ShortText};
use hir_collections::{ExactEq, Text, TryClone};
use std::alloc::{AllocError, AllocFailed, Global};
use std::hash::{Hash, Hasher};
use std::marker::Model;
use std::{fmt, str};

// Where the text of a name is stored: in the value, or in an allocation of its own.
#[derive(Drop)]
enum Place {
    Inside(ShortText),
    Outside(Box<Text>),
}

/// The name of a definition, a binding or a segment of a path, modelled as its bytes.
///
/// A name of at most 14 bytes takes no allocation.
#[derive(Drop)]
pub struct Name {
    place: Place,
}

impl Model for Name {
    ghost use Rattle.std.specs.Prelude.{List, ℕ};

    ghost Value = { List ℕ };

    ghost use Rattle.hir_base.specs.Name.{text_at};

    ghost view = { λ name. text_at name.place };
}

impl Name {
    /// Returns the name with this text. A name of at most 14 bytes takes no allocation, a longer one takes
    /// two.
    ///
    /// Returns an error if an allocation fails.
    pub fn new(alloc: Global, text: &str) -> Result<Name, AllocError>
        ensures ok { IfOk result (λ name. name ≡ text.now) }
        ensures short { length text.now ≤ 14 → IsOk result }
    {
        if text.len() <= MOST_BYTES {
            return Ok(Name {
                place: Place::Inside(ShortText::from_str(text)),
            });
        }
        Ok(Name {
            place: Place::Outside(Box::new(alloc, Text::from_str(alloc, text)?)?),
        })
    }

    /// Returns the name with this text in ASCII, as `new` makes it. Only a text of more than 14 bytes is
    /// tested again.
    ///
    /// Returns an error if an allocation fails.
    // Always inlined: see `with_zeros`.
    #[inline(always)]
    pub fn from_ascii(alloc: Global, text: &[u8]) -> Result<Name, AllocError>
        requires { IsAscii text.now }
        ensures ok { IfOk result (λ name. name ≡ text.now) }
        ensures short { length text.now ≤ 14 → IsOk result }
    {
        if text.len() <= MOST_BYTES {
            return Ok(Name {
                place: Place::Inside(ShortText::from_ascii(text)),
            });
        }
        match str::from_utf8(text) {
            Ok(text) => Name::new(alloc, text),
            Err(_) => unreachable!(),
        }
    }

    /// Returns the name with this text. A name of at most 14 bytes takes no allocation, a longer one takes
    /// one.
    ///
    /// Returns an error if an allocation fails: the error gives the text back.
    pub fn from_text(alloc: Global, text: Text) -> Result<Name, AllocFailed<Text>>
        ensures ok { IfOk result (λ name. name ≡ text) }
        ensures short { length text ≤ 14 → IsOk result }
        ensures value_returned { IfErr result (λ failed. failed.value ≡ text) }
    {
        if text.as_str().len() <= MOST_BYTES {
            return Ok(Name {
                place: Place::Inside(ShortText::from_str(text.as_str())),
            });
        }
        Ok(Name {
            place: Place::Outside(Box::new(alloc, text)?),
        })
    }

    /// Returns the name of what has none in source code: `[missing name]`. It is short, so the call never
    /// fails.
    pub fn missing(alloc: Global) -> Result<Name, AllocError>
        ensures ok { IfOk result (λ name. name ≡ codes "[missing name]") }
        ensures never_refused { IsOk result }
    {
        Name::new(alloc, "[missing name]")
    }

    /// Returns the text of the name.
    pub fn as_str(&self) -> &str
        ensures { result.now ≡ self.now }
    {
        match &self.place {
            Place::Inside(text) => text.as_str(),
            Place::Outside(text) => text.as_str(),
        }
    }

    /// Returns whether the name has this text.
    pub fn has_text(&self, text: &str) -> bool
        ensures { IsTrue result ↔ (self.now ≡ text.now) }
    {
        self.as_str() == text
    }

    // Returns the bytes of the text.
    fn as_bytes(&self) -> &[u8]
        ensures { result.now ≡ self.now }
    {
        match &self.place {
            Place::Inside(text) => text.as_bytes(),
            Place::Outside(text) => text.as_str().as_bytes(),
        }
    }
}

/// Writes its text.
impl fmt::Display for Name {
    ghost output = { λ name. Some name };

    fn fmt<W: fmt::Write>(&self, f: &mut fmt::Formatter<W>) -> fmt::Result {
        f.write_str(self.as_str())
    }
}

impl PartialEq for Name {
    ghost eq = { pointwise nat_eq };

    ghost laws = { Prim.search (comparing, rules) };

    fn eq(&self, other: &Name) -> bool {
        self.as_bytes() == other.as_bytes()
    }
}

impl Eq for Name {
    ghost laws = { Prim.search (comparing, rules) };
}

impl Hash for Name {
    ghost hash_input = { fed.str };

    ghost respects_eq = { Prim.search (hashing, rules) };

    fn hash<H: Hasher>(&self, state: &mut H) {
        self.as_str().hash(state);
    }
}

impl Clone for Name {
    ghost is_clone = { λ x y. y ≡ x };

    fn clone(&self) -> Result<Name, AllocError> {
        let place = match &self.place {
            Place::Inside(text) => Place::Inside(text.copy()),
            Place::Outside(text) => Place::Outside(text.clone()?),
        };
        Ok(Name { place })
    }
}

impl ExactEq for Name {
    ghost use Rattle.std.specs.Cmp.Lexicographic.{bytes_decides};

    ghost eq_decides = { bytes_decides };
}

impl TryClone for Name {
    ghost clone_is_same = { Prim.search rules };
}
