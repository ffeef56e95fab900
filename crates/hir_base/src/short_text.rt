//! Short texts, which are stored in the value itself.
//! `ArrayString` of the crate `arrayvec` has a length of eight bytes, which makes a `Name` twice as large.
ghost use Rattle.std.specs.Prelude.{◌≡◌, ◌≤◌, ◌+◌, length, take};
ghost use Rattle.std.specs.Str.{IsAscii};

use std::marker::Model;
use std::str;

/// The most bytes that a `ShortText` holds.
pub(crate) const MOST_BYTES: usize = 14;

/// A text of at most 14 bytes, which takes no allocation. It is modelled as its bytes.
#[derive(Drop)]
pub(crate) struct ShortText {
    len: u8,
    bytes: [u8; MOST_BYTES],
}

impl Model for ShortText {
    ghost use Rattle.std.specs.Prelude.{List, ℕ, take, ◌≤◌, IsUtf8};

    ghost Value = { List ℕ };

    ghost view = { λ text. take text.len text.bytes };

    ghost invariant = { λ text. (text.len ≤ 14) × ∥ IsUtf8 (take text.len text.bytes) ∥₁ };
}

impl ShortText {
    /// Returns a copy of the text, which has to be short enough.
    pub(crate) fn from_str(text: &str) -> ShortText
        requires { length text.now ≤ 14 }
        ensures { result ≡ text.now }
    {
        ShortText {
            len: text.len() as u8,
            bytes: with_zeros(text.as_bytes()),
        }
    }

    /// Returns a copy of the text, which has to be short enough and in ASCII, so its bytes are UTF-8.
    // Always inlined: see `with_zeros`.
    #[inline(always)]
    pub(crate) fn from_ascii(text: &[u8]) -> ShortText
        requires short { length text.now ≤ 14 }
        requires ascii { IsAscii text.now }
        ensures { result ≡ text.now }
    {
        ShortText {
            len: text.len() as u8,
            bytes: with_zeros(text),
        }
    }

    /// Returns the same text again.
    pub(crate) fn copy(&self) -> ShortText
        ensures { result ≡ self.now }
    {
        ShortText {
            len: self.len,
            bytes: self.bytes,
        }
    }

    /// Returns the bytes of the text.
    pub(crate) fn as_bytes(&self) -> &[u8]
        ensures { result.now ≡ self.now }
    {
        &self.bytes[..self.len as usize]
    }

    /// Returns the text as a slice.
    // The invariant proves that the bytes are a text. A test of them took 10 percent of the instructions of
    // a print.
    pub(crate) fn as_str(&self) -> &str
        ensures { result.now ≡ self.now }
    {
        unsafe { str::from_utf8_unchecked(&self.bytes[..self.len as usize]) }
    }
}

/// Copies the first `N` bytes of a text and the last, which may overlap, to the start.
// `N` is known where this is compiled, so each copy is a load and a store; a copy of any number of bytes is
// a call.
fn copy_ends<const N: usize>(bytes: &mut [u8; MOST_BYTES], text: &[u8])
    requires fits { N ≤ length text.now }
    requires covers { length text.now ≤ N + N }
    requires short { length text.now ≤ 14 }
    ensures { take (length text.now) bytes.new ≡ text.now }
{
    let rest = text.len() - N;
    bytes[..N].copy_from_slice(&text[..N]);
    bytes[rest..text.len()].copy_from_slice(&text[rest..]);
}

/// Returns the bytes of a short text, and zeros.
// Always inlined, as is all that moves a name from its line into its arena: `from_ascii` above and that of
// `Name`, `Arena::alloc`, and their callers in the builder and the reader of lines. A name that passes
// through memory is written in pieces and then read as a whole, for which a processor waits. Inlining all of
// them saves 2 to 8 percent of the time of building, inlining only a part of them nothing.
#[inline(always)]
fn with_zeros(text: &[u8]) -> [u8; MOST_BYTES]
    requires { length text.now ≤ 14 }
    ensures { take (length text.now) result ≡ text.now }
{
    let mut bytes = [0; MOST_BYTES];
    if text.len() >= 8 {
        copy_ends::<8>(&mut bytes, text);
    } else if text.len() >= 4 {
        copy_ends::<4>(&mut bytes, text);
    } else if text.len() >= 2 {
        copy_ends::<2>(&mut bytes, text);
    } else if text.len() == 1 {
        copy_ends::<1>(&mut bytes, text);
    }
    bytes
}
