//! Numbers and names in a line.

ghost use Rattle.std.specs.Prelude.{◌≤◌};

use crate::quotes;
use crate::text_error::TextError;
use crate::words::{Part, Words};

/// Returns the number of these digits; none where one is no digit of the base, or the number takes more than
/// 128 bits.
pub(crate) fn number_of(digits: &[u8], base: u32) -> Option<u128>
    requires least { 2 ≤ base }
    requires most { base ≤ 36 }
{
    let mut number: u128 = 0;
    for digit in digits {
        let digit = char::from(*digit).to_digit(base)?;
        let shifted = number.checked_mul(u128::from(base))?;
        number = shifted.checked_add(u128::from(digit))?;
    }
    Some(number)
}

impl<'a> Words<'a> {
    /// Takes a number below 2^128, without a sign or a needless zero.
    pub fn big(&mut self) -> Result<u128, TextError> {
        match self.take_bytes_of(Part::Digits) {
            [] | [b'0', _, ..] => Err(TextError::Syntax),
            digits => number_of(digits, 10).ok_or(TextError::Syntax),
        }
    }

    /// Takes a number of 128 bits with a sign: a `-` where it is negative.
    pub fn int(&mut self) -> Result<i128, TextError> {
        if !self.eat("-") {
            return Ok(i128::try_from(self.big()?)?);
        }
        match 0i128.checked_sub_unsigned(self.big()?) {
            Some(number) if number < 0 => Ok(number),
            Some(_) | None => Err(TextError::Syntax),
        }
    }

    /// Takes a name, bare or in quotes.
    pub fn string(&mut self) -> Result<String, TextError> {
        if self.is_at("\"") {
            return self.quoted();
        }
        let bare = self.bare_name();
        if bare.is_empty() {
            return Err(TextError::Syntax);
        }
        Ok(String::from_str(self.alloc(), bare)?)
    }

    /// Takes a text in quotes.
    pub fn quoted(&mut self) -> Result<String, TextError> {
        let bytes = quotes::read_quoted(self, false)?;
        match String::from_utf8(bytes) {
            Ok(text) => Ok(text),
            Err(_) => Err(TextError::Syntax),
        }
    }

    /// Takes bytes in quotes.
    pub fn bytes(&mut self) -> Result<Vec<u8>, TextError> {
        quotes::read_quoted(self, true)
    }
}
