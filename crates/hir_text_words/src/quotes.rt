//! Texts in quotes: read with their escapes, and written with them.

use crate::text_error::TextError;
use crate::values::number_of;
use crate::words::{Part, Words};
use std::alloc::AllocError;

fn read_byte(words: &mut Words<'_>) -> Result<u8, TextError> {
    let digits = words.take(2);
    if digits.len() < 2 {
        return Err(TextError::Syntax);
    }
    let number = number_of(digits, 16).ok_or(TextError::Syntax)?;
    Ok(u8::try_from(number)?)
}

/// Returns the character of a number in hexadecimal; none where there is no such character.
fn char_of(digits: &[u8]) -> Option<char> {
    char::from_u32(u32::try_from(number_of(digits, 16)?).ok()?)
}

/// Takes a character's number in braces, in hexadecimal.
fn read_char(words: &mut Words<'_>) -> Result<char, TextError> {
    words.expect("{")?;
    let digits = words.take_bytes_of(Part::Keyword);
    words.expect("}")?;
    if digits.is_empty() {
        return Err(TextError::Syntax);
    }
    char_of(digits).ok_or(TextError::Syntax)
}

/// Takes what comes after a backslash, and puts the bytes that it stands for after the others.
fn read_escape(words: &mut Words<'_>, bytes: &mut Vec<u8>) -> Result<(), TextError> {
    if words.eat("u") {
        let c = read_char(words)?;
        return Ok(bytes.extend_from_slice(c.encode_utf8(&mut [0u8; 4]).as_bytes())?);
    }
    let byte = match words.take(1) {
        [b'n'] => b'\n',
        [b'r'] => b'\r',
        [b't'] => b'\t',
        [b'0'] => 0,
        [b'\\'] => b'\\',
        [b'"'] => b'"',
        [] => return Err(words.stop_here()),
        _ => return Err(TextError::Syntax),
    };
    Ok(bytes.push(byte)?)
}

/// Takes the next byte or escape, and puts it after the others: false at the closing quote.
fn read_next(
    words: &mut Words<'_>,
    bytes: &mut Vec<u8>,
    has_bytes: bool,
) -> Result<bool, TextError> {
    if words.eat("\"") {
        return Ok(false);
    }
    if has_bytes && words.eat("\\x") {
        bytes.push(read_byte(words)?)?;
    } else if words.eat("\\") {
        read_escape(words, bytes)?;
    } else {
        bytes.extend_from_slice(words.take(1))?;
    }
    Ok(true)
}

/// Takes the text in quotes, in which bytes may be written as `\xHH` where this says so.
pub(crate) fn read_quoted(words: &mut Words<'_>, has_bytes: bool) -> Result<Vec<u8>, TextError> {
    words.expect("\"")?;
    let mut bytes = Vec::new(words.alloc());
    for _ in 0..words.most_items() {
        if !read_next(words, &mut bytes, has_bytes)? {
            return Ok(bytes);
        }
    }
    Err(words.stop_here())
}

fn hex(digit: u8) -> char {
    match digit {
        0..=9 => char::from(b'0' + digit),
        _ => char::from(b'a'.wrapping_add(digit.wrapping_sub(10))),
    }
}

/// Writes a byte as two hexadecimal digits, between these.
fn write_hex(before: &str, byte: u8, behind: &str, out: &mut String) -> Result<(), AllocError> {
    out.push_str(before)?;
    out.push(hex(byte / 16))?;
    out.push(hex(byte % 16))?;
    out.push_str(behind)
}

fn write_char(c: char, out: &mut String) -> Result<(), AllocError> {
    match c {
        '\n' => out.push_str("\\n"),
        '\r' => out.push_str("\\r"),
        '\t' => out.push_str("\\t"),
        '\0' => out.push_str("\\0"),
        '\\' => out.push_str("\\\\"),
        '"' => out.push_str("\\\""),
        '\u{1}'..='\u{1f}' | '\u{7f}' => {
            write_hex("\\u{", u32::from(c).to_le_bytes()[0], "}", out)
        }
        _ => out.push(c),
    }
}

/// Writes a text in quotes.
pub(crate) fn write_quoted(text: &str, out: &mut String) -> Result<(), AllocError> {
    out.push('"')?;
    for c in text.chars() {
        write_char(c, out)?;
    }
    out.push('"')
}

/// Writes bytes in quotes.
pub(crate) fn write_bytes(bytes: &[u8], out: &mut String) -> Result<(), AllocError> {
    out.push('"')?;
    for byte in bytes {
        match *byte {
            0 | b'\t' | b'\n' | b'\r' | b' '..=b'~' => write_char(char::from(*byte), out)?,
            _ => write_hex("\\x", *byte, "", out)?,
        }
    }
    out.push('"')
}
