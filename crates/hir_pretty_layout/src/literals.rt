//! Literals as source text writes them: strings, characters, bytes and numbers, with their escapes and
//! without a temporary string.
#![tactic(auto, using(crate::proofs::PieceLemmas::pieces))]

ghost use Rattle.std.specs.Prelude.{◌≡◌, ◌<◌, ◌∷◌, [], OnOk, OnErr};
ghost use Rattle.std.specs.List.{flat_map};
ghost use Rattle.std.specs.Char.{digit_char};
ghost use Rattle.std.specs.Str.{chars};
ghost use Rattle.hir_pretty_layout.specs.Layouts as piece;
ghost use Rattle.hir_pretty_layout.specs.Steps.{steps, StopsIn};
ghost use Rattle.hir_pretty_layout.specs.Literals.{short_escape, two_digits, hexadecimal, long_escape, escaped_by, string_char, byte_pieces, quoted, string_literal, char_literal, bytes_literal, c_string_literal};

use crate::PieceWriter;
use itoa::Integer;
use std::alloc::AllocError;

/// The escape of two characters, or an empty text.
fn short_escape(c: char) -> &'static str
    ensures { result.now ≡ short_escape c }
{
    match c {
        '\0' => "\\0",
        '\t' => "\\t",
        '\r' => "\\r",
        '\n' => "\\n",
        '\\' => "\\\\",
        '"' => "\\\"",
        '\'' => "\\'",
        _ => "",
    }
}

/// Writes a digit in lower-case hexadecimal.
fn write_digit<W: PieceWriter>(writer: &mut W, digit: u8) -> Result<(), AllocError>
    requires { digit < 16 }
    ensures ok { OnOk result (writer.new ≡ W.step (piece.Text (digit_char digit ∷ [])) writer.old) }
    ensures err { OnErr result (W.refuses (piece.Text (digit_char digit ∷ [])) writer.old writer.new) }
{
    let code = if digit < 10 {
        b'0' + digit
    } else {
        b'a' - 10 + digit
    };
    let mut bytes = [0u8; 4];
    writer.text((code as char).encode_utf8(&mut bytes))
}

/// Writes two digits in hexadecimal.
fn write_two_digits<W: PieceWriter>(writer: &mut W, number: u8) -> Result<(), AllocError>
    ensures ok { OnOk result (writer.new ≡ steps W.step (two_digits number) writer.old) }
    ensures err { OnErr result (StopsIn W.step W.refuses (two_digits number) writer.old writer.new) }
{
    write_digit(writer, number / 16)?;
    write_digit(writer, number % 16)
}

/// Writes a number in hexadecimal, without a leading 0.
fn write_hexadecimal<W: PieceWriter>(writer: &mut W, number: u8) -> Result<(), AllocError>
    ensures ok { OnOk result (writer.new ≡ steps W.step (hexadecimal number) writer.old) }
    ensures err { OnErr result (StopsIn W.step W.refuses (hexadecimal number) writer.old writer.new) }
{
    if number >= 16 {
        return write_two_digits(writer, number);
    }
    write_digit(writer, number)
}

/// Writes a character by its short escape, if there is one, and else an ASCII control as `\u{..}`.
fn write_escaped<W: PieceWriter>(writer: &mut W, escape: &str, c: char) -> Result<(), AllocError>
    ensures ok { OnOk result (writer.new ≡ steps W.step (escaped_by escape.now (long_escape c)) writer.old) }
    ensures err { OnErr result (StopsIn W.step W.refuses
        (escaped_by escape.now (long_escape c)) writer.old writer.new) }
{
    if !escape.is_empty() {
        return writer.text(escape);
    }
    if c.is_ascii_control() {
        writer.text("\\u{")?;
        write_hexadecimal(writer, c as u8)?;
        return writer.text("}");
    }
    let mut bytes = [0u8; 4];
    writer.text(c.encode_utf8(&mut bytes))
}

/// Writes a byte by its short escape, if it has one in bytes, and else, if it is not printable, as `\x..`.
fn write_byte<W: PieceWriter>(writer: &mut W, byte: u8) -> Result<(), AllocError>
    ensures ok { OnOk result (writer.new ≡ steps W.step (byte_pieces byte) writer.old) }
    ensures err { OnErr result (StopsIn W.step W.refuses (byte_pieces byte) writer.old writer.new) }
{
    let escape = if byte == 0 {
        ""
    } else {
        short_escape(byte as char)
    };
    if !escape.is_empty() {
        return writer.text(escape);
    }
    if byte < 32 || 126 < byte {
        writer.text("\\x")?;
        return write_two_digits(writer, byte);
    }
    let mut bytes = [0u8; 4];
    writer.text((byte as char).encode_utf8(&mut bytes))
}

fn write_string_chars<W: PieceWriter>(writer: &mut W, text: &str) -> Result<(), AllocError>
    ensures ok { OnOk result (writer.new ≡ steps W.step (flat_map string_char (chars text.now)) writer.old) }
    ensures err { OnErr result (StopsIn W.step W.refuses
        (flat_map string_char (chars text.now)) writer.old writer.new) }
{
    let mut rest = text.chars();
    while let Some(c) = rest.next() {
        let escape = if c == '\'' { "" } else { short_escape(c) };
        write_escaped(writer, escape, c)?;
    }
    Ok(())
}

fn write_bytes<W: PieceWriter>(writer: &mut W, bytes: &[u8]) -> Result<(), AllocError>
    ensures ok { OnOk result (writer.new ≡ steps W.step (flat_map byte_pieces bytes.now) writer.old) }
    ensures err { OnErr result (StopsIn W.step W.refuses
        (flat_map byte_pieces bytes.now) writer.old writer.new) }
{
    for byte in bytes {
        write_byte(writer, *byte)?;
    }
    Ok(())
}

/// Writes bytes after a double quote, and this text after them.
fn write_quoted<W: PieceWriter>(writer: &mut W, bytes: &[u8], end: &str) -> Result<(), AllocError>
    ensures ok { OnOk result (writer.new
        ≡ steps W.step (quoted (flat_map byte_pieces bytes.now) end.now) writer.old) }
    ensures err { OnErr result (StopsIn W.step W.refuses
        (quoted (flat_map byte_pieces bytes.now) end.now) writer.old writer.new) }
{
    writer.text("\"")?;
    write_bytes(writer, bytes)?;
    writer.text(end)
}

/// Writes a string in double quotes.
pub fn write_string_literal<W: PieceWriter>(writer: &mut W, text: &str) -> Result<(), AllocError>
    ensures ok { OnOk result (writer.new ≡ steps W.step (string_literal text.now) writer.old) }
    ensures err { OnErr result (StopsIn W.step W.refuses (string_literal text.now) writer.old writer.new) }
{
    writer.text("\"")?;
    write_string_chars(writer, text)?;
    writer.text("\"")
}

/// Writes a character in single quotes.
pub fn write_char_literal<W: PieceWriter>(writer: &mut W, c: char) -> Result<(), AllocError>
    ensures ok { OnOk result (writer.new ≡ steps W.step (char_literal c) writer.old) }
    ensures err { OnErr result (StopsIn W.step W.refuses (char_literal c) writer.old writer.new) }
{
    writer.text("'")?;
    write_escaped(writer, short_escape(c), c)?;
    writer.text("'")
}

/// Writes bytes in double quotes.
pub fn write_bytes_literal<W: PieceWriter>(writer: &mut W, bytes: &[u8]) -> Result<(), AllocError>
    ensures ok { OnOk result (writer.new ≡ steps W.step (bytes_literal bytes.now) writer.old) }
    ensures err { OnErr result (StopsIn W.step W.refuses (bytes_literal bytes.now) writer.old writer.new) }
{
    write_quoted(writer, bytes, "\"")
}

/// Writes a C string in double quotes, with the 0 that ends it.
pub fn write_c_string_literal<W: PieceWriter>(
    writer: &mut W,
    bytes: &[u8],
) -> Result<(), AllocError>
    ensures ok { OnOk result (writer.new ≡ steps W.step (c_string_literal bytes.now) writer.old) }
    ensures err { OnErr result (StopsIn W.step W.refuses (c_string_literal bytes.now) writer.old writer.new) }
{
    write_quoted(writer, bytes, "\\0\"")
}

/// Writes a number in decimal.
pub fn write_number<W: PieceWriter, I: Integer>(writer: &mut W, number: I) -> Result<(), AllocError>
    ensures ok { OnOk result (writer.new ≡ W.step (piece.Text (I.text number)) writer.old) }
    ensures err { OnErr result (W.refuses (piece.Text (I.text number)) writer.old writer.new) }
{
    let mut digits = itoa::Buffer::new();
    writer.text(digits.format(number))
}
