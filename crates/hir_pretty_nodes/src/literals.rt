//! Literals, written at once.

ghost use Rattle.std.specs.Prelude.{◌≡◌, ◌∷◌, [], OnOk};
ghost use Rattle.hir_pretty_layout.specs.Steps.{steps};
ghost use Rattle.hir_pretty_layout.specs.Layouts as piece;
ghost use Rattle.hir_pretty_nodes.specs.Prelude.{literal_docs, put_pieces};

use hir_node::Literal;
use hir_pretty_layout::{
    PieceWriter, write_bytes_literal, write_c_string_literal, write_char_literal, write_number,
    write_string_literal,
};
use itoa::Integer;
use std::alloc::AllocError;

/// Writes a literal.
pub(crate) fn write_literal<W: PieceWriter>(
    writer: &mut W,
    literal: &Literal,
) -> Result<(), AllocError>
    ensures { OnOk result (writer.new ≡ steps W.step (put_pieces (literal_docs literal.now)) writer.old) }
{
    match literal {
        Literal::String(text) => write_string_literal(writer, text.as_str()),
        Literal::ByteString(bytes) => write_bytes_literal(writer, bytes.as_slice()),
        Literal::CString(bytes) => write_c_string_literal(writer, bytes.as_slice()),
        Literal::Char(c) => write_char_literal(writer, *c),
        Literal::Bool(true) => writer.text("true"),
        Literal::Bool(false) => writer.text("false"),
        Literal::Int(number, None) => write_number(writer, *number),
        Literal::Int(number, Some(suffix)) => write_suffixed(writer, *number, suffix.as_str()),
        Literal::Uint(number, None) => write_number(writer, *number),
        Literal::Uint(number, Some(suffix)) => write_suffixed(writer, *number, suffix.as_str()),
        Literal::Float(number, None) => writer.text(number.as_str()),
        Literal::Float(number, Some(suffix)) => {
            writer.text(number.as_str())?;
            writer.text(suffix.as_str())
        }
    }
}

fn write_suffixed<W: PieceWriter, I: Integer>(
    writer: &mut W,
    number: I,
    suffix: &str,
) -> Result<(), AllocError>
    ensures { OnOk result (writer.new
        ≡ steps W.step (piece.Text (I.text number) ∷ piece.Text suffix.now ∷ []) writer.old) }
{
    write_number(writer, number)?;
    writer.text(suffix)
}
