//! Names as they are printed: with `r#` where the edition's words list them.

ghost use Rattle.std.specs.Prelude.{◌≡◌, OnOk, map};
ghost use Rattle.hir_pretty_layout.specs.Steps.{steps};
ghost use Rattle.hir_pretty_layout.specs.Layouts as piece;
ghost use Rattle.hir_pretty_nodes.specs.Prelude.{is_word, name_parts, texts_of, printed_name, same_text};

use hir_collections::Text;
use hir_pretty_layout::PieceWriter;
use std::alloc::AllocError;

/// What is printed of a name: perhaps a quote, perhaps `r#`, and a text.
#[derive(Clone, Copy)]
pub(crate) struct NameParts<'n> {
    is_quoted: bool,
    is_raw: bool,
    text: &'n str,
}

/// Whether the word is among these.
fn is_word(words: &[Text], name: &str) -> bool
    ensures { result ≡ is_word words.now name.now }
{
    let mut rest = words;
    while let [word, others @ ..] = rest {
        if word.as_str() == name {
            return true;
        }
        rest = others;
    }
    false
}

/// The parts of a name. A leading `'` comes first and isn't looked up, and `'static` is printed as it is.
fn name_parts<'n>(words: &[Text], name: &'n str) -> NameParts<'n>
    ensures { texts_of result ≡ name_parts words.now name.now }
{
    match name.strip_prefix('\'') {
        None => NameParts {
            is_quoted: false,
            is_raw: is_word(words, name),
            text: name,
        },
        Some(rest) if rest == "static" => NameParts {
            is_quoted: false,
            is_raw: false,
            text: name,
        },
        Some(rest) => NameParts {
            is_quoted: true,
            is_raw: is_word(words, rest),
            text: rest,
        },
    }
}

/// Writes a name, with `r#` where the words list it.
pub(crate) fn write_name<W: PieceWriter>(
    writer: &mut W,
    words: &[Text],
    name: &str,
) -> Result<(), AllocError>
    ensures { OnOk result (writer.new
        ≡ steps W.step (map piece.Text (name_parts words.now name.now)) writer.old) }
{
    let parts = name_parts(words, name);
    if parts.is_quoted {
        writer.text("'")?;
    }
    if parts.is_raw {
        writer.text("r#")?;
    }
    writer.text(parts.text)
}

/// Whether a text is what is printed of a name.
pub(crate) fn is_printed(words: &[Text], name: &str, text: &str) -> bool
    ensures { result ≡ same_text text.now (printed_name words.now name.now) }
{
    let parts = name_parts(words, name);
    let quote: &[u8] = if parts.is_quoted { b"'" } else { b"" };
    let raw: &[u8] = if parts.is_raw { b"r#" } else { b"" };
    match text.as_bytes().strip_prefix(quote) {
        None => false,
        Some(rest) => match rest.strip_prefix(raw) {
            None => false,
            Some(rest) => rest == parts.text.as_bytes(),
        },
    }
}
