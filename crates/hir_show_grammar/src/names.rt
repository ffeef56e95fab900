//! Names as they are written in a line.

ghost use Rattle.std.specs.Prelude.{◌≡◌};
ghost use Rattle.std.specs.List.{list_all};
ghost use Rattle.hir_show_grammar.specs.Names.{continues_name, is_name, starts_name};

fn may_start_name(b: u8) -> bool
    ensures { result ≡ starts_name b }
{
    b.is_ascii_alphabetic() || b == b'_'
}

fn may_continue_name(b: u8) -> bool
    ensures { result ≡ continues_name b }
{
    may_start_name(b) || b.is_ascii_digit()
}

fn are_of_name(text: &[u8]) -> bool
    ensures { result ≡ list_all continues_name text.now }
{
    text.iter().all(|b| may_continue_name(*b))
}

/// Whether a text is a letter or an underscore, then letters, digits or underscores.
pub fn is_name(text: &[u8]) -> bool
    ensures { result ≡ is_name text.now }
{
    !text.is_empty() && may_start_name(text[0]) && are_of_name(text)
}
