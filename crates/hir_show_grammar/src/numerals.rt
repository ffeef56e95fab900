//! Numbers as they are written in a line.

ghost use Rattle.std.specs.Prelude.{◌≡◌, ◌+◌, ◌≤◌, Some, None, IfOk, MatchResult, length};
ghost use Rattle.std.specs.List.{list_all};
ghost use Rattle.hir_show_grammar.specs.Numerals.{has_needless_zero, int_of, is_digit, is_numeral, without_minus};
ghost use Rattle.hir_show_grammar.specs.Readings.{split_parts};
ghost use Rattle.hir_show_grammar.specs.internal.Readings.{words_from};
ghost use Rattle.hir_show_grammar.specs.Words.{number};

use crate::line_error::Malformed;

/// Whether a text begins with a zero before another byte.
fn has_needless_zero(text: &[u8]) -> bool
    ensures { result ≡ has_needless_zero text.now }
{
    text.len() > 1 && text[0] == b'0'
}

fn are_digits(text: &[u8]) -> bool
    ensures { result ≡ list_all is_digit text.now }
{
    text.iter().all(|b| b.is_ascii_digit())
}

/// Whether a text is one digit or more, without a leading zero.
fn is_numeral(text: &[u8]) -> bool
    ensures { result ≡ is_numeral text.now }
{
    !text.is_empty() && !has_needless_zero(text) && are_digits(text)
}

/// The number that the first word of a text is, read in place, and how long that word is.
pub fn first_number(text: &[u8], separator: u8) -> Result<(u32, usize), Malformed>
    ensures within { IfOk result (λ found. found.1 ≤ length text.now) }
    ensures number { MatchResult result
        (λ found. number (split_parts separator text.now)
        ≡ Some (found.0, words_from separator (found.1 + 1) text.now))
        (λ bad. number (split_parts separator text.now) ≡ None) }
{
    // A number has at most ten digits. So its value is tested once, after them.
    let most = text.len().min(10);
    let mut value: u64 = 0;
    let mut end = 0;
    while end < most && text[end].is_ascii_digit() && text[end] != separator {
        value = value * 10 + u64::from(text[end] - b'0');
        end += 1;
    }
    if end == 0 || has_needless_zero(&text[..end]) || value > u64::from(u32::MAX) {
        return Err(Malformed);
    }
    if end < text.len() && text[end] != separator {
        return Err(Malformed);
    }
    Ok((value as u32, end))
}

/// The text after a minus, where there is one.
fn without_minus(text: &[u8]) -> &[u8]
    ensures { result.now ≡ without_minus text.now }
{
    match text {
        [b'-', digits @ ..] => digits,
        _ => text,
    }
}

/// The integer that a text is, if it is one.
pub fn int(text: &[u8]) -> Option<i128>
    ensures { result ≡ int_of text.now }
{
    if !is_numeral(without_minus(text)) {
        return None;
    }
    match str::from_utf8(text) {
        Ok(text) => text.parse().ok(),
        Err(_) => None,
    }
}
