//! Lines of a file that stand for more: `* N LINE` for N lines, `+ N TEXT` for N texts at the end of the line
//! before. In both `@K` is the number K and how many came before.

use std::alloc::AllocError;

/// How often something stands there, and what, after the mark of such a line.
fn counted(behind: Option<&str>) -> Option<(u32, &str)> {
    let (count, what) = behind?.split_once(' ')?;
    match count.parse::<u32>() {
        Ok(count) => Some((count, what)),
        Err(_) => None,
    }
}

/// The number after `@` with this digit after its others, where it is one.
fn with_digit(number: Option<u32>, c: char) -> Option<u32> {
    let number = number?;
    let digit = c.to_digit(10)?;
    Some(number.wrapping_mul(10).wrapping_add(digit))
}

/// Puts the number after `@`, where there is one, after the text, raised by how many came before.
fn push_number(text: &mut String, number: Option<u32>, before: u32) -> Result<(), AllocError> {
    match number {
        Some(number) => {
            let number = number.wrapping_add(before);
            write!(text, "{number}")
        }
        None => Ok(()),
    }
}

/// Puts a character after the text, or to the number after `@`, which is returned.
fn push_char(
    text: &mut String,
    c: char,
    number: Option<u32>,
    before: u32,
) -> Result<Option<u32>, AllocError> {
    if let Some(longer) = with_digit(number, c) {
        return Ok(Some(longer));
    }
    push_number(text, number, before)?;
    if c == '@' {
        return Ok(Some(0));
    }
    text.push(c)?;
    Ok(None)
}

/// Puts one of those after the text before which so many came.
fn push_one(text: &mut String, what: &str, before: u32) -> Result<(), AllocError> {
    let mut number = None;
    for c in what.chars() {
        number = push_char(text, c, number, before)?;
    }
    push_number(text, number, before)
}

/// Puts so many lines after the text.
fn push_lines(text: &mut String, count: u32, line: &str) -> Result<(), AllocError> {
    for before in 0..count {
        push_one(text, line, before)?;
        text.push('\n')?;
    }
    Ok(())
}

/// Puts a text so many times at the end of the last line.
fn push_texts(text: &mut String, count: u32, what: &str) -> Result<(), AllocError> {
    let _ = text.pop();
    for before in 0..count {
        push_one(text, what, before)?;
    }
    text.push('\n')
}

/// Puts what a line stands for after the text, of which each line has its end.
pub(crate) fn push_line(text: &mut String, line: &str) -> Result<(), AllocError> {
    if let Some((count, line)) = counted(line.strip_prefix("* ")) {
        return push_lines(text, count, line);
    }
    if let Some((count, what)) = counted(line.strip_prefix("+ ")) {
        return push_texts(text, count, what);
    }
    text.push_str(line)?;
    text.push('\n')
}
