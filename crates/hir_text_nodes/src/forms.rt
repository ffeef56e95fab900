//! What a word of a line is: read by its type, and written.

use hir_base::{Id, Name};
use hir_collections::{Boxed, Idx, Seq, ShortList, Text};
use hir_text_words::{Answer, TextError, Words};
use std::alloc::AllocError;

/// What can be read from a line.
pub trait Read: Drop + Sized {
    /// Takes one where the line goes on.
    fn read(words: &mut Words<'_>) -> Result<Self, TextError>;
}

/// Takes what comes after a space.
pub fn next<T: Read>(words: &mut Words<'_>) -> Result<T, TextError> {
    words.expect(" ")?;
    T::read(words)
}

/// Takes what comes after a space, where the line doesn't end before it.
pub fn opt_next<T: Read>(words: &mut Words<'_>) -> Result<Option<T>, TextError> {
    if words.is_end() {
        return Ok(None);
    }
    Ok(Some(next(words)?))
}

/// Takes what comes after a colon.
pub fn part<T: Read>(words: &mut Words<'_>) -> Result<T, TextError> {
    words.expect(":")?;
    T::read(words)
}

/// Takes what comes after this text, where the line goes on with it.
pub(crate) fn after<T: Read>(words: &mut Words<'_>, start: &str) -> Result<Option<T>, TextError> {
    if words.eat(start) {
        return Ok(Some(T::read(words)?));
    }
    Ok(None)
}

/// Takes what comes after the beginning of the next word, where that is this one.
pub fn prefixed<T: Read>(words: &mut Words<'_>, start: &str) -> Result<Option<T>, TextError> {
    if words.prefix(start) {
        return Ok(Some(T::read(words)?));
    }
    Ok(None)
}

/// Takes what is in parentheses, of which the first was taken.
pub(crate) fn in_parens<T: Read>(words: &mut Words<'_>) -> Result<T, TextError> {
    let value = T::read(words)?;
    words.expect(")")?;
    Ok(value)
}

/// Takes one or more, joined by this.
pub(crate) fn joined<T: Read>(words: &mut Words<'_>, between: &str) -> Result<Seq<T>, TextError> {
    let mut items = Seq::new(words.alloc());
    for _ in 0..words.most_items() {
        items.push(T::read(words)?)?;
        if !words.eat(between) {
            break;
        }
    }
    Ok(items)
}

/// Takes some, joined by this, or `-` for none.
pub(crate) fn list<T: Read>(words: &mut Words<'_>, between: &str) -> Result<Seq<T>, TextError> {
    if words.eat("-") {
        return Ok(Seq::new(words.alloc()));
    }
    joined(words, between)
}

/// Takes each that comes after a space, to the line's end or to a word that begins with `..`.
pub(crate) fn each<T: Read>(words: &mut Words<'_>) -> Result<Seq<T>, TextError> {
    let mut items = Seq::new(words.alloc());
    for _ in 0..words.most_items() {
        if words.is_end() || words.is_at(" ..") {
            break;
        }
        items.push(next(words)?)?;
    }
    Ok(items)
}

/// Takes a text in quotes after a space.
pub(crate) fn next_quoted(words: &mut Words<'_>) -> Result<Text, TextError> {
    words.expect(" ")?;
    Ok(Text::from_string(words.quoted()?))
}

impl Read for u8 {
    fn read(words: &mut Words<'_>) -> Result<u8, TextError> {
        Ok(u8::try_from(words.big()?)?)
    }
}

impl Read for u16 {
    fn read(words: &mut Words<'_>) -> Result<u16, TextError> {
        Ok(u16::try_from(words.big()?)?)
    }
}

impl Read for u32 {
    fn read(words: &mut Words<'_>) -> Result<u32, TextError> {
        Ok(u32::try_from(words.big()?)?)
    }
}

impl Read for u64 {
    fn read(words: &mut Words<'_>) -> Result<u64, TextError> {
        Ok(u64::try_from(words.big()?)?)
    }
}

impl<K> Read for Idx<K> {
    fn read(words: &mut Words<'_>) -> Result<Idx<K>, TextError> {
        Ok(Idx::from_raw(Read::read(words)?))
    }
}

impl<K> Read for Id<K> {
    fn read(words: &mut Words<'_>) -> Result<Id<K>, TextError> {
        Ok(Id::from_raw(Read::read(words)?))
    }
}

/// A name, bare or in quotes.
impl Read for Name {
    fn read(words: &mut Words<'_>) -> Result<Name, TextError> {
        let text = words.string()?;
        Ok(Name::new(words.alloc(), text.as_str())?)
    }
}

/// The text of a name.
impl Read for Text {
    fn read(words: &mut Words<'_>) -> Result<Text, TextError> {
        Ok(Text::from_string(words.string()?))
    }
}

/// `-`, where there is none.
impl<T: Read> Read for Option<T> {
    fn read(words: &mut Words<'_>) -> Result<Option<T>, TextError> {
        if words.eat("-") {
            return Ok(None);
        }
        Ok(Some(T::read(words)?))
    }
}

/// Items joined by `,`, or `-`.
impl<T: Read> Read for Seq<T> {
    fn read(words: &mut Words<'_>) -> Result<Seq<T>, TextError> {
        list(words, ",")
    }
}

/// Ids joined by `,`, or `-`.
impl<K> Read for ShortList<Idx<K>> {
    fn read(words: &mut Words<'_>) -> Result<ShortList<Idx<K>>, TextError> {
        let mut ids = ShortList::new();
        if words.eat("-") {
            return Ok(ids);
        }
        for _ in 0..words.most_items() {
            ids.push(words.alloc(), Read::read(words)?)?;
            if !words.eat(",") {
                break;
            }
        }
        Ok(ids)
    }
}

impl<T: Read> Read for Boxed<T> {
    fn read(words: &mut Words<'_>) -> Result<Boxed<T>, TextError> {
        Ok(Boxed::new(words.alloc(), T::read(words)?)?)
    }
}

/// What can be written.
pub trait Write {
    /// Writes it after the last word without a space.
    fn write(&self, answer: &mut Answer) -> Result<(), AllocError>;
}

/// Writes words after a space.
pub fn put<T: Write>(answer: &mut Answer, words: &T) -> Result<(), AllocError> {
    answer.space()?;
    words.write(answer)
}

/// Writes the beginning of a word and what comes after it, where there is something.
pub fn put_prefixed<T: Write>(
    answer: &mut Answer,
    start: &str,
    value: &Option<T>,
) -> Result<(), AllocError> {
    match value {
        Some(value) => {
            answer.word(start)?;
            value.write(answer)
        }
        None => Ok(()),
    }
}

/// Writes what was found, or `none`.
pub fn put_found<T: Write>(answer: &mut Answer, found: &Option<T>) -> Result<(), AllocError> {
    match found {
        Some(found) => put(answer, found),
        None => answer.word("none"),
    }
}

/// Writes each after a space.
pub fn put_each<T: Write>(answer: &mut Answer, items: &[T]) -> Result<(), AllocError> {
    for item in items {
        put(answer, item)?;
    }
    Ok(())
}

/// Writes `yes` or `no`.
pub fn put_yes_or_no(answer: &mut Answer, is_so: bool) -> Result<(), AllocError> {
    answer.word(if is_so { "yes" } else { "no" })
}

/// Writes what a part of a word comes after, and the part.
pub(crate) fn join<T: Write>(
    answer: &mut Answer,
    before: &str,
    part: &T,
) -> Result<(), AllocError> {
    answer.join(before)?;
    part.write(answer)
}

/// Writes items joined by this, or `-`.
pub(crate) fn join_list<T: Write>(
    answer: &mut Answer,
    items: &[T],
    between: &str,
) -> Result<(), AllocError> {
    if items.is_empty() {
        return answer.join("-");
    }
    join_items(answer, items, between)
}

/// Writes items joined by this.
pub(crate) fn join_items<T: Write>(
    answer: &mut Answer,
    items: &[T],
    between: &str,
) -> Result<(), AllocError> {
    let mut before = "";
    for item in items {
        join(answer, before, item)?;
        before = between;
    }
    Ok(())
}

/// A text that is written in quotes.
#[derive(Clone, Copy, Drop)]
pub struct Quoted<'a>(pub &'a str);

impl<'a> Write for Quoted<'a> {
    fn write(&self, answer: &mut Answer) -> Result<(), AllocError> {
        answer.join_quoted(self.0)
    }
}

impl<'a> Write for &'a str {
    fn write(&self, answer: &mut Answer) -> Result<(), AllocError> {
        answer.join(*self)
    }
}

impl<'a, T: Write> Write for &'a T {
    fn write(&self, answer: &mut Answer) -> Result<(), AllocError> {
        T::write(*self, answer)
    }
}

impl Write for u32 {
    fn write(&self, answer: &mut Answer) -> Result<(), AllocError> {
        answer.join_number(*self)
    }
}

impl Write for u64 {
    fn write(&self, answer: &mut Answer) -> Result<(), AllocError> {
        answer.join_shown(self)
    }
}

impl Write for usize {
    fn write(&self, answer: &mut Answer) -> Result<(), AllocError> {
        answer.join_shown(self)
    }
}

// (an id of a kind that isn't known is no `Copy` to the borrow checker)
impl<K> Write for Idx<K> {
    fn write(&self, answer: &mut Answer) -> Result<(), AllocError> {
        let id = self.clone()?;
        answer.join_number(id.into_raw())
    }
}

impl<K> Write for Id<K> {
    fn write(&self, answer: &mut Answer) -> Result<(), AllocError> {
        let id = self.clone()?;
        answer.join_number(id.into_raw())
    }
}

impl Write for Name {
    fn write(&self, answer: &mut Answer) -> Result<(), AllocError> {
        answer.join_name(self.as_str())
    }
}

impl Write for Text {
    fn write(&self, answer: &mut Answer) -> Result<(), AllocError> {
        answer.join_name(self.as_str())
    }
}

impl<T: Write> Write for Option<T> {
    fn write(&self, answer: &mut Answer) -> Result<(), AllocError> {
        match self {
            Some(value) => value.write(answer),
            None => answer.join("-"),
        }
    }
}

impl<'a, T: Write> Write for &'a [T] {
    fn write(&self, answer: &mut Answer) -> Result<(), AllocError> {
        join_list(answer, *self, ",")
    }
}

impl<T: Write> Write for Seq<T> {
    fn write(&self, answer: &mut Answer) -> Result<(), AllocError> {
        join_list(answer, self.as_slice(), ",")
    }
}

impl<T: Write> Write for ShortList<T> {
    fn write(&self, answer: &mut Answer) -> Result<(), AllocError> {
        join_list(answer, self.as_slice(), ",")
    }
}

/// Words are separated by a space.
impl<A: Write, B: Write> Write for (A, B) {
    fn write(&self, answer: &mut Answer) -> Result<(), AllocError> {
        self.0.write(answer)?;
        put(answer, &self.1)
    }
}

impl<A: Write, B: Write, C: Write> Write for (A, B, C) {
    fn write(&self, answer: &mut Answer) -> Result<(), AllocError> {
        self.0.write(answer)?;
        put(answer, &self.1)?;
        put(answer, &self.2)
    }
}

impl<A: Write, B: Write, C: Write, D: Write> Write for (A, B, C, D) {
    fn write(&self, answer: &mut Answer) -> Result<(), AllocError> {
        self.0.write(answer)?;
        put(answer, &self.1)?;
        put(answer, &self.2)?;
        put(answer, &self.3)
    }
}
