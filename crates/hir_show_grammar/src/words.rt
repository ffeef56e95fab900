//! The words of a line, the parts of a word and the numbers of a list, taken one by one.

ghost use Rattle.std.specs.Prelude.{◌≡◌, ◌∷◌, ◌++◌, ◌+◌, ◌<◌, ◌≤◌, ◌↔◌, [], ℕ, List, None, Some, MatchResult, IfOk, IsTrue, codes, false, length, take, true};
ghost use Rattle.std.specs.List.{count_by};
ghost use Rattle.hir_show_grammar.specs.Names.{is_name};
ghost use Rattle.hir_show_grammar.specs.internal.Readings.{HasWord, IsRestFrom, Plain, ReadsWords, ReadsAll, Says, SaysOrStops, StartsOtherwise, words_from};
ghost use Rattle.hir_show_grammar.specs.Readings.{each, is_byte, split_parts};
ghost use Rattle.hir_show_grammar.specs.Words.{expansion, hygiene, list, list_of, name, number, optional, plain};

use crate::line_error::{LineError, Malformed};
use crate::names::is_name;
use crate::numerals::first_number;
use hir_base::{HygieneId, Name, SyntaxContext};
use hir_collections::{Idx, Seq, ShortList};
use hir_node::Path;
use std::alloc::{AllocError, Global};
use std::marker::Model;

/// The words of a text that are left, between bytes that separate them: spaces in a line, colons in a word,
/// commas in a list.
#[derive(Drop)]
pub struct Words<'a, const SEPARATOR: u8> {
    text: &'a [u8],
    // Where the next word begins: past the end of the text where none is left.
    start: usize,
}

/// The words of a line.
pub type Line<'a> = Words<'a, b' '>;

impl<'a, const SEPARATOR: u8> Model for Words<'a, SEPARATOR> {
    ghost use Rattle.std.specs.Prelude.{List, ℕ};
    ghost use Rattle.hir_show_grammar.specs.internal.Readings.{words_from};

    ghost Value = { List (List ℕ) };

    ghost view = { λ w. words_from SEPARATOR w.start w.text.now };
}

impl<'a, const SEPARATOR: u8> Words<'a, SEPARATOR> {
    /// The words of a text.
    pub fn new(text: &'a [u8]) -> Words<'a, SEPARATOR>
        ensures { result ≡ split_parts SEPARATOR text.now }
    {
        Words { text, start: 0 }
    }

    /// Takes the next word.
    pub fn word(&mut self) -> Result<&'a [u8], Malformed>
        ensures { MatchResult result (λ word. self.old ≡ word.now ∷ self.new) (λ bad. self.old ≡ []) }
    {
        let text = rest_from(self.text, self.start)?;
        let end = word_len(text, SEPARATOR);
        self.start += end + 1;
        Ok(&text[..end])
    }

    /// Takes the next word, if it is this one, and returns whether it is.
    pub fn skip(&mut self, word: &[u8]) -> bool
        requires { Plain SEPARATOR word.now }
        ensures yes { IsTrue result → self.old ≡ word.now ∷ self.new }
        ensures no { result ≡ false → (self.new ≡ self.old) × StartsOtherwise word.now self.old }
    {
        let Ok(text) = rest_from(self.text, self.start) else {
            return false;
        };
        if !begins_with(text, word, SEPARATOR) {
            return false;
        }
        self.start += word.len() + 1;
        true
    }

    /// Takes the next word, if it is a number.
    pub fn number(&mut self) -> Result<u32, Malformed>
        ensures { ReadsWords number self.old result self.new }
    {
        let text = rest_from(self.text, self.start)?;
        let (number, end) = first_number(text, SEPARATOR)?;
        self.start += end + 1;
        Ok(number)
    }

    /// Takes the next word, if it is the number of something.
    pub fn id<K>(&mut self) -> Result<Idx<K>, Malformed>
        ensures { ReadsWords number self.old result self.new }
    {
        Ok(Idx::from_raw(self.number()?))
    }

    /// Takes the next word, if it is a number or a dash.
    pub fn optional(&mut self) -> Result<Option<u32>, Malformed>
        ensures { ReadsWords optional self.old result self.new }
    {
        let text = rest_from(self.text, self.start)?;
        // A dash that separates is no word.
        if SEPARATOR == b'-' || !begins_with(text, b"-", SEPARATOR) {
            return Ok(Some(self.number()?));
        }
        self.start += 2;
        Ok(None)
    }

    /// Takes the next word, if it is the number of something or a dash.
    pub fn optional_id<K>(&mut self) -> Result<Option<Idx<K>>, Malformed>
        ensures { ReadsWords optional self.old result self.new }
    {
        match self.optional()? {
            Some(number) => Ok(Some(Idx::from_raw(number))),
            None => Ok(None),
        }
    }

    /// Takes the next word, if it is a name.
    pub fn name(&mut self) -> Result<&'a [u8], Malformed>
        ensures { MatchResult result
            (λ word. (is_name word.now ≡ true) × (name self.old ≡ Some (word.now, self.new)))
            (λ bad. name self.old ≡ None) }
    {
        let word = self.word()?;
        if !is_name(word) {
            return Err(Malformed);
        }
        Ok(word)
    }

    /// Takes the next word, if it is the number of a macro expansion: the hygiene of that expansion.
    pub fn expansion(&mut self) -> Result<HygieneId, Malformed>
        ensures { ReadsWords expansion self.old result self.new }
    {
        Ok(HygieneId::new(SyntaxContext::Expansion(self.number()?)))
    }

    /// Takes the next word, if it is the number of a macro expansion; where no word is left, the hygiene is
    /// that of source text.
    pub fn hygiene(&mut self) -> Result<HygieneId, Malformed>
        ensures { ReadsWords hygiene self.old result self.new }
    {
        if self.is_empty() {
            return Ok(HygieneId::ROOT);
        }
        self.expansion()
    }

    /// Takes all the words that are left, if each says a value of this type. That an allocation fails is said
    /// after the last.
    pub fn each<T: Word + Drop>(&mut self, alloc: Global) -> Result<Seq<T>, LineError>
        ensures { ReadsAll (each T.meaning) self.old result }
    {
        // Room for each and no more: a list that grows while it is read keeps room that it never uses.
        let mut kept = Seq::with_capacity(alloc, self.len());
        while !self.is_empty() {
            let item = T::read(self.word()?)?;
            kept = and_item(kept, item);
        }
        Ok(kept?)
    }

    /// Refuses words that are left.
    pub fn end(&self) -> Result<(), Malformed>
        ensures { MatchResult result (λ done. self.now ≡ []) (λ bad. HasWord self.now) }
    {
        if !self.is_empty() {
            return Err(Malformed);
        }
        Ok(())
    }

    /// Whether no word is left.
    fn is_empty(&self) -> bool
        ensures { IsTrue result ↔ (self.now ≡ []) }
    {
        self.start > self.text.len()
    }

    /// How many words are left: a text has one more than separators.
    fn len(&self) -> usize {
        match rest_from(self.text, self.start) {
            Ok(text) => count(text, SEPARATOR).saturating_add(1),
            Err(_) => 0,
        }
    }
}

impl<'a> Words<'a, b' '> {
    /// The numbers of the last word, if it is a list of them. That an allocation fails is said after the
    /// last.
    // The word isn't cut off first: where another is after it, one of the numbers has a space, and is none.
    pub fn list<K>(&self, alloc: Global) -> Result<ShortList<Idx<K>>, LineError>
        ensures { ReadsAll list self.now result }
    {
        let text = rest_from(self.text, self.start)?;
        list(alloc, text)
    }
}

/// What a single word says.
pub trait Word: Sized {
    ghost use Rattle.std.specs.Prelude.{List, ℕ, Option};

    ghost meaning: { List ℕ → Option Self };

    /// The value of this type that a word says.
    fn read(word: &[u8]) -> Result<Self, Malformed>
        ensures { Says meaning word.now result };
}

/// The name that a word is.
// Always inlined, as `path_of` is, so that the name goes into its arena without a copy on the way: see
// `with_zeros` of `hir_base`.
#[inline(always)]
pub fn name_of(alloc: Global, word: &[u8]) -> Result<Name, AllocError>
    requires { is_name word.now ≡ true }
    ensures { IfOk result (λ name. name ≡ word.now) }
{
    Name::from_ascii(alloc, word)
}

/// The plain path of the name that a word is.
#[inline(always)]
pub fn path_of(alloc: Global, word: &[u8]) -> Result<Path, AllocError>
    requires { is_name word.now ≡ true }
    ensures { IfOk result (λ path. path ≡ plain word.now) }
{
    Ok(Path::from_name(alloc, name_of(alloc, word)?)?)
}

/// The numbers that a word is, or none for a dash.
#[tactic(auto, unfolding(crate::specs::Words::list_of))]
fn list<K>(alloc: Global, word: &[u8]) -> Result<ShortList<Idx<K>>, LineError>
    ensures { SaysOrStops list_of word.now result }
{
    let mut kept = ShortList::new();
    if word == b"-".as_slice() {
        return Ok(kept);
    }
    let mut room = Ok(());
    let mut numbers: Words<'_, b','> = Words::new(word);
    while !numbers.is_empty() {
        let id = numbers.id()?;
        room = and_id(alloc, &mut kept, room, id);
    }
    room?;
    Ok(kept)
}

/// An id more, where there was room for the ids before it.
fn and_id<K>(
    alloc: Global,
    kept: &mut ShortList<Idx<K>>,
    room: Result<(), AllocError>,
    id: Idx<K>,
) -> Result<(), AllocError>
    ensures { (ids : List ℕ) → IfOk room (λ done. kept.old ≡ ids)
        → IfOk result (λ done. kept.new ≡ ids ++ id ∷ []) }
{
    room?;
    kept.push(alloc, id)
}

/// One element more, where the elements before it were kept.
fn and_item<T: Drop>(kept: Result<Seq<T>, AllocError>, item: T) -> Result<Seq<T>, AllocError>
    ensures { (items : List T) → IfOk kept (λ old. old ≡ items)
        → IfOk result (λ new. new ≡ items ++ item ∷ []) }
{
    let mut items = kept?;
    items.push(item)?;
    Ok(items)
}

/// How often a byte comes.
fn count(text: &[u8], byte: u8) -> usize
    ensures { result ≡ count_by (is_byte byte) text.now }
{
    text.iter().filter(|b| **b == byte).count()
}

/// The rest of a text from a place on, unless that is past its end.
fn rest_from(text: &[u8], start: usize) -> Result<&[u8], Malformed>
    ensures { MatchResult result (λ rest. IsRestFrom start text.now rest.now)
        (λ bad. length text.now < start) }
{
    if start > text.len() {
        return Err(Malformed);
    }
    Ok(&text[start..])
}

/// How long the first word of a text is.
fn word_len(text: &[u8], separator: u8) -> usize
    ensures within { result ≤ length text.now }
    ensures first { split_parts separator text.now
        ≡ take result text.now ∷ words_from separator (result + 1) text.now }
{
    let mut end = 0;
    while end < text.len() && text[end] != separator {
        end += 1;
    }
    end
}

/// Whether the first word of a text is this one.
fn begins_with(text: &[u8], word: &[u8], separator: u8) -> bool
    requires { Plain separator word.now }
    ensures within { IsTrue result → length word.now ≤ length text.now }
    ensures yes { IsTrue result →
        split_parts separator text.now ≡ word.now ∷ words_from separator (length word.now + 1) text.now }
    ensures no { result ≡ false → StartsOtherwise word.now (split_parts separator text.now) }
{
    if !text.starts_with(word) {
        return false;
    }
    let end = word.len();
    if end == text.len() {
        return true;
    }
    text[end] == separator
}
