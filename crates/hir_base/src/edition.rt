//! Editions of the language, and the words that each writes with `r#`.
ghost use Rattle.std.specs.Prelude.{◌≡◌, Some};
ghost use Rattle.hir_collections.specs.Exact.{exact};
ghost use Rattle.hir_base.specs.IdTexts.{edition_text};
ghost use Rattle.hir_base.specs.RawWords.{words_of, with_words, no_words};

use hir_collections::{ExactEq, Seq, Text, TryClone};
use std::alloc::Global;
use std::fmt;

/// An edition of the language.
#[derive(Clone, Copy, PartialEq, Eq, Hash)]
pub enum Edition {
    Edition2015,
    Edition2018,
    Edition2021,
    Edition2024,
}

/// The name of its variant.
impl fmt::Debug for Edition {
    ghost debug_output = { λ edition. Some (edition_text edition) };

    fn fmt<W: fmt::Write>(&self, f: &mut fmt::Formatter<W>) -> fmt::Result {
        match self {
            Edition::Edition2015 => f.write_str("Edition2015"),
            Edition::Edition2018 => f.write_str("Edition2018"),
            Edition::Edition2021 => f.write_str("Edition2021"),
            Edition::Edition2024 => f.write_str("Edition2024"),
        }
    }
}

impl ExactEq for Edition {
    ghost eq_decides = { Prim.search exact };
}

impl TryClone for Edition {
    ghost clone_is_same = { Prim.search exact };
}

/// For each edition, the names that it writes with `r#`, since they are keywords without it.
#[derive(Drop)]
pub struct RawWords {
    pub edition2015: Seq<Text>,
    pub edition2018: Seq<Text>,
    pub edition2021: Seq<Text>,
    pub edition2024: Seq<Text>,
}

impl RawWords {
    /// Returns no words in any edition.
    pub fn new(alloc: Global) -> RawWords
        ensures { result ≡ no_words }
    {
        RawWords {
            edition2015: Seq::new(alloc),
            edition2018: Seq::new(alloc),
            edition2021: Seq::new(alloc),
            edition2024: Seq::new(alloc),
        }
    }

    /// Returns the words of this edition.
    pub fn words(&self, edition: Edition) -> &[Text]
        ensures { result.now ≡ words_of self.now edition }
    {
        match edition {
            Edition::Edition2015 => self.edition2015.as_slice(),
            Edition::Edition2018 => self.edition2018.as_slice(),
            Edition::Edition2021 => self.edition2021.as_slice(),
            Edition::Edition2024 => self.edition2024.as_slice(),
        }
    }

    /// Replaces the words of this edition. The other editions keep theirs.
    pub fn set_words(&mut self, edition: Edition, words: Seq<Text>)
        ensures { self.new ≡ with_words self.old edition words }
    {
        match edition {
            Edition::Edition2015 => self.edition2015 = words,
            Edition::Edition2018 => self.edition2018 = words,
            Edition::Edition2021 => self.edition2021 = words,
            Edition::Edition2024 => self.edition2024 = words,
        }
    }
}
