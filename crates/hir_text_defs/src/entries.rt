//! The lines that add entries to the tables besides bodies and signatures.

use hir_base::{CrateId, Edition, EnumId, EnumVariantId, NamedDef, StructId};
use hir_collections::{Seq, Text};
use hir_defs::{Repr, Tables};
use hir_text_nodes::{TextError, Words, next, prefixed};
use hir_text_store::done;

/// An entry of the tables.
#[derive(Drop)]
pub enum Entry {
    Name(NamedDef, Option<Text>),
    CrateName(CrateId, Option<Text>),
    Parent(EnumVariantId, EnumId),
    Repr(StructId, Repr),
    RawWords(Edition, Seq<Text>),
}

fn read_repr(words: &mut Words<'_>) -> Result<Repr, TextError> {
    Ok(Repr {
        c: words.flag("C"),
        align: prefixed(words, "align:")?,
        pack: prefixed(words, "pack:")?,
    })
}

impl Entry {
    /// Reads an entry, after the first word of its line; `None` where no such line begins with it.
    pub fn read(word: &str, words: &mut Words<'_>) -> Result<Option<Entry>, TextError> {
        Ok(Some(match word {
            "name" => Entry::Name(next(words)?, next(words)?),
            "crate-name" => Entry::CrateName(next(words)?, next(words)?),
            "parent" => Entry::Parent(next(words)?, next(words)?),
            "repr" => Entry::Repr(next(words)?, read_repr(words)?),
            "raw-words" => Entry::RawWords(next(words)?, next(words)?),
            _ => return Ok(None),
        }))
    }

    /// Adds it to the tables.
    pub fn add(self, tables: &mut Tables) -> Result<(), TextError> {
        match self {
            Entry::Name(def, name) => done(tables.add_name(def, name)),
            Entry::CrateName(id, name) => done(tables.add_crate_name(id, name)),
            Entry::Parent(variant, parent) => done(tables.add_variant_parent(variant, parent)),
            Entry::Repr(id, repr) => done(tables.add_repr(id, repr)),
            Entry::RawWords(edition, texts) => {
                tables.set_raw_words(edition, texts);
                Ok(())
            }
        }
    }
}
