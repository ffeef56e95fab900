//! The iterators over the macro calls of a source map and what they expanded to.
ghost use Rattle.std.specs.Prelude.{◌≡◌};
ghost use Rattle.std.specs.Iterator.{YieldsFirst, YieldsFirstBy, item_count};

use hir_base::{InFile, MacroCallId, MacroCallPtr};
use hir_collections::TableIter;
use std::iter::FusedIterator;
use std::marker::Model;

/// Macro calls with what they expanded to, modelled as the list of those that are left.
#[derive(Drop)]
pub struct Expansions<'a> {
    inner: Option<TableIter<'a, InFile<MacroCallPtr>, MacroCallId>>,
}

impl<'a> Model for Expansions<'a> {
    ghost use Rattle.hir_source_map.specs.Calls.{Calls, calls_left};

    ghost Value = { Calls };

    ghost view = { λ it. calls_left it.inner };
}

impl<'a> Expansions<'a> {
    ghost use Rattle.hir_source_map.specs.Calls.{calls_left};

    pub(crate) fn new(
        inner: Option<TableIter<'a, InFile<MacroCallPtr>, MacroCallId>>,
    ) -> Expansions<'a>
        ensures { result ≡ calls_left inner.entry }
    {
        Expansions { inner }
    }
}

impl<'a> Iterator for Expansions<'a> {
    type Item = (&'a InFile<MacroCallPtr>, &'a MacroCallId);

    ghost next_gives = { YieldsFirstBy (λ entry. (entry.0.now, entry.1.now)) (λ rest. rest) };

    ghost remaining = { item_count (λ rest. rest) };

    fn next(&mut self) -> Option<(&'a InFile<MacroCallPtr>, &'a MacroCallId)> {
        match &mut self.inner {
            Some(inner) => inner.next(),
            None => None,
        }
    }
}

impl<'a> FusedIterator for Expansions<'a> {}

/// Macro calls with what they expanded to, by value, modelled as the list of those that are left.
#[derive(Drop)]
pub struct MacroCalls<'a> {
    inner: Expansions<'a>,
}

impl<'a> Model for MacroCalls<'a> {
    ghost use Rattle.hir_source_map.specs.Calls.{Calls};

    ghost Value = { Calls };

    ghost view = { λ it. it.inner };
}

impl<'a> MacroCalls<'a> {
    pub(crate) fn new(inner: Expansions<'a>) -> MacroCalls<'a>
        ensures { result ≡ inner.entry }
    {
        MacroCalls { inner }
    }
}

impl<'a> Iterator for MacroCalls<'a> {
    type Item = (InFile<MacroCallPtr>, MacroCallId);

    ghost next_gives = { YieldsFirst (λ rest. rest) };

    ghost remaining = { item_count (λ rest. rest) };

    fn next(&mut self) -> Option<(InFile<MacroCallPtr>, MacroCallId)> {
        let (call, expansion) = self.inner.next()?;
        Some((*call, *expansion))
    }
}

impl<'a> FusedIterator for MacroCalls<'a> {}
