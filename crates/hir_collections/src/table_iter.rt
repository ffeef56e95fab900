//! The iterator over the keys and the values of a `Table`.
ghost use Rattle.std.specs.Prelude.{◌≡◌};
ghost use Rattle.std.specs.Iterator.{YieldsFirstBy, item_count};

use std::collections::hash_map::Iter;
use std::iter::FusedIterator;
use std::marker::Model;

/// The entries of a table, modelled as the list of those that are left.
#[derive(Drop)]
pub struct TableIter<'a, K, V> {
    inner: Iter<'a, K, V>,
}

impl<'a, K, V> Model for TableIter<'a, K, V> {
    ghost use Rattle.std.specs.Prelude.{List};

    ghost Value = { List (K × V) };

    ghost view = { λ it. it.inner };
}

impl<'a, K, V> TableIter<'a, K, V> {
    pub(crate) fn new(inner: Iter<'a, K, V>) -> TableIter<'a, K, V>
        ensures { result ≡ inner.entry }
    {
        TableIter { inner }
    }
}

impl<'a, K, V> Iterator for TableIter<'a, K, V> {
    type Item = (&'a K, &'a V);

    ghost next_gives = { YieldsFirstBy (λ entry. (entry.0.now, entry.1.now)) (λ rest. rest) };

    ghost remaining = { item_count (λ rest. rest) };

    fn next(&mut self) -> Option<(&'a K, &'a V)> {
        self.inner.next()
    }
}

impl<'a, K, V> FusedIterator for TableIter<'a, K, V> {}
