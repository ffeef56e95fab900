//! The iterator over the ids and the values of an `ArenaMap`.
ghost use Rattle.std.specs.Prelude.{◌≡◌, ⊤};
ghost use Rattle.std.specs.Iterator.{YieldsFirstBy, item_count};

use crate::Idx;
use std::alloc::AllocError;
use std::iter::FusedIterator;
use std::marker::{Model, PhantomData};

/// The entries of a map by ascending ids, modelled as the list of those that are left.
#[derive(Drop)]
pub struct ArenaMapIter<'a, K, V> {
    // The number of the first of `places`.
    first: usize,
    places: &'a [Option<V>],
    kind: PhantomData<K>,
}

impl<'a, K, V> Model for ArenaMapIter<'a, K, V> {
    ghost use Rattle.std.specs.Prelude.{List, ℕ, length, ◌+◌, ◌^◌, ◌≤◌};
    ghost use Rattle.hir_collections.specs.Places.{entries_from};

    ghost Value = { List (ℕ × V) };

    ghost view = { λ it. entries_from it.first it.places.now };

    ghost invariant = { λ it. it.first + length it.places.now ≤ 2 ^ 32 };
}

impl<'a, K, V> ArenaMapIter<'a, K, V> {
    ghost use Rattle.std.specs.Prelude.{◌^◌, ◌≤◌, length};
    ghost use Rattle.hir_collections.specs.Places.{entries_from};

    pub(crate) fn new(places: &'a [Option<V>]) -> ArenaMapIter<'a, K, V>
        requires { length places.now ≤ 2 ^ 32 }
        ensures { result ≡ entries_from 0 places.now }
    {
        ArenaMapIter {
            first: 0,
            places,
            kind: PhantomData,
        }
    }
}

impl<'a, K, V> Clone for ArenaMapIter<'a, K, V> {
    ghost is_clone = { λ it copy. copy ≡ it };

    ghost is_infallible = { λ _. ⊤ };

    fn clone(&self) -> Result<Self, AllocError> {
        Ok(ArenaMapIter {
            first: self.first,
            places: self.places,
            kind: PhantomData,
        })
    }
}

impl<'a, K, V> Iterator for ArenaMapIter<'a, K, V> {
    type Item = (Idx<K>, &'a V);

    ghost next_gives = { YieldsFirstBy (λ entry. (entry.0, entry.1.now)) (λ rest. rest) };

    ghost remaining = { item_count (λ rest. rest) };

    fn next(&mut self) -> Option<(Idx<K>, &'a V)> {
        while let Some((place, rest)) = self.places.split_first() {
            let id = Idx::from_raw(self.first as u32);
            self.places = rest;
            self.first += 1;
            if let Some(value) = place {
                return Some((id, value));
            }
        }
        None
    }
}

impl<'a, K, V> FusedIterator for ArenaMapIter<'a, K, V> {}
