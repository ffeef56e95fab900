//! The iterator over an arena's ids and items.
ghost use Rattle.std.specs.Prelude.{◌≡◌, length, ⊤, IfSome};
ghost use Rattle.std.specs.Iterator.{YieldsFirstBy, YieldsLastBy, UpTo, at_most, item_count};
ghost use Rattle.std.specs.Iterator.SizeHint.{IsWithinCount};

use crate::{Idx, MOST_ITEMS};
use std::alloc::AllocError;
use std::iter::{ExactSizeIterator, FusedIterator};
use std::marker::{Model, PhantomData};

/// The items of an arena with their ids, modelled as the list of those that are left.
#[derive(Drop)]
pub struct ArenaIter<'a, K, T> {
    first: u32,
    items: &'a [T],
    kind: PhantomData<K>,
}

impl<'a, K, T> Model for ArenaIter<'a, K, T> {
    ghost use Rattle.std.specs.Prelude.{List, ℕ, length, ◌+◌, ◌≤◌};
    ghost use Rattle.std.specs.List.{enumerate_from};
    ghost use Rattle.hir_collections.specs.declared.arena.TheConstants.{MOST_ITEMS};

    ghost Value = { List (ℕ × T) };

    ghost view = { λ it. enumerate_from it.first it.items.now };

    ghost invariant = { λ it. it.first + length it.items.now ≤ MOST_ITEMS };
}

impl<'a, K, T> ArenaIter<'a, K, T> {
    ghost use Rattle.std.specs.Prelude.{◌≤◌};
    ghost use Rattle.std.specs.List.{enumerate_from};

    pub(crate) fn new(items: &'a [T]) -> ArenaIter<'a, K, T>
        requires { length items.now ≤ MOST_ITEMS }
        ensures { result ≡ enumerate_from 0 items.now }
    {
        ArenaIter {
            first: 0,
            items,
            kind: PhantomData,
        }
    }
}

impl<'a, K, T> Clone for ArenaIter<'a, K, T> {
    ghost is_clone = { λ it copy. copy ≡ it };

    ghost is_infallible = { λ _. ⊤ };

    fn clone(&self) -> Result<Self, AllocError> {
        Ok(ArenaIter {
            first: self.first,
            items: self.items,
            kind: PhantomData,
        })
    }
}

impl<'a, K, T> Iterator for ArenaIter<'a, K, T> {
    type Item = (Idx<K>, &'a T);

    ghost next_gives = { YieldsFirstBy (λ item. (item.0, item.1.now)) (λ rest. rest) };

    ghost remaining = { item_count (λ rest. rest) };

    fn next(&mut self) -> Option<(Idx<K>, &'a T)> {
        let (item, rest) = self.items.split_first()?;
        let id = Idx::from_raw(self.first);
        self.items = rest;
        self.first += 1;
        Some((id, item))
    }

    #[tactic(auto, using(crate::proofs::NumberedItems::numbered))]
    fn size_hint(&self) -> (usize, Option<usize>)
        ensures lower { IsWithinCount result.0 (at_most (length self.now)) }
        ensures upper { IfSome result.1 (UpTo (at_most (length self.now))) }
        ensures exact { result ≡ (length self.now, Some (length self.now)) }
    {
        let len = self.items.len();
        (len, Some(len))
    }
}

impl<'a, K, T> DoubleEndedIterator for ArenaIter<'a, K, T> {
    ghost next_back_gives = { YieldsLastBy (λ item. (item.0, item.1.now)) (λ rest. rest) };

    #[tactic(auto, using(crate::proofs::NumberedItems::numbered))]
    fn next_back(&mut self) -> Option<(Idx<K>, &'a T)> {
        let (item, rest) = self.items.split_last()?;
        let id = Idx::from_raw(self.first + rest.len() as u32);
        self.items = rest;
        Some((id, item))
    }
}

impl<'a, K, T> ExactSizeIterator for ArenaIter<'a, K, T> {
    #[tactic(auto, using(crate::proofs::NumberedItems::numbered))]
    fn len(&self) -> usize {
        self.items.len()
    }
}

impl<'a, K, T> FusedIterator for ArenaIter<'a, K, T> {}
