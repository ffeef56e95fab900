//! Arenas: lists of items that are named by their numbers.
//! Items are added at the end and never removed, so an id stays valid as long as its arena.
ghost use Rattle.std.specs.Prelude.{◌≡◌, ◌<◌, ◌≤◌, [], ◌∷◌, ◌++◌, length, slice_get, IfOk, IfErr, IsTrue, ◌↔◌, Some};
ghost use Rattle.std.specs.Borrow.{sem};
ghost use Rattle.std.specs.List.{enumerate_from};

use crate::arena_iter::ArenaIter;
use crate::{ExactEq, Idx, Seq, TryClone};
use std::alloc::Global;
use std::marker::{Model, PhantomData};
use std::ops::{Index, IndexMut};
use thiserror::Error;

/// The most items that an arena can hold: one for each `u32` but the last.
pub const MOST_ITEMS: usize = 4294967295;

/// Why an arena couldn't take an item.
#[derive(Clone, Copy, Debug, Drop, PartialEq, Eq, Error)]
pub enum ArenaFault {
    /// The allocation of room for one more item failed.
    #[error("Memory")]
    Memory,
    /// The arena holds `MOST_ITEMS` items.
    #[error("Full")]
    Full,
}

impl ExactEq for ArenaFault {
    ghost use Rattle.hir_collections.specs.Exact.{exact};

    ghost eq_decides = { Prim.search exact };
}

/// A list of items, each named by an id of the kind `K` that is its index from 0.
#[derive(Drop)]
#[derive_where(Clone, PartialEq, Eq, Hash; T)]
pub struct Arena<K, T> {
    items: Seq<T>,
    #[derive_where(skip)]
    kind: PhantomData<K>,
}

impl<K, T> Model for Arena<K, T> {
    ghost use Rattle.std.specs.Prelude.{List, length, ◌≤◌};
    ghost use Rattle.std.specs.Coded.{coded_list};
    ghost use Rattle.hir_collections.specs.declared.arena.TheConstants.{MOST_ITEMS};

    ghost Value = { List T };

    ghost coded = { coded_list T.code };

    ghost view = { λ a. a.items };

    ghost inverse = { λ items. record { items = items; kind = record {} } };

    ghost invariant = { λ a. length a.items ≤ MOST_ITEMS };
}

impl<K, T> Arena<K, T> {
    /// Returns an arena with no items, which takes its memory from `alloc`.
    pub fn new(alloc: Global) -> Arena<K, T>
        ensures { result ≡ [] }
    {
        Arena {
            items: Seq::new(alloc),
            kind: PhantomData,
        }
    }

    /// Adds the item at the end and returns its id.
    ///
    /// Returns `Memory` if the allocation fails, and `Full` exactly if the arena holds `MOST_ITEMS` items,
    /// 4,294,967,295. Either error gives the item back and leaves the arena unchanged.
    // Always inlined, so that a name goes into its arena without a copy on the way: see `with_zeros` of
    // `hir_base`.
    #[inline(always)]
    pub fn alloc(&mut self, item: T) -> Result<Idx<K>, (ArenaFault, T)>
        ensures ok { IfOk result (λ id. (id ≡ length self.old) × (self.new ≡ self.old ++ item ∷ [])) }
        ensures err { IfErr result (λ refused. (refused.1 ≡ item) × (self.new ≡ self.old)) }
        ensures full { IfErr result (λ refused. refused.0 ≡ ArenaFault.Full → length self.old ≡ MOST_ITEMS) }
        ensures limit { IfErr result (λ refused. refused.0 ≡ ArenaFault.Full → length self.old ≡ 4294967295) }
        ensures full_only { length self.old ≡ MOST_ITEMS → result ≡ Err (ArenaFault.Full, item) }
    {
        let len = self.items.len();
        if len >= MOST_ITEMS {
            return Err((ArenaFault::Full, item));
        }
        match self.items.push(item) {
            Ok(()) => Ok(Idx::from_raw(len as u32)),
            Err(failed) => Err((ArenaFault::Memory, failed.value)),
        }
    }

    /// Returns the number of items.
    pub fn len(&self) -> usize
        ensures len { result ≡ length self.now }
        ensures most { length self.now ≤ MOST_ITEMS }
    {
        self.items.len()
    }

    /// Returns whether there are no items.
    pub fn is_empty(&self) -> bool
        ensures { IsTrue result ↔ (self.now ≡ []) }
    {
        self.items.is_empty()
    }

    /// Returns whether the arena has an item with this id.
    pub fn has(&self, id: Idx<K>) -> bool
        ensures { IsTrue result ↔ id < length self.now }
    {
        (id.into_raw() as usize) < self.items.len()
    }

    /// Returns the items, in the order of their ids.
    pub fn as_slice(&self) -> &[T]
        ensures items { result.now ≡ self.now }
        ensures most { length result.now ≤ MOST_ITEMS }
    {
        self.items.as_slice()
    }

    /// Returns the ids and the items in order, from either end.
    #[tactic(auto, using(crate::proofs::NumberedItems::numbered))]
    pub fn iter(&self) -> ArenaIter<'_, K, T>
        ensures items { result ≡ enumerate_from 0 self.now }
        ensures most { length result ≤ MOST_ITEMS }
    {
        ArenaIter::new(self.items.as_slice())
    }
}

/// Returns the item with an id that is in range: `has` tests that.
impl<K, T> Index<Idx<K>> for Arena<K, T> {
    type Output = T;

    ghost can_index = { λ arena id. id < length arena };

    ghost index_gives = { λ arena id item. slice_get arena id ≡ Some item };

    fn index(&self, id: Idx<K>) -> &T {
        &self.items[id.into_raw() as usize]
    }
}

/// Lends the item with an id for writing: a write replaces it and changes no other item.
impl<K, T> IndexMut<Idx<K>> for Arena<K, T> {
    ghost use Rattle.hir_collections.specs.Arena.{lends_item};

    fn index_mut(&mut self, id: Idx<K>) -> &mut T
        requires { id < length self.old }
        ensures* changes_one { sem 𝓛 (lends_item K.row T.row self.entry id result) }
        ensures value { slice_get self.old id ≡ Some result.now }
    {
        &mut self.items[id.into_raw() as usize]
    }
}

impl<K, T: ExactEq> ExactEq for Arena<K, T> {
    ghost use Rattle.std.specs.Cmp.Lexicographic.{pointwise_decides};

    ghost eq_decides = { pointwise_decides T.eq_decides };
}

impl<K, T: TryClone> TryClone for Arena<K, T> {
    ghost use Rattle.hir_collections.specs.Exact.{exact};

    ghost clone_is_same = { Prim.search (exact, T.clone_is_same) };
}
