//! Theorems that a reader relies on, and that no call's contract states.
//! Each is a function with an empty body: its contract is the theorem, proved for every value.
ghost use Rattle.std.specs.Prelude.{◌≡◌, ℕ};
ghost use Rattle.std.specs.Ordering.{nat_cmp};
ghost use Rattle.hir_collections.specs.Laws.{OrderAgrees};

use crate::{Idx, MOST_ITEMS};
use std::hash::Hash;

/// Ids of any kind are ordered by their numbers.
pub fn idx_order_is_that_of_numbers<K>()
    ensures total { (x y : ℕ) → ⟦<Idx<K> as Ord>⟧.cmp x y ≡ nat_cmp x y }
    ensures partial { (x y : ℕ) → ⟦<Idx<K> as PartialOrd>⟧.partial_cmp x y ≡ Some (nat_cmp x y) }
{}

/// Ids of any kind are equal exactly if their numbers are, exactly if they compare as equal, and then they
/// hash alike.
pub fn idx_order_agrees_with_eq_and_hash<K>()
    ensures { OrderAgrees ⟦<Idx<K> as PartialEq>⟧.eq ⟦<Idx<K> as Ord>⟧.cmp ⟦<Idx<K> as Hash>⟧.hash_input }
{}

/// An arena holds at most 4,294,967,295 items.
pub fn most_items_of_an_arena()
    ensures { MOST_ITEMS ≡ 4294967295 }
{}
