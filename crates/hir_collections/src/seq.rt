//! Lists: a `Vec` that is modelled as the list of its items.
//! The model of a `Vec` has its capacity too, so two with the same items can differ; two `Seq`s can't.
ghost use Rattle.std.specs.Prelude.{◌≡◌, ◌<◌, ◌^◌, [], ◌∷◌, ◌++◌, length, slice_get, IfOk, IsOk, OnOk, OnErr, IfErr, IsTrue, ◌↔◌, Some};
ghost use Rattle.std.specs.Option.{option_copied};
ghost use Rattle.std.specs.Borrow.{sem};
ghost use Rattle.std.specs.Cmp.Lexicographic.{pointwise, lists_per, lists_equiv};
ghost use Rattle.std.specs.Hash as fed;
ghost use Rattle.std.specs.Hash.{items_Alike};
ghost use Rattle.std.specs.List.{AllZip};
ghost use Rattle.std.specs.Slice.Iter.{iter_rest};
ghost use Rattle.std.specs.Iterator.Adapters.{IterYieldsInOrder, IterYieldsInReverse};

use crate::{ExactEq, TryClone};
use std::alloc::{AllocError, AllocFailed, Global};
use std::hash::{Hash, Hasher};
use std::marker::Model;
use std::ops::{Index, IndexMut};
use std::slice::Iter;

/// A `Vec` that is modelled as the list of its items.
///
/// Converting from the `Vec` and back takes no memory.
#[derive(Drop)]
pub struct Seq<T> {
    items: Vec<T>,
}

impl<T> Model for Seq<T> {
    ghost use Rattle.std.specs.Prelude.{List};
    ghost use Rattle.std.specs.Coded.{coded_list};

    ghost Value = { List T };

    ghost coded = { coded_list T.code };

    ghost view = { λ s. s.items.items };
}

impl<T> Seq<T> {
    ghost use Rattle.hir_collections.specs.Seq.{lends_slice};

    /// Returns a list with no items. It takes its memory from `alloc`, and none yet.
    pub fn new(alloc: Global) -> Seq<T>
        ensures { result ≡ [] }
    {
        Seq {
            items: Vec::new(alloc),
        }
    }

    /// Returns a list with no items and with room for `capacity` of them.
    ///
    /// Returns an error if the allocation fails.
    pub fn with_capacity(alloc: Global, capacity: usize) -> Result<Seq<T>, AllocError>
        ensures ok { IfOk result (λ seq. seq ≡ []) }
        ensures none_wanted { capacity ≡ 0 → IsOk result }
    {
        Ok(Seq {
            items: Vec::with_capacity(alloc, capacity)?,
        })
    }

    /// Returns the list of the items of this vector.
    pub fn from_vec(items: Vec<T>) -> Seq<T>
        ensures { result ≡ items.items }
    {
        Seq { items }
    }

    /// Returns the list of the items of this array, like `Seq::of(alloc, [a, b])`.
    ///
    /// Returns an error if the allocation fails: the error gives the items back.
    pub fn of<const N: usize>(alloc: Global, items: [T; N]) -> Result<Seq<T>, AllocFailed<[T; N]>>
        ensures ok { IfOk result (λ seq. seq ≡ items) }
        ensures value_returned { IfErr result (λ failed. failed.value ≡ items) }
    {
        Ok(Seq {
            items: Vec::from_array(alloc, items)?,
        })
    }

    /// Returns the vector that holds the items.
    pub fn into_vec(self) -> Vec<T>
        ensures { result.items ≡ self }
    {
        let Seq { items } = self;
        items
    }

    /// Returns the items as a slice.
    pub fn as_slice(&self) -> &[T]
        ensures { result.now ≡ self.now }
    {
        self.items.as_slice()
    }

    /// Lends the items as a slice for writing.
    pub fn as_mut_slice(&mut self) -> &mut [T]
        ensures* changes_items { sem 𝓛 (lends_slice T.row self.entry result) }
        ensures value { result.now ≡ self.old }
    {
        self.items.as_mut_slice()
    }

    /// Returns the number of items.
    pub fn len(&self) -> usize
        ensures { result ≡ length self.now }
    {
        self.items.len()
    }

    /// Returns whether there are no items.
    pub fn is_empty(&self) -> bool
        ensures { IsTrue result ↔ (self.now ≡ []) }
    {
        self.items.is_empty()
    }

    /// Returns the item at this index, if there is one.
    pub fn get(&self, at: usize) -> Option<&T>
        ensures { option_copied result ≡ slice_get self.now at }
    {
        self.items.get(at)
    }

    /// Returns the items in order, from either end.
    pub fn iter(&self) -> Iter<'_, T>
        ensures rest { iter_rest result ≡ self.now }
        ensures runs { IterYieldsInOrder T }
        ensures runs_back { IterYieldsInReverse T }
    {
        self.as_slice().iter()
    }

    /// Adds the item at the end.
    ///
    /// Returns an error if the allocation fails: the error gives the item back, and the list is unchanged.
    pub fn push(&mut self, item: T) -> Result<(), AllocFailed<T>>
        ensures ok { OnOk result (self.new ≡ self.old ++ item ∷ []) }
        ensures err { OnErr result (self.new ≡ self.old) }
        ensures value_returned { IfErr result (λ failed. failed.value ≡ item) }
    {
        self.items.push(item)
    }
}

/// Iterates over the items in order: `for item in &list`.
impl<'a, T> IntoIterator for &'a Seq<T> {
    type Item = &'a T;

    type IntoIter = Iter<'a, T>;

    ghost into_iter_gives = { λ list it. (iter_rest it ≡ list.now) × (length (iter_rest it) < 2 ^ 64)
        × IterYieldsInOrder T × IterYieldsInReverse T };

    fn into_iter(self) -> Iter<'a, T> {
        self.iter()
    }
}

/// Returns the item at an index, which must be below the length.
impl<T> Index<usize> for Seq<T> {
    type Output = T;

    ghost can_index = { λ s at. at < length s };

    ghost index_gives = { λ s at item. slice_get s at ≡ Some item };

    fn index(&self, at: usize) -> &T {
        &self.items[at]
    }
}

/// Lends the item at an index for writing: no other item changes.
impl<T> IndexMut<usize> for Seq<T> {
    ghost use Rattle.hir_collections.specs.Seq.{lends_item};

    fn index_mut(&mut self, at: usize) -> &mut T
        requires { at < length self.old }
        ensures* changes_one { sem 𝓛 (lends_item T.row self.entry at result) }
        ensures value { slice_get self.old at ≡ Some result.now }
    {
        &mut self.items[at]
    }
}

impl<T: PartialEq> PartialEq for Seq<T> {
    ghost eq = { pointwise T.eq };

    ghost laws = { lists_per T.PartialEq.laws };

    fn eq(&self, other: &Seq<T>) -> bool {
        self.items == other.items
    }
}

impl<T: Eq> Eq for Seq<T> {
    ghost laws = { lists_equiv T.Eq.laws };
}

impl<T: Hash> Hash for Seq<T> {
    ghost hash_input = { fed.slice T.hash_input };

    ghost respects_eq = { (items_Alike (record { fed = T.respects_eq })).fed };

    fn hash<H: Hasher>(&self, state: &mut H) {
        self.items.hash(state);
    }
}

impl<T: Clone> Clone for Seq<T> {
    ghost is_clone = { AllZip T.is_clone };

    fn clone(&self) -> Result<Seq<T>, AllocError> {
        Ok(Seq {
            items: self.items.clone()?,
        })
    }
}

impl<T: ExactEq> ExactEq for Seq<T> {
    ghost use Rattle.std.specs.Cmp.Lexicographic.{pointwise_decides};

    ghost eq_decides = { pointwise_decides T.eq_decides };
}

impl<T: TryClone> TryClone for Seq<T> {
    ghost use Rattle.std.proofs.lemmas.List.Elements.{same_from_all_zip};

    ghost clone_is_same = { λ x y h. same_from_all_zip _ x y h T.clone_is_same };
}
