//! Lists of few items, which are stored in the value itself.
//! `SmallVec` of the crate `smallvec` takes 32 bytes, which makes an expression and a pattern larger than
//! all else in them.
ghost use Rattle.std.specs.Prelude.{◌≡◌, ◌<◌, ◌^◌, ◌≤◌, [], ◌∷◌, ◌++◌, length, slice_get, slice_index_or, slice_set, IfOk, IsOk, OnOk, OnErr, IsTrue, ◌↔◌, Some};
ghost use Rattle.std.specs.Option.{option_copied};
ghost use Rattle.std.specs.Borrow.{sem, Lends, Array};
ghost use Rattle.std.specs.Cmp.Lexicographic.{pointwise, lists_per, lists_equiv};
ghost use Rattle.std.specs.Hash as fed;
ghost use Rattle.std.specs.Hash.{items_Alike};
ghost use Rattle.std.specs.Slice.Iter.{iter_rest};
ghost use Rattle.std.proofs.Common.{rules};
ghost use Rattle.std.specs.Iterator.Adapters.{IterYieldsInOrder, IterYieldsInReverse};

use crate::{ExactEq, Seq, TryClone};
use std::alloc::{AllocError, Global};
use std::hash::{Hash, Hasher};
use std::marker::Model;
use std::ops::{Index, IndexMut};
use std::slice::Iter;

/// The most items that the value itself holds.
const MOST_INSIDE: usize = 3;

// Where the items of a list are stored: in the value, or in an allocation of their own.
#[derive(Drop)]
enum Place<T> {
    Nothing,
    One([T; 1]),
    Two([T; 2]),
    Three([T; 3]),
    Outside(Box<Seq<T>>),
}

impl<T> Place<T> {
    ghost use Rattle.hir_collections.specs.ShortList.{items_at};
    ghost use Rattle.hir_collections.specs.PlaceLends.{lends_item};

    // Lends the item at this index for writing.
    fn item_mut(&mut self, at: usize) -> &mut T
        requires { at < length (items_at self.old) }
        ensures* changes_one { sem 𝓛 (lends_item T.row self.entry at result) }
        ensures value { slice_get (items_at self.old) at ≡ Some result.now }
    {
        match self {
            Place::Nothing => unreachable!(),
            Place::One(items) => item_of(items, at),
            Place::Two(items) => item_of(items, at),
            Place::Three(items) => item_of(items, at),
            Place::Outside(items) => &mut items[at],
        }
    }
}

// Lends the item of an array at this index for writing.
fn item_of<T, const N: usize>(items: &mut [T; N], at: usize) -> &mut T
    requires { at < length items.old }
    ensures* writes_back { sem 𝓛
        (Lends (Array T.row N) T.row items.entry result (slice_set items.old at)) }
    ensures value { slice_get items.old at ≡ Some result.now }
{
    at_mut(items, at)
}

// Lends the item at an index that is below the array's own number of items. Its proof is written by hand.
fn at_mut<T, const N: usize>(items: &mut [T; N], at: usize) -> &mut T
    requires { at < N }
    ensures* writes_back { sem 𝓛
        (Lends (Array T.row N) T.row items.entry result (slice_set items.old at)) }
    ensures value { result.now ≡ slice_index_or items.old at result.now }
{
    &mut items[at]
}

/// A list that is modelled as its items, like a `Seq`.
///
/// A list of at most three items takes no allocation, unless it was made with room for more. The value of a
/// list of ids takes 16 bytes.
#[derive(Drop)]
pub struct ShortList<T> {
    place: Place<T>,
}

impl<T> Model for ShortList<T> {
    ghost use Rattle.std.specs.Prelude.{List};
    ghost use Rattle.std.specs.Coded.{coded_list};

    ghost Value = { List T };

    ghost coded = { coded_list T.code };

    ghost use Rattle.hir_collections.specs.ShortList.{items_at};

    ghost view = { λ list. items_at list.place };
}

impl<T> ShortList<T> {
    /// Returns a list with no items.
    pub fn new() -> ShortList<T>
        ensures { result ≡ [] }
    {
        ShortList {
            place: Place::Nothing,
        }
    }

    /// Returns the items as a slice.
    pub fn as_slice(&self) -> &[T]
        ensures { result.now ≡ self.now }
    {
        match &self.place {
            Place::Nothing => &[],
            Place::One(items) => items,
            Place::Two(items) => items,
            Place::Three(items) => items,
            Place::Outside(items) => items.as_slice(),
        }
    }

    /// Returns the number of items.
    pub fn len(&self) -> usize
        ensures { result ≡ length self.now }
    {
        self.as_slice().len()
    }

    /// Returns whether there are no items.
    pub fn is_empty(&self) -> bool
        ensures { IsTrue result ↔ (self.now ≡ []) }
    {
        self.as_slice().is_empty()
    }

    /// Returns the item at this index, if there is one.
    pub fn get(&self, at: usize) -> Option<&T>
        ensures { option_copied result ≡ slice_get self.now at }
    {
        self.as_slice().get(at)
    }

    /// Returns the items in order, from either end.
    pub fn iter(&self) -> Iter<'_, T>
        ensures rest { iter_rest result ≡ self.now }
        ensures runs { IterYieldsInOrder T }
        ensures runs_back { IterYieldsInReverse T }
    {
        self.as_slice().iter()
    }
}

/// Returns a copy of the items in an allocation of their own, with room for `capacity` of them.
fn outside<T: Copy>(alloc: Global, items: &[T], capacity: usize) -> Result<Box<Seq<T>>, AllocError>
    ensures { IfOk result (λ list. list.value ≡ items.now) }
{
    let mut list = Vec::with_capacity(alloc, capacity)?;
    list.extend_from_slice(items)?;
    Ok(Box::new(alloc, Seq::from_vec(list))?)
}

impl<T: Copy> ShortList<T> {
    /// Returns a list with no items and with room for `capacity` of them.
    ///
    /// Returns an error if the allocation fails.
    pub fn with_capacity(alloc: Global, capacity: usize) -> Result<ShortList<T>, AllocError>
        ensures ok { IfOk result (λ list. list ≡ []) }
        ensures few { capacity ≤ 3 → IsOk result }
    {
        if capacity <= MOST_INSIDE {
            return Ok(ShortList::new());
        }
        let items = Seq::with_capacity(alloc, capacity)?;
        Ok(ShortList {
            place: Place::Outside(Box::new(alloc, items)?),
        })
    }

    /// Returns the list of these items.
    ///
    /// Returns an error if the allocation fails.
    pub fn from_slice(alloc: Global, items: &[T]) -> Result<ShortList<T>, AllocError>
        ensures ok { IfOk result (λ list. list ≡ items.now) }
        ensures few { length items.now ≤ 3 → IsOk result }
    {
        let place = match items {
            [] => Place::Nothing,
            [first] => Place::One([*first]),
            [first, second] => Place::Two([*first, *second]),
            [first, second, third] => Place::Three([*first, *second, *third]),
            more => Place::Outside(outside(alloc, more, more.len())?),
        };
        Ok(ShortList { place })
    }

    /// Adds the item at the end. Up to the third item this takes no allocation.
    ///
    /// Returns an error if the allocation fails: the list is unchanged.
    pub fn push(&mut self, alloc: Global, item: T) -> Result<(), AllocError>
        ensures ok { OnOk result (self.new ≡ self.old ++ item ∷ []) }
        ensures err { OnErr result (self.new ≡ self.old) }
    {
        let place = &mut self.place;
        if let Place::Outside(items) = place {
            items.push(item)?;
            return Ok(());
        }
        *place = match &*place {
            Place::Nothing => Place::One([item]),
            Place::One([first]) => Place::Two([*first, item]),
            Place::Two([first, second]) => Place::Three([*first, *second, item]),
            Place::Three(items) => {
                let mut list = outside(alloc, items, 2 * MOST_INSIDE)?;
                list.push(item)?;
                Place::Outside(list)
            }
            Place::Outside(_) => unreachable!(),
        };
        Ok(())
    }
}

/// Iterates over the items in order: `for item in &list`.
impl<'a, T> IntoIterator for &'a ShortList<T> {
    type Item = &'a T;

    type IntoIter = Iter<'a, T>;

    ghost into_iter_gives = { λ list it. (iter_rest it ≡ list.now) × (length (iter_rest it) < 2 ^ 64)
        × IterYieldsInOrder T × IterYieldsInReverse T };

    fn into_iter(self) -> Iter<'a, T> {
        self.iter()
    }
}

/// Returns the item at an index, which must be below the length.
impl<T> Index<usize> for ShortList<T> {
    type Output = T;

    ghost can_index = { λ list at. at < length list };

    ghost index_gives = { λ list at item. slice_get list at ≡ Some item };

    fn index(&self, at: usize) -> &T {
        &self.as_slice()[at]
    }
}

/// Lends the item at an index for writing: no other item changes.
impl<T> IndexMut<usize> for ShortList<T> {
    ghost use Rattle.hir_collections.specs.ShortListLends.{lends_item};

    fn index_mut(&mut self, at: usize) -> &mut T
        requires { at < length self.old }
        ensures* changes_one { sem 𝓛 (lends_item T.row self.entry at result) }
        ensures value { slice_get self.old at ≡ Some result.now }
    {
        self.place.item_mut(at)
    }
}

impl<T: PartialEq> PartialEq for ShortList<T> {
    ghost eq = { pointwise T.eq };

    ghost laws = { lists_per T.PartialEq.laws };

    fn eq(&self, other: &ShortList<T>) -> bool {
        self.as_slice() == other.as_slice()
    }
}

impl<T: Eq> Eq for ShortList<T> {
    ghost laws = { lists_equiv T.Eq.laws };
}

impl<T: Hash> Hash for ShortList<T> {
    ghost hash_input = { fed.slice T.hash_input };

    ghost respects_eq = { (items_Alike (record { fed = T.respects_eq })).fed };

    fn hash<H: Hasher>(&self, state: &mut H) {
        self.as_slice().hash(state);
    }
}

impl<T: Copy> Clone for ShortList<T> {
    ghost is_clone = { λ x y. y ≡ x };

    fn clone(&self) -> Result<ShortList<T>, AllocError> {
        let place = match &self.place {
            Place::Nothing => Place::Nothing,
            Place::One(items) => Place::One(*items),
            Place::Two(items) => Place::Two(*items),
            Place::Three(items) => Place::Three(*items),
            Place::Outside(items) => {
                let alloc = *Box::allocator(items);
                Place::Outside(outside(alloc, items.as_slice(), items.len())?)
            }
        };
        Ok(ShortList { place })
    }
}

impl<T: ExactEq> ExactEq for ShortList<T> {
    ghost use Rattle.std.specs.Cmp.Lexicographic.{pointwise_decides};

    ghost eq_decides = { pointwise_decides T.eq_decides };
}

impl<T: Copy> TryClone for ShortList<T> {
    ghost clone_is_same = { Prim.search rules };
}
