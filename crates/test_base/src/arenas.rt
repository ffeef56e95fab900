//! Ids, arenas and their iterators, once each on the happy path, and the theorems of ids.
use crate::same;
use hir_collections::{Arena, ArenaFault, ArenaIter, ExactEq, Idx, MOST_ITEMS, TryClone, laws};
use std::alloc::{AllocError, Global};
use std::cmp::Ordering;
use std::iter::ExactSizeIterator;
use std::mem::drop;
use std::process::Abort;
use std::test::Fail;

enum Kind {}

// Adds the numbers below 20, each of which is its own id.
fn add_twenty(rt: &impl Abort, arena: &mut Arena<Kind, u32>) -> Result<(), ArenaFault> {
    for item in 0..20u32 {
        match arena.alloc(item) {
            Ok(id) => assert!(rt; id.into_raw() == item),
            Err((fault, _)) => return Err(fault),
        }
    }
    Ok(())
}

// An arena of the numbers below 20.
fn twenty(rt: &impl Abort, alloc: Global) -> Result<Arena<Kind, u32>, ArenaFault> {
    let mut arena = Arena::new(alloc);
    add_twenty(rt, &mut arena)?;
    Ok(arena)
}

fn has_twenty(arena: &Arena<Kind, u32>) -> bool {
    !arena.is_empty()
        && arena.as_slice().len() == 20
        && arena.has(Idx::from_raw(3))
        && !arena.has(Idx::from_raw(20))
}

// Whether the ids and the items come in turn from both ends, and ten from each.
fn meet(mut items: ArenaIter<'_, Kind, u32>) -> bool {
    let mut holds = items.len() == 20;
    let mut front = 0u32;
    let mut back = 20u32;
    while let Some((id, item)) = items.next() {
        holds = holds & (id.into_raw() == front) & (*item == front);
        front = front.wrapping_add(1);
        if let Some((id, item)) = items.next_back() {
            back = back.wrapping_sub(1);
            holds = holds & (id.into_raw() == back) & (*item == back);
        }
    }
    holds & (front == 10) & (back == 10) & (items.size_hint() == (0, Some(0)))
}

// Whether the items from this one on are left.
fn are_left(items: ArenaIter<'_, Kind, u32>, first: u32) -> bool {
    let mut holds = true;
    let mut number = first;
    for (id, item) in items {
        holds = holds & (id.into_raw() == number) & (*item == number);
        number = number.wrapping_add(1);
    }
    holds & (number == 20)
}

// Whether after the first item the iterator and a copy of it have the same items left.
fn copy_goes_on(mut items: ArenaIter<'_, Kind, u32>) -> Result<bool, AllocError> {
    let begun = items.next().is_some();
    let copy = items.clone()?;
    Ok(begun && are_left(copy, 1) && are_left(items, 1))
}

#[test]
fn items_are_numbered(rt: HostRuntime) -> Result<(), Fail> {
    let none: Arena<Kind, u32> = Arena::new(rt.alloc());
    let is_new = none.is_empty();
    drop(none);
    laws::most_items_of_an_arena();
    assert!(rt; is_new && MOST_ITEMS == 4294967295);
    let arena = twenty(&rt, rt.alloc())?;
    let holds = has_twenty(&arena) && meet(arena.iter());
    let goes_on = copy_goes_on(arena.iter());
    drop(arena);
    assert!(rt; holds && goes_on?);
    assert!(rt; same::alike(twenty(&rt, rt.alloc()), twenty(&rt, rt.alloc()))?);
    Ok(())
}

// Makes item 3, which was 3, 300, and returns whether it is.
fn change(arena: &mut Arena<Kind, u32>) -> bool {
    let third = Idx::from_raw(3);
    if !arena.has(third) || arena[third] != 3 {
        return false;
    }
    arena[third] = 300;
    arena[third] == 300
}

// Whether a copy is the same, until item 3 is changed.
fn leaves_its_copy(arena: &mut Arena<Kind, u32>) -> Result<bool, AllocError> {
    let copy = arena.try_clone()?;
    let was_same = copy.is_same(arena);
    let is_changed = change(arena);
    let differs = !copy.is_same(arena) & (copy != *arena);
    drop(copy);
    Ok(was_same & is_changed & differs)
}

#[test]
fn a_change_is_not_that_of_the_copy(rt: HostRuntime) -> Result<(), Fail> {
    let mut arena = twenty(&rt, rt.alloc())?;
    let answer = leaves_its_copy(&mut arena);
    drop(arena);
    assert!(rt; answer?);
    Ok(())
}

#[test]
fn ids_are_ordered_as_their_numbers(rt: HostRuntime) -> Result<(), Fail> {
    laws::idx_order_is_that_of_numbers::<Kind>();
    laws::idx_order_agrees_with_eq_and_hash::<Kind>();
    let small: Idx<Kind> = Idx::from_raw(1);
    let large: Idx<Kind> = Idx::from_raw(4294967295);
    let first: Idx<Kind> = Default::default();
    assert!(rt; small.cmp(&large) == Ordering::Less && small != large);
    assert!(rt; large.partial_cmp(&small) == Some(Ordering::Greater));
    assert!(rt; large.into_raw() == 4294967295 && first.into_raw() == 0);
    assert!(rt; same::copies(&small)?);
    Ok(())
}
