//! Maps by id and their iterators, once each on the happy path.
use hir_collections::{ArenaMap, ArenaMapIter, ExactEq, Idx};
use std::alloc::{AllocError, Global};
use std::mem::drop;
use std::process::Abort;
use std::test::Fail;

enum Kind {}

// An id, the value that it is given, and the one that it had.
const GIVEN: [(u32, u32, Option<u32>); 4] = [
    (7, 1, None),
    (2, 2, None),
    (7, 3, Some(1)),
    (0, 4, None),
];

// Gives the map values at 7, 2, 7 again and 0.
fn give(rt: &impl Abort, map: &mut ArenaMap<Kind, u32>) -> Result<(), AllocError> {
    for (id, value, wanted) in &GIVEN {
        let old = map.insert(Idx::from_raw(*id), *value)?;
        assert!(rt; old == *wanted, "at {id}");
    }
    Ok(())
}

// The map of these values.
fn some_map(rt: &impl Abort, alloc: Global) -> Result<ArenaMap<Kind, u32>, AllocError> {
    let mut map = ArenaMap::new(alloc);
    give(rt, &mut map)?;
    Ok(map)
}

const KEPT: [(u32, Option<u32>); 5] = [
    (0, Some(4)),
    (1, None),
    (2, Some(2)),
    (7, Some(3)),
    (8, None),
];

fn are_kept(map: &ArenaMap<Kind, u32>) -> bool {
    let mut holds = true;
    for (id, value) in &KEPT {
        holds = holds & (map.get(Idx::from_raw(*id)).copied() == *value);
    }
    holds
}

// Whether these are the entries, in their order.
fn are_entries(entries: ArenaMapIter<'_, Kind, u32>, wanted: &[(u32, u32)]) -> bool {
    let mut holds = true;
    let mut count = 0usize;
    for (id, value) in entries {
        holds = holds & (wanted.get(count).copied() == Some((id.into_raw(), *value)));
        count = count.wrapping_add(1);
    }
    holds & (count == wanted.len())
}

// Whether after the first entry the iterator and a copy of it have these entries left.
fn copy_goes_on(
    mut entries: ArenaMapIter<'_, Kind, u32>,
    wanted: &[(u32, u32)],
) -> Result<bool, AllocError> {
    let begun = entries.next().is_some();
    let copy = entries.clone()?;
    Ok(begun && are_entries(copy, wanted) && are_entries(entries, wanted))
}

#[test]
fn a_map_keeps_the_last_values_and_its_entries_rise(rt: HostRuntime) -> Result<(), Fail> {
    let map = some_map(&rt, rt.alloc())?;
    let kept = are_kept(&map);
    let rise = are_entries(map.iter(), &[(0, 4), (2, 2), (7, 3)]);
    let goes_on = copy_goes_on(map.iter(), &[(2, 2), (7, 3)]);
    drop(map);
    assert!(rt; kept);
    assert!(rt; rise);
    assert!(rt; goes_on?);
    Ok(())
}

type Map = ArenaMap<Kind, u32>;

// Whether a map that is given 5 and then 1 becomes this one, the map of 1 and 5 to themselves: it was another
// before each, and is another with a value of its own.
fn becomes(other: &mut Map, made: &Map) -> Result<bool, AllocError> {
    let was_same = other.is_same(made);
    other.insert(Idx::from_raw(5), 5)?;
    let was_same_again = other.is_same(made);
    other.insert(Idx::from_raw(1), 1)?;
    let became = other.is_same(made);
    other.insert(Idx::from_raw(5), 6)?;
    Ok(!was_same & !was_same_again & became & (*other != *made))
}

fn another_becomes(alloc: Global, made: &Map) -> Result<bool, AllocError> {
    let mut other = ArenaMap::new(alloc);
    let becomes = becomes(&mut other, made);
    drop(other);
    becomes
}

// The map of 1 and 5 to themselves.
fn add_both(map: &mut Map) -> Result<(), AllocError> {
    map.insert(Idx::from_raw(1), 1)?;
    map.insert(Idx::from_raw(5), 5)?;
    Ok(())
}

#[test]
fn maps_are_equal_as_maps(rt: HostRuntime) -> Result<(), Fail> {
    let mut made = ArenaMap::with_capacity(rt.alloc(), 8)?;
    add_both(&mut made)?;
    let answer = another_becomes(rt.alloc(), &made);
    drop(made);
    assert!(rt; answer?);
    Ok(())
}
