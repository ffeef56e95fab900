//! Lists, texts and names, once each on the happy path.
use crate::same;
use hir_base::{ModPath, Name};
use hir_collections::{ExactEq, Idx, Seq, ShortList, Stack, Text, TryClone};
use std::alloc::{AllocError, Global};
use std::mem::{drop, size_of};
use std::process::Abort;
use std::test::Fail;

// Adds 7, 8 and 9 to the list, which is empty.
fn add_three(rt: &impl Abort, seq: &mut Seq<u32>) -> Result<(), AllocError> {
    assert!(rt; seq.is_empty());
    for item in 7..10 {
        seq.push(item)?;
    }
    Ok(())
}

// The list 7, 8, 9.
fn three(rt: &impl Abort, alloc: Global) -> Result<Seq<u32>, AllocError> {
    let mut seq = Seq::with_capacity(alloc, 2)?;
    add_three(rt, &mut seq)?;
    Ok(seq)
}

fn has_three(seq: &Seq<u32>) -> bool {
    !seq.is_empty()
        && seq.as_slice() == [7, 8, 9].as_slice()
        && seq.get(1).copied() == Some(8)
        && seq.get(3).copied() == None
        && seq.iter().rev().next().copied() == Some(9)
}

// Makes the second of three items 80, and returns whether it is, and what it is between where the others are
// swapped.
fn change(seq: &mut Seq<u32>) -> bool {
    if seq.len() != 3 {
        return false;
    }
    seq[1] = 80;
    seq.as_mut_slice().swap(0, 2);
    let is_changed = seq.as_slice() == [9, 80, 7].as_slice();
    seq.as_mut_slice().swap(0, 2);
    is_changed & (seq[1] == 80)
}

// Whether a copy is the same, until the list is changed.
fn leaves_its_copy(seq: &mut Seq<u32>) -> Result<bool, AllocError> {
    let copy = seq.try_clone()?;
    let was_same = copy.is_same(seq);
    let is_changed = change(seq);
    let differs = !copy.is_same(seq);
    drop(copy);
    Ok(was_same & is_changed & differs)
}

// Whether the list's vector has the items 7, 80 and 9, and a list of that vector is as long.
fn comes_back(seq: Seq<u32>) -> bool {
    let items = seq.into_vec();
    let holds = items.as_slice() == [7, 80, 9].as_slice();
    holds && Seq::from_vec(items).len() == 3
}

#[test]
fn a_list_keeps_its_items(rt: HostRuntime) -> Result<(), Fail> {
    let none: Seq<Name> = Seq::new(rt.alloc());
    let is_new = none.is_empty();
    drop(none);
    let mut seq = three(&rt, rt.alloc())?;
    let has_three = has_three(&seq);
    let leaves_its_copy = leaves_its_copy(&mut seq);
    let comes_back = comes_back(seq);
    assert!(rt; is_new & has_three & leaves_its_copy? & comes_back);
    Ok(())
}

// Whether a loop over the list gives these items.
fn gives(items: &Seq<u32>, wanted: &[u32]) -> bool {
    let mut rest = wanted;
    for item in items {
        match rest.split_first() {
            Some((first, others)) if *first == *item => rest = others,
            _ => return false,
        }
    }
    rest.is_empty()
}

#[test]
fn a_list_is_made_of_an_array(rt: HostRuntime) -> Result<(), Fail> {
    let none: [u32; 0] = [];
    let seq = Seq::of(rt.alloc(), [7, 8, 9])?;
    let empty = Seq::of(rt.alloc(), none)?;
    assert!(rt; gives(&seq, &[7, 8, 9]) && empty.is_empty() && gives(&empty, &[]));
    Ok(())
}

// Lists of 0 to 5 items: more than three aren't stored in the value itself.
const LISTS: [&[u32]; 6] = [
    &[],
    &[7],
    &[7, 8],
    &[7, 8, 9],
    &[7, 8, 9, 10],
    &[7, 8, 9, 10, 11],
];

// The list with these items pushed, if it could be made.
fn fill_list(
    alloc: Global,
    list: Result<ShortList<u32>, AllocError>,
    items: &[u32],
) -> Result<ShortList<u32>, AllocError> {
    let mut list = list?;
    for item in items {
        list.push(alloc, *item)?;
    }
    Ok(list)
}

// Whether the item is at this place.
fn has_at(list: &ShortList<u32>, at: usize, item: u32) -> bool {
    match list.get(at) {
        Some(found) => *found == item && at < list.len() && list[at] == item,
        None => false,
    }
}

// Whether each of these items is at its place, and none after them.
fn has_each(list: &ShortList<u32>, items: &[u32]) -> bool {
    for (at, item) in items.iter().enumerate() {
        if !has_at(list, at, *item) {
            return false;
        }
    }
    (list.len() == items.len()) & list.get(items.len()).is_none()
}

// Whether these items come one by one from the first.
fn from_the_front(list: &ShortList<u32>, items: &[u32]) -> bool {
    let mut rest = items;
    for item in list {
        match rest.split_first() {
            Some((first, others)) if *first == *item => rest = others,
            _ => return false,
        }
    }
    rest.is_empty()
}

// Whether these items come one by one from the last.
fn from_the_back(list: &ShortList<u32>, items: &[u32]) -> bool {
    let mut rest = items;
    for item in list.iter().rev() {
        match rest.split_last() {
            Some((last, others)) if *last == *item => rest = others,
            _ => return false,
        }
    }
    rest.is_empty()
}

fn has(list: &ShortList<u32>, items: &[u32]) -> bool {
    (list.as_slice() == items)
        & (list.is_empty() == items.is_empty())
        & has_each(list, items)
        & from_the_front(list, items)
        & from_the_back(list, items)
}

// Whether what was made has these items, and a copy of it has them still when one more was pushed.
fn keeps(
    alloc: Global,
    made: Result<ShortList<u32>, AllocError>,
    items: &[u32],
) -> Result<bool, AllocError> {
    let mut list = made?;
    let copy = list.try_clone()?;
    let was_same = copy.is_same(&list) && has(&list, items);
    list.push(alloc, 80)?;
    let is_pushed = list.get(items.len()).copied() == Some(80);
    Ok(was_same && is_pushed && has(&copy, items) && !copy.is_same(&list))
}

#[test]
fn a_short_list_keeps_its_items(rt: HostRuntime) -> Result<(), Fail> {
    let alloc = rt.alloc();
    for items in &LISTS {
        let whole = keeps(alloc, ShortList::from_slice(alloc, items), items);
        let grown = keeps(alloc, fill_list(alloc, Ok(ShortList::new()), items), items);
        let room = ShortList::with_capacity(alloc, items.len());
        let into_room = keeps(alloc, fill_list(alloc, room, items), items);
        assert!(rt; whole? && grown? && into_room?, "{items:?}");
    }
    Ok(())
}

// A list that has room for more than three is stored outside from the first item on.
#[test]
fn short_lists_of_the_same_items_are_alike(rt: HostRuntime) -> Result<(), Fail> {
    let alloc = rt.alloc();
    for items in &LISTS {
        let whole = ShortList::from_slice(alloc, items);
        let outside = fill_list(alloc, ShortList::with_capacity(alloc, 4), items);
        assert!(rt; same::alike(whole, outside)?, "{items:?}");
    }
    Ok(())
}

fn differ(alloc: Global, one: &[u32], second: &[u32]) -> Result<bool, AllocError> {
    let one = ShortList::from_slice(alloc, one)?;
    let second = ShortList::from_slice(alloc, second)?;
    Ok(!(one == second) && !one.is_same(&second))
}

const APART: [(&[u32], &[u32]); 5] = [
    (&[], &[7]),
    (&[7, 8], &[8, 7]),
    (&[7, 8, 9], &[7, 8, 80]),
    (&[7, 8, 9], &[7, 8, 9, 10]),
    (&[7, 8, 9, 10], &[7, 8, 10, 9]),
];

#[test]
fn short_lists_of_other_items_differ(rt: HostRuntime) -> Result<(), Fail> {
    for (one, second) in &APART {
        let differ = differ(rt.alloc(), one, second);
        assert!(rt; differ?, "{one:?}");
    }
    Ok(())
}

#[test]
fn a_path_takes_24_bytes(rt: HostRuntime) {
    assert!(rt; size_of::<ModPath>() == 24);
}

// How many items are 80.
fn count_80(list: &ShortList<u32>) -> usize {
    let mut count = 0usize;
    for item in list {
        if *item == 80 {
            count = count.wrapping_add(1);
        }
    }
    count
}

// Whether the item at each place is written to, and no other.
fn is_written(list: &mut ShortList<u32>, items: &[u32]) -> bool {
    for at in 0..items.len() {
        if at >= list.len() {
            return false;
        }
        list[at] = 80;
        if !has_at(list, at, 80) || count_80(list) != at + 1 {
            return false;
        }
    }
    list.len() == items.len()
}

#[test]
fn each_item_of_a_short_list_is_written_to(rt: HostRuntime) -> Result<(), Fail> {
    for items in &LISTS {
        let mut list = ShortList::from_slice(rt.alloc(), items)?;
        let is_written = is_written(&mut list, items);
        drop(list);
        assert!(rt; is_written);
    }
    Ok(())
}

// Nothing here takes memory, so that the test passes too where the first allocation fails.
#[test]
fn three_ids_lie_in_16_bytes(rt: HostRuntime) -> Result<(), Fail> {
    assert!(rt; size_of::<ShortList<Idx<Name>>>() == 16);
    let alloc = rt.alloc();
    let room = ShortList::with_capacity(alloc, 3);
    let grown = keeps(alloc, fill_list(alloc, room, &[7, 8]), &[7, 8]);
    let list = ShortList::from_slice(alloc, &[7u32, 8, 9])?;
    let whole = same::copies(&list);
    drop(list);
    assert!(rt; grown? && whole?);
    Ok(())
}

// Whether the name of what is missing has its text, and is another than this one.
fn is_missing(missing: Name, name: &Name) -> bool {
    let is_missing = (missing.as_str() == "[missing name]") & !missing.is_same(name);
    drop(missing);
    is_missing
}

// Whether the name has this text and is copied, and is not that of what is missing.
fn is_named(alloc: Global, name: &Name, text: &str) -> Result<bool, AllocError> {
    let is_missing = is_missing(Name::missing(alloc)?, name);
    let copies = same::copies(name)?;
    Ok(is_missing & (name.as_str() == text) & copies)
}

// Whether the text is that of the name, also where it is made again of its string, and makes the name.
fn becomes(alloc: Global, text: Text, wanted: &Name) -> Result<bool, AllocError> {
    let reads = text.as_str() == wanted.as_str();
    let text = Text::from_string(text.into_string());
    let reads_again = text.as_str() == wanted.as_str();
    let name = Name::from_text(alloc, text)?;
    Ok(reads && reads_again && name == *wanted)
}

// Of 7, 14 and 15 bytes: the last doesn't lie in the value.
const NAMES: [&str; 3] = ["größe", "fourteen_bytes", "fifteen_bytes_x"];

#[test]
fn a_name_is_its_text(rt: HostRuntime) -> Result<(), Fail> {
    for text in &NAMES {
        let name = Name::new(rt.alloc(), text)?;
        let is_named = is_named(rt.alloc(), &name, text);
        let becomes = becomes(rt.alloc(), Text::from_str(rt.alloc(), text)?, &name);
        drop(name);
        assert!(rt; is_named? && becomes?, "{text}");
    }
    Ok(())
}

#[test]
fn a_name_in_ascii_is_its_text(rt: HostRuntime) -> Result<(), Fail> {
    let inside = Name::from_ascii(rt.alloc(), b"fourteen_bytes")?;
    let outside = Name::from_ascii(rt.alloc(), b"fifteen_bytes_x")?;
    let are_named = inside.as_str() == "fourteen_bytes" && outside.as_str() == "fifteen_bytes_x";
    drop(inside);
    drop(outside);
    assert!(rt; are_named);
    Ok(())
}

#[test]
fn a_stack_with_room_is_popped_from_the_top(rt: HostRuntime) -> Result<(), Fail> {
    let mut stack = Stack::with_capacity(rt.alloc(), 2)?;
    stack.push(1u32)?;
    let below = stack.len();
    stack.defer(2);
    stack.defer(3);
    stack.push_deferred(below)?;
    let popped = [stack.pop(), stack.pop(), stack.pop(), stack.pop()];
    assert!(&rt; popped == [Some(2), Some(3), Some(1), None]);
    Ok(())
}
