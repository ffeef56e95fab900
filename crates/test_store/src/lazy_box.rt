//! Values that take no memory until they are written to, and what that leaves of the sizes of builders and
//! stores.
use hir_collections::{ExactEq, LazyBox, Seq, TryClone};
use hir_source_map::SourceMapBuilder;
use hir_store::{ExpressionStore, ExpressionStoreBuilder, ExpressionStoreSourceMap};
use std::alloc::{AllocError, Global};
use std::mem::{drop, size_of};
use std::test::Fail;

/// A list that takes no memory until it is written to.
type List = LazyBox<Seq<u32>>;

/// What the list has, where it has memory.
fn read(list: &List) -> Option<&[u32]> {
    match list.get() {
        Some(items) => Some(items.as_slice()),
        None => None,
    }
}

/// Adds a number after the others.
fn add(list: &mut List, number: u32) -> Result<(), AllocError> {
    list.get_or_alloc()?.push(number)?;
    Ok(())
}

/// The list 7, 8, whose items were written one by one.
fn written_list(alloc: Global) -> Result<List, AllocError> {
    let mut list = LazyBox::new(alloc);
    add(&mut list, 7)?;
    add(&mut list, 8)?;
    Ok(list)
}

/// The list 7, 8, which was a list of its own before.
fn moved_list(alloc: Global) -> Result<List, AllocError> {
    let mut items = Seq::new(alloc);
    items.push(7)?;
    items.push(8)?;
    Ok(LazyBox::of(alloc, items)?)
}

#[test]
fn what_is_written_is_read(rt: HostRuntime) -> Result<(), Fail> {
    let list = written_list(rt.alloc())?;
    let has_both = read(&list) == Some([7, 8].as_slice());
    let is_same = moved_list(rt.alloc()).map(|other| other.is_same(&list));
    let copy_is_same = list.try_clone().map(|copy| copy == list);
    drop(list);
    assert!(rt; has_both);
    assert!(rt; is_same? && copy_is_same?);
    Ok(())
}

/// Whether an empty list is the same before and after it has memory, and another once it has an item.
fn memory_is_not_compared(alloc: Global) -> Result<bool, AllocError> {
    let empty_value = LazyBox::new(alloc);
    let mut list: List = LazyBox::new(alloc);
    let _ = list.get_or_alloc()?;
    let has_memory = read(&list) == Some([].as_slice()) && read(&empty_value) == None;
    let was_same = list == empty_value && empty_value.is_same(&list);
    add(&mut list, 7)?;
    Ok(has_memory && was_same && list != empty_value && empty_value != list)
}

/// Whether a copy of a list that has no memory has none.
fn blank_copy_is_blank(alloc: Global) -> Result<bool, AllocError> {
    let empty_value: List = LazyBox::new(alloc);
    let copy = empty_value.try_clone()?;
    Ok(read(&copy) == None && copy == empty_value)
}

#[test]
fn memory_of_an_empty_list_is_not_compared(rt: HostRuntime) -> Result<(), Fail> {
    assert!(rt; memory_is_not_compared(rt.alloc())?);
    assert!(rt; blank_copy_is_blank(rt.alloc())?);
    Ok(())
}

/// Whether maps of sources whose parts have memory, and no entries, are the same as those without.
fn memory_of_maps_is_not_compared(alloc: Global) -> Result<bool, AllocError> {
    let empty_value = SourceMapBuilder::new(alloc);
    let mut made = SourceMapBuilder::new(alloc);
    let _ = made.exprs.get_or_alloc()?;
    let _ = made.types.get_or_alloc()?;
    let are_same = made == empty_value;
    Ok(are_same && made.finish(true) == empty_value.finish(true))
}

#[test]
fn maps_without_entries_are_the_same(rt: HostRuntime) -> Result<(), Fail> {
    assert!(rt; memory_of_maps_is_not_compared(rt.alloc())?);
    Ok(())
}

/// Whether nothing of a store without nodes is under others.
fn nothing_is_under(alloc: Global) -> Result<bool, AllocError> {
    let store = ExpressionStore::empty(alloc);
    let none = store.no_nodes(alloc)?;
    drop(store.under(alloc, &none)?);
    Ok(store.no_child_is_in(&none))
}

#[test]
fn a_store_without_nodes_answers(rt: HostRuntime) -> Result<(), Fail> {
    assert!(rt; nothing_is_under(rt.alloc())?);
    Ok(())
}

#[test]
fn small_bodies_move_few_bytes(rt: HostRuntime) {
    assert_eq!(rt; size_of::<List>(), 16);
    assert!(rt; size_of::<ExpressionStoreBuilder>() <= 400);
    assert!(rt; size_of::<ExpressionStore>() <= 240);
    assert!(rt; size_of::<ExpressionStoreSourceMap>() <= 64);
}
