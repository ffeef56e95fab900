//! Hash tables and their keys, once each on the happy path.
use crate::same;
use hir_base::{
    AstPtr, DefWithBodyId, ExprSource, FunctionId, HirFileId, InFile, NamedDef, StaticId, StructId,
    SyntaxNodePtr, TextRange, UnionId, VariantId,
};
use hir_collections::{ExactEq, HasCode, Idx, Table};
use std::alloc::{AllocError, Global};
use std::mem::drop;
use std::process::Abort;
use std::test::Fail;

enum Kind {}

fn function() -> NamedDef {
    NamedDef::FunctionId(FunctionId::from_raw(4000000000))
}

// A structure of the function's number.
fn structure() -> NamedDef {
    NamedDef::StructId(StructId::from_raw(4000000000))
}

// Inserts the two, the function with 1 and then with 3.
fn insert_both(rt: &impl Abort, table: &mut Table<NamedDef, u32>) -> Result<(), AllocError> {
    let first = table.insert(function(), 1)?;
    let second = table.insert(structure(), 2)?;
    let third = table.insert(function(), 3)?;
    assert!(rt; first.is_none() & second.is_none() & (third == Some(1)));
    Ok(())
}

// A table of the two, in which the function's value was 1 before.
fn both(rt: &impl Abort, alloc: Global) -> Result<Table<NamedDef, u32>, AllocError> {
    let mut table = Table::new(alloc);
    insert_both(rt, &mut table)?;
    Ok(table)
}

// Whether the table has these values at the function and at the structure, and none at a third key.
fn has(table: &Table<NamedDef, u32>, first: Option<u32>, second: Option<u32>) -> bool {
    table.get(&function()).copied() == first
        && table.get(&structure()).copied() == second
        && table
            .get(&NamedDef::StructId(StructId::from_raw(0)))
            .copied()
            == None
}

// Whether the entries are those of the two, with 5 as the sum of their values.
fn lists_both(table: &Table<NamedDef, u32>) -> bool {
    let mut holds = !table.is_empty();
    let mut sum = 0u32;
    for (key, value) in table.iter() {
        holds = holds & ((*key == function()) | (*key == structure()));
        sum = sum.wrapping_add(*value);
    }
    holds && sum == 5
}

// Whether a table that is given 2 at one key and 3 at the other becomes the same as this one, and was not
// before.
fn becomes<K: HasCode + Copy + Drop>(
    table: &mut Table<K, u32>,
    made: &Table<K, u32>,
    of_2: &K,
    of_3: &K,
) -> Result<bool, AllocError> {
    let was_empty = table.is_same(made);
    table.insert(*of_2, 2)?;
    let was_half = table.is_same(made);
    table.insert(*of_3, 3)?;
    Ok(!was_empty & !was_half & (*table == *made))
}

// Whether an empty table becomes so.
fn another_becomes(alloc: Global, made: &Table<NamedDef, u32>) -> Result<bool, AllocError> {
    let mut table = Table::new(alloc);
    let becomes = becomes(&mut table, made, &structure(), &function());
    drop(table);
    becomes
}

#[test]
fn a_table_tells_its_keys_apart(rt: HostRuntime) -> Result<(), Fail> {
    let none: Table<NamedDef, u32> = Table::new(rt.alloc());
    let is_new = none.is_empty() && has(&none, None, None);
    drop(none);
    let table = both(&rt, rt.alloc())?;
    let has_both = has(&table, Some(3), Some(2)) && lists_both(&table);
    let is_equal = another_becomes(rt.alloc(), &table);
    let copies = same::copies(&table);
    drop(table);
    assert!(rt; is_new && has_both);
    assert!(rt; is_equal? && copies?);
    Ok(())
}

// Puts the two keys into the table, the first with 1 and then with 3, and the second with 2.
fn put_both<K: HasCode + Copy + Drop>(
    table: &mut Table<K, u32>,
    first: K,
    second: K,
) -> Result<(), AllocError> {
    table.put(first, 1)?;
    table.put(second, 2)?;
    table.put(first, 3)?;
    Ok(())
}

// A value that is put under a key takes the place of the one before, and no other changes.
#[test]
fn a_value_is_put_in_place_of_the_one_before(rt: HostRuntime) -> Result<(), Fail> {
    let mut table = Table::new(rt.alloc());
    put_both(&mut table, function(), structure())?;
    let holds = has(&table, Some(3), Some(2)) && lists_both(&table);
    drop(table);
    assert!(rt; holds);
    Ok(())
}

// Writes the value at the key, if it has one, and returns the one that it had.
fn write(table: &mut Table<NamedDef, u32>, key: NamedDef, value: u32) -> Option<u32> {
    match table.get_mut(&key) {
        None => None,
        Some(place) => {
            let had = *place;
            *place = value;
            Some(had)
        }
    }
}

// The function's value becomes 30 in its place, the other stays, and a key without a value gets none.
#[test]
fn a_value_of_a_table_is_written_in_its_place(rt: HostRuntime) -> Result<(), Fail> {
    let mut table = both(&rt, rt.alloc())?;
    let had = write(&mut table, function(), 30);
    let neither = NamedDef::StructId(StructId::from_raw(0));
    let absent = write(&mut table, neither, 40);
    let holds = has(&table, Some(30), Some(2));
    drop(table);
    assert!(rt; had == Some(3) && absent == None && holds);
    Ok(())
}

fn is_true(value: Option<&bool>) -> bool {
    match value {
        Some(value) => *value,
        None => false,
    }
}

// Whether a table that is given this key, with the value true, has it and not the other key.
fn has_only<K: HasCode + Drop>(
    alloc: Global,
    key: K,
    same: &K,
    other: &K,
) -> Result<bool, AllocError> {
    let mut table = Table::new(alloc);
    table.insert(key, true)?;
    Ok(is_true(table.get(same)) & table.get(other).is_none())
}

fn source(file: u32) -> ExprSource {
    let range = TextRange { start: 2, end: 5 };
    InFile {
        file_id: HirFileId::from_raw(file),
        value: AstPtr::new(SyntaxNodePtr { kind: 9, range }),
    }
}

#[test]
fn every_key_of_ours_serves(rt: HostRuntime) -> Result<(), Fail> {
    let alloc = rt.alloc();
    let id: Idx<Kind> = Idx::from_raw(3);
    let ids = has_only(alloc, id, &id, &Idx::from_raw(4))?;
    let function = FunctionId::from_raw(3);
    let functions = has_only(alloc, function, &function, &FunctionId::from_raw(4))?;
    let sources = has_only(alloc, source(1), &source(1), &source(2))?;
    let body = DefWithBodyId::FunctionId(function);
    let constant = DefWithBodyId::StaticId(StaticId::from_raw(3));
    let bodies = has_only(alloc, body, &body, &constant)?;
    let structure = VariantId::StructId(StructId::from_raw(3));
    let union = VariantId::UnionId(UnionId::from_raw(3));
    let fields = has_only(alloc, structure, &structure, &union)?;
    assert!(rt; ids && functions && sources && bodies && fields);
    Ok(())
}
