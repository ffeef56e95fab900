//! Tests of values of many types: that a copy is the same, that others are not, and that same values hash
//! alike.
use hir_base::{ExternAbi, ModPath, Name, PathKind};
use hir_collections::{ExactEq, Seq, Text, TryClone};
use std::alloc::{AllocError, Global};
use std::hash::{DefaultHasher, Hash, Hasher};
use std::test::Fail;

/// Whether a copy of the value is the same as it.
pub fn copies<T: TryClone + ExactEq + Drop>(value: &T) -> Result<bool, AllocError> {
    let copy = value.try_clone()?;
    Ok(copy.is_same(value))
}

// Whether the value is copied, and is another than this one.
fn is_apart<T: TryClone + ExactEq + Drop>(value: T, other: T) -> Result<bool, AllocError> {
    let copies = copies(&value)?;
    Ok(copies & !value.is_same(&other))
}

// Whether both values could be made, a copy of the first is the same, and the second is not.
fn both_are_apart<T: TryClone + ExactEq + Drop>(
    value: Result<T, AllocError>,
    other: Result<T, AllocError>,
) -> Result<bool, AllocError> {
    is_apart(value?, other?)
}

fn numbers_are_apart() -> Result<bool, AllocError> {
    let small = is_apart(1u8, 2)? && is_apart(1u16, 2)? && is_apart(1u32, 2)?;
    let large = is_apart(1u64, 2)? && is_apart(1usize, 2)? && is_apart(1u128, 2)?;
    Ok(small && large && is_apart(1i128, -1)?)
}

fn others_are_apart() -> Result<bool, AllocError> {
    let plain = is_apart(true, false)? && is_apart('s', 'ß')? && copies(&())?;
    let joined = is_apart(Some(0u32), None)? && is_apart((1u32, true), (1, false))?;
    Ok(plain && joined)
}

#[test]
fn plain_values_are_compared_and_copied(rt: HostRuntime) -> Result<(), Fail> {
    assert!(rt; numbers_are_apart()?);
    assert!(rt; others_are_apart()?);
    let text = Text::from_str(rt.alloc(), "größe");
    assert!(rt; both_are_apart(text, Text::from_str(rt.alloc(), "große"))?);
    Ok(())
}

fn hash_of<T: Hash>(value: &T) -> u64 {
    let mut state = DefaultHasher::new();
    value.hash(&mut state);
    state.finish()
}

/// Whether the two values are equal and hash alike. They come as they were made: where their type is any
/// type, they aren't laid out.
pub fn alike<T: Hash + Drop, E: Drop>(one: Result<T, E>, second: Result<T, E>) -> Result<bool, E> {
    let one = one?;
    let second = second?;
    Ok(one == second && hash_of(&one) == hash_of(&second))
}

// The list with the item after it, if both could be made. It is said of any type: each `?` beside which
// something is owned is dear to prove.
fn with<T: Drop>(
    list: Result<Seq<T>, AllocError>,
    item: Result<T, AllocError>,
) -> Result<Seq<T>, AllocError> {
    let mut list = list?;
    list.push(item?)?;
    Ok(list)
}

/// The path of these names after this kind.
pub fn path(alloc: Global, kind: PathKind, texts: &[&str]) -> Result<ModPath, AllocError> {
    let mut names = Ok(Seq::new(alloc));
    for text in texts {
        names = with(names, Name::new(alloc, text));
    }
    Ok(ModPath::from_segments(alloc, kind, names?)?)
}

// `größe`, of the name alone
fn ident(alloc: Global) -> Result<ModPath, AllocError> {
    Ok(ModPath::from_name(Name::new(alloc, "größe")?))
}

fn named_abi(alloc: Global) -> Result<ExternAbi, AllocError> {
    Ok(ExternAbi::Named(Text::from_str(alloc, "efiapi")?))
}

// A path hashes the list of its names, and these their texts.
#[test]
fn same_values_hash_alike(rt: HostRuntime) -> Result<(), Fail> {
    let alloc = rt.alloc();
    let kind = PathKind::Super(2);
    let texts = ["größe"];
    assert!(rt; alike(path(alloc, kind, &texts), path(alloc, kind, &texts))?);
    assert!(rt; alike(ident(alloc), path(alloc, PathKind::Plain, &texts))?);
    assert!(rt; alike(named_abi(alloc), named_abi(alloc))?);
    Ok(())
}
