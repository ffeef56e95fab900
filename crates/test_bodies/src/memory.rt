//! Calls that take memory, without what they give back where an allocation fails. What is said here of any
//! type is proved once, and lays out no type, however large it is.
use hir_collections::{Arena, ExactEq, Seq, TryClone};
use std::alloc::{AllocError, AllocFailed, Global};
use std::fmt::Debug;
use std::test::Fail;

/// What is written in a test for a `T`.
pub trait NodeForm<T> {
    /// What is written.
    fn make(&self, alloc: Global) -> Result<T, AllocError>;
}

pub fn in_a_box<T: Drop>(alloc: Global, value: T) -> Result<Box<T>, AllocError> {
    Ok(Box::new(alloc, value)?)
}

pub fn push<T: Drop>(seq: &mut Seq<T>, item: T) -> Result<(), AllocError> {
    Ok(seq.push(item)?)
}

/// Adds the item, or says why it can't be: without it, where it is given back.
fn add<K, T: Drop>(arena: &mut Arena<K, T>, item: T) -> Result<(), Fail> {
    match arena.alloc(item) {
        Ok(_) => Ok(()),
        Err((fault, _)) => Err(Fail::from(fault)),
    }
}

/// Adds what is written.
pub fn add_all<K, T: Drop, W: NodeForm<T>>(
    arena: &mut Arena<K, T>,
    alloc: Global,
    written: &[W],
) -> Result<(), Fail> {
    for written in written {
        add(arena, written.make(alloc)?)?;
    }
    Ok(())
}

/// The arena of what is written. In a box, so that what is dropped is a pointer.
pub fn arena<K, T: Drop, W: NodeForm<T>>(
    alloc: Global,
    written: &[W],
) -> Result<Box<Arena<K, T>>, Fail> {
    let mut arena = in_a_box(alloc, Arena::new(alloc))?;
    add_all(&mut arena, alloc, written)?;
    Ok(arena)
}

/// The list of what is written.
pub fn list<T: Drop, W: NodeForm<T>>(alloc: Global, written: &[W]) -> Result<Box<Seq<T>>, Fail> {
    let mut list = in_a_box(alloc, Seq::new(alloc))?;
    for written in written {
        push(&mut list, written.make(alloc)?)?;
    }
    Ok(list)
}

/// Whether the value was taken: without it, where it is given back.
pub fn was_taken<T: Drop>(outcome: Result<(), AllocFailed<T>>) -> Result<(), Fail> {
    match outcome {
        Ok(()) => Ok(()),
        Err(failed) => Err(Fail::from(AllocError::from(failed))),
    }
}

/// The first of what was accepted, in a box; without what is given back, where it is refused.
pub fn first<T: Drop, U: Drop, R: Debug + Drop>(
    alloc: Global,
    outcome: Result<(T, U), R>,
) -> Result<Box<T>, Fail> {
    let (first, _) = outcome?;
    Ok(Box::new(alloc, first)?)
}

/// Whether a copy of the value is the same as it.
pub fn copies<T: TryClone + ExactEq + Drop>(value: T) -> Result<bool, AllocError> {
    Ok(value.try_clone()?.is_same(&value))
}
