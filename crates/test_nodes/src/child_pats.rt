//! The iterator over child patterns, and its copy.
use crate::build;
use hir_collections::{Idx, ShortList};
use hir_node::{ChildPats, Pat};
use std::alloc::{AllocError, Global};
use std::mem::drop;
use std::test::Fail;

// Whether what is left are these patterns.
fn are_left(left: ChildPats<'_>, wanted: &[u32]) -> bool {
    let mut rest = wanted;
    for id in left {
        match rest.split_first() {
            Some((first, others)) if *first == id.into_raw() => rest = others,
            _ => return false,
        }
    }
    rest.is_empty()
}

// The patterns 1 and 3, and between them the rest by pattern 2.
fn slice(alloc: Global) -> Result<Pat, AllocError> {
    let prefix = ShortList::from_slice(alloc, &[Idx::from_raw(1)]);
    let suffix = ShortList::from_slice(alloc, &[Idx::from_raw(3)]);
    match build::zip_ok(prefix, suffix) {
        Ok((prefix, suffix)) => Ok(Pat::Slice {
            prefix,
            slice: Some(Idx::from_raw(2)),
            suffix,
        }),
        Err(error) => Err(error),
    }
}

// Whether after the first child pattern the iterator and a copy of it have the same ones left, and then none.
fn copy_goes_on(pat: &Pat) -> Result<bool, AllocError> {
    let mut left = pat.child_pats();
    let first = left.next();
    let copy = left.clone()?;
    Ok(first == Some(Idx::from_raw(1)) && are_left(copy, &[2, 3]) && are_left(left, &[2, 3]))
}

#[test]
fn a_copy_has_the_child_patterns_that_are_left(rt: HostRuntime) -> Result<(), Fail> {
    let pat = slice(rt.alloc())?;
    let holds = copy_goes_on(&pat);
    drop(pat);
    assert!(rt; holds?);
    Ok(())
}
