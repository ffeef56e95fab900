//! The descendants of marked nodes.

use crate::edges::{Edge, chain, parents_of};
use std::alloc::{AllocError, Global};
use std::test::Fail;

const TREE: [Edge; 4] = [(1, 0), (2, 1), (2, 3), (4, 5)];

const I: bool = true;

const O: bool = false;

/// Which nodes of the tree are marked, and which lie properly under a marked one.
const MARKS: [([bool; 6], [bool; 6]); 5] = [
    ([O, O, I, O, O, O], [I, I, O, I, O, O]),
    ([O, I, I, O, O, O], [I, I, O, I, O, O]),
    ([O, I, O, O, I, O], [I, O, O, O, O, I]),
    ([I, O, O, I, O, I], [O, O, O, O, O, O]),
    ([O, O, O, O, O, O], [O, O, O, O, O, O]),
];

/// Whether these nodes of the tree lie under the marked ones.
fn are_under(alloc: Global, marked: &[bool], nodes: &[bool]) -> Result<bool, Fail> {
    if marked.len() != 6 {
        return Err("a mark has no node".into());
    }
    let parents = parents_of(alloc, 6, &TREE)?;
    let under = parents.under_marked(alloc, marked)?;
    Ok(under.as_slice() == nodes)
}

#[test]
fn nodes_lie_under_marked_ones(rt: HostRuntime) -> Result<(), Fail> {
    for (marks, nodes) in &MARKS {
        let are_under = are_under(rt.alloc(), marks, nodes)?;
        assert!(rt; are_under, "under {marks:?}");
    }
    Ok(())
}

/// How many nodes of a chain of 1,000,000 lie under its last one, which has no parent.
fn under_the_top_of_the_chain(alloc: Global) -> Result<usize, AllocError> {
    let mut marked = vec![in alloc; false; 1_000_000]?;
    marked[999_999] = true;
    let under = chain(alloc, 1_000_000)?.under_marked(alloc, &marked)?;
    Ok(under.iter().filter(|is_under| **is_under).count())
}

#[test]
fn a_million_nodes_lie_under_the_top_of_their_chain(rt: HostRuntime) -> Result<(), Fail> {
    let under = under_the_top_of_the_chain(rt.alloc())?;
    assert!(rt; under == 999_999);
    Ok(())
}
