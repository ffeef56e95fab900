//! Graphs, each with its roots and the fault that it must have: a further case is one more entry of a table.
//! The ends of roots have a table of their own, and the last test has 1,000,000 nodes.

use crate::edges::{Edge, chain, chain_and_cycle, fault_of, only_exprs};
use hir_forest::ForestFault::{
    Cycle, RootEnds, RootOutOfRange, RootRepeated, RootUnderRoot, SharedChild,
};
use hir_forest::{Ends, ForestFault, Root};
use std::alloc::{AllocError, Global};
use std::test::Fail;

const NO_ENDS: Ends = Ends {
    exprs: 0,
    pats: 0,
    bindings: 0,
};

// Roots that were listed before anything else was there.

const FIRST: Root = Root {
    node: 0,
    ends: NO_ENDS,
};

const SECOND: Root = Root {
    node: 1,
    ends: NO_ENDS,
};

const THIRD: Root = Root {
    node: 2,
    ends: NO_ENDS,
};

const FOURTH: Root = Root {
    node: 3,
    ends: NO_ENDS,
};

const ABSENT: Root = Root {
    node: 9,
    ends: NO_ENDS,
};

const LAST: Root = Root {
    node: 999999,
    ends: NO_ENDS,
};

/// How many nodes there are, all of them expressions, their edges, and the first fault where there are no
/// roots.
type Shape = (u32, &'static [Edge], Option<ForestFault>);

const SHAPES: [Shape; 10] = [
    // Nothing.
    (0, &[], None),
    // No roots.
    (2, &[], None),
    // A child of two.
    (3, &[(0, 2), (1, 2)], Some(SharedChild(2))),
    // A child twice.
    (2, &[(1, 0), (1, 0)], Some(SharedChild(0))),
    // First edge.
    (5, &[(0, 3), (0, 4), (1, 4), (2, 3)], Some(SharedChild(4))),
    // Shared before cycle.
    (1, &[(0, 0), (0, 0)], Some(SharedChild(0))),
    // Its own child.
    (1, &[(0, 0)], Some(Cycle(0))),
    // A cycle of two.
    (2, &[(0, 1), (1, 0)], Some(Cycle(0))),
    // Hanging on a cycle.
    (3, &[(1, 0), (1, 2), (2, 1)], Some(Cycle(0))),
    // Two cycles.
    (5, &[(1, 2), (2, 1), (3, 4), (4, 3)], Some(Cycle(1))),
];

/// How many nodes there are, their edges, how many nodes are expressions, the roots, and the first fault.
type Rooted = (
    usize,
    &'static [Edge],
    u32,
    &'static [Root],
    Option<ForestFault>,
);

const ROOTED: [Rooted; 13] = [
    // A tree.
    (4, &[(0, 1), (0, 2), (3, 0)], 4, &[FOURTH], None),
    // Roots in any order.
    (3, &[(1, 0)], 3, &[THIRD, SECOND], None),
    // Cycle before roots.
    (1, &[(0, 0)], 1, &[ABSENT], Some(Cycle(0))),
    // An absent root.
    (1, &[], 1, &[FIRST, SECOND], Some(RootOutOfRange(1))),
    // No expression.
    (2, &[], 1, &[SECOND], Some(RootOutOfRange(0))),
    (2, &[], 1, &[SECOND, FIRST], Some(RootOutOfRange(0))),
    // Absent covers nothing.
    (2, &[(1, 0)], 1, &[FIRST, SECOND], Some(RootOutOfRange(1))),
    // Listed twice.
    (1, &[], 1, &[FIRST, FIRST], Some(RootRepeated(1))),
    // Under a later root.
    (2, &[(1, 0)], 2, &[FIRST, SECOND], Some(RootUnderRoot(0))),
    // Under an earlier root.
    (2, &[(1, 0)], 2, &[SECOND, FIRST], Some(RootUnderRoot(1))),
    // Far under a root.
    (
        3,
        &[(1, 0), (2, 1)],
        3,
        &[THIRD, FIRST],
        Some(RootUnderRoot(1)),
    ),
    // Under and twice.
    (
        2,
        &[(1, 0)],
        2,
        &[FIRST, FIRST, SECOND],
        Some(RootUnderRoot(0)),
    ),
    // Under no expression.
    (2, &[(1, 0)], 1, &[FIRST], None),
];

#[test]
fn each_graph_has_its_fault(rt: HostRuntime) -> Result<(), Fail> {
    for (at, (count, edges, fault)) in SHAPES.iter().enumerate() {
        let found = fault_of(rt.alloc(), *count as usize, edges, only_exprs(*count), &[])?;
        assert!(rt; found == *fault, "case {at}");
    }
    Ok(())
}

#[test]
fn each_list_of_roots_has_its_fault(rt: HostRuntime) -> Result<(), Fail> {
    for (at, (count, edges, exprs, roots, fault)) in ROOTED.iter().enumerate() {
        let found = fault_of(rt.alloc(), *count, edges, only_exprs(*exprs), roots)?;
        assert!(rt; found == *fault, "case {at}");
    }
    Ok(())
}

/// The lengths of the arenas.
const LENGTHS: Ends = Ends {
    exprs: 3,
    pats: 2,
    bindings: 1,
};

/// The ends of two roots in three nodes, each of expressions, patterns and bindings, and the first fault.
const ENDS: [([u32; 3], [u32; 3], Option<ForestFault>); 9] = [
    ([1, 0, 0], [3, 2, 1], None),
    ([2, 2, 1], [2, 2, 1], None),
    // Past the arenas.
    ([4, 0, 0], [4, 2, 1], Some(RootEnds(0))),
    ([1, 3, 0], [3, 3, 1], Some(RootEnds(0))),
    ([1, 0, 2], [3, 2, 2], Some(RootEnds(0))),
    ([1, 0, 0], [4, 2, 1], Some(RootEnds(1))),
    // Falling.
    ([2, 1, 1], [1, 1, 1], Some(RootEnds(1))),
    ([2, 1, 1], [2, 0, 1], Some(RootEnds(1))),
    ([2, 1, 1], [2, 1, 0], Some(RootEnds(1))),
];

fn ends([exprs, pats, bindings]: [u32; 3]) -> Ends {
    Ends {
        exprs,
        pats,
        bindings,
    }
}

#[test]
fn ends_rise_within_the_arenas(rt: HostRuntime) -> Result<(), Fail> {
    for (first, second, fault) in &ENDS {
        let (first, second) = (ends(*first), ends(*second));
        let roots = [
            Root {
                node: 0,
                ends: first,
            },
            Root {
                node: 1,
                ends: second,
            },
        ];
        let found = fault_of(rt.alloc(), 3, &[], LENGTHS, &roots)?;
        let fit = first.fit(NO_ENDS, LENGTHS) && second.fit(first, LENGTHS);
        assert!(rt; found == *fault && fit == fault.is_none());
    }
    Ok(())
}

#[test]
fn ends_of_a_lone_root_lie_within_the_arenas(rt: HostRuntime) -> Result<(), Fail> {
    for (first, _, _) in &ENDS {
        let first = ends(*first);
        let root = [Root {
            node: 0,
            ends: first,
        }];
        let found = fault_of(rt.alloc(), 3, &[], LENGTHS, &root)?;
        let fault = if first.fit(NO_ENDS, LENGTHS) {
            None
        } else {
            Some(RootEnds(0))
        };
        assert!(rt; found == fault);
    }
    Ok(())
}

/// The first fault of a chain of 1,000,000 nodes, in which each is the only child of the next and whose ends
/// are roots, and of the chain with one node more, which is its own child.
fn faults_of_the_chain(
    alloc: Global,
) -> Result<(Option<ForestFault>, Option<ForestFault>), AllocError> {
    let lengths = only_exprs(1_000_000);
    let chain = chain(alloc, 1_000_000)?.first_fault(alloc, lengths, &[LAST, FIRST])?;
    let cycle = chain_and_cycle(alloc)?.first_fault(alloc, lengths, &[LAST, FIRST])?;
    Ok((chain, cycle))
}

#[test]
fn a_million_nodes_in_a_chain(rt: HostRuntime) -> Result<(), Fail> {
    let found = faults_of_the_chain(rt.alloc())?;
    assert!(rt; found == (Some(RootUnderRoot(1)), Some(Cycle(1_000_000))));
    Ok(())
}
