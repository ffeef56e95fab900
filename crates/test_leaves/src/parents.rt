//! Parents that are noted edge by edge have the first fault that those of the same rows have, and say who has
//! none.

ghost use Rattle.std.specs.Prelude.{◌≡◌, length, IfOk};

use hir_forest::ForestFault::RootUnderRoot;
use hir_forest::{Ends, ForestFault, Parents, Root};
use std::alloc::{AllocError, Global};
use std::test::Fail;

const THREE: Ends = Ends {
    exprs: 3,
    pats: 0,
    bindings: 0,
};

/// The parents of a chain of three nodes, in which node 0 has child 1 and node 1 has child 2.
fn chain(alloc: Global) -> Result<Parents, AllocError>
    ensures rows { IfOk result (λ parents. parents.rows ≡ length parents.parents) }
    ensures nodes { IfOk result (λ parents. length parents.parents ≡ 3) }
{
    let mut parents = Parents::new(alloc, 3)?;
    parents.begin_row();
    parents.push_child(1);
    parents.begin_row();
    parents.push_child(2);
    parents.begin_row();
    Ok(parents)
}

/// The first fault of the chain.
fn fault_of_the_chain(alloc: Global, roots: &[Root]) -> Result<Option<ForestFault>, AllocError> {
    chain(alloc)?.first_fault(alloc, THREE, roots)
}

#[test]
fn a_chain_is_noted(rt: HostRuntime) -> Result<(), Fail> {
    let top = Root {
        node: 0,
        ends: THREE,
    };
    let last = Root {
        node: 2,
        ends: THREE,
    };
    assert!(rt; fault_of_the_chain(rt.alloc(), &[top])? == None);
    assert!(rt; fault_of_the_chain(rt.alloc(), &[top, last])? == Some(RootUnderRoot(1)));
    Ok(())
}

#[test]
fn the_top_has_no_parent(rt: HostRuntime) -> Result<(), Fail> {
    let parents = chain(rt.alloc())?;
    let top = parents.marked_have_none(&[true, false, false]);
    let middle = parents.marked_have_none(&[true, true, false]);
    let last = parents.marked_have_none(&[false, false, true]);
    let nobody = parents.marked_have_none(&[false, false, false]);
    assert!(rt; (top, middle, last, nobody) == (true, false, false, true));
    Ok(())
}

#[test]
fn a_clone_has_the_same_parents(rt: HostRuntime) -> Result<(), Fail> {
    let copy = chain(rt.alloc())?.clone()?;
    let top = copy.marked_have_none(&[true, false, false]);
    let last = copy.marked_have_none(&[false, false, true]);
    assert!(rt; (top, last) == (true, false));
    Ok(())
}

#[test]
fn no_nodes_have_no_parents(rt: HostRuntime) -> Result<(), Fail> {
    let nobody = Parents::none(rt.alloc()).marked_have_none(&[]);
    assert!(rt; nobody);
    Ok(())
}
