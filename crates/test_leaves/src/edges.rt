//! The parents of graphs, noted edge by edge, and what is asked of them.

ghost use Rattle.std.specs.Prelude.{◌≡◌, ◌+◌, ◌<◌, ◌≤◌, length, IfOk};

use hir_forest::{Ends, ForestFault, Parents, Root};
use std::alloc::{AllocError, Global};
use std::test::Fail;

/// A node and a child of it.
pub type Edge = (usize, usize);

/// Notes the edge in the last row, that of this node, where it begins there. An edge to what is no node is
/// left out.
fn add_edge(parents: &mut Parents, node: usize, count: usize, edge: &Edge)
    requires nodes { length parents.old.parents ≡ count }
    requires some { 0 < parents.old.rows }
    ensures nodes { length parents.new.parents ≡ count }
    ensures rows { parents.new.rows ≡ parents.old.rows }
{
    let (parent, child) = *edge;
    if parent == node && child < count {
        parents.push_child(child);
    }
}

/// Notes one more row of so many, with the children that the edges give this node.
fn add_row(parents: &mut Parents, node: usize, count: usize, edges: &[Edge])
    requires nodes { length parents.old.parents ≡ count }
    requires rows { parents.old.rows + 1 ≤ count }
    ensures nodes { length parents.new.parents ≡ count }
    ensures rows { parents.new.rows ≡ parents.old.rows + 1 }
{
    parents.begin_row();
    for edge in edges {
        add_edge(parents, node, count, edge);
    }
}

/// The parents of a graph of so many nodes with these edges.
pub fn parents_of(alloc: Global, count: usize, edges: &[Edge]) -> Result<Parents, AllocError>
    ensures nodes { IfOk result (λ parents. length parents.parents ≡ count) }
    ensures rows { IfOk result (λ parents. parents.rows ≡ count) }
{
    let mut parents = Parents::new(alloc, count)?;
    for node in 0..count {
        add_row(&mut parents, node, count, edges);
    }
    Ok(parents)
}

/// Notes the row of the next node of a chain, whose only child is the node before it.
fn add_link(parents: &mut Parents, node: usize)
    requires node { parents.old.rows ≡ node }
    requires room { node < length parents.old.parents }
    ensures nodes { length parents.new.parents ≡ length parents.old.parents }
    ensures rows { parents.new.rows ≡ node + 1 }
{
    parents.begin_row();
    if node > 0 {
        parents.push_child(node - 1);
    }
}

/// Notes a chain of so many nodes, in which each is the only child of the next.
fn add_chain(parents: &mut Parents, count: usize)
    requires nodes { count ≤ length parents.old.parents }
    requires none { parents.old.rows ≡ 0 }
    ensures nodes { length parents.new.parents ≡ length parents.old.parents }
    ensures rows { parents.new.rows ≡ count }
{
    for node in 0..count {
        add_link(parents, node);
    }
}

/// The parents of a chain of so many nodes, in which each is the only child of the next.
pub fn chain(alloc: Global, count: usize) -> Result<Parents, AllocError>
    ensures nodes { IfOk result (λ parents. length parents.parents ≡ count) }
    ensures rows { IfOk result (λ parents. parents.rows ≡ count) }
{
    let mut parents = Parents::new(alloc, count)?;
    add_chain(&mut parents, count);
    Ok(parents)
}

/// The parents of a chain of 1,000,000 nodes and of one node more, which is its own child.
pub fn chain_and_cycle(alloc: Global) -> Result<Parents, AllocError>
    ensures nodes { IfOk result (λ parents. length parents.parents ≡ 1000001) }
    ensures rows { IfOk result (λ parents. parents.rows ≡ 1000001) }
{
    let mut parents = Parents::new(alloc, 1_000_001)?;
    add_chain(&mut parents, 1_000_000);
    parents.begin_row();
    parents.push_child(1_000_000);
    Ok(parents)
}

/// So many expressions and nothing else.
pub fn only_exprs(exprs: u32) -> Ends
    ensures { result.exprs ≡ exprs }
{
    Ends {
        exprs,
        pats: 0,
        bindings: 0,
    }
}

/// The first fault of a graph and its roots.
pub fn fault_of(
    alloc: Global,
    count: usize,
    edges: &[Edge],
    lengths: Ends,
    roots: &[Root],
) -> Result<Option<ForestFault>, Fail> {
    if lengths.exprs as usize > count {
        return Err("an expression has no row".into());
    }
    let parents = parents_of(alloc, count, edges)?;
    Ok(parents.first_fault(alloc, lengths, roots)?)
}
