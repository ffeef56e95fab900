//! The parent of each node of a graph, in 32 bits a node if there are at most `u32::MAX` nodes.

ghost use Rattle.std.specs.Prelude.{◌≡◌, ◌<◌, [], None, Some, length, replicate, IfOk, IfSome, slice_index_or, set};
ghost use Rattle.hir_forest.specs.internal.Parents.{parent_of};

use std::alloc::{AllocError, Global};
use std::marker::Model;

/// A number for each node: 0 if it has no parent, else one more than the number of its parent.
#[derive(Drop, Clone)]
enum Numbers {
    Narrow(Vec<u32>),
    Wide(Vec<usize>),
}

/// The parent of each node that has one. It is modelled as the list of the nodes' parents.
#[derive(Drop)]
pub(crate) struct ParentTable {
    numbers: Numbers,
}

impl Model for ParentTable {
    ghost use Rattle.std.specs.Prelude.{ℕ, List, Option};
    ghost use Rattle.hir_forest.specs.internal.Parents.{parents_in, AreSound};

    ghost Value = { List (Option ℕ) };

    ghost view = { λ t. parents_in t.numbers };

    ghost invariant = { λ t. AreSound t.numbers };
}

impl ParentTable {
    /// Returns the table of the given number of nodes, none of which has a parent.
    pub(crate) fn new(alloc: Global, nodes: usize) -> Result<ParentTable, AllocError>
        ensures { IfOk result (λ table. table ≡ replicate nodes None) }
    {
        if nodes <= u32::MAX as usize {
            return Ok(ParentTable {
                numbers: Numbers::Narrow(vec![in alloc; 0; nodes]?),
            });
        }
        Ok(ParentTable {
            numbers: Numbers::Wide(vec![in alloc; 0; nodes]?),
        })
    }

    /// Returns the table of no nodes. It takes no memory.
    pub(crate) fn empty(alloc: Global) -> ParentTable
        ensures { result ≡ [] }
    {
        ParentTable {
            numbers: Numbers::Narrow(Vec::new(alloc)),
        }
    }

    /// Returns the number of nodes.
    pub(crate) fn len(&self) -> usize
        ensures { result ≡ length self.now }
    {
        match &self.numbers {
            Numbers::Narrow(numbers) => numbers.len(),
            Numbers::Wide(numbers) => numbers.len(),
        }
    }

    /// Returns the parent of a node.
    pub(crate) fn parent(&self, node: usize) -> Option<usize>
        requires { node < length self.now }
        ensures parent { result ≡ slice_index_or self.now node None }
        ensures within { IfSome result (λ p. p < length self.now) }
    {
        match &self.numbers {
            Numbers::Narrow(numbers) => node_of(numbers[node] as usize),
            Numbers::Wide(numbers) => node_of(numbers[node]),
        }
    }

    /// Makes one node the parent of another.
    pub(crate) fn set_parent(&mut self, node: usize, parent: usize)
        requires node { node < length self.old }
        requires parent { parent < length self.old }
        ensures { self.new ≡ set self.old node (Some parent) }
    {
        match &mut self.numbers {
            Numbers::Narrow(numbers) => numbers[node] = (parent + 1) as u32,
            Numbers::Wide(numbers) => numbers[node] = parent + 1,
        }
    }
}

impl Clone for ParentTable {
    ghost is_clone = { λ table copy. copy ≡ table };

    fn clone(&self) -> Result<ParentTable, AllocError> {
        Ok(ParentTable {
            numbers: self.numbers.clone()?,
        })
    }
}

/// Returns the node that a number of the table stands for.
fn node_of(number: usize) -> Option<usize>
    ensures { result ≡ parent_of number }
{
    if number == 0 {
        return None;
    }
    Some(number - 1)
}
