//! The iterator over the roots of a store.
ghost use Rattle.std.specs.Prelude.{◌≡◌, ⊤, map, length, IfSome, Some};
ghost use Rattle.std.specs.Iterator.{YieldsFirst, YieldsLast, UpTo, at_most, item_count};
ghost use Rattle.std.specs.Iterator.SizeHint.{IsWithinCount};

use hir_forest::Root;
use hir_node::ExprId;
use std::alloc::AllocError;
use std::iter::{ExactSizeIterator, FusedIterator};
use std::marker::Model;

/// An iterator over the roots of a store, modelled as the list of those that are left.
#[derive(Drop)]
pub struct ExprRoots<'a> {
    roots: &'a [Root],
}

impl<'a> Model for ExprRoots<'a> {
    ghost use Rattle.std.specs.Prelude.{List, ℕ};
    ghost use Rattle.hir_forest.specs.Faults.{root_nodes};

    ghost Value = { List ℕ };

    ghost view = { λ it. root_nodes it.roots.now };
}

impl<'a> ExprRoots<'a> {
    ghost use Rattle.hir_forest.specs.Faults.{root_nodes};

    pub(crate) fn new(roots: &'a [Root]) -> ExprRoots<'a>
        ensures { result ≡ root_nodes roots.now }
    {
        ExprRoots { roots }
    }
}

impl<'a> Clone for ExprRoots<'a> {
    ghost is_clone = { λ it copy. copy ≡ it };

    ghost is_infallible = { λ _. ⊤ };

    fn clone(&self) -> Result<Self, AllocError> {
        Ok(ExprRoots { roots: self.roots })
    }
}

impl<'a> Iterator for ExprRoots<'a> {
    type Item = ExprId;

    ghost next_gives = { YieldsFirst (λ rest. rest) };

    ghost remaining = { item_count (λ rest. rest) };

    fn next(&mut self) -> Option<ExprId> {
        let (root, rest) = self.roots.split_first()?;
        self.roots = rest;
        Some(ExprId::from_raw(root.node))
    }

    fn size_hint(&self) -> (usize, Option<usize>)
        ensures lower { IsWithinCount result.0 (at_most (length self.now)) }
        ensures upper { IfSome result.1 (UpTo (at_most (length self.now))) }
        ensures exact { result ≡ (length self.now, Some (length self.now)) }
    {
        let len = self.roots.len();
        (len, Some(len))
    }
}

impl<'a> DoubleEndedIterator for ExprRoots<'a> {
    ghost next_back_gives = { YieldsLast (λ rest. rest) };

    fn next_back(&mut self) -> Option<ExprId> {
        let (root, rest) = self.roots.split_last()?;
        self.roots = rest;
        Some(ExprId::from_raw(root.node))
    }
}

impl<'a> ExactSizeIterator for ExprRoots<'a> {
    fn len(&self) -> usize {
        self.roots.len()
    }
}

impl<'a> FusedIterator for ExprRoots<'a> {}
