//! An iterator over the child patterns of a pattern: only this file of the code lists them.
ghost use Rattle.std.specs.Prelude.{◌≡◌, ⊤};
ghost use Rattle.std.specs.Iterator.{YieldsFirst, item_count};

use crate::pat::{Pat, RecordFieldPat};
use hir_path::PatId;
use std::alloc::AllocError;
use std::iter::FusedIterator;
use std::marker::Model;

/// An iterator over the child patterns of a pattern. It is modelled as the list of those that are left.
///
/// It yields what a pattern holds in this order: a list, the fields of a record, one pattern, another list.
/// Each may be absent or empty.
#[derive(Drop)]
pub struct ChildPats<'a> {
    front: &'a [PatId],
    fields: &'a [RecordFieldPat],
    middle: Option<PatId>,
    back: &'a [PatId],
}

impl<'a> Model for ChildPats<'a> {
    ghost use Rattle.std.specs.Prelude.{ℕ, List, ◌++◌, map};
    ghost use Rattle.std.specs.Option.{option_to_list};

    ghost Value = { List ℕ };

    ghost view = { λ it. it.front.now
        ++ (map (λ field. field.pat) it.fields.now ++ (option_to_list it.middle ++ it.back.now)) };
}

impl<'a> Clone for ChildPats<'a> {
    ghost is_clone = { λ it copy. copy ≡ it };

    ghost is_infallible = { λ _. ⊤ };

    fn clone(&self) -> Result<Self, AllocError> {
        Ok(ChildPats {
            front: self.front,
            fields: self.fields,
            middle: self.middle,
            back: self.back,
        })
    }
}

impl<'a> Iterator for ChildPats<'a> {
    type Item = PatId;

    ghost next_gives = { YieldsFirst (λ rest. rest) };

    ghost remaining = { item_count (λ rest. rest) };

    fn next(&mut self) -> Option<PatId> {
        if let Some((first, rest)) = self.front.split_first() {
            self.front = rest;
            return Some(*first);
        }
        if let Some((first, rest)) = self.fields.split_first() {
            self.fields = rest;
            return Some(first.pat);
        }
        if let Some(middle) = self.middle.take() {
            return Some(middle);
        }
        let (first, rest) = self.back.split_first()?;
        self.back = rest;
        Some(*first)
    }
}

impl<'a> FusedIterator for ChildPats<'a> {}

impl Pat {
    ghost use Rattle.hir_node.specs.ChildCalls.{child_pats};

    /// Returns the patterns that this one names, in the order of the child calls. It takes no memory.
    pub fn child_pats(&self) -> ChildPats<'_>
        ensures { result ≡ child_pats self.now }
    {
        let mut children = ChildPats {
            front: &[],
            fields: &[],
            middle: None,
            back: &[],
        };
        // Each field is named, so that a new one can't be overlooked.
        match self {
            Pat::Missing | Pat::Rest | Pat::Wild | Pat::NotNull => {}
            Pat::Range {
                start: _,
                end: _,
                range_type: _,
            } => {}
            Pat::Lit(_) | Pat::Expr(_) => {}
            Pat::Path(_) => {}
            Pat::Or(args) => children.front = args.as_slice(),
            Pat::Tuple { args, ellipsis: _ } => children.front = args.as_slice(),
            Pat::TupleStruct {
                path: _,
                args,
                ellipsis: _,
            } => children.front = args.as_slice(),
            Pat::Record {
                path: _,
                args,
                ellipsis: _,
            } => children.fields = args.as_slice(),
            Pat::Slice {
                prefix,
                slice,
                suffix,
            } => {
                children.front = prefix.as_slice();
                children.middle = *slice;
                children.back = suffix.as_slice();
            }
            Pat::Bind { id: _, subpat } => children.middle = *subpat,
            Pat::Ref { pat, mutability: _ } => children.middle = Some(*pat),
            Pat::Box { inner } | Pat::Deref { inner } => children.middle = Some(*inner),
        }
        children
    }
}
