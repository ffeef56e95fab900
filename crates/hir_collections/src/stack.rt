//! A stack of work that is still to do. Items that are put on it as a group are popped in the order in which
//! they were put.
#![tactic(auto)]

ghost use Rattle.std.specs.Prelude.{◌≡◌, ◌≤◌, List, [], ◌∷◌, ◌++◌, true, false, IfOk, IfSome, IsOk, None, OnErr, OnOk, drop, length, reverse, take};
ghost use Rattle.hir_collections.specs.Stacks.{StackItems, Defers};

use std::alloc::{AllocError, Global};
use std::marker::Model;

/// A stack, modelled as its items, the top first, and whether an allocation failed for one that was put
/// there.
#[derive(Drop)]
pub struct Stack<T> {
    items: Vec<T>,
    refused: Option<AllocError>,
}

impl<T> Model for Stack<T> {
    ghost use Rattle.std.specs.Prelude.{is_some, reverse};
    ghost use Rattle.hir_collections.specs.Stacks.{StackItems};

    ghost Value = { StackItems T };

    ghost view = { λ s. record { items = reverse s.items.items; refused = is_some s.refused } };
}

/// Reverses the items from this index on.
fn reverse_from<T>(items: &mut [T], from: usize)
    requires { from ≤ length items.old }
    ensures { items.new ≡ take from items.old ++ reverse (drop from items.old) }
{
    items[from..].reverse();
}

impl<T> Stack<T> {
    /// Returns an empty stack, which allocates from `alloc` once an item comes.
    pub fn new(alloc: Global) -> Stack<T>
        ensures { result ≡ record { items = []; refused = false } }
    {
        Stack {
            items: Vec::new(alloc),
            refused: None,
        }
    }

    /// Returns an empty stack with room for `capacity` items.
    ///
    /// Fails with `AllocError` where the allocation fails.
    pub fn with_capacity(alloc: Global, capacity: usize) -> Result<Stack<T>, AllocError>
        ensures ok { IfOk result (λ stack. stack ≡ record { items = []; refused = false }) }
        ensures none_wanted { capacity ≡ 0 → IsOk result }
    {
        Ok(Stack {
            items: Vec::with_capacity(alloc, capacity)?,
            refused: None,
        })
    }

    /// Returns the number of items.
    pub fn len(&self) -> usize
        ensures { result ≡ length self.now.items }
    {
        self.items.len()
    }

    /// Pushes an item.
    ///
    /// Fails with `AllocError` where an allocation fails: nothing has changed then.
    pub fn push(&mut self, item: T) -> Result<(), AllocError>
    where
        T: Drop,
        ensures ok { OnOk result (self.new.items ≡ item ∷ self.old.items) }
        ensures err { OnErr result (self.new ≡ self.old) }
        ensures same { self.new.refused ≡ self.old.refused }
    {
        self.items.push(item)?;
        Ok(())
    }

    /// Pushes an item as one of a group, which `push_deferred` then reverses. Where an allocation fails,
    /// `push_deferred` fails.
    pub fn defer(&mut self, item: T)
    where
        T: Drop,
        ensures { Defers self.old (item ∷ []) self.new }
    {
        if let Err(refused) = self.items.push(item) {
            self.refused = Some(refused.into());
        }
    }

    /// Reverses all items but the lowest `below`, so that of what was put on these the first is on top.
    ///
    /// Fails with `AllocError` where the allocation for an item that was put failed, and fails again when it
    /// is called again: nothing has changed then, and the stack is of no use.
    pub fn push_deferred(&mut self, below: usize) -> Result<(), AllocError>
        ensures ok { OnOk result ((before : StackItems T) (items : List T)
            → length before.items ≡ below → Defers before items self.old
            → self.new ≡ record { items = items ++ before.items; refused = false }) }
        ensures err { OnErr result ((self.old.refused ≡ true) × (self.new ≡ self.old)) }
    {
        match self.refused {
            Some(refused) => Err(refused),
            None => {
                if below < self.items.len() {
                    reverse_from(&mut self.items, below);
                }
                Ok(())
            }
        }
    }

    /// Pops the top, where there is one.
    pub fn pop(&mut self) -> Option<T>
        ensures some { IfSome result (λ item. self.old.items ≡ item ∷ self.new.items) }
        ensures none { result ≡ None → self.old.items ≡ [] }
        ensures empty { result ≡ None → self.new.items ≡ [] }
        ensures same { self.new.refused ≡ self.old.refused }
    {
        self.items.pop()
    }
}
