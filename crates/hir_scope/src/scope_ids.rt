//! The iterator over the ids of all scopes.
ghost use Rattle.std.specs.Iterator.{YieldsFirst, item_count};

use crate::scope::ScopeId;
use std::iter::FusedIterator;
use std::marker::Model;

/// The ids of scopes, in the order in which the scopes were made, modelled as the list of those that are
/// left.
#[derive(Drop)]
pub struct ScopeIds {
    pub(crate) next: u32,
    pub(crate) end: u32,
}

impl Model for ScopeIds {
    ghost use Rattle.std.specs.Prelude.{List, ℕ, ◌-◌};
    ghost use Rattle.std.specs.List.{range_with_len};

    ghost Value = { List ℕ };

    ghost view = { λ it. range_with_len it.next (it.end - it.next) };
}

impl Iterator for ScopeIds {
    type Item = ScopeId;

    ghost next_gives = { YieldsFirst (λ rest. rest) };

    ghost remaining = { item_count (λ rest. rest) };

    fn next(&mut self) -> Option<ScopeId> {
        if self.next >= self.end {
            return None;
        }
        let scope = ScopeId::from_raw(self.next);
        self.next += 1;
        Some(scope)
    }
}

impl FusedIterator for ScopeIds {}
