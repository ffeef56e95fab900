//! The iterator over a scope and those around it.
ghost use Rattle.std.specs.Iterator.{YieldsFirst, item_count};

use crate::expr_scopes::ExprScopes;
use crate::scope::ScopeId;
use std::iter::FusedIterator;
use std::marker::Model;

/// A scope and those around it, innermost first, modelled as the list of those that are left.
#[derive(Drop)]
pub struct ScopeChain<'a> {
    pub(crate) scopes: &'a ExprScopes,
    pub(crate) next: Option<ScopeId>,
}

impl<'a> Model for ScopeChain<'a> {
    ghost use Rattle.std.specs.Prelude.{List, ℕ};
    ghost use Rattle.hir_scope.specs.Scopes.{ScopeIsInRange};
    ghost use Rattle.hir_scope.specs.Paths.{path};

    ghost Value = { List ℕ };

    ghost view = { λ it. path it.scopes.now.scopes it.next };

    ghost invariant = { λ it. ScopeIsInRange it.scopes.now.scopes it.next };
}

impl<'a> Iterator for ScopeChain<'a> {
    type Item = ScopeId;

    ghost next_gives = { YieldsFirst (λ rest. rest) };

    ghost remaining = { item_count (λ rest. rest) };

    fn next(&mut self) -> Option<ScopeId> {
        let scope = self.next?;
        self.next = self.scopes.parent(scope);
        Some(scope)
    }
}

impl<'a> FusedIterator for ScopeChain<'a> {}
