//! Walks that can stop: over the patterns of a pattern and over the child expressions of an expression, up to
//! the first that a closure refuses. They take no memory and don't recurse: patterns are walked by turns, and
//! no expression, type or path is entered.
#![tactic(auto, using(crate::proofs::TryLemmas::tries))]

ghost use Rattle.std.specs.Prelude.{◌≡◌, ◌<◌, IsTrue, length};
ghost use Rattle.hir_validate.specs.Sizes.{is_in_range};
ghost use Rattle.hir_validate.specs.Nodes.{sizes_of};
ghost use Rattle.hir_store_core.specs.PatLists.{pats, bindings_in, exprs_from, exprs_in, child_exprs, child_exprs_without_pats};
ghost use Rattle.hir_store_core.specs.Tries.{Tries};
ghost use Rattle.hir_store_core.specs.internal.Tries.{TriesAfter};

use crate::own_exprs::OwnExprs;
use crate::pat_visitors::{BindingVisitor, ExprsLeft, PatVisitor};
use crate::store::ExpressionStore;
use hir_node::{BindingId, ExprId, LifetimeRefId, PatId, StoreVisitor, TypeRefId};

impl ExpressionStore {
    /// Runs the closure on what `walk_pats` does, up to the first pattern that it refuses, and returns this
    /// refusal.
    pub fn try_walk_pats<E, F: FnMut(PatId) -> Result<(), E>>(
        &self,
        id: PatId,
        f: &mut F,
    ) -> Result<(), E>
        requires in_range { id < length self.now.nodes.pats }
        requires callable { F.IsAlwaysCallable f.old }
        ensures runs { Tries F.step f.old (pats self.now.nodes id) result f.new }
        ensures callable { F.IsAlwaysCallable f.new }
    {
        self.has_no_fault();
        let mut entered = PatVisitor { f: &mut *f };
        self.walk_turns(id, &mut entered)
    }

    /// Runs the closure on what `walk_bindings_in_pat` does, up to the first binding that it refuses, and
    /// returns this refusal.
    pub fn try_walk_bindings_in_pat<E, F: FnMut(BindingId) -> Result<(), E>>(
        &self,
        id: PatId,
        f: &mut F,
    ) -> Result<(), E>
        requires in_range { id < length self.now.nodes.pats }
        requires callable { F.IsAlwaysCallable f.old }
        ensures runs { Tries F.step f.old (bindings_in self.now.nodes id) result f.new }
        ensures callable { F.IsAlwaysCallable f.new }
    {
        self.has_no_fault();
        let mut entered = BindingVisitor {
            store: self,
            f: &mut *f,
        };
        self.walk_turns(id, &mut entered)
    }

    /// Runs the closure on what `walk_exprs_in_pat` does, up to the first expression that it refuses, and
    /// returns this refusal.
    pub fn try_walk_exprs_in_pat<E: Drop, F: FnMut(ExprId) -> Result<(), E>>(
        &self,
        id: PatId,
        f: &mut F,
    ) -> Result<(), E>
        requires in_range { id < length self.now.nodes.pats }
        requires callable { F.IsAlwaysCallable f.old }
        ensures runs { Tries F.step f.old (exprs_in self.now.nodes id) result f.new }
        ensures callable { F.IsAlwaysCallable f.new }
    {
        self.has_no_fault();
        let mut left = ExprsLeft {
            store: self,
            f: &mut *f,
        };
        self.walk_turns(id, &mut left)
    }

    /// Runs the closure on what `walk_child_exprs` does, up to the first expression that it refuses, and
    /// returns this refusal.
    pub fn try_walk_child_exprs<E: Drop, F: FnMut(ExprId) -> Result<(), E>>(
        &self,
        id: ExprId,
        f: &mut F,
    ) -> Result<(), E>
        requires in_range { id < length self.now.nodes.exprs }
        requires callable { F.IsAlwaysCallable f.old }
        ensures runs { Tries F.step f.old (child_exprs self.now.nodes id) result f.new }
        ensures callable { F.IsAlwaysCallable f.new }
    {
        self.has_no_fault();
        let mut answer = Ok(());
        let mut children = ChildExprs {
            store: self,
            f: &mut *f,
            answer: &mut answer,
        };
        self.visit_expr_children(id, &mut children);
        answer
    }

    /// Runs the closure on what `walk_child_exprs_without_pats` does, up to the first expression that it
    /// refuses, and returns this refusal.
    pub fn try_walk_child_exprs_without_pats<E: Drop, F: FnMut(ExprId) -> Result<(), E>>(
        &self,
        id: ExprId,
        f: &mut F,
    ) -> Result<(), E>
        requires in_range { id < length self.now.nodes.exprs }
        requires callable { F.IsAlwaysCallable f.old }
        ensures runs { Tries F.step f.old (child_exprs_without_pats self.now.nodes id) result f.new }
        ensures callable { F.IsAlwaysCallable f.new }
    {
        let mut answer = Ok(());
        let mut own = OwnExprs {
            f: &mut *f,
            answer: &mut answer,
        };
        self.visit_expr_children(id, &mut own);
        answer
    }
}

/// Runs a closure on each expression, each anonymous constant, and the expressions of each pattern, and on
/// none after a refusal.
#[derive(Drop)]
struct ChildExprs<'s, 'f, 'a, F, E> {
    store: &'s ExpressionStore,
    f: &'f mut F,
    answer: &'a mut Result<(), E>,
}

impl<E: Drop, F: FnMut(ExprId) -> Result<(), E>> StoreVisitor for ChildExprs<'_, '_, '_, F, E> {
    ghost may = { λ v c. F.IsAlwaysCallable v.f.now × IsTrue (is_in_range (sizes_of v.store.now.nodes) c) };

    ghost step = { λ v c w. TriesAfter F.step v.answer.now v.f.now
        (exprs_from (exprs_in v.store.now.nodes) c) w.answer.now w.f.now
        × F.IsAlwaysCallable w.f.now
        × (w.store ≡ v.store)
        × (w.f.ghost_name ≡ v.f.ghost_name)
        × (w.answer.ghost_name ≡ v.answer.ghost_name) };

    fn on_expr(&mut self, expr: ExprId) {
        if self.answer.is_ok() {
            *self.answer = (self.f)(expr);
        }
    }

    fn on_anon_const_expr(&mut self, constant: ExprId) {
        if self.answer.is_ok() {
            *self.answer = (self.f)(constant);
        }
    }

    fn on_pat(&mut self, pat: PatId) {
        if self.answer.is_ok() {
            *self.answer = self.store.try_walk_exprs_in_pat(pat, self.f);
        }
    }

    fn on_type(&mut self, _type_ref: TypeRefId) {}

    fn on_lifetime(&mut self, _lifetime: LifetimeRefId) {}
}
