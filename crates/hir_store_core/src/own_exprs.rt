//! A visitor that runs a closure on the expressions among child calls, up to the first that the closure
//! refuses.
#![tactic(auto, using(crate::proofs::TryLemmas::tries))]

ghost use Rattle.std.specs.Prelude.{◌≡◌};
ghost use Rattle.hir_store_core.specs.PatLists.{own_exprs};
ghost use Rattle.hir_store_core.specs.internal.Tries.{TriesAfter};

use hir_node::{ExprId, LifetimeRefId, PatId, StoreVisitor, TypeRefId};

/// Runs a closure on each expression and each anonymous constant, and on none after a refusal.
#[derive(Drop)]
pub(crate) struct OwnExprs<'f, 'a, F, E> {
    pub(crate) f: &'f mut F,
    pub(crate) answer: &'a mut Result<(), E>,
}

impl<E: Drop, F: FnMut(ExprId) -> Result<(), E>> StoreVisitor for OwnExprs<'_, '_, F, E> {
    ghost may = { λ v c. F.IsAlwaysCallable v.f.now };

    ghost step = { λ v c w. TriesAfter F.step v.answer.now v.f.now (own_exprs c) w.answer.now w.f.now
        × F.IsAlwaysCallable w.f.now
        × (w.f.ghost_name ≡ v.f.ghost_name)
        × (w.answer.ghost_name ≡ v.answer.ghost_name) };

    fn on_expr(&mut self, expr: ExprId) {
        if self.answer.is_ok() {
            *self.answer = (self.f)(expr);
        }
    }

    fn on_anon_const_expr(&mut self, constant: ExprId) {
        if self.answer.is_ok() {
            *self.answer = (self.f)(constant);
        }
    }

    fn on_pat(&mut self, _pat: PatId) {}

    fn on_type(&mut self, _type_ref: TypeRefId) {}

    fn on_lifetime(&mut self, _lifetime: LifetimeRefId) {}
}
