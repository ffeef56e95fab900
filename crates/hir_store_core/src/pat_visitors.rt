//! The visitors of a walk over patterns: a closure runs on the patterns, on their bindings, or on their own
//! expressions.
#![tactic(auto, using(crate::proofs::TryLemmas::tries))]

ghost use Rattle.std.specs.Prelude.{◌≡◌, ◌<◌, length};
ghost use Rattle.std.specs.List.{flat_map};
ghost use Rattle.hir_node.specs.OtherIds.{pat_bindings};
ghost use Rattle.hir_node.specs.declared.node_id.NodeId.TheVariants as node;
ghost use Rattle.hir_validate.specs.Nodes.{calls_of};
ghost use Rattle.hir_store_core.specs.PatLists.{bindings_at, own_exprs};
ghost use Rattle.hir_store_core.specs.Tries.{Tries};
ghost use Rattle.hir_store_core.specs.internal.PatTurns.{pat_of, entered_pat, exprs_left};

use crate::own_exprs::OwnExprs;
use crate::pat_turns::TurnVisitor;
use crate::store::ExpressionStore;
use hir_node::{BindingId, ExprId, Pat, PatId};

/// Runs a closure on each pattern that is entered.
#[derive(Drop)]
pub(crate) struct PatVisitor<'f, F> {
    pub(crate) f: &'f mut F,
}

impl<E, F: FnMut(PatId) -> Result<(), E>> TurnVisitor<E> for PatVisitor<'_, F> {
    ghost may = { λ v t. F.IsAlwaysCallable v.f.now };

    ghost step = { λ v t r w. Tries F.step v.f.now (entered_pat t) r w.f.now
        × F.IsAlwaysCallable w.f.now
        × (w.f.ghost_name ≡ v.f.ghost_name) };

    fn on_enter(&mut self, id: PatId) -> Result<(), E> {
        (self.f)(id)
    }

    fn on_leave(&mut self, _id: PatId) -> Result<(), E> {
        Ok(())
    }
}

/// Runs a closure on the binding of each pattern that is entered.
#[derive(Drop)]
pub(crate) struct BindingVisitor<'s, 'f, F> {
    pub(crate) store: &'s ExpressionStore,
    pub(crate) f: &'f mut F,
}

impl<E, F: FnMut(BindingId) -> Result<(), E>> TurnVisitor<E> for BindingVisitor<'_, '_, F> {
    ghost may = { λ v t. F.IsAlwaysCallable v.f.now × (pat_of t < length v.store.now.nodes.pats) };

    ghost step = { λ v t r w. Tries F.step v.f.now
        (flat_map (bindings_at v.store.now.nodes) (entered_pat t)) r w.f.now
        × F.IsAlwaysCallable w.f.now
        × (w.store ≡ v.store)
        × (w.f.ghost_name ≡ v.f.ghost_name) };

    fn on_enter(&mut self, id: PatId) -> Result<(), E> {
        try_binding(&self.store[id], self.f)
    }

    fn on_leave(&mut self, _id: PatId) -> Result<(), E> {
        Ok(())
    }
}

/// Runs the closure on the binding that a pattern binds.
fn try_binding<E, F: FnMut(BindingId) -> Result<(), E>>(pat: &Pat, f: &mut F) -> Result<(), E>
    requires { F.IsAlwaysCallable f.old }
    ensures runs { Tries F.step f.old (pat_bindings pat.now) result f.new }
    ensures callable { F.IsAlwaysCallable f.new }
{
    if let Pat::Bind { id, subpat: _ } = pat {
        return f(*id);
    }
    Ok(())
}

/// Runs a closure on each expression that a pattern itself has, when the pattern is left.
#[derive(Drop)]
pub(crate) struct ExprsLeft<'s, 'f, F> {
    pub(crate) store: &'s ExpressionStore,
    pub(crate) f: &'f mut F,
}

impl<E: Drop, F: FnMut(ExprId) -> Result<(), E>> TurnVisitor<E> for ExprsLeft<'_, '_, F> {
    ghost may = { λ v t. F.IsAlwaysCallable v.f.now × (pat_of t < length v.store.now.nodes.pats) };

    ghost step = { λ v t r w. Tries F.step v.f.now
        (exprs_left v.store.now.nodes t) r w.f.now
        × F.IsAlwaysCallable w.f.now
        × (w.store ≡ v.store)
        × (w.f.ghost_name ≡ v.f.ghost_name) };

    fn on_enter(&mut self, _id: PatId) -> Result<(), E> {
        Ok(())
    }

    fn on_leave(&mut self, id: PatId) -> Result<(), E> {
        try_own_exprs(self.store, id, self.f)
    }
}

/// Runs the closure on each expression that a pattern itself has, up to the first that it refuses.
fn try_own_exprs<E: Drop, F: FnMut(ExprId) -> Result<(), E>>(
    store: &ExpressionStore,
    id: PatId,
    f: &mut F,
) -> Result<(), E>
    requires in_range { id < length store.now.nodes.pats }
    requires callable { F.IsAlwaysCallable f.old }
    ensures runs { Tries F.step f.old (flat_map own_exprs (calls_of store.now.nodes (node.Pat id)))
        result f.new }
    ensures callable { F.IsAlwaysCallable f.new }
{
    let mut answer = Ok(());
    let mut own = OwnExprs {
        f: &mut *f,
        answer: &mut answer,
    };
    store.visit_pat_children(id, &mut own);
    answer
}
