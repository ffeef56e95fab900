//! The walk that gives each expression its scope: one loop over what is still to do.
ghost use Rattle.std.specs.Prelude.{◌≡◌, ◌≤◌, ◌+◌, [], length, Err, IfOk, OnErr};
ghost use Rattle.hir_scope.specs.ScopingForms.{form_model};
ghost use Rattle.hir_scope.specs.internal.Pending.{guarded_task};
ghost use Rattle.hir_scope.specs.internal.WalkState.{with_next, walk_state, state, future_of, scope_within, IsReady, Exceeds, EntersExpr, Step, CountedStep, WalkSteps};

use crate::expr_scopes::ExprScopes;
use crate::fault::ScopesFault;
use crate::form::{BorrowedByForm, Form};
use crate::scope::{ScopeEntry, ScopeId, ScopeKind};
use crate::tasks::{CurrentScopes, Task, Tasks};
use hir_base::Steps;
use hir_node::{ExprId, PatId};
use hir_store_core::ExpressionStore;
use hir_store_core::laws::rank_decreases;

/// A walk: the scopes so far, those around what is visited next, and the tasks that are still to do.
#[derive(Drop)]
pub(crate) struct Walk {
    pub(crate) scopes: ExprScopes,
    pub(crate) current: CurrentScopes,
    pub(crate) tasks: Tasks,
    /// The entries of what patterns bind, until a scope takes them.
    pub(crate) entries: Vec<ScopeEntry>,
}

/// Returns the scope of an expression of this form: of a block the one inside it, of any other the one around
/// it.
fn scope_within(form: &Form<'_>, inside: ScopeId, outside: ScopeId) -> ScopeId
    ensures { result ≡ scope_within (form_model form.now) inside outside }
{
    if let Form::Block(_, _, _, _) = form {
        return inside;
    }
    outside
}

impl Walk {
    /// Enters an expression, and returns its scope: what is inside it is visited next.
    fn enter_expr(&mut self, store: &ExpressionStore, expr: ExprId) -> Result<ScopeId, ScopesFault>
        requires ready { IsReady store.now.nodes (with_next self.old (Task.Expr expr)) }
        ensures meets { IfOk result (EntersExpr store.now.nodes self.old expr self.new) }
        ensures full { result ≡ Err ScopesFault.Full
            → Exceeds store.now.nodes (with_next self.old (Task.Expr expr)) }
        ensures missing { result ≡ Err ScopesFault.Missing → ⊥ }
    {
        store.has_no_fault();
        rank_decreases();
        let outside = self.current.scope;
        let _borrowed: BorrowedByForm<'_> = None;
        let form = Form::of_expr(&store[expr]);
        if let Form::Leaf = form {
            return Ok(outside);
        }
        self.tasks.push_in(&form, self.current)?;
        self.open_inside(store, &form)?;
        Ok(scope_within(&form, self.current.scope, outside))
    }

    /// Enters an arm in a scope of its own, which ends with it.
    fn enter_arm(
        &mut self,
        store: &ExpressionStore,
        pat: PatId,
        guard: Option<ExprId>,
        expr: ExprId,
    ) -> Result<(), ScopesFault>
        requires ready { IsReady store.now.nodes (with_next self.old (guarded_task pat expr guard)) }
        ensures moves { IfOk result (λ _. Step store.now.nodes
            (with_next self.old (guarded_task pat expr guard)) (state self.new) []) }
        ensures full { result ≡ Err ScopesFault.Full → Exceeds store.now.nodes
            (with_next self.old (guarded_task pat expr guard)) }
        ensures missing { result ≡ Err ScopesFault.Missing → ⊥ }
    {
        store.has_no_fault();
        rank_decreases();
        let CurrentScopes { scope, const_scope } = self.current;
        let tasks = &mut self.tasks;
        tasks.push(Task::Leave(scope, const_scope))?;
        tasks.push(Task::Expr(expr))?;
        if let Some(guard) = guard {
            tasks.push(Task::Expr(guard))?;
        }
        tasks.push(Task::Pat(pat))?;
        self.open(store, ScopeKind::None, &[pat])?;
        Ok(())
    }

    /// Does one task.
    // Inlined for speed alone: a call for each task is 3 % of the time that the scopes of a small body take.
    #[inline(always)]
    fn step(
        &mut self,
        store: &ExpressionStore,
        task: Task,
        steps: &mut Steps,
    ) -> Result<(), ScopesFault>
        requires ready { IsReady store.now.nodes (with_next self.old task) }
        ensures goes { IfOk result (λ _. CountedStep store.now.nodes
            (with_next self.old task) (state self.new) steps.old steps.new) }
        ensures not_counted { OnErr result (steps.new ≡ steps.old) }
        ensures full { result ≡ Err ScopesFault.Full → Exceeds store.now.nodes (with_next self.old task) }
        ensures missing { result ≡ Err ScopesFault.Missing → ⊥ }
    {
        store.has_no_fault();
        rank_decreases();
        match task {
            Task::Expr(expr) => {
                let scope = self.enter_expr(store, expr)?;
                self.scopes.set_scope(expr, scope)?;
                steps.tick();
                Ok(())
            }
            Task::Constant(expr) => {
                let CurrentScopes { scope, const_scope } = self.current;
                self.tasks.push(Task::Leave(scope, const_scope))?;
                self.tasks.push(Task::Expr(expr))?;
                self.current.scope = const_scope;
                Ok(())
            }
            Task::Pat(pat) => self.tasks.push_pat(&store[pat], self.current),
            Task::TypeRef(type_ref) => {
                let CurrentScopes { scope, const_scope } = self.current;
                self.tasks.push(Task::Leave(scope, const_scope))?;
                self.current.scope = const_scope;
                self.tasks.push_type(&store[type_ref], self.current)
            }
            Task::Bound(pat) => {
                self.tasks.push_pat(&store[pat], self.current)?;
                self.open(store, ScopeKind::None, &[pat])
            }
            Task::Arm(pat, expr) => self.enter_arm(store, pat, None, expr),
            Task::GuardedArm(pat, guard, expr) => self.enter_arm(store, pat, Some(guard), expr),
            Task::MacroDef(id) => {
                self.open_both(store, ScopeKind::MacroDef(id), ScopeKind::MacroDef(id))
            }
            Task::Root(root) => {
                self.tasks.push(Task::Expr(root))?;
                self.current = CurrentScopes::both(ScopeId::from_raw(0));
                self.open(store, ScopeKind::None, &[])?;
                self.current.const_scope = self.current.scope;
                Ok(())
            }
            Task::Leave(scope, const_scope) => {
                self.current = CurrentScopes { scope, const_scope };
                Ok(())
            }
        }
    }

    /// Does all tasks: sets the scope of each expression that they reach, with one step each.
    ///
    /// Returns `Full` only where more than `MOST_ITEMS` scopes or entries are needed, and `Memory` where an
    /// allocation fails.
    pub(crate) fn run(
        &mut self,
        store: &ExpressionStore,
        steps: &mut Steps,
    ) -> Result<(), ScopesFault>
        requires ready { IsReady store.now.nodes (walk_state self.old self.old.tasks.stack.items) }
        ensures gone { IfOk result (λ _. WalkSteps store.now.nodes
            (walk_state self.old self.old.tasks.stack.items)
            (walk_state self.new []) steps.old steps.new) }
        ensures rises { steps.old ≤ steps.new }
        ensures few { OnErr result (steps.new ≤ steps.old
            + length (future_of store.now.nodes (walk_state self.old self.old.tasks.stack.items))) }
        ensures full { result ≡ Err ScopesFault.Full
            → Exceeds store.now.nodes (walk_state self.old self.old.tasks.stack.items) }
        ensures missing { result ≡ Err ScopesFault.Missing → ⊥ }
    {
        while let Some(task) = self.tasks.stack.pop() {
            self.step(store, task, steps)?;
        }
        Ok(())
    }
}
