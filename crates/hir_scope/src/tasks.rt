//! The tasks that a walk has still to do, and those that a node adds.
#![tactic(auto, using(crate::proofs::DeferLemmas::defers))]

ghost use Rattle.std.specs.Prelude.{◌≡◌, List, [], ◌∷◌, ◌++◌, false, Err, None, OnErr, OnOk, IfSome};
ghost use Rattle.std.specs.List.{flat_map};
ghost use Rattle.hir_node.specs.Runs.{Runs};
ghost use Rattle.hir_scope.specs.declared.tasks.Task.{Task};
ghost use Rattle.hir_scope.specs.ScopingForms.{form_model, pat_form, type_form};
ghost use Rattle.hir_scope.specs.internal.Pending.{DefersTask, both, task_of, form_tasks, leave};

use crate::fault::ScopesFault;
use crate::form::{BorrowedByForm, Form};
use crate::order::visit_form;
use crate::scope::ScopeId;
use hir_base::MacroDefId;
use hir_collections::Stack;
use hir_node::{
    ExprId, Item, LifetimeRefId, MatchArm, Pat, PatId, Statement, StoreVisitor, StoreVisitorExt,
    TypeRef, TypeRefId,
};

/// The scope around what is visited next, and that around the constants in it.
#[derive(Clone, Copy)]
pub(crate) struct CurrentScopes {
    pub(crate) scope: ScopeId,
    pub(crate) const_scope: ScopeId,
}

impl CurrentScopes {
    /// Returns a scope as that around what is visited next, and around the constants in it.
    pub(crate) fn both(scope: ScopeId) -> CurrentScopes
        ensures { result ≡ both scope }
    {
        CurrentScopes {
            scope,
            const_scope: scope,
        }
    }
}

/// A task of a walk.
// Flat, ids alone: the prover cannot build a function that borrows a list of values with records or options
// in them.
#[derive(Clone, Copy)]
pub(crate) enum Task {
    /// An expression, in the current scope.
    Expr(ExprId),
    /// An expression, in the scope of constants.
    Constant(ExprId),
    /// What is inside a pattern, in the current scope.
    Pat(PatId),
    /// What is inside a type, in the scope of constants.
    TypeRef(TypeRefId),
    /// A pattern, in a scope of its own that stays open.
    Bound(PatId),
    /// An arm without a guard, in a scope of its own that ends with it.
    Arm(PatId, ExprId),
    /// An arm with a guard, in a scope of its own that ends with it.
    GuardedArm(PatId, ExprId, ExprId),
    /// A macro's definition: a scope for what follows, and one for the constants in it.
    MacroDef(MacroDefId),
    /// A root of a signature, in a scope of its own in the first scope, also for constants.
    Root(ExprId),
    /// Restores the scopes that were current before: the current scope, and that around constants.
    Leave(ScopeId, ScopeId),
}

/// The tasks that are still to be done, the next one on top.
#[derive(Drop)]
pub(crate) struct Tasks {
    pub(crate) stack: Stack<Task>,
}

/// Each child of a node becomes a task.
impl StoreVisitor for Tasks {
    ghost step = { λ v c w. Runs DefersTask v.stack (task_of c) w.stack };

    fn on_expr(&mut self, expr: ExprId) {
        self.stack.defer(Task::Expr(expr));
    }

    fn on_anon_const_expr(&mut self, expr: ExprId) {
        self.stack.defer(Task::Constant(expr));
    }

    fn on_pat(&mut self, pat: PatId) {
        self.stack.defer(Task::Pat(pat));
    }

    fn on_type(&mut self, type_ref: TypeRefId) {
        self.stack.defer(Task::TypeRef(type_ref));
    }

    fn on_lifetime(&mut self, _lifetime: LifetimeRefId) {}
}

/// A part of a node that adds tasks.
trait Brings {
    // its tasks, in order
    ghost tasks: { Self → List Task };

    fn defer(&self, onto: &mut Tasks)
        ensures { Runs DefersTask onto.old.stack (tasks self.now) onto.new.stack };
}

/// Puts the tasks of each item, in order.
fn defer_each<T: Brings>(onto: &mut Tasks, items: &[T])
    ensures { Runs DefersTask onto.old.stack (flat_map T.tasks items.now) onto.new.stack }
{
    for item in items {
        item.defer(onto);
    }
}

// Of a `let` the type, the initializer and the else branch come before the pattern.
impl Brings for Statement {
    ghost use Rattle.hir_scope.specs.internal.Pending.{statement_tasks};

    ghost tasks = { statement_tasks };

    fn defer(&self, onto: &mut Tasks) {
        match self {
            Statement::Let {
                pat,
                type_ref,
                initializer,
                else_branch,
            } => {
                onto.on_type_opt(*type_ref);
                onto.on_expr_opt(*initializer);
                onto.on_expr_opt(*else_branch);
                onto.stack.defer(Task::Bound(*pat));
            }
            Statement::Expr { expr, .. } => onto.on_expr(*expr),
            Statement::Item(Item::MacroDef(id)) => onto.stack.defer(Task::MacroDef(*id)),
            Statement::Item(Item::Other) => {}
        }
    }
}

impl Brings for MatchArm {
    ghost use Rattle.hir_scope.specs.internal.Pending.{one_arm};

    ghost tasks = { one_arm };

    fn defer(&self, onto: &mut Tasks) {
        match self.guard {
            None => onto.stack.defer(Task::Arm(self.pat, self.expr)),
            Some(guard) => onto
                .stack
                .defer(Task::GuardedArm(self.pat, guard, self.expr)),
        }
    }
}

impl Tasks {
    /// Pushes a task.
    pub(crate) fn push(&mut self, task: Task) -> Result<(), ScopesFault>
        ensures ok { OnOk result (self.new.stack.items ≡ task ∷ self.old.stack.items) }
        ensures memory { OnErr result (result ≡ Err ScopesFault.Memory) }
    {
        self.stack.push(task)?;
        Ok(())
    }

    /// Puts a task that restores these scopes.
    fn defer_leave(&mut self, current: CurrentScopes)
        ensures { Runs DefersTask self.old.stack (leave current ∷ []) self.new.stack }
    {
        self.stack
            .defer(Task::Leave(current.scope, current.const_scope));
    }

    /// Puts the tasks of what is inside a node of this form. Leaving the node restores `current`.
    fn defer_in(&mut self, form: &Form<'_>, current: CurrentScopes)
        ensures { Runs DefersTask self.old.stack
            (form_tasks current (form_model form.now)) self.new.stack }
    {
        match form {
            Form::If(condition, then_branch, else_branch) => {
                self.on_expr(*condition);
                self.on_expr(*then_branch);
                self.defer_leave(current);
                self.on_expr_opt(*else_branch);
            }
            Form::Let(pat, expr) => {
                self.on_expr(*expr);
                self.stack.defer(Task::Bound(*pat));
            }
            Form::Block(_, _, statements, tail) => {
                defer_each(self, *statements);
                self.on_expr_opt(*tail);
                self.defer_leave(current);
            }
            Form::Loop(_, body) => {
                self.on_expr(*body);
                self.defer_leave(current);
            }
            Form::Closure(_, _, _, _) => {
                visit_form(form, self);
                self.defer_leave(current);
            }
            Form::Match(scrutinee, arms) => {
                self.on_expr(*scrutinee);
                defer_each(self, *arms);
            }
            Form::Assignment(target, value) => {
                self.on_pat(*target);
                self.defer_leave(current);
                self.on_expr(*value);
            }
            Form::PatternType(inner, pat) => {
                self.on_type(*inner);
                self.stack.defer(Task::Bound(*pat));
                self.defer_leave(current);
            }
            Form::Leaf => {}
            Form::Expr(expr) => expr.visit_children(self),
            Form::Pat(pat) => pat.visit_children(self),
            Form::TypeRef(type_ref) => type_ref.visit_children(self),
        }
    }

    /// Pushes the tasks of what is inside a node of this form, the first on top. Leaving the node restores
    /// `current`.
    pub(crate) fn push_in(
        &mut self,
        form: &Form<'_>,
        current: CurrentScopes,
    ) -> Result<(), ScopesFault>
        ensures ok { OnOk result (self.new.stack.items
            ≡ form_tasks current (form_model form.now) ++ self.old.stack.items) }
        ensures memory { OnErr result (result ≡ Err ScopesFault.Memory) }
    {
        if let Form::Leaf = form {
            return Ok(());
        }
        let below = self.stack.len();
        self.defer_in(form, current);
        self.stack.push_deferred(below)?;
        Ok(())
    }

    /// Pushes the tasks of what is inside a pattern.
    pub(crate) fn push_pat(&mut self, pat: &Pat, current: CurrentScopes) -> Result<(), ScopesFault>
        ensures ok { OnOk result (self.new.stack.items
            ≡ form_tasks current (pat_form pat.now) ++ self.old.stack.items) }
        ensures memory { OnErr result (result ≡ Err ScopesFault.Memory) }
    {
        let _borrowed: BorrowedByForm<'_> = None;
        self.push_in(&Form::of_pat(pat), current)
    }

    /// Pushes the tasks of what is inside a type.
    pub(crate) fn push_type(
        &mut self,
        type_ref: &TypeRef,
        current: CurrentScopes,
    ) -> Result<(), ScopesFault>
        ensures ok { OnOk result (self.new.stack.items
            ≡ form_tasks current (type_form type_ref.now) ++ self.old.stack.items) }
        ensures memory { OnErr result (result ≡ Err ScopesFault.Memory) }
    {
        let _borrowed: BorrowedByForm<'_> = None;
        self.push_in(&Form::of_type(type_ref), current)
    }
}
