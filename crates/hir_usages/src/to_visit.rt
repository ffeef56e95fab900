//! The nodes that are still to be visited.
#![tactic(auto, using(hir_node::proofs::RunLemmas::freely))]

ghost use Rattle.std.specs.Prelude.{◌≡◌, [], ◌∷◌, ◌++◌, OnOk};
ghost use Rattle.hir_collections.specs.Stacks.{Defers};
ghost use Rattle.hir_scope.specs.ScopingForms.{form_model};
ghost use Rattle.hir_scope.specs.Order.{met_in_form};
ghost use Rattle.hir_usages.specs.internal.Pending.{task_of, tasks_of};

use hir_collections::Stack;
use hir_node::{ExprId, LifetimeRefId, PatId, StoreVisitor, TypeRefId};
use hir_scope::{Form, visit_form};
use std::alloc::{AllocError, Global};

/// A node that is still to be visited.
// Flat, ids alone: the prover cannot build a function that borrows a list of values with records or options
// in them.
#[derive(Clone, Copy)]
pub(crate) enum Task {
    /// An expression.
    Expr(ExprId),
    /// A pattern in no target of an assignment.
    Pat(PatId),
    /// A pattern in the target of this assignment.
    Target(PatId, ExprId),
    /// A type.
    Type(TypeRefId),
}

/// The nodes that are still to be visited, the next one on top.
#[derive(Drop)]
pub(crate) struct ToVisit {
    pub(crate) stack: Stack<Task>,
    /// The assignment in whose target the patterns are whose turn it is, where they are in one.
    assignment: Option<ExprId>,
}

/// Each child is visited later, in its turn.
impl StoreVisitor for ToVisit {
    ghost step = { λ v c w. (w.assignment ≡ v.assignment) × Defers v.stack (task_of v.assignment c) w.stack };

    fn on_expr(&mut self, expr: ExprId) {
        self.stack.defer(Task::Expr(expr));
    }

    fn on_anon_const_expr(&mut self, expr: ExprId) {
        self.stack.defer(Task::Expr(expr));
    }

    fn on_pat(&mut self, pat: PatId) {
        match self.assignment {
            None => self.stack.defer(Task::Pat(pat)),
            Some(assignment) => self.stack.defer(Task::Target(pat, assignment)),
        }
    }

    fn on_type(&mut self, type_ref: TypeRefId) {
        self.stack.defer(Task::Type(type_ref));
    }

    fn on_lifetime(&mut self, _lifetime: LifetimeRefId) {}
}

impl ToVisit {
    /// Nothing to visit. It allocates from `alloc`, and nothing now.
    pub(crate) fn new(alloc: Global) -> ToVisit
        ensures { result.stack.items ≡ [] }
    {
        ToVisit {
            stack: Stack::new(alloc),
            assignment: None,
        }
    }

    /// Pushes the children of a node of this form, the first on top. Its patterns are in the target of this
    /// assignment, or in none.
    pub(crate) fn push_in(
        &mut self,
        form: &Form<'_>,
        assignment: Option<ExprId>,
    ) -> Result<(), AllocError>
        ensures { OnOk result (self.new.stack.items
            ≡ tasks_of assignment (met_in_form (form_model form.now)) ++ self.old.stack.items) }
    {
        let below = self.stack.len();
        self.assignment = assignment;
        visit_form(form, self);
        self.stack.push_deferred(below)?;
        Ok(())
    }
}
