//! The nodes of a closure's code that are still to be read.
#![tactic(auto, using(hir_node::proofs::RunLemmas::freely))]

ghost use Rattle.std.specs.Prelude.{◌≡◌, [], ◌∷◌, ◌++◌, Err, None, OnErr, OnOk};
ghost use Rattle.hir_collections.specs.Stacks.{Defers};
ghost use Rattle.hir_scope.specs.ScopingForms.{form_model};
ghost use Rattle.hir_scope.specs.Order.{met_in_form};
ghost use Rattle.hir_captures.specs.internal.Pending.{task_of, tasks_of};

use crate::fault::CapturesFault;
use hir_collections::Stack;
use hir_node::{ExprId, LifetimeRefId, PatId, StoreVisitor, TypeRefId};
use hir_scope::{Form, visit_form};
use std::alloc::Global;

/// A node of a closure's code that is still to be read.
// Flat, ids alone: the prover cannot build a function that borrows a list of values with records or options
// in them.
#[derive(Clone, Copy)]
pub(crate) enum Task {
    /// An expression.
    Expr(ExprId),
    /// A pattern in no target of an assignment.
    Pat(PatId),
    /// A pattern in the target of this assignment.
    Target(PatId, ExprId),
}

/// The nodes that are still to be read, the next one on top.
#[derive(Drop)]
pub(crate) struct Tasks {
    pub(crate) stack: Stack<Task>,
    /// The assignment in whose target the patterns are that are read now, where they are in one.
    assignment: Option<ExprId>,
}

/// Each child is read later, in its turn: those in types and constants aren't code.
impl StoreVisitor for Tasks {
    ghost step = { λ v c w. (w.assignment ≡ v.assignment) × Defers v.stack (task_of v.assignment c) w.stack };

    fn on_expr(&mut self, expr: ExprId) {
        self.stack.defer(Task::Expr(expr));
    }

    fn on_anon_const_expr(&mut self, _expr: ExprId) {}

    fn on_pat(&mut self, pat: PatId) {
        match self.assignment {
            None => self.stack.defer(Task::Pat(pat)),
            Some(assignment) => self.stack.defer(Task::Target(pat, assignment)),
        }
    }

    fn on_type(&mut self, _type_ref: TypeRefId) {}

    fn on_lifetime(&mut self, _lifetime: LifetimeRefId) {}
}

impl Tasks {
    /// Returns an empty list of nodes to read, which allocates from `alloc` once a node comes.
    pub(crate) fn new(alloc: Global) -> Tasks
        ensures { result.stack.items ≡ [] }
    {
        Tasks {
            stack: Stack::new(alloc),
            assignment: None,
        }
    }

    /// Pushes what is in a node of this form, the first on top. Its patterns are in the target of this
    /// assignment, or in none.
    pub(crate) fn push_in(
        &mut self,
        form: &Form<'_>,
        assignment: Option<ExprId>,
    ) -> Result<(), CapturesFault>
        ensures ok { OnOk result (self.new.stack.items
            ≡ tasks_of assignment (met_in_form (form_model form.now)) ++ self.old.stack.items) }
        ensures memory { OnErr result (result ≡ Err CapturesFault.Memory) }
    {
        let below = self.stack.len();
        self.assignment = assignment;
        visit_form(form, self);
        self.stack.push_deferred(below)?;
        Ok(())
    }
}
