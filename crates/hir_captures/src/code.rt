//! The reading of a closure's code: one loop over what is still to be read.
#![tactic(auto, using(crate::proofs::ReadLemmas::reads))]

ghost use Rattle.std.specs.Prelude.{◌≡◌, ◌<◌, ◌∷◌, None, Some, Err, OnOk, OnErr};
ghost use Rattle.hir_scope.specs.PathResolution.{local_name};
ghost use Rattle.hir_captures.specs.Uses.{if_assignment, use_of};
ghost use Rattle.hir_captures.specs.internal.Pending.{AreInRange, pat_task};
ghost use Rattle.hir_captures.specs.internal.Reading.{with_uses, with_code, ReadsTask};

use crate::captured_binding::captured_binding;
use crate::distinct::DistinctBindings;
use crate::fault::CapturesFault;
use crate::tasks::{Task, Tasks};
use hir_base::HygieneId;
use hir_node::{Expr, ExprId, Pat, PatId, Path};
use hir_scope::{BorrowedByForm, ExprScopes, Form, local_name};
use hir_store_core::ExpressionStore;
use hir_store_core::laws::rank_decreases;

/// The store and the scopes in which a closure's code is read. The scopes are those of its body.
#[derive(Drop)]
pub(crate) struct Code<'a> {
    pub(crate) store: &'a ExpressionStore,
    pub(crate) scopes: &'a ExprScopes,
    /// The number of scopes along the closure's own chain: what they bind comes from outside.
    pub(crate) outermost: usize,
}

/// Returns the assignment in whose target the patterns of an expression are: the expression itself, where it
/// is one.
pub fn if_assignment(id: ExprId, expr: &Expr) -> Option<ExprId>
    ensures { result ≡ if_assignment id (Some expr.now) }
{
    if let Expr::Assignment { .. } = expr {
        return Some(id);
    }
    None
}

impl<'a> Code<'a> {
    /// Adds the binding that a path captures, where it may name a variable: it is resolved in the chain of
    /// this expression.
    fn ask(
        &self,
        found: &mut DistinctBindings,
        expr: ExprId,
        path: &Path,
        hygiene: HygieneId,
    ) -> Result<(), CapturesFault>
        ensures found { OnOk result (found.new ≡ with_uses self.now found.old
            (use_of hygiene expr (local_name path.now))) }
        ensures memory { OnErr result (result ≡ Err CapturesFault.Memory) }
    {
        if let Some(name) = local_name(path)
            && let Some(scope) = self.scopes.scope_for(expr)
            && let Some(id) = captured_binding(self.scopes, scope, name, hygiene, self.outermost)
        {
            found.add(id)?;
        }
        Ok(())
    }

    /// Reads an expression: what is in it comes next.
    fn read_expr(
        &self,
        unread: &mut Tasks,
        found: &mut DistinctBindings,
        id: ExprId,
    ) -> Result<(), CapturesFault>
        requires in_range { AreInRange self.now.store.now.nodes (Task.Expr id ∷ unread.old.stack.items) }
        ensures reads { OnOk result (ReadsTask self.now found.old (Task.Expr id ∷ unread.old.stack.items)
            found.new unread.new.stack.items) }
        ensures memory { OnErr result (result ≡ Err CapturesFault.Memory) }
    {
        self.store.has_no_fault();
        rank_decreases();
        let expr = &self.store[id];
        if let Expr::Path(path) = expr {
            self.ask(found, id, path, self.store.expr_path_hygiene(id))?;
        }
        let _borrowed: BorrowedByForm<'_> = None;
        let form = Form::of_expr(expr);
        unread.push_in(&form, if_assignment(id, expr))
    }

    /// Reads a pattern, which is in the target of this assignment, or in none: what is in it comes next.
    fn read_pat(
        &self,
        unread: &mut Tasks,
        found: &mut DistinctBindings,
        id: PatId,
        assignment: Option<ExprId>,
    ) -> Result<(), CapturesFault>
        requires in_range { AreInRange self.now.store.now.nodes
            (pat_task assignment id ∷ unread.old.stack.items) }
        ensures reads { OnOk result (ReadsTask self.now found.old
            (pat_task assignment id ∷ unread.old.stack.items) found.new unread.new.stack.items) }
        ensures memory { OnErr result (result ≡ Err CapturesFault.Memory) }
    {
        self.store.has_no_fault();
        rank_decreases();
        if let Some(assignment) = assignment
            && let Pat::Path(path) = &self.store[id]
        {
            self.ask(found, assignment, path, self.store.pat_path_hygiene(id))?;
        }
        let _borrowed: BorrowedByForm<'_> = None;
        let form = Form::of_pat(&self.store[id]);
        unread.push_in(&form, assignment)
    }

    /// Reads all nodes that are still to be read, and adds the bindings that they capture.
    pub(crate) fn read_all(
        &self,
        unread: &mut Tasks,
        found: &mut DistinctBindings,
    ) -> Result<(), CapturesFault>
        requires in_range { AreInRange self.now.store.now.nodes unread.old.stack.items }
        ensures found { OnOk result (found.new ≡ with_code self.now found.old unread.old.stack.items) }
        ensures memory { OnErr result (result ≡ Err CapturesFault.Memory) }
    {
        while let Some(task) = unread.stack.pop() {
            match task {
                Task::Expr(id) => self.read_expr(unread, found, id)?,
                Task::Pat(id) => self.read_pat(unread, found, id, None)?,
                Task::Target(id, assignment) => self.read_pat(unread, found, id, Some(assignment))?,
            }
        }
        Ok(())
    }
}
