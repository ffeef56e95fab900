//! The walk over a body that finds its uses: one loop over what is still to be visited.
#![tactic(auto, using(crate::proofs::WalkLemmas::reads))]

ghost use Rattle.std.specs.Prelude.{◌≡◌, ◌<◌, ◌∷◌, ◌++◌, length, option_map, Some, OnOk};
ghost use Rattle.hir_node.specs.declared.node_id.NodeId.TheVariants as node;
ghost use Rattle.hir_scope.specs.PathResolution.{resolve_path};
ghost use Rattle.hir_scope.specs.Resolution.{find_entry};
ghost use Rattle.hir_usages.specs.Renames.{name_of_expr};
ghost use Rattle.hir_usages.specs.Usages.{bound_at};
ghost use Rattle.hir_usages.specs.internal.Wanted.{if_wanted, wanted_at};
ghost use Rattle.hir_usages.specs.internal.Pending.{AreInRange, pat_task};
ghost use Rattle.hir_usages.specs.internal.Reading.{Reads, lists_of, with_tasks};

use crate::to_visit::{Task, ToVisit};
use crate::usage::Usage;
use hir_base::HygieneId;
use hir_captures::if_assignment;
use hir_node::{BindingId, Expr, ExprId, ExprOrPatId, Pat, PatId};
use hir_scope::laws::a_chain_goes_outward;
use hir_scope::{BorrowedByForm, ExprScopes, Form, ScopeEntry, local_name};
use hir_store_core::ExpressionStore;
use hir_store_core::laws::rank_decreases;
use std::alloc::AllocError;

/// What the walk has found so far: the uses, and the bindings of patterns, both in the order of the walk.
#[derive(Drop)]
pub(crate) struct Found {
    pub(crate) usages: Vec<Usage>,
    pub(crate) bound: Vec<BindingId>,
}

/// Which uses are searched for.
#[derive(Clone, Copy)]
pub(crate) enum Wanted<'a> {
    /// All uses.
    All,
    /// Those that may resolve to something else where this binding takes this name: its own, and those that
    /// ask for the name.
    OfRename(BindingId, &'a str),
}

/// What is walked over: this store, with these scopes, in search of these uses.
#[derive(Drop)]
pub(crate) struct Walk<'a> {
    pub(crate) store: &'a ExpressionStore,
    pub(crate) scopes: &'a ExprScopes,
    pub(crate) wanted: Wanted<'a>,
}

/// Returns the name that an expression asks for, where it is a path that may name a local variable.
fn name_of(expr: &Expr) -> Option<&str>
    ensures { option_map (λ name. name.now) result ≡ name_of_expr (Some expr.now) }
{
    if let Expr::Path(path) = expr {
        return local_name(path);
    }
    None
}

/// Returns the binding of the first of these entries with this name and this hygiene.
#[inline(always)]
fn find_entry(entries: &[ScopeEntry], name: &str, hygiene: HygieneId) -> Option<BindingId>
    ensures { result ≡ option_map (λ entry. entry.binding) (find_entry name.now hygiene entries.now) }
{
    for entry in entries {
        if entry.hygiene() == hygiene && entry.name().as_str() == name {
            return Some(entry.binding());
        }
    }
    None
}

impl<'a> Walk<'a> {
    /// Adds a use that asks for this name, where it is searched for.
    // Inlined for speed alone: a call for each use is 4 % of the search.
    #[inline(always)]
    fn add(&self, found: &mut Found, usage: Usage, name: &str) -> Result<(), AllocError>
        ensures usages { OnOk result (found.new.usages.items ≡ found.old.usages.items
            ++ if_wanted self.now.wanted usage name.now) }
        ensures bound { found.new.bound.items ≡ found.old.bound.items }
    {
        let is_wanted = match self.wanted {
            Wanted::All => true,
            Wanted::OfRename(binding, new_name) => usage.resolves_to(binding) || new_name == name,
        };
        if !is_wanted {
            return Ok(());
        }
        // (a copy: the prover's borrow checker has to be told of the types in it)
        found.usages.push(Usage {
            path: usage.path,
            ..usage
        })?;
        Ok(())
    }

    /// Returns the binding of the store that a name resolves to at an expression.
    // Goes outward as `ExprScopes::find_name_in_scope` does, but without a call for each scope. That is for
    // speed alone: with one `Usages::new` takes a quarter more on a mixed body, a half more on a deep one.
    fn resolve(&self, at: ExprId, name: &str, hygiene: HygieneId) -> Option<BindingId>
        ensures { result ≡ resolve_path self.now.store.now self.now.scopes.now at hygiene (Some name.now) }
    {
        a_chain_goes_outward();
        let mut current = self.scopes.scope_for(at);
        while let Some(inner) = current {
            let outer = self.scopes.parent(inner);
            if let Some(found) = find_entry(self.scopes.entries(inner), name, hygiene) {
                return self.store.has_binding(found).then_some(found);
            }
            current = outer;
        }
        None
    }

    /// Adds the use that a pattern is, where it is in the target of an assignment, and what it binds. The
    /// name of a use is looked up where the assignment is.
    fn add_pat(
        &self,
        found: &mut Found,
        id: PatId,
        assignment: Option<ExprId>,
    ) -> Result<(), AllocError>
        requires in_range { id < length self.now.store.now.nodes.pats }
        ensures usages { OnOk result (found.new.usages.items ≡ found.old.usages.items
            ++ wanted_at self.now (node.Pat id) assignment) }
        ensures bound { OnOk result (found.new.bound.items
            ≡ found.old.bound.items ++ bound_at self.now.store.now.nodes (node.Pat id)) }
    {
        let pat = &self.store[id];
        if let Pat::Bind { id: binding, .. } = pat {
            found.bound.push(*binding)?;
            return Ok(());
        }
        let (Some(assignment), Pat::Path(path)) = (assignment, pat) else {
            return Ok(());
        };
        let Some(name) = local_name(path) else {
            return Ok(());
        };
        let usage = Usage {
            path: ExprOrPatId::PatId(id),
            expr: assignment,
            binding: self.resolve(assignment, name, self.store.pat_path_hygiene(id)),
        };
        self.add(found, usage, name)?;
        Ok(())
    }

    /// Visits a pattern, which is in the target of this assignment, or in none: its children come next.
    fn visit_pat(
        &self,
        unread: &mut ToVisit,
        found: &mut Found,
        id: PatId,
        assignment: Option<ExprId>,
    ) -> Result<(), AllocError>
        requires in_range { AreInRange self.now.store.now.nodes
            (pat_task assignment id ∷ unread.old.stack.items) }
        ensures { OnOk result (Reads self.now (lists_of found.old)
            (pat_task assignment id ∷ unread.old.stack.items)
            (lists_of found.new) unread.new.stack.items) }
    {
        self.store.has_no_fault();
        rank_decreases();
        // (a copy: the prover's borrow checker takes an option that was handed on for one without a value)
        let target = assignment;
        self.add_pat(found, id, assignment)?;
        let _borrowed: BorrowedByForm<'_> = None;
        let form = Form::of_pat(&self.store[id]);
        unread.push_in(&form, target)?;
        Ok(())
    }

    /// Visits the node of one task: its children come next.
    fn visit(&self, unread: &mut ToVisit, found: &mut Found, task: Task) -> Result<(), AllocError>
        requires in_range { AreInRange self.now.store.now.nodes (task ∷ unread.old.stack.items) }
        ensures { OnOk result (Reads self.now (lists_of found.old) (task ∷ unread.old.stack.items)
            (lists_of found.new) unread.new.stack.items) }
    {
        self.store.has_no_fault();
        rank_decreases();
        let _borrowed: BorrowedByForm<'_> = None;
        match task {
            Task::Expr(id) => {
                let expr = &self.store[id];
                if let Some(name) = name_of(expr) {
                    // A path that may name a local variable has no arguments: nothing is inside it.
                    let usage = Usage {
                        path: ExprOrPatId::ExprId(id),
                        expr: id,
                        binding: self.resolve(id, name, self.store.expr_path_hygiene(id)),
                    };
                    self.add(found, usage, name)?;
                    return Ok(());
                }
                let form = Form::of_expr(expr);
                unread.push_in(&form, if_assignment(id, expr))?;
                Ok(())
            }
            Task::Pat(id) => self.visit_pat(unread, found, id, None),
            Task::Target(id, assignment) => self.visit_pat(unread, found, id, Some(assignment)),
            Task::Type(id) => {
                let form = Form::of_type(&self.store[id]);
                unread.push_in(&form, None)?;
                Ok(())
            }
        }
    }

    /// Visits all that is still to be visited, and adds what it finds.
    pub(crate) fn run(&self, unread: &mut ToVisit, found: &mut Found) -> Result<(), AllocError>
        requires in_range { AreInRange self.now.store.now.nodes unread.old.stack.items }
        ensures { OnOk result (lists_of found.new
            ≡ with_tasks self.now (lists_of found.old) unread.old.stack.items) }
    {
        while let Some(task) = unread.stack.pop() {
            self.visit(unread, found, task)?;
        }
        Ok(())
    }
}
