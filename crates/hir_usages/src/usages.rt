//! The uses of a body.
ghost use Rattle.std.specs.Prelude.{◌≡◌, IfOk};
ghost use Rattle.hir_usages.specs.Visits.{visits};
ghost use Rattle.hir_usages.specs.internal.Pending.{AreInRange, visits_of};
ghost use Rattle.hir_usages.specs.internal.Wanted.{wanted_among};
ghost use Rattle.hir_usages.specs.Usages.{bound_by_body, found_in_body, unresolved_in, usages_of, usages_of_body};
ghost use Rattle.std.specs.Slice.Iter.{iter_rest};
ghost use Rattle.std.specs.Iterator.Adapters.{IterYieldsInOrder, IterYieldsInReverse};

use crate::groups::Groups;
use crate::to_visit::{Task, ToVisit};
use crate::usage::Usage;
use crate::walk::{Found, Walk, Wanted};
use hir_body::Body;
use hir_body::laws::entry_nodes_are_in_range;
use hir_node::BindingId;
use hir_scope::ExprScopes;
use std::alloc::{AllocError, Global};
use std::marker::Model;
use std::slice::Iter;

/// The uses of local variables in a body, seen as all of them in the order of the walk, and the bindings
/// that nothing uses.
#[derive(Drop)]
pub struct Usages {
    all: Vec<Usage>,
    groups: Groups,
    unused: Vec<BindingId>,
}

impl Model for Usages {
    ghost use Rattle.hir_usages.specs.Usages.{FoundUsages};
    ghost use Rattle.hir_usages.specs.Groups.{AreGroups};

    ghost Value = { FoundUsages };

    ghost view = { λ s. record { usages = s.all.items; unused = s.unused.items } };

    ghost invariant = { λ s. AreGroups s.all.items s.groups.by_binding s.groups.unresolved.items };
}

/// Returns what is to be visited first: the formals, and then the last root.
fn first_visits(alloc: Global, body: &Body) -> Result<ToVisit, AllocError>
    ensures ahead { IfOk result (λ unread.
        visits_of body.now.store.nodes unread.stack.items ≡ visits body.now) }
    ensures in_range { IfOk result (λ unread. AreInRange body.now.store.nodes unread.stack.items) }
{
    body.store().has_no_fault();
    body.has_no_fault();
    entry_nodes_are_in_range();
    let mut unread = ToVisit::new(alloc);
    let root = body.root_expr();
    unread.stack.push(Task::Expr(root))?;
    // The last first, so that the first formal is on top.
    let params = body.params();
    let mut rest = params.len();
    while rest > 0 {
        rest -= 1;
        unread.stack.push(Task::Pat(params[rest].formal))?;
    }
    Ok(unread)
}

/// Returns those of the uses of a body that a walk over its store searches for, and what the body binds, in
/// the order of the walk.
pub(crate) fn find(alloc: Global, body: &Body, walk: &Walk<'_>) -> Result<Found, AllocError>
    requires { walk.now.store.now ≡ body.now.store }
    ensures usages { IfOk result (λ found. found.usages.items
        ≡ wanted_among walk.now.wanted body.now.store.nodes (usages_of_body body.now walk.now.scopes.now)) }
    ensures bound { IfOk result (λ found. found.bound.items ≡ bound_by_body body.now) }
{
    let mut found = Found {
        usages: Vec::new(alloc),
        bound: Vec::new(alloc),
    };
    if let Some(param) = body.self_param() {
        found.bound.push(param.formal)?;
    }
    let mut unread = first_visits(alloc, body)?;
    walk.run(&mut unread, &mut found)?;
    Ok(found)
}

/// Returns the uses of a body, and what it binds, in the order of the walk.
fn find_all<'a>(alloc: Global, body: &'a Body, scopes: &'a ExprScopes) -> Result<Found, AllocError>
    ensures usages { IfOk result (λ found. found.usages.items ≡ usages_of_body body.now scopes.now) }
    ensures bound { IfOk result (λ found. found.bound.items ≡ bound_by_body body.now) }
{
    let walk = Walk {
        store: body.store(),
        scopes,
        wanted: Wanted::All,
    };
    let found = find(alloc, body, &walk)?;
    Ok(found)
}

impl Usages {
    /// Returns the uses of a body: each path expression, and each path pattern in the target of an
    /// assignment, that may name a local variable, with the binding that it resolves to in these scopes, as
    /// `ExprScopes::binding_at` and `target_binding_at` say. The scopes are to be those of the body: an
    /// expression without a scope resolves to nothing.
    ///
    /// Fails with `AllocError` where an allocation fails. It takes time in the number of nodes that the
    /// body reaches and of its bindings, and in the scopes and entries of the chains in which names are
    /// looked up, and doesn't recurse.
    pub fn new(alloc: Global, body: &Body, scopes: &ExprScopes) -> Result<Usages, AllocError>
        ensures { IfOk result (λ made. made ≡ found_in_body body.now scopes.now) }
    {
        let found = find_all(alloc, body, scopes)?;
        let bindings = body.store().bindings().len();
        let groups = Groups::new(alloc, &found.usages, bindings)?;
        let unused = groups.unused(alloc, &found.bound, bindings)?;
        Ok(Usages {
            all: found.usages,
            groups,
            unused,
        })
    }

    /// Returns all uses, in the order of the walk that makes scopes: preorder, where a value comes before the
    /// pattern that it is matched with, and the target of an assignment before its value. Each says what it
    /// resolves to.
    pub fn iter(&self) -> Iter<'_, Usage>
        ensures rest { iter_rest result ≡ self.now.usages }
        ensures runs { IterYieldsInOrder Usage }
        ensures runs_back { IterYieldsInReverse Usage }
    {
        self.all.iter()
    }

    /// Returns the uses that resolve to a binding, in the order of the walk.
    pub fn of(&self, binding: BindingId) -> &[Usage]
        ensures { result.now ≡ usages_of binding self.now.usages }
    {
        self.groups.of(binding)
    }

    /// Returns the uses that resolve to no binding, in the order of the walk.
    pub fn unresolved(&self) -> &[Usage]
        ensures { result.now ≡ unresolved_in self.now.usages }
    {
        self.groups.unresolved.as_slice()
    }

    /// Returns the bindings that the self parameter or a reached pattern binds, and that no use resolves
    /// to: that of the self parameter first, and then each once in the order of the walk.
    pub fn unused(&self) -> &[BindingId]
        ensures { result.now ≡ self.now.unused }
    {
        self.unused.as_slice()
    }
}
