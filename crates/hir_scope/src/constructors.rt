//! The scopes of a body or a signature, made by a walk over what it reaches; and where the walk begins.
ghost use Rattle.std.specs.Prelude.{◌≡◌, ◌+◌, ◌<◌, ◌≤◌, [], length, Err, IfOk, OnErr, OnOk};
ghost use Rattle.hir_body.specs.Bodies.{body_nodes};
ghost use Rattle.hir_scope.specs.BodyScopes.{AreBodyScopes, AreSignatureScopes, BodyIsTooLarge, SignatureIsTooLarge, expr_count};
ghost use Rattle.hir_scope.specs.internal.Begins.{IsSoundBody, IsSoundStore, at_first, for_none, root_entries, body_begins};
ghost use Rattle.hir_scope.specs.internal.WalkState.{state};

use crate::entries::{add_entry, add_pat};
use crate::expr_scopes::ExprScopes;
use crate::fault::ScopesFault;
use crate::scope::{ScopeId, ScopeKind};
use crate::tasks::{CurrentScopes, Task, Tasks};
use crate::walk::Walk;
use hir_base::Steps;
use hir_body::Body;
use hir_body::laws::entry_nodes_are_in_range;
use hir_collections::{MOST_ITEMS, Stack};
use hir_store_core::ExpressionStore;
use hir_store_core::laws::{
    bindings_in_unfold, nodes_are_sound, nodes_under_unfold, rank_decreases, roots_stand_apart,
};
use std::alloc::Global;

/// The number of tasks that a walk has room for from the start.
// For speed alone: growing to this costs 4 % of what it takes to build a small body and its scopes.
const FIRST_TASKS: usize = 32;

/// Tells a proof what the theorems say of the store, and does nothing.
fn is_sound_store(store: &ExpressionStore)
    ensures { IsSoundStore store.now }
{
    store.has_no_fault();
    rank_decreases();
    nodes_under_unfold();
    bindings_in_unfold();
    nodes_are_sound();
    roots_stand_apart();
}

/// Tells a proof what the theorems say of the body, and does nothing.
fn is_sound_body(body: &Body)
    ensures { IsSoundBody body.now }
{
    let store = body.store();
    is_sound_store(store);
    store.has_no_fault();
    body.has_no_fault();
    entry_nodes_are_in_range();
    // (its contract says that the binding of `self` is in the store)
    let _ = body.self_param();
}

impl Walk {
    /// Returns a walk without scopes and without tasks. It has room for the scopes of the store's
    /// expressions, and for an entry of each binding.
    fn new(alloc: Global, store: &ExpressionStore) -> Result<Walk, ScopesFault>
        ensures scopes { IfOk result (λ walk. walk.scopes ≡ for_none []) }
        ensures current { IfOk result (λ walk. walk.current ≡ at_first) }
        ensures tasks { IfOk result (λ walk. walk.tasks.stack.items ≡ []) }
        ensures entries { IfOk result (λ walk. walk.entries.items ≡ []) }
        ensures memory { OnErr result (result ≡ Err ScopesFault.Memory) }
    {
        Ok(Walk {
            scopes: ExprScopes::with_room(alloc, store.exprs().len(), store.bindings().len())?,
            current: CurrentScopes::both(ScopeId::from_raw(0)),
            tasks: Tasks {
                stack: Stack::with_capacity(alloc, FIRST_TASKS)?,
            },
            entries: Vec::new(alloc),
        })
    }

    /// Returns the walk over a body, before its first step: it has the root scope, of what `self` and the
    /// formals bind.
    fn over_body(alloc: Global, body: &Body) -> Result<Walk, ScopesFault>
        ensures ok { IfOk result (λ walk. state walk ≡ body_begins body.now) }
        ensures full { result ≡ Err ScopesFault.Full → MOST_ITEMS < length (root_entries body.now) }
        ensures missing { result ≡ Err ScopesFault.Missing → ⊥ }
    {
        let store = body.store();
        let params = body.params();
        let mut walk = Walk::new(alloc, store)?;
        let entries = &mut walk.entries;
        if let Some(param) = body.self_param() {
            add_entry(entries, store, param.formal)?;
        }
        for param in params {
            add_pat(entries, store, param.formal)?;
        }
        walk.scopes.new_scope(None, ScopeKind::None, entries)?;
        walk.tasks.push(Task::Expr(body.root_expr()))?;
        let mut rest = params.len();
        while rest > 0 {
            rest -= 1;
            walk.tasks.push(Task::Pat(params[rest].formal))?;
        }
        Ok(walk)
    }
}

impl ExprScopes {
    /// Returns the scopes of a body: each expression that the body reaches, from its formals and its last
    /// root, gets its scope, and no other.
    ///
    /// Returns `Full` only where the body needs more than 2^32 - 1 scopes or entries, and `Memory` where an
    /// allocation fails. It takes time in the number of nodes and entries, and doesn't recurse.
    pub fn new_body(alloc: Global, body: &Body) -> Result<ExprScopes, ScopesFault>
        ensures scopes { IfOk result (AreBodyScopes body.now) }
        ensures full { result ≡ Err ScopesFault.Full → BodyIsTooLarge body.now }
        ensures missing { result ≡ Err ScopesFault.Missing → ⊥ }
    {
        let mut steps = Steps::new();
        ExprScopes::new_body_counted(alloc, body, &mut steps)
    }

    /// Returns the scopes of a body as `new_body` does, and counts a step for each expression that gets its
    /// scope: each that the body reaches gets it once.
    pub fn new_body_counted(
        alloc: Global,
        body: &Body,
        steps: &mut Steps,
    ) -> Result<ExprScopes, ScopesFault>
        ensures scopes { IfOk result (AreBodyScopes body.now) }
        ensures once { OnOk result (steps.new ≡ steps.old + expr_count (body_nodes body.now)) }
        ensures rises { steps.old ≤ steps.new }
        ensures most { OnErr result (steps.new ≤ steps.old + expr_count (body_nodes body.now)) }
        ensures full { result ≡ Err ScopesFault.Full → BodyIsTooLarge body.now }
        ensures missing { result ≡ Err ScopesFault.Missing → ⊥ }
    {
        is_sound_body(body);
        let mut walk = Walk::over_body(alloc, body)?;
        walk.run(body.store(), steps)?;
        Ok(walk.scopes)
    }

    /// Returns the scopes of a signature: each expression that a root of its store reaches gets its scope,
    /// and no other.
    ///
    /// Returns `Full` only where more than 2^32 - 1 scopes or entries are needed, and `Memory` where an
    /// allocation fails. It takes time in the number of nodes and entries, and doesn't recurse.
    pub fn new_store(alloc: Global, store: &ExpressionStore) -> Result<ExprScopes, ScopesFault>
        ensures scopes { IfOk result (AreSignatureScopes store.now) }
        ensures full { result ≡ Err ScopesFault.Full → SignatureIsTooLarge store.now }
        ensures missing { result ≡ Err ScopesFault.Missing → ⊥ }
    {
        is_sound_store(store);
        let mut walk = Walk::new(alloc, store)?;
        walk.scopes
            .new_scope(None, ScopeKind::None, &mut walk.entries)?;
        let mut roots = store.expr_roots();
        while let Some(root) = roots.next_back() {
            walk.tasks.push(Task::Root(root))?;
        }
        let mut steps = Steps::new();
        walk.run(store, &mut steps)?;
        Ok(walk.scopes)
    }
}
