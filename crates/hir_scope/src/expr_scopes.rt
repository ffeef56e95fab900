//! The scopes of a body or a signature, and the scope of each of its expressions.
ghost use Rattle.std.specs.Prelude.{◌≡◌, ◌<◌, ◌≤◌, ◌+◌, ◌⊎◌, ◌↔◌, ℕ, [], ◌∷◌, ◌++◌, length, slice_get, option_map, Some, Err, IsTrue, IsOk, IfOk, OnOk, OnErr, IfSome};
ghost use Rattle.std.specs.FinMap as map;

use crate::fault::ScopesFault;
use crate::laws::a_chain_goes_outward;
use crate::scope::{ScopeEntry, ScopeId, ScopeKind};
use crate::scope_chain::ScopeChain;
use crate::scope_ids::ScopeIds;
use hir_base::{BlockId, MacroDefId};
use hir_collections::{ArenaMap, ExactEq, MOST_ITEMS};
use hir_node::{ExprId, ExprKind, LabelId};
use std::alloc::Global;
use std::marker::Model;

/// A scope: its parent, its kind, and the range of its entries in the list of all entries.
#[derive(Clone, Copy, PartialEq, Eq)]
pub struct ScopeData {
    parent: Option<ScopeId>,
    kind: ScopeKind,
    start: u32,
    end: u32,
}

impl ExactEq for ScopeData {
    ghost use Rattle.hir_collections.specs.Exact.{exact};

    ghost eq_decides = { Prim.search exact };
}

/// Scopes, each with its parent, which was made before it; and the scope of each expression that has one.
///
/// The entries of all scopes are in one list, in the order of the scopes.
#[derive(Drop)]
pub struct ExprScopes {
    scopes: Vec<ScopeData>,
    entries: Vec<ScopeEntry>,
    scope_by_expr: ArenaMap<ExprKind, ScopeId>,
}

impl Model for ExprScopes {
    ghost use Rattle.hir_scope.specs.Scopes.{Scopes};
    ghost use Rattle.hir_scope.specs.Flat.{scopes_of, IsFlat};

    ghost Value = { Scopes };

    ghost use Rattle.std.specs.Coded.{codes, coded_ℕ};
    ghost use Rattle.std.specs.FinMap as map;
    ghost use Rattle.std.specs.Ordering.{nat_cmp};

    ghost coded = { Prim.hlevel (codes, map.code {R = nat_cmp} coded_ℕ coded_ℕ) };

    ghost view = { λ s. record {
      scopes = scopes_of s.entries.items s.scopes.items;
      scope_by_expr = s.scope_by_expr;
    } };

    ghost invariant = { λ s. IsFlat s.entries.items s.scopes.items s.scope_by_expr };
}

/// The most scopes, and the most entries in all, that can exist.
const LIMIT: usize = 4_294_967_295;

impl ExprScopes {
    ghost use Rattle.hir_scope.specs.Scopes.{Scope, entry_count, block_of, label_of, macro_def_of, IsBelow, ScopeIsInRange, ParentsStandEarlier};
    ghost use Rattle.hir_scope.specs.Paths.{path};
    ghost use Rattle.std.specs.List.{All, range_with_len};

    /// Returns no scopes, with room for the scopes of this number of expressions, for this number of entries,
    /// and for about as many scopes.
    ///
    /// Returns `Memory` where an allocation fails.
    pub(crate) fn with_room(
        alloc: Global,
        exprs: usize,
        entries: usize,
    ) -> Result<ExprScopes, ScopesFault>
        ensures ok { IfOk result (λ made. made ≡ record { scopes = []; scope_by_expr = map.empty }) }
        ensures err { OnErr result (result ≡ Err ScopesFault.Memory) }
    {
        Ok(ExprScopes {
            // Scopes aren't counted beforehand. Code has about one for each binding, beside that of the root
            // and that of a body's block; where it has more, their list grows.
            scopes: Vec::with_capacity(alloc, entries.saturating_add(2))?,
            entries: Vec::with_capacity(alloc, entries)?,
            scope_by_expr: ArenaMap::with_capacity(alloc, exprs)?,
        })
    }

    /// Returns the number of scopes.
    pub fn scope_count(&self) -> usize
        ensures count { result ≡ length self.now.scopes }
        ensures most { result ≤ MOST_ITEMS }
    {
        self.scopes.len()
    }

    /// Returns the number of entries of all scopes.
    pub fn entry_count(&self) -> usize
        ensures count { result ≡ entry_count self.now.scopes }
        ensures most { result ≤ MOST_ITEMS }
    {
        self.entries.len()
    }

    /// Returns whether a scope with this id exists.
    pub fn has_scope(&self, scope: ScopeId) -> bool
        ensures { IsTrue result ↔ scope < length self.now.scopes }
    {
        (scope.into_raw() as usize) < self.scopes.len()
    }

    /// Returns the entries that a scope binds, all at once. The scope has to exist: `has_scope` tests it.
    pub fn entries(&self, scope: ScopeId) -> &[ScopeEntry]
        requires { scope < length self.now.scopes }
        ensures { option_map (λ s. s.entries) (slice_get self.now.scopes scope) ≡ Some result.now }
    {
        let data = self.scopes[scope.into_raw() as usize];
        &self.entries[data.start as usize..data.end as usize]
    }

    /// Returns the block whose scope this is, where the block has an id. The scope has to exist: `has_scope`
    /// tests it.
    pub fn block(&self, scope: ScopeId) -> Option<BlockId>
        requires { scope < length self.now.scopes }
        ensures { option_map (λ s. block_of s.kind) (slice_get self.now.scopes scope) ≡ Some result }
    {
        match self.scopes[scope.into_raw() as usize].kind {
            ScopeKind::Block { id, label: _ } => Some(id),
            ScopeKind::None | ScopeKind::Label(_) | ScopeKind::MacroDef(_) => None,
        }
    }

    /// Returns the macro that is known from this scope on, where it is the scope of a macro's definition. The
    /// scope has to exist: `has_scope` tests it.
    pub fn macro_def(&self, scope: ScopeId) -> Option<MacroDefId>
        requires { scope < length self.now.scopes }
        ensures { option_map (λ s. macro_def_of s.kind) (slice_get self.now.scopes scope) ≡ Some result }
    {
        match self.scopes[scope.into_raw() as usize].kind {
            ScopeKind::MacroDef(id) => Some(id),
            ScopeKind::None | ScopeKind::Label(_) | ScopeKind::Block { .. } => None,
        }
    }

    /// Returns the label of the block or loop whose scope this is, where it has one. The scope has to exist:
    /// `has_scope` tests it.
    pub fn label(&self, scope: ScopeId) -> Option<LabelId>
        requires { scope < length self.now.scopes }
        ensures { option_map (λ s. label_of s.kind) (slice_get self.now.scopes scope) ≡ Some result }
    {
        match self.scopes[scope.into_raw() as usize].kind {
            ScopeKind::Block { id: _, label } => label,
            ScopeKind::Label(label) => Some(label),
            ScopeKind::None | ScopeKind::MacroDef(_) => None,
        }
    }

    /// Returns the scope around a scope, where it has one, which was made before it. The scope has to exist:
    /// `has_scope` tests it.
    pub fn parent(&self, scope: ScopeId) -> Option<ScopeId>
        requires { scope < length self.now.scopes }
        ensures is { option_map (λ s. s.parent) (slice_get self.now.scopes scope) ≡ Some result }
        ensures in_range { ScopeIsInRange self.now.scopes result }
        ensures earlier { IsBelow scope result }
        ensures parents { ParentsStandEarlier self.now.scopes }
    {
        self.scopes[scope.into_raw() as usize].parent
    }

    /// Tells a proof that each scope's parent was made before it, and that the scope of each expression
    /// exists. It does nothing.
    pub fn parents_stand_earlier(&self)
        ensures parents { ParentsStandEarlier self.now.scopes }
        ensures in_range { (expr scope : ℕ) → map.get self.now.scope_by_expr expr ≡ Some scope
            → scope < length self.now.scopes }
    {
        let _ = &self.scopes;
    }

    /// Returns the scope of an expression, where it has one.
    pub fn scope_for(&self, expr: ExprId) -> Option<ScopeId>
        ensures scope { result ≡ map.get self.now.scope_by_expr expr }
        ensures in_range { ScopeIsInRange self.now.scopes result }
    {
        self.scope_by_expr.get(expr).copied()
    }

    /// Returns the scope of each expression that has one.
    pub fn scope_by_expr(&self) -> &ArenaMap<ExprKind, ScopeId>
        ensures { result.now ≡ self.now.scope_by_expr }
    {
        &self.scope_by_expr
    }

    /// Adds a scope of this kind in the scope `parent`, with these entries, which it takes.
    ///
    /// Returns `Full` exactly where there would be more than `MOST_ITEMS` scopes or entries, and `Memory`
    /// where an allocation fails. Either leaves the scopes and the entries as they were.
    // Always inlined: see `add_entry`.
    #[inline(always)]
    pub(crate) fn new_scope(
        &mut self,
        parent: Option<ScopeId>,
        kind: ScopeKind,
        entries: &mut Vec<ScopeEntry>,
    ) -> Result<ScopeId, ScopesFault>
        requires { ScopeIsInRange self.old.scopes parent }
        ensures id { IfOk result (λ id. id ≡ length self.old.scopes) }
        ensures ok { OnOk result (self.new ≡ record {
          scopes = self.old.scopes ++ record {
            parent = parent;
            kind = kind;
            entries = entries.old.items;
          } ∷ [];
          scope_by_expr = self.old.scope_by_expr;
        }) }
        ensures taken { OnOk result (entries.new.items ≡ []) }
        ensures err { OnErr result (self.new ≡ self.old) }
        ensures kept { OnErr result (entries.new.items ≡ entries.old.items) }
        ensures full { result ≡ Err ScopesFault.Full ↔ ((MOST_ITEMS < length self.old.scopes + 1)
            ⊎ (MOST_ITEMS < entry_count self.old.scopes + length entries.old.items)) }
        ensures missing { result ≡ Err ScopesFault.Missing → ⊥ }
    {
        let count = self.scopes.len();
        let start = self.entries.len();
        if count >= LIMIT || entries.len() > LIMIT - start {
            return Err(ScopesFault::Full);
        }
        let end = start + entries.len();
        if self.scopes.reserve(1).is_err() || self.entries.append(entries).is_err() {
            return Err(ScopesFault::Memory);
        }
        self.scopes.push_reserved(ScopeData {
            parent,
            kind,
            start: start as u32,
            end: end as u32,
        });
        Ok(ScopeId::from_raw(count as u32))
    }

    /// Sets the scope of an expression. The scope has to exist.
    ///
    /// Returns `Memory` where an allocation fails: nothing has changed then.
    pub(crate) fn set_scope(&mut self, expr: ExprId, scope: ScopeId) -> Result<(), ScopesFault>
        requires { scope < length self.old.scopes }
        ensures ok { OnOk result (self.new ≡ record {
          scopes = self.old.scopes;
          scope_by_expr = map.insert self.old.scope_by_expr expr scope;
        }) }
        ensures err { OnErr result (self.new ≡ self.old) }
        ensures memory { OnErr result (result ≡ Err ScopesFault.Memory) }
    {
        match self.scope_by_expr.insert(expr, scope) {
            Ok(_) => Ok(()),
            Err(_) => Err(ScopesFault::Memory),
        }
    }

    /// Returns the scopes, in the order in which they were made.
    pub fn scopes(&self) -> ScopeIds
        ensures all { result ≡ range_with_len 0 (length self.now.scopes) }
        ensures in_range { All (λ scope. scope < length self.now.scopes) result }
    {
        ScopeIds {
            next: 0,
            end: self.scope_count() as u32,
        }
    }

    /// Returns a scope and those around it, innermost first; no scope for `None`. The scope has to exist:
    /// `has_scope` tests it.
    pub fn scope_chain(&self, scope: Option<ScopeId>) -> ScopeChain<'_>
        requires { ScopeIsInRange self.now.scopes scope }
        ensures is { result ≡ path self.now.scopes scope }
        ensures in_range { All (λ current. current < length self.now.scopes) result }
    {
        self.parents_stand_earlier();
        a_chain_goes_outward();
        ScopeChain {
            scopes: self,
            next: scope,
        }
    }
}

/// Scopes are equal where the scope of each expression and the list of scopes are: their kinds, entries and
/// parents.
impl PartialEq for ExprScopes {
    ghost use Rattle.hir_scope.specs.same.SameScopes.{same_scopes, scopes_per};

    ghost eq = { same_scopes };

    ghost laws = { scopes_per };

    fn eq(&self, other: &ExprScopes) -> bool {
        self.scopes == other.scopes
            && self.entries == other.entries
            && self.scope_by_expr == other.scope_by_expr
    }
}

impl Eq for ExprScopes {
    ghost use Rattle.hir_scope.specs.same.SameScopes.{scopes_equiv};

    ghost laws = { scopes_equiv };
}

impl ExactEq for ExprScopes {
    ghost use Rattle.hir_scope.specs.same.SameScopes.{scopes_decide};

    ghost eq_decides = { scopes_decide };
}
