//! Resolution of a name in a scope, and of a path to a binding.
ghost use Rattle.std.specs.Prelude.{◌≡◌, ◌<◌, length, option_map, IfSome, None, Some};
ghost use Rattle.std.specs.Option.{option_copied};
ghost use Rattle.hir_scope.specs.Paths.{chain};
ghost use Rattle.hir_scope.specs.Resolution.{IsFound, find_entry, resolve};
ghost use Rattle.hir_scope.specs.PathResolution.{local_name, binding_at, resolve_path, target_binding_at};

use crate::expr_scopes::ExprScopes;
use crate::scope::{ScopeEntry, ScopeId};
use hir_base::{HygieneId, Name, PathKind};
use hir_node::{BindingId, Expr, ExprId, Pat, PatId, Path};
use hir_store_core::ExpressionStore;

/// Returns the name by which a path may resolve to a local variable: the name of a path of one name without
/// arguments, and `self` for the path `self`.
pub fn local_name(path: &Path) -> Option<&str>
    ensures { option_map (λ name. name.now) result ≡ local_name path.now }
{
    let Path::BarePath(path) = path else {
        return None;
    };
    match (path.kind(), path.segments()) {
        (PathKind::Plain, [name]) => Some(name.as_str()),
        (PathKind::Super(0), []) => Some("self"),
        (PathKind::Plain | PathKind::Super(_), _) => None,
        (PathKind::Crate | PathKind::Abs | PathKind::DollarCrate(_), _) => None,
    }
}

/// Returns the first of these entries with this name and this hygiene.
// The hygiene first: it is compared in less time.
pub(crate) fn find_entry<'a>(
    entries: &'a [ScopeEntry],
    name: &str,
    hygiene: HygieneId,
) -> Option<&'a ScopeEntry>
    ensures { option_copied result ≡ find_entry name.now hygiene entries.now }
{
    for entry in entries {
        if entry.hygiene() == hygiene && entry.name().as_str() == name {
            return Some(entry);
        }
    }
    None
}

impl ExprScopes {
    /// Returns the first entry with this name and this hygiene, scope by scope from this one outward, and the
    /// scope that binds it. The scope has to exist: `has_scope` tests it.
    ///
    /// Hygienes are compared as they are: definitions of macros are not consulted.
    pub fn find_name_in_scope(
        &self,
        scope: ScopeId,
        name: &str,
        hygiene: HygieneId,
    ) -> Option<(ScopeId, &ScopeEntry)>
        requires { scope < length self.now.scopes }
        ensures found { IfSome result (λ found.
            IsFound self.now.scopes scope name.now hygiene found.0 found.1.now) }
        ensures none { result ≡ None → resolve (chain self.now.scopes (Some scope)) name.now hygiene ≡ None }
    {
        let mut current = Some(scope);
        while let Some(inner) = current {
            let outer = self.parent(inner);
            if let Some(entry) = find_entry(self.entries(inner), name, hygiene) {
                return Some((inner, entry));
            }
            current = outer;
        }
        None
    }

    /// Returns the first entry with this name and this hygiene, scope by scope from this one outward.
    fn entry_in_scope(&self, scope: ScopeId, name: &str, hygiene: HygieneId) -> Option<&ScopeEntry>
        requires { scope < length self.now.scopes }
        ensures { option_copied result ≡ resolve (chain self.now.scopes (Some scope)) name.now hygiene }
    {
        self.parents_stand_earlier();
        match self.find_name_in_scope(scope, name, hygiene) {
            Some((_, entry)) => Some(entry),
            None => None,
        }
    }

    /// Returns the first entry with this name and this hygiene, scope by scope from this one outward. The
    /// scope has to exist: `has_scope` tests it. `find_name_in_scope` finds the scope that binds it, too.
    pub fn resolve_name_in_scope(
        &self,
        scope: ScopeId,
        name: &Name,
        hygiene: HygieneId,
    ) -> Option<&ScopeEntry>
        requires { scope < length self.now.scopes }
        ensures { option_copied result ≡ resolve (chain self.now.scopes (Some scope)) name.now hygiene }
    {
        self.entry_in_scope(scope, name.as_str(), hygiene)
    }

    /// Returns the binding of the store that a path of this hygiene resolves to at an expression.
    fn resolve_path(
        &self,
        store: &ExpressionStore,
        at: ExprId,
        path: &Path,
        hygiene: HygieneId,
    ) -> Option<BindingId>
        ensures is { result ≡ resolve_path store.now self.now at hygiene (local_name path.now) }
        ensures in_range { IfSome result (λ id. id < length store.now.nodes.bindings) }
    {
        let name = local_name(path)?;
        let scope = self.scope_for(at)?;
        let binding = self.entry_in_scope(scope, name, hygiene)?.binding();
        store.has_binding(binding).then_some(binding)
    }

    /// Returns the binding that an expression resolves to: where it exists, has a scope, and is a path of one
    /// name or `self` that resolves in it to a binding of the store. In the scopes of the store's own body,
    /// or of its signature, each entry's binding is one of the store.
    pub fn binding_at(&self, store: &ExpressionStore, expr: ExprId) -> Option<BindingId>
        ensures is { result ≡ binding_at store.now self.now expr }
        ensures in_range { IfSome result (λ id. id < length store.now.nodes.bindings) }
    {
        if !store.has_expr(expr) {
            return None;
        }
        let Expr::Path(path) = &store[expr] else {
            return None;
        };
        self.resolve_path(store, expr, path, store.expr_path_hygiene(expr))
    }

    /// Returns the binding that a pattern in the target of an assignment resolves to, as `binding_at` does
    /// for an expression. It is looked up in the scope of the assignment, with the hygiene of the pattern.
    pub fn target_binding_at(
        &self,
        store: &ExpressionStore,
        assignment: ExprId,
        pat: PatId,
    ) -> Option<BindingId>
        ensures is { result ≡ target_binding_at store.now self.now assignment pat }
        ensures in_range { IfSome result (λ id. id < length store.now.nodes.bindings) }
    {
        if !store.has_pat(pat) {
            return None;
        }
        let Pat::Path(path) = &store[pat] else {
            return None;
        };
        self.resolve_path(store, assignment, path, store.pat_path_hygiene(pat))
    }
}
