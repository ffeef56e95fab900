//! A rename that is tried: what names would resolve to after it.
#![tactic(auto)]

ghost use Rattle.std.specs.Prelude.{◌≡◌, map, option_map};
ghost use Rattle.hir_scope.specs.Resolution.{find_entry};
ghost use Rattle.hir_usages.specs.Renames.{conflict_at, first_conflict, name_after, renamed_entry, resolved_after};

use crate::rename_fault::RenameFault;
use crate::usage::Usage;
use hir_base::HygieneId;
use hir_node::{BindingId, Expr, ExprOrPatId, Pat};
use hir_scope::laws::a_chain_goes_outward;
use hir_scope::{ExprScopes, ScopeEntry, local_name};
use hir_store_core::ExpressionStore;

/// A rename of a binding to a name, in a store with its scopes.
#[derive(Drop)]
pub(crate) struct Renaming<'a> {
    pub(crate) store: &'a ExpressionStore,
    pub(crate) scopes: &'a ExprScopes,
    pub(crate) binding: BindingId,
    pub(crate) name: &'a str,
}

impl<'a> Renaming<'a> {
    /// Returns the binding of the first of these entries that has this name and this hygiene after the
    /// rename.
    fn find_entry(
        &self,
        entries: &[ScopeEntry],
        name: &str,
        hygiene: HygieneId,
    ) -> Option<BindingId>
        ensures { result ≡ option_map (λ entry. entry.binding) (find_entry name.now hygiene
            (map (renamed_entry self.now.binding self.now.name.now) entries.now)) }
    {
        for entry in entries {
            if entry.hygiene() != hygiene {
                continue;
            }
            let is_own = entry.binding() == self.binding;
            let new_name = if is_own {
                self.name
            } else {
                entry.name().as_str()
            };
            if new_name == name {
                return Some(entry.binding());
            }
        }
        None
    }

    /// Returns the name that a use asks for after the rename.
    fn name_after(&self, usage: &Usage) -> Option<&'a str>
        ensures { option_map (λ name. name.now) result
            ≡ name_after self.now.binding self.now.name.now self.now.store.now.nodes usage.now }
    {
        if usage.resolves_to(self.binding) {
            return Some(self.name);
        }
        match usage.path {
            ExprOrPatId::ExprId(id) => {
                let Expr::Path(path) = self.store.get(id)? else {
                    return None;
                };
                local_name(path)
            }
            ExprOrPatId::PatId(id) => {
                let Pat::Path(path) = self.store.get(id)? else {
                    return None;
                };
                local_name(path)
            }
        }
    }

    /// Returns what a use resolves to after the rename.
    fn resolved_after(&self, usage: &Usage) -> Option<BindingId>
        ensures { result ≡ resolved_after self.now.store.now self.now.scopes.now
            self.now.binding self.now.name.now usage.now }
    {
        a_chain_goes_outward();
        let name = self.name_after(usage)?;
        let hygiene = self.store.expr_or_pat_path_hygiene(usage.path);
        let mut current = self.scopes.scope_for(usage.expr);
        while let Some(inner) = current {
            let outer = self.scopes.parent(inner);
            if let Some(found) = self.find_entry(self.scopes.entries(inner), name, hygiene) {
                return self.store.has_binding(found).then_some(found);
            }
            current = outer;
        }
        None
    }

    /// Returns the conflict at a use, where it would resolve to something else after the rename.
    fn conflict_at(&self, usage: &Usage) -> Option<RenameFault>
        ensures { result ≡ conflict_at self.now.store.now self.now.scopes.now
            self.now.binding self.now.name.now usage.now }
    {
        let after = self.resolved_after(usage);
        if after == usage.binding {
            return None;
        }
        match after {
            Some(by) if usage.resolves_to(self.binding) => Some(RenameFault::Hidden {
                usage: usage.path,
                by,
            }),
            Some(_) | None => Some(RenameFault::Captures {
                usage: usage.path,
                was: usage.binding,
            }),
        }
    }

    /// Returns the first conflict at these uses.
    pub(crate) fn first_conflict(&self, usages: &[Usage]) -> Option<RenameFault>
        ensures { result ≡ first_conflict self.now.store.now self.now.scopes.now
            self.now.binding self.now.name.now usages.now }
    {
        for usage in usages {
            if let Some(conflict) = self.conflict_at(usage) {
                return Some(conflict);
            }
        }
        None
    }
}
