//! The names that are visible in a scope.
ghost use Rattle.std.specs.Prelude.{◌≡◌, ◌<◌, [], fold, length, map, IfOk, OnOk, Some};
ghost use Rattle.hir_scope.specs.Paths.{chain};
ghost use Rattle.hir_usages.specs.Visible.{visible_in, with_new_name};

use hir_base::SyntaxContext;
use hir_scope::laws::a_chain_goes_outward;
use hir_scope::{ExprScopes, ScopeEntry, ScopeId};
use std::alloc::{AllocError, Global};
use std::collections::HashSet;
use std::marker::Model;

/// The entries that were found, modelled as their list, and what they are named.
#[derive(Drop)]
struct VisibleEntries<'a> {
    entries: Vec<&'a ScopeEntry>,
    /// The hygienes and names that they have, each once.
    seen: HashSet<(SyntaxContext, &'a str)>,
}

impl<'a> Model for VisibleEntries<'a> {
    ghost use Rattle.std.specs.Prelude.{List, map};
    ghost use Rattle.std.specs.HashSet.{contains_by};
    ghost use Rattle.hir_scope.specs.declared.scope.ScopeEntry.{ScopeEntry};
    ghost use Rattle.hir_usages.specs.internal.Seen.{AreSeen, is_key};

    ghost Value = { List ScopeEntry };

    ghost view = { λ s. map (λ e. e.now) s.entries.items };

    ghost invariant = { λ s. AreSeen (map (λ e. e.now) s.entries.items)
        (λ name hygiene. contains_by (λ k. is_key name hygiene k.0 k.1.now) s.seen) };
}

impl<'a> VisibleEntries<'a> {
    /// Returns no entries. It allocates from `alloc` once one comes.
    fn new(alloc: Global) -> VisibleEntries<'a>
        ensures { result ≡ [] }
    {
        VisibleEntries {
            entries: Vec::new(alloc),
            seen: HashSet::new(alloc),
        }
    }

    /// Appends an entry, unless one has its name and hygiene already.
    fn add(&mut self, entry: &'a ScopeEntry) -> Result<(), AllocError>
        ensures { OnOk result (self.new ≡ with_new_name self.old entry.now) }
    {
        self.entries.reserve(1)?;
        let key = (entry.hygiene().syntax_context(), entry.name().as_str());
        if !self.seen.insert(key)? {
            return Ok(());
        }
        self.entries.push_reserved(entry);
        Ok(())
    }

    /// Appends each of these entries, unless one has its name and hygiene already.
    fn add_all(&mut self, entries: &'a [ScopeEntry]) -> Result<(), AllocError>
        ensures { OnOk result (self.new ≡ fold with_new_name self.old entries.now) }
    {
        for entry in entries {
            self.add(entry)?;
        }
        Ok(())
    }
}

/// Returns the entries that names in a scope may resolve to: of each name and hygiene the first along the
/// chain, innermost first. The scope has to exist: `has_scope` tests it.
///
/// Fails with `AllocError` where an allocation fails. It takes expected time in the number of scopes and
/// entries of the chain.
pub fn visible_names<'a>(
    alloc: Global,
    scopes: &'a ExprScopes,
    scope: ScopeId,
) -> Result<Vec<&'a ScopeEntry>, AllocError>
    requires { scope < length scopes.now.scopes }
    ensures { IfOk result (λ found. map (λ e. e.now) found.items
        ≡ visible_in (chain scopes.now.scopes (Some scope))) }
{
    a_chain_goes_outward();
    let mut found = VisibleEntries::new(alloc);
    let mut current = Some(scope);
    while let Some(inner) = current {
        let outer = scopes.parent(inner);
        found.add_all(scopes.entries(inner))?;
        current = outer;
    }
    Ok(found.entries)
}
