//! Resolution of a name in a scope, where a macro may name what is bound around its definition.
ghost use Rattle.std.specs.Prelude.{◌≡◌, ◌<◌, length, Some};
ghost use Rattle.std.specs.Option.{option_copied};
ghost use Rattle.hir_collections.specs.Exact.{exact};
ghost use Rattle.hir_scope.specs.Macros.{expansion_of, outward};

use crate::expr_scopes::ExprScopes;
use crate::resolve::find_entry;
use crate::scope::{ScopeEntry, ScopeId};
use hir_base::{HygieneId, MacroDefId};
use hir_collections::{ExactEq, TryClone};
use std::collections::HashMap;

/// Where the names of one hygiene come from: an expansion of a macro, in whose definition they have the
/// hygiene `parent`.
#[derive(Clone, Copy, PartialEq, Eq)]
pub struct Expansion {
    /// The macro.
    pub macro_def: MacroDefId,
    /// The hygiene that the names have in the definition of the macro: `ROOT` where it is in source text.
    pub parent: HygieneId,
}

impl ExactEq for Expansion {
    ghost eq_decides = { Prim.search exact };
}

impl TryClone for Expansion {
    ghost clone_is_same = { Prim.search exact };
}

/// Returns the hygiene that a name has outward of a scope, which may be that of a macro's definition.
fn outward(
    macro_def: Option<MacroDefId>,
    hygiene: HygieneId,
    expansions: &HashMap<HygieneId, Expansion>,
) -> HygieneId
    ensures { result ≡ outward macro_def (expansion_of expansions.now hygiene) hygiene }
{
    if let Some(id) = macro_def
        && !hygiene.is_root()
        && let Some(expansion) = expansions.get(&hygiene)
        && expansion.macro_def == id
    {
        return expansion.parent;
    }
    hygiene
}

impl ExprScopes {
    ghost use Rattle.hir_scope.specs.Paths.{chain};
    ghost use Rattle.hir_scope.specs.Macros.{resolve_through};

    /// Returns the first entry with this name and hygiene, scope by scope from this one outward, where a
    /// macro may name what is bound around its definition: at the definition of the macro that the hygiene's
    /// expansion comes from, the search goes on outward with the hygiene of the code around that definition.
    /// The scope has to exist: `has_scope` tests it.
    ///
    /// `expansions` gives for a hygiene the expansion that it comes from. A hygiene that is no key of it, as
    /// that of source text, stays.
    pub fn resolve_name_through_macros(
        &self,
        scope: ScopeId,
        name: &str,
        hygiene: HygieneId,
        expansions: &HashMap<HygieneId, Expansion>,
    ) -> Option<&ScopeEntry>
        requires { scope < length self.now.scopes }
        ensures { option_copied result ≡ resolve_through (expansion_of expansions.now)
            (chain self.now.scopes (Some scope)) name.now hygiene }
    {
        let mut current = Some(scope);
        let mut hygiene = hygiene;
        while let Some(inner) = current {
            let outer = self.parent(inner);
            if let Some(entry) = find_entry(self.entries(inner), name, hygiene) {
                return Some(entry);
            }
            hygiene = outward(self.macro_def(inner), hygiene, expansions);
            current = outer;
        }
        None
    }
}
