//! The entries of what patterns bind, until a scope takes them.

ghost use Rattle.std.specs.Prelude.{◌≡◌, ◌<◌, ◌++◌, length, Err, OnErr, OnOk};
ghost use Rattle.hir_scope.specs.Frames.{entry_at, binds};

use crate::fault::ScopesFault;
use crate::scope::ScopeEntry;
use hir_collections::TryClone;
use hir_node::{BindingId, PatId};
use hir_store_core::ExpressionStore;

/// Appends the entry of a binding, where the store has it.
// Always inlined, as `add_pat` below and `new_scope` are: their calls for each binding are 2 % of what it
// takes to build a small body and its scopes, which is to take no more than plain Rust does.
#[inline(always)]
pub(crate) fn add_entry(
    entries: &mut Vec<ScopeEntry>,
    store: &ExpressionStore,
    id: BindingId,
) -> Result<(), ScopesFault>
    ensures ok { OnOk result (entries.new.items ≡ entries.old.items ++ entry_at store.now.nodes id) }
    ensures memory { OnErr result (result ≡ Err ScopesFault.Memory) }
{
    if !store.has_binding(id) {
        return Ok(());
    }
    let binding = &store[id];
    entries.reserve(1)?;
    let name = binding.name.try_clone()?;
    entries.push_reserved(ScopeEntry::new(name, binding.hygiene, id));
    Ok(())
}

/// Appends the entries of what a pattern binds.
#[inline(always)]
pub(crate) fn add_pat(
    entries: &mut Vec<ScopeEntry>,
    store: &ExpressionStore,
    pat: PatId,
) -> Result<(), ScopesFault>
    requires { pat < length store.now.nodes.pats }
    ensures ok { OnOk result (entries.new.items ≡ entries.old.items ++ binds store.now.nodes pat) }
    ensures memory { OnErr result (result ≡ Err ScopesFault.Memory) }
{
    store.try_walk_bindings_in_pat(
        pat,
        &mut |id: BindingId| -> Result<(), ScopesFault>
            ensures ok { OnOk result (entries.exit.now.items
                ≡ entries.entry.now.items ++ entry_at store.entry.now.nodes id) }
            ensures memory { OnErr result (result ≡ Err ScopesFault.Memory) }
        { add_entry(entries, store, id) },
    )
}
