//! The rename of a binding: the uses that change with it, or the first reason why there is none.
ghost use Rattle.std.specs.Prelude.{◌≡◌, ◌<◌, length, ◌⊎◌, None, Some, IfErr, IfOk, OnOk};
ghost use Rattle.hir_scope.specs.BodyScopes.{AreBodyScopes};
ghost use Rattle.hir_usages.specs.Kept.{IsWhyNot, MayBeRenamed};
ghost use Rattle.hir_usages.specs.Usages.{usages_of, usages_of_body};
ghost use Rattle.hir_usages.specs.Renames.{first_conflict, first_some, has_entry, is_bound, is_self_param, other_beside, other_of, refusal, rename_fault};

use crate::laws::renames_are_exact;
use crate::rename_fault::RenameFault;
use crate::renaming::Renaming;
use crate::usage::Usage;
use crate::usages::find;
use crate::walk::{Walk, Wanted};
use hir_base::{HygieneId, Name};
use hir_body::{Body, Param};
use hir_node::BindingId;
use hir_scope::{ExprScopes, ScopeEntry, ScopeId};
use hir_store_core::laws::rank_decreases;
use std::alloc::{AllocError, Global};

/// Returns whether a binding is one of the two of the self parameter.
fn is_self_param(self_param: Option<Param<BindingId>>, binding: BindingId) -> bool
    ensures { result ≡ is_self_param self_param binding }
{
    match self_param {
        Some(param) => param.formal == binding || param.user_written == binding,
        None => false,
    }
}

/// Returns whether the binding has an entry among these.
fn has_entry(entries: &[ScopeEntry], binding: BindingId) -> bool
    ensures { result ≡ has_entry binding entries.now }
{
    entries.iter().any(|entry| entry.binding() == binding)
}

/// Returns whether a scope has an entry of the binding.
fn is_bound(scopes: &ExprScopes, binding: BindingId) -> bool
    ensures { result ≡ is_bound scopes.now binding }
{
    for next in 0..scopes.scope_count() {
        if has_entry(scopes.entries(ScopeId::from_raw(next as u32)), binding) {
            return true;
        }
    }
    false
}

/// Returns the binding of the first of these entries that has this name and hygiene and is another one's.
fn first_other(
    entries: &[ScopeEntry],
    binding: BindingId,
    name: &str,
    hygiene: HygieneId,
) -> Option<BindingId>
    ensures { result ≡ first_some (other_of binding name.now hygiene) entries.now }
{
    for entry in entries {
        if entry.hygiene() == hygiene
            && entry.name().as_str() == name
            && entry.binding() != binding
        {
            return Some(entry.binding());
        }
    }
    None
}

/// Returns another binding of this name and hygiene that is bound beside the binding, in one scope.
fn other_beside(
    scopes: &ExprScopes,
    binding: BindingId,
    name: &str,
    hygiene: HygieneId,
) -> Option<BindingId>
    ensures { result ≡ other_beside scopes.now binding name.now hygiene }
{
    for next in 0..scopes.scope_count() {
        let entries = scopes.entries(ScopeId::from_raw(next as u32));
        if !has_entry(entries, binding) {
            continue;
        }
        if let Some(other) = first_other(entries, binding, name, hygiene) {
            return Some(other);
        }
    }
    None
}

/// Returns why a binding has no other name, apart from what uses would resolve to.
#[tactic(auto, using(std::proofs::lemmas::Option::slice_get_past))]
fn refusal(body: &Body, scopes: &ExprScopes, binding: BindingId, name: &str) -> Option<RenameFault>
    ensures { result ≡ refusal body.now scopes.now binding name.now }
{
    let store = body.store();
    if !store.has_binding(binding) || !is_bound(scopes, binding) {
        return Some(RenameFault::NotBound);
    }
    let found = &store[binding];
    if is_self_param(body.self_param(), binding)
        || found.name.as_str() == "self"
        || name == "self"
    {
        return Some(RenameFault::IsSelf);
    }
    match other_beside(scopes, binding, name, found.hygiene) {
        Some(other) => Some(RenameFault::SameFrame { other }),
        None => None,
    }
}

/// Returns those of these uses that resolve to a binding.
#[tactic(auto, using(crate::proofs::GroupLemmas::takes_of))]
fn usages_of(alloc: Global, usages: &[Usage], binding: BindingId) -> Result<Vec<Usage>, AllocError>
    ensures { IfOk result (λ found. found.items ≡ usages_of binding usages.now) }
{
    let mut found = Vec::new(alloc);
    for usage in usages {
        if !usage.resolves_to(binding) {
            continue;
        }
        found.push(*usage)?;
    }
    Ok(found)
}

/// Returns those uses of a body that may resolve to something else where a binding takes a name: its own, and
/// those that ask for the name. Any other finds the entry that it finds now.
fn affected_uses<'a>(
    alloc: Global,
    body: &'a Body,
    scopes: &'a ExprScopes,
    binding: BindingId,
    name: &'a str,
) -> Result<Vec<Usage>, AllocError>
    requires { binding < length body.now.store.nodes.bindings }
    ensures own { IfOk result (λ found. usages_of binding found.items
        ≡ usages_of binding (usages_of_body body.now scopes.now)) }
    ensures conflict { IfOk result (λ found.
        first_conflict body.now.store scopes.now binding name.now found.items
        ≡ first_conflict body.now.store scopes.now binding name.now (usages_of_body body.now scopes.now)) }
{
    body.store().has_no_fault();
    rank_decreases();
    let walk = Walk {
        store: body.store(),
        scopes,
        wanted: Wanted::OfRename(binding, name),
    };
    let found = find(alloc, body, &walk)?;
    Ok(found.usages)
}

/// Returns the uses that take the new name when a binding takes it, in the order of the walk, or why the
/// binding may not have the name: the first fault. It may have it exactly where it has an entry, neither it
/// nor the name is `self`, no frame has another binding of the name and the hygiene beside it, and in the
/// renamed body each use resolves to the binding that it resolved to before, and each that resolved to none
/// still does.
///
/// Fails with `Memory` where an allocation fails. The scopes have to be those of the body, as
/// `ExprScopes::new_body` makes them. It takes time in the number of nodes that the body reaches, and in
/// the scopes and entries of the chains in which names are looked up, and doesn't recurse. Whether the new
/// name is a keyword, `_`, or an item that a pattern of one name would then name isn't in the store.
pub fn rename(
    alloc: Global,
    body: &Body,
    scopes: &ExprScopes,
    binding: BindingId,
    name: &Name,
) -> Result<Vec<Usage>, RenameFault>
    ensures usages { IfOk result (λ found.
        found.items ≡ usages_of binding (usages_of_body body.now scopes.now)) }
    ensures accepted { OnOk result (AreBodyScopes body.now scopes.now
        → MayBeRenamed body.now scopes.now binding name.now) }
    ensures refused { IfErr result (λ fault. (fault ≡ RenameFault.Memory)
        ⊎ (AreBodyScopes body.now scopes.now → IsWhyNot body.now scopes.now binding name.now fault
        × (MayBeRenamed body.now scopes.now binding name.now → ⊥))) }
    ensures ok { OnOk result (rename_fault body.now scopes.now binding name.now ≡ None) }
    ensures fault { IfErr result (λ fault. (fault ≡ RenameFault.Memory)
        ⊎ (rename_fault body.now scopes.now binding name.now ≡ Some fault)) }
{
    body.store().has_no_fault();
    body.has_no_fault();
    renames_are_exact();
    if let Some(fault) = refusal(body, scopes, binding, name.as_str()) {
        return Err(fault);
    }
    let renaming = Renaming {
        store: body.store(),
        scopes,
        binding,
        name: name.as_str(),
    };
    let affected = affected_uses(alloc, body, scopes, binding, name.as_str())?;
    if let Some(conflict) = renaming.first_conflict(affected.as_slice()) {
        return Err(conflict);
    }
    Ok(usages_of(alloc, affected.as_slice(), binding)?)
}
