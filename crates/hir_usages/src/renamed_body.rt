//! The body in which a binding has a new name.
#![tactic(auto, using(crate::proofs::ChangeLemmas::changing))]

ghost use Rattle.std.specs.Prelude.{◌≡◌, ◌⊎◌, None, Some, IfErr, IfOk, OnOk, fold, unwrap_or};
ghost use Rattle.hir_scope.specs.BodyScopes.{AreBodyScopes};
ghost use Rattle.hir_usages.specs.Kept.{IsWhyNot, MayBeRenamed};
ghost use Rattle.hir_usages.specs.Renamed.{change_at, rename_binding, rename_path, renamed_binding, renamed_body, renamed_expr, renamed_nodes, renamed_pat, renamed_path, with_nodes};
ghost use Rattle.hir_usages.specs.Renames.{rename_fault};
ghost use Rattle.hir_usages.specs.internal.RenamedUses.{rename_use};

use crate::rename_fault::RenameFault;
use crate::renames::rename;
use crate::usage::Usage;
use hir_base::{ModPath, Name};
use hir_body::Body;
use hir_collections::{Arena, Seq, TryClone};
use hir_node::{
    Binding, BindingId, BindingKind, Expr, ExprId, ExprKind, ExprOrPatId, Pat, PatId, PatKind, Path,
};
use hir_scope::ExprScopes;
use hir_store_core::ExpressionStore;
use hir_validate::Nodes;
use std::alloc::{AllocError, Global};

/// Returns the path of one name, where a path has no arguments, and none for any other path, which stays.
fn new_path(path: &Path, name: &Name) -> Result<Option<Path>, AllocError>
    ensures { IfOk result (λ made. unwrap_or made path.now ≡ renamed_path name.now path.now) }
{
    match path {
        Path::BarePath(_) => {
            let name = name.try_clone()?;
            Ok(Some(Path::BarePath(ModPath::from_name(name))))
        }
        Path::Normal(_) | Path::LangItem(_, _) => Ok(None),
    }
}

/// Gives an expression the new name, where it is a path.
fn rename_expr(exprs: &mut Arena<ExprKind, Expr>, id: ExprId, name: &Name) -> Result<(), AllocError>
    ensures { OnOk result (exprs.new ≡ change_at (renamed_expr name.now) exprs.old id) }
{
    if !exprs.has(id) {
        return Ok(());
    }
    let Expr::Path(path) = &exprs[id] else {
        return Ok(());
    };
    if let Some(path) = new_path(path, name)? {
        exprs[id] = Expr::Path(path);
    }
    Ok(())
}

/// Gives a pattern the new name, where it is a path.
fn rename_pat(pats: &mut Arena<PatKind, Pat>, id: PatId, name: &Name) -> Result<(), AllocError>
    ensures { OnOk result (pats.new ≡ change_at (renamed_pat name.now) pats.old id) }
{
    if !pats.has(id) {
        return Ok(());
    }
    let Pat::Path(path) = &pats[id] else {
        return Ok(());
    };
    if let Some(path) = new_path(path, name)? {
        pats[id] = Pat::Path(path);
    }
    Ok(())
}

/// Gives a binding the new name.
fn rename_binding(
    bindings: &mut Arena<BindingKind, Binding>,
    id: BindingId,
    name: &Name,
) -> Result<(), AllocError>
    ensures { OnOk result (bindings.new ≡ change_at (renamed_binding name.now) bindings.old id) }
{
    if !bindings.has(id) {
        return Ok(());
    }
    let Binding {
        mode,
        problems,
        hygiene,
        name: _,
    } = bindings[id].try_clone()?;
    bindings[id] = Binding {
        name: name.try_clone()?,
        mode,
        problems,
        hygiene,
    };
    Ok(())
}

/// Gives a path the new name.
fn rename_path(nodes: &mut Nodes, path: ExprOrPatId, name: &Name) -> Result<(), AllocError>
    ensures { OnOk result (nodes.new ≡ rename_path name.now nodes.old path) }
{
    match path {
        ExprOrPatId::ExprId(id) => rename_expr(&mut nodes.exprs, id, name),
        ExprOrPatId::PatId(id) => rename_pat(&mut nodes.pats, id, name),
    }
}

/// Gives a binding and the paths of these uses the new name.
fn rename_nodes(
    nodes: &mut Nodes,
    usages: &[Usage],
    binding: BindingId,
    name: &Name,
) -> Result<(), AllocError>
    ensures { OnOk result (nodes.new
        ≡ fold (rename_use name.now) (rename_binding name.now nodes.old binding) usages.now) }
{
    rename_binding(&mut nodes.bindings, binding, name)?;
    for usage in usages {
        rename_path(nodes, usage.path, name)?;
    }
    Ok(())
}

/// Returns a copy of a store in which a binding and the paths of these uses have the new name.
fn renamed_store(
    store: &ExpressionStore,
    usages: &[Usage],
    binding: BindingId,
    name: &Name,
) -> Result<ExpressionStore, AllocError>
    ensures { IfOk result (λ made. made
        ≡ with_nodes store.now (renamed_nodes name.now binding usages.now store.now.nodes)) }
{
    let copy = store.try_clone()?;
    let (mut nodes, roots, side_tables, kept) = copy.into_parts();
    rename_nodes(&mut nodes, usages, binding, name)?;
    Ok(ExpressionStore::new(nodes, roots, side_tables, kept))
}

/// Returns a copy of a body in which a binding has a new name, and so have its uses, as `rename` returns
/// them; nodes have the same ids in it. Or it returns why the binding may not have the name, as `rename`
/// does.
///
/// Fails with `Memory` where an allocation fails. It takes the time of `rename`, and time in the size of the
/// body.
pub fn renamed(
    alloc: Global,
    body: &Body,
    scopes: &ExprScopes,
    binding: BindingId,
    name: &Name,
) -> Result<Body, RenameFault>
    ensures body { IfOk result (λ made. made ≡ renamed_body body.now scopes.now binding name.now) }
    ensures accepted { OnOk result (AreBodyScopes body.now scopes.now
        → MayBeRenamed body.now scopes.now binding name.now) }
    ensures refused { IfErr result (λ fault. (fault ≡ RenameFault.Memory)
        ⊎ (AreBodyScopes body.now scopes.now → IsWhyNot body.now scopes.now binding name.now fault
        × (MayBeRenamed body.now scopes.now binding name.now → ⊥))) }
    ensures ok { OnOk result (rename_fault body.now scopes.now binding name.now ≡ None) }
    ensures fault { IfErr result (λ fault. (fault ≡ RenameFault.Memory)
        ⊎ (rename_fault body.now scopes.now binding name.now ≡ Some fault)) }
{
    let usages = rename(alloc, body, scopes, binding, name)?;
    let store = renamed_store(body.store(), usages.as_slice(), binding, name)?;
    let params = Seq::from_vec(body.params().to_vec(alloc)?);
    match Body::new(alloc, store, params, body.self_param()) {
        Ok(made) => Ok(made),
        // An allocation failed: the renamed body has no fault, as `renamed_bodies_have_no_fault` says.
        Err(_) => Err(RenameFault::Memory),
    }
}
