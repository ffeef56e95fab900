//! A tour: a body is built by calls, finished, printed, walked and searched, and the name `x` is resolved at
//! each expression.
ghost use Rattle.std.specs.Prelude.{◌≡◌, ◌<◌, length, option_map};
ghost use Rattle.std.specs.FinMap as map;
ghost use Rattle.hir.specs.RootSearch.{root_for_expr};
ghost use Rattle.hir.specs.ScopePaths.{chain};
ghost use Rattle.hir.specs.Resolution.{resolve};

use hir::{
    BindingId, Body, DefWithBodyId, Edition, Expr, ExprId, ExprScopes, ExpressionStore,
    ExpressionStoreBuilder, FunctionId, HirError, HygieneId, Mutability, Name, NamedDef, Rawness,
    Tables, Text, bind, block, let_, local, params, print_body_hir,
};
use std::alloc::Global;

/// The body of `fn f(x) { let x = &x; x }`.
fn build(alloc: Global) -> Result<Body, HirError> {
    let mut builder = ExpressionStoreBuilder::new(alloc);
    let param = bind(alloc, &mut builder, "x")?;
    let shadow = bind(alloc, &mut builder, "x")?;
    let outer = local(alloc, &mut builder, "x")?;
    let by_ref = builder.alloc_expr(Expr::Ref {
        expr: outer,
        rawness: Rawness::Ref,
        mutability: Mutability::Shared,
    })?;
    let inner = local(alloc, &mut builder, "x")?;
    let statements = vec![in alloc; let_(shadow, by_ref)]?;
    let root = block(&mut builder, statements, inner)?;
    builder.push_root(root)?;
    let (store, _sources) = builder.finish()?;
    Ok(Body::new(alloc, store, params(alloc, &[param])?, None)?)
}

/// The text of a function with this name and this body.
pub fn text(alloc: Global, name: &str, body: &Body) -> Result<String, HirError> {
    let id = FunctionId::from_raw(0);
    let mut tables = Tables::new(alloc);
    tables.add_name(NamedDef::FunctionId(id), Some(Text::from_str(alloc, name)?))?;
    let owner = DefWithBodyId::FunctionId(id);
    Ok(print_body_hir(alloc, &tables, body, owner, Edition::Edition2021)?)
}

/// The child expressions of an expression, in order.
fn children(alloc: Global, store: &ExpressionStore, expr: ExprId) -> Result<Vec<ExprId>, HirError>
    requires { expr < length store.now.nodes.exprs }
{
    let mut found = Vec::new(alloc);
    store.try_walk_child_exprs(expr, &mut |child: ExprId| found.push(child))?;
    Ok(found)
}

/// The root that an expression was made for, where there is one.
fn root_of(store: &ExpressionStore, expr: ExprId) -> Option<ExprId>
    ensures { result ≡ root_for_expr store.now.roots expr }
{
    if store.covers_expr(expr) {
        Some(store.find_root_for_expr(expr))
    } else {
        None
    }
}

/// The binding that a name of this hygiene resolves to at an expression, where it resolves to one.
fn resolved_at(
    scopes: &ExprScopes,
    expr: ExprId,
    name: &Name,
    hygiene: HygieneId,
) -> Option<BindingId>
    ensures { result ≡ option_map (λ entry. entry.binding)
        (resolve (chain scopes.now.scopes (map.get scopes.now.scope_by_expr expr)) name.now hygiene) }
{
    let scope = scopes.scope_for(expr)?;
    let entry = scopes.resolve_name_in_scope(scope, name, hygiene)?;
    Some(entry.binding())
}

/// Prints the children of the root.
fn print_children(rt: &impl Print, alloc: Global, body: &Body) -> anyhow::Result<()> {
    for child in &children(alloc, body.store(), body.root_expr())? {
        println!(rt; "expression {} is a child of the root", child.into_raw())?;
    }
    Ok(())
}

/// Prints the root that each expression belongs to, and the binding that `x` resolves to there.
fn print_resolved(rt: &impl Print, alloc: Global, body: &Body) -> anyhow::Result<()> {
    let store = body.store();
    let scopes = ExprScopes::new_body(alloc, body).map_err(HirError::from)?;
    let x = Name::new(alloc, "x")?;
    for (id, _) in store.exprs() {
        if let (Some(root), Some(binding)) = (
            root_of(store, id),
            resolved_at(&scopes, id, &x, HygieneId::ROOT),
        ) {
            println!(rt;
                "expression {} is under root {}, and x is binding {} there",
                id.into_raw(),
                root.into_raw(),
                binding.into_raw()
            )?;
        }
    }
    Ok(())
}

/// Prints the body as text, the children of its root, and what `x` resolves to in it.
pub fn print(rt: &impl Print, alloc: Global) -> anyhow::Result<()> {
    let body = build(alloc)?;
    println!(rt; "{}", text(alloc, "f", &body)?)?;
    print_children(rt, alloc, &body)?;
    print_resolved(rt, alloc, &body)
}
