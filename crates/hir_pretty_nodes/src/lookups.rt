//! What is looked up in the tables and in the store: names of definitions and of parameters, lifetimes,
//! bindings and labels.

ghost use Rattle.std.specs.Prelude.{◌≡◌, Ok, option_copied};
ghost use Rattle.hir_pretty_nodes.specs.Prelude.{PrintEnv, lifetime_docs, found_name, type_param_docs, lookup_docs, lookups_of, found_docs, Finds};
ghost use Rattle.hir_store_core.specs.Contents.{Contents};

use hir_base::{Name, NamedDef, TypeParamId};
use hir_collections::Text;
use hir_defs::{GenericParams, Tables};
use hir_node::{Binding, LifetimeRef};
use hir_pretty_docs::Lookup;
use hir_store_core::{ExpressionStore, Missing};

/// What was found.
#[derive(Clone, Copy)]
pub(crate) enum Found<'a> {
    /// Nothing is printed.
    Nothing,
    /// A text, written as it is.
    Text(&'a str),
    /// A name, with `r#` where the edition's words list it.
    Name(&'a Name),
    /// The number of a parameter without a name.
    Param(u32),
    /// A binding.
    Binding(&'a Binding),
}

/// A name as the tables have it, or a default where there is none.
fn name_or<'a>(name: Option<&'a Text>, default: &'a str) -> Found<'a>
    ensures { (s : PrintEnv) → found_docs s result ≡ found_name default.now (Ok (option_copied name.entry)) }
{
    match name {
        None => Found::Text(default),
        Some(name) => Found::Text(name.as_str()),
    }
}

/// The name of a type or constant parameter, or its number where it has none.
fn param_name(tables: &Tables, id: TypeParamId) -> Result<Found<'_>, Missing>
    ensures { (store : Contents) → Finds store (lookups_of tables.now)
        (λ s. type_param_docs s id.local_id (s.tables.type_param id)) result }
{
    let params = GenericParams::of(tables, id.parent())?;
    if params.has_type_or_const(id.local_id()) {
        return match params[id.local_id()].name() {
            None => Ok(Found::Param(id.local_id().into_raw())),
            Some(name) => Ok(Found::Name(name)),
        };
    }
    Err(Missing::TypeParam(id))
}

fn lifetime_name<'a>(tables: &'a Tables, lifetime: &'a LifetimeRef) -> Result<Found<'a>, Missing>
    ensures { (store : Contents) → Finds store (lookups_of tables.now)
        (λ s. lifetime_docs s lifetime.now) result }
{
    match lifetime {
        LifetimeRef::Named(name) => Ok(Found::Name(name)),
        LifetimeRef::Static => Ok(Found::Text("'static")),
        LifetimeRef::Placeholder => Ok(Found::Text("'_")),
        LifetimeRef::Param(id) => {
            let params = GenericParams::of(tables, id.parent)?;
            if params.has_lifetime(id.local_id) {
                return Ok(Found::Name(&params[id.local_id].name));
            }
            Err(Missing::LifetimeParam(*id))
        }
        LifetimeRef::Error => Ok(Found::Text("'{error}")),
    }
}

/// What is found in the store and the tables, or what is missing there.
pub(crate) fn look_up<'a>(
    store: &'a ExpressionStore,
    tables: &'a Tables,
    lookup: Lookup,
) -> Result<Found<'a>, Missing>
    ensures { Finds store.now (lookups_of tables.now) (λ s. lookup_docs s lookup) result }
{
    match lookup {
        Lookup::Label(id) if store.has_label(id) => Ok(Found::Name(&store[id].name)),
        Lookup::Lifetime(id) if store.has_lifetime(id) => lifetime_name(tables, &store[id]),
        Lookup::Binding(id) if store.has_binding(id) => Ok(Found::Binding(&store[id])),
        Lookup::Label(_) | Lookup::Lifetime(_) | Lookup::Binding(_) => Ok(Found::Nothing),
        Lookup::Def(def) => Ok(name_or(tables.name(def)?, "<missing>")),
        Lookup::Const(id) => Ok(name_or(tables.name(NamedDef::ConstId(id))?, "_")),
        Lookup::Crate(id) => Ok(name_or(tables.crate_name(id)?, "$crate")),
        Lookup::TypeParam(id) => param_name(tables, id),
    }
}
