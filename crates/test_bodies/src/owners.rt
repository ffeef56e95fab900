//! Scopes that are looked up in tables, by an owner of each of the three kinds as it is.
use crate::memory::{first, in_a_box, was_taken};
use crate::trees::{self, One, Tree};
use hir_base::{AdtId, DefWithBodyId, FunctionId, GenericDefId, Name, StructId, VariantId};
use hir_body::{Body, BodySourceMap};
use hir_collections::Seq;
use hir_defs::Tables;
use hir_scope::{ExprScopes, ScopesFault};
use hir_signature::{
    FieldsShape, GenericParams, StructParts, StructSignature, VariantFields, VariantParts,
};
use hir_store::{ExpressionStoreBuilder, ExpressionStoreSourceMap};
use std::alloc::Global;
use std::test::Fail;

/// A literal, which is a root.
const ONE_ROOT: Tree = Tree {
    bindings: &[],
    pats: &[],
    exprs: &[One],
    roots: Some(&[0]),
};

/// Two literals, each of which is a root.
const TWO_ROOTS: Tree = Tree {
    bindings: &[],
    pats: &[],
    exprs: &[One, One],
    roots: Some(&[0, 1]),
};

/// Three literals, each of which is a root.
const THREE_ROOTS: Tree = Tree {
    bindings: &[],
    pats: &[],
    exprs: &[One, One, One],
    roots: Some(&[0, 1, 2]),
};

/// A source map without entries.
fn no_sources(alloc: Global) -> Result<Box<ExpressionStoreSourceMap>, Fail> {
    first(alloc, swapped(ExpressionStoreBuilder::new(alloc).finish()))
}

/// A pair with its second part first.
fn swapped<T: Drop, U: Drop, R: Drop>(outcome: Result<(T, U), R>) -> Result<(U, T), R> {
    match outcome {
        Ok((first, second)) => Ok((second, first)),
        Err(refused) => Err(refused),
    }
}

/// Adds the signature of struct 4, whose store has two roots.
fn add_signature(alloc: Global, tables: &mut Tables) -> Result<(), Fail> {
    let sources = no_sources(alloc)?;
    let store = trees::store(alloc, &[], &TWO_ROOTS)?;
    let name = Name::new(alloc, "S")?;
    let signature = StructSignature::new(StructParts {
        name,
        generic_params: GenericParams::empty(alloc),
        store: Box::into_inner(store),
        is_fundamental: false,
        shape: FieldsShape::Unit,
    })?;
    was_taken(tables.add_struct(StructId::from_raw(4), signature, Box::into_inner(sources)))
}

/// Adds the fields of struct 4, whose store has three roots.
fn add_fields(alloc: Global, tables: &mut Tables) -> Result<(), Fail> {
    let sources = no_sources(alloc)?;
    let store = trees::store(alloc, &[], &THREE_ROOTS)?;
    let fields = VariantFields::new(VariantParts {
        shape: FieldsShape::Unit,
        fields: Seq::new(alloc),
        store: Box::into_inner(store),
    })?;
    was_taken(tables.add_fields(
        VariantId::StructId(StructId::from_raw(4)),
        fields,
        Box::into_inner(sources),
    ))
}

/// Adds the body of function 4, whose store has one root.
fn add_body(alloc: Global, tables: &mut Tables) -> Result<(), Fail> {
    let sources = no_sources(alloc)?;
    let store = trees::store(alloc, &[], &ONE_ROOT)?;
    let body = Body::new(alloc, Box::into_inner(store), Seq::new(alloc), None)?;
    was_taken(tables.add_body(
        DefWithBodyId::FunctionId(FunctionId::from_raw(4)),
        body,
        BodySourceMap::new(Box::into_inner(sources), None),
    ))
}

/// Tables with one owner of each kind.
fn tables_of_owners(alloc: Global) -> Result<Box<Tables>, Fail> {
    let mut tables = in_a_box(alloc, Tables::new(alloc))?;
    add_signature(alloc, &mut tables)?;
    add_fields(alloc, &mut tables)?;
    add_body(alloc, &mut tables)?;
    Ok(tables)
}

/// How many scopes were made.
fn count(outcome: Result<ExprScopes, ScopesFault>) -> Result<usize, ScopesFault> {
    match outcome {
        Ok(scopes) => Ok(scopes.scope_count()),
        Err(fault) => Err(fault),
    }
}

/// How many scopes the store of the signature of this struct has.
fn of_signature(alloc: Global, tables: &Tables, id: u32) -> Result<usize, ScopesFault> {
    let owner = GenericDefId::AdtId(AdtId::StructId(StructId::from_raw(id)));
    count(ExprScopes::of(alloc, tables, owner))
}

/// How many scopes the body of this function has.
fn of_body(alloc: Global, tables: &Tables, id: u32) -> Result<usize, ScopesFault> {
    let owner = DefWithBodyId::FunctionId(FunctionId::from_raw(id));
    count(ExprScopes::of(alloc, tables, owner))
}

/// How many scopes the store of the fields of this struct has.
fn of_fields(alloc: Global, tables: &Tables, id: u32) -> Result<usize, ScopesFault> {
    let owner = VariantId::StructId(StructId::from_raw(id));
    count(ExprScopes::of(alloc, tables, owner))
}

/// `ExprScopes::of` looks up an owner of any kind: a body, whose root has one scope here, and the stores of a
/// signature and of fields, which have a scope around all roots and one of each. What tables lack is
/// `Missing`.
#[test]
fn each_kind_of_owner_is_looked_up(rt: HostRuntime) -> Result<(), Fail> {
    let a = rt.alloc();
    let tables = tables_of_owners(a)?;
    let found = [
        of_signature(a, &tables, 4),
        of_fields(a, &tables, 4),
        of_body(a, &tables, 4),
    ];
    let absent = [
        of_signature(a, &tables, 5),
        of_fields(a, &tables, 5),
        of_body(a, &tables, 5),
    ];
    std::mem::drop(tables);
    assert!(&rt; found == [Ok(3), Ok(4), Ok(1)]);
    assert!(&rt; absent == [Err(ScopesFault::Missing); 3]);
    Ok(())
}
