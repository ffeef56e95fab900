//! Additions to tables: what isn't taken, where an allocation fails, comes back as it was given, and may be
//! added again. What tables keep makes no difference to that, so these are tables of numbers, where nothing
//! large is laid out.
use crate::memory::in_a_box;
use hir_base::{
    CrateId, DefWithBodyId, EnumId, EnumVariantId, FunctionId, NamedDef, StructId, TraitId,
    VariantId,
};
use hir_collections::Text;
use hir_defs::{PlainDef, Repr, TablesOf};
use hir_store::Missing;
use std::alloc::{AllocError, AllocFailed, Global};
use std::test::Fail;

type Numbers = TablesOf<u32, u32, u32, u32, u32, u32, u32>;

/// Whether the value was taken, and whether it came back as it was given where it wasn't.
type Added = (bool, bool);

fn added<T: PartialEq + Drop>(outcome: Result<(), AllocFailed<T>>, given: &T) -> Added {
    match outcome {
        Ok(()) => (true, true),
        Err(failed) => (false, failed.value == *given),
    }
}

fn plain() -> PlainDef {
    PlainDef::Trait(TraitId::from_raw(4))
}

fn variant() -> VariantId {
    VariantId::StructId(StructId::from_raw(4))
}

fn body() -> DefWithBodyId {
    DefWithBodyId::FunctionId(FunctionId::from_raw(4))
}

/// Adds signatures, fields and a body of number 4.
fn add_definitions(tables: &mut Numbers) -> [Added; 5] {
    let function = FunctionId::from_raw(4);
    let structure = StructId::from_raw(4);
    [
        added(tables.add_function(function, 1, 10), &(function, (1, 10))),
        added(tables.add_struct(structure, 2, 20), &(structure, (2, 20))),
        added(tables.add_plain(plain(), 3, 30), &(plain(), (3, 30))),
        added(tables.add_fields(variant(), 5, 50), &(variant(), (5, 50))),
        added(tables.add_body(body(), 6, 60), &(body(), (6, 60))),
    ]
}

/// Adds names, the enum of a variant and the layout of a struct, of number 4.
fn add_facts(tables: &mut Numbers, alloc: Global) -> Result<[Added; 4], AllocError> {
    let def = NamedDef::FunctionId(FunctionId::from_raw(4));
    let krate = CrateId::from_raw(4);
    let variant = EnumVariantId::from_raw(4);
    let parent = EnumId::from_raw(7);
    let structure = StructId::from_raw(4);
    let layout = Repr {
        c: true,
        align: Some(8),
        ..Repr::default()
    };
    let name = Some(Text::from_str(alloc, "match")?);
    let crate_name = Some(Text::from_str(alloc, "match")?);
    Ok([
        added(
            tables.add_name(def, name),
            &(def, Some(Text::from_str(alloc, "match")?)),
        ),
        added(
            tables.add_crate_name(krate, crate_name),
            &(krate, Some(Text::from_str(alloc, "match")?)),
        ),
        added(
            tables.add_variant_parent(variant, parent),
            &(variant, parent),
        ),
        added(tables.add_repr(structure, layout), &(structure, layout)),
    ])
}

/// Whether each came back as it was where it wasn't taken, and was taken at one of two times.
fn were_added(first: &[Added], second: &[Added]) -> bool {
    let mut were = true;
    for (one, other) in first.iter().zip(second) {
        were = were && one.1 && other.1 && (one.0 || other.0);
    }
    were
}

/// What the tables have of the signatures of function 4, struct 4 and trait 4, and of the struct's fields.
fn signed(tables: &Numbers) -> [Result<u32, Missing>; 4] {
    let structure = StructId::from_raw(4);
    let plain = PlainDef::Trait(TraitId::from_raw(4));
    [
        tables.function_signature(FunctionId::from_raw(4)).copied(),
        tables.struct_signature(structure).copied(),
        tables.plain_signature(plain).copied(),
        tables
            .variant_fields(VariantId::StructId(structure))
            .copied(),
    ]
}

#[test]
fn what_is_refused_comes_back(rt: HostRuntime) -> Result<(), Fail> {
    let a = rt.alloc();
    let mut tables: Box<Numbers> = in_a_box(a, TablesOf::new(a))?;
    let (first, second) = (add_definitions(&mut tables), add_definitions(&mut tables));
    let facts = add_facts(&mut tables, a)?;
    let facts_again = add_facts(&mut tables, a)?;
    let found = signed(&tables);
    std::mem::drop(tables);
    assert!(&rt; were_added(&first, &second));
    assert!(&rt; were_added(&facts, &facts_again));
    assert!(&rt; found == [Ok(1), Ok(2), Ok(3), Ok(5)]);
    Ok(())
}
