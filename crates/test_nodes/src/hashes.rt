//! Hashes of nodes that have each kind of part that owns memory, sizes of nodes, and the copy that no golden
//! case asks for.
use crate::build;
use hir_base::{ExternAbi, FunctionId, LangItemTarget, Name};
use hir_collections::{ExactEq, Idx, Seq, ShortList, Text, TryClone};
use hir_node::{
    Binding, Expr, FnType, LifetimeRef, Literal, LiteralOrConst, Mutability, Pat, Path, PathId,
    RefType, TypeBound, TypeRef, TypeRefId, UseArgRef,
};
use std::alloc::{AllocError, Global};
use std::hash::{DefaultHasher, Hash, Hasher};
use std::mem::{drop, size_of};
use std::test::Fail;

fn hash_of<T: Hash>(value: &T) -> u64 {
    let mut state = DefaultHasher::new();
    value.hash(&mut state);
    state.finish()
}

// Whether two values that are made alike hash alike.
fn hash_alike<T: Hash + Drop>(
    one: Result<T, AllocError>,
    second: Result<T, AllocError>,
) -> Result<bool, AllocError> {
    let one = one?;
    let second = second?;
    Ok(hash_of(&one) == hash_of(&second))
}

// Four ids: a list of more than three has memory of its own.
fn four<K>() -> [Idx<K>; 4] {
    [
        Idx::from_raw(1),
        Idx::from_raw(2),
        Idx::from_raw(3),
        Idx::from_raw(4),
    ]
}

// `for<'a, 'b> 1`
fn for_lifetime(alloc: Global) -> Result<TypeBound, AllocError> {
    let path = PathId::from_type_ref_unchecked(Idx::from_raw(1));
    match build::names(alloc, &["'a", "'b"]) {
        Ok(lifetimes) => Ok(TypeBound::ForLifetime(lifetimes, path)),
        Err(error) => Err(error),
    }
}

// `use<'1, T>`
fn use_bound(alloc: Global) -> Result<TypeBound, AllocError> {
    let args = build::one(alloc, UseArgRef::Lifetime(Idx::from_raw(1)));
    build::with(args, Name::new(alloc, "T").map(UseArgRef::Name)).map(TypeBound::Use)
}

fn bounds(alloc: Global) -> Result<Seq<TypeBound>, AllocError> {
    build::with(build::only(alloc, for_lifetime(alloc)), use_bound(alloc))
}

// A parameter of type 1, named `x`.
fn param(alloc: Global) -> Result<(Option<Name>, TypeRefId), AllocError> {
    match Name::new(alloc, "x") {
        Ok(name) => Ok((Some(name), Idx::from_raw(1))),
        Err(error) => Err(error),
    }
}

// `for<'a, 'b> unsafe extern "efiapi" fn(1, ...) -> 2`
fn function(alloc: Global) -> Result<FnType, AllocError> {
    let params = build::only(alloc, param(alloc));
    let params = build::with(params, Ok((None, Idx::from_raw(2))));
    let words = build::zip_ok(
        build::names(alloc, &["'a", "'b"]),
        Text::from_str(alloc, "efiapi"),
    );
    match build::zip_ok(params, words) {
        Ok((params, (binder, abi))) => Ok(FnType {
            binder: Some(binder),
            params,
            is_varargs: true,
            is_unsafe: true,
            abi: ExternAbi::Named(abi),
        }),
        Err(error) => Err(error),
    }
}

// Function 4, as the lang item `new`.
fn item(alloc: Global) -> Result<Path, AllocError> {
    let item = LangItemTarget::FunctionId(FunctionId::from_raw(4));
    match build::in_box(alloc, Name::new(alloc, "new")) {
        Ok(name) => Ok(Path::LangItem(item, Some(name))),
        Err(error) => Err(error),
    }
}

// A shared reference to type 1 with the lifetime 2.
fn reference(alloc: Global) -> Result<TypeRef, AllocError> {
    let reference = RefType {
        ty: Idx::from_raw(1),
        lifetime: Some(Idx::from_raw(2)),
        mutability: Mutability::Shared,
    };
    build::in_box(alloc, Ok(reference)).map(TypeRef::Reference)
}

fn types(alloc: Global) -> Result<Seq<TypeRef>, AllocError> {
    let parts = ShortList::from_slice(alloc, &four());
    let list = build::only(alloc, parts.map(TypeRef::Tuple));
    let list = build::with(list, bounds(alloc).map(TypeRef::DynTrait));
    let list = build::with(list, build::in_box(alloc, function(alloc)).map(TypeRef::Fn));
    let list = build::with(list, reference(alloc));
    let list = build::with(list, item(alloc).map(TypeRef::Path));
    build::with(list, build::nested_path(alloc).map(TypeRef::Path))
}

fn lifetimes(alloc: Global) -> Result<Seq<LifetimeRef>, AllocError> {
    let list = build::only(alloc, Name::new(alloc, "'a").map(LifetimeRef::Named));
    build::with(list, Ok(LifetimeRef::Static))
}

#[test]
fn values_that_are_made_alike_hash_alike(rt: HostRuntime) -> Result<(), Fail> {
    let alloc = rt.alloc();
    let answers = [
        hash_alike(types(alloc), types(alloc)),
        hash_alike(lifetimes(alloc), lifetimes(alloc)),
    ];
    assert!(rt; build::all(&answers)?);
    Ok(())
}

// Whether a copy of the value is the same as it, and as the second one when the value is gone.
fn is_copied<T: TryClone + ExactEq + Drop>(
    made: Result<T, AllocError>,
    second: Result<T, AllocError>,
) -> Result<bool, AllocError> {
    let made = made?;
    let second = second?;
    let copy = made.try_clone()?;
    let was_same = copy.is_same(&made);
    drop(made);
    Ok(was_same && copy == second)
}

// The text `a` as the end of a range, which no node of the store holds.
fn end(alloc: Global) -> Result<LiteralOrConst, AllocError> {
    let text = Text::from_str(alloc, "a").map(Literal::String);
    text.map(LiteralOrConst::Literal)
}

#[test]
fn a_copy_of_the_end_of_a_range_is_the_same(rt: HostRuntime) -> Result<(), Fail> {
    let alloc = rt.alloc();
    assert!(rt; is_copied(end(alloc), end(alloc))?);
    Ok(())
}

// A store has a million of them: what makes one larger is paid by all.
#[test]
fn nodes_keep_their_sizes(rt: HostRuntime) -> Result<(), Fail> {
    assert!(rt; size_of::<Expr>() == 64 && size_of::<Pat>() == 64);
    assert!(rt; size_of::<TypeRef>() == 40 && size_of::<Binding>() == 24);
    assert!(rt; size_of::<Path>() == 32 && size_of::<Literal>() == 48);
    Ok(())
}
