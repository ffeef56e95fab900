//! Lists, paths and generic arguments for the tests. What takes parts that may have been refused is said of
//! any type, or opens them once: each `?` beside which something is owned is dear to prove.
use hir_base::{ModPath, Name, PathKind};
use hir_collections::{Boxed, Idx, Seq};
use hir_node::{
    AssociatedTypeBinding, GenericArg, GenericArgs, GenericArgsParentheses, NormalPath, Path,
    TypeBound, TypeRefId,
};
use std::alloc::{AllocError, Global};

/// A list of one item.
pub fn one<T: Drop>(alloc: Global, item: T) -> Result<Seq<T>, AllocError> {
    let mut list = Seq::new(alloc);
    list.push(item)?;
    Ok(list)
}

/// A list of two items.
pub fn two<T: Drop>(alloc: Global, first: T, second: T) -> Result<Seq<T>, AllocError> {
    let mut list = one(alloc, first)?;
    list.push(second)?;
    Ok(list)
}

/// The list with the item after it, if both could be made.
pub fn with<T: Drop>(
    list: Result<Seq<T>, AllocError>,
    item: Result<T, AllocError>,
) -> Result<Seq<T>, AllocError> {
    let mut list = list?;
    list.push(item?)?;
    Ok(list)
}

/// A list of one item, if it could be made.
pub fn only<T: Drop>(alloc: Global, item: Result<T, AllocError>) -> Result<Seq<T>, AllocError> {
    with(Ok(Seq::new(alloc)), item)
}

/// Both, if they could be made.
pub fn zip_ok<T: Drop, U: Drop>(
    first: Result<T, AllocError>,
    second: Result<U, AllocError>,
) -> Result<(T, U), AllocError> {
    Ok((first?, second?))
}

/// The value in a box, if it could be made.
pub fn in_box<T: Drop>(
    alloc: Global,
    value: Result<T, AllocError>,
) -> Result<Boxed<T>, AllocError> {
    Ok(Boxed::new(alloc, value?)?)
}

/// Whether all of these hold.
pub fn all(answers: &[Result<bool, AllocError>]) -> Result<bool, AllocError> {
    for answer in answers {
        match answer {
            Ok(true) => {}
            Ok(false) => return Ok(false),
            Err(error) => return Err(*error),
        }
    }
    Ok(true)
}

/// The list of these names.
pub fn names(alloc: Global, texts: &[&str]) -> Result<Seq<Name>, AllocError> {
    let mut list = Ok(Seq::new(alloc));
    for text in texts {
        list = with(list, Name::new(alloc, text));
    }
    list
}

/// The path of this kind and these names, if they could be made.
pub fn path(
    alloc: Global,
    kind: PathKind,
    segments: Result<Seq<Name>, AllocError>,
) -> Result<ModPath, AllocError> {
    Ok(ModPath::from_segments(alloc, kind, segments?)?)
}

/// The plain path of these names.
pub fn plain(alloc: Global, texts: &[&str]) -> Result<ModPath, AllocError> {
    path(alloc, PathKind::Plain, names(alloc, texts))
}

/// The plain path of these names, without anchor and arguments.
pub fn bare(alloc: Global, texts: &[&str]) -> Result<Path, AllocError> {
    match plain(alloc, texts) {
        Ok(path) => Ok(Path::BarePath(path)),
        Err(error) => Err(error),
    }
}

/// Type 7, the anchor of the tests.
pub fn anchor() -> TypeRefId {
    Idx::from_raw(7)
}

/// One type as argument, and these bindings.
pub fn type_args(
    alloc: Global,
    ty: u32,
    bindings: Result<Seq<AssociatedTypeBinding>, AllocError>,
) -> Result<GenericArgs, AllocError> {
    match zip_ok(one(alloc, GenericArg::Ty(Idx::from_raw(ty))), bindings) {
        Ok((args, bindings)) => Ok(GenericArgs {
            args,
            has_self_type: false,
            bindings,
            parenthesized: GenericArgsParentheses::No,
        }),
        Err(error) => Err(error),
    }
}

/// The place of a name, with type 3 as its argument or without.
fn place(alloc: Global, has_args: bool) -> Result<Option<GenericArgs>, AllocError> {
    if has_args {
        type_args(alloc, 3, Ok(Seq::new(alloc))).map(Some)
    } else {
        Ok(None)
    }
}

/// For each of so many names a place, the one at `with_args` with type 3 as its argument.
pub fn lists(
    alloc: Global,
    count: usize,
    with_args: Option<usize>,
) -> Result<Seq<Option<GenericArgs>>, AllocError> {
    let mut lists = Ok(Seq::new(alloc));
    for at in 0..count {
        lists = with(lists, place(alloc, with_args == Some(at)));
    }
    lists
}

/// The names after the anchor, with these lists.
pub fn with_lists(
    alloc: Global,
    lists: Result<Seq<Option<GenericArgs>>, AllocError>,
    type_anchor: Option<TypeRefId>,
    texts: &[&str],
) -> Result<Path, AllocError> {
    let path = match zip_ok(lists, plain(alloc, texts)) {
        Ok((generic_args, mod_path)) => Ok(NormalPath {
            generic_args,
            type_anchor,
            mod_path,
        }),
        Err(error) => Err(error),
    };
    in_box(alloc, path).map(Path::Normal)
}

/// The plain path of these names, the first with type 3 as its argument.
pub fn with_args_first(alloc: Global, texts: &[&str]) -> Result<Path, AllocError> {
    with_lists(alloc, lists(alloc, texts.len(), Some(0)), None, texts)
}

/// The path `a::b` after the anchor, whose second name has the nested arguments.
pub fn nested_path(alloc: Global) -> Result<Path, AllocError> {
    let lists = with(only(alloc, Ok(None)), nested_args(alloc).map(Some));
    with_lists(alloc, lists, Some(anchor()), &["a", "b"])
}

/// `<1, B<2, C = 3>: '5 = 4>`: the binding `B` has arguments of its own, a type and a bound.
pub fn nested_args(alloc: Global) -> Result<GenericArgs, AllocError> {
    let inner = binding(alloc, "C", Ok(None), 3, Ok(Seq::new(alloc)));
    let args = type_args(alloc, 2, only(alloc, inner)).map(Some);
    let bounds = one(alloc, TypeBound::Lifetime(Idx::from_raw(5)));
    let outer = binding(alloc, "B", args, 4, bounds);
    type_args(alloc, 1, only(alloc, outer))
}

fn binding(
    alloc: Global,
    name: &str,
    args: Result<Option<GenericArgs>, AllocError>,
    ty: u32,
    bounds: Result<Seq<TypeBound>, AllocError>,
) -> Result<AssociatedTypeBinding, AllocError> {
    match zip_ok(Name::new(alloc, name), zip_ok(args, bounds)) {
        Ok((name, (args, bounds))) => Ok(AssociatedTypeBinding {
            name,
            args,
            type_ref: Some(Idx::from_raw(ty)),
            bounds,
        }),
        Err(error) => Err(error),
    }
}
