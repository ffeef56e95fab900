//! Paths with their generic arguments, as `crate::foo` or `<Type as Trait>::bar::<u8>`.
//! The views of a path's segments are in `segments`.
ghost use Rattle.std.specs.Prelude.{◌≡◌, ◌↔◌, IfOk, IfErr, IsTrue, length, IsOk, [], None};
ghost use Rattle.std.specs.Option.{option_copied, option_to_list};
ghost use Rattle.hir_collections.specs.Exact.{exact};
ghost use Rattle.hir_path.specs.Paths.{no_args, but_last};
ghost use Rattle.hir_path.specs.Lists.{all_but};

use crate::bound::{ConstRef, TypeBound};
use crate::ids::{LifetimeRefId, TypeRefId};
use crate::segments::PathSegments;
use hir_base::{LangItemTarget, ModPath, Name, PathKind};
use hir_collections::{Boxed, ExactEq, Seq, TryClone};
use std::alloc::{AllocError, AllocFailed, Global};
use std::slice;

/// A path. It takes 32 bytes.
#[derive(Drop, Clone, PartialEq, Eq, Hash)]
pub enum Path {
    /// A path with neither generic arguments nor a type anchor, as most are.
    BarePath(ModPath),
    /// A path with generic arguments or a type anchor, as `Vec::<u8>::new`: one list of arguments for each
    /// segment.
    Normal(Boxed<NormalPath>),
    /// A lang item, and perhaps one name in it. Lowering makes these where the path to the item might be
    /// private.
    LangItem(LangItemTarget, Option<Boxed<Name>>),
}

impl ExactEq for Path {
    ghost use Rattle.hir_path.specs.same.SamePaths.{paths_decide};

    ghost eq_decides = { paths_decide };
}

impl TryClone for Path {
    ghost clone_is_same = { Prim.search exact };
}

impl Path {
    ghost use Rattle.hir_base.specs.ModPath.{ModPath};
    ghost use Rattle.hir_path.specs.Paths.{kind_of, anchor_of, lists_of, mod_path_of, segments_of, without_anchor, one_name, path_with, qualifier, IsSelfType};
    ghost use Rattle.hir_path.specs.Segments.{OneListEach, segments_in};

    /// Returns the path with these arguments, which must be one list for each segment: a `BarePath` if no
    /// segment has arguments.
    ///
    /// Returns an error if the allocation fails: the error gives the parts back.
    pub fn from_known_path(
        alloc: Global,
        path: ModPath,
        generic_args: Seq<Option<GenericArgs>>,
    ) -> Result<Path, AllocFailed<NormalPath>>
        requires one_list_each { length generic_args ≡ length path.segments }
        ensures ok { IfOk result (λ made. made ≡ path_with None path generic_args) }
        ensures value_returned { IfErr result (λ failed. failed.value ≡ without_anchor path generic_args) }
    {
        Path::with(
            alloc,
            NormalPath {
                generic_args,
                type_anchor: None,
                mod_path: path,
            },
        )
    }

    /// Returns the path without arguments. It takes no memory.
    pub fn from_known_path_with_no_generic(mod_path: ModPath) -> Path
        ensures { result ≡ Path.BarePath mod_path }
    {
        Path::BarePath(mod_path)
    }

    /// Returns the plain path of one name. It takes no memory and never fails; its signature is that of the
    /// other constructors.
    pub fn from_name(_alloc: Global, name: Name) -> Result<Path, AllocFailed<Name>>
        ensures ok { IfOk result (λ made. made ≡ one_name name) }
        ensures never_refused { IsOk result }
        ensures value_returned { IfErr result (λ failed. failed.value ≡ name) }
    {
        Ok(Path::BarePath(ModPath::from_name(name)))
    }

    /// Returns where the path begins: at `Abs` for a lang item.
    pub fn kind(&self) -> PathKind
        ensures { result ≡ kind_of self.now }
    {
        match self {
            Path::BarePath(path) => path.kind(),
            Path::Normal(path) => path.get().mod_path.kind(),
            Path::LangItem(_, _) => PathKind::Abs,
        }
    }

    /// Returns the type that the path begins at, if it has one.
    pub fn type_anchor(&self) -> Option<TypeRefId>
        ensures { result ≡ anchor_of self.now }
    {
        match self {
            Path::Normal(path) => path.get().type_anchor,
            Path::BarePath(_) | Path::LangItem(_, _) => None,
        }
    }

    /// Returns the arguments of the segments, if the path is `Normal`.
    pub fn generic_args(&self) -> Option<&[Option<GenericArgs>]>
        ensures { option_copied result ≡ lists_of self.now }
    {
        match self {
            Path::Normal(path) => Some(path.get().generic_args.as_slice()),
            Path::BarePath(_) | Path::LangItem(_, _) => None,
        }
    }

    /// Returns the segments. That of a lang item is its name, if it has one.
    pub fn segments(&self) -> PathSegments<'_>
        ensures { segments_in result ≡ segments_of self.now }
    {
        match self {
            Path::BarePath(path) => PathSegments::new(path.segments(), None),
            Path::Normal(path) => PathSegments::new(
                path.get().mod_path.segments(),
                Some(path.get().generic_args.as_slice()),
            ),
            Path::LangItem(_, name) => PathSegments::new(name_as_slice(name), None),
        }
    }

    /// Returns the path without anchor and arguments. `None` for a lang item.
    pub fn mod_path(&self) -> Option<&ModPath>
        ensures { option_copied result ≡ mod_path_of self.now }
    {
        match self {
            Path::BarePath(path) => Some(path),
            Path::Normal(path) => Some(&path.get().mod_path),
            Path::LangItem(_, _) => None,
        }
    }

    /// Returns the path before the last segment: without that segment and its arguments, and a `BarePath` if
    /// no anchor and no arguments are left. `None` for a lang item, for an identifier, even after an anchor,
    /// and if there are no segments. A `Normal` path must have one list of arguments for each segment: an
    /// empty list of lists isn't enough for one segment.
    ///
    /// Returns an error if the allocation fails.
    pub fn qualifier(&self, alloc: Global) -> Result<Option<Path>, AllocError>
        requires one_list_each { OneListEach (segments_of self.now) }
        ensures { IfOk result (λ found. found ≡ qualifier self.now) }
    {
        match self {
            Path::BarePath(path) => {
                if path.is_ident() || path.segments().is_empty() {
                    return Ok(None);
                }
                Ok(Some(Path::BarePath(without_last(alloc, path)?)))
            }
            Path::Normal(path) => {
                let path = path.get();
                if path.mod_path.is_ident() || path.mod_path.segments().is_empty() {
                    return Ok(None);
                }
                let shorter = NormalPath {
                    generic_args: all_but_last(alloc, path.generic_args.as_slice())?,
                    type_anchor: path.type_anchor,
                    mod_path: without_last(alloc, &path.mod_path)?,
                };
                Ok(Some(Path::with(alloc, shorter)?))
            }
            Path::LangItem(_, _) => Ok(None),
        }
    }

    /// Returns whether the path is `Self`, with no anchor and no arguments.
    pub fn is_self_type(&self) -> bool
        ensures { IsTrue result ↔ IsSelfType self.now }
    {
        match self {
            Path::BarePath(path) => path.is_Self(),
            Path::Normal(path) => {
                let path = path.get();
                path.type_anchor.is_none()
                    && path.mod_path.is_Self()
                    && has_no_args(path.generic_args.as_slice())
            }
            Path::LangItem(_, _) => false,
        }
    }

    /// Returns the path with these parts: a `BarePath` if it has neither an anchor nor arguments.
    fn with(alloc: Global, path: NormalPath) -> Result<Path, AllocFailed<NormalPath>>
        ensures ok { IfOk result (λ made. made ≡ path_with path.type_anchor path.mod_path path.generic_args) }
        ensures value_returned { IfErr result (λ failed. failed.value ≡ path) }
    {
        if path.type_anchor.is_none() && has_no_args(path.generic_args.as_slice()) {
            return Ok(Path::BarePath(path.mod_path));
        }
        Ok(Path::Normal(Boxed::new(alloc, path)?))
    }
}

/// Returns the name, if there is one, as a list.
fn name_as_slice(name: &Option<Boxed<Name>>) -> &[Name]
    ensures { result.now ≡ option_to_list name.now }
{
    match name {
        Some(name) => slice::from_ref(name.get()),
        None => &[],
    }
}

/// Returns whether no segment has arguments.
fn has_no_args(lists: &[Option<GenericArgs>]) -> bool
    ensures { result ≡ no_args lists.now }
{
    lists.iter().all(|args| args.is_none())
}

/// Returns the path without its last segment.
fn without_last(alloc: Global, path: &ModPath) -> Result<ModPath, AllocError>
    ensures { IfOk result (λ made. made ≡ but_last path.now) }
{
    let shorter = all_but_last(alloc, path.segments())?;
    Ok(ModPath::from_segments(alloc, path.kind(), shorter)?)
}

/// Returns copies of all items but the last.
fn all_but_last<T: TryClone + Drop>(alloc: Global, items: &[T]) -> Result<Seq<T>, AllocError>
    ensures { IfOk result (λ made. made ≡ all_but 1 items.now) }
{
    let kept = &items[..items.len().saturating_sub(1)];
    Ok(Seq::from_vec(kept.to_vec(alloc)?))
}

/// A path with generic arguments or a type anchor.
///
/// There is one list of arguments for each segment. A list may be absent, but its place is kept:
/// `Vec::<u8>::new` has the lists `[Some([u8]), None]`. A store refuses a path with fewer or more places
/// than segments, as one with no place for one segment.
#[derive(Drop, Clone, PartialEq, Eq, Hash)]
pub struct NormalPath {
    /// For each segment its arguments, if it has any.
    pub generic_args: Seq<Option<GenericArgs>>,
    /// The type that the path begins at, as the `T` of `<T>::f`.
    pub type_anchor: Option<TypeRefId>,
    /// The path without its arguments.
    pub mod_path: ModPath,
}

impl ExactEq for NormalPath {
    ghost use Rattle.hir_path.specs.same.SamePaths.{normals_decide};

    ghost eq_decides = { normals_decide };
}

impl TryClone for NormalPath {
    ghost clone_is_same = { Prim.search exact };
}

/// How generic arguments were written.
#[derive(Clone, Copy, PartialEq, Eq, Hash)]
pub enum GenericArgsParentheses {
    /// Without parentheses.
    No,
    /// As `(..)`, which names the type that a function returns.
    ReturnTypeNotation,
    /// As the arguments and the result of `Fn(A, B) -> C`: one argument, a tuple, and a binding of `Output`.
    ParenSugar,
}

impl ExactEq for GenericArgsParentheses {
    ghost eq_decides = { Prim.search exact };
}

impl TryClone for GenericArgsParentheses {
    ghost clone_is_same = { Prim.search exact };
}

/// The generic arguments of one segment, as the `<u8, Item = T>` of `Iter<u8, Item = T>`.
#[cycle(generic_args)]
#[derive(Drop, PartialEq, Eq, Hash)]
pub struct GenericArgs {
    pub args: Seq<GenericArg>,
    /// Whether the first argument is the self type of a trait, as the `T` of `<T as Trait>`.
    pub has_self_type: bool,
    /// The bindings and bounds of associated types.
    pub bindings: Seq<AssociatedTypeBinding>,
    pub parenthesized: GenericArgsParentheses,
}

/// The binding or bounds of one associated type, as the `Item = T` of `Iterator<Item = T>` or the
/// `Item: Debug` of `Iterator<Item: Debug>`.
#[cycle(generic_args)]
#[derive(Drop, PartialEq, Eq, Hash)]
pub struct AssociatedTypeBinding {
    /// The name of the associated type, as `Item`.
    pub name: Name,
    /// The arguments of the associated type itself, as the `'a` of `Lend<Item<'a> = &'a T>`.
    pub args: Option<GenericArgs>,
    /// The type that it is: the `T` of `Item = T`. `None` if it only has bounds, as in `Item: Debug`.
    pub type_ref: Option<TypeRefId>,
    /// The bounds that it has: the `Debug` of `Item: Debug`. Empty for `Item = T`.
    pub bounds: Seq<TypeBound>,
}

/// One generic argument.
#[derive(Clone, Copy, PartialEq, Eq, Hash)]
pub enum GenericArg {
    Ty(TypeRefId),
    Lifetime(LifetimeRefId),
    Const(ConstRef),
}

impl ExactEq for GenericArg {
    ghost eq_decides = { Prim.search exact };
}

impl TryClone for GenericArg {
    ghost clone_is_same = { Prim.search exact };
}

impl ExactEq for GenericArgs {
    ghost use Rattle.hir_path.specs.same.SameArgs.{args_decides};

    ghost eq_decides = { args_decides };
}

impl ExactEq for AssociatedTypeBinding {
    ghost use Rattle.hir_path.specs.same.SameArgs.{binding_decides};

    ghost eq_decides = { binding_decides };
}

#[cycle(clone_args)]
fn clone_args(args: &GenericArgs) -> Result<GenericArgs, AllocError>
    ensures { IfOk result (λ copy. copy ≡ args.now) }
{
    let items = args.args.try_clone()?.into_vec();
    let bindings = clone_bindings(*items.allocator(), args.bindings.as_slice())?;
    Ok(GenericArgs {
        args: Seq::from_vec(items),
        has_self_type: args.has_self_type,
        bindings,
        parenthesized: args.parenthesized,
    })
}

#[cycle(clone_args)]
fn clone_bindings(
    alloc: Global,
    bindings: &[AssociatedTypeBinding],
) -> Result<Seq<AssociatedTypeBinding>, AllocError>
    ensures { IfOk result (λ copy. copy ≡ bindings.now) }
{
    let mut copy = Seq::with_capacity(alloc, bindings.len())?;
    for binding in bindings {
        copy.push(clone_binding(binding)?)?;
    }
    Ok(copy)
}

#[cycle(clone_args)]
fn clone_binding(binding: &AssociatedTypeBinding) -> Result<AssociatedTypeBinding, AllocError>
    ensures { IfOk result (λ copy. copy ≡ binding.now) }
{
    let args = match &binding.args {
        None => None,
        Some(args) => Some(clone_args(args)?),
    };
    Ok(AssociatedTypeBinding {
        name: binding.name.try_clone()?,
        args,
        type_ref: binding.type_ref,
        bounds: binding.bounds.try_clone()?,
    })
}

impl Clone for GenericArgs {
    ghost is_clone = { λ x y. y ≡ x };

    fn clone(&self) -> Result<GenericArgs, AllocError> {
        clone_args(self)
    }
}

impl Clone for AssociatedTypeBinding {
    ghost is_clone = { λ x y. y ≡ x };

    fn clone(&self) -> Result<AssociatedTypeBinding, AllocError> {
        clone_binding(self)
    }
}

impl TryClone for GenericArgs {
    ghost clone_is_same = { λ x y h. h };
}

impl TryClone for AssociatedTypeBinding {
    ghost clone_is_same = { λ x y h. h };
}
