//! The parts of a node that are tested on their own: a path, generic arguments, bounds.
//! The tests of generic arguments recurse into the arguments of associated type bindings, as deep as these
//! are nested.

ghost use Rattle.std.specs.Prelude.{◌≡◌, flat_map, IsTrue};
ghost use Rattle.std.specs.Option.{option_copied};
ghost use Rattle.std.specs.List.{list_all};
ghost use Rattle.hir_validate.specs.TestedParts.{path_of, is_path_at, bound_paths, args_paths, args_give_self, self_given, all_of, option_all, path_paths, path_gives_self, one_list_each, names_paths, gives_self, lists_fit};
ghost use Rattle.hir_validate.specs.internal.TestedParts.{binding_paths, binding_gives_self};
ghost use Rattle.hir_validate.specs.internal.TypeParts.{type_parts_of, may_have_args, IsFine};

use hir_node::{AssociatedTypeBinding, GenericArg, GenericArgs, Path, PathId, TypeBound, TypeRef};

/// Returns the path that a type is, and `None` for a type that isn't a path.
pub fn as_path(type_ref: &TypeRef) -> Option<&Path>
    ensures { option_copied result ≡ path_of type_ref.now }
{
    match type_ref {
        TypeRef::Path(path) => Some(path),
        TypeRef::Never
        | TypeRef::Placeholder
        | TypeRef::Error
        | TypeRef::Tuple(_)
        | TypeRef::RawPtr(_, _)
        | TypeRef::Reference(_)
        | TypeRef::Array(_)
        | TypeRef::Slice(_)
        | TypeRef::Fn(_)
        | TypeRef::ImplTrait(_)
        | TypeRef::DynTrait(_)
        | TypeRef::TypeParam(_)
        | TypeRef::PatternType(_, _) => None,
    }
}

/// Returns whether the type of this id is in range and is a path.
pub(crate) fn is_path(types: &[TypeRef], id: PathId) -> bool
    ensures { result ≡ is_path_at types.now id }
{
    match types.get(id.type_ref().into_raw() as usize) {
        Some(type_ref) => as_path(type_ref).is_some(),
        None => false,
    }
}

/// Returns whether the type that a bound names as a path is one.
pub(crate) fn bound_names_path(types: &[TypeRef], bound: &TypeBound) -> bool
    ensures { result ≡ list_all (is_path_at types.now) (bound_paths bound.now) }
{
    match bound {
        TypeBound::Path(id, _) => is_path(types, *id),
        TypeBound::ForLifetime(_, id) => is_path(types, *id),
        TypeBound::Lifetime(_) | TypeBound::Use(_) | TypeBound::Error => true,
    }
}

/// Returns whether each type that bounds name as a path is one.
pub(crate) fn bounds_name_paths(types: &[TypeRef], bounds: &[TypeBound]) -> bool
    ensures { result ≡ list_all (is_path_at types.now) (flat_map bound_paths bounds.now) }
{
    for bound in bounds {
        if !bound_names_path(types, bound) {
            return false;
        }
    }
    true
}

/// Returns whether each type that generic arguments name as a path is one.
#[cycle(args_name_paths)]
pub(crate) fn args_name_paths(types: &[TypeRef], args: &GenericArgs) -> bool
    ensures { result ≡ list_all (is_path_at types.now) (args_paths args.now) }
{
    for binding in args.bindings.as_slice() {
        if !binding_names_paths(types, binding) {
            return false;
        }
    }
    true
}

#[cycle(args_name_paths)]
fn binding_names_paths(types: &[TypeRef], binding: &AssociatedTypeBinding) -> bool
    ensures { result ≡ list_all (is_path_at types.now) (binding_paths binding.now) }
{
    if let Some(args) = &binding.args {
        if !args_name_paths(types, args) {
            return false;
        }
    }
    bounds_name_paths(types, binding.bounds.as_slice())
}

/// Returns whether the arguments aren't empty, if they have `has_self_type`.
fn gives_self(has_self_type: bool, args: &[GenericArg]) -> bool
    ensures { result ≡ self_given has_self_type args.now }
{
    !has_self_type || !args.is_empty()
}

/// Returns whether each list of arguments that has `has_self_type` isn't empty.
#[cycle(args_give_self)]
pub(crate) fn args_give_self(args: &GenericArgs) -> bool
    ensures { result ≡ args_give_self args.now }
{
    if !gives_self(args.has_self_type, args.args.as_slice()) {
        return false;
    }
    for binding in args.bindings.as_slice() {
        if !binding_gives_self(binding) {
            return false;
        }
    }
    true
}

#[cycle(args_give_self)]
fn binding_gives_self(binding: &AssociatedTypeBinding) -> bool
    ensures { result ≡ binding_gives_self binding.now }
{
    match &binding.args {
        Some(args) => args_give_self(args),
        None => true,
    }
}

/// What a node holds: a path, generic arguments that aren't in a path, bounds.
#[derive(Clone, Copy)]
pub(crate) struct TypeParts<'a> {
    pub path: Option<&'a Path>,
    pub args: Option<&'a GenericArgs>,
    pub bounds: &'a [TypeBound],
}

/// Returns whether each type that the arguments of one segment name as a path is one.
fn segment_names_paths(types: &[TypeRef], args: &Option<GenericArgs>) -> bool
    ensures { result ≡ list_all (is_path_at types.now) (all_of args_paths args.now) }
{
    match args {
        Some(args) => args_name_paths(types, args),
        None => true,
    }
}

/// Returns whether each type that the arguments of segments name as a path is one.
fn segments_name_paths(types: &[TypeRef], lists: &[Option<GenericArgs>]) -> bool
    ensures { result ≡ list_all (is_path_at types.now) (flat_map (all_of args_paths) lists.now) }
{
    for args in lists {
        if !segment_names_paths(types, args) {
            return false;
        }
    }
    true
}

/// Returns whether each type that a path names as a path is one.
pub(crate) fn path_names_paths(types: &[TypeRef], path: &Path) -> bool
    ensures { result ≡ list_all (is_path_at types.now) (path_paths path.now) }
{
    match path {
        Path::Normal(normal) => segments_name_paths(types, normal.get().generic_args.as_slice()),
        Path::BarePath(_) | Path::LangItem(_, _) => true,
    }
}

/// Returns whether each list that has `has_self_type` in the arguments of one segment isn't empty.
fn segment_gives_self(args: &Option<GenericArgs>) -> bool
    ensures { result ≡ option_all args_give_self args.now }
{
    match args {
        Some(args) => args_give_self(args),
        None => true,
    }
}

fn segments_give_self(lists: &[Option<GenericArgs>]) -> bool
    ensures { result ≡ list_all (option_all args_give_self) lists.now }
{
    lists.iter().all(segment_gives_self)
}

pub(crate) fn path_gives_self(path: &Path) -> bool
    ensures { result ≡ path_gives_self path.now }
{
    match path {
        Path::Normal(normal) => segments_give_self(normal.get().generic_args.as_slice()),
        Path::BarePath(_) | Path::LangItem(_, _) => true,
    }
}

/// Returns whether a `Normal` path has one list for each segment.
pub(crate) fn one_list_each(path: &Path) -> bool
    ensures { result ≡ one_list_each path.now }
{
    match path {
        Path::Normal(normal) => {
            normal.get().generic_args.len() == normal.get().mod_path.segments().len()
        }
        Path::BarePath(_) | Path::LangItem(_, _) => true,
    }
}

/// Returns whether the path, if there is one, may have generic arguments: only a `Normal` path may.
fn may_have_args(path: Option<&Path>) -> bool
    ensures { result ≡ may_have_args (option_copied path.entry) }
{
    match path {
        Some(path) => match path {
            Path::Normal(_) => true,
            Path::BarePath(_) | Path::LangItem(_, _) => false,
        },
        None => false,
    }
}

impl TypeParts<'_> {
    /// Returns whether nothing in it can be at fault: no `Normal` path, no generic arguments and no bounds.
    pub fn is_plain(&self) -> bool
        ensures { IsTrue result → IsFine (type_parts_of self.now) }
    {
        if may_have_args(self.path) {
            return false;
        }
        self.args.is_none() && self.bounds.is_empty()
    }

    /// Returns whether each type that is named as a path is one.
    pub fn names_paths(&self, types: &[TypeRef]) -> bool
        ensures { result ≡ names_paths types.now (type_parts_of self.now) }
    {
        if let Some(path) = self.path {
            if !path_names_paths(types, path) {
                return false;
            }
        }
        if let Some(args) = self.args {
            if !args_name_paths(types, args) {
                return false;
            }
        }
        bounds_name_paths(types, self.bounds)
    }

    /// Returns whether each list that has `has_self_type` isn't empty.
    pub fn gives_self(&self) -> bool
        ensures { result ≡ gives_self (type_parts_of self.now) }
    {
        if let Some(path) = self.path {
            if !path_gives_self(path) {
                return false;
            }
        }
        match self.args {
            Some(args) => args_give_self(args),
            None => true,
        }
    }

    /// Returns whether a `Normal` path has one list for each segment.
    pub fn lists_fit(&self) -> bool
        ensures { result ≡ lists_fit (type_parts_of self.now) }
    {
        match self.path {
            Some(path) => one_list_each(path),
            None => true,
        }
    }
}
