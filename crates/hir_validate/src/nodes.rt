//! The borrowed nodes of a builder or a store, and queries on them.

ghost use Rattle.std.specs.Prelude.{◌≡◌};
ghost use Rattle.std.specs.List.{list_all};
ghost use Rattle.hir_node.specs.ChildCalls.{bound_calls};
ghost use Rattle.hir_validate.specs.Faults.{nodes_in, ends_of};
ghost use Rattle.hir_validate.specs.Nodes.{sizes_of};
ghost use Rattle.hir_validate.specs.TestedParts.{bound_paths, is_path_at};
ghost use Rattle.hir_validate.specs.Fits.{path_fits};
ghost use Rattle.hir_validate.specs.Sizes.{Few, is_in_range};

use crate::range::{bound_is_in_range, path_is_in_range};
use crate::sizes::Sizes;
use crate::type_parts::{
    bound_names_path, is_path, one_list_each, path_gives_self, path_names_paths,
};
use hir_forest::Ends;
use hir_node::{Binding, Expr, Label, LifetimeRef, Pat, Path, PathId, TypeBound, TypeRef};

/// The nodes of a builder or a store, with its bindings, labels and lifetimes.
#[derive(Clone, Copy)]
pub struct NodeSlices<'a> {
    pub exprs: &'a [Expr],
    pub pats: &'a [Pat],
    pub types: &'a [TypeRef],
    pub bindings: &'a [Binding],
    pub labels: &'a [Label],
    pub lifetimes: &'a [LifetimeRef],
}

impl NodeSlices<'_> {
    /// Returns how many items of each sort there are.
    pub fn sizes(&self) -> Sizes
        ensures { result ≡ sizes_of (nodes_in self.now) }
    {
        Sizes {
            exprs: self.exprs.len(),
            pats: self.pats.len(),
            types: self.types.len(),
            bindings: self.bindings.len(),
            labels: self.labels.len(),
            lifetimes: self.lifetimes.len(),
        }
    }

    /// Returns how many expressions, patterns and bindings there are, as the ends of a root that is listed
    /// now.
    pub fn ends(&self) -> Ends
        requires { Few (sizes_of (nodes_in self.now)) }
        ensures { result ≡ ends_of (nodes_in self.now) }
    {
        Ends {
            exprs: self.exprs.len() as u32,
            pats: self.pats.len() as u32,
            bindings: self.bindings.len() as u32,
        }
    }

    /// Returns whether the type of this id is in range and is a path.
    pub fn has_path(&self, id: PathId) -> bool
        ensures { result ≡ is_path_at self.now.types.now id }
    {
        is_path(self.types, id)
    }

    /// Returns whether a path fits these nodes: each id that it names is in range, each type that it names
    /// as a path is one, each list of generic arguments that begins with a self type isn't empty, and a
    /// `Normal` path has one list for each segment.
    pub fn path_is_sound(&self, path: &Path) -> bool
        ensures { result ≡ path_fits (nodes_in self.now) path.now }
    {
        path_is_in_range(path, self.sizes())
            && path_names_paths(self.types, path)
            && path_gives_self(path)
            && one_list_each(path)
    }

    /// Returns whether each type and each lifetime that the bound names is in range.
    pub fn has_bound(&self, bound: &TypeBound) -> bool
        ensures { result ≡ list_all (is_in_range (sizes_of (nodes_in self.now))) (bound_calls bound.now) }
    {
        bound_is_in_range(bound, self.sizes())
    }

    /// Returns whether the type that the bound names as a path is in range and is a path.
    pub fn bound_names_path(&self, bound: &TypeBound) -> bool
        ensures { result ≡ list_all (is_path_at self.now.types.now) (bound_paths bound.now) }
    {
        bound_names_path(self.types, bound)
    }
}
