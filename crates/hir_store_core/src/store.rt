//! An accepted store: its nodes, which are a well-formed forest, and its roots.

ghost use Rattle.std.specs.Prelude.{◌≡◌, ◌<◌, ◌↔◌, None, Some, IfSome, length, slice_get, IsTrue};
ghost use Rattle.std.specs.List.{enumerate_from, list_all};
ghost use Rattle.hir_forest.specs.Faults.{root_nodes};
ghost use Rattle.hir_validate.specs.TestedParts.{bound_paths, is_path_at, path_at};
ghost use Rattle.hir_validate.specs.Sizes.{is_in_range};
ghost use Rattle.hir_node.specs.ChildCalls.{bound_calls};
ghost use Rattle.hir_validate.specs.Fits.{path_fits};

use crate::kept_parts::KeptParts;
use crate::root_list::RootList;
use crate::side_tables::SideTables;
use crate::store_iter::ExprRoots;
use hir_collections::{ArenaIter, ExactEq, LazyBox, TryClone};
use hir_forest::Root;
use hir_node::{
    Binding, BindingId, BindingKind, Expr, ExprId, ExprKind, Label, LabelId, LifetimeRef,
    LifetimeRefId, LifetimeRefKind, Pat, PatId, PatKind, Path, PathId, TypeBound, TypeRef,
    TypeRefId, TypeRefKind,
};
use hir_validate::{NodeSlices, Nodes, Sizes, as_path};
use std::alloc::{AllocError, Global};
use std::marker::Model;
use std::ops::Index;

/// Expressions, patterns, types and what they name, with the roots. They have no fault: each id that a node
/// names exists, and the nodes are a forest. `ExpressionStoreBuilder::finish` makes it. It keeps the parent
/// of each node, which `finish` has to find, and for walks over patterns what comes after each pattern.
pub struct ExpressionStore {
    nodes: Nodes,
    roots: RootList,
    side_tables: SideTables,
    kept: LazyBox<KeptParts>,
}

/// Drops its parts one after the other. This `impl` exists so that the drop is proved once, and is a call
/// where a value is dropped.
impl Drop for ExpressionStore {
    fn drop(self) {
        let ExpressionStore {
            nodes,
            roots,
            side_tables,
            kept,
        } = self;
    }
}

impl Model for ExpressionStore {
    ghost use Rattle.hir_store_core.specs.Contents.{Contents, IsStore};

    ghost Value = { Contents };

    ghost use Rattle.std.specs.Coded.{codes};
    ghost use Rattle.hir_validate.specs.contracts.node_arenas.Nodes as listed;
    ghost use Rattle.hir_store_core.specs.contracts.side_tables.SideTables as said;

    ghost coded = { Prim.hlevel (codes, listed.the_row.coded, said.the_row.coded) };

    ghost view = { λ s. record {
      nodes = s.nodes;
      roots = s.roots;
      side_tables = s.side_tables;
    } };

    ghost invariant = { λ s. IsStore record {
      nodes = s.nodes;
      roots = s.roots;
      side_tables = s.side_tables;
    } s.kept };
}

impl ExpressionStore {
    ghost use Rattle.hir_store_core.specs.Contents.{no_contents, contents_of_parts, contents_fault, IsStore};
    ghost use Rattle.hir_validate.specs.Faults.{nodes_in};
    ghost use Rattle.hir_validate.specs.Nodes.{graph, sizes_of};
    ghost use Rattle.hir_validate.specs.Sizes.{Few};
    ghost use Rattle.hir_forest.specs.Parents.{HasParents};
    ghost use Rattle.hir_store_core.specs.PatLinks.{HasPatLinks};

    /// Returns a store of these parts. A caller has to prove that they have no fault, and that what is kept
    /// follows from the nodes: a builder tests these once.
    pub fn new(
        nodes: Nodes,
        roots: RootList,
        side_tables: SideTables,
        kept: LazyBox<KeptParts>,
    ) -> ExpressionStore
        requires { IsStore (contents_of_parts nodes roots side_tables) kept }
        ensures { result ≡ contents_of_parts nodes roots side_tables }
    {
        // As they are: the invariant is what a caller has proved.
        ExpressionStore {
            nodes,
            roots,
            side_tables,
            kept,
        }
    }

    /// Returns ownership of the parts, in the order of `new`. They still are a store's, so `new` takes them
    /// as they are.
    pub fn into_parts(self) -> (Nodes, RootList, SideTables, LazyBox<KeptParts>)
        ensures contents { contents_of_parts result.0 result.1 result.2 ≡ self }
        ensures store { IsStore (contents_of_parts result.0 result.1 result.2) result.3 }
    {
        let ExpressionStore {
            nodes,
            roots,
            side_tables,
            kept,
        } = self;
        (nodes, roots, side_tables, kept)
    }

    /// Returns an empty store, without an allocation.
    pub fn empty(alloc: Global) -> ExpressionStore
        ensures { result ≡ no_contents }
    {
        ExpressionStore {
            nodes: Nodes::new(alloc),
            roots: RootList::new(alloc),
            side_tables: SideTables::new(alloc),
            kept: LazyBox::new(alloc),
        }
    }

    /// Tells a proof that the store has no fault, and does nothing.
    pub fn has_no_fault(&self)
        ensures { contents_fault self.now None }
    {
        let _ = &self.nodes;
    }

    /// Returns the roots with their ends.
    pub(crate) fn roots(&self) -> &[Root]
        ensures { result.now ≡ self.now.roots }
    {
        self.roots.as_slice()
    }

    /// Returns the side tables.
    pub(crate) fn side_tables(&self) -> &SideTables
        ensures { result.now ≡ self.now.side_tables }
    {
        &self.side_tables
    }

    /// Returns the nodes, borrowed.
    pub(crate) fn nodes(&self) -> NodeSlices<'_>
        ensures nodes { nodes_in result ≡ self.now.nodes }
        ensures few { Few (sizes_of (nodes_in result)) }
    {
        self.nodes.as_slices()
    }

    /// Returns the number of items of each arena.
    pub(crate) fn sizes(&self) -> Sizes
        ensures sizes { result ≡ sizes_of self.now.nodes }
        ensures few { Few result }
    {
        self.nodes().sizes()
    }

    /// Returns what is kept, where the store has a node.
    pub(crate) fn kept_parts(&self) -> Option<&KeptParts>
        ensures parents { IfSome result (λ kept. HasParents (graph self.now.nodes) kept.now.parents.parents) }
        ensures links { IfSome result (λ kept. HasPatLinks self.now.nodes.pats kept.now.links) }
        ensures none { result ≡ None → length (graph self.now.nodes) ≡ 0 }
    {
        self.kept.get()
    }

    /// Returns whether an expression of this id exists.
    pub fn has_expr(&self, id: ExprId) -> bool
        ensures { IsTrue result ↔ (id < length self.now.nodes.exprs) }
    {
        self.nodes.exprs.has(id)
    }

    /// Returns whether a pattern of this id exists.
    pub fn has_pat(&self, id: PatId) -> bool
        ensures { IsTrue result ↔ (id < length self.now.nodes.pats) }
    {
        self.nodes.pats.has(id)
    }

    /// Returns whether a type of this id exists.
    pub fn has_type(&self, id: TypeRefId) -> bool
        ensures { IsTrue result ↔ (id < length self.now.nodes.types) }
    {
        self.nodes.types.has(id)
    }

    /// Returns whether a binding of this id exists.
    pub fn has_binding(&self, id: BindingId) -> bool
        ensures { IsTrue result ↔ (id < length self.now.nodes.bindings) }
    {
        self.nodes.bindings.has(id)
    }

    /// Returns whether a label of this id exists.
    pub fn has_label(&self, id: LabelId) -> bool
        ensures { IsTrue result ↔ (id < length self.now.nodes.labels) }
    {
        self.nodes.labels.has(id)
    }

    /// Returns whether a lifetime of this id exists.
    pub fn has_lifetime(&self, id: LifetimeRefId) -> bool
        ensures { IsTrue result ↔ (id < length self.now.nodes.lifetimes) }
    {
        self.nodes.lifetimes.has(id)
    }

    /// Returns whether the type of this id exists and is a path.
    pub fn has_path(&self, id: PathId) -> bool
        ensures { result ≡ is_path_at self.now.nodes.types id }
    {
        self.nodes().has_path(id)
    }

    /// Returns whether a path fits the store: each id that it names exists, each type that it names as a path
    /// is one, each list of generic arguments that begins with a self type isn't empty, and a `Normal` path
    /// has one list for each segment. A path of a node of the store fits it.
    pub fn path_is_sound(&self, path: &Path) -> bool
        ensures { result ≡ path_fits self.now.nodes path.now }
    {
        self.nodes().path_is_sound(path)
    }

    /// Returns whether each type and each lifetime that the bound names exists.
    pub fn has_bound(&self, bound: &TypeBound) -> bool
        ensures { result ≡ list_all (is_in_range (sizes_of self.now.nodes)) (bound_calls bound.now) }
    {
        self.nodes().has_bound(bound)
    }

    /// Returns whether what the bound names as a path exists and is a path.
    pub fn bound_names_path(&self, bound: &TypeBound) -> bool
        ensures { result ≡ list_all (is_path_at self.now.nodes.types) (bound_paths bound.now) }
    {
        self.nodes().bound_names_path(bound)
    }

    /// Returns the expressions with their ids, in their order. It can be taken from both ends.
    pub fn exprs(&self) -> ArenaIter<'_, ExprKind, Expr>
        ensures { result ≡ enumerate_from 0 self.now.nodes.exprs }
    {
        self.nodes.exprs.iter()
    }

    /// Returns the patterns with their ids, in their order. It can be taken from both ends.
    pub fn pats(&self) -> ArenaIter<'_, PatKind, Pat>
        ensures { result ≡ enumerate_from 0 self.now.nodes.pats }
    {
        self.nodes.pats.iter()
    }

    /// Returns the bindings with their ids, in their order. It can be taken from both ends.
    pub fn bindings(&self) -> ArenaIter<'_, BindingKind, Binding>
        ensures { result ≡ enumerate_from 0 self.now.nodes.bindings }
    {
        self.nodes.bindings.iter()
    }

    /// Returns the types with their ids, in their order. It can be taken from both ends.
    pub fn types(&self) -> ArenaIter<'_, TypeRefKind, TypeRef>
        ensures { result ≡ enumerate_from 0 self.now.nodes.types }
    {
        self.nodes.types.iter()
    }

    /// Returns the lifetimes with their ids, in their order. It can be taken from both ends.
    pub fn lifetimes(&self) -> ArenaIter<'_, LifetimeRefKind, LifetimeRef>
        ensures { result ≡ enumerate_from 0 self.now.nodes.lifetimes }
    {
        self.nodes.lifetimes.iter()
    }

    /// Returns the roots in their order. It can be taken from both ends.
    pub fn expr_roots(&self) -> ExprRoots<'_>
        ensures { result ≡ root_nodes self.now.roots }
    {
        ExprRoots::new(self.roots.as_slice())
    }
}

/// Gives the expression of an id, which has to exist: `has_expr` tests it.
impl Index<ExprId> for ExpressionStore {
    type Output = Expr;

    ghost can_index = { λ store id. id < length store.nodes.exprs };

    ghost index_gives = { λ store id item. slice_get store.nodes.exprs id ≡ Some item };

    fn index(&self, id: ExprId) -> &Expr {
        &self.nodes.exprs[id]
    }
}

/// Gives the pattern of an id, which has to exist: `has_pat` tests it.
impl Index<PatId> for ExpressionStore {
    type Output = Pat;

    ghost can_index = { λ store id. id < length store.nodes.pats };

    ghost index_gives = { λ store id item. slice_get store.nodes.pats id ≡ Some item };

    fn index(&self, id: PatId) -> &Pat {
        &self.nodes.pats[id]
    }
}

/// Gives the label of an id, which has to exist: `has_label` tests it.
impl Index<LabelId> for ExpressionStore {
    type Output = Label;

    ghost can_index = { λ store id. id < length store.nodes.labels };

    ghost index_gives = { λ store id item. slice_get store.nodes.labels id ≡ Some item };

    fn index(&self, id: LabelId) -> &Label {
        &self.nodes.labels[id]
    }
}

/// Gives the binding of an id, which has to exist: `has_binding` tests it.
impl Index<BindingId> for ExpressionStore {
    type Output = Binding;

    ghost can_index = { λ store id. id < length store.nodes.bindings };

    ghost index_gives = { λ store id item. slice_get store.nodes.bindings id ≡ Some item };

    fn index(&self, id: BindingId) -> &Binding {
        &self.nodes.bindings[id]
    }
}

/// Gives the type of an id, which has to exist: `has_type` tests it.
impl Index<TypeRefId> for ExpressionStore {
    type Output = TypeRef;

    ghost can_index = { λ store id. id < length store.nodes.types };

    ghost index_gives = { λ store id item. slice_get store.nodes.types id ≡ Some item };

    fn index(&self, id: TypeRefId) -> &TypeRef {
        &self.nodes.types[id]
    }
}

/// Gives the lifetime of an id, which has to exist: `has_lifetime` tests it.
impl Index<LifetimeRefId> for ExpressionStore {
    type Output = LifetimeRef;

    ghost can_index = { λ store id. id < length store.nodes.lifetimes };

    ghost index_gives = { λ store id item. slice_get store.nodes.lifetimes id ≡ Some item };

    fn index(&self, id: LifetimeRefId) -> &LifetimeRef {
        &self.nodes.lifetimes[id]
    }
}

/// Gives the path that a type is, which has to exist and to be a path: `has_path` tests it.
impl Index<PathId> for ExpressionStore {
    type Output = Path;

    ghost can_index = { λ store id. IsTrue (is_path_at store.nodes.types id) };

    ghost index_gives = { λ store id path. path_at store.nodes.types id ≡ Some path };

    fn index(&self, id: PathId) -> &Path {
        match as_path(&self.nodes.types[id.type_ref()]) {
            Some(path) => path,
            None => unreachable!(),
        }
    }
}

impl Clone for ExpressionStore {
    ghost is_clone = { λ store copy. copy ≡ store };

    fn clone(&self) -> Result<ExpressionStore, AllocError> {
        let nodes = self.nodes.try_clone()?;
        let roots = self.roots.try_clone()?;
        let side_tables = self.side_tables.try_clone()?;
        let kept = self.kept.try_clone()?;
        Ok(ExpressionStore {
            nodes,
            roots,
            side_tables,
            kept,
        })
    }
}

/// Stores are equal where all that they hold is; the parents of the nodes and the links of the patterns
/// follow from these.
impl PartialEq for ExpressionStore {
    ghost use Rattle.hir_store_core.specs.same.SameStores.{same_stores, stores_per};

    ghost eq = { same_stores };

    ghost laws = { stores_per };

    fn eq(&self, other: &ExpressionStore) -> bool {
        self.nodes == other.nodes
            && self.roots == other.roots
            && self.side_tables == other.side_tables
    }
}

impl Eq for ExpressionStore {
    ghost use Rattle.hir_store_core.specs.same.SameStores.{stores_equiv};

    ghost laws = { stores_equiv };
}

impl ExactEq for ExpressionStore {
    ghost use Rattle.hir_store_core.specs.same.SameStores.{stores_decide};

    ghost eq_decides = { stores_decide };
}

impl TryClone for ExpressionStore {
    ghost clone_is_same = { λ x y h. h };
}
