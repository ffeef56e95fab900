//! Theorems that a reader relies on and that no call's contract states. Each is a function with no body to
//! run: its contract is the theorem. `ExpressionStore::has_no_fault` says that a store has no fault.

ghost use Rattle.std.specs.Prelude.{◌≡◌, ◌≢◌, ◌⊎◌, ◌↔◌, ◌≤◌, ◌<◌, ◌+◌, ◌++◌, ◌∷◌, ℕ, Bool, List, Option, None, Some, IsTrue, length, map, slice_get, Contains};
ghost use Rattle.std.specs.List.{flat_map, list_all, AllPairs};
ghost use Rattle.hir_forest.specs.Forest.{IsForest};
ghost use Rattle.hir_forest.specs.Faults.{root_nodes};
ghost use Rattle.hir_node.specs.declared.node_id.NodeId.{NodeId};
ghost use Rattle.hir_node.specs.declared.node_id.NodeId.TheVariants as node;
ghost use Rattle.hir_path.specs.declared.path.Path.{Path};
ghost use Rattle.hir_path.specs.declared.path.Path.TheVariants as path;
ghost use Rattle.hir_path.specs.declared.path.NormalPath.{NormalPath};
ghost use Rattle.hir_path.specs.declared.path.GenericArg.{GenericArg};
ghost use Rattle.hir_path.specs.declared.path.GenericArgs.{GenericArgs, out-GenericArgs};
ghost use Rattle.hir_path.specs.declared.path.AssociatedTypeBinding.{AssociatedTypeBinding, out-AssociatedTypeBinding};
ghost use Rattle.hir_path.specs.declared.bound.TypeBound.{TypeBound};
ghost use Rattle.hir_path.specs.declared.bound.TypeBound.TheVariants as bound;
ghost use Rattle.hir_path.specs.declared.bound.TraitBoundModifier.{TraitBoundModifier};
ghost use Rattle.hir_node.specs.declared.expr_types.RecordLitField.{RecordLitField};
ghost use Rattle.hir_node.specs.declared.expr_types.RecordSpread.{RecordSpread};
ghost use Rattle.hir_node.specs.declared.expr.Expr.{Expr};
ghost use Rattle.hir_node.specs.declared.expr.Expr.TheVariants as expr;
ghost use Rattle.hir_node.specs.declared.pat.Pat.{Pat};
ghost use Rattle.hir_node.specs.declared.pat.Pat.TheVariants as pat;
ghost use Rattle.hir_node.specs.declared.pat.RecordFieldPat.{RecordFieldPat};
ghost use Rattle.hir_node.specs.declared.type_ref.TypeRef.{TypeRef};
ghost use Rattle.hir_node.specs.declared.type_ref.TypeRef.TheVariants as type;
ghost use Rattle.hir_node.specs.ChildCalls.{arg_calls};
ghost use Rattle.hir_validate.specs.TestedParts.{tested_expr, tested_pat, tested_type, is_path_at};
ghost use Rattle.hir_validate.specs.Sizes.{is_in_range};
ghost use Rattle.hir_validate.specs.Nodes.{Has, sizes_of, calls_of, children_of, graph};
ghost use Rattle.hir_validate.specs.declared.node_arenas.Nodes.{Nodes};
ghost use Rattle.hir_path.specs.Paths.{segments_of};
ghost use Rattle.hir_path.specs.Segments.{OneListEach};
ghost use Rattle.hir_store_core.specs.Contents.{Contents, rooted_of, contents_fault};
ghost use Rattle.hir_validate.specs.Fits.{path_fits, args_fit, bound_fits};
ghost use Rattle.hir_validate.specs.Sound.{IsSoundNode, RootsStandApart};
ghost use Rattle.hir_validate.specs.Recursion.{rank, RankDecreases, fold_down, DependsOnChildren};
ghost use Rattle.hir_store_core.specs.Under.{Under, AreDisjoint, IsReached, nodes_under, reached_nodes};
ghost use Rattle.hir_store_core.specs.Ancestors.{parent, and_on, ancestors};
ghost use Rattle.hir_store_core.specs.Bounds.{BoundFits};
ghost use Rattle.hir_store_core.specs.PatLists.{child_pats_of, pats, bindings_at, bindings_in, exprs_from, exprs_in};

/// Nodes without a fault are a forest: each has at most one parent, of which it is a child once, and each
/// chain of parents ends.
pub fn contents_are_a_forest()
    ensures { (c : Contents) → contents_fault c None → IsForest (graph c.nodes) }
{}

/// Each child of a node exists, and has a lower rank than the node.
pub fn rank_decreases()
    ensures { (c : Contents) → contents_fault c None → RankDecreases c.nodes }
{}

/// A rank is at most the number of nodes. This holds of any nodes.
pub fn ranks_are_bounded()
    ensures { (s : Nodes) (n : NodeId) → rank s n ≤ length s.exprs + length s.pats + length s.types }
{}

/// Each node is sound: each expression, pattern, type, binding, label and lifetime that it names exists, what
/// it names as a path is one, a function type has a return type, a list of generic arguments that begins with
/// a self type isn't empty, and a `Normal` path has one list for each segment.
pub fn nodes_are_sound()
    ensures exprs { (c : Contents) → contents_fault c None → (id : ℕ) (x : Expr)
        → slice_get c.nodes.exprs id ≡ Some x → IsSoundNode c.nodes (tested_expr x) }
    ensures pats { (c : Contents) → contents_fault c None → (id : ℕ) (x : Pat)
        → slice_get c.nodes.pats id ≡ Some x → IsSoundNode c.nodes (tested_pat x) }
    ensures types { (c : Contents) → contents_fault c None → (id : ℕ) (x : TypeRef)
        → slice_get c.nodes.types id ≡ Some x → IsSoundNode c.nodes (tested_type x) }
{}

/// The path that a node holds fits the store, as `ExpressionStore::path_is_sound` tests it.
pub fn paths_of_nodes_fit()
    ensures exprs { (c : Contents) → contents_fault c None → (id : ℕ) (path : Path)
        → slice_get c.nodes.exprs id ≡ Some (expr.Path path) → IsTrue (path_fits c.nodes path) }
    ensures record_lits { (c : Contents) → contents_fault c None
        → (id : ℕ) (path : Path) (fields : List RecordLitField) (spread : RecordSpread)
        → slice_get c.nodes.exprs id ≡ Some (expr.RecordLit path fields spread)
        → IsTrue (path_fits c.nodes path) }
    ensures pats { (c : Contents) → contents_fault c None → (id : ℕ) (path : Path)
        → slice_get c.nodes.pats id ≡ Some (pat.Path path) → IsTrue (path_fits c.nodes path) }
    ensures tuple_structs { (c : Contents) → contents_fault c None
        → (id : ℕ) (path : Path) (args : List ℕ) (ellipsis : Option ℕ)
        → slice_get c.nodes.pats id ≡ Some (pat.TupleStruct path args ellipsis)
        → IsTrue (path_fits c.nodes path) }
    ensures record_pats { (c : Contents) → contents_fault c None
        → (id : ℕ) (path : Path) (args : List RecordFieldPat) (ellipsis : Bool)
        → slice_get c.nodes.pats id ≡ Some (pat.Record ellipsis path args) → IsTrue (path_fits c.nodes path) }
    ensures types { (c : Contents) → contents_fault c None → (id : ℕ) (path : Path)
        → slice_get c.nodes.types id ≡ Some (type.Path path) → IsTrue (path_fits c.nodes path) }
{}

/// The roots exist, none is another one or a descendant of one, and their ends rise up to the lengths of the
/// arenas.
pub fn roots_stand_apart()
    ensures { (c : Contents) → contents_fault c None → RootsStandApart (rooted_of c) }
{}

/// The patterns of a pattern are the pattern itself, and then the patterns of each of its child patterns.
pub fn pats_unfold()
    ensures { (c : Contents) → contents_fault c None → (id : ℕ) → id < length c.nodes.pats
        → pats c.nodes id ≡ id ∷ flat_map (pats c.nodes) (child_pats_of c.nodes id) }
{}

/// The bindings of a pattern are its own, and then those of each of its child patterns.
pub fn bindings_in_unfold()
    ensures { (c : Contents) → contents_fault c None → (id : ℕ) → id < length c.nodes.pats
        → bindings_in c.nodes id
        ≡ bindings_at c.nodes id ++ flat_map (bindings_in c.nodes) (child_pats_of c.nodes id) }
{}

/// The expressions of a pattern are what its calls give, in order: an expression or an anonymous constant
/// itself, a pattern its expressions.
pub fn exprs_in_unfold()
    ensures { (c : Contents) → contents_fault c None → (id : ℕ) → id < length c.nodes.pats
        → exprs_in c.nodes id ≡ flat_map (exprs_from (exprs_in c.nodes)) (calls_of c.nodes (node.Pat id)) }
{}

/// Where a node is a descendant of two nodes, one of the two is a descendant of the other.
pub fn under_two_is_under_one()
    ensures { (c : Contents) → contents_fault c None → (n a b : NodeId) → Has c.nodes a → Has c.nodes b
        → Under c.nodes n a → Under c.nodes n b → Under c.nodes a b ⊎ Under c.nodes b a }
{}

/// The descendants of a node exist.
pub fn descendants_are_in_range()
    ensures { (c : Contents) → contents_fault c None → (n r : NodeId) → Has c.nodes r → Under c.nodes n r
        → Has c.nodes n }
{}

/// No two children of a node have a common descendant, so no child is listed twice.
pub fn children_are_disjoint()
    ensures { (c : Contents) → contents_fault c None → (n : NodeId) → Has c.nodes n
        → AreDisjoint c.nodes (children_of c.nodes n) }
{}

/// Two nodes with a common child are the same.
pub fn one_parent()
    ensures { (c : Contents) → contents_fault c None → (n m k : NodeId)
        → Contains (children_of c.nodes n) k → Contains (children_of c.nodes m) k → n ≡ m }
{}

/// The parent of a node is the node whose child it is, and a node that is no child has none.
pub fn parent_is_whose_child_it_is()
    ensures { (c : Contents) → contents_fault c None → (n p : NodeId)
        → parent c.nodes n ≡ Some p ↔ Contains (children_of c.nodes p) n }
{}

/// The ancestors of a node are its parent, and then the ancestors of that one.
pub fn ancestors_are()
    ensures { (c : Contents) → contents_fault c None → (n : NodeId)
        → ancestors c.nodes n ≡ and_on (ancestors c.nodes) (parent c.nodes n) }
{}

/// No two of the listed roots have a common descendant, so none is listed twice.
pub fn roots_are_disjoint()
    ensures { (c : Contents) → contents_fault c None
        → AreDisjoint c.nodes (map node.Expr (root_nodes c.roots)) }
{}

/// The nodes under a node are the node itself, and then those under each of its children.
pub fn nodes_under_unfold()
    ensures { (c : Contents) → contents_fault c None → (n : NodeId)
        → nodes_under c.nodes n ≡ n ∷ flat_map (nodes_under c.nodes) (children_of c.nodes n) }
{}

/// The list of reached nodes has the reached nodes, and no others. Sums and counts over reached nodes are
/// stated by this list.
pub fn reached_is_listed()
    ensures { (c : Contents) → contents_fault c None → (entry_nodes : List NodeId) (n : NodeId)
        → Contains (reached_nodes c.nodes entry_nodes) n ↔ IsReached c.nodes entry_nodes n }
{}

/// No reached node is listed twice, where no two entry nodes have a common descendant.
pub fn reached_is_listed_once()
    ensures { (c : Contents) → contents_fault c None → (entry_nodes : List NodeId)
        → AreDisjoint c.nodes entry_nodes → AllPairs (λ n m. n ≢ m) (reached_nodes c.nodes entry_nodes) }
{}

/// Each node is reached or it isn't.
pub fn reached_is_decided()
    ensures { (c : Contents) → contents_fault c None → (entry_nodes : List NodeId) (n : NodeId)
        → IsReached c.nodes entry_nodes n ⊎ (IsReached c.nodes entry_nodes n → ⊥) }
{}

/// The nodes that are reached from nodes that exist do exist.
pub fn reached_nodes_are_in_range()
    ensures { (c : Contents) → contents_fault c None → (entry_nodes : List NodeId)
        → ((t : NodeId) → Contains entry_nodes t → Has c.nodes t) → (n : NodeId) → IsReached c.nodes entry_nodes n
        → Has c.nodes n }
{}

/// A child of a reached node is reached. This holds of any nodes.
pub fn children_of_reached_are_reached()
    ensures { (s : Nodes) (entry_nodes : List NodeId) (n k : NodeId) → IsReached s entry_nodes n
        → Contains (children_of s n) k
        → IsReached s entry_nodes k }
{}

/// Only a node that exists has children. This holds of any nodes.
pub fn parents_are_in_range()
    ensures { (s : Nodes) (n k : NodeId) → Contains (children_of s n) k → Has s n }
{}

/// The bounds and the generic arguments that a node holds fit the store. Those that a path holds fit by
/// `paths_of_nodes_fit` and `parts_of_paths_fit`.
pub fn bounds_and_args_of_nodes_fit()
    ensures impl_traits { (c : Contents) → contents_fault c None
        → (id : ℕ) (bounds : List TypeBound) (x : TypeBound)
        → slice_get c.nodes.types id ≡ Some (type.ImplTrait bounds) → Contains bounds x
        → IsTrue (bound_fits c.nodes x) }
    ensures dyn_traits { (c : Contents) → contents_fault c None
        → (id : ℕ) (bounds : List TypeBound) (x : TypeBound)
        → slice_get c.nodes.types id ≡ Some (type.DynTrait bounds) → Contains bounds x
        → IsTrue (bound_fits c.nodes x) }
    ensures method_calls { (c : Contents) → contents_fault c None
        → (id : ℕ) (receiver : ℕ) (name : List ℕ) (args : List ℕ) (x : GenericArgs)
        → slice_get c.nodes.exprs id ≡ Some (expr.MethodCall receiver name args (Some x))
        → IsTrue (args_fit c.nodes x) }
{}

/// A path that fits has one list of generic arguments for each segment, or no lists, as `Path::qualifier`
/// requires. By `paths_of_nodes_fit` each path of a node of an accepted store fits. This holds of any nodes.
pub fn paths_that_fit_have_one_list_each()
    ensures { (s : Nodes) (path : Path) → IsTrue (path_fits s path) → OneListEach (segments_of path) }
{}

/// Each list of generic arguments of a path that fits also fits, and the anchor exists. This holds of any
/// nodes.
pub fn parts_of_paths_fit()
    ensures args { (s : Nodes) (normal : NormalPath) (args : GenericArgs)
        → IsTrue (path_fits s (path.Normal normal)) → Contains normal.generic_args (Some args)
        → IsTrue (args_fit s args) }
    ensures anchor { (s : Nodes) (normal : NormalPath) (id : ℕ)
        → IsTrue (path_fits s (path.Normal normal)) → normal.type_anchor ≡ Some id → id < length s.types }
{}

/// Of generic arguments that fit, what each argument names exists, and of each associated type binding the
/// arguments fit, the type exists and each bound fits. This holds of any nodes.
pub fn parts_of_args_fit()
    ensures args { (s : Nodes) (x : GenericArgs) → IsTrue (args_fit s x) → (arg : GenericArg)
        → Contains (out-GenericArgs x).args arg → IsTrue (list_all (is_in_range (sizes_of s)) (arg_calls arg)) }
    ensures binding_args { (s : Nodes) (x : GenericArgs) → IsTrue (args_fit s x) → (b : AssociatedTypeBinding)
        → Contains (out-GenericArgs x).bindings b → (args : GenericArgs)
        → (out-AssociatedTypeBinding b).args ≡ Some args → IsTrue (args_fit s args) }
    ensures binding_types { (s : Nodes) (x : GenericArgs) → IsTrue (args_fit s x)
        → (b : AssociatedTypeBinding)
        → Contains (out-GenericArgs x).bindings b → (id : ℕ)
        → (out-AssociatedTypeBinding b).type_ref ≡ Some id → id < length s.types }
    ensures binding_bounds { (s : Nodes) (x : GenericArgs) → IsTrue (args_fit s x)
        → (b : AssociatedTypeBinding)
        → Contains (out-GenericArgs x).bindings b → (y : TypeBound)
        → Contains (out-AssociatedTypeBinding b).bounds y → IsTrue (bound_fits s y) }
{}

/// What a bound that fits names as a path exists and is one, so that the bound has a path. This holds of any
/// nodes.
pub fn paths_of_bounds_are_in_range()
    ensures paths { (s : Nodes) (id : ℕ) (before : TraitBoundModifier)
        → IsTrue (bound_fits s (bound.Path id before)) → IsTrue (is_path_at s.types id) }
    ensures for_lifetimes { (s : Nodes) (names : List (List ℕ)) (id : ℕ)
        → IsTrue (bound_fits s (bound.ForLifetime names id)) → IsTrue (is_path_at s.types id) }
    ensures asked { (s : Nodes) (x : TypeBound) → IsTrue (bound_fits s x) → BoundFits x s }
{}

/// A value of nodes that is computed from the values of their children, as a list that a node begins and its
/// children continue. An `impl` for a type of its own names the values and the step, and proves that the step
/// depends on the children alone.
pub trait ByChildren {
    // the type of the values
    ghost Told: { Type 0 };

    // the value of a node, by the values that the function gives to others
    ghost step: { Nodes → (NodeId → Told) → NodeId → Told };

    // the value below the lowest node; no value of a store's nodes depends on it
    ghost default: { Told };

    ghost depends_on_children: { (s : Nodes) → DependsOnChildren s (step s) };
}

/// The value of a node is what the step computes from the values of its children.
pub fn fold_down_unfold<V: ByChildren>()
    ensures { (c : Contents) → contents_fault c None → (n : NodeId)
        → fold_down c.nodes (V.step c.nodes) V.default n
        ≡ V.step c.nodes (fold_down c.nodes (V.step c.nodes) V.default) n }
{}
