//! The first fault of nodes with their roots, or the parents of nodes that have none.

ghost use Rattle.std.specs.Prelude.{◌≡◌, ◌+◌, ◌<◌, ◌≤◌, [], ◌∷◌, nat_lt, ◌⊎◌, true, None, Some, length, map, IfNone, IfOk, IfErr, IsTrue};
ghost use Rattle.std.specs.Option.{option_to_list};
ghost use Rattle.std.specs.List.{list_all};
ghost use Rattle.hir_forest.specs.Faults.{IsWithin};
ghost use Rattle.hir_forest.specs.Parents.{HasParents, IsParentageOf};
ghost use Rattle.hir_validate.specs.Faults.{nodes_in, node_fault, first_of, first_bad_node, fault_of_graph, graph_fault, rooted_fault};
ghost use Rattle.hir_validate.specs.Nodes.{sizes_of, graph};
ghost use Rattle.hir_validate.specs.internal.Edges.{CanVisit, VisitsNodes, all_tested};
ghost use Rattle.hir_validate.specs.TestedParts.{ids_in_range};
ghost use Rattle.hir_validate.specs.Sizes.{Few, is_in_range};

use crate::edges::EdgeVisitor;
use crate::fault::FinishFault;
use crate::nodes::NodeSlices;
use crate::sizes::Sizes;
use crate::tested_node::TestedNode;
use hir_collections::{Idx, MOST_ITEMS};
use hir_forest::{ForestFault, Parents, Root};
use hir_node::{NodeId, TypeRef};
use std::alloc::{AllocError, Global};

/// Returns whether the id, if there is one, is less than the count.
fn is_below<K>(id: Option<Idx<K>>, count: usize) -> bool
    ensures { result ≡ list_all (λ n. nat_lt n count) (option_to_list id) }
{
    match id {
        Some(id) => (id.into_raw() as usize) < count,
        None => true,
    }
}

/// Returns the first fault of one node whose ids are all in range, from a test of all that it holds.
fn held_fault<N: TestedNode>(node: &N, id: NodeId, types: &[TypeRef]) -> Option<FinishFault>
    ensures { (sizes : Sizes) → ids_in_range sizes (N.tested_parts node.now) ≡ true
        → node_fault sizes types.now id (N.tested_parts node.now) result }
{
    let held = node.type_parts();
    if !held.names_paths(types) {
        return Some(FinishFault::NotAPath(id));
    }
    if !node.returns() {
        return Some(FinishFault::NoReturnType(id));
    }
    if !held.gives_self() {
        return Some(FinishFault::NoSelfArgument(id));
    }
    if !held.lists_fit() {
        return Some(FinishFault::ArgumentLists(id));
    }
    None
}

/// Returns the first fault of one node whose ids are all in range.
fn other_fault<N: TestedNode>(node: &N, id: NodeId, types: &[TypeRef]) -> Option<FinishFault>
    ensures { (sizes : Sizes) → ids_in_range sizes (N.tested_parts node.now) ≡ true
        → node_fault sizes types.now id (N.tested_parts node.now) result }
{
    if node.type_parts().is_plain() && node.returns() {
        return None;
    }
    held_fault(node, id, types)
}

/// Visits one node, and returns whether each id that it passes to a visitor is in range.
fn calls_in_range<N: TestedNode>(node: &N, visitor: &mut EdgeVisitor) -> bool
    requires { CanVisit visitor.old 1 }
    ensures in_range { result ≡ list_all (is_in_range visitor.old.sizes) (N.tested_parts node.now).calls }
    ensures sizes { visitor.new.sizes ≡ visitor.old.sizes }
    ensures visited { IsTrue result → VisitsNodes visitor.old (N.tested_parts node.now ∷ []) visitor.new }
{
    visitor.parents.begin_row();
    node.visit(visitor);
    visitor.all_in_range
}

/// Visits one node, and returns whether each id that it names is in range.
fn ids_in_range<N: TestedNode>(node: &N, visitor: &mut EdgeVisitor) -> bool
    requires { CanVisit visitor.old 1 }
    ensures in_range { result ≡ ids_in_range visitor.old.sizes (N.tested_parts node.now) }
    ensures visited { IsTrue result → VisitsNodes visitor.old (N.tested_parts node.now ∷ []) visitor.new }
{
    calls_in_range(node, visitor)
        && is_below(node.binding(), visitor.sizes.bindings)
        && is_below(node.label(), visitor.sizes.labels)
}

/// Returns the first fault of one node.
fn fault_of<N: TestedNode>(
    node: &N,
    id: NodeId,
    types: &[TypeRef],
    visitor: &mut EdgeVisitor,
) -> Option<FinishFault>
    requires { CanVisit visitor.old 1 }
    ensures fault { node_fault visitor.old.sizes types.now id (N.tested_parts node.now) result }
    ensures visited { IfNone result (VisitsNodes visitor.old (N.tested_parts node.now ∷ []) visitor.new) }
{
    if !ids_in_range(node, visitor) {
        return Some(FinishFault::IdOutOfRange(id));
    }
    other_fault(node, id, types)
}

/// Returns the first fault of nodes of one sort.
fn first_of<N: TestedNode>(
    nodes: &[N],
    types: &[TypeRef],
    visitor: &mut EdgeVisitor,
) -> Option<FinishFault>
    requires few { length nodes.now ≤ MOST_ITEMS }
    requires room { CanVisit visitor.old (length nodes.now) }
    ensures fault { first_of visitor.old.sizes types.now N.name (map N.tested_parts nodes.now) result }
    ensures visited { IfNone result (VisitsNodes visitor.old (map N.tested_parts nodes.now) visitor.new) }
{
    for (i, node) in nodes.iter().enumerate() {
        if let Some(fault) = fault_of(node, N::name(i as u32), types, visitor) {
            return Some(fault);
        }
    }
    None
}

/// Turns a fault of the graph, which has a node's place, into a fault of that node. A fault of a root keeps
/// its index.
fn tell(sizes: Sizes, roots: usize, fault: ForestFault) -> FinishFault
    requires few { Few sizes }
    requires within { IsWithin (sizes.exprs + sizes.pats + sizes.types) roots fault }
    ensures { result ≡ fault_of_graph sizes fault }
{
    match fault {
        ForestFault::SharedChild(n) => FinishFault::SharedChild(sizes.node_at(n)),
        ForestFault::Cycle(n) => FinishFault::Cycle(sizes.node_at(n)),
        ForestFault::RootOutOfRange(i) => FinishFault::RootOutOfRange(i),
        ForestFault::RootRepeated(i) => FinishFault::RootRepeated(i),
        ForestFault::RootUnderRoot(i) => FinishFault::RootUnderRoot(i),
        ForestFault::RootEnds(i) => FinishFault::RootEnds(i),
    }
}

/// Returns the first fault of a single node: of an expression, then of a pattern, then of a type.
fn first_bad_node(nodes: &NodeSlices<'_>, visitor: &mut EdgeVisitor) -> Option<FinishFault>
    requires sizes { visitor.old.sizes ≡ sizes_of (nodes_in nodes.now) }
    requires room { CanVisit visitor.old (length (all_tested (nodes_in nodes.now))) }
    ensures fault { first_bad_node (nodes_in nodes.now) result }
    ensures visited { IfNone result (VisitsNodes visitor.old (all_tested (nodes_in nodes.now)) visitor.new) }
{
    if let Some(fault) = first_of(nodes.exprs, nodes.types, visitor) {
        return Some(fault);
    }
    if let Some(fault) = first_of(nodes.pats, nodes.types, visitor) {
        return Some(fault);
    }
    first_of(nodes.types, nodes.types, visitor)
}

/// Returns the first fault of the graph and the roots, where the parents of all nodes are known.
fn first_graph_fault(
    alloc: Global,
    nodes: &NodeSlices<'_>,
    parents: &Parents,
    roots: &[Root],
) -> Result<Option<FinishFault>, AllocError>
    requires few { Few (sizes_of (nodes_in nodes.now)) }
    requires nodes { first_bad_node (nodes_in nodes.now) None }
    requires parents { IsParentageOf (graph (nodes_in nodes.now)) parents.now }
    requires rows { parents.now.rows ≡ length parents.now.parents }
    ensures fault { IfOk result (graph_fault record { nodes = nodes_in nodes.now; roots = roots.now }) }
    ensures parents { IfOk result (λ fault. IfNone fault
        (HasParents (graph (nodes_in nodes.now)) parents.now.parents)) }
{
    match parents.first_fault(alloc, nodes.ends(), roots)? {
        Some(fault) => Ok(Some(tell(nodes.sizes(), roots.len(), fault))),
        None => Ok(None),
    }
}

/// Returns the parents of the nodes, if these have no fault with these roots, else the first fault: of a
/// node, then of the graph, then of a root; or `Memory`.
///
/// It takes time linear in nodes, edges and roots. It recurses only into associated type bindings that are
/// nested in one path.
/// It returns `Memory` only if an allocation of its tables fails.
pub fn validated_parents(
    alloc: Global,
    nodes: &NodeSlices<'_>,
    roots: &[Root],
) -> Result<Parents, FinishFault>
    requires { Few (sizes_of (nodes_in nodes.now)) }
    ensures ok { IfOk result (λ parents. rooted_fault record {
      nodes = nodes_in nodes.now;
      roots = roots.now;
    } None
        × HasParents (graph (nodes_in nodes.now)) parents.parents) }
    ensures err { IfErr result (λ fault. fault ≡ FinishFault.Memory
        ⊎ rooted_fault record { nodes = nodes_in nodes.now; roots = roots.now } (Some fault)) }
{
    let sizes = nodes.sizes();
    let Ok(parents) = Parents::new(alloc, sizes.exprs + sizes.pats + sizes.types) else {
        return Err(FinishFault::Memory);
    };
    let mut visitor = EdgeVisitor {
        sizes,
        parents,
        all_in_range: true,
    };
    if let Some(fault) = first_bad_node(nodes, &mut visitor) {
        return Err(fault);
    }
    match first_graph_fault(alloc, nodes, &visitor.parents, roots) {
        Ok(None) => Ok(visitor.parents),
        Ok(Some(fault)) => Err(fault),
        Err(_) => Err(FinishFault::Memory),
    }
}
