//! The nodes that a store owns, with what they name: six arenas as one value.

ghost use Rattle.std.specs.Prelude.{◌≡◌};
ghost use Rattle.hir_validate.specs.Faults.{nodes_in};
ghost use Rattle.hir_validate.specs.Nodes.{no_nodes, sizes_of};
ghost use Rattle.hir_validate.specs.Sizes.{Few};

use crate::nodes::NodeSlices;
use hir_collections::{Arena, ExactEq, TryClone};
use hir_node::{
    Binding, BindingKind, Expr, ExprKind, Label, LabelKind, LifetimeRef, LifetimeRefKind, Pat,
    PatKind, TypeRef, TypeRefKind,
};
use std::alloc::{AllocError, Global};

/// The nodes of a store, with its bindings, labels and lifetimes. Nothing says that they have no fault.
#[derive(PartialEq, Eq)]
pub struct Nodes {
    pub exprs: Arena<ExprKind, Expr>,
    pub pats: Arena<PatKind, Pat>,
    pub types: Arena<TypeRefKind, TypeRef>,
    pub bindings: Arena<BindingKind, Binding>,
    pub labels: Arena<LabelKind, Label>,
    pub lifetimes: Arena<LifetimeRefKind, LifetimeRef>,
}

/// Drops the arenas one after the other. This `impl` exists so that the drop is proved once, and is a call
/// where a value is dropped.
impl Drop for Nodes {
    fn drop(self) {
        let Nodes {
            exprs,
            pats,
            types,
            bindings,
            labels,
            lifetimes,
        } = self;
    }
}

impl Nodes {
    /// Returns empty arenas, without an allocation.
    pub fn new(alloc: Global) -> Nodes
        ensures { result ≡ no_nodes }
    {
        Nodes {
            exprs: Arena::new(alloc),
            pats: Arena::new(alloc),
            types: Arena::new(alloc),
            bindings: Arena::new(alloc),
            labels: Arena::new(alloc),
            lifetimes: Arena::new(alloc),
        }
    }

    /// Returns the nodes, borrowed.
    pub fn as_slices(&self) -> NodeSlices<'_>
        ensures nodes { nodes_in result ≡ self.now }
        ensures few { Few (sizes_of (nodes_in result)) }
    {
        NodeSlices {
            exprs: self.exprs.as_slice(),
            pats: self.pats.as_slice(),
            types: self.types.as_slice(),
            bindings: self.bindings.as_slice(),
            labels: self.labels.as_slice(),
            lifetimes: self.lifetimes.as_slice(),
        }
    }
}

impl Clone for Nodes {
    ghost is_clone = { λ nodes copy. copy ≡ nodes };

    fn clone(&self) -> Result<Nodes, AllocError> {
        let exprs = self.exprs.try_clone()?;
        let pats = self.pats.try_clone()?;
        let types = self.types.try_clone()?;
        let bindings = self.bindings.try_clone()?;
        let labels = self.labels.try_clone()?;
        let lifetimes = self.lifetimes.try_clone()?;
        Ok(Nodes {
            exprs,
            pats,
            types,
            bindings,
            labels,
            lifetimes,
        })
    }
}

impl ExactEq for Nodes {
    ghost use Rattle.hir_validate.specs.same.SameNodes.{nodes_decide};

    ghost eq_decides = { nodes_decide };
}

impl TryClone for Nodes {
    ghost clone_is_same = { λ x y h. h };
}
