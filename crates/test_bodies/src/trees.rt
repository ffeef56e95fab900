//! Stores for the tests. A tree is written as its nodes of each kind, so that each arena is lent to one small
//! function, and few are lent the builder.
use crate::memory::{NodeForm, add_all, first, in_a_box, was_taken};
use hir_base::{HygieneId, Name, RangeOp};
use hir_collections::Idx;
use hir_node::{Binding, BindingAnnotation, Expr, Literal, Pat, TypeRef};
use hir_store::{ExpressionStore, ExpressionStoreBuilder};
use std::alloc::{AllocError, Global};
use std::test::Fail;

/// A pattern. Nodes are named by their numbers.
pub enum PatOf {
    /// `_`.
    Wild,
    /// The pattern of this binding, alone or with the pattern of this number after `@`.
    Bind(u32, Option<u32>),
    /// `expression..`.
    RangeFrom(u32),
}

/// The literal `1`.
pub struct One;

/// A binding of this name.
pub struct BindingOf(pub &'static str);

/// The type `!`.
pub struct Never;

/// The nodes of a store, without its types.
pub struct Tree {
    pub bindings: &'static [BindingOf],
    pub pats: &'static [PatOf],
    pub exprs: &'static [One],
    /// Its roots, where there is a list of them.
    pub roots: Option<&'static [u32]>,
}

/// A tree without a node.
pub const BARE: Tree = Tree {
    bindings: &[],
    pats: &[],
    exprs: &[],
    roots: None,
};

impl NodeForm<Binding> for BindingOf {
    fn make(&self, alloc: Global) -> Result<Binding, AllocError> {
        let name = Name::new(alloc, self.0)?;
        Ok(Binding {
            name,
            mode: BindingAnnotation::Unannotated,
            problems: None,
            hygiene: HygieneId::ROOT,
        })
    }
}

impl NodeForm<Pat> for PatOf {
    fn make(&self, _: Global) -> Result<Pat, AllocError> {
        Ok(match self {
            PatOf::Wild => Pat::Wild,
            PatOf::Bind(id, inner) => Pat::Bind {
                id: Idx::from_raw(*id),
                subpat: inner.map(Idx::from_raw),
            },
            PatOf::RangeFrom(start) => Pat::Range {
                start: Some(Idx::from_raw(*start)),
                end: None,
                range_type: RangeOp::Inclusive,
            },
        })
    }
}

impl NodeForm<Expr> for One {
    fn make(&self, _: Global) -> Result<Expr, AllocError> {
        Ok(Expr::Literal(Literal::Int(1, None)))
    }
}

impl NodeForm<TypeRef> for Never {
    fn make(&self, _: Global) -> Result<TypeRef, AllocError> {
        Ok(TypeRef::Never)
    }
}

/// Begins the list of roots, where there is one, and adds them.
fn add_roots(
    builder: &mut ExpressionStoreBuilder,
    roots: Option<&'static [u32]>,
) -> Result<(), Fail> {
    if let Some(roots) = roots {
        builder.begin_roots();
        for root in roots {
            was_taken(builder.push_root(Idx::from_raw(*root)))?;
        }
    }
    Ok(())
}

/// Adds these types and the nodes of the tree.
fn build(
    builder: &mut ExpressionStoreBuilder,
    alloc: Global,
    types: &[Never],
    tree: &Tree,
) -> Result<(), Fail> {
    add_all(&mut builder.types, alloc, types)?;
    add_all(&mut builder.bindings, alloc, tree.bindings)?;
    add_all(&mut builder.pats, alloc, tree.pats)?;
    add_all(&mut builder.exprs, alloc, tree.exprs)?;
    add_roots(builder, tree.roots)
}

/// The store of this tree, over these types. In a box, since it is dropped wherever a later call fails.
pub fn store(alloc: Global, types: &[Never], tree: &Tree) -> Result<Box<ExpressionStore>, Fail> {
    let mut builder = in_a_box(alloc, ExpressionStoreBuilder::new(alloc))?;
    build(&mut builder, alloc, types, tree)?;
    first(alloc, Box::into_inner(builder).finish())
}
