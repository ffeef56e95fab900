//! How nodes of the three sorts are tested: how a fault names each, the visit of its children, and what else
//! is tested.
//! The matches name each field of a node, so that a new field is a compile error here.

ghost use Rattle.std.specs.Prelude.{◌≡◌, ℕ, Option};
ghost use Rattle.std.specs.Option.{option_to_list};
ghost use Rattle.hir_path.specs.declared.path.GenericArgs.{GenericArgs};
ghost use Rattle.hir_node.specs.declared.node_id.NodeId.{NodeId};
ghost use Rattle.hir_node.specs.Runs.{Runs, MayRun};
ghost use Rattle.hir_validate.specs.internal.TypeParts.{type_parts_of};
ghost use Rattle.hir_validate.specs.TestedParts.{TestedParts, tested_expr, tested_pat, tested_type, nothing, a_path, some_args, some_bounds};

use crate::type_parts::TypeParts;
use hir_collections::Boxed;
use hir_node::{
    BindingId, Expr, ExprId, GenericArgs, LabelId, NodeId, Pat, PatId, Path, StoreVisitor,
    TypeBound, TypeRef, TypeRefId,
};

/// Returns the parts of a node that holds nothing.
fn nothing<'a>() -> TypeParts<'a>
    ensures { type_parts_of result ≡ nothing }
{
    TypeParts {
        path: None,
        args: None,
        bounds: &[],
    }
}

/// Returns the parts of a node that holds a path.
fn a_path(path: &Path) -> TypeParts<'_>
    ensures { type_parts_of result ≡ a_path path.now }
{
    TypeParts {
        path: Some(path),
        args: None,
        bounds: &[],
    }
}

/// Returns the parts of a node that may hold generic arguments.
fn some_args(args: &Option<Boxed<GenericArgs>>) -> TypeParts<'_>
    ensures { type_parts_of result ≡ some_args args.now }
{
    TypeParts {
        path: None,
        args: args.as_ref().map(Boxed::get),
        bounds: &[],
    }
}

/// Returns the parts of a node that holds bounds.
fn some_bounds(bounds: &[TypeBound]) -> TypeParts<'_>
    ensures { type_parts_of result ≡ some_bounds bounds.now }
{
    TypeParts {
        path: None,
        args: None,
        bounds,
    }
}

/// A node of one sort, as it is tested.
pub(crate) trait TestedNode {
    // the parts of a node that are tested
    ghost tested_parts: { Self → TestedParts };

    // the id by which a fault names the node with this number
    ghost name: { ℕ → NodeId };

    /// Returns the id by which a fault names the node with this number.
    fn name(n: u32) -> NodeId
        ensures { result ≡ name n };

    /// Calls the visitor with each child.
    fn visit<V: StoreVisitor>(&self, visitor: &mut V)
        requires { MayRun V.may V.step visitor.old (tested_parts self.now).calls }
        ensures { Runs V.step visitor.old (tested_parts self.now).calls visitor.new };

    /// Returns the binding that the node names.
    fn binding(&self) -> Option<BindingId>
        ensures { option_to_list result ≡ (tested_parts self.now).bindings };

    /// Returns the label that the node names.
    fn label(&self) -> Option<LabelId>
        ensures { option_to_list result ≡ (tested_parts self.now).labels };

    /// Returns the parts that the node holds.
    fn type_parts(&self) -> TypeParts<'_>
        ensures { type_parts_of result ≡ (tested_parts self.now).held };

    /// Returns whether the node has a return type, if it is a function type.
    fn returns(&self) -> bool
        ensures { result ≡ (tested_parts self.now).returns };
}

impl TestedNode for Expr {
    ghost use Rattle.hir_node.specs.declared.node_id.NodeId.TheVariants as node;

    ghost tested_parts = { tested_expr };

    ghost name = { node.Expr };

    fn name(n: u32) -> NodeId {
        NodeId::Expr(ExprId::from_raw(n))
    }

    fn visit<V: StoreVisitor>(&self, visitor: &mut V) {
        self.visit_children(visitor);
    }

    fn binding(&self) -> Option<BindingId> {
        None
    }

    fn label(&self) -> Option<LabelId> {
        match self {
            Expr::Block {
                id: _,
                statements: _,
                tail: _,
                label,
                unsafe_: _,
            }
            | Expr::Loop {
                body: _,
                label,
                source: _,
            }
            | Expr::Continue { label }
            | Expr::Break { expr: _, label } => *label,
            Expr::Missing
            | Expr::Underscore
            | Expr::IncludeBytes
            | Expr::Path(_)
            | Expr::Literal(_)
            | Expr::Array(_)
            | Expr::OffsetOf(_)
            | Expr::Const(_)
            | Expr::If {
                condition: _,
                then_branch: _,
                else_branch: _,
            }
            | Expr::Let { pat: _, expr: _ }
            | Expr::Call { callee: _, args: _ }
            | Expr::MethodCall {
                receiver: _,
                method_name: _,
                args: _,
                generic_args: _,
            }
            | Expr::Match { expr: _, arms: _ }
            | Expr::Return { expr: _ }
            | Expr::Yield { expr: _ }
            | Expr::Yeet { expr: _ }
            | Expr::Become { expr: _ }
            | Expr::Await { expr: _ }
            | Expr::RecordLit {
                path: _,
                fields: _,
                spread: _,
            }
            | Expr::Field { expr: _, name: _ }
            | Expr::Cast {
                expr: _,
                type_ref: _,
            }
            | Expr::Ref {
                expr: _,
                rawness: _,
                mutability: _,
            }
            | Expr::UnaryOp { expr: _, op: _ }
            | Expr::BinaryOp {
                lhs: _,
                rhs: _,
                op: _,
            }
            | Expr::Assignment {
                target: _,
                value: _,
            }
            | Expr::Index { base: _, index: _ }
            | Expr::Closure {
                args: _,
                arg_types: _,
                ret_type: _,
                body: _,
                closure_kind: _,
                capture_by: _,
            }
            | Expr::Tuple { exprs: _ } => None,
        }
    }

    fn type_parts(&self) -> TypeParts<'_> {
        match self {
            Expr::Path(path)
            | Expr::RecordLit {
                path,
                fields: _,
                spread: _,
            } => a_path(path),
            Expr::MethodCall {
                receiver: _,
                method_name: _,
                args: _,
                generic_args,
            } => some_args(generic_args),
            Expr::Missing
            | Expr::Underscore
            | Expr::IncludeBytes
            | Expr::Literal(_)
            | Expr::Array(_)
            | Expr::OffsetOf(_)
            | Expr::Const(_)
            | Expr::If {
                condition: _,
                then_branch: _,
                else_branch: _,
            }
            | Expr::Let { pat: _, expr: _ }
            | Expr::Block {
                id: _,
                statements: _,
                tail: _,
                label: _,
                unsafe_: _,
            }
            | Expr::Loop {
                body: _,
                label: _,
                source: _,
            }
            | Expr::Call { callee: _, args: _ }
            | Expr::Match { expr: _, arms: _ }
            | Expr::Continue { label: _ }
            | Expr::Break { expr: _, label: _ }
            | Expr::Return { expr: _ }
            | Expr::Yield { expr: _ }
            | Expr::Yeet { expr: _ }
            | Expr::Become { expr: _ }
            | Expr::Await { expr: _ }
            | Expr::Field { expr: _, name: _ }
            | Expr::Cast {
                expr: _,
                type_ref: _,
            }
            | Expr::Ref {
                expr: _,
                rawness: _,
                mutability: _,
            }
            | Expr::UnaryOp { expr: _, op: _ }
            | Expr::BinaryOp {
                lhs: _,
                rhs: _,
                op: _,
            }
            | Expr::Assignment {
                target: _,
                value: _,
            }
            | Expr::Index { base: _, index: _ }
            | Expr::Closure {
                args: _,
                arg_types: _,
                ret_type: _,
                body: _,
                closure_kind: _,
                capture_by: _,
            }
            | Expr::Tuple { exprs: _ } => nothing(),
        }
    }

    fn returns(&self) -> bool {
        true
    }
}

impl TestedNode for Pat {
    ghost use Rattle.hir_node.specs.declared.node_id.NodeId.TheVariants as node;

    ghost tested_parts = { tested_pat };

    ghost name = { node.Pat };

    fn name(n: u32) -> NodeId {
        NodeId::Pat(PatId::from_raw(n))
    }

    fn visit<V: StoreVisitor>(&self, visitor: &mut V) {
        self.visit_children(visitor);
    }

    fn binding(&self) -> Option<BindingId> {
        match self {
            Pat::Bind { id, subpat: _ } => Some(*id),
            Pat::Missing
            | Pat::Rest
            | Pat::Wild
            | Pat::NotNull
            | Pat::Tuple {
                args: _,
                ellipsis: _,
            }
            | Pat::Or(_)
            | Pat::Record {
                path: _,
                args: _,
                ellipsis: _,
            }
            | Pat::Range {
                start: _,
                end: _,
                range_type: _,
            }
            | Pat::Slice {
                prefix: _,
                slice: _,
                suffix: _,
            }
            | Pat::Path(_)
            | Pat::Lit(_)
            | Pat::Expr(_)
            | Pat::TupleStruct {
                path: _,
                args: _,
                ellipsis: _,
            }
            | Pat::Ref {
                pat: _,
                mutability: _,
            }
            | Pat::Box { inner: _ }
            | Pat::Deref { inner: _ } => None,
        }
    }

    fn label(&self) -> Option<LabelId> {
        None
    }

    fn type_parts(&self) -> TypeParts<'_> {
        match self {
            Pat::Record {
                path,
                args: _,
                ellipsis: _,
            }
            | Pat::Path(path)
            | Pat::TupleStruct {
                path,
                args: _,
                ellipsis: _,
            } => a_path(path),
            Pat::Missing
            | Pat::Rest
            | Pat::Wild
            | Pat::NotNull
            | Pat::Tuple {
                args: _,
                ellipsis: _,
            }
            | Pat::Or(_)
            | Pat::Range {
                start: _,
                end: _,
                range_type: _,
            }
            | Pat::Slice {
                prefix: _,
                slice: _,
                suffix: _,
            }
            | Pat::Lit(_)
            | Pat::Expr(_)
            | Pat::Bind { id: _, subpat: _ }
            | Pat::Ref {
                pat: _,
                mutability: _,
            }
            | Pat::Box { inner: _ }
            | Pat::Deref { inner: _ } => nothing(),
        }
    }

    fn returns(&self) -> bool {
        true
    }
}

impl TestedNode for TypeRef {
    ghost use Rattle.hir_node.specs.declared.node_id.NodeId.TheVariants as node;

    ghost tested_parts = { tested_type };

    ghost name = { node.TypeRef };

    fn name(n: u32) -> NodeId {
        NodeId::TypeRef(TypeRefId::from_raw(n))
    }

    fn visit<V: StoreVisitor>(&self, visitor: &mut V) {
        self.visit_children(visitor);
    }

    fn binding(&self) -> Option<BindingId> {
        None
    }

    fn label(&self) -> Option<LabelId> {
        None
    }

    fn type_parts(&self) -> TypeParts<'_> {
        match self {
            TypeRef::Path(path) => a_path(path),
            TypeRef::ImplTrait(bounds) | TypeRef::DynTrait(bounds) => {
                some_bounds(bounds.as_slice())
            }
            TypeRef::Never
            | TypeRef::Placeholder
            | TypeRef::Error
            | TypeRef::Tuple(_)
            | TypeRef::RawPtr(_, _)
            | TypeRef::Reference(_)
            | TypeRef::Array(_)
            | TypeRef::Slice(_)
            | TypeRef::Fn(_)
            | TypeRef::TypeParam(_)
            | TypeRef::PatternType(_, _) => nothing(),
        }
    }

    fn returns(&self) -> bool {
        match self {
            TypeRef::Fn(function) => !function.get().params.is_empty(),
            TypeRef::Never
            | TypeRef::Placeholder
            | TypeRef::Error
            | TypeRef::Tuple(_)
            | TypeRef::Path(_)
            | TypeRef::RawPtr(_, _)
            | TypeRef::Reference(_)
            | TypeRef::Array(_)
            | TypeRef::Slice(_)
            | TypeRef::ImplTrait(_)
            | TypeRef::DynTrait(_)
            | TypeRef::TypeParam(_)
            | TypeRef::PatternType(_, _) => true,
        }
    }
}
