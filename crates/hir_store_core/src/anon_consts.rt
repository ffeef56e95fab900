//! Whether an expression is an anonymous constant of its parent. Only what may have one is looked at: no list
//! of statements, arguments or fields.
#![tactic(auto, using(hir_node::proofs::RunLemmas::freely))]

ghost use Rattle.std.specs.Prelude.{◌≡◌, ◌||◌};
ghost use Rattle.hir_node.specs.ChildCalls.{args_calls, path_calls};
ghost use Rattle.hir_store_core.specs.JumpTargets.{is_const_call, has_const};
ghost use Rattle.hir_store_core.specs.internal.AnonConsts.{expr_has_const, pat_has_const, type_has_const};

use hir_node::{
    Array, Expr, ExprId, GenericArgs, LifetimeRefId, Pat, PatId, Path, StoreVisitor,
    StoreVisitorExt, TypeRef, TypeRefId, visit_generic_args,
};

/// Looks for an expression among the anonymous constants that it visits.
#[derive(Drop)]
struct ConstFinder {
    expr: ExprId,
    found: bool,
}

impl StoreVisitor for ConstFinder {
    ghost step = { λ v c w. w ≡ record { expr = v.expr; found = is_const_call v.expr c || v.found } };

    fn on_expr(&mut self, _expr: ExprId) {}

    fn on_anon_const_expr(&mut self, constant: ExprId) {
        self.found = constant == self.expr || self.found;
    }

    fn on_pat(&mut self, _pat: PatId) {}

    fn on_type(&mut self, _type_ref: TypeRefId) {}

    fn on_lifetime(&mut self, _lifetime: LifetimeRefId) {}
}

/// Whether the expression is an anonymous constant of the path.
fn path_has_const(path: &Path, expr: ExprId) -> bool
    ensures { result ≡ has_const (path_calls path.now) expr }
{
    let mut finder = ConstFinder { expr, found: false };
    finder.on_path(path);
    finder.found
}

/// Whether the expression is an anonymous constant of the generic arguments.
fn args_have_const(args: &GenericArgs, expr: ExprId) -> bool
    ensures { result ≡ has_const (args_calls args.now) expr }
{
    let mut finder = ConstFinder { expr, found: false };
    visit_generic_args(&mut finder, args);
    finder.found
}

/// Whether an expression is an anonymous constant of another one.
pub(crate) fn expr_has_const(parent: &Expr, expr: ExprId) -> bool
    ensures { result ≡ expr_has_const parent.now expr }
{
    match parent {
        Expr::Const(constant) => *constant == expr,
        Expr::Array(
            Array::Repeat {
                initializer: _,
                repeat,
            },
        ) => *repeat == expr,
        Expr::Path(path)
        | Expr::RecordLit {
            path,
            fields: _,
            spread: _,
        } => path_has_const(path, expr),
        Expr::MethodCall {
            receiver: _,
            method_name: _,
            args: _,
            generic_args: Some(generic_args),
        } => args_have_const(generic_args.get(), expr),
        Expr::MethodCall {
            receiver: _,
            method_name: _,
            args: _,
            generic_args: None,
        }
        | Expr::Array(Array::ElementList { elements: _ })
        | Expr::Missing
        | Expr::Underscore
        | Expr::IncludeBytes
        | Expr::Literal(_)
        | Expr::OffsetOf(_)
        | Expr::If {
            condition: _,
            then_branch: _,
            else_branch: _,
        }
        | Expr::Let { pat: _, expr: _ }
        | Expr::Block {
            id: _,
            statements: _,
            tail: _,
            label: _,
            unsafe_: _,
        }
        | Expr::Loop {
            body: _,
            label: _,
            source: _,
        }
        | Expr::Call { callee: _, args: _ }
        | Expr::Match { expr: _, arms: _ }
        | Expr::Continue { label: _ }
        | Expr::Break { expr: _, label: _ }
        | Expr::Return { expr: _ }
        | Expr::Yield { expr: _ }
        | Expr::Yeet { expr: _ }
        | Expr::Become { expr: _ }
        | Expr::Await { expr: _ }
        | Expr::Field { expr: _, name: _ }
        | Expr::Cast {
            expr: _,
            type_ref: _,
        }
        | Expr::Ref {
            expr: _,
            rawness: _,
            mutability: _,
        }
        | Expr::UnaryOp { expr: _, op: _ }
        | Expr::BinaryOp {
            lhs: _,
            rhs: _,
            op: _,
        }
        | Expr::Assignment {
            target: _,
            value: _,
        }
        | Expr::Index { base: _, index: _ }
        | Expr::Closure {
            args: _,
            arg_types: _,
            ret_type: _,
            body: _,
            closure_kind: _,
            capture_by: _,
        }
        | Expr::Tuple { exprs: _ } => false,
    }
}

/// Whether an expression is an anonymous constant of a pattern.
pub(crate) fn pat_has_const(parent: &Pat, expr: ExprId) -> bool
    ensures { result ≡ pat_has_const parent.now expr }
{
    match parent {
        Pat::Path(path)
        | Pat::Record {
            ellipsis: _,
            path,
            args: _,
        }
        | Pat::TupleStruct {
            path,
            args: _,
            ellipsis: _,
        } => path_has_const(path, expr),
        Pat::Missing
        | Pat::Rest
        | Pat::Wild
        | Pat::NotNull
        | Pat::Tuple {
            args: _,
            ellipsis: _,
        }
        | Pat::Or(_)
        | Pat::Range {
            start: _,
            end: _,
            range_type: _,
        }
        | Pat::Slice {
            prefix: _,
            slice: _,
            suffix: _,
        }
        | Pat::Lit(_)
        | Pat::Expr(_)
        | Pat::Bind { id: _, subpat: _ }
        | Pat::Ref {
            pat: _,
            mutability: _,
        }
        | Pat::Box { inner: _ }
        | Pat::Deref { inner: _ } => false,
    }
}

/// Whether an expression is an anonymous constant of a type.
pub(crate) fn type_has_const(parent: &TypeRef, expr: ExprId) -> bool
    ensures { result ≡ type_has_const parent.now expr }
{
    match parent {
        TypeRef::Array(array) => array.len.expr == expr,
        TypeRef::Path(path) => path_has_const(path, expr),
        TypeRef::Never
        | TypeRef::Placeholder
        | TypeRef::Error
        | TypeRef::Tuple(_)
        | TypeRef::RawPtr(_, _)
        | TypeRef::Reference(_)
        | TypeRef::Slice(_)
        | TypeRef::Fn(_)
        | TypeRef::ImplTrait(_)
        | TypeRef::DynTrait(_)
        | TypeRef::TypeParam(_)
        | TypeRef::PatternType(_, _) => false,
    }
}
