//! The visits of a node's children.
#![tactic(auto, using(crate::proofs::RunLemmas::runs))]

ghost use Rattle.hir_node.specs.ChildCalls.{expr_calls, pat_calls, type_calls, spread_calls, array_calls};
ghost use Rattle.hir_node.specs.Runs.{Runs, MayRun};

use crate::expr::Expr;
use crate::expr_types::{Array, RecordSpread};
use crate::pat::Pat;
use crate::type_ref::TypeRef;
use crate::visit::visit_each;
use crate::visitor::{StoreVisitor, StoreVisitorExt};
use hir_collections::Boxed;

impl Expr {
    /// Calls the visitor with each child, in the order of the child calls.
    // One arm a variant: if it were split, the function would name variants twice. Each field is named, so
    // that a new one can't be overlooked.
    pub fn visit_children<V: StoreVisitor>(&self, visitor: &mut V)
        requires { MayRun V.may V.step visitor.old (expr_calls self.now) }
        ensures { Runs V.step visitor.old (expr_calls self.now) visitor.new }
    {
        match self {
            Expr::Missing
            | Expr::Underscore
            | Expr::IncludeBytes
            | Expr::Literal(_)
            | Expr::Continue { label: _ } => {}
            Expr::Path(path) => visitor.on_path(path),
            Expr::Array(array) => visit_array(visitor, array),
            Expr::OffsetOf(offset) => visitor.on_type(offset.container),
            Expr::Const(expr) => visitor.on_anon_const_expr(*expr),
            Expr::If {
                condition,
                then_branch,
                else_branch,
            } => {
                visitor.on_expr(*condition);
                visitor.on_expr(*then_branch);
                visitor.on_expr_opt(*else_branch);
            }
            Expr::Let { pat, expr } => {
                visitor.on_pat(*pat);
                visitor.on_expr(*expr);
            }
            Expr::Block {
                id: _,
                statements,
                tail,
                label: _,
                unsafe_: _,
            } => {
                visit_each(visitor, statements.as_slice());
                visitor.on_expr_opt(*tail);
            }
            Expr::Loop {
                body,
                label: _,
                source: _,
            } => visitor.on_expr(*body),
            Expr::Call { callee, args } => {
                visitor.on_expr(*callee);
                visitor.on_exprs(args.as_slice());
            }
            Expr::MethodCall {
                receiver,
                method_name: _,
                args,
                generic_args,
            } => {
                visitor.on_expr(*receiver);
                visitor.on_exprs(args.as_slice());
                visitor.on_generic_args_opt(generic_args.as_ref().map(Boxed::get));
            }
            Expr::Match { expr, arms } => {
                visitor.on_expr(*expr);
                visit_each(visitor, arms.as_slice());
            }
            Expr::Break { expr, label: _ } => visitor.on_expr_opt(*expr),
            Expr::Return { expr } | Expr::Yield { expr } | Expr::Yeet { expr } => {
                visitor.on_expr_opt(*expr)
            }
            Expr::Become { expr }
            | Expr::Await { expr }
            | Expr::Field { expr, name: _ }
            | Expr::Ref {
                expr,
                rawness: _,
                mutability: _,
            }
            | Expr::UnaryOp { expr, op: _ } => visitor.on_expr(*expr),
            Expr::RecordLit {
                path,
                fields,
                spread,
            } => {
                visit_each(visitor, fields.get().as_slice());
                visit_spread(visitor, *spread);
                visitor.on_path(path);
            }
            Expr::Cast { expr, type_ref } => {
                visitor.on_expr(*expr);
                visitor.on_type(*type_ref);
            }
            Expr::BinaryOp { lhs, rhs, op: _ } => {
                visitor.on_expr(*lhs);
                visitor.on_expr(*rhs);
            }
            Expr::Assignment { target, value } => {
                visitor.on_pat(*target);
                visitor.on_expr(*value);
            }
            Expr::Index { base, index } => {
                visitor.on_expr(*base);
                visitor.on_expr(*index);
            }
            Expr::Closure {
                args,
                arg_types,
                ret_type,
                body,
                closure_kind: _,
                capture_by: _,
            } => {
                visitor.on_expr(*body);
                visitor.on_pats(args.as_slice());
                visit_each(visitor, arg_types.as_slice());
                visitor.on_type_opt(*ret_type);
            }
            Expr::Tuple { exprs } => visitor.on_exprs(exprs.as_slice()),
        }
    }
}

/// Visits what is spread after the fields of a record literal.
fn visit_spread<V: StoreVisitor>(visitor: &mut V, spread: RecordSpread)
    requires { MayRun V.may V.step visitor.old (spread_calls spread) }
    ensures { Runs V.step visitor.old (spread_calls spread) visitor.new }
{
    match spread {
        RecordSpread::None | RecordSpread::FieldDefaults => {}
        RecordSpread::Expr(expr) => visitor.on_expr(expr),
    }
}

fn visit_array<V: StoreVisitor>(visitor: &mut V, array: &Array)
    requires { MayRun V.may V.step visitor.old (array_calls array.now) }
    ensures { Runs V.step visitor.old (array_calls array.now) visitor.new }
{
    match array {
        Array::ElementList { elements } => visitor.on_exprs(elements.as_slice()),
        Array::Repeat {
            initializer,
            repeat,
        } => {
            visitor.on_expr(*initializer);
            visitor.on_anon_const_expr(*repeat);
        }
    }
}

impl Pat {
    /// Calls the visitor with each child, in the order of the child calls.
    pub fn visit_children<V: StoreVisitor>(&self, visitor: &mut V)
        requires { MayRun V.may V.step visitor.old (pat_calls self.now) }
        ensures { Runs V.step visitor.old (pat_calls self.now) visitor.new }
    {
        match self {
            Pat::Missing | Pat::Rest | Pat::Wild | Pat::NotNull => {}
            Pat::Tuple { args, ellipsis: _ } => visitor.on_pats(args.as_slice()),
            Pat::Or(args) => visitor.on_pats(args.as_slice()),
            Pat::Record {
                path,
                args,
                ellipsis: _,
            } => {
                visit_each(visitor, args.as_slice());
                visitor.on_path(path);
            }
            Pat::Range {
                start,
                end,
                range_type: _,
            } => {
                visitor.on_expr_opt(*start);
                visitor.on_expr_opt(*end);
            }
            Pat::Slice {
                prefix,
                slice,
                suffix,
            } => {
                visitor.on_pats(prefix.as_slice());
                visitor.on_pat_opt(*slice);
                visitor.on_pats(suffix.as_slice());
            }
            Pat::Path(path) => visitor.on_path(path),
            Pat::Lit(expr) | Pat::Expr(expr) => visitor.on_expr(*expr),
            Pat::Bind { id: _, subpat } => visitor.on_pat_opt(*subpat),
            Pat::TupleStruct {
                path,
                args,
                ellipsis: _,
            } => {
                visitor.on_pats(args.as_slice());
                visitor.on_path(path);
            }
            Pat::Ref { pat, mutability: _ } => visitor.on_pat(*pat),
            Pat::Box { inner } | Pat::Deref { inner } => visitor.on_pat(*inner),
        }
    }
}

impl TypeRef {
    /// Calls the visitor with each child, in the order of the child calls.
    pub fn visit_children<V: StoreVisitor>(&self, visitor: &mut V)
        requires { MayRun V.may V.step visitor.old (type_calls self.now) }
        ensures { Runs V.step visitor.old (type_calls self.now) visitor.new }
    {
        match self {
            TypeRef::Never | TypeRef::Placeholder | TypeRef::Error | TypeRef::TypeParam(_) => {}
            TypeRef::Tuple(types) => visitor.on_types(types.as_slice()),
            TypeRef::Path(path) => visitor.on_path(path),
            TypeRef::RawPtr(ty, _) => visitor.on_type(*ty),
            TypeRef::Reference(reference) => {
                let reference = reference.get();
                visitor.on_type(reference.ty);
                visitor.on_lifetime_opt(reference.lifetime);
            }
            TypeRef::Array(array) => {
                visitor.on_type(array.ty);
                visitor.on_anon_const_expr(array.len.expr);
            }
            TypeRef::Slice(ty) => visitor.on_type(*ty),
            TypeRef::Fn(function) => visit_each(visitor, function.get().params.as_slice()),
            TypeRef::ImplTrait(bounds) => visitor.on_type_bounds(bounds.as_slice()),
            TypeRef::DynTrait(bounds) => visitor.on_type_bounds(bounds.as_slice()),
            TypeRef::PatternType(ty, pat) => {
                visitor.on_type(*ty);
                visitor.on_pat(*pat);
            }
        }
    }
}
