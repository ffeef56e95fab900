//! The visit of a node's children in the order in which scopes are made.
#![tactic(auto, using(hir_node::proofs::RunLemmas::runs))]

ghost use Rattle.std.specs.Prelude.{List};
ghost use Rattle.std.specs.List.{flat_map};
ghost use Rattle.hir_node.specs.ChildCalls.{Call};
ghost use Rattle.hir_node.specs.Runs.{Runs, MayRun};
ghost use Rattle.hir_scope.specs.ScopingForms.{expr_form, form_model};
ghost use Rattle.hir_scope.specs.Order.{met_in_form};

use crate::form::{BorrowedByForm, Form};
use hir_node::{Expr, MatchArm, Statement, StoreVisitor, StoreVisitorExt, TypeRefId};

/// A part of an expression whose children are visited.
trait Visit {
    // its calls, in the order in which scopes are made
    ghost calls: { Self → List Call };

    fn visit<V: StoreVisitor>(&self, visitor: &mut V)
        requires { MayRun V.may V.step visitor.old (calls self.now) }
        ensures { Runs V.step visitor.old (calls self.now) visitor.new };
}

/// Visits each item, in order.
fn visit_each<V: StoreVisitor, T: Visit>(visitor: &mut V, items: &[T])
    requires { MayRun V.may V.step visitor.old (flat_map T.calls items.now) }
    ensures { Runs V.step visitor.old (flat_map T.calls items.now) visitor.new }
{
    for item in items {
        item.visit(visitor);
    }
}

impl Visit for Option<TypeRefId> {
    ghost use Rattle.hir_node.specs.ChildCalls.{t, opt};

    ghost calls = { opt t };

    fn visit<V: StoreVisitor>(&self, visitor: &mut V) {
        visitor.on_type_opt(*self);
    }
}

impl Visit for Statement {
    ghost use Rattle.hir_scope.specs.Order.{met_in_statement};

    ghost calls = { met_in_statement };

    fn visit<V: StoreVisitor>(&self, visitor: &mut V) {
        match self {
            Statement::Let {
                pat,
                type_ref,
                initializer,
                else_branch,
            } => {
                visitor.on_type_opt(*type_ref);
                visitor.on_expr_opt(*initializer);
                visitor.on_expr_opt(*else_branch);
                visitor.on_pat(*pat);
            }
            Statement::Expr { expr, .. } => visitor.on_expr(*expr),
            Statement::Item(_) => {}
        }
    }
}

impl Visit for MatchArm {
    ghost use Rattle.hir_scope.specs.Order.{met_in_arm};

    ghost calls = { met_in_arm };

    fn visit<V: StoreVisitor>(&self, visitor: &mut V) {
        visitor.on_pat(self.pat);
        visitor.on_expr_opt(self.guard);
        visitor.on_expr(self.expr);
    }
}

/// Calls the visitor with each child of a node of this form, in the order in which scopes are made.
pub fn visit_form<V: StoreVisitor>(form: &Form<'_>, visitor: &mut V)
    requires { MayRun V.may V.step visitor.old (met_in_form (form_model form.now)) }
    ensures { Runs V.step visitor.old (met_in_form (form_model form.now)) visitor.new }
{
    match form {
        Form::If(condition, then_branch, else_branch) => {
            visitor.on_expr(*condition);
            visitor.on_expr(*then_branch);
            visitor.on_expr_opt(*else_branch);
        }
        Form::Let(pat, expr) => {
            visitor.on_expr(*expr);
            visitor.on_pat(*pat);
        }
        Form::Block(_, _, statements, tail) => {
            visit_each(visitor, *statements);
            visitor.on_expr_opt(*tail);
        }
        Form::Loop(_, body) => visitor.on_expr(*body),
        Form::Closure(arg_types, ret_type, args, body) => {
            visit_each(visitor, *arg_types);
            visitor.on_type_opt(*ret_type);
            visitor.on_pats(*args);
            visitor.on_expr(*body);
        }
        Form::Match(scrutinee, arms) => {
            visitor.on_expr(*scrutinee);
            visit_each(visitor, *arms);
        }
        Form::Assignment(target, value) => {
            visitor.on_pat(*target);
            visitor.on_expr(*value);
        }
        Form::PatternType(inner, pat) => {
            visitor.on_type(*inner);
            visitor.on_pat(*pat);
        }
        Form::Leaf => {}
        Form::Expr(expr) => expr.visit_children(visitor),
        Form::Pat(pat) => pat.visit_children(visitor),
        Form::TypeRef(type_ref) => type_ref.visit_children(visitor),
    }
}

/// Calls the visitor with each child of an expression, as `Expr::visit_children` does, in the order in which
/// scopes are made: where a value is matched with a pattern it comes before the pattern, an arm's guard
/// before its body, a closure's types before its arguments.
pub fn visit_in_scope_order<V: StoreVisitor>(expr: &Expr, visitor: &mut V)
    requires { MayRun V.may V.step visitor.old (met_in_form (expr_form expr.now)) }
    ensures { Runs V.step visitor.old (met_in_form (expr_form expr.now)) visitor.new }
{
    let _borrowed: BorrowedByForm<'_> = None;
    let form = Form::of_expr(expr);
    visit_form(&form, visitor);
}
