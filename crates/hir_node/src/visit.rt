//! The parts of a node that call a visitor, and the loop over a list of them.
#![tactic(auto, using(crate::proofs::RunLemmas::runs))]

ghost use Rattle.std.specs.Prelude.{List};
ghost use Rattle.std.specs.List.{flat_map};
ghost use Rattle.hir_node.specs.ChildCalls.{Call, arm_calls};
ghost use Rattle.hir_node.specs.Runs.{Runs, MayRun};

use crate::expr_types::{MatchArm, RecordLitField, Statement};
use crate::pat::RecordFieldPat;
use crate::visitor::{
    StoreVisitor, StoreVisitorExt, visit_args_opt, visit_generic_arg, visit_use_arg,
};
use hir_base::Name;
use hir_path::{ExprId, GenericArg, GenericArgs, PatId, TypeBound, TypeRefId, UseArgRef};

/// A part of a node that calls a visitor.
pub(crate) trait Visit {
    // the calls of the part, in order
    ghost calls: { Self → List Call };

    fn visit<V: StoreVisitor>(&self, visitor: &mut V)
        requires { MayRun V.may V.step visitor.old (calls self.now) }
        ensures { Runs V.step visitor.old (calls self.now) visitor.new };
}

/// Visits each item, in order.
pub(crate) fn visit_each<V: StoreVisitor, T: Visit>(visitor: &mut V, items: &[T])
    requires { MayRun V.may V.step visitor.old (flat_map T.calls items.now) }
    ensures { Runs V.step visitor.old (flat_map T.calls items.now) visitor.new }
{
    for item in items {
        item.visit(visitor);
    }
}

impl Visit for ExprId {
    ghost use Rattle.hir_node.specs.ChildCalls.{e};

    ghost calls = { e };

    fn visit<V: StoreVisitor>(&self, visitor: &mut V) {
        visitor.on_expr(*self);
    }
}

impl Visit for PatId {
    ghost use Rattle.hir_node.specs.ChildCalls.{p};

    ghost calls = { p };

    fn visit<V: StoreVisitor>(&self, visitor: &mut V) {
        visitor.on_pat(*self);
    }
}

impl Visit for TypeRefId {
    ghost use Rattle.hir_node.specs.ChildCalls.{t};

    ghost calls = { t };

    fn visit<V: StoreVisitor>(&self, visitor: &mut V) {
        visitor.on_type(*self);
    }
}

impl Visit for Option<TypeRefId> {
    ghost use Rattle.hir_node.specs.ChildCalls.{t, opt};

    ghost calls = { opt t };

    fn visit<V: StoreVisitor>(&self, visitor: &mut V) {
        visitor.on_type_opt(*self);
    }
}

impl Visit for GenericArg {
    ghost use Rattle.hir_node.specs.ChildCalls.{arg_calls};

    ghost calls = { arg_calls };

    fn visit<V: StoreVisitor>(&self, visitor: &mut V) {
        visit_generic_arg(visitor, self);
    }
}

impl Visit for UseArgRef {
    ghost use Rattle.hir_node.specs.ChildCalls.{use_calls};

    ghost calls = { use_calls };

    fn visit<V: StoreVisitor>(&self, visitor: &mut V) {
        visit_use_arg(visitor, self);
    }
}

impl Visit for TypeBound {
    ghost use Rattle.hir_node.specs.ChildCalls.{bound_calls};

    ghost calls = { bound_calls };

    fn visit<V: StoreVisitor>(&self, visitor: &mut V) {
        visitor.on_type_bound(self);
    }
}

impl Visit for Option<GenericArgs> {
    ghost use Rattle.hir_node.specs.ChildCalls.{args_calls, opt};

    ghost calls = { opt args_calls };

    fn visit<V: StoreVisitor>(&self, visitor: &mut V) {
        visit_args_opt(visitor, self);
    }
}

// A field of a record literal calls the visitor with its value.
impl Visit for RecordLitField {
    ghost use Rattle.hir_node.specs.ChildCalls.{e};

    ghost calls = { λ field. e field.expr };

    fn visit<V: StoreVisitor>(&self, visitor: &mut V) {
        visitor.on_expr(self.expr);
    }
}

impl Visit for RecordFieldPat {
    ghost use Rattle.hir_node.specs.ChildCalls.{p};

    ghost calls = { λ field. p field.pat };

    fn visit<V: StoreVisitor>(&self, visitor: &mut V) {
        visitor.on_pat(self.pat);
    }
}

// An entry of a function type calls the visitor with its type.
impl Visit for (Option<Name>, TypeRefId) {
    ghost use Rattle.hir_node.specs.ChildCalls.{t};

    ghost calls = { λ entry. t entry.1 };

    fn visit<V: StoreVisitor>(&self, visitor: &mut V) {
        visitor.on_type(self.1);
    }
}

impl Visit for Statement {
    ghost use Rattle.hir_node.specs.ChildCalls.{statement_calls};

    ghost calls = { statement_calls };

    fn visit<V: StoreVisitor>(&self, visitor: &mut V) {
        match self {
            Statement::Let {
                pat,
                type_ref,
                initializer,
                else_branch,
            } => {
                visitor.on_expr_opt(*initializer);
                visitor.on_expr_opt(*else_branch);
                visitor.on_pat(*pat);
                visitor.on_type_opt(*type_ref);
            }
            Statement::Expr { expr, has_semi: _ } => visitor.on_expr(*expr),
            Statement::Item(_) => {}
        }
    }
}

impl Visit for MatchArm {
    ghost calls = { arm_calls };

    fn visit<V: StoreVisitor>(&self, visitor: &mut V) {
        visit_arm(visitor, self);
    }
}

/// Visits the body, then the guard and the pattern.
fn visit_arm<V: StoreVisitor>(visitor: &mut V, arm: &MatchArm)
    requires { MayRun V.may V.step visitor.old (arm_calls arm.now) }
    ensures { Runs V.step visitor.old (arm_calls arm.now) visitor.new }
{
    visitor.on_expr(arm.expr);
    visitor.on_expr_opt(arm.guard);
    visitor.on_pat(arm.pat);
}
