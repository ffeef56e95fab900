//! The calls of every visitor that golden cases don't make: parts that may be absent, lists, theorems of
//! arguments, and visitors that are lent.
#![tactic(auto, using(hir_node::proofs::RunLemmas::freely))]

ghost use Rattle.std.specs.Prelude.{List};
ghost use Rattle.hir_node.specs.ChildCalls.{Call as NodeCall};
ghost use Rattle.hir_node.specs.Runs.{MayRun};

use crate::build;
use crate::wanted_calls::{Call, CallList};
use hir_collections::{Idx, Seq};
use hir_node::{
    ConstRef, Expr, GenericArg, GenericArgs, GenericArgsParentheses, Path, StoreVisitor,
    StoreVisitorExt, laws, visit_generic_args,
};
use std::alloc::{AllocError, Global};
use std::mem::drop;
use std::test::Fail;

// Whether one part of each kind, where it is present, makes these calls.
fn parts_give(calls: &[Call]) -> bool {
    let mut wanted = CallList::new(calls);
    wanted.on_expr_opt(Some(Idx::from_raw(1)));
    wanted.on_pat_opt(Some(Idx::from_raw(2)));
    wanted.on_type_opt(Some(Idx::from_raw(3)));
    wanted.on_lifetime_opt(Some(Idx::from_raw(4)));
    wanted.all_met()
}

// Whether absent parts make no call.
fn absent_parts_give_none() -> bool {
    let mut wanted = CallList::new(&[]);
    wanted.on_expr_opt(None);
    wanted.on_pat_opt(None);
    wanted.on_type_opt(None);
    wanted.on_lifetime_opt(None);
    wanted.on_generic_args_opt(None);
    wanted.all_met()
}

// Whether the lists of the expressions 1 and 2, of the pattern 3 and of the type 4 make these calls.
fn lists_give(calls: &[Call]) -> bool {
    let mut wanted = CallList::new(calls);
    wanted.on_exprs(&[Idx::from_raw(1), Idx::from_raw(2)]);
    wanted.on_pats(&[Idx::from_raw(3)]);
    wanted.on_types(&[Idx::from_raw(4)]);
    wanted.all_met()
}

const PARTS: [Call; 4] = [
    Call::Expr(1),
    Call::Pat(2),
    Call::Type(3),
    Call::Lifetime(4),
];

const LISTS: [Call; 4] = [Call::Expr(1), Call::Expr(2), Call::Pat(3), Call::Type(4)];

#[test]
fn parts_and_lists_give_a_call_each(rt: HostRuntime) {
    assert!(rt; parts_give(&PARTS));
    assert!(rt; absent_parts_give_none());
    assert!(rt; lists_give(&LISTS));
}

const NESTED: [Call; 5] = [
    Call::Type(1),
    Call::Type(2),
    Call::Type(3),
    Call::Type(4),
    Call::Lifetime(5),
];

// Whether a visit of the arguments makes the calls `NESTED`, and so do the visitor's calls with them. Their
// theorems have nothing to run.
fn give_nested(args: &GenericArgs) -> bool {
    laws::calls_of_generic_args(args);
    for binding in args.bindings.as_slice() {
        laws::calls_of_binding(binding);
    }
    let mut wanted = CallList::new(&NESTED);
    visit_generic_args(&mut wanted, args);
    let mut wanted_on = CallList::new(&NESTED);
    wanted_on.on_generic_args(args);
    let mut wanted_opt = CallList::new(&NESTED);
    wanted_opt.on_generic_args_opt(Some(args));
    wanted.all_met() && wanted_on.all_met() && wanted_opt.all_met()
}

#[test]
fn bindings_give_their_own_arguments_first(rt: HostRuntime) -> Result<(), Fail> {
    let args = build::nested_args(rt.alloc())?;
    let holds = give_nested(&args);
    drop(args);
    assert!(rt; holds);
    Ok(())
}

// Whether a lent visitor is called with the path, and then with the expression 1, by these calls.
fn lent_gives(path: &Path, calls: &[Call]) -> bool {
    let mut wanted = CallList::new(calls);
    let mut lent = &mut wanted;
    lent.on_path(path);
    lent.on_expr(Idx::from_raw(1));
    wanted.all_met()
}

// `<1, '2, 3>`, where 3 is a constant.
fn args_of_each_kind(alloc: Global) -> Result<GenericArgs, AllocError> {
    let ty = GenericArg::Ty(Idx::from_raw(1));
    let constant = ConstRef {
        expr: Idx::from_raw(3),
    };
    let args = build::two(alloc, ty, GenericArg::Lifetime(Idx::from_raw(2)));
    match build::with(args, Ok(GenericArg::Const(constant))) {
        Ok(args) => Ok(GenericArgs {
            args,
            has_self_type: false,
            bindings: Seq::new(alloc),
            parenthesized: GenericArgsParentheses::No,
        }),
        Err(error) => Err(error),
    }
}

// Visits both by the visitor, which is taken: so one that is lent is called as a visitor of its own.
fn visit_both<V: StoreVisitor + Drop>(mut visitor: V, args: &GenericArgs, expr: &Expr)
    requires { (v : V) (cs : List NodeCall) → MayRun V.may V.step v cs }
{
    visit_generic_args(&mut visitor, args);
    expr.visit_children(&mut visitor);
}

// Whether the arguments and a `let` of pattern 4 and expression 5 make these calls of a visitor that is lent.
fn lent_alone_gives(args: &GenericArgs, calls: &[Call]) -> bool {
    let expr = Expr::Let {
        pat: Idx::from_raw(4),
        expr: Idx::from_raw(5),
    };
    let mut wanted = CallList::new(calls);
    visit_both(&mut wanted, args, &expr);
    drop(expr);
    wanted.all_met()
}

// A visitor can be lent, and one that is lent is one itself.
#[test]
fn a_visitor_can_be_lent(rt: HostRuntime) -> Result<(), Fail> {
    const CALLS: [Call; 5] = [
        Call::Type(1),
        Call::Lifetime(2),
        Call::AnonConst(3),
        Call::Pat(4),
        Call::Expr(5),
    ];
    let path = build::with_args_first(rt.alloc(), &["a", "b"])?;
    let lent = lent_gives(&path, &[Call::Type(3), Call::Expr(1)]);
    drop(path);
    let args = args_of_each_kind(rt.alloc())?;
    let lent_alone = lent_alone_gives(&args, &CALLS);
    drop(args);
    assert!(rt; lent && lent_alone);
    Ok(())
}
