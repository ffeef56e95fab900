//! Builders of which one call after another fails to allocate, by `scripts/refused-growths`: each call that
//! fails gives its value back, leaves the builder as it was, and is made again, so that the store is that of
//! a builder of which no call failed.
use crate::build::{NEVER, PATH, Step, push_entries};
use crate::nodes::{ExprStep, PatStep, Written};
use crate::outcomes;
use std::alloc::{AllocError, Global};
use std::test::Fail;

/// `fn foo(x) { let x = &x; x }`
const SHADOWED: &[Step] = &[
    Step::Binding("x"),
    Step::Binding("x"),
    Step::Pat(PatStep::Bind(0)),
    Step::Pat(PatStep::Bind(1)),
    Step::Expr(ExprStep::Path(Written::Name("x"))),
    Step::Expr(ExprStep::Ref(0)),
    Step::Expr(ExprStep::Path(Written::Name("x"))),
    Step::Expr(ExprStep::Block(Some((1, 1)), Some(2))),
    Step::Root(3),
];

/// `fn f() if let p = a && M1 {} else { M2 }`
const CHAIN_OF_LETS: &[Step] = &[
    Step::Binding("p"),
    Step::Pat(PatStep::Bind(0)),
    PATH,
    Step::Expr(ExprStep::Let(0, 0)),
    Step::Expr(ExprStep::Path(Written::Name("M1"))),
    Step::Expr(ExprStep::And(1, 2)),
    Step::Expr(ExprStep::Block(None, None)),
    Step::Expr(ExprStep::Path(Written::Name("M2"))),
    Step::Expr(ExprStep::Block(None, Some(5))),
    Step::Expr(ExprStep::If(3, 4, 6)),
    Step::Root(7),
];

/// `{ let (a, const { let y = 1; y }, b) = z; W }`
const CONST_IN_PATTERN: &[Step] = &[
    Step::Binding("a"),
    Step::Binding("b"),
    Step::Binding("y"),
    Step::Pat(PatStep::Bind(0)),
    Step::Pat(PatStep::Bind(2)),
    Step::Expr(ExprStep::One),
    Step::Expr(ExprStep::Path(Written::Name("y"))),
    Step::Expr(ExprStep::Block(Some((1, 0)), Some(1))),
    Step::Expr(ExprStep::Const(2)),
    Step::Pat(PatStep::Expr(3)),
    Step::Pat(PatStep::Bind(1)),
    Step::Pat(PatStep::Tuple(&[0, 2, 3])),
    Step::Expr(ExprStep::Path(Written::Name("z"))),
    Step::Expr(ExprStep::Path(Written::Name("W"))),
    Step::Expr(ExprStep::Block(Some((4, 4)), Some(5))),
    Step::Root(6),
];

/// Trees, each with the number of its expressions.
const TREES: &[(&[Step], u32)] = &[(SHADOWED, 4), (CHAIN_OF_LETS, 8), (CONST_IN_PATTERN, 7)];

/// Adds, of this number, a node of each kind that the trees lack, a root, and an entry of each kind.
fn push_others(steps: &mut Vec<Step>, root: u32, number: u32) -> Result<(), AllocError> {
    steps.push(PATH)?;
    steps.push(Step::Root(root))?;
    steps.push(NEVER)?;
    steps.push(Step::Label("l"))?;
    steps.push(Step::Static)?;
    push_entries(steps, number)
}

/// The steps of a tree of so many expressions, and after them the other calls of a builder, each so often
/// that what it adds to grows.
fn with_other_calls(alloc: Global, tree: &[Step], exprs: u32) -> Result<Vec<Step>, AllocError> {
    let mut steps = Vec::with_capacity(alloc, 256)?;
    steps.extend_from_slice(tree)?;
    for number in 0..9u32 {
        push_others(&mut steps, exprs.saturating_add(number), number)?;
    }
    Ok(steps)
}

/// Whether the store and the source map of a tree, with the other calls, are the same twice: an allocation
/// fails once.
fn is_made_again(alloc: Global, tree: &[Step], exprs: u32) -> Result<bool, Fail> {
    let steps = with_other_calls(alloc, tree, exprs)?;
    let first = outcomes::accept_steps(alloc, &steps)?;
    let second = outcomes::accept_steps(alloc, &steps)?;
    Ok(first.0 == second.0 && first.1 == second.1)
}

#[test]
fn calls_are_made_again(rt: HostRuntime) -> Result<(), Fail> {
    for (tree, exprs) in TREES {
        assert!(&rt; is_made_again(rt.alloc(), tree, *exprs)?);
    }
    Ok(())
}
