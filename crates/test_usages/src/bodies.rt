//! Bodies of functions, each with its source text. Bindings, expressions and patterns have the numbers of
//! their order here.
use hir_base::{HygieneId, ModPath, Name, SyntaxContext};
use hir_body::Body;
use hir_collections::{Seq, ShortList};
use hir_error::HirError;
use hir_make::{
    assign, bind, block, body, closure, if_, int, label, let_, let_else, local, loop_, tuple,
    tuple_pat,
};
use hir_node::{
    Array, Binding, BindingAnnotation, BindingId, Expr, ExprId, MatchArm, Mutability, Pat, PatId,
    Path, Rawness, RecordFieldPat,
};
use hir_store::ExpressionStoreBuilder;
use std::alloc::Global;

type Builder = ExpressionStoreBuilder;

/// `fn f(x) { let y = x; let x = y; x }`: the binding of the parameter is 0, that of `y` 1, that of the
/// second `x` 2.
pub fn shadowing(alloc: Global) -> Result<Body, HirError> {
    let mut builder = Builder::new(alloc);
    let param = bind(alloc, &mut builder, "x")?;
    let y = bind(alloc, &mut builder, "y")?;
    let inner = bind(alloc, &mut builder, "x")?;
    let read_param = local(alloc, &mut builder, "x")?;
    let read_y = local(alloc, &mut builder, "y")?;
    let tail = local(alloc, &mut builder, "x")?;
    let statements = vec![in alloc; let_(y, read_param), let_(inner, read_y)]?;
    let value = block(&mut builder, statements, tail)?;
    body(alloc, builder, &[param], value)
}

/// `fn f(a) { |b| (b, a) }`: `a` is binding 0, `b` is 1.
pub fn nested_closure(alloc: Global) -> Result<Body, HirError> {
    let mut builder = Builder::new(alloc);
    let a = bind(alloc, &mut builder, "a")?;
    let b = bind(alloc, &mut builder, "b")?;
    let read_b = local(alloc, &mut builder, "b")?;
    let read_a = local(alloc, &mut builder, "a")?;
    let pair = tuple(alloc, &mut builder, &[read_b, read_a])?;
    let value = closure(alloc, &mut builder, &[b], pair)?;
    body(alloc, builder, &[a], value)
}

/// `fn f(x) { match x { y => (y, x) } }`: `x` is binding 0, `y` is 1.
pub fn match_arm(alloc: Global) -> Result<Body, HirError> {
    let mut builder = Builder::new(alloc);
    let x = bind(alloc, &mut builder, "x")?;
    let y = bind(alloc, &mut builder, "y")?;
    let scrutinee = local(alloc, &mut builder, "x")?;
    let read_y = local(alloc, &mut builder, "y")?;
    let read_x = local(alloc, &mut builder, "x")?;
    let pair = tuple(alloc, &mut builder, &[read_y, read_x])?;
    let arm = MatchArm {
        pat: y,
        guard: None,
        expr: pair,
    };
    let arms = Seq::from_vec(vec![in alloc; arm]?);
    let value = builder.alloc_expr(Expr::Match {
        expr: scrutinee,
        arms,
    })?;
    body(alloc, builder, &[x], value)
}

/// `fn f(x) { let y = x else { y }; y }`: `x` is binding 0, the `y` that the pattern binds is 1. The first
/// `y` resolves to nothing.
pub fn let_else_body(alloc: Global) -> Result<Body, HirError> {
    let mut builder = Builder::new(alloc);
    let x = bind(alloc, &mut builder, "x")?;
    let y = bind(alloc, &mut builder, "y")?;
    let read_x = local(alloc, &mut builder, "x")?;
    let before = local(alloc, &mut builder, "y")?;
    let other = block(&mut builder, Vec::new(alloc), before)?;
    let tail = local(alloc, &mut builder, "y")?;
    let statements = vec![in alloc; let_else(y, read_x, other)]?;
    let value = block(&mut builder, statements, tail)?;
    body(alloc, builder, &[x], value)
}

/// `fn f(a) { if let b = a { THEN } else { a } }`, where THEN is the expression that `then_branch` makes:
/// `a` is binding 0, `b` is 1.
fn condition(alloc: Global, then_name: &str) -> Result<Body, HirError> {
    let mut builder = Builder::new(alloc);
    let a = bind(alloc, &mut builder, "a")?;
    let b = bind(alloc, &mut builder, "b")?;
    let matched = local(alloc, &mut builder, "a")?;
    let condition = builder.alloc_expr(Expr::Let {
        pat: b,
        expr: matched,
    })?;
    let then_tail = local(alloc, &mut builder, then_name)?;
    let then_branch = block(&mut builder, Vec::new(alloc), then_tail)?;
    let else_tail = local(alloc, &mut builder, "a")?;
    let else_branch = block(&mut builder, Vec::new(alloc), else_tail)?;
    let value = if_(&mut builder, condition, then_branch, Some(else_branch))?;
    body(alloc, builder, &[a], value)
}

/// `fn f(a) { if let b = a { a } else { a } }`.
pub fn condition_that_reads_a(alloc: Global) -> Result<Body, HirError> {
    condition(alloc, "a")
}

/// `fn f(a) { if let b = a { b } else { a } }`.
pub fn condition_that_reads_b(alloc: Global) -> Result<Body, HirError> {
    condition(alloc, "b")
}

/// `fn f(a) { let b = a; [a; b] }`: `a` is binding 0, `b` is 1. The `b` of the length is in a constant,
/// which sees parameters alone.
pub fn constant(alloc: Global) -> Result<Body, HirError> {
    let mut builder = Builder::new(alloc);
    let a = bind(alloc, &mut builder, "a")?;
    let b = bind(alloc, &mut builder, "b")?;
    let read_a = local(alloc, &mut builder, "a")?;
    let initializer = local(alloc, &mut builder, "a")?;
    let repeat = local(alloc, &mut builder, "b")?;
    let array = builder.alloc_expr(Expr::Array(Array::Repeat {
        initializer,
        repeat,
    }))?;
    let statements = vec![in alloc; let_(b, read_a)]?;
    let value = block(&mut builder, statements, array)?;
    body(alloc, builder, &[a], value)
}

/// `fn f(x | x) { y }`: both patterns bind binding 0, which nothing uses.
pub fn or_pattern(alloc: Global) -> Result<Body, HirError> {
    let mut builder = Builder::new(alloc);
    let first = bind(alloc, &mut builder, "x")?;
    let id = BindingId::from_raw(0);
    let second = builder.alloc_pat(Pat::Bind { id, subpat: None })?;
    let alternatives = ShortList::from_slice(alloc, &[first, second])?;
    let either = builder.alloc_pat(Pat::Or(alternatives))?;
    let value = local(alloc, &mut builder, "y")?;
    body(alloc, builder, &[either], value)
}

/// `fn f(x) { x = y }`: `x` is binding 0, and the target is pattern 1.
pub fn assignment(alloc: Global) -> Result<Body, HirError> {
    let mut builder = Builder::new(alloc);
    let x = bind(alloc, &mut builder, "x")?;
    let read = local(alloc, &mut builder, "y")?;
    let value = assign(alloc, &mut builder, "x", read)?;
    body(alloc, builder, &[x], value)
}

/// `fn f((a, b)) { a }`: `a` is binding 0, `b` is 1.
pub fn one_frame(alloc: Global) -> Result<Body, HirError> {
    let mut builder = Builder::new(alloc);
    let a = bind(alloc, &mut builder, "a")?;
    let b = bind(alloc, &mut builder, "b")?;
    let pair = tuple_pat(alloc, &mut builder, &[a, b])?;
    let value = local(alloc, &mut builder, "a")?;
    body(alloc, builder, &[pair], value)
}

/// `fn f(Point { x, y }) { x }`: `x` is binding 0, `y` is 1, and the record is pattern 2.
pub fn record(alloc: Global) -> Result<Body, HirError> {
    let mut builder = Builder::new(alloc);
    let x = bind(alloc, &mut builder, "x")?;
    let y = bind(alloc, &mut builder, "y")?;
    let first = RecordFieldPat {
        name: Name::new(alloc, "x")?,
        pat: x,
    };
    let second = RecordFieldPat {
        name: Name::new(alloc, "y")?,
        pat: y,
    };
    let point = ModPath::from_name(Name::new(alloc, "Point")?);
    let record = builder.alloc_pat(Pat::Record {
        ellipsis: false,
        path: Path::BarePath(point),
        args: Seq::from_vec(vec![in alloc; first, second]?),
    })?;
    let value = local(alloc, &mut builder, "x")?;
    body(alloc, builder, &[record], value)
}

/// `fn f(x, y) { x }`, where a macro wrote the parameter `x`, binding 0, and not the `x` of the value; `y`
/// is 1.
pub fn hygienic(alloc: Global) -> Result<Body, HirError> {
    let mut builder = Builder::new(alloc);
    let id = builder.alloc_binding(Binding {
        name: Name::new(alloc, "x")?,
        mode: BindingAnnotation::Unannotated,
        problems: None,
        hygiene: HygieneId::new(SyntaxContext::Expansion(7)),
    })?;
    let x = builder.alloc_pat(Pat::Bind { id, subpat: None })?;
    let y = bind(alloc, &mut builder, "y")?;
    let value = local(alloc, &mut builder, "x")?;
    body(alloc, builder, &[x, y], value)
}

/// `fn f(x) { &&..&x }` with this many `&`.
pub fn deep(alloc: Global, depth: u32) -> Result<Body, HirError> {
    let mut builder = Builder::new(alloc);
    let x = bind(alloc, &mut builder, "x")?;
    let mut value = local(alloc, &mut builder, "x")?;
    for _ in 0..depth {
        value = builder.alloc_expr(Expr::Ref {
            expr: value,
            rawness: Rawness::Ref,
            mutability: Mutability::Shared,
        })?;
    }
    body(alloc, builder, &[x], value)
}

/// `fn f(a) { [1; b] }`: `a` is binding 0. The `b` of the length, expression 1, is in a constant and
/// resolves to nothing.
pub fn constant_alone(alloc: Global) -> Result<Body, HirError> {
    let mut builder = Builder::new(alloc);
    let a = bind(alloc, &mut builder, "a")?;
    let initializer = int(&mut builder, 1)?;
    let repeat = local(alloc, &mut builder, "b")?;
    let value = builder.alloc_expr(Expr::Array(Array::Repeat {
        initializer,
        repeat,
    }))?;
    body(alloc, builder, &[a], value)
}

/// `fn f(x) { 'a: loop { |y| 'b: loop { x } } }`: `'a` is label 0, `'b` is 1. The expressions have the numbers
/// 0 for `x`, 1 for the inner loop, 2 for the closure, 3 for the outer loop.
pub fn labelled_loops(alloc: Global) -> Result<Body, HirError> {
    let mut builder = Builder::new(alloc);
    let x = bind(alloc, &mut builder, "x")?;
    let y = bind(alloc, &mut builder, "y")?;
    let a = label(alloc, &mut builder, "'a")?;
    let b = label(alloc, &mut builder, "'b")?;
    let read = local(alloc, &mut builder, "x")?;
    let inner = loop_(&mut builder, Some(b), read)?;
    let code = closure(alloc, &mut builder, &[y], inner)?;
    let outer = loop_(&mut builder, Some(a), code)?;
    body(alloc, builder, &[x], outer)
}
