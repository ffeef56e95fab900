//! The bodies that the examples work on.

use hir::{
    Body, ExpressionStoreBuilder, HirError, assign, bind, block, body, closure, let_, local,
    statement, tuple,
};
use std::alloc::Global;

/// The body of `fn f(x) { let y = x; let z = w; v = y; y }`. Nothing has the name `w` or `v`, and `z` isn't
/// used.
///
/// Expressions and patterns have the numbers of their order in the text: `x` is expression 0, and `v` is
/// pattern 3.
pub fn names(alloc: Global) -> Result<Body, HirError> {
    let mut builder = ExpressionStoreBuilder::new(alloc);
    let x = bind(alloc, &mut builder, "x")?;
    let y = bind(alloc, &mut builder, "y")?;
    let z = bind(alloc, &mut builder, "z")?;
    let read_x = local(alloc, &mut builder, "x")?;
    let read_w = local(alloc, &mut builder, "w")?;
    let read_y = local(alloc, &mut builder, "y")?;
    let write_v = assign(alloc, &mut builder, "v", read_y)?;
    let tail = local(alloc, &mut builder, "y")?;
    let statements = vec![in alloc; let_(y, read_x), let_(z, read_w), statement(write_v)]?;
    let value = block(&mut builder, statements, tail)?;
    body(alloc, builder, &[x], value)
}

/// The body of `fn f(a, b) { let g = |x| (x, a); |y| (g, b) }`, whose closures capture `a`, and `g` and `b`.
pub fn closures(alloc: Global) -> Result<Body, HirError> {
    let mut builder = ExpressionStoreBuilder::new(alloc);
    let a = bind(alloc, &mut builder, "a")?;
    let b = bind(alloc, &mut builder, "b")?;
    let g = bind(alloc, &mut builder, "g")?;
    let x = bind(alloc, &mut builder, "x")?;
    let y = bind(alloc, &mut builder, "y")?;
    let read_x = local(alloc, &mut builder, "x")?;
    let read_a = local(alloc, &mut builder, "a")?;
    let pair = tuple(alloc, &mut builder, &[read_x, read_a])?;
    let first = closure(alloc, &mut builder, &[x], pair)?;
    let read_g = local(alloc, &mut builder, "g")?;
    let read_b = local(alloc, &mut builder, "b")?;
    let pair = tuple(alloc, &mut builder, &[read_g, read_b])?;
    let second = closure(alloc, &mut builder, &[y], pair)?;
    let statements = vec![in alloc; let_(g, first)]?;
    let value = block(&mut builder, statements, second)?;
    body(alloc, builder, &[a, b], value)
}
