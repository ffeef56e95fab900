//! The segments of a path: cuts of cuts, missing segments and theorems. Golden cases ask for one cut alone.
use crate::build;
use hir_base::Name;
use hir_path::{Path, PathSegment, PathSegments, laws};
use std::alloc::{AllocError, Global};
use std::mem::drop;
use std::test::Fail;

fn has_args(segment: Option<PathSegment<'_>>) -> bool {
    match segment {
        None => false,
        Some(segment) => segment.args_and_bindings.is_some(),
    }
}

// Whether the first of two segments alone has arguments, also where the other is cut off, or it is.
fn have_args_first(segments: PathSegments<'_>) -> bool {
    has_args(segments.first())
        & !has_args(segments.last())
        & has_args(segments.strip_last().last())
        & !has_args(segments.skip(1).first())
        & segments.take(1).strip_last_two().is_empty()
}

// Whether the path begins with the name `a`, without arguments. The path is taken.
fn begins_with_a(alloc: Global, path: Result<Path, AllocError>) -> Result<bool, AllocError> {
    match build::zip_ok(path, Name::new(alloc, "a")) {
        Ok((path, name)) => {
            let holds = path.segments().first() == Some(PathSegment::missing(&name));
            drop(path);
            drop(name);
            Ok(holds)
        }
        Err(error) => Err(error),
    }
}

// Whether the first of the two segments of `a::b` alone has arguments.
fn has_args_first(alloc: Global) -> Result<bool, AllocError> {
    match build::with_args_first(alloc, &["a", "b"]) {
        Ok(path) => {
            let holds = have_args_first(path.segments());
            drop(path);
            Ok(holds)
        }
        Err(error) => Err(error),
    }
}

// A missing segment has no arguments.
#[test]
fn a_segment_has_the_arguments_of_its_place(rt: HostRuntime) -> Result<(), Fail> {
    let alloc = rt.alloc();
    assert!(rt; begins_with_a(alloc, build::bare(alloc, &["a"]))?);
    assert!(rt; !begins_with_a(alloc, build::with_args_first(alloc, &["a", "b"]))?);
    assert!(rt; has_args_first(alloc)?);
    Ok(())
}

#[test]
fn no_segments_are_empty(rt: HostRuntime) {
    let none = PathSegments::empty();
    assert!(rt; none.is_empty() & none.first().is_none() & none.last().is_none());
    laws::take_then_skip_is_all();
    laws::strip_is_all_but_the_last();
    laws::cuts_of_empty_are_empty();
    laws::segments_are_equal_by_name_and_args();
}
