//! Theorems that a reader relies on, and that no call's contract states.
//! Each is a function with an empty body: its contract is the theorem, proved for every value.
ghost use Rattle.std.specs.Prelude.{◌≡◌, ◌++◌, ℕ, []};
ghost use Rattle.std.specs.Bool.{Decides};
ghost use Rattle.hir_path.specs.Segments.{Segments, OneListEach, empty, items, skip, first, strip, segment_of};
ghost use Rattle.hir_path.specs.Lists.{all_but};

use crate::segments::PathSegment;

/// The first `n` segments of a view, and then the view without them, are all of its segments, for any `n`.
pub fn take_then_skip_is_all()
    ensures { (s : Segments) (n : ℕ) → items (first n s) ++ items (skip n s) ≡ items s }
{}

/// If a view has one list of arguments for each segment, as that of a `Normal` path, or none at all, as that
/// of any other path, stripping it leaves all segments but the last ones. (A segment with an empty list of
/// lists is neither.)
pub fn strip_is_all_but_the_last()
    ensures { (s : Segments) (n : ℕ) → OneListEach s → items (strip n s) ≡ all_but n (items s) }
{}

/// A cut of no segments has no segments.
pub fn cuts_of_empty_are_empty()
    ensures taken { (n : ℕ) → first n empty ≡ empty }
    ensures skipped { (n : ℕ) → skip n empty ≡ empty }
    ensures stripped { (n : ℕ) → strip n empty ≡ empty }
    ensures none_taken { (s : Segments) (n : ℕ) → items s ≡ [] → items (first n s) ≡ [] }
    ensures none_skipped { (s : Segments) (n : ℕ) → items s ≡ [] → items (skip n s) ≡ [] }
    ensures none_stripped { (s : Segments) (n : ℕ) → items s ≡ [] → items (strip n s) ≡ [] }
{}

/// Segments of any two paths are equal exactly if their names and their arguments are the same.
pub fn segments_are_equal_by_name_and_args<'a>()
    ensures { (x y : PathSegment) →
        Decides (⟦<PathSegment<'a> as PartialEq>⟧.eq x y) (segment_of x ≡ segment_of y) }
{}
