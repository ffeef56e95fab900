//! The segments of a path: views that can be cut, which borrow from the path and copy nothing.
//! A view is modelled as its names and perhaps a list of their arguments; a cut acts on each of the two
//! lists by its own length.
ghost use Rattle.std.specs.Prelude.{◌≡◌, IsTrue, ◌↔◌, [], length, slice_get, get_or, None};
ghost use Rattle.std.specs.Option.{option_map, option_copied};
ghost use Rattle.hir_path.specs.Segments.{segment_of, segments_in, segments_left, empty, items, or_none, skip, first, strip};
ghost use Rattle.hir_path.specs.Lists.{last_of, all_but};

use crate::path::GenericArgs;
use crate::segments_iter::PathSegmentsIter;
use hir_base::Name;

/// One segment of a path: its name, and its arguments if it has any.
#[derive(Clone, Copy, PartialEq, Eq, Hash)]
pub struct PathSegment<'a> {
    pub name: &'a Name,
    pub args_and_bindings: Option<&'a GenericArgs>,
}

impl<'a> PathSegment<'a> {
    /// Returns a segment with this name and no arguments. For a missing segment, the name is
    /// `Name::missing()`.
    pub fn missing(name: &'a Name) -> PathSegment<'a>
        ensures { segment_of result ≡ record { name = name.now; args = None } }
    {
        PathSegment {
            name,
            args_and_bindings: None,
        }
    }
}

/// Some segments of a path, modelled as their names and perhaps a list of their arguments.
#[derive(Clone, Copy)]
pub struct PathSegments<'a> {
    segments: &'a [Name],
    generic_args: Option<&'a [Option<GenericArgs>]>,
}

impl<'a> PathSegments<'a> {
    /// Returns the view of these names, and perhaps of a list of their arguments.
    pub(crate) fn new(
        segments: &'a [Name],
        generic_args: Option<&'a [Option<GenericArgs>]>,
    ) -> PathSegments<'a>
        ensures { segments_in result ≡ record {
          names = segments.now;
          lists = option_copied generic_args.entry;
        } }
    {
        PathSegments {
            segments,
            generic_args,
        }
    }

    /// Returns the view of no segments.
    pub fn empty() -> PathSegments<'a>
        ensures { segments_in result ≡ empty }
    {
        PathSegments {
            segments: &[],
            generic_args: None,
        }
    }

    /// Returns whether there are no segments.
    #[tactic(auto, using(crate::proofs::SegmentLemmas::segments))]
    pub fn is_empty(&self) -> bool
        ensures { IsTrue result ↔ (items (segments_in self.now) ≡ []) }
    {
        self.segments.is_empty()
    }

    /// Returns the number of segments.
    #[tactic(auto, using(crate::proofs::SegmentLemmas::segments))]
    pub fn len(&self) -> usize
        ensures { result ≡ length (items (segments_in self.now)) }
    {
        self.segments.len()
    }

    /// Returns the first segment, if there is one.
    pub fn first(&self) -> Option<PathSegment<'a>>
        ensures { option_map segment_of result ≡ slice_get (items (segments_in self.now)) 0 }
    {
        self.get(0)
    }

    /// Returns the last segment, if there is one.
    pub fn last(&self) -> Option<PathSegment<'a>>
        ensures { option_map segment_of result ≡ last_of (items (segments_in self.now)) }
    {
        let count = self.segments.len();
        if count == 0 {
            return None;
        }
        self.get(count - 1)
    }

    /// Returns the segment at this index, if there is one.
    pub fn get(&self, idx: usize) -> Option<PathSegment<'a>>
        ensures { option_map segment_of result ≡ slice_get (items (segments_in self.now)) idx }
    {
        match self.segments.get(idx) {
            None => None,
            Some(name) => Some(PathSegment {
                name,
                args_and_bindings: args_at(self.generic_args, idx),
            }),
        }
    }

    /// Returns the segments in order.
    pub fn iter(&self) -> PathSegmentsIter<'a>
        ensures { segments_left result ≡ items (segments_in self.now) }
    {
        PathSegmentsIter::new(self.segments, self.generic_args.unwrap_or(&[]))
    }

    /// Returns the segments without the first `len`. If there are fewer names, no names are left; if there
    /// are fewer lists of arguments, or none, no lists are left, not even an empty list of them.
    pub fn skip(&self, len: usize) -> PathSegments<'a>
        ensures { segments_in result ≡ skip len (segments_in self.now) }
    {
        PathSegments {
            segments: self.segments.get(len..).unwrap_or(&[]),
            generic_args: self.generic_args.and_then(|lists| lists.get(len..)),
        }
    }

    /// Returns the first `len` segments, or all if there are fewer.
    pub fn take(&self, len: usize) -> PathSegments<'a>
        ensures { segments_in result ≡ first len (segments_in self.now) }
    {
        PathSegments {
            segments: self.segments.get(..len).unwrap_or(self.segments),
            generic_args: self
                .generic_args
                .map(|lists| lists.get(..len).unwrap_or(lists)),
        }
    }

    /// Returns the segments without the last name and the last list of arguments.
    pub fn strip_last(&self) -> PathSegments<'a>
        ensures { segments_in result ≡ strip 1 (segments_in self.now) }
    {
        self.strip(1)
    }

    /// Returns the segments without the last two names and the last two lists of arguments.
    pub fn strip_last_two(&self) -> PathSegments<'a>
        ensures { segments_in result ≡ strip 2 (segments_in self.now) }
    {
        self.strip(2)
    }

    /// Returns the segments without the last `count` names and the last `count` lists of arguments.
    fn strip(&self, count: usize) -> PathSegments<'a>
        ensures { segments_in result ≡ strip count (segments_in self.now) }
    {
        PathSegments {
            segments: all_but(self.segments, count),
            generic_args: self.generic_args.map(|lists| all_but(lists, count)),
        }
    }
}

/// Returns the arguments at an index: `None` if there are no lists, too few of them, or no arguments at this
/// index.
fn args_at<'a>(lists: Option<&'a [Option<GenericArgs>]>, idx: usize) -> Option<&'a GenericArgs>
    ensures { option_copied result ≡ get_or (or_none (option_copied lists.entry)) idx None }
{
    lists?.get(idx)?.as_ref()
}

/// Returns the items without the last `count` of them.
fn all_but<T>(items: &[T], count: usize) -> &[T]
    ensures { result.now ≡ all_but count items.now }
{
    &items[..items.len().saturating_sub(count)]
}
