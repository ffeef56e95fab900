//! The iterator over the segments of a path.
ghost use Rattle.std.specs.Prelude.{◌≡◌};
ghost use Rattle.std.specs.Iterator.{YieldsFirstBy, item_count};
ghost use Rattle.hir_path.specs.Segments.{segments_left, segment_of, with_args};

use crate::path::GenericArgs;
use crate::segments::PathSegment;
use hir_base::Name;
use std::iter::FusedIterator;

/// The segments of a path that are left, modelled as their list.
#[derive(Clone, Drop)]
pub struct PathSegmentsIter<'a> {
    names: &'a [Name],
    lists: &'a [Option<GenericArgs>],
}

impl<'a> PathSegmentsIter<'a> {
    pub(crate) fn new(names: &'a [Name], lists: &'a [Option<GenericArgs>]) -> PathSegmentsIter<'a>
        ensures { segments_left result ≡ with_args names.now lists.now }
    {
        PathSegmentsIter { names, lists }
    }
}

impl<'a> Iterator for PathSegmentsIter<'a> {
    type Item = PathSegment<'a>;

    ghost next_gives = { YieldsFirstBy segment_of segments_left };

    ghost remaining = { item_count segments_left };

    fn next(&mut self) -> Option<PathSegment<'a>> {
        let (name, names) = self.names.split_first()?;
        self.names = names;
        let Some((args, lists)) = self.lists.split_first() else {
            return Some(PathSegment {
                name,
                args_and_bindings: None,
            });
        };
        self.lists = lists;
        Some(PathSegment {
            name,
            args_and_bindings: args.as_ref(),
        })
    }
}

impl<'a> FusedIterator for PathSegmentsIter<'a> {}
