//! Types with a blank value, which has no entries and takes no memory.
ghost use Rattle.std.specs.Prelude.{◌≡◌, []};
ghost use Rattle.std.specs.FinMap as map;

use crate::{HasCode, Seq, Table};
use std::alloc::Global;

/// Types with a blank value.
pub trait Empty: Sized {
    // the blank value
    ghost empty_value: { Self };

    /// Returns the blank value. It takes its memory from `alloc`, and none yet.
    fn empty_value(alloc: Global) -> Self
        ensures { result ≡ empty_value };
}

impl<K: HasCode, V> Empty for Table<K, V> {
    ghost empty_value = { map.empty };

    fn empty_value(alloc: Global) -> Table<K, V> {
        Table::new(alloc)
    }
}

impl<T> Empty for Seq<T> {
    ghost empty_value = { [] };

    fn empty_value(alloc: Global) -> Seq<T> {
        Seq::new(alloc)
    }
}
