//! What is true of the values that calls take, as a contract of a function that does nothing.

ghost use Rattle.std.specs.Prelude.{◌≡◌};
ghost use Rattle.std.specs.Bool.{Decides};

use crate::LineFormat;

/// Formats are equal exactly if they are the same.
pub fn formats_are_compared_by_kind()
    ensures { (x y : LineFormat) → Decides (⟦<LineFormat as PartialEq>⟧.eq x y) (x ≡ y) }
{}
