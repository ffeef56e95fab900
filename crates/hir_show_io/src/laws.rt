//! Theorems about the values that calls return, each the contract of a function that does nothing.

ghost use Rattle.std.specs.Prelude.{◌≡◌};
ghost use Rattle.std.specs.Bool.{Decides};

use crate::ends::EndFailed;
use crate::lines::{FillFault, LineTaken};
use crate::next::LineFault;
use crate::std_end::Attempt;

/// Results and faults of this crate are equal exactly if all their fields are.
pub fn answers_are_compared_by_all_fields()
    ensures failures { (x y : EndFailed) → Decides (⟦<EndFailed as PartialEq>⟧.eq x y) (x ≡ y) }
    ensures fills { (x y : FillFault) → Decides (⟦<FillFault as PartialEq>⟧.eq x y) (x ≡ y) }
    ensures lines { (x y : LineFault) → Decides (⟦<LineFault as PartialEq>⟧.eq x y) (x ≡ y) }
    ensures taken { (x y : LineTaken) → Decides (⟦<LineTaken as PartialEq>⟧.eq x y) (x ≡ y) }
    ensures attempts { (x y : Attempt) → Decides (⟦<Attempt as PartialEq>⟧.eq x y) (x ≡ y) }
{}
