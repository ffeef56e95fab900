//! Theorems that a reader relies on, and that no call's contract states.
//! Each but the last two is a function with an empty body: its contract is the theorem, proved for every
//! value.
ghost use Rattle.std.specs.Prelude.{◌≡◌, ℕ};
ghost use Rattle.std.specs.Ordering.{nat_cmp};
ghost use Rattle.hir_collections.specs.Laws.{OrderAgrees};

use crate::{BlockId, Edition, HygieneId, PathKind, SyntaxContext};
use std::hash::Hash;

/// Blocks are ordered by their numbers.
pub fn block_order_is_that_of_numbers()
    ensures total { (x y : ℕ) → ⟦<BlockId as Ord>⟧.cmp x y ≡ nat_cmp x y }
    ensures partial { (x y : ℕ) → ⟦<BlockId as PartialOrd>⟧.partial_cmp x y ≡ Some (nat_cmp x y) }
{}

/// Blocks are equal exactly if their numbers are, exactly if they compare as equal, and then they hash
/// alike.
pub fn block_order_agrees_with_eq_and_hash()
    ensures { OrderAgrees ⟦<BlockId as PartialEq>⟧.eq ⟦<BlockId as Ord>⟧.cmp ⟦<BlockId as Hash>⟧.hash_input }
{}

/// Returns the kind of paths that begin with `self`, which is `Super(0)`. (A clause can't name such a
/// constant.)
pub fn kind_of_self() -> PathKind
    ensures { result ≡ PathKind.Super 0 }
{
    PathKind::SELF
}

/// Returns the hygiene of source text, which is the context `Root` of edition 2015. (A clause can't name
/// such a constant.)
pub fn hygiene_of_source_text() -> HygieneId
    ensures { result ≡ SyntaxContext.Root Edition.Edition2015 }
{
    HygieneId::ROOT
}
