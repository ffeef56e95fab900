//! Equality and clones that contracts can rely on.
//! `ExactEq` says that `==` decides whether two values are the same, `TryClone` that a clone is the same
//! value.
ghost use Rattle.std.specs.Prelude.{◌≡◌, ◌↔◌, IsTrue, IfOk};
ghost use Rattle.std.specs.Bool.{Decides};
ghost use Rattle.std.proofs.Common.{rules};

use std::alloc::AllocError;

/// Types whose `==` decides whether two values are the same to every contract: equality is that of all
/// fields.
pub trait ExactEq: Eq {
    ghost eq_decides: { (x y : Self) → Decides (Self.eq x y) (x ≡ y) };

    /// Returns whether the two are the same value.
    final fn is_same(&self, other: &Self) -> bool
        ensures { IsTrue result ↔ (self.now ≡ other.now) }
    {
        *self == *other
    }
}

/// Types whose clones are the same value to every contract.
pub trait TryClone: Clone {
    ghost clone_is_same: { (x y : Self) → Self.is_clone x y → y ≡ x };

    /// Returns a second value, the same as this one.
    ///
    /// Returns an error if the allocation fails.
    final fn try_clone(&self) -> Result<Self, AllocError>
        ensures { IfOk result (λ copy. copy ≡ self.now) }
    {
        self.clone()
    }
}

impl ExactEq for u8 {
    ghost eq_decides = { Prim.search rules };
}

impl TryClone for u8 {
    ghost clone_is_same = { Prim.search rules };
}

impl ExactEq for u16 {
    ghost eq_decides = { Prim.search rules };
}

impl TryClone for u16 {
    ghost clone_is_same = { Prim.search rules };
}

impl ExactEq for u32 {
    ghost eq_decides = { Prim.search rules };
}

impl TryClone for u32 {
    ghost clone_is_same = { Prim.search rules };
}

impl ExactEq for u64 {
    ghost eq_decides = { Prim.search rules };
}

impl TryClone for u64 {
    ghost clone_is_same = { Prim.search rules };
}

impl ExactEq for usize {
    ghost eq_decides = { Prim.search rules };
}

impl TryClone for usize {
    ghost clone_is_same = { Prim.search rules };
}

impl ExactEq for i128 {
    ghost eq_decides = { Prim.search rules };
}

impl TryClone for i128 {
    ghost clone_is_same = { Prim.search rules };
}

impl ExactEq for bool {
    ghost eq_decides = { Prim.search rules };
}

impl TryClone for bool {
    ghost clone_is_same = { Prim.search rules };
}

impl ExactEq for () {
    ghost eq_decides = { Prim.search rules };
}

impl TryClone for () {
    ghost clone_is_same = { Prim.search rules };
}

impl<T: ExactEq> ExactEq for Option<T> {
    ghost eq_decides = { Prim.search rules };
}

impl<T: TryClone> TryClone for Option<T> {
    ghost clone_is_same = { Prim.search rules };
}

impl ExactEq for u128 {
    ghost eq_decides = { Prim.search rules };
}

impl TryClone for u128 {
    ghost clone_is_same = { Prim.search rules };
}

impl ExactEq for char {
    ghost eq_decides = { Prim.search rules };
}

impl TryClone for char {
    ghost clone_is_same = { Prim.search rules };
}

impl<A: ExactEq, B: ExactEq> ExactEq for (A, B) {
    ghost eq_decides = { Prim.search rules };
}

impl<A: TryClone, B: TryClone> TryClone for (A, B) {
    ghost clone_is_same = { Prim.search rules };
}
