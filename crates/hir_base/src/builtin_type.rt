//! The number types of the language, by their suffixes.
ghost use Rattle.hir_collections.specs.Exact.{exact};

use hir_collections::{ExactEq, TryClone};

/// Signed integers.
#[derive(Clone, Copy, PartialEq, Eq, Hash)]
pub enum BuiltinInt {
    /// `isize`
    Isize,
    /// `i8`
    I8,
    /// `i16`
    I16,
    /// `i32`
    I32,
    /// `i64`
    I64,
    /// `i128`
    I128,
}

impl ExactEq for BuiltinInt {
    ghost eq_decides = { Prim.search exact };
}

impl TryClone for BuiltinInt {
    ghost clone_is_same = { Prim.search exact };
}

/// Unsigned integers.
#[derive(Clone, Copy, PartialEq, Eq, Hash)]
pub enum BuiltinUint {
    /// `usize`
    Usize,
    /// `u8`
    U8,
    /// `u16`
    U16,
    /// `u32`
    U32,
    /// `u64`
    U64,
    /// `u128`
    U128,
}

impl ExactEq for BuiltinUint {
    ghost eq_decides = { Prim.search exact };
}

impl TryClone for BuiltinUint {
    ghost clone_is_same = { Prim.search exact };
}

/// Floating point numbers.
#[derive(Clone, Copy, PartialEq, Eq, Hash)]
pub enum BuiltinFloat {
    /// `f16`
    F16,
    /// `f32`
    F32,
    /// `f64`
    F64,
    /// `f128`
    F128,
}

impl ExactEq for BuiltinFloat {
    ghost eq_decides = { Prim.search exact };
}

impl TryClone for BuiltinFloat {
    ghost clone_is_same = { Prim.search exact };
}
