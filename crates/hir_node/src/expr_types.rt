//! The types that expressions are made of: statements, match arms, fields, and the kinds of loops, closures
//! and arrays.
ghost use Rattle.std.specs.Prelude.{◌≡◌};
ghost use Rattle.hir_collections.specs.Exact.{exact};

use hir_base::{MacroDefId, Name};
use hir_collections::{ExactEq, Seq, ShortList, TryClone};
use hir_path::{ExprId, PatId, TypeRefId};

/// What comes after the fields of a record literal.
#[derive(Clone, Copy, PartialEq, Eq)]
pub enum RecordSpread {
    /// Nothing.
    None,
    /// `..` alone: the fields that are left take their defaults.
    FieldDefaults,
    /// `..` and the value that the other fields are taken from.
    Expr(ExprId),
}

impl ExactEq for RecordSpread {
    ghost eq_decides = { Prim.search exact };
}

impl TryClone for RecordSpread {
    ghost clone_is_same = { Prim.search exact };
}

/// Whether a block is unsafe.
#[derive(Clone, Copy, PartialEq, Eq)]
pub enum Unsafe {
    Yes,
    No,
}

impl ExactEq for Unsafe {
    ghost eq_decides = { Prim.search exact };
}

impl TryClone for Unsafe {
    ghost clone_is_same = { Prim.search exact };
}

/// The word that a loop was written with.
#[derive(Clone, Copy, PartialEq, Eq)]
pub enum LoopSource {
    Loop,
    While,
    ForLoop,
}

impl ExactEq for LoopSource {
    ghost eq_decides = { Prim.search exact };
}

impl TryClone for LoopSource {
    ghost clone_is_same = { Prim.search exact };
}

/// The path to a field in a type, as `offset_of!` names it.
#[derive(Drop, Clone, PartialEq, Eq)]
pub struct OffsetOf {
    pub container: TypeRefId,
    /// The names that lead to the field, outermost first.
    pub fields: Seq<Name>,
}

impl ExactEq for OffsetOf {
    ghost eq_decides = { Prim.search exact };
}

impl TryClone for OffsetOf {
    ghost clone_is_same = { Prim.search exact };
}

/// The words before a coroutine.
#[derive(Clone, Copy, PartialEq, Eq, Hash)]
pub enum CoroutineKind {
    /// `async`
    Async,
    /// `gen`
    Gen,
    /// `async gen`
    AsyncGen,
}

impl ExactEq for CoroutineKind {
    ghost eq_decides = { Prim.search exact };
}

impl TryClone for CoroutineKind {
    ghost clone_is_same = { Prim.search exact };
}

/// The value of a closure expression.
#[derive(Clone, Copy, PartialEq, Eq, Hash)]
pub enum ClosureKind {
    /// A closure.
    Closure,
    /// A coroutine of the old form, a closure that yields.
    OldCoroutine(Movability),
    /// A coroutine, which an expression of this kind makes in place.
    Coroutine {
        kind: CoroutineKind,
        source: CoroutineSource,
    },
    /// A closure that makes coroutines.
    CoroutineClosure(CoroutineKind),
}

impl ExactEq for ClosureKind {
    ghost eq_decides = { Prim.search exact };
}

impl TryClone for ClosureKind {
    ghost clone_is_same = { Prim.search exact };
}

/// Where a coroutine comes from.
#[derive(Clone, Copy, PartialEq, Eq, Hash)]
pub enum CoroutineSource {
    /// A block, as `async {}`.
    Block,
    /// A closure, as `async || {}`.
    Closure,
    /// The body of a function.
    Fn,
}

impl ExactEq for CoroutineSource {
    ghost eq_decides = { Prim.search exact };
}

impl TryClone for CoroutineSource {
    ghost clone_is_same = { Prim.search exact };
}

/// How a closure takes the variables around it.
#[derive(Clone, Copy, PartialEq, Eq)]
pub enum CaptureBy {
    /// By value: `move`.
    Value,
    /// By reference, where that is enough.
    Ref,
}

impl ExactEq for CaptureBy {
    ghost eq_decides = { Prim.search exact };
}

impl TryClone for CaptureBy {
    ghost clone_is_same = { Prim.search exact };
}

/// Whether a coroutine may be moved once it has begun.
#[derive(Clone, Copy, PartialEq, Eq, Hash)]
pub enum Movability {
    /// It may not.
    Static,
    /// It may.
    Movable,
}

impl ExactEq for Movability {
    ghost eq_decides = { Prim.search exact };
}

impl TryClone for Movability {
    ghost clone_is_same = { Prim.search exact };
}

/// An array.
#[derive(Drop, Clone, PartialEq, Eq)]
pub enum Array {
    /// `[a, b]`
    ElementList { elements: ShortList<ExprId> },
    /// `[a; n]`. The number is a constant, which sees no local variables.
    Repeat { initializer: ExprId, repeat: ExprId },
}

impl ExactEq for Array {
    ghost eq_decides = { Prim.search exact };
}

impl TryClone for Array {
    ghost clone_is_same = { Prim.search exact };
}

/// An arm of a match.
#[derive(Drop, Clone, PartialEq, Eq)]
pub struct MatchArm {
    pub pat: PatId,
    /// The condition after `if`.
    pub guard: Option<ExprId>,
    /// The body.
    pub expr: ExprId,
}

impl ExactEq for MatchArm {
    ghost eq_decides = { Prim.search exact };
}

impl TryClone for MatchArm {
    ghost clone_is_same = { Prim.search exact };
}

/// A field of a record literal.
#[derive(Drop, Clone, PartialEq, Eq)]
pub struct RecordLitField {
    pub name: Name,
    pub expr: ExprId,
}

impl ExactEq for RecordLitField {
    ghost eq_decides = { Prim.search exact };
}

impl TryClone for RecordLitField {
    ghost clone_is_same = { Prim.search exact };
}

/// A statement of a block.
#[derive(Drop, Clone, PartialEq, Eq)]
pub enum Statement {
    Let {
        pat: PatId,
        type_ref: Option<TypeRefId>,
        initializer: Option<ExprId>,
        else_branch: Option<ExprId>,
    },
    Expr {
        expr: ExprId,
        has_semi: bool,
    },
    Item(Item),
}

impl ExactEq for Statement {
    ghost eq_decides = { Prim.search exact };
}

impl TryClone for Statement {
    ghost clone_is_same = { Prim.search exact };
}

/// An item among statements.
#[derive(Drop, Clone, PartialEq, Eq)]
pub enum Item {
    /// The definition of a macro, which later statements see.
    MacroDef(MacroDefId),
    /// Any other item.
    Other,
}

impl ExactEq for Item {
    ghost eq_decides = { Prim.search exact };
}

impl TryClone for Item {
    ghost clone_is_same = { Prim.search exact };
}
