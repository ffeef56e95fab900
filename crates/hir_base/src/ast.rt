//! The kinds of syntax nodes that pointers point to. They are markers: no value of them exists.
//! `Widens` says which kind is part of which.

/// A wider kind: each node of the kind `K` is also of this kind.
pub trait Widens<K> {}

/// The kind of an expression.
pub enum Expr {}

/// The kind of a pattern.
pub enum Pat {}

/// The kind of a label.
pub enum Label {}

/// The kind of a block expression.
pub enum BlockExpr {}

/// The kind of a field of a struct expression.
pub enum RecordExprField {}

/// The kind of a field of a struct pattern.
pub enum RecordPatField {}

/// The kind of a type.
pub enum Ty {}

/// The kind of a lifetime.
pub enum Lifetime {}

/// The kind of a `self` parameter.
pub enum SelfParam {}

/// The kind of a macro call.
pub enum MacroCall {}

/// The kind of an `.await` expression.
pub enum AwaitExpr {}

/// The kind of a macro call in expression position.
pub enum MacroExpr {}

impl Widens<MacroExpr> for Expr {}

impl Widens<AwaitExpr> for Expr {}

impl Widens<BlockExpr> for Expr {}
