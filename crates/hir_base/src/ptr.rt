//! Pointers into source files, and what a source is: a pointer and its file.
//! A pointer is the kind and the range of a syntax node; its type says what kind of node it points to.
ghost use Rattle.std.specs.Prelude.{◌≡◌, Some, codes};
ghost use Rattle.hir_collections.specs.Exact.{exact};

use crate::ast::{self, Widens};
use crate::ids::HirFileId;
use either::Either;
use hir_collections::{ExactEq, TryClone};
use std::fmt;
use std::marker::{Model, PhantomData};

/// A part of a file, in bytes from the file's start: from `start` up to, but not including, `end`.
#[derive(Clone, Copy, PartialEq, Eq, Hash)]
pub struct TextRange {
    pub start: u32,
    pub end: u32,
}

impl ExactEq for TextRange {
    ghost eq_decides = { Prim.search exact };
}

impl TryClone for TextRange {
    ghost clone_is_same = { Prim.search exact };
}

/// A syntax node, named by its kind and its range.
#[derive(Clone, Copy, PartialEq, Eq, Hash)]
pub struct SyntaxNodePtr {
    /// The number of the node's syntax kind, as the parser gives it.
    pub kind: u16,
    /// The text of the node.
    pub range: TextRange,
}

impl ExactEq for SyntaxNodePtr {
    ghost eq_decides = { Prim.search exact };
}

impl TryClone for SyntaxNodePtr {
    ghost clone_is_same = { Prim.search exact };
}

/// A pointer to a syntax node of the kind `K`, a marker of the module `ast`.
#[derive(Drop)]
#[derive_where(Clone, Copy, PartialEq, Eq, Hash)]
pub struct AstPtr<K> {
    node: SyntaxNodePtr,
    #[derive_where(skip)]
    kind: PhantomData<K>,
}

impl<K> Model for AstPtr<K> {
    ghost use Rattle.hir_base.specs.declared.ptr.SyntaxNodePtr.{SyntaxNodePtr};

    ghost Value = { SyntaxNodePtr };

    ghost view = { λ ptr. ptr.node };

    ghost inverse = { λ node. record { node = node; kind = record {} } };
}

impl<K> AstPtr<K> {
    /// Returns the pointer to this node, which the caller knows to be of the kind `K`: nothing checks it.
    pub fn new(node: SyntaxNodePtr) -> AstPtr<K>
        ensures { result ≡ node }
    {
        AstPtr {
            node,
            kind: PhantomData,
        }
    }

    /// Returns the node, without the marker of its kind.
    pub fn syntax_node_ptr(self) -> SyntaxNodePtr
        ensures { result ≡ self }
    {
        self.node
    }

    /// Returns the same pointer, to a wider kind.
    pub fn upcast<M: Widens<K>>(self) -> AstPtr<M>
        ensures { result ≡ self }
    {
        AstPtr::new(self.node)
    }

    /// Returns the same pointer, to this kind or another.
    pub fn wrap_left<R>(self) -> AstPtr<Either<K, R>>
        ensures { result ≡ self }
    {
        AstPtr {
            node: self.node,
            kind: PhantomData,
        }
    }
}

impl<K> ExactEq for AstPtr<K> {
    ghost eq_decides = { Prim.search exact };
}

impl<K> TryClone for AstPtr<K> {
    ghost clone_is_same = { Prim.search exact };
}

/// A value and the file that it is about.
#[derive(Clone, Copy, PartialEq, Eq, Hash)]
pub struct InFile<T> {
    /// The file, or what a macro call expanded to.
    pub file_id: HirFileId,
    pub value: T,
}

impl<T: ExactEq> ExactEq for InFile<T> {
    ghost eq_decides = { Prim.search (exact, T.eq_decides) };
}

impl<T: TryClone> TryClone for InFile<T> {
    ghost clone_is_same = { Prim.search (exact, T.clone_is_same) };
}

/// The error that a node has no syntax: lowering made it up.
#[derive(Drop, PartialEq, Eq)]
pub struct SyntheticSyntax;

/// Writes the name of the type.
impl fmt::Debug for SyntheticSyntax {
    ghost debug_output = { λ _. Some (codes "SyntheticSyntax") };

    fn fmt<W: fmt::Write>(&self, f: &mut fmt::Formatter<W>) -> fmt::Result {
        f.write_str("SyntheticSyntax")
    }
}

impl ExactEq for SyntheticSyntax {
    ghost eq_decides = { Prim.search exact };
}

/// A pointer to an expression.
pub type ExprPtr = AstPtr<ast::Expr>;

/// A pointer to a pattern.
pub type PatPtr = AstPtr<ast::Pat>;

/// A pointer to a label, or a block that acts as one.
pub type LabelPtr = AstPtr<Either<ast::Label, ast::BlockExpr>>;

/// A pointer to a field of a struct expression.
pub type FieldPtr = AstPtr<ast::RecordExprField>;

/// A pointer to a field of a struct pattern, or of a struct expression that is assigned to.
pub type PatFieldPtr = AstPtr<Either<ast::RecordExprField, ast::RecordPatField>>;

/// A pointer to an expression or a pattern.
pub type ExprOrPatPtr = AstPtr<Either<ast::Expr, ast::Pat>>;

/// A pointer to a type.
pub type TypePtr = AstPtr<ast::Ty>;

/// A pointer to a lifetime.
pub type LifetimePtr = AstPtr<ast::Lifetime>;

/// A pointer to a `self` parameter.
pub type SelfParamPtr = AstPtr<ast::SelfParam>;

/// A pointer to a macro call.
pub type MacroCallPtr = AstPtr<ast::MacroCall>;

/// An `ExprPtr` and its file.
pub type ExprSource = InFile<ExprPtr>;

/// A `PatPtr` and its file.
pub type PatSource = InFile<PatPtr>;

/// A `LabelPtr` and its file.
pub type LabelSource = InFile<LabelPtr>;

/// A `FieldPtr` and its file.
pub type FieldSource = InFile<FieldPtr>;

/// A `PatFieldPtr` and its file.
pub type PatFieldSource = InFile<PatFieldPtr>;

/// An `ExprOrPatPtr` and its file.
pub type ExprOrPatSource = InFile<ExprOrPatPtr>;

/// A `TypePtr` and its file.
pub type TypeSource = InFile<TypePtr>;

/// A `LifetimePtr` and its file.
pub type LifetimeSource = InFile<LifetimePtr>;
