//! What is still to be printed.

ghost use Rattle.std.specs.Prelude.{◌≡◌};
ghost use Rattle.hir_pretty_docs.specs.Tokens.{is_plain, is_node};

use hir_base::{ConstId, CrateId, ExprPrecedence, NamedDef, TypeParamId};
use hir_node::{
    BindingId, ExprId, GenericArgs, LabelId, LifetimeRefId, Literal, PatId, RecordFieldPat,
    TypeRefId,
};
use hir_store_core::Missing;

/// What comes after each expression of a list.
#[derive(Clone, Copy)]
pub enum Ending {
    /// A comma and a space.
    Comma,
    /// A comma and the end of the line.
    Line,
}

/// What is looked up, in the store or the tables, when its turn comes.
#[derive(Clone, Copy)]
pub enum Lookup {
    /// The name of a label.
    Label(LabelId),
    /// A lifetime.
    Lifetime(LifetimeRefId),
    /// A binding, with what is before its name.
    Binding(BindingId),
    /// The name of a definition, or `<missing>` where it has none.
    Def(NamedDef),
    /// The name of a constant, or `_` where it has none.
    Const(ConstId),
    /// The name of a crate, or `$crate` where it has none.
    Crate(CrateId),
    /// The name of a type parameter, or its number where it has none.
    TypeParam(TypeParamId),
}

/// What is still to be printed: a text, a layout, what is looked up, a definition that is missing, or a node,
/// which expands to others.
#[derive(Clone, Copy)]
pub enum Token<'a> {
    /// A text, written as it is.
    Text(&'a str),
    /// A soft space: one, unless there is one or a line begins.
    Space,
    /// Ends the line, unless it is blank; in one line, a space, unless there is one.
    Break,
    /// Raises the level and ends the line.
    Indent,
    /// Lowers the level and removes empty last lines.
    Outdent,
    /// A number in decimal.
    Number(u64),
    /// A literal, as source text writes it.
    Literal(&'a Literal),
    /// A name, with `r#` where the edition's words list it.
    Name(&'a str),
    /// What comes after the last field of a record pattern: a space in one line, else a comma and the end of
    /// the line.
    LastFieldEnd,
    /// What is looked up.
    LookUp(Lookup),
    /// A definition that is missing.
    Missing(Missing),
    /// An expression without a parent.
    Expr(ExprId),
    /// An expression under a precedence.
    ExprIn(ExprId, ExprPrecedence),
    /// Expressions without a parent, each with its ending: the first, and the others.
    ExprList(Ending, ExprId, &'a [ExprId]),
    /// The body of a closure that is a coroutine, and any other expression itself.
    CoroutineBody(ExprId),
    /// A pattern.
    Pattern(PatId),
    /// A field of a record pattern: its name alone, where the pattern binds it.
    FieldPat(&'a RecordFieldPat),
    /// A type.
    Type(TypeRefId),
    /// Generic arguments in `::<` and `>`.
    GenericArgs(&'a GenericArgs),
}

impl<'a> Token<'a> {
    /// Whether it is written as it is.
    pub fn is_plain(&self) -> bool
        ensures { result ≡ is_plain self.now }
    {
        matches!(
            self,
            Token::Text(_)
                | Token::Space
                | Token::Break
                | Token::Indent
                | Token::Outdent
                | Token::Number(_)
                | Token::Literal(_)
                | Token::Name(_)
                | Token::LastFieldEnd
        )
    }

    /// Whether it is a node, which expands to other tokens.
    pub fn is_node(&self) -> bool
        ensures { result ≡ is_node self.now }
    {
        matches!(
            self,
            Token::Expr(_)
                | Token::ExprIn(_, _)
                | Token::ExprList(_, _, _)
                | Token::CoroutineBody(_)
                | Token::Pattern(_)
                | Token::FieldPat(_)
                | Token::Type(_)
                | Token::GenericArgs(_)
        )
    }
}
