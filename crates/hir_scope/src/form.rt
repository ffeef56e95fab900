//! The scoping form of a node: the one place that says which node has which.

ghost use Rattle.std.specs.Prelude.{◌≡◌};
ghost use Rattle.hir_scope.specs.ScopingForms.{expr_form, form_model, pat_form, type_form};

use hir_base::BlockId;
use hir_node::{Expr, ExprId, LabelId, MatchArm, Pat, PatId, Path, Statement, TypeRef, TypeRefId};

/// The scoping form of a node, with its parts. A node of the first eight forms gives its children scopes by
/// a rule of its own, any other visits its children in turn.
#[derive(Clone, Copy)]
pub enum Form<'a> {
    /// `if`: the condition, the branches.
    If(ExprId, ExprId, Option<ExprId>),
    /// `let` in a condition: the pattern, the expression that it is matched with.
    Let(PatId, ExprId),
    /// A block: its id, its label, its statements, its tail.
    Block(Option<BlockId>, Option<LabelId>, &'a [Statement], Option<ExprId>),
    /// A loop: its label, its body.
    Loop(Option<LabelId>, ExprId),
    /// A closure: the types of its arguments, its return type, its arguments, its body.
    Closure(&'a [Option<TypeRefId>], Option<TypeRefId>, &'a [PatId], ExprId),
    /// A match: the scrutinee, the arms.
    Match(ExprId, &'a [MatchArm]),
    /// An assignment: the target, the value.
    Assignment(PatId, ExprId),
    /// A type with a pattern.
    PatternType(TypeRefId, PatId),
    /// An expression or a pattern without children.
    Leaf,
    /// Any other expression.
    Expr(&'a Expr),
    /// A pattern with children.
    Pat(&'a Pat),
    /// Any other type.
    TypeRef(&'a TypeRef),
}

/// What forms borrow, or nothing: a function that owns a form has a local of this type beside it.
// It is there for the prover's borrow checker alone, which has to be told of these types.
pub type BorrowedByForm<'a> = Option<
    (
        &'a [Statement],
        &'a [Option<TypeRefId>],
        &'a [PatId],
        &'a [MatchArm],
        &'a Expr,
        &'a Pat,
        &'a TypeRef,
    ),
>;

impl<'a> Form<'a> {
    /// Returns the form of an expression.
    // One arm a variant: split, the function would name variants twice. Inlined for speed alone: a form that
    // is returned through memory is 5 to 10 % of the instructions that the scopes of a large body take.
    #[inline(always)]
    pub fn of_expr(expr: &'a Expr) -> Form<'a>
        ensures { form_model result ≡ expr_form expr.now }
    {
        match expr {
            Expr::If {
                condition,
                then_branch,
                else_branch,
            } => Form::If(*condition, *then_branch, *else_branch),
            Expr::Let { pat, expr } => Form::Let(*pat, *expr),
            Expr::Block {
                id,
                statements,
                tail,
                label,
                ..
            } => Form::Block(*id, *label, statements.as_slice(), *tail),
            Expr::Loop { body, label, .. } => Form::Loop(*label, *body),
            Expr::Closure {
                args,
                arg_types,
                ret_type,
                body,
                ..
            } => Form::Closure(arg_types.as_slice(), *ret_type, args.as_slice(), *body),
            Expr::Match { expr, arms } => Form::Match(*expr, arms.as_slice()),
            Expr::Assignment { target, value } => Form::Assignment(*target, *value),
            Expr::Missing
            | Expr::Underscore
            | Expr::IncludeBytes
            | Expr::Literal(_)
            | Expr::Continue { .. }
            | Expr::Path(Path::BarePath(_)) => Form::Leaf,
            Expr::Path(_)
            | Expr::Array(_)
            | Expr::OffsetOf(_)
            | Expr::Const(_)
            | Expr::Call { .. }
            | Expr::MethodCall { .. }
            | Expr::Break { .. }
            | Expr::Return { .. }
            | Expr::Yield { .. }
            | Expr::Yeet { .. }
            | Expr::Become { .. }
            | Expr::Await { .. }
            | Expr::Field { .. }
            | Expr::Ref { .. }
            | Expr::UnaryOp { .. }
            | Expr::RecordLit { .. }
            | Expr::Cast { .. }
            | Expr::BinaryOp { .. }
            | Expr::Index { .. }
            | Expr::Tuple { .. } => Form::Expr(expr),
        }
    }

    /// Returns the form of a pattern: its children come in turn.
    pub fn of_pat(pat: &'a Pat) -> Form<'a>
        ensures { form_model result ≡ pat_form pat.now }
    {
        match pat {
            Pat::Missing
            | Pat::Rest
            | Pat::Wild
            | Pat::NotNull
            | Pat::Bind { subpat: None, .. }
            | Pat::Path(Path::BarePath(_)) => Form::Leaf,
            Pat::Tuple { .. }
            | Pat::Or(_)
            | Pat::Record { .. }
            | Pat::Range { .. }
            | Pat::Slice { .. }
            | Pat::Path(_)
            | Pat::Lit(_)
            | Pat::Expr(_)
            | Pat::Bind { .. }
            | Pat::TupleStruct { .. }
            | Pat::Ref { .. }
            | Pat::Box { .. }
            | Pat::Deref { .. } => Form::Pat(pat),
        }
    }

    /// Returns the form of a type.
    pub fn of_type(type_ref: &'a TypeRef) -> Form<'a>
        ensures { form_model result ≡ type_form type_ref.now }
    {
        match type_ref {
            TypeRef::PatternType(inner, pat) => Form::PatternType(*inner, *pat),
            TypeRef::Never
            | TypeRef::Placeholder
            | TypeRef::Error
            | TypeRef::TypeParam(_)
            | TypeRef::Tuple(_)
            | TypeRef::Path(_)
            | TypeRef::RawPtr(_, _)
            | TypeRef::Reference(_)
            | TypeRef::Array(_)
            | TypeRef::Slice(_)
            | TypeRef::Fn(_)
            | TypeRef::ImplTrait(_)
            | TypeRef::DynTrait(_) => Form::TypeRef(type_ref),
        }
    }
}
