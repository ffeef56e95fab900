//! The nodes of the tests, each made of what a step says of it. No builder is lent to what is here. Nodes are
//! named by their numbers: the first expression is 0, and so is the first pattern.
use crate::build::BuildFault;
use hir_base::{BinaryOp, ExternAbi, HygieneId, LogicOp, ModPath, Name, PathKind};
use hir_collections::{Boxed, Idx, Seq, ShortList};
use hir_node::{
    AssociatedTypeBinding, Binding, BindingAnnotation, Expr, FnType, GenericArg, GenericArgs,
    GenericArgsParentheses, Label, Literal, Mutability, NormalPath, Pat, Path, PathId, Rawness,
    Statement, TraitBoundModifier, TypeBound, TypeRef, Unsafe,
};
use std::alloc::{AllocError, Global};

/// How a path is written.
#[derive(Clone, Copy)]
pub enum Written {
    /// The plain path of this name.
    Name(&'static str),
    /// `a::b` with one list of arguments.
    OneListForTwo,
    /// `a` with an empty list of lists, though it isn't a plain path.
    NoListForOne,
    /// `a` with bindings nested so deep. The innermost list is said to begin with a self type, which is type
    /// 0, or missing.
    Nested(u32, bool),
}

/// An expression.
#[derive(Clone, Copy)]
pub enum ExprStep {
    Path(Written),
    /// The literal `1`.
    One,
    /// The tuple of these expressions.
    Tuple(&'static [u32]),
    /// A shared reference to this expression.
    Ref(u32),
    /// `let pattern = expression`
    Let(u32, u32),
    /// `expression && expression`
    And(u32, u32),
    /// `if condition then else else`
    If(u32, u32, u32),
    /// `const { expression }`
    Const(u32),
    /// A block of a `let` of a pattern and an expression, or of none, and a tail.
    Block(Option<(u32, u32)>, Option<u32>),
}

/// A pattern.
#[derive(Clone, Copy)]
pub enum PatStep {
    /// `_`
    Wild,
    /// The pattern that binds this binding.
    Bind(u32),
    /// The tuple of these patterns.
    Tuple(&'static [u32]),
    /// An expression that is assigned to.
    Expr(u32),
}

/// A type.
#[derive(Clone, Copy)]
pub enum TypeStep {
    /// `!`
    Never,
    /// `a`
    Path,
    /// `impl` of the bound by this type, which has to be a path.
    Bounded(u32),
    /// A function type without types, so that its return type is missing.
    NoTypes,
}

/// Both, if they could be made.
pub fn zip_ok<T: Drop, U: Drop>(
    first: Result<T, AllocError>,
    second: Result<U, AllocError>,
) -> Result<(T, U), BuildFault> {
    match first {
        Ok(first) => match second {
            Ok(second) => Ok((first, second)),
            Err(_) => Err(BuildFault::Memory),
        },
        Err(_) => Err(BuildFault::Memory),
    }
}

/// The list with the item after it, if both could be made.
fn with<T: Drop>(
    list: Result<Seq<T>, AllocError>,
    item: Result<T, AllocError>,
) -> Result<Seq<T>, AllocError> {
    let mut list = list?;
    list.push(item?)?;
    Ok(list)
}

/// The value in a box, if it could be made.
fn boxed<T: Drop>(alloc: Global, value: Result<T, AllocError>) -> Result<Boxed<T>, AllocError> {
    Ok(Boxed::new(alloc, value?)?)
}

/// The ids of these numbers.
fn ids<K>(alloc: Global, numbers: &[u32]) -> Result<ShortList<Idx<K>>, AllocError> {
    let mut list = ShortList::new();
    for number in numbers {
        list.push(alloc, Idx::from_raw(*number))?;
    }
    Ok(list)
}

/// The plain path of these names.
fn plain(alloc: Global, texts: &[&str]) -> Result<ModPath, AllocError> {
    let mut names = Ok(Seq::new(alloc));
    for text in texts {
        names = with(names, Name::new(alloc, text));
    }
    Ok(ModPath::from_segments(alloc, PathKind::Plain, names?)?)
}

/// The path of these names with these lists of arguments.
fn normal(
    alloc: Global,
    names: &[&str],
    lists: Result<Seq<Option<GenericArgs>>, AllocError>,
) -> Result<Path, AllocError> {
    let path = match zip_ok(plain(alloc, names), lists) {
        Ok((mod_path, generic_args)) => Ok(NormalPath {
            generic_args,
            type_anchor: None,
            mod_path,
        }),
        Err(_) => Err(AllocError),
    };
    boxed(alloc, path).map(Path::Normal)
}

/// The binding `B` with these arguments.
fn binding_with(
    alloc: Global,
    args: Result<GenericArgs, AllocError>,
) -> Result<AssociatedTypeBinding, AllocError> {
    match zip_ok(Name::new(alloc, "B"), args) {
        Ok((name, args)) => Ok(AssociatedTypeBinding {
            name,
            args: Some(args),
            type_ref: None,
            bounds: Seq::new(alloc),
        }),
        Err(_) => Err(AllocError),
    }
}

/// Arguments with one binding, which has these arguments.
fn nested_once(
    alloc: Global,
    inner: Result<GenericArgs, AllocError>,
) -> Result<GenericArgs, AllocError> {
    match with(Ok(Seq::new(alloc)), binding_with(alloc, inner)) {
        Ok(bindings) => Ok(GenericArgs {
            args: Seq::new(alloc),
            has_self_type: false,
            bindings,
            parenthesized: GenericArgsParentheses::No,
        }),
        Err(error) => Err(error),
    }
}

/// Arguments that are said to begin with a self type, which is type 0, or missing.
fn innermost(alloc: Global, has_self: bool) -> Result<GenericArgs, AllocError> {
    let mut args = Seq::new(alloc);
    if has_self {
        args.push(GenericArg::Ty(Idx::from_raw(0)))?;
    }
    Ok(GenericArgs {
        args,
        has_self_type: true,
        bindings: Seq::new(alloc),
        parenthesized: GenericArgsParentheses::No,
    })
}

/// The path `a` with bindings nested so deep, and innermost its self type or none.
fn nested(alloc: Global, depth: u32, has_self: bool) -> Result<Path, AllocError> {
    let mut inner = innermost(alloc, has_self);
    for _ in 0..depth {
        inner = nested_once(alloc, inner);
    }
    let list = with(Ok(Seq::new(alloc)), inner.map(Some));
    normal(alloc, &["a"], list)
}

/// The plain path of this name.
fn bare(alloc: Global, name: &str) -> Result<Path, AllocError> {
    match plain(alloc, &[name]) {
        Ok(path) => Ok(Path::BarePath(path)),
        Err(error) => Err(error),
    }
}

/// The path that is written so.
fn path(alloc: Global, written: &Written) -> Result<Path, AllocError> {
    match *written {
        Written::Name(name) => bare(alloc, name),
        Written::OneListForTwo => {
            let list = with(Ok(Seq::new(alloc)), Ok(None));
            normal(alloc, &["a", "b"], list)
        }
        Written::NoListForOne => normal(alloc, &["a"], Ok(Seq::new(alloc))),
        Written::Nested(depth, has_self) => nested(alloc, depth, has_self),
    }
}

/// The tuple of these expressions.
fn tuple(alloc: Global, numbers: &[u32]) -> Result<Expr, AllocError> {
    match ids(alloc, numbers) {
        Ok(exprs) => Ok(Expr::Tuple { exprs }),
        Err(error) => Err(error),
    }
}

/// The list of this statement, which a `let` of this pattern and this expression is, where there is one.
fn lets(alloc: Global, of: Option<(u32, u32)>) -> Result<Seq<Statement>, AllocError> {
    let Some((pat, expr)) = of else {
        return Ok(Seq::new(alloc));
    };
    let statement = Statement::Let {
        pat: Idx::from_raw(pat),
        type_ref: None,
        initializer: Some(Idx::from_raw(expr)),
        else_branch: None,
    };
    match Seq::of(alloc, [statement]) {
        Ok(statements) => Ok(statements),
        Err(failed) => Err(AllocError::from(failed)),
    }
}

/// A block of the `let` of this pattern and this expression, where there is one, and of this tail.
fn block(alloc: Global, of: Option<(u32, u32)>, tail: Option<u32>) -> Result<Expr, AllocError> {
    match lets(alloc, of) {
        Ok(statements) => Ok(Expr::Block {
            id: None,
            statements,
            tail: tail.map(Idx::from_raw),
            label: None,
            unsafe_: Unsafe::No,
        }),
        Err(error) => Err(error),
    }
}

/// The expression of this step.
pub fn expr(alloc: Global, step: &ExprStep) -> Result<Expr, AllocError> {
    match *step {
        ExprStep::Path(ref written) => path(alloc, written).map(Expr::Path),
        ExprStep::One => Ok(Expr::Literal(Literal::Int(1, None))),
        ExprStep::Tuple(exprs) => tuple(alloc, exprs),
        ExprStep::Ref(expr) => Ok(Expr::Ref {
            expr: Idx::from_raw(expr),
            rawness: Rawness::Ref,
            mutability: Mutability::Shared,
        }),
        ExprStep::Let(pat, expr) => Ok(Expr::Let {
            pat: Idx::from_raw(pat),
            expr: Idx::from_raw(expr),
        }),
        ExprStep::And(lhs, rhs) => Ok(Expr::BinaryOp {
            lhs: Idx::from_raw(lhs),
            rhs: Idx::from_raw(rhs),
            op: Some(BinaryOp::LogicOp(LogicOp::And)),
        }),
        ExprStep::If(condition, then_branch, else_branch) => Ok(Expr::If {
            condition: Idx::from_raw(condition),
            then_branch: Idx::from_raw(then_branch),
            else_branch: Some(Idx::from_raw(else_branch)),
        }),
        ExprStep::Const(expr) => Ok(Expr::Const(Idx::from_raw(expr))),
        ExprStep::Block(statements, tail) => block(alloc, statements, tail),
    }
}

/// The tuple of these patterns.
fn tuple_pat(alloc: Global, numbers: &[u32]) -> Result<Pat, AllocError> {
    match ids(alloc, numbers) {
        Ok(args) => Ok(Pat::Tuple {
            args,
            ellipsis: None,
        }),
        Err(error) => Err(error),
    }
}

/// The pattern of this step.
pub fn pat(alloc: Global, step: &PatStep) -> Result<Pat, AllocError> {
    match *step {
        PatStep::Wild => Ok(Pat::Wild),
        PatStep::Bind(id) => Ok(Pat::Bind {
            id: Idx::from_raw(id),
            subpat: None,
        }),
        PatStep::Tuple(pats) => tuple_pat(alloc, pats),
        PatStep::Expr(expr) => Ok(Pat::Expr(Idx::from_raw(expr))),
    }
}

/// `impl` of the bound by this type.
fn bounded(alloc: Global, ty: u32) -> Result<TypeRef, AllocError> {
    let id = PathId::from_type_ref_unchecked(Idx::from_raw(ty));
    let bound = TypeBound::Path(id, TraitBoundModifier::None);
    with(Ok(Seq::new(alloc)), Ok(bound)).map(TypeRef::ImplTrait)
}

/// A function type without types.
fn no_types(alloc: Global) -> Result<TypeRef, AllocError> {
    let function = FnType {
        binder: None,
        params: Seq::new(alloc),
        is_varargs: false,
        is_unsafe: false,
        abi: ExternAbi::Rust,
    };
    boxed(alloc, Ok(function)).map(TypeRef::Fn)
}

/// The type of this step.
pub fn type_ref(alloc: Global, step: &TypeStep) -> Result<TypeRef, AllocError> {
    match *step {
        TypeStep::Never => Ok(TypeRef::Never),
        TypeStep::Path => bare(alloc, "a").map(TypeRef::Path),
        TypeStep::Bounded(ty) => bounded(alloc, ty),
        TypeStep::NoTypes => no_types(alloc),
    }
}

/// A binding of this name.
pub fn binding(alloc: Global, text: &str) -> Result<Binding, AllocError> {
    match Name::new(alloc, text) {
        Ok(name) => Ok(Binding {
            name,
            mode: BindingAnnotation::Unannotated,
            problems: None,
            hygiene: HygieneId::ROOT,
        }),
        Err(error) => Err(error),
    }
}

/// A label of this name.
pub fn label(alloc: Global, text: &str) -> Result<Label, AllocError> {
    match Name::new(alloc, text) {
        Ok(name) => Ok(Label { name }),
        Err(error) => Err(error),
    }
}
