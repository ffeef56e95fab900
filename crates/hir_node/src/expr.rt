//! Expressions.
ghost use Rattle.std.specs.Prelude.{◌≡◌, IfOk};
ghost use Rattle.hir_node.specs.Precedence.{of_operator, of_arith};

use crate::expr_types::{
    Array, CaptureBy, ClosureKind, LoopSource, MatchArm, OffsetOf, RecordLitField, RecordSpread,
    Statement, Unsafe,
};
use crate::literal::Literal;
use crate::type_ref::{Mutability, Rawness};
use hir_base::{ArithOp, BinaryOp, BlockId, ExprPrecedence, LogicOp, Name, UnaryOp};
use hir_collections::{Boxed, ExactEq, Seq, ShortList, TryClone};
use hir_path::{ExprId, GenericArgs, LabelId, PatId, Path, TypeRefId};
use std::alloc::AllocError;

/// An expression. It takes 64 bytes. The compiler lays fields out in this order. The fields of a record
/// literal are in a box, since they would make all expressions larger.
#[derive(Drop, PartialEq, Eq)]
pub enum Expr {
    /// No expression was written.
    Missing,
    /// `_`, on the left of an assignment.
    Underscore,
    /// `include_bytes!`, whose file is not read.
    IncludeBytes,
    Path(Path),
    Literal(Literal),
    Array(Array),
    OffsetOf(OffsetOf),
    /// `const {}`, whose body is a constant: it sees no local variables.
    Const(ExprId),
    If {
        condition: ExprId,
        then_branch: ExprId,
        else_branch: Option<ExprId>,
    },
    /// `let` in a condition.
    Let {
        pat: PatId,
        expr: ExprId,
    },
    Block {
        id: Option<BlockId>,
        statements: Seq<Statement>,
        tail: Option<ExprId>,
        label: Option<LabelId>,
        unsafe_: Unsafe,
    },
    Loop {
        body: ExprId,
        label: Option<LabelId>,
        source: LoopSource,
    },
    Call {
        callee: ExprId,
        args: ShortList<ExprId>,
    },
    MethodCall {
        receiver: ExprId,
        method_name: Name,
        args: ShortList<ExprId>,
        generic_args: Option<Boxed<GenericArgs>>,
    },
    Match {
        expr: ExprId,
        arms: Seq<MatchArm>,
    },
    Continue {
        label: Option<LabelId>,
    },
    Break {
        expr: Option<ExprId>,
        label: Option<LabelId>,
    },
    Return {
        expr: Option<ExprId>,
    },
    Yield {
        expr: Option<ExprId>,
    },
    /// `do yeet`
    Yeet {
        expr: Option<ExprId>,
    },
    Become {
        expr: ExprId,
    },
    Await {
        expr: ExprId,
    },
    RecordLit {
        path: Path,
        fields: Boxed<Seq<RecordLitField>>,
        spread: RecordSpread,
    },
    Field {
        expr: ExprId,
        name: Name,
    },
    Cast {
        expr: ExprId,
        type_ref: TypeRefId,
    },
    Ref {
        expr: ExprId,
        rawness: Rawness,
        mutability: Mutability,
    },
    UnaryOp {
        expr: ExprId,
        op: UnaryOp,
    },
    /// `op` is `None` where the operator is missing. A plain `=` is an `Assignment`.
    BinaryOp {
        lhs: ExprId,
        rhs: ExprId,
        op: Option<BinaryOp>,
    },
    /// `=`. Its left side is a pattern, whose paths and expressions are those that are written: `x = 1` has
    /// the target `Pat::Path(x)`, and `v[0] = 1` the target `Pat::Expr` of the index.
    Assignment {
        target: PatId,
        value: ExprId,
    },
    Index {
        base: ExprId,
        index: ExprId,
    },
    Closure {
        args: ShortList<PatId>,
        /// The type of each parameter, where one is written.
        arg_types: Seq<Option<TypeRefId>>,
        /// The type after `->`.
        ret_type: Option<TypeRefId>,
        body: ExprId,
        closure_kind: ClosureKind,
        capture_by: CaptureBy,
    },
    Tuple {
        exprs: ShortList<ExprId>,
    },
}

impl Expr {
    ghost use Rattle.hir_node.specs.Precedence.{precedence};

    /// Returns how tightly the expression binds, by the Rust Reference, "Expression precedence", and for
    /// what it doesn't list by the table `precedence` of the specs.
    pub fn precedence(&self) -> ExprPrecedence
        ensures { result ≡ precedence self.now }
    {
        // Each field is named, as in every match on a node, so that a new one can't be overlooked.
        match self {
            Expr::Array(_)
            | Expr::Block {
                id: _,
                statements: _,
                tail: _,
                label: _,
                unsafe_: _,
            }
            | Expr::Const(_)
            | Expr::If {
                condition: _,
                then_branch: _,
                else_branch: _,
            }
            | Expr::Literal(_)
            | Expr::Loop {
                body: _,
                label: _,
                source: _,
            }
            | Expr::Match { expr: _, arms: _ }
            | Expr::Missing
            | Expr::Path(_)
            | Expr::RecordLit {
                path: _,
                fields: _,
                spread: _,
            }
            | Expr::Tuple { exprs: _ }
            | Expr::OffsetOf(_)
            | Expr::Underscore
            | Expr::IncludeBytes
            | Expr::Continue { label: _ } => ExprPrecedence::Unambiguous,
            Expr::Await { expr: _ }
            | Expr::Call { callee: _, args: _ }
            | Expr::Field { expr: _, name: _ }
            | Expr::Index { base: _, index: _ }
            | Expr::MethodCall {
                receiver: _,
                method_name: _,
                args: _,
                generic_args: _,
            } => ExprPrecedence::Postfix,
            Expr::Let { pat: _, expr: _ }
            | Expr::UnaryOp { expr: _, op: _ }
            | Expr::Ref {
                expr: _,
                rawness: _,
                mutability: _,
            } => ExprPrecedence::Prefix,
            Expr::Cast {
                expr: _,
                type_ref: _,
            } => ExprPrecedence::Cast,
            Expr::BinaryOp { lhs: _, rhs: _, op } => binary_precedence(*op),
            Expr::Assignment {
                target: _,
                value: _,
            } => ExprPrecedence::Assign,
            Expr::Become { expr: _ }
            | Expr::Break { expr: _, label: _ }
            | Expr::Closure {
                args: _,
                arg_types: _,
                ret_type: _,
                body: _,
                closure_kind: _,
                capture_by: _,
            }
            | Expr::Return { expr: _ }
            | Expr::Yeet { expr: _ }
            | Expr::Yield { expr: _ } => ExprPrecedence::Jump,
        }
    }
}

/// Returns the precedence of an expression with this operator between its two sides.
fn binary_precedence(op: Option<BinaryOp>) -> ExprPrecedence
    ensures { result ≡ of_operator op }
{
    match op {
        None => ExprPrecedence::Unambiguous,
        Some(BinaryOp::LogicOp(LogicOp::Or)) => ExprPrecedence::LOr,
        Some(BinaryOp::LogicOp(LogicOp::And)) => ExprPrecedence::LAnd,
        Some(BinaryOp::CmpOp(_)) => ExprPrecedence::Compare,
        Some(BinaryOp::Assignment { op: _ }) => ExprPrecedence::Assign,
        Some(BinaryOp::ArithOp(op)) => arith_precedence(op),
    }
}

/// Returns the precedence of an expression with this operator on numbers or bits.
fn arith_precedence(op: ArithOp) -> ExprPrecedence
    ensures { result ≡ of_arith op }
{
    match op {
        ArithOp::Add | ArithOp::Sub => ExprPrecedence::Sum,
        ArithOp::Mul | ArithOp::Div | ArithOp::Rem => ExprPrecedence::Product,
        ArithOp::Shl | ArithOp::Shr => ExprPrecedence::Shift,
        ArithOp::BitXor => ExprPrecedence::BitXor,
        ArithOp::BitOr => ExprPrecedence::BitOr,
        ArithOp::BitAnd => ExprPrecedence::BitAnd,
    }
}

impl Clone for Expr {
    ghost is_clone = { λ x y. y ≡ x };

    fn clone(&self) -> Result<Expr, AllocError> {
        match self {
            Expr::Missing => Ok(Expr::Missing),
            Expr::Underscore => Ok(Expr::Underscore),
            Expr::IncludeBytes => Ok(Expr::IncludeBytes),
            Expr::Path(value) => Ok(Expr::Path(value.try_clone()?)),
            Expr::Literal(value) => Ok(Expr::Literal(value.try_clone()?)),
            Expr::Array(value) => Ok(Expr::Array(value.try_clone()?)),
            Expr::OffsetOf(value) => Ok(Expr::OffsetOf(value.try_clone()?)),
            Expr::Const(value) => Ok(Expr::Const(*value)),
            Expr::If {
                condition,
                then_branch,
                else_branch,
            } => Ok(Expr::If {
                condition: *condition,
                then_branch: *then_branch,
                else_branch: *else_branch,
            }),
            Expr::Let { pat, expr } => Ok(Expr::Let {
                pat: *pat,
                expr: *expr,
            }),
            Expr::Block {
                id,
                statements,
                tail,
                label,
                unsafe_,
            } => Ok(Expr::Block {
                id: *id,
                statements: statements.try_clone()?,
                tail: *tail,
                label: *label,
                unsafe_: *unsafe_,
            }),
            Expr::Loop {
                body,
                label,
                source,
            } => Ok(Expr::Loop {
                body: *body,
                label: *label,
                source: *source,
            }),
            Expr::Call { callee, args } => Ok(Expr::Call {
                callee: *callee,
                args: args.try_clone()?,
            }),
            Expr::MethodCall {
                receiver,
                method_name,
                args,
                generic_args,
            } => clone_method_call(*receiver, method_name, args, generic_args),
            Expr::Match { expr, arms } => Ok(Expr::Match {
                expr: *expr,
                arms: arms.try_clone()?,
            }),
            Expr::Continue { label } => Ok(Expr::Continue { label: *label }),
            Expr::Break { expr, label } => Ok(Expr::Break {
                expr: *expr,
                label: *label,
            }),
            Expr::Return { expr } => Ok(Expr::Return { expr: *expr }),
            Expr::Yield { expr } => Ok(Expr::Yield { expr: *expr }),
            Expr::Yeet { expr } => Ok(Expr::Yeet { expr: *expr }),
            Expr::Become { expr } => Ok(Expr::Become { expr: *expr }),
            Expr::Await { expr } => Ok(Expr::Await { expr: *expr }),
            Expr::RecordLit {
                path,
                fields,
                spread,
            } => clone_record_lit(path, fields, *spread),
            Expr::Field { expr, name } => Ok(Expr::Field {
                expr: *expr,
                name: name.try_clone()?,
            }),
            Expr::Cast { expr, type_ref } => Ok(Expr::Cast {
                expr: *expr,
                type_ref: *type_ref,
            }),
            Expr::Ref {
                expr,
                rawness,
                mutability,
            } => Ok(Expr::Ref {
                expr: *expr,
                rawness: *rawness,
                mutability: *mutability,
            }),
            Expr::UnaryOp { expr, op } => Ok(Expr::UnaryOp {
                expr: *expr,
                op: *op,
            }),
            Expr::BinaryOp { lhs, rhs, op } => Ok(Expr::BinaryOp {
                lhs: *lhs,
                rhs: *rhs,
                op: *op,
            }),
            Expr::Assignment { target, value } => Ok(Expr::Assignment {
                target: *target,
                value: *value,
            }),
            Expr::Index { base, index } => Ok(Expr::Index {
                base: *base,
                index: *index,
            }),
            Expr::Closure {
                args,
                arg_types,
                ret_type,
                body,
                closure_kind,
                capture_by,
            } => {
                let (args, arg_types) = clone_params(args, arg_types)?;
                Ok(Expr::Closure {
                    args,
                    arg_types,
                    ret_type: *ret_type,
                    body: *body,
                    closure_kind: *closure_kind,
                    capture_by: *capture_by,
                })
            }
            Expr::Tuple { exprs } => Ok(Expr::Tuple {
                exprs: exprs.try_clone()?,
            }),
        }
    }
}

/// Returns a method call with copies of these parts.
fn clone_method_call(
    receiver: ExprId,
    method_name: &Name,
    args: &ShortList<ExprId>,
    generic_args: &Option<Boxed<GenericArgs>>,
) -> Result<Expr, AllocError>
    ensures { IfOk result (λ it. it ≡ Expr.MethodCall receiver method_name.now args.now generic_args.now) }
{
    Ok(Expr::MethodCall {
        receiver,
        method_name: method_name.try_clone()?,
        args: args.try_clone()?,
        generic_args: generic_args.try_clone()?,
    })
}

/// Returns a record literal with copies of these parts.
fn clone_record_lit(
    path: &Path,
    fields: &Boxed<Seq<RecordLitField>>,
    spread: RecordSpread,
) -> Result<Expr, AllocError>
    ensures { IfOk result (λ copy. copy ≡ Expr.RecordLit path.now fields.now spread) }
{
    // The fields come first: if the path can't be cloned, what is dropped isn't a path.
    Ok(Expr::RecordLit {
        fields: fields.try_clone()?,
        path: path.try_clone()?,
        spread,
    })
}

/// Returns copies of the lists of a closure's parameters and of their types.
fn clone_params(
    args: &ShortList<PatId>,
    arg_types: &Seq<Option<TypeRefId>>,
) -> Result<(ShortList<PatId>, Seq<Option<TypeRefId>>), AllocError>
    ensures { IfOk result (λ copy. (copy.0 ≡ args.now) × (copy.1 ≡ arg_types.now)) }
{
    Ok((args.try_clone()?, arg_types.try_clone()?))
}

impl ExactEq for Expr {
    ghost use Rattle.hir_node.specs.same.SameExprs.{exprs_decide};

    ghost eq_decides = { exprs_decide };
}

impl TryClone for Expr {
    ghost clone_is_same = { λ x y h. h };
}
