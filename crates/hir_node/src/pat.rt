//! Patterns.
ghost use Rattle.std.specs.Prelude.{◌≡◌, IfOk};
ghost use Rattle.std.specs.List.{FoldsTo};
ghost use Rattle.hir_collections.specs.Exact.{exact};

use crate::type_ref::Mutability;
use hir_base::{Name, RangeOp};
use hir_collections::{ExactEq, Seq, ShortList, TryClone};
use hir_path::{BindingId, ExprId, PatId, Path};
use std::alloc::AllocError;

/// A field of a record pattern: its name, and the pattern that its value matches.
#[derive(Drop, Clone, PartialEq, Eq)]
pub struct RecordFieldPat {
    pub name: Name,
    pub pat: PatId,
}

impl ExactEq for RecordFieldPat {
    ghost eq_decides = { Prim.search exact };
}

impl TryClone for RecordFieldPat {
    ghost clone_is_same = { Prim.search exact };
}

/// A pattern. It takes 64 bytes, as an expression does.
#[derive(Drop, PartialEq, Eq)]
pub enum Pat {
    /// No pattern was written.
    Missing,
    /// `..`
    Rest,
    /// `_`
    Wild,
    /// `!null`
    NotNull,
    Tuple {
        args: ShortList<PatId>,
        /// The place of `..` among the arguments, if there is one.
        ellipsis: Option<u32>,
    },
    Or(ShortList<PatId>),
    Record {
        /// Whether `..` comes last.
        ellipsis: bool,
        path: Path,
        args: Seq<RecordFieldPat>,
    },
    Range {
        start: Option<ExprId>,
        end: Option<ExprId>,
        range_type: RangeOp,
    },
    Slice {
        prefix: ShortList<PatId>,
        /// The pattern between the first items and the last.
        slice: Option<PatId>,
        suffix: ShortList<PatId>,
    },
    /// A constant, or a variant without fields. On the left of an assignment it may also be a variable, as
    /// the `a` of `(a, b) = c`.
    Path(Path),
    /// A literal, as the `1` and the `-2` of `match x { 1 | -2 => .. }`. It may be anywhere that a pattern
    /// may be; its expression is an `Expr::Literal`, with the sign of a negative number in it.
    Lit(ExprId),
    /// An expression that is assigned to. It is only on the left of an assignment, in the pattern that is
    /// its `target`: the `*b` of `(a, *b) = (1, 2)` is the second argument of a `Tuple`. A store accepts it
    /// anywhere.
    Expr(ExprId),
    Bind {
        id: BindingId,
        /// The pattern after `@`.
        subpat: Option<PatId>,
    },
    TupleStruct {
        path: Path,
        args: ShortList<PatId>,
        /// The place of `..` among the arguments, if there is one.
        ellipsis: Option<u32>,
    },
    Ref {
        pat: PatId,
        mutability: Mutability,
    },
    Box {
        inner: PatId,
    },
    Deref {
        inner: PatId,
    },
}

impl Pat {
    ghost use Rattle.hir_node.specs.ChildCalls.{child_pats};

    /// Runs the closure on each pattern that this one names, in the order of the child calls: a `for` over
    /// `child_pats`.
    pub fn walk_child_pats<F: FnMut(PatId)>(&self, f: &mut F)
        requires { F.IsAlwaysCallable f.old }
        ensures runs { FoldsTo (λ p x q. F.step p x tt q) f.old (child_pats self.now) f.new }
        ensures callable { F.IsAlwaysCallable f.new }
    {
        for id in self.child_pats() {
            f(id);
        }
    }
}

impl Clone for Pat {
    ghost is_clone = { λ x y. y ≡ x };

    fn clone(&self) -> Result<Pat, AllocError> {
        match self {
            Pat::Missing => Ok(Pat::Missing),
            Pat::Rest => Ok(Pat::Rest),
            Pat::Wild => Ok(Pat::Wild),
            Pat::NotNull => Ok(Pat::NotNull),
            Pat::Tuple { args, ellipsis } => Ok(Pat::Tuple {
                args: args.try_clone()?,
                ellipsis: *ellipsis,
            }),
            Pat::Or(args) => Ok(Pat::Or(args.try_clone()?)),
            Pat::Record {
                path,
                args,
                ellipsis,
            } => clone_record(path, args, *ellipsis),
            Pat::Range {
                start,
                end,
                range_type,
            } => Ok(Pat::Range {
                start: *start,
                end: *end,
                range_type: *range_type,
            }),
            Pat::Slice {
                prefix,
                slice,
                suffix,
            } => Ok(Pat::Slice {
                prefix: prefix.try_clone()?,
                slice: *slice,
                suffix: suffix.try_clone()?,
            }),
            Pat::Path(path) => Ok(Pat::Path(path.try_clone()?)),
            Pat::Lit(expr) => Ok(Pat::Lit(*expr)),
            Pat::Expr(expr) => Ok(Pat::Expr(*expr)),
            Pat::Bind { id, subpat } => Ok(Pat::Bind {
                id: *id,
                subpat: *subpat,
            }),
            Pat::TupleStruct {
                path,
                args,
                ellipsis,
            } => clone_tuple_struct(path, args, *ellipsis),
            Pat::Ref { pat, mutability } => Ok(Pat::Ref {
                pat: *pat,
                mutability: *mutability,
            }),
            Pat::Box { inner } => Ok(Pat::Box { inner: *inner }),
            Pat::Deref { inner } => Ok(Pat::Deref { inner: *inner }),
        }
    }
}

/// Returns a record pattern with copies of these parts.
fn clone_record(path: &Path, args: &Seq<RecordFieldPat>, ellipsis: bool) -> Result<Pat, AllocError>
    ensures { IfOk result (λ copy. copy ≡ Pat.Record ellipsis path.now args.now) }
{
    // The list comes first: if the path can't be cloned, what is dropped isn't a path.
    Ok(Pat::Record {
        args: args.try_clone()?,
        path: path.try_clone()?,
        ellipsis,
    })
}

/// Returns a tuple struct pattern with copies of these parts.
fn clone_tuple_struct(
    path: &Path,
    args: &ShortList<PatId>,
    ellipsis: Option<u32>,
) -> Result<Pat, AllocError>
    ensures { IfOk result (λ copy. copy ≡ Pat.TupleStruct path.now args.now ellipsis) }
{
    // The list comes first: if the path can't be cloned, what is dropped isn't a path.
    Ok(Pat::TupleStruct {
        args: args.try_clone()?,
        path: path.try_clone()?,
        ellipsis,
    })
}

impl ExactEq for Pat {
    ghost use Rattle.hir_node.specs.same.SamePats.{pats_decide};

    ghost eq_decides = { pats_decide };
}

impl TryClone for Pat {
    ghost clone_is_same = { λ x y h. h };
}
