//! Patterns: each form is read by its word and its parts, and written as its line has it.

use crate::forms::{Read, Write, each, join, next, part, prefixed, put, put_each, put_prefixed};
use hir_base::RangeOp;
use hir_node::{Mutability, Pat, RecordFieldPat};
use hir_text_words::{Answer, TextError, Words};
use std::alloc::AllocError;

/// The words after `pat`.
impl Read for Pat {
    fn read(words: &mut Words<'_>) -> Result<Pat, TextError> {
        Ok(match words.keyword() {
            "missing" => Pat::Missing,
            "rest" => Pat::Rest,
            "wild" => Pat::Wild,
            "not-null" => Pat::NotNull,
            "tuple" => Pat::Tuple {
                args: next(words)?,
                ellipsis: prefixed(words, "..")?,
            },
            "or" => Pat::Or(next(words)?),
            "record" => Pat::Record {
                path: next(words)?,
                args: each(words)?,
                ellipsis: words.flag(".."),
            },
            "range" => Pat::Range {
                start: next(words)?,
                end: next(words)?,
                range_type: read_range_op(words),
            },
            "slice" => Pat::Slice {
                prefix: next(words)?,
                slice: next(words)?,
                suffix: next(words)?,
            },
            "path" => Pat::Path(next(words)?),
            "lit" => Pat::Lit(next(words)?),
            "expr" => Pat::Expr(next(words)?),
            "bind" => Pat::Bind {
                id: next(words)?,
                subpat: next(words)?,
            },
            "tstruct" => Pat::TupleStruct {
                path: next(words)?,
                args: next(words)?,
                ellipsis: prefixed(words, "..")?,
            },
            "ref" => Pat::Ref {
                pat: next(words)?,
                mutability: Mutability::from_mutable(words.flag("mut")),
            },
            word => return read_inner(word, words),
        })
    }
}

/// Takes a pattern that is around another one.
fn read_inner(word: &str, words: &mut Words<'_>) -> Result<Pat, TextError> {
    match word {
        "box" => Ok(Pat::Box {
            inner: next(words)?,
        }),
        "deref" => Ok(Pat::Deref {
            inner: next(words)?,
        }),
        _ => Err(TextError::Syntax),
    }
}

fn read_range_op(words: &mut Words<'_>) -> RangeOp {
    if words.flag("exclusive") {
        RangeOp::Exclusive
    } else {
        RangeOp::Inclusive
    }
}

impl Read for RecordFieldPat {
    fn read(words: &mut Words<'_>) -> Result<RecordFieldPat, TextError> {
        Ok(RecordFieldPat {
            name: Read::read(words)?,
            pat: part(words)?,
        })
    }
}

impl Write for RecordFieldPat {
    fn write(&self, answer: &mut Answer) -> Result<(), AllocError> {
        self.name.write(answer)?;
        join(answer, ":", &self.pat)
    }
}

/// The line of a pattern.
impl Write for Pat {
    fn write(&self, answer: &mut Answer) -> Result<(), AllocError> {
        answer.join("pat")?;
        match self {
            Pat::Missing => answer.word("missing"),
            Pat::Rest => answer.word("rest"),
            Pat::Wild => answer.word("wild"),
            Pat::NotNull => answer.word("not-null"),
            Pat::Tuple { args, ellipsis } => {
                put(answer, &("tuple", args))?;
                put_prefixed(answer, "..", ellipsis)
            }
            Pat::Or(pats) => put(answer, &("or", pats)),
            Pat::Record {
                ellipsis,
                path,
                args,
            } => {
                put(answer, &("record", path))?;
                put_each(answer, args.as_slice())?;
                answer.flag(*ellipsis, "..")
            }
            Pat::Range {
                start,
                end,
                range_type,
            } => {
                put(answer, &("range", start, end))?;
                answer.flag(*range_type == RangeOp::Exclusive, "exclusive")
            }
            Pat::Slice {
                prefix,
                slice,
                suffix,
            } => put(answer, &("slice", prefix, slice, suffix)),
            Pat::Path(path) => put(answer, &("path", path)),
            Pat::Lit(expr) => put(answer, &("lit", expr)),
            Pat::Expr(expr) => put(answer, &("expr", expr)),
            Pat::Bind { id, subpat } => put(answer, &("bind", id, subpat)),
            Pat::TupleStruct {
                path,
                args,
                ellipsis,
            } => {
                put(answer, &("tstruct", path, args))?;
                put_prefixed(answer, "..", ellipsis)
            }
            Pat::Ref { pat, mutability } => {
                put(answer, &("ref", pat))?;
                answer.flag(mutability.is_mut(), "mut")
            }
            Pat::Box { inner } => put(answer, &("box", inner)),
            Pat::Deref { inner } => put(answer, &("deref", inner)),
        }
    }
}
