//! Parts of expressions: statements, arms, fields, closures and coroutines.

use crate::forms::{
    Read, Write, join, join_items, joined, next, part, prefixed, put, put_prefixed,
};
use hir_collections::{Seq, ShortList};
use hir_node::{
    CaptureBy, ClosureKind, CoroutineKind, CoroutineSource, Expr, ExprId, Item, MatchArm,
    Movability, PatId, RecordLitField, Statement, TypeRefId,
};
use hir_text_words::{Answer, TextError, Words};
use std::alloc::AllocError;

impl Read for Statement {
    fn read(words: &mut Words<'_>) -> Result<Statement, TextError> {
        Ok(match words.keyword() {
            "let" => Statement::Let {
                pat: part(words)?,
                type_ref: part(words)?,
                initializer: part(words)?,
                else_branch: part(words)?,
            },
            "semi" => Statement::Expr {
                expr: part(words)?,
                has_semi: true,
            },
            "expr" => Statement::Expr {
                expr: part(words)?,
                has_semi: false,
            },
            "macro" => Statement::Item(Item::MacroDef(part(words)?)),
            "item" => Statement::Item(Item::Other),
            _ => return Err(TextError::Syntax),
        })
    }
}

impl Write for Statement {
    fn write(&self, answer: &mut Answer) -> Result<(), AllocError> {
        match self {
            Statement::Let {
                pat,
                type_ref,
                initializer,
                else_branch,
            } => {
                join(answer, "let:", pat)?;
                join(answer, ":", type_ref)?;
                join(answer, ":", initializer)?;
                join(answer, ":", else_branch)
            }
            Statement::Expr { expr, has_semi } => {
                join(answer, if *has_semi { "semi:" } else { "expr:" }, expr)
            }
            Statement::Item(item) => match item {
                Item::MacroDef(id) => join(answer, "macro:", id),
                Item::Other => answer.join("item"),
            },
        }
    }
}

impl Read for MatchArm {
    fn read(words: &mut Words<'_>) -> Result<MatchArm, TextError> {
        Ok(MatchArm {
            pat: Read::read(words)?,
            guard: part(words)?,
            expr: part(words)?,
        })
    }
}

impl Write for MatchArm {
    fn write(&self, answer: &mut Answer) -> Result<(), AllocError> {
        let MatchArm { pat, guard, expr } = self;
        pat.write(answer)?;
        join(answer, ":", guard)?;
        join(answer, ":", expr)
    }
}

impl Read for RecordLitField {
    fn read(words: &mut Words<'_>) -> Result<RecordLitField, TextError> {
        Ok(RecordLitField {
            name: Read::read(words)?,
            expr: part(words)?,
        })
    }
}

impl Write for RecordLitField {
    fn write(&self, answer: &mut Answer) -> Result<(), AllocError> {
        self.name.write(answer)?;
        join(answer, ":", &self.expr)
    }
}

fn no_types(words: &Words<'_>, arg_count: usize) -> Result<Seq<Option<TypeRefId>>, AllocError> {
    let mut types = Seq::with_capacity(words.alloc(), arg_count)?;
    for _ in 0..arg_count {
        types.push(None)?;
    }
    Ok(types)
}

/// Takes the types of a closure with this number of arguments: where they are left out each has an absent
/// type.
fn read_types(
    words: &mut Words<'_>,
    arg_count: usize,
) -> Result<Seq<Option<TypeRefId>>, TextError> {
    if !words.prefix("types:") {
        return Ok(no_types(words, arg_count)?);
    }
    if words.is_word_end() {
        return Ok(Seq::new(words.alloc()));
    }
    joined(words, ",")
}

/// Takes what a closure expression makes: a closure, where the line ends.
fn read_kind(words: &mut Words<'_>) -> Result<ClosureKind, TextError> {
    if words.is_end() {
        return Ok(ClosureKind::Closure);
    }
    let kind = match words.next_keyword()? {
        "static" => return Ok(ClosureKind::OldCoroutine(Movability::Static)),
        "movable" => return Ok(ClosureKind::OldCoroutine(Movability::Movable)),
        "async" => CoroutineKind::Async,
        "gen" => CoroutineKind::Gen,
        "async-gen" => CoroutineKind::AsyncGen,
        _ => return Err(TextError::Syntax),
    };
    if !words.eat(":") {
        return Ok(ClosureKind::CoroutineClosure(kind));
    }
    let source = match words.keyword() {
        "block" => CoroutineSource::Block,
        "closure" => CoroutineSource::Closure,
        "fn" => CoroutineSource::Fn,
        _ => return Err(TextError::Syntax),
    };
    Ok(ClosureKind::Coroutine { kind, source })
}

/// Takes the parts of a closure.
pub(crate) fn read_closure(words: &mut Words<'_>) -> Result<Expr, TextError> {
    let body = next(words)?;
    let args: ShortList<PatId> = next(words)?;
    Ok(Expr::Closure {
        arg_types: read_types(words, args.len())?,
        args,
        ret_type: prefixed(words, "ret:")?,
        body,
        capture_by: if words.flag("move") {
            CaptureBy::Value
        } else {
            CaptureBy::Ref
        },
        closure_kind: read_kind(words)?,
    })
}

/// Returns whether each of this number of arguments has an absent type, as where a line leaves the types
/// out.
fn are_left_out(types: &[Option<TypeRefId>], arg_count: usize) -> bool {
    for ty in types {
        if ty.is_some() {
            return false;
        }
    }
    types.len() == arg_count
}

fn coroutine_text(kind: CoroutineKind) -> &'static str {
    match kind {
        CoroutineKind::Async => "async",
        CoroutineKind::Gen => "gen",
        CoroutineKind::AsyncGen => "async-gen",
    }
}

/// Writes what a closure expression makes; nothing where that is a closure.
fn put_kind(answer: &mut Answer, kind: ClosureKind) -> Result<(), AllocError> {
    match kind {
        ClosureKind::Closure => Ok(()),
        ClosureKind::OldCoroutine(Movability::Static) => answer.word("static"),
        ClosureKind::OldCoroutine(Movability::Movable) => answer.word("movable"),
        ClosureKind::Coroutine { kind, source } => {
            answer.word(coroutine_text(kind))?;
            answer.join(match source {
                CoroutineSource::Block => ":block",
                CoroutineSource::Closure => ":closure",
                CoroutineSource::Fn => ":fn",
            })
        }
        ClosureKind::CoroutineClosure(kind) => answer.word(coroutine_text(kind)),
    }
}

/// Writes what comes after the arguments of a closure.
pub(crate) fn put_signature(
    answer: &mut Answer,
    ret_type: &Option<TypeRefId>,
    capture_by: CaptureBy,
    closure_kind: ClosureKind,
) -> Result<(), AllocError> {
    put_prefixed(answer, "ret:", ret_type)?;
    answer.flag(capture_by == CaptureBy::Value, "move")?;
    put_kind(answer, closure_kind)
}

/// Writes the body of a closure, its arguments and their types.
pub(crate) fn put_params(
    answer: &mut Answer,
    body: ExprId,
    args: &[PatId],
    types: &[Option<TypeRefId>],
) -> Result<(), AllocError> {
    put(answer, &("closure", body, args))?;
    if are_left_out(types, args.len()) {
        return Ok(());
    }
    answer.word("types:")?;
    join_items(answer, types, ",")
}
