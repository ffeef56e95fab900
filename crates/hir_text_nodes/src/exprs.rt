//! Expressions: each form is read by its word and its parts, and written as its line has it.

use crate::closures::{put_params, put_signature, read_closure};
use crate::forms::{Read, Write, each, next, opt_next, prefixed, put, put_each, put_prefixed};
use crate::literals::{next_binary, next_unary, put_literal, read_literal};
use hir_base::BinaryOp;
use hir_collections::Boxed;
use hir_node::{Array, Expr, LoopSource, Mutability, OffsetOf, Rawness, RecordSpread, Unsafe};
use hir_text_words::{Answer, TextError, Words};
use std::alloc::AllocError;

/// The words after `expr`.
impl Read for Expr {
    fn read(words: &mut Words<'_>) -> Result<Expr, TextError> {
        match words.keyword() {
            "missing" => Ok(Expr::Missing),
            "underscore" => Ok(Expr::Underscore),
            "include-bytes" => Ok(Expr::IncludeBytes),
            "path" => Ok(Expr::Path(next(words)?)),
            "const" => Ok(Expr::Const(next(words)?)),
            "array" => {
                let elements = next(words)?;
                Ok(Expr::Array(Array::ElementList { elements }))
            }
            "repeat" => {
                let (initializer, repeat) = (next(words)?, next(words)?);
                Ok(Expr::Array(Array::Repeat {
                    initializer,
                    repeat,
                }))
            }
            "offset-of" => {
                let (container, fields) = (next(words)?, next(words)?);
                Ok(Expr::OffsetOf(OffsetOf { container, fields }))
            }
            "record" => Ok(Expr::RecordLit {
                path: next(words)?,
                fields: Boxed::new(words.alloc(), each(words)?)?,
                spread: read_spread(words)?,
            }),
            "tuple" => Ok(Expr::Tuple {
                exprs: next(words)?,
            }),
            "closure" => read_closure(words),
            word => read_control(word, words),
        }
    }
}

/// Takes an expression that says what is done next.
fn read_control(word: &str, words: &mut Words<'_>) -> Result<Expr, TextError> {
    Ok(match word {
        "if" => Expr::If {
            condition: next(words)?,
            then_branch: next(words)?,
            else_branch: next(words)?,
        },
        "block" => Expr::Block {
            id: next(words)?,
            tail: next(words)?,
            label: prefixed(words, "label:")?,
            unsafe_: if words.flag("unsafe") {
                Unsafe::Yes
            } else {
                Unsafe::No
            },
            statements: each(words)?,
        },
        "loop" => Expr::Loop {
            body: next(words)?,
            label: prefixed(words, "label:")?,
            source: read_loop_source(words),
        },
        "match" => Expr::Match {
            expr: next(words)?,
            arms: each(words)?,
        },
        "continue" => Expr::Continue {
            label: prefixed(words, "label:")?,
        },
        "break" => Expr::Break {
            expr: next(words)?,
            label: prefixed(words, "label:")?,
        },
        "return" => Expr::Return { expr: next(words)? },
        "yield" => Expr::Yield { expr: next(words)? },
        "yeet" => Expr::Yeet { expr: next(words)? },
        "become" => Expr::Become { expr: next(words)? },
        "await" => Expr::Await { expr: next(words)? },
        _ => return read_operation(word, words),
    })
}

/// Takes an expression that is made of operands, or a literal.
fn read_operation(word: &str, words: &mut Words<'_>) -> Result<Expr, TextError> {
    Ok(match word {
        "let" => Expr::Let {
            pat: next(words)?,
            expr: next(words)?,
        },
        "call" => Expr::Call {
            callee: next(words)?,
            args: next(words)?,
        },
        "method" => Expr::MethodCall {
            receiver: next(words)?,
            method_name: next(words)?,
            args: next(words)?,
            generic_args: opt_next(words)?,
        },
        "field" => Expr::Field {
            expr: next(words)?,
            name: next(words)?,
        },
        "cast" => Expr::Cast {
            expr: next(words)?,
            type_ref: next(words)?,
        },
        "ref" => Expr::Ref {
            expr: next(words)?,
            rawness: Rawness::from_raw(words.flag("raw")),
            mutability: Mutability::from_mutable(words.flag("mut")),
        },
        "unary" => Expr::UnaryOp {
            op: next_unary(words)?,
            expr: next(words)?,
        },
        "bin" => Expr::BinaryOp {
            op: next_binary(words)?,
            lhs: next(words)?,
            rhs: next(words)?,
        },
        "assign" => Expr::Assignment {
            target: next(words)?,
            value: next(words)?,
        },
        "index" => Expr::Index {
            base: next(words)?,
            index: next(words)?,
        },
        _ => Expr::Literal(read_literal(word, words)?),
    })
}

fn read_loop_source(words: &mut Words<'_>) -> LoopSource {
    if words.flag("while") {
        LoopSource::While
    } else if words.flag("for") {
        LoopSource::ForLoop
    } else {
        LoopSource::Loop
    }
}

/// Takes what comes after the fields of a record literal.
fn read_spread(words: &mut Words<'_>) -> Result<RecordSpread, TextError> {
    if !words.prefix("..") {
        return Ok(RecordSpread::None);
    }
    if words.is_word_end() {
        return Ok(RecordSpread::FieldDefaults);
    }
    Ok(RecordSpread::Expr(Read::read(words)?))
}

fn op_text(op: Option<BinaryOp>) -> &'static str {
    match op {
        Some(op) => op.as_str(),
        None => "missing",
    }
}

fn put_array(answer: &mut Answer, array: &Array) -> Result<(), AllocError> {
    match array {
        Array::ElementList { elements } => put(answer, &("array", elements)),
        Array::Repeat {
            initializer,
            repeat,
        } => put(answer, &("repeat", initializer, repeat)),
    }
}

fn put_spread(answer: &mut Answer, spread: RecordSpread) -> Result<(), AllocError> {
    match spread {
        RecordSpread::None => Ok(()),
        RecordSpread::FieldDefaults => answer.word(".."),
        RecordSpread::Expr(id) => put_prefixed(answer, "..", &Some(id)),
    }
}

/// The line of an expression.
impl Write for Expr {
    fn write(&self, answer: &mut Answer) -> Result<(), AllocError> {
        answer.join("expr")?;
        match self {
            Expr::Missing => answer.word("missing"),
            Expr::Underscore => answer.word("underscore"),
            Expr::IncludeBytes => answer.word("include-bytes"),
            Expr::Path(path) => put(answer, &("path", path)),
            Expr::Literal(literal) => put_literal(answer, literal),
            Expr::Array(array) => put_array(answer, array),
            Expr::OffsetOf(offset_of) => {
                let OffsetOf { container, fields } = offset_of;
                put(answer, &("offset-of", container, fields))
            }
            Expr::Const(id) => put(answer, &("const", id)),
            Expr::If {
                condition,
                then_branch,
                else_branch,
            } => put(answer, &("if", condition, then_branch, else_branch)),
            Expr::Let { pat, expr } => put(answer, &("let", pat, expr)),
            Expr::Block {
                id,
                statements,
                tail,
                label,
                unsafe_,
            } => {
                put(answer, &("block", id, tail))?;
                put_prefixed(answer, "label:", label)?;
                answer.flag(*unsafe_ == Unsafe::Yes, "unsafe")?;
                put_each(answer, statements.as_slice())
            }
            Expr::Loop {
                body,
                label,
                source,
            } => {
                put(answer, &("loop", body))?;
                put_prefixed(answer, "label:", label)?;
                match source {
                    LoopSource::Loop => Ok(()),
                    LoopSource::While => answer.word("while"),
                    LoopSource::ForLoop => answer.word("for"),
                }
            }
            Expr::Call { callee, args } => put(answer, &("call", callee, args)),
            Expr::MethodCall {
                receiver,
                method_name,
                args,
                generic_args,
            } => {
                put(answer, &("method", receiver, method_name, args))?;
                match generic_args {
                    Some(generic_args) => put(answer, generic_args.get()),
                    None => Ok(()),
                }
            }
            Expr::Match { expr, arms } => {
                put(answer, &("match", expr))?;
                put_each(answer, arms.as_slice())
            }
            Expr::Continue { label } => {
                answer.word("continue")?;
                put_prefixed(answer, "label:", label)
            }
            Expr::Break { expr, label } => {
                put(answer, &("break", expr))?;
                put_prefixed(answer, "label:", label)
            }
            Expr::Return { expr } => put(answer, &("return", expr)),
            Expr::Yield { expr } => put(answer, &("yield", expr)),
            Expr::Yeet { expr } => put(answer, &("yeet", expr)),
            Expr::Become { expr } => put(answer, &("become", expr)),
            Expr::Await { expr } => put(answer, &("await", expr)),
            Expr::RecordLit {
                path,
                fields,
                spread,
            } => {
                put(answer, &("record", path))?;
                put_each(answer, fields.get().as_slice())?;
                put_spread(answer, *spread)
            }
            Expr::Field { expr, name } => put(answer, &("field", expr, name)),
            Expr::Cast { expr, type_ref } => put(answer, &("cast", expr, type_ref)),
            Expr::Ref {
                expr,
                rawness,
                mutability,
            } => {
                put(answer, &("ref", expr))?;
                answer.flag(rawness.is_raw(), "raw")?;
                answer.flag(mutability.is_mut(), "mut")
            }
            Expr::UnaryOp { expr, op } => put(answer, &("unary", op.as_str(), expr)),
            Expr::BinaryOp { lhs, rhs, op } => put(answer, &("bin", op_text(*op), lhs, rhs)),
            Expr::Assignment { target, value } => put(answer, &("assign", target, value)),
            Expr::Index { base, index } => put(answer, &("index", base, index)),
            Expr::Closure {
                args,
                arg_types,
                ret_type,
                body,
                closure_kind,
                capture_by,
            } => {
                put_params(answer, *body, args.as_slice(), arg_types.as_slice())?;
                put_signature(answer, ret_type, *capture_by, *closure_kind)
            }
            Expr::Tuple { exprs } => put(answer, &("tuple", exprs)),
        }
    }
}
