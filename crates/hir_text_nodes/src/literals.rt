//! Literals and operators: read after their keyword, and written as their line has them.

use crate::forms::{Quoted, Read, next_quoted, opt_next, put};
use hir_base::{
    ArithOp, BinaryOp, BuiltinFloat, BuiltinInt, BuiltinUint, CmpOp, LogicOp, Ordering, UnaryOp,
};
use hir_collections::{Seq, Text};
use hir_node::{FloatTypeWrapper, Literal};
use hir_text_words::{Answer, Part, TextError, Words};
use std::alloc::AllocError;

impl Read for BuiltinInt {
    fn read(words: &mut Words<'_>) -> Result<BuiltinInt, TextError> {
        match words.keyword() {
            "isize" => Ok(BuiltinInt::Isize),
            "i8" => Ok(BuiltinInt::I8),
            "i16" => Ok(BuiltinInt::I16),
            "i32" => Ok(BuiltinInt::I32),
            "i64" => Ok(BuiltinInt::I64),
            "i128" => Ok(BuiltinInt::I128),
            _ => Err(TextError::Syntax),
        }
    }
}

impl Read for BuiltinUint {
    fn read(words: &mut Words<'_>) -> Result<BuiltinUint, TextError> {
        match words.keyword() {
            "usize" => Ok(BuiltinUint::Usize),
            "u8" => Ok(BuiltinUint::U8),
            "u16" => Ok(BuiltinUint::U16),
            "u32" => Ok(BuiltinUint::U32),
            "u64" => Ok(BuiltinUint::U64),
            "u128" => Ok(BuiltinUint::U128),
            _ => Err(TextError::Syntax),
        }
    }
}

impl Read for BuiltinFloat {
    fn read(words: &mut Words<'_>) -> Result<BuiltinFloat, TextError> {
        match words.keyword() {
            "f16" => Ok(BuiltinFloat::F16),
            "f32" => Ok(BuiltinFloat::F32),
            "f64" => Ok(BuiltinFloat::F64),
            "f128" => Ok(BuiltinFloat::F128),
            _ => Err(TextError::Syntax),
        }
    }
}

fn next_bytes(words: &mut Words<'_>) -> Result<Seq<u8>, TextError> {
    words.expect(" ")?;
    Ok(Seq::from_vec(words.bytes()?))
}

/// Takes a text of one character.
fn next_char(words: &mut Words<'_>) -> Result<char, TextError> {
    let text = next_quoted(words)?;
    let mut chars = text.as_str().chars();
    match (chars.next(), chars.next()) {
        (Some(c), None) => Ok(c),
        (_, _) => Err(TextError::Syntax),
    }
}

/// Takes the text of a float: digits and `.`, or in quotes.
fn next_float(words: &mut Words<'_>) -> Result<FloatTypeWrapper, TextError> {
    if words.is_at(" \"") {
        return Ok(FloatTypeWrapper::new(next_quoted(words)?));
    }
    words.expect(" ")?;
    let digits = words.take_of(Part::Decimal);
    if digits.is_empty() {
        return Err(TextError::Syntax);
    }
    let digits = String::from_str(words.alloc(), digits)?;
    Ok(FloatTypeWrapper::new(Text::from_string(digits)))
}

/// Takes the literal of this form.
pub(crate) fn read_literal(form: &str, words: &mut Words<'_>) -> Result<Literal, TextError> {
    match form {
        "string" => Ok(Literal::String(next_quoted(words)?)),
        "bytes" => Ok(Literal::ByteString(next_bytes(words)?)),
        "cstring" => Ok(Literal::CString(next_bytes(words)?)),
        "char" => Ok(Literal::Char(next_char(words)?)),
        "bool" => match words.next_keyword()? {
            "true" => Ok(Literal::Bool(true)),
            "false" => Ok(Literal::Bool(false)),
            _ => Err(TextError::Syntax),
        },
        "int" => {
            words.expect(" ")?;
            Ok(Literal::Int(words.int()?, opt_next(words)?))
        }
        "uint" => {
            words.expect(" ")?;
            Ok(Literal::Uint(words.big()?, opt_next(words)?))
        }
        "float" => Ok(Literal::Float(next_float(words)?, opt_next(words)?)),
        _ => Err(TextError::Syntax),
    }
}

fn put_suffix(answer: &mut Answer, suffix: Option<&'static str>) -> Result<(), AllocError> {
    match suffix {
        Some(suffix) => answer.word(suffix),
        None => Ok(()),
    }
}

fn put_quoted(answer: &mut Answer, word: &str, text: &str) -> Result<(), AllocError> {
    put(answer, &(word, Quoted(text)))
}

fn put_bytes(answer: &mut Answer, word: &str, bytes: &[u8]) -> Result<(), AllocError> {
    answer.word(word)?;
    answer.space()?;
    answer.join_bytes(bytes)
}

/// Writes the text of a float: bare, where it is of digits and `.` alone.
fn put_float(answer: &mut Answer, text: &str) -> Result<(), AllocError> {
    if Part::Decimal.is_all(text.as_bytes()) {
        put(answer, &("float", text))
    } else {
        put_quoted(answer, "float", text)
    }
}

/// Writes a literal as its line has it, like `int -1 i32`.
pub fn put_literal(answer: &mut Answer, literal: &Literal) -> Result<(), AllocError> {
    match literal {
        Literal::String(text) => put_quoted(answer, "string", text.as_str()),
        Literal::ByteString(bytes) => put_bytes(answer, "bytes", bytes.as_slice()),
        Literal::CString(bytes) => put_bytes(answer, "cstring", bytes.as_slice()),
        Literal::Char(c) => put_quoted(answer, "char", c.encode_utf8(&mut [0u8; 4])),
        Literal::Bool(value) => put(answer, &("bool", if *value { "true" } else { "false" })),
        Literal::Int(value, suffix) => {
            answer.word("int ")?;
            answer.join_shown(value)?;
            put_suffix(answer, suffix.map(|suffix| suffix.as_str()))
        }
        Literal::Uint(value, suffix) => {
            answer.word("uint ")?;
            answer.join_shown(value)?;
            put_suffix(answer, suffix.map(|suffix| suffix.as_str()))
        }
        Literal::Float(text, suffix) => {
            put_float(answer, text.as_str())?;
            put_suffix(answer, suffix.map(|suffix| suffix.as_str()))
        }
    }
}

fn arith_op(word: &str) -> Option<ArithOp> {
    match word {
        "+" => Some(ArithOp::Add),
        "-" => Some(ArithOp::Sub),
        "*" => Some(ArithOp::Mul),
        "/" => Some(ArithOp::Div),
        "%" => Some(ArithOp::Rem),
        "<<" => Some(ArithOp::Shl),
        ">>" => Some(ArithOp::Shr),
        "^" => Some(ArithOp::BitXor),
        "|" => Some(ArithOp::BitOr),
        "&" => Some(ArithOp::BitAnd),
        _ => None,
    }
}

fn order(ordering: Ordering, strict: bool) -> BinaryOp {
    BinaryOp::CmpOp(CmpOp::Ord { ordering, strict })
}

fn binary_op(word: &str) -> Option<BinaryOp> {
    Some(match word {
        "||" => BinaryOp::LogicOp(LogicOp::Or),
        "&&" => BinaryOp::LogicOp(LogicOp::And),
        "==" => BinaryOp::CmpOp(CmpOp::Eq { negated: false }),
        "!=" => BinaryOp::CmpOp(CmpOp::Eq { negated: true }),
        "<" => order(Ordering::Less, true),
        "<=" => order(Ordering::Less, false),
        ">" => order(Ordering::Greater, true),
        ">=" => order(Ordering::Greater, false),
        "=" => BinaryOp::Assignment { op: None },
        _ => match word.strip_suffix('=') {
            Some(word) => {
                let op = Some(arith_op(word)?);
                BinaryOp::Assignment { op }
            }
            None => BinaryOp::ArithOp(arith_op(word)?),
        },
    })
}

/// Takes the operator between two expressions; none for `missing`.
pub(crate) fn next_binary(words: &mut Words<'_>) -> Result<Option<BinaryOp>, TextError> {
    if words.flag("missing") {
        return Ok(None);
    }
    words.expect(" ")?;
    let word = words.take_of(Part::Word);
    Ok(Some(binary_op(word).ok_or(TextError::Syntax)?))
}

/// Takes the operator before an expression.
pub(crate) fn next_unary(words: &mut Words<'_>) -> Result<UnaryOp, TextError> {
    words.expect(" ")?;
    match words.take_of(Part::Word) {
        "*" => Ok(UnaryOp::Deref),
        "!" => Ok(UnaryOp::Not),
        "-" => Ok(UnaryOp::Neg),
        _ => Err(TextError::Syntax),
    }
}
