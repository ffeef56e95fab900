//! Generic parameters, predicates of `where` clauses and fields: read after the first word of their line, and
//! written as their line has them.

use crate::args::{opt_binder, put_binder};
use crate::forms::{Read, Write, join, next, part, prefixed, put_prefixed};
use hir_path::ConstRef;
use hir_signature::{
    ConstParamData, FieldData, FieldsShape, LifetimeBoundType, LifetimeParamData, RawVisibility,
    TypeOrConstParamData, TypeParamData, TypeParamProvenance, WherePredicate,
};
use hir_text_words::{Answer, TextError, Words};
use std::alloc::AllocError;

fn read_provenance(words: &mut Words<'_>) -> TypeParamProvenance {
    if words.flag("self") {
        TypeParamProvenance::TraitSelf
    } else if words.flag("impl") {
        TypeParamProvenance::ArgumentImplTrait
    } else {
        TypeParamProvenance::TypeParamList
    }
}

/// A name or `-`, and what comes after it.
impl Read for TypeParamData {
    fn read(words: &mut Words<'_>) -> Result<TypeParamData, TextError> {
        Ok(TypeParamData {
            name: Read::read(words)?,
            default: prefixed(words, "default:")?,
            provenance: read_provenance(words),
        })
    }
}

/// A constant, by its expression.
impl Read for ConstRef {
    fn read(words: &mut Words<'_>) -> Result<ConstRef, TextError> {
        Ok(ConstRef {
            expr: Read::read(words)?,
        })
    }
}

impl Read for ConstParamData {
    fn read(words: &mut Words<'_>) -> Result<ConstParamData, TextError> {
        Ok(ConstParamData {
            name: Read::read(words)?,
            ty: next(words)?,
            default: prefixed(words, "default:")?,
        })
    }
}

impl Read for LifetimeParamData {
    fn read(words: &mut Words<'_>) -> Result<LifetimeParamData, TextError> {
        Ok(LifetimeParamData {
            name: Read::read(words)?,
            bound_type: if words.flag("late") {
                LifetimeBoundType::LateBound
            } else {
                LifetimeBoundType::EarlyBound
            },
        })
    }
}

/// Takes the predicate that a type meets a bound, after the word `where`.
pub fn next_where(words: &mut Words<'_>) -> Result<WherePredicate, TextError> {
    Ok(WherePredicate::TypeBound {
        target: next(words)?,
        bound: next(words)?,
        lifetimes: opt_binder(words)?,
    })
}

/// Takes the predicate that a lifetime outlives another, after the word `where-lifetime`.
pub fn next_where_lifetime(words: &mut Words<'_>) -> Result<WherePredicate, TextError> {
    Ok(WherePredicate::Lifetime {
        target: next(words)?,
        bound: next(words)?,
    })
}

/// The line of a type or constant parameter.
impl Write for TypeOrConstParamData {
    fn write(&self, answer: &mut Answer) -> Result<(), AllocError> {
        match self {
            TypeOrConstParamData::TypeParamData(param) => {
                ("type-param", &param.name).write(answer)?;
                put_prefixed(answer, "default:", &param.default)?;
                match param.provenance {
                    TypeParamProvenance::TypeParamList => Ok(()),
                    TypeParamProvenance::TraitSelf => answer.word("self"),
                    TypeParamProvenance::ArgumentImplTrait => answer.word("impl"),
                }
            }
            TypeOrConstParamData::ConstParamData(param) => {
                ("const-param", &param.name, param.ty).write(answer)?;
                match param.default {
                    Some(constant) => put_prefixed(answer, "default:", &Some(constant.expr)),
                    None => Ok(()),
                }
            }
        }
    }
}

/// The line of a lifetime parameter.
impl Write for LifetimeParamData {
    fn write(&self, answer: &mut Answer) -> Result<(), AllocError> {
        ("lifetime-param", &self.name).write(answer)?;
        answer.flag(self.is_late_bound(), "late")
    }
}

/// The line of a predicate.
impl Write for WherePredicate {
    fn write(&self, answer: &mut Answer) -> Result<(), AllocError> {
        match self {
            WherePredicate::TypeBound {
                lifetimes,
                target,
                bound,
            } => {
                ("where", target, bound).write(answer)?;
                put_binder(answer, lifetimes)
            }
            WherePredicate::Lifetime { target, bound } => {
                ("where-lifetime", target, bound).write(answer)
            }
        }
    }
}

/// Takes what is in the parentheses of a visibility.
fn read_limit(words: &mut Words<'_>) -> Result<RawVisibility, TextError> {
    match words.keyword() {
        "crate" => Ok(RawVisibility::PubCrate),
        "self" => Ok(RawVisibility::PubSelf),
        "in" => Ok(RawVisibility::Module(part(words)?)),
        _ => Err(TextError::Syntax),
    }
}

/// Takes a visibility after a space.
fn next_visibility(words: &mut Words<'_>) -> Result<RawVisibility, TextError> {
    words.expect(" pub")?;
    if words.is_word_end() {
        return Ok(RawVisibility::Public);
    }
    words.expect("(")?;
    let visibility = read_limit(words)?;
    words.expect(")")?;
    Ok(visibility)
}

/// The words after `field`.
impl Read for FieldData {
    fn read(words: &mut Words<'_>) -> Result<FieldData, TextError> {
        Ok(FieldData {
            name: Read::read(words)?,
            type_ref: next(words)?,
            visibility: next_visibility(words)?,
            is_unsafe: words.flag("unsafe"),
            default_value: prefixed(words, "default:")?,
        })
    }
}

impl Write for RawVisibility {
    fn write(&self, answer: &mut Answer) -> Result<(), AllocError> {
        match self {
            RawVisibility::Public => answer.join("pub"),
            RawVisibility::PubCrate => answer.join("pub(crate)"),
            RawVisibility::PubSelf => answer.join("pub(self)"),
            RawVisibility::Module(path) => {
                join(answer, "pub(in:", path)?;
                answer.join(")")
            }
        }
    }
}

/// The line of a field.
impl Write for FieldData {
    fn write(&self, answer: &mut Answer) -> Result<(), AllocError> {
        ("field", &self.name, self.type_ref, &self.visibility).write(answer)?;
        answer.flag(self.is_unsafe, "unsafe")?;
        put_prefixed(answer, "default:", &self.default_value)
    }
}

/// How fields are written.
impl Read for FieldsShape {
    fn read(words: &mut Words<'_>) -> Result<FieldsShape, TextError> {
        match words.keyword() {
            "record" => Ok(FieldsShape::Record),
            "tuple" => Ok(FieldsShape::Tuple),
            "unit" => Ok(FieldsShape::Unit),
            _ => Err(TextError::Syntax),
        }
    }
}

impl Write for FieldsShape {
    fn write(&self, answer: &mut Answer) -> Result<(), AllocError> {
        answer.join(match self {
            FieldsShape::Record => "record",
            FieldsShape::Tuple => "tuple",
            FieldsShape::Unit => "unit",
        })
    }
}
