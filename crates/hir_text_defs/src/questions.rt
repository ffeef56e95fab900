//! Questions on the tables.

use crate::definitions::next_plain;
use crate::generics::GenericsQuestion;
use hir_base::{
    CrateId, DefWithBodyId, Edition, EnumVariantId, FunctionId, GenericDefId, NamedDef, StructId,
    VariantId,
};
use hir_collections::Text;
use hir_defs::{
    Bodies, Body, BodySourceMap, FunctionSignature, GenericParams, PlainDef, PlainSignature, Repr,
    StructSignature, Tables, TablesOf, VariantFields,
};
use hir_store_core::Missing;
use hir_text_nodes::{
    Answer, TextError, Words, next, put, put_abi, put_each, put_prefixed, syntax,
};
use hir_text_store::{differs, refuse_missing};
use std::alloc::AllocError;

/// A question on an entry of the tables besides bodies and signatures.
#[derive(Clone, Copy)]
pub enum EntryQuestion {
    Name(NamedDef),
    CrateName(CrateId),
    Parent(EnumVariantId),
    Repr(StructId),
    RawWords(Edition),
}

/// A question on the tables.
#[derive(Drop)]
pub enum Question {
    Entry(EntryQuestion),
    Function(FunctionId),
    Struct(StructId),
    Plain(PlainDef),
    Variant(VariantId),
    SelfSyntax(DefWithBodyId),
    Generics(GenericsQuestion, GenericDefId),
}

/// Reads a question on generic parameters; the line goes on with the definition.
fn read_generics(word: &str, words: &mut Words<'_>) -> Result<Option<GenericsQuestion>, TextError> {
    Ok(Some(match word {
        "generics" => GenericsQuestion::Counts,
        "params" => GenericsQuestion::TypesAndConsts,
        "lifetimes" => GenericsQuestion::Lifetimes,
        "early-lifetimes" => GenericsQuestion::EarlyLifetimes,
        "late-lifetimes" => GenericsQuestion::LateLifetimes,
        "predicates" => GenericsQuestion::Predicates,
        "trait-self" => GenericsQuestion::TraitSelf,
        "find-type" => GenericsQuestion::FindType(next(words)?),
        "find-const" => GenericsQuestion::FindConst(next(words)?),
        "find-lifetime" => GenericsQuestion::FindLifetime(next(words)?),
        "lifetime-index" => GenericsQuestion::LifetimeIndex(next(words)?),
        _ => return Ok(None),
    }))
}

/// Takes the definition after a question on generic parameters.
fn with_def(words: &mut Words<'_>, question: GenericsQuestion) -> Result<Question, TextError> {
    match next(words) {
        Ok(def) => Ok(Question::Generics(question, def)),
        Err(stop) => Err(stop),
    }
}

/// Writes the name of what has one, or `none`.
fn put_name(answer: &mut Answer, name: Option<&Text>) -> Result<(), AllocError> {
    match name {
        Some(name) => put(answer, name),
        None => answer.word("none"),
    }
}

fn put_repr(answer: &mut Answer, repr: Option<Repr>) -> Result<(), AllocError> {
    let Some(repr) = repr else {
        return answer.word("none");
    };
    answer.flag(repr.c, "C")?;
    put_prefixed(answer, "align:", &repr.align)?;
    put_prefixed(answer, "pack:", &repr.pack)
}

// These are proved for tables of any other entries, since tables of what they keep are costly to lay out.
fn put_entry<F: Drop, S: Drop, P: Drop, V: Drop, B: Drop, M: Drop, N: Drop>(
    answer: &mut Answer,
    tables: &TablesOf<F, S, P, V, B, M, N>,
    question: &EntryQuestion,
) -> Result<(), AllocError> {
    match question {
        EntryQuestion::Name(def) => match tables.name(*def) {
            Ok(name) => put_name(answer, name),
            Err(missing) => refuse_missing(answer, missing),
        },
        EntryQuestion::CrateName(id) => match tables.crate_name(*id) {
            Ok(name) => put_name(answer, name),
            Err(missing) => refuse_missing(answer, missing),
        },
        EntryQuestion::Parent(id) => match tables.variant_parent(*id) {
            Ok(parent) => put(answer, &parent),
            Err(missing) => refuse_missing(answer, missing),
        },
        EntryQuestion::Repr(id) => put_repr(answer, tables.repr(*id)),
        EntryQuestion::RawWords(edition) => put_each(answer, tables.raw_words(*edition)),
    }
}

fn put_function<S: Drop, P: Drop, V: Drop, B: Drop, M: Drop, N: Drop>(
    answer: &mut Answer,
    tables: &TablesOf<FunctionSignature, S, P, V, B, M, N>,
    id: FunctionId,
) -> Result<(), AllocError> {
    let signature = match tables.function_signature(id) {
        Ok(signature) => signature,
        Err(missing) => return refuse_missing(answer, missing),
    };
    put(
        answer,
        &("function", id, signature.name(), signature.params()),
    )?;
    put(answer, &signature.ret_type())?;
    answer.flag(signature.is_const(), "const")?;
    answer.flag(signature.is_async(), "async")?;
    answer.flag(signature.is_unsafe(), "unsafe")?;
    answer.flag(signature.is_explicit_safe(), "safe")?;
    put_abi(answer, signature.abi())?;
    put_prefixed(answer, "legacy:", &signature.legacy_const_indices())
}

fn put_struct<F: Drop, P: Drop, V: Drop, B: Drop, M: Drop, N: Drop>(
    answer: &mut Answer,
    tables: &TablesOf<F, StructSignature, P, V, B, M, N>,
    id: StructId,
) -> Result<(), AllocError> {
    match tables.struct_signature(id) {
        Ok(signature) => {
            put(answer, &("struct", id, signature.name(), signature.shape()))?;
            answer.flag(signature.is_fundamental(), "fundamental")
        }
        Err(missing) => refuse_missing(answer, missing),
    }
}

fn put_plain<F: Drop, S: Drop, V: Drop, B: Drop, M: Drop, N: Drop>(
    answer: &mut Answer,
    tables: &TablesOf<F, S, PlainSignature, V, B, M, N>,
    def: &PlainDef,
) -> Result<(), AllocError> {
    match tables.plain_signature(*def) {
        Ok(_) => put(answer, &("plain", def.generic_def())),
        Err(missing) => refuse_missing(answer, missing),
    }
}

/// Writes the line of a variant, and after it those of its fields.
fn put_variant<F: Drop, S: Drop, P: Drop, B: Drop, M: Drop, N: Drop>(
    answer: &mut Answer,
    tables: &TablesOf<F, S, P, VariantFields, B, M, N>,
    id: &VariantId,
) -> Result<(), AllocError> {
    let variant = match tables.variant_fields(*id) {
        Ok(variant) => variant,
        Err(missing) => return refuse_missing(answer, missing),
    };
    put(answer, &("variant", *id, variant.shape()))?;
    for field in variant.fields() {
        answer.line()?;
        put(answer, field)?;
    }
    Ok(())
}

/// Returns whether a source map and its part of the store equal themselves.
fn equals_itself(map: &BodySourceMap) -> bool {
    map.store() == map.store() && *map == *map
}

/// Writes where the `self` of a body is written, or `none`.
fn put_self_syntax<T: Bodies>(
    answer: &mut Answer,
    tables: &T,
    def: &DefWithBodyId,
) -> Result<(), AllocError> {
    match Body::with_source_map(tables, *def) {
        Ok((_, map)) if !equals_itself(map) => differs(answer),
        Ok((_, map)) => match map.self_param_syntax() {
            Some(source) => put(answer, &syntax(source)),
            None => answer.word("none"),
        },
        Err(missing) => refuse_missing(answer, missing),
    }
}

fn put_generics(
    answer: &mut Answer,
    tables: &Tables,
    question: &GenericsQuestion,
    def: &GenericDefId,
) -> Result<(), AllocError> {
    match GenericParams::of(tables, *def) {
        Ok(params) => question.ask(params, *def, answer),
        Err(missing) => refuse_missing(answer, missing),
    }
}

impl Question {
    /// Reads a question, after its first word; `None` where no such question begins with it.
    pub fn read(word: &str, words: &mut Words<'_>) -> Result<Option<Question>, TextError> {
        Ok(Some(match word {
            "name-of" => Question::Entry(EntryQuestion::Name(next(words)?)),
            "crate-name-of" => Question::Entry(EntryQuestion::CrateName(next(words)?)),
            "parent-of" => Question::Entry(EntryQuestion::Parent(next(words)?)),
            "repr-of" => Question::Entry(EntryQuestion::Repr(next(words)?)),
            "raw-words-of" => Question::Entry(EntryQuestion::RawWords(next(words)?)),
            "function-of" => Question::Function(next(words)?),
            "struct-of" => Question::Struct(next(words)?),
            "plain-of" => Question::Plain(next_plain(words)?),
            "variant-of" => Question::Variant(next(words)?),
            "self-syntax" => Question::SelfSyntax(next(words)?),
            _ => {
                return match read_generics(word, words)? {
                    Some(question) => Ok(Some(with_def(words, question)?)),
                    None => Ok(None),
                };
            }
        }))
    }

    /// Writes the answer of the tables.
    pub fn ask(&self, tables: &Tables, answer: &mut Answer) -> Result<(), AllocError> {
        match self {
            Question::Entry(question) => put_entry(answer, tables, question),
            Question::Function(id) => put_function(answer, tables, *id),
            Question::Struct(id) => put_struct(answer, tables, *id),
            Question::Plain(def) => put_plain(answer, tables, def),
            Question::Variant(id) => put_variant(answer, tables, id),
            Question::SelfSyntax(def) => put_self_syntax(answer, tables, def),
            Question::Generics(question, def) => put_generics(answer, tables, question, def),
        }
    }
}
