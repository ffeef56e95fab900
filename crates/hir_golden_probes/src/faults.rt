//! Questions on the texts of faults.

use hir_base::{
    DefWithBodyId, FunctionId, GenericDefId, Id, LifetimeParamId, NamedDef, TypeOrConstParamId,
    TypeParamId, VariantId,
};
use hir_captures::CapturesFault;
use hir_collections::{ArenaFault, Idx};
use hir_defs::{BodyFault, SignatureFault};
use hir_error::HirError;
use hir_pretty::PrintFault;
use hir_scope::ScopesFault;
use hir_show_io::{EndFailed, FillFault, LineFault};
use hir_show_run::RunFault;
use hir_store::FinishFault;
use hir_store_core::Missing;
use hir_text_nodes::{Answer, TextError, Words};
use std::alloc::Global;
use std::fmt::Display;

/// The type of a fault.
#[derive(Clone, Copy)]
enum Kind {
    Arena,
    Finish,
    Body,
    Signature,
    Scopes,
    Captures,
    Print,
    Run,
    Line,
    Fill,
    End,
    Hir,
    Missing,
}

const KINDS: [(&str, Kind); 13] = [
    ("ArenaFault", Kind::Arena),
    ("FinishFault", Kind::Finish),
    ("BodyFault", Kind::Body),
    ("SignatureFault", Kind::Signature),
    ("ScopesFault", Kind::Scopes),
    ("CapturesFault", Kind::Captures),
    ("PrintFault", Kind::Print),
    ("RunFault", Kind::Run),
    ("LineFault", Kind::Line),
    ("FillFault", Kind::Fill),
    ("EndFailed", Kind::End),
    ("HirError", Kind::Hir),
    ("Missing", Kind::Missing),
];

const ARENA: [(&str, ArenaFault); 2] = [("Memory", ArenaFault::Memory), ("Full", ArenaFault::Full)];

const FINISH: [(&str, FinishFault); 2] = [
    ("NoRoots", FinishFault::NoRoots),
    ("Memory", FinishFault::Memory),
];

const BODY: [(&str, BodyFault); 4] = [
    ("NoRoot", BodyFault::NoRoot),
    ("SelfOutOfRange", BodyFault::SelfOutOfRange),
    ("RootInParam", BodyFault::RootInParam),
    ("Memory", BodyFault::Memory),
];

const SIGNATURE: [(&str, SignatureFault); 3] = [
    ("IdOutOfRange", SignatureFault::IdOutOfRange),
    ("NotAPath", SignatureFault::NotAPath),
    ("Memory", SignatureFault::Memory),
];

const SCOPES: [(&str, ScopesFault); 3] = [
    ("Missing", ScopesFault::Missing),
    ("Full", ScopesFault::Full),
    ("Memory", ScopesFault::Memory),
];

const CAPTURES: [(&str, CapturesFault); 2] = [
    ("NotAClosure", CapturesFault::NotAClosure),
    ("Memory", CapturesFault::Memory),
];

const PRINT: [(&str, PrintFault); 1] = [("Memory", PrintFault::Memory)];

const RUN: [(&str, RunFault); 3] = [
    ("InputFailed", RunFault::InputFailed),
    ("OutputFailed", RunFault::OutputFailed),
    ("OutOfMemory", RunFault::OutOfMemory),
];

const LINE: [(&str, LineFault); 3] = [
    ("OutOfMemory", LineFault::OutOfMemory),
    ("InputFailed", LineFault::InputFailed),
    ("OutputFailed", LineFault::OutputFailed),
];

const FILL: [(&str, FillFault); 2] = [
    ("OutOfMemory", FillFault::OutOfMemory),
    ("InputFailed", FillFault::InputFailed),
];

/// `EndFailed` is a struct: its only variant is itself.
const END: [(&str, EndFailed); 1] = [("EndFailed", EndFailed)];

/// The value beside this word.
fn value_of<T: Copy>(table: &[(&str, T)], word: &str) -> Option<T> {
    for (text, value) in table {
        if *text == word {
            return Some(*value);
        }
    }
    None
}

/// Writes the text of the fault of this name.
fn write<F: Display + Copy>(
    alloc: Global,
    faults: &[(&str, F)],
    name: &str,
    answer: &mut Answer,
) -> Result<(), TextError> {
    let Some(fault) = value_of(faults, name) else {
        return Err(TextError::Syntax);
    };
    Ok(answer.word(format!(in alloc; "{fault}")?.as_str())?)
}

/// What is missing, of this name, with 0 for each number of its id.
fn missing_of(name: &str) -> Option<Missing> {
    let function: FunctionId = Id::from_raw(0);
    let parent = GenericDefId::FunctionId(function);
    match name {
        "Name" => Some(Missing::Name(NamedDef::FunctionId(function))),
        "Variant" => Some(Missing::Variant(Id::from_raw(0))),
        "Crate" => Some(Missing::Crate(Id::from_raw(0))),
        "Signature" => Some(Missing::Signature(parent)),
        "Body" => Some(Missing::Body(DefWithBodyId::FunctionId(function))),
        "Fields" => Some(Missing::Fields(VariantId::StructId(Id::from_raw(0)))),
        "TypeParam" => {
            let id = TypeOrConstParamId {
                parent,
                local_id: Idx::from_raw(0),
            };
            Some(Missing::TypeParam(TypeParamId::from_unchecked(id)))
        }
        "LifetimeParam" => Some(Missing::LifetimeParam(LifetimeParamId {
            parent,
            local_id: Idx::from_raw(0),
        })),
        "DefMap" => Some(Missing::DefMap(Id::from_raw(0))),
        _ => None,
    }
}

/// Writes what is missing, as it says it and as an error of it does.
fn write_missing(alloc: Global, name: &str, answer: &mut Answer) -> Result<(), TextError> {
    let Some(missing) = missing_of(name) else {
        return Err(TextError::Syntax);
    };
    answer.word(format!(in alloc; "{missing}:")?.as_str())?;
    let error = HirError::from(missing);
    Ok(answer.word(format!(in alloc; "{error}")?.as_str())?)
}

/// The same of an error that holds the first fault of its kind that has no parts.
fn write_error(alloc: Global, name: &str, answer: &mut Answer) -> Result<(), TextError> {
    let errors = [
        ("Arena", HirError::from(ArenaFault::Memory)),
        ("Store", HirError::from(FinishFault::NoRoots)),
        ("Body", HirError::from(BodyFault::NoRoot)),
        ("Signature", HirError::from(SignatureFault::IdOutOfRange)),
        ("Scopes", HirError::from(ScopesFault::Missing)),
        ("Print", HirError::from(PrintFault::Memory)),
        ("Captures", HirError::from(CapturesFault::NotAClosure)),
    ];
    write(alloc, &errors, name, answer)
}

/// Writes the text of the fault of this type and name.
fn write_fault(
    alloc: Global,
    kind: Kind,
    name: &str,
    answer: &mut Answer,
) -> Result<(), TextError> {
    match kind {
        Kind::Arena => write(alloc, &ARENA, name, answer),
        Kind::Finish => write(alloc, &FINISH, name, answer),
        Kind::Body => write(alloc, &BODY, name, answer),
        Kind::Signature => write(alloc, &SIGNATURE, name, answer),
        Kind::Scopes => write(alloc, &SCOPES, name, answer),
        Kind::Captures => write(alloc, &CAPTURES, name, answer),
        Kind::Print => write(alloc, &PRINT, name, answer),
        Kind::Run => write(alloc, &RUN, name, answer),
        Kind::Line => write(alloc, &LINE, name, answer),
        Kind::Fill => write(alloc, &FILL, name, answer),
        Kind::End => write(alloc, &END, name, answer),
        Kind::Hir => write_error(alloc, name, answer),
        Kind::Missing => write_missing(alloc, name, answer),
    }
}

/// Reads the words after `fault`, a type and a variant, and returns the answer: the text of this fault.
pub fn ask_fault(alloc: Global, words: Words<'_>) -> Result<Option<Answer>, TextError> {
    let mut words = words;
    let Some(kind) = value_of(&KINDS, words.next_keyword()?) else {
        return Err(TextError::Syntax);
    };
    let name = words.next_keyword()?;
    words.end()?;
    let mut answer = Answer::new(alloc);
    write_fault(alloc, kind, name, &mut answer)?;
    Ok(Some(answer))
}
