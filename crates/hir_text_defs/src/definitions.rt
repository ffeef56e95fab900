//! The lines that make a body, a signature or fields of a finished store, and add them to the tables.

use crate::bodies;
use crate::pending::Pending;
use crate::subject::{Finished, Subject, ask_accepted, ask_again};
use hir_base::{
    AdtId, DefWithBodyId, ExpressionStoreOwnerId, FunctionId, GenericDefId, LangItemTarget,
    StructId, VariantId,
};
use hir_collections::Seq;
use hir_defs::{
    FieldsShape, FunctionParts, FunctionSignature, GenericParams, PlainDef, PlainParts,
    PlainSignature, RefusedSignature, SignatureFault, StructParts, StructSignature, Tables,
    TablesOf, VariantFields, VariantParts,
};
use hir_store::{ExpressionStore, ExpressionStoreSourceMap};
use hir_text_nodes::{Answer, TextError, Words, next, opt_abi, prefixed};
use hir_text_store::{done, refuse};
use std::mem;

/// What a line makes of a finished store. In the parts of a signature the generic parameters and the store
/// are empty: those that wait come in their place.
#[derive(Drop)]
pub enum Definition {
    Body(DefWithBodyId),
    Function(FunctionId, Box<FunctionParts>),
    Struct(StructId, Box<StructParts>),
    Plain(PlainDef),
    Variant(VariantId, FieldsShape),
}

fn read_function(words: &mut Words<'_>) -> Result<Box<FunctionParts>, TextError> {
    let parts = FunctionParts {
        name: next(words)?,
        params: next(words)?,
        ret_type: next(words)?,
        is_const: words.flag("const"),
        is_async: words.flag("async"),
        is_unsafe: words.flag("unsafe"),
        is_explicit_safe: words.flag("safe"),
        abi: opt_abi(words)?,
        legacy_const_indices: prefixed(words, "legacy:")?,
        generic_params: GenericParams::empty(words.alloc()),
        store: ExpressionStore::empty(words.alloc()),
    };
    Ok(Box::new(words.alloc(), parts)?)
}

fn read_struct(words: &mut Words<'_>) -> Result<Box<StructParts>, TextError> {
    let parts = StructParts {
        name: next(words)?,
        shape: next(words)?,
        is_fundamental: words.flag("fundamental"),
        generic_params: GenericParams::empty(words.alloc()),
        store: ExpressionStore::empty(words.alloc()),
    };
    Ok(Box::new(words.alloc(), parts)?)
}

/// Takes a definition whose signature keeps only the generic parameters.
pub(crate) fn next_plain(words: &mut Words<'_>) -> Result<PlainDef, TextError> {
    match next::<LangItemTarget>(words)? {
        LangItemTarget::ImplId(id) => Ok(PlainDef::Impl(id)),
        LangItemTarget::EnumId(id) => Ok(PlainDef::Enum(id)),
        LangItemTarget::StaticId(id) => Ok(PlainDef::Static(id)),
        LangItemTarget::UnionId(id) => Ok(PlainDef::Union(id)),
        LangItemTarget::TypeAliasId(id) => Ok(PlainDef::TypeAlias(id)),
        LangItemTarget::TraitId(id) => Ok(PlainDef::Trait(id)),
        LangItemTarget::ConstId(id) => Ok(PlainDef::Const(id)),
        LangItemTarget::FunctionId(_)
        | LangItemTarget::StructId(_)
        | LangItemTarget::EnumVariantId(_) => Err(TextError::Syntax),
        LangItemTarget::MacroId(_macro_id) => Err(TextError::Syntax),
    }
}

fn refuse_signature(answer: &mut Answer, fault: SignatureFault) -> Result<(), TextError> {
    if fault == SignatureFault::Memory {
        return Err(TextError::Memory);
    }
    Ok(refuse(answer, &fault)?)
}

/// Lets the generic parameters of a signature that was refused wait again, and its store be asked again.
fn take_back(
    fault: SignatureFault,
    parts: (GenericParams, ExpressionStore, ExpressionStoreSourceMap),
    pending: &mut Pending,
    answer: &mut Answer,
) -> Result<Subject, TextError> {
    let (generic_params, store, sources) = parts;
    refuse_signature(answer, fault)?;
    pending.put_back_generics(&generic_params)?;
    ask_again(store, sources, answer)
}

fn make_function<S: Drop, P: Drop, V: Drop, B: Drop, N: Drop>(
    id: FunctionId,
    parts: Box<FunctionParts>,
    finished: Finished,
    pending: &mut Pending,
    tables: &mut TablesOf<FunctionSignature, S, P, V, B, ExpressionStoreSourceMap, N>,
    answer: &mut Answer,
) -> Result<Subject, TextError> {
    let (store, sources) = Box::into_inner(finished);
    let mut parts = Box::into_inner(parts);
    parts.store = store;
    parts.generic_params = pending.take_generics(answer.alloc());
    match FunctionSignature::new(parts) {
        Ok(signature) => {
            done(tables.add_function(id, signature, sources))?;
            let def = GenericDefId::FunctionId(id);
            ask_accepted(ExpressionStoreOwnerId::Signature(def), answer)
        }
        Err(RefusedSignature { fault, parts }) => {
            let FunctionParts {
                generic_params,
                store,
                ..
            } = parts;
            take_back(fault, (generic_params, store, sources), pending, answer)
        }
    }
}

fn make_struct<F: Drop, P: Drop, V: Drop, B: Drop, N: Drop>(
    id: StructId,
    parts: Box<StructParts>,
    finished: Finished,
    pending: &mut Pending,
    tables: &mut TablesOf<F, StructSignature, P, V, B, ExpressionStoreSourceMap, N>,
    answer: &mut Answer,
) -> Result<Subject, TextError> {
    let (store, sources) = Box::into_inner(finished);
    let mut parts = Box::into_inner(parts);
    parts.store = store;
    parts.generic_params = pending.take_generics(answer.alloc());
    match StructSignature::new(parts) {
        Ok(signature) => {
            done(tables.add_struct(id, signature, sources))?;
            let def = GenericDefId::AdtId(AdtId::StructId(id));
            ask_accepted(ExpressionStoreOwnerId::Signature(def), answer)
        }
        Err(RefusedSignature { fault, parts }) => {
            let StructParts {
                generic_params,
                store,
                ..
            } = parts;
            take_back(fault, (generic_params, store, sources), pending, answer)
        }
    }
}

fn make_plain<F: Drop, S: Drop, V: Drop, B: Drop, N: Drop>(
    def: &PlainDef,
    finished: Finished,
    pending: &mut Pending,
    tables: &mut TablesOf<F, S, PlainSignature, V, B, ExpressionStoreSourceMap, N>,
    answer: &mut Answer,
) -> Result<Subject, TextError> {
    let (store, sources) = Box::into_inner(finished);
    let generic_params = pending.take_generics(answer.alloc());
    match PlainSignature::new(PlainParts {
        generic_params,
        store,
    }) {
        Ok(signature) => {
            done(tables.add_plain(*def, signature, sources))?;
            ask_accepted(ExpressionStoreOwnerId::Signature(def.generic_def()), answer)
        }
        Err(RefusedSignature { fault, parts }) => {
            let PlainParts {
                generic_params,
                store,
                ..
            } = parts;
            take_back(fault, (generic_params, store, sources), pending, answer)
        }
    }
}

fn make_variant<F: Drop, S: Drop, P: Drop, B: Drop, N: Drop>(
    id: &VariantId,
    shape: FieldsShape,
    finished: Finished,
    pending: &mut Pending,
    tables: &mut TablesOf<F, S, P, VariantFields, B, ExpressionStoreSourceMap, N>,
    answer: &mut Answer,
) -> Result<Subject, TextError> {
    let (store, sources) = Box::into_inner(finished);
    let fields = mem::replace(&mut pending.fields, Seq::new(answer.alloc()));
    match VariantFields::new(VariantParts {
        shape,
        fields,
        store,
    }) {
        Ok(variant) => {
            done(tables.add_fields(*id, variant, sources))?;
            ask_accepted(ExpressionStoreOwnerId::VariantFields(*id), answer)
        }
        Err(RefusedSignature { fault, parts }) => {
            let VariantParts { fields, store, .. } = parts;
            refuse_signature(answer, fault)?;
            pending.fields = fields;
            ask_again(store, sources, answer)
        }
    }
}

impl Definition {
    /// Reads a definition, after the first word of its line; `None` where no such line begins with it.
    pub fn read(word: &str, words: &mut Words<'_>) -> Result<Option<Definition>, TextError> {
        Ok(Some(match word {
            "body" => Definition::Body(next(words)?),
            "function" => Definition::Function(next(words)?, read_function(words)?),
            "struct" => Definition::Struct(next(words)?, read_struct(words)?),
            "plain" => Definition::Plain(next_plain(words)?),
            "variant" => Definition::Variant(next(words)?, next(words)?),
            _ => return Ok(None),
        }))
    }

    /// Makes the definition of the store and of what waits for it, and adds it to the tables. Returns the
    /// store that questions ask from then on: that of the definition, or what was given back.
    pub fn make(
        self,
        finished: Finished,
        pending: &mut Pending,
        tables: &mut Tables,
        answer: &mut Answer,
    ) -> Result<Subject, TextError> {
        match self {
            Definition::Body(def) => bodies::make(&def, finished, pending, tables, answer),
            Definition::Function(id, parts) => {
                make_function(id, parts, finished, pending, tables, answer)
            }
            Definition::Struct(id, parts) => {
                make_struct(id, parts, finished, pending, tables, answer)
            }
            Definition::Plain(def) => make_plain(&def, finished, pending, tables, answer),
            Definition::Variant(id, shape) => {
                make_variant(&id, shape, finished, pending, tables, answer)
            }
        }
    }
}
