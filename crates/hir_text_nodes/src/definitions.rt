//! Definitions: a kind and a number, as `FunctionId(7)`. Any of them is read as what a lang item may be, and
//! narrowed to the kinds of its place.

use crate::forms::{Read, Write, in_parens, next};
use hir_base::{
    AdtId, DefWithBodyId, ExpressionStoreOwnerId, GenericDefId, Id, LangItemTarget,
    LifetimeParamId, MacroId, NamedDef, TypeOrConstParamId, TypeParamId, VariantId,
};
use hir_text_words::{Answer, TextError, Words};
use std::alloc::AllocError;

/// Takes the number in parentheses after a kind.
fn number<K>(words: &mut Words<'_>) -> Result<Id<K>, TextError> {
    words.expect("(")?;
    in_parens(words)
}

impl Read for LangItemTarget {
    fn read(words: &mut Words<'_>) -> Result<LangItemTarget, TextError> {
        Ok(match words.keyword() {
            "FunctionId" => LangItemTarget::FunctionId(number(words)?),
            "StructId" => LangItemTarget::StructId(number(words)?),
            "UnionId" => LangItemTarget::UnionId(number(words)?),
            "EnumId" => LangItemTarget::EnumId(number(words)?),
            "EnumVariantId" => LangItemTarget::EnumVariantId(number(words)?),
            "ConstId" => LangItemTarget::ConstId(number(words)?),
            "StaticId" => LangItemTarget::StaticId(number(words)?),
            "TraitId" => LangItemTarget::TraitId(number(words)?),
            "ImplId" => LangItemTarget::ImplId(number(words)?),
            "TypeAliasId" => LangItemTarget::TypeAliasId(number(words)?),
            "Macro2Id" => LangItemTarget::MacroId(MacroId::Macro2Id(number(words)?)),
            "MacroRulesId" => LangItemTarget::MacroId(MacroId::MacroRulesId(number(words)?)),
            "ProcMacroId" => LangItemTarget::MacroId(MacroId::ProcMacroId(number(words)?)),
            _ => return Err(TextError::Syntax),
        })
    }
}

// (what a `?` carries has only types that the function has a value of, so each id of a macro has a name)
impl Read for GenericDefId {
    fn read(words: &mut Words<'_>) -> Result<GenericDefId, TextError> {
        match LangItemTarget::read(words)? {
            LangItemTarget::StructId(id) => Ok(GenericDefId::AdtId(AdtId::StructId(id))),
            LangItemTarget::UnionId(id) => Ok(GenericDefId::AdtId(AdtId::UnionId(id))),
            LangItemTarget::EnumId(id) => Ok(GenericDefId::AdtId(AdtId::EnumId(id))),
            LangItemTarget::ConstId(id) => Ok(GenericDefId::ConstId(id)),
            LangItemTarget::FunctionId(id) => Ok(GenericDefId::FunctionId(id)),
            LangItemTarget::ImplId(id) => Ok(GenericDefId::ImplId(id)),
            LangItemTarget::StaticId(id) => Ok(GenericDefId::StaticId(id)),
            LangItemTarget::TraitId(id) => Ok(GenericDefId::TraitId(id)),
            LangItemTarget::TypeAliasId(id) => Ok(GenericDefId::TypeAliasId(id)),
            LangItemTarget::EnumVariantId(_) => Err(TextError::Syntax),
            LangItemTarget::MacroId(_macro_id) => Err(TextError::Syntax),
        }
    }
}

impl Read for DefWithBodyId {
    fn read(words: &mut Words<'_>) -> Result<DefWithBodyId, TextError> {
        match LangItemTarget::read(words)? {
            LangItemTarget::FunctionId(id) => Ok(DefWithBodyId::FunctionId(id)),
            LangItemTarget::StaticId(id) => Ok(DefWithBodyId::StaticId(id)),
            LangItemTarget::ConstId(id) => Ok(DefWithBodyId::ConstId(id)),
            LangItemTarget::EnumVariantId(id) => Ok(DefWithBodyId::VariantId(id)),
            LangItemTarget::StructId(_)
            | LangItemTarget::UnionId(_)
            | LangItemTarget::EnumId(_)
            | LangItemTarget::TraitId(_)
            | LangItemTarget::ImplId(_)
            | LangItemTarget::TypeAliasId(_) => Err(TextError::Syntax),
            LangItemTarget::MacroId(_macro_id) => Err(TextError::Syntax),
        }
    }
}

impl Read for VariantId {
    fn read(words: &mut Words<'_>) -> Result<VariantId, TextError> {
        match LangItemTarget::read(words)? {
            LangItemTarget::EnumVariantId(id) => Ok(VariantId::EnumVariantId(id)),
            LangItemTarget::StructId(id) => Ok(VariantId::StructId(id)),
            LangItemTarget::UnionId(id) => Ok(VariantId::UnionId(id)),
            LangItemTarget::FunctionId(_)
            | LangItemTarget::StaticId(_)
            | LangItemTarget::ConstId(_)
            | LangItemTarget::EnumId(_)
            | LangItemTarget::TraitId(_)
            | LangItemTarget::ImplId(_)
            | LangItemTarget::TypeAliasId(_) => Err(TextError::Syntax),
            LangItemTarget::MacroId(_macro_id) => Err(TextError::Syntax),
        }
    }
}

impl Read for NamedDef {
    fn read(words: &mut Words<'_>) -> Result<NamedDef, TextError> {
        match LangItemTarget::read(words)? {
            LangItemTarget::EnumId(id) => Ok(NamedDef::EnumId(id)),
            LangItemTarget::FunctionId(id) => Ok(NamedDef::FunctionId(id)),
            LangItemTarget::StaticId(id) => Ok(NamedDef::StaticId(id)),
            LangItemTarget::StructId(id) => Ok(NamedDef::StructId(id)),
            LangItemTarget::UnionId(id) => Ok(NamedDef::UnionId(id)),
            LangItemTarget::TypeAliasId(id) => Ok(NamedDef::TypeAliasId(id)),
            LangItemTarget::TraitId(id) => Ok(NamedDef::TraitId(id)),
            LangItemTarget::EnumVariantId(id) => Ok(NamedDef::EnumVariantId(id)),
            LangItemTarget::ConstId(id) => Ok(NamedDef::ConstId(id)),
            LangItemTarget::MacroId(id) => Ok(NamedDef::MacroId(id)),
            LangItemTarget::ImplId(_) => Err(TextError::Syntax),
        }
    }
}

/// Whose store it is: `body`, `signature` or `fields`, and the definition.
impl Read for ExpressionStoreOwnerId {
    fn read(words: &mut Words<'_>) -> Result<ExpressionStoreOwnerId, TextError> {
        Ok(match words.keyword() {
            "body" => ExpressionStoreOwnerId::Body(next(words)?),
            "signature" => ExpressionStoreOwnerId::Signature(next(words)?),
            "fields" => ExpressionStoreOwnerId::VariantFields(next(words)?),
            _ => return Err(TextError::Syntax),
        })
    }
}

/// A definition and the number of its parameter.
impl Read for TypeParamId {
    fn read(words: &mut Words<'_>) -> Result<TypeParamId, TextError> {
        let parent = GenericDefId::read(words)?;
        let local_id = next(words)?;
        Ok(TypeParamId::from_unchecked(TypeOrConstParamId { parent, local_id }))
    }
}

impl Read for LifetimeParamId {
    fn read(words: &mut Words<'_>) -> Result<LifetimeParamId, TextError> {
        let parent = GenericDefId::read(words)?;
        let local_id = next(words)?;
        Ok(LifetimeParamId { parent, local_id })
    }
}

impl Write for LangItemTarget {
    fn write(&self, answer: &mut Answer) -> Result<(), AllocError> {
        answer.join_shown(self)
    }
}

impl Write for GenericDefId {
    fn write(&self, answer: &mut Answer) -> Result<(), AllocError> {
        answer.join_shown(self)
    }
}

impl Write for VariantId {
    fn write(&self, answer: &mut Answer) -> Result<(), AllocError> {
        answer.join_shown(self)
    }
}
