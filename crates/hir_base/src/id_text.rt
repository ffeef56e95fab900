//! The texts of enums of ids, of parameters and of hygiene, by `Display` and by `Debug` alike.
//! An enum of ids has the text of the id that it holds, the kind and the number, as `FunctionId(7)`.
ghost use Rattle.std.specs.Prelude.{codes, Some};
ghost use Rattle.hir_base.specs.IdTexts.{adt_text, generic_text, body_text, fields_text, owner_text, macro_text, lang_text, named_text, type_or_const_param_text, lifetime_param_text, context_text};

use crate::defs::{
    AdtId, DefWithBodyId, ExpressionStoreOwnerId, GenericDefId, LangItemTarget, MacroId, NamedDef,
    VariantId,
};
use crate::hygiene::{HygieneId, SyntaxContext};
use crate::params::{ConstParamId, LifetimeParamId, TypeOrConstParamId, TypeParamId};
use std::fmt::{self, Debug, Display};

impl Display for AdtId {
    ghost output = { λ id. Some (adt_text id) };

    fn fmt<W: fmt::Write>(&self, f: &mut fmt::Formatter<W>) -> fmt::Result {
        match self {
            AdtId::StructId(id) => Display::fmt(id, f),
            AdtId::UnionId(id) => Display::fmt(id, f),
            AdtId::EnumId(id) => Display::fmt(id, f),
        }
    }
}

impl Debug for AdtId {
    ghost debug_output = { λ id. Some (adt_text id) };

    fn fmt<W: fmt::Write>(&self, f: &mut fmt::Formatter<W>) -> fmt::Result {
        Display::fmt(self, f)
    }
}

impl Display for GenericDefId {
    ghost output = { λ id. Some (generic_text id) };

    fn fmt<W: fmt::Write>(&self, f: &mut fmt::Formatter<W>) -> fmt::Result {
        match self {
            GenericDefId::AdtId(id) => Display::fmt(id, f),
            GenericDefId::ConstId(id) => Display::fmt(id, f),
            GenericDefId::FunctionId(id) => Display::fmt(id, f),
            GenericDefId::ImplId(id) => Display::fmt(id, f),
            GenericDefId::StaticId(id) => Display::fmt(id, f),
            GenericDefId::TraitId(id) => Display::fmt(id, f),
            GenericDefId::TypeAliasId(id) => Display::fmt(id, f),
        }
    }
}

impl Debug for GenericDefId {
    ghost debug_output = { λ id. Some (generic_text id) };

    fn fmt<W: fmt::Write>(&self, f: &mut fmt::Formatter<W>) -> fmt::Result {
        Display::fmt(self, f)
    }
}

impl Display for DefWithBodyId {
    ghost output = { λ id. Some (body_text id) };

    fn fmt<W: fmt::Write>(&self, f: &mut fmt::Formatter<W>) -> fmt::Result {
        match self {
            DefWithBodyId::FunctionId(id) => Display::fmt(id, f),
            DefWithBodyId::StaticId(id) => Display::fmt(id, f),
            DefWithBodyId::ConstId(id) => Display::fmt(id, f),
            DefWithBodyId::VariantId(id) => Display::fmt(id, f),
        }
    }
}

impl Debug for DefWithBodyId {
    ghost debug_output = { λ id. Some (body_text id) };

    fn fmt<W: fmt::Write>(&self, f: &mut fmt::Formatter<W>) -> fmt::Result {
        Display::fmt(self, f)
    }
}

impl Display for VariantId {
    ghost output = { λ id. Some (fields_text id) };

    fn fmt<W: fmt::Write>(&self, f: &mut fmt::Formatter<W>) -> fmt::Result {
        match self {
            VariantId::EnumVariantId(id) => Display::fmt(id, f),
            VariantId::StructId(id) => Display::fmt(id, f),
            VariantId::UnionId(id) => Display::fmt(id, f),
        }
    }
}

impl Debug for VariantId {
    ghost debug_output = { λ id. Some (fields_text id) };

    fn fmt<W: fmt::Write>(&self, f: &mut fmt::Formatter<W>) -> fmt::Result {
        Display::fmt(self, f)
    }
}

impl Display for MacroId {
    ghost output = { λ id. Some (macro_text id) };

    fn fmt<W: fmt::Write>(&self, f: &mut fmt::Formatter<W>) -> fmt::Result {
        match self {
            MacroId::Macro2Id(id) => Display::fmt(id, f),
            MacroId::MacroRulesId(id) => Display::fmt(id, f),
            MacroId::ProcMacroId(id) => Display::fmt(id, f),
        }
    }
}

impl Debug for MacroId {
    ghost debug_output = { λ id. Some (macro_text id) };

    fn fmt<W: fmt::Write>(&self, f: &mut fmt::Formatter<W>) -> fmt::Result {
        Display::fmt(self, f)
    }
}

impl Display for LangItemTarget {
    ghost output = { λ id. Some (lang_text id) };

    fn fmt<W: fmt::Write>(&self, f: &mut fmt::Formatter<W>) -> fmt::Result {
        match self {
            LangItemTarget::ImplId(id) => Display::fmt(id, f),
            LangItemTarget::EnumId(id) => Display::fmt(id, f),
            LangItemTarget::FunctionId(id) => Display::fmt(id, f),
            LangItemTarget::StaticId(id) => Display::fmt(id, f),
            LangItemTarget::StructId(id) => Display::fmt(id, f),
            LangItemTarget::UnionId(id) => Display::fmt(id, f),
            LangItemTarget::TypeAliasId(id) => Display::fmt(id, f),
            LangItemTarget::TraitId(id) => Display::fmt(id, f),
            LangItemTarget::EnumVariantId(id) => Display::fmt(id, f),
            LangItemTarget::ConstId(id) => Display::fmt(id, f),
            LangItemTarget::MacroId(id) => Display::fmt(id, f),
        }
    }
}

impl Debug for LangItemTarget {
    ghost debug_output = { λ id. Some (lang_text id) };

    fn fmt<W: fmt::Write>(&self, f: &mut fmt::Formatter<W>) -> fmt::Result {
        Display::fmt(self, f)
    }
}

impl Display for NamedDef {
    ghost output = { λ id. Some (named_text id) };

    fn fmt<W: fmt::Write>(&self, f: &mut fmt::Formatter<W>) -> fmt::Result {
        match self {
            NamedDef::EnumId(id) => Display::fmt(id, f),
            NamedDef::FunctionId(id) => Display::fmt(id, f),
            NamedDef::StaticId(id) => Display::fmt(id, f),
            NamedDef::StructId(id) => Display::fmt(id, f),
            NamedDef::UnionId(id) => Display::fmt(id, f),
            NamedDef::TypeAliasId(id) => Display::fmt(id, f),
            NamedDef::TraitId(id) => Display::fmt(id, f),
            NamedDef::EnumVariantId(id) => Display::fmt(id, f),
            NamedDef::ConstId(id) => Display::fmt(id, f),
            NamedDef::MacroId(id) => Display::fmt(id, f),
        }
    }
}

impl Debug for NamedDef {
    ghost debug_output = { λ id. Some (named_text id) };

    fn fmt<W: fmt::Write>(&self, f: &mut fmt::Formatter<W>) -> fmt::Result {
        Display::fmt(self, f)
    }
}

/// Writes which part of a definition it is, and the definition, as `Signature(FunctionId(7))`.
impl Display for ExpressionStoreOwnerId {
    ghost output = { λ owner. Some (owner_text owner) };

    fn fmt<W: fmt::Write>(&self, f: &mut fmt::Formatter<W>) -> fmt::Result {
        match self {
            ExpressionStoreOwnerId::Signature(id) => write!(f, "Signature({id})"),
            ExpressionStoreOwnerId::Body(id) => write!(f, "Body({id})"),
            ExpressionStoreOwnerId::VariantFields(id) => write!(f, "VariantFields({id})"),
        }
    }
}

impl Debug for ExpressionStoreOwnerId {
    ghost debug_output = { λ owner. Some (owner_text owner) };

    fn fmt<W: fmt::Write>(&self, f: &mut fmt::Formatter<W>) -> fmt::Result {
        Display::fmt(self, f)
    }
}

/// Writes the parent and the number among its parameters, as `TypeOrConstParamId(FunctionId(7), 0)`.
impl Display for TypeOrConstParamId {
    ghost output = { λ id. Some (type_or_const_param_text (codes "TypeOrConstParamId") id) };

    fn fmt<W: fmt::Write>(&self, f: &mut fmt::Formatter<W>) -> fmt::Result {
        let parent = &self.parent;
        let number = self.local_id.into_raw();
        write!(f, "TypeOrConstParamId({parent}, {number})")
    }
}

impl Debug for TypeOrConstParamId {
    ghost debug_output = { λ id. Some (type_or_const_param_text (codes "TypeOrConstParamId") id) };

    fn fmt<W: fmt::Write>(&self, f: &mut fmt::Formatter<W>) -> fmt::Result {
        Display::fmt(self, f)
    }
}

/// Writes the parent and the number among its parameters, as `LifetimeParamId(FunctionId(7), 0)`.
impl Display for LifetimeParamId {
    ghost output = { λ id. Some (lifetime_param_text id) };

    fn fmt<W: fmt::Write>(&self, f: &mut fmt::Formatter<W>) -> fmt::Result {
        let parent = &self.parent;
        let number = self.local_id.into_raw();
        write!(f, "LifetimeParamId({parent}, {number})")
    }
}

impl Debug for LifetimeParamId {
    ghost debug_output = { λ id. Some (lifetime_param_text id) };

    fn fmt<W: fmt::Write>(&self, f: &mut fmt::Formatter<W>) -> fmt::Result {
        Display::fmt(self, f)
    }
}

/// Writes the parent and the number among its parameters, as `TypeParamId(FunctionId(7), 0)`.
impl Display for TypeParamId {
    ghost output = { λ id. Some (type_or_const_param_text (codes "TypeParamId") id) };

    fn fmt<W: fmt::Write>(&self, f: &mut fmt::Formatter<W>) -> fmt::Result {
        let parent = self.parent();
        let number = self.local_id().into_raw();
        write!(f, "TypeParamId({parent}, {number})")
    }
}

impl Debug for TypeParamId {
    ghost debug_output = { λ id. Some (type_or_const_param_text (codes "TypeParamId") id) };

    fn fmt<W: fmt::Write>(&self, f: &mut fmt::Formatter<W>) -> fmt::Result {
        Display::fmt(self, f)
    }
}

/// Writes the parent and the number among its parameters, as `ConstParamId(FunctionId(7), 0)`.
impl Display for ConstParamId {
    ghost output = { λ id. Some (type_or_const_param_text (codes "ConstParamId") id) };

    fn fmt<W: fmt::Write>(&self, f: &mut fmt::Formatter<W>) -> fmt::Result {
        let parent = self.parent();
        let number = self.local_id().into_raw();
        write!(f, "ConstParamId({parent}, {number})")
    }
}

impl Debug for ConstParamId {
    ghost debug_output = { λ id. Some (type_or_const_param_text (codes "ConstParamId") id) };

    fn fmt<W: fmt::Write>(&self, f: &mut fmt::Formatter<W>) -> fmt::Result {
        Display::fmt(self, f)
    }
}

/// Writes the variant and what it holds, as `Root(Edition2015)` and `Expansion(7)`.
impl Display for SyntaxContext {
    ghost output = { λ ctx. Some (context_text ctx) };

    fn fmt<W: fmt::Write>(&self, f: &mut fmt::Formatter<W>) -> fmt::Result {
        match self {
            SyntaxContext::Root(edition) => write!(f, "Root({edition:?})"),
            SyntaxContext::Expansion(number) => write!(f, "Expansion({number})"),
        }
    }
}

impl Debug for SyntaxContext {
    ghost debug_output = { λ ctx. Some (context_text ctx) };

    fn fmt<W: fmt::Write>(&self, f: &mut fmt::Formatter<W>) -> fmt::Result {
        Display::fmt(self, f)
    }
}

/// Writes its context, as `Root(Edition2015)` and `Expansion(7)`.
impl Display for HygieneId {
    ghost output = { λ ctx. Some (context_text ctx) };

    fn fmt<W: fmt::Write>(&self, f: &mut fmt::Formatter<W>) -> fmt::Result {
        let ctx = self.syntax_context();
        Display::fmt(&ctx, f)
    }
}

impl Debug for HygieneId {
    ghost debug_output = { λ ctx. Some (context_text ctx) };

    fn fmt<W: fmt::Write>(&self, f: &mut fmt::Formatter<W>) -> fmt::Result {
        Display::fmt(self, f)
    }
}
