//! What waits for the next body, signature or fields: parameters, `self` and its source, generic parameters,
//! predicates and fields.

use hir_base::{InFile, LifetimeParamKind, SelfParamPtr, TypeOrConstParamKind};
use hir_collections::{Arena, Idx, Seq, TryClone};
use hir_defs::{
    FieldData, GenericParams, LifetimeParamData, Param, TypeOrConstParamData, WherePredicate,
};
use hir_node::{BindingId, PatId};
use hir_text_nodes::{TextError, Words, next, next_where, next_where_lifetime, opt_next};
use hir_text_store::done;
use std::alloc::Global;
use std::mem;

/// A part of the next body, signature or fields.
#[derive(Drop)]
pub enum Part {
    Param(Param<PatId>),
    SelfParam(Param<BindingId>),
    SelfSource(InFile<SelfParamPtr>),
    TypeOrConst(TypeOrConstParamData),
    Lifetime(LifetimeParamData),
    Predicate(WherePredicate),
    Field(FieldData),
}

/// Takes a parameter: the formal, and what the user wrote, which is the same where it is left out.
fn next_param<K>(words: &mut Words<'_>) -> Result<Param<Idx<K>>, TextError> {
    let formal: u32 = next(words)?;
    let user_written = opt_next(words)?.unwrap_or(formal);
    Ok(Param {
        formal: Idx::from_raw(formal),
        user_written: Idx::from_raw(user_written),
    })
}

impl Part {
    /// Reads a part, after the first word of its line; `None` where no such line begins with it.
    pub fn read(word: &str, words: &mut Words<'_>) -> Result<Option<Part>, TextError> {
        Ok(Some(match word {
            "param" => Part::Param(next_param(words)?),
            "self" => Part::SelfParam(next_param(words)?),
            "self-source" => Part::SelfSource(next(words)?),
            "type-param" => { Part::TypeOrConst(TypeOrConstParamData::TypeParamData(next(words)?)) }
            "const-param" => {
                Part::TypeOrConst(TypeOrConstParamData::ConstParamData(next(words)?))
            }
            "lifetime-param" => Part::Lifetime(next(words)?),
            "where" => Part::Predicate(next_where(words)?),
            "where-lifetime" => Part::Predicate(next_where_lifetime(words)?),
            "field" => Part::Field(next(words)?),
            _ => return Ok(None),
        }))
    }
}

/// What waits for the next body, signature or fields.
#[derive(Drop)]
pub struct Pending {
    pub(crate) params: Seq<Param<PatId>>,
    pub(crate) self_param: Option<Param<BindingId>>,
    pub(crate) self_source: Option<InFile<SelfParamPtr>>,
    type_or_consts: Arena<TypeOrConstParamKind, TypeOrConstParamData>,
    lifetimes: Arena<LifetimeParamKind, LifetimeParamData>,
    predicates: Seq<WherePredicate>,
    pub(crate) fields: Seq<FieldData>,
}

impl Pending {
    /// Returns that nothing waits.
    pub fn new(alloc: Global) -> Pending {
        Pending {
            params: Seq::new(alloc),
            self_param: None,
            self_source: None,
            type_or_consts: Arena::new(alloc),
            lifetimes: Arena::new(alloc),
            predicates: Seq::new(alloc),
            fields: Seq::new(alloc),
        }
    }

    /// Lets a part wait.
    pub fn add(&mut self, part: Part) -> Result<(), TextError> {
        match part {
            Part::Param(param) => done(self.params.push(param)),
            Part::SelfParam(param) => {
                self.self_param = Some(param);
                Ok(())
            }
            Part::SelfSource(source) => {
                self.self_source = Some(source);
                Ok(())
            }
            Part::TypeOrConst(param) => done(self.type_or_consts.alloc(param)),
            Part::Lifetime(param) => done(self.lifetimes.alloc(param)),
            Part::Predicate(predicate) => done(self.predicates.push(predicate)),
            Part::Field(field) => done(self.fields.push(field)),
        }
    }

    /// Takes the generic parameters and the predicates.
    pub(crate) fn take_generics(&mut self, alloc: Global) -> GenericParams {
        let type_or_consts = mem::replace(&mut self.type_or_consts, Arena::new(alloc));
        let lifetimes = mem::replace(&mut self.lifetimes, Arena::new(alloc));
        let predicates = mem::replace(&mut self.predicates, Seq::new(alloc));
        GenericParams::new(type_or_consts, lifetimes, predicates)
    }

    /// Lets the generic parameters of a signature that was refused wait again.
    pub(crate) fn put_back_generics(&mut self, generics: &GenericParams) -> Result<(), TextError> {
        for (_, param) in generics.iter_type_or_consts() {
            let _ = self.type_or_consts.alloc(param.try_clone()?)?;
        }
        for (_, lifetime) in generics.iter_lt() {
            let _ = self.lifetimes.alloc(lifetime.try_clone()?)?;
        }
        for predicate in generics.where_predicates() {
            self.predicates.push(predicate.try_clone()?)?;
        }
        Ok(())
    }
}
