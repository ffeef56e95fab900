//! Generic parameters for the tests, written as what each of their three lists has.
use crate::memory::{NodeForm, arena, in_a_box, list, push};
use hir_base::Name;
use hir_collections::{Idx, Seq};
use hir_node::{ConstRef, PathId, TraitBoundModifier, TypeBound};
use hir_signature::{
    ConstParamData, GenericParams, LifetimeBoundType, LifetimeParamData, TypeOrConstParamData,
    TypeParamData, TypeParamProvenance, WherePredicate,
};
use std::alloc::{AllocError, Global};
use std::test::Fail;

/// A type or a constant.
pub enum Entry {
    /// A type of this name, written in a list.
    Type(&'static str),
    /// The type `Self` of a trait.
    TraitSelf,
    /// A constant of this name, without a default.
    Constant(&'static str),
}

/// A lifetime of this name.
pub enum LifetimeOf {
    Early(&'static str),
    Late(&'static str),
}

/// A predicate.
pub enum Predicate {
    /// The predicate of `meets`.
    Meets,
    /// That of `meets_for_a`.
    MeetsForA,
    /// That of `outlives`.
    Outlives,
}

/// What parameters and predicates there are.
pub struct ParamLists {
    pub types: &'static [Entry],
    pub lifetimes: &'static [LifetimeOf],
    pub predicates: &'static [Predicate],
}

/// A type of this name that comes from there, without a default.
pub fn type_from(
    alloc: Global,
    text: &str,
    provenance: TypeParamProvenance,
) -> Result<TypeParamData, AllocError> {
    let name = Name::new(alloc, text)?;
    Ok(TypeParamData {
        name: Some(name),
        default: None,
        provenance,
    })
}

/// A constant of this name and of type 4, with this default.
pub fn constant(
    alloc: Global,
    text: &str,
    default: Option<ConstRef>,
) -> Result<ConstParamData, AllocError> {
    let name = Name::new(alloc, text)?;
    Ok(ConstParamData {
        name,
        ty: Idx::from_raw(4),
        default,
    })
}

/// A lifetime of this name that is bound so.
pub fn lifetime(
    alloc: Global,
    text: &str,
    bound_type: LifetimeBoundType,
) -> Result<LifetimeParamData, AllocError> {
    let name = Name::new(alloc, text)?;
    Ok(LifetimeParamData { name, bound_type })
}

/// Type 0 has the bound of the path that this type is, after `for` these lifetimes.
fn type_0_meets(lifetimes: Option<Seq<Name>>, path: u32) -> WherePredicate {
    let path = PathId::from_type_ref_unchecked(Idx::from_raw(path));
    WherePredicate::TypeBound {
        lifetimes,
        target: Idx::from_raw(0),
        bound: TypeBound::Path(path, TraitBoundModifier::None),
    }
}

/// Type 0 has the bound of the path that it is.
fn meets() -> WherePredicate {
    type_0_meets(None, 0)
}

/// Type 0 has the bound of the path that type 1 is, after `for<'a>`.
pub fn meets_for_a(alloc: Global) -> Result<WherePredicate, AllocError> {
    let name = Name::new(alloc, "'a")?;
    let mut lifetimes = Seq::new(alloc);
    push(&mut lifetimes, name)?;
    Ok(type_0_meets(Some(lifetimes), 1))
}

/// Lifetime 0 outlives lifetime 1.
fn outlives() -> WherePredicate {
    WherePredicate::Lifetime {
        target: Idx::from_raw(0),
        bound: Idx::from_raw(1),
    }
}

impl NodeForm<TypeOrConstParamData> for Entry {
    fn make(&self, alloc: Global) -> Result<TypeOrConstParamData, AllocError> {
        let (text, provenance) = match self {
            Entry::Type(text) => (*text, TypeParamProvenance::TypeParamList),
            Entry::TraitSelf => ("Self", TypeParamProvenance::TraitSelf),
            Entry::Constant(text) => {
                let made = constant(alloc, text, None)?;
                return Ok(TypeOrConstParamData::from(made));
            }
        };
        let made = type_from(alloc, text, provenance)?;
        Ok(TypeOrConstParamData::from(made))
    }
}

impl NodeForm<LifetimeParamData> for LifetimeOf {
    fn make(&self, alloc: Global) -> Result<LifetimeParamData, AllocError> {
        match self {
            LifetimeOf::Early(text) => lifetime(alloc, text, LifetimeBoundType::EarlyBound),
            LifetimeOf::Late(text) => lifetime(alloc, text, LifetimeBoundType::LateBound),
        }
    }
}

impl NodeForm<WherePredicate> for Predicate {
    fn make(&self, alloc: Global) -> Result<WherePredicate, AllocError> {
        match self {
            Predicate::Meets => Ok(meets()),
            Predicate::MeetsForA => meets_for_a(alloc),
            Predicate::Outlives => Ok(outlives()),
        }
    }
}

/// The parameters and predicates of these lists. In a box, so that what a test drops is a pointer; so are the
/// lists.
pub fn make_params(alloc: Global, listed: &ParamLists) -> Result<Box<GenericParams>, Fail> {
    let types = arena(alloc, listed.types)?;
    let lifetimes = arena(alloc, listed.lifetimes)?;
    let predicates = list(alloc, listed.predicates)?;
    let params = GenericParams::new(
        Box::into_inner(types),
        Box::into_inner(lifetimes),
        Box::into_inner(predicates),
    );
    Ok(in_a_box(alloc, params)?)
}
