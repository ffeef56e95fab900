//! A generic parameter of any kind: owned, or borrowed.
ghost use Rattle.std.specs.Prelude.{◌≡◌};
ghost use Rattle.std.specs.Option.{option_copied};
ghost use Rattle.hir_collections.specs.Exact.{exact};

use crate::param_data::{ConstParamData, LifetimeParamData, TypeParamData, TypeParamProvenance};
use hir_base::Name;
use hir_collections::{ExactEq, TryClone};

/// A parameter that is a type or a constant.
#[derive(Drop, Clone, PartialEq, Eq, Hash)]
pub enum TypeOrConstParamData {
    TypeParamData(TypeParamData),
    ConstParamData(ConstParamData),
}

impl TypeOrConstParamData {
    ghost use Rattle.hir_signature.specs.Params.{name_of, has_default, type_of, const_of, is_trait_self};

    /// Its name, if it has one.
    pub fn name(&self) -> Option<&Name>
        ensures { option_copied result ≡ name_of self.now }
    {
        match self {
            TypeOrConstParamData::TypeParamData(param) => param.name.as_ref(),
            TypeOrConstParamData::ConstParamData(param) => Some(&param.name),
        }
    }

    /// Returns whether it has a default.
    pub fn has_default(&self) -> bool
        ensures { result ≡ has_default self.now }
    {
        match self {
            TypeOrConstParamData::TypeParamData(param) => param.default.is_some(),
            TypeOrConstParamData::ConstParamData(param) => param.default.is_some(),
        }
    }

    /// Returns the type parameter, if it is one.
    pub fn type_param(&self) -> Option<&TypeParamData>
        ensures { option_copied result ≡ type_of self.now }
    {
        match self {
            TypeOrConstParamData::TypeParamData(param) => Some(param),
            TypeOrConstParamData::ConstParamData(_) => None,
        }
    }

    /// Returns the constant parameter, if it is one.
    pub fn const_param(&self) -> Option<&ConstParamData>
        ensures { option_copied result ≡ const_of self.now }
    {
        match self {
            TypeOrConstParamData::TypeParamData(_) => None,
            TypeOrConstParamData::ConstParamData(param) => Some(param),
        }
    }

    /// Returns whether it is the `Self` of a trait.
    pub fn is_trait_self(&self) -> bool
        ensures { result ≡ is_trait_self self.now }
    {
        match self {
            TypeOrConstParamData::TypeParamData(param) => match param.provenance {
                TypeParamProvenance::TraitSelf => true,
                TypeParamProvenance::TypeParamList | TypeParamProvenance::ArgumentImplTrait => {
                    false
                }
            },
            TypeOrConstParamData::ConstParamData(_) => false,
        }
    }
}

/// The type parameter.
impl From<TypeParamData> for TypeOrConstParamData {
    ghost use Rattle.hir_signature.specs.declared.any_param.TypeOrConstParamData.TheVariants.{TypeParamData as of_type};

    ghost from_gives = { λ given param. param ≡ of_type given };

    fn from(given: TypeParamData) -> TypeOrConstParamData {
        TypeOrConstParamData::TypeParamData(given)
    }
}

/// The constant parameter.
impl From<ConstParamData> for TypeOrConstParamData {
    ghost use Rattle.hir_signature.specs.declared.any_param.TypeOrConstParamData.TheVariants.{ConstParamData as of_const};

    ghost from_gives = { λ given param. param ≡ of_const given };

    fn from(given: ConstParamData) -> TypeOrConstParamData {
        TypeOrConstParamData::ConstParamData(given)
    }
}

impl ExactEq for TypeOrConstParamData {
    ghost use Rattle.hir_signature.specs.same.SameParams.{kinds};

    ghost eq_decides = { Prim.search kinds };
}

impl TryClone for TypeOrConstParamData {
    ghost clone_is_same = { Prim.search exact };
}

/// A parameter that is a type, a constant or a lifetime.
#[derive(Drop, Clone, PartialEq, Eq, Hash)]
pub enum GenericParamData {
    TypeParamData(TypeParamData),
    ConstParamData(ConstParamData),
    LifetimeParamData(LifetimeParamData),
}

impl GenericParamData {
    ghost use Rattle.hir_signature.specs.Params.{any_name_of, any_type_of, any_const_of, any_lifetime_of};

    /// Its name, if it has one.
    pub fn name(&self) -> Option<&Name>
        ensures { option_copied result ≡ any_name_of self.now }
    {
        match self {
            GenericParamData::TypeParamData(param) => param.name.as_ref(),
            GenericParamData::ConstParamData(param) => Some(&param.name),
            GenericParamData::LifetimeParamData(param) => Some(&param.name),
        }
    }

    /// Returns the type parameter, if it is one.
    pub fn type_param(&self) -> Option<&TypeParamData>
        ensures { option_copied result ≡ any_type_of self.now }
    {
        match self {
            GenericParamData::TypeParamData(param) => Some(param),
            GenericParamData::ConstParamData(_) | GenericParamData::LifetimeParamData(_) => None,
        }
    }

    /// Returns the constant parameter, if it is one.
    pub fn const_param(&self) -> Option<&ConstParamData>
        ensures { option_copied result ≡ any_const_of self.now }
    {
        match self {
            GenericParamData::ConstParamData(param) => Some(param),
            GenericParamData::TypeParamData(_) | GenericParamData::LifetimeParamData(_) => None,
        }
    }

    /// Returns the lifetime parameter, if it is one.
    pub fn lifetime_param(&self) -> Option<&LifetimeParamData>
        ensures { option_copied result ≡ any_lifetime_of self.now }
    {
        match self {
            GenericParamData::LifetimeParamData(param) => Some(param),
            GenericParamData::TypeParamData(_) | GenericParamData::ConstParamData(_) => None,
        }
    }
}

/// The type parameter.
impl From<TypeParamData> for GenericParamData {
    ghost use Rattle.hir_signature.specs.declared.any_param.GenericParamData.TheVariants.{TypeParamData as of_type};

    ghost from_gives = { λ given param. param ≡ of_type given };

    fn from(given: TypeParamData) -> GenericParamData {
        GenericParamData::TypeParamData(given)
    }
}

/// The constant parameter.
impl From<ConstParamData> for GenericParamData {
    ghost use Rattle.hir_signature.specs.declared.any_param.GenericParamData.TheVariants.{ConstParamData as of_const};

    ghost from_gives = { λ given param. param ≡ of_const given };

    fn from(given: ConstParamData) -> GenericParamData {
        GenericParamData::ConstParamData(given)
    }
}

/// The lifetime parameter.
impl From<LifetimeParamData> for GenericParamData {
    ghost use Rattle.hir_signature.specs.declared.any_param.GenericParamData.TheVariants.{LifetimeParamData as of_lifetime};

    ghost from_gives = { λ given param. param ≡ of_lifetime given };

    fn from(given: LifetimeParamData) -> GenericParamData {
        GenericParamData::LifetimeParamData(given)
    }
}

impl ExactEq for GenericParamData {
    ghost use Rattle.hir_signature.specs.same.SameParams.{kinds};

    ghost eq_decides = { Prim.search kinds };
}

impl TryClone for GenericParamData {
    ghost clone_is_same = { Prim.search exact };
}

/// A borrowed parameter that is a type, a constant or a lifetime.
#[derive(Clone, Copy)]
pub enum GenericParamDataRef<'a> {
    TypeParamData(&'a TypeParamData),
    ConstParamData(&'a ConstParamData),
    LifetimeParamData(&'a LifetimeParamData),
}
