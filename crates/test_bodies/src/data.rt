//! Generic parameters one by one: types, constants and lifetimes, owned and borrowed.
use crate::memory::{copies, in_a_box};
use crate::params::{constant, lifetime, type_from};
use hir_base::Name;
use hir_collections::Idx;
use hir_node::ConstRef;
use hir_signature::{
    ConstParamData, GenericParamData, GenericParamDataRef, LifetimeBoundType, LifetimeParamData,
    TypeOrConstParamData, TypeParamData, TypeParamProvenance,
};
use std::alloc::{AllocError, Global};
use std::test::Fail;

fn is_named(name: Option<&Name>, text: &str) -> bool {
    match name {
        Some(name) => name.as_str() == text,
        None => false,
    }
}

/// Whether it is named so, is a type, is a constant, has a default, and is the `Self` of a trait.
fn answers(param: TypeOrConstParamData, text: &str) -> [bool; 5] {
    [
        is_named(param.name(), text),
        param.type_param().is_some(),
        param.const_param().is_some(),
        param.has_default(),
        param.is_trait_self(),
    ]
}

/// Whether this is a type.
fn is_type(param: GenericParamDataRef<'_>) -> bool {
    match param {
        GenericParamDataRef::TypeParamData(_) => true,
        GenericParamDataRef::ConstParamData(_) | GenericParamDataRef::LifetimeParamData(_) => false,
    }
}

/// Whether what borrows it is a type; the second time a copy of it is asked.
fn is_borrowed(data: TypeParamData) -> bool {
    let borrowed = GenericParamDataRef::TypeParamData(&data);
    is_type(borrowed) && is_type(borrowed)
}

/// The type `T`.
fn type_t(alloc: Global) -> Result<TypeParamData, AllocError> {
    type_from(alloc, "T", TypeParamProvenance::TypeParamList)
}

#[test]
fn a_type(rt: HostRuntime) -> Result<(), Fail> {
    let a = rt.alloc();
    let is_borrowed = is_borrowed(type_t(a)?);
    let answers = answers(TypeOrConstParamData::from(type_t(a)?), "T");
    let copied = copies(TypeOrConstParamData::from(type_t(a)?))?;
    assert!(&rt; is_borrowed && copied);
    assert!(&rt; answers == [true, true, false, false, false]);
    Ok(())
}

/// The constant `N`, with a default.
fn constant_n(alloc: Global) -> Result<ConstParamData, AllocError> {
    let expr = Idx::from_raw(0);
    constant(alloc, "N", Some(ConstRef { expr }))
}

#[test]
fn a_constant_with_a_default(rt: HostRuntime) -> Result<(), Fail> {
    let a = rt.alloc();
    let copied = copies(constant_n(a)?)?;
    let answers = answers(TypeOrConstParamData::from(constant_n(a)?), "N");
    assert!(&rt; answers == [true, false, true, true, false]);
    assert!(&rt; copied);
    Ok(())
}

/// Whether it is named so, is a type, is a constant, and is a lifetime.
fn any_answers(param: &GenericParamData, text: &str) -> [bool; 4] {
    [
        is_named(param.name(), text),
        param.type_param().is_some(),
        param.const_param().is_some(),
        param.lifetime_param().is_some(),
    ]
}

/// What the type `T` and the constant `N` answer, and whether they differ.
fn of_both(alloc: Global) -> Result<([bool; 4], [bool; 4], bool), AllocError> {
    let ty = in_a_box(alloc, GenericParamData::from(type_t(alloc)?))?;
    let constant = GenericParamData::from(constant(alloc, "N", None)?);
    Ok((
        any_answers(&ty, "T"),
        any_answers(&constant, "N"),
        constant != *ty,
    ))
}

#[test]
fn any_type_or_constant(rt: HostRuntime) -> Result<(), Fail> {
    let (of_type, of_constant, differ) = of_both(rt.alloc())?;
    assert!(&rt; of_type == [true, true, false, false] && differ);
    assert!(&rt; of_constant == [true, false, true, false]);
    Ok(())
}

/// Whether it is late bound, and not early bound; and what it returns as any parameter.
fn of_late(data: LifetimeParamData) -> (bool, [bool; 4]) {
    let is_late = data.is_late_bound() && !data.is_early_bound();
    (is_late, any_answers(&GenericParamData::from(data), "'a"))
}

#[test]
fn any_lifetime(rt: HostRuntime) -> Result<(), Fail> {
    let a = rt.alloc();
    let answered = of_late(lifetime(a, "'a", LifetimeBoundType::LateBound)?);
    let data = lifetime(a, "'a", LifetimeBoundType::LateBound)?;
    let copied = copies(GenericParamData::from(data))?;
    assert!(&rt; answered == (true, [true, false, false, true]));
    assert!(&rt; copied);
    Ok(())
}
