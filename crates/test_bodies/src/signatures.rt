//! Signatures: parts that are refused come back as they were given, and what an accepted signature names is
//! in its store. Each is looked at as soon as it is made, so that a test has small values alone and its proof
//! is short.
use crate::memory::{in_a_box, push};
use crate::params::{self, Entry, ParamLists, Predicate};
use crate::trees::{self, BARE, Never};
use hir_base::{ExternAbi, Name};
use hir_collections::{Idx, Seq};
use hir_node::{TypeRef, TypeRefId};
use hir_signature::{
    FieldData, FieldsShape, FunctionParts, FunctionSignature, PlainParts, PlainSignature,
    RawVisibility, RefusedSignature, SignatureFault, StructParts, StructSignature, VariantFields,
    VariantParts,
};
use std::alloc::{AllocError, Global};
use std::test::Fail;

/// Parts that a signature is made of.
trait Parts<S>: PartialEq + Drop {
    /// The signature of these parts, or why there is none.
    fn sign(self) -> Result<S, RefusedSignature<Self>>;
}

impl Parts<FunctionSignature> for FunctionParts {
    fn sign(self) -> Result<FunctionSignature, RefusedSignature<FunctionParts>> {
        FunctionSignature::new(self)
    }
}

impl Parts<StructSignature> for StructParts {
    fn sign(self) -> Result<StructSignature, RefusedSignature<StructParts>> {
        StructSignature::new(self)
    }
}

impl Parts<PlainSignature> for PlainParts {
    fn sign(self) -> Result<PlainSignature, RefusedSignature<PlainParts>> {
        PlainSignature::new(self)
    }
}

impl Parts<VariantFields> for VariantParts {
    fn sign(self) -> Result<VariantFields, RefusedSignature<VariantParts>> {
        VariantFields::new(self)
    }
}

/// What tests ask of a signature that is accepted. An id that it gives is in its store: nothing is tested
/// first.
trait Named {
    /// Whether each type that it names is `!`.
    fn names_never(&self) -> bool;
}

/// The types of its parameters, and the return type.
impl Named for FunctionSignature {
    fn names_never(&self) -> bool {
        for param in self.params() {
            if self.store()[*param] != TypeRef::Never {
                return false;
            }
        }
        match self.ret_type() {
            Some(ret_type) => self.store()[ret_type] == TypeRef::Never,
            None => true,
        }
    }
}

/// It names none here: a predicate is on a path.
impl Named for PlainSignature {
    fn names_never(&self) -> bool {
        self.generic_params().has_no_predicates()
    }
}

/// It names none here: a predicate is on a path.
impl Named for StructSignature {
    fn names_never(&self) -> bool {
        self.generic_params().has_no_predicates()
    }
}

/// The types of its fields.
impl Named for VariantFields {
    fn names_never(&self) -> bool {
        for field in self.fields() {
            if self.store()[field.type_ref] != TypeRef::Never {
                return false;
            }
        }
        true
    }
}

/// Whether each type that is named is `!`, where the parts are accepted. Else why they are refused, and
/// whether they come back as they were, twice: a refusal is asked for again.
type Outcome = Result<bool, (SignatureFault, bool)>;

/// The outcome of the same call again, for parts that were refused with this fault, and whether they came
/// back as they were. Where an allocation had failed, the second call returns what it returns with enough
/// memory.
fn ask_again<S: Named + Drop, P: Parts<S>>(first: SignatureFault, parts: P, same: &P) -> Outcome {
    let came_back = parts == *same;
    match parts.sign() {
        Ok(signature) => {
            Ok(first == SignatureFault::Memory && came_back && signature.names_never())
        }
        Err(second) => {
            let is_same_fault = first == second.fault || first == SignatureFault::Memory;
            Err((
                second.fault,
                is_same_fault && came_back && second.parts == *same,
            ))
        }
    }
}

/// The outcome of the call for these parts. They are made twice, to be compared where they come back.
fn ask<S: Named + Drop, P: Parts<S>>(parts: Box<P>, same: Box<P>) -> Outcome {
    match Box::into_inner(parts).sign() {
        Ok(signature) => Ok(signature.names_never()),
        Err(refused) => ask_again(refused.fault, refused.parts, &same),
    }
}

/// The type parameter `T`.
const T: ParamLists = ParamLists {
    types: &[Entry::Type("T")],
    lifetimes: &[],
    predicates: &[],
};

/// The type parameter `T`, and that type 0 meets the bound of the path that it is.
const BOUNDED: ParamLists = ParamLists {
    types: &[Entry::Type("T")],
    lifetimes: &[],
    predicates: &[Predicate::Meets],
};

/// The list of type 0.
fn type_0(alloc: Global) -> Result<Seq<TypeRefId>, AllocError> {
    let mut list = Seq::new(alloc);
    push(&mut list, Idx::from_raw(0))?;
    Ok(list)
}

/// One field `x`, of type 0.
fn field_x(alloc: Global) -> Result<Seq<FieldData>, AllocError> {
    let name = Name::new(alloc, "x")?;
    let field = FieldData {
        name,
        type_ref: Idx::from_raw(0),
        visibility: RawVisibility::Public,
        is_unsafe: false,
        default_value: None,
    };
    let mut fields = Seq::new(alloc);
    push(&mut fields, field)?;
    Ok(fields)
}

/// `const unsafe extern "C" fn f<T>(..) -> ..`, with one parameter of type 0, which it returns, over these
/// types.
fn function(alloc: Global, types: &[Never]) -> Result<Box<FunctionParts>, Fail> {
    let generic_params = params::make_params(alloc, &T)?;
    let store = trees::store(alloc, types, &BARE)?;
    let name = Name::new(alloc, "f")?;
    let params = type_0(alloc)?;
    let parts = FunctionParts {
        name,
        generic_params: Box::into_inner(generic_params),
        store: Box::into_inner(store),
        params,
        ret_type: Some(Idx::from_raw(0)),
        abi: ExternAbi::C,
        is_const: true,
        is_async: false,
        is_unsafe: true,
        is_explicit_safe: false,
        legacy_const_indices: None,
    };
    Ok(in_a_box(alloc, parts)?)
}

/// `#[fundamental] struct S<T>(..)`, with these parameters, over these types.
fn structure(
    alloc: Global,
    params: &ParamLists,
    types: &[Never],
) -> Result<Box<StructParts>, Fail> {
    let generic_params = params::make_params(alloc, params)?;
    let store = trees::store(alloc, types, &BARE)?;
    let name = Name::new(alloc, "S")?;
    let parts = StructParts {
        name,
        generic_params: Box::into_inner(generic_params),
        store: Box::into_inner(store),
        is_fundamental: true,
        shape: FieldsShape::Tuple,
    };
    Ok(in_a_box(alloc, parts)?)
}

/// A definition with these parameters, over these types.
fn plain(alloc: Global, params: &ParamLists, types: &[Never]) -> Result<Box<PlainParts>, Fail> {
    let generic_params = params::make_params(alloc, params)?;
    let store = trees::store(alloc, types, &BARE)?;
    let parts = PlainParts {
        generic_params: Box::into_inner(generic_params),
        store: Box::into_inner(store),
    };
    Ok(in_a_box(alloc, parts)?)
}

/// The fields `{ x }`, over these types.
fn fields(alloc: Global, types: &[Never]) -> Result<Box<VariantParts>, Fail> {
    let store = trees::store(alloc, types, &BARE)?;
    let fields = field_x(alloc)?;
    let parts = VariantParts {
        shape: FieldsShape::Record,
        fields,
        store: Box::into_inner(store),
    };
    Ok(in_a_box(alloc, parts)?)
}

/// A refused signature has its fault and gives its parts back unchanged, also of the same call again: here an
/// id in it is out of range.
#[test]
fn refused_parts_come_back(rt: HostRuntime) -> Result<(), Fail> {
    let a = rt.alloc();
    // the type of the parameter is absent
    let of_function = ask::<FunctionSignature, _>(function(a, &[])?, function(a, &[])?);
    // the type that a predicate is on is absent
    let of_struct = ask::<StructSignature, _>(
        structure(a, &BOUNDED, &[])?,
        structure(a, &BOUNDED, &[])?,
    );
    let of_plain = ask::<PlainSignature, _>(plain(a, &BOUNDED, &[])?, plain(a, &BOUNDED, &[])?);
    // the type of the field is absent
    let of_fields = ask::<VariantFields, _>(fields(a, &[])?, fields(a, &[])?);
    let no_id = Err((SignatureFault::IdOutOfRange, true));
    assert!(&rt; [of_function, of_struct, of_plain, of_fields] == [no_id, no_id, no_id, no_id]);
    Ok(())
}

/// A refused signature gives its parts back unchanged where a predicate names as a path a type that isn't
/// one.
#[test]
fn parts_with_a_bound_that_is_no_path_come_back(rt: HostRuntime) -> Result<(), Fail> {
    let a = rt.alloc();
    let of_struct = ask::<StructSignature, _>(
        structure(a, &BOUNDED, &[Never])?,
        structure(a, &BOUNDED, &[Never])?,
    );
    let of_plain = ask::<PlainSignature, _>(
        plain(a, &BOUNDED, &[Never])?,
        plain(a, &BOUNDED, &[Never])?,
    );
    let no_path = Err((SignatureFault::NotAPath, true));
    assert!(&rt; [of_struct, of_plain] == [no_path, no_path]);
    Ok(())
}

/// The types that an accepted signature names are in its store; parts for which an allocation failed give the
/// same signature in a second call.
#[test]
fn what_is_named_is_in_the_store(rt: HostRuntime) -> Result<(), Fail> {
    let a = rt.alloc();
    let of_function = ask::<FunctionSignature, _>(function(a, &[Never])?, function(a, &[Never])?);
    let of_struct = ask::<StructSignature, _>(structure(a, &T, &[])?, structure(a, &T, &[])?);
    let of_plain = ask::<PlainSignature, _>(plain(a, &T, &[])?, plain(a, &T, &[])?);
    let of_fields = ask::<VariantFields, _>(fields(a, &[Never])?, fields(a, &[Never])?);
    assert!(&rt; [of_function, of_struct, of_plain, of_fields] == [Ok(true); 4]);
    Ok(())
}
