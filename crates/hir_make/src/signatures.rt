//! The signatures of functions and structs without generic parameters, and fields, out of a builder. The
//! source map comes with each, since tables take both.

ghost use Rattle.std.specs.Prelude.{◌≡◌, None, false, IfOk, IfErr};
ghost use Rattle.hir_collections.specs.declared.arena.ArenaFault.TheVariants.{Memory};
ghost use Rattle.hir_error.specs.declared.error.HirError.TheVariants as error;
ghost use Rattle.hir_store.specs.Building.{building_of, finish_fault};
ghost use Rattle.hir_signature.specs.Signatures.{function_fault, struct_fault, fields_fault};
ghost use Rattle.hir_make.specs.Adding.{RefusesSignature};
ghost use Rattle.hir_make.specs.Parts.{function_of, struct_of, fields_of, sources_of};

use hir_base::{ExternAbi, Name};
use hir_collections::Seq;
use hir_error::HirError;
use hir_node::TypeRefId;
use hir_signature::{
    FieldData, FieldsShape, FunctionParts, FunctionSignature, GenericParams, RawVisibility,
    StructParts, StructSignature, VariantFields, VariantParts,
};
use hir_store::{ExpressionStoreBuilder, ExpressionStoreSourceMap};
use std::alloc::Global;

/// The signature of `fn name(params) -> ret_type`, without generic parameters and without `const`, `async`,
/// `unsafe` and `extern`. The types are in the builder, which is finished.
///
/// An error says that an allocation fails, or is the first fault of the builder, or that of the signature;
/// the builder is dropped.
#[tactic(auto, using(crate::proofs::RefusalLemmas::signature_refused))]
pub fn fn_(
    alloc: Global,
    builder: ExpressionStoreBuilder,
    name: &str,
    params: &[TypeRefId],
    ret_type: Option<TypeRefId>,
) -> Result<(FunctionSignature, ExpressionStoreSourceMap), HirError>
    ensures ok { IfOk result (λ made. (made.0 ≡ function_of builder name.now params.now ret_type)
        × (made.1 ≡ sources_of builder) × finish_fault (building_of builder) None
        × function_fault made.0 None) }
    ensures err { IfErr result (λ fault.
        RefusesSignature builder (function_fault (function_of builder name.now params.now ret_type)) fault) }
{
    let name = Name::new(alloc, name)?;
    let params = Seq::from_vec(params.to_vec(alloc)?);
    let (store, sources) = builder.finish()?;
    let signature = FunctionSignature::new(FunctionParts {
        name,
        generic_params: GenericParams::empty(alloc),
        store,
        params,
        ret_type,
        abi: ExternAbi::Rust,
        is_const: false,
        is_async: false,
        is_unsafe: false,
        is_explicit_safe: false,
        legacy_const_indices: None,
    })?;
    Ok((signature, sources))
}

/// The signature of `struct name`, without generic parameters. Its fields are made by `variant_fields`, of a
/// builder of their own.
///
/// An error says that an allocation fails, or is the first fault of the builder, or that of the signature;
/// the builder is dropped.
#[tactic(auto, using(crate::proofs::RefusalLemmas::signature_refused))]
pub fn struct_(
    alloc: Global,
    builder: ExpressionStoreBuilder,
    name: &str,
    shape: FieldsShape,
) -> Result<(StructSignature, ExpressionStoreSourceMap), HirError>
    ensures ok { IfOk result (λ made. (made.0 ≡ struct_of builder name.now shape)
        × (made.1 ≡ sources_of builder) × finish_fault (building_of builder) None
        × struct_fault made.0 None) }
    ensures err { IfErr result (λ fault.
        RefusesSignature builder (struct_fault (struct_of builder name.now shape)) fault) }
{
    let name = Name::new(alloc, name)?;
    let (store, sources) = builder.finish()?;
    let signature = StructSignature::new(StructParts {
        name,
        generic_params: GenericParams::empty(alloc),
        store,
        is_fundamental: false,
        shape,
    })?;
    Ok((signature, sources))
}

/// The field `pub name: type_ref`, which is safe and has no default. A field of a tuple has its number as its
/// name, as `0`.
///
/// An error says that an allocation fails.
pub fn pub_field(alloc: Global, name: &str, type_ref: TypeRefId) -> Result<FieldData, HirError>
    ensures ok { IfOk result (λ field. field ≡ record {
      name = name.now;
      type_ref = type_ref;
      visibility = RawVisibility.Public;
      is_unsafe = false;
      default_value = None;
    }) }
    ensures err { IfErr result (λ fault. fault ≡ error.Arena Memory) }
{
    Ok(FieldData {
        name: Name::new(alloc, name)?,
        type_ref,
        visibility: RawVisibility::Public,
        is_unsafe: false,
        default_value: None,
    })
}

/// The fields of a struct, a union or a variant of an enum. Their types are in the builder, which is
/// finished.
///
/// An error says that an allocation fails, or is the first fault of the builder, or that of the fields; the
/// builder is dropped.
#[tactic(auto, using(crate::proofs::RefusalLemmas::signature_refused))]
pub fn variant_fields(
    builder: ExpressionStoreBuilder,
    shape: FieldsShape,
    fields: Vec<FieldData>,
) -> Result<(VariantFields, ExpressionStoreSourceMap), HirError>
    ensures ok { IfOk result (λ made. (made.0 ≡ fields_of builder shape fields.items)
        × (made.1 ≡ sources_of builder) × finish_fault (building_of builder) None
        × fields_fault made.0 None) }
    ensures err { IfErr result (λ fault.
        RefusesSignature builder (fields_fault (fields_of builder shape fields.items)) fault) }
{
    let (store, sources) = builder.finish()?;
    let fields = VariantFields::new(VariantParts {
        shape,
        fields: Seq::from_vec(fields),
        store,
    })?;
    Ok((fields, sources))
}
