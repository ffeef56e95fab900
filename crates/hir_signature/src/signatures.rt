//! Signatures of definitions, and the fields of variants, each with the store that has its ids.

ghost use Rattle.std.specs.Prelude.{◌≡◌, ◌<◌, All, None, Some, IfOk, IfErr, IfSome, length};
ghost use Rattle.std.specs.Option.{option_map};
ghost use Rattle.hir_store_core.specs.Contents.{contents_fault};
ghost use Rattle.hir_signature.specs.Signatures.{function_fault, struct_fault, fields_fault, plain_fault, GenericsFit, FieldFits};

use crate::generic_params::GenericParams;
use crate::named_ids::{generics_name_paths, has_fields, has_generics, has_type_opt, has_types};
use crate::signature_fault::{RefusedSignature, SignatureFault, ids_fault};
use hir_base::{ExternAbi, ModPath, Name};
use hir_collections::{ExactEq, Seq};
use hir_node::{ExprId, TypeRefId};
use hir_store_core::ExpressionStore;
use std::marker::Model;

/// How fields are written: `{ .. }`, `( .. )`, or not at all.
#[derive(Clone, Copy, PartialEq, Eq)]
pub enum FieldsShape {
    Record,
    Tuple,
    Unit,
}

impl ExactEq for FieldsShape {
    ghost use Rattle.hir_signature.specs.same.SameSignatures.{shapes_decide};

    ghost eq_decides = { shapes_decide };
}

/// The visibility of a field.
#[derive(Drop, PartialEq, Eq)]
pub enum RawVisibility {
    /// `pub(in path)`, or private: from this module.
    Module(ModPath),
    /// `pub`
    Public,
    /// `pub(crate)`
    PubCrate,
    /// `pub(self)`
    PubSelf,
}

impl ExactEq for RawVisibility {
    ghost use Rattle.hir_signature.specs.same.SameSignatures.{visibilities_decide};

    ghost eq_decides = { visibilities_decide };
}

/// A field.
#[derive(Drop, PartialEq, Eq)]
pub struct FieldData {
    pub name: Name,
    pub type_ref: TypeRefId,
    pub visibility: RawVisibility,
    /// Whether it is an `unsafe` field.
    pub is_unsafe: bool,
    /// Its default where a record literal leaves it out.
    pub default_value: Option<ExprId>,
}

impl ExactEq for FieldData {
    ghost use Rattle.hir_signature.specs.same.SameSignatures.{fields_decide};

    ghost eq_decides = { fields_decide };
}

/// The parts of the signature of a function.
#[derive(Drop, PartialEq, Eq)]
pub struct FunctionParts {
    /// Its name.
    pub name: Name,
    /// Its generic parameters.
    pub generic_params: GenericParams,
    /// The types that the signature names.
    pub store: ExpressionStore,
    /// The types of the parameters, in their order.
    pub params: Seq<TypeRefId>,
    /// The return type, where one is written.
    pub ret_type: Option<TypeRefId>,
    /// The calling convention.
    pub abi: ExternAbi,
    /// Whether it is `const`.
    pub is_const: bool,
    /// Whether it is `async`.
    pub is_async: bool,
    /// Whether it is `unsafe`.
    pub is_unsafe: bool,
    /// Whether it is written `safe`.
    pub is_explicit_safe: bool,
    /// The indices of the arguments for constant parameters, where the function has any.
    pub legacy_const_indices: Option<Seq<u32>>,
}

impl ExactEq for FunctionParts {
    ghost use Rattle.hir_signature.specs.same.SameSignatures.{functions_decide};

    ghost eq_decides = { functions_decide };
}

impl FunctionParts {
    fn first_fault(&self) -> Option<SignatureFault>
        ensures { function_fault self.now result }
    {
        let in_range = has_generics(&self.store, &self.generic_params)
            && has_types(&self.store, self.params.as_slice())
            && has_type_opt(&self.store, self.ret_type);
        ids_fault(
            in_range,
            generics_name_paths(&self.store, &self.generic_params),
        )
    }
}

/// The signature of a function.
#[derive(PartialEq, Eq)]
pub struct FunctionSignature {
    function: FunctionParts,
}

/// Drops the parts. By hand, so that it is proved once, and is a call where a value is dropped.
impl Drop for FunctionSignature {
    fn drop(self) {
        let FunctionSignature { function } = self;
    }
}

impl ExactEq for FunctionSignature {
    ghost use Rattle.hir_signature.specs.same.SameSignatures.{functions_decide};

    ghost eq_decides = { functions_decide };
}

impl Model for FunctionSignature {
    ghost use Rattle.std.specs.Prelude.{None};
    ghost use Rattle.hir_signature.specs.Signatures.{function_fault};
    ghost use Rattle.hir_signature.specs.declared.signatures.FunctionParts.{FunctionParts};

    ghost Value = { FunctionParts };

    ghost use Rattle.std.specs.Coded.{codes};
    ghost use Rattle.hir_store_core.specs.contracts.store.ExpressionStore as stored;

    ghost coded = { Prim.hlevel (codes, stored.the_row.coded) };

    ghost view = { λ s. s.function };

    ghost inverse = { λ p. record { function = p } };

    ghost invariant = { λ s. function_fault s.function None };
}

impl FunctionSignature {
    /// Returns a signature of these parts, or their first fault and the parts; allocates nothing.
    pub fn new(parts: FunctionParts) -> Result<FunctionSignature, RefusedSignature<FunctionParts>>
        ensures ok { IfOk result (λ made. (made ≡ parts) × function_fault parts None) }
        ensures err { IfErr result (λ refused.
            (refused.parts ≡ parts) × function_fault parts (Some refused.fault)) }
    {
        match parts.first_fault() {
            None => Ok(FunctionSignature { function: parts }),
            Some(fault) => Err(RefusedSignature { fault, parts }),
        }
    }

    /// Tells a proof that the signature has no fault, and does nothing.
    pub fn has_no_fault(&self)
        ensures { function_fault self.now None }
    {
        let _ = &self.function;
    }

    /// Returns its name.
    pub fn name(&self) -> &Name
        ensures { result.now ≡ self.now.name }
    {
        &self.function.name
    }

    /// Returns its generic parameters. What they name is in the store.
    pub fn generic_params(&self) -> &GenericParams
        ensures generic_params { result.now ≡ self.now.generic_params }
        ensures in_range { GenericsFit self.now.store.nodes result.now }
    {
        &self.function.generic_params
    }

    /// Returns the types that the signature names.
    pub fn store(&self) -> &ExpressionStore
        ensures store { result.now ≡ self.now.store }
        ensures no_fault { contents_fault result.now None }
    {
        self.function.store.has_no_fault();
        &self.function.store
    }

    /// Returns the types of the parameters, in their order. Each is in the store.
    pub fn params(&self) -> &[TypeRefId]
        ensures params { result.now ≡ self.now.params }
        ensures in_range { All (λ id. id < length self.now.store.nodes.types) result.now }
    {
        self.function.params.as_slice()
    }

    /// Returns the return type, where one is written. It is in the store.
    pub fn ret_type(&self) -> Option<TypeRefId>
        ensures ret_type { result ≡ self.now.ret_type }
        ensures in_range { IfSome result (λ id. id < length self.now.store.nodes.types) }
    {
        self.function.ret_type
    }

    /// Returns the calling convention.
    pub fn abi(&self) -> &ExternAbi
        ensures { result.now ≡ self.now.abi }
    {
        &self.function.abi
    }

    /// Returns whether it is `const`.
    pub fn is_const(&self) -> bool
        ensures { result ≡ self.now.is_const }
    {
        self.function.is_const
    }

    /// Returns whether it is `async`.
    pub fn is_async(&self) -> bool
        ensures { result ≡ self.now.is_async }
    {
        self.function.is_async
    }

    /// Returns whether it is `unsafe`.
    pub fn is_unsafe(&self) -> bool
        ensures { result ≡ self.now.is_unsafe }
    {
        self.function.is_unsafe
    }

    /// Returns whether it is written `safe`.
    pub fn is_explicit_safe(&self) -> bool
        ensures { result ≡ self.now.is_explicit_safe }
    {
        self.function.is_explicit_safe
    }

    /// Returns the indices of the arguments for constant parameters, where the function has any.
    pub fn legacy_const_indices(&self) -> Option<&[u32]>
        ensures { option_map (λ list. list.now) result ≡ self.now.legacy_const_indices }
    {
        let indices = self.function.legacy_const_indices.as_ref();
        indices.map(Seq::as_slice)
    }
}

/// The parts of the signature of a struct.
#[derive(Drop, PartialEq, Eq)]
pub struct StructParts {
    /// Its name.
    pub name: Name,
    /// Its generic parameters.
    pub generic_params: GenericParams,
    /// The types that the signature names.
    pub store: ExpressionStore,
    /// Whether it is `#[fundamental]`.
    pub is_fundamental: bool,
    /// How its fields are written.
    pub shape: FieldsShape,
}

impl ExactEq for StructParts {
    ghost use Rattle.hir_signature.specs.same.SameSignatures.{structs_decide};

    ghost eq_decides = { structs_decide };
}

impl StructParts {
    fn first_fault(&self) -> Option<SignatureFault>
        ensures { struct_fault self.now result }
    {
        let in_range = has_generics(&self.store, &self.generic_params);
        ids_fault(
            in_range,
            generics_name_paths(&self.store, &self.generic_params),
        )
    }
}

/// The signature of a struct.
#[derive(PartialEq, Eq)]
pub struct StructSignature {
    structure: StructParts,
}

/// Drops the parts. By hand, so that it is proved once, and is a call where a value is dropped.
impl Drop for StructSignature {
    fn drop(self) {
        let StructSignature { structure } = self;
    }
}

impl ExactEq for StructSignature {
    ghost use Rattle.hir_signature.specs.same.SameSignatures.{structs_decide};

    ghost eq_decides = { structs_decide };
}

impl Model for StructSignature {
    ghost use Rattle.std.specs.Prelude.{None};
    ghost use Rattle.hir_signature.specs.Signatures.{struct_fault};
    ghost use Rattle.hir_signature.specs.declared.signatures.StructParts.{StructParts};

    ghost Value = { StructParts };

    ghost use Rattle.std.specs.Coded.{codes};
    ghost use Rattle.hir_store_core.specs.contracts.store.ExpressionStore as stored;

    ghost coded = { Prim.hlevel (codes, stored.the_row.coded) };

    ghost view = { λ s. s.structure };

    ghost inverse = { λ p. record { structure = p } };

    ghost invariant = { λ s. struct_fault s.structure None };
}

impl StructSignature {
    /// Returns a signature of these parts, or their first fault and the parts; allocates nothing.
    pub fn new(parts: StructParts) -> Result<StructSignature, RefusedSignature<StructParts>>
        ensures ok { IfOk result (λ made. (made ≡ parts) × struct_fault parts None) }
        ensures err { IfErr result (λ refused.
            (refused.parts ≡ parts) × struct_fault parts (Some refused.fault)) }
    {
        match parts.first_fault() {
            None => Ok(StructSignature { structure: parts }),
            Some(fault) => Err(RefusedSignature { fault, parts }),
        }
    }

    /// Tells a proof that the signature has no fault, and does nothing.
    pub fn has_no_fault(&self)
        ensures { struct_fault self.now None }
    {
        let _ = &self.structure;
    }

    /// Returns its name.
    pub fn name(&self) -> &Name
        ensures { result.now ≡ self.now.name }
    {
        &self.structure.name
    }

    /// Returns its generic parameters. What they name is in the store.
    pub fn generic_params(&self) -> &GenericParams
        ensures generic_params { result.now ≡ self.now.generic_params }
        ensures in_range { GenericsFit self.now.store.nodes result.now }
    {
        &self.structure.generic_params
    }

    /// Returns the types that the signature names.
    pub fn store(&self) -> &ExpressionStore
        ensures store { result.now ≡ self.now.store }
        ensures no_fault { contents_fault result.now None }
    {
        self.structure.store.has_no_fault();
        &self.structure.store
    }

    /// Returns whether it is `#[fundamental]`.
    pub fn is_fundamental(&self) -> bool
        ensures { result ≡ self.now.is_fundamental }
    {
        self.structure.is_fundamental
    }

    /// Returns how its fields are written.
    pub fn shape(&self) -> FieldsShape
        ensures { result ≡ self.now.shape }
    {
        self.structure.shape
    }
}

/// The parts of the fields of a struct, a union or a variant of an enum.
#[derive(Drop, PartialEq, Eq)]
pub struct VariantParts {
    /// How the fields are written.
    pub shape: FieldsShape,
    /// The fields, in their order.
    pub fields: Seq<FieldData>,
    /// The types and defaults that the fields name.
    pub store: ExpressionStore,
}

impl ExactEq for VariantParts {
    ghost use Rattle.hir_signature.specs.same.SameSignatures.{variants_decide};

    ghost eq_decides = { variants_decide };
}

impl VariantParts {
    fn first_fault(&self) -> Option<SignatureFault>
        ensures { fields_fault self.now result }
    {
        let in_range = has_fields(&self.store, self.fields.as_slice());
        ids_fault(in_range, true)
    }
}

/// The fields of a struct, a union or a variant of an enum.
#[derive(PartialEq, Eq)]
pub struct VariantFields {
    variant: VariantParts,
}

/// Drops the parts. By hand, so that it is proved once, and is a call where a value is dropped.
impl Drop for VariantFields {
    fn drop(self) {
        let VariantFields { variant } = self;
    }
}

impl ExactEq for VariantFields {
    ghost use Rattle.hir_signature.specs.same.SameSignatures.{variants_decide};

    ghost eq_decides = { variants_decide };
}

impl Model for VariantFields {
    ghost use Rattle.std.specs.Prelude.{None};
    ghost use Rattle.hir_signature.specs.Signatures.{fields_fault};
    ghost use Rattle.hir_signature.specs.declared.signatures.VariantParts.{VariantParts};

    ghost Value = { VariantParts };

    ghost use Rattle.std.specs.Coded.{codes};
    ghost use Rattle.hir_store_core.specs.contracts.store.ExpressionStore as stored;

    ghost coded = { Prim.hlevel (codes, stored.the_row.coded) };

    ghost view = { λ s. s.variant };

    ghost inverse = { λ p. record { variant = p } };

    ghost invariant = { λ s. fields_fault s.variant None };
}

impl VariantFields {
    /// Returns a signature of these parts, or their first fault and the parts; allocates nothing.
    pub fn new(parts: VariantParts) -> Result<VariantFields, RefusedSignature<VariantParts>>
        ensures ok { IfOk result (λ made. (made ≡ parts) × fields_fault parts None) }
        ensures err { IfErr result (λ refused.
            (refused.parts ≡ parts) × fields_fault parts (Some refused.fault)) }
    {
        match parts.first_fault() {
            None => Ok(VariantFields { variant: parts }),
            Some(fault) => Err(RefusedSignature { fault, parts }),
        }
    }

    /// Tells a proof that the fields have no fault, and does nothing.
    pub fn has_no_fault(&self)
        ensures { fields_fault self.now None }
    {
        let _ = &self.variant;
    }

    /// Returns how the fields are written.
    pub fn shape(&self) -> FieldsShape
        ensures { result ≡ self.now.shape }
    {
        self.variant.shape
    }

    /// Returns the fields, in their order. The type of each and its default are in the store.
    pub fn fields(&self) -> &[FieldData]
        ensures fields { result.now ≡ self.now.fields }
        ensures in_range { All (FieldFits self.now.store.nodes) result.now }
    {
        self.variant.fields.as_slice()
    }

    /// Returns the types and defaults that the fields name.
    pub fn store(&self) -> &ExpressionStore
        ensures store { result.now ≡ self.now.store }
        ensures no_fault { contents_fault result.now None }
    {
        self.variant.store.has_no_fault();
        &self.variant.store
    }
}

/// The parts of a signature that keeps only the generic parameters of a definition.
#[derive(Drop, PartialEq, Eq)]
pub struct PlainParts {
    /// Its generic parameters.
    pub generic_params: GenericParams,
    /// The types that the signature names.
    pub store: ExpressionStore,
}

impl ExactEq for PlainParts {
    ghost use Rattle.hir_signature.specs.same.SameSignatures.{plains_decide};

    ghost eq_decides = { plains_decide };
}

impl PlainParts {
    fn first_fault(&self) -> Option<SignatureFault>
        ensures { plain_fault self.now result }
    {
        let in_range = has_generics(&self.store, &self.generic_params);
        ids_fault(
            in_range,
            generics_name_paths(&self.store, &self.generic_params),
        )
    }
}

/// The signature of a definition, with only its generic parameters.
#[derive(PartialEq, Eq)]
pub struct PlainSignature {
    plain: PlainParts,
}

/// Drops the parts. By hand, so that it is proved once, and is a call where a value is dropped.
impl Drop for PlainSignature {
    fn drop(self) {
        let PlainSignature { plain } = self;
    }
}

impl ExactEq for PlainSignature {
    ghost use Rattle.hir_signature.specs.same.SameSignatures.{plains_decide};

    ghost eq_decides = { plains_decide };
}

impl Model for PlainSignature {
    ghost use Rattle.std.specs.Prelude.{None};
    ghost use Rattle.hir_signature.specs.Signatures.{plain_fault};
    ghost use Rattle.hir_signature.specs.declared.signatures.PlainParts.{PlainParts};

    ghost Value = { PlainParts };

    ghost use Rattle.std.specs.Coded.{codes};
    ghost use Rattle.hir_store_core.specs.contracts.store.ExpressionStore as stored;

    ghost coded = { Prim.hlevel (codes, stored.the_row.coded) };

    ghost view = { λ s. s.plain };

    ghost inverse = { λ p. record { plain = p } };

    ghost invariant = { λ s. plain_fault s.plain None };
}

impl PlainSignature {
    /// Returns a signature of these parts, or their first fault and the parts; allocates nothing.
    pub fn new(parts: PlainParts) -> Result<PlainSignature, RefusedSignature<PlainParts>>
        ensures ok { IfOk result (λ made. (made ≡ parts) × plain_fault parts None) }
        ensures err { IfErr result (λ refused.
            (refused.parts ≡ parts) × plain_fault parts (Some refused.fault)) }
    {
        match parts.first_fault() {
            None => Ok(PlainSignature { plain: parts }),
            Some(fault) => Err(RefusedSignature { fault, parts }),
        }
    }

    /// Tells a proof that the signature has no fault, and does nothing.
    pub fn has_no_fault(&self)
        ensures { plain_fault self.now None }
    {
        let _ = &self.plain;
    }

    /// Returns its generic parameters. What they name is in the store.
    pub fn generic_params(&self) -> &GenericParams
        ensures generic_params { result.now ≡ self.now.generic_params }
        ensures in_range { GenericsFit self.now.store.nodes result.now }
    {
        &self.plain.generic_params
    }

    /// Returns the types that the signature names.
    pub fn store(&self) -> &ExpressionStore
        ensures store { result.now ≡ self.now.store }
        ensures no_fault { contents_fault result.now None }
    {
        self.plain.store.has_no_fault();
        &self.plain.store
    }
}
