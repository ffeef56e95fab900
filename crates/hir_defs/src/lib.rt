//! Outside definitions: the tables of what is known of them, and lookups there.
//!
//! `hir_body` says what a body is, `hir_signature` what generic parameters and a signature are; both are
//! re-exported here.
#![tactic(auto)]

mod lookups;
mod no_generics;
mod plain_def;
mod tables;

pub use hir_base::{LocalLifetimeParamId, LocalTypeOrConstParamId};
pub use hir_body::{
    Bodies, Body, BodyEntry, BodyFault, BodySourceMap, Param, RefusedBody, laws as body_laws,
};
pub use hir_signature::{
    BoundLifetimes, ConstParamData, FieldData, FieldsShape, FunctionParts, FunctionSignature,
    GenericParamData, GenericParamDataRef, GenericParams, LifetimeBoundType, LifetimeParamData,
    PlainParts, PlainSignature, RawVisibility, RefusedSignature, SignatureEntry, SignatureFault,
    Signatures, StructParts, StructSignature, TypeOrConstParamData, TypeParamData,
    TypeParamProvenance, VariantFields, VariantParts, WherePredicate, generic_laws, signature_laws,
};
pub use lookups::StoreOf;
pub use plain_def::{PlainDef, Repr};
pub use tables::{Tables, TablesOf};
