//! Generic parameters, signatures of definitions, and how generic parameters are looked up.
//! A parameter names types, constants and lifetimes of its definition's store by their ids alone.
#![tactic(auto)]

mod any_param;
mod generic_bounds;
mod generic_iters;
pub mod generic_laws;
mod generic_params;
mod lookups;
mod named_ids;
mod param_data;
mod predicate;
mod signature_fault;
pub mod signature_laws;
mod signatures;

pub use any_param::{GenericParamData, GenericParamDataRef, TypeOrConstParamData};
pub use generic_iters::BoundLifetimes;
pub use generic_params::GenericParams;
pub use hir_base::{LocalLifetimeParamId, LocalTypeOrConstParamId};
pub use lookups::{SignatureEntry, Signatures};
pub use param_data::{
    ConstParamData, LifetimeBoundType, LifetimeParamData, TypeParamData, TypeParamProvenance,
};
pub use predicate::WherePredicate;
pub use signature_fault::{RefusedSignature, SignatureFault};
pub use signatures::{
    FieldData, FieldsShape, FunctionParts, FunctionSignature, PlainParts, PlainSignature,
    RawVisibility, StructParts, StructSignature, VariantFields, VariantParts,
};
