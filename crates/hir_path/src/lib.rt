//! Paths, as `crate::foo` or `<Type as Trait>::bar::<u8>`, with their generic arguments and bounds, and the
//! ids of what a store holds.
//! A path names types, lifetimes and constants by their ids alone.
#![tactic(auto)]

mod bound;
mod ids;
mod keys;
pub mod laws;
mod path;
mod segments;
mod segments_iter;

pub use bound::{ConstRef, PathId, TraitBoundModifier, TypeBound, UseArgRef};
pub use ids::{
    BindingId, BindingKind, ExprId, ExprKind, ExprOrPatId, LabelId, LabelKind, LifetimeRefId,
    LifetimeRefKind, PatId, PatKind, TypeRefId, TypeRefKind,
};
pub use path::{
    AssociatedTypeBinding, GenericArg, GenericArgs, GenericArgsParentheses, NormalPath, Path,
};
pub use segments::{PathSegment, PathSegments};
pub use segments_iter::PathSegmentsIter;
