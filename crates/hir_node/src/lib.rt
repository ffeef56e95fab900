//! The nodes of lowered bodies and signatures: expressions, patterns and types. Paths and ids are
//! re-exported from `hir_path`.
//! A node names others by their ids alone. The table `ChildCalls` of the specs alone says which it names,
//! and in which order.
#![tactic(auto)]

mod binding;
mod child_pats;
mod children;
mod expr;
mod expr_types;
pub mod laws;
mod literal;
mod node_id;
mod pat;
mod type_ref;
mod visit;
mod visitor;

pub use binding::{Binding, BindingAnnotation, BindingProblems, Label};
pub use child_pats::ChildPats;
pub use expr::Expr;
pub use expr_types::{
    Array, CaptureBy, ClosureKind, CoroutineKind, CoroutineSource, Item, LoopSource, MatchArm,
    Movability, OffsetOf, RecordLitField, RecordSpread, Statement, Unsafe,
};
pub use hir_collections::Boxed;
pub use hir_path::{
    AssociatedTypeBinding, BindingId, BindingKind, ConstRef, ExprId, ExprKind, ExprOrPatId,
    GenericArg, GenericArgs, GenericArgsParentheses, LabelId, LabelKind, LifetimeRefId,
    LifetimeRefKind, NormalPath, PatId, PatKind, Path, PathId, PathSegment, PathSegments,
    PathSegmentsIter, TraitBoundModifier, TypeBound, TypeRefId, TypeRefKind, UseArgRef,
};
pub use literal::{FloatTypeWrapper, Literal, LiteralOrConst};
pub use node_id::NodeId;
pub use pat::{Pat, RecordFieldPat};
pub use type_ref::{
    ArrayType, FnType, LifetimeRef, Mutability, Rawness, RefType, TraitRef, TypeRef,
};
pub use visitor::{StoreVisitor, StoreVisitorExt, visit_generic_args};
