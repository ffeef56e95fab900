//! The vocabulary of the layers above: ids, names, plain paths, hygiene, pointers into source and operators.
//! An id is modelled as its number, a name as its bytes.
//!
//! What `hir_collections` has, below it, is re-exported here.
#![tactic(auto)]

mod abi;
pub mod ast;
mod builtin_type;
mod defs;
mod edition;
mod hygiene;
mod id_text;
mod ids;
mod keys;
pub mod kinds;
pub mod laws;
mod mod_path;
mod name;
mod op_text;
mod operators;
mod params;
mod prec;
mod ptr;
mod short_text;
mod steps;

pub use abi::ExternAbi;
pub use builtin_type::{BuiltinFloat, BuiltinInt, BuiltinUint};
pub use defs::{
    AdtId, DefWithBodyId, ExpressionStoreOwnerId, GenericDefId, LangItemTarget, MacroId, NamedDef,
    VariantId,
};
pub use edition::{Edition, RawWords};
pub use hir_collections::{
    Arena, ArenaFault, ArenaIter, ArenaMap, ArenaMapIter, Boxed, Empty, ExactEq, HasCode, Idx,
    Kind, LazyBox, MOST_ITEMS, Seq, ShortList, Stack, Table, TableIter, Text, TryClone,
};
pub use hygiene::{HygieneId, SyntaxContext};
pub use ids::{
    BlockId, ConstId, CrateId, EnumId, EnumVariantId, FunctionId, HirFileId, Id, ImplId, Macro2Id,
    MacroCallId, MacroDefId, MacroRulesId, ProcMacroId, StaticId, StructId, TraitId, TypeAliasId,
    UnionId,
};
pub use mod_path::{ModPath, PathKind};
pub use name::Name;
pub use operators::{ArithOp, BinaryOp, CmpOp, LogicOp, Ordering, RangeOp, UnaryOp};
pub use params::{
    ConstParamId, LifetimeParamId, LifetimeParamKind, LocalLifetimeParamId,
    LocalTypeOrConstParamId, TypeOrConstParamId, TypeOrConstParamKind, TypeParamId,
};
pub use prec::ExprPrecedence;
pub use ptr::{
    AstPtr, ExprOrPatPtr, ExprOrPatSource, ExprPtr, ExprSource, FieldPtr, FieldSource, InFile,
    LabelPtr, LabelSource, LifetimePtr, LifetimeSource, MacroCallPtr, PatFieldPtr, PatFieldSource,
    PatPtr, PatSource, SelfParamPtr, SyntaxNodePtr, SyntheticSyntax, TextRange, TypePtr,
    TypeSource,
};
pub use steps::Steps;
