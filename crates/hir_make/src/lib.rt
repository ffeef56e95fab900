//! Helpers that make expressions, patterns, types, statements, paths and signatures by hand. The contract of
//! each says what it makes, and which node it adds.
#![tactic(auto)]

mod adding;
mod bodies;
mod control;
mod exprs;
mod literals;
mod operators;
mod paths;
mod pats;
mod records;
mod signatures;
mod statements;
mod types;

pub use bodies::{body, params};
pub use control::{
    arm, arm_if, break_, continue_, label, let_expr, loop_, match_, return_, while_,
};
pub use exprs::{
    assign, block, block_without_tail, call, closure, field, if_, int, local, method_call,
    reference, tuple,
};
pub use literals::{bool_, char_, float, string, typed_int, typed_uint};
pub use operators::{array, binary, index, unary};
pub use paths::path_with_args;
pub use pats::{bind, bind_as, lit_pat, or_pat, path_pat, tuple_pat, tuple_struct, wild};
pub use records::{lit_field, pat_field, record_lit, record_pat};
pub use signatures::{fn_, pub_field, struct_, variant_fields};
pub use statements::{let_, let_else, let_typed, statement};
pub use types::{path_type, ref_type, where_bound};
