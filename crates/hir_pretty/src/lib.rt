//! Expressions, patterns, paths, bodies, fields of variants and signatures as text.
#![tactic(auto)]

mod bodies;
mod body_heads;
mod fields;
mod functions;
mod generics;
mod nodes;
mod pretty_body;
mod signatures;
mod structs;

pub use bodies::print_body_hir;
pub use fields::print_variant_body_hir;
pub use functions::print_function;
pub use hir_pretty_layout::LineFormat;
pub use hir_pretty_nodes::PrintFault;
pub use nodes::{print_expr_hir, print_pat_hir, print_path};
pub use pretty_body::PrettyBody;
pub use signatures::print_signature;
pub use structs::print_struct;
