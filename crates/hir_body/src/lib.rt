//! Bodies over accepted stores, and how they are looked up.
#![tactic(auto)]

mod body;
mod body_fault;
mod body_source_map;
mod formals;
pub mod laws;
mod lookups;

pub use body::{Body, RefusedBody};
pub use body_fault::BodyFault;
pub use body_source_map::BodySourceMap;
pub use formals::Param;
pub use lookups::{Bodies, BodyEntry};
