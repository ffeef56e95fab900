//! Captured variables: the bindings from outside that a closure's code uses.
#![tactic(auto)]

mod captured_binding;
mod closures;
mod code;
mod distinct;
mod fault;
pub mod laws;
mod tasks;

pub use closures::captures;
pub use code::if_assignment;
pub use distinct::DistinctBindings;
pub use fault::CapturesFault;
