//! Uses of local variables: every use of a body with the binding that it resolves to, the bindings that
//! nothing uses, what is visible in a scope, and which uses change when a binding is renamed.
#![tactic(auto)]

mod groups;
mod labels;
pub mod laws;
mod rename_fault;
mod renamed_body;
mod renames;
mod renaming;
mod to_visit;
mod usage;
mod usages;
mod visible;
mod walk;

pub use labels::labels_at;
pub use rename_fault::RenameFault;
pub use renamed_body::renamed;
pub use renames::rename;
pub use usage::Usage;
pub use usages::Usages;
pub use visible::visible_names;
