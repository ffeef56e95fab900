//! A use of a name that may be a local variable's.
ghost use Rattle.hir_collections.specs.Exact.{exact};

use hir_collections::ExactEq;
use hir_node::{BindingId, ExprId, ExprOrPatId};

/// A path that may name a local variable, and the binding that it resolves to.
#[derive(Clone, Copy, PartialEq, Eq)]
pub struct Usage {
    /// The path: an expression, or a pattern in the target of an assignment.
    pub path: ExprOrPatId,
    /// The expression in whose scope the name is looked up: the path itself, or the assignment in whose
    /// target it is.
    pub expr: ExprId,
    /// The binding that the name resolves to, where there is one.
    pub binding: Option<BindingId>,
}

impl Usage {
    ghost use Rattle.std.specs.Prelude.{◌≡◌};
    ghost use Rattle.hir_usages.specs.Usages.{resolves_to};

    /// Returns whether it resolves to a binding.
    pub fn resolves_to(&self, binding: BindingId) -> bool
        ensures { result ≡ resolves_to binding self.now }
    {
        match self.binding {
            Some(found) => found == binding,
            None => false,
        }
    }
}

impl ExactEq for Usage {
    ghost eq_decides = { Prim.search exact };
}
