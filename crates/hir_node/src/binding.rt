//! Bindings, which are the variables that patterns bind, and labels of blocks and loops.
ghost use Rattle.std.specs.Prelude.{◌≡◌};
ghost use Rattle.hir_collections.specs.Exact.{exact};

use hir_base::{HygieneId, Name};
use hir_collections::{ExactEq, TryClone};

/// A label of a block or a loop.
#[derive(Drop, Clone, PartialEq, Eq)]
pub struct Label {
    pub name: Name,
}

impl ExactEq for Label {
    ghost eq_decides = { Prim.search exact };
}

impl TryClone for Label {
    ghost clone_is_same = { Prim.search exact };
}

/// The words before the name of a binding.
#[derive(Clone, Copy, PartialEq, Eq)]
pub enum BindingAnnotation {
    /// None.
    Unannotated,
    /// `mut`
    Mutable,
    /// `ref`
    Ref,
    /// `ref mut`
    RefMut,
}

impl BindingAnnotation {
    ghost use Rattle.hir_node.specs.Annotations.{annotation};

    /// Returns the words that say whether the binding is mutable and whether it is a reference.
    pub fn new(is_mutable: bool, is_ref: bool) -> BindingAnnotation
        ensures { result ≡ annotation is_mutable is_ref }
    {
        match (is_mutable, is_ref) {
            (true, true) => BindingAnnotation::RefMut,
            (false, true) => BindingAnnotation::Ref,
            (true, false) => BindingAnnotation::Mutable,
            (false, false) => BindingAnnotation::Unannotated,
        }
    }
}

impl ExactEq for BindingAnnotation {
    ghost eq_decides = { Prim.search exact };
}

impl TryClone for BindingAnnotation {
    ghost clone_is_same = { Prim.search exact };
}

/// What is wrong with a binding of a pattern.
#[derive(Drop, Clone, PartialEq, Eq)]
pub enum BindingProblems {
    /// Its pattern binds the name more than once.
    BoundMoreThanOnce,
    /// The sides of an or-pattern bind the name with different words.
    BoundInconsistently,
    /// Not all sides of an or-pattern bind the name.
    NotBoundAcrossAll,
}

impl ExactEq for BindingProblems {
    ghost eq_decides = { Prim.search exact };
}

impl TryClone for BindingProblems {
    ghost clone_is_same = { Prim.search exact };
}

/// A variable that a pattern binds.
#[derive(Drop, Clone, PartialEq, Eq)]
pub struct Binding {
    pub name: Name,
    pub mode: BindingAnnotation,
    pub problems: Option<BindingProblems>,
    /// The macro expansion, if any, that wrote its name.
    pub hygiene: HygieneId,
}

impl ExactEq for Binding {
    ghost use Rattle.hir_node.specs.same.SameStructs.{bindings_decide};

    ghost eq_decides = { bindings_decide };
}

impl TryClone for Binding {
    ghost clone_is_same = { Prim.search exact };
}
