//! Bindings, each listed once.
#![tactic(auto, using(crate::proofs::DistinctLemmas::marking))]

ghost use Rattle.std.specs.Prelude.{◌≡◌, [], IfOk, OnOk};
ghost use Rattle.hir_captures.specs.Captures.{with_new};

use hir_collections::ArenaMap;
use hir_node::{BindingId, BindingKind};
use std::alloc::{AllocError, Global};
use std::marker::Model;

/// Bindings in the order in which they were added, each once.
#[derive(Drop)]
pub struct DistinctBindings {
    bindings: Vec<BindingId>,
    /// Marks those that are listed.
    marks: ArenaMap<BindingKind, ()>,
}

impl Model for DistinctBindings {
    ghost use Rattle.std.specs.Prelude.{List, ℕ};
    ghost use Rattle.hir_captures.specs.internal.Marks.{AreMarks};

    ghost Value = { List ℕ };

    ghost view = { λ s. s.bindings.items };

    ghost invariant = { λ s. AreMarks s.bindings.items s.marks };
}

impl DistinctBindings {
    /// Returns no bindings, with room for the marks of this many.
    ///
    /// Fails with `AllocError` where an allocation fails.
    pub fn new(alloc: Global, bindings: usize) -> Result<DistinctBindings, AllocError>
        ensures { IfOk result (λ made. made ≡ []) }
    {
        Ok(DistinctBindings {
            bindings: Vec::new(alloc),
            marks: ArenaMap::with_capacity(alloc, bindings)?,
        })
    }

    /// Appends a binding, where it isn't listed yet.
    ///
    /// Fails with `AllocError` where an allocation fails.
    pub fn add(&mut self, binding: BindingId) -> Result<(), AllocError>
        ensures { OnOk result (self.new ≡ with_new self.old binding) }
    {
        if self.marks.get(binding).is_some() {
            return Ok(());
        }
        self.bindings.reserve(1)?;
        self.marks.insert(binding, ())?;
        self.bindings.push_reserved(binding);
        Ok(())
    }

    /// Returns the bindings.
    pub fn into_bindings(self) -> Vec<BindingId>
        ensures { result.items ≡ self }
    {
        self.bindings
    }
}
