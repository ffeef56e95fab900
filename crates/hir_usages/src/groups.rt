//! Uses in groups: those of each binding, and those that resolve to none.
#![tactic(auto, using(crate::proofs::GroupLemmas::grouping))]

ghost use Rattle.std.specs.Prelude.{◌≡◌, ◌∷◌, ◌++◌, [], List, IfOk, OnOk};
ghost use Rattle.hir_usages.specs.Usages.{unused_among};
ghost use Rattle.hir_usages.specs.declared.usage.Usage.{Usage};
ghost use Rattle.hir_usages.specs.Groups.{AreGroups, or_none};
ghost use Rattle.std.specs.FinMap as map;

use crate::usage::Usage;
use hir_captures::DistinctBindings;
use hir_collections::{ArenaMap, Seq};
use hir_node::{BindingId, BindingKind};
use std::alloc::{AllocError, Global};

/// The uses of each binding that has one, and those that resolve to none, both in the order of the walk.
#[derive(Drop)]
pub(crate) struct Groups {
    by_binding: ArenaMap<BindingKind, Seq<Usage>>,
    pub(crate) unresolved: Vec<Usage>,
}

impl Groups {
    /// Adds a use to the group that it belongs to.
    fn add(&mut self, alloc: Global, usage: Usage) -> Result<(), AllocError>
        ensures { OnOk result ((before : List Usage)
            → AreGroups before self.old.by_binding self.old.unresolved.items
            → AreGroups (before ++ usage ∷ []) self.new.by_binding self.new.unresolved.items) }
    {
        let Some(binding) = usage.binding else {
            // (a copy: the prover's borrow checker has to be told of the types in it, here and below)
            self.unresolved.push(Usage {
                path: usage.path,
                ..usage
            })?;
            return Ok(());
        };
        // The list is taken out and put back: it is moved, and nothing is copied.
        let before = self.by_binding.insert(binding, Seq::new(alloc))?;
        let mut usages = before.unwrap_or(Seq::new(alloc));
        usages.push(Usage {
            path: usage.path,
            ..usage
        })?;
        self.by_binding.insert(binding, usages)?;
        Ok(())
    }

    /// Returns these uses in groups. There is room for this number of bindings.
    pub(crate) fn new(
        alloc: Global,
        usages: &Vec<Usage>,
        bindings: usize,
    ) -> Result<Groups, AllocError>
        ensures { IfOk result (λ made. AreGroups usages.now.items made.by_binding made.unresolved.items) }
    {
        let mut groups = Groups {
            by_binding: ArenaMap::with_capacity(alloc, bindings)?,
            unresolved: Vec::new(alloc),
        };
        for usage in usages {
            groups.add(alloc, *usage)?;
        }
        Ok(groups)
    }

    /// Returns the uses of a binding.
    pub(crate) fn of(&self, binding: BindingId) -> &[Usage]
        ensures { result.now ≡ or_none (map.get self.now.by_binding binding) }
    {
        match self.by_binding.get(binding) {
            Some(usages) => usages.as_slice(),
            None => &[],
        }
    }

    /// Returns those of these bindings to which no use resolves, each once, in their order. Numbers of
    /// bindings are below `bindings`.
    pub(crate) fn unused(
        &self,
        alloc: Global,
        bound: &Vec<BindingId>,
        bindings: usize,
    ) -> Result<Vec<BindingId>, AllocError>
        ensures { IfOk result (λ made. (usages : List Usage)
            → AreGroups usages self.now.by_binding self.now.unresolved.items
            → made.items ≡ unused_among usages bound.now.items) }
    {
        let mut unused = DistinctBindings::new(alloc, bindings)?;
        for binding in bound {
            if self.of(*binding).len() > 0 {
                continue;
            }
            unused.add(*binding)?;
        }
        Ok(unused.into_bindings())
    }
}
