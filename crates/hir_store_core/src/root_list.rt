//! The list of roots: a `SmallVec` with room for one inline, since most bodies have one root.
ghost use Rattle.std.specs.Prelude.{◌≡◌, [], ◌∷◌, ◌++◌, OnOk, OnErr, IfErr};
ghost use Rattle.std.specs.Cmp.Lexicographic.{pointwise, lists_per, lists_equiv};

use hir_collections::{ExactEq, TryClone};
use hir_forest::Root;
use smallvec::SmallVec;
use std::alloc::{AllocError, AllocFailed, Global};
use std::marker::Model;

/// Roots in order, modelled as their list. The first takes no memory.
#[derive(Drop)]
pub struct RootList {
    list: SmallVec<Root, 1>,
}

impl Model for RootList {
    ghost use Rattle.std.specs.Prelude.{List};
    ghost use Rattle.hir_forest.specs.declared.roots.Root.{Root};

    ghost Value = { List Root };

    ghost view = { λ roots. roots.list.items };
}

impl PartialEq for RootList {
    ghost use Rattle.hir_forest.specs.contracts.roots.RootPartialEq.TheImpl.Laws as root_laws;

    ghost eq = { pointwise ⟦<Root as PartialEq>⟧.eq };

    ghost laws = { lists_per root_laws.lawful.laws };

    fn eq(&self, other: &RootList) -> bool {
        self.as_slice() == other.as_slice()
    }
}

impl Eq for RootList {
    ghost use Rattle.hir_forest.specs.contracts.roots.RootEq.TheImpl.Laws as root_eq_laws;

    ghost laws = { lists_equiv root_eq_laws.lawful.laws };
}

impl Clone for RootList {
    ghost is_clone = { λ roots copy. copy ≡ roots };

    fn clone(&self) -> Result<RootList, AllocError> {
        Ok(RootList {
            list: self.list.clone()?,
        })
    }
}

impl ExactEq for RootList {
    ghost use Rattle.hir_store_core.specs.same.SameRoots.{root_lists_decide};

    ghost eq_decides = { root_lists_decide };
}

impl TryClone for RootList {
    ghost clone_is_same = { λ x y h. h };
}

impl RootList {
    /// Returns no roots, without an allocation.
    pub fn new(alloc: Global) -> RootList
        ensures { result ≡ [] }
    {
        RootList {
            list: SmallVec::new(alloc),
        }
    }

    /// Returns the roots as a slice.
    pub fn as_slice(&self) -> &[Root]
        ensures { result.now ≡ self.now }
    {
        self.list.as_slice()
    }

    /// Adds the root at the end. Where an allocation fails, the list is unchanged and the error gives the
    /// root back.
    pub fn push(&mut self, root: Root) -> Result<(), AllocFailed<Root>>
        ensures ok { OnOk result (self.new ≡ self.old ++ root ∷ []) }
        ensures err { OnErr result (self.new ≡ self.old) }
        ensures value_returned { IfErr result (λ failed. failed.value ≡ root) }
    {
        self.list.push(root)
    }
}
