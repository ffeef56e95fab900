//! The parts that a store keeps beside its contents, and that follow from these.
ghost use Rattle.std.specs.Prelude.{◌≡◌};

use crate::pat_links::PatLinks;
use hir_collections::{Empty, TryClone};
use hir_forest::Parents;
use std::alloc::{AllocError, Global};

/// The parents of the nodes, by the numbers of the nodes, and the links of the patterns.
#[derive(Drop)]
pub struct KeptParts {
    pub parents: Parents,
    pub links: PatLinks,
}

impl Clone for KeptParts {
    ghost is_clone = { λ kept copy. copy ≡ kept };

    fn clone(&self) -> Result<KeptParts, AllocError> {
        let parents = self.parents.clone()?;
        let links = self.links.clone()?;
        Ok(KeptParts { parents, links })
    }
}

impl TryClone for KeptParts {
    ghost clone_is_same = { λ x y h. h };
}

impl Empty for KeptParts {
    ghost use Rattle.hir_store_core.specs.KeptParts.{nothing_kept};

    ghost empty_value = { nothing_kept };

    fn empty_value(alloc: Global) -> KeptParts {
        KeptParts {
            parents: Parents::none(alloc),
            links: PatLinks::none(alloc),
        }
    }
}
