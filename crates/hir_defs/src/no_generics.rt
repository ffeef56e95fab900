//! Empty generic parameters, kept so that they can be borrowed.

ghost use Rattle.std.specs.Prelude.{◌≡◌};
ghost use Rattle.hir_signature.specs.Generics.{empty};

use hir_signature::GenericParams;
use std::alloc::Global;
use std::marker::Model;

/// Empty generic parameters.
#[derive(Drop)]
pub(crate) struct NoGenerics {
    none: GenericParams,
}

impl Model for NoGenerics {
    ghost Value = { Unit {0} };

    ghost view = { λ _. tt };

    ghost invariant = { λ n. n.none ≡ empty };
}

impl NoGenerics {
    /// Returns the empty parameters, without an allocation.
    pub(crate) fn new(alloc: Global) -> NoGenerics {
        NoGenerics {
            none: GenericParams::empty(alloc),
        }
    }

    /// Returns the empty parameters.
    pub(crate) fn params(&self) -> &GenericParams
        ensures { result.now ≡ empty }
    {
        &self.none
    }
}
