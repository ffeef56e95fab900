//! Lifetimes by the way that they are bound.
ghost use Rattle.std.specs.Prelude.{◌≡◌};
ghost use Rattle.hir_signature.specs.Params.{is_bound};
ghost use Rattle.hir_signature.specs.Generics.{count_bound};

use crate::{LifetimeBoundType, LifetimeParamData};

/// Returns whether the lifetime is bound in this way.
pub(crate) fn is_bound(param: &LifetimeParamData, bound_type: &LifetimeBoundType) -> bool
    ensures { result ≡ is_bound bound_type.now param.now }
{
    match bound_type {
        LifetimeBoundType::EarlyBound => param.is_early_bound(),
        LifetimeBoundType::LateBound => param.is_late_bound(),
    }
}

/// Returns the number of lifetimes that are bound in this way.
pub(crate) fn count_bound(lifetimes: &[LifetimeParamData], bound_type: &LifetimeBoundType) -> usize
    ensures { result ≡ count_bound bound_type.now lifetimes.now }
{
    lifetimes
        .iter()
        .filter(|param| is_bound(param, bound_type))
        .count()
}
