//! The iterator over the lifetimes that are bound in one way.
ghost use Rattle.std.specs.Prelude.{◌≡◌, ⊤};
ghost use Rattle.std.specs.Iterator.{YieldsFirstBy, YieldsLastBy, item_count};
ghost use Rattle.hir_signature.specs.Params.{is_bound};

use crate::generic_bounds::is_bound;
use crate::{LifetimeBoundType, LifetimeParamData};
use hir_base::{LifetimeParamKind, LocalLifetimeParamId};
use hir_collections::{Arena, ArenaIter};
use std::alloc::AllocError;
use std::iter::FusedIterator;
use std::marker::Model;

/// The early bound lifetimes with their ids, or the late bound ones, modelled as the list of those that are
/// left.
#[derive(Drop)]
pub struct BoundLifetimes<'a> {
    lifetimes: ArenaIter<'a, LifetimeParamKind, LifetimeParamData>,
    bound_type: LifetimeBoundType,
}

impl<'a> Model for BoundLifetimes<'a> {
    ghost use Rattle.std.specs.Prelude.{List, ℕ};
    ghost use Rattle.std.specs.List.{filter};
    ghost use Rattle.hir_signature.specs.Params.{is_bound};
    ghost use Rattle.hir_signature.specs.declared.param_data.LifetimeParamData.{LifetimeParamData};

    ghost Value = { List (ℕ × LifetimeParamData) };

    ghost view = { λ it. filter (λ entry. is_bound it.bound_type entry.1) it.lifetimes };
}

impl<'a> BoundLifetimes<'a> {
    ghost use Rattle.hir_signature.specs.Generics.{entries_bound};

    pub(crate) fn new(
        lifetimes: &'a Arena<LifetimeParamKind, LifetimeParamData>,
        bound_type: LifetimeBoundType,
    ) -> BoundLifetimes<'a>
        ensures { result ≡ entries_bound bound_type lifetimes.now }
    {
        BoundLifetimes {
            lifetimes: lifetimes.iter(),
            bound_type,
        }
    }
}

impl<'a> Clone for BoundLifetimes<'a> {
    ghost is_clone = { λ it copy. copy ≡ it };

    ghost is_infallible = { λ _. ⊤ };

    fn clone(&self) -> Result<Self, AllocError> {
        Ok(BoundLifetimes {
            lifetimes: self.lifetimes.clone()?,
            bound_type: match self.bound_type {
                LifetimeBoundType::EarlyBound => LifetimeBoundType::EarlyBound,
                LifetimeBoundType::LateBound => LifetimeBoundType::LateBound,
            },
        })
    }
}

impl<'a> Iterator for BoundLifetimes<'a> {
    type Item = (LocalLifetimeParamId, &'a LifetimeParamData);

    ghost next_gives = { YieldsFirstBy (λ entry. (entry.0, entry.1.now)) (λ rest. rest) };

    ghost remaining = { item_count (λ rest. rest) };

    fn next(&mut self) -> Option<(LocalLifetimeParamId, &'a LifetimeParamData)> {
        while let Some((id, param)) = self.lifetimes.next() {
            if is_bound(param, &self.bound_type) {
                return Some((id, param));
            }
        }
        None
    }
}

impl<'a> DoubleEndedIterator for BoundLifetimes<'a> {
    ghost next_back_gives = { YieldsLastBy (λ entry. (entry.0, entry.1.now)) (λ rest. rest) };

    fn next_back(&mut self) -> Option<(LocalLifetimeParamId, &'a LifetimeParamData)> {
        while let Some((id, param)) = self.lifetimes.next_back() {
            if is_bound(param, &self.bound_type) {
                return Some((id, param));
            }
        }
        None
    }
}

impl<'a> FusedIterator for BoundLifetimes<'a> {}
