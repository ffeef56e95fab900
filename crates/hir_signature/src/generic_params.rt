//! The generic parameters of a definition, and the predicates of its `where` clause. Early bound lifetimes
//! are counted once, when the value is made.
ghost use Rattle.std.specs.Prelude.{◌≡◌, ◌+◌, ◌<◌, ◌≤◌, [], ◌↔◌, IsTrue, length, slice_get, Some};
ghost use Rattle.std.specs.List.{enumerate_from};
ghost use Rattle.hir_signature.specs.Generics.{Generics, generics_of, empty, count_bound, is_type_named, is_const_named, first_type, first_const, first_lifetime, self_of_trait, lifetime_index, entries_bound};
ghost use Rattle.hir_signature.specs.declared.param_data.LifetimeBoundType.TheVariants.{EarlyBound, LateBound};

use crate::generic_bounds::count_bound;
use crate::generic_iters::BoundLifetimes;
use crate::{LifetimeBoundType, LifetimeParamData, TypeOrConstParamData, WherePredicate};
use hir_base::{
    ConstParamId, GenericDefId, LifetimeParamId, LifetimeParamKind, LocalLifetimeParamId,
    LocalTypeOrConstParamId, Name, TypeOrConstParamId, TypeOrConstParamKind, TypeParamId,
};
use hir_collections::{Arena, ArenaIter, ExactEq, MOST_ITEMS, Seq};
use std::alloc::Global;
use std::marker::Model;
use std::ops::Index;

/// The generic parameters of a definition: types and constants in one list, lifetimes in another; and the
/// predicates on them.
#[derive(PartialEq, Eq, Hash)]
pub struct GenericParams {
    type_or_consts: Arena<TypeOrConstParamKind, TypeOrConstParamData>,
    lifetimes: Arena<LifetimeParamKind, LifetimeParamData>,
    where_predicates: Seq<WherePredicate>,
    early_bound_lifetimes_len: usize,
}

/// Drops the parts one after the other. This `impl` exists so that the drop is proved once, and is a call
/// where a value is dropped.
impl Drop for GenericParams {
    fn drop(self) {
        let GenericParams {
            type_or_consts,
            lifetimes,
            where_predicates,
            early_bound_lifetimes_len,
        } = self;
    }
}

impl Model for GenericParams {
    ghost use Rattle.std.specs.Prelude.{◌≡◌, ◌≤◌, length};
    ghost use Rattle.hir_collections.specs.declared.arena.TheConstants.{MOST_ITEMS};
    ghost use Rattle.hir_signature.specs.declared.param_data.LifetimeBoundType.TheVariants.{EarlyBound};
    ghost use Rattle.hir_signature.specs.Generics.{Generics, count_bound};

    ghost Value = { Generics };

    ghost view = { λ p. record {
      type_or_consts = p.type_or_consts;
      lifetimes = p.lifetimes;
      predicates = p.where_predicates;
    } };

    ghost inverse = { λ g. record {
      type_or_consts = g.type_or_consts;
      lifetimes = g.lifetimes;
      where_predicates = g.predicates;
      early_bound_lifetimes_len = count_bound EarlyBound g.lifetimes;
    } };

    ghost invariant = { λ p. (p.early_bound_lifetimes_len ≡ count_bound EarlyBound p.lifetimes)
        × (length p.lifetimes ≤ MOST_ITEMS) };
}

/// Returns whether it is a type of this name.
fn is_type_named(param: &TypeOrConstParamData, name: &Name) -> bool
    ensures { result ≡ is_type_named name.now param.now }
{
    match param {
        TypeOrConstParamData::TypeParamData(param) => match &param.name {
            Some(own) => own == name,
            None => false,
        },
        TypeOrConstParamData::ConstParamData(_) => false,
    }
}

/// Returns whether it is a constant of this name.
fn is_const_named(param: &TypeOrConstParamData, name: &Name) -> bool
    ensures { result ≡ is_const_named name.now param.now }
{
    match param {
        TypeOrConstParamData::TypeParamData(_) => false,
        TypeOrConstParamData::ConstParamData(param) => param.name == *name,
    }
}

impl GenericParams {
    /// Returns generic parameters of these lists. It counts the early bound lifetimes, in one pass.
    pub fn new(
        type_or_consts: Arena<TypeOrConstParamKind, TypeOrConstParamData>,
        lifetimes: Arena<LifetimeParamKind, LifetimeParamData>,
        where_predicates: Seq<WherePredicate>,
    ) -> GenericParams
        ensures { result ≡ generics_of type_or_consts lifetimes where_predicates }
    {
        let early_bound_lifetimes_len = count_bound(
            lifetimes.as_slice(),
            &LifetimeBoundType::EarlyBound,
        );
        GenericParams {
            type_or_consts,
            lifetimes,
            where_predicates,
            early_bound_lifetimes_len,
        }
    }

    /// Returns no parameters and no predicates.
    pub fn empty(alloc: Global) -> GenericParams
        ensures { result ≡ empty }
    {
        GenericParams {
            type_or_consts: Arena::new(alloc),
            lifetimes: Arena::new(alloc),
            where_predicates: Seq::new(alloc),
            early_bound_lifetimes_len: 0,
        }
    }

    /// Returns the number of parameters.
    pub fn len(&self) -> usize
        ensures { result ≡ length self.now.type_or_consts + length self.now.lifetimes }
    {
        self.len_type_or_consts() + self.len_lifetimes()
    }

    /// Returns the number of parameters that are not late bound lifetimes.
    pub fn len_no_late(&self) -> usize
        ensures { result ≡ length self.now.type_or_consts + count_bound EarlyBound self.now.lifetimes }
    {
        self.len_type_or_consts() + self.early_bound_lifetimes_len
    }

    /// Returns the number of lifetimes.
    pub fn len_lifetimes(&self) -> usize
        ensures len { result ≡ length self.now.lifetimes }
        ensures most { length self.now.lifetimes ≤ MOST_ITEMS }
    {
        self.lifetimes.len()
    }

    /// Returns the number of early bound lifetimes.
    pub fn len_early_bound_lifetimes(&self) -> usize
        ensures { result ≡ count_bound EarlyBound self.now.lifetimes }
    {
        self.early_bound_lifetimes_len
    }

    /// Returns the number of late bound lifetimes.
    pub fn len_late_bound_lifetimes(&self) -> usize
        ensures { result ≡ count_bound LateBound self.now.lifetimes }
    {
        self.len_lifetimes() - self.early_bound_lifetimes_len
    }

    /// Returns the number of types and constants.
    pub fn len_type_or_consts(&self) -> usize
        ensures len { result ≡ length self.now.type_or_consts }
        ensures most { length self.now.type_or_consts ≤ MOST_ITEMS }
    {
        self.type_or_consts.len()
    }

    /// Returns whether the lists have no parameters. They may have predicates.
    pub fn is_empty(&self) -> bool
        ensures { IsTrue result ↔ ((self.now.type_or_consts ≡ []) × (self.now.lifetimes ≡ [])) }
    {
        self.type_or_consts.is_empty() && self.lifetimes.is_empty()
    }

    /// Returns whether the list has no predicates.
    pub fn has_no_predicates(&self) -> bool
        ensures { IsTrue result ↔ (self.now.predicates ≡ []) }
    {
        self.where_predicates.is_empty()
    }

    /// Returns whether a type or a constant has this id.
    pub fn has_type_or_const(&self, id: LocalTypeOrConstParamId) -> bool
        ensures { IsTrue result ↔ id < length self.now.type_or_consts }
    {
        self.type_or_consts.has(id)
    }

    /// Returns whether a lifetime has this id.
    pub fn has_lifetime(&self, id: LocalLifetimeParamId) -> bool
        ensures { IsTrue result ↔ id < length self.now.lifetimes }
    {
        self.lifetimes.has(id)
    }

    /// Returns the types and constants, in their order.
    pub(crate) fn type_or_consts(&self) -> &[TypeOrConstParamData]
        ensures { result.now ≡ self.now.type_or_consts }
    {
        self.type_or_consts.as_slice()
    }

    /// Returns the predicates, in their order.
    pub fn where_predicates(&self) -> &[WherePredicate]
        ensures { result.now ≡ self.now.predicates }
    {
        self.where_predicates.as_slice()
    }

    /// Returns the types and constants with their ids, in their order. The iterator is double-ended.
    pub fn iter_type_or_consts(&self) -> ArenaIter<'_, TypeOrConstParamKind, TypeOrConstParamData>
        ensures { result ≡ enumerate_from 0 self.now.type_or_consts }
    {
        self.type_or_consts.iter()
    }

    /// Returns the lifetimes with their ids, in their order. The iterator is double-ended.
    pub fn iter_lt(&self) -> ArenaIter<'_, LifetimeParamKind, LifetimeParamData>
        ensures { result ≡ enumerate_from 0 self.now.lifetimes }
    {
        self.lifetimes.iter()
    }

    /// Returns the early bound lifetimes with their ids, in their order. The iterator is double-ended.
    pub fn iter_early_bound_lt(&self) -> BoundLifetimes<'_>
        ensures { result ≡ entries_bound EarlyBound self.now.lifetimes }
    {
        BoundLifetimes::new(&self.lifetimes, LifetimeBoundType::EarlyBound)
    }

    /// Returns the late bound lifetimes with their ids, in their order. The iterator is double-ended.
    pub fn iter_late_bound_lt(&self) -> BoundLifetimes<'_>
        ensures { result ≡ entries_bound LateBound self.now.lifetimes }
    {
        BoundLifetimes::new(&self.lifetimes, LifetimeBoundType::LateBound)
    }

    /// Returns the first type of this name, as a parameter of `parent`.
    pub fn find_type_by_name(&self, name: &Name, parent: GenericDefId) -> Option<TypeParamId>
        ensures { result ≡ first_type name.now parent self.now.type_or_consts }
    {
        for (local_id, param) in self.type_or_consts.iter() {
            if is_type_named(param, name) {
                let id = TypeOrConstParamId { parent, local_id };
                return Some(TypeParamId::from_unchecked(id));
            }
        }
        None
    }

    /// Returns the first constant of this name, as a parameter of `parent`.
    pub fn find_const_by_name(&self, name: &Name, parent: GenericDefId) -> Option<ConstParamId>
        ensures { result ≡ first_const name.now parent self.now.type_or_consts }
    {
        for (local_id, param) in self.type_or_consts.iter() {
            if is_const_named(param, name) {
                let id = TypeOrConstParamId { parent, local_id };
                return Some(ConstParamId::from_unchecked(id));
            }
        }
        None
    }

    /// Returns the first lifetime of this name, as a parameter of `parent`.
    pub fn find_lifetime_by_name(
        &self,
        name: &Name,
        parent: GenericDefId,
    ) -> Option<LifetimeParamId>
        ensures { result ≡ first_lifetime name.now parent self.now.lifetimes }
    {
        for (local_id, param) in self.lifetimes.iter() {
            if param.name == *name {
                return Some(LifetimeParamId { parent, local_id });
            }
        }
        None
    }

    /// Returns the id of the `Self` of a trait, which only its index names: parameter 0, where that is
    /// `Self`.
    pub fn trait_self_param(&self) -> Option<LocalTypeOrConstParamId>
        ensures { result ≡ self_of_trait self.now.type_or_consts }
    {
        let self_param = GenericParams::self_param_id_in_self();
        if self.type_or_consts.has(self_param) && self.type_or_consts[self_param].is_trait_self() {
            Some(self_param)
        } else {
            None
        }
    }

    /// Returns the id of the `Self` among the parameters of a trait: 0.
    pub const fn self_param_id_in_self() -> LocalTypeOrConstParamId
        ensures { result ≡ 0 }
    {
        LocalTypeOrConstParamId::from_raw(0)
    }

    /// Returns the number of earlier lifetimes that are bound as the one with this id is, and whether it is
    /// late bound, and `None` where no lifetime has the id.
    ///
    /// Early bound and late bound lifetimes are numbered separately. This takes time in the number of earlier
    /// lifetimes.
    pub fn lifetime_param_idx(
        &self,
        lifetime_param_id: &LocalLifetimeParamId,
    ) -> Option<(usize, bool)>
        ensures { result ≡ lifetime_index self.now.lifetimes lifetime_param_id.now }
    {
        let lifetimes = self.lifetimes.as_slice();
        let at = lifetime_param_id.into_raw() as usize;
        let lifetime = lifetimes.get(at)?;
        let earlier = count_bound(&lifetimes[..at], &lifetime.bound_type);
        Some((earlier, lifetime.is_late_bound()))
    }
}

/// Gives the type or constant with an id, which has to exist: `has_type_or_const` tests it.
impl Index<LocalTypeOrConstParamId> for GenericParams {
    type Output = TypeOrConstParamData;

    ghost can_index = { λ params id. id < length params.type_or_consts };

    ghost index_gives = { λ params id param. slice_get params.type_or_consts id ≡ Some param };

    fn index(&self, id: LocalTypeOrConstParamId) -> &TypeOrConstParamData {
        &self.type_or_consts[id]
    }
}

/// Gives the lifetime with an id, which has to exist: `has_lifetime` tests it.
impl Index<LocalLifetimeParamId> for GenericParams {
    type Output = LifetimeParamData;

    ghost can_index = { λ params id. id < length params.lifetimes };

    ghost index_gives = { λ params id param. slice_get params.lifetimes id ≡ Some param };

    fn index(&self, id: LocalLifetimeParamId) -> &LifetimeParamData {
        &self.lifetimes[id]
    }
}

impl ExactEq for GenericParams {
    ghost use Rattle.hir_signature.specs.same.SameGenerics.{generics_decide};

    ghost eq_decides = { generics_decide };
}
