//! Maps from the ids of an arena to values, one place for each id.
//! A look-up reads one place. Ids that nobody checked belong in a `Table`.
ghost use Rattle.std.specs.Prelude.{◌≡◌, ◌+◌, ◌-◌, ◌^◌, ◌<◌, ◌≤◌, ◌∷◌, [], ◌++◌, OnOk, OnErr, IfErr, IfOk, IsOk, replicate, vec_len, Some, None};
ghost use Rattle.std.specs.Option.{option_copied};
ghost use Rattle.std.specs.FinMap as map;
ghost use Rattle.std.specs.Ordering.{nat_cmp};
ghost use Rattle.std.specs.Cmp.{nat_cmp_total};
ghost use Rattle.hir_collections.specs.Maps.{same_maps, same_maps_per, same_maps_equiv, same_maps_decides};

use crate::arena_map_iter::ArenaMapIter;
use crate::{ExactEq, Idx};
use std::alloc::{AllocError, AllocFailed, Global};
use std::marker::{Model, PhantomData};

/// A finite map from ids of the kind `K`, modelled as that map.
///
/// It is dense: it keeps one place, of the size of an `Option<V>`, for each id up to the largest that has a
/// value. So it suits the ids of an arena, where a look-up is one read. One id of 4,000,000,000 would cost
/// as many places, whether or not smaller ids have values: ids that come from outside belong in a `Table`.
#[derive(Drop)]
pub struct ArenaMap<K, V> {
    places: Vec<Option<V>>,
    kind: PhantomData<K>,
}

impl<K, V> Model for ArenaMap<K, V> {
    ghost use Rattle.std.specs.Prelude.{IsTrue, length, ◌≤◌, ◌^◌};
    ghost use Rattle.std.specs.Ordering.{nat_cmp};
    ghost use Rattle.std.specs.FinMap as map;
    ghost use Rattle.std.specs.Coded.{coded_ℕ};
    ghost use Rattle.hir_collections.specs.Places.{map_of, ends_full};

    ghost Value = { map.FinMap nat_cmp V };

    ghost coded = { map.code coded_ℕ V.code };

    ghost view = { λ m. map_of m.places.items };

    ghost invariant = { λ m. IsTrue (ends_full m.places.items) × (length m.places.items ≤ 2 ^ 32) };
}

impl<K, V> ArenaMap<K, V> {
    /// Returns a map with no entries. It takes its memory from `alloc`, and none yet.
    #[tactic(auto, using(crate::proofs::PlacesLemmas::of_places))]
    pub fn new(alloc: Global) -> ArenaMap<K, V>
        ensures { result ≡ map.empty }
    {
        ArenaMap {
            places: Vec::new(alloc),
            kind: PhantomData,
        }
    }

    /// Returns a map with no entries and with room for the ids below `capacity`.
    ///
    /// Returns an error if the allocation fails.
    #[tactic(auto, using(crate::proofs::PlacesLemmas::of_places))]
    pub fn with_capacity(alloc: Global, capacity: usize) -> Result<ArenaMap<K, V>, AllocError>
        ensures ok { IfOk result (λ m. m ≡ map.empty) }
        ensures none_wanted { capacity ≡ 0 → IsOk result }
    {
        Ok(ArenaMap {
            places: Vec::with_capacity(alloc, capacity)?,
            kind: PhantomData,
        })
    }

    /// Returns the value of this id, if it has one.
    #[tactic(auto, using(crate::proofs::PlacesLemmas::of_places))]
    pub fn get(&self, id: Idx<K>) -> Option<&V>
        ensures { option_copied result ≡ map.get self.now id }
    {
        match self.places.get(id.into_raw() as usize) {
            Some(place) => place.as_ref(),
            None => None,
        }
    }

    /// Gives the id this value, and returns the previous one.
    ///
    /// Returns an error if the allocation fails: the error gives the value back, and the map is unchanged.
    #[tactic(auto, using(crate::proofs::PlacesLemmas::of_places))]
    pub fn insert(&mut self, id: Idx<K>, value: V) -> Result<Option<V>, AllocFailed<V>>
        ensures ok { OnOk result (self.new ≡ map.insert self.old id value) }
        ensures old { IfOk result (λ old. old ≡ map.get self.old id) }
        ensures err { OnErr result (self.new ≡ self.old) }
        ensures value_returned { IfErr result (λ failed. failed.value ≡ value) }
    {
        let at = id.into_raw() as usize;
        if at < self.places.len() {
            return Ok(self.places[at].replace(value));
        }
        put_past_the_end(&mut self.places, at, value)?;
        Ok(None)
    }

    /// Returns the ids that have values, in ascending order, and their values.
    #[tactic(auto, using(crate::proofs::PlacesLemmas::of_places))]
    pub fn iter(&self) -> ArenaMapIter<'_, K, V>
        ensures { result ≡ map.entries self.now }
    {
        ArenaMapIter::new(self.places.as_slice())
    }
}

// Adds empty places up to `at`, and the value at `at`.
fn put_past_the_end<V>(
    places: &mut Vec<Option<V>>,
    at: usize,
    value: V,
) -> Result<(), AllocFailed<V>>
    requires past { vec_len places.old ≤ at }
    requires fits { at < 2 ^ 32 }
    ensures ok { let missing = replicate (at - vec_len places.old) None in
        OnOk result (places.new.items ≡ places.old.items ++ missing ++ Some value ∷ []) }
    ensures len { OnOk result (vec_len places.new ≡ at + 1) }
    ensures err { OnErr result (places.new.items ≡ places.old.items) }
    ensures value_returned { IfErr result (λ failed. failed.value ≡ value) }
{
    let missing = at - places.len();
    if places.reserve(missing + 1).is_err() {
        return Err(AllocFailed { value });
    }
    for _ in 0..missing {
        places.push_reserved(None);
    }
    places.push_reserved(Some(value));
    Ok(())
}

impl<K, V: PartialEq> PartialEq for ArenaMap<K, V> {
    ghost eq = { same_maps nat_cmp V.eq };

    ghost laws = { same_maps_per nat_cmp_total V.eq V.PartialEq.laws };

    #[tactic(auto, using(crate::proofs::PlacesLemmas::of_places))]
    fn eq(&self, other: &ArenaMap<K, V>) -> bool {
        self.places == other.places
    }
}

impl<K, V: Eq> Eq for ArenaMap<K, V> {
    ghost laws = { same_maps_equiv nat_cmp_total V.eq V.Eq.laws };
}

impl<K, V: ExactEq> ExactEq for ArenaMap<K, V> {
    ghost eq_decides = { same_maps_decides nat_cmp_total V.eq map.nat_cmp-IsAntisymmetric V.eq_decides };
}
