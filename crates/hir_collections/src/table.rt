//! Maps whose keys are any values of our own types: hash tables with a fixed seed.
//! They take memory only for their entries, with any keys.
ghost use Rattle.std.specs.Prelude.{◌≡◌, ◌↔◌, ◌==◌, List, ℕ, IsTrue, OnOk, OnErr, IfErr, IfOk};
ghost use Rattle.std.specs.Bool.{Decides};
ghost use Rattle.std.specs.Option.{option_copied, option_copied_mut};
ghost use Rattle.std.specs.Borrow.{sem};
ghost use Rattle.std.specs.List.Sorted.{IsPermutation};
ghost use Rattle.std.specs.Cmp.Lexicographic.{nat_list_cmp_total};
ghost use Rattle.std.specs.FinMap as map;
ghost use Rattle.hir_collections.specs.Maps.{same_maps, same_maps_per, same_maps_equiv, same_maps_decides};
ghost use Rattle.hir_collections.specs.Table.{by_code, by_code-IsAntisymmetric, by_codes};

use crate::table_iter::TableIter;
use crate::{ExactEq, TryClone};
use std::alloc::{AllocError, AllocFailed, Global};
use std::collections::HashMap;
use std::hash::Hash;
use std::marker::Model;

/// Keys with a code, a list of numbers: two keys have the same code exactly if they are equal.
pub trait HasCode: Eq + Hash {
    ghost code: { Self → List ℕ };

    ghost code_tells: { (x y : Self) → Decides (Self.eq x y) (code x ≡ code y) };
}

/// A hash table with a fixed seed, modelled as the finite map from the codes of its keys to their values.
#[derive(Drop)]
pub struct Table<K: HasCode, V> {
    entries: HashMap<K, V>,
}

impl<K: HasCode, V> Model for Table<K, V> {
    ghost use Rattle.std.specs.Coded.{coded_ℕ, coded_list};
    ghost use Rattle.std.specs.FinMap as map;
    ghost use Rattle.hir_collections.specs.Table.{by_code, table_of};

    ghost Value = { map.FinMap by_code V };

    ghost coded = { map.code (coded_list coded_ℕ) V.code };

    ghost view = { λ t. table_of K.code t.entries.entries };
}

impl<K: HasCode, V> Table<K, V> {
    /// Returns a table with no entries. It takes its memory from `alloc`, and none yet.
    pub fn new(alloc: Global) -> Table<K, V>
        ensures { result ≡ map.empty }
    {
        Table {
            entries: HashMap::new(alloc),
        }
    }

    /// Returns the value of this key, if it has one.
    pub fn get(&self, key: &K) -> Option<&V>
        ensures { option_copied result ≡ map.get self.now (K.code key.now) }
    {
        self.entries.get(key)
    }

    /// Returns whether there are no entries.
    pub fn is_empty(&self) -> bool
        ensures none { IsTrue result ↔ (self.now ≡ map.empty) }
        ensures len { result ≡ (map.len self.now == 0) }
    {
        self.entries.is_empty()
    }

    /// Returns the entries, each once, in no promised order.
    pub fn iter(&self) -> TableIter<'_, K, V>
        ensures { IsPermutation (by_codes K.code result) (map.entries self.now) }
    {
        let entries = self.entries.iter();
        TableIter::new(entries)
    }
}

impl<K: HasCode, V> Table<K, V> {
    ghost use Rattle.hir_collections.specs.TableLends.{lends_value};

    /// Lends the value of this key for writing, if it has one: no other entry changes.
    pub fn get_mut(&mut self, key: &K) -> Option<&mut V>
        ensures* writes_back { sem 𝓛 (lends_value K.row V.row K.HasCode self.entry (K.code key.now) result) }
        ensures value { option_copied_mut result ≡ map.get self.old (K.code key.now) }
    {
        self.entries.get_mut(key)
    }
}

impl<K: HasCode + Drop, V: Drop> Table<K, V> {
    /// Gives the key this value, and returns the previous one.
    ///
    /// Returns an error if the allocation fails: the error gives key and value back, and the table is
    /// unchanged.
    pub fn insert(&mut self, key: K, value: V) -> Result<Option<V>, AllocFailed<(K, V)>>
        ensures ok { OnOk result (self.new ≡ map.insert self.old (K.code key) value) }
        ensures old { IfOk result (λ old. old ≡ map.get self.old (K.code key)) }
        ensures err { OnErr result (self.new ≡ self.old) }
        ensures value_returned { IfErr result (λ failed. failed.value ≡ (key, value)) }
    {
        self.entries.insert(key, value)
    }

    /// Gives the key this value, in place of the previous one.
    ///
    /// Returns an error if the allocation fails: the error gives key and value back, and the table is
    /// unchanged.
    pub fn put(&mut self, key: K, value: V) -> Result<(), AllocFailed<(K, V)>>
        ensures ok { OnOk result (self.new ≡ map.insert self.old (K.code key) value) }
        ensures err { OnErr result (self.new ≡ self.old) }
        ensures value_returned { IfErr result (λ failed. failed.value ≡ (key, value)) }
    {
        self.insert(key, value)?;
        Ok(())
    }
}

impl<K: HasCode, V: ExactEq> PartialEq for Table<K, V> {
    ghost eq = { same_maps by_code V.eq };

    ghost laws = { same_maps_per nat_list_cmp_total V.eq V.PartialEq.laws };

    fn eq(&self, other: &Table<K, V>) -> bool {
        self.entries == other.entries
    }
}

impl<K: HasCode, V: ExactEq> Eq for Table<K, V> {
    ghost laws = { same_maps_equiv nat_list_cmp_total V.eq V.Eq.laws };
}

impl<K: HasCode, V: ExactEq> ExactEq for Table<K, V> {
    ghost eq_decides = { same_maps_decides nat_list_cmp_total V.eq by_code-IsAntisymmetric V.eq_decides };
}

impl<K: HasCode + TryClone, V: TryClone> Clone for Table<K, V> {
    ghost is_clone = { λ table copy. copy ≡ table };

    fn clone(&self) -> Result<Table<K, V>, AllocError> {
        Ok(Table {
            entries: self.entries.clone()?,
        })
    }
}

impl<K: HasCode + TryClone, V: TryClone> TryClone for Table<K, V> {
    ghost clone_is_same = { λ table copy same. same };
}
