//! The patterns that define a binding: a `SmallVec` with four inline places, since most bindings have one
//! definition.
ghost use Rattle.std.specs.Prelude.{◌≡◌, [], ◌∷◌, ◌++◌, OnOk, OnErr, IfErr};
ghost use Rattle.std.specs.FinMap as map;
ghost use Rattle.std.specs.Cmp.Lexicographic.{pointwise, bytes_decides};
ghost use Rattle.std.specs.Bool.{nat_eq};
ghost use Rattle.std.specs.Cmp.Rules.{comparing};
ghost use Rattle.std.proofs.Common.{rules};
ghost use Rattle.hir_source_map.specs.Sources.{id_key, and_definition};

use hir_collections::{ExactEq, Table};
use hir_path::{BindingId, PatId};
use smallvec::SmallVec;
use std::alloc::{AllocFailed, Global};
use std::marker::Model;

/// A list of patterns, modelled as that list. The first four take no memory.
#[derive(Drop)]
pub struct Definitions {
    list: SmallVec<PatId, 4>,
}

impl Model for Definitions {
    ghost use Rattle.std.specs.Prelude.{List, ℕ};

    ghost Value = { List ℕ };

    ghost view = { λ definitions. definitions.list.items };
}

impl PartialEq for Definitions {
    ghost eq = { pointwise nat_eq };

    ghost laws = { Prim.search (comparing, rules) };

    fn eq(&self, other: &Definitions) -> bool {
        self.as_slice() == other.as_slice()
    }
}

impl Eq for Definitions {
    ghost laws = { Prim.search (comparing, rules) };
}

impl ExactEq for Definitions {
    ghost eq_decides = { bytes_decides };
}

impl Definitions {
    /// Returns the list of no patterns.
    pub fn new(alloc: Global) -> Definitions
        ensures { result ≡ [] }
    {
        Definitions {
            list: SmallVec::new(alloc),
        }
    }

    /// Returns the patterns as a slice.
    pub fn as_slice(&self) -> &[PatId]
        ensures { result.now ≡ self.now }
    {
        self.list.as_slice()
    }

    /// Adds the pattern at the end. If the allocation fails, the list is unchanged and the error gives the
    /// pattern back.
    pub fn push(&mut self, pat: PatId) -> Result<(), AllocFailed<PatId>>
        ensures ok { OnOk result (self.new ≡ self.old ++ pat ∷ []) }
        ensures err { OnErr result (self.new ≡ self.old) }
        ensures value_returned { IfErr result (λ failed. failed.value ≡ pat) }
    {
        self.list.push(pat)
    }
}

/// Adds the pattern after the others that define the binding.
///
/// Returns an error if the allocation fails: the error gives binding and pattern back, and the definitions
/// are unchanged.
pub fn define(
    alloc: Global,
    definitions: &mut Table<BindingId, Definitions>,
    binding: BindingId,
    pat: PatId,
) -> Result<(), AllocFailed<(BindingId, PatId)>>
    ensures ok { OnOk result (definitions.new ≡ and_definition definitions.old binding pat) }
    ensures err { OnErr result (definitions.new ≡ definitions.old) }
    ensures value_returned { IfErr result (λ failed. failed.value ≡ (binding, pat)) }
{
    match definitions.get_mut(&binding) {
        Some(list) => match list.push(pat) {
            Ok(()) => Ok(()),
            Err(_) => Err(AllocFailed {
                value: (binding, pat),
            }),
        },
        None => first_definition(alloc, definitions, binding, pat),
    }
}

/// Makes the pattern the one that defines the binding.
fn first_definition(
    alloc: Global,
    definitions: &mut Table<BindingId, Definitions>,
    binding: BindingId,
    pat: PatId,
) -> Result<(), AllocFailed<(BindingId, PatId)>>
    ensures ok { OnOk result (definitions.new ≡ map.insert definitions.old (id_key binding) (pat ∷ [])) }
    ensures err { OnErr result (definitions.new ≡ definitions.old) }
    ensures value_returned { IfErr result (λ failed. failed.value ≡ (binding, pat)) }
{
    let mut list = Definitions::new(alloc);
    let value = (binding, pat);
    if list.push(pat).is_err() || definitions.put(binding, list).is_err() {
        return Err(AllocFailed { value });
    }
    Ok(())
}
