//! The ids of an arena's items.
//! An id is a number with a kind: ids of two kinds can't be mixed up, and the kind takes no room.
ghost use Rattle.std.specs.Prelude.{◌≡◌, Some};
ghost use Rattle.std.proofs.Common.{rules};
ghost use Rattle.hir_collections.specs.IdText.{id_text};

use crate::{ExactEq, Kind, TryClone};
use std::fmt::{self, Debug, Display};
use std::marker::{Model, PhantomData};

/// The number of an item of the kind `K`, from 0. `K` is a marker, with no bounds. If it has a name, by
/// `Kind`, the id's text, by `Display` and `Debug`, is that and the number, as `ExprId(3)`.
#[derive(Drop)]
#[derive_where(Clone, Copy, PartialEq, Eq, PartialOrd, Ord, Hash)]
pub struct Idx<K> {
    raw: u32,
    #[derive_where(skip)]
    kind: PhantomData<K>,
}

impl<K> Model for Idx<K> {
    ghost use Rattle.std.specs.Prelude.{ℕ};

    ghost Value = { ℕ };

    ghost view = { λ id. id.raw };

    ghost inverse = { λ n. record { raw = n; kind = record {} } };
}

impl<K> Idx<K> {
    /// Returns the id with this number, whether or not an item has it.
    pub const fn from_raw(raw: u32) -> Idx<K>
        ensures { result ≡ raw }
    {
        Idx {
            raw,
            kind: PhantomData,
        }
    }

    /// Returns the number of the id.
    pub const fn into_raw(self) -> u32
        ensures { result ≡ self }
    {
        self.raw
    }
}

/// Writes the kind and the number, as `ExprId(3)`.
impl<K: Kind> Display for Idx<K> {
    ghost output = { λ id. Some (id_text K.name id) };

    fn fmt<W: fmt::Write>(&self, f: &mut fmt::Formatter<W>) -> fmt::Result {
        let kind = K::name();
        let number = self.raw;
        write!(f, "{kind}({number})")
    }
}

impl<K: Kind> Debug for Idx<K> {
    ghost debug_output = { λ id. Some (id_text K.name id) };

    fn fmt<W: fmt::Write>(&self, f: &mut fmt::Formatter<W>) -> fmt::Result {
        Display::fmt(self, f)
    }
}

/// Returns the id 0. A small vector of ids fills its unused places with it.
impl<K> Default for Idx<K> {
    ghost is_default = { λ id. id ≡ 0 };

    fn default() -> Idx<K> {
        Idx::from_raw(0)
    }
}

impl<K> ExactEq for Idx<K> {
    ghost eq_decides = { Prim.search rules };
}

impl<K> TryClone for Idx<K> {
    ghost clone_is_same = { Prim.search rules };
}
