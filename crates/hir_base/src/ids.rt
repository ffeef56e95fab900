//! Numbered ids: those of definitions, blocks, macro calls, crates and files.
//! Each is a number with a kind. The lowering of source code gives the numbers out; nothing here checks
//! them.
ghost use Rattle.std.specs.Prelude.{◌≡◌, Some};
ghost use Rattle.std.specs.Ordering.{nat_cmp};
ghost use Rattle.std.specs.Cmp.Rules.{comparing};
ghost use Rattle.std.proofs.Common.{rules};
ghost use Rattle.hir_collections.specs.IdText.{id_text};

use crate::kinds;
use hir_collections::{ExactEq, Kind, TryClone};
use std::cmp::Ordering;
use std::fmt::{self, Debug, Display};
use std::marker::{Model, PhantomData};

/// The number of a thing of the kind `K`. `K` is a marker of the module `kinds`, with no bounds. Its text,
/// by `Display` and `Debug`, is the kind and the number, as `FunctionId(7)`.
#[derive(Drop)]
#[derive_where(Clone, Copy, PartialEq, Eq, Hash)]
pub struct Id<K> {
    raw: u32,
    #[derive_where(skip)]
    kind: PhantomData<K>,
}

impl<K> Model for Id<K> {
    ghost use Rattle.std.specs.Prelude.{ℕ};

    ghost Value = { ℕ };

    ghost view = { λ id. id.raw };

    ghost inverse = { λ n. record { raw = n; kind = record {} } };
}

impl<K> Id<K> {
    /// Returns the id with this number.
    pub const fn from_raw(raw: u32) -> Id<K>
        ensures { result ≡ raw }
    {
        Id {
            raw,
            kind: PhantomData,
        }
    }

    /// Returns the number of the id.
    pub const fn into_raw(self) -> u32
        ensures { result ≡ self }
    {
        self.raw
    }
}

/// Writes the kind and the number, as `FunctionId(7)`.
impl<K: Kind> Display for Id<K> {
    ghost output = { λ id. Some (id_text K.name id) };

    fn fmt<W: fmt::Write>(&self, f: &mut fmt::Formatter<W>) -> fmt::Result {
        let kind = K::name();
        let number = self.raw;
        write!(f, "{kind}({number})")
    }
}

impl<K: Kind> Debug for Id<K> {
    ghost debug_output = { λ id. Some (id_text K.name id) };

    fn fmt<W: fmt::Write>(&self, f: &mut fmt::Formatter<W>) -> fmt::Result {
        Display::fmt(self, f)
    }
}

impl<K> ExactEq for Id<K> {
    ghost eq_decides = { Prim.search rules };
}

impl<K> TryClone for Id<K> {
    ghost clone_is_same = { Prim.search rules };
}

/// Blocks are ordered by their numbers. No other ids have an order.
impl PartialOrd for BlockId {
    ghost partial_cmp = { λ x y. Some (nat_cmp x y) };

    ghost laws = { Prim.search (comparing, rules) };

    fn partial_cmp(&self, other: &BlockId) -> Option<Ordering> {
        Some(self.into_raw().cmp(&other.into_raw()))
    }
}

impl Ord for BlockId {
    ghost cmp = { nat_cmp };

    ghost total = { Prim.search rules };

    ghost matches_partial_cmp = { Prim.search rules };

    ghost matches_eq = { Prim.search rules };

    fn cmp(&self, other: &BlockId) -> Ordering {
        self.into_raw().cmp(&other.into_raw())
    }
}

/// The number of a function.
pub type FunctionId = Id<kinds::Function>;

/// The number of a struct.
pub type StructId = Id<kinds::Struct>;

/// The number of a union.
pub type UnionId = Id<kinds::Union>;

/// The number of an enum.
pub type EnumId = Id<kinds::Enum>;

/// The number of a variant of an enum.
pub type EnumVariantId = Id<kinds::EnumVariant>;

/// The number of a constant.
pub type ConstId = Id<kinds::Const>;

/// The number of a static.
pub type StaticId = Id<kinds::Static>;

/// The number of a trait.
pub type TraitId = Id<kinds::Trait>;

/// The number of an impl block.
pub type ImplId = Id<kinds::Impl>;

/// The number of a type alias.
pub type TypeAliasId = Id<kinds::TypeAlias>;

/// The number of a block expression that holds items.
pub type BlockId = Id<kinds::Block>;

/// The number of a macro definition, as an expansion names it.
pub type MacroDefId = Id<kinds::MacroDef>;

/// The number of a macro call.
pub type MacroCallId = Id<kinds::MacroCall>;

/// The number of a crate.
pub type CrateId = Id<kinds::Crate>;

/// The number of a macro written with `macro`.
pub type Macro2Id = Id<kinds::Macro2>;

/// The number of a macro written with `macro_rules!`.
pub type MacroRulesId = Id<kinds::MacroRules>;

/// The number of a procedural macro.
pub type ProcMacroId = Id<kinds::ProcMacro>;

/// The number of a file, or what a macro call expanded to.
pub type HirFileId = Id<kinds::HirFile>;
