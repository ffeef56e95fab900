//! The parts of a scope: its kind and its entries.
ghost use Rattle.std.specs.Prelude.{◌≡◌, codes};
ghost use Rattle.hir_collections.specs.Exact.{exact};

use hir_base::{BlockId, HygieneId, MacroDefId, Name};
use hir_collections::{ExactEq, Idx, Kind, TryClone};
use hir_node::{BindingId, LabelId};

/// The kind of the ids of scopes. It is a marker: no value of it exists.
pub enum ScopeMarker {}

impl Kind for ScopeMarker {
    ghost name = { codes "ScopeId" };

    fn name() -> &'static str {
        "ScopeId"
    }
}

/// The number of a scope.
pub type ScopeId = Idx<ScopeMarker>;

/// A name that a scope binds: the binding that it names, and the hygiene that it was written with.
#[derive(Drop, PartialEq, Eq)]
pub struct ScopeEntry {
    name: Name,
    hygiene: HygieneId,
    binding: BindingId,
}

impl ScopeEntry {
    /// Returns the entry of a binding with this name and hygiene.
    pub(crate) fn new(name: Name, hygiene: HygieneId, binding: BindingId) -> ScopeEntry
        ensures { result ≡ record { name = name; hygiene = hygiene; binding = binding } }
    {
        ScopeEntry {
            name,
            hygiene,
            binding,
        }
    }

    /// Returns the name.
    pub fn name(&self) -> &Name
        ensures { result.now ≡ self.now.name }
    {
        &self.name
    }

    /// Returns the hygiene of the name: which macro expansion, if any, wrote it.
    pub fn hygiene(&self) -> HygieneId
        ensures { result ≡ self.now.hygiene }
    {
        self.hygiene
    }

    /// Returns the binding that the name stands for.
    pub fn binding(&self) -> BindingId
        ensures { result ≡ self.now.binding }
    {
        self.binding
    }
}

impl ExactEq for ScopeEntry {
    ghost eq_decides = { Prim.search exact };
}

/// The kind of a scope, beside the bindings of its entries.
#[derive(Clone, Copy, PartialEq, Eq)]
pub enum ScopeKind {
    /// A scope of bindings alone.
    None,
    /// A block that may hold items of its own.
    Block { id: BlockId, label: Option<LabelId> },
    /// A labeled loop, or a labeled block without an id.
    Label(LabelId),
    /// What follows the definition of a macro: the macro is known from there on.
    MacroDef(MacroDefId),
}

impl ExactEq for ScopeKind {
    ghost eq_decides = { Prim.search exact };
}

impl TryClone for ScopeKind {
    ghost clone_is_same = { Prim.search exact };
}
