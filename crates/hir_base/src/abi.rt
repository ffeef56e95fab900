//! The calling conventions of functions.
ghost use Rattle.std.specs.Prelude.{◌≡◌};
ghost use Rattle.hir_collections.specs.Exact.{exact};
ghost use Rattle.hir_base.specs.Abi.{abi_text};

use hir_collections::{ExactEq, Text, TryClone};

/// A calling convention, as it is written after `extern`. The Rust Reference lists them under "ABI".
#[derive(Drop, Clone, PartialEq, Eq, Hash)]
pub enum ExternAbi {
    /// `"Rust"`
    Rust,
    /// `"C"`
    C,
    /// `"C-unwind"`
    CUnwind,
    /// `"system"`
    System,
    /// `"system-unwind"`
    SystemUnwind,
    /// Any other, by its text.
    Named(Text),
}

impl ExternAbi {
    /// Returns the text in quotes after `extern`.
    pub fn as_str(&self) -> &str
        ensures { result.now ≡ abi_text self.now }
    {
        match self {
            ExternAbi::Rust => "Rust",
            ExternAbi::C => "C",
            ExternAbi::CUnwind => "C-unwind",
            ExternAbi::System => "system",
            ExternAbi::SystemUnwind => "system-unwind",
            ExternAbi::Named(text) => text.as_str(),
        }
    }
}

impl ExactEq for ExternAbi {
    ghost eq_decides = { Prim.search exact };
}

impl TryClone for ExternAbi {
    ghost clone_is_same = { Prim.search exact };
}
