//! The hygiene of names: which macro expansion, if any, a name was written by.
ghost use Rattle.std.specs.Prelude.{◌≡◌, ◌↔◌, IsTrue};
ghost use Rattle.hir_collections.specs.Exact.{exact};

use crate::edition::Edition;
use hir_collections::{ExactEq, TryClone};
use std::hash::{Hash, Hasher};
use std::marker::Model;

/// Where a token comes from.
#[derive(Clone, Copy, PartialEq, Eq, Hash)]
pub enum SyntaxContext {
    /// From source text of this edition.
    Root(Edition),
    /// From the macro expansion with this number.
    Expansion(u32),
}

impl ExactEq for SyntaxContext {
    ghost eq_decides = { Prim.search exact };
}

impl TryClone for SyntaxContext {
    ghost clone_is_same = { Prim.search exact };
}

/// A context without an edition. The bytes of the number, the lowest first, need no alignment: so a binding
/// takes 24 bytes.
#[derive(Clone, Copy)]
enum Context {
    Root,
    Expansion([u8; 4]),
}

/// The hygiene of a name, modelled as its context. All source text has one hygiene, in any edition: a
/// context that is a root is always that of edition 2015.
#[derive(Clone, Copy)]
pub struct HygieneId {
    ctx: Context,
}

impl Model for HygieneId {
    ghost use Rattle.hir_base.specs.declared.hygiene.SyntaxContext.{SyntaxContext};
    ghost use Rattle.std.specs.Prelude.{◌≡◌};
    ghost use Rattle.hir_base.specs.HygieneForm.{context, context_of};

    ghost Value = { SyntaxContext };

    ghost view = { λ id. context id.ctx };

    ghost invariant = { λ id. context_of (context id.ctx) ≡ id.ctx };

    ghost inverse = { λ ctx. record { ctx = context_of ctx } };

    ghost inverse_ok = { λ _ is_stored i. record { ctx = is_stored i } };
}

impl HygieneId {
    ghost use Rattle.hir_base.specs.Hygiene.{without_edition, is_root};

    /// The hygiene of source text: the context `Root` of edition 2015.
    pub const ROOT: HygieneId = HygieneId { ctx: Context::Root };

    /// Returns the hygiene of this context: `ROOT` for every `Root`, and an `Expansion` unchanged.
    pub fn new(ctx: SyntaxContext) -> HygieneId
        ensures { result ≡ without_edition ctx }
    {
        match ctx {
            SyntaxContext::Root(_) => HygieneId::ROOT,
            SyntaxContext::Expansion(number) => HygieneId {
                ctx: Context::Expansion(number.to_le_bytes()),
            },
        }
    }

    /// Returns the context of the hygiene.
    pub fn syntax_context(self) -> SyntaxContext
        ensures { result ≡ self }
    {
        match self.ctx {
            Context::Root => SyntaxContext::Root(Edition::Edition2015),
            Context::Expansion(number) => SyntaxContext::Expansion(u32::from_le_bytes(number)),
        }
    }

    /// Returns whether it is `ROOT`, the hygiene of source text.
    pub fn is_root(self) -> bool
        ensures test { result ≡ is_root self }
        ensures source { IsTrue result ↔ (self ≡ SyntaxContext.Root Edition.Edition2015) }
    {
        match self.ctx {
            Context::Root => true,
            Context::Expansion(_) => false,
        }
    }
}

impl PartialEq for HygieneId {
    ghost use Rattle.hir_base.specs.contracts.hygiene.SyntaxContextPartialEq.TheImpl.Laws as context_laws;

    ghost eq = { ⟦<SyntaxContext as PartialEq>⟧.eq };

    ghost laws = { context_laws.lawful.laws };

    fn eq(&self, other: &HygieneId) -> bool {
        self.syntax_context() == other.syntax_context()
    }
}

impl Eq for HygieneId {
    ghost use Rattle.hir_base.specs.contracts.hygiene.SyntaxContextEq.TheImpl.Laws as context_laws;

    ghost laws = { context_laws.lawful.laws };
}

impl Hash for HygieneId {
    ghost use Rattle.hir_base.specs.contracts.hygiene.SyntaxContextHash.TheImpl.Laws as context_laws;

    ghost hash_input = { ⟦<SyntaxContext as Hash>⟧.hash_input };

    ghost respects_eq = { context_laws.lawful.respects_eq };

    fn hash<H: Hasher>(&self, state: &mut H) {
        self.syntax_context().hash(state);
    }
}

impl ExactEq for HygieneId {
    ghost use Rattle.hir_base.specs.contracts.hygiene.SyntaxContextExactEq.TheImpl.Laws as context_laws;

    ghost eq_decides = { context_laws.lawful.eq_decides };
}

impl TryClone for HygieneId {
    ghost clone_is_same = { Prim.search exact };
}
