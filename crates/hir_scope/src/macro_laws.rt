//! Theorems on names and the definitions of macros, which a reader relies on and no call's contract states.
//! Each is a function that does nothing: its contract is the theorem.

ghost use Rattle.std.specs.Prelude.{◌≡◌, ℕ, List, Option, None, Contains, IfSome};
ghost use Rattle.hir_base.specs.declared.hygiene.SyntaxContext.{SyntaxContext};
ghost use Rattle.hir_scope.specs.declared.macros.Expansion.{Expansion};
ghost use Rattle.hir_scope.specs.Frames.{Chain};
ghost use Rattle.hir_scope.specs.Resolution.{entries_of, resolve};
ghost use Rattle.hir_scope.specs.Macros.{resolve_through};

/// A name whose hygiene comes from no known expansion, as that of source text, resolves to the same entry
/// with macros and without.
#[tactic(auto, using(crate::proofs::ResolveLemmas::through_nothing))]
pub fn only_expansions_go_through_macros()
    ensures { (from : SyntaxContext → Option Expansion) (chain : Chain) (name : List ℕ)
        (hygiene : SyntaxContext)
        → from hygiene ≡ None → resolve_through from chain name hygiene ≡ resolve chain name hygiene }
{}

/// The entry that a name resolves to through macros is one of its chain.
#[tactic(auto, using(crate::proofs::ResolveLemmas::through_is_among))]
pub fn what_is_meant_through_macros_is_in_the_chain()
    ensures { (from : SyntaxContext → Option Expansion) (chain : Chain) (name : List ℕ)
        (hygiene : SyntaxContext)
        → IfSome (resolve_through from chain name hygiene) (λ entry. Contains (entries_of chain) entry) }
{}
