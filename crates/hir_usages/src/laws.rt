//! Theorems that a reader relies on. Each is a function that does nothing: its contract is the theorem.
ghost use Rattle.std.specs.FinMap as map;
ghost use Rattle.std.specs.Prelude.{◌≡◌, ◌↔◌, ℕ, List, None, Some, Contains};
ghost use Rattle.std.specs.List.{All};
ghost use Rattle.hir_base.specs.declared.hygiene.SyntaxContext.{SyntaxContext};
ghost use Rattle.hir_store_core.specs.Contents.{Contents, contents_fault};
ghost use Rattle.hir_body.specs.Bodies.{BodyContents, body_fault};
ghost use Rattle.hir_scope.specs.BodyScopes.{AreBodyScopes, ChainsAreFrames, entry_nodes_of_body};
ghost use Rattle.hir_scope.specs.Chains.{HasChain};
ghost use Rattle.hir_scope.specs.Frames.{Chain};
ghost use Rattle.hir_scope.specs.Paths.{chain};
ghost use Rattle.hir_scope.specs.Resolution.{resolve};
ghost use Rattle.hir_scope.specs.Scopes.{Scopes};
ghost use Rattle.hir_scope.specs.declared.scope.ScopeEntry.{ScopeEntry};
ghost use Rattle.hir_usages.specs.declared.rename_fault.RenameFault.{RenameFault};
ghost use Rattle.hir_usages.specs.declared.usage.Usage.{Usage};
ghost use Rattle.hir_usages.specs.Kept.{Keeps, IsWhyNot, MayBeRenamed};
ghost use Rattle.hir_usages.specs.Renamed.{renamed_body};
ghost use Rattle.hir_usages.specs.Renames.{binding_for, first_conflict, rename_fault, renamed_chain, resolved_after};
ghost use Rattle.hir_usages.specs.Usages.{usages_of_body};
ghost use Rattle.hir_usages.specs.Visible.{visible_in};

use hir_scope::laws::a_reached_node_has_one_chain;
use hir_store_core::laws::{one_parent, rank_decreases};

/// The visible names of a scope are the entries that `resolve_name_in_scope` gives for some name and hygiene.
pub fn visible_names_are_those_that_resolve()
    ensures { (frames : Chain) (entry : ScopeEntry) → Contains (visible_in frames) entry
        ↔ ((name : List ℕ) × (hygiene : SyntaxContext) × (resolve frames name hygiene ≡ Some entry)) }
{}

/// What each use of a body has is what its path resolves to along the frames around it.
pub fn uses_resolve_along_their_frames()
    ensures { (b : BodyContents) → contents_fault b.store None → (scopes : Scopes) → AreBodyScopes b scopes
        → All (Keeps b) (usages_of_body b scopes) }
{
    rank_decreases();
}

/// The chains of the renamed body are the chains of the body with the entries of the binding renamed.
pub fn renamed_bodies_have_renamed_chains()
    ensures { (b : BodyContents) (scopes : Scopes)
        → ChainsAreFrames b.store.nodes (entry_nodes_of_body b) scopes
        → (binding : ℕ) (name : List ℕ) (expr scope : ℕ) → map.get scopes.scope_by_expr expr ≡ Some scope
        → HasChain (renamed_body b scopes binding name).store.nodes
        (entry_nodes_of_body (renamed_body b scopes binding name)) expr
        (renamed_chain binding name (chain scopes.scopes (Some scope))) }
{}

/// The renamed body has no fault, so it is a body.
pub fn renamed_bodies_have_no_fault()
    ensures store { (b : BodyContents) → contents_fault b.store None
        → (scopes : Scopes) (binding : ℕ) (name : List ℕ)
        → contents_fault (renamed_body b scopes binding name).store None }
    ensures body { (b : BodyContents) → body_fault b None → (scopes : Scopes) (binding : ℕ) (name : List ℕ)
        → body_fault (renamed_body b scopes binding name) None }
{}

/// Scopes that are made anew of the renamed body have the renamed chains, and where the binding may have the
/// name, each use of the body resolves in them to what it resolved to before.
pub fn scopes_made_anew_resolve_the_same()
    ensures chains { (b : BodyContents) → contents_fault b.store None → body_fault b None
        → (scopes later : Scopes) (binding : ℕ) (name : List ℕ) → AreBodyScopes b scopes
        → AreBodyScopes (renamed_body b scopes binding name) later
        → (expr before after : ℕ) → map.get scopes.scope_by_expr expr ≡ Some before
        → map.get later.scope_by_expr expr ≡ Some after
        → chain later.scopes (Some after) ≡ renamed_chain binding name (chain scopes.scopes (Some before)) }
    ensures uses { (b : BodyContents) → contents_fault b.store None → body_fault b None
        → (scopes later : Scopes) (binding : ℕ) (name : List ℕ) → MayBeRenamed b scopes binding name
        → AreBodyScopes (renamed_body b scopes binding name) later
        → All (λ usage. binding_for (renamed_body b scopes binding name).store later usage.path usage.expr
        ≡ usage.binding) (usages_of_body b scopes) }
{
    rank_decreases();
    a_reached_node_has_one_chain();
}

/// There is no conflict exactly where each use resolves along its renamed chain to what it resolved to
/// before.
pub fn without_a_conflict_each_use_keeps_its_binding()
    ensures { (c : Contents) (scopes : Scopes) (binding : ℕ) (name : List ℕ) (usages : List Usage)
        → first_conflict c scopes binding name usages ≡ None
        ↔ All (λ usage. resolved_after c scopes binding name usage ≡ usage.binding) usages }
{}

/// `rename_fault` is exact: it is none exactly where the binding may have the name, so where each use of the
/// body resolves in the renamed body to what it resolved to before, and a fault is the first reason why not.
pub fn renames_are_exact()
    ensures accepted { (b : BodyContents) → contents_fault b.store None → body_fault b None
        → (scopes : Scopes) → AreBodyScopes b scopes → (binding : ℕ) (name : List ℕ)
        → rename_fault b scopes binding name ≡ None ↔ MayBeRenamed b scopes binding name }
    ensures refused { (b : BodyContents) → contents_fault b.store None → body_fault b None
        → (scopes : Scopes) → AreBodyScopes b scopes → (binding : ℕ) (name : List ℕ) (fault : RenameFault)
        → rename_fault b scopes binding name ≡ Some fault → IsWhyNot b scopes binding name fault }
{
    rank_decreases();
    one_parent();
    a_reached_node_has_one_chain();
}
