//! Theorems that a reader relies on, and that no call's contract states.
//! Each is a function with an empty body: its contract is the theorem, proved for every value.

ghost use Rattle.std.specs.Prelude.{◌≡◌, ℕ, Bool, IsTrue, is_some};
ghost use Rattle.std.specs.Bool.{Decides};
ghost use Rattle.std.specs.Cmp.{IsEquivalence};
ghost use Rattle.hir_path.specs.declared.ids.ExprOrPatId.{ExprOrPatId};
ghost use Rattle.hir_source_map.specs.declared.source_map.ExpressionStoreSourceMap.{ExpressionStoreSourceMap};
ghost use Rattle.hir_source_map.specs.declared.source_map_builder.SourceMapBuilder.{SourceMapBuilder};
ghost use Rattle.hir_source_map.specs.Sources.{Source};
ghost use Rattle.hir_source_map.specs.Additions.{HasSameMaps, finish_sources, with_expr, with_pat, with_label, with_type, with_lifetime};
ghost use Rattle.hir_source_map.specs.Lookups.{expr_source, pat_source, label_source, type_source, lifetime_source, expansions_of, diagnostics_of};
ghost use Rattle.hir_source_map.specs.ComparedPart.{compared_part};

use crate::source_map::ExpressionStoreSourceMap;
use crate::source_map_builder::SourceMapBuilder;

/// Source maps are equal exactly if their compared parts are the same, and so equality is an equivalence.
pub fn equality_is_of_the_compared_part()
    ensures decides { (x y : ExpressionStoreSourceMap)
        → Decides (⟦<ExpressionStoreSourceMap as PartialEq>⟧.eq x y) (compared_part x ≡ compared_part y) }
    ensures equivalence { IsEquivalence ⟦<ExpressionStoreSourceMap as PartialEq>⟧.eq }
{}

/// An entry from a source to its node changes no equality, whether or not the expression part is kept.
pub fn forward_maps_may_differ()
    ensures exprs { (b : SourceMapBuilder) (keeps_nodes : Bool) (source : Source) (id : ExprOrPatId)
        → IsTrue (⟦<ExpressionStoreSourceMap as PartialEq>⟧.eq
        (finish_sources keeps_nodes (with_expr b source id)) (finish_sources keeps_nodes b)) }
    ensures pats { (b : SourceMapBuilder) (keeps_nodes : Bool) (source : Source) (id : ExprOrPatId)
        → IsTrue (⟦<ExpressionStoreSourceMap as PartialEq>⟧.eq
        (finish_sources keeps_nodes (with_pat b source id)) (finish_sources keeps_nodes b)) }
    ensures labels { (b : SourceMapBuilder) (keeps_nodes : Bool) (source : Source) (id : ℕ)
        → IsTrue (⟦<ExpressionStoreSourceMap as PartialEq>⟧.eq
        (finish_sources keeps_nodes (with_label b source id)) (finish_sources keeps_nodes b)) }
    ensures types { (b : SourceMapBuilder) (keeps_nodes : Bool) (source : Source) (id : ℕ)
        → IsTrue (⟦<ExpressionStoreSourceMap as PartialEq>⟧.eq
        (finish_sources keeps_nodes (with_type b source id)) (finish_sources keeps_nodes b)) }
    ensures lifetimes { (b : SourceMapBuilder) (keeps_nodes : Bool) (source : Source) (id : ℕ)
        → IsTrue (⟦<ExpressionStoreSourceMap as PartialEq>⟧.eq
        (finish_sources keeps_nodes (with_lifetime b source id)) (finish_sources keeps_nodes b)) }
{}

/// Two equal source maps both keep their expression parts or neither does, and have the same source of each
/// node, the same expansions and the same diagnostics: if one of these differs, the maps aren't equal.
pub fn equal_maps_know_the_same_sources()
    ensures kept { (x y : ExpressionStoreSourceMap)
        → IsTrue (⟦<ExpressionStoreSourceMap as PartialEq>⟧.eq x y) → is_some x.exprs ≡ is_some y.exprs }
    ensures exprs { (x y : ExpressionStoreSourceMap)
        → IsTrue (⟦<ExpressionStoreSourceMap as PartialEq>⟧.eq x y)
        → (id : ℕ) → expr_source x id ≡ expr_source y id }
    ensures pats { (x y : ExpressionStoreSourceMap)
        → IsTrue (⟦<ExpressionStoreSourceMap as PartialEq>⟧.eq x y)
        → (id : ℕ) → pat_source x id ≡ pat_source y id }
    ensures labels { (x y : ExpressionStoreSourceMap)
        → IsTrue (⟦<ExpressionStoreSourceMap as PartialEq>⟧.eq x y)
        → (id : ℕ) → label_source x id ≡ label_source y id }
    ensures types { (x y : ExpressionStoreSourceMap)
        → IsTrue (⟦<ExpressionStoreSourceMap as PartialEq>⟧.eq x y)
        → (id : ℕ) → type_source x id ≡ type_source y id }
    ensures lifetimes { (x y : ExpressionStoreSourceMap)
        → IsTrue (⟦<ExpressionStoreSourceMap as PartialEq>⟧.eq x y)
        → (id : ℕ) → lifetime_source x id ≡ lifetime_source y id }
    ensures expansions { (x y : ExpressionStoreSourceMap)
        → IsTrue (⟦<ExpressionStoreSourceMap as PartialEq>⟧.eq x y) → expansions_of x ≡ expansions_of y }
    ensures diagnostics { (x y : ExpressionStoreSourceMap)
        → IsTrue (⟦<ExpressionStoreSourceMap as PartialEq>⟧.eq x y) → diagnostics_of x ≡ diagnostics_of y }
{}

/// Builders of source maps are equal exactly if all their maps are the same, including those from sources to
/// nodes.
pub fn builders_are_compared_by_all_maps()
    ensures { (x y : SourceMapBuilder)
        → Decides (⟦<SourceMapBuilder as PartialEq>⟧.eq x y) (HasSameMaps x y) }
{}
