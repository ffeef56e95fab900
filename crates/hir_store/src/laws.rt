//! Theorems that a reader relies on and that no call's contract states, with those of accepted stores. Each
//! is a function with no body to run: its contract is the theorem.

ghost use Rattle.std.specs.Prelude.{◌≡◌, Option};
ghost use Rattle.std.specs.Bool.{Decides};
ghost use Rattle.hir_validate.specs.declared.fault.FinishFault.{FinishFault};
ghost use Rattle.hir_store.specs.Building.{Building, HasTheSame, finish_fault};

use crate::builder::ExpressionStoreBuilder;
pub use hir_store_core::laws::{
    ByChildren, ancestors_are, bindings_in_unfold, bounds_and_args_of_nodes_fit,
    children_are_disjoint, children_of_reached_are_reached, contents_are_a_forest,
    descendants_are_in_range, exprs_in_unfold, fold_down_unfold, nodes_are_sound,
    nodes_under_unfold, one_parent, parent_is_whose_child_it_is, parents_are_in_range,
    parts_of_args_fit, parts_of_paths_fit, paths_of_bounds_are_in_range, paths_of_nodes_fit,
    paths_that_fit_have_one_list_each, pats_unfold, rank_decreases, ranks_are_bounded,
    reached_is_decided, reached_is_listed, reached_is_listed_once, reached_nodes_are_in_range,
    roots_are_disjoint, roots_stand_apart, under_two_is_under_one,
};

/// The first fault of a builder is unique: a builder is accepted exactly where it has none.
pub fn first_fault_unique()
    ensures { (b : Building) (f g : Option FinishFault) → finish_fault b f → finish_fault b g → f ≡ g }
{}

/// Builders are equal exactly where they have the same nodes, roots and side tables, and the same maps of
/// sources.
pub fn builders_are_compared_by_all_that_they_have()
    ensures { (x y : ExpressionStoreBuilder)
        → Decides (⟦<ExpressionStoreBuilder as PartialEq>⟧.eq x y) (HasTheSame x y) }
{}
