//! Theorems of every graph, its faults and its roots, as contracts of functions with empty bodies.
//! A crate above cites a theorem by its function and needs nothing of its proof.

ghost use Rattle.std.specs.Prelude.{◌≡◌, ℕ, ◌<◌, ◌≤◌, List, [], ◌∷◌, ◌++◌, Option, None, Some, All, length};
ghost use Rattle.std.specs.Bool.{Decides};
ghost use Rattle.std.specs.List.{concat};
ghost use Rattle.hir_forest.specs.Rows.{with_children};
ghost use Rattle.hir_forest.specs.Forest.{IsChild, Climbs, IsForest};
ghost use Rattle.hir_forest.specs.Faults.{IsWithin, forest_fault};
ghost use Rattle.hir_forest.specs.Height.{height};

use crate::roots::{Ends, ForestFault, Root};

/// Ends, roots and faults are equal exactly if all their fields are.
pub fn roots_are_compared_by_all_fields()
    ensures ends { (x y : Ends) → Decides (⟦<Ends as PartialEq>⟧.eq x y) (x ≡ y) }
    ensures roots { (x y : Root) → Decides (⟦<Root as PartialEq>⟧.eq x y) (x ≡ y) }
    ensures faults { (x y : ForestFault) → Decides (⟦<ForestFault as PartialEq>⟧.eq x y) (x ≡ y) }
{}

/// The first fault of a graph with its roots is unique.
pub fn fault_unique()
    ensures { (g : List (List ℕ)) (lengths : Ends) (roots : List Root) (a b : Option ForestFault)
        → forest_fault g lengths roots a → forest_fault g lengths roots b → a ≡ b }
{}

/// A fault names a node of the graph or a listed root.
pub fn fault_is_within()
    ensures { (g : List (List ℕ)) (lengths : Ends) (roots : List Root) (fault : ForestFault)
        → All (λ c. c < length g) (concat g) → forest_fault g lengths roots (Some fault)
        → IsWithin (length g) (length roots) fault }
{}

/// A graph without a fault is a forest: each node has at most one parent and is its child once, and each
/// chain of parents ends.
pub fn faultless_is_forest()
    ensures { (g : List (List ℕ)) (lengths : Ends) (roots : List Root)
        → All (λ c. c < length g) (concat g) → forest_fault g lengths roots None → IsForest g }
{}

/// In a forest the height decreases from each node to its children.
pub fn children_are_lower()
    ensures { (g : List (List ℕ)) → IsForest g → (p c : ℕ) → IsChild g p c → height g c < height g p }
{}

/// The height of a node is at most the number of nodes.
pub fn heights_are_bounded()
    ensures { (g : List (List ℕ)) (n : ℕ) → height g n ≤ length g }
{}

/// In a forest the number of steps from a node to an ancestor is less than the number of nodes.
pub fn ways_are_short()
    ensures { (g : List (List ℕ)) → IsForest g
        → (k c p : ℕ) → c < length g → Climbs g k c p → k < length g }
{}

/// Children that are added to the last list in parts are added as if at once. Children that are added to a
/// new list are that list. The number of lists stays.
pub fn child_rows_add_up()
    ensures more { (rows : List (List ℕ)) (some more : List ℕ)
        → with_children (with_children rows some) more ≡ with_children rows (some ++ more) }
    ensures fresh { (rows : List (List ℕ)) (children : List ℕ)
        → with_children (rows ++ [] ∷ []) children ≡ rows ++ children ∷ [] }
    ensures length { (rows : List (List ℕ)) (children : List ℕ)
        → length (with_children rows children) ≡ length rows }
{}
