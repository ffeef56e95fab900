//! The search for the first root whose end exceeds an id. It halves the list of roots: their ends never
//! decrease.

ghost use Rattle.std.specs.Prelude.{◌≡◌, ◌+◌, ◌-◌, ◌<◌, ◌≤◌, ℕ, length, slice_get, option_map};
ghost use Rattle.hir_store_core.specs.RootSearch.{end_of, root_for, AtMostDigitsOf};
ghost use Rattle.hir_store_core.specs.internal.RootSearch.{end_at, EndsRise};

use hir_base::Steps;
use hir_forest::{Ends, Root};
use hir_node::ExprId;

/// The kind of items that the end of a root counts.
#[derive(Clone, Copy)]
pub(crate) enum EndOf {
    Exprs,
    Pats,
    Bindings,
}

/// Returns the end of this kind.
fn end_of(kind: EndOf, ends: Ends) -> u32
    ensures { result ≡ end_of kind ends }
{
    match kind {
        EndOf::Exprs => ends.exprs,
        EndOf::Pats => ends.pats,
        EndOf::Bindings => ends.bindings,
    }
}

/// Reads the end of a root, which is one step.
fn read_end(kind: EndOf, roots: &[Root], i: usize, steps: &mut Steps) -> u32
    requires { i < length roots.now }
    ensures end { result ≡ end_at kind roots.now i }
    ensures steps { steps.new ≡ steps.old + 1 }
{
    steps.tick();
    end_of(kind, roots[i].ends)
}

/// Returns the number of roots before the first whose end exceeds the id.
fn count_before(kind: EndOf, roots: &[Root], id: u32, steps: &mut Steps) -> usize
    requires { EndsRise kind roots.now }
    ensures before { (i : ℕ) → i < result → end_at kind roots.now i ≤ id }
    ensures behind { (i : ℕ) → result ≤ i → i < length roots.now → id < end_at kind roots.now i }
    ensures within { result ≤ length roots.now }
    ensures counted { steps.old ≤ steps.new }
    ensures steps { AtMostDigitsOf (length roots.now) (steps.new - steps.old) }
{
    let mut low = 0;
    let mut high = roots.len();
    while low < high {
        let middle = low + (high - low) / 2;
        if id < read_end(kind, roots, middle, steps) {
            high = middle;
        } else {
            low = middle + 1;
        }
    }
    low
}

/// Returns the expression of the root of this index, where it exists.
fn root_at(roots: &[Root], i: usize) -> Option<ExprId>
    ensures { result ≡ option_map (λ root. root.node) (slice_get roots.now i) }
{
    roots.get(i).map(|root| ExprId::from_raw(root.node))
}

/// Returns the first root whose end of this kind exceeds the id.
pub(crate) fn first_root(kind: EndOf, roots: &[Root], id: u32, steps: &mut Steps) -> Option<ExprId>
    requires { EndsRise kind roots.now }
    ensures found { result ≡ root_for kind roots.now id }
    ensures counted { steps.old ≤ steps.new }
    ensures steps { AtMostDigitsOf (length roots.now) (steps.new - steps.old) }
{
    let before = count_before(kind, roots, id, steps);
    root_at(roots, before)
}
