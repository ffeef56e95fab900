//! The visit of a node that tests each id that the node passes to a visitor, and notes the node as the
//! parent of its children.

ghost use Rattle.std.specs.Prelude.{◌<◌, [], ◌∷◌, IsTrue, length};
ghost use Rattle.hir_validate.specs.internal.Edges.{CanNote, NotesIds, Notes};

use crate::sizes::Sizes;
use hir_forest::Parents;
use hir_node::{ExprId, LifetimeRefId, PatId, StoreVisitor, TypeRefId};

/// The parents of the nodes visited so far, and whether each id that they name is in range. A visitor's
/// calls return nothing, so it keeps that.
#[derive(Drop)]
pub(crate) struct EdgeVisitor {
    pub(crate) sizes: Sizes,
    pub(crate) parents: Parents,
    pub(crate) all_in_range: bool,
}

impl StoreVisitor for EdgeVisitor {
    ghost may = { λ v c. CanNote v };

    ghost step = { Notes };

    fn on_expr(&mut self, id: ExprId) {
        let number = id.into_raw() as usize;
        self.note(number < self.sizes.exprs, number);
    }

    fn on_anon_const_expr(&mut self, id: ExprId) {
        let number = id.into_raw() as usize;
        self.note(number < self.sizes.exprs, number);
    }

    fn on_pat(&mut self, id: PatId) {
        let number = id.into_raw() as usize;
        self.note(number < self.sizes.pats, self.sizes.exprs + number);
    }

    fn on_type(&mut self, id: TypeRefId) {
        let number = id.into_raw() as usize;
        self.note(
            number < self.sizes.types,
            self.sizes.exprs + self.sizes.pats + number,
        );
    }

    fn on_lifetime(&mut self, id: LifetimeRefId) {
        self.all_in_range = self.all_in_range && (id.into_raw() as usize) < self.sizes.lifetimes;
    }
}

impl EdgeVisitor {
    /// Adds a child to the last list, if the child is in range.
    fn note(&mut self, is_in_range: bool, place: usize)
        requires can { CanNote self.old }
        requires within { IsTrue is_in_range → place < length self.old.parents.parents }
        ensures { NotesIds self.old is_in_range (place ∷ []) self.new }
    {
        if !is_in_range {
            self.all_in_range = false;
            return;
        }
        self.parents.push_child(place);
    }
}
