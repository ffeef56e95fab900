//! The walk over the patterns of a pattern, by turns: each pattern is entered before its child patterns and
//! left after them. It goes from turn to turn by the links that the store keeps, so it takes no memory and
//! doesn't recurse.

ghost use Rattle.std.specs.Prelude.{◌≡◌, ◌<◌, Some, Ok, length};
ghost use Rattle.hir_node.specs.Runs.{MayRun};
ghost use Rattle.hir_store_core.specs.PatLinks.{HasPatLinks};
ghost use Rattle.hir_store_core.specs.PatLists.{child_pats_of};
ghost use Rattle.hir_store_core.specs.Tries.{Tries};
ghost use Rattle.hir_store_core.specs.internal.PatTurns.{turn_within, turn_behind, turns};

use crate::pat_links::{PatLink, PatLinks};
use crate::store::ExpressionStore;
use hir_node::PatId;

/// A turn of the walk.
#[derive(Clone, Copy, Drop)]
pub(crate) enum Turn {
    /// Before the child patterns of this one.
    Enter(PatId),
    /// After the child patterns of this one.
    Leave(PatId),
}

/// The work that is done at each turn, which may refuse the turn.
pub(crate) trait TurnVisitor<E> {
    ghost use Rattle.std.specs.Prelude.{Result};
    ghost use Rattle.hir_store_core.specs.declared.pat_turns.Turn.{Turn};
    ghost use Rattle.hir_store_core.specs.declared.pat_turns.Turn.TheVariants.{Enter, Leave};

    // what has to hold of the value for a turn
    ghost may: { Self → Turn → Type 0 };

    // relates the value before a turn, the turn, the result, and the value after it
    ghost step: { Self → Turn → Result (Unit {0}) E → Self → Type 0 };

    /// Enters the pattern.
    fn on_enter(&mut self, id: PatId) -> Result<(), E>
        requires { may self.old (Enter id) }
        ensures { step self.old (Enter id) result self.new };

    /// Leaves the pattern.
    fn on_leave(&mut self, id: PatId) -> Result<(), E>
        requires { may self.old (Leave id) }
        ensures { step self.old (Leave id) result self.new };
}

impl ExpressionStore {
    /// Returns the turn after a pattern is entered.
    fn turn_within(&self, id: PatId) -> Option<Turn>
        requires { id < length self.now.nodes.pats }
        ensures { result ≡ Some (turn_within id (child_pats_of self.now.nodes id)) }
    {
        match self[id].child_pats().next() {
            Some(child) => Some(Turn::Enter(child)),
            None => Some(Turn::Leave(id)),
        }
    }

    /// Calls the visitor at each turn of the walk over a pattern, by these links, up to the first that it
    /// refuses.
    fn walk_by<E, V: TurnVisitor<E>>(
        &self,
        links: &PatLinks,
        top: PatId,
        visitor: &mut V,
    ) -> Result<(), E>
        requires in_range { top < length self.now.nodes.pats }
        requires links { HasPatLinks self.now.nodes.pats links.now }
        requires may { MayRun V.may (λ v t w. V.step v t (Ok tt) w) visitor.old (turns self.now.nodes top) }
        ensures { Tries V.step visitor.old (turns self.now.nodes top) result visitor.new }
    {
        self.has_no_fault();
        let mut coming = Some(Turn::Enter(top));
        while let Some(turn) = coming {
            coming = match turn {
                Turn::Enter(id) => {
                    visitor.on_enter(id)?;
                    self.turn_within(id)
                }
                Turn::Leave(id) => {
                    visitor.on_leave(id)?;
                    turn_behind(links, top, id)
                }
            };
        }
        Ok(())
    }

    /// Calls the visitor at each turn of the walk over a pattern, up to the first that it refuses.
    pub(crate) fn walk_turns<E, V: TurnVisitor<E>>(
        &self,
        top: PatId,
        visitor: &mut V,
    ) -> Result<(), E>
        requires in_range { top < length self.now.nodes.pats }
        requires may { MayRun V.may (λ v t w. V.step v t (Ok tt) w) visitor.old (turns self.now.nodes top) }
        ensures { Tries V.step visitor.old (turns self.now.nodes top) result visitor.new }
    {
        match self.kept_parts() {
            Some(kept) => self.walk_by(&kept.links, top, visitor),
            None => Ok(()),
        }
    }
}

/// Returns the turn after a pattern is left, where the walk over this top has one.
fn turn_behind(links: &PatLinks, top: PatId, id: PatId) -> Option<Turn>
    requires { id < length links.now }
    ensures { result ≡ turn_behind links.now top id }
{
    if id == top {
        return None;
    }
    match links.link(id) {
        PatLink::Next(next) => Some(Turn::Enter(next)),
        PatLink::Last(parent) => Some(Turn::Leave(parent)),
        PatLink::Alone => None,
    }
}
