//! The walks that can stop.

use hir_collections::Idx;
use hir_node::{BindingId, ExprId, PatId};
use hir_store::ExpressionStore;
use hir_text_nodes::{Answer, TextError, put};
use hir_text_store::answer_unknown;
use std::alloc::Global;

/// What a walk goes over.
#[derive(Clone, Copy, Drop)]
pub(crate) enum Way {
    Children,
    ChildrenWithoutPats,
    Pats,
    Bindings,
    Exprs,
}

/// A walk from the node of a number that stops at the id of a number.
#[derive(Clone, Copy, Drop)]
pub(crate) struct TryWalk {
    pub(crate) way: Way,
    pub(crate) from: u32,
    pub(crate) end: u32,
}

/// Why a walk stopped.
#[derive(Clone, Copy, Drop)]
enum Halt {
    /// It came to the id that it stops at.
    Here,
    /// Out of memory.
    Memory,
}

/// The ids that a walk visits, up to the one that it stops at.
#[derive(Drop)]
struct Visited {
    text: Answer,
    end: u32,
}

impl Visited {
    /// Notes an id, and refuses to go on after the one that the walk stops at.
    fn visit<K>(&mut self, id: Idx<K>) -> Result<(), Halt> {
        let number = id.into_raw();
        if put(&mut self.text, &number).is_err() {
            return Err(Halt::Memory);
        }
        if number == self.end {
            return Err(Halt::Here);
        }
        Ok(())
    }
}

/// Walks over the child expressions of an expression; returns how it ended, where the expression exists.
fn walk_expr(
    store: &ExpressionStore,
    id: ExprId,
    with_pats: bool,
    found: &mut Visited,
) -> Option<Result<(), Halt>> {
    if !store.has_expr(id) {
        return None;
    }
    Some(if with_pats {
        store.try_walk_child_exprs(id, &mut |child: ExprId| found.visit(child))
    } else {
        store.try_walk_child_exprs_without_pats(id, &mut |child: ExprId| found.visit(child))
    })
}

/// Walks over patterns from a pattern; returns how it ended, where the pattern exists.
fn walk_pats(store: &ExpressionStore, id: PatId, found: &mut Visited) -> Option<Result<(), Halt>> {
    if !store.has_pat(id) {
        return None;
    }
    Some(store.try_walk_pats(id, &mut |pat: PatId| found.visit(pat)))
}

/// Walks over the bindings or the expressions in a pattern; returns how it ended, where the pattern exists.
fn walk_in_pat(
    store: &ExpressionStore,
    id: PatId,
    over_exprs: bool,
    found: &mut Visited,
) -> Option<Result<(), Halt>> {
    if !store.has_pat(id) {
        return None;
    }
    Some(if over_exprs {
        store.try_walk_exprs_in_pat(id, &mut |expr: ExprId| found.visit(expr))
    } else {
        store.try_walk_bindings_in_pat(id, &mut |binding: BindingId| found.visit(binding))
    })
}

/// Does a walk; returns how it ended, where the node exists.
fn walk_from(
    store: &ExpressionStore,
    walk: TryWalk,
    found: &mut Visited,
) -> Option<Result<(), Halt>> {
    match walk.way {
        Way::Children => walk_expr(store, Idx::from_raw(walk.from), true, found),
        Way::ChildrenWithoutPats => walk_expr(store, Idx::from_raw(walk.from), false, found),
        Way::Pats => walk_pats(store, Idx::from_raw(walk.from), found),
        Way::Bindings => walk_in_pat(store, Idx::from_raw(walk.from), false, found),
        Way::Exprs => walk_in_pat(store, Idx::from_raw(walk.from), true, found),
    }
}

/// `try-children E E` and so on: what a walk visits up to an id, and whether it was refused there.
pub(crate) fn ask(
    alloc: Global,
    store: &ExpressionStore,
    walk: TryWalk,
    answer: &mut Answer,
) -> Result<(), TextError> {
    let mut found = Visited {
        text: Answer::new(alloc),
        end: walk.end,
    };
    match walk_from(store, walk, &mut found) {
        None => answer_unknown(answer)?,
        Some(Ok(())) => answer.join(found.text.as_str())?,
        Some(Err(Halt::Here)) => {
            answer.join(found.text.as_str())?;
            answer.word("refused")?;
        }
        Some(Err(Halt::Memory)) => return Err(TextError::Memory),
    }
    Ok(())
}
