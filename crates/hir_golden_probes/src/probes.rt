//! The probes of a store: what golden cases ask of it beside the questions of `hir_text`.

use crate::paths::Part;
use crate::roots::Rooted;
use crate::try_walks::{TryWalk, Way};
use crate::{blocks, equality, paths, precedences, roots, scopes, try_walks};
use hir_base::{BlockId, ExprPrecedence, ExpressionStoreOwnerId};
use hir_node::Path;
use hir_text_defs::{Asked, Finished};
use hir_text_nodes::{Answer, Node, TextError, Words, next, opt_next, put_found, put_yes_or_no};
use std::alloc::Global;
use std::collections::BTreeMap;

/// What a probe asks.
#[derive(Drop)]
enum ProbeKind {
    Equal(Node, Node),
    Copies,
    SameStore,
    SameSources,
    SameScopes,
    CountedScopes,
    ScopesByTables(Option<ExpressionStoreOwnerId>),
    CountedRoot(Rooted),
    TryWalk(TryWalk),
    Parens(ExprPrecedence, ExprPrecedence),
    Blocks(BTreeMap<BlockId, u32>),
    Path(Path, Part),
}

/// A probe of a store.
#[derive(Drop)]
pub struct Probe(ProbeKind);

fn read_parens(words: &mut Words<'_>) -> Result<ProbeKind, TextError> {
    let child = precedences::next_precedence(words)?;
    Ok(ProbeKind::Parens(child, precedences::next_precedence(words)?))
}

fn read_path(words: &mut Words<'_>) -> Result<ProbeKind, TextError> {
    let path = next(words)?;
    match paths::next_part(words) {
        Ok(part) => Ok(ProbeKind::Path(path, part)),
        Err(stop) => Err(stop),
    }
}

/// The walk that can stop of this word.
fn read_walk(word: &str, words: &mut Words<'_>) -> Result<Option<ProbeKind>, TextError> {
    let way = match word {
        "try-children" => Way::Children,
        "try-children-without-pats" => Way::ChildrenWithoutPats,
        "try-walk-pats" => Way::Pats,
        "try-bindings-in" => Way::Bindings,
        "try-exprs-in" => Way::Exprs,
        _ => return Ok(None),
    };
    let from = next(words)?;
    let end = next(words)?;
    Ok(Some(ProbeKind::TryWalk(TryWalk { way, from, end })))
}

/// The probe of this word, where it is one; the line may go on.
fn read_front(word: &str, words: &mut Words<'_>) -> Result<Option<ProbeKind>, TextError> {
    Ok(Some(match word {
        "equal" => ProbeKind::Equal(next(words)?, next(words)?),
        "copies" => ProbeKind::Copies,
        "same-store" => ProbeKind::SameStore,
        "same-sources" => ProbeKind::SameSources,
        "same-scopes" => ProbeKind::SameScopes,
        "counted-scopes" => ProbeKind::CountedScopes,
        "scopes-by-tables" => ProbeKind::ScopesByTables(opt_next(words)?),
        "counted-root-of" => ProbeKind::CountedRoot(roots::next_rooted(words)?),
        "parens" => read_parens(words)?,
        "blocks" => ProbeKind::Blocks(blocks::read_maps(words)?),
        "path" => read_path(words)?,
        _ => return read_walk(word, words),
    }))
}

/// Reads the probe of a line, where it is one.
pub fn read_probe(word: &str, words: Words<'_>) -> Result<Option<Probe>, TextError> {
    let mut words = words;
    let Some(kind) = read_front(word, &mut words)? else {
        return Ok(None);
    };
    words.end()?;
    Ok(Some(Probe(kind)))
}

impl Probe {
    /// Writes the answer to the probe.
    pub fn ask(
        &self,
        alloc: Global,
        kept: Option<&Finished>,
        asked: &Asked<'_>,
        answer: &mut Answer,
    ) -> Result<(), TextError> {
        let store = asked.store;
        match &self.0 {
            ProbeKind::Equal(first, second) => equality::equal(store, first, second, answer)?,
            ProbeKind::Copies => equality::copies(store, answer)?,
            ProbeKind::SameStore => equality::same_store(kept, store, answer)?,
            ProbeKind::SameSources => equality::same_sources(kept, asked.sources, answer)?,
            ProbeKind::SameScopes => scopes::ask_same(alloc, kept, asked, answer)?,
            ProbeKind::CountedScopes => scopes::ask_counted(alloc, asked, answer)?,
            ProbeKind::ScopesByTables(owner) => {
                scopes::ask_by_tables(alloc, asked, owner, answer)?;
            }
            ProbeKind::CountedRoot(node) => put_found(
                answer,
                &roots::counted_root_of(store, *node),
            )?,
            ProbeKind::TryWalk(walk) => try_walks::ask(alloc, store, *walk, answer)?,
            ProbeKind::Parens(child, parent) => {
                put_yes_or_no(answer, child.needs_parentheses_in(*parent))?;
            }
            ProbeKind::Blocks(maps) => blocks::write(store, maps, answer)?,
            ProbeKind::Path(path, part) => paths::write_part(alloc, path, *part, answer)?,
        }
        Ok(())
    }
}
