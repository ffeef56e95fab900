//! A store and its source map, written as the lines that make them.

use crate::expansions::expansions_by_place;
use hir_base::{BlockId, HygieneId, InFile, SyntaxNodePtr};
use hir_collections::{ArenaIter, Idx};
use hir_node::{Expr, ExprId, LabelId, PatId};
use hir_store::{ExpressionStore, ExpressionStoreSourceMap};
use hir_store_core::Missing;
use hir_text_nodes::{Answer, Write, pointer, put, syntax};
use std::alloc::{AllocError, Global};
use std::collections::BTreeMap;

/// Writes words in a line of their own.
fn put_line<T: Write>(answer: &mut Answer, words: &T) -> Result<(), AllocError> {
    answer.next_line()?;
    put(answer, words)
}

/// Writes the lines of an arena.
pub(crate) fn put_arena<K, T: Write>(
    answer: &mut Answer,
    nodes: ArenaIter<'_, K, T>,
) -> Result<(), AllocError> {
    for (_, node) in nodes {
        put_line(answer, node)?;
    }
    Ok(())
}

/// Writes the lines of the labels, of which a store has no list.
pub(crate) fn put_labels(answer: &mut Answer, store: &ExpressionStore) -> Result<(), AllocError> {
    for number in 0..u32::MAX {
        match store.get(LabelId::from_raw(number)) {
            Some(label) => put_line(answer, label)?,
            None => break,
        }
    }
    Ok(())
}

/// Writes the lines of the nodes of all arenas, and of the roots in their order.
fn put_nodes(answer: &mut Answer, store: &ExpressionStore) -> Result<(), AllocError> {
    put_arena(answer, store.bindings())?;
    put_labels(answer, store)?;
    put_arena(answer, store.lifetimes())?;
    put_arena(answer, store.types())?;
    put_arena(answer, store.pats())?;
    put_arena(answer, store.exprs())?;
    put_line(answer, &"roots")?;
    for root in store.expr_roots() {
        put_line(answer, &("root", root))?;
    }
    Ok(())
}

/// Writes a hygiene that isn't that of source text.
fn put_hygiene<K>(
    answer: &mut Answer,
    word: &str,
    id: Idx<K>,
    hygiene: HygieneId,
) -> Result<(), AllocError> {
    if hygiene == HygieneId::ROOT {
        return Ok(());
    }
    put_line(answer, &(word, id, hygiene))
}

/// Writes the hygiene of expressions and patterns, and the owners of bindings.
fn put_side_tables(answer: &mut Answer, store: &ExpressionStore) -> Result<(), AllocError> {
    for (id, _) in store.exprs() {
        put_hygiene(answer, "hygiene", id, store.expr_path_hygiene(id))?;
    }
    for (id, _) in store.pats() {
        put_hygiene(answer, "pat-hygiene", id, store.pat_path_hygiene(id))?;
    }
    for (id, _) in store.bindings() {
        match store.binding_owner(id) {
            Some(owner) => put_line(answer, &("owner", id, owner))?,
            None => {}
        }
    }
    Ok(())
}

fn blocks_of_exprs(
    alloc: Global,
    store: &ExpressionStore,
) -> Result<BTreeMap<BlockId, u32>, AllocError> {
    let mut blocks = BTreeMap::new(alloc);
    for (_, expr) in store.exprs() {
        if let Expr::Block { id: Some(id), .. } = expr {
            let _ = blocks.insert(*id, 0)?;
        }
    }
    Ok(blocks)
}

/// Returns the block, where that is what is missing: `blocks` names nothing else.
fn missing_block(missing: &Missing) -> Option<BlockId> {
    match missing {
        Missing::DefMap(block) => Some(*block),
        Missing::Name(_)
        | Missing::Variant(_)
        | Missing::Crate(_)
        | Missing::Signature(_)
        | Missing::Body(_)
        | Missing::Fields(_)
        | Missing::TypeParam(_)
        | Missing::LifetimeParam(_) => None,
    }
}

/// Writes the blocks that may hold items, where each of them is known. Returns the first that isn't.
fn put_known_blocks(
    answer: &mut Answer,
    store: &ExpressionStore,
    known: &BTreeMap<BlockId, u32>,
) -> Result<Option<BlockId>, AllocError> {
    match store.blocks(known) {
        Ok(blocks) => {
            for (block, _) in blocks {
                put_line(answer, &("block-scope", block))?;
            }
            Ok(None)
        }
        Err(missing) => Ok(missing_block(&missing)),
    }
}

/// Writes the blocks that may hold items, in their order. A store gives them to those who know them, and
/// names the first that is missing; nearly all are blocks of expressions.
fn put_blocks(answer: &mut Answer, store: &ExpressionStore) -> Result<(), AllocError> {
    let mut known = blocks_of_exprs(answer.alloc(), store)?;
    for _ in 0..u32::MAX {
        let Some(block) = put_known_blocks(answer, store, &known)? else {
            break;
        };
        let _ = known.insert(block, 0)?;
    }
    Ok(())
}

/// Writes where a node comes from, and what that became, where it became something.
fn put_source<A, B: Write>(
    answer: &mut Answer,
    words: (&str, &str),
    id: Idx<A>,
    source: &InFile<SyntaxNodePtr>,
    meaning: &Option<B>,
) -> Result<(), AllocError> {
    let (back, forth) = words;
    put_line(answer, &(back, id, source))?;
    match meaning {
        Some(meaning) => put_line(answer, &(forth, source, meaning)),
        None => Ok(()),
    }
}

fn put_expr_sources(
    answer: &mut Answer,
    sources: &ExpressionStoreSourceMap,
    id: ExprId,
) -> Result<(), AllocError> {
    if let Ok(source) = sources.expr_syntax(id) {
        let source = &syntax(source);
        let meaning = sources.node_expr(pointer(*source));
        put_source(answer, ("map-expr-back", "map-expr"), id, source, &meaning)?;
    }
    if sources.has_field_syntax(id) {
        let source = syntax(sources.field_syntax(id));
        put_line(answer, &("map-field-back", id, source))?;
    }
    Ok(())
}

fn put_pat_sources(
    answer: &mut Answer,
    sources: &ExpressionStoreSourceMap,
    id: PatId,
) -> Result<(), AllocError> {
    if let Ok(source) = sources.pat_syntax(id) {
        let source = &syntax(source);
        let meaning = sources.node_pat(pointer(*source));
        put_source(answer, ("map-pat-back", "map-pat"), id, source, &meaning)?;
    }
    if sources.has_pat_field_syntax(id) {
        let source = syntax(sources.pat_field_syntax(id));
        put_line(answer, &("map-pat-field-back", id, source))?;
    }
    Ok(())
}

fn put_label_sources(
    answer: &mut Answer,
    store: &ExpressionStore,
    sources: &ExpressionStoreSourceMap,
) -> Result<(), AllocError> {
    for number in 0..u32::MAX {
        let id = LabelId::from_raw(number);
        if !store.has_label(id) {
            break;
        }
        if sources.has_label_syntax(id) {
            let source = &syntax(sources.label_syntax(id));
            let meaning = sources.node_label(pointer(*source));
            put_source(
                answer,
                ("map-label-back", "map-label"),
                id,
                source,
                &meaning,
            )?;
        }
    }
    Ok(())
}

/// Writes where nodes come from, and the patterns of bindings.
fn put_sources(
    answer: &mut Answer,
    store: &ExpressionStore,
    sources: &ExpressionStoreSourceMap,
) -> Result<(), AllocError> {
    for (id, _) in store.exprs() {
        put_expr_sources(answer, sources, id)?;
    }
    for (id, _) in store.pats() {
        put_pat_sources(answer, sources, id)?;
    }
    for (id, _) in store.types() {
        if let Ok(source) = sources.type_syntax(id) {
            let source = &syntax(source);
            let meaning = sources.node_type(pointer(*source));
            put_source(answer, ("map-type-back", "map-type"), id, source, &meaning)?;
        }
    }
    for (id, _) in store.bindings() {
        for pat in sources.patterns_for_binding(id) {
            put_line(answer, &("definition", id, pat))?;
        }
    }
    put_label_sources(answer, store, sources)
}

/// `store-lines`: the lines that make the store and its source map.
pub(crate) fn put_store(
    answer: &mut Answer,
    store: &ExpressionStore,
    sources: &ExpressionStoreSourceMap,
) -> Result<(), AllocError> {
    put_nodes(answer, store)?;
    put_side_tables(answer, store)?;
    put_blocks(answer, store)?;
    put_sources(answer, store, sources)?;
    let places = expansions_by_place(answer.alloc(), sources)?;
    for (place, expansion) in places.iter() {
        put_line(answer, &("expansion", place.source(), expansion))?;
    }
    for diagnostic in sources.diagnostics() {
        put_line(answer, &("diagnostic", diagnostic))?;
    }
    Ok(())
}
