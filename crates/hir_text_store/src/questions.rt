//! Questions on a store and its source map.

use crate::calls;
use crate::expansions::put_expansions;
use crate::refusals::{answer_unknown, differs};
use crate::saved::{put_arena, put_labels, put_store};
use crate::walks::{Walk, put_child_pats, put_visited};
use hir_base::{
    AstPtr, ExprSource, InFile, MacroCallPtr, PatSource, SyntheticSyntax, TypeSource, ast,
};
use hir_collections::TryClone;
use hir_node::{
    BindingId, Expr, ExprId, ExprOrPatId, GenericArgs, LabelId, NodeId, PatId, Path, PathId,
    TraitBoundModifier, TypeBound, TypeRefId,
};
use hir_store::{ExpressionStore, ExpressionStoreSourceMap, TypeBoundExt};
use hir_text_nodes::{
    Answer, Node, Read, TextError, Words, Write, next, precedence_text, prefixed, put, put_each,
    put_found, put_literal, put_yes_or_no, syntax,
};
use std::alloc::AllocError;

/// An arena of a store.
#[derive(Clone, Copy)]
pub enum Arena {
    Exprs,
    Pats,
    Bindings,
    Labels,
    Types,
    Lifetimes,
}

/// A question on a store and its source map.
#[derive(Drop)]
pub enum Question {
    Counts,
    Roots,
    Line(Node),
    Lines(Arena),
    StoreLines,
    Has(Node),
    HasPath(PathId),
    Calls(Node),
    CallsOfPath(Path),
    CallsOfArgs(GenericArgs),
    CallsOfBound(TypeBound),
    Visited(Walk),
    ChildPats(PatId),
    RootOf(Node),
    Parent(NodeId),
    Ancestors(NodeId),
    EnclosingClosure(ExprId),
    EnclosingLoop(ExprId),
    JumpTarget(ExprId),
    Precedence(ExprId),
    Negate(ExprId),
    OwnerOf(BindingId),
    HygieneOf(ExprOrPatId),
    CoroutineForClosure(ExprId),
    ClosureForCoroutine(ExprId),
    Sound(Path),
    BoundPath(TypeBound),
    Syntax(ExprOrPatId),
    ExprSyntax(ExprId),
    PatSyntax(PatId),
    TypeSyntax(TypeRefId),
    LabelSyntax(LabelId),
    FieldSyntax(ExprId),
    PatFieldSyntax(PatId),
    PatternsFor(BindingId),
    Diagnostics,
    NodeExpr(ExprSource),
    NodePat(PatSource),
    NodeType(TypeSource),
    NodeLabel(InFile<AstPtr<ast::Label>>),
    MacroExpansionExpr(InFile<AstPtr<ast::MacroExpr>>),
    NodeMacroFile(InFile<MacroCallPtr>),
    ExpansionOf(InFile<MacroCallPtr>),
    Expansions,
}

impl Read for Arena {
    fn read(words: &mut Words<'_>) -> Result<Arena, TextError> {
        match words.keyword() {
            "exprs" => Ok(Arena::Exprs),
            "pats" => Ok(Arena::Pats),
            "bindings" => Ok(Arena::Bindings),
            "labels" => Ok(Arena::Labels),
            "types" => Ok(Arena::Types),
            "lifetimes" => Ok(Arena::Lifetimes),
            _ => Err(TextError::Syntax),
        }
    }
}

fn read_has(words: &mut Words<'_>) -> Result<Question, TextError> {
    match prefixed(words, "path:")? {
        Some(id) => Ok(Question::HasPath(PathId::from_type_ref_unchecked(id))),
        None => Ok(Question::Has(next(words)?)),
    }
}

fn read_calls(words: &mut Words<'_>) -> Result<Question, TextError> {
    if words.flag("path") {
        Ok(Question::CallsOfPath(next(words)?))
    } else if words.flag("args") {
        Ok(Question::CallsOfArgs(next(words)?))
    } else if words.flag("bound") {
        Ok(Question::CallsOfBound(next(words)?))
    } else {
        Ok(Question::Calls(next(words)?))
    }
}

/// Takes what comes after the word `root-of`: a node of the kinds that are made for a root.
fn read_root_of(words: &mut Words<'_>) -> Result<Question, TextError> {
    let node = next(words)?;
    match node {
        Node::Expr(_) | Node::Pat(_) | Node::Binding(_) => Ok(Question::RootOf(node)),
        Node::Type(_) | Node::Label(_) | Node::Lifetime(_) => Err(TextError::Syntax),
    }
}

fn read_on_sources(word: &str, words: &mut Words<'_>) -> Result<Option<Question>, TextError> {
    Ok(Some(match word {
        "syntax" => Question::Syntax(next(words)?),
        "expr-syntax" => Question::ExprSyntax(next(words)?),
        "pat-syntax" => Question::PatSyntax(next(words)?),
        "type-syntax" => Question::TypeSyntax(next(words)?),
        "label-syntax" => Question::LabelSyntax(next(words)?),
        "field-syntax" => Question::FieldSyntax(next(words)?),
        "pat-field-syntax" => Question::PatFieldSyntax(next(words)?),
        "patterns-for" => Question::PatternsFor(next(words)?),
        "diagnostics" => Question::Diagnostics,
        "node-expr" => Question::NodeExpr(next(words)?),
        "node-pat" => Question::NodePat(next(words)?),
        "node-type" => Question::NodeType(next(words)?),
        "node-label" => Question::NodeLabel(next(words)?),
        "macro-expansion-expr" => Question::MacroExpansionExpr(next(words)?),
        "node-macro-file" => Question::NodeMacroFile(next(words)?),
        "expansion-of" => Question::ExpansionOf(next(words)?),
        "expansions" => Question::Expansions,
        _ => return Ok(None),
    }))
}

/// Reads a question on what is below a node or above it, or on sources.
fn read_on_tree(word: &str, words: &mut Words<'_>) -> Result<Option<Question>, TextError> {
    Ok(Some(match word {
        "children" => Question::Visited(Walk::Children(next(words)?)),
        "children-without-pats" => { Question::Visited(Walk::ChildrenWithoutPats(next(words)?)) }
        "walk-pats" => Question::Visited(Walk::Pats(next(words)?)),
        "walk-pats-shallow" => Question::Visited(Walk::PatsShallow(next(words)?)),
        "bindings-in" => Question::Visited(Walk::Bindings(next(words)?)),
        "exprs-in" => Question::Visited(Walk::Exprs(next(words)?)),
        "child-pats" => Question::ChildPats(next(words)?),
        "root-of" => read_root_of(words)?,
        "node-parent" => Question::Parent(next(words)?),
        "ancestors" => Question::Ancestors(next(words)?),
        "enclosing-closure" => Question::EnclosingClosure(next(words)?),
        "enclosing-loop" => Question::EnclosingLoop(next(words)?),
        "jump-target" => Question::JumpTarget(next(words)?),
        _ => return read_on_sources(word, words),
    }))
}

/// Returns how many labels a store has, of which it has no list.
fn count_labels(store: &ExpressionStore) -> usize {
    let mut count: usize = 0;
    for number in 0..u32::MAX {
        if !store.has_label(LabelId::from_raw(number)) {
            break;
        }
        count = count.saturating_add(1);
    }
    count
}

/// `nodes`
fn put_counts(answer: &mut Answer, store: &ExpressionStore) -> Result<(), AllocError> {
    put(answer, &("exprs", store.exprs().len()))?;
    put(answer, &("pats", store.pats().len()))?;
    put(answer, &("bindings", store.bindings().len()))?;
    put(answer, &("labels", count_labels(store)))?;
    put(answer, &("types", store.types().len()))?;
    put(answer, &("lifetimes", store.lifetimes().len()))
}

/// Writes the line of a node, where it exists.
fn put_opt_line<T: Write>(answer: &mut Answer, node: Option<&T>) -> Result<(), AllocError> {
    match node {
        Some(node) => put(answer, node),
        None => answer_unknown(answer),
    }
}

/// `line NODE`
fn put_line(answer: &mut Answer, store: &ExpressionStore, node: Node) -> Result<(), AllocError> {
    match node {
        Node::Expr(id) => put_opt_line(answer, store.get(id)),
        Node::Pat(id) => put_opt_line(answer, store.get(id)),
        Node::Type(id) => put_opt_line(answer, store.get(id)),
        Node::Binding(id) => put_opt_line(answer, store.get(id)),
        Node::Label(id) => put_opt_line(answer, store.get(id)),
        Node::Lifetime(id) => put_opt_line(answer, store.get(id)),
    }
}

/// `lines ARENA`
fn put_lines(answer: &mut Answer, store: &ExpressionStore, arena: Arena) -> Result<(), AllocError> {
    match arena {
        Arena::Exprs => put_arena(answer, store.exprs()),
        Arena::Pats => put_arena(answer, store.pats()),
        Arena::Bindings => put_arena(answer, store.bindings()),
        Arena::Labels => put_labels(answer, store),
        Arena::Types => put_arena(answer, store.types()),
        Arena::Lifetimes => put_arena(answer, store.lifetimes()),
    }
}

/// Returns whether the store has a node.
pub fn has_node(store: &ExpressionStore, node: Node) -> bool {
    match node {
        Node::Expr(id) => store.has_expr(id),
        Node::Pat(id) => store.has_pat(id),
        Node::Type(id) => store.has_type(id),
        Node::Binding(id) => store.has_binding(id),
        Node::Label(id) => store.has_label(id),
        Node::Lifetime(id) => store.has_lifetime(id),
    }
}

/// Returns the root that a node was made for, where it has one.
fn root_of(store: &ExpressionStore, node: Node) -> Option<ExprId> {
    match node {
        Node::Expr(id) if store.covers_expr(id) => Some(store.find_root_for_expr(id)),
        Node::Pat(id) if store.covers_pat(id) => Some(store.find_root_for_pat(id)),
        Node::Binding(id) if store.covers_binding(id) => Some(store.find_root_for_binding(id)),
        Node::Expr(_)
        | Node::Pat(_)
        | Node::Binding(_)
        | Node::Type(_)
        | Node::Label(_)
        | Node::Lifetime(_) => None,
    }
}

/// `negate E`: a literal.
fn put_negative(
    answer: &mut Answer,
    store: &ExpressionStore,
    id: ExprId,
) -> Result<(), AllocError> {
    let Some(expr) = store.get(id) else {
        return answer_unknown(answer);
    };
    let Expr::Literal(literal) = expr else {
        return answer.word("none");
    };
    match literal.try_clone()?.negate() {
        Some(negative) => put_literal(answer, &negative),
        None => answer.word("none"),
    }
}

/// `hygiene-of NODE`: by the call for its kind of node, where the call for either gives the same.
fn put_hygiene(
    answer: &mut Answer,
    store: &ExpressionStore,
    id: ExprOrPatId,
) -> Result<(), AllocError> {
    let found = match id {
        ExprOrPatId::ExprId(id) => store.expr_path_hygiene(id),
        ExprOrPatId::PatId(id) => store.pat_path_hygiene(id),
    };
    if store.expr_or_pat_path_hygiene(id) != found {
        return differs(answer);
    }
    put(answer, &found)
}

/// `coroutine-for-closure E`: the first expression has none before it.
fn put_coroutine(answer: &mut Answer, id: ExprId) -> Result<(), AllocError> {
    if id.into_raw() == 0 {
        return answer_unknown(answer);
    }
    put(answer, &ExpressionStore::coroutine_for_closure(id))
}

/// `closure-for-coroutine E`: the last number has none after it.
fn put_closure(answer: &mut Answer, id: ExprId) -> Result<(), AllocError> {
    if id.into_raw() == u32::MAX {
        return answer_unknown(answer);
    }
    put(answer, &ExpressionStore::closure_for_coroutine(id))
}

/// `bound-path BOUND`
fn put_bound_path(
    answer: &mut Answer,
    store: &ExpressionStore,
    bound: &TypeBound,
) -> Result<(), AllocError> {
    if !store.has_bound(bound) {
        return answer_unknown(answer);
    }
    if !store.bound_names_path(bound) {
        return answer.word("none");
    }
    match bound.as_path(store) {
        Some((path, modifier)) => {
            put(answer, path)?;
            match modifier {
                TraitBoundModifier::None => Ok(()),
                TraitBoundModifier::Maybe => answer.word("maybe"),
            }
        }
        None => answer.word("none"),
    }
}

/// Writes a source, or `none`.
fn put_syntax<K>(
    answer: &mut Answer,
    found: Result<InFile<AstPtr<K>>, SyntheticSyntax>,
) -> Result<(), AllocError> {
    match found {
        Ok(source) => put(answer, &syntax(source)),
        Err(SyntheticSyntax) => answer.word("none"),
    }
}

/// `diagnostics`: each in a line.
fn put_diagnostics(
    answer: &mut Answer,
    sources: &ExpressionStoreSourceMap,
) -> Result<(), AllocError> {
    for diagnostic in sources.diagnostics() {
        answer.next_line()?;
        put(answer, diagnostic)?;
    }
    Ok(())
}

impl Question {
    /// Reads a question, after its first word; `None` where no such question begins with it.
    pub fn read(word: &str, words: &mut Words<'_>) -> Result<Option<Question>, TextError> {
        Ok(Some(match word {
            "nodes" => Question::Counts,
            "list-roots" => Question::Roots,
            "line" => Question::Line(next(words)?),
            "lines" => Question::Lines(next(words)?),
            "store-lines" => Question::StoreLines,
            "has" => read_has(words)?,
            "calls" => read_calls(words)?,
            "precedence" => Question::Precedence(next(words)?),
            "negate" => Question::Negate(next(words)?),
            "owner-of" => Question::OwnerOf(next(words)?),
            "hygiene-of" => Question::HygieneOf(next(words)?),
            "coroutine-for-closure" => Question::CoroutineForClosure(next(words)?),
            "closure-for-coroutine" => Question::ClosureForCoroutine(next(words)?),
            "sound" => Question::Sound(next(words)?),
            "bound-path" => Question::BoundPath(next(words)?),
            _ => return read_on_tree(word, words),
        }))
    }

    /// Writes the answer of a store and its source map.
    pub fn ask(
        &self,
        store: &ExpressionStore,
        sources: &ExpressionStoreSourceMap,
        answer: &mut Answer,
    ) -> Result<(), AllocError> {
        match self {
            Question::Counts => put_counts(answer, store),
            Question::Roots => {
                for root in store.expr_roots() {
                    put(answer, &root)?;
                }
                Ok(())
            }
            Question::Line(node) => put_line(answer, store, *node),
            Question::Lines(arena) => put_lines(answer, store, *arena),
            Question::StoreLines => put_store(answer, store, sources),
            Question::Has(node) => put_yes_or_no(answer, has_node(store, *node)),
            Question::HasPath(id) => put_yes_or_no(answer, store.has_path(*id)),
            Question::Calls(node) => calls::put_of_node(answer, store, *node),
            Question::CallsOfPath(path) => calls::put_of_path(answer, path),
            Question::CallsOfArgs(args) => calls::put_of_args(answer, args),
            Question::CallsOfBound(bound) => calls::put_of_bound(answer, bound),
            Question::Visited(walk) => put_visited(answer, store, *walk),
            Question::ChildPats(id) => put_child_pats(answer, store, *id),
            Question::RootOf(node) => put_found(answer, &root_of(store, *node)),
            Question::Parent(node) => put_found(answer, &store.parent(*node)),
            Question::Ancestors(node) => {
                for ancestor in store.ancestors(*node) {
                    put(answer, &ancestor)?;
                }
                Ok(())
            }
            Question::EnclosingClosure(id) => put_found(answer, &store.enclosing_closure(*id)),
            Question::EnclosingLoop(id) => put_found(answer, &store.enclosing_loop(*id)),
            Question::JumpTarget(id) => put_found(answer, &store.jump_target(*id)),
            Question::Precedence(id) => match store.get(*id) {
                Some(expr) => answer.word(precedence_text(expr.precedence())),
                None => answer_unknown(answer),
            },
            Question::Negate(id) => put_negative(answer, store, *id),
            Question::OwnerOf(id) => put_found(answer, &store.binding_owner(*id)),
            Question::HygieneOf(id) => put_hygiene(answer, store, *id),
            Question::CoroutineForClosure(id) => put_coroutine(answer, *id),
            Question::ClosureForCoroutine(id) => put_closure(answer, *id),
            Question::Sound(path) => put_yes_or_no(answer, store.path_is_sound(path)),
            Question::BoundPath(bound) => put_bound_path(answer, store, bound),
            Question::Syntax(id) => put_syntax(answer, sources.expr_or_pat_syntax(*id)),
            Question::ExprSyntax(id) => put_syntax(answer, sources.expr_syntax(*id)),
            Question::PatSyntax(id) => put_syntax(answer, sources.pat_syntax(*id)),
            Question::TypeSyntax(id) => put_syntax(answer, sources.type_syntax(*id)),
            Question::LabelSyntax(id) if sources.has_label_syntax(*id) => {
                put(answer, &syntax(sources.label_syntax(*id)))
            }
            Question::FieldSyntax(id) if sources.has_field_syntax(*id) => {
                put(answer, &syntax(sources.field_syntax(*id)))
            }
            Question::PatFieldSyntax(id) if sources.has_pat_field_syntax(*id) => {
                put(answer, &syntax(sources.pat_field_syntax(*id)))
            }
            Question::LabelSyntax(_) | Question::FieldSyntax(_) | Question::PatFieldSyntax(_) => {
                answer.word("none")
            }
            Question::PatternsFor(id) => put_each(answer, sources.patterns_for_binding(*id)),
            Question::Diagnostics => put_diagnostics(answer, sources),
            Question::NodeExpr(source) => put_found(answer, &sources.node_expr(*source)),
            Question::NodePat(source) => put_found(answer, &sources.node_pat(*source)),
            Question::NodeType(source) => put_found(answer, &sources.node_type(*source)),
            Question::NodeLabel(source) => put_found(answer, &sources.node_label(*source)),
            Question::MacroExpansionExpr(source) => {
                put_found(answer, &sources.macro_expansion_expr(*source))
            }
            Question::NodeMacroFile(call) => put_found(answer, &sources.node_macro_file(*call)),
            Question::ExpansionOf(call) => put_found(answer, &sources.expansion(*call)),
            Question::Expansions => put_expansions(answer, sources),
        }
    }
}
