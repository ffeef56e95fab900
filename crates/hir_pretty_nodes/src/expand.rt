//! What a node expands to: tokens for its documents.

ghost use Rattle.std.specs.Prelude.{◌≡◌, true, OnOk, slice_get};
ghost use Rattle.hir_node.specs.declared.node_id.NodeId.TheVariants as node;
ghost use Rattle.hir_pretty_docs.specs.declared.token.Token.TheVariants as tokens;
ghost use Rattle.hir_pretty_nodes.specs.Prelude.{PrintEnv, docs_of, stands_in_parentheses, precedence_found, coroutine_body, is_short, DocsDecrease, is_node, env_of, stacked, ExpandsToken, AddsIn};

use crate::names::{is_printed, write_name};
use crate::{Printer, Token, Tokens};
use hir_base::ExprPrecedence;
use hir_collections::Text;
use hir_node::{BindingAnnotation, ClosureKind, Expr, ExprId, GenericArgs, Pat, RecordFieldPat};
use hir_pretty_layout::PieceWriter;
use hir_store_core::ExpressionStore;
use std::alloc::AllocError;

/// Whether an expression is in parentheses under one of this precedence.
fn stands_in_parentheses(store: &ExpressionStore, id: ExprId, parent: ExprPrecedence) -> bool
    ensures { result ≡ stands_in_parentheses
        (precedence_found (slice_get store.now.nodes.exprs id)) parent }
{
    let child = if store.has_expr(id) {
        store[id].precedence()
    } else {
        ExprPrecedence::Unambiguous
    };
    // `||` under `||` and `&&` under `&&` are without parentheses.
    let is_chain = matches!(
        (child, parent),
        (ExprPrecedence::LOr, ExprPrecedence::LOr) | (ExprPrecedence::LAnd, ExprPrecedence::LAnd)
    );
    child.needs_parentheses_in(parent) && !is_chain
}

/// The body of a closure that is a coroutine, and any other expression itself.
fn coroutine_body(store: &ExpressionStore, id: ExprId) -> ExprId
    ensures { result ≡ coroutine_body (slice_get store.now.nodes.exprs id) id }
{
    if store.has_expr(id) {
        if let Expr::Closure {
            args: _,
            arg_types: _,
            ret_type: _,
            body,
            closure_kind: ClosureKind::Coroutine { kind: _, source: _ },
            capture_by: _,
        } = &store[id]
        {
            return *body;
        }
    }
    id
}

/// Whether a field's pattern binds its name as it is printed, so that the name alone is printed.
fn is_short(store: &ExpressionStore, words: &[Text], field: &RecordFieldPat) -> bool
    ensures { (s : PrintEnv) → s.nodes ≡ store.now.nodes → s.words ≡ words.now
        → result ≡ is_short s field.now.name (slice_get store.now.nodes.pats field.now.pat) }
{
    if store.has_pat(field.pat) {
        if let Pat::Bind { id, subpat: None } = &store[field.pat] {
            return store.has_binding(*id)
                && matches!(store[*id].mode, BindingAnnotation::Unannotated)
                && is_printed(words, field.name.as_str(), store[*id].name.as_str());
        }
    }
    false
}

fn add_expr<'a>(tokens: &mut Tokens<'a>, store: &'a ExpressionStore, id: ExprId)
    ensures { AddsIn store.now tokens.old.stack (λ s. docs_of s (node.Expr id)) tokens.new.stack }
{
    if store.has_expr(id) {
        tokens.add_expr(&store[id]);
    }
}

impl<'a, W: PieceWriter> Printer<'a, W> {
    /// Adds generic arguments in `::<` and `>`. The first text is written at once, so that less is added than
    /// they are.
    // Called once, for speed: within `expand` it makes each node that is printed take more instructions.
    fn add_generic_args(&mut self, args: &'a GenericArgs) -> Result<(), AllocError>
        ensures { OnOk result (ExpandsToken W.step (tokens.GenericArgs args.entry)
            (stacked self.old) (stacked self.new)) }
    {
        self.writer.text("::<")?;
        self.tokens.add_args(args);
        self.tokens.add(&[Token::Text(">")]);
        Ok(())
    }

    /// Adds what a node expands to. The name of a field is written at once, so that less is added than it is.
    pub(crate) fn expand(&mut self, token: &Token<'a>) -> Result<(), AllocError>
        requires node { is_node token.now ≡ true }
        requires fall { DocsDecrease (env_of self.old) }
        ensures { OnOk result (ExpandsToken W.step token.now (stacked self.old) (stacked self.new)) }
    {
        let store = self.store;
        match token {
            Token::Expr(id) => Ok(add_expr(&mut self.tokens, store, *id)),
            Token::ExprIn(id, parent) => {
                let is_enclosed = stands_in_parentheses(store, *id, *parent);
                self.tokens.add_if(is_enclosed, "(");
                add_expr(&mut self.tokens, store, *id);
                Ok(self.tokens.add_if(is_enclosed, ")"))
            }
            Token::ExprList(ending, first, others) => {
                add_expr(&mut self.tokens, store, *first);
                Ok(self.tokens.add_others(*ending, *others))
            }
            Token::CoroutineBody(id) => {
                let body = coroutine_body(store, *id);
                Ok(add_expr(&mut self.tokens, store, body))
            }
            Token::Pattern(id) if store.has_pat(*id) => Ok(self.tokens.add_pat(&store[*id])),
            Token::Pattern(_) => Ok(()),
            Token::Type(id) if store.has_type(*id) => Ok(self.tokens.add_type(&store[*id])),
            Token::Type(_) => Ok(()),
            Token::FieldPat(field) => {
                write_name(&mut self.writer, self.words, field.name.as_str())?;
                if is_short(store, self.words, *field) {
                    return Ok(());
                }
                let pattern = Token::Pattern(field.pat);
                Ok(self.tokens.add(&[Token::Text(": "), pattern]))
            }
            Token::GenericArgs(args) => self.add_generic_args(*args),
            _ => unreachable!(),
        }
    }
}
