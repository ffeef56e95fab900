//! Questions on scopes, captures and uses.

ghost use Rattle.std.specs.Prelude.{◌<◌, length};

use crate::usages::{NewName, OfUsages};
use hir_base::{HygieneId, Name, SyntaxContext};
use hir_node::ExprId;
use hir_scope::{Expansion, ExprScopes, ScopeEntry, ScopeId};
use hir_text_nodes::{Read, next, opt_edition, opt_hygiene, put, put_prefixed};
use hir_text_words::{Answer, TextError, Words};
use hir_usages::visible_names;
use std::alloc::AllocError;
use std::collections::HashMap;

/// The expansions through which a name is resolved.
type Expansions = HashMap<HygieneId, Expansion>;

/// A question on scopes.
#[derive(Drop)]
pub(crate) enum OfScopes {
    Chain(ExprId),
    Frames(ExprId),
    Counts,
    Scoped,
    Resolve(ExprId, Name, HygieneId),
    ResolveThrough(ExprId, Name, HygieneId, Expansions),
    Visible(ExprId),
}

/// A question on scopes, captures or uses, by what it needs.
#[derive(Drop)]
pub(crate) enum ScopeQuestion {
    Scopes(OfScopes),
    Captures(ExprId),
    Usages(OfUsages),
    Rename(NewName),
}

/// Takes the expansions that come next, as `macro:5 1 root`: the macro, the hygiene of the names, and the one
/// that they have in the macro's definition.
fn read_expansions(words: &mut Words<'_>) -> Result<Expansions, TextError> {
    let mut expansions = HashMap::new(words.alloc());
    for _ in 0..words.most_items() {
        if !words.prefix("macro:") {
            break;
        }
        let macro_def = Read::read(words)?;
        let hygiene = next(words)?;
        let parent = next(words)?;
        let _ = expansions.insert(hygiene, Expansion { macro_def, parent })?;
    }
    Ok(expansions)
}

fn read_of_scopes(word: &str, words: &mut Words<'_>) -> Result<Option<OfScopes>, TextError> {
    Ok(Some(match word {
        "chain" => OfScopes::Chain(next(words)?),
        "frames" => OfScopes::Frames(next(words)?),
        "scope-counts" => OfScopes::Counts,
        "scoped" => OfScopes::Scoped,
        "resolve" => OfScopes::Resolve(next(words)?, next(words)?, opt_hygiene(words)?),
        "resolve-through" => OfScopes::ResolveThrough(
            next(words)?,
            next(words)?,
            opt_hygiene(words)?,
            read_expansions(words)?,
        ),
        "visible" => OfScopes::Visible(next(words)?),
        _ => return Ok(None),
    }))
}

fn read_of_uses(word: &str, words: &mut Words<'_>) -> Result<Option<ScopeQuestion>, TextError> {
    Ok(Some(match word {
        "captures" => ScopeQuestion::Captures(next(words)?),
        "usages" => ScopeQuestion::Usages(OfUsages::All),
        "usages-of" => ScopeQuestion::Usages(OfUsages::Of(next(words)?)),
        "unresolved" => ScopeQuestion::Usages(OfUsages::Unresolved),
        "unused" => ScopeQuestion::Usages(OfUsages::Unused),
        "rename" => ScopeQuestion::Rename(NewName {
            binding: next(words)?,
            name: next(words)?,
            edition: None,
        }),
        "print-renamed" => ScopeQuestion::Rename(NewName {
            binding: next(words)?,
            name: next(words)?,
            edition: Some(opt_edition(words)?),
        }),
        _ => return Ok(None),
    }))
}

impl ScopeQuestion {
    /// Reads a question, after its first word; `None` where no such question begins with it.
    pub(crate) fn read(
        word: &str,
        words: &mut Words<'_>,
    ) -> Result<Option<ScopeQuestion>, TextError> {
        match read_of_scopes(word, words)? {
            Some(question) => Ok(Some(ScopeQuestion::Scopes(question))),
            None => read_of_uses(word, words),
        }
    }
}

fn answer_unreached(answer: &mut Answer) -> Result<(), AllocError> {
    answer.refuse();
    answer.word("unreached")
}

fn put_names(answer: &mut Answer, scopes: &ExprScopes, scope: ScopeId) -> Result<(), AllocError>
    requires { scope < length scopes.now.scopes }
{
    for entry in scopes.entries(scope) {
        put(answer, entry.name())?;
    }
    Ok(())
}

/// Writes the names along the chain of an expression, innermost first.
fn put_chain(answer: &mut Answer, scopes: &ExprScopes, expr: ExprId) -> Result<(), AllocError> {
    let Some(scope) = scopes.scope_for(expr) else {
        return answer_unreached(answer);
    };
    for around in scopes.scope_chain(Some(scope)) {
        put_names(answer, scopes, around)?;
    }
    Ok(())
}

/// Writes an entry: its name, its binding, and the expansion of its hygiene.
fn put_entry(answer: &mut Answer, entry: &ScopeEntry) -> Result<(), AllocError> {
    put(answer, entry.name())?;
    answer.join("=")?;
    answer.join_number(entry.binding().into_raw())?;
    match entry.hygiene().syntax_context() {
        SyntaxContext::Root(_) => Ok(()),
        SyntaxContext::Expansion(number) => {
            answer.join("@")?;
            answer.join_number(number)
        }
    }
}

/// Writes the entries that names at an expression may resolve to, innermost first.
fn put_visible(answer: &mut Answer, scopes: &ExprScopes, expr: ExprId) -> Result<(), AllocError> {
    let Some(scope) = scopes.scope_for(expr) else {
        return answer_unreached(answer);
    };
    for entry in visible_names(answer.alloc(), scopes, scope)? {
        put_entry(answer, entry)?;
    }
    Ok(())
}

/// Writes the kind of a scope and its entries; `.` where there is nothing.
fn put_scope(answer: &mut Answer, scopes: &ExprScopes, scope: ScopeId) -> Result<(), AllocError>
    requires { scope < length scopes.now.scopes }
{
    let block = scopes.block(scope);
    let label = scopes.label(scope);
    let macro_def = scopes.macro_def(scope);
    put_prefixed(answer, "block:", &block)?;
    put_prefixed(answer, "label:", &label)?;
    put_prefixed(answer, "macro:", &macro_def)?;
    let mut is_empty = block.is_none() && label.is_none() && macro_def.is_none();
    for entry in scopes.entries(scope) {
        put_entry(answer, entry)?;
        is_empty = false;
    }
    answer.flag(is_empty, ".")
}

/// Writes the scopes along the chain of an expression, innermost first.
fn put_frames(answer: &mut Answer, scopes: &ExprScopes, expr: ExprId) -> Result<(), AllocError> {
    let Some(scope) = scopes.scope_for(expr) else {
        return answer_unreached(answer);
    };
    let mut is_behind = false;
    for around in scopes.scope_chain(Some(scope)) {
        answer.flag(is_behind, "/")?;
        put_scope(answer, scopes, around)?;
        is_behind = true;
    }
    Ok(())
}

/// Writes the binding that a name resolves to: that of the entry that was found.
fn put_resolved(answer: &mut Answer, found: Option<&ScopeEntry>) -> Result<(), AllocError> {
    match found {
        Some(entry) => put(answer, &entry.binding()),
        None => answer.word("none"),
    }
}

impl OfScopes {
    /// Writes the answer of the scopes.
    pub(crate) fn ask(&self, scopes: &ExprScopes, answer: &mut Answer) -> Result<(), AllocError> {
        match self {
            OfScopes::Chain(expr) => put_chain(answer, scopes, *expr),
            OfScopes::Frames(expr) => put_frames(answer, scopes, *expr),
            OfScopes::Counts => {
                let (scopes, entries) = (scopes.scope_count(), scopes.entry_count());
                put(answer, &(scopes, "scopes", entries, "entries"))
            }
            OfScopes::Scoped => {
                for (expr, _) in scopes.scope_by_expr().iter() {
                    put(answer, &expr)?;
                }
                Ok(())
            }
            OfScopes::Resolve(expr, name, hygiene) => match scopes.scope_for(*expr) {
                Some(scope) => {
                    let found = scopes.resolve_name_in_scope(scope, name, *hygiene);
                    put_resolved(answer, found)
                }
                None => answer_unreached(answer),
            },
            OfScopes::ResolveThrough(expr, name, hygiene, expansions) => {
                let Some(scope) = scopes.scope_for(*expr) else {
                    return answer_unreached(answer);
                };
                let name = name.as_str();
                let found = scopes.resolve_name_through_macros(scope, name, *hygiene, expansions);
                put_resolved(answer, found)
            }
            OfScopes::Visible(expr) => put_visible(answer, scopes, *expr),
        }
    }
}
