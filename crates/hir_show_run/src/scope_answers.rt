//! The answers that scopes give: the names that an expression sees, and what one of them resolves to there.

ghost use Rattle.std.specs.Prelude.{◌<◌, ◌∷◌, Some, length};
ghost use Rattle.hir_scope.specs.Paths.{chain, frame_at};
ghost use Rattle.hir_scope.specs.Resolution.{entries_of};
ghost use Rattle.hir_show_run.specs.Answer.{asked_text, chain_answer, chain_text, expansion_text, names_text, resolve_answer, resolve_text};
ghost use Rattle.hir_show_run.specs.internal.Answer.{chain_by};
ghost use Rattle.hir_show_run.specs.internal.Output.{OutputsText};

use crate::output::Output;
use hir_base::{HygieneId, Name, SyntaxContext};
use hir_node::ExprId;
use hir_scope::{ExprScopes, ScopeEntry, ScopeId};
use hir_show_io::Sink;

/// Puts a name after a space.
fn put_name<W: Sink>(name: &Name, output: &mut Output<'_, W>)
    ensures { OutputsText W.Sink output.old output.new (32 ∷ name.now) }
{
    output.put(b" ");
    output.put(name.as_str().as_bytes());
}

/// Puts the names of entries, each after a space.
fn put_names<W: Sink>(entries: &[ScopeEntry], output: &mut Output<'_, W>)
    ensures { OutputsText W.Sink output.old output.new (names_text entries.now) }
{
    for entry in entries {
        put_name(entry.name(), output);
    }
}

/// Puts the names of a scope's entries.
fn put_scope<W: Sink>(scopes: &ExprScopes, scope: ScopeId, output: &mut Output<'_, W>)
    requires { scope < length scopes.now.scopes }
    ensures { OutputsText W.Sink output.old output.new
        (names_text (entries_of (frame_at scopes.now.scopes scope))) }
{
    put_names(scopes.entries(scope), output);
}

/// Puts the names of a scope's chain, innermost first.
fn put_chain<W: Sink>(scopes: &ExprScopes, scope: ScopeId, output: &mut Output<'_, W>)
    requires { scope < length scopes.now.scopes }
    ensures { OutputsText W.Sink output.old output.new
        (names_text (entries_of (chain scopes.now.scopes (Some scope)))) }
{
    for around in scopes.scope_chain(Some(scope)) {
        put_scope(scopes, around, output);
    }
}

/// Puts the number of an expansion after a space, and nothing for source text.
fn put_expansion<W: Sink>(hygiene: HygieneId, output: &mut Output<'_, W>)
    ensures { OutputsText W.Sink output.old output.new (expansion_text hygiene) }
{
    match hygiene.syntax_context() {
        SyntaxContext::Root(_) => {}
        SyntaxContext::Expansion(number) => output.put_spaced(number),
    }
}

/// Puts the words by which a name was asked for.
fn put_asked_name<W: Sink>(name: &Name, hygiene: HygieneId, output: &mut Output<'_, W>)
    ensures { OutputsText W.Sink output.old output.new (asked_text name.now hygiene) }
{
    put_name(name, output);
    put_expansion(hygiene, output);
}

/// Puts what is known of an expression: the names of its chain, or that it isn't reached.
fn put_known<W: Sink>(scopes: &ExprScopes, id: ExprId, output: &mut Output<'_, W>)
    ensures { OutputsText W.Sink output.old output.new (chain_text (chain_by scopes.now id)) }
{
    let Some(scope) = scopes.scope_for(id) else {
        output.put(b" unreached");
        return;
    };
    output.put(b" =");
    put_chain(scopes, scope, output);
}

/// Puts the binding that a name resolves to at an expression, or that there is none, or that the expression
/// isn't reached.
fn put_resolved<W: Sink>(
    scopes: &ExprScopes,
    id: ExprId,
    name: &Name,
    hygiene: HygieneId,
    output: &mut Output<'_, W>,
)
    ensures { OutputsText W.Sink output.old output.new
        (resolve_text (chain_by scopes.now id) name.now hygiene) }
{
    match scopes.scope_for(id) {
        Some(scope) => match scopes.resolve_name_in_scope(scope, name, hygiene) {
            Some(entry) => {
                output.put(b" = ");
                output.put_number(entry.binding().into_raw());
            }
            None => output.put(b" none"),
        },
        None => output.put(b" unreached"),
    }
}

/// Puts the line of the names that an expression sees.
pub(crate) fn answer_chain<W: Sink>(scopes: &ExprScopes, id: ExprId, output: &mut Output<'_, W>)
    ensures { OutputsText W.Sink output.old output.new (chain_answer id (chain_by scopes.now id)) }
{
    output.put_asked(b"chain ", id);
    put_known(scopes, id, output);
    output.put(b"\n");
}

/// Puts the line of what a name resolves to at an expression.
pub(crate) fn answer_resolve<W: Sink>(
    scopes: &ExprScopes,
    id: ExprId,
    name: &Name,
    hygiene: HygieneId,
    output: &mut Output<'_, W>,
)
    ensures { OutputsText W.Sink output.old output.new
        (resolve_answer id name.now hygiene (chain_by scopes.now id)) }
{
    output.put_asked(b"resolve ", id);
    put_asked_name(name, hygiene, output);
    put_resolved(scopes, id, name, hygiene, output);
    output.put(b"\n");
}
