//! A body that lines made, and the answers to questions on it. Its scopes, and the tables that it is printed
//! from, are made where the first question comes that needs them, and lent to each.

ghost use Rattle.std.specs.Prelude.{◌≡◌, List, ℕ, Some, IsSome, IfSome, OnOk, OnErr};
ghost use Rattle.hir_scope.specs.BodyScopes.{AreBodyScopes};
ghost use Rattle.hir_show_run.specs.Answer.{IsBodyAnswer};
ghost use Rattle.hir_show_run.specs.internal.OfLines.{AreOfLines};
ghost use Rattle.hir_show_run.specs.internal.Output.{OutputsText, Untouched};

use crate::answer::answer_store;
use crate::asking::{Answers, MemoryRefused};
use crate::captures::answer_captures;
use crate::output::Output;
use crate::printing::{answer_print, make_tables};
use crate::scope_answers::{answer_chain, answer_resolve};
use hir_base::Name;
use hir_body::Body;
use hir_defs::Tables;
use hir_scope::{ExprScopes, ScopesFault};
use hir_show_grammar::{BodyQuestion, Question};
use hir_show_io::Sink;
use std::alloc::Global;
use std::marker::Model;

/// A body whose nodes are those of lines, with the name of the function that it is printed as. Its model
/// leaves out what is made for questions.
#[derive(Drop)]
pub(crate) struct BodyOfLines {
    body: Body,
    name: Option<Name>,
    tables: Option<Tables>,
    scopes: Option<ExprScopes>,
}

impl Model for BodyOfLines {
    ghost use Rattle.std.specs.Prelude.{◌≡◌, IfSome};
    ghost use Rattle.hir_scope.specs.BodyScopes.{AreBodyScopes};
    ghost use Rattle.hir_show_run.specs.Answer.{NamedBody};
    ghost use Rattle.hir_show_run.specs.internal.OfLines.{AreOfLines};
    ghost use Rattle.hir_show_run.specs.Printing.{tables_of};

    ghost Value = { NamedBody };

    ghost use Rattle.std.specs.Coded.{codes};
    ghost use Rattle.hir_store_core.specs.contracts.store.ExpressionStore as stored;

    ghost coded = { Prim.hlevel (codes, stored.the_row.coded) };

    ghost view = { λ b. record { body = b.body; name = b.name } };

    ghost invariant = { λ b. AreOfLines b.body.store.nodes × IfSome b.tables (λ t. t ≡ tables_of b.name)
        × IfSome b.scopes (AreBodyScopes b.body) };
}

/// Makes the scopes of a body, unless they are made.
///
/// Returns `MemoryRefused` where an allocation fails, or where the body needs more scopes than there may be.
fn make_scopes(
    alloc: Global,
    body: &Body,
    scopes: &mut Option<ExprScopes>,
) -> Result<(), MemoryRefused>
    requires { IfSome scopes.old (AreBodyScopes body.now) }
    ensures are { IfSome scopes.new (AreBodyScopes body.now) }
    ensures made { OnOk result (IsSome scopes.new) }
{
    if scopes.is_some() {
        return Ok(());
    }
    match ExprScopes::new_body(alloc, body) {
        Ok(made) => {
            *scopes = Some(made);
            Ok(())
        }
        Err(ScopesFault::Missing) => unreachable!(),
        Err(ScopesFault::Full | ScopesFault::Memory) => Err(MemoryRefused),
    }
}

/// Lends what was made.
fn made<T>(value: &Option<T>) -> &T
    requires { IsSome value.now }
    ensures { value.now ≡ Some result.now }
{
    match value {
        Some(value) => value,
        None => unreachable!(),
    }
}

impl BodyOfLines {
    /// A body that lines made, and the name of its function.
    pub(crate) fn new(body: Body, name: Option<Name>) -> BodyOfLines
        requires { AreOfLines body.store.nodes }
        ensures { result ≡ record { body = body; name = name } }
    {
        BodyOfLines {
            body,
            name,
            tables: None,
            scopes: None,
        }
    }

    /// Writes the answer to a question on a body by one line, or by the body's text.
    ///
    /// Returns `MemoryRefused` where an allocation fails; nothing is put then.
    fn answer_body<W: Sink>(
        &mut self,
        alloc: Global,
        question: BodyQuestion,
        output: &mut Output<'_, W>,
    ) -> Result<(), MemoryRefused>
        ensures same { self.new ≡ self.old }
        ensures ok { OnOk result ((text : List ℕ) × IsBodyAnswer self.old.name self.old.body question text
            × OutputsText W.Sink output.old output.new text) }
        ensures memory { OnErr result (Untouched W.Sink output.old output.new) }
    {
        match question {
            BodyQuestion::Chain(id) => {
                make_scopes(alloc, &self.body, &mut self.scopes)?;
                answer_chain(made(&self.scopes), id, output);
                Ok(())
            }
            BodyQuestion::Resolve(id, name, hygiene) => {
                make_scopes(alloc, &self.body, &mut self.scopes)?;
                answer_resolve(made(&self.scopes), id, &name, hygiene, output);
                Ok(())
            }
            BodyQuestion::Print => {
                make_tables(alloc, &self.name, &mut self.tables)?;
                answer_print(alloc, &self.body, made(&self.tables), output)
            }
            BodyQuestion::Captures(id) => {
                make_scopes(alloc, &self.body, &mut self.scopes)?;
                answer_captures(alloc, &self.body, made(&self.scopes), id, output)
            }
        }
    }
}

/// Answers any question.
impl Answers for BodyOfLines {
    ghost use Rattle.hir_show_grammar.specs.Line.{any_question};
    ghost use Rattle.hir_show_run.specs.internal.Answer.{IsAnswerOf};

    ghost may = { any_question };

    ghost Is = { IsAnswerOf };

    fn answer<W: Sink>(
        &mut self,
        alloc: Global,
        question: Question,
        output: &mut Output<'_, W>,
    ) -> Result<Option<Question>, MemoryRefused> {
        match question {
            Question::OfStore(asked) => answer_store(self.body.store(), asked, output),
            Question::OfBody(asked) => self.answer_body(alloc, asked, output)?,
        }
        Ok(None)
    }
}
