//! Bodies as text.
#![tactic(auto, using(hir_pretty_docs::proofs::AddLemmas::adding))]

ghost use Rattle.std.specs.Prelude.{false};
ghost use Rattle.hir_pretty_nodes.specs.Prelude.{words_of, print_env, lookups_of, PrintsPieces, doc_list_pieces, Adds};
ghost use Rattle.hir_body.specs.Bodies.{formals_of};
ghost use Rattle.hir_pretty.specs.Bodies.{formal_self, body_params, body_end, body_docs};
ghost use Rattle.hir_pretty.specs.FoundParts.{parents};

use crate::body_heads::add_body_head;
use hir_base::{DefWithBodyId, Edition};
use hir_defs::{Body, Param, Tables};
use hir_node::{BindingId, PatId};
use hir_pretty_nodes::{PrintFault, Printer, Token, Tokens};
use std::alloc::Global;

/// Adds the parameters in parentheses, which only a function has: the binding of `self`, where there is one,
/// and the formal patterns.
fn add_params(
    tokens: &mut Tokens<'_>,
    owner: &DefWithBodyId,
    self_param: &Option<Param<BindingId>>,
    params: &[Param<PatId>],
)
    ensures { Adds tokens.old.stack
        (λ s. body_params s (formal_self self_param.now) (formals_of params.now) owner.now) tokens.new.stack }
{
    match owner {
        DefWithBodyId::FunctionId(_) => {
            tokens.add(&[Token::Text("(")]);
            if let Some(param) = self_param {
                tokens.add_binding(param.formal);
            }
            let mut after = self_param.is_some();
            for param in params {
                tokens.add_if(after, ", ");
                tokens.add(&[Token::Pattern(param.formal)]);
                after = true;
            }
            tokens.add(&[Token::Text(") ")])
        }
        DefWithBodyId::StaticId(_) | DefWithBodyId::ConstId(_) | DefWithBodyId::VariantId(_) => {}
    }
}

/// Adds what follows the last root.
fn add_end(tokens: &mut Tokens<'_>, owner: &DefWithBodyId)
    ensures { Adds tokens.old.stack (λ s. body_end owner.now) tokens.new.stack }
{
    match owner {
        DefWithBodyId::FunctionId(_) | DefWithBodyId::VariantId(_) => {}
        DefWithBodyId::StaticId(_) | DefWithBodyId::ConstId(_) => tokens.add(&[Token::Text(";")]),
    }
}

/// The text of a body of this owner, in lines: its head with the names that the tables have, the formal
/// parameters where it is a function's, and what it evaluates to. The enum of a variant is looked up first,
/// then both names.
///
/// Returns `Missing` of the first definition that the text names and the tables don't have, and `Memory`
/// where an allocation fails. An error drops the text that was begun.
pub fn print_body_hir(
    alloc: Global,
    tables: &Tables,
    body: &Body,
    owner: DefWithBodyId,
    edition: Edition,
) -> Result<String, PrintFault>
    ensures { let s = print_env body.now.store (lookups_of tables.now)
        (words_of tables.now.words edition) false in
        PrintsPieces s (doc_list_pieces s (body_docs s (parents tables.now) owner body.now)) result }
{
    let mut printer = Printer::new(alloc, body.store(), tables, edition, false);
    let tokens = &mut printer.tokens;
    add_body_head(tokens, tables, &owner);
    add_params(tokens, &owner, &body.self_param(), body.params());
    tokens.add(&[Token::Expr(body.root_expr())]);
    add_end(tokens, &owner);
    printer.print()
}
