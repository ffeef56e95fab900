//! Generic parameters and the predicates on them.
#![tactic(auto, using(hir_pretty_docs::proofs::AddLemmas::adding))]

ghost use Rattle.std.specs.Prelude.{codes, false};
ghost use Rattle.std.specs.List.{enumerate_from};
ghost use Rattle.hir_pretty_nodes.specs.Prelude.{text, Adds, following};
ghost use Rattle.hir_pretty.specs.Signatures.{generic_param_docs, each_lifetime, each_type_or_const, generics_docs, predicate_docs, where_docs};

use hir_base::Name;
use hir_defs::{GenericParams, TypeOrConstParamData, WherePredicate};
use hir_pretty_nodes::{Part, Token, Tokens};

/// Adds a type, by its name or its place, or a constant with its type, and then the default.
fn add_type_or_const<'a>(tokens: &mut Tokens<'a>, at: u32, param: &'a TypeOrConstParamData)
    ensures { Adds tokens.old.stack (λ s. generic_param_docs s at param.now) tokens.new.stack }
{
    match param {
        TypeOrConstParamData::TypeParamData(param) => {
            tokens.add_param_name(at, param.name.as_ref());
            tokens.add_after(" = ", &param.default)
        }
        TypeOrConstParamData::ConstParamData(param) => {
            tokens.add(&[
                Token::Text("const "),
                Token::Name(param.name.as_str()),
                Token::Text(": "),
                Token::Type(param.ty),
            ]);
            match param.default {
                None => {}
                Some(default) => tokens.add(&[Token::Text(" = "), Token::Expr(default.expr)]),
            }
        }
    }
}

/// Adds the lifetimes, with `, ` between them.
fn add_lifetimes<'a>(tokens: &mut Tokens<'a>, params: &'a GenericParams)
    ensures { Adds tokens.old.stack
        (λ s. following (text (codes ", ")) false (each_lifetime s params.now.lifetimes)) tokens.new.stack }
{
    let mut after = false;
    for (_, lifetime) in params.iter_lt() {
        tokens.add_if(after, ", ");
        tokens.add(&[Token::Name(lifetime.name.as_str())]);
        after = true;
    }
}

/// Adds types and constants in their places, each after `, `; the first only where something is before it.
fn add_types_and_consts<'a>(tokens: &mut Tokens<'a>, params: &'a GenericParams, first: bool)
    ensures { Adds tokens.old.stack
        (λ s. following (text (codes ", ")) first
        (each_type_or_const s (enumerate_from 0 params.now.type_or_consts))) tokens.new.stack }
{
    let mut after = first;
    for (at, param) in params.iter_type_or_consts() {
        tokens.add_if(after, ", ");
        add_type_or_const(tokens, at.into_raw(), param);
        after = true;
    }
}

/// Adds all parameters in `<` and `>`, where there are any.
pub(crate) fn add_generics<'a>(tokens: &mut Tokens<'a>, params: &'a GenericParams)
    ensures { Adds tokens.old.stack (λ s. generics_docs s params.now) tokens.new.stack }
{
    if params.is_empty() {
        return;
    }
    tokens.add(&[Token::Text("<")]);
    add_lifetimes(tokens, params);
    add_types_and_consts(tokens, params, params.len_lifetimes() > 0);
    tokens.add(&[Token::Text(">")])
}

/// Adds a predicate.
fn add_predicate<'a>(tokens: &mut Tokens<'a>, predicate: &'a WherePredicate)
    ensures { Adds tokens.old.stack (λ s. predicate_docs s predicate.now) tokens.new.stack }
{
    match predicate {
        WherePredicate::TypeBound {
            lifetimes,
            target,
            bound,
        } => {
            tokens.add_binder(lifetimes);
            tokens.add(&[Token::Type(*target), Token::Text(": ")]);
            bound.add_to(tokens)
        }
        WherePredicate::Lifetime { target, bound } => {
            target.add_to(tokens);
            tokens.add(&[Token::Text(": ")]);
            bound.add_to(tokens)
        }
    }
}

/// Adds the predicates, each on a line of its own after `where`, where there are any.
pub(crate) fn add_where<'a>(tokens: &mut Tokens<'a>, predicates: &'a [WherePredicate])
    ensures { Adds tokens.old.stack (λ s. where_docs s predicates.now) tokens.new.stack }
{
    if predicates.is_empty() {
        return;
    }
    tokens.add(&[Token::Text("\nwhere\n"), Token::Indent]);
    let mut after = false;
    for predicate in predicates {
        tokens.add_if(after, ",\n");
        add_predicate(tokens, predicate);
        after = true;
    }
    tokens.add(&[Token::Outdent, Token::Break])
}
