//! Signatures of functions as text.
#![tactic(auto, using(hir_pretty_docs::proofs::AddLemmas::adding))]

ghost use Rattle.std.specs.Prelude.{◌≡◌, ◌<◌, ◌==◌, OnOk, IfOk, ℕ, length, Some, get_or, false, option_map};
ghost use Rattle.std.specs.List.{list_any};
ghost use Rattle.hir_pretty_nodes.specs.Prelude.{words_of, print_env, lookups_of, PrintsPieces, doc_list_pieces, Adds};
ghost use Rattle.hir_pretty.specs.Signatures.{abi_docs, arguments, function_docs};

use crate::generics::{add_generics, add_where};
use hir_base::{Edition, ExternAbi, FunctionId};
use hir_defs::{FunctionSignature, Tables};
use hir_node::TypeRefId;
use hir_pretty_nodes::{PrintFault, Printer, Token, Tokens};
use std::alloc::{AllocError, Global};

/// Adds the calling convention, unless it is that of Rust.
fn add_abi<'a>(tokens: &mut Tokens<'a>, abi: &'a ExternAbi)
    ensures { Adds tokens.old.stack (λ s. abi_docs abi.now) tokens.new.stack }
{
    match abi {
        ExternAbi::Rust => {}
        ExternAbi::C
        | ExternAbi::CUnwind
        | ExternAbi::System
        | ExternAbi::SystemUnwind
        | ExternAbi::Named(_) => tokens.add(&[
            Token::Text("extern \""),
            Token::Text(abi.as_str()),
            Token::Text("\" "),
        ]),
    }
}

/// Says for each of this many places whether it is listed.
fn marks_of(alloc: Global, places: &[u32], count: usize) -> Result<Vec<bool>, AllocError>
    ensures length { IfOk result (λ marks. length marks.items ≡ count) }
    ensures marks { IfOk result (λ marks. (i : ℕ) → i < count
        → get_or marks.items i false ≡ list_any (λ place. place == i) places.now) }
{
    let mut marks = vec![in alloc; false; count]?;
    for place in places {
        let at = *place as usize;
        if at < marks.len() {
            marks[at] = true;
        }
    }
    Ok(marks)
}

/// Adds the types of arguments, each with `const: ` before it where its place is listed.
fn add_arguments<'a>(
    tokens: &mut Tokens<'a>,
    alloc: Global,
    places: Option<&[u32]>,
    params: &'a [TypeRefId],
) -> Result<(), AllocError>
    ensures { OnOk result (Adds tokens.old.stack
        (λ s. arguments (option_map (λ list. list.now) places.entry) params.now) tokens.new.stack) }
{
    let Some(places) = places else {
        return Ok(tokens.add_joined(", ", params));
    };
    let marks = marks_of(alloc, places, params.len())?;
    for (at, param) in params.iter().enumerate() {
        tokens.add_if(at > 0, ", ");
        tokens.add_if(marks[at], "const: ");
        tokens.add(&[Token::Type(*param)]);
    }
    Ok(())
}

/// The text of a function's signature, in lines. Which function has it makes no difference to the text. Other
/// definitions that it names, and parameters that a type names by their id, its own ones too, are looked up
/// in the tables.
///
/// Returns `Missing` of the first definition that the text names and the tables don't have, and `Memory`
/// where an allocation fails. An error drops the text that was begun.
pub fn print_function(
    alloc: Global,
    tables: &Tables,
    _id: FunctionId,
    signature: &FunctionSignature,
    edition: Edition,
) -> Result<String, PrintFault>
    ensures { let s = print_env signature.now.store (lookups_of tables.now)
        (words_of tables.now.words edition) false in
        PrintsPieces s (doc_list_pieces s (function_docs s signature.now)) result }
{
    let mut printer = Printer::new(alloc, signature.store(), tables, edition, false);
    let tokens = &mut printer.tokens;
    tokens.add_if(signature.is_const(), "const ");
    tokens.add_if(signature.is_async(), "async ");
    tokens.add_if(signature.is_unsafe(), "unsafe ");
    tokens.add_if(signature.is_explicit_safe(), "safe ");
    add_abi(tokens, signature.abi());
    tokens.add(&[Token::Text("fn "), Token::Name(signature.name().as_str())]);
    add_generics(tokens, signature.generic_params());
    tokens.add(&[Token::Text("(")]);
    add_arguments(
        tokens,
        alloc,
        signature.legacy_const_indices(),
        signature.params(),
    )?;
    tokens.add(&[Token::Text(")")]);
    if let Some(ret) = signature.ret_type() {
        tokens.add(&[Token::Text(" -> "), Token::Type(ret)]);
    }
    add_where(tokens, signature.generic_params().where_predicates());
    tokens.add(&[Token::Text(" {...}"), Token::Break]);
    printer.print()
}
