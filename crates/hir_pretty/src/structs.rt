//! Signatures of structs as text.
#![tactic(auto, using(hir_pretty_docs::proofs::AddLemmas::adding))]

ghost use Rattle.std.specs.Prelude.{◌++◌, ◌∷◌, [], codes, Some, false, decimal};
ghost use Rattle.std.specs.FinMap as map;
ghost use Rattle.hir_pretty_nodes.specs.Prelude.{words_of, print_env, text, br, opt, when, lookups_of, PrintsPieces, doc_list_pieces, Adds};
ghost use Rattle.hir_pretty.specs.Signatures.{repr_docs, shape_begin, shape_end, struct_docs};

use crate::generics::{add_generics, add_where};
use hir_base::{Edition, StructId};
use hir_defs::{FieldsShape, Repr, StructSignature, Tables};
use hir_pretty_nodes::{PrintFault, Printer, Token, Tokens};
use std::alloc::Global;

fn add_attribute_if(tokens: &mut Tokens<'_>, holds: bool, attribute: &'static str)
    ensures { Adds tokens.old.stack (λ s. when holds (text attribute.now ++ br)) tokens.new.stack }
{
    if holds {
        return tokens.add(&[Token::Text(attribute), Token::Break]);
    }
}

/// Adds an attribute with this many bytes, where there are any.
fn add_bytes(tokens: &mut Tokens<'_>, before: &'static str, bytes: Option<u64>)
    ensures { Adds tokens.old.stack
        (λ s. opt (λ n. text before.now ++ text (decimal n) ++ text (codes "))]") ++ br) bytes)
        tokens.new.stack }
{
    match bytes {
        None => {}
        Some(bytes) => tokens.add(&[
            Token::Text(before),
            Token::Number(bytes),
            Token::Text("))]"),
            Token::Break,
        ]),
    }
}

/// Adds what is known of how a struct lies in memory.
fn add_repr(tokens: &mut Tokens<'_>, repr: Option<Repr>)
    ensures { Adds tokens.old.stack (λ s. repr_docs repr) tokens.new.stack }
{
    match repr {
        None => {}
        Some(repr) => {
            add_attribute_if(tokens, repr.c, "#[repr(C)]");
            add_bytes(tokens, "#[repr(align(", repr.align);
            add_bytes(tokens, "#[repr(pack(", repr.pack)
        }
    }
}

fn add_begin(tokens: &mut Tokens<'_>, shape: FieldsShape)
    ensures { Adds tokens.old.stack (λ s. shape_begin shape) tokens.new.stack }
{
    match shape {
        FieldsShape::Record => tokens.add(&[Token::Text(" {...}"), Token::Break]),
        FieldsShape::Tuple => tokens.add(&[Token::Text("(...)"), Token::Break]),
        FieldsShape::Unit => {}
    }
}

fn add_end(tokens: &mut Tokens<'_>, shape: FieldsShape)
    ensures { Adds tokens.old.stack (λ s. shape_end shape) tokens.new.stack }
{
    match shape {
        FieldsShape::Record => tokens.add(&[Token::Break]),
        FieldsShape::Tuple | FieldsShape::Unit => tokens.add(&[Token::Text(";"), Token::Break]),
    }
}

/// The text of a struct's signature, in lines, after what the tables have of its representation in memory.
/// Other definitions that it names, and parameters that a type names by their id, its own ones too, are
/// looked up in the tables.
///
/// Returns `Missing` of the first definition that the text names and the tables don't have, and `Memory`
/// where an allocation fails. An error drops the text that was begun.
pub fn print_struct(
    alloc: Global,
    tables: &Tables,
    id: StructId,
    signature: &StructSignature,
    edition: Edition,
) -> Result<String, PrintFault>
    ensures { let s = print_env signature.now.store (lookups_of tables.now)
        (words_of tables.now.words edition) false in
        PrintsPieces s (doc_list_pieces s (struct_docs s
        (map.get tables.now.reprs (id ∷ [])) signature.now)) result }
{
    let mut printer = Printer::new(alloc, signature.store(), tables, edition, false);
    let tokens = &mut printer.tokens;
    add_repr(tokens, tables.repr(id));
    add_attribute_if(tokens, signature.is_fundamental(), "#[fundamental]");
    tokens.add(&[
        Token::Text("struct "),
        Token::Name(signature.name().as_str()),
    ]);
    add_generics(tokens, signature.generic_params());
    add_begin(tokens, signature.shape());
    add_where(tokens, signature.generic_params().where_predicates());
    add_end(tokens, signature.shape());
    printer.print()
}
