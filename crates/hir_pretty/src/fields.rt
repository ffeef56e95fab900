//! Structs, unions and variants of enums as text, with their fields.
#![tactic(auto, using(hir_pretty_docs::proofs::AddLemmas::adding))]

ghost use Rattle.std.specs.Prelude.{◌≡◌, false, IfSome, None};
ghost use Rattle.hir_pretty_nodes.specs.Prelude.{words_of, print_env, lookups_of, PrintsPieces, doc_list_pieces, Adds};
ghost use Rattle.hir_store_core.specs.Contents.{Contents};
ghost use Rattle.hir_pretty.specs.Variants.{module_docs, visibility_docs, field_line, fields_begin, fields_end, fields_docs, variant_docs, without_fields};
ghost use Rattle.hir_pretty.specs.FoundParts.{parents, fields_found};

use crate::body_heads::add_variant_head;
use hir_base::{Edition, ModPath, PathKind, VariantId};
use hir_defs::{FieldData, FieldsShape, RawVisibility, Tables};
use hir_pretty_nodes::{PrintFault, Printer, Token, Tokens, colons_first};
use hir_store_core::{ExpressionStore, Missing};
use std::alloc::Global;

/// Adds the path of a module: where it begins, and its names.
fn add_module<'a>(tokens: &mut Tokens<'a>, path: &'a ModPath)
    ensures { Adds tokens.old.stack (λ s. module_docs s path.now) tokens.new.stack }
{
    match path.kind() {
        PathKind::Plain | PathKind::Abs => {}
        PathKind::Super(times) => tokens.add_supers(times),
        PathKind::Crate => tokens.add(&[Token::Text("crate")]),
        PathKind::DollarCrate(_) => tokens.add(&[Token::Text("$crate")]),
    }
    tokens.add_list(colons_first(path.kind()), "::", path.segments())
}

fn add_visibility<'a>(tokens: &mut Tokens<'a>, visibility: &'a RawVisibility)
    ensures { Adds tokens.old.stack (λ s. visibility_docs s visibility.now) tokens.new.stack }
{
    match visibility {
        RawVisibility::Module(path) => {
            tokens.add(&[Token::Text("pub(in ")]);
            add_module(tokens, path);
            tokens.add(&[Token::Text(") ")])
        }
        RawVisibility::Public => tokens.add(&[Token::Text("pub ")]),
        RawVisibility::PubCrate => tokens.add(&[Token::Text("pub(crate) ")]),
        RawVisibility::PubSelf => tokens.add(&[Token::Text("pub(self) ")]),
    }
}

/// Adds a field, on a line of its own.
fn add_field<'a>(tokens: &mut Tokens<'a>, field: &'a FieldData)
    ensures { Adds tokens.old.stack (λ s. field_line s field.now) tokens.new.stack }
{
    add_visibility(tokens, &field.visibility);
    tokens.add_if(field.is_unsafe, "unsafe ");
    tokens.add(&[
        Token::Name(field.name.as_str()),
        Token::Text(": "),
        Token::Type(field.type_ref),
        Token::Text(","),
        Token::Break,
    ])
}

fn add_begin(tokens: &mut Tokens<'_>, shape: FieldsShape)
    ensures { Adds tokens.old.stack (λ s. fields_begin shape) tokens.new.stack }
{
    match shape {
        FieldsShape::Record => tokens.add(&[Token::Text(" {"), Token::Break]),
        FieldsShape::Tuple => tokens.add(&[Token::Text("("), Token::Break]),
        FieldsShape::Unit => {}
    }
}

fn add_end(tokens: &mut Tokens<'_>, shape: FieldsShape)
    ensures { Adds tokens.old.stack (λ s. fields_end shape) tokens.new.stack }
{
    match shape {
        FieldsShape::Record => tokens.add(&[Token::Text("}"), Token::Break]),
        FieldsShape::Tuple => tokens.add(&[Token::Text(");"), Token::Break]),
        FieldsShape::Unit => tokens.add(&[Token::Text(";"), Token::Break]),
    }
}

/// Adds fields, and what is around them.
fn add_fields<'a>(tokens: &mut Tokens<'a>, shape: FieldsShape, fields: &'a [FieldData])
    ensures { Adds tokens.old.stack (λ s. fields_docs s shape fields.now) tokens.new.stack }
{
    add_begin(tokens, shape);
    for field in fields {
        add_field(tokens, field);
    }
    add_end(tokens, shape)
}

/// Adds what is missing first where the fields are, in the head or the fields themselves.
fn add_without_fields(tokens: &mut Tokens<'_>, tables: &Tables, owner: &VariantId)
    ensures { Adds tokens.old.stack
        (λ s. without_fields s (parents tables.now) owner.now) tokens.new.stack }
{
    add_variant_head(tokens, tables, owner);
    tokens.add(&[Token::Missing(Missing::Fields(*owner))])
}

/// The text of a struct, a union or a variant of an enum with the fields that the tables have, in lines. The
/// enum of a variant is looked up first, then the names, and then the fields.
///
/// Returns `Missing` of the first definition that the text names and the tables don't have, and `Memory`
/// where an allocation fails. An error drops the text that was begun.
pub fn print_variant_body_hir(
    alloc: Global,
    tables: &Tables,
    variant: VariantId,
    edition: Edition,
) -> Result<String, PrintFault>
    ensures found { IfSome (fields_found tables.now variant) (λ fields.
        let s = print_env fields.store (lookups_of tables.now) (words_of tables.now.words edition) false in
        PrintsPieces s (doc_list_pieces s (variant_docs s (parents tables.now) variant fields)) result) }
    ensures absent { fields_found tables.now variant ≡ None → (store : Contents) →
        let s = print_env store (lookups_of tables.now) (words_of tables.now.words edition) false in
        PrintsPieces s (doc_list_pieces s (without_fields s (parents tables.now) variant)) result }
{
    let owner = &variant;
    match tables.variant_fields(*owner) {
        Ok(fields) => {
            let mut printer = Printer::new(alloc, fields.store(), tables, edition, false);
            let tokens = &mut printer.tokens;
            add_variant_head(tokens, tables, owner);
            add_fields(tokens, fields.shape(), fields.fields());
            printer.print()
        }
        Err(_) => {
            let store = ExpressionStore::empty(alloc);
            let mut printer = Printer::new(alloc, &store, tables, edition, false);
            add_without_fields(&mut printer.tokens, tables, owner);
            printer.print()
        }
    }
}
