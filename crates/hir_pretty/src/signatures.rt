//! Signatures of any definition as text.
#![tactic(auto, using(crate::proofs::OtherLemmas::others))]

ghost use Rattle.hir_pretty_nodes.specs.Prelude.{words_of, Adds};
ghost use Rattle.hir_pretty.specs.Owners.{PrintsOther, PrintsSignature};
ghost use Rattle.hir_pretty.specs.Signatures.{unimplemented_docs};

use crate::functions::print_function;
use crate::structs::print_struct;
use hir_base::{AdtId, Edition, GenericDefId};
use hir_defs::Tables;
use hir_pretty_nodes::{PrintFault, Printer, Token, Tokens};
use hir_store_core::ExpressionStore;
use std::alloc::Global;

/// Adds that the signature of a definition of this kind isn't printed.
fn add_other<'a>(tokens: &mut Tokens<'a>, kind: &'a str, id: u32)
    ensures { Adds tokens.old.stack (λ s. unimplemented_docs kind.now id) tokens.new.stack }
{
    tokens.add(&[Token::Text("unimplemented ")]);
    tokens.add_numbered(kind, id)
}

/// The text for a definition whose signature isn't printed.
fn print_other<'a>(
    alloc: Global,
    tables: &'a Tables,
    kind: &'a str,
    id: u32,
    edition: Edition,
) -> Result<String, PrintFault>
    ensures { PrintsOther kind.now id result }
{
    let store = ExpressionStore::empty(alloc);
    let mut printer = Printer::new(alloc, &store, tables, edition, false);
    add_other(&mut printer.tokens, kind, id);
    printer.print()
}

/// The text of the signature that the tables have of a definition, in lines: as `print_function` gives it of
/// a function, and `print_struct` of a struct. Of any other it says `unimplemented`, its kind and its number,
/// and nothing is looked up.
///
/// Returns `Missing` of the signature where the tables have none of the function or of the struct, or else of
/// the first definition outside that the text names and that the tables don't have; and `Memory` where an
/// allocation fails. An error drops the text that was begun.
pub fn print_signature(
    alloc: Global,
    tables: &Tables,
    owner: GenericDefId,
    edition: Edition,
) -> Result<String, PrintFault>
    ensures { PrintsSignature tables.now (words_of tables.now.words edition) owner result }
{
    match owner {
        GenericDefId::AdtId(adt) => match adt {
            AdtId::StructId(id) => match tables.struct_signature(id) {
                Ok(signature) => print_struct(alloc, tables, id, signature, edition),
                Err(missing) => Err(PrintFault::Missing(missing)),
            },
            AdtId::UnionId(id) => print_other(alloc, tables, "UnionId", id.into_raw(), edition),
            AdtId::EnumId(id) => print_other(alloc, tables, "EnumId", id.into_raw(), edition),
        },
        GenericDefId::ConstId(id) => print_other(alloc, tables, "ConstId", id.into_raw(), edition),
        GenericDefId::FunctionId(id) => match tables.function_signature(id) {
            Ok(signature) => print_function(alloc, tables, id, signature, edition),
            Err(missing) => Err(PrintFault::Missing(missing)),
        },
        GenericDefId::ImplId(id) => print_other(alloc, tables, "ImplId", id.into_raw(), edition),
        GenericDefId::StaticId(id) => print_other(
            alloc,
            tables,
            "StaticId",
            id.into_raw(),
            edition,
        ),
        GenericDefId::TraitId(id) => print_other(alloc, tables, "TraitId", id.into_raw(), edition),
        GenericDefId::TypeAliasId(id) => print_other(
            alloc,
            tables,
            "TypeAliasId",
            id.into_raw(),
            edition,
        ),
    }
}
