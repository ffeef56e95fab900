//! The body of the lines as text.

ghost use Rattle.std.specs.Prelude.{◌≡◌, IfOk, IfSome, IsSome, OnOk, OnErr, string_bytes};
ghost use Rattle.std.specs.Option.{option_copied};
ghost use Rattle.hir_show_run.specs.internal.OfLines.{AreOfLines};
ghost use Rattle.hir_show_run.specs.internal.Output.{OutputsText, Untouched};
ghost use Rattle.hir_show_run.specs.internal.Printing.{name_of};
ghost use Rattle.hir_show_run.specs.Printing.{tables_of, body_text, print_text};

use crate::asking::MemoryRefused;
use crate::output::Output;
use hir_base::{DefWithBodyId, Edition, FunctionId, Name, NamedDef};
use hir_body::Body;
use hir_collections::Text;
use hir_defs::Tables;
use hir_pretty::{PrintFault, print_body_hir};
use hir_show_io::Sink;
use std::alloc::Global;

/// A copy of a name, where there is one.
fn name_text(alloc: Global, name: Option<&Name>) -> Result<Option<Text>, MemoryRefused>
    ensures { IfOk result (λ text. text ≡ option_copied name.entry) }
{
    let Some(name) = name else {
        return Ok(None);
    };
    match Text::from_str(alloc, name.as_str()) {
        Ok(text) => Ok(Some(text)),
        Err(_) => Err(MemoryRefused),
    }
}

/// Tables that have the name of function 0, or that it has none, and nothing else.
fn tables_of(alloc: Global, name: Option<&Name>) -> Result<Tables, MemoryRefused>
    ensures { IfOk result (λ tables. tables ≡ tables_of (option_copied name.entry)) }
{
    let text = name_text(alloc, name)?;
    let mut tables = Tables::new(alloc);
    match tables.add_name(NamedDef::FunctionId(FunctionId::from_raw(0)), text) {
        Ok(()) => Ok(tables),
        Err(_) => Err(MemoryRefused),
    }
}

/// Makes the tables that a body of a function of this name is printed from, unless they are made.
///
/// Returns `MemoryRefused` where an allocation fails.
pub(crate) fn make_tables(
    alloc: Global,
    name: &Option<Name>,
    tables: &mut Option<Tables>,
) -> Result<(), MemoryRefused>
    requires { IfSome tables.old (λ t. t ≡ tables_of name.now) }
    ensures are { IfSome tables.new (λ t. t ≡ tables_of name.now) }
    ensures made { OnOk result (IsSome tables.new) }
{
    if tables.is_some() {
        return Ok(());
    }
    *tables = Some(tables_of(alloc, name.as_ref())?);
    Ok(())
}

/// The text of a body of lines, as that of function 0 of these tables.
///
/// Returns `MemoryRefused` where an allocation fails.
fn print_body(alloc: Global, body: &Body, tables: &Tables) -> Result<String, MemoryRefused>
    requires of_lines { AreOfLines body.now.store.nodes }
    requires name_alone { tables.now ≡ tables_of (name_of tables.now) }
    ensures { IfOk result (λ text. string_bytes text ≡ body_text (name_of tables.now) body.now) }
{
    let function = DefWithBodyId::FunctionId(FunctionId::from_raw(0));
    match print_body_hir(alloc, tables, body, function, Edition::Edition2021) {
        Ok(text) => Ok(text),
        Err(PrintFault::Missing(_)) => unreachable!(),
        Err(PrintFault::Memory) => Err(MemoryRefused),
    }
}

/// Puts the text of a body of lines, printed as that of function 0 of these tables, and a line end.
///
/// Returns `MemoryRefused` where an allocation fails; nothing is put then.
pub(crate) fn answer_print<W: Sink>(
    alloc: Global,
    body: &Body,
    tables: &Tables,
    output: &mut Output<'_, W>,
) -> Result<(), MemoryRefused>
    requires of_lines { AreOfLines body.now.store.nodes }
    requires name_alone { tables.now ≡ tables_of (name_of tables.now) }
    ensures ok { OnOk result (OutputsText W.Sink output.old output.new
        (print_text (name_of tables.now) body.now)) }
    ensures memory { OnErr result (Untouched W.Sink output.old output.new) }
{
    let text = print_body(alloc, body, tables)?;
    output.put(text.as_str().as_bytes());
    output.put(b"\n");
    Ok(())
}
