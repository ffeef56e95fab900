//! Expressions, patterns and paths of a store as text.

ghost use Rattle.std.specs.Prelude.{◌<◌, false, IsTrue, length};
ghost use Rattle.hir_pretty_nodes.specs.Prelude.{words_of, print_env, pieces, path_pieces, PrintsPieces, lookups_of};
ghost use Rattle.hir_node.specs.declared.node_id.NodeId.TheVariants as node;
ghost use Rattle.hir_validate.specs.Fits.{path_fits};

use hir_base::{Edition, ExpressionStoreOwnerId};
use hir_defs::Tables;
use hir_node::{ExprId, PatId, Path};
use hir_pretty_nodes::{PrintFault, Printer, Token};
use hir_store_core::ExpressionStore;
use std::alloc::Global;

/// The text of an expression of the store, in lines. The expression has to be in range: `has_expr` tests it.
/// What owns the store makes no difference to the text.
///
/// Returns `Missing` of the first definition that the text names and the tables don't have, and `Memory`
/// where an allocation fails. An error drops the text that was begun.
pub fn print_expr_hir(
    alloc: Global,
    tables: &Tables,
    store: &ExpressionStore,
    _owner: ExpressionStoreOwnerId,
    expr: ExprId,
    edition: Edition,
) -> Result<String, PrintFault>
    requires { expr < length store.now.nodes.exprs }
    ensures { let s = print_env store.now (lookups_of tables.now) (words_of tables.now.words edition) false in
        PrintsPieces s (pieces s (node.Expr expr)) result }
{
    let mut printer = Printer::new(alloc, store, tables, edition, false);
    printer.add(&[Token::Expr(expr)])?;
    printer.print()
}

/// The text of a pattern of the store, in one line or in lines. The pattern has to be in range: `has_pat`
/// tests it. What owns the store makes no difference to the text.
///
/// Returns `Missing` of the first definition that the text names and the tables don't have, and `Memory`
/// where an allocation fails. An error drops the text that was begun.
pub fn print_pat_hir(
    alloc: Global,
    tables: &Tables,
    store: &ExpressionStore,
    _owner: ExpressionStoreOwnerId,
    pat: PatId,
    oneline: bool,
    edition: Edition,
) -> Result<String, PrintFault>
    requires { pat < length store.now.nodes.pats }
    ensures { let s = print_env store.now (lookups_of tables.now)
        (words_of tables.now.words edition) oneline in
        PrintsPieces s (pieces s (node.Pat pat)) result }
{
    let mut printer = Printer::new(alloc, store, tables, edition, oneline);
    printer.add(&[Token::Pattern(pat)])?;
    printer.print()
}

/// The text of a path whose types, lifetimes and constants are of the store, in lines: `path_is_sound` of the
/// store tests it.
///
/// Returns `Missing` of the first definition that the text names and the tables don't have, and `Memory`
/// where an allocation fails. An error drops the text that was begun.
pub fn print_path(
    alloc: Global,
    tables: &Tables,
    store: &ExpressionStore,
    path: &Path,
    edition: Edition,
) -> Result<String, PrintFault>
    requires { IsTrue (path_fits store.now.nodes path.now) }
    ensures { let s = print_env store.now (lookups_of tables.now) (words_of tables.now.words edition) false in
        PrintsPieces s (path_pieces s path.now) result }
{
    let mut printer = Printer::new(alloc, store, tables, edition, false);
    printer.add_path(path)?;
    printer.print()
}
