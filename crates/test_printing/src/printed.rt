//! Texts of nodes by the one buffer, as users ask for them, and by the list, through the same code.
use crate::cases::Asked;
use crate::layout::laid_out;
use crate::list::PieceList;
use hir_base::{DefWithBodyId, Edition, ExpressionStoreOwnerId, FunctionId};
use hir_collections::Idx;
use hir_defs::Tables;
use hir_node::{ExprId, PatId, Path};
use hir_pretty::{PrintFault, print_expr_hir, print_pat_hir, print_path};
use hir_pretty_nodes::{Printer, Token};
use hir_store::ExpressionStore;
use hir_text_nodes::{Answer, Read, TextError, Words};
use hir_text_store::refuse_missing;
use std::alloc::Global;

/// What is printed: the bytes of a text, or the first definition that is missing.
pub type Printed = Result<Vec<u8>, PrintFault>;

pub const EDITION: Edition = Edition::Edition2021;

/// An owner, which makes no difference to the text of a node.
fn any_owner() -> ExpressionStoreOwnerId {
    ExpressionStoreOwnerId::Body(DefWithBodyId::FunctionId(FunctionId::from_raw(0)))
}

/// An expression by the one buffer; no text where the expression is out of range.
fn page_of_expr(alloc: Global, store: &ExpressionStore, tables: &Tables, expr: &ExprId) -> Printed {
    if !store.has_expr(*expr) {
        return Ok(Vec::new(alloc));
    }
    let text = print_expr_hir(alloc, tables, store, any_owner(), *expr, EDITION)?;
    Ok(text.into_bytes())
}

/// A pattern by the one buffer; no text where the pattern is out of range.
fn page_of_pat(
    alloc: Global,
    store: &ExpressionStore,
    tables: &Tables,
    pat: &PatId,
    one_line: bool,
) -> Printed {
    if !store.has_pat(*pat) {
        return Ok(Vec::new(alloc));
    }
    let text = print_pat_hir(alloc, tables, store, any_owner(), *pat, one_line, EDITION)?;
    Ok(text.into_bytes())
}

/// A path by the one buffer; no text where it names what is out of range.
fn page_of_path(alloc: Global, store: &ExpressionStore, tables: &Tables, path: &Path) -> Printed {
    if !store.path_is_sound(path) {
        return Ok(Vec::new(alloc));
    }
    let text = print_path(alloc, tables, store, path, EDITION)?;
    Ok(text.into_bytes())
}

/// What was added to a printer, by the list that it writes to.
pub fn list_of_added(alloc: Global, printer: Printer<'_, PieceList>, one_line: bool) -> Printed {
    let pieces = printer.finish()?.into_pieces();
    Ok(laid_out(alloc, pieces.as_slice(), one_line)?)
}

/// An expression by the list.
fn list_of_expr(alloc: Global, store: &ExpressionStore, tables: &Tables, expr: ExprId) -> Printed {
    let list = PieceList::new(alloc);
    let mut printer = Printer::over(alloc, list, store, tables, EDITION, false);
    printer.add(&[Token::Expr(expr)])?;
    list_of_added(alloc, printer, false)
}

/// A pattern by the list.
fn list_of_pat(
    alloc: Global,
    store: &ExpressionStore,
    tables: &Tables,
    pat: PatId,
    one_line: bool,
) -> Printed {
    let list = PieceList::new(alloc);
    let mut printer = Printer::over(alloc, list, store, tables, EDITION, one_line);
    printer.add(&[Token::Pattern(pat)])?;
    list_of_added(alloc, printer, one_line)
}

/// A path by the list.
fn list_of_path<'a>(
    alloc: Global,
    store: &'a ExpressionStore,
    tables: &'a Tables,
    path: &'a Path,
) -> Printed {
    let list = PieceList::new(alloc);
    let mut printer = Printer::over(alloc, list, store, tables, EDITION, false);
    printer.add_path(path)?;
    list_of_added(alloc, printer, false)
}

/// Whether this was printed, as golden cases write it.
fn is_text(alloc: Global, printed: Printed, wanted: &str) -> Result<bool, TextError> {
    match printed {
        Ok(text) => Ok(text.as_slice() == wanted.as_bytes()),
        Err(PrintFault::Missing(missing)) => {
            let mut answer = Answer::new(alloc);
            refuse_missing(&mut answer, missing)?;
            Ok(answer.as_str() == wanted)
        }
        Err(PrintFault::Memory) => Err(TextError::Memory),
    }
}

/// Whether both the one buffer and the list print this.
pub fn are_text(
    alloc: Global,
    by_page: Printed,
    by_list: Printed,
    wanted: &str,
) -> Result<bool, TextError> {
    let is_page_text = is_text(alloc, by_page, wanted)?;
    let is_list_text = is_text(alloc, by_list, wanted)?;
    Ok(is_page_text && is_list_text)
}

/// Whether both writers print this of an expression.
fn is_expr_text(
    alloc: Global,
    store: &ExpressionStore,
    tables: &Tables,
    id: u32,
    wanted: &str,
) -> Result<bool, TextError> {
    let by_page = page_of_expr(alloc, store, tables, &Idx::from_raw(id));
    let by_list = list_of_expr(alloc, store, tables, Idx::from_raw(id));
    are_text(alloc, by_page, by_list, wanted)
}

/// Whether both writers print this of a pattern.
fn is_pat_text(
    alloc: Global,
    store: &ExpressionStore,
    tables: &Tables,
    id: u32,
    one_line: bool,
    wanted: &str,
) -> Result<bool, TextError> {
    let by_page = page_of_pat(alloc, store, tables, &Idx::from_raw(id), one_line);
    let by_list = list_of_pat(alloc, store, tables, Idx::from_raw(id), one_line);
    are_text(alloc, by_page, by_list, wanted)
}

/// Whether both writers print this of a path.
fn is_path_text(
    alloc: Global,
    store: &ExpressionStore,
    tables: &Tables,
    path: &str,
    wanted: &str,
) -> Result<bool, TextError> {
    let mut words = Words::new(alloc, path.as_bytes());
    let path = Path::read(&mut words)?;
    let by_page = page_of_path(alloc, store, tables, &path);
    let by_list = list_of_path(alloc, store, tables, &path);
    are_text(alloc, by_page, by_list, wanted)
}

/// Whether both writers print this of what is asked.
pub fn is_printed(
    alloc: Global,
    store: &ExpressionStore,
    tables: &Tables,
    asked: Asked,
    wanted: &str,
) -> Result<bool, TextError> {
    match asked {
        Asked::Expr(id) => is_expr_text(alloc, store, tables, id, wanted),
        Asked::Pat(id) => is_pat_text(alloc, store, tables, id, false, wanted),
        Asked::PatInOneLine(id) => is_pat_text(alloc, store, tables, id, true, wanted),
        Asked::Path(path) => is_path_text(alloc, store, tables, path, wanted),
    }
}
