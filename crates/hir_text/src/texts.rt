//! Questions on texts: what expressions, patterns, paths, bodies, fields and signatures are printed as.

use hir_base::{
    DefWithBodyId, Edition, ExpressionStoreOwnerId, FunctionId, GenericDefId, StructId, VariantId,
};
use hir_defs::{Body, Tables};
use hir_node::{ExprId, PatId, Path};
use hir_pretty::{
    PrettyBody, PrintFault, print_body_hir, print_expr_hir, print_function, print_pat_hir,
    print_path, print_signature, print_struct, print_variant_body_hir,
};
use hir_text_defs::{Asked, asked_def};
use hir_text_nodes::{next, opt_edition, prefixed};
use hir_text_store::{answer_unknown, refuse_missing};
use hir_text_words::{Answer, TextError, Words};
use std::alloc::Global;

/// A text of the body that is asked.
#[derive(Clone, Copy)]
pub(crate) enum BodyText {
    Body(DefWithBodyId, Edition),
    Expr(ExprId, Edition),
    Pat(PatId, bool, Edition),
}

/// A text of the store that is asked.
#[derive(Drop)]
pub(crate) enum StoreText {
    Expr(ExprId, Edition),
    Pat(PatId, bool, Edition),
    Path(Path, Edition),
    OfBody(BodyText),
}

/// A text of what is in the tables; of what may have another owner, with that.
#[derive(Clone, Copy)]
pub(crate) enum TablesText {
    Body(DefWithBodyId, DefWithBodyId, Edition),
    Variant(VariantId, Edition),
    Signature(GenericDefId, Edition),
    Struct(StructId, StructId, Edition),
    Function(FunctionId, FunctionId, Edition),
}

/// A text that was printed, or why it wasn't.
type Printed = Result<String, PrintFault>;

/// Writes a text that was printed, or the first definition that is missing.
pub(crate) fn put_printed(answer: &mut Answer, printed: Printed) -> Result<(), TextError> {
    match printed {
        Ok(text) => Ok(answer.join(text.as_str())?),
        Err(PrintFault::Missing(missing)) => Ok(refuse_missing(answer, missing)?),
        Err(PrintFault::Memory) => Err(TextError::Memory),
    }
}

/// Takes whether a pattern is printed in one line, and the edition.
fn read_pat(words: &mut Words<'_>) -> Result<(PatId, bool, Edition), TextError> {
    let pat = next(words)?;
    let oneline = words.flag("oneline");
    Ok((pat, oneline, opt_edition(words)?))
}

/// Returns the owner of a store; function 0 where it has none.
fn owner_or_first(owner: Option<ExpressionStoreOwnerId>) -> ExpressionStoreOwnerId {
    match owner {
        Some(owner) => owner,
        None => ExpressionStoreOwnerId::Body(DefWithBodyId::FunctionId(FunctionId::from_raw(0))),
    }
}

impl BodyText {
    /// Prints what is asked of a body, where it exists.
    fn print(
        self,
        alloc: Global,
        tables: &Tables,
        def: &DefWithBodyId,
        body: &Body,
    ) -> Option<Printed> {
        match self {
            BodyText::Body(owner, edition) => {
                Some(body.pretty_print(alloc, tables, owner, edition))
            }
            BodyText::Expr(expr, edition) if body.store().has_expr(expr) => {
                Some(body.pretty_print_expr(alloc, tables, *def, expr, edition))
            }
            BodyText::Pat(pat, oneline, edition) if body.store().has_pat(pat) => {
                let owner = ExpressionStoreOwnerId::Body(*def);
                Some(body.pretty_print_pat(alloc, tables, owner, pat, oneline, edition))
            }
            BodyText::Expr(..) | BodyText::Pat(..) => None,
        }
    }

    /// Prints what is asked of the body whose store is asked, where it is a body's.
    fn print_asked(self, alloc: Global, asked: &Asked<'_>) -> Option<Printed> {
        match &asked_def(asked.owner) {
            Some(def) => match Body::of(asked.tables, *def) {
                Ok(body) => self.print(alloc, asked.tables, def, body),
                Err(missing) => Some(Err(PrintFault::Missing(missing))),
            },
            None => None,
        }
    }
}

impl StoreText {
    /// Reads a question, after its first word; `None` where no such question begins with it.
    pub(crate) fn read(word: &str, words: &mut Words<'_>) -> Result<Option<StoreText>, TextError> {
        Ok(Some(match word {
            "print-expr" => StoreText::Expr(next(words)?, opt_edition(words)?),
            "print-path" => StoreText::Path(next(words)?, opt_edition(words)?),
            "print-pat" => {
                let (pat, oneline, edition) = read_pat(words)?;
                StoreText::Pat(pat, oneline, edition)
            }
            "pretty" => StoreText::OfBody(BodyText::Body(next(words)?, opt_edition(words)?)),
            "pretty-expr" => StoreText::OfBody(BodyText::Expr(next(words)?, opt_edition(words)?)),
            "pretty-pat" => {
                let (pat, oneline, edition) = read_pat(words)?;
                StoreText::OfBody(BodyText::Pat(pat, oneline, edition))
            }
            _ => return Ok(None),
        }))
    }

    /// Prints what is asked of a store, where it exists.
    fn print(&self, alloc: Global, asked: &Asked<'_>) -> Option<Printed> {
        let (tables, store) = (asked.tables, asked.store);
        let owner = owner_or_first(asked.owner);
        match self {
            StoreText::Expr(expr, edition) if store.has_expr(*expr) => {
                Some(print_expr_hir(alloc, tables, store, owner, *expr, *edition))
            }
            StoreText::Pat(pat, oneline, edition) if store.has_pat(*pat) => Some(print_pat_hir(
                alloc, tables, store, owner, *pat, *oneline, *edition,
            )),
            StoreText::Path(path, edition) if store.path_is_sound(path) => {
                Some(print_path(alloc, tables, store, path, *edition))
            }
            StoreText::Expr(..) | StoreText::Pat(..) | StoreText::Path(..) => None,
            StoreText::OfBody(text) => text.print_asked(alloc, asked),
        }
    }

    /// Writes the text.
    pub(crate) fn ask(&self, asked: &Asked<'_>, answer: &mut Answer) -> Result<(), TextError> {
        match self.print(answer.alloc(), asked) {
            Some(printed) => put_printed(answer, printed),
            None => Ok(answer_unknown(answer)?),
        }
    }
}

impl TablesText {
    /// Reads a question, after its first word; `None` where no such question begins with it.
    pub(crate) fn read(word: &str, words: &mut Words<'_>) -> Result<Option<TablesText>, TextError> {
        Ok(Some(match word {
            "print-body" => {
                let def = next(words)?;
                let owner = prefixed(words, "as:")?.unwrap_or(def);
                TablesText::Body(def, owner, opt_edition(words)?)
            }
            "print-variant" => TablesText::Variant(next(words)?, opt_edition(words)?),
            "print-signature" => TablesText::Signature(next(words)?, opt_edition(words)?),
            "print-struct" => {
                let id = next(words)?;
                let owner = prefixed(words, "as:")?.unwrap_or(id);
                TablesText::Struct(id, owner, opt_edition(words)?)
            }
            "print-function" => {
                let id = next(words)?;
                let owner = prefixed(words, "as:")?.unwrap_or(id);
                TablesText::Function(id, owner, opt_edition(words)?)
            }
            _ => return Ok(None),
        }))
    }

    fn print(self, alloc: Global, tables: &Tables) -> Printed {
        match self {
            TablesText::Body(def, owner, edition) => match Body::of(tables, def) {
                Ok(body) => print_body_hir(alloc, tables, body, owner, edition),
                Err(missing) => Err(PrintFault::Missing(missing)),
            },
            TablesText::Variant(id, edition) => print_variant_body_hir(alloc, tables, id, edition),
            TablesText::Signature(def, edition) => print_signature(alloc, tables, def, edition),
            TablesText::Struct(id, owner, edition) => match tables.struct_signature(id) {
                Ok(signature) => print_struct(alloc, tables, owner, signature, edition),
                Err(missing) => Err(PrintFault::Missing(missing)),
            },
            TablesText::Function(id, owner, edition) => match tables.function_signature(id) {
                Ok(signature) => print_function(alloc, tables, owner, signature, edition),
                Err(missing) => Err(PrintFault::Missing(missing)),
            },
        }
    }

    /// Writes the text.
    pub(crate) fn ask(self, tables: &Tables, answer: &mut Answer) -> Result<(), TextError> {
        let printed = self.print(answer.alloc(), tables);
        put_printed(answer, printed)
    }
}
