//! Helpers that make record literals, record patterns and their fields.

ghost use Rattle.std.specs.Prelude.{◌≡◌, false, true, IfOk, IfErr};
ghost use Rattle.hir_path.specs.Paths.{one_name};
ghost use Rattle.hir_collections.specs.declared.arena.ArenaFault.TheVariants.{Memory};
ghost use Rattle.hir_error.specs.declared.error.HirError.TheVariants as error;
ghost use Rattle.hir_make.specs.Adding.{AddsExpr, AddsPat, RefusesExpr, RefusesPat};

use crate::adding::{add_expr, add_pat, path};
use hir_base::Name;
use hir_collections::{Boxed, Seq};
use hir_error::HirError;
use hir_node::{Expr, ExprId, Pat, PatId, RecordFieldPat, RecordLitField, RecordSpread};
use hir_store::ExpressionStoreBuilder;
use std::alloc::Global;

/// The field `name: value` of a record literal.
///
/// An error says that an allocation fails.
pub fn lit_field(alloc: Global, name: &str, value: ExprId) -> Result<RecordLitField, HirError>
    ensures ok { IfOk result (λ field. field ≡ record { name = name.now; expr = value }) }
    ensures err { IfErr result (λ fault. fault ≡ error.Arena Memory) }
{
    Ok(RecordLitField {
        name: Name::new(alloc, name)?,
        expr: value,
    })
}

/// Adds the record literal `name { fields }`, without `..`.
///
/// An error, where an allocation fails or no id is left, leaves the builder as it was.
pub fn record_lit(
    alloc: Global,
    builder: &mut ExpressionStoreBuilder,
    name: &str,
    fields: Vec<RecordLitField>,
) -> Result<ExprId, HirError>
    ensures ok { IfOk result (λ id.
        AddsExpr builder.old (Expr.RecordLit (one_name name.now) fields.items RecordSpread.None)
        id builder.new) }
    ensures err { IfErr result (λ fault. RefusesExpr builder.old fault builder.new) }
{
    // The fields first: where their box is refused, what is dropped isn't a path.
    let fields = Boxed::new(alloc, Seq::from_vec(fields))?;
    let path = path(alloc, name)?;
    add_expr(
        builder,
        Expr::RecordLit {
            path,
            fields,
            spread: RecordSpread::None,
        },
    )
}

/// The field `name: pat` of a record pattern. For the pattern `name` alone `pat` is the binding of that name.
///
/// An error says that an allocation fails.
pub fn pat_field(alloc: Global, name: &str, pat: PatId) -> Result<RecordFieldPat, HirError>
    ensures ok { IfOk result (λ field. field ≡ record { name = name.now; pat = pat }) }
    ensures err { IfErr result (λ fault. fault ≡ error.Arena Memory) }
{
    Ok(RecordFieldPat {
        name: Name::new(alloc, name)?,
        pat,
    })
}

/// Adds the record pattern `name { fields }`, without `..`.
///
/// An error, where an allocation fails or no id is left, leaves the builder as it was.
pub fn record_pat(
    alloc: Global,
    builder: &mut ExpressionStoreBuilder,
    name: &str,
    fields: Vec<RecordFieldPat>,
) -> Result<PatId, HirError>
    ensures ok { IfOk result (λ id.
        AddsPat builder.old (Pat.Record false (one_name name.now) fields.items) id builder.new) }
    ensures err { IfErr result (λ fault. RefusesPat builder.old fault builder.new) }
{
    let path = path(alloc, name)?;
    add_pat(
        builder,
        Pat::Record {
            ellipsis: false,
            path,
            args: Seq::from_vec(fields),
        },
    )
}
