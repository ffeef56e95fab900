//! Additions to a builder whose refusal is a `HirError`, and the path of one name.

ghost use Rattle.std.specs.Prelude.{◌≡◌, IfOk, IfErr};
ghost use Rattle.hir_path.specs.Paths.{one_name};
ghost use Rattle.hir_collections.specs.declared.arena.ArenaFault.TheVariants.{Memory};
ghost use Rattle.hir_error.specs.declared.error.HirError.TheVariants as error;
ghost use Rattle.hir_make.specs.Adding.{AddsExpr, AddsPat, AddsType, RefusesExpr, RefusesPat, RefusesType};

use hir_base::Name;
use hir_error::HirError;
use hir_node::{Expr, ExprId, Pat, PatId, Path, TypeRef, TypeRefId};
use hir_store::ExpressionStoreBuilder;
use std::alloc::Global;

/// The plain path of one name.
pub(crate) fn path(alloc: Global, name: &str) -> Result<Path, HirError>
    ensures ok { IfOk result (λ path. path ≡ one_name name.now) }
    ensures err { IfErr result (λ fault. fault ≡ error.Arena Memory) }
{
    Ok(Path::from_name(alloc, Name::new(alloc, name)?)?)
}

/// Adds the expression. An error leaves the builder as it was.
pub(crate) fn add_expr(builder: &mut ExpressionStoreBuilder, expr: Expr) -> Result<ExprId, HirError>
    ensures ok { IfOk result (λ id. AddsExpr builder.old expr id builder.new) }
    ensures err { IfErr result (λ fault. RefusesExpr builder.old fault builder.new) }
{
    Ok(builder.alloc_expr(expr)?)
}

/// Adds the pattern. An error leaves the builder as it was.
pub(crate) fn add_pat(builder: &mut ExpressionStoreBuilder, pat: Pat) -> Result<PatId, HirError>
    ensures ok { IfOk result (λ id. AddsPat builder.old pat id builder.new) }
    ensures err { IfErr result (λ fault. RefusesPat builder.old fault builder.new) }
{
    Ok(builder.alloc_pat(pat)?)
}

/// Adds the type. An error leaves the builder as it was.
pub(crate) fn add_type(
    builder: &mut ExpressionStoreBuilder,
    type_ref: TypeRef,
) -> Result<TypeRefId, HirError>
    ensures ok { IfOk result (λ id. AddsType builder.old type_ref id builder.new) }
    ensures err { IfErr result (λ fault. RefusesType builder.old fault builder.new) }
{
    Ok(builder.alloc_type(type_ref)?)
}
