//! Helpers that make patterns. Each adds one pattern as the last of the builder and returns its id; `bind`
//! and `bind_as` add a binding before it. An error says that an allocation fails or that the builder has no
//! id left; but for these two it leaves the builder as it was.

ghost use Rattle.std.specs.Prelude.{◌≡◌, length, Some, None, IfOk, IfErr};
ghost use Rattle.hir_path.specs.Paths.{one_name};
ghost use Rattle.hir_make.specs.Adding.{AddsPat, RefusesPat, with_binding, RefusesBind};
ghost use Rattle.hir_make.specs.Parts.{plain_binding, binding_named};

use crate::adding::{add_pat, path};
use hir_base::{HygieneId, Name};
use hir_collections::ShortList;
use hir_error::HirError;
use hir_node::{Binding, BindingAnnotation, ExprId, Pat, PatId};
use hir_store::ExpressionStoreBuilder;
use std::alloc::Global;

/// Adds the pattern `name`, and before it a new binding of that name, without `mut`, `ref` or hygiene.
///
/// An error, where an allocation fails or no id is left, leaves the builder as it was, or with the binding
/// alone.
pub fn bind(
    alloc: Global,
    builder: &mut ExpressionStoreBuilder,
    name: &str,
) -> Result<PatId, HirError>
    ensures ok { IfOk result (λ id.
        AddsPat (with_binding builder.old (plain_binding name.now))
        (Pat.Bind (length builder.old.bindings) None) id builder.new) }
    ensures err { IfErr result (λ fault.
        RefusesBind builder.old (plain_binding name.now) fault builder.new) }
{
    bind_as(alloc, builder, name, BindingAnnotation::Unannotated)
}

/// Adds the pattern `mut name`, `ref name` or `ref mut name`, as `mode` says, and before it a new binding of
/// that name, without hygiene.
///
/// An error, where an allocation fails or no id is left, leaves the builder as it was, or with the binding
/// alone.
pub fn bind_as(
    alloc: Global,
    builder: &mut ExpressionStoreBuilder,
    name: &str,
    mode: BindingAnnotation,
) -> Result<PatId, HirError>
    ensures ok { IfOk result (λ id.
        AddsPat (with_binding builder.old (binding_named name.now mode))
        (Pat.Bind (length builder.old.bindings) None) id builder.new) }
    ensures err { IfErr result (λ fault.
        RefusesBind builder.old (binding_named name.now mode) fault builder.new) }
{
    let id = builder.alloc_binding(Binding {
        name: Name::new(alloc, name)?,
        mode,
        problems: None,
        hygiene: HygieneId::ROOT,
    })?;
    add_pat(builder, Pat::Bind { id, subpat: None })
}

/// Adds the pattern `_`.
///
/// An error, where an allocation fails or no id is left, leaves the builder as it was.
pub fn wild(builder: &mut ExpressionStoreBuilder) -> Result<PatId, HirError>
    ensures ok { IfOk result (λ id. AddsPat builder.old Pat.Wild id builder.new) }
    ensures err { IfErr result (λ fault. RefusesPat builder.old fault builder.new) }
{
    add_pat(builder, Pat::Wild)
}

/// Adds the pattern `name` that is a constant or a variant without fields, as `None`.
///
/// An error, where an allocation fails or no id is left, leaves the builder as it was.
pub fn path_pat(
    alloc: Global,
    builder: &mut ExpressionStoreBuilder,
    name: &str,
) -> Result<PatId, HirError>
    ensures ok { IfOk result (λ id. AddsPat builder.old (Pat.Path (one_name name.now)) id builder.new) }
    ensures err { IfErr result (λ fault. RefusesPat builder.old fault builder.new) }
{
    add_pat(builder, Pat::Path(path(alloc, name)?))
}

/// Adds the pattern of a literal, as `1`; `expr` is that literal.
///
/// An error, where an allocation fails or no id is left, leaves the builder as it was.
pub fn lit_pat(builder: &mut ExpressionStoreBuilder, expr: ExprId) -> Result<PatId, HirError>
    ensures ok { IfOk result (λ id. AddsPat builder.old (Pat.Lit expr) id builder.new) }
    ensures err { IfErr result (λ fault. RefusesPat builder.old fault builder.new) }
{
    add_pat(builder, Pat::Lit(expr))
}

/// Adds the pattern `a | b`, of these alternatives.
///
/// An error, where an allocation fails or no id is left, leaves the builder as it was.
pub fn or_pat(
    alloc: Global,
    builder: &mut ExpressionStoreBuilder,
    alternatives: &[PatId],
) -> Result<PatId, HirError>
    ensures ok { IfOk result (λ id. AddsPat builder.old (Pat.Or alternatives.now) id builder.new) }
    ensures err { IfErr result (λ fault. RefusesPat builder.old fault builder.new) }
{
    let alternatives = ShortList::from_slice(alloc, alternatives)?;
    add_pat(builder, Pat::Or(alternatives))
}

/// Adds the pattern `(args)`, without `..`.
///
/// An error, where an allocation fails or no id is left, leaves the builder as it was.
pub fn tuple_pat(
    alloc: Global,
    builder: &mut ExpressionStoreBuilder,
    args: &[PatId],
) -> Result<PatId, HirError>
    ensures ok { IfOk result (λ id. AddsPat builder.old (Pat.Tuple args.now None) id builder.new) }
    ensures err { IfErr result (λ fault. RefusesPat builder.old fault builder.new) }
{
    let args = ShortList::from_slice(alloc, args)?;
    add_pat(
        builder,
        Pat::Tuple {
            args,
            ellipsis: None,
        },
    )
}

/// Adds the pattern `name(args)`, as `Some(x)`, without `..`.
///
/// An error, where an allocation fails or no id is left, leaves the builder as it was.
pub fn tuple_struct(
    alloc: Global,
    builder: &mut ExpressionStoreBuilder,
    name: &str,
    args: &[PatId],
) -> Result<PatId, HirError>
    ensures ok { IfOk result (λ id.
        AddsPat builder.old (Pat.TupleStruct (one_name name.now) args.now None) id builder.new) }
    ensures err { IfErr result (λ fault. RefusesPat builder.old fault builder.new) }
{
    // The list first: where it is refused, what is dropped isn't a path.
    let args = ShortList::from_slice(alloc, args)?;
    let path = path(alloc, name)?;
    add_pat(
        builder,
        Pat::TupleStruct {
            path,
            args,
            ellipsis: None,
        },
    )
}
