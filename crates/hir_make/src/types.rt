//! Helpers that make types and the bounds of a `where` clause.

ghost use Rattle.std.specs.Prelude.{◌≡◌, None, IfOk, IfErr};
ghost use Rattle.hir_path.specs.Paths.{one_name};
ghost use Rattle.hir_make.specs.Adding.{AddsType, RefusesType};
ghost use Rattle.hir_make.specs.Parts.{reference_to};

use crate::adding::{add_type, path};
use hir_collections::Boxed;
use hir_error::HirError;
use hir_node::{Mutability, PathId, RefType, TraitBoundModifier, TypeBound, TypeRef, TypeRefId};
use hir_signature::WherePredicate;
use hir_store::ExpressionStoreBuilder;
use std::alloc::Global;

/// Adds the type `name`, a path, and returns its id.
///
/// An error, where an allocation fails or no id is left, leaves the builder as it was.
pub fn path_type(
    alloc: Global,
    builder: &mut ExpressionStoreBuilder,
    name: &str,
) -> Result<TypeRefId, HirError>
    ensures ok { IfOk result (λ id. AddsType builder.old (TypeRef.Path (one_name name.now)) id builder.new) }
    ensures err { IfErr result (λ fault. RefusesType builder.old fault builder.new) }
{
    let path = path(alloc, name)?;
    add_type(builder, TypeRef::Path(path))
}

/// Adds the type `&target` or `&mut target`, without a lifetime, and returns its id.
///
/// An error, where an allocation fails or no id is left, leaves the builder as it was.
pub fn ref_type(
    alloc: Global,
    builder: &mut ExpressionStoreBuilder,
    target: TypeRefId,
    mutability: Mutability,
) -> Result<TypeRefId, HirError>
    ensures ok { IfOk result (λ id.
        AddsType builder.old (TypeRef.Reference (reference_to target mutability)) id builder.new) }
    ensures err { IfErr result (λ fault. RefusesType builder.old fault builder.new) }
{
    let reference = RefType {
        ty: target,
        lifetime: None,
        mutability,
    };
    let reference = Boxed::new(alloc, reference)?;
    add_type(builder, TypeRef::Reference(reference))
}

/// `target: trait_`, of a type and of a type that is the path of a trait, as `path_type` makes it. A store or
/// a signature refuses a bound whose trait isn't a path. It takes no memory and can't be refused.
pub fn where_bound(target: TypeRefId, trait_: TypeRefId) -> WherePredicate
    ensures { result ≡ WherePredicate.TypeBound None target (TypeBound.Path trait_ TraitBoundModifier.None) }
{
    WherePredicate::TypeBound {
        lifetimes: None,
        target,
        bound: TypeBound::Path(
            PathId::from_type_ref_unchecked(trait_),
            TraitBoundModifier::None,
        ),
    }
}
