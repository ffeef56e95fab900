//! The body of a function, out of a builder.

ghost use Rattle.std.specs.Prelude.{◌≡◌, IfOk, IfErr, None};
ghost use Rattle.hir_collections.specs.declared.arena.ArenaFault.TheVariants.{Memory};
ghost use Rattle.hir_error.specs.declared.error.HirError.TheVariants as error;
ghost use Rattle.hir_store.specs.Building.{building_of, finish_fault};
ghost use Rattle.hir_body.specs.Bodies.{body_fault};
ghost use Rattle.hir_make.specs.Adding.{RefusesBody};
ghost use Rattle.hir_make.specs.Parts.{params_of, with_root, body_with};

use hir_body::{Body, Param};
use hir_collections::Seq;
use hir_error::HirError;
use hir_node::{ExprId, PatId};
use hir_store::ExpressionStoreBuilder;
use std::alloc::Global;

/// The parameters of a function that are these patterns, as the user wrote them.
///
/// An error says that an allocation fails.
pub fn params(alloc: Global, pats: &[PatId]) -> Result<Seq<Param<PatId>>, HirError>
    ensures ok { IfOk result (λ params. params ≡ params_of pats.now) }
    ensures err { IfErr result (λ fault. fault ≡ error.Arena Memory) }
{
    let mut params = Seq::with_capacity(alloc, pats.len())?;
    for &pat in pats {
        params.push(Param {
            formal: pat,
            user_written: pat,
        })?;
    }
    Ok(params)
}

/// The body of a function with these parameters, which evaluates `value`: `value` becomes the last root, and
/// the builder is finished. Where the nodes come from isn't kept.
///
/// An error says that an allocation fails, or is the first fault of the builder with that root, or that of
/// the body; the builder is dropped.
#[tactic(auto, using(crate::proofs::RefusalLemmas::body_refused))]
pub fn body(
    alloc: Global,
    mut builder: ExpressionStoreBuilder,
    pats: &[PatId],
    value: ExprId,
) -> Result<Body, HirError>
    ensures ok { IfOk result (λ body. (body ≡ body_with (with_root builder value) pats.now)
        × finish_fault (building_of (with_root builder value)) None × body_fault body None) }
    ensures err { IfErr result (λ fault.
        RefusesBody (with_root builder value) (body_with (with_root builder value) pats.now) fault) }
{
    builder.push_root(value)?;
    let (store, _sources) = builder.finish()?;
    let params = params(alloc, pats)?;
    Ok(Body::new(alloc, store, params, None)?)
}
