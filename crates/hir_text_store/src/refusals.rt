//! Refusals, as an answer has them: what the tables lack, an id that doesn't exist, and a fault by its text.

use hir_base::GenericDefId;
use hir_store_core::Missing;
use hir_text_nodes::{Answer, Write};
use std::alloc::AllocError;
use std::fmt::Display;

fn join_number(answer: &mut Answer, kind: &str, number: u32) -> Result<(), AllocError> {
    answer.join(kind)?;
    answer.join("(")?;
    answer.join_number(number)?;
    answer.join(")")
}

fn join_param(
    answer: &mut Answer,
    kind: &str,
    parent: &GenericDefId,
    number: u32,
) -> Result<(), AllocError> {
    answer.join(kind)?;
    answer.join("(")?;
    parent.write(answer)?;
    answer.join(" ")?;
    answer.join_number(number)?;
    answer.join(")")
}

fn join_def<T: Display>(answer: &mut Answer, kind: &str, def: &T) -> Result<(), AllocError> {
    answer.join(kind)?;
    answer.join("(")?;
    answer.join_shown(def)?;
    answer.join(")")
}

/// Says that the tables lack this.
pub fn refuse_missing(answer: &mut Answer, missing: Missing) -> Result<(), AllocError> {
    answer.refuse();
    answer.join("Missing(")?;
    match missing {
        Missing::Name(def) => join_def(answer, "Name", &def)?,
        Missing::Variant(id) => join_def(answer, "Variant", &id)?,
        Missing::Crate(id) => join_number(answer, "Crate", id.into_raw())?,
        Missing::Signature(def) => join_def(answer, "Signature", &def)?,
        Missing::Body(def) => join_def(answer, "Body", &def)?,
        Missing::Fields(def) => join_def(answer, "Fields", &def)?,
        Missing::TypeParam(id) => {
            join_param(answer, "TypeParam", &id.parent(), id.local_id().into_raw())?;
        }
        Missing::LifetimeParam(id) => {
            join_param(answer, "LifetimeParam", &id.parent, id.local_id.into_raw())?;
        }
        Missing::DefMap(id) => join_number(answer, "DefMap", id.into_raw())?,
    }
    answer.join(")")
}

/// Says that an id doesn't exist.
pub fn answer_unknown(answer: &mut Answer) -> Result<(), AllocError> {
    answer.refuse();
    answer.join("unknown")
}

/// Says that two calls that have to agree don't.
pub fn differs(answer: &mut Answer) -> Result<(), AllocError> {
    answer.refuse();
    answer.join("differs")
}

/// Says that there is this fault, by its text.
pub fn refuse<F: Display>(answer: &mut Answer, fault: &F) -> Result<(), AllocError> {
    answer.refuse();
    answer.join_shown(fault)
}
