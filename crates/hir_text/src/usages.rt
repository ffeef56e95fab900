//! Questions on the uses of a body, and on what a new name of a binding would change.

use crate::texts::put_printed;
use hir_base::{DefWithBodyId, Edition, Name};
use hir_defs::Body;
use hir_node::{BindingId, ExprOrPatId};
use hir_pretty::print_body_hir;
use hir_scope::ExprScopes;
use hir_text_defs::Asked;
use hir_text_nodes::{Write, put, put_each};
use hir_text_words::{Answer, TextError};
use hir_usages::{RenameFault, Usage, Usages, rename, renamed};
use std::alloc::AllocError;

/// A question on the uses of a body.
#[derive(Clone, Copy)]
pub(crate) enum OfUsages {
    All,
    Of(BindingId),
    Unresolved,
    Unused,
}

/// A question on a new name of a binding.
#[derive(Drop)]
pub(crate) struct NewName {
    pub(crate) binding: BindingId,
    pub(crate) name: Name,
    /// The edition in which the renamed body is printed, where that is asked.
    pub(crate) edition: Option<Edition>,
}

/// Writes the binding that a use resolves to after the last word, or `none`.
fn join_binding(answer: &mut Answer, binding: Option<BindingId>) -> Result<(), AllocError> {
    match binding {
        Some(binding) => answer.join_number(binding.into_raw()),
        None => answer.join("none"),
    }
}

fn put_paths(answer: &mut Answer, usages: &[Usage]) -> Result<(), AllocError> {
    for usage in usages {
        put(answer, &usage.path)?;
    }
    Ok(())
}

impl OfUsages {
    /// Writes the answer of the uses.
    pub(crate) fn ask(self, usages: &Usages, answer: &mut Answer) -> Result<(), AllocError> {
        match self {
            OfUsages::All => {
                for usage in usages.iter() {
                    put(answer, &usage.path)?;
                    answer.join("=")?;
                    join_binding(answer, usage.binding)?;
                }
                Ok(())
            }
            OfUsages::Of(binding) => put_paths(answer, usages.of(binding)),
            OfUsages::Unresolved => put_paths(answer, usages.unresolved()),
            OfUsages::Unused => put_each(answer, usages.unused()),
        }
    }
}

/// Writes that a use would resolve to another binding than it is to, and which one it is.
fn put_conflict(
    answer: &mut Answer,
    kind: &str,
    usage: ExprOrPatId,
    binding: Option<BindingId>,
) -> Result<(), AllocError> {
    answer.join(kind)?;
    usage.write(answer)?;
    answer.join(" ")?;
    join_binding(answer, binding)?;
    answer.join(")")
}

/// Writes why a binding may not have a name, or fails where it is out of memory.
fn refuse_rename(answer: &mut Answer, fault: RenameFault) -> Result<(), TextError> {
    answer.refuse();
    match fault {
        RenameFault::NotBound => answer.join("NotBound")?,
        RenameFault::IsSelf => answer.join("IsSelf")?,
        RenameFault::SameFrame { other } => {
            answer.join("SameFrame(")?;
            other.write(answer)?;
            answer.join(")")?;
        }
        RenameFault::Hidden { usage, by } => put_conflict(answer, "Hidden(", usage, Some(by))?,
        RenameFault::Captures { usage, was } => put_conflict(answer, "Captures(", usage, was)?,
        RenameFault::Memory => return Err(TextError::Memory),
    }
    Ok(())
}

impl NewName {
    /// Writes the uses that the new name changes, or why the binding may not have it.
    fn put_changes(
        &self,
        body: &Body,
        scopes: &ExprScopes,
        answer: &mut Answer,
    ) -> Result<(), TextError> {
        match rename(answer.alloc(), body, scopes, self.binding, &self.name) {
            Ok(usages) => Ok(put_paths(answer, usages.as_slice())?),
            Err(fault) => refuse_rename(answer, fault),
        }
    }

    /// Writes what the new name changes, or, where the question has an edition, how the renamed body is
    /// printed.
    pub(crate) fn ask(
        &self,
        asked: &Asked<'_>,
        body: &Body,
        owner: DefWithBodyId,
        scopes: &ExprScopes,
        answer: &mut Answer,
    ) -> Result<(), TextError> {
        let Some(edition) = self.edition else {
            return self.put_changes(body, scopes, answer);
        };
        match renamed(answer.alloc(), body, scopes, self.binding, &self.name) {
            Ok(made) => {
                let printed = print_body_hir(answer.alloc(), asked.tables, &made, owner, edition);
                put_printed(answer, printed)
            }
            Err(fault) => refuse_rename(answer, fault),
        }
    }
}
