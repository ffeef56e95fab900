//! Why a body is refused, and the first fault of its parts.

ghost use Rattle.std.specs.Prelude.{◌≡◌, ◌<◌, All, IfOk, length};
ghost use Rattle.hir_body.specs.Bodies.{body_of, last_root, apart_fault, body_fault};

use crate::formals::{Param, add_formals, first_out_of_range, first_under, self_is_in_range};
use hir_collections::ExactEq;
use hir_node::{BindingId, ExprId, PatId};
use hir_store_core::ExpressionStore;
use hir_store_core::laws::{rank_decreases, roots_stand_apart};
use std::alloc::{AllocError, Global};
use std::fmt::{self, Display};

/// Why a body is refused: the first of its faults, in this order, and among faults of one kind the one with
/// the least index. A parameter is named by its index in the list. The text is the name and, after a space,
/// the index.
#[derive(Clone, Copy, Debug, PartialEq, Eq)]
pub enum BodyFault {
    /// The store has no root.
    NoRoot,
    /// A binding of the self parameter doesn't exist.
    SelfOutOfRange,
    /// A pattern of the parameter doesn't exist.
    ParamOutOfRange(usize),
    /// The parameter's formal pattern is that of an earlier one.
    ParamRepeated(usize),
    /// The parameter's formal pattern is a descendant of another formal, or of the last root.
    ParamUnder(usize),
    /// The last root is a descendant of a formal.
    RootInParam,
    /// An allocation of the test failed. It may come in place of any result.
    Memory,
}

impl Display for BodyFault {
    ghost use Rattle.std.specs.Prelude.{Some};
    ghost use Rattle.hir_body.specs.FaultTexts.{body_fault_text};

    ghost output = { λ fault. Some (body_fault_text fault) };

    fn fmt<W: fmt::Write>(&self, f: &mut fmt::Formatter<W>) -> fmt::Result {
        match self {
            BodyFault::NoRoot => f.write_str("NoRoot"),
            BodyFault::SelfOutOfRange => f.write_str("SelfOutOfRange"),
            BodyFault::ParamOutOfRange(index) => write!(f, "ParamOutOfRange {index}"),
            BodyFault::ParamRepeated(index) => write!(f, "ParamRepeated {index}"),
            BodyFault::ParamUnder(index) => write!(f, "ParamUnder {index}"),
            BodyFault::RootInParam => f.write_str("RootInParam"),
            BodyFault::Memory => f.write_str("Memory"),
        }
    }
}

impl std::error::Error for BodyFault {}

impl ExactEq for BodyFault {
    ghost use Rattle.hir_collections.specs.Exact.{exact};

    ghost eq_decides = { Prim.search exact };
}

/// Returns the last root, where the store has one.
pub(crate) fn last_root(store: &ExpressionStore) -> Option<ExprId>
    ensures { result ≡ last_root store.now }
{
    store.expr_roots().next_back()
}

/// Returns the first fault of formals that exist and of the last root: one that repeats, or is a descendant
/// of another.
fn first_meeting(
    alloc: Global,
    store: &ExpressionStore,
    params: &[Param<PatId>],
    root: ExprId,
) -> Result<Option<BodyFault>, AllocError>
    requires formals { All (λ p. p.formal < length store.now.nodes.pats) params.now }
    requires root { root < length store.now.nodes.exprs }
    ensures { IfOk result (apart_fault store.now.nodes params.now root) }
{
    store.has_no_fault();
    rank_decreases();
    let mut entry_nodes = store.no_nodes(alloc)?;
    if let Some(fault) = add_formals(params, &mut entry_nodes) {
        return Ok(Some(fault));
    }
    entry_nodes.add_expr(root);
    // A node that is no child is a descendant of no other node. So it is with most bodies, and the table of
    // all children isn't made.
    if store.no_child_is_in(&entry_nodes) {
        return Ok(None);
    }
    let under = store.under(alloc, &entry_nodes)?;
    if let Some(fault) = first_under(params, &under) {
        return Ok(Some(fault));
    }
    if under.has_expr(root) {
        return Ok(Some(BodyFault::RootInParam));
    }
    Ok(None)
}

/// Returns the first fault of a body's parts.
pub(crate) fn first_fault(
    alloc: Global,
    store: &ExpressionStore,
    params: &[Param<PatId>],
    self_param: Option<Param<BindingId>>,
) -> Result<Option<BodyFault>, AllocError>
    ensures { IfOk result (body_fault (body_of store.now params.now self_param)) }
{
    store.has_no_fault();
    roots_stand_apart();
    let root = match last_root(store) {
        Some(root) => root,
        None => return Ok(Some(BodyFault::NoRoot)),
    };
    if !self_is_in_range(store, self_param) {
        return Ok(Some(BodyFault::SelfOutOfRange));
    }
    if let Some(fault) = first_out_of_range(store, params) {
        return Ok(Some(fault));
    }
    first_meeting(alloc, store, params, root)
}
