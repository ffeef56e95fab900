//! Builders that are refused: each by its first fault, and the builder given back has what a second one has
//! that was built by the same calls. The faults of other nodes are in golden cases; arenas that are replaced
//! are tested here alone.
use crate::build::{NEVER, PATH, Step, push_entries};
use crate::nodes::{ExprStep, TypeStep, Written};
use crate::outcomes;
use hir_collections::Idx;
use hir_store::{FinishFault, NodeId};
use std::alloc::{AllocError, Global};
use std::test::Fail;

/// A path without a list of roots.
const NO_ROOTS: &[Step] = &[PATH];

/// A tuple of expression 5, which doesn't exist.
const OUT_OF_RANGE: &[Step] = &[Step::Begin, Step::Expr(ExprStep::Tuple(&[5]))];

/// The type `!`, and one with a bound by it, which names what is no path.
const BOUND_ON_NEVER: &[Step] = &[NEVER, Step::Type(TypeStep::Bounded(0))];

/// A function type without types.
const NO_RETURN_TYPE: &[Step] = &[Step::Type(TypeStep::NoTypes)];

/// A path whose list of arguments is said to begin with a self type, and is empty.
const NO_SELF_ARGUMENT: &[Step] = &[
    Step::Begin,
    Step::Expr(ExprStep::Path(Written::Nested(0, false))),
];

/// A path whose list lacks its self type 100 bindings deep.
const NO_SELF_ARGUMENT_DEEP_DOWN: &[Step] = &[
    Step::Begin,
    Step::Expr(ExprStep::Path(Written::Nested(100, false))),
];

/// A path whose list has its self type 100 bindings deep.
const SELF_ARGUMENT_DEEP_DOWN: &[Step] = &[
    Step::Begin,
    NEVER,
    Step::Expr(ExprStep::Path(Written::Nested(100, true))),
];

/// A path of two segments with one list of arguments.
const ONE_LIST_FOR_TWO: &[Step] = &[
    Step::Begin,
    Step::Expr(ExprStep::Path(Written::OneListForTwo)),
];

/// A path of one segment that isn't a plain one and has no list of arguments.
const NO_LIST_FOR_ONE: &[Step] = &[
    Step::Begin,
    Step::Expr(ExprStep::Path(Written::NoListForOne)),
];

/// A path, and a tuple that holds it twice.
const HELD_TWICE: &[Step] = &[Step::Begin, PATH, Step::Expr(ExprStep::Tuple(&[0, 0]))];

/// A tuple that holds itself.
const HOLDS_ITSELF: &[Step] = &[Step::Begin, Step::Expr(ExprStep::Tuple(&[0]))];

/// A path that is a root twice.
const ROOT_TWICE: &[Step] = &[PATH, Step::Root(0), Step::Root(0)];

/// A path and the tuple that holds it, both as roots.
const ROOT_UNDER_ROOT: &[Step] = &[
    PATH,
    Step::Expr(ExprStep::Tuple(&[0])),
    Step::Root(0),
    Step::Root(1),
];

/// Three paths with the first as the root, and then an arena of one path.
const ENDS_PAST_THE_ARENA: &[Step] = &[PATH, PATH, PATH, Step::Root(0), Step::Replaced(1)];

/// Three paths with the last as the root, and then an arena of one path.
const ROOT_PAST_THE_ARENA: &[Step] = &[PATH, PATH, PATH, Step::Root(2), Step::Replaced(1)];

/// Three paths with the first as the root; then there is an arena of two, the second as a root too, and one
/// path more.
const ENDS_THAT_FALL: &[Step] = &[
    PATH,
    PATH,
    PATH,
    Step::Root(0),
    Step::Replaced(2),
    Step::Root(1),
    PATH,
];

/// A fault that a refusal may name, of expression 0, of a type of this number, or of the root at this place
/// of the list.
enum Fault {
    NoRoots,
    IdOutOfRange,
    NotAPath(u32),
    NoReturnType(u32),
    NoSelfArgument,
    ArgumentLists,
    SharedChild,
    Cycle,
    RootRepeated(usize),
    RootUnderRoot(usize),
    RootEnds(usize),
    RootOutOfRange(usize),
}

/// The fault as `finish` returns it.
fn as_answered(fault: &Fault) -> FinishFault {
    let expr = NodeId::Expr(Idx::from_raw(0));
    match *fault {
        Fault::NoRoots => FinishFault::NoRoots,
        Fault::IdOutOfRange => FinishFault::IdOutOfRange(expr),
        Fault::NotAPath(number) => FinishFault::NotAPath(NodeId::TypeRef(Idx::from_raw(number))),
        Fault::NoReturnType(number) => {
            FinishFault::NoReturnType(NodeId::TypeRef(Idx::from_raw(number)))
        }
        Fault::NoSelfArgument => FinishFault::NoSelfArgument(expr),
        Fault::ArgumentLists => FinishFault::ArgumentLists(expr),
        Fault::SharedChild => FinishFault::SharedChild(expr),
        Fault::Cycle => FinishFault::Cycle(expr),
        Fault::RootRepeated(place) => FinishFault::RootRepeated(place),
        Fault::RootUnderRoot(place) => FinishFault::RootUnderRoot(place),
        Fault::RootEnds(place) => FinishFault::RootEnds(place),
        Fault::RootOutOfRange(place) => FinishFault::RootOutOfRange(place),
    }
}

const REFUSED: &[(&[Step], Fault)] = &[
    (NO_ROOTS, Fault::NoRoots),
    (OUT_OF_RANGE, Fault::IdOutOfRange),
    (BOUND_ON_NEVER, Fault::NotAPath(1)),
    (NO_RETURN_TYPE, Fault::NoReturnType(0)),
    (NO_SELF_ARGUMENT, Fault::NoSelfArgument),
    (NO_SELF_ARGUMENT_DEEP_DOWN, Fault::NoSelfArgument),
    (ONE_LIST_FOR_TWO, Fault::ArgumentLists),
    (NO_LIST_FOR_ONE, Fault::ArgumentLists),
    (HELD_TWICE, Fault::SharedChild),
    (HOLDS_ITSELF, Fault::Cycle),
    (ROOT_TWICE, Fault::RootRepeated(1)),
    (ROOT_UNDER_ROOT, Fault::RootUnderRoot(0)),
    (ENDS_PAST_THE_ARENA, Fault::RootEnds(0)),
    (ROOT_PAST_THE_ARENA, Fault::RootOutOfRange(0)),
    (ENDS_THAT_FALL, Fault::RootEnds(1)),
];

/// These steps, and entries of each kind in the tables beside the nodes.
fn with_entries(alloc: Global, steps: &[Step]) -> Result<Vec<Step>, AllocError> {
    let mut all = Vec::with_capacity(alloc, 32)?;
    all.extend_from_slice(steps)?;
    push_entries(&mut all, 5)?;
    Ok(all)
}

/// The tables beside the nodes come back too.
#[test]
fn each_fault(rt: HostRuntime) -> Result<(), Fail> {
    for (steps, fault) in REFUSED {
        let steps = with_entries(rt.alloc(), steps)?;
        let is_refused = outcomes::is_refused(rt.alloc(), &steps, as_answered(fault));
        std::mem::drop(steps);
        assert!(&rt; is_refused?);
    }
    Ok(())
}

#[test]
fn a_self_argument_deep_down(rt: HostRuntime) -> Result<(), Fail> {
    std::mem::drop(outcomes::accept_steps(rt.alloc(), SELF_ARGUMENT_DEEP_DOWN)?);
    Ok(())
}
