//! Accepted stores, refused builders and builders that are compared, each made of steps and held in a box:
//! what is dropped is then a pointer.
use crate::build::{self, BuildFault, Step};
use hir_store::{ExpressionStore, ExpressionStoreSourceMap, FinishFault, Refused};
use std::alloc::Global;
use std::fmt::Debug;
use std::test::Fail;

/// An accepted store with its source map.
pub type StoreAndSources = Box<(ExpressionStore, ExpressionStoreSourceMap)>;

/// The outcome, with what it has in a box. It is said of any type, so that no large one is laid out here.
fn in_boxes<T: Drop, E: Drop>(
    alloc: Global,
    outcome: Result<T, E>,
) -> Result<Result<Box<T>, Box<E>>, BuildFault> {
    match outcome {
        Ok(value) => Ok(Ok(build::in_a_box(alloc, value)?)),
        Err(error) => Ok(Err(build::in_a_box(alloc, error)?)),
    }
}

/// What the builder that was given back makes, or its refusal.
fn finished_again(
    alloc: Global,
    refused: Box<Refused>,
) -> Result<Result<StoreAndSources, Box<Refused>>, BuildFault> {
    let builder = Box::into_inner(refused).builder;
    in_boxes(alloc, builder.finish())
}

/// What the builder of these steps makes, or its refusal. A builder that is refused has what the steps make,
/// and is finished again: it has its fault again, and where an allocation fails it is accepted.
fn finish_steps(
    alloc: Global,
    steps: &[Step],
) -> Result<Result<StoreAndSources, Box<Refused>>, BuildFault> {
    match build::build_steps(alloc, steps) {
        Ok(builder) => match in_boxes(alloc, Box::into_inner(builder).finish())? {
            Ok(made) => Ok(Ok(made)),
            Err(refused) => {
                build::is_of_steps(alloc, &refused.builder, steps)?;
                finished_again(alloc, refused)
            }
        },
        Err(fault) => Err(fault),
    }
}

/// What was made, or the refusal as a failed test. It is said of any type, so that no large one is laid out
/// here.
fn open_outcome<T: Drop, E: Debug + Drop>(
    outcome: Result<Result<Box<T>, Box<E>>, BuildFault>,
) -> Result<Box<T>, Fail> {
    match outcome {
        Ok(Ok(value)) => Ok(value),
        Ok(Err(error)) => Err(Fail::from(Box::into_inner(error))),
        Err(fault) => Err(Fail::from(fault)),
    }
}

/// What the builder of these steps makes.
pub fn accept_steps(alloc: Global, steps: &[Step]) -> Result<StoreAndSources, Fail> {
    open_outcome(finish_steps(alloc, steps))
}

/// Whether it is the empty store.
pub fn is_empty(store: &ExpressionStore, alloc: Global) -> bool {
    *store == ExpressionStore::empty(alloc)
}

/// Both, if they could be made.
fn zip_ok<T: Drop, U: Drop>(
    first: Result<T, BuildFault>,
    second: Result<U, BuildFault>,
) -> Result<(T, U), BuildFault> {
    Ok((first?, second?))
}

/// Whether the builder of these steps is refused by this fault, and comes back as it was: as another one of
/// the same steps. Where an allocation fails, that is the error, and no other fault.
pub fn is_refused(alloc: Global, steps: &[Step], fault: FinishFault) -> Result<bool, BuildFault> {
    match zip_ok(build::build_once(alloc, steps), finish_steps(alloc, steps)) {
        Ok((wanted, outcome)) => match outcome {
            Ok(_) => Ok(false),
            Err(refused) => {
                if refused.fault == FinishFault::Memory {
                    return Err(BuildFault::Memory);
                }
                Ok((refused.fault == fault) & (refused.builder == *wanted))
            }
        },
        Err(fault) => Err(fault),
    }
}

/// Whether the builders of these steps and of those differ.
pub fn differ(alloc: Global, first: &[Step], second: &[Step]) -> Result<bool, BuildFault> {
    match zip_ok(
        build::build_steps(alloc, first),
        build::build_steps(alloc, second),
    ) {
        Ok((first, second)) => Ok(*first != *second),
        Err(fault) => Err(fault),
    }
}
