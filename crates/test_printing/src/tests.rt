//! All cases, printed by both writers. Tables lack every definition.
use crate::blocks::BLOCKS;
use crate::cases::Case;
use crate::exprs::EXPRS;
use crate::forms::FORMS;
use crate::literals::LITERALS;
use crate::missing::MISSING;
use crate::paths::PATHS;
use crate::pats::PATS;
use crate::printed::is_printed;
use crate::stores::store_of;
use crate::types::TYPES;
use hir_defs::Tables;
use std::alloc::Global;
use std::test::Fail;

/// The first text of a case that a writer doesn't print.
fn differs(alloc: Global, tables: &Tables, case: &Case) -> Result<Option<&'static str>, Fail> {
    let store = store_of(alloc, case.nodes)?;
    for (asked, wanted) in case.printed {
        if !is_printed(alloc, &store, tables, *asked, wanted)? {
            return Ok(Some(*wanted));
        }
    }
    Ok(None)
}

/// The first text of these cases that a writer doesn't print.
fn first_that_differs(alloc: Global, cases: &[Case]) -> Result<Option<&'static str>, Fail> {
    let tables = Box::new(alloc, Tables::new(alloc))?;
    for case in cases {
        if let Some(wanted) = differs(alloc, &tables, case)? {
            return Ok(Some(wanted));
        }
    }
    Ok(None)
}

/// Code that prints expressions is proved once, for every writer.
#[test]
fn expressions_are_printed_alike(rt: HostRuntime) -> Result<(), Fail> {
    assert_eq!(rt; first_that_differs(rt.alloc(), &EXPRS)?, None);
    Ok(())
}

/// Each form of expression, pattern, type and lifetime that the other tests lack.
#[test]
fn other_forms_are_printed_alike(rt: HostRuntime) -> Result<(), Fail> {
    assert_eq!(rt; first_that_differs(rt.alloc(), &FORMS)?, None);
    Ok(())
}

/// Blocks, statements, matches and closures: breaks and levels of each writer.
#[test]
fn blocks_and_closures_are_printed_alike(rt: HostRuntime) -> Result<(), Fail> {
    assert_eq!(rt; first_that_differs(rt.alloc(), &BLOCKS)?, None);
    Ok(())
}

/// A literal is written as several pieces, with its escapes.
#[test]
fn literals_are_printed_alike(rt: HostRuntime) -> Result<(), Fail> {
    assert_eq!(rt; first_that_differs(rt.alloc(), &LITERALS)?, None);
    Ok(())
}

/// Code that prints patterns, in lines and in one line.
#[test]
fn patterns_are_printed_alike(rt: HostRuntime) -> Result<(), Fail> {
    assert_eq!(rt; first_that_differs(rt.alloc(), &PATS)?, None);
    Ok(())
}

/// Code that prints types, their bounds and their lifetimes.
#[test]
fn types_are_printed_alike(rt: HostRuntime) -> Result<(), Fail> {
    assert_eq!(rt; first_that_differs(rt.alloc(), &TYPES)?, None);
    Ok(())
}

/// Code that prints paths and their arguments.
#[test]
fn paths_are_printed_alike(rt: HostRuntime) -> Result<(), Fail> {
    assert_eq!(rt; first_that_differs(rt.alloc(), &PATHS)?, None);
    Ok(())
}

/// The first definition that is missing doesn't depend on what is written to.
#[test]
fn the_same_is_missing_first(rt: HostRuntime) -> Result<(), Fail> {
    assert_eq!(rt; first_that_differs(rt.alloc(), &MISSING)?, None);
    Ok(())
}
