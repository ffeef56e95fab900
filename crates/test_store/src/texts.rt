//! The text of the fault of `finish` that no text of lines makes.
use hir_store::FinishFault;
use std::alloc::Global;
use std::fmt::Display;
use std::test::Fail;

/// Whether the value is shown as this text.
fn is_shown_as<T: Display>(alloc: Global, value: &T, text: &str) -> Result<bool, Fail> {
    let shown = format!(in alloc; "{value}")?;
    Ok(shown.as_str() == text)
}

#[test]
fn roots_that_end_past_the_arena(rt: HostRuntime) -> Result<(), Fail> {
    assert!(&rt; is_shown_as(rt.alloc(), &FinishFault::RootEnds(9), "RootEnds 9")?);
    Ok(())
}
