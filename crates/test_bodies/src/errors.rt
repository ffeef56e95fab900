//! Refusals that give something back, as errors of any kind: the text is that of the fault.
use hir_body::{BodyFault, RefusedBody};
use hir_collections::Seq;
use hir_signature::{RefusedSignature, SignatureFault};
use hir_store::{ExpressionStore, ExpressionStoreBuilder, FinishFault, Refused};
use std::alloc::Global;
use std::error::Error;
use std::test::Fail;

/// Whether the error has this text.
fn has_text<E: Error>(alloc: Global, error: E, text: &str) -> Result<bool, Fail> {
    let shown = format!(in alloc; "{error}")?;
    Ok(shown.as_str() == text)
}

#[test]
fn a_refused_builder_is_an_error(rt: HostRuntime) -> Result<(), Fail> {
    let refused = Refused {
        fault: FinishFault::RootEnds(9),
        builder: ExpressionStoreBuilder::new(rt.alloc()),
    };
    assert!(&rt; has_text(rt.alloc(), refused, "RootEnds 9")?);
    Ok(())
}

#[test]
fn refused_parts_of_a_body_are_an_error(rt: HostRuntime) -> Result<(), Fail> {
    let refused = RefusedBody {
        fault: BodyFault::ParamUnder(2),
        store: ExpressionStore::empty(rt.alloc()),
        params: Seq::new(rt.alloc()),
        self_param: None,
    };
    assert!(&rt; has_text(rt.alloc(), refused, "ParamUnder 2")?);
    Ok(())
}

#[test]
fn refused_parts_of_a_signature_are_an_error(rt: HostRuntime) -> Result<(), Fail> {
    let refused = RefusedSignature {
        fault: SignatureFault::NotAPath,
        parts: 3u8,
    };
    assert!(&rt; has_text(rt.alloc(), refused, "NotAPath")?);
    Ok(())
}
