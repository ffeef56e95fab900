//! What errors say: a sentence for each fault, and which id a node names that doesn't exist.
use hir_body::BodyFault;
use hir_collections::{ArenaFault, Seq};
use hir_error::HirError;
use hir_make::{bind, break_, call, local, tuple};
use hir_node::{
    BindingId, Expr, ExprId, LabelId, LifetimeRefId, NodeId, Pat, PatId, TypeBound, TypeRef,
    TypeRefId,
};
use hir_scope::ScopesFault;
use hir_signature::SignatureFault;
use hir_store::{ExpressionStore, ExpressionStoreBuilder, FinishFault};
use std::alloc::Global;
use std::test::Fail;

/// Whether the error has this text.
fn has_text(alloc: Global, error: &HirError, text: &str) -> Result<bool, Fail> {
    let said = format!(in alloc; "{error}")?;
    Ok(said.as_str() == text)
}

/// Whether the outcome is an error of this text.
fn says<T: Drop>(alloc: Global, outcome: &Result<T, HirError>, text: &str) -> Result<bool, Fail> {
    match outcome {
        Ok(_) => Ok(false),
        Err(error) => has_text(alloc, error, text),
    }
}

/// The store of the builder, with expression 0 as its root.
fn finished(mut builder: ExpressionStoreBuilder) -> Result<ExpressionStore, HirError> {
    builder.push_root(ExprId::from_raw(0))?;
    let (store, _sources) = builder.finish()?;
    Ok(store)
}

/// The call `f(..)` with two arguments that don't exist: the error has the first.
fn missing_argument(alloc: Global) -> Result<ExpressionStore, HirError> {
    let mut builder = ExpressionStoreBuilder::new(alloc);
    let callee = local(alloc, &mut builder, "f")?;
    let args = [ExprId::from_raw(8), ExprId::from_raw(9)];
    call(alloc, &mut builder, callee, &args)?;
    finished(builder)
}

/// `break` out of a label that doesn't exist, with a value that does.
fn missing_label(alloc: Global) -> Result<ExpressionStore, HirError> {
    let mut builder = ExpressionStoreBuilder::new(alloc);
    let value = local(alloc, &mut builder, "x")?;
    break_(&mut builder, Some(LabelId::from_raw(2)), Some(value))?;
    finished(builder)
}

/// A pattern that names a binding that doesn't exist, after one that names its own.
fn missing_binding(alloc: Global) -> Result<ExpressionStore, HirError> {
    let mut builder = ExpressionStoreBuilder::new(alloc);
    bind(alloc, &mut builder, "x")?;
    builder.alloc_pat(Pat::Bind {
        id: BindingId::from_raw(1),
        subpat: None,
    })?;
    finished(builder)
}

/// An assignment to a pattern that doesn't exist.
fn missing_pattern(alloc: Global) -> Result<ExpressionStore, HirError> {
    let mut builder = ExpressionStoreBuilder::new(alloc);
    let value = tuple(alloc, &mut builder, &[])?;
    builder.alloc_expr(Expr::Assignment {
        target: PatId::from_raw(0),
        value,
    })?;
    finished(builder)
}

/// A slice of a type that doesn't exist.
fn missing_type(alloc: Global) -> Result<ExpressionStore, HirError> {
    let mut builder = ExpressionStoreBuilder::new(alloc);
    builder.alloc_type(TypeRef::Slice(TypeRefId::from_raw(3)))?;
    finished(builder)
}

/// `dyn 'a` of a lifetime that doesn't exist.
fn missing_lifetime(alloc: Global) -> Result<ExpressionStore, HirError> {
    let mut builder = ExpressionStoreBuilder::new(alloc);
    let mut bounds = Seq::with_capacity(alloc, 1)?;
    bounds.push(TypeBound::Lifetime(LifetimeRefId::from_raw(4)))?;
    builder.alloc_type(TypeRef::DynTrait(bounds))?;
    finished(builder)
}

#[test]
fn the_error_has_the_first_id_that_does_not_exist(rt: HostRuntime) -> Result<(), Fail> {
    let alloc = rt.alloc();
    let argument = "ExprId(1) names ExprId(8), which doesn't exist";
    assert!(&rt; says(alloc, &missing_argument(alloc), argument)?);
    let label = "ExprId(1) names LabelId(2), which doesn't exist";
    assert!(&rt; says(alloc, &missing_label(alloc), label)?);
    let binding = "PatId(1) names BindingId(1), which doesn't exist";
    assert!(&rt; says(alloc, &missing_binding(alloc), binding)?);
    Ok(())
}

#[test]
fn the_error_has_an_id_of_each_other_arena(rt: HostRuntime) -> Result<(), Fail> {
    let alloc = rt.alloc();
    let pattern = "ExprId(1) names PatId(0), which doesn't exist";
    assert!(&rt; says(alloc, &missing_pattern(alloc), pattern)?);
    let type_ref = "TypeRefId(0) names TypeRefId(3), which doesn't exist";
    assert!(&rt; says(alloc, &missing_type(alloc), type_ref)?);
    let lifetime = "TypeRefId(0) names LifetimeRefId(4), which doesn't exist";
    assert!(&rt; says(alloc, &missing_lifetime(alloc), lifetime)?);
    Ok(())
}

/// Whether each of these errors has the text beside it.
fn all_say(alloc: Global, sentences: &[(HirError, &str)]) -> Result<bool, Fail> {
    for (error, text) in sentences {
        if !has_text(alloc, error, text)? {
            return Ok(false);
        }
    }
    Ok(true)
}

#[test]
fn each_fault_of_nodes_has_a_sentence(rt: HostRuntime) -> Result<(), Fail> {
    let node = NodeId::Pat(PatId::from_raw(1));
    let sentences = [
        (
            HirError::from(FinishFault::IdOutOfRange(node)),
            "PatId(1) names an id that doesn't exist",
        ),
        (
            HirError::from(FinishFault::NotAPath(node)),
            "PatId(1) names as the path of a bound a type that isn't a path",
        ),
        (
            HirError::from(FinishFault::NoReturnType(node)),
            "PatId(1) is a function type without a return type",
        ),
        (
            HirError::from(FinishFault::NoSelfArgument(node)),
            "PatId(1) has generic arguments that lack their self type",
        ),
        (
            HirError::from(FinishFault::ArgumentLists(node)),
            "PatId(1) has a path without one list of arguments for each segment",
        ),
        (
            HirError::from(FinishFault::SharedChild(node)),
            "PatId(1) is a child more than once",
        ),
        (
            HirError::from(FinishFault::Cycle(node)),
            "PatId(1) is on a cycle, or a descendant of one",
        ),
        (HirError::from(FinishFault::Memory), "out of memory"),
    ];
    assert!(&rt; all_say(rt.alloc(), &sentences)?);
    Ok(())
}

#[test]
fn each_fault_of_roots_has_a_sentence(rt: HostRuntime) -> Result<(), Fail> {
    let sentences = [
        (
            HirError::from(FinishFault::RootOutOfRange(2)),
            "root 2 is an expression that doesn't exist",
        ),
        (
            HirError::from(FinishFault::RootRepeated(2)),
            "root 2 repeats an earlier root",
        ),
        (
            HirError::from(FinishFault::RootUnderRoot(2)),
            "root 2 is a descendant of another root",
        ),
        (
            HirError::from(FinishFault::RootEnds(2)),
            "an end of root 2 is past its arena, or less than that of the root before",
        ),
        (HirError::from(ArenaFault::Full), "an arena is full"),
        (
            HirError::from(ScopesFault::Full),
            "there are too many scopes or entries of scopes",
        ),
    ];
    assert!(&rt; all_say(rt.alloc(), &sentences)?);
    Ok(())
}

#[test]
fn each_fault_of_bodies_has_a_sentence(rt: HostRuntime) -> Result<(), Fail> {
    let sentences = [
        (
            HirError::from(BodyFault::SelfOutOfRange),
            "the self parameter has a binding that doesn't exist",
        ),
        (
            HirError::from(BodyFault::ParamOutOfRange(1)),
            "parameter 1 has a pattern that doesn't exist",
        ),
        (
            HirError::from(BodyFault::ParamRepeated(1)),
            "parameter 1 has the pattern of an earlier parameter",
        ),
        (
            HirError::from(BodyFault::ParamUnder(1)),
            "parameter 1 is a descendant of another parameter or of the last root",
        ),
        (
            HirError::from(BodyFault::RootInParam),
            "the last root is a descendant of a parameter",
        ),
        (
            HirError::from(SignatureFault::NotAPath),
            "the signature names as the path of a bound a type that isn't a path",
        ),
    ];
    assert!(&rt; all_say(rt.alloc(), &sentences)?);
    Ok(())
}
