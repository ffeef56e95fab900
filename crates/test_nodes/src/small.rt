//! The small calls: ids, words before bindings and pointers, boxes, texts of floats and nodes, and function
//! types.
use crate::build;
use hir_base::ExternAbi;
use hir_collections::{Boxed, Idx, ShortList, Text};
use hir_node::{
    BindingAnnotation, Expr, ExprId, ExprOrPatId, FloatTypeWrapper, FnType, Mutability, NodeId,
    PatId, PathId, Rawness,
};
use std::alloc::{AllocError, Global};
use std::fmt::{Debug, Display};
use std::mem::drop;
use std::test::Fail;

// Whether it is an expression or a pattern, as is wanted, and of this number as the one alone.
fn is_one(id: ExprOrPatId, is_expr: bool, number: u32) -> bool {
    let as_expr = id.as_expr();
    let as_pat = id.as_pat();
    let is_kind = (id.is_expr() == is_expr) & (id.is_pat() != is_expr);
    match (as_expr, as_pat) {
        (Some(id), None) => is_kind & is_expr & (id.into_raw() == number),
        (None, Some(id)) => is_kind & !is_expr & (id.into_raw() == number),
        _ => false,
    }
}

#[test]
fn an_id_is_of_one_kind(rt: HostRuntime) {
    let of_expr = ExprOrPatId::from(ExprId::from_raw(3));
    let of_pat = ExprOrPatId::from(PatId::from_raw(3));
    assert!(rt; is_one(of_expr, true, 3));
    assert!(rt; is_one(of_pat, false, 3));
    assert!(rt; of_expr != of_pat);
}

#[test]
fn a_path_id_has_its_type(rt: HostRuntime) {
    assert!(rt; PathId::from_type_ref_unchecked(build::anchor()).type_ref() == build::anchor());
}

// Whether a binding is mutable and a reference, and its words.
const BINDINGS: [(bool, bool, BindingAnnotation); 4] = [
    (false, false, BindingAnnotation::Unannotated),
    (true, false, BindingAnnotation::Mutable),
    (false, true, BindingAnnotation::Ref),
    (true, true, BindingAnnotation::RefMut),
];

// Whether a reference or pointer that is mutable or not has these words.
fn has_words(is_mutable: bool, in_ref: &str, in_ptr: &str) -> bool {
    let mutability = Mutability::from_mutable(is_mutable);
    let has_words = mutability.as_keyword_for_ref() == in_ref
        && mutability.as_keyword_for_ptr() == in_ptr;
    has_words & (mutability.is_mut() == is_mutable) & (mutability.is_shared() != is_mutable)
}

#[test]
fn bindings_have_their_words(rt: HostRuntime) {
    for (is_mutable, is_ref, words) in &BINDINGS {
        assert!(rt; BindingAnnotation::new(*is_mutable, *is_ref) == *words);
    }
}

#[test]
fn references_and_pointers_have_their_words(rt: HostRuntime) {
    assert!(rt; has_words(false, "", "const "));
    assert!(rt; has_words(true, "mut ", "mut "));
    assert!(rt; Rawness::from_raw(true).is_raw() & !Rawness::from_raw(false).is_raw());
}

#[test]
fn a_boxed_value_comes_back(rt: HostRuntime) -> Result<(), Fail> {
    let mut boxed = Boxed::new(rt.alloc(), 4u32)?;
    *boxed.get_mut() = 5;
    let value = *boxed.get();
    let again = Boxed::from_box(boxed.into_box()).into_inner();
    assert!(rt; value == 5 && again == 5);
    Ok(())
}

// Makes the second argument of a call expression 4.
fn edit(expr: &mut Expr) {
    if let Expr::Call { callee: _, args } = expr {
        if args.len() > 1 {
            args[1] = Idx::from_raw(4);
        }
    }
}

fn is_edited(expr: &Expr) -> bool {
    if let Expr::Call { callee, args } = expr {
        return callee.into_raw() == 0
            && args.as_slice() == [Idx::from_raw(1), Idx::from_raw(4)].as_slice();
    }
    false
}

#[test]
fn a_node_is_edited_in_place(rt: HostRuntime) -> Result<(), Fail> {
    let args = ShortList::from_slice(rt.alloc(), &[Idx::from_raw(1), Idx::from_raw(2)])?;
    let mut call = Expr::Call {
        callee: Idx::from_raw(0),
        args,
    };
    edit(&mut call);
    let is_edited = is_edited(&call);
    drop(call);
    assert!(rt; is_edited);
    Ok(())
}

// Whether the value has this text by `Display`.
fn is_displayed<T: Display>(alloc: Global, value: &T, text: &str) -> Result<bool, AllocError> {
    let displayed = format!(in alloc; "{value}")?;
    Ok(displayed.as_str() == text)
}

// Whether the value has this text by `Debug`.
fn is_debugged<T: Debug>(alloc: Global, value: &T, text: &str) -> Result<bool, AllocError> {
    let debugged = format!(in alloc; "{value:?}")?;
    Ok(debugged.as_str() == text)
}

#[test]
fn a_float_shows_its_text(rt: HostRuntime) -> Result<(), Fail> {
    let number = FloatTypeWrapper::new(Text::from_str(rt.alloc(), "1.50")?);
    let is_displayed = is_displayed(rt.alloc(), &number, "1.50");
    drop(number);
    assert!(rt; is_displayed?);
    Ok(())
}

// Whether the node has this text by `Display` and by `Debug`.
fn shows(alloc: Global, node: NodeId, text: &str) -> Result<bool, AllocError> {
    Ok(is_displayed(alloc, &node, text)? & is_debugged(alloc, &node, text)?)
}

#[test]
fn a_node_shows_its_kind_and_its_number(rt: HostRuntime) -> Result<(), Fail> {
    let alloc = rt.alloc();
    let type_ref = NodeId::TypeRef(Idx::from_raw(4294967295));
    assert!(rt; shows(alloc, NodeId::Expr(Idx::from_raw(3)), "ExprId(3)")?);
    assert!(rt; shows(alloc, NodeId::Pat(Idx::from_raw(0)), "PatId(0)")?);
    assert!(rt; shows(alloc, type_ref, "TypeRefId(4294967295)")?);
    Ok(())
}

// Whether there is one parameter before the return type, which is type 2.
fn returns_the_second(function: &FnType) -> bool {
    if function.params.is_empty() {
        return false;
    }
    let (params, ret) = function.split_params_and_ret();
    params.len() == 1 && ret.into_raw() == 2
}

#[test]
fn the_last_entry_is_the_return_type(rt: HostRuntime) -> Result<(), Fail> {
    let first = (None, Idx::from_raw(1));
    let function = FnType {
        binder: None,
        params: build::two(rt.alloc(), first, (None, Idx::from_raw(2)))?,
        is_varargs: false,
        is_unsafe: false,
        abi: ExternAbi::Rust,
    };
    let holds = returns_the_second(&function);
    drop(function);
    assert!(rt; holds);
    Ok(())
}
