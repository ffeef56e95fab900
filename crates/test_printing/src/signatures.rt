//! Heads of functions: the list is given by the printer's public calls what `print_function` prints by the
//! one buffer.
use crate::list::PieceList;
use crate::printed::{EDITION, Printed, are_text, list_of_added};
use crate::stores::store_of;
use hir_base::{ExternAbi, FunctionId, Name};
use hir_collections::{Idx, Seq};
use hir_defs::{FunctionParts, FunctionSignature, GenericParams, Tables};
use hir_node::TypeRefId;
use hir_pretty::print_function;
use hir_pretty_layout::PieceWriter;
use hir_pretty_nodes::{Printer, Token};
use std::alloc::{AllocError, Global};
use std::test::Fail;

/// A function `f` without generic parameters: lines that make its types, those of its parameters and of its
/// return, and its text.
struct Head {
    nodes: &'static str,
    params: &'static [u32],
    ret_type: Option<u32>,
    text: &'static str,
}

const HEADS: [Head; 6] = [
    Head {
        nodes: "",
        params: &[],
        ret_type: None,
        text: "fn f() {...}\n",
    },
    Head {
        nodes: "type path A\ntype path B\ntype fn 0 1",
        params: &[2],
        ret_type: None,
        text: "fn f(fn(A) -> B) {...}\n",
    },
    Head {
        nodes: "type path Trait1\ntype path Trait2\ntype dyn for<'a>T0+T1",
        params: &[2],
        ret_type: None,
        text: "fn f(dyn for<'a> Trait1 + Trait2) {...}\n",
    },
    Head {
        nodes: "type tuple -\ntype path ::core::future::Future::<Output=T0>\ntype impl T1",
        params: &[],
        ret_type: Some(2),
        text: "fn f() -> impl ::core::future::Future::<Output = ()> {...}\n",
    },
    Head {
        nodes: "type path A\ntype path B\ntype path C\ntype never",
        params: &[0, 1, 2],
        ret_type: Some(3),
        text: "fn f(A, B, C) -> ! {...}\n",
    },
    Head {
        nodes: "type path lang(FunctionId(1))",
        params: &[0],
        ret_type: None,
        text: "Missing(Name(FunctionId(1)))",
    },
];

/// The types of these numbers.
fn types(alloc: Global, numbers: &[u32]) -> Result<Seq<TypeRefId>, AllocError> {
    let mut list = Seq::new(alloc);
    for number in numbers {
        list.push(Idx::from_raw(*number))?;
    }
    Ok(list)
}

/// The signature of a function.
fn signature(alloc: Global, head: &Head) -> Result<Box<FunctionSignature>, Fail> {
    let store = store_of(alloc, head.nodes)?;
    let name = Name::new(alloc, "f")?;
    let params = types(alloc, head.params)?;
    let ret_type = match head.ret_type {
        Some(number) => Some(Idx::from_raw(number)),
        None => None,
    };
    let signature = FunctionSignature::new(FunctionParts {
        name,
        generic_params: GenericParams::empty(alloc),
        store: Box::into_inner(store),
        params,
        ret_type,
        abi: ExternAbi::Rust,
        is_const: false,
        is_async: false,
        is_unsafe: false,
        is_explicit_safe: false,
        legacy_const_indices: None,
    })?;
    Ok(Box::new(alloc, signature)?)
}

/// Adds the head of a function.
fn add_function<'a, W: PieceWriter>(
    printer: &mut Printer<'a, W>,
    signature: &'a FunctionSignature,
) -> Result<(), AllocError> {
    printer.add(&[
        Token::Text("fn "),
        Token::Name(signature.name().as_str()),
        Token::Text("("),
    ])?;
    printer.add_joined(", ", signature.params())?;
    printer.add(&[Token::Text(")")])?;
    if let Some(ret_type) = signature.ret_type() {
        printer.add(&[Token::Text(" -> "), Token::Type(ret_type)])?;
    }
    printer.add(&[Token::Text(" {...}"), Token::Break])
}

/// A signature by the one buffer.
fn page_of_function(alloc: Global, tables: &Tables, signature: &FunctionSignature) -> Printed {
    let text = print_function(alloc, tables, FunctionId::from_raw(0), signature, EDITION)?;
    Ok(text.into_bytes())
}

/// A signature by the list.
fn list_of_function<'a>(
    alloc: Global,
    tables: &'a Tables,
    signature: &'a FunctionSignature,
) -> Printed {
    let list = PieceList::new(alloc);
    let store = signature.store();
    let mut printer = Printer::over(alloc, list, store, tables, EDITION, false);
    add_function(&mut printer, signature)?;
    list_of_added(alloc, printer, false)
}

/// Whether both writers print the text of a head.
fn is_printed(alloc: Global, tables: &Tables, head: &Head) -> Result<bool, Fail> {
    let function = signature(alloc, head)?;
    let by_page = page_of_function(alloc, tables, &function);
    let by_list = list_of_function(alloc, tables, &function);
    Ok(are_text(alloc, by_page, by_list, head.text)?)
}

/// The first text of these heads that a writer doesn't print.
fn first_that_differs(alloc: Global, heads: &[Head]) -> Result<Option<&'static str>, Fail> {
    let tables = Box::new(alloc, Tables::new(alloc))?;
    for head in heads {
        if !is_printed(alloc, &tables, head)? {
            return Ok(Some(head.text));
        }
    }
    Ok(None)
}

/// Code that prints signatures is generic over the writer: types, bounds and return types as the list has
/// them.
#[test]
fn heads_of_functions_are_printed_alike(rt: HostRuntime) -> Result<(), Fail> {
    assert_eq!(rt; first_that_differs(rt.alloc(), &HEADS)?, None);
    Ok(())
}
