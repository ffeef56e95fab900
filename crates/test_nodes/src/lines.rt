//! What lines make, where no golden case can see it: the greatest number, numbers of each length, hygienes,
//! what bindings have beside a name, ids of blocks and of macro definitions, what is printed alike, and a
//! text that ends in a line end.

use crate::kept_lines::{Line, Maker};
use crate::says::{id, list, makes, says};
use hir_base::{BlockId, HygieneId, MacroDefId, Name, SyntaxContext};
use hir_collections::{Seq, ShortList};
use hir_node::{
    Array, Binding, BindingAnnotation, Expr, ExprOrPatId, Item, LoopSource, Pat, Statement, Unsafe,
};
use std::alloc::{AllocError, Global};
use std::test::Fail;

#[test]
fn lines_without_names(rt: HostRuntime) -> Result<(), Fail> {
    let alloc = rt.alloc();
    says(&rt, alloc, b"", Line::Blank)?;
    says(&rt, alloc, b"print", Line::Ask)?;
    makes(&rt, alloc, b"roots", Maker::Roots)?;
    makes(&rt, alloc, b"root 0", Maker::Root(id(0)))?;
    makes(&rt, alloc, b"self 3", Maker::SelfParam(id(3)))?;
    let param = Maker::Param(id(4294967295));
    makes(&rt, alloc, b"param 4294967295", param)?;
    Ok(())
}

// A text that ends in a line end is no line. Rows can't ask this.
#[test]
fn a_line_has_no_end(rt: HostRuntime) -> Result<(), Fail> {
    says(&rt, rt.alloc(), b"expr missing\n", Line::Bad)
}

const NUMBERS: [(&[u8], u32); 8] = [
    (b"root 12", 12),
    (b"root 123", 123),
    (b"root 1234", 1234),
    (b"root 12345", 12345),
    (b"root 123456", 123456),
    (b"root 1234567", 1234567),
    (b"root 123456789", 123456789),
    (b"root 1234567890", 1234567890),
];

#[test]
fn numbers_of_each_length(rt: HostRuntime) -> Result<(), Fail> {
    let alloc = rt.alloc();
    for (text, number) in &NUMBERS {
        makes(&rt, alloc, text, Maker::Root(id(*number)))?;
    }
    Ok(())
}

fn in_expansion(number: u32) -> HygieneId {
    HygieneId::new(SyntaxContext::Expansion(number))
}

fn plain_binding(name: Name, hygiene: HygieneId) -> Maker {
    Maker::Binding(Binding {
        name,
        mode: BindingAnnotation::Unannotated,
        problems: None,
        hygiene,
    })
}

#[test]
fn bindings_and_the_function(rt: HostRuntime) -> Result<(), Fail> {
    let alloc = rt.alloc();
    let name = Name::new(alloc, "self_1")?;
    makes(
        &rt,
        alloc,
        b"bind self_1",
        plain_binding(name, HygieneId::ROOT),
    )?;
    let name = Name::new(alloc, "longer_than_14_bytes")?;
    makes(
        &rt,
        alloc,
        b"bind longer_than_14_bytes 4294967295",
        plain_binding(name, in_expansion(4294967295)),
    )?;
    let made = Name::new(alloc, "_")?;
    makes(&rt, alloc, b"fn _", Maker::FnName(made))
}

#[test]
fn hygienes_of_paths(rt: HostRuntime) -> Result<(), Fail> {
    let alloc = rt.alloc();
    let of_expr = Maker::Hygiene(ExprOrPatId::ExprId(id(7)), in_expansion(2));
    makes(&rt, alloc, b"hygiene 7 2", of_expr)?;
    let of_pat = Maker::Hygiene(ExprOrPatId::PatId(id(7)), in_expansion(0));
    makes(&rt, alloc, b"pat-hygiene 7 0", of_pat)
}

// Both are printed alike, so that no golden case tells them apart.
#[test]
fn patterns_of_values(rt: HostRuntime) -> Result<(), Fail> {
    let alloc = rt.alloc();
    makes(&rt, alloc, b"pat lit 1", Maker::Pat(Pat::Lit(id(1))))?;
    makes(&rt, alloc, b"pat expr 2", Maker::Pat(Pat::Expr(id(2))))
}

/// Texts of expressions, of which each is made by its place here: each function that holds expressions is
/// dear to prove.
const TEXTS: [&[u8]; 5] = [
    b"expr loop 1",
    b"expr const 4294967295",
    b"expr array 4294967295",
    b"expr block - -",
    b"expr block 8 9 let:1:2:3:- semi:4 expr:5 macro:6 item",
];

/// One statement of each form.
fn five_statements(alloc: Global) -> Result<Seq<Statement>, AllocError> {
    let binding = Statement::Let {
        pat: id(1),
        type_ref: Some(id(2)),
        initializer: Some(id(3)),
        else_branch: None,
    };
    let call = Statement::Expr {
        expr: id(4),
        has_semi: true,
    };
    let value = Statement::Expr {
        expr: id(5),
        has_semi: false,
    };
    let definition = Statement::Item(Item::MacroDef(MacroDefId::from_raw(6)));
    let other = Statement::Item(Item::Other);
    list(alloc, &[binding, call, value, definition, other])
}

/// The expression that the text in this place makes.
fn expr(alloc: Global, at: usize) -> Result<Expr, AllocError> {
    Ok(match at {
        0 => Expr::Loop {
            body: id(1),
            label: None,
            source: LoopSource::Loop,
        },
        1 => Expr::Const(id(4294967295)),
        2 => Expr::Array(Array::ElementList {
            elements: ShortList::from_slice(alloc, &[id(4294967295)])?,
        }),
        3 => Expr::Block {
            id: None,
            statements: Seq::new(alloc),
            tail: None,
            label: None,
            unsafe_: Unsafe::No,
        },
        _ => Expr::Block {
            id: Some(BlockId::from_raw(8)),
            statements: five_statements(alloc)?,
            tail: Some(id(9)),
            label: None,
            unsafe_: Unsafe::No,
        },
    })
}

#[test]
fn each_text_makes_its_expression(rt: HostRuntime) -> Result<(), Fail> {
    let alloc = rt.alloc();
    for (at, text) in TEXTS.iter().enumerate() {
        let made = expr(alloc, at)?;
        says(&rt, alloc, text, Line::Make(Maker::Expr(made)))?;
    }
    Ok(())
}
