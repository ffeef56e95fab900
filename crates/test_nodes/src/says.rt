//! What a text says, held against a line; and the parts of lines that take memory.
//! A line is dropped whole before its answer is weighed, since one that goes out of scope is dear to prove.

use crate::kept_lines::{Line, Maker, are_same, say_line};
use hir_collections::{Idx, Seq};
use hir_show_grammar::LineError;
use std::alloc::{AllocError, Global};
use std::mem::drop;
use std::process::Abort;
use std::test::Fail;

fn is_said(alloc: Global, text: &[u8], line: &Line) -> Result<bool, LineError> {
    let said = say_line(alloc, text)?;
    let is_said = are_same(&said, line);
    drop(said);
    Ok(is_said)
}

/// Fails where a text doesn't say this line.
pub fn says(rt: &impl Abort, alloc: Global, text: &[u8], line: Line) -> Result<(), Fail> {
    let is_said = is_said(alloc, text, &line);
    drop(line);
    assert!(rt; is_said?, "{text:?}");
    Ok(())
}

/// Fails where a text doesn't make this.
pub fn makes(rt: &impl Abort, alloc: Global, text: &[u8], made: Maker) -> Result<(), Fail> {
    says(rt, alloc, text, Line::Make(made))
}

/// A list of copies of these items.
pub fn list<T: Clone + Drop>(alloc: Global, items: &[T]) -> Result<Seq<T>, AllocError> {
    let mut list = Seq::new(alloc);
    for item in items {
        list.push(item.clone()?)?;
    }
    Ok(list)
}

pub fn id<K>(number: u32) -> Idx<K> {
    Idx::from_raw(number)
}
