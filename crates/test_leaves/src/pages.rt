//! Shapes of layout, in lines and in one line: a further case is one more entry of a table.
use hir_pretty_layout::{LineFormat, PageBuffer, PieceWriter, write_number};
use std::alloc::{AllocError, Global};
use std::fmt::Write;
use std::test::Fail;

/// What is written next.
enum Step {
    Text(&'static str),
    SoftSpace,
    Break,
    Indent,
    Outdent,
}

/// What is written on a page of this format, part by part, and the text of the page.
type Shape = (LineFormat, &'static [&'static [Step]], &'static str);

/// A match in a repeat array: the break after the outdent leaves an empty line.
const MATCH_IN_A_REPEAT: &[Step] = &[
    Step::Text("["),
    Step::Indent,
    Step::Text("x"),
    Step::Text("; "),
    Step::Text("match "),
    Step::Text("y"),
    Step::Text(" {"),
    Step::Indent,
    Step::Outdent,
    Step::Text("}"),
    Step::Break,
    Step::Outdent,
    Step::Break,
    Step::Text("]"),
];

const SHAPES: [Shape; 7] = [
    // Arguments are in lines.
    (
        LineFormat::Newline,
        &[&[
            Step::Text("f"),
            Step::Text("("),
            Step::Indent,
            Step::Text("x"),
            Step::Text(","),
            Step::Break,
            Step::Outdent,
            Step::Text(")"),
        ]],
        "f(\n    x,\n)",
    ),
    // Elements end in a break.
    (
        LineFormat::Newline,
        &[&[
            Step::Text("["),
            Step::Indent,
            Step::Text("a"),
            Step::Text(", "),
            Step::Text("b"),
            Step::Text(", "),
            Step::Outdent,
            Step::Break,
            Step::Text("]"),
        ]],
        "[\n    a, b,\n]",
    ),
    // A break after an outdent leaves an empty line.
    (
        LineFormat::Newline,
        &[MATCH_IN_A_REPEAT],
        "[\n    x; match y {\n    }\n\n]",
    ),
    // At a level that line keeps its spaces.
    (
        LineFormat::Newline,
        &[
            &[Step::Text("{"), Step::Indent],
            MATCH_IN_A_REPEAT,
            &[Step::Outdent, Step::Text("}")],
        ],
        "{\n    [\n        x; match y {\n        }\n    \n    ]}",
    ),
    // A record is in one line.
    (
        LineFormat::Oneline,
        &[&[
            Step::Text("S"),
            Step::Text(" {"),
            Step::Indent,
            Step::Text("a"),
            Step::Text(","),
            Step::Break,
            Step::Text(".."),
            Step::Break,
            Step::Outdent,
            Step::Text("}"),
        ]],
        "S { a, .. }",
    ),
    // After a line end in one line, a break adds a space and a soft space doesn't.
    (
        LineFormat::Oneline,
        &[&[
            Step::Break,
            Step::SoftSpace,
            Step::Text("a\n"),
            Step::SoftSpace,
            Step::Break,
            Step::Break,
            Step::Text("b"),
        ]],
        "a\n b",
    ),
    // A text of many lines is indented.
    (
        LineFormat::Newline,
        &[&[
            Step::Text("a  "),
            Step::Indent,
            Step::Text("b\n\nc"),
            Step::SoftSpace,
            Step::SoftSpace,
            Step::Outdent,
            Step::Outdent,
            Step::Break,
            Step::Text("d"),
        ]],
        "a\n    b\n    \n    c\nd",
    ),
];

fn write_step(page: &mut PageBuffer, step: &Step) -> Result<(), AllocError> {
    match step {
        Step::Text(text) => page.text(text),
        Step::SoftSpace => page.soft_space(),
        Step::Break => page.line_break(),
        Step::Indent => page.indent(),
        Step::Outdent => page.outdent(),
    }
}

fn write_part(page: &mut PageBuffer, part: &[Step]) -> Result<(), AllocError> {
    for step in part {
        write_step(page, step)?;
    }
    Ok(())
}

fn write_parts(page: &mut PageBuffer, parts: &[&[Step]]) -> Result<(), AllocError> {
    for part in parts {
        write_part(page, part)?;
    }
    Ok(())
}

/// Whether a page of this format, on which these parts are written, has this text.
fn is_laid_out(
    alloc: Global,
    format: LineFormat,
    parts: &[&[Step]],
    wanted: &str,
) -> Result<bool, AllocError> {
    let mut page = PageBuffer::new(alloc, format);
    write_parts(&mut page, parts)?;
    Ok(page.into_text().as_str() == wanted)
}

#[test]
fn each_shape_is_laid_out(rt: HostRuntime) -> Result<(), Fail> {
    for (format, parts, wanted) in &SHAPES {
        assert!(rt;
            is_laid_out(rt.alloc(), *format, parts, wanted)?,
            "{wanted}"
        );
    }
    Ok(())
}

/// The text `x`, a line end, and after it, a level further in, `ExprId(3)`.
fn write_in_place(page: &mut PageBuffer) -> Result<(), Fail> {
    page.indent()?;
    page.text("x\n")?;
    page.text("ExprId(")?;
    write_number(page, 3u32)?;
    page.text(")")?;
    Ok(())
}

#[test]
fn numbers_are_written_in_place(rt: HostRuntime) -> Result<(), Fail> {
    let mut page = PageBuffer::new(rt.alloc(), LineFormat::Newline);
    write_in_place(&mut page)?;
    assert_eq!(rt; page.into_text().as_str(), "x\n    ExprId(3)");
    Ok(())
}

/// A page of the text `x = 7`, a line end, and after it, a level further in, `y`.
fn formatted_page(alloc: Global) -> Result<String, Fail> {
    let mut page = PageBuffer::new(alloc, LineFormat::Newline);
    page.indent()?;
    write!(page, "x = {}\n", 7u32)?;
    page.text("y")?;
    Ok(page.into_text())
}

#[test]
fn a_page_takes_formatted_text(rt: HostRuntime) -> Result<(), Fail> {
    assert_eq!(rt; formatted_page(rt.alloc())?.as_str(), "x = 7\n    y");
    Ok(())
}

// Blocks in one another, so many levels deep.
fn nest(page: &mut PageBuffer, depth: u32) -> Result<(), AllocError> {
    for _ in 0..depth {
        page.text("{")?;
        page.indent()?;
    }
    page.text("_")?;
    for _ in 0..depth {
        page.line_break()?;
        page.outdent()?;
        page.text("}")?;
    }
    Ok(())
}

// The text of a page with such blocks.
fn nested_page(alloc: Global, depth: u32) -> Result<String, AllocError> {
    let mut page = PageBuffer::new(alloc, LineFormat::Newline);
    nest(&mut page, depth)?;
    Ok(page.into_text())
}

// The spaces of so many levels.
fn push_spaces(text: &mut String, levels: u32) -> Result<(), AllocError> {
    for _ in 0..levels {
        text.push_str("    ")?;
    }
    Ok(())
}

// The lines of such blocks, each level four spaces further in.
fn push_lines(text: &mut String, depth: u32) -> Result<(), AllocError> {
    for level in 0..depth {
        push_spaces(text, level)?;
        text.push_str("{\n")?;
    }
    push_spaces(text, depth)?;
    text.push_str("_")?;
    for level in 1..=depth {
        text.push_str("\n")?;
        push_spaces(text, depth.wrapping_sub(level))?;
        text.push_str("}")?;
    }
    Ok(())
}

fn nested_lines(alloc: Global, depth: u32) -> Result<String, AllocError> {
    let mut text = String::new(alloc);
    push_lines(&mut text, depth)?;
    Ok(text)
}

// Whether both could be made, and are the same.
fn are_same(
    one: Result<String, AllocError>,
    second: Result<String, AllocError>,
) -> Result<bool, AllocError> {
    Ok(one?.as_str() == second?.as_str())
}

#[test]
fn a_thousand_levels_are_indented(rt: HostRuntime) -> Result<(), Fail> {
    let alloc = rt.alloc();
    assert!(rt; are_same(nested_page(alloc, 1000), nested_lines(alloc, 1000))?);
    Ok(())
}
