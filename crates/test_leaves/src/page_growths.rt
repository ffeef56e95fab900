//! Failed allocations of a page. A call that fails leaves the page as it was, so the same call made again
//! gives the whole page. The loop over the allocations is `scripts/refused-growths`.
use hir_pretty_layout::{LineFormat, PageBuffer, PieceWriter};
use std::alloc::AllocError;
use std::test::Fail;

fn text(page: &mut PageBuffer, text: &str) -> Result<(), AllocError> {
    if page.text(text).is_err() {
        return page.text(text);
    }
    Ok(())
}

fn soft_space(page: &mut PageBuffer) -> Result<(), AllocError> {
    if page.soft_space().is_err() {
        return page.soft_space();
    }
    Ok(())
}

fn line_break(page: &mut PageBuffer) -> Result<(), AllocError> {
    if page.line_break().is_err() {
        return page.line_break();
    }
    Ok(())
}

fn indent(page: &mut PageBuffer) -> Result<(), AllocError> {
    if page.indent().is_err() {
        return page.indent();
    }
    Ok(())
}

#[test]
fn each_call_is_made_again(rt: HostRuntime) -> Result<(), Fail> {
    let mut page = PageBuffer::new(rt.alloc(), LineFormat::Newline);
    text(&mut page, "f")?;
    indent(&mut page)?;
    text(&mut page, "one\ntwo")?;
    soft_space(&mut page)?;
    line_break(&mut page)?;
    indent(&mut page)?;
    text(&mut page, "{")?;
    line_break(&mut page)?;
    page.outdent()?;
    line_break(&mut page)?;
    text(&mut page, "}")?;
    assert_eq!(rt;
        page.into_text().as_str(),
        "f\n    one\n    two\n        {\n    \n    }"
    );
    Ok(())
}
