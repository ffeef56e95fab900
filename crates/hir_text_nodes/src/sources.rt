//! Where nodes come from, as `0:7:3-9` (file, kind, start and end), hygiene, editions and calling
//! conventions.

use crate::forms::{Read, Write, join, next, opt_next, part};
use hir_base::{
    AstPtr, Edition, ExprPrecedence, ExternAbi, HygieneId, InFile, SyntaxContext, SyntaxNodePtr,
    TextRange,
};
use hir_text_words::{Answer, TextError, Words};
use std::alloc::AllocError;

impl Read for InFile<SyntaxNodePtr> {
    fn read(words: &mut Words<'_>) -> Result<InFile<SyntaxNodePtr>, TextError> {
        let file_id = Read::read(words)?;
        let kind = part(words)?;
        let start = part(words)?;
        words.expect("-")?;
        let end = Read::read(words)?;
        let range = TextRange { start, end };
        let value = SyntaxNodePtr { kind, range };
        Ok(InFile { file_id, value })
    }
}

impl<K> Read for InFile<AstPtr<K>> {
    fn read(words: &mut Words<'_>) -> Result<InFile<AstPtr<K>>, TextError> {
        Ok(pointer(Read::read(words)?))
    }
}

impl Write for InFile<SyntaxNodePtr> {
    fn write(&self, answer: &mut Answer) -> Result<(), AllocError> {
        let SyntaxNodePtr { kind, range } = self.value;
        let TextRange { start, end } = range;
        answer.join_number(self.file_id.into_raw())?;
        join(answer, ":", &u32::from(kind))?;
        join(answer, ":", &start)?;
        join(answer, "-", &end)
    }
}

/// Returns the source as one that points to a node of the kind `K`.
pub fn pointer<K>(source: InFile<SyntaxNodePtr>) -> InFile<AstPtr<K>> {
    InFile {
        file_id: source.file_id,
        value: AstPtr::new(source.value),
    }
}

/// Returns the source without the kind of its node.
pub fn syntax<K>(source: InFile<AstPtr<K>>) -> InFile<SyntaxNodePtr> {
    InFile {
        file_id: source.file_id,
        value: source.value.syntax_node_ptr(),
    }
}

/// The number of an expansion, or `root`.
impl Read for HygieneId {
    fn read(words: &mut Words<'_>) -> Result<HygieneId, TextError> {
        if words.eat("root") {
            return Ok(HygieneId::ROOT);
        }
        Ok(HygieneId::new(SyntaxContext::Expansion(Read::read(words)?)))
    }
}

impl Write for HygieneId {
    fn write(&self, answer: &mut Answer) -> Result<(), AllocError> {
        match self.syntax_context() {
            SyntaxContext::Root(_) => answer.join("root"),
            SyntaxContext::Expansion(number) => answer.join_number(number),
        }
    }
}

/// Takes a hygiene, where one comes next: else it is that of source text.
pub fn opt_hygiene(words: &mut Words<'_>) -> Result<HygieneId, TextError> {
    if words.flag("root") {
        return Ok(HygieneId::ROOT);
    }
    match words.rest() {
        [b' ', b'0'..=b'9', ..] => next(words),
        _ => Ok(HygieneId::ROOT),
    }
}

impl Read for Edition {
    fn read(words: &mut Words<'_>) -> Result<Edition, TextError> {
        match words.keyword() {
            "2015" => Ok(Edition::Edition2015),
            "2018" => Ok(Edition::Edition2018),
            "2021" => Ok(Edition::Edition2021),
            "2024" => Ok(Edition::Edition2024),
            _ => Err(TextError::Syntax),
        }
    }
}

/// Takes the edition at the end of a line: 2021 where the line ends before it.
pub fn opt_edition(words: &mut Words<'_>) -> Result<Edition, TextError> {
    Ok(opt_next(words)?.unwrap_or(Edition::Edition2021))
}

/// A word that is known, or any text in quotes.
impl Read for ExternAbi {
    fn read(words: &mut Words<'_>) -> Result<ExternAbi, TextError> {
        if words.is_at("\"") {
            return Ok(ExternAbi::Named(Read::read(words)?));
        }
        match words.keyword() {
            "Rust" => Ok(ExternAbi::Rust),
            "C" => Ok(ExternAbi::C),
            "C-unwind" => Ok(ExternAbi::CUnwind),
            "system" => Ok(ExternAbi::System),
            "system-unwind" => Ok(ExternAbi::SystemUnwind),
            _ => Err(TextError::Syntax),
        }
    }
}

/// Takes the calling convention where `extern:` comes next: that of Rust where it doesn't. Before a number it
/// is the name of a parameter.
pub fn opt_abi(words: &mut Words<'_>) -> Result<ExternAbi, TextError> {
    let mut ahead = *words;
    if !ahead.prefix("extern:") || matches!(ahead.rest(), [b'0'..=b'9', ..]) {
        return Ok(ExternAbi::Rust);
    }
    *words = ahead;
    Read::read(words)
}

/// Writes a calling convention after `extern:`, and nothing for that of Rust.
pub fn put_abi(answer: &mut Answer, abi: &ExternAbi) -> Result<(), AllocError> {
    match abi {
        ExternAbi::Rust => Ok(()),
        ExternAbi::C | ExternAbi::CUnwind | ExternAbi::System | ExternAbi::SystemUnwind => {
            answer.word("extern:")?;
            answer.join(abi.as_str())
        }
        ExternAbi::Named(text) => {
            answer.word("extern:")?;
            answer.join_quoted(text.as_str())
        }
    }
}

/// Returns the name of a precedence.
pub fn precedence_text(precedence: ExprPrecedence) -> &'static str {
    match precedence {
        ExprPrecedence::Jump => "Jump",
        ExprPrecedence::Assign => "Assign",
        ExprPrecedence::Range => "Range",
        ExprPrecedence::LOr => "LOr",
        ExprPrecedence::LAnd => "LAnd",
        ExprPrecedence::Compare => "Compare",
        ExprPrecedence::BitOr => "BitOr",
        ExprPrecedence::BitXor => "BitXor",
        ExprPrecedence::BitAnd => "BitAnd",
        ExprPrecedence::Shift => "Shift",
        ExprPrecedence::Sum => "Sum",
        ExprPrecedence::Product => "Product",
        ExprPrecedence::Cast => "Cast",
        ExprPrecedence::Prefix => "Prefix",
        ExprPrecedence::Postfix => "Postfix",
        ExprPrecedence::Unambiguous => "Unambiguous",
    }
}
