//! What is written of a token that is no node.

ghost use Rattle.std.specs.Prelude.{◌≡◌, ◌∷◌, [], true, false, Err, OnOk};
ghost use Rattle.hir_pretty_layout.specs.Steps.{steps};
ghost use Rattle.hir_pretty_nodes.specs.declared.fault.PrintFault.TheVariants as fault;
ghost use Rattle.hir_pretty_nodes.specs.Prelude.{Missing, MissingDoc, stands_for, is_plain, is_node, plain_pieces, found_pieces, env_of, stacked, WritesToken};

use crate::literals::write_literal;
use crate::lookups::{Found, look_up};
use crate::names::write_name;
use crate::{PrintFault, Printer, Token};
use hir_collections::Text;
use hir_node::BindingAnnotation;
use hir_pretty_layout::{PieceWriter, write_number};
use std::alloc::AllocError;

/// Writes a token that is neither a node nor looked up.
fn write_plain<W: PieceWriter>(
    writer: &mut W,
    words: &[Text],
    one_line: bool,
    token: &Token<'_>,
) -> Result<(), AllocError>
    requires { is_plain token.now ≡ true }
    ensures { OnOk result (writer.new ≡ steps W.step (plain_pieces words.now one_line token.now) writer.old) }
{
    match token {
        Token::Text(text) => writer.text(*text),
        Token::Space => writer.soft_space(),
        Token::Break => writer.line_break(),
        Token::Indent => writer.indent(),
        Token::Outdent => writer.outdent(),
        Token::Number(number) => write_number(writer, *number),
        Token::Literal(literal) => write_literal(writer, *literal),
        Token::Name(name) => write_name(writer, words, *name),
        Token::LastFieldEnd if one_line => writer.text(" "),
        Token::LastFieldEnd => {
            writer.text(",")?;
            writer.line_break()
        }
        _ => unreachable!(),
    }
}

/// Writes what was found.
fn write_found<W: PieceWriter>(
    writer: &mut W,
    words: &[Text],
    found: Found<'_>,
) -> Result<(), AllocError>
    ensures { OnOk result (writer.new ≡ steps W.step (found_pieces words.now found.entry) writer.old) }
{
    match found {
        Found::Nothing => Ok(()),
        Found::Text(text) => writer.text(text),
        Found::Name(name) => write_name(writer, words, name.as_str()),
        Found::Param(number) => {
            writer.text("Param[")?;
            write_number(writer, number)?;
            writer.text("]")
        }
        Found::Binding(binding) => {
            match binding.mode {
                BindingAnnotation::Unannotated => {}
                BindingAnnotation::Mutable => writer.text("mut ")?,
                BindingAnnotation::Ref => writer.text("ref ")?,
                BindingAnnotation::RefMut => writer.text("ref mut ")?,
            }
            write_name(writer, words, binding.name.as_str())
        }
    }
}

impl<'a, W: PieceWriter> Printer<'a, W> {
    /// Writes a token that is no node, or returns what is missing in its place.
    pub(crate) fn write_token(&mut self, token: &Token<'a>) -> Result<(), PrintFault>
        requires { is_node token.now ≡ false }
        ensures ok { OnOk result (WritesToken W.step token.now (stacked self.old) (stacked self.new)) }
        ensures missing { (m : Missing) → result ≡ Err (fault.Missing m)
            → stands_for (env_of self.old) token.now ≡ MissingDoc m ∷ [] }
    {
        if token.is_plain() {
            write_plain(&mut self.writer, self.words, self.one_line, token)?;
            return Ok(());
        }
        match token {
            Token::LookUp(lookup) => match look_up(self.store, self.tables, *lookup) {
                Ok(found) => Ok(write_found(&mut self.writer, self.words, found)?),
                Err(missing) => Err(PrintFault::Missing(missing)),
            },
            Token::Missing(missing) => Err(PrintFault::Missing(*missing)),
            _ => unreachable!(),
        }
    }
}
