//! Lines that make something: the first word says what, and the builder gets it.

ghost use Rattle.std.specs.Prelude.{◌≡◌, MatchResult, true};
ghost use Rattle.hir_show_grammar.specs.Line.{bind, expr_hygiene, fn_name, line_of, param, pat_hygiene, root, roots, self_param};
ghost use Rattle.hir_show_grammar.specs.Makers as make;
ghost use Rattle.hir_show_grammar.specs.LineEffects.{Makes, PutsRead, PutsMaker};
ghost use Rattle.hir_show_grammar.specs.Types.{type_ref};

use crate::builder::Builder;
use crate::exprs::expr;
use crate::line_error::LineError;
use crate::pats::pat;
use crate::types::type_ref;
use crate::words::{Line, Words, name_of};
use hir_node::{Binding, BindingAnnotation, ExprOrPatId};
use std::alloc::Global;

/// Takes a line that makes something or is empty, and returns whether it is one, by its first word. Another
/// is left to `ask`.
///
/// `Bad` where no line is written so, or a second self parameter or name comes; `Memory` where an allocation
/// fails or an arena is full, at no bad line. After either nothing was added.
pub fn make<B: Builder>(alloc: Global, text: &[u8], builder: &mut B) -> Result<bool, LineError>
    ensures makes { Makes B.has_self B.has_name B.add (line_of text.now) builder.old builder.new result }
{
    if text.is_empty() {
        return Ok(true);
    }
    let mut words: Line<'_> = Words::new(text);
    if words.skip(b"expr") {
        unless_refused(expr(alloc, &mut words, builder))
    } else if words.skip(b"pat") {
        unless_refused(pat(alloc, &mut words, builder))
    } else if words.skip(b"bind") {
        unless_refused(bind(alloc, &mut words, builder))
    } else if words.skip(b"type") {
        unless_refused(make_type(alloc, &mut words, builder))
    } else if words.skip(b"hygiene") {
        unless_refused(expr_hygiene(&mut words, builder))
    } else if words.skip(b"pat-hygiene") {
        unless_refused(pat_hygiene(&mut words, builder))
    } else if words.skip(b"self") {
        unless_refused(self_param(&mut words, builder))
    } else if words.skip(b"param") {
        unless_refused(param(&mut words, builder))
    } else if words.skip(b"fn") {
        unless_refused(fn_name(alloc, &mut words, builder))
    } else if words.skip(b"roots") {
        unless_refused(roots(&words, builder))
    } else if words.skip(b"root") {
        unless_refused(root(&mut words, builder))
    } else {
        Ok(false)
    }
}

/// The line was taken, unless it was refused.
fn unless_refused(outcome: Result<(), LineError>) -> Result<bool, LineError>
    ensures { MatchResult outcome (λ done. result ≡ Ok true) (λ why. result ≡ Err why) }
{
    outcome?;
    Ok(true)
}

fn bind<B: Builder>(alloc: Global, words: &mut Line<'_>, builder: &mut B) -> Result<(), LineError>
    ensures { PutsMaker B.has_self B.has_name B.add bind words.old builder.old builder.new result }
{
    let name = words.name()?;
    let hygiene = words.hygiene()?;
    words.end()?;
    builder.binding(Binding {
        name: name_of(alloc, name)?,
        mode: BindingAnnotation::Unannotated,
        problems: None,
        hygiene,
    })
}

fn make_type<B: Builder>(
    alloc: Global,
    words: &mut Line<'_>,
    builder: &mut B,
) -> Result<(), LineError>
    ensures { PutsRead B.has_self B.has_name B.add make.TypeRef type_ref words.old builder.old
        builder.new result }
{
    builder.type_ref(type_ref(alloc, words)?)
}

fn expr_hygiene<B: Builder>(words: &mut Line<'_>, builder: &mut B) -> Result<(), LineError>
    ensures { PutsMaker B.has_self B.has_name B.add expr_hygiene words.old builder.old builder.new result }
{
    let id = ExprOrPatId::ExprId(words.id()?);
    let hygiene = words.expansion()?;
    words.end()?;
    builder.hygiene(id, hygiene)
}

fn pat_hygiene<B: Builder>(words: &mut Line<'_>, builder: &mut B) -> Result<(), LineError>
    ensures { PutsMaker B.has_self B.has_name B.add pat_hygiene words.old builder.old builder.new result }
{
    let id = ExprOrPatId::PatId(words.id()?);
    let hygiene = words.expansion()?;
    words.end()?;
    builder.hygiene(id, hygiene)
}

fn self_param<B: Builder>(words: &mut Line<'_>, builder: &mut B) -> Result<(), LineError>
    ensures { PutsMaker B.has_self B.has_name B.add self_param words.old builder.old builder.new result }
{
    let id = words.id()?;
    words.end()?;
    if builder.has_self_param() {
        return Err(LineError::Syntax);
    }
    builder.self_param(id)
}

fn param<B: Builder>(words: &mut Line<'_>, builder: &mut B) -> Result<(), LineError>
    ensures { PutsMaker B.has_self B.has_name B.add param words.old builder.old builder.new result }
{
    let id = words.id()?;
    words.end()?;
    builder.param(id)
}

fn fn_name<B: Builder>(
    alloc: Global,
    words: &mut Line<'_>,
    builder: &mut B,
) -> Result<(), LineError>
    ensures { PutsMaker B.has_self B.has_name B.add fn_name words.old builder.old builder.new result }
{
    let name = words.name()?;
    words.end()?;
    // A second name is bad, whether or not there is memory for it.
    if builder.has_fn_name() {
        return Err(LineError::Syntax);
    }
    builder.fn_name(name_of(alloc, name)?)
}

fn roots<B: Builder>(words: &Line<'_>, builder: &mut B) -> Result<(), LineError>
    ensures { PutsMaker B.has_self B.has_name B.add roots words.now builder.old builder.new result }
{
    words.end()?;
    builder.roots()
}

fn root<B: Builder>(words: &mut Line<'_>, builder: &mut B) -> Result<(), LineError>
    ensures { PutsMaker B.has_self B.has_name B.add root words.old builder.old builder.new result }
{
    let id = words.id()?;
    words.end()?;
    builder.root(id)
}
