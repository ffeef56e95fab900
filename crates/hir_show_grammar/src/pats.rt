//! The patterns that lines make.

ghost use Rattle.hir_show_grammar.specs.Makers as make;
ghost use Rattle.hir_show_grammar.specs.Pats.{bind_pat, or_pat, pat, range_pat, tuple_pat, tuple_struct_pat};
ghost use Rattle.hir_show_grammar.specs.LineEffects.{PutsRead};

use crate::builder::Builder;
use crate::line_error::LineError;
use crate::words::{Line, path_of};
use hir_base::RangeOp;
use hir_node::Pat;
use std::alloc::Global;

/// Makes the pattern of the words after `pat`.
#[tactic(auto, unfolding(crate::specs::Pats::pat))]
pub fn pat<B: Builder>(
    alloc: Global,
    words: &mut Line<'_>,
    builder: &mut B,
) -> Result<(), LineError>
    ensures { PutsRead B.has_self B.has_name B.add make.Pat pat words.old builder.old builder.new result }
{
    if words.skip(b"bind") {
        bind(words, builder)
    } else if words.skip(b"tuple") {
        tuple(alloc, words, builder)
    } else if words.skip(b"wild") {
        words.end()?;
        builder.pat(Pat::Wild)
    } else if words.skip(b"tstruct") {
        tuple_struct(alloc, words, builder)
    } else if words.skip(b"range") {
        range(words, builder)
    } else if words.skip(b"lit") {
        let literal = words.id()?;
        words.end()?;
        builder.pat(Pat::Lit(literal))
    } else if words.skip(b"or") {
        or_pat(alloc, words, builder)
    } else if words.skip(b"rest") {
        words.end()?;
        builder.pat(Pat::Rest)
    } else if words.skip(b"expr") {
        let expr = words.id()?;
        words.end()?;
        builder.pat(Pat::Expr(expr))
    } else if words.skip(b"missing") {
        words.end()?;
        builder.pat(Pat::Missing)
    } else {
        Err(LineError::Syntax)
    }
}

fn bind<B: Builder>(words: &mut Line<'_>, builder: &mut B) -> Result<(), LineError>
    ensures { PutsRead B.has_self B.has_name B.add make.Pat bind_pat words.old builder.old
        builder.new result }
{
    let id = words.id()?;
    let subpat = words.optional_id()?;
    words.end()?;
    builder.pat(Pat::Bind { id, subpat })
}

fn tuple<B: Builder>(alloc: Global, words: &mut Line<'_>, builder: &mut B) -> Result<(), LineError>
    ensures { PutsRead B.has_self B.has_name B.add make.Pat tuple_pat words.old builder.old
        builder.new result }
{
    let tuple = Pat::Tuple {
        args: words.list(alloc)?,
        ellipsis: None,
    };
    builder.pat(tuple)
}

fn or_pat<B: Builder>(alloc: Global, words: &mut Line<'_>, builder: &mut B) -> Result<(), LineError>
    ensures { PutsRead B.has_self B.has_name B.add make.Pat or_pat words.old builder.old builder.new result }
{
    builder.pat(Pat::Or(words.list(alloc)?))
}

fn tuple_struct<B: Builder>(
    alloc: Global,
    words: &mut Line<'_>,
    builder: &mut B,
) -> Result<(), LineError>
    ensures { PutsRead B.has_self B.has_name B.add make.Pat tuple_struct_pat words.old builder.old
        builder.new result }
{
    let name = words.name()?;
    let args = words.list(alloc)?;
    let tuple_struct = Pat::TupleStruct {
        path: path_of(alloc, name)?,
        args,
        ellipsis: None,
    };
    builder.pat(tuple_struct)
}

fn range<B: Builder>(words: &mut Line<'_>, builder: &mut B) -> Result<(), LineError>
    ensures { PutsRead B.has_self B.has_name B.add make.Pat range_pat words.old builder.old
        builder.new result }
{
    let range = Pat::Range {
        start: words.optional_id()?,
        end: words.optional_id()?,
        range_type: RangeOp::Inclusive,
    };
    words.end()?;
    builder.pat(range)
}
