//! The types that lines make.

ghost use Rattle.hir_show_grammar.specs.internal.Readings.{SaysAll};
ghost use Rattle.hir_show_grammar.specs.Types.{array_type, path_type, pattern_type, tuple_type, type_ref};

use crate::line_error::LineError;
use crate::words::{Line, path_of};
use hir_node::{ArrayType, ConstRef, TypeRef};
use std::alloc::Global;

/// The type that the words after `type` make.
#[tactic(auto, unfolding(crate::specs::Types::type_ref))]
pub fn type_ref(alloc: Global, words: &mut Line<'_>) -> Result<TypeRef, LineError>
    ensures { SaysAll type_ref words.old result }
{
    if words.skip(b"path") {
        path(alloc, words)
    } else if words.skip(b"tuple") {
        tuple(alloc, words)
    } else if words.skip(b"array") {
        array(words)
    } else if words.skip(b"pattern") {
        pattern(words)
    } else if words.skip(b"never") {
        words.end()?;
        Ok(TypeRef::Never)
    } else {
        Err(LineError::Syntax)
    }
}

fn path(alloc: Global, words: &mut Line<'_>) -> Result<TypeRef, LineError>
    ensures { SaysAll path_type words.old result }
{
    let name = words.name()?;
    words.end()?;
    Ok(TypeRef::Path(path_of(alloc, name)?))
}

fn tuple(alloc: Global, words: &mut Line<'_>) -> Result<TypeRef, LineError>
    ensures { SaysAll tuple_type words.old result }
{
    Ok(TypeRef::Tuple(words.list(alloc)?))
}

fn array(words: &mut Line<'_>) -> Result<TypeRef, LineError>
    ensures { SaysAll array_type words.old result }
{
    let ty = words.id()?;
    let len = ConstRef { expr: words.id()? };
    words.end()?;
    Ok(TypeRef::Array(ArrayType { ty, len }))
}

fn pattern(words: &mut Line<'_>) -> Result<TypeRef, LineError>
    ensures { SaysAll pattern_type words.old result }
{
    let ty = words.id()?;
    let pat = words.id()?;
    words.end()?;
    Ok(TypeRef::PatternType(ty, pat))
}
