//! Generic arguments, as `::<T0,L1,Item=T3>`: types, lifetimes and constants by their numbers, and the
//! bindings of associated types. Bounds, as `T3`, `?T3`, `for<NAMES>T3`, `L0`, `use<T,L0>` and `error`.

use crate::forms::{Read, Write, after, join, join_items, join_list, joined, list};
use hir_base::Name;
use hir_collections::{Idx, Seq};
use hir_path::{
    AssociatedTypeBinding, ConstRef, GenericArg, GenericArgs, GenericArgsParentheses, PathId,
    TraitBoundModifier, TypeBound, UseArgRef,
};
use hir_text_words::{Answer, Part, TextError, Words};
use std::alloc::AllocError;

/// How many arguments may be around others, each in a binding of the one before.
const DEEPEST: u8 = 100;

/// Returns the letter of a name that reads like the number of a type, a lifetime or a constant: one of
/// theirs, and then only digits.
fn letter_of(name: &[u8]) -> Option<u8> {
    match name {
        [letter, digits @ ..] if is_letter(*letter) && Part::Digits.is_all(digits) => Some(*letter),
        _ => None,
    }
}

fn is_letter(byte: u8) -> bool {
    byte == b'T' || byte == b'L' || byte == b'C'
}

/// Returns the letter of the next name, where that reads like a number.
fn next_letter(words: &Words<'_>) -> Option<u8> {
    let mut ahead = *words;
    letter_of(ahead.bare_name().as_bytes())
}

fn lettered<K>(words: &mut Words<'_>) -> Result<Idx<K>, TextError> {
    let _ = words.take(1);
    Read::read(words)
}

/// A type, a lifetime or a constant, by its letter and its number.
impl Read for GenericArg {
    fn read(words: &mut Words<'_>) -> Result<GenericArg, TextError> {
        match next_letter(words) {
            Some(b'T') => Ok(GenericArg::Ty(lettered(words)?)),
            Some(b'L') => Ok(GenericArg::Lifetime(lettered(words)?)),
            Some(_) => {
                let expr = lettered(words)?;
                Ok(GenericArg::Const(ConstRef { expr }))
            }
            None => Err(TextError::Syntax),
        }
    }
}

impl Write for GenericArg {
    fn write(&self, answer: &mut Answer) -> Result<(), AllocError> {
        match self {
            GenericArg::Ty(id) => join(answer, "T", id),
            GenericArg::Lifetime(id) => join(answer, "L", id),
            GenericArg::Const(ConstRef { expr }) => join(answer, "C", expr),
        }
    }
}

fn read_parentheses(words: &mut Words<'_>) -> GenericArgsParentheses {
    if words.eat("paren;") {
        GenericArgsParentheses::ParenSugar
    } else if words.eat("rtn;") {
        GenericArgsParentheses::ReturnTypeNotation
    } else {
        GenericArgsParentheses::No
    }
}

/// Returns whether the line goes on with a comma and one more type, lifetime or constant: the comma is then
/// taken.
fn goes_on(words: &mut Words<'_>) -> bool {
    let mut ahead = *words;
    let goes_on = ahead.eat(",") && next_letter(&ahead).is_some();
    if goes_on {
        *words = ahead;
    }
    goes_on
}

/// Takes the types, lifetimes and constants that come next, joined by `,`.
fn read_list(words: &mut Words<'_>) -> Result<Seq<GenericArg>, TextError> {
    let mut args = Seq::new(words.alloc());
    if next_letter(words).is_none() {
        return Ok(args);
    }
    for _ in 0..words.most_items() {
        args.push(Read::read(words)?)?;
        if !goes_on(words) {
            break;
        }
    }
    Ok(args)
}

/// Takes the name of an associated type, which doesn't read like a number.
fn read_name(words: &mut Words<'_>) -> Result<Name, TextError> {
    if next_letter(words).is_some() {
        return Err(TextError::Syntax);
    }
    Read::read(words)
}

fn opt_bounds(words: &mut Words<'_>) -> Result<Seq<TypeBound>, TextError> {
    if words.eat(":") {
        return list(words, "+");
    }
    Ok(Seq::new(words.alloc()))
}

/// Takes the arguments of an associated type, where it has any. In them others may be nested less deep than
/// `depth`.
#[cycle(read_within)]
fn opt_args(words: &mut Words<'_>, depth: u8) -> Result<Option<GenericArgs>, TextError> {
    if !words.eat("::<") {
        return Ok(None);
    }
    if depth == 0 {
        return Err(TextError::Syntax);
    }
    Ok(Some(read_within(words, depth - 1)?))
}

/// Takes the binding of an associated type: its arguments, bounds after `:`, and a type after `=`.
#[cycle(read_within)]
fn read_binding(words: &mut Words<'_>, depth: u8) -> Result<AssociatedTypeBinding, TextError> {
    Ok(AssociatedTypeBinding {
        name: read_name(words)?,
        args: opt_args(words, depth)?,
        bounds: opt_bounds(words)?,
        type_ref: after(words, "=T")?,
    })
}

/// Takes the bindings of associated types, joined by `,`, where this says that there are any.
#[cycle(read_within)]
fn read_bindings(
    words: &mut Words<'_>,
    depth: u8,
    has_bindings: bool,
) -> Result<Seq<AssociatedTypeBinding>, TextError> {
    let mut bindings = Seq::new(words.alloc());
    let mut goes_on = has_bindings;
    for _ in 0..words.most_items() {
        if !goes_on {
            break;
        }
        bindings.push(read_binding(words, depth)?)?;
        goes_on = words.eat(",");
    }
    Ok(bindings)
}

/// Takes what comes after `::<`, to the end `>`. In it others may be nested as deep as `depth`.
#[cycle(read_within)]
fn read_within(words: &mut Words<'_>, depth: u8) -> Result<GenericArgs, TextError> {
    let has_self_type = words.eat("self;");
    let parenthesized = read_parentheses(words);
    let is_empty = words.is_at(">");
    let args = read_list(words)?;
    let has_bindings = if args.is_empty() {
        !is_empty
    } else {
        words.eat(",")
    };
    let bindings = read_bindings(words, depth, has_bindings)?;
    words.expect(">")?;
    Ok(GenericArgs {
        args,
        has_self_type,
        bindings,
        parenthesized,
    })
}

impl Read for GenericArgs {
    fn read(words: &mut Words<'_>) -> Result<GenericArgs, TextError> {
        words.expect("::<")?;
        read_within(words, DEEPEST)
    }
}

/// Writes a name after the last word: in quotes too where it reads like something else in its place.
pub(crate) fn join_name(
    answer: &mut Answer,
    name: &Name,
    is_taken: bool,
) -> Result<(), AllocError> {
    if is_taken {
        answer.join_quoted(name.as_str())
    } else {
        answer.join_name(name.as_str())
    }
}

/// Returns the word before arguments that says how they are written.
fn parentheses_text(parentheses: GenericArgsParentheses) -> &'static str {
    match parentheses {
        GenericArgsParentheses::No => "",
        GenericArgsParentheses::ReturnTypeNotation => "rtn;",
        GenericArgsParentheses::ParenSugar => "paren;",
    }
}

fn join_front(answer: &mut Answer, args: &GenericArgs) -> Result<(), AllocError> {
    answer.join(if args.has_self_type {
        "::<self;"
    } else {
        "::<"
    })?;
    answer.join(parentheses_text(args.parenthesized))?;
    join_items(answer, args.args.as_slice(), ",")?;
    if !args.args.is_empty() && !args.bindings.is_empty() {
        answer.join(",")?;
    }
    Ok(())
}

#[cycle(join_args)]
fn join_binding(answer: &mut Answer, binding: &AssociatedTypeBinding) -> Result<(), AllocError> {
    let name = &binding.name;
    join_name(answer, name, letter_of(name.as_str().as_bytes()).is_some())?;
    match &binding.args {
        Some(args) => join_args(answer, args)?,
        None => {}
    }
    if !binding.bounds.is_empty() {
        answer.join(":")?;
        join_list(answer, binding.bounds.as_slice(), "+")?;
    }
    match binding.type_ref {
        Some(id) => join(answer, "=T", &id),
        None => Ok(()),
    }
}

/// Writes generic arguments after the last word without a space, from `::<` on.
#[cycle(join_args)]
pub fn join_args(answer: &mut Answer, args: &GenericArgs) -> Result<(), AllocError> {
    join_front(answer, args)?;
    join_bindings(answer, args.bindings.as_slice())?;
    answer.join(">")
}

#[cycle(join_args)]
fn join_bindings(
    answer: &mut Answer,
    bindings: &[AssociatedTypeBinding],
) -> Result<(), AllocError> {
    let mut is_behind = false;
    for binding in bindings {
        answer.join(if is_behind { "," } else { "" })?;
        join_binding(answer, binding)?;
        is_behind = true;
    }
    Ok(())
}

impl Write for GenericArgs {
    fn write(&self, answer: &mut Answer) -> Result<(), AllocError> {
        join_args(answer, self)
    }
}

/// The path of a trait, by the number of its type.
impl Read for PathId {
    fn read(words: &mut Words<'_>) -> Result<PathId, TextError> {
        Ok(PathId::from_type_ref_unchecked(Read::read(words)?))
    }
}

/// A lifetime by its number, or a name.
impl Read for UseArgRef {
    fn read(words: &mut Words<'_>) -> Result<UseArgRef, TextError> {
        if next_letter(words) == Some(b'L') {
            return Ok(UseArgRef::Lifetime(lettered(words)?));
        }
        Ok(UseArgRef::Name(Read::read(words)?))
    }
}

impl Write for UseArgRef {
    fn write(&self, answer: &mut Answer) -> Result<(), AllocError> {
        match self {
            UseArgRef::Name(name) => {
                let is_taken = letter_of(name.as_str().as_bytes()) == Some(b'L');
                join_name(answer, name, is_taken)
            }
            UseArgRef::Lifetime(id) => join(answer, "L", id),
        }
    }
}

/// Takes what `use<` lists, to the end `>`.
fn read_uses(words: &mut Words<'_>) -> Result<Seq<UseArgRef>, TextError> {
    if words.eat(">") {
        return Ok(Seq::new(words.alloc()));
    }
    let uses = joined(words, ",")?;
    words.expect(">")?;
    Ok(uses)
}

/// Takes the names after `for<`, to the end `>`.
pub(crate) fn read_binder(words: &mut Words<'_>) -> Result<Seq<Name>, TextError> {
    let names = Read::read(words)?;
    words.expect(">")?;
    Ok(names)
}

fn read_for(words: &mut Words<'_>) -> Result<TypeBound, TextError> {
    let names = read_binder(words)?;
    words.expect("T")?;
    Ok(TypeBound::ForLifetime(names, Read::read(words)?))
}

fn read_trait(words: &mut Words<'_>, modifier: TraitBoundModifier) -> Result<TypeBound, TextError> {
    Ok(TypeBound::Path(Read::read(words)?, modifier))
}

impl Read for TypeBound {
    fn read(words: &mut Words<'_>) -> Result<TypeBound, TextError> {
        if words.eat("?T") {
            read_trait(words, TraitBoundModifier::Maybe)
        } else if words.eat("for<") {
            read_for(words)
        } else if words.eat("use<") {
            Ok(TypeBound::Use(read_uses(words)?))
        } else if words.eat("error") {
            Ok(TypeBound::Error)
        } else if words.eat("L") {
            Ok(TypeBound::Lifetime(Read::read(words)?))
        } else if words.eat("T") {
            read_trait(words, TraitBoundModifier::None)
        } else {
            Err(TextError::Syntax)
        }
    }
}

impl Write for TypeBound {
    fn write(&self, answer: &mut Answer) -> Result<(), AllocError> {
        match self {
            TypeBound::Path(path, modifier) => {
                let start = match modifier {
                    TraitBoundModifier::None => "T",
                    TraitBoundModifier::Maybe => "?T",
                };
                join(answer, start, &path.type_ref())
            }
            TypeBound::ForLifetime(names, path) => {
                join(answer, "for<", names)?;
                join(answer, ">T", &path.type_ref())
            }
            TypeBound::Lifetime(id) => join(answer, "L", id),
            TypeBound::Use(uses) => {
                answer.join("use<")?;
                join_items(answer, uses.as_slice(), ",")?;
                answer.join(">")
            }
            TypeBound::Error => answer.join("error"),
        }
    }
}

/// Takes the names of `for<NAMES>`, where that comes next.
pub(crate) fn opt_binder(words: &mut Words<'_>) -> Result<Option<Seq<Name>>, TextError> {
    if words.prefix("for<") {
        return Ok(Some(read_binder(words)?));
    }
    Ok(None)
}

/// Writes `for<NAMES>`, where there are names of lifetimes.
pub(crate) fn put_binder(answer: &mut Answer, names: &Option<Seq<Name>>) -> Result<(), AllocError> {
    match names {
        Some(names) => {
            answer.word("for<")?;
            names.write(answer)?;
            answer.join(">")
        }
        None => Ok(()),
    }
}

/// Bounds joined by `+`, or `-`.
pub(crate) fn next_bounds(words: &mut Words<'_>) -> Result<Seq<TypeBound>, TextError> {
    words.expect(" ")?;
    list(words, "+")
}

/// Writes bounds joined by `+`, or `-`, after a space.
pub(crate) fn put_bounds(answer: &mut Answer, bounds: &[TypeBound]) -> Result<(), AllocError> {
    answer.space()?;
    join_list(answer, bounds, "+")
}
