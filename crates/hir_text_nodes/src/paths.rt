//! Paths: their kind, their names, their arguments, and what they begin at.

use crate::args::{join_args, join_name};
use crate::forms::{Read, Write, after, in_parens, join};
use hir_base::{LangItemTarget, ModPath, Name, PathKind};
use hir_collections::{Boxed, Seq};
use hir_path::{GenericArgs, NormalPath, Path, PathSegments, TypeRefId};
use hir_text_words::{Answer, TextError, Words};
use std::alloc::AllocError;

/// Returns the kind of a path that a bare word is; none where it is the name of a segment.
fn kind_of(word: &str) -> Option<PathKind> {
    match word {
        "self" => Some(PathKind::SELF),
        "super" => Some(PathKind::Super(1)),
        "crate" => Some(PathKind::Crate),
        _ => None,
    }
}

/// Takes the kind of a path that begins with a word; none where that is the name of a segment.
fn opt_kind(words: &mut Words<'_>) -> Result<Option<PathKind>, TextError> {
    if words.eat("$crate(") {
        return Ok(Some(PathKind::DollarCrate(in_parens(words)?)));
    }
    let mut ahead = *words;
    let kind = kind_of(ahead.bare_name());
    if kind.is_some() {
        *words = ahead;
    }
    if kind == Some(PathKind::Super(1)) && words.eat("(") {
        return Ok(Some(PathKind::Super(in_parens(words)?)));
    }
    Ok(kind)
}

/// Takes the kind of a path; returns also whether a segment comes next.
fn read_kind(words: &mut Words<'_>) -> Result<(PathKind, bool), TextError> {
    if words.eat("::") {
        return Ok((PathKind::Abs, words.is_at_name()));
    }
    if words.eat("-") {
        return Ok((PathKind::Plain, false));
    }
    match opt_kind(words)? {
        Some(kind) => Ok((kind, words.eat("::"))),
        None => Ok((PathKind::Plain, true)),
    }
}

fn read_segment(words: &mut Words<'_>) -> Result<Name, TextError> {
    let mut ahead = *words;
    if kind_of(ahead.bare_name()).is_some() {
        return Err(TextError::Syntax);
    }
    Read::read(words)
}

/// Takes the names of segments, where this says that there are any.
fn read_names(words: &mut Words<'_>, has_names: bool) -> Result<Seq<Name>, TextError> {
    let mut names = Seq::new(words.alloc());
    let mut goes_on = has_names;
    for _ in 0..words.most_items() {
        if !goes_on {
            break;
        }
        names.push(read_segment(words)?)?;
        goes_on = words.eat("::");
    }
    Ok(names)
}

impl Read for ModPath {
    fn read(words: &mut Words<'_>) -> Result<ModPath, TextError> {
        let (kind, has_names) = read_kind(words)?;
        let names = read_names(words, has_names)?;
        Ok(ModPath::from_segments(words.alloc(), kind, names)?)
    }
}

/// The places of a path for the arguments of its segments.
type Places = Seq<Option<GenericArgs>>;

fn opt_args(words: &mut Words<'_>) -> Result<Option<GenericArgs>, TextError> {
    if words.is_at("::<") {
        return Ok(Some(Read::read(words)?));
    }
    Ok(None)
}

/// Takes the names of segments and their arguments, where this says that there are any.
fn read_segments(words: &mut Words<'_>, has_some: bool) -> Result<(Seq<Name>, Places), TextError> {
    let mut names = Seq::new(words.alloc());
    let mut places = Seq::new(words.alloc());
    let mut goes_on = has_some;
    for _ in 0..words.most_items() {
        if !goes_on {
            break;
        }
        names.push(read_segment(words)?)?;
        places.push(opt_args(words)?)?;
        goes_on = words.eat("::");
    }
    Ok((names, places))
}

/// Takes the type in `<>` that a path begins at, where there is one.
fn opt_anchor(words: &mut Words<'_>) -> Result<Option<TypeRefId>, TextError> {
    let anchor = after(words, "<")?;
    if anchor.is_some() {
        words.expect(">")?;
    }
    Ok(anchor)
}

/// Takes the kind of a path after its anchor, if it has one; returns also whether a segment comes next.
fn kind_behind(words: &mut Words<'_>, has_anchor: bool) -> Result<(PathKind, bool), TextError> {
    if has_anchor && !words.eat("::") {
        return Ok((PathKind::Plain, false));
    }
    read_kind(words)
}

fn has_args(places: &[Option<GenericArgs>]) -> bool {
    for place in places {
        if place.is_some() {
            return true;
        }
    }
    false
}

/// Returns these places, cut or filled up to as many as come after `/`: no arguments may be lost.
fn read_places(words: &mut Words<'_>, places: Places) -> Result<Places, TextError> {
    let Some(count) = after::<u8>(words, "/")? else {
        return Ok(places);
    };
    let count = usize::from(count);
    if count < places.len() && has_args(&places.as_slice()[count..]) {
        return Err(TextError::Syntax);
    }
    let mut places = places.into_vec();
    places.truncate(count);
    for _ in places.len()..count {
        places.push(None)?;
    }
    Ok(Seq::from_vec(places))
}

/// Takes the name after a lang item, where there is one.
fn opt_lang_name(words: &mut Words<'_>) -> Result<Option<Boxed<Name>>, TextError> {
    if words.eat("::") {
        let name = read_segment(words)?;
        return Ok(Some(Boxed::new(words.alloc(), name)?));
    }
    Ok(None)
}

/// Takes the definition after `lang(`, and its name.
fn read_lang(words: &mut Words<'_>) -> Result<Path, TextError> {
    let target: LangItemTarget = in_parens(words)?;
    Ok(Path::LangItem(target, opt_lang_name(words)?))
}

/// Takes the rest of a path that may have arguments or an anchor.
fn read_normal(
    words: &mut Words<'_>,
    type_anchor: Option<TypeRefId>,
    kind: PathKind,
    names: Seq<Name>,
    places: Places,
) -> Result<Path, TextError> {
    let mod_path = ModPath::from_segments(words.alloc(), kind, names)?;
    let path = NormalPath {
        generic_args: read_places(words, places)?,
        type_anchor,
        mod_path,
    };
    Ok(Path::Normal(Boxed::new(words.alloc(), path)?))
}

impl Read for Path {
    fn read(words: &mut Words<'_>) -> Result<Path, TextError> {
        if words.eat("lang(") {
            return read_lang(words);
        }
        let is_normal = words.eat("~");
        let anchor = opt_anchor(words)?;
        let (kind, has_segments) = kind_behind(words, anchor.is_some())?;
        let (names, places) = read_segments(words, has_segments)?;
        if is_normal || anchor.is_some() || has_args(places.as_slice()) {
            return read_normal(words, anchor, kind, names, places);
        }
        Ok(Path::BarePath(ModPath::from_segments(words.alloc(), kind, names)?))
    }
}

/// Writes how many modules above a path begins.
fn join_super(answer: &mut Answer, count: u8) -> Result<(), AllocError> {
    match count {
        0 => answer.join("self"),
        1 => answer.join("super"),
        _ => {
            join(answer, "super(", &u32::from(count))?;
            answer.join(")")
        }
    }
}

/// Writes where a path begins that has names, or has none.
fn join_kind(answer: &mut Answer, kind: PathKind, has_names: bool) -> Result<(), AllocError> {
    match kind {
        PathKind::Plain => return answer.join(if has_names { "" } else { "-" }),
        PathKind::Abs => return answer.join("::"),
        PathKind::Super(count) => join_super(answer, count)?,
        PathKind::Crate => answer.join("crate")?,
        PathKind::DollarCrate(krate) => {
            join(answer, "$crate(", &krate)?;
            answer.join(")")?;
        }
    }
    answer.join(if has_names { "::" } else { "" })
}

fn join_segment(answer: &mut Answer, name: &Name) -> Result<(), AllocError> {
    join_name(answer, name, kind_of(name.as_str()).is_some())
}

impl Write for ModPath {
    fn write(&self, answer: &mut Answer) -> Result<(), AllocError> {
        join_kind(answer, self.kind(), !self.segments().is_empty())?;
        let mut before = "";
        for name in self.segments() {
            answer.join(before)?;
            join_segment(answer, name)?;
            before = "::";
        }
        Ok(())
    }
}

/// Writes segments with their arguments, joined by `::`.
pub fn join_segments(answer: &mut Answer, segments: PathSegments<'_>) -> Result<(), AllocError> {
    let mut is_behind = false;
    for segment in segments.iter() {
        answer.join(if is_behind { "::" } else { "" })?;
        join_segment(answer, segment.name)?;
        match segment.args_and_bindings {
            Some(args) => join_args(answer, args)?,
            None => {}
        }
        is_behind = true;
    }
    Ok(())
}

/// Writes what a path begins at, and where. A path with neither an anchor nor arguments has `~` before it.
fn join_start(answer: &mut Answer, path: &NormalPath) -> Result<(), AllocError> {
    let kind = path.mod_path.kind();
    let has_names = !path.mod_path.segments().is_empty();
    match path.type_anchor {
        Some(anchor) => {
            join(answer, "<", &anchor)?;
            if !has_names && kind == PathKind::Plain {
                return answer.join(">");
            }
            answer.join(">::")?;
        }
        None => {
            let has_args = has_args(path.generic_args.as_slice());
            answer.join(if has_args { "" } else { "~" })?;
        }
    }
    join_kind(answer, kind, has_names)
}

/// Writes a path that may have arguments or an anchor.
fn join_normal(
    answer: &mut Answer,
    path: &NormalPath,
    segments: PathSegments<'_>,
) -> Result<(), AllocError> {
    join_start(answer, path)?;
    join_segments(answer, segments)?;
    let places = path.generic_args.len();
    if places == path.mod_path.segments().len() {
        return Ok(());
    }
    join(answer, "/", &places)
}

fn join_lang(
    answer: &mut Answer,
    target: &LangItemTarget,
    name: Option<&Boxed<Name>>,
) -> Result<(), AllocError> {
    join(answer, "lang(", target)?;
    answer.join(")")?;
    match name {
        Some(name) => {
            answer.join("::")?;
            join_segment(answer, name.get())
        }
        None => Ok(()),
    }
}

impl Write for Path {
    fn write(&self, answer: &mut Answer) -> Result<(), AllocError> {
        match self {
            Path::BarePath(path) => path.write(answer),
            Path::Normal(normal) => join_normal(answer, normal.get(), self.segments()),
            Path::LangItem(target, name) => join_lang(answer, target, name.as_ref()),
        }
    }
}
