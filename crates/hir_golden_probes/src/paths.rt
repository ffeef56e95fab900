//! Parts of a path, and paths that are made of them.

use hir_base::{ModPath, PathKind};
use hir_collections::{Seq, TryClone};
use hir_node::{GenericArgs, Path, PathSegment, PathSegments, TypeRefId};
use hir_text_nodes::{
    Answer, Quoted, TextError, Words, join_args, join_segments, next, put, put_yes_or_no,
};
use hir_text_store::answer_unknown;
use std::alloc::{AllocError, Global};

/// Segments by their number.
#[derive(Clone, Copy, Drop)]
pub(crate) enum Cut {
    Get,
    Skip,
    Take,
}

/// A part of a path, or what is made of it.
#[derive(Clone, Copy, Drop)]
pub(crate) enum Part {
    Kind,
    Anchor,
    Names,
    Lists,
    Segments,
    First,
    Last,
    StripLast,
    StripLastTwo,
    Qualifier,
    IsSelf,
    Known,
    Cut(Cut, usize),
}

/// The part of a path that a line asks for.
pub(crate) fn next_part(words: &mut Words<'_>) -> Result<Part, TextError> {
    Ok(match words.next_keyword()? {
        "kind" => Part::Kind,
        "anchor" => Part::Anchor,
        "mod-path" => Part::Names,
        "args" => Part::Lists,
        "segments" => Part::Segments,
        "first" => Part::First,
        "last" => Part::Last,
        "strip-last" => Part::StripLast,
        "strip-last-two" => Part::StripLastTwo,
        "qualifier" => Part::Qualifier,
        "is-self" => Part::IsSelf,
        "known" => Part::Known,
        "get" => Part::Cut(Cut::Get, next_size(words)?),
        "skip" => Part::Cut(Cut::Skip, next_size(words)?),
        "take" => Part::Cut(Cut::Take, next_size(words)?),
        _ => return Err(TextError::Syntax),
    })
}

/// A number after a space.
fn next_size(words: &mut Words<'_>) -> Result<usize, TextError> {
    Ok(next::<u32>(words)? as usize)
}

/// Segments as one word; nothing where there are none.
fn write_segments(segments: PathSegments<'_>, answer: &mut Answer) -> Result<(), AllocError> {
    if segments.is_empty() {
        return Ok(());
    }
    answer.space()?;
    join_segments(answer, segments)
}

/// A kind, as a path of no names has it.
fn write_kind(alloc: Global, kind: PathKind, answer: &mut Answer) -> Result<(), AllocError> {
    let path = ModPath::from_segments(alloc, kind, Seq::new(alloc))?;
    put(answer, &path)
}

/// The type that a path begins at, as the path has it.
fn write_anchor(anchor: Option<TypeRefId>, answer: &mut Answer) -> Result<(), AllocError> {
    let Some(anchor) = anchor else {
        return answer.word("none");
    };
    put(answer, &"<")?;
    answer.join_number(anchor.into_raw())?;
    answer.join(">")
}

/// The kind and the names of a path.
fn write_names(names: Option<&ModPath>, answer: &mut Answer) -> Result<(), AllocError> {
    match names {
        Some(names) => put(answer, names),
        None => answer.word("none"),
    }
}

/// The places of a path: the arguments, or `-`.
fn write_lists(
    lists: Option<&[Option<GenericArgs>]>,
    answer: &mut Answer,
) -> Result<(), AllocError> {
    let Some(lists) = lists else {
        return answer.word("none");
    };
    for args in lists {
        match args {
            Some(args) => put(answer, args)?,
            None => answer.word("-")?,
        }
    }
    Ok(())
}

/// A segment: its name, in quotes where it reads like the kind of a path, and its arguments.
fn write_segment(segment: Option<PathSegment<'_>>, answer: &mut Answer) -> Result<(), AllocError> {
    let Some(segment) = segment else {
        return answer.word("none");
    };
    let name = segment.name.as_str();
    if matches!(name, "self" | "super" | "crate") {
        put(answer, &Quoted(name))?;
    } else {
        put(answer, segment.name)?;
    }
    match segment.args_and_bindings {
        Some(args) => join_args(answer, args),
        None => Ok(()),
    }
}

/// `path PATH qualifier`, of a path that has a place for each segment, or no places.
fn qualifier(alloc: Global, path: &Path, answer: &mut Answer) -> Result<(), AllocError> {
    if let Path::Normal(normal) = path {
        let normal = normal.get();
        if normal.generic_args.len() != normal.mod_path.segments().len() {
            return answer_unknown(answer);
        }
    }
    match path.qualifier(alloc)? {
        Some(path) => put(answer, &path),
        None => answer.word("none"),
    }
}

/// A copy of the places.
fn copy_places(
    alloc: Global,
    lists: &[Option<GenericArgs>],
) -> Result<Seq<Option<GenericArgs>>, AllocError> {
    let mut copy = Seq::new(alloc);
    for args in lists {
        let args = match args {
            Some(args) => Some(args.try_clone()?),
            None => None,
        };
        copy.push(args)?;
    }
    Ok(copy)
}

/// A path of these names and copies of the places, where there is a place for each name.
fn with_places(
    alloc: Global,
    names: &ModPath,
    lists: &[Option<GenericArgs>],
) -> Result<Option<Path>, AllocError> {
    let lists = copy_places(alloc, lists)?;
    if lists.len() != names.segments().len() {
        return Ok(None);
    }
    Ok(Some(Path::from_known_path(alloc, names.try_clone()?, lists)?))
}

/// A path of these names, without places.
fn without_places(names: &ModPath) -> Result<Option<Path>, AllocError> {
    Ok(Some(Path::from_known_path_with_no_generic(names.try_clone()?)))
}

/// Writes a path that could be made.
fn write_made(path: Option<Path>, answer: &mut Answer) -> Result<(), AllocError> {
    match path {
        Some(path) => put(answer, &path),
        None => answer_unknown(answer),
    }
}

/// `path PATH known`: a path of the names and the places, or of the names alone where there are none.
fn answer_known(alloc: Global, path: &Path, answer: &mut Answer) -> Result<(), AllocError> {
    let Some(names) = path.mod_path() else {
        return answer.word("none");
    };
    let made = match path.generic_args() {
        Some(lists) => with_places(alloc, names, lists)?,
        None => without_places(names)?,
    };
    write_made(made, answer)
}

/// Writes the segments that are cut out.
fn write_cut(
    segments: PathSegments<'_>,
    cut: Cut,
    number: usize,
    answer: &mut Answer,
) -> Result<(), AllocError> {
    match cut {
        Cut::Get => write_segment(segments.get(number), answer),
        Cut::Skip => write_segments(segments.skip(number), answer),
        Cut::Take => write_segments(segments.take(number), answer),
    }
}

/// `path PATH PART`: writes that part of it.
pub(crate) fn write_part(
    alloc: Global,
    path: &Path,
    part: Part,
    answer: &mut Answer,
) -> Result<(), AllocError> {
    let segments = path.segments();
    match part {
        Part::Kind => write_kind(alloc, path.kind(), answer),
        Part::Anchor => write_anchor(path.type_anchor(), answer),
        Part::Names => write_names(path.mod_path(), answer),
        Part::Lists => write_lists(path.generic_args(), answer),
        Part::Segments => write_segments(segments, answer),
        Part::First => write_segment(segments.first(), answer),
        Part::Last => write_segment(segments.last(), answer),
        Part::StripLast => write_segments(segments.strip_last(), answer),
        Part::StripLastTwo => write_segments(segments.strip_last_two(), answer),
        Part::Qualifier => qualifier(alloc, path, answer),
        Part::IsSelf => put_yes_or_no(answer, path.is_self_type()),
        Part::Known => answer_known(alloc, path, answer),
        Part::Cut(cut, number) => write_cut(segments, cut, number, answer),
    }
}
