//! Paths, hygiene, ids, pointers and calling conventions, once each on the happy path. The table of
//! `HygieneId` is here line by line.
use crate::same;
use either::Either;
use hir_base::{
    AdtId, AstPtr, BlockId, ConstParamId, CrateId, DefWithBodyId, Edition, EnumVariantId,
    ExpressionStoreOwnerId, ExternAbi, FunctionId, GenericDefId, HygieneId, LabelPtr, ModPath,
    Name, PathKind, RawWords, StructId, SyntaxContext, SyntaxNodePtr, SyntheticSyntax, TextRange,
    TypeOrConstParamId, TypeParamId, VariantId, ast, laws,
};
use hir_collections::{ExactEq, Idx, Seq, Text};
use std::alloc::{AllocError, Global};
use std::cmp::Ordering;
use std::mem::{drop, size_of};
use std::test::Fail;

// All source text has one hygiene, of whatever edition, and an expansion its own.
#[test]
fn hygiene_is_that_of_source_or_of_an_expansion(rt: HostRuntime) {
    let source = HygieneId::new(SyntaxContext::Root(Edition::Edition2021));
    assert!(rt; source == HygieneId::ROOT && source.is_root());
    assert!(rt; source.syntax_context() == SyntaxContext::Root(Edition::Edition2015));
    let expansion = HygieneId::new(SyntaxContext::Expansion(7));
    assert!(rt; !expansion.is_root());
    assert!(rt; expansion.syntax_context() == SyntaxContext::Expansion(7));
}

// No byte of an expansion's number is lost, and none changes its place. A hygiene takes five bytes.
#[test]
fn hygiene_keeps_the_number_of_its_expansion(rt: HostRuntime) {
    for number in &[0, 255, 256, 0x0102_0304, u32::MAX] {
        let hygiene = HygieneId::new(SyntaxContext::Expansion(*number));
        assert!(rt; hygiene.syntax_context() == SyntaxContext::Expansion(*number));
        assert!(rt; hygiene != HygieneId::ROOT);
    }
    let backwards = HygieneId::new(SyntaxContext::Expansion(0x0403_0201));
    assert!(rt; HygieneId::new(SyntaxContext::Expansion(0x0102_0304)) != backwards);
    assert!(rt; size_of::<HygieneId>() == 5);
}

// The hygiene of every context is source text's, where the context is a root, and never a root of a later
// edition.
#[test]
fn no_hygiene_is_a_root_of_a_later_edition(rt: HostRuntime) {
    for edition in &[
        Edition::Edition2015,
        Edition::Edition2018,
        Edition::Edition2021,
        Edition::Edition2024,
    ] {
        let hygiene = HygieneId::new(SyntaxContext::Root(*edition));
        assert!(rt; hygiene.is_root() && hygiene == HygieneId::ROOT);
        assert!(rt; HygieneId::new(hygiene.syntax_context()) == hygiene);
    }
}

// Whether the calling convention and its copy have this text.
fn is_written(abi: &ExternAbi, text: &str) -> Result<bool, AllocError> {
    Ok(abi.as_str() == text && same::copies(abi)?)
}

// The calling conventions that have texts of their own.
const WRITTEN: [(ExternAbi, &str); 5] = [
    (ExternAbi::Rust, "Rust"),
    (ExternAbi::C, "C"),
    (ExternAbi::System, "system"),
    (ExternAbi::CUnwind, "C-unwind"),
    (ExternAbi::SystemUnwind, "system-unwind"),
];

#[test]
fn calling_conventions_have_texts_or_their_names(rt: HostRuntime) -> Result<(), Fail> {
    for (abi, text) in &WRITTEN {
        assert!(rt; is_written(abi, text)?, "{text}");
    }
    let named = ExternAbi::Named(Text::from_str(rt.alloc(), "efiapi")?);
    let answer = is_written(&named, "efiapi");
    drop(named);
    assert!(rt; answer?);
    Ok(())
}

// Whether the names have these texts.
fn have_texts(names: &[Name], texts: &[&str]) -> bool {
    let mut left = names;
    for text in texts {
        match left.split_first() {
            Some((name, others)) if name.as_str() == *text => left = others,
            _ => return false,
        }
    }
    left.is_empty()
}

// Whether the path is of this kind and has these names, and is an ident or not, and `Self` or not. The path
// is taken.
fn is_known(made: ModPath, kind: PathKind, names: &[&str], ident: bool, is_self: bool) -> bool {
    let known = (made.kind() == kind)
        & have_texts(made.segments(), names)
        & (made.is_ident() == ident)
        & (made.as_ident().is_some() == ident)
        & (made.is_Self() == is_self);
    drop(made);
    known
}

// Whether the path of this kind and these names is known, and copied.
fn is_kept(
    alloc: Global,
    kind: PathKind,
    names: &[&str],
    ident: bool,
    is_self: bool,
) -> Result<bool, AllocError> {
    let made = same::path(alloc, kind, names)?;
    let copies = same::copies(&made);
    let known = is_known(made, kind, names, ident, is_self);
    Ok(copies? && known)
}

// Names after a kind, and whether their path is an ident, and whether it is `Self`.
const KNOWN: [(PathKind, &[&str], bool, bool); 8] = [
    (PathKind::Plain, &["x"], true, false),
    (PathKind::Plain, &["Self"], true, true),
    (PathKind::Crate, &["Self"], false, false),
    (PathKind::Plain, &["Self", "Self"], false, false),
    (PathKind::SELF, &[], false, false),
    (PathKind::Abs, &["a", "b"], false, false),
    (PathKind::Plain, &[], false, false),
    (PathKind::Super(2), &["a"], false, false),
];

#[test]
fn one_plain_name_is_an_ident(rt: HostRuntime) -> Result<(), Fail> {
    assert!(rt; PathKind::SELF == PathKind::Super(0) && laws::kind_of_self() == PathKind::SELF);
    assert!(rt; laws::hygiene_of_source_text() == HygieneId::ROOT);
    for (kind, names, ident, is_self) in &KNOWN {
        assert!(rt;
            is_kept(rt.alloc(), *kind, names, *ident, *is_self)?,
            "{names:?}"
        );
    }
    let of_crate = PathKind::DollarCrate(CrateId::from_raw(3));
    assert!(rt; is_kept(rt.alloc(), of_crate, &["a"], false, false)?);
    Ok(())
}

fn parent() -> GenericDefId {
    GenericDefId::AdtId(AdtId::StructId(StructId::from_raw(3)))
}

fn body() -> DefWithBodyId {
    DefWithBodyId::FunctionId(FunctionId::from_raw(4))
}

fn fields() -> VariantId {
    VariantId::EnumVariantId(EnumVariantId::from_raw(5))
}

#[test]
fn ids_name_their_owners(rt: HostRuntime) {
    assert!(rt;
        ExpressionStoreOwnerId::from(parent()) == ExpressionStoreOwnerId::Signature(parent())
    );
    assert!(rt; ExpressionStoreOwnerId::from(body()) == ExpressionStoreOwnerId::Body(body()));
    assert!(rt;
        ExpressionStoreOwnerId::from(fields()) == ExpressionStoreOwnerId::VariantFields(fields())
    );
}

// The id of a parameter keeps its parts as that of a type's and of a constant's parameter.
#[test]
fn ids_of_parameters_keep_their_parts(rt: HostRuntime) {
    let local_id = Idx::from_raw(6);
    let param = TypeOrConstParamId {
        parent: parent(),
        local_id,
    };
    let of_type = TypeParamId::from_unchecked(param);
    assert!(rt; of_type.parent() == parent() && of_type.local_id() == local_id);
    let of_const = ConstParamId::from_unchecked(param);
    assert!(rt; of_const.parent() == parent() && of_const.local_id() == local_id);
}

#[test]
fn blocks_are_ordered_as_their_numbers(rt: HostRuntime) -> Result<(), Fail> {
    laws::block_order_is_that_of_numbers();
    laws::block_order_agrees_with_eq_and_hash();
    let first = BlockId::from_raw(1);
    let second = BlockId::from_raw(2);
    assert!(rt; first.cmp(&second) == Ordering::Less && second.into_raw() == 2);
    assert!(rt; second.partial_cmp(&first) == Some(Ordering::Greater));
    assert!(rt; same::copies(&second)?);
    Ok(())
}

#[test]
fn pointers_keep_their_node(rt: HostRuntime) {
    let range = TextRange { start: 3, end: 9 };
    let node = SyntaxNodePtr { kind: 17, range };
    let expansion: AstPtr<ast::MacroExpr> = AstPtr::new(node);
    let expr: AstPtr<ast::Expr> = expansion.upcast();
    assert!(rt; expr.syntax_node_ptr() == node);
    let label: AstPtr<ast::Label> = AstPtr::new(node);
    let wrapped: LabelPtr = label.wrap_left();
    assert!(rt; wrapped.syntax_node_ptr() == node);
    let same: AstPtr<Either<ast::Label, ast::BlockExpr>> = AstPtr::new(node);
    assert!(rt; wrapped.is_same(&same));
    assert!(rt; SyntheticSyntax.is_same(&SyntheticSyntax));
}

// Whether no edition has words.
fn are_new(words: &RawWords) -> bool {
    words.words(Edition::Edition2015).is_empty()
        && words.words(Edition::Edition2018).is_empty()
        && words.words(Edition::Edition2021).is_empty()
        && words.words(Edition::Edition2024).is_empty()
}

// Whether the edition 2021 has the word `match` alone, and the one before it has none.
fn has_match(words: &RawWords) -> bool {
    let given = words.words(Edition::Edition2021);
    given.len() == 1 && given[0].as_str() == "match" && words.words(Edition::Edition2018).is_empty()
}

#[test]
fn each_edition_has_its_words(rt: HostRuntime) -> Result<(), Fail> {
    let mut given = Seq::new(rt.alloc());
    given.push(Text::from_str(rt.alloc(), "match")?)?;
    let mut words = RawWords::new(rt.alloc());
    let are_new = are_new(&words);
    words.set_words(Edition::Edition2021, given);
    let has_match = has_match(&words);
    drop(words);
    assert!(rt; are_new && has_match);
    Ok(())
}
