//! What paths and generic arguments are printed as.
#![tactic(auto, using(crate::proofs::AddLemmas::adding))]

ghost use Rattle.std.specs.Prelude.{◌≡◌, option_copied};
ghost use Rattle.hir_pretty_docs.specs.Prelude.{opt, arg_docs, args_docs, assoc_docs, turbofish, path_docs, kind_docs, supers, target_docs, segments_from, colons_first, Adds};

use crate::{Lookup, Part, Token, Tokens};
use hir_base::{ExprPrecedence, LangItemTarget, Name, NamedDef, PathKind};
use hir_node::{AssociatedTypeBinding, GenericArg, GenericArgs, Path};

/// Whether `::` is before the first segment of a path of this kind.
pub fn colons_first(kind: PathKind) -> bool
    ensures { result ≡ colons_first kind }
{
    match kind {
        PathKind::Plain => false,
        PathKind::Super(_) | PathKind::Crate | PathKind::Abs | PathKind::DollarCrate(_) => true,
    }
}

impl Part for GenericArg {
    ghost docs = { arg_docs };

    fn add_to<'a>(&'a self, tokens: &mut Tokens<'a>) {
        match self {
            GenericArg::Ty(id) => tokens.add(&[Token::Type(*id)]),
            GenericArg::Lifetime(id) => id.add_to(tokens),
            GenericArg::Const(constant) => tokens.add(&[Token::ExprIn(
                constant.expr,
                ExprPrecedence::Unambiguous,
            )]),
        }
    }
}

impl Part for AssociatedTypeBinding {
    ghost docs = { assoc_docs };

    fn add_to<'a>(&'a self, tokens: &mut Tokens<'a>) {
        tokens.add(&[Token::Name(self.name.as_str())]);
        tokens.add_turbofish(self.args.as_ref());
        tokens.add_if(!self.bounds.is_empty(), ": ");
        tokens.add_joined(" + ", self.bounds.as_slice());
        tokens.add_after(" = ", &self.type_ref)
    }
}

impl<'a> Tokens<'a> {
    /// Adds `super`, so many times.
    pub fn add_supers(&mut self, times: u8)
        ensures { Adds self.old.stack (λ s. supers times) self.new.stack }
    {
        if times == 0 {
            return self.add(&[Token::Text("self")]);
        }
        let mut left = times;
        while left > 1 {
            self.add(&[Token::Text("super::")]);
            left -= 1;
        }
        self.add(&[Token::Text("super")])
    }

    /// Adds what a path begins with.
    fn add_kind(&mut self, kind: PathKind)
        ensures { Adds self.old.stack (λ s. kind_docs s kind) self.new.stack }
    {
        match kind {
            PathKind::Plain | PathKind::Abs => {}
            PathKind::Super(times) => self.add_supers(times),
            PathKind::Crate => self.add(&[Token::Text("crate")]),
            PathKind::DollarCrate(id) => self.add(&[Token::LookUp(Lookup::Crate(id))]),
        }
    }

    /// Adds segments with their arguments, where there are any. `::` is before the first where `after` says
    /// so.
    fn add_segments(&mut self, after: bool, names: &'a [Name], lists: &'a [Option<GenericArgs>])
        ensures { Adds self.old.stack
            (λ s. segments_from s after names.now lists.now) self.new.stack }
    {
        let mut after = after;
        let mut lists = lists;
        for name in names {
            self.add_if(after, "::");
            self.add(&[Token::Name(name.as_str())]);
            after = true;
            let [args, others @ ..] = lists else {
                continue;
            };
            self.add_turbofish(args.as_ref());
            lists = others;
        }
    }

    /// Adds the name of a lang item, or the number of one that has no name.
    fn add_target(&mut self, target: LangItemTarget)
        ensures { Adds self.old.stack (λ s. target_docs s target) self.new.stack }
    {
        match target {
            LangItemTarget::ImplId(id) => self.add_numbered("ImplId", id.into_raw()),
            LangItemTarget::EnumId(id) => self.add_named(NamedDef::EnumId(id)),
            LangItemTarget::FunctionId(id) => self.add_named(NamedDef::FunctionId(id)),
            LangItemTarget::StaticId(id) => self.add_named(NamedDef::StaticId(id)),
            LangItemTarget::StructId(id) => self.add_named(NamedDef::StructId(id)),
            LangItemTarget::UnionId(id) => self.add_named(NamedDef::UnionId(id)),
            LangItemTarget::TypeAliasId(id) => self.add_named(NamedDef::TypeAliasId(id)),
            LangItemTarget::TraitId(id) => self.add_named(NamedDef::TraitId(id)),
            LangItemTarget::EnumVariantId(id) => self.add_named(NamedDef::EnumVariantId(id)),
            LangItemTarget::ConstId(id) => self.add_named(NamedDef::ConstId(id)),
            LangItemTarget::MacroId(id) => self.add_named(NamedDef::MacroId(id)),
        }
    }

    /// Adds what a path is printed as.
    pub fn add_path(&mut self, path: &'a Path)
        ensures { Adds self.old.stack (λ s. path_docs s path.now) self.new.stack }
    {
        match path {
            Path::BarePath(path) => {
                self.add_kind(path.kind());
                self.add_segments(colons_first(path.kind()), path.segments(), &[])
            }
            Path::Normal(path) => {
                let path = path.get();
                match path.type_anchor {
                    None => self.add_kind(path.mod_path.kind()),
                    Some(anchor) => {
                        self.add(&[Token::Text("<"), Token::Type(anchor), Token::Text(">::")])
                    }
                }
                self.add_segments(
                    colons_first(path.mod_path.kind()),
                    path.mod_path.segments(),
                    path.generic_args.as_slice(),
                )
            }
            Path::LangItem(target, name) => {
                self.add(&[Token::Text("builtin#lang(")]);
                self.add_target(*target);
                match name {
                    None => {}
                    Some(name) => {
                        self.add(&[Token::Text("::"), Token::Name(name.get().as_str())])
                    }
                }
                self.add(&[Token::Text(")")])
            }
        }
    }

    /// Adds arguments in `::<` and `>`, where there are any.
    pub(crate) fn add_turbofish(&mut self, args: Option<&'a GenericArgs>)
        ensures { Adds self.old.stack
            (λ s. opt (λ a. turbofish (args_docs s a)) (option_copied args.entry)) self.new.stack }
    {
        match args {
            None => {}
            Some(args) => self.add(&[Token::GenericArgs(args)]),
        }
    }

    /// Adds the arguments and the bindings of a list.
    pub fn add_args(&mut self, args: &'a GenericArgs)
        ensures { Adds self.old.stack (λ s. args_docs s args.now) self.new.stack }
    {
        let has_args = !args.args.is_empty();
        self.add_if(has_args & args.has_self_type, "Self=");
        self.add_joined(", ", args.args.as_slice());
        self.add_list(has_args, ", ", args.bindings.as_slice())
    }
}
