//! What types and bounds are printed as.
#![tactic(auto, using(crate::proofs::AddLemmas::adding))]

ghost use Rattle.std.specs.Prelude.{◌++◌};
ghost use Rattle.hir_pretty_docs.specs.Prelude.{text, t, opt, for_names, use_docs, bound_docs, bounds_docs, fn_docs, type_docs, Adds};

use crate::{Lookup, Part, Token, Tokens};
use hir_base::{ExprPrecedence, ExternAbi, Name};
use hir_collections::Seq;
use hir_node::{FnType, TraitBoundModifier, TypeBound, TypeRef, TypeRefId, UseArgRef};

/// A parameter of a function's type, whose name isn't printed.
impl Part for (Option<Name>, TypeRefId) {
    ghost docs = { λ s param. t param.1 };

    fn add_to<'a>(&'a self, tokens: &mut Tokens<'a>) {
        tokens.add(&[Token::Type(self.1)])
    }
}

impl Part for UseArgRef {
    ghost docs = { use_docs };

    fn add_to<'a>(&'a self, tokens: &mut Tokens<'a>) {
        match self {
            UseArgRef::Name(name) => name.add_to(tokens),
            UseArgRef::Lifetime(id) => id.add_to(tokens),
        }
    }
}

impl Part for TypeBound {
    ghost docs = { bound_docs };

    fn add_to<'a>(&'a self, tokens: &mut Tokens<'a>) {
        match self {
            TypeBound::Path(id, TraitBoundModifier::None) => {
                tokens.add(&[Token::Type(id.type_ref())])
            }
            TypeBound::Path(id, TraitBoundModifier::Maybe) => {
                tokens.add(&[Token::Text("?"), Token::Type(id.type_ref())])
            }
            TypeBound::ForLifetime(names, id) => {
                tokens.add_for(names.as_slice());
                tokens.add(&[Token::Type(id.type_ref())])
            }
            TypeBound::Lifetime(id) => id.add_to(tokens),
            TypeBound::Use(args) => {
                tokens.add(&[Token::Text("use<")]);
                tokens.add_joined(", ", args.as_slice());
                tokens.add(&[Token::Text(">")])
            }
            TypeBound::Error => tokens.add(&[Token::Text("{unknown}")]),
        }
    }
}

impl<'a> Tokens<'a> {
    /// Adds names after `for`.
    fn add_for(&mut self, names: &'a [Name])
        ensures { Adds self.old.stack (λ s. for_names s names.now) self.new.stack }
    {
        self.add(&[Token::Text("for<")]);
        self.add_joined(", ", names);
        self.add(&[Token::Text("> ")])
    }

    /// Adds names after `for`, where there are any.
    pub fn add_binder(&mut self, names: &'a Option<Seq<Name>>)
        ensures { Adds self.old.stack (λ s. opt (for_names s) names.now) self.new.stack }
    {
        match names {
            None => {}
            Some(names) => self.add_for(names.as_slice()),
        }
    }

    /// Adds a function's type.
    fn add_fn(&mut self, function: &'a FnType)
        ensures { Adds self.old.stack (λ s. fn_docs s function.now) self.new.stack }
    {
        self.add_binder(&function.binder);
        self.add_if(function.is_unsafe, "unsafe ");
        match &function.abi {
            ExternAbi::Rust => {}
            ExternAbi::C
            | ExternAbi::CUnwind
            | ExternAbi::System
            | ExternAbi::SystemUnwind
            | ExternAbi::Named(_) => self.add(&[
                Token::Text("extern "),
                Token::Text(function.abi.as_str()),
                Token::Text(" "),
            ]),
        }
        // The last is the type of the result.
        let params = function.params.as_slice();
        let (all_but_last, ret) = params.split_at(params.len().saturating_sub(1));
        self.add(&[Token::Text("fn(")]);
        self.add_joined(", ", all_but_last);
        self.add_if(function.is_varargs & !all_but_last.is_empty(), ", ");
        self.add_if(function.is_varargs, "...");
        self.add(&[Token::Text(") -> ")]);
        self.add_each(ret, &[])
    }

    fn add_bounds(&mut self, keyword: &'a str, bounds: &'a [TypeBound])
        ensures { Adds self.old.stack
            (λ s. text keyword.now ++ bounds_docs s bounds.now) self.new.stack }
    {
        self.add(&[Token::Text(keyword)]);
        self.add_joined(" + ", bounds)
    }

    /// Adds what a type is printed as.
    pub fn add_type(&mut self, type_ref: &'a TypeRef)
        ensures { Adds self.old.stack (λ s. type_docs s type_ref.now) self.new.stack }
    {
        match type_ref {
            TypeRef::Never => self.add(&[Token::Text("!")]),
            TypeRef::Placeholder => self.add(&[Token::Text("_")]),
            TypeRef::Error => self.add(&[Token::Text("{error}")]),
            TypeRef::TypeParam(id) => self.add(&[Token::LookUp(Lookup::TypeParam(*id))]),
            TypeRef::Tuple(types) => {
                self.add(&[Token::Text("(")]);
                self.add_joined(", ", types.as_slice());
                self.add(&[Token::Text(")")])
            }
            TypeRef::Slice(id) => {
                self.add(&[Token::Text("["), Token::Type(*id), Token::Text("]")])
            }
            TypeRef::RawPtr(id, mutability) => self.add(&[
                Token::Text("*"),
                Token::Text(mutability.as_keyword_for_ptr()),
                Token::Type(*id),
            ]),
            TypeRef::Reference(reference) => {
                let reference = reference.get();
                self.add(&[Token::Text("&")]);
                self.add_before(&reference.lifetime, " ");
                self.add(&[
                    Token::Text(reference.mutability.as_keyword_for_ref()),
                    Token::Type(reference.ty),
                ])
            }
            TypeRef::Array(array) => self.add(&[
                Token::Text("["),
                Token::Type(array.ty),
                Token::Text("; "),
                Token::ExprIn(array.len.expr, ExprPrecedence::Unambiguous),
                Token::Text("]"),
            ]),
            TypeRef::Fn(function) => self.add_fn(function.get()),
            TypeRef::ImplTrait(bounds) => self.add_bounds("impl ", bounds.as_slice()),
            TypeRef::DynTrait(bounds) => self.add_bounds("dyn ", bounds.as_slice()),
            TypeRef::PatternType(id, pat) => self.add(&[
                Token::Type(*id),
                Token::Text(" is "),
                Token::Pattern(*pat),
            ]),
            TypeRef::Path(path) => self.add_path(path),
        }
    }
}
