//! Lists, and parts that may not be there, of whatever they are.
#![tactic(auto, using(crate::proofs::AddLemmas::adding))]

ghost use Rattle.std.specs.Prelude.{◌++◌, List, map, flat_map};
ghost use Rattle.hir_pretty_docs.specs.Prelude.{PrintEnv, Doc, text, opt, p, e, t, l, join, name_docs, label_docs, Adds, following, stood_after};

use crate::{Lookup, Token, Tokens};
use hir_base::Name;
use hir_node::{ExprId, LabelId, LifetimeRefId, PatId, TypeRefId};

/// A part of a node.
pub trait Part {
    // what it is printed as
    ghost docs: { PrintEnv → Self → List Doc };

    /// Adds what the part is printed as.
    fn add_to<'a>(&'a self, tokens: &mut Tokens<'a>)
        ensures { Adds tokens.old.stack (λ s. docs s self.now) tokens.new.stack };
}

impl Part for ExprId {
    ghost docs = { λ s id. e id };

    fn add_to<'a>(&'a self, tokens: &mut Tokens<'a>) {
        tokens.add(&[Token::Expr(*self)])
    }
}

impl Part for PatId {
    ghost docs = { λ s id. p id };

    fn add_to<'a>(&'a self, tokens: &mut Tokens<'a>) {
        tokens.add(&[Token::Pattern(*self)])
    }
}

impl Part for TypeRefId {
    ghost docs = { λ s id. t id };

    fn add_to<'a>(&'a self, tokens: &mut Tokens<'a>) {
        tokens.add(&[Token::Type(*self)])
    }
}

impl Part for Name {
    ghost docs = { name_docs };

    fn add_to<'a>(&'a self, tokens: &mut Tokens<'a>) {
        tokens.add(&[Token::Name(self.as_str())])
    }
}

impl Part for LabelId {
    ghost docs = { label_docs };

    fn add_to<'a>(&'a self, tokens: &mut Tokens<'a>) {
        tokens.add(&[Token::LookUp(Lookup::Label(*self))])
    }
}

impl Part for LifetimeRefId {
    ghost docs = { l };

    fn add_to<'a>(&'a self, tokens: &mut Tokens<'a>) {
        tokens.add(&[Token::LookUp(Lookup::Lifetime(*self))])
    }
}

impl<'a> Tokens<'a> {
    /// Adds the members of a list with a text between them, which is also before the first where `after` says
    /// so.
    pub fn add_list<T: Part>(&mut self, after: bool, between: &'a str, members: &'a [T])
        ensures { Adds self.old.stack
            (λ s. following (text between.now) after (map (T.docs s) members.now)) self.new.stack }
    {
        let mut after = after;
        for member in members {
            self.add_if(after, between);
            member.add_to(self);
            after = true;
        }
    }

    /// Adds the members of a list with a text between them.
    pub fn add_joined<T: Part>(&mut self, between: &'a str, members: &'a [T])
        ensures { Adds self.old.stack
            (λ s. join (text between.now) (map (T.docs s) members.now)) self.new.stack }
    {
        self.add_list(false, between, members)
    }

    /// Adds the members of a list, each with these tokens after it.
    pub fn add_each<T: Part>(&mut self, members: &'a [T], trailer: &[Token<'a>])
        ensures { Adds self.old.stack
            (λ s. flat_map (λ x. stood_after s (T.docs s x) trailer.now) members.now) self.new.stack }
    {
        for member in members {
            member.add_to(self);
            self.add(trailer);
        }
    }

    /// Adds a part after a text, where the part is present.
    pub fn add_after<T: Part>(&mut self, before: &'a str, part: &'a Option<T>)
        ensures { Adds self.old.stack
            (λ s. opt (λ x. text before.now ++ T.docs s x) part.now) self.new.stack }
    {
        match part {
            None => {}
            Some(part) => {
                self.add(&[Token::Text(before)]);
                part.add_to(self)
            }
        }
    }

    /// Adds a part before a text, where the part is present.
    pub(crate) fn add_before<T: Part>(&mut self, part: &'a Option<T>, trailer: &'a str)
        ensures { Adds self.old.stack
            (λ s. opt (λ x. T.docs s x ++ text trailer.now) part.now) self.new.stack }
    {
        match part {
            None => {}
            Some(part) => {
                part.add_to(self);
                self.add(&[Token::Text(trailer)])
            }
        }
    }
}
