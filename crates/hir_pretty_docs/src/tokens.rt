//! The tokens that are still to be printed, and what is added to them.
#![tactic(auto, using(crate::proofs::AddLemmas::adding))]

ghost use Rattle.std.specs.Prelude.{◌≡◌, ◌∷◌, [], true, false, Ok, OnErr, OnOk, codes, option_copied};
ghost use Rattle.hir_collections.specs.Stacks.{Defers};
ghost use Rattle.hir_pretty_docs.specs.Prelude.{text, when, with_number, found_name, type_param_docs, binding_docs, Adds, AddsTokens};

use crate::{Lookup, Token};
use hir_base::{Name, NamedDef};
use hir_collections::Stack;
use hir_node::BindingId;
use std::alloc::{AllocError, Global};

/// Tokens that are still to be printed, on a stack. What is added to them is put on the stack in reading
/// order, as a group that the stack turns over once it is whole. Where an allocation fails, the stack says
/// so then, and what was added is of no use.
#[derive(Drop)]
pub struct Tokens<'a> {
    /// The stack.
    pub stack: Stack<Token<'a>>,
}

/// Puts a copy of an item on a stack.
fn defer_copy<T: Copy + Drop>(stack: &mut Stack<T>, item: &T)
    ensures { Defers stack.old (item.now ∷ []) stack.new }
{
    stack.defer(*item)
}

impl<'a> Tokens<'a> {
    /// No tokens. They are allocated from `alloc` once one is added.
    pub fn new(alloc: Global) -> Tokens<'a>
        ensures { result.stack ≡ record { items = []; refused = false } }
    {
        Tokens {
            stack: Stack::new(alloc),
        }
    }

    /// Returns that an allocation failed, where one did.
    pub fn check(&mut self) -> Result<(), AllocError>
        ensures ok { OnOk result ((self.old.stack.refused ≡ false) × (self.new.stack ≡ self.old.stack)) }
        ensures err { OnErr result ((self.old.stack.refused ≡ true) × (self.new.stack ≡ self.old.stack)) }
    {
        let all = self.stack.len();
        self.stack.push_deferred(all)
    }

    /// Adds tokens.
    // Inlined, so that a list of tokens that is known when this is compiled takes no memory.
    #[inline(always)]
    pub fn add(&mut self, tokens: &[Token<'a>])
        ensures { AddsTokens self.old.stack tokens.now self.new.stack }
    {
        for token in tokens {
            defer_copy(&mut self.stack, token);
        }
    }

    /// Adds a text, where the condition holds.
    pub fn add_if(&mut self, holds: bool, shown: &'a str)
        ensures { Adds self.old.stack (λ s. when holds (text shown.now)) self.new.stack }
    {
        if holds {
            self.add(&[Token::Text(shown)]);
        }
    }

    /// Adds the kind of an id and its number, as `ExprId(3)`.
    pub fn add_numbered(&mut self, kind: &'a str, number: u32)
        ensures { Adds self.old.stack (λ s. with_number kind.now number) self.new.stack }
    {
        self.add(&[
            Token::Text(kind),
            Token::Text("("),
            Token::Number(u64::from(number)),
            Token::Text(")"),
        ])
    }

    /// Adds the name of a definition, or `<missing>` where it has none.
    pub fn add_named(&mut self, def: NamedDef)
        ensures { Adds self.old.stack (λ s. found_name (codes "<missing>") (s.tables.name def))
            self.new.stack }
    {
        self.add(&[Token::LookUp(Lookup::Def(def))])
    }

    /// Adds the name of a type parameter, or its number.
    pub fn add_param_name(&mut self, number: u32, name: Option<&'a Name>)
        ensures { Adds self.old.stack (λ s. type_param_docs s number (Ok (option_copied name.entry)))
            self.new.stack }
    {
        match name {
            None => self.add(&[
                Token::Text("Param["),
                Token::Number(u64::from(number)),
                Token::Text("]"),
            ]),
            Some(name) => self.add(&[Token::Name(name.as_str())]),
        }
    }

    /// Adds a binding.
    pub fn add_binding(&mut self, id: BindingId)
        ensures { Adds self.old.stack (λ s. binding_docs s id) self.new.stack }
    {
        self.add(&[Token::LookUp(Lookup::Binding(id))])
    }
}
