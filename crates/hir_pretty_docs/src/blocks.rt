//! What is between braces: statements, arms and fields.
#![tactic(auto, using(crate::proofs::AddLemmas::adding))]

ghost use Rattle.std.specs.Prelude.{◌++◌, codes};
ghost use Rattle.hir_pretty_docs.specs.Prelude.{text, arm_docs, field_docs, statement_docs, inside_block, Adds};

use crate::{Part, Token, Tokens};
use hir_node::{ExprId, MatchArm, RecordLitField, Statement};

impl Part for MatchArm {
    ghost docs = { λ s arm. arm_docs arm };

    fn add_to<'a>(&'a self, tokens: &mut Tokens<'a>) {
        tokens.add(&[Token::Pattern(self.pat)]);
        tokens.add_after(" if ", &self.guard);
        tokens.add(&[
            Token::Text(" => "),
            Token::Expr(self.expr),
            Token::Text(","),
            Token::Break,
        ])
    }
}

impl Part for RecordLitField {
    ghost docs = { field_docs };

    fn add_to<'a>(&'a self, tokens: &mut Tokens<'a>) {
        tokens.add(&[
            Token::Name(self.name.as_str()),
            Token::Text(": "),
            Token::Expr(self.expr),
            Token::Text(","),
            Token::Break,
        ])
    }
}

impl Part for Statement {
    ghost docs = { λ s statement. statement_docs statement };

    fn add_to<'a>(&'a self, tokens: &mut Tokens<'a>) {
        match self {
            Statement::Let {
                pat,
                type_ref,
                initializer,
                else_branch,
            } => {
                tokens.add(&[Token::Text("let "), Token::Pattern(*pat)]);
                tokens.add_after(": ", type_ref);
                tokens.add_after(" = ", initializer);
                tokens.add_after(" else ", else_branch);
                tokens.add(&[Token::Text(";"), Token::Break])
            }
            Statement::Expr { expr, has_semi } => {
                tokens.add(&[Token::Expr(*expr)]);
                tokens.add_if(*has_semi, ";");
                tokens.add(&[Token::Break])
            }
            Statement::Item(_) => {}
        }
    }
}

impl<'a> Tokens<'a> {
    /// Adds the braces of a block, and what is between them.
    pub(crate) fn add_braces(&mut self, statements: &'a [Statement], tail: Option<ExprId>)
        ensures { Adds self.old.stack
            (λ s. text (codes "{") ++ inside_block statements.now tail ++ text (codes "}")) self.new.stack }
    {
        let is_bare = statements.is_empty() & tail.is_none();
        if is_bare {
            return self.add(&[Token::Text("{"), Token::Text("}")]);
        }
        self.add(&[Token::Text("{"), Token::Indent]);
        self.add_each(statements, &[]);
        match tail {
            None => {}
            Some(tail) => self.add(&[Token::Expr(tail)]),
        }
        self.add(&[Token::Break, Token::Outdent, Token::Text("}")])
    }
}
