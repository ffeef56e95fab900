//! What a pattern is printed as.
#![tactic(auto, using(crate::proofs::AddLemmas::adding))]

ghost use Rattle.hir_node.specs.declared.pat.Pat.TheVariants as of_pat;
ghost use Rattle.hir_base.specs.declared.prec.ExprPrecedence.TheVariants.{Shift};
ghost use Rattle.hir_pretty_docs.specs.Prelude.{opt, under, in_parentheses, pat_docs, Adds};

use crate::{Token, Tokens};
use hir_base::ExprPrecedence;
use hir_node::{ExprId, Pat, PatId, Path, RecordFieldPat};

impl<'a> Tokens<'a> {
    fn add_record_pat(&mut self, path: &'a Path, fields: &'a [RecordFieldPat], rest: bool)
        ensures { Adds self.old.stack (λ s. pat_docs s (of_pat.Record rest path.now fields.now))
            self.new.stack }
    {
        self.add_path(path);
        self.add(&[Token::Text(" {"), Token::Indent]);
        let mut left = fields;
        while let [field, others @ ..] = left {
            self.add(&[Token::FieldPat(field)]);
            if rest | !others.is_empty() {
                self.add(&[Token::Text(","), Token::Break]);
            } else {
                self.add(&[Token::LastFieldEnd]);
            }
            left = others;
        }
        if rest {
            self.add(&[Token::Text(".."), Token::Break]);
        }
        self.add(&[Token::Outdent, Token::Text("}")])
    }

    /// Adds patterns in parentheses, with `..` before the one in this place, or after all.
    fn add_in_parentheses(&mut self, pats: &'a [PatId], rest: Option<u32>)
        ensures { Adds self.old.stack (λ s. in_parentheses rest pats.now) self.new.stack }
    {
        self.add(&[Token::Text("(")]);
        match rest {
            None => self.add_joined(", ", pats),
            Some(at) => {
                let left = pats.len().saturating_sub(at as usize);
                let (before, trailer) = pats.split_at(pats.len() - left);
                self.add_joined(", ", before);
                self.add_if(!before.is_empty(), ", ");
                self.add(&[Token::Text("..")]);
                self.add_list(true, ", ", trailer)
            }
        }
        self.add(&[Token::Text(")")])
    }

    /// Adds an expression in a pattern, where there is one.
    fn add_in_pat(&mut self, expr: Option<ExprId>)
        ensures { Adds self.old.stack (λ s. opt (under Shift) expr) self.new.stack }
    {
        match expr {
            None => {}
            Some(expr) => self.add(&[Token::ExprIn(expr, ExprPrecedence::Shift)]),
        }
    }

    /// Adds what a pattern is printed as.
    pub fn add_pat(&mut self, pat: &'a Pat)
        ensures { Adds self.old.stack (λ s. pat_docs s pat.now) self.new.stack }
    {
        match pat {
            Pat::Missing => self.add(&[Token::Text("\u{fffd}")]),
            Pat::Rest => self.add(&[Token::Text("..")]),
            Pat::Wild => self.add(&[Token::Text("_")]),
            Pat::NotNull => self.add(&[Token::Text("!null")]),
            Pat::Tuple { args, ellipsis } => self.add_in_parentheses(args.as_slice(), *ellipsis),
            Pat::Or(args) => {
                self.add(&[Token::Text("(")]);
                self.add_joined(" | ", args.as_slice());
                self.add(&[Token::Text(")")])
            }
            Pat::Record {
                path,
                args,
                ellipsis,
            } => self.add_record_pat(path, args.as_slice(), *ellipsis),
            Pat::Range {
                start,
                end,
                range_type,
            } => {
                self.add_in_pat(*start);
                self.add(&[Token::Text(range_type.as_str())]);
                self.add_in_pat(*end)
            }
            Pat::Slice {
                prefix,
                slice,
                suffix,
            } => {
                self.add(&[Token::Text("[")]);
                self.add_each(prefix.as_slice(), &[Token::Text(", ")]);
                self.add_before(slice, ", ");
                self.add_each(suffix.as_slice(), &[Token::Text(", ")]);
                self.add(&[Token::Text("]")])
            }
            Pat::Path(path) => self.add_path(path),
            Pat::Lit(expr) | Pat::Expr(expr) => self.add_in_pat(Some(*expr)),
            Pat::Bind { id, subpat } => {
                self.add_binding(*id);
                match subpat {
                    None => {}
                    Some(subpat) => {
                        self.add(&[Token::Space, Token::Text("@ "), Token::Pattern(*subpat)])
                    }
                }
            }
            Pat::TupleStruct {
                path,
                args,
                ellipsis,
            } => {
                self.add_path(path);
                self.add_in_parentheses(args.as_slice(), *ellipsis)
            }
            Pat::Ref { pat, mutability } => self.add(&[
                Token::Text("&"),
                Token::Text(mutability.as_keyword_for_ref()),
                Token::Pattern(*pat),
            ]),
            Pat::Box { inner } => self.add(&[Token::Text("box "), Token::Pattern(*inner)]),
            Pat::Deref { inner } => self.add(&[
                Token::Text("deref!("),
                Token::Pattern(*inner),
                Token::Text(")"),
            ]),
        }
    }
}
