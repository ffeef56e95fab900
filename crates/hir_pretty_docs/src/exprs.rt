//! What an expression is printed as.
#![tactic(auto, using(crate::proofs::AddLemmas::adding))]

ghost use Rattle.std.specs.Prelude.{◌++◌};
ghost use Rattle.hir_node.specs.declared.expr.Expr.TheVariants as of_expr;
ghost use Rattle.hir_pretty_docs.specs.Prelude.{text, operand, arguments, ending_docs, exprs_docs, array_docs, expr_docs, Adds};

use crate::{Ending, Part, Token, Tokens};
use hir_base::{ExprPrecedence, Name};
use hir_collections::Boxed;
use hir_node::{
    Array, Expr, ExprId, GenericArgs, MatchArm, Path, Rawness, RecordLitField, RecordSpread, Unsafe,
};

impl<'a> Tokens<'a> {
    /// Adds what comes after a keyword such as `return`.
    fn add_operand(&mut self, expr: Option<ExprId>)
        ensures { Adds self.old.stack (λ s. operand expr) self.new.stack }
    {
        match expr {
            None => {}
            Some(expr) => self.add(&[Token::Space, Token::ExprIn(expr, ExprPrecedence::Jump)]),
        }
    }

    fn add_keyword(&mut self, keyword: &'a str, expr: Option<ExprId>)
        ensures { Adds self.old.stack (λ s. text keyword.now ++ operand expr) self.new.stack }
    {
        self.add(&[Token::Text(keyword)]);
        self.add_operand(expr)
    }

    /// Adds expressions, each with its ending. They wait together, so that a list takes no more memory than
    /// one expression.
    fn add_exprs(&mut self, ending: Ending, exprs: &'a [ExprId])
        ensures { Adds self.old.stack (λ s. exprs_docs ending exprs.now) self.new.stack }
    {
        match exprs {
            [] => {}
            [first, others @ ..] => self.add(&[Token::ExprList(ending, *first, others)]),
        }
    }

    /// Adds the ending of the first of expressions, and the others.
    pub fn add_others(&mut self, ending: Ending, others: &'a [ExprId])
        ensures { Adds self.old.stack
            (λ s. ending_docs ending ++ exprs_docs ending others.now) self.new.stack }
    {
        match ending {
            Ending::Comma => self.add(&[Token::Text(", ")]),
            Ending::Line => self.add(&[Token::Text(","), Token::Break]),
        }
        self.add_exprs(ending, others)
    }

    /// Adds arguments in parentheses, each on a line of its own.
    fn add_arguments(&mut self, args: &'a [ExprId])
        ensures { Adds self.old.stack (λ s. arguments args.now) self.new.stack }
    {
        if args.is_empty() {
            return self.add(&[Token::Text("("), Token::Text(")")]);
        }
        self.add(&[Token::Text("("), Token::Indent]);
        self.add_exprs(Ending::Line, args);
        self.add(&[Token::Outdent, Token::Text(")")])
    }

    // This and `add_match` are called once, for speed: within `add_expr` they make its frame larger, and a print
    // takes 3 % more instructions.
    fn add_method_call(
        &mut self,
        receiver: ExprId,
        name: &'a Name,
        args: &'a [ExprId],
        generic_args: &'a Option<Boxed<GenericArgs>>,
    )
        ensures { Adds self.old.stack
            (λ s. expr_docs s (of_expr.MethodCall receiver name.now args.now generic_args.now))
            self.new.stack }
    {
        self.add(&[
            Token::ExprIn(receiver, ExprPrecedence::Postfix),
            Token::Text("."),
            Token::Name(name.as_str()),
        ]);
        self.add_turbofish(generic_args.as_ref().map(Boxed::get));
        self.add_arguments(args)
    }

    fn add_match(&mut self, expr: ExprId, arms: &'a [MatchArm])
        ensures { Adds self.old.stack
            (λ s. expr_docs s (of_expr.Match expr arms.now)) self.new.stack }
    {
        self.add(&[
            Token::Text("match "),
            Token::Expr(expr),
            Token::Text(" {"),
            Token::Indent,
        ]);
        self.add_each(arms, &[]);
        self.add(&[Token::Outdent, Token::Text("}"), Token::Break])
    }

    fn add_record_lit(&mut self, path: &'a Path, fields: &'a [RecordLitField], spread: RecordSpread)
        ensures { Adds self.old.stack
            (λ s. expr_docs s (of_expr.RecordLit path.now fields.now spread)) self.new.stack }
    {
        self.add_path(path);
        self.add(&[Token::Text("{"), Token::Indent]);
        self.add_each(fields, &[]);
        match spread {
            RecordSpread::None => {}
            RecordSpread::FieldDefaults => self.add(&[Token::Text(".."), Token::Break]),
            RecordSpread::Expr(expr) => {
                self.add(&[Token::Text(".."), Token::Expr(expr), Token::Break])
            }
        }
        self.add(&[Token::Outdent, Token::Text("}")])
    }

    fn add_array(&mut self, array: &'a Array)
        ensures { Adds self.old.stack (λ s. array_docs array.now) self.new.stack }
    {
        match array {
            Array::ElementList { elements } => {
                if elements.is_empty() {
                    return self.add(&[Token::Text("[]")]);
                }
                self.add(&[Token::Text("["), Token::Indent]);
                self.add_exprs(Ending::Comma, elements.as_slice());
                self.add(&[Token::Outdent, Token::Break, Token::Text("]")])
            }
            Array::Repeat {
                initializer,
                repeat,
            } => self.add(&[
                Token::Text("["),
                Token::Indent,
                Token::Expr(*initializer),
                Token::Text("; "),
                Token::Expr(*repeat),
                Token::Outdent,
                Token::Break,
                Token::Text("]"),
            ]),
        }
    }

    /// Adds what an expression is printed as.
    pub fn add_expr(&mut self, expr: &'a Expr)
        ensures { Adds self.old.stack (λ s. expr_docs s expr.now) self.new.stack }
    {
        match expr {
            Expr::Missing => self.add(&[Token::Text("\u{fffd}")]),
            Expr::Underscore => self.add(&[Token::Text("_")]),
            Expr::IncludeBytes => self.add(&[Token::Text("include_bytes!(_)")]),
            Expr::OffsetOf(offset) => {
                self.add(&[
                    Token::Text("builtin#offset_of("),
                    Token::Type(offset.container),
                    Token::Text(", "),
                ]);
                self.add_joined(".", offset.fields.as_slice());
                self.add(&[Token::Text(")")])
            }
            Expr::If {
                condition,
                then_branch,
                else_branch,
            } => {
                self.add(&[
                    Token::Text("if "),
                    Token::Expr(*condition),
                    Token::Text(" "),
                    Token::Expr(*then_branch),
                ]);
                self.add_after(" else ", else_branch)
            }
            Expr::Let { pat, expr } => self.add(&[
                Token::Text("let "),
                Token::Pattern(*pat),
                Token::Text(" = "),
                Token::ExprIn(*expr, ExprPrecedence::Prefix),
            ]),
            Expr::Loop {
                body,
                label,
                source: _,
            } => {
                self.add_before(label, ": ");
                self.add(&[Token::Text("loop "), Token::Expr(*body)])
            }
            Expr::Call { callee, args } => {
                self.add(&[Token::ExprIn(*callee, ExprPrecedence::Postfix)]);
                self.add_arguments(args.as_slice())
            }
            Expr::MethodCall {
                receiver,
                method_name,
                args,
                generic_args,
            } => self.add_method_call(*receiver, method_name, args.as_slice(), generic_args),
            Expr::Match { expr, arms } => self.add_match(*expr, arms.as_slice()),
            Expr::Continue { label } => {
                self.add(&[Token::Text("continue")]);
                self.add_after(" ", label)
            }
            Expr::Break { expr, label } => {
                self.add(&[Token::Text("break")]);
                self.add_after(" ", label);
                self.add_operand(*expr)
            }
            Expr::Return { expr } => self.add_keyword("return", *expr),
            Expr::Become { expr } => self.add_keyword("become", Some(*expr)),
            Expr::Yield { expr } => self.add_keyword("yield", *expr),
            Expr::Yeet { expr } => {
                self.add(&[Token::Text("do"), Token::Space]);
                self.add_keyword("yeet", *expr)
            }
            Expr::RecordLit {
                path,
                fields,
                spread,
            } => self.add_record_lit(path, fields.get().as_slice(), *spread),
            Expr::Field { expr, name } => self.add(&[
                Token::ExprIn(*expr, ExprPrecedence::Postfix),
                Token::Text("."),
                Token::Name(name.as_str()),
            ]),
            Expr::Await { expr } => self.add(&[
                Token::ExprIn(*expr, ExprPrecedence::Postfix),
                Token::Text(".await"),
            ]),
            Expr::Cast { expr, type_ref } => self.add(&[
                Token::ExprIn(*expr, ExprPrecedence::Cast),
                Token::Text(" as "),
                Token::Type(*type_ref),
            ]),
            Expr::Ref {
                expr,
                rawness,
                mutability,
            } => {
                let raw_keyword = match rawness {
                    Rawness::RawPtr => "raw ",
                    Rawness::Ref => "",
                };
                self.add(&[
                    Token::Text("&"),
                    Token::Text(raw_keyword),
                    Token::Text(mutability.as_keyword_for_ref()),
                    Token::ExprIn(*expr, ExprPrecedence::Prefix),
                ])
            }
            Expr::UnaryOp { expr, op } => self.add(&[
                Token::Text(op.as_str()),
                Token::ExprIn(*expr, ExprPrecedence::Prefix),
            ]),
            Expr::BinaryOp { lhs, rhs, op } => self.add(&[
                Token::ExprIn(*lhs, expr.precedence()),
                Token::Space,
                Token::Text(op.map_or("\u{fffd}", |op| op.as_str())),
                Token::Space,
                Token::ExprIn(*rhs, expr.precedence()),
            ]),
            Expr::Index { base, index } => self.add(&[
                Token::ExprIn(*base, ExprPrecedence::Postfix),
                Token::Text("["),
                Token::Expr(*index),
                Token::Text("]"),
            ]),
            Expr::Tuple { exprs } => {
                self.add(&[Token::Text("(")]);
                self.add_exprs(Ending::Comma, exprs.as_slice());
                self.add(&[Token::Text(")")])
            }
            Expr::Array(array) => self.add_array(array),
            Expr::Const(id) => {
                self.add(&[Token::Text("const { /* ")]);
                self.add_numbered("ExprId", id.into_raw());
                self.add(&[Token::Text(" */ }")])
            }
            Expr::Assignment { target, value } => self.add(&[
                Token::Pattern(*target),
                Token::Text(" = "),
                Token::ExprIn(*value, ExprPrecedence::Assign),
            ]),
            Expr::Block {
                id: _,
                statements,
                tail,
                label,
                unsafe_,
            } => {
                self.add(&[Token::Space]);
                self.add_before(label, ": ");
                self.add_if(*unsafe_ == Unsafe::Yes, "unsafe ");
                self.add_braces(statements.as_slice(), *tail)
            }
            Expr::Closure {
                args,
                arg_types,
                ret_type,
                body,
                closure_kind,
                capture_by,
            } => self.add_closure(
                args.as_slice(),
                arg_types.as_slice(),
                ret_type,
                *body,
                *closure_kind,
                *capture_by,
            ),
            Expr::Literal(literal) => self.add(&[Token::Literal(literal)]),
            Expr::Path(path) => self.add_path(path),
        }
    }
}
