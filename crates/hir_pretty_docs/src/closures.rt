//! What a closure is printed as.
#![tactic(auto, using(crate::proofs::AddLemmas::adding))]

ghost use Rattle.std.specs.Prelude.{◌≡◌};
ghost use Rattle.hir_node.specs.declared.expr.Expr.TheVariants as of_expr;
ghost use Rattle.hir_pretty_docs.specs.Prelude.{comma_joined, closure_head, params, expr_docs, Adds};

use crate::{Token, Tokens};
use hir_node::{CaptureBy, ClosureKind, CoroutineKind, ExprId, Movability, PatId, TypeRefId};

fn closure_head(kind: ClosureKind) -> &'static str
    ensures { result.now ≡ closure_head kind }
{
    match kind {
        ClosureKind::Closure => "",
        ClosureKind::OldCoroutine(Movability::Static) => "static ",
        ClosureKind::OldCoroutine(Movability::Movable) => "",
        ClosureKind::Coroutine { kind, source: _ } | ClosureKind::CoroutineClosure(kind) => {
            match kind {
                CoroutineKind::Async => "async ",
                CoroutineKind::Gen => "gen ",
                CoroutineKind::AsyncGen => "async gen ",
            }
        }
    }
}

impl<'a> Tokens<'a> {
    /// Adds parameters with their types, as many as both lists have.
    fn add_params(&mut self, args: &'a [PatId], types: &'a [Option<TypeRefId>])
        ensures { Adds self.old.stack
            (λ s. comma_joined (params args.now types.now)) self.new.stack }
    {
        let mut types = types;
        let mut after = false;
        for arg in args {
            let [type_ref, others @ ..] = types else {
                return;
            };
            self.add_if(after, ", ");
            self.add(&[Token::Pattern(*arg)]);
            self.add_after(": ", type_ref);
            types = others;
            after = true;
        }
    }

    /// Adds what a closure is printed as.
    pub(crate) fn add_closure(
        &mut self,
        args: &'a [PatId],
        arg_types: &'a [Option<TypeRefId>],
        ret_type: &'a Option<TypeRefId>,
        body: ExprId,
        kind: ClosureKind,
        capture: CaptureBy,
    )
        ensures { Adds self.old.stack (λ s. expr_docs s
            (of_expr.Closure args.now arg_types.now ret_type.now body kind capture)) self.new.stack }
    {
        let capture_keyword = match capture {
            CaptureBy::Value => "move ",
            CaptureBy::Ref => "",
        };
        self.add(&[
            Token::Text(closure_head(kind)),
            Token::Text(capture_keyword),
        ]);
        match kind {
            ClosureKind::Closure
            | ClosureKind::OldCoroutine(_)
            | ClosureKind::CoroutineClosure(_) => {
                self.add(&[Token::Text("|")]);
                self.add_params(args, arg_types);
                self.add(&[Token::Text("|")]);
                self.add_after(" -> ", ret_type);
                self.add(&[Token::Space])
            }
            // A coroutine has neither parameters nor the type of a result.
            ClosureKind::Coroutine { kind: _, source: _ } => {}
        }
        match kind {
            ClosureKind::Closure
            | ClosureKind::OldCoroutine(_)
            | ClosureKind::Coroutine { kind: _, source: _ } => self.add(&[Token::Expr(body)]),
            // The body of a coroutine closure is a coroutine, whose own body is printed.
            ClosureKind::CoroutineClosure(_) => self.add(&[Token::CoroutineBody(body)]),
        }
    }
}
