//! A visitor that compares each call with the next one that is wanted. It takes no memory, and no call is
//! compared as a whole: a derived comparison is dear to prove.
use hir_node::{ExprId, LifetimeRefId, PatId, StoreVisitor, TypeRefId};

/// A call of a visitor.
pub enum Call {
    Expr(u32),
    AnonConst(u32),
    Pat(u32),
    Type(u32),
    Lifetime(u32),
}

#[derive(Drop)]
pub struct CallList<'a> {
    left: &'a [Call],
    differs: bool,
}

impl<'a> CallList<'a> {
    pub fn new(calls: &'a [Call]) -> CallList<'a> {
        CallList {
            left: calls,
            differs: false,
        }
    }

    /// The next call that is wanted.
    fn next(&mut self) -> Option<&'a Call> {
        match self.left.split_first() {
            None => None,
            Some((first, rest)) => {
                self.left = rest;
                Some(first)
            }
        }
    }

    /// Notes whether the call was the one that was wanted.
    fn note(&mut self, is_wanted: bool) {
        self.differs = self.differs | !is_wanted;
    }

    /// Whether the calls were those that were wanted.
    pub fn all_met(&self) -> bool {
        self.left.is_empty() && !self.differs
    }
}

impl StoreVisitor for CallList<'_> {
    ghost step = { λ _ _ _. Unit {0} };

    fn on_expr(&mut self, expr: ExprId) {
        let is_wanted = match self.next() {
            Some(Call::Expr(number)) => *number == expr.into_raw(),
            _ => false,
        };
        self.note(is_wanted);
    }

    fn on_anon_const_expr(&mut self, expr: ExprId) {
        let is_wanted = match self.next() {
            Some(Call::AnonConst(number)) => *number == expr.into_raw(),
            _ => false,
        };
        self.note(is_wanted);
    }

    fn on_pat(&mut self, pat: PatId) {
        let is_wanted = match self.next() {
            Some(Call::Pat(number)) => *number == pat.into_raw(),
            _ => false,
        };
        self.note(is_wanted);
    }

    fn on_type(&mut self, type_ref: TypeRefId) {
        let is_wanted = match self.next() {
            Some(Call::Type(number)) => *number == type_ref.into_raw(),
            _ => false,
        };
        self.note(is_wanted);
    }

    fn on_lifetime(&mut self, lifetime: LifetimeRefId) {
        let is_wanted = match self.next() {
            Some(Call::Lifetime(number)) => *number == lifetime.into_raw(),
            _ => false,
        };
        self.note(is_wanted);
    }
}
