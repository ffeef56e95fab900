//! Precedence of expressions, from the one that binds least to the one that binds tightest.
//! The order is that of the Rust Reference, "Expression precedence".
ghost use Rattle.std.specs.Prelude.{◌≡◌};
ghost use Rattle.hir_collections.specs.Exact.{exact};

use hir_collections::{ExactEq, TryClone};

/// How tightly an expression binds, from low to high.
#[derive(Clone, Copy, PartialEq, Eq)]
pub enum ExprPrecedence {
    /// `return`, `break`, `yield`, closures and the like.
    Jump,
    /// `=` and `+=` and the like.
    Assign,
    /// `..` and `..=`.
    Range,
    /// `||`
    LOr,
    /// `&&`
    LAnd,
    /// `==`, `!=`, `<`, `<=`, `>`, `>=`
    Compare,
    /// `|`
    BitOr,
    /// `^`
    BitXor,
    /// `&`
    BitAnd,
    /// `<<` and `>>`
    Shift,
    /// `+` and `-`
    Sum,
    /// `*`, `/` and `%`
    Product,
    /// `as`
    Cast,
    /// `-`, `*`, `!`, `&`, `let` before an expression.
    Prefix,
    /// Calls, fields, indexes, `.await` and `?` after an expression.
    Postfix,
    /// Paths, literals, blocks and all else that is complete by itself.
    Unambiguous,
}

impl ExprPrecedence {
    ghost use Rattle.hir_base.specs.Precedence.{level, needs_parentheses};

    /// Returns whether an expression of this precedence needs parentheses as a child of one of the
    /// precedence `parent`.
    pub fn needs_parentheses_in(self, parent: ExprPrecedence) -> bool
        ensures { result ≡ needs_parentheses self parent }
    {
        match parent {
            ExprPrecedence::Unambiguous => false,
            ExprPrecedence::Postfix => self.level() < ExprPrecedence::Postfix.level(),
            ExprPrecedence::Prefix => {
                ExprPrecedence::Jump.level() < self.level()
                    && self.level() < ExprPrecedence::Prefix.level()
            }
            ExprPrecedence::Jump
            | ExprPrecedence::Assign
            | ExprPrecedence::Range
            | ExprPrecedence::LOr
            | ExprPrecedence::LAnd
            | ExprPrecedence::Compare
            | ExprPrecedence::BitOr
            | ExprPrecedence::BitXor
            | ExprPrecedence::BitAnd
            | ExprPrecedence::Shift
            | ExprPrecedence::Sum
            | ExprPrecedence::Product
            | ExprPrecedence::Cast => self.level() <= parent.level(),
        }
    }

    // Returns the place in the order, from 0.
    fn level(self) -> u8
        ensures { result ≡ level self }
    {
        self as u8
    }
}

impl ExactEq for ExprPrecedence {
    ghost eq_decides = { Prim.search exact };
}

impl TryClone for ExprPrecedence {
    ghost clone_is_same = { Prim.search exact };
}
