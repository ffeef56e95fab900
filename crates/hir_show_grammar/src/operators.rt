//! Operators as they are written in a line.

ghost use Rattle.std.specs.Prelude.{◌≡◌};
ghost use Rattle.hir_show_grammar.specs.Operators.{op_of};
ghost use Rattle.hir_base.specs.declared.operators.CmpOp.TheVariants.{Ord};
ghost use Rattle.hir_base.specs.declared.operators.BinaryOp.TheVariants.{CmpOp as Cmp, Assignment};

use hir_base::{ArithOp, BinaryOp, CmpOp, LogicOp, Ordering};

/// The operator between two expressions that a text is, if it is one.
#[tactic(auto, unfolding(crate::specs::Operators::op_of))]
pub fn op(text: &[u8]) -> Option<BinaryOp>
    ensures { result ≡ op_of text.now }
{
    let op = match text {
        b"||" => BinaryOp::LogicOp(LogicOp::Or),
        b"&&" => BinaryOp::LogicOp(LogicOp::And),
        b"==" => BinaryOp::CmpOp(CmpOp::Eq { negated: false }),
        b"!=" => BinaryOp::CmpOp(CmpOp::Eq { negated: true }),
        b"<" => order(Ordering::Less, true),
        b"<=" => order(Ordering::Less, false),
        b">" => order(Ordering::Greater, true),
        b">=" => order(Ordering::Greater, false),
        b"+" => BinaryOp::ArithOp(ArithOp::Add),
        b"-" => BinaryOp::ArithOp(ArithOp::Sub),
        b"*" => BinaryOp::ArithOp(ArithOp::Mul),
        b"/" => BinaryOp::ArithOp(ArithOp::Div),
        b"%" => BinaryOp::ArithOp(ArithOp::Rem),
        b"<<" => BinaryOp::ArithOp(ArithOp::Shl),
        b">>" => BinaryOp::ArithOp(ArithOp::Shr),
        b"^" => BinaryOp::ArithOp(ArithOp::BitXor),
        b"|" => BinaryOp::ArithOp(ArithOp::BitOr),
        b"&" => BinaryOp::ArithOp(ArithOp::BitAnd),
        b"=" => BinaryOp::Assignment { op: None },
        b"+=" => assign(ArithOp::Add),
        b"-=" => assign(ArithOp::Sub),
        b"*=" => assign(ArithOp::Mul),
        b"/=" => assign(ArithOp::Div),
        b"%=" => assign(ArithOp::Rem),
        b"<<=" => assign(ArithOp::Shl),
        b">>=" => assign(ArithOp::Shr),
        b"^=" => assign(ArithOp::BitXor),
        b"|=" => assign(ArithOp::BitOr),
        b"&=" => assign(ArithOp::BitAnd),
        _ => return None,
    };
    Some(op)
}

fn order(ordering: Ordering, strict: bool) -> BinaryOp
    ensures { result ≡ Cmp (Ord ordering strict) }
{
    BinaryOp::CmpOp(CmpOp::Ord { ordering, strict })
}

fn assign(op: ArithOp) -> BinaryOp
    ensures { result ≡ Assignment (Some op) }
{
    BinaryOp::Assignment { op: Some(op) }
}
