//! The texts of operators and of the suffixes of numbers, as the Rust Reference has them under "Tokens".
ghost use Rattle.std.specs.Prelude.{◌≡◌};
ghost use Rattle.hir_base.specs.OpTexts.{arith_text, logic_text, cmp_text, ordering_text, equality_text, assignment_text, binary_text, range_text, unary_text, int_text, uint_text, float_text};

use crate::{
    ArithOp, BinaryOp, BuiltinFloat, BuiltinInt, BuiltinUint, CmpOp, LogicOp, Ordering, RangeOp,
    UnaryOp,
};

impl ArithOp {
    /// Returns the operator as it is written, like `<<`.
    pub fn as_str(self) -> &'static str
        ensures { result.now ≡ arith_text self }
    {
        match self {
            ArithOp::Add => "+",
            ArithOp::Sub => "-",
            ArithOp::Mul => "*",
            ArithOp::Div => "/",
            ArithOp::Rem => "%",
            ArithOp::Shl => "<<",
            ArithOp::Shr => ">>",
            ArithOp::BitXor => "^",
            ArithOp::BitOr => "|",
            ArithOp::BitAnd => "&",
        }
    }
}

impl LogicOp {
    /// `&&` or `||`.
    pub fn as_str(self) -> &'static str
        ensures { result.now ≡ logic_text self }
    {
        match self {
            LogicOp::And => "&&",
            LogicOp::Or => "||",
        }
    }
}

impl CmpOp {
    /// Returns the comparison as it is written, like `<=`.
    pub fn as_str(self) -> &'static str
        ensures { result.now ≡ cmp_text self }
    {
        match self {
            CmpOp::Eq { negated } => equality(negated),
            CmpOp::Ord { ordering, strict } => comparison(ordering, strict),
        }
    }
}

fn equality(negated: bool) -> &'static str
    ensures { result.now ≡ equality_text negated }
{
    if negated { "!=" } else { "==" }
}

fn comparison(ordering: Ordering, strict: bool) -> &'static str
    ensures { result.now ≡ ordering_text ordering strict }
{
    match ordering {
        Ordering::Less => { if strict { "<" } else { "<=" } }
        Ordering::Greater => { if strict { ">" } else { ">=" } }
    }
}

impl BinaryOp {
    /// Returns the operator as it is written between two expressions, like `+` or `+=`.
    pub fn as_str(self) -> &'static str
        ensures { result.now ≡ binary_text self }
    {
        match self {
            BinaryOp::LogicOp(op) => op.as_str(),
            BinaryOp::ArithOp(op) => op.as_str(),
            BinaryOp::CmpOp(op) => op.as_str(),
            BinaryOp::Assignment { op } => assignment(op),
        }
    }
}

fn assignment(op: Option<ArithOp>) -> &'static str
    ensures { result.now ≡ assignment_text op }
{
    match op {
        None => "=",
        Some(op) => compound_assignment(op),
    }
}

fn compound_assignment(op: ArithOp) -> &'static str
    ensures { result.now ≡ assignment_text (Some op) }
{
    match op {
        ArithOp::Add => "+=",
        ArithOp::Sub => "-=",
        ArithOp::Mul => "*=",
        ArithOp::Div => "/=",
        ArithOp::Rem => "%=",
        ArithOp::Shl => "<<=",
        ArithOp::Shr => ">>=",
        ArithOp::BitXor => "^=",
        ArithOp::BitOr => "|=",
        ArithOp::BitAnd => "&=",
    }
}

impl RangeOp {
    /// `..` or `..=`.
    pub fn as_str(self) -> &'static str
        ensures { result.now ≡ range_text self }
    {
        match self {
            RangeOp::Exclusive => "..",
            RangeOp::Inclusive => "..=",
        }
    }
}

impl UnaryOp {
    /// Returns the operator as it is written before an expression.
    pub fn as_str(self) -> &'static str
        ensures { result.now ≡ unary_text self }
    {
        match self {
            UnaryOp::Deref => "*",
            UnaryOp::Not => "!",
            UnaryOp::Neg => "-",
        }
    }
}

impl BuiltinInt {
    /// Returns the type's name, which is also the suffix of its literals.
    pub fn as_str(self) -> &'static str
        ensures { result.now ≡ int_text self }
    {
        match self {
            BuiltinInt::Isize => "isize",
            BuiltinInt::I8 => "i8",
            BuiltinInt::I16 => "i16",
            BuiltinInt::I32 => "i32",
            BuiltinInt::I64 => "i64",
            BuiltinInt::I128 => "i128",
        }
    }
}

impl BuiltinUint {
    /// Returns the type's name, which is also the suffix of its literals.
    pub fn as_str(self) -> &'static str
        ensures { result.now ≡ uint_text self }
    {
        match self {
            BuiltinUint::Usize => "usize",
            BuiltinUint::U8 => "u8",
            BuiltinUint::U16 => "u16",
            BuiltinUint::U32 => "u32",
            BuiltinUint::U64 => "u64",
            BuiltinUint::U128 => "u128",
        }
    }
}

impl BuiltinFloat {
    /// Returns the type's name, which is also the suffix of its literals.
    pub fn as_str(self) -> &'static str
        ensures { result.now ≡ float_text self }
    {
        match self {
            BuiltinFloat::F16 => "f16",
            BuiltinFloat::F32 => "f32",
            BuiltinFloat::F64 => "f64",
            BuiltinFloat::F128 => "f128",
        }
    }
}
