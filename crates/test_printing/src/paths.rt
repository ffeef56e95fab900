//! Paths and generic arguments, and what they are printed as.
use crate::cases::{Asked, Case};

pub const PATHS: [Case; 44] = [
    Case {
        nodes: "",
        printed: &[(Asked::Path("-"), "")],
    },
    Case {
        nodes: "",
        printed: &[(Asked::Path("a"), "a"), (Asked::Path("a::b::c"), "a::b::c")],
    },
    Case {
        nodes: "",
        printed: &[
            (Asked::Path("self"), "self"),
            (Asked::Path("self::a"), "self::a"),
        ],
    },
    Case {
        nodes: "",
        printed: &[
            (Asked::Path("super"), "super"),
            (Asked::Path("super::a::b"), "super::a::b"),
        ],
    },
    Case {
        nodes: "",
        printed: &[
            (Asked::Path("super(3)"), "super::super::super"),
            (Asked::Path("super(3)::a"), "super::super::super::a"),
        ],
    },
    Case {
        nodes: "",
        printed: &[
            (Asked::Path("crate"), "crate"),
            (Asked::Path("crate::a::b"), "crate::a::b"),
        ],
    },
    Case {
        nodes: "",
        printed: &[(Asked::Path("::"), ""), (Asked::Path("::a::b"), "::a::b")],
    },
    Case {
        nodes: "",
        printed: &[(Asked::Path("~-"), "")],
    },
    Case {
        nodes: "",
        printed: &[
            (Asked::Path("~a::b"), "a::b"),
            (Asked::Path("~super(2)::a"), "super::super::a"),
        ],
    },
    Case {
        nodes: "type path A",
        printed: &[(Asked::Path("crate::a::<T0>"), "crate::a::<A>")],
    },
    Case {
        nodes: "type path A",
        printed: &[(Asked::Path("::a::<T0>::b"), "::a::<A>::b")],
    },
    Case {
        nodes: "type path A",
        printed: &[(Asked::Path("<0>"), "<A>::")],
    },
    Case {
        nodes: "type path A",
        printed: &[(Asked::Path("<0>::a"), "<A>::a")],
    },
    Case {
        nodes: "type path A\ntype tuple 2,3\ntype path D\ntype path E",
        printed: &[(Asked::Path("<1>::a::b::<T0>"), "<(D, E)>::a::b::<A>")],
    },
    Case {
        nodes: "type path A",
        printed: &[(Asked::Path("<0>::crate::a"), "<A>::::a")],
    },
    Case {
        nodes: "type path A",
        printed: &[(Asked::Path("<0>::$crate(7)"), "<A>::")],
    },
    Case {
        nodes: "",
        printed: &[(Asked::Path("a::<>"), "a::<>")],
    },
    Case {
        nodes: "type path A",
        printed: &[(Asked::Path("a::<T0>::b"), "a::<A>::b")],
    },
    Case {
        nodes: "type path A\ntype path B",
        printed: &[(Asked::Path("a::b::<T0>::c::<T1>"), "a::b::<A>::c::<B>")],
    },
    Case {
        nodes: "roots\nlifetime named 'a\ntype path A\nexpr path n",
        printed: &[(Asked::Path("a::<L0,T0,C0>"), "a::<'a, A, n>")],
    },
    Case {
        nodes: "lifetime static",
        printed: &[(Asked::Path("a::<L0>"), "a::<'static>")],
    },
    Case {
        nodes: "type path A\ntype tuple 2,3\ntype path D\ntype path E",
        printed: &[(Asked::Path("a::<T0,T1>"), "a::<A, (D, E)>")],
    },
    Case {
        nodes: "roots\nexpr path a\nexpr path b\nexpr bin + 0 1",
        printed: &[(Asked::Path("a::<C2>"), "a::<a + b>")],
    },
    Case {
        nodes: "roots\nexpr block - -",
        printed: &[(Asked::Path("a::<C0>"), "a::< {}>")],
    },
    Case {
        nodes: "roots\ntype path A\nexpr block - -",
        printed: &[(Asked::Path("a::<T0,C0>"), "a::<A, {}>")],
    },
    Case {
        nodes: "type path A",
        printed: &[(Asked::Path("a::<self;T0>"), "a::<Self=A>")],
    },
    Case {
        nodes: "type path A\ntype path B",
        printed: &[(Asked::Path("a::<self;T0,T1>"), "a::<Self=A, B>")],
    },
    Case {
        nodes: "type path A\ntype path B",
        printed: &[(Asked::Path("a::<self;T0,Item=T1>"), "a::<Self=A, Item = B>")],
    },
    Case {
        nodes: "type path A",
        printed: &[(Asked::Path("a::<rtn;T0>"), "a::<A>")],
    },
    Case {
        nodes: "",
        printed: &[(Asked::Path("a::<paren;>"), "a::<>")],
    },
    Case {
        nodes: "",
        printed: &[(Asked::Path("a::<Item>"), "a::<Item>")],
    },
    Case {
        nodes: "type path A",
        printed: &[(Asked::Path("a::<Item=T0>"), "a::<Item = A>")],
    },
    Case {
        nodes: "type path A",
        printed: &[(Asked::Path("a::<Item:T0>"), "a::<Item: A>")],
    },
    Case {
        nodes: "lifetime named 'a\ntype path A",
        printed: &[(Asked::Path("a::<Item:T0+L0>"), "a::<Item: A + 'a>")],
    },
    Case {
        nodes: "type path A\ntype path B",
        printed: &[(Asked::Path("a::<Item:?T0=T1>"), "a::<Item: ?A = B>")],
    },
    Case {
        nodes: "",
        printed: &[(Asked::Path("a::<Item::<>>"), "a::<Item::<>>")],
    },
    Case {
        nodes: "type path A\ntype path B",
        printed: &[(Asked::Path("a::<Item::<T0>=T1>"), "a::<Item::<A> = B>")],
    },
    Case {
        nodes: "lifetime named 'a\ntype path A\ntype path B\ntype path C",
        printed: &[(
            Asked::Path("a::<Item::<L0,T0>:T1=T2>"),
            "a::<Item::<'a, A>: B = C>",
        )],
    },
    Case {
        nodes: "type path A\ntype path B\ntype path C",
        printed: &[(
            Asked::Path("a::<Item::<T0,In=T1>=T2>"),
            "a::<Item::<A, In = B> = C>",
        )],
    },
    Case {
        nodes: "type path A\ntype path B",
        printed: &[(
            Asked::Path("a::<Item::<In=T0,On=T1>>"),
            "a::<Item::<In = A, On = B>>",
        )],
    },
    Case {
        nodes: "type path A\ntype path B\ntype path C",
        printed: &[(
            Asked::Path("a::<T0,Item=T1,Other=T2>"),
            "a::<A, Item = B, Other = C>",
        )],
    },
    Case {
        nodes: "",
        printed: &[(Asked::Path("a::<Item,B,C>"), "a::<Item, B, C>")],
    },
    Case {
        nodes: "type path A\ntype path B",
        printed: &[(Asked::Path("a::<T0,T1,Item>"), "a::<A, B, Item>")],
    },
    Case {
        nodes: "type path A\ntype path B\ntype path C\ntype tuple 0,1",
        printed: &[(
            Asked::Path("Fn::<paren;T3,Output=T2>"),
            "Fn::<(A, B), Output = C>",
        )],
    },
];
