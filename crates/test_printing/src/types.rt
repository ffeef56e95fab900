//! Types, and what a cast to them is printed as.
use crate::cases::{Asked, Case};

pub const TYPES: [Case; 16] = [
    Case {
        nodes: "roots\ntype tuple -\nexpr path x\nexpr cast 0 0\ntype path A\ntype tuple 1\nexpr path x\nexpr cast 2 2\ntype path A\ntype path B\ntype path C\ntype tuple 3,4,5\nexpr path x\nexpr cast 4 6",
        printed: &[
            (Asked::Expr(1), "x as ()"),
            (Asked::Expr(3), "x as (A)"),
            (Asked::Expr(5), "x as (A, B, C)"),
        ],
    },
    Case {
        nodes: "roots\ntype path A\nexpr path x\nexpr cast 0 0\ntype path ::m::A\nexpr path x\nexpr cast 2 1",
        printed: &[(Asked::Expr(1), "x as A"), (Asked::Expr(3), "x as ::m::A")],
    },
    Case {
        nodes: "roots\ntype path A\ntype path Vec::<T0>\nexpr path x\nexpr cast 0 1",
        printed: &[(Asked::Expr(1), "x as Vec::<A>")],
    },
    Case {
        nodes: "roots\ntype path A\ntype raw 0\nexpr path x\nexpr cast 0 1\ntype path A\ntype raw 2 mut\nexpr path x\nexpr cast 2 3",
        printed: &[
            (Asked::Expr(1), "x as *const A"),
            (Asked::Expr(3), "x as *mut A"),
        ],
    },
    Case {
        nodes: "roots\nlifetime named 'a\ntype path A\ntype ref 0 0\nexpr path x\nexpr cast 0 1\nlifetime named 'a\ntype path A\ntype ref 2 1 mut\nexpr path x\nexpr cast 2 3",
        printed: &[
            (Asked::Expr(1), "x as &'a A"),
            (Asked::Expr(3), "x as &'a mut A"),
        ],
    },
    Case {
        nodes: "roots\ntype path A\ntype array 0 0\nexpr path n\nexpr path x\nexpr cast 1 1\ntype path A\ntype array 2 5\nexpr path a\nexpr path b\nexpr bin + 3 4\nexpr path x\nexpr cast 6 3\ntype path A\ntype array 4 8\nexpr block - -\nexpr path x\nexpr cast 9 5",
        printed: &[
            (Asked::Expr(2), "x as [A; n]"),
            (Asked::Expr(7), "x as [A; a + b]"),
            (Asked::Expr(10), "x as [A; {}]"),
        ],
    },
    Case {
        nodes: "roots\ntype path A\ntype slice 0\nexpr path x\nexpr cast 0 1\ntype path A\ntype slice 2\ntype slice 3\nexpr path x\nexpr cast 2 4",
        printed: &[(Asked::Expr(1), "x as [A]"), (Asked::Expr(3), "x as [[A]]")],
    },
    Case {
        nodes: "roots\ntype path C\ntype path A\ntype path B\ntype fn x:1 2 0\nexpr path x\nexpr cast 0 3",
        printed: &[(Asked::Expr(1), "x as fn(A, B) -> C")],
    },
    Case {
        nodes: "roots\ntype path B\ntype path A\ntype fn varargs 1 0\nexpr path x\nexpr cast 0 2",
        printed: &[(Asked::Expr(1), "x as fn(A, ...) -> B")],
    },
    Case {
        nodes: "roots\ntype path A\ntype fn for<'a> 0\nexpr path x\nexpr cast 0 1\ntype path A\ntype fn for<'a,'b,'c> 2\nexpr path x\nexpr cast 2 3",
        printed: &[
            (Asked::Expr(1), "x as for<'a> fn() -> A"),
            (Asked::Expr(3), "x as for<'a, 'b, 'c> fn() -> A"),
        ],
    },
    Case {
        nodes: "roots\ntype path B\ntype path A\ntype fn for<'a> unsafe extern:C varargs 1 0\nexpr path x\nexpr cast 0 2",
        printed: &[(
            Asked::Expr(1),
            "x as for<'a> unsafe extern C fn(A, ...) -> B",
        )],
    },
    Case {
        nodes: "roots\ntype path A\ntype path B\ntype path C\ntype impl T0+?T1+T2\nexpr path x\nexpr cast 0 3",
        printed: &[(Asked::Expr(1), "x as impl A + ?B + C")],
    },
    Case {
        nodes: "roots\ntype dyn -\nexpr path x\nexpr cast 0 0",
        printed: &[(Asked::Expr(1), "x as dyn ")],
    },
    Case {
        nodes: "roots\ntype path A\ntype path B\ntype dyn for<'a,'b>T0+T1\nexpr path x\nexpr cast 0 2",
        printed: &[(Asked::Expr(1), "x as dyn for<'a, 'b> A + B")],
    },
    Case {
        nodes: "roots\nlifetime named 'a\nlifetime static\ntype dyn use<L1,T,L0,U>\nexpr path x\nexpr cast 0 0",
        printed: &[(Asked::Expr(1), "x as dyn use<'static, T, 'a, U>")],
    },
    Case {
        nodes: "roots\ntype path A\ntype dyn error+T0+error\nexpr path x\nexpr cast 0 1",
        printed: &[(Asked::Expr(1), "x as dyn {unknown} + A + {unknown}")],
    },
];
