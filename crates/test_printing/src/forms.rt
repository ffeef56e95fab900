//! Forms that the other cases lack, and what they are printed as.
use crate::cases::{Asked, Case};

pub const FORMS: [Case; 12] = [
    Case {
        nodes: "roots\nexpr missing",
        printed: &[(Asked::Expr(0), "�")],
    },
    Case {
        nodes: "roots\nexpr underscore",
        printed: &[(Asked::Expr(0), "_")],
    },
    Case {
        nodes: "roots\nexpr include-bytes",
        printed: &[(Asked::Expr(0), "include_bytes!(_)")],
    },
    Case {
        nodes: "roots\nexpr continue\nlabel 'l\nexpr continue label:0",
        printed: &[
            (Asked::Expr(0), "continue"),
            (Asked::Expr(1), "continue 'l"),
        ],
    },
    Case {
        nodes: "roots\nexpr path a\nexpr become 0",
        printed: &[(Asked::Expr(1), "become a")],
    },
    Case {
        nodes: "roots\nexpr yield -\nexpr path a\nexpr yield 1",
        printed: &[(Asked::Expr(0), "yield"), (Asked::Expr(2), "yield a")],
    },
    Case {
        nodes: "roots\nexpr yeet -\nexpr path a\nexpr yeet 1",
        printed: &[(Asked::Expr(0), "do yeet"), (Asked::Expr(2), "do yeet a")],
    },
    Case {
        nodes: "roots\nexpr uint 0\nexpr uint 18446744073709551616\nexpr uint 340282366920938463463374607431768211455",
        printed: &[
            (Asked::Expr(0), "0"),
            (Asked::Expr(1), "18446744073709551616"),
            (Asked::Expr(2), "340282366920938463463374607431768211455"),
        ],
    },
    Case {
        nodes: "roots\npat missing\npat rest\npat wild\npat not-null",
        printed: &[
            (Asked::PatInOneLine(0), "�"),
            (Asked::Pat(0), "�"),
            (Asked::PatInOneLine(1), ".."),
            (Asked::Pat(1), ".."),
            (Asked::PatInOneLine(2), "_"),
            (Asked::Pat(2), "_"),
            (Asked::PatInOneLine(3), "!null"),
            (Asked::Pat(3), "!null"),
        ],
    },
    Case {
        nodes: "roots\ntype never\nexpr path x\nexpr cast 0 0\ntype placeholder\nexpr path x\nexpr cast 2 1\ntype error\nexpr path x\nexpr cast 4 2",
        printed: &[
            (Asked::Expr(1), "x as !"),
            (Asked::Expr(3), "x as _"),
            (Asked::Expr(5), "x as {error}"),
        ],
    },
    Case {
        nodes: "roots\nlifetime error\ntype path A\ntype ref 0 0\nexpr path x\nexpr cast 0 1",
        printed: &[(Asked::Expr(1), "x as &'{error} A")],
    },
    Case {
        nodes: "roots\nlifetime static\ntype path A\ntype ref 0 0\nexpr path x\nexpr cast 0 1\nlifetime placeholder\ntype path A\ntype ref 2 1\nexpr path x\nexpr cast 2 3",
        printed: &[
            (Asked::Expr(1), "x as &'static A"),
            (Asked::Expr(3), "x as &'_ A"),
        ],
    },
];
