//! Nodes that name definitions without an entry in tables, and which of them is missing first.
use crate::cases::{Asked, Case};

pub const MISSING: [Case; 30] = [
    Case {
        nodes: "roots\nexpr path lang(StructId(1))",
        printed: &[(Asked::Expr(0), "Missing(Name(StructId(1)))")],
    },
    Case {
        nodes: "roots\nexpr path lang(StructId(1))\nexpr path lang(StructId(2))\nexpr call 0 1",
        printed: &[(Asked::Expr(2), "Missing(Name(StructId(1)))")],
    },
    Case {
        nodes: "roots\ntype path lang(StructId(1))\nexpr path x\nexpr path lang(StructId(2))\nexpr method 0 m 1 ::<T0>",
        printed: &[(Asked::Expr(2), "Missing(Name(StructId(1)))")],
    },
    Case {
        nodes: "roots\nexpr path x\nexpr path lang(StructId(1))\nexpr path lang(StructId(2))\nexpr if 0 1 2",
        printed: &[(Asked::Expr(3), "Missing(Name(StructId(1)))")],
    },
    Case {
        nodes: "roots\nexpr path lang(StructId(1))\nexpr path lang(StructId(2))\nexpr index 0 1",
        printed: &[(Asked::Expr(2), "Missing(Name(StructId(1)))")],
    },
    Case {
        nodes: "roots\ntype path lang(StructId(2))\nexpr path lang(StructId(1))\nexpr cast 0 0",
        printed: &[(Asked::Expr(1), "Missing(Name(StructId(1)))")],
    },
    Case {
        nodes: "roots\npat path lang(StructId(1))\nexpr path lang(StructId(2))\nexpr assign 0 0",
        printed: &[(Asked::Expr(1), "Missing(Name(StructId(1)))")],
    },
    Case {
        nodes: "roots\npat wild\nexpr path x\nexpr path lang(StructId(1))\nexpr path lang(StructId(2))\nexpr match 0 0:1:2",
        printed: &[(Asked::Expr(3), "Missing(Name(StructId(1)))")],
    },
    Case {
        nodes: "roots\npat wild\npat wild\nexpr path x\nexpr path lang(StructId(1))\nexpr path lang(StructId(2))\nexpr match 0 0:-:1 1:-:2",
        printed: &[(Asked::Expr(3), "Missing(Name(StructId(1)))")],
    },
    Case {
        nodes: "roots\ntype path lang(StructId(1))\npat wild\nexpr path lang(StructId(2))\nexpr path lang(StructId(2))\nexpr block - - let:0:0:0:1",
        printed: &[(Asked::Expr(2), "Missing(Name(StructId(1)))")],
    },
    Case {
        nodes: "roots\nexpr path lang(StructId(1))\nexpr path lang(StructId(2))\nexpr block - 1 semi:0",
        printed: &[(Asked::Expr(2), "Missing(Name(StructId(1)))")],
    },
    Case {
        nodes: "roots\nexpr path lang(StructId(1))\nexpr path lang(StructId(2))\nexpr record S f:0 ..1",
        printed: &[(Asked::Expr(2), "Missing(Name(StructId(1)))")],
    },
    Case {
        nodes: "roots\ntype path lang(StructId(2))\ntype path lang(StructId(2))\npat path lang(StructId(1))\nexpr path lang(StructId(2))\nexpr closure 0 0 types:0 ret:1",
        printed: &[(Asked::Expr(1), "Missing(Name(StructId(1)))")],
    },
    Case {
        nodes: "roots\ntype path lang(StructId(1))\nexpr path lang(StructId(2))\nexpr closure 0 - ret:0",
        printed: &[(Asked::Expr(1), "Missing(Name(StructId(1)))")],
    },
    Case {
        nodes: "roots\nexpr path lang(StructId(2))\nexpr const 0\nexpr path lang(StructId(1))\nexpr tuple 1,2",
        printed: &[(Asked::Expr(3), "Missing(Name(StructId(1)))")],
    },
    Case {
        nodes: "roots\ntype path lang(StructId(2))\ntype path lang(StructId(1))\ntype fn 1 0\nexpr path x\nexpr cast 0 2",
        printed: &[(Asked::Expr(1), "Missing(Name(StructId(1)))")],
    },
    Case {
        nodes: "roots\ntype path lang(StructId(1))\ntype pattern 0 0\npat path lang(StructId(2))\nexpr path x\nexpr cast 0 1",
        printed: &[(Asked::Expr(1), "Missing(Name(StructId(1)))")],
    },
    Case {
        nodes: "roots\ntype path lang(StructId(1))\ntype path lang(StructId(2))\nexpr path <0>::$crate(5)::a::<T1>",
        printed: &[(Asked::Expr(0), "Missing(Name(StructId(1)))")],
    },
    Case {
        nodes: "roots\ntype path lang(StructId(2))\nexpr path lang(StructId(1))\nexpr path a::<C0,Item=T0>",
        printed: &[(Asked::Expr(1), "Missing(Name(StructId(1)))")],
    },
    Case {
        nodes: "roots\ntype path lang(StructId(2))\ntype path lang(StructId(2))\ntype path lang(StructId(1))\nexpr path a::<Item::<T2>:T1=T0>",
        printed: &[(Asked::Expr(0), "Missing(Name(StructId(1)))")],
    },
    Case {
        nodes: "roots\npat path lang(StructId(1))\npat path lang(StructId(2))\npat tuple 0,1 ..0",
        printed: &[
            (Asked::Pat(2), "Missing(Name(StructId(1)))"),
            (Asked::PatInOneLine(2), "Missing(Name(StructId(1)))"),
        ],
    },
    Case {
        nodes: "roots\npat path lang(StructId(1))\npat path lang(StructId(2))\npat or 0,1",
        printed: &[
            (Asked::Pat(2), "Missing(Name(StructId(1)))"),
            (Asked::PatInOneLine(2), "Missing(Name(StructId(1)))"),
        ],
    },
    Case {
        nodes: "roots\npat path lang(StructId(1))\npat path lang(StructId(2))\npat record S f:0 g:1 ..",
        printed: &[
            (Asked::Pat(2), "Missing(Name(StructId(1)))"),
            (Asked::PatInOneLine(2), "Missing(Name(StructId(1)))"),
        ],
    },
    Case {
        nodes: "roots\npat range - 0\nexpr path lang(StructId(1))",
        printed: &[
            (Asked::Pat(0), "Missing(Name(StructId(1)))"),
            (Asked::PatInOneLine(0), "Missing(Name(StructId(1)))"),
        ],
    },
    Case {
        nodes: "roots\npat wild\npat path lang(StructId(1))\npat path lang(StructId(2))\npat slice 0 1 2",
        printed: &[
            (Asked::Pat(3), "Missing(Name(StructId(1)))"),
            (Asked::PatInOneLine(3), "Missing(Name(StructId(1)))"),
        ],
    },
    Case {
        nodes: "roots\npat expr 0\nexpr path lang(StructId(1))",
        printed: &[
            (Asked::Pat(0), "Missing(Name(StructId(1)))"),
            (Asked::PatInOneLine(0), "Missing(Name(StructId(1)))"),
        ],
    },
    Case {
        nodes: "roots\npat path lang(StructId(1))\npat box 0",
        printed: &[
            (Asked::Pat(1), "Missing(Name(StructId(1)))"),
            (Asked::PatInOneLine(1), "Missing(Name(StructId(1)))"),
        ],
    },
    Case {
        nodes: "roots\ntype param StructId(0) 0\nexpr path x\nexpr cast 0 0",
        printed: &[(Asked::Expr(1), "Missing(Signature(StructId(0)))")],
    },
    Case {
        nodes: "roots\nlifetime param StructId(0) 0\ntype path A\ntype ref 0 0\nexpr path x\nexpr cast 0 1",
        printed: &[(Asked::Expr(1), "Missing(Signature(StructId(0)))")],
    },
    Case {
        nodes: "",
        printed: &[(Asked::Path("$crate(7)"), "Missing(Crate(7))")],
    },
];
