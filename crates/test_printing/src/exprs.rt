//! Expressions, and what they are printed as.
use crate::cases::{Asked, Case};

pub const EXPRS: [Case; 28] = [
    Case {
        nodes: "roots\ntype path T\nexpr offset-of 0 f,g,h\ntype path T\nexpr offset-of 1 f\ntype path T\nexpr offset-of 2 -",
        printed: &[
            (Asked::Expr(0), "builtin#offset_of(T, f.g.h)"),
            (Asked::Expr(1), "builtin#offset_of(T, f)"),
            (Asked::Expr(2), "builtin#offset_of(T, )"),
        ],
    },
    Case {
        nodes: "roots\nexpr path a\nexpr path b\nexpr if 0 1 -\nexpr path a\nexpr path b\nexpr path c\nexpr if 3 4 5",
        printed: &[
            (Asked::Expr(2), "if a b"),
            (Asked::Expr(6), "if a b else c"),
        ],
    },
    Case {
        nodes: "roots\npat wild\nexpr path a\nexpr let 0 0",
        printed: &[(Asked::Expr(1), "let _ = a")],
    },
    Case {
        nodes: "roots\npat wild\nexpr path a\nexpr path b\nexpr bin + 0 1\nexpr let 0 2",
        printed: &[(Asked::Expr(3), "let _ = (a + b)")],
    },
    Case {
        nodes: "roots\nexpr path a\nexpr call 0 -\nexpr path a\nexpr call 2 -\nexpr call 3 -",
        printed: &[(Asked::Expr(1), "a()"), (Asked::Expr(4), "a()()")],
    },
    Case {
        nodes: "roots\ntype path T\nexpr path a\nexpr method 0 m - ::<T0>\nexpr path a\nexpr method 2 m - ::<>",
        printed: &[
            (Asked::Expr(1), "a.m::<T>()"),
            (Asked::Expr(3), "a.m::<>()"),
        ],
    },
    Case {
        nodes: "roots\nexpr path a\nexpr break 0\nlabel 'l\nexpr path a\nexpr break 2 label:0",
        printed: &[(Asked::Expr(1), "break a"), (Asked::Expr(3), "break 'l a")],
    },
    Case {
        nodes: "roots\nexpr return -\nexpr path a\nexpr return 1\nexpr block - -\nexpr return 3",
        printed: &[
            (Asked::Expr(0), "return"),
            (Asked::Expr(2), "return a"),
            (Asked::Expr(4), "return {}"),
        ],
    },
    Case {
        nodes: "roots\nexpr path a\nexpr field 0 f\nexpr path a\nexpr await 2",
        printed: &[(Asked::Expr(1), "a.f"), (Asked::Expr(3), "a.await")],
    },
    Case {
        nodes: "roots\ntype path T\nexpr path a\nexpr cast 0 0\ntype path T\ntype path U\nexpr path a\nexpr cast 2 1\nexpr cast 3 2",
        printed: &[
            (Asked::Expr(1), "a as T"),
            (Asked::Expr(4), "(a as T) as U"),
        ],
    },
    Case {
        nodes: "roots\nexpr path a\nexpr ref 0\nexpr path a\nexpr ref 2 mut\nexpr path a\nexpr ref 4 raw\nexpr path a\nexpr ref 6 raw mut",
        printed: &[
            (Asked::Expr(1), "&a"),
            (Asked::Expr(3), "&mut a"),
            (Asked::Expr(5), "&raw a"),
            (Asked::Expr(7), "&raw mut a"),
        ],
    },
    Case {
        nodes: "roots\nexpr path a\nexpr unary * 0\nexpr path a\nexpr unary ! 2\nexpr path a\nexpr unary - 4",
        printed: &[
            (Asked::Expr(1), "*a"),
            (Asked::Expr(3), "!a"),
            (Asked::Expr(5), "-a"),
        ],
    },
    Case {
        nodes: "roots\nexpr path a\nexpr path b\nexpr bin + 0 1\nexpr path a\nexpr path b\nexpr bin missing 3 4",
        printed: &[(Asked::Expr(2), "a + b"), (Asked::Expr(5), "a � b")],
    },
    Case {
        nodes: "roots\nexpr path a\nexpr path b\nexpr bin + 0 1\nexpr path c\nexpr index 2 3\nexpr path a\nexpr path b\nexpr path c\nexpr bin + 6 7\nexpr index 5 8",
        printed: &[(Asked::Expr(4), "(a + b)[c]"), (Asked::Expr(9), "a[b + c]")],
    },
    Case {
        nodes: "roots\nexpr tuple -\nexpr path a\nexpr tuple 1\nexpr block - -\nexpr path a\nexpr tuple 3,4",
        printed: &[
            (Asked::Expr(0), "()"),
            (Asked::Expr(2), "(a, )"),
            (Asked::Expr(5), "( {}, a, )"),
        ],
    },
    Case {
        nodes: "roots\nlabel 'l\ntype path T\ntype path U\npat wild\npat wild\npat wild\nexpr path a\nexpr const 0",
        printed: &[(Asked::Expr(1), "const { /* ExprId(0) */ }")],
    },
    Case {
        nodes: "roots\npat wild\nexpr path a\nexpr assign 0 0\npat wild\npat wild\nexpr path a\nexpr assign 1 2\nexpr assign 2 3",
        printed: &[(Asked::Expr(1), "_ = a"), (Asked::Expr(4), "_ = (_ = a)")],
    },
    Case {
        nodes: "roots\nexpr path a\nexpr path b\nexpr path c\nexpr call 0 1,2",
        printed: &[(Asked::Expr(3), "a(\n    b,\n    c,\n)")],
    },
    Case {
        nodes: "roots\nexpr path a\nexpr path b\nexpr path c\nexpr call 1 2\nexpr call 0 3",
        printed: &[(Asked::Expr(4), "a(\n    b(\n        c,\n    ),\n)")],
    },
    Case {
        nodes: "roots\ntype path T\nexpr path a\nexpr path b\nexpr path c\nexpr method 0 m 1,2 ::<T0>",
        printed: &[(Asked::Expr(3), "a.m::<T>(\n    b,\n    c,\n)")],
    },
    Case {
        nodes: "roots\nexpr path a\nexpr path b\nexpr repeat 0 1",
        printed: &[(Asked::Expr(2), "[\n    a; b\n]")],
    },
    Case {
        nodes: "roots\nexpr path a\nexpr array 0\nexpr array 1",
        printed: &[(Asked::Expr(2), "[\n    [\n        a,\n    ],\n]")],
    },
    Case {
        nodes: "roots\nexpr path a\nexpr record S ..0",
        printed: &[(Asked::Expr(1), "S{\n    ..a\n}")],
    },
    Case {
        nodes: "roots\nexpr path a\nexpr path b\nexpr record S f:0 g:1",
        printed: &[(Asked::Expr(2), "S{\n    f: a,\n    g: b,\n}")],
    },
    Case {
        nodes: "roots\nexpr path x\nexpr path y\nexpr match 1\nexpr repeat 0 2",
        printed: &[(Asked::Expr(3), "[\n    x; match y {\n    }\n\n]")],
    },
    Case {
        nodes: "roots\ntype path u32\ntype tuple -\ntype fn extern:C 0 1\nexpr path x\nexpr cast 0 2",
        printed: &[(Asked::Expr(1), "x as extern C fn(u32) -> ()")],
    },
    Case {
        nodes: "roots\nexpr path a\nexpr path b\nexpr bin missing 0 1\nexpr path c\nexpr path d\nexpr bin missing 3 4\nexpr bin <= 2 5\nexpr path e\nexpr path f\nexpr bin <= 7 8\nexpr bin missing 6 9\nexpr path g\nexpr path h\nexpr bin missing 11 12\nexpr bin > 10 13\nexpr path i\nexpr path j\nexpr bin > 15 16\nexpr bin missing 14 17\nexpr path k\nexpr path l\nexpr bin missing 19 20\nexpr bin >= 18 21\nexpr path m\nexpr path n\nexpr bin >= 23 24\nexpr bin missing 22 25\nexpr path o\nexpr path p\nexpr bin missing 27 28\nexpr bin + 26 29\nexpr path q\nexpr path r\nexpr bin + 31 32\nexpr bin missing 30 33\nexpr path s\nexpr path t\nexpr bin missing 35 36\nexpr bin - 34 37\nexpr path u\nexpr path v\nexpr bin - 39 40\nexpr bin missing 38 41",
        printed: &[(
            Asked::Expr(42),
            "a � b <= c � d � e <= f > g � h � i > j >= k � l � m >= n + o � p � q + r - s � t � u - v",
        )],
    },
    Case {
        nodes: "roots\nexpr path a\nexpr field 0 f\nexpr field 1 f\nexpr path b\nexpr field 3 f\nexpr bin || 2 4\nexpr field 5 f\nexpr path c\nexpr field 7 f\nexpr bin && 6 8\nexpr field 9 f\nexpr path d\nexpr field 11 f\nexpr bin == 10 12\nexpr field 13 f\nexpr path e\nexpr field 15 f\nexpr bin != 14 16\nexpr field 17 f\nexpr path f\nexpr field 19 f\nexpr bin < 18 20\nexpr field 21 f",
        printed: &[(
            Asked::Expr(22),
            "(((((a.f.f || b.f).f && c.f).f == d.f).f != e.f).f < f.f).f",
        )],
    },
];
