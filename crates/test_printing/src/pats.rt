//! Patterns, and what they are printed as.
use crate::cases::{Asked, Case};

pub const PATS: [Case; 23] = [
    Case {
        nodes: "roots\npat wild\npat tuple 0\npat wild\npat wild\npat tuple 2,3",
        printed: &[
            (Asked::PatInOneLine(1), "(_)"),
            (Asked::Pat(1), "(_)"),
            (Asked::PatInOneLine(4), "(_, _)"),
            (Asked::Pat(4), "(_, _)"),
        ],
    },
    Case {
        nodes: "roots\npat wild\npat wild\npat tuple 0,1 ..0\npat wild\npat wild\npat tuple 3,4 ..1\npat wild\npat wild\npat tuple 6,7 ..2",
        printed: &[
            (Asked::PatInOneLine(2), "(.., _, _)"),
            (Asked::Pat(2), "(.., _, _)"),
            (Asked::PatInOneLine(5), "(_, .., _)"),
            (Asked::Pat(5), "(_, .., _)"),
            (Asked::PatInOneLine(8), "(_, _, ..)"),
            (Asked::Pat(8), "(_, _, ..)"),
        ],
    },
    Case {
        nodes: "roots\npat or -\npat wild\npat or 1\npat wild\npat wild\npat wild\npat or 3,4,5",
        printed: &[
            (Asked::PatInOneLine(0), "()"),
            (Asked::Pat(0), "()"),
            (Asked::PatInOneLine(2), "(_)"),
            (Asked::Pat(2), "(_)"),
            (Asked::PatInOneLine(6), "(_ | _ | _)"),
            (Asked::Pat(6), "(_ | _ | _)"),
        ],
    },
    Case {
        nodes: "roots\npat wild\npat wild\npat slice 0 - 1",
        printed: &[
            (Asked::PatInOneLine(2), "[_, _, ]"),
            (Asked::Pat(2), "[_, _, ]"),
        ],
    },
    Case {
        nodes: "roots\npat wild\npat rest\npat wild\npat slice 0 1 2\npat rest\npat slice - 4 -",
        printed: &[
            (Asked::PatInOneLine(3), "[_, .., _, ]"),
            (Asked::Pat(3), "[_, .., _, ]"),
            (Asked::PatInOneLine(5), "[.., ]"),
            (Asked::Pat(5), "[.., ]"),
        ],
    },
    Case {
        nodes: "roots\npat lit 0\nexpr int 1\npat lit 1\nexpr int -2",
        printed: &[
            (Asked::PatInOneLine(0), "1"),
            (Asked::Pat(0), "1"),
            (Asked::PatInOneLine(1), "-2"),
            (Asked::Pat(1), "-2"),
        ],
    },
    Case {
        nodes: "roots\npat expr 2\nexpr path d\nexpr path e\nexpr bin << 0 1\npat lit 3\nexpr bin & 4 5\nexpr path f\nexpr path g",
        printed: &[
            (Asked::PatInOneLine(0), "(d << e)"),
            (Asked::Pat(0), "(d << e)"),
            (Asked::PatInOneLine(1), "(f & g)"),
            (Asked::Pat(1), "(f & g)"),
        ],
    },
    Case {
        nodes: "roots\npat range 0 1 exclusive\nexpr int 1\nexpr int -2",
        printed: &[(Asked::PatInOneLine(0), "1..-2"), (Asked::Pat(0), "1..-2")],
    },
    Case {
        nodes: "roots\npat range 5 4\nexpr path b\nexpr path c\nexpr path d\nexpr path e\nexpr bin + 0 1\nexpr bin << 2 3",
        printed: &[
            (Asked::PatInOneLine(0), "(d << e)..=b + c"),
            (Asked::Pat(0), "(d << e)..=b + c"),
        ],
    },
    Case {
        nodes: "roots\nbind a\npat bind 0 -\nbind b mut\npat bind 1 -\nbind c ref\npat bind 2 -\nbind d refmut\npat bind 3 -",
        printed: &[
            (Asked::PatInOneLine(0), "a"),
            (Asked::Pat(0), "a"),
            (Asked::PatInOneLine(1), "mut b"),
            (Asked::Pat(1), "mut b"),
            (Asked::PatInOneLine(2), "ref c"),
            (Asked::Pat(2), "ref c"),
            (Asked::PatInOneLine(3), "ref mut d"),
            (Asked::Pat(3), "ref mut d"),
        ],
    },
    Case {
        nodes: "roots\nbind a\npat wild\npat bind 0 0\nbind d refmut\npat wild\npat bind 1 2",
        printed: &[
            (Asked::PatInOneLine(1), "a @ _"),
            (Asked::Pat(1), "a @ _"),
            (Asked::PatInOneLine(3), "ref mut d @ _"),
            (Asked::Pat(3), "ref mut d @ _"),
        ],
    },
    Case {
        nodes: "roots\npat wild\npat ref 0\npat wild\npat ref 2 mut",
        printed: &[
            (Asked::PatInOneLine(1), "&_"),
            (Asked::Pat(1), "&_"),
            (Asked::PatInOneLine(3), "&mut _"),
            (Asked::Pat(3), "&mut _"),
        ],
    },
    Case {
        nodes: "roots\npat wild\npat box 0\npat wild\npat deref 2",
        printed: &[
            (Asked::PatInOneLine(1), "box _"),
            (Asked::Pat(1), "box _"),
            (Asked::PatInOneLine(3), "deref!(_)"),
            (Asked::Pat(3), "deref!(_)"),
        ],
    },
    Case {
        nodes: "roots\npat record S",
        printed: &[(Asked::PatInOneLine(0), "S { }"), (Asked::Pat(0), "S {\n}")],
    },
    Case {
        nodes: "roots\nbind a\npat bind 0 -\npat wild\npat record S a:0 b:1",
        printed: &[
            (Asked::PatInOneLine(2), "S { a, b: _ }"),
            (Asked::Pat(2), "S {\n    a,\n    b: _,\n}"),
        ],
    },
    Case {
        nodes: "roots\nbind a\npat wild\npat bind 0 -\npat wild\npat record S f:0 a:1 g:2 ..",
        printed: &[
            (Asked::PatInOneLine(3), "S { f: _, a, g: _, .. }"),
            (
                Asked::Pat(3),
                "S {\n    f: _,\n    a,\n    g: _,\n    ..\n}",
            ),
        ],
    },
    Case {
        nodes: "roots\nbind d refmut\npat bind 0 -\npat record S d:0",
        printed: &[
            (Asked::PatInOneLine(1), "S { d: ref mut d }"),
            (Asked::Pat(1), "S {\n    d: ref mut d,\n}"),
        ],
    },
    Case {
        nodes: "roots\nbind a\npat bind 0 -\npat record S a:0\npat record S f:1 ..",
        printed: &[
            (Asked::PatInOneLine(2), "S { f: S { a }, .. }"),
            (
                Asked::Pat(2),
                "S {\n    f: S {\n        a,\n    },\n    ..\n}",
            ),
        ],
    },
    Case {
        nodes: "roots\npat expr 0\nexpr call 1 2\nexpr path j\nexpr block - -",
        printed: &[
            (Asked::PatInOneLine(0), "j( {}, )"),
            (Asked::Pat(0), "j(\n    {},\n)"),
        ],
    },
    Case {
        nodes: "roots\nbind a\npat bind 0 -\npat record S a:0 ..",
        printed: &[(Asked::PatInOneLine(1), "S { a, .. }")],
    },
    Case {
        nodes: "roots\nbind a\nbind b\npat bind 0 -\npat bind 1 -\npat tstruct T 0,1 ..1",
        printed: &[(Asked::PatInOneLine(2), "T(a, .., b)")],
    },
    Case {
        nodes: "roots\nbind a\npat bind 0 -\npat tuple 0 ..1",
        printed: &[(Asked::PatInOneLine(1), "(a, ..)")],
    },
    Case {
        nodes: "roots\nbind a\nbind b\npat bind 0 -\npat bind 1 -\npat slice 0,1 - -",
        printed: &[(Asked::PatInOneLine(2), "[a, b, ]")],
    },
];
