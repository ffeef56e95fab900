//! Literals, and what they are printed as.
use crate::cases::{Asked, Case};

pub const LITERALS: [Case; 11] = [
    Case {
        nodes: "roots\nexpr string \" !\\\"#$%&'()*+,-./0123456789:;<=>?@ABCDEFGHIJKLMNOPQRSTUVWXYZ[\\\\]^_`abcdefghijklmnopqrstuvwxyz{|}~\"",
        printed: &[(
            Asked::Expr(0),
            "\" !\\\"#$%&'()*+,-./0123456789:;<=>?@ABCDEFGHIJKLMNOPQRSTUVWXYZ[\\\\]^_`abcdefghijklmnopqrstuvwxyz{|}~\"",
        )],
    },
    Case {
        nodes: "roots\nexpr string \"\\\\0\\\\n\"\nexpr string \"a\\nb\"",
        printed: &[
            (Asked::Expr(0), "\"\\\\0\\\\n\""),
            (Asked::Expr(1), "\"a\\nb\""),
        ],
    },
    Case {
        nodes: "roots\nexpr bytes \"\"",
        printed: &[(Asked::Expr(0), "\"\"")],
    },
    Case {
        nodes: "roots\nexpr cstring \"\"\nexpr cstring \"\\x00\"",
        printed: &[
            (Asked::Expr(0), "\"\\0\""),
            (Asked::Expr(1), "\"\\x00\\0\""),
        ],
    },
    Case {
        nodes: "roots\nexpr char \"\\0\"\nexpr char \"\\t\"\nexpr char \"\\r\"\nexpr char \"\\n\"\nexpr char \"\\\\\"\nexpr char \"'\"\nexpr char \"\\\"\"",
        printed: &[
            (Asked::Expr(0), "'\\0'"),
            (Asked::Expr(1), "'\\t'"),
            (Asked::Expr(2), "'\\r'"),
            (Asked::Expr(3), "'\\n'"),
            (Asked::Expr(4), "'\\\\'"),
            (Asked::Expr(5), "'\\''"),
            (Asked::Expr(6), "'\\\"'"),
        ],
    },
    Case {
        nodes: "roots\nexpr bool true\nexpr bool false",
        printed: &[(Asked::Expr(0), "true"), (Asked::Expr(1), "false")],
    },
    Case {
        nodes: "roots\nexpr int 0\nexpr int 7\nexpr int -1\nexpr int 170141183460469231731687303715884105727\nexpr int -170141183460469231731687303715884105728",
        printed: &[
            (Asked::Expr(0), "0"),
            (Asked::Expr(1), "7"),
            (Asked::Expr(2), "-1"),
            (Asked::Expr(3), "170141183460469231731687303715884105727"),
            (Asked::Expr(4), "-170141183460469231731687303715884105728"),
        ],
    },
    Case {
        nodes: "roots\nexpr int -12 isize\nexpr int -12 i8\nexpr int -12 i16\nexpr int -12 i32\nexpr int -12 i64\nexpr int -12 i128\nexpr int -170141183460469231731687303715884105728 i128",
        printed: &[
            (Asked::Expr(0), "-12isize"),
            (Asked::Expr(1), "-12i8"),
            (Asked::Expr(2), "-12i16"),
            (Asked::Expr(3), "-12i32"),
            (Asked::Expr(4), "-12i64"),
            (Asked::Expr(5), "-12i128"),
            (
                Asked::Expr(6),
                "-170141183460469231731687303715884105728i128",
            ),
        ],
    },
    Case {
        nodes: "roots\nexpr float 1.50 f16\nexpr float 1.50 f32\nexpr float 1.50 f64\nexpr float 1.50 f128",
        printed: &[
            (Asked::Expr(0), "1.50f16"),
            (Asked::Expr(1), "1.50f32"),
            (Asked::Expr(2), "1.50f64"),
            (Asked::Expr(3), "1.50f128"),
        ],
    },
    Case {
        nodes: "roots\nexpr string \"a\\\"\\u{1}é'\"",
        printed: &[(Asked::Expr(0), "\"a\\\"\\u{1}é'\"")],
    },
    Case {
        nodes: "roots\nexpr string \"a\\\"\\u{1}é'\"\nexpr string \"\\0\\t\\r\\n\\\\\\u{1f}\\u{7f}\"\nexpr bytes \"\\x00\\\"\\xff\"\nexpr bytes \"a\\t\\r\\n\\\\'~\\x7f\"\nexpr cstring \"a\"",
        printed: &[
            (Asked::Expr(0), "\"a\\\"\\u{1}é'\""),
            (Asked::Expr(1), "\"\\0\\t\\r\\n\\\\\\u{1f}\\u{7f}\""),
            (Asked::Expr(2), "\"\\x00\\\"\\xff\""),
            (Asked::Expr(3), "\"a\\t\\r\\n\\\\\\'~\\x7f\""),
            (Asked::Expr(4), "\"a\\0\""),
        ],
    },
];
