//! Blocks, statements, matches and closures, and what they are printed as.
use crate::cases::{Asked, Case};

pub const BLOCKS: [Case; 29] = [
    Case {
        nodes: "roots\nexpr path a\nexpr block 7 0",
        printed: &[(Asked::Expr(1), "{\n    a\n}")],
    },
    Case {
        nodes: "roots\nlabel 'l\nexpr path a\nexpr block - 0 label:0 unsafe",
        printed: &[(Asked::Expr(1), "'l: unsafe {\n    a\n}")],
    },
    Case {
        nodes: "roots\ntype path T\npat wild\nexpr path a\nexpr block - -\nexpr block - - let:0:0:0:1",
        printed: &[(Asked::Expr(2), "{\n    let _: T = a else {};\n}")],
    },
    Case {
        nodes: "roots\nexpr path a\nexpr path b\nexpr block - - semi:0 expr:1",
        printed: &[(Asked::Expr(2), "{\n    a;\n    b\n}")],
    },
    Case {
        nodes: "roots\npat wild\nexpr path a\nexpr path b\nexpr block - 1 item semi:0 macro:0 let:0:-:-:-",
        printed: &[(Asked::Expr(2), "{\n    a;\n    let _;\n    b\n}")],
    },
    Case {
        nodes: "roots\nexpr path a\nexpr match 0",
        printed: &[(Asked::Expr(1), "match a {\n}\n")],
    },
    Case {
        nodes: "roots\npat wild\npat wild\nexpr path a\nexpr path b\nexpr path c\nexpr block - -\nexpr match 0 0:1:2 1:-:3",
        printed: &[(
            Asked::Expr(4),
            "match a {\n    _ if b => c,\n    _ => {},\n}\n",
        )],
    },
    Case {
        nodes: "roots\npat wild\nexpr path a\nexpr path b\nexpr match 1\nexpr match 0 0:-:2",
        printed: &[(
            Asked::Expr(3),
            "match a {\n    _ => match b {\n    }\n    ,\n}\n",
        )],
    },
    Case {
        nodes: "roots\nexpr path a\nexpr match 0\nexpr block - - semi:1",
        printed: &[(Asked::Expr(2), "{\n    match a {\n    }\n    ;\n}")],
    },
    Case {
        nodes: "roots\nexpr path a\nexpr path b\nexpr match 0\nexpr repeat 1 2\nexpr block - 3",
        printed: &[(
            Asked::Expr(4),
            "{\n    [\n        b; match a {\n        }\n    \n    ]\n}",
        )],
    },
    Case {
        nodes: "roots\nexpr path a\nexpr path c\nexpr block - 0\nexpr path b\nexpr block - 3\nexpr if 1 2 4",
        printed: &[(Asked::Expr(5), "if c {\n    a\n} else {\n    b\n}")],
    },
    Case {
        nodes: "roots\nlabel 'l\nexpr path a\nexpr block - 0\nexpr loop 1 label:0",
        printed: &[(Asked::Expr(2), "'l: loop {\n    a\n}")],
    },
    Case {
        nodes: "roots\nexpr path \"a\\nb\"\nexpr block - 0",
        printed: &[(Asked::Expr(1), "{\n    a\n    b\n}")],
    },
    Case {
        nodes: "roots\nexpr path \"a\\n  \"\nexpr block - 0",
        printed: &[(Asked::Expr(1), "{\n    a\n      }")],
    },
    Case {
        nodes: "roots\npat wild\npat expr 3\nexpr path a\nexpr path b\nexpr path c\nexpr match 0 0:1:2",
        printed: &[(Asked::PatInOneLine(1), "match a { _ if b => c, } ")],
    },
    Case {
        nodes: "roots\npat expr 2\nexpr path a\nexpr path b\nexpr repeat 0 1",
        printed: &[(Asked::PatInOneLine(0), "[ a; b ]")],
    },
    Case {
        nodes: "roots\npat expr 1\nexpr path a\nexpr record S f:0 ..",
        printed: &[(Asked::PatInOneLine(0), "S{ f: a, .. }")],
    },
    Case {
        nodes: "roots\npat wild\npat expr 3\nexpr path a\nexpr path b\nexpr path c\nexpr block - - let:0:-:0:- semi:1 expr:2",
        printed: &[(Asked::PatInOneLine(1), "{ let _ = a; b; c }")],
    },
    Case {
        nodes: "roots\npat expr 2\nexpr path a\nexpr block - 0\nexpr block - 1",
        printed: &[(Asked::PatInOneLine(0), "{ { a } }")],
    },
    Case {
        nodes: "roots\npat expr 1\nexpr path \"a\\nb\"\nexpr block - 0",
        printed: &[(Asked::PatInOneLine(0), "{ a\nb }")],
    },
    Case {
        nodes: "roots\npat expr 2\nexpr path a\nexpr path \"b\\n\"\nexpr repeat 0 1",
        printed: &[(Asked::PatInOneLine(0), "[ a; b ]")],
    },
    Case {
        nodes: "roots\ntype path T\npat wild\npat wild\npat wild\nexpr path a\nexpr closure 0 0,1,2 types:-,0,-",
        printed: &[(Asked::Expr(1), "|_, _: T, _| a")],
    },
    Case {
        nodes: "roots\ntype path T\npat wild\npat wild\nexpr path a\nexpr closure 0 0,1 types:0",
        printed: &[(Asked::Expr(1), "|_: T| a")],
    },
    Case {
        nodes: "roots\ntype path T\nexpr path a\nexpr closure 0 - ret:0",
        printed: &[(Asked::Expr(1), "|| -> T a")],
    },
    Case {
        nodes: "roots\nexpr path a\nexpr closure 0 - move",
        printed: &[(Asked::Expr(1), "move || a")],
    },
    Case {
        nodes: "roots\nexpr path a\nexpr closure 0 - static",
        printed: &[(Asked::Expr(1), "static || a")],
    },
    Case {
        nodes: "roots\nexpr path a\nexpr closure 0 - move async:block",
        printed: &[(Asked::Expr(1), "async move a")],
    },
    Case {
        nodes: "roots\ntype path T\npat wild\nexpr path a\nexpr closure 0 0 ret:0 async:block",
        printed: &[(Asked::Expr(1), "async a")],
    },
    Case {
        nodes: "roots\ntype path T\ntype path U\npat wild\nexpr block - -\nexpr closure 0 - move async:closure\nexpr closure 1 0 types:0 ret:1 async",
        printed: &[(Asked::Expr(2), "async |_: T| -> U {}")],
    },
];
