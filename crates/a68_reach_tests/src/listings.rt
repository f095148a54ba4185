//! Texts laid out anew, by hand.
use crate::calls::{Given, answers, of_texts};
use std::panic::Expect;

/// Brackets and what parts units, with their listings.
const BRACKETS: &[(&str, &str)] = &[
    (
        "BEGIN INT x:=1;print(x)END",
        "BEGIN\n  INT x := 1 ;\n  print ( x )\nEND\n",
    ),
    ("(SKIP # c #)", "( SKIP )\n"),
    ("(a;b)", "( a ;\n  b )\n"),
    ("( a ; b ; c )", "( a ;\n  b ;\n  c )\n"),
    ("DO SKIP OD", "DO\n  SKIP\nOD\n"),
    ("WHILE a;b DO c OD", "WHILE a ;\nb DO\n  c\nOD\n"),
    ("IF a THEN b ELSE c FI", "IF a THEN b ELSE c FI\n"),
    ("CASE a IN b,c OUT d ESAC", "CASE a IN b , c OUT d ESAC\n"),
    ("(IF a THEN b;c FI)", "( IF a THEN b ;\n    c FI )\n"),
    (
        "BEGIN a;BEGIN b;c END;d END",
        "BEGIN\n  a ;\n  BEGIN\n    b ;\n    c\n  END ;\n  d\nEND\n",
    ),
    (
        "(FOR i TO 3 DO a OD;b)",
        "( FOR i TO 3 DO\n    a\n  OD ;\n  b )\n",
    ),
    ("PAR(a,b)", "PAR ( a , b )\n"),
    ("([1:2]INT a;a[1])", "( [ 1 : 2 ] INT a ;\n  a [ 1 ] )\n"),
    ("(a[@1])", "( a [ @ 1 ] )\n"),
    (
        "(STRUCT(INT a,b)s;a OF s)",
        "( STRUCT ( INT a , b ) s ;\n  a OF s )\n",
    ),
    (
        "(((((((((((((((((((((a;b)))))))))))))))))))))",
        "( ( ( ( ( ( ( ( ( ( ( ( ( ( ( ( ( ( ( ( ( a ;\n                                        b ) ) ) ) ) ) ) ) ) ) ) ) ) ) ) ) ) ) ) ) )\n",
    ),
];

/// Tags, denotations, signs and comments, with their listings.
const SPELLINGS: &[(&str, &str)] = &[
    ("( print ( \"a\"\"b c\" ) )", "( print ( \"a\"\"b c\" ) )\n"),
    ("(\"\")", "( \"\" )\n"),
    ("(x y:=2r1 01)", "( xy := 2r101 )\n"),
    ("( 1 2 3 )", "( 123 )\n"),
    ("( a b := c d )", "( ab := cd )\n"),
    ("(a/=b)", "( a /= b )\n"),
    ("(a+:=- -b)", "( a +:= - - b )\n"),
    ("(a:=:b)", "( a :=: b )\n"),
    ("(a:/=:b)", "( a :/=: b )\n"),
    ("(a|b|:c|d|e)", "( a | b |: c | d | e )\n"),
    (
        "(OP M=(INT a)INT:a;M 1)",
        "( OP M = ( INT a ) INT : a ;\n  M 1 )\n",
    ),
    ("(CO a CO a PR x PR;b)", "( a ;\n  b )\n"),
    ("(a;#x#b#y#)", "( a ;\n  b )\n"),
    ("( x )", "( x )\n"),
    ("(\tx\r\n)", "( x )\n"),
];

/// Texts that have no tree, and the lines of their refusals.
const REFUSED: &[(&str, &str)] = &[
    ("( SKIP", "a68: refused S6 at byte 6\n"),
    ("( \"a )", "a68: refused S1 at byte 2\n"),
    ("( a ~ )", "a68: refused S2 at byte 4\n"),
    ("(REAL)", "a68: refused S3 at byte 1\n"),
    (
        "( x := 99999999999999999999 )",
        "a68: refused S5 at byte 7\n",
    ),
    ("( a # c # b )", "a68: refused S6 at byte 10\n"),
];

fn list(text: &str) -> Given<'_> {
    of_texts(&["list", "f"], text, b"")
}

#[test]
fn texts_are_laid_out(rt: HostRuntime) {
    for (text, listing) in BRACKETS {
        answers(&rt, rt.alloc(), list(text), 0, (listing, ""), text);
    }
}

#[test]
fn symbols_are_spelled(rt: HostRuntime) {
    for (text, listing) in SPELLINGS {
        answers(&rt, rt.alloc(), list(text), 0, (listing, ""), text);
        answers(&rt, rt.alloc(), list(listing), 0, (listing, ""), text);
    }
}

#[test]
fn texts_without_a_tree_are_refused(rt: HostRuntime) {
    for (text, notes) in REFUSED {
        answers(&rt, rt.alloc(), list(text), 1, ("", notes), text);
    }
}
