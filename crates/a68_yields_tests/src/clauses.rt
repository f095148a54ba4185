//! What clauses and units whose mode stands in the text may yield, by hand from the text (Report, 3.2 to 3.5, 5.2.3, 5.4.1 and 5.5).
use crate::units::{Expected, are_told};
use a68_tree::NodeKind;

/// Units whose yield stands in the text: casts, generators, routine texts, those that stand in strong positions only, and those that yield VOID.
const WRITTEN: &[Expected] = &[
    ("( INT (1) )", NodeKind::Cast, 2, "INT", "nothing"),
    (
        "( INT x; REF INT (x) )",
        NodeKind::Cast,
        9,
        "REF INT",
        "nothing",
    ),
    (
        "( STRING (\"a\") )",
        NodeKind::Cast,
        2,
        "[] CHAR",
        "nothing",
    ),
    ("( VOID (1) )", NodeKind::Cast, 2, "VOID", "nothing"),
    ("( HEAP INT )", NodeKind::Generator, 2, "REF INT", "nothing"),
    (
        "( HEAP STRING )",
        NodeKind::Generator,
        2,
        "REF FLEX[] CHAR",
        "nothing",
    ),
    (
        "( LOC [1:3] INT )",
        NodeKind::Generator,
        2,
        "REF [] INT",
        "nothing",
    ),
    (
        "( PROC f = INT: 1; SKIP )",
        NodeKind::RoutineText,
        11,
        "PROC ( ) INT",
        "nothing",
    ),
    (
        "( PROC f = (INT a, b, STRING s) STRING: SKIP; SKIP )",
        NodeKind::RoutineText,
        11,
        "PROC ( INT INT [] CHAR ) [] CHAR",
        "nothing",
    ),
    ("( SKIP )", NodeKind::Skip, 2, "~", "nothing"),
    (
        "( REF INT r := NIL; SKIP )",
        NodeKind::Nil,
        15,
        "~",
        "nothing",
    ),
    (
        "( [1:2] INT a := (1, 2); SKIP )",
        NodeKind::Collateral,
        17,
        "~",
        "nothing",
    ),
    (
        "( [1:0] INT a := (); SKIP )",
        NodeKind::Vacuum,
        17,
        "~",
        "nothing",
    ),
    (
        "( PAR ( SKIP, SKIP ) )",
        NodeKind::Parallel,
        2,
        "VOID",
        "nothing",
    ),
    ("( TO 3 DO SKIP OD )", NodeKind::Loop, 2, "VOID", "nothing"),
];

/// Choices.
const CHOSEN: &[Expected] = &[
    (
        "( BOOL b; IF b THEN 1 ELSE 2 FI )",
        NodeKind::Conditional,
        10,
        "INT , INT",
        "BOOL",
    ),
    (
        "( BOOL b; IF b THEN 1 FI )",
        NodeKind::Conditional,
        10,
        "INT , ~",
        "BOOL",
    ),
    (
        "( BOOL b; ( b | 1 | TRUE ) )",
        NodeKind::Conditional,
        10,
        "INT , BOOL",
        "BOOL",
    ),
    (
        "( BOOL b; IF b THEN 1 ELIF b THEN 2 ELSE \"a\" FI )",
        NodeKind::Conditional,
        10,
        "INT , INT , CHAR",
        "BOOL",
    ),
    (
        "( BOOL b; IF b THEN 1 ELIF b THEN 2 FI )",
        NodeKind::Conditional,
        10,
        "INT , INT , ~",
        "BOOL",
    ),
    (
        "( BOOL b; ( b | 1 | ( b | 2 ) ) )",
        NodeKind::Conditional,
        10,
        "INT , INT , ~",
        "BOOL",
    ),
    (
        "( BOOL b; ( b | ( b | 1 ) | 2 ) )",
        NodeKind::Conditional,
        10,
        "INT , ~ , INT",
        "BOOL",
    ),
    (
        "( BOOL b; ( b | 1 | nosuch ) )",
        NodeKind::Conditional,
        10,
        "unknown",
        "BOOL",
    ),
    (
        "( ( 1 | 2 | 3 ) )",
        NodeKind::Conditional,
        2,
        "INT , INT",
        "none",
    ),
    (
        "( CASE 1 IN 2, TRUE OUT \"a\" ESAC )",
        NodeKind::Case,
        2,
        "INT , BOOL , CHAR",
        "INT",
    ),
    (
        "( CASE 1 IN 2, TRUE ESAC )",
        NodeKind::Case,
        2,
        "INT , BOOL , ~",
        "INT",
    ),
    (
        "( CASE TRUE IN 2, 3 ESAC )",
        NodeKind::Case,
        2,
        "INT , INT , ~",
        "none",
    ),
    (
        "( UNION (INT, BOOL) u = 1; CASE u IN (INT n): n, (BOOL): SKIP ESAC )",
        NodeKind::Conformity,
        27,
        "INT , ~ , ~",
        "UNION",
    ),
    (
        "( UNION (INT, BOOL) u; CASE u IN (INT n): n, (BOOL): SKIP OUT \"a\" ESAC )",
        NodeKind::Conformity,
        23,
        "INT , ~ , CHAR",
        "UNION",
    ),
    (
        "( INT u; CASE u IN (INT n): n, (BOOL): 2 ESAC )",
        NodeKind::Conformity,
        9,
        "INT , INT , ~",
        "none",
    ),
];

/// Choices where a form is asked for.
const BALANCED: &[Expected] = &[
    (
        "( BOOL b; PROC f = (INT n) BOOL: TRUE; ( b | f | SKIP )(1) )",
        NodeKind::Call,
        39,
        "BOOL",
        "PROC ( INT ) BOOL",
    ),
    (
        "( BOOL b; [1:3] INT a; ( b | a )[1] )",
        NodeKind::Slice,
        23,
        "REF INT",
        "REF [] INT",
    ),
    (
        "( BOOL b; [1:3] INT a; [] INT c = a; ( b | a | c )[1] )",
        NodeKind::Slice,
        37,
        "INT",
        "[] INT",
    ),
    (
        "( BOOL b; STRUCT (INT n) s; n OF ( b | SKIP | s ) )",
        NodeKind::Selection,
        28,
        "REF INT",
        "REF STRUCT",
    ),
    (
        "( BOOL b; [1:3] INT a; ( b | a | 1 )[1] )",
        NodeKind::Slice,
        23,
        "unknown",
        "none",
    ),
];

/// Clauses, which yield what their last unit yields.
const HANDED: &[Expected] = &[
    (
        "( INT x; BOOL b; b )",
        NodeKind::Closed,
        0,
        "REF BOOL",
        "nothing",
    ),
    (
        "( INT x; ( ( x ) ) )",
        NodeKind::Closed,
        9,
        "REF INT",
        "nothing",
    ),
    ("( nosuch )", NodeKind::Closed, 0, "unknown", "nothing"),
    (
        "( BOOL b; ( ( b | 1 ) ) )",
        NodeKind::Closed,
        10,
        "INT , ~",
        "nothing",
    ),
];

/// Jumps, tags of labels, and serial clauses with EXIT.
const LABELLED: &[Expected] = &[
    ("( l: GOTO l )", NodeKind::GoTo, 5, "~", "nothing"),
    ("( l: l )", NodeKind::Tag, 5, "unknown", "nothing"),
    ("( GOTO l; l: 1 )", NodeKind::Closed, 0, "INT", "nothing"),
    (
        "( l: 1 EXIT m: TRUE )",
        NodeKind::Serial,
        2,
        "INT , BOOL",
        "nothing",
    ),
    (
        "( 1 EXIT m: 2 EXIT n: \"a\" )",
        NodeKind::Closed,
        0,
        "INT , INT , CHAR",
        "nothing",
    ),
    (
        "( l: 1; 2 EXIT m: 3 )",
        NodeKind::Closed,
        0,
        "INT , INT",
        "nothing",
    ),
    (
        "( 1 EXIT l: ( 2 EXIT m: TRUE ) )",
        NodeKind::Closed,
        0,
        "INT , INT , BOOL",
        "nothing",
    ),
    (
        "( 1 EXIT l: nosuch )",
        NodeKind::Closed,
        0,
        "unknown",
        "nothing",
    ),
    (
        "( nosuch EXIT l: 1 )",
        NodeKind::Closed,
        0,
        "unknown",
        "nothing",
    ),
    (
        "( BOOL b; ( b | 1 | GOTO l ); l: SKIP )",
        NodeKind::Conditional,
        10,
        "INT , ~",
        "BOOL",
    ),
    (
        "( [1:3] INT a; ( a EXIT l: SKIP )[1] )",
        NodeKind::Slice,
        15,
        "REF INT",
        "REF [] INT",
    ),
];

#[test]
fn labels_jumps_and_exits(rt: HostRuntime) {
    are_told(&rt, rt.alloc(), LABELLED);
}

#[test]
fn written_modes(rt: HostRuntime) {
    are_told(&rt, rt.alloc(), WRITTEN);
}

#[test]
fn choices(rt: HostRuntime) {
    are_told(&rt, rt.alloc(), CHOSEN);
}

#[test]
fn balanced_choices_and_closed_clauses(rt: HostRuntime) {
    are_told(&rt, rt.alloc(), BALANCED);
    are_told(&rt, rt.alloc(), HANDED);
}
