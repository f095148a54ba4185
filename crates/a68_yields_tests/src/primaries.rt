//! What primaries and selections may yield, by hand from the text (Report, 5.3, 5.4.3, 4.8 and 8).
use crate::units::{Expected, are_told};
use a68_tree::NodeKind;

/// Denotations.
const DENOTED: &[Expected] = &[
    ("( 1 )", NodeKind::Denotation, 2, "INT", "nothing"),
    ("( TRUE )", NodeKind::Denotation, 2, "BOOL", "nothing"),
    ("( FALSE )", NodeKind::Denotation, 2, "BOOL", "nothing"),
    ("( 2r101 )", NodeKind::Denotation, 2, "BITS", "nothing"),
    (
        "( LONG 1 )",
        NodeKind::LongDenotation,
        2,
        "LONGINT",
        "nothing",
    ),
    ("( \"a\" )", NodeKind::Denotation, 2, "CHAR", "nothing"),
    ("( \"r\" )", NodeKind::Denotation, 2, "CHAR", "nothing"),
    ("( \"\"\"\" )", NodeKind::Denotation, 2, "CHAR", "nothing"),
    ("( \"ab\" )", NodeKind::Denotation, 2, "[] CHAR", "nothing"),
    ("( \"\" )", NodeKind::Denotation, 2, "[] CHAR", "nothing"),
    (
        "( \"a\"\"\" )",
        NodeKind::Denotation,
        2,
        "[] CHAR",
        "nothing",
    ),
];

/// Tags, by their definitions.
const TAGGED: &[Expected] = &[
    ("( INT x; x )", NodeKind::Tag, 9, "REF INT", "nothing"),
    ("( INT x = 1; x )", NodeKind::Tag, 13, "INT", "nothing"),
    (
        "( FLEX [1:0] INT a; a )",
        NodeKind::Tag,
        20,
        "REF FLEX[] INT",
        "nothing",
    ),
    (
        "( STRING s = \"ab\"; s )",
        NodeKind::Tag,
        19,
        "[] CHAR",
        "nothing",
    ),
    (
        "( PROC p = INT: 1; p )",
        NodeKind::Tag,
        19,
        "PROC ( ) INT",
        "nothing",
    ),
    (
        "( PROC p := INT: 1; p )",
        NodeKind::Tag,
        20,
        "REF PROC ( ) INT",
        "nothing",
    ),
    (
        "( PROC (INT) STRING f = SKIP; f )",
        NodeKind::Tag,
        30,
        "PROC ( INT ) [] CHAR",
        "nothing",
    ),
    (
        "( PROC f = (BOOL b) INT: ( b | 1 | 2 ); SKIP )",
        NodeKind::Tag,
        27,
        "BOOL",
        "nothing",
    ),
    (
        "( PROC f = (STRING s) INT: ( s; 1 ); SKIP )",
        NodeKind::Tag,
        29,
        "[] CHAR",
        "nothing",
    ),
    (
        "( PROC f = (INT a, BOOL b, c) INT: ( c; 1 ); SKIP )",
        NodeKind::Tag,
        37,
        "BOOL",
        "nothing",
    ),
    (
        "( FOR i TO 3 DO i OD )",
        NodeKind::Tag,
        16,
        "INT",
        "nothing",
    ),
    (
        "( UNION (INT, BOOL) u = 1; CASE u IN (INT n): n, (BOOL b): 2 ESAC )",
        NodeKind::Tag,
        46,
        "INT",
        "nothing",
    ),
    (
        "( UNION (INT, BOOL) u; u )",
        NodeKind::Tag,
        23,
        "REF UNION",
        "nothing",
    ),
    (
        "( INT x; ( BOOL x; x ) )",
        NodeKind::Tag,
        19,
        "REF BOOL",
        "nothing",
    ),
    ("( maxint )", NodeKind::Tag, 2, "INT", "nothing"),
    ("( long max int )", NodeKind::Tag, 2, "LONGINT", "nothing"),
    ("( long int width )", NodeKind::Tag, 2, "INT", "nothing"),
    ("( bitswidth )", NodeKind::Tag, 2, "INT", "nothing"),
    ("( newline )", NodeKind::Tag, 2, "LAYOUT", "nothing"),
    ("( space )", NodeKind::Tag, 2, "LAYOUT", "nothing"),
    ("( print )", NodeKind::Tag, 2, "unknown", "nothing"),
    (
        "( BOOL print; print )",
        NodeKind::Tag,
        14,
        "REF BOOL",
        "nothing",
    ),
    ("( nosuch )", NodeKind::Tag, 2, "unknown", "nothing"),
];

/// Slices, and their indexes: a subscript is asked for INT, a trimmer for nothing.
const SLICED: &[Expected] = &[
    (
        "( [1:3] INT a; a[1] )",
        NodeKind::Slice,
        15,
        "REF INT",
        "REF [] INT",
    ),
    (
        "( [] INT a = (1, 2); a[1] )",
        NodeKind::Slice,
        21,
        "INT",
        "[] INT",
    ),
    (
        "( [1:3] INT a; a[1:2] )",
        NodeKind::Slice,
        15,
        "REF [] INT",
        "REF [] INT",
    ),
    (
        "( [1:2,1:3] INT a; a[1,2] )",
        NodeKind::Slice,
        19,
        "REF INT",
        "REF [,] INT",
    ),
    (
        "( [1:2,1:3] INT a; a[1,] )",
        NodeKind::Slice,
        19,
        "REF [] INT",
        "REF [,] INT",
    ),
    (
        "( [1:2,1:3] INT a; a[:2,1] )",
        NodeKind::Slice,
        19,
        "REF [] INT",
        "REF [,] INT",
    ),
    (
        "( [1:2,1:3] INT a; a[,1:2] )",
        NodeKind::Slice,
        19,
        "REF [,] INT",
        "REF [,] INT",
    ),
    (
        "( [,] INT a = SKIP; a[1,] )",
        NodeKind::Slice,
        20,
        "[] INT",
        "[,] INT",
    ),
    (
        "( [1:2,1:3] INT a; a[1] )",
        NodeKind::Slice,
        19,
        "unknown",
        "REF [,] INT",
    ),
    (
        "( [1:3] INT a; a[1,2] )",
        NodeKind::Slice,
        15,
        "unknown",
        "REF [] INT",
    ),
    (
        "( [1:3] INT a; a[,] )",
        NodeKind::Slice,
        15,
        "unknown",
        "REF [] INT",
    ),
    (
        "( STRING s; s[1] )",
        NodeKind::Slice,
        12,
        "REF CHAR",
        "REF FLEX[] CHAR",
    ),
    (
        "( STRING s; s[1:2] )",
        NodeKind::Slice,
        12,
        "REF [] CHAR",
        "REF FLEX[] CHAR",
    ),
    (
        "( [1:2] STRING a; a[1] )",
        NodeKind::Slice,
        18,
        "REF FLEX[] CHAR",
        "REF [] FLEX[] CHAR",
    ),
    (
        "( [1:2] [1:3] INT a; a[1] )",
        NodeKind::Slice,
        21,
        "REF [] INT",
        "REF [] [] INT",
    ),
    (
        "( [1:2] [1:3] INT a; a[1][2] )",
        NodeKind::Slice,
        21,
        "REF INT",
        "REF [] INT",
    ),
    (
        "( REF [] INT r; r[1] )",
        NodeKind::Slice,
        16,
        "REF INT",
        "REF [] INT",
    ),
    (
        "( PROC f = [] INT: (1, 2); f[1] )",
        NodeKind::Slice,
        27,
        "INT",
        "[] INT",
    ),
    ("( INT i; i[1] )", NodeKind::Slice, 9, "unknown", "none"),
    (
        "( [1:3] INT a; INT i; a[i] )",
        NodeKind::Index,
        24,
        "unknown",
        "INT",
    ),
    (
        "( [1:3] INT a; a[TRUE] )",
        NodeKind::Index,
        17,
        "unknown",
        "none",
    ),
    (
        "( [1:3] INT a; a[1:2] )",
        NodeKind::Index,
        17,
        "unknown",
        "nothing",
    ),
    (
        "( [1:3] INT a; a[1:2] )",
        NodeKind::Lower,
        17,
        "unknown",
        "INT",
    ),
];

/// Selections.
const SELECTED: &[Expected] = &[
    (
        "( STRUCT (INT n, BOOL b) s; n OF s )",
        NodeKind::Selection,
        28,
        "REF INT",
        "REF STRUCT",
    ),
    (
        "( STRUCT (INT n, BOOL b) s = (1, TRUE); b OF s )",
        NodeKind::Selection,
        40,
        "BOOL",
        "STRUCT",
    ),
    (
        "( STRUCT (STRING t) s; t OF s )",
        NodeKind::Selection,
        23,
        "REF FLEX[] CHAR",
        "REF STRUCT",
    ),
    (
        "( STRUCT (STRING t) s = SKIP; t OF s )",
        NodeKind::Selection,
        30,
        "[] CHAR",
        "STRUCT",
    ),
    (
        "( REF STRUCT (INT n) r; n OF r )",
        NodeKind::Selection,
        24,
        "REF INT",
        "REF STRUCT",
    ),
    (
        "( [1:2] STRUCT (INT n, BOOL b) s; b OF s )",
        NodeKind::Selection,
        34,
        "REF [] BOOL",
        "REF [] STRUCT",
    ),
    (
        "( [,] STRUCT (INT n) s = SKIP; n OF s )",
        NodeKind::Selection,
        31,
        "[,] INT",
        "[,] STRUCT",
    ),
    (
        "( FLEX [1:0] STRUCT (INT n) s; n OF s )",
        NodeKind::Selection,
        31,
        "REF [] INT",
        "REF FLEX[] STRUCT",
    ),
    (
        "( STRUCT (INT n) s; x OF s )",
        NodeKind::Selection,
        20,
        "unknown",
        "REF STRUCT",
    ),
    (
        "( INT i; n OF i )",
        NodeKind::Selection,
        9,
        "unknown",
        "none",
    ),
];

/// Calls.
const CALLED: &[Expected] = &[
    (
        "( PROC f = (INT n) BOOL: TRUE; f(1) )",
        NodeKind::Call,
        31,
        "BOOL",
        "PROC ( INT ) BOOL",
    ),
    (
        "( PROC (INT) STRING f; f(1) )",
        NodeKind::Call,
        23,
        "[] CHAR",
        "PROC ( INT ) [] CHAR",
    ),
    (
        "( PROC f = (INT n) PROC (INT) BOOL: SKIP; f(1)(2) )",
        NodeKind::Call,
        42,
        "BOOL",
        "PROC ( INT ) BOOL",
    ),
    ("( INT i; i(1) )", NodeKind::Call, 9, "unknown", "none"),
    (
        "( PROC p = VOID: SKIP; p(1) )",
        NodeKind::Call,
        23,
        "unknown",
        "none",
    ),
    ("( print(1) )", NodeKind::Call, 2, "VOID", "nothing"),
    ("( write(newline) )", NodeKind::Call, 2, "VOID", "nothing"),
    ("( whole(1, 2) )", NodeKind::Call, 2, "[] CHAR", "nothing"),
    (
        "( PROC print = (INT n) INT: n; print(1) )",
        NodeKind::Call,
        31,
        "INT",
        "PROC ( INT ) INT",
    ),
];

#[test]
fn denotations_and_tags(rt: HostRuntime) {
    are_told(&rt, rt.alloc(), DENOTED);
    are_told(&rt, rt.alloc(), TAGGED);
}

#[test]
fn slices(rt: HostRuntime) {
    are_told(&rt, rt.alloc(), SLICED);
}

#[test]
fn selections_and_calls(rt: HostRuntime) {
    are_told(&rt, rt.alloc(), SELECTED);
    are_told(&rt, rt.alloc(), CALLED);
}
