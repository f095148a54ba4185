//! What assignations, identity relations and formulas may yield, by hand from the text (Report, 5.2 and 5.4.2).
use crate::units::{Expected, are_told};
use a68_tree::NodeKind;

/// Assignations.
const ASSIGNED: &[Expected] = &[
    (
        "( INT x; x := 1 )",
        NodeKind::Assignation,
        9,
        "REF INT",
        "REF INT",
    ),
    (
        "( REF INT r; INT x; r := x )",
        NodeKind::Assignation,
        20,
        "REF REF INT",
        "REF REF INT",
    ),
    (
        "( PROC f = REF INT: HEAP INT; f := 1 )",
        NodeKind::Assignation,
        30,
        "REF INT",
        "REF INT",
    ),
    (
        "( INT x = 1; x := 2 )",
        NodeKind::Assignation,
        13,
        "unknown",
        "none",
    ),
    (
        "( BOOL b; INT x; ( b | x | SKIP ) := 1 )",
        NodeKind::Assignation,
        17,
        "REF INT",
        "REF INT",
    ),
    (
        "( BOOL b; INT x; ( b | x ) := 1 )",
        NodeKind::Assignation,
        17,
        "REF INT",
        "REF INT",
    ),
    (
        "( BOOL b; INT x; ( b | x | 2 ) := 1 )",
        NodeKind::Assignation,
        17,
        "unknown",
        "none",
    ),
    (
        "( BOOL b; INT x; REF INT r; ( b | r | x ) := 1 )",
        NodeKind::Assignation,
        28,
        "REF INT",
        "REF INT",
    ),
];

/// Identity relations.
const COMPARED: &[Expected] = &[
    (
        "( INT x, y; x IS y )",
        NodeKind::Identity,
        12,
        "BOOL",
        "REF INT",
    ),
    (
        "( REF INT r, s; r IS s )",
        NodeKind::Identity,
        16,
        "BOOL",
        "REF REF INT",
    ),
    (
        "( REF INT r; INT x; r IS x )",
        NodeKind::Identity,
        20,
        "BOOL",
        "REF INT",
    ),
    (
        "( REF INT r; INT x; x IS r )",
        NodeKind::Identity,
        20,
        "BOOL",
        "REF INT",
    ),
    (
        "( REF REF INT p; REF INT r; p IS r )",
        NodeKind::Identity,
        28,
        "BOOL",
        "REF REF INT",
    ),
    (
        "( INT x; x ISNT NIL )",
        NodeKind::Identity,
        9,
        "BOOL",
        "REF INT",
    ),
    (
        "( INT x; NIL IS x )",
        NodeKind::Identity,
        9,
        "BOOL",
        "REF INT",
    ),
    ("( 1 IS 2 )", NodeKind::Identity, 2, "BOOL", "none"),
    (
        "( INT x; BOOL b; x IS b )",
        NodeKind::Identity,
        17,
        "BOOL",
        "none",
    ),
    (
        "( INT x; x IS nosuch )",
        NodeKind::Identity,
        9,
        "BOOL",
        "none",
    ),
];

/// Formulas.
const COMPUTED: &[Expected] = &[
    ("( 1 + 2 )", NodeKind::Dyadic, 2, "INT", "row 15 1 1"),
    ("( 1 < 2 )", NodeKind::Dyadic, 2, "BOOL", "row 11 1 1"),
    (
        "( STRING s; s +:= \"a\" )",
        NodeKind::Dyadic,
        12,
        "REF FLEX[] CHAR",
        "row 1 10 3",
    ),
    (
        "( \"a\" + \"b\" )",
        NodeKind::Dyadic,
        2,
        "[] CHAR",
        "row 15 3 3",
    ),
    ("( - 1 )", NodeKind::Monadic, 2, "INT", "row 27 0 1"),
    ("( ODD 3 )", NodeKind::Monadic, 2, "BOOL", "row 31 0 1"),
    (
        "( SEMA s; UP s )",
        NodeKind::Monadic,
        10,
        "VOID",
        "row 35 0 5",
    ),
    (
        "( [1:3] INT a; UPB a )",
        NodeKind::Monadic,
        15,
        "INT",
        "row 38 0 0",
    ),
    (
        "( OP + = (BOOL a, b) INT: 1; TRUE + FALSE )",
        NodeKind::Dyadic,
        29,
        "INT",
        "own 5",
    ),
    (
        "( OP (INT, INT) BOOL - = SKIP; 1 - 2 )",
        NodeKind::Dyadic,
        31,
        "BOOL",
        "own 21",
    ),
    (
        "( OP NOT = (INT a) STRING: SKIP; NOT 1 )",
        NodeKind::Monadic,
        33,
        "[] CHAR",
        "own 5",
    ),
    ("( TRUE + FALSE )", NodeKind::Dyadic, 2, "unknown", "none"),
    ("( - ( SKIP ) )", NodeKind::Monadic, 2, "unknown", "none"),
    ("( - nosuch )", NodeKind::Monadic, 2, "unknown", "none"),
    ("( 1 + nosuch )", NodeKind::Dyadic, 2, "unknown", "none"),
    (
        "( BOOL b; ( b | 1 | 2 ) + 3 )",
        NodeKind::Dyadic,
        10,
        "INT",
        "row 15 1 1",
    ),
    (
        "( BOOL b; ( b | 1 ) + 3 )",
        NodeKind::Dyadic,
        10,
        "INT",
        "row 15 1 1",
    ),
    (
        "( BOOL b; INT x; ( b | x | 1 ) + 3 )",
        NodeKind::Dyadic,
        17,
        "INT",
        "row 15 1 1",
    ),
    (
        "( BOOL b; ( b | 1 | TRUE ) + 3 )",
        NodeKind::Dyadic,
        10,
        "unknown",
        "none",
    ),
];

#[test]
fn assignations_and_relations(rt: HostRuntime) {
    are_told(&rt, rt.alloc(), ASSIGNED);
    are_told(&rt, rt.alloc(), COMPARED);
}

#[test]
fn formulas_of_operators(rt: HostRuntime) {
    are_told(&rt, rt.alloc(), COMPUTED);
}
