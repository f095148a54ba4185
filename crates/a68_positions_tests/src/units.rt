//! What is asked of the units and parts of units, by hand from the text (Report, 3.3.1, 3.4.1, 4.4.1, 5.2.1, 5.2.2, 5.3, 5.4 and 6.1.1).
use crate::asked::{Named, Question, all_are_asked};
use a68_modes::Sort;
use a68_tree::NodeKind;

/// Of assignations and identity relations: a text, the kind of a node in it and the byte where that begins, and what is asked of it.
const ASSIGNATIONS: &[(&str, NodeKind, u32, Question)] = &[
    (
        "( INT a; a := 1; SKIP )",
        NodeKind::Tag,
        9,
        Question::Asks(Sort::Soft, Some(Named::Is(9))),
    ),
    (
        "( INT a; a := 1; SKIP )",
        NodeKind::Denotation,
        14,
        Question::Goal(Named::Is(1), Some(NodeKind::Assignation)),
    ),
    (
        "( STRING s; s := SKIP; SKIP )",
        NodeKind::Skip,
        17,
        Question::Goal(Named::Is(7), Some(NodeKind::Assignation)),
    ),
    (
        "( REF INT r; r := SKIP; SKIP )",
        NodeKind::Skip,
        18,
        Question::Goal(Named::Is(9), Some(NodeKind::Assignation)),
    ),
    (
        "( FLEX [1:0] BOOL b; b := SKIP; SKIP )",
        NodeKind::Skip,
        26,
        Question::Goal(Named::Is(11), Some(NodeKind::Assignation)),
    ),
    (
        "( [1:2] STRING s; s := SKIP; SKIP )",
        NodeKind::Skip,
        23,
        Question::Goal(Named::Row(1, false, 7), Some(NodeKind::Assignation)),
    ),
    (
        "( INT a; PROC f = REF INT: a; f := 1; SKIP )",
        NodeKind::Tag,
        30,
        Question::Asks(Sort::Soft, Some(Named::Is(9))),
    ),
    (
        "( 1 := 2; SKIP )",
        NodeKind::Denotation,
        2,
        Question::Asks(Sort::Soft, None),
    ),
    (
        "( 1 := 2; SKIP )",
        NodeKind::Denotation,
        7,
        Question::Unlooked,
    ),
    (
        "( INT a, b; a IS b; SKIP )",
        NodeKind::Tag,
        12,
        Question::Goal(Named::Is(9), Some(NodeKind::Identity)),
    ),
    (
        "( INT a, b; a IS b; SKIP )",
        NodeKind::Tag,
        17,
        Question::Goal(Named::Is(9), Some(NodeKind::Identity)),
    ),
    (
        "( REF INT r; INT a; r IS a; SKIP )",
        NodeKind::Tag,
        20,
        Question::Goal(Named::Is(9), Some(NodeKind::Identity)),
    ),
    (
        "( INT a; a IS NIL; SKIP )",
        NodeKind::Nil,
        14,
        Question::Goal(Named::Is(9), Some(NodeKind::Identity)),
    ),
    (
        "( 1 IS 2; SKIP )",
        NodeKind::Denotation,
        2,
        Question::Unlooked,
    ),
];

/// Of slices and selections: a text, the kind of a node in it and the byte where that begins, and what is asked of it.
const PARTS: &[(&str, NodeKind, u32, Question)] = &[
    (
        "( [1:3] INT a; a[1]; SKIP )",
        NodeKind::Tag,
        15,
        Question::Asks(Sort::Weak, Some(Named::NameOfRow(1, false, 1))),
    ),
    (
        "( [1:3] INT a; a[1]; SKIP )",
        NodeKind::Denotation,
        17,
        Question::Asks(Sort::Meek, Some(Named::Is(1))),
    ),
    (
        "( [1:3] INT a; a[1]; SKIP )",
        NodeKind::Index,
        17,
        Question::Nowhere,
    ),
    (
        "( [1:3] INT a; a[1:2]; SKIP )",
        NodeKind::Denotation,
        17,
        Question::Asks(Sort::Meek, Some(Named::Is(1))),
    ),
    (
        "( [1:3] INT a; a[1:2]; SKIP )",
        NodeKind::Denotation,
        19,
        Question::Asks(Sort::Meek, Some(Named::Is(1))),
    ),
    (
        "( [1:3] INT a; a[1:2 AT 0]; SKIP )",
        NodeKind::Denotation,
        24,
        Question::Asks(Sort::Meek, Some(Named::Is(1))),
    ),
    (
        "( [1:3] INT a; a[TRUE]; SKIP )",
        NodeKind::Denotation,
        17,
        Question::Asks(Sort::Meek, None),
    ),
    (
        "( INT a; a[1]; SKIP )",
        NodeKind::Tag,
        9,
        Question::Asks(Sort::Weak, None),
    ),
    (
        "( STRUCT (INT a, BOOL b) s; a OF s; SKIP )",
        NodeKind::Tag,
        33,
        Question::Asks(Sort::Weak, Some(Named::NameOfStructure(2))),
    ),
    (
        "( INT a; a OF a; SKIP )",
        NodeKind::Tag,
        14,
        Question::Asks(Sort::Weak, None),
    ),
];

/// Of calls: a text, the kind of a node in it and the byte where that begins, and what is asked of it.
const CALLS: &[(&str, NodeKind, u32, Question)] = &[
    (
        "( PROC f = (INT a) BOOL: TRUE; f(1); SKIP )",
        NodeKind::Tag,
        31,
        Question::Asks(Sort::Meek, Some(Named::Proc(&[1], 2))),
    ),
    (
        "( PROC f = (INT a) BOOL: TRUE; f(1); SKIP )",
        NodeKind::Denotation,
        33,
        Question::Goal(Named::Is(1), Some(NodeKind::Call)),
    ),
    (
        "( PROC f = (INT a, BOOL b) BOOL: TRUE; f(1, TRUE); SKIP )",
        NodeKind::Denotation,
        44,
        Question::Goal(Named::Is(2), Some(NodeKind::Call)),
    ),
    (
        "( PROC f = (STRING s) BOOL: TRUE; f(SKIP); SKIP )",
        NodeKind::Skip,
        36,
        Question::Goal(Named::Is(7), Some(NodeKind::Call)),
    ),
    (
        "( PROC f = (INT a) BOOL: TRUE; f(1, 2); SKIP )",
        NodeKind::Denotation,
        33,
        Question::Unlooked,
    ),
    (
        "( INT a; a(1); SKIP )",
        NodeKind::Tag,
        9,
        Question::Asks(Sort::Meek, None),
    ),
    (
        "( INT a; a(1); SKIP )",
        NodeKind::Denotation,
        11,
        Question::Unlooked,
    ),
    ("( print(1); SKIP )", NodeKind::Tag, 2, Question::Called),
    (
        "( print(1); SKIP )",
        NodeKind::Denotation,
        8,
        Question::Goal(Named::Is(8), Some(NodeKind::Call)),
    ),
    (
        "( write(1); SKIP )",
        NodeKind::Denotation,
        8,
        Question::Goal(Named::Is(8), Some(NodeKind::Call)),
    ),
    (
        "( print((1, 2)); SKIP )",
        NodeKind::Collateral,
        8,
        Question::Items,
    ),
    (
        "( print((1, 2)); SKIP )",
        NodeKind::Denotation,
        12,
        Question::Goal(Named::Is(8), Some(NodeKind::Call)),
    ),
    (
        "( print(1, 2); SKIP )",
        NodeKind::Denotation,
        11,
        Question::Unlooked,
    ),
    ("( whole(1, 2); SKIP )", NodeKind::Tag, 2, Question::Called),
    (
        "( whole(1, 2); SKIP )",
        NodeKind::Denotation,
        8,
        Question::Goal(Named::Union(2), Some(NodeKind::Call)),
    ),
    (
        "( whole(1, 2); SKIP )",
        NodeKind::Denotation,
        11,
        Question::Goal(Named::Is(1), Some(NodeKind::Call)),
    ),
    (
        "( whole(1); SKIP )",
        NodeKind::Denotation,
        8,
        Question::Unlooked,
    ),
    (
        "( print; SKIP )",
        NodeKind::Tag,
        2,
        Question::Goal(Named::Is(0), Some(NodeKind::Serial)),
    ),
    (
        "( print((1)); SKIP )",
        NodeKind::Denotation,
        9,
        Question::Goal(Named::Is(8), Some(NodeKind::Call)),
    ),
    (
        "( print(IF TRUE THEN (1, 2) ELSE 3 FI); SKIP )",
        NodeKind::Denotation,
        22,
        Question::Unlooked,
    ),
];

/// Of formulas: a text, the kind of a node in it and the byte where that begins, and what is asked of it.
const FORMULAS: &[(&str, NodeKind, u32, Question)] = &[
    (
        "( 1 + 2; SKIP )",
        NodeKind::Denotation,
        6,
        Question::Goal(Named::Is(1), Some(NodeKind::Dyadic)),
    ),
    (
        "( 2r1 SHL 3; SKIP )",
        NodeKind::Denotation,
        2,
        Question::Goal(Named::Is(4), Some(NodeKind::Dyadic)),
    ),
    (
        "( 2r1 SHL 3; SKIP )",
        NodeKind::Denotation,
        10,
        Question::Goal(Named::Is(1), Some(NodeKind::Dyadic)),
    ),
    (
        "( INT a; a +:= 1; SKIP )",
        NodeKind::Tag,
        9,
        Question::Goal(Named::Is(9), Some(NodeKind::Dyadic)),
    ),
    (
        "( - 1; SKIP )",
        NodeKind::Denotation,
        4,
        Question::Goal(Named::Is(1), Some(NodeKind::Monadic)),
    ),
    (
        "( TRUE + 1; SKIP )",
        NodeKind::Denotation,
        9,
        Question::Unlooked,
    ),
    (
        "( [1:3] INT a; UPB a; SKIP )",
        NodeKind::Tag,
        19,
        Question::Goal(Named::NameOfRow(1, false, 1), Some(NodeKind::Monadic)),
    ),
    (
        "( [1:3] INT a; 1 UPB a; SKIP )",
        NodeKind::Tag,
        21,
        Question::Goal(Named::NameOfRow(1, false, 1), Some(NodeKind::Dyadic)),
    ),
    (
        "( [1:3] INT a; 1 UPB a; SKIP )",
        NodeKind::Denotation,
        15,
        Question::Goal(Named::Is(1), Some(NodeKind::Dyadic)),
    ),
    (
        "( [1:3] INT a, b; UPB IF TRUE THEN a ELSE b FI; SKIP )",
        NodeKind::Tag,
        35,
        Question::Goal(Named::NameOfRow(1, false, 1), Some(NodeKind::Monadic)),
    ),
    (
        "( UPB 1; SKIP )",
        NodeKind::Denotation,
        6,
        Question::Unlooked,
    ),
    (
        "( OP % = (BOOL a, INT b) INT: 1; TRUE % 2; SKIP )",
        NodeKind::Denotation,
        33,
        Question::Goal(Named::Is(2), Some(NodeKind::Dyadic)),
    ),
    (
        "( OP % = (BOOL a, INT b) INT: 1; TRUE % 2; SKIP )",
        NodeKind::Denotation,
        40,
        Question::Goal(Named::Is(1), Some(NodeKind::Dyadic)),
    ),
    (
        "( OP MINE = (BOOL a) INT: 1; MINE TRUE; SKIP )",
        NodeKind::Denotation,
        34,
        Question::Goal(Named::Is(2), Some(NodeKind::Monadic)),
    ),
    (
        "( UPB \"ab\"; SKIP )",
        NodeKind::Denotation,
        6,
        Question::Goal(Named::Is(7), Some(NodeKind::Monadic)),
    ),
    (
        "( FLEX [1:0] INT a; UPB a; SKIP )",
        NodeKind::Tag,
        24,
        Question::Goal(Named::NameOfRow(1, true, 1), Some(NodeKind::Monadic)),
    ),
    (
        "( REF [] INT r; UPB r; SKIP )",
        NodeKind::Tag,
        20,
        Question::Goal(Named::NameOfRow(1, false, 1), Some(NodeKind::Monadic)),
    ),
];

/// Of displays: a text, the kind of a node in it and the byte where that begins, and what is asked of it.
const DISPLAYS: &[(&str, NodeKind, u32, Question)] = &[
    (
        "( [] INT a = (1, 2); SKIP )",
        NodeKind::Denotation,
        14,
        Question::Goal(Named::Is(1), Some(NodeKind::Collateral)),
    ),
    (
        "( [,] INT a = ((1, 2), (3, 4)); SKIP )",
        NodeKind::Collateral,
        15,
        Question::Goal(Named::Row(1, false, 1), Some(NodeKind::Collateral)),
    ),
    (
        "( [,] INT a = ((1, 2), (3, 4)); SKIP )",
        NodeKind::Denotation,
        16,
        Question::Goal(Named::Is(1), Some(NodeKind::Collateral)),
    ),
    (
        "( [,,] INT a = (SKIP, SKIP); SKIP )",
        NodeKind::Skip,
        22,
        Question::Goal(Named::Row(2, false, 1), Some(NodeKind::Collateral)),
    ),
    (
        "( [] STRING a = (SKIP, SKIP); SKIP )",
        NodeKind::Skip,
        17,
        Question::Goal(Named::Is(7), Some(NodeKind::Collateral)),
    ),
    (
        "( [] INT a = (); SKIP )",
        NodeKind::Vacuum,
        13,
        Question::Goal(Named::Row(1, false, 1), Some(NodeKind::IdentityDefinition)),
    ),
    (
        "( STRUCT (INT a, BOOL b) s := (1, TRUE); SKIP )",
        NodeKind::Denotation,
        34,
        Question::Goal(Named::Is(2), Some(NodeKind::Collateral)),
    ),
    (
        "( STRUCT (INT a, BOOL b) s := (1, TRUE, 3); SKIP )",
        NodeKind::Denotation,
        31,
        Question::Unlooked,
    ),
    (
        "( INT a := (1, 2); SKIP )",
        NodeKind::Denotation,
        12,
        Question::Unlooked,
    ),
    (
        "( (1, 2); SKIP )",
        NodeKind::Denotation,
        3,
        Question::Goal(Named::Is(0), Some(NodeKind::Collateral)),
    ),
    (
        "( (1, 2) := 3; SKIP )",
        NodeKind::Denotation,
        3,
        Question::Unlooked,
    ),
    (
        "( STRUCT (STRING a, BOOL b) s := (SKIP, TRUE); SKIP )",
        NodeKind::Skip,
        34,
        Question::Goal(Named::Is(7), Some(NodeKind::Collateral)),
    ),
    (
        "( STRUCT (REF STRING a, BOOL b) s := (SKIP, TRUE); SKIP )",
        NodeKind::Skip,
        38,
        Question::Goal(Named::Is(10), Some(NodeKind::Collateral)),
    ),
];

#[test]
fn assignations_and_identity_relations(rt: HostRuntime) {
    all_are_asked(&rt, rt.alloc(), ASSIGNATIONS);
}

#[test]
fn slices_and_selections(rt: HostRuntime) {
    all_are_asked(&rt, rt.alloc(), PARTS);
}

#[test]
fn calls(rt: HostRuntime) {
    all_are_asked(&rt, rt.alloc(), CALLS);
}

#[test]
fn formulas(rt: HostRuntime) {
    all_are_asked(&rt, rt.alloc(), FORMULAS);
}

#[test]
fn displays(rt: HostRuntime) {
    all_are_asked(&rt, rt.alloc(), DISPLAYS);
}
