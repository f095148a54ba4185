//! What is asked of clauses, choices, definitions and routine texts, by hand from the text (Report, 3.3.1, 3.4.1, 4.4.1, 5.2.1, 5.2.2, 5.3, 5.4 and 6.1.1).
use crate::asked::{Named, Question, all_are_asked};
use a68_modes::Sort;
use a68_tree::NodeKind;

/// Of closed, serial and parallel clauses, casts and loops: a text, the kind of a node in it and the byte where that begins, and what is asked of it.
const CLAUSES: &[(&str, NodeKind, u32, Question)] = &[
    (
        "( INT a; SKIP )",
        NodeKind::Closed,
        0,
        Question::Goal(Named::Is(0), None),
    ),
    (
        "( INT a; SKIP )",
        NodeKind::Serial,
        2,
        Question::Goal(Named::Is(0), None),
    ),
    (
        "( INT a; SKIP )",
        NodeKind::Skip,
        9,
        Question::Goal(Named::Is(0), None),
    ),
    (
        "( INT a; SKIP )",
        NodeKind::Variable,
        6,
        Question::Goal(Named::Is(0), Some(NodeKind::Serial)),
    ),
    ("( INT a; SKIP )", NodeKind::Declarer, 2, Question::Nowhere),
    (
        "( INT a; 1; SKIP )",
        NodeKind::Denotation,
        9,
        Question::Goal(Named::Is(0), Some(NodeKind::Serial)),
    ),
    (
        "( ( 1; 2 ); SKIP )",
        NodeKind::Closed,
        2,
        Question::Goal(Named::Is(0), Some(NodeKind::Serial)),
    ),
    (
        "( ( 1; 2 ); SKIP )",
        NodeKind::Denotation,
        7,
        Question::Goal(Named::Is(0), Some(NodeKind::Serial)),
    ),
    (
        "( INT ( 2 ); SKIP )",
        NodeKind::Denotation,
        8,
        Question::Goal(Named::Is(1), Some(NodeKind::Cast)),
    ),
    (
        "( REF INT ( SKIP ); SKIP )",
        NodeKind::Skip,
        12,
        Question::Goal(Named::Is(9), Some(NodeKind::Cast)),
    ),
    (
        "( STRING ( SKIP ); SKIP )",
        NodeKind::Skip,
        11,
        Question::Goal(Named::Is(7), Some(NodeKind::Cast)),
    ),
    (
        "( VOID ( 1 ); SKIP )",
        NodeKind::Denotation,
        9,
        Question::Goal(Named::Is(0), Some(NodeKind::Cast)),
    ),
    (
        "( PAR ( SKIP, SKIP ); SKIP )",
        NodeKind::Skip,
        8,
        Question::Goal(Named::Is(0), Some(NodeKind::Parallel)),
    ),
    (
        "( PAR ( SKIP, 1 ); SKIP )",
        NodeKind::Denotation,
        14,
        Question::Goal(Named::Is(0), Some(NodeKind::Parallel)),
    ),
    (
        "( FOR i FROM 1 BY 2 TO 3 WHILE TRUE DO SKIP OD; SKIP )",
        NodeKind::Denotation,
        13,
        Question::Asks(Sort::Meek, Some(Named::Is(1))),
    ),
    (
        "( FOR i FROM 1 BY 2 TO 3 WHILE TRUE DO SKIP OD; SKIP )",
        NodeKind::Denotation,
        18,
        Question::Asks(Sort::Meek, Some(Named::Is(1))),
    ),
    (
        "( FOR i FROM 1 BY 2 TO TRUE DO SKIP OD; SKIP )",
        NodeKind::Denotation,
        23,
        Question::Asks(Sort::Meek, None),
    ),
    (
        "( FOR i FROM 1 BY 2 TO 3 WHILE TRUE DO SKIP OD; SKIP )",
        NodeKind::Denotation,
        31,
        Question::Asks(Sort::Meek, Some(Named::Is(2))),
    ),
    (
        "( FOR i TO 3 DO SKIP OD; SKIP )",
        NodeKind::Skip,
        16,
        Question::Goal(Named::Is(0), Some(NodeKind::Loop)),
    ),
    (
        "( [1:3] INT a; SKIP )",
        NodeKind::Denotation,
        5,
        Question::Asks(Sort::Meek, Some(Named::Is(1))),
    ),
    (
        "( LOC [1:3] INT; SKIP )",
        NodeKind::Denotation,
        7,
        Question::Asks(Sort::Meek, Some(Named::Is(1))),
    ),
    (
        "( PROC f = INT: 1; f; SKIP )",
        NodeKind::Tag,
        19,
        Question::Goal(Named::Is(0), Some(NodeKind::Serial)),
    ),
];

/// Of choices: a text, the kind of a node in it and the byte where that begins, and what is asked of it.
const CHOICES: &[(&str, NodeKind, u32, Question)] = &[
    (
        "( INT ( IF TRUE THEN 1 ELSE 2 FI ); SKIP )",
        NodeKind::Denotation,
        11,
        Question::Asks(Sort::Meek, Some(Named::Is(2))),
    ),
    (
        "( INT ( IF TRUE THEN 1 ELSE 2 FI ); SKIP )",
        NodeKind::Denotation,
        21,
        Question::Goal(Named::Is(1), Some(NodeKind::Cast)),
    ),
    (
        "( INT ( IF TRUE THEN 1 ELSE 2 FI ); SKIP )",
        NodeKind::Denotation,
        28,
        Question::Goal(Named::Is(1), Some(NodeKind::Cast)),
    ),
    (
        "( IF TRUE THEN 1 ELIF FALSE THEN 2 FI; SKIP )",
        NodeKind::Denotation,
        33,
        Question::Goal(Named::Is(0), Some(NodeKind::Serial)),
    ),
    (
        "( IF TRUE THEN 1 ELIF FALSE THEN 2 FI; SKIP )",
        NodeKind::Denotation,
        22,
        Question::Asks(Sort::Meek, Some(Named::Is(2))),
    ),
    (
        "( IF 1 THEN 2 FI; SKIP )",
        NodeKind::Denotation,
        5,
        Question::Asks(Sort::Meek, None),
    ),
    (
        "( INT a, b; IF TRUE THEN a ELSE b FI := 1; SKIP )",
        NodeKind::Tag,
        25,
        Question::Goal(Named::Is(9), Some(NodeKind::Conditional)),
    ),
    (
        "( INT a, b; IF TRUE THEN a ELSE b FI := 1; SKIP )",
        NodeKind::Conditional,
        12,
        Question::Asks(Sort::Soft, Some(Named::Is(9))),
    ),
    (
        "( IF TRUE THEN 1 ELSE 2 FI := 3; SKIP )",
        NodeKind::Denotation,
        15,
        Question::Unlooked,
    ),
    (
        "( CASE 1 IN 2, 3 OUT 4 ESAC; SKIP )",
        NodeKind::Denotation,
        7,
        Question::Asks(Sort::Meek, Some(Named::Is(1))),
    ),
    (
        "( INT ( CASE 1 IN 2, 3 OUT 4 ESAC ); SKIP )",
        NodeKind::Denotation,
        18,
        Question::Goal(Named::Is(1), Some(NodeKind::Cast)),
    ),
    (
        "( INT ( CASE 1 IN 2, 3 OUT 4 ESAC ); SKIP )",
        NodeKind::Denotation,
        21,
        Question::Goal(Named::Is(1), Some(NodeKind::Cast)),
    ),
    (
        "( INT ( CASE 1 IN 2, 3 OUT 4 ESAC ); SKIP )",
        NodeKind::Denotation,
        27,
        Question::Goal(Named::Is(1), Some(NodeKind::Cast)),
    ),
    (
        "( UNION (INT, BOOL) u; CASE u IN (INT i): 1, (BOOL b): 2 ESAC; SKIP )",
        NodeKind::Tag,
        28,
        Question::Asks(Sort::Meek, Some(Named::Union(2))),
    ),
    (
        "( UNION (INT, BOOL) u; CASE u IN (INT i): 1, (BOOL b): 2 ESAC; SKIP )",
        NodeKind::Denotation,
        42,
        Question::Goal(Named::Is(0), Some(NodeKind::Serial)),
    ),
    (
        "( UNION (INT, BOOL) u; CASE u IN (INT i): 1, (BOOL b): 2 ESAC; SKIP )",
        NodeKind::Spec,
        33,
        Question::Nowhere,
    ),
    (
        "( CASE 1 IN (INT i): 1, (BOOL b): 2 ESAC; SKIP )",
        NodeKind::Denotation,
        7,
        Question::Asks(Sort::Meek, None),
    ),
    (
        "( PROC f = (INT a) BOOL: TRUE; IF TRUE THEN f ELSE f FI (1); SKIP )",
        NodeKind::Tag,
        44,
        Question::Goal(Named::Proc(&[1], 2), Some(NodeKind::Conditional)),
    ),
    (
        "( INT a, b; IF TRUE THEN IF FALSE THEN a ELSE b FI ELSE b FI := 1; SKIP )",
        NodeKind::Tag,
        39,
        Question::Goal(Named::Is(9), Some(NodeKind::Conditional)),
    ),
];

/// Of definitions and routine texts: a text, the kind of a node in it and the byte where that begins, and what is asked of it.
const DEFINITIONS: &[(&str, NodeKind, u32, Question)] = &[
    (
        "( INT a = 1; SKIP )",
        NodeKind::Denotation,
        10,
        Question::Goal(Named::Is(1), Some(NodeKind::IdentityDefinition)),
    ),
    (
        "( STRING s = SKIP; SKIP )",
        NodeKind::Skip,
        13,
        Question::Goal(Named::Is(7), Some(NodeKind::IdentityDefinition)),
    ),
    (
        "( INT a := 1; SKIP )",
        NodeKind::Denotation,
        11,
        Question::Goal(Named::Is(1), Some(NodeKind::Variable)),
    ),
    (
        "( STRING s := SKIP; SKIP )",
        NodeKind::Skip,
        14,
        Question::Goal(Named::Is(7), Some(NodeKind::Variable)),
    ),
    (
        "( HEAP INT a := 1; SKIP )",
        NodeKind::Denotation,
        16,
        Question::Goal(Named::Is(1), Some(NodeKind::Variable)),
    ),
    (
        "( INT a := 1, b := 2; SKIP )",
        NodeKind::Denotation,
        19,
        Question::Goal(Named::Is(1), Some(NodeKind::Variable)),
    ),
    (
        "( INT a := 1, b := 2; SKIP )",
        NodeKind::Variable,
        14,
        Question::Nowhere,
    ),
    (
        "( PROC f = INT: 1; SKIP )",
        NodeKind::RoutineText,
        11,
        Question::Goal(Named::Proc(&[], 1), Some(NodeKind::IdentityDefinition)),
    ),
    (
        "( PROC f = INT: 1; SKIP )",
        NodeKind::Denotation,
        16,
        Question::Goal(Named::Is(1), Some(NodeKind::RoutineText)),
    ),
    (
        "( PROC f := INT: 1; SKIP )",
        NodeKind::RoutineText,
        12,
        Question::Goal(Named::Proc(&[], 1), Some(NodeKind::Variable)),
    ),
    (
        "( PROC f = (INT a) STRING: SKIP; SKIP )",
        NodeKind::Skip,
        27,
        Question::Goal(Named::Is(7), Some(NodeKind::RoutineText)),
    ),
    (
        "( PROC f = (INT a) STRING: SKIP; SKIP )",
        NodeKind::Parameter,
        16,
        Question::Nowhere,
    ),
    (
        "( OP % = (INT a) BOOL: TRUE; SKIP )",
        NodeKind::RoutineText,
        9,
        Question::Goal(Named::Proc(&[1], 2), Some(NodeKind::OpDefinition)),
    ),
    (
        "( PROC f = (INT a) BOOL: TRUE; OP (INT) BOOL % = f; SKIP )",
        NodeKind::Tag,
        49,
        Question::Goal(Named::Proc(&[1], 2), Some(NodeKind::OpDefinition)),
    ),
    (
        "( PROC f = VOID: 1; SKIP )",
        NodeKind::Denotation,
        17,
        Question::Goal(Named::Is(0), Some(NodeKind::RoutineText)),
    ),
];

/// Of jumps and of serial clauses with labels and EXIT: a text, the kind of a node in it and the byte where that begins, and what is asked of it.
const LABELLED: &[(&str, NodeKind, u32, Question)] = &[
    ("( l: SKIP )", NodeKind::Label, 2, Question::Nowhere),
    (
        "( l: SKIP )",
        NodeKind::Skip,
        5,
        Question::Goal(Named::Is(0), None),
    ),
    ("( 1 EXIT l: SKIP )", NodeKind::Exit, 4, Question::Nowhere),
    (
        "( 1 EXIT l: SKIP )",
        NodeKind::Denotation,
        2,
        Question::Goal(Named::Is(0), None),
    ),
    (
        "( INT ( 1 EXIT l: 2 ); SKIP )",
        NodeKind::Denotation,
        8,
        Question::Goal(Named::Is(1), Some(NodeKind::Cast)),
    ),
    (
        "( INT ( 1 EXIT l: 2 ); SKIP )",
        NodeKind::Denotation,
        18,
        Question::Goal(Named::Is(1), Some(NodeKind::Cast)),
    ),
    (
        "( INT ( 1; 2 EXIT l: 3 ); SKIP )",
        NodeKind::Denotation,
        8,
        Question::Goal(Named::Is(0), Some(NodeKind::Serial)),
    ),
    (
        "( INT ( 1; 2 EXIT l: 3 ); SKIP )",
        NodeKind::Denotation,
        11,
        Question::Goal(Named::Is(1), Some(NodeKind::Cast)),
    ),
    (
        "( INT a, b; ( a EXIT l: b ) := 1; SKIP )",
        NodeKind::Serial,
        14,
        Question::Asks(Sort::Soft, Some(Named::Is(9))),
    ),
    (
        "( INT a, b; ( a EXIT l: b ) := 1; SKIP )",
        NodeKind::Tag,
        14,
        Question::Goal(Named::Is(9), Some(NodeKind::Serial)),
    ),
    (
        "( INT a, b; ( a EXIT l: b ) := 1; SKIP )",
        NodeKind::Tag,
        24,
        Question::Goal(Named::Is(9), Some(NodeKind::Serial)),
    ),
    (
        "( ( 1 EXIT l: 2 ) := 3; SKIP )",
        NodeKind::Denotation,
        4,
        Question::Unlooked,
    ),
    (
        "( l: GOTO l )",
        NodeKind::GoTo,
        5,
        Question::Goal(Named::Is(0), None),
    ),
    (
        "( l: INT ( GOTO l ); SKIP )",
        NodeKind::GoTo,
        11,
        Question::Goal(Named::Is(1), Some(NodeKind::Cast)),
    ),
    (
        "( BOOL b; INT x; ( b | x | GOTO l ) := 1; l: SKIP )",
        NodeKind::GoTo,
        27,
        Question::Goal(Named::Is(9), Some(NodeKind::Conditional)),
    ),
];

#[test]
fn jumps_labels_and_exits(rt: HostRuntime) {
    all_are_asked(&rt, rt.alloc(), LABELLED);
}

#[test]
fn closed_serial_and_parallel_clauses_casts_and_loops(rt: HostRuntime) {
    all_are_asked(&rt, rt.alloc(), CLAUSES);
}

#[test]
fn choices(rt: HostRuntime) {
    all_are_asked(&rt, rt.alloc(), CHOICES);
}

#[test]
fn definitions_and_routine_texts(rt: HostRuntime) {
    all_are_asked(&rt, rt.alloc(), DEFINITIONS);
}
