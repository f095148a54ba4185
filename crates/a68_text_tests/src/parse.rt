//! Texts, by hand from the grammar.
use crate::pieces::text_of;
use crate::table::{agrees, holds};
use a68_base::{Refusal, Rule, Stop};
use a68_parse::{parse, symbols_are_bounded};
use a68_symbols::symbols;
use a68_tree::Tree;
use a68_words::words;
use std::alloc::Global;
use std::panic::Expect;
use std::process::Abort;
use std::string::String;

/// Texts, and the kinds of their trees' nodes in the order of the list.
const TEXTS: &[(&str, &str)] = &[
    ("( )", "Vacuum"),
    ("BEGIN END", "Vacuum"),
    ("( 1, 2 )", "Collateral Denotation Denotation"),
    (
        "BEGIN x := 12 END",
        "Closed Serial Assignation Denotation Tag",
    ),
    ("PAR ( 1 )", "Parallel Denotation"),
    (
        "( 1 | 2 | 3 )",
        "Conditional Serial Denotation Serial Denotation Serial Denotation",
    ),
    (
        "( 1 | 2, 3 | 4 )",
        "Case Out Serial Denotation Denotation Denotation Serial Denotation",
    ),
    (
        "( 1 | INT a, c; a )",
        "Conditional Serial Tag Joined Variable Variable Declarer Serial Denotation",
    ),
    (
        "CASE 1 IN (INT a): 2 ESAC",
        "Conformity Denotation Spec Parameter Declarer Serial Denotation",
    ),
    (
        "IF a = b THEN x := 1 FI",
        "Conditional Serial Assignation Denotation Tag Serial Formula Sign Tag Tag",
    ),
    (
        "IF 1 THEN 2 ELIF 3 THEN 4 FI",
        "Conditional Conditional Serial Denotation Serial Denotation Serial Denotation Serial Denotation",
    ),
    ("FOR i TO 3 DO i OD", "Loop Serial Tag To Denotation For"),
    (
        "( a[1:2 AT 3] )",
        "Closed Serial Slice Index At Denotation Upper Denotation Lower Denotation Tag",
    ),
    (
        "( a OF b + - c )",
        "Closed Serial Formula Sign Sign Tag Selection Tag",
    ),
    (
        "( INT a, b := 1; a )",
        "Closed Serial Tag Joined Variable Denotation Variable Declarer",
    ),
    (
        "( PROC f = (INT a) INT: a; f(1) )",
        "Closed Serial Call Denotation Tag IdentityDefinition RoutineText Tag Declarer Parameter Declarer",
    ),
    (
        "( MODE M = REF INT; M(a) )",
        "Closed Serial Cast Closed Serial Tag Declarer ModeDefinition Declarer Declarer",
    ),
    ("( LOC INT; NIL )", "Closed Serial Nil Generator Declarer"),
    ("( a IS NIL )", "Closed Serial Identity Nil Tag"),
    (
        "( LONG INT i = LONG 1; - LONG 23 )",
        "Closed Serial Formula Sign LongDenotation IdentityDefinition LongDenotation Declarer",
    ),
    (
        "( LONG 3 + LONG INT (x) )",
        "Closed Serial Formula Sign Cast Closed Serial Tag Declarer LongDenotation",
    ),
    (
        "( OP M = (LONG INT a) LONG INT: a; M LOC LONG INT )",
        "Closed Serial Formula Sign Generator Declarer OpDefinition RoutineText Tag Declarer Parameter Declarer",
    ),
    (
        "( [LONG 1:2] LONG INT a, b := LONG 1; a[LONG 1:] )",
        "Closed Serial Slice Index Lower LongDenotation Tag Joined Variable LongDenotation Variable Declarer Declarer Bound Upper Denotation Lower LongDenotation",
    ),
    (
        "CASE 1 IN (LONG INT i): LONG 1, (STRUCT (LONG INT a, b) s): 2 ESAC",
        "Conformity Denotation Spec Parameter Declarer Field Field Declarer LongDenotation Spec Parameter Declarer Serial Denotation",
    ),
    (
        "FOR i FROM LONG 1 BY LONG 2 DO PROC (LONG INT, REF LONG INT) LONG INT p; i OD",
        "Loop Serial Tag Variable Declarer Declarer Declarer Declarer Declarer By LongDenotation From LongDenotation For",
    ),
];

/// Texts with labels, jumps and EXIT, and the kinds of their trees' nodes.
const LABELLED: &[(&str, &str)] = &[
    ("( l: SKIP )", "Closed Serial Skip Label"),
    (
        "( l: m: n: 1 )",
        "Closed Serial Denotation Label Label Label",
    ),
    (
        "( 1 EXIT l: 2 )",
        "Closed Serial Denotation Label Exit Denotation",
    ),
    (
        "( 1; 2 EXIT l: 3 EXIT m: n: 4; 5 )",
        "Closed Serial Denotation Denotation Label Label Exit Denotation Label Exit Denotation Denotation",
    ),
    (
        "( INT i; l: i := 1; m: n: GO TO l )",
        "Closed Serial GoTo Label Label Assignation Denotation Tag Label Variable Declarer",
    ),
    (
        "BEGIN a; l: b EXIT m: GOTO m END",
        "Closed Serial GoTo Label Exit Tag Label Tag",
    ),
    ("BEGIN l: BEGIN END END", "Closed Serial Vacuum Label"),
    (
        "( a | l: 1 | m: 2 )",
        "Conditional Serial Denotation Label Serial Denotation Label Serial Tag",
    ),
    (
        "( a | b |: c | d EXIT l: e | f )",
        "Conditional Conditional Serial Tag Serial Tag Label Exit Tag Serial Tag Serial Tag Serial Tag",
    ),
    (
        "( INT a; b | 1 | 2 )",
        "Conditional Serial Denotation Serial Denotation Serial Tag Variable Declarer",
    ),
    (
        "IF a THEN l: 1 EXIT m: 2 ELSE n: 3 FI",
        "Conditional Serial Denotation Label Serial Denotation Label Exit Denotation Label Serial Tag",
    ),
    (
        "( 1; GOTO l | 2, 3 | m: 4 )",
        "Case Out Serial Denotation Label Denotation Denotation Serial GoTo Denotation",
    ),
    (
        "CASE 1 IN 2, 3 OUT l: 4 ESAC",
        "Case Out Serial Denotation Label Denotation Denotation Serial Denotation",
    ),
    (
        "WHILE a; b DO l: c; m: GO TO l OD",
        "Loop Serial GoTo Label Tag Label While Serial Tag Tag",
    ),
    (
        "( a[l:3] )",
        "Closed Serial Slice Index Upper Denotation Lower Tag Tag",
    ),
    (
        "( l: INT: 3 )",
        "Closed Serial RoutineText Denotation Declarer Label",
    ),
    (
        "( x := GOTO l; 1 + (GO TO l) )",
        "Closed Serial Formula Sign Closed Serial GoTo Denotation Assignation GoTo Tag",
    ),
    (
        "( (GOTO l, 1), 2 )",
        "Collateral Denotation Collateral Denotation GoTo",
    ),
];

/// Texts that have no tree, and the byte at which they are refused.
const BROKEN: &[(&str, u32)] = &[
    ("", 0),
    ("x ", 0),
    ("[ 1 ] ", 0),
    ("BEGIN END END ", 10),
    ("( 1 ", 4),
    ("( 1 ] ", 4),
    ("( 1; ) ", 5),
    ("( 1, ) ", 5),
    ("( 1 | ) ", 6),
    ("( 1 | 2 | ) ", 10),
    ("( 1 |: ) ", 4),
    ("( 1 | 2 |: 3 ) ", 13),
    ("( 1 | 2, 3 |: 4 | 5 ) ", 20),
    ("( FI ) ", 2),
    ("( 1 THEN ) ", 4),
    ("( 1 TRUE ) ", 4),
    ("BEGIN 1 | 2 END ", 8),
    ("PAR 1 ", 4),
    ("PAR ( ) ", 6),
    ("PAR ( 1; 2 ) ", 7),
    ("IF 1 FI ", 5),
    ("IF 1 THEN FI ", 10),
    ("IF 1 THEN 2 ELSE FI ", 17),
    ("IF 1 THEN 2 ELIF 3 FI ", 19),
    ("IF 1 THEN 2 ELSE 3 ELIF 4 THEN 5 FI ", 19),
    ("IF 1 THEN 2 END ", 12),
    ("IF 1 | 2 FI ", 5),
    ("CASE 1 IN 2 ESAC ", 12),
    ("CASE 1 IN 2, 3 OUT ESAC ", 19),
    ("CASE 1 IN 2, 3 OUSE 4 IN 5 ESAC ", 27),
    ("CASE 1 IN (INT a): 2 OUSE 3 IN 4, 5 ESAC ", 31),
    ("CASE 1 IN (INT): ESAC ", 17),
    ("CASE 1 OUT 2 ESAC ", 7),
    ("FOR 1 DO 2 OD ", 4),
    ("FROM DO 2 OD ", 13),
    ("( FROM ) ", 7),
    ("TO 3 FROM 1 DO 2 OD ", 5),
    ("WHILE DO 1 OD ", 14),
    ("( WHILE ) ", 8),
    ("DO OD ", 3),
    ("DO 1; INT a OD ", 12),
    ("DO 1 FI ", 5),
    ("( a := ) ", 7),
    ("( := 1 ) ", 2),
    ("( a IS ) ", 7),
    ("( a IS b IS c ) ", 9),
    ("( a + ) ", 6),
    ("( a < < b ) ", 6),
    ("( NIL + 1 ) ", 6),
    ("( a OF ) ", 7),
    ("( 1 OF a ) ", 4),
    ("( LOC ) ", 6),
    ("( HEAP a ) ", 7),
    ("( a[1 ) ", 6),
    ("( a[1:2:3] ) ", 7),
    ("( a[AT] ) ", 6),
    ("( a() ) ", 4),
    ("( a(1;2) ) ", 5),
    ("( INT 1 ) ", 6),
    ("( LONG LONG 1 ) ", 7),
    ("( LONG 2r1 ) ", 7),
    ("( LONG x ) ", 7),
    ("( LONG TRUE ) ", 7),
    ("( LONG (1) ) ", 7),
    ("( LONG BITS x; 1 ) ", 7),
    ("( LONG INT 1 ) ", 11),
    ("( REF LONG 1 ) ", 11),
    ("( LONG 1 TRUE ) ", 9),
    ("( INT LONG a; 1 ) ", 6),
    ("( VOID x ) ", 7),
    ("( INT: ) ", 7),
    ("( REF := 1 ) ", 6),
    ("( [1 INT a; 1 ) ", 5),
    ("( FLEX INT a; 1 ) ", 7),
    ("( STRUCT INT a; 1 ) ", 9),
    ("( STRUCT (INT) a; 1 ) ", 13),
    ("( UNION (INT) a; 1 ) ", 12),
    ("( PROC (INT a) INT f = 1; 1 ) ", 12),
    ("( MODE a = INT; 1 ) ", 7),
    ("( MODE M INT; 1 ) ", 9),
    ("( MODE M = 1; 1 ) ", 11),
    ("( PRIO + 1; 1 ) ", 9),
    ("( PRIO + = 10; 1 ) ", 11),
    ("( OP + = 1; 1 ) ", 9),
    ("( OP (INT) + = 1; 1 ) ", 11),
    ("( INT a = ; 1 ) ", 10),
    ("( INT a := ; 1 ) ", 11),
    ("( INT a, ; 1 ) ", 9),
    ("( INT a = 1, b; 1 ) ", 14),
    ("( PROC f = 1; 1 ) ", 11),
    ("( PROC f := 1; 1 ) ", 12),
    ("( INT a; INT b ) ", 15),
    ("( MODE M = INT; M; 1 ) ", 17),
    ("( OP M = (INT a) INT: a; M ) ", 27),
    ("( (INT a) 5 ) ", 10),
    ("( (INT) ) ", 6),
    ("( (INT a; a) INT: a ) ", 13),
    ("( 1 | (INT) 2 ) ", 12),
    ("CASE 1 IN (INT a, b): 2 ESAC ", 20),
    ("CASE 1 IN (INT a) 2 ESAC ", 18),
];

/// The same of texts with labels, jumps and EXIT.
const MISPLACED: &[(&str, u32)] = &[
    ("( l: SKIP | SKIP | SKIP )", 10),
    ("( l: 1 | 2 | 3 ) ", 7),
    ("( IF l: TRUE THEN SKIP FI )", 6),
    ("( TRUE EXIT l: FALSE | 1 | 2 )", 21),
    ("( 1; 2 EXIT l: 3 |: 4 | 5 )", 17),
    ("( SKIP EXIT SKIP )", 12),
    ("( 1 EXIT ) ", 9),
    ("( EXIT l: 1 ) ", 2),
    ("( INT a EXIT l: 1 ) ", 8),
    ("BEGIN a EXIT b END ", 15),
    ("DO l: 1 EXIT 2 OD ", 13),
    ("( l: ) ", 5),
    ("( TRUE b: 1 ) ", 7),
    ("( l: INT x; SKIP )", 9),
    ("( 1; l: 2; INT b; 3 ) ", 15),
    ("IF a THEN l: 1; INT b; 2 FI ", 20),
    ("( PAR (l: SKIP, SKIP) )", 8),
    ("( CASE 1 IN l: SKIP, SKIP ESAC )", 13),
    ("CASE l: 1 IN 2, 3 ESAC ", 6),
    ("WHILE l: TRUE DO 1 OD ", 7),
    ("IF TRUE EXIT l: FALSE THEN 1 FI ", 8),
    ("IF 1 THEN 2 ELIF l: 3 THEN 4 FI ", 18),
    ("( 1 | l: 2 |: m: 3 | 4 ) ", 15),
    ("( TRUE | l: 1, 2 )", 13),
    ("( TRUE | 1, l: 2 )", 13),
    ("( (l: 1, 2) ) ", 7),
    ("( 1, l: 2 ) ", 6),
    ("( f(l: 1) ) ", 5),
    ("( GO l ) ", 5),
    ("( GOTO 1 ) ", 7),
    ("( GOTO TO l ) ", 7),
    ("( GO TO l; ) ", 11),
    ("( GO TO l TO 3 DO SKIP OD; l: SKIP )", 10),
    ("( GOTO l := 1 ) ", 9),
    ("( 1 + GOTO l ) ", 6),
];

/// Long and deep texts: their pieces, each behind how often it stands there; and of how many nodes the tree is.
const LARGE: &[(&str, u32)] = &[
    ("1|(|199| (|1| 1|199| )|1| )", 401),
    ("1|(|997| +|1| 1|997| |1| )", 1001),
    ("1|IF 1 THEN 2|60000| ELIF 1 THEN 2|1| FI|60001| ", 300005),
    ("1|( INT a|87000| , a|1| ; 1 )|87001| ", 87006),
    ("1|( 1,|130000| 1,|1| 1 )|130001| ", 130003),
    ("1|( 1|50000| EXIT l: GOTO l|1| )", 150003),
];

fn tree_of(rt: &impl Abort, alloc: Global, text: &str) -> Result<Tree, Stop> {
    let found = symbols(alloc, text.as_bytes()).expect(rt, "symbols");
    let classes = words(alloc, &found).expect(rt, "classes");
    symbols_are_bounded();
    let tree = parse(alloc, &found, &classes, text.len() as u32);
    drop(classes);
    drop(found);
    tree
}

// The tree of these pieces is of so many nodes.
fn has_nodes(rt: &impl Abort, alloc: Global, pieces: &str, count: u32) {
    let text = text_of(rt, alloc, pieces, '|');
    let tree = tree_of(rt, alloc, &text).expect(rt, "a tree");
    holds(rt, tree.len() == count, pieces);
    drop(tree);
}

#[test]
fn large_texts(rt: HostRuntime) {
    for (pieces, count) in LARGE {
        has_nodes(&rt, rt.alloc(), pieces, *count);
    }
}

fn kinds(rt: &impl Abort, alloc: Global, tree: &Tree) -> String {
    let mut text = String::new(alloc);
    for id in 0..tree.len() {
        write!(text, "{:?} ", tree.node(id).kind).expect(rt, "memory");
    }
    text
}

fn has_kinds(rt: &impl Abort, alloc: Global, text: &str, wanted: &str) {
    let tree = tree_of(rt, alloc, text).expect(rt, "a tree");
    let kinds = kinds(rt, alloc, &tree);
    drop(tree);
    agrees(rt, kinds.trim_end(), wanted, text);
}

#[test]
fn texts_and_their_kinds(rt: HostRuntime) {
    for (text, wanted) in TEXTS {
        has_kinds(&rt, rt.alloc(), text, wanted);
    }
}

#[test]
fn texts_with_labels(rt: HostRuntime) {
    for (text, wanted) in LABELLED {
        has_kinds(&rt, rt.alloc(), text, wanted);
    }
}

// A text is refused at this place.
fn has_no_tree(rt: &impl Abort, alloc: Global, text: &str, place: u32) {
    let refusal = Refusal {
        rule: Rule::S6,
        place,
    };
    let stop = tree_of(rt, alloc, text).err();
    holds(rt, stop == Some(Stop::Refused(refusal)), text);
}

fn have_no_tree(rt: &impl Abort, alloc: Global, rows: &[(&str, u32)]) {
    for (text, place) in rows {
        has_no_tree(rt, alloc, text, *place);
    }
}

#[test]
fn texts_without_a_tree(rt: HostRuntime) {
    have_no_tree(&rt, rt.alloc(), BROKEN);
}

#[test]
fn texts_with_labels_that_have_no_tree(rt: HostRuntime) {
    have_no_tree(&rt, rt.alloc(), MISPLACED);
}
