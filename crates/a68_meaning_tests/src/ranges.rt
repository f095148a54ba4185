//! Which definition counts where a word is used, and which one comes too late, by hand from the text (Report, 3.0.2, 4.8 and 7.2).
ghost use Rattle.std.specs.Prelude.{◌<◌, length};

use crate::table::holds;
use a68_base::{Refusal, Rule, Stop};
use a68_parse::{parse, symbols_are_bounded};
use a68_ranges::ranges;
use a68_symbols::symbols;
use a68_tree::{NodeId, NodeKind, Tree};
use a68_words::words;
use std::alloc::Global;
use std::panic::Expect;
use std::process::Abort;

/// Where a word is defined: at a byte of the text, as a standard tag at its place, or nowhere.
#[derive(Clone, Copy)]
enum Told {
    At(u32),
    Standard(u32),
    Nowhere,
}

use Told::{At, Nowhere, Standard};

/// A text, the byte of a tag that is used in it, and where that is defined.
const TAGS: &[(&str, u32, Told)] = &[
    ("( INT a = 1; a )", 13, At(6)),
    ("( INT a = 1; ( INT a = 2; a ) )", 26, At(19)),
    ("( INT a = 1; ( INT b = 2; a ) )", 26, At(6)),
    ("( INT a = 1; ( INT a = 2; SKIP ); a )", 34, At(6)),
    ("( INT b = a; INT a = 1; SKIP )", 10, At(17)),
    ("( INT a = 1, b = a; SKIP )", 17, At(6)),
    ("( INT n = 1; [1:n] INT a; SKIP )", 16, At(6)),
    ("( INT i = 1; FOR i TO 2 DO i OD )", 27, At(17)),
    ("( INT i = 1; FOR i FROM i TO 2 DO SKIP OD )", 24, At(6)),
    ("( INT i = 1; FOR i BY i TO 2 DO SKIP OD )", 22, At(6)),
    ("( INT i = 1; FOR i TO i DO SKIP OD )", 22, At(6)),
    ("( FOR i WHILE i < 3 DO SKIP OD )", 14, At(6)),
    ("( WHILE INT n = 1; TRUE DO n OD )", 27, At(12)),
    ("( FOR n WHILE INT n = 1; TRUE DO n OD )", 33, At(18)),
    ("( FOR n WHILE INT m = 1; TRUE DO n OD )", 33, At(6)),
    ("( WHILE INT n = 1; TRUE DO INT n = 2; n OD )", 38, At(31)),
    ("IF INT a = 1; TRUE THEN a ELSE 2 FI", 24, At(7)),
    ("IF INT a = 1; TRUE THEN 1 ELSE a FI", 31, At(7)),
    ("IF INT a = 1; TRUE THEN INT a = 2; a FI", 35, At(28)),
    ("IF TRUE THEN INT a = 2; a ELSE a FI", 31, Nowhere),
    ("IF INT a = 1; FALSE THEN 1 ELIF a = 1 THEN 2 FI", 32, At(7)),
    ("IF FALSE THEN 1 ELIF INT a = 1; TRUE THEN a FI", 42, At(25)),
    ("CASE INT a = 1; a IN a, 2 OUT 3 ESAC", 21, At(9)),
    ("CASE INT a = 1; a IN 1, 2 OUT a ESAC", 30, At(9)),
    (
        "CASE INT a = 1; a IN 1, 2 OUT INT a = 3; a ESAC",
        41,
        At(34),
    ),
    ("( CASE SKIP IN (INT n): n OUT 2 ESAC )", 24, At(20)),
    (
        "( INT n = 0; CASE SKIP IN (INT n): n OUT n ESAC )",
        41,
        At(6),
    ),
    (
        "( INT n = 0; CASE SKIP IN (INT n): n, (BOOL b): n ESAC )",
        48,
        At(6),
    ),
    (
        "( CASE INT m = 1; SKIP IN (INT n): m OUT 2 ESAC )",
        35,
        At(11),
    ),
    ("( PROC f = (INT a) INT: a; SKIP )", 24, At(16)),
    ("( INT b = 1; PROC f = (INT a) INT: b; SKIP )", 35, At(6)),
    ("( PROC f = INT: f; SKIP )", 16, At(7)),
    ("( print(1) )", 2, Standard(6)),
    ("( INT print = 1; print )", 17, At(6)),
    ("( INT x = max int; SKIP )", 10, Standard(0)),
    ("( whole(1, 2) )", 2, Standard(8)),
    ("( a )", 2, Nowhere),
    ("( l: l )", 5, At(2)),
];

/// A text, the byte of a jump in it, and where its tag is defined.
const JUMPS: &[(&str, u32, Told)] = &[
    ("( l: GOTO l )", 5, At(2)),
    ("( GO TO l; l: SKIP )", 2, At(11)),
    ("( GOTO b; 1 EXIT b: 2 )", 2, At(17)),
    ("( l: ( l: GOTO l ) )", 10, At(7)),
    ("( l: ( GOTO l ); SKIP )", 7, At(2)),
    ("( l: IF TRUE THEN GOTO l FI )", 18, At(2)),
    ("( INT l = 1; GOTO l )", 13, At(6)),
    ("( l: ( INT l = 1; GOTO l ) )", 18, At(11)),
    ("( ( l: SKIP ); GOTO l )", 15, Nowhere),
    ("IF TRUE THEN l: SKIP ELSE GOTO l FI", 26, Nowhere),
    ("( GOTO print )", 2, Standard(6)),
];

/// A text, the byte of a mode word that is used in it, and where that is defined.
const MODE_WORDS: &[(&str, u32, Told)] = &[
    ("( MODE A = INT; A a = 1; SKIP )", 16, At(7)),
    (
        "( MODE A = INT; ( MODE A = BOOL; A a = TRUE; SKIP ); SKIP )",
        33,
        At(23),
    ),
    ("( MODE A = REF A; SKIP )", 15, At(7)),
    ("( MODE A = INT; PROC f = (A a) INT: 1; SKIP )", 26, At(7)),
    ("( ( MODE A = INT; SKIP ); A a; SKIP )", 26, Nowhere),
];

/// A text, the byte of a sign in it, and its priority there.
const PRIORITIES: &[(&str, u32, Option<u32>)] = &[
    ("( 1 + 2 )", 4, Some(6)),
    ("( PRIO + = 9; 1 + 2 )", 16, Some(9)),
    ("( PRIO MAX = 3; 1 MAX 2 )", 18, Some(3)),
    ("( ( PRIO MAX = 3; SKIP ); 1 MAX 2 )", 28, None),
    ("( PRIO + = 2; ( PRIO + = 3; SKIP ); 1 + 2 )", 38, Some(2)),
    ("( 1 ELEM 2r1 )", 4, Some(7)),
];

/// A text that declares something twice in one range, and the byte of the first definition that comes too late.
const TWICE: &[(&str, u32)] = &[
    ("( INT a = 1; INT a = 2; SKIP )", 17),
    ("( INT a, a; SKIP )", 9),
    ("( INT a = 1; BOOL a = TRUE; INT a = 3; SKIP )", 18),
    ("( MODE A = INT; MODE A = BOOL; SKIP )", 21),
    ("( PRIO + = 2; PRIO + = 3; SKIP )", 19),
    ("( STRUCT (INT a, BOOL a) s; SKIP )", 22),
    ("( STRUCT (INT a, a) s; SKIP )", 17),
    ("( PROC f = (INT a, a) INT: 1; SKIP )", 19),
    ("( PROC f = INT: 1, f = INT: 2; SKIP )", 19),
    ("( ( INT b, b; SKIP ); INT c, c; SKIP )", 11),
    ("( INT c, c; ( INT b, b; SKIP ) )", 9),
    ("( STRUCT (INT x, x) s; INT a, a; SKIP )", 17),
    ("( INT a, a; STRUCT (INT x, x) s; SKIP )", 9),
    ("( WHILE INT a, a; TRUE DO SKIP OD )", 15),
    (
        "( PRIO + = 2; PRIO + = 2; MODE A = INT, A = INT; SKIP )",
        19,
    ),
    ("( l: l: SKIP )", 5),
    ("( l: SKIP; l: SKIP )", 11),
    ("( l: 1 EXIT l: 2 )", 12),
    ("( INT l; l: SKIP )", 9),
    ("( PROC l = VOID: SKIP; l: SKIP )", 23),
];

/// Texts that declare nothing twice in one range.
const ONCE: &[&str] = &[
    "( OP + = (INT a) INT: a; OP + = (BOOL b) BOOL: b; SKIP )",
    "( INT a; ( INT a; SKIP ); SKIP )",
    "( PROC f = (INT a) INT: ( INT a; 1 ); SKIP )",
    "( STRUCT (INT a) s; STRUCT (INT a) t; SKIP )",
    "( FOR i TO 2 DO INT i; SKIP OD )",
    "( FOR i WHILE INT i; TRUE DO SKIP OD )",
    "IF INT a; TRUE THEN INT a; SKIP FI",
    "( STRUCT (STRUCT (INT a) a) s; SKIP )",
    "( INT a; STRUCT (INT a) s; SKIP )",
    "( PRIO MAX = 3; OP MAX = (INT a, b) INT: a; SKIP )",
    "( l: ( l: SKIP ) )",
    "( INT l; ( l: SKIP ); SKIP )",
    "( MODE L = INT; l: SKIP )",
    "( STRUCT (INT l) s; l: SKIP )",
    "( FOR l TO 2 DO l: SKIP OD )",
    "IF TRUE THEN l: SKIP ELSE l: SKIP FI",
];

fn tree_of(rt: &impl Abort, alloc: Global, text: &str) -> Result<Tree, Stop> {
    let found = symbols(alloc, text.as_bytes()).expect(rt, "symbols");
    let classes = words(alloc, &found).expect(rt, "classes");
    symbols_are_bounded();
    let tree = parse(alloc, &found, &classes, text.len() as u32);
    drop(classes);
    drop(found);
    tree
}

/// The node of that kind that begins at that byte.
pub fn node_at(rt: &impl Abort, tree: &Tree, kind: NodeKind, place: u32) -> NodeId
    ensures { result < length tree.now.nodes }
{
    for id in 0..tree.len() {
        if tree.node(id).kind == kind && tree.node(id).span.from == place {
            return id;
        }
    }
    rt.panic("a node at that byte")
}

// The definition is where it is told to be.
fn is_told(tree: &Tree, found: Option<NodeId>, told: Told) -> bool {
    match (found, told) {
        (Some(id), At(place)) => id < tree.len() && tree.node(id).span.from == place,
        (Some(id), Standard(place)) => id >= tree.len() && id - tree.len() == place,
        (None, Nowhere) => true,
        _ => false,
    }
}

fn tag_is_told(rt: &impl Abort, alloc: Global, kind: NodeKind, row: &(&str, u32, Told)) {
    let tree = tree_of(rt, alloc, row.0).expect(rt, row.0);
    let ranges = ranges(alloc, &tree).expect(rt, row.0);
    let at = node_at(rt, &tree, kind, row.1);
    let found = ranges.tag(at, tree.node(at).name);
    holds(rt, is_told(&tree, found, row.2), row.0);
    drop(ranges);
    drop(tree);
}

#[test]
fn tags(rt: HostRuntime) {
    for row in TAGS {
        tag_is_told(&rt, rt.alloc(), NodeKind::Tag, row);
    }
    for row in JUMPS {
        tag_is_told(&rt, rt.alloc(), NodeKind::GoTo, row);
    }
}

fn mode_word_is_told(rt: &impl Abort, alloc: Global, row: &(&str, u32, Told)) {
    let tree = tree_of(rt, alloc, row.0).expect(rt, row.0);
    let ranges = ranges(alloc, &tree).expect(rt, row.0);
    let at = node_at(rt, &tree, NodeKind::Declarer, row.1);
    let found = ranges.mode_word(at, tree.node(at).name);
    holds(rt, is_told(&tree, found, row.2), row.0);
    drop(ranges);
    drop(tree);
}

#[test]
fn mode_words(rt: HostRuntime) {
    for row in MODE_WORDS {
        mode_word_is_told(&rt, rt.alloc(), row);
    }
}

fn priority_is_told(rt: &impl Abort, alloc: Global, row: &(&str, u32, Option<u32>)) {
    let tree = tree_of(rt, alloc, row.0).expect(rt, row.0);
    let ranges = ranges(alloc, &tree).expect(rt, row.0);
    let at = node_at(rt, &tree, NodeKind::Sign, row.1);
    holds(rt, ranges.priority(at, tree.node(at).name) == row.2, row.0);
    drop(ranges);
    drop(tree);
}

#[test]
fn priorities(rt: HostRuntime) {
    for row in PRIORITIES {
        priority_is_told(&rt, rt.alloc(), row);
    }
}

fn is_twice(rt: &impl Abort, alloc: Global, text: &str, place: u32) {
    let refusal = Refusal {
        rule: Rule::N3,
        place,
    };
    let tree = tree_of(rt, alloc, text).expect(rt, text);
    let stop = ranges(alloc, &tree).err();
    holds(rt, stop == Some(Stop::Refused(refusal)), text);
    drop(tree);
}

#[test]
fn definitions_that_come_too_late(rt: HostRuntime) {
    for (text, place) in TWICE {
        is_twice(&rt, rt.alloc(), text, *place);
    }
}

fn is_once(rt: &impl Abort, alloc: Global, text: &str) {
    let tree = tree_of(rt, alloc, text).expect(rt, text);
    let ranges = ranges(alloc, &tree);
    holds(rt, ranges.is_ok(), text);
    drop(ranges);
    drop(tree);
}

#[test]
fn definitions_of_which_none_is_late(rt: HostRuntime) {
    for text in ONCE {
        is_once(&rt, rt.alloc(), text);
    }
}
