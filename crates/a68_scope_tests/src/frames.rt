//! Slots, the way to them and what routine texts use from outside, by hand from the text (own; Report, 2.1.1.3 and 7.2.2).
ghost use Rattle.std.specs.Prelude.{◌<◌, length};

use crate::table::holds;
use a68_base::Stop;
use a68_frames::frames;
use a68_parse::{parse, symbols_are_bounded};
use a68_ranges::ranges;
use a68_symbols::symbols;
use a68_tree::{FrameStep, NodeId, NodeKind, Tree};
use a68_words::words;
use std::alloc::Global;
use std::panic::Expect;
use std::process::Abort;

/// A text, the byte of a tag that is used in it, and where it is defined: so many frames outwards, in that slot.
const WAYS: &[(&str, u32, u32, u32)] = &[
    ("( INT a = 1; a )", 13, 0, 0),
    ("( INT a = 1, b = 2; b )", 20, 0, 1),
    ("( INT a, b, c; a )", 15, 0, 0),
    ("( INT a, b, c; c )", 15, 0, 2),
    ("( INT a = 1; BOOL b = TRUE; INT c = 3; c )", 39, 0, 2),
    ("( INT a = 1; ( INT b = 2; a ) )", 26, 1, 0),
    ("( INT a = 1; ( INT b = 2; b ) )", 26, 0, 0),
    ("( INT a = 1; ( a ) )", 15, 0, 0),
    ("( INT a; ( INT b; ( INT c; a ) ) )", 27, 2, 0),
    ("( INT a; ( INT b; ( INT c; b ) ) )", 27, 1, 0),
    ("( INT i = 1; FOR i FROM i TO i DO SKIP OD )", 24, 0, 0),
    ("( INT i = 1; FOR i FROM i TO i DO SKIP OD )", 29, 0, 0),
    ("( INT j = 1, i = 2; FOR i TO 2 DO i OD )", 34, 0, 0),
    ("( INT j = 1; FOR i TO 2 DO j OD )", 27, 1, 0),
    ("( INT j = 1; TO 2 DO j OD )", 21, 0, 0),
    ("( WHILE INT m = 0, n = 1; TRUE DO n OD )", 34, 0, 1),
    (
        "( INT a = 1; WHILE INT n = 1; TRUE DO INT b = n; a OD )",
        46,
        1,
        0,
    ),
    (
        "( INT a = 1; WHILE INT n = 1; TRUE DO INT b = n; a OD )",
        49,
        2,
        0,
    ),
    ("( FOR n WHILE INT m = 1; TRUE DO n OD )", 33, 1, 0),
    ("( PROC f = VOID: SKIP; f )", 23, 0, 0),
    ("( PROC f = (INT a, b) INT: b; SKIP )", 27, 0, 1),
    ("( INT x = 1; PROC f = VOID: x; SKIP )", 28, 1, 0),
    (
        "( PROC f = VOID: ( INT x = 1; PROC g = VOID: x; g ); f )",
        45,
        1,
        0,
    ),
    (
        "( PROC f = VOID: ( INT x = 1; PROC g = VOID: x; g ); f )",
        48,
        0,
        1,
    ),
    (
        "( PROC f = VOID: ( INT x = 1; PROC g = VOID: x; g ); f )",
        53,
        0,
        0,
    ),
    ("IF INT a = 1; TRUE THEN a ELSE 2 FI", 24, 0, 0),
    ("IF INT a = 1; TRUE THEN INT b = 2; a ELSE 2 FI", 35, 1, 0),
    (
        "( INT a = 1; IF TRUE THEN 1 ELIF FALSE THEN a FI )",
        44,
        0,
        0,
    ),
    ("CASE INT a = 1; a IN 1, 2 OUT a ESAC", 30, 0, 0),
    ("( CASE SKIP IN (INT n): n OUT 2 ESAC )", 24, 0, 0),
    (
        "( INT x = 1; CASE SKIP IN (INT n): x OUT x ESAC )",
        35,
        1,
        0,
    ),
    (
        "( INT x = 1; CASE SKIP IN (INT n): x OUT x ESAC )",
        41,
        0,
        0,
    ),
    (
        "( INT x = 1; CASE SKIP IN (INT): x, (BOOL b): 2 ESAC )",
        33,
        0,
        0,
    ),
    ("( MODE A = INT; A a = 1; a )", 25, 0, 0),
    (
        "( PRIO MAX = 3; OP MAX = (INT a, b) INT: a; INT c = 1; c )",
        55,
        0,
        1,
    ),
    (
        "( PRIO MAX = 3; OP MAX = (INT a, b) INT: b; INT c = 1; SKIP )",
        41,
        0,
        1,
    ),
    ("( INT m, n; [1:n] INT b; SKIP )", 15, 0, 1),
    (
        "( INT a = 1; IF a = 0 THEN 1 ELIF a = 1 THEN 2 ELIF a = 2 THEN 3 ELIF a = 3 THEN 4 ELSE a FI )",
        88,
        0,
        0,
    ),
    (
        "( INT a = 1; IF INT b = 2; b = 0 THEN 1 ELIF a = 1 THEN 2 ELIF INT c = 3; c = 2 THEN a ELIF b = a THEN 4 ELSE c FI )",
        85,
        2,
        0,
    ),
    (
        "( INT a = 1; IF INT b = 2; b = 0 THEN 1 ELIF a = 1 THEN 2 ELIF INT c = 3; c = 2 THEN a ELIF b = a THEN 4 ELSE c FI )",
        92,
        1,
        0,
    ),
    (
        "( INT a = 1; IF INT b = 2; b = 0 THEN 1 ELIF a = 1 THEN 2 ELIF INT c = 3; c = 2 THEN a ELIF b = a THEN 4 ELSE c FI )",
        110,
        0,
        0,
    ),
    ("( INT a = 1; ( ( INT b = 2; a ) ) )", 28, 1, 0),
    ("( INT a = 1; ( ( INT b = 2; ( b ) ) ) )", 30, 0, 0),
    ("( INT a = 1; ( ( INT b, a; ( a ) ) ) )", 29, 0, 1),
    ("( INT a = 1; PROC f = VOID: ( ( a ) ); SKIP )", 32, 1, 0),
    ("( STRUCT (INT x, y) s; s )", 23, 0, 0),
    ("( INT a = 1; ( l: a ) )", 18, 0, 0),
    ("( INT a = 1; ( INT b; l: a ) )", 25, 1, 0),
];

/// A text, the byte of a routine text in it, and how many frames outwards the newest one stands that this uses by a tag.
const NEEDS: &[(&str, u32, Option<u32>)] = &[
    ("( PROC f = VOID: SKIP; f )", 11, None),
    ("( INT x = 1; PROC f = VOID: x; SKIP )", 22, Some(0)),
    ("( PROC f = (INT a) INT: a; SKIP )", 11, None),
    ("( INT x = 1; PROC f = (INT x) INT: x; SKIP )", 22, None),
    ("( PROC f = INT: f; SKIP )", 11, Some(0)),
    (
        "( INT x = 1; ( INT y = 2; PROC f = VOID: x; SKIP ) )",
        35,
        Some(1),
    ),
    (
        "( INT x = 1; ( INT y = 2; PROC f = VOID: (x; y); SKIP ) )",
        35,
        Some(0),
    ),
    (
        "( INT x = 1; ( INT y = 2; PROC f = VOID: (y; x); SKIP ) )",
        35,
        Some(0),
    ),
    ("( INT x = 1; ( VOID: x ) )", 15, Some(0)),
    (
        "( INT x = 1; PROC f = VOID: ( PROC g = VOID: x; g ); SKIP )",
        22,
        Some(0),
    ),
    (
        "( INT x = 1; PROC f = VOID: ( PROC g = VOID: x; g ); SKIP )",
        39,
        Some(2),
    ),
    (
        "( PROC f = (INT a) VOID: ( PROC g = VOID: a; g ); SKIP )",
        11,
        None,
    ),
    (
        "( PROC f = (INT a) VOID: ( PROC g = VOID: a; g ); SKIP )",
        36,
        Some(1),
    ),
    (
        "( INT x = 1; PROC f = VOID: ( VOID: VOID: x; SKIP ); SKIP )",
        36,
        Some(2),
    ),
    (
        "( INT n = 1; PROC f = VOID: ( [1:n] INT a; SKIP ); SKIP )",
        22,
        Some(0),
    ),
    (
        "( INT n = 1; PROC f = VOID: ( [1:n] INT a, b; SKIP ); SKIP )",
        22,
        Some(0),
    ),
    (
        "( INT n = 1; PROC f = VOID: ( MODE A = [1:n] INT; SKIP ); SKIP )",
        22,
        Some(0),
    ),
    (
        "( INT n = 1; MODE A = [1:n] INT; ( INT k; PROC f = VOID: ( A a; SKIP ); SKIP ) )",
        51,
        None,
    ),
    ("( PROC f = VOID: print(1); SKIP )", 11, None),
    ("( PROC f = VOID: y; SKIP )", 11, None),
    (
        "( INT n = 1; FOR i TO 2 DO PROC f = VOID: (n; i); SKIP OD )",
        36,
        Some(1),
    ),
    (
        "( INT n = 1; FOR i TO 2 DO PROC f = VOID: n; SKIP OD )",
        36,
        Some(2),
    ),
    (
        "( INT n = 1; TO 2 DO PROC f = VOID: n; SKIP OD )",
        30,
        Some(1),
    ),
    ("( INT n = 1; TO 2 DO ( VOID: n ) OD )", 23, Some(0)),
    (
        "IF INT a = 1; TRUE THEN PROC f = VOID: a; f FI",
        33,
        Some(1),
    ),
    (
        "( CASE SKIP IN (INT n): ( VOID: n ) OUT 2 ESAC )",
        26,
        Some(0),
    ),
    ("( l: ( VOID: GOTO l ) )", 7, None),
    ("( l: ( VOID: l ) )", 7, None),
    ("( INT l; ( l: ( VOID: l ) ) )", 16, None),
    ("( INT x; l: ( VOID: ( GOTO l; x ) ) )", 14, Some(0)),
];

/// A text, a range in it by its kind and byte, how many slots it has, and whether it makes a frame.
const SLOTS: &[(&str, NodeKind, u32, u32, bool)] = &[
    (
        "( PROC f = VOID: SKIP; f )",
        NodeKind::RoutineText,
        11,
        0,
        true,
    ),
    ("( PROC f = VOID: SKIP; f )", NodeKind::Serial, 2, 1, true),
    (
        "( PROC f = (INT a, b, BOOL c) INT: a; SKIP )",
        NodeKind::RoutineText,
        11,
        3,
        true,
    ),
    ("( MODE A = INT; SKIP )", NodeKind::Serial, 2, 0, false),
    (
        "( PRIO MAX = 3; MODE A = INT; OP MAX = (INT a, b) INT: a; INT x, y; SKIP )",
        NodeKind::Serial,
        2,
        3,
        true,
    ),
    (
        "( STRUCT (INT x, y) s; SKIP )",
        NodeKind::Serial,
        2,
        1,
        true,
    ),
    ("( FOR i TO 2 DO SKIP OD )", NodeKind::Loop, 2, 1, true),
    ("( FOR i TO 2 DO SKIP OD )", NodeKind::Serial, 16, 0, false),
    ("( TO 2 DO SKIP OD )", NodeKind::Loop, 2, 0, false),
    (
        "( WHILE INT a, b; TRUE DO SKIP OD )",
        NodeKind::Serial,
        8,
        2,
        true,
    ),
    (
        "( CASE SKIP IN (INT n): n OUT 2 ESAC )",
        NodeKind::Spec,
        15,
        1,
        true,
    ),
    (
        "( CASE SKIP IN (INT): 1 OUT 2 ESAC )",
        NodeKind::Spec,
        15,
        0,
        false,
    ),
    (
        "IF TRUE THEN INT a = 1; a FI",
        NodeKind::Serial,
        3,
        0,
        false,
    ),
    (
        "IF TRUE THEN INT a = 1; a FI",
        NodeKind::Serial,
        13,
        1,
        true,
    ),
    ("( l: SKIP )", NodeKind::Serial, 2, 0, false),
    ("( INT x; l: SKIP )", NodeKind::Serial, 2, 1, true),
    (
        "( INT x; l: m: SKIP EXIT n: SKIP )",
        NodeKind::Serial,
        2,
        1,
        true,
    ),
];

/// A text, the byte of a mode word that is used in it, how many frames outwards the range of its definition is, and how many there are about the use.
const MODE_WORDS: &[(&str, u32, u32, u32)] = &[
    ("( MODE A = INT; A a; SKIP )", 16, 0, 1),
    ("( MODE A = INT; ( INT b; A c; SKIP ) )", 25, 1, 1),
    ("( MODE A = INT; ( A c; SKIP ) )", 18, 1, 1),
    (
        "( MODE A = INT; PROC f = VOID: ( A c; SKIP ); SKIP )",
        33,
        2,
        3,
    ),
    ("( MODE A = INT; INT x; ( MODE B = A; SKIP ) )", 34, 0, 1),
    ("( MODE A = INT; FOR i TO 2 DO A c; SKIP OD )", 30, 2, 2),
];

/// A text, the bytes of an operator's definition, of a use of it and of a routine text, and how many frames outwards this uses it.
const OPERATORS: &[(&str, [u32; 3], Option<u32>)] = &[
    (
        "( PRIO MAX = 3; OP MAX = (INT a, b) INT: a; PROC f = VOID: 1 MAX 2; SKIP )",
        [19, 61, 53],
        Some(0),
    ),
    (
        "( PRIO MAX = 3; OP MAX = (INT a, b) INT: a; ( INT x; PROC f = VOID: 1 MAX 2; SKIP ) )",
        [19, 70, 62],
        Some(1),
    ),
    (
        "( PRIO MAX = 3; PROC f = VOID: ( OP MAX = (INT a, b) INT: a; 1 MAX 2; SKIP ); SKIP )",
        [36, 63, 25],
        None,
    ),
    (
        "( PRIO MAX = 3; OP MAX = (INT a, b) INT: a; PROC f = VOID: ( PROC g = VOID: 1 MAX 2; g ); SKIP )",
        [19, 78, 53],
        Some(0),
    ),
    (
        "( PRIO MAX = 3; OP MAX = (INT a, b) INT: a; PROC f = VOID: ( PROC g = VOID: 1 MAX 2; g ); SKIP )",
        [19, 78, 70],
        Some(2),
    ),
];

fn tree_of(rt: &impl Abort, alloc: Global, text: &str) -> Result<Tree, Stop> {
    let found = symbols(alloc, text.as_bytes()).expect(rt, "symbols");
    let classes = words(alloc, &found).expect(rt, "classes");
    symbols_are_bounded();
    let tree = parse(alloc, &found, &classes, text.len() as u32);
    drop(classes);
    drop(found);
    tree
}

// The node of that kind that begins at that byte.
fn node_at(rt: &impl Abort, tree: &Tree, kind: NodeKind, place: u32) -> NodeId
    ensures { result < length tree.now.nodes }
{
    for id in 0..tree.len() {
        if tree.node(id).kind == kind && tree.node(id).span.from == place {
            return id;
        }
    }
    rt.panic("a node at that byte")
}

fn way_is_told(rt: &impl Abort, alloc: Global, row: &(&str, u32, u32, u32)) {
    let tree = tree_of(rt, alloc, row.0).expect(rt, row.0);
    let ranges = ranges(alloc, &tree).expect(rt, row.0);
    let frames = frames(alloc, &tree, &ranges).expect(rt, row.0);
    let at = node_at(rt, &tree, NodeKind::Tag, row.1);
    let definition = ranges.tag(at, tree.node(at).name).expect(rt, row.0);
    let told = FrameStep {
        hops: row.2,
        slot: row.3,
    };
    holds(rt, frames.where_is(at, definition) == told, row.0);
    holds(rt, frames.way(at, definition) == Some(told), row.0);
    drop(frames);
    drop(ranges);
    drop(tree);
}

#[test]
fn ways(rt: HostRuntime) {
    for row in WAYS {
        way_is_told(&rt, rt.alloc(), row);
    }
}

fn need_is_told(rt: &impl Abort, alloc: Global, row: &(&str, u32, Option<u32>)) {
    let tree = tree_of(rt, alloc, row.0).expect(rt, row.0);
    let ranges = ranges(alloc, &tree).expect(rt, row.0);
    let frames = frames(alloc, &tree, &ranges).expect(rt, row.0);
    let text = node_at(rt, &tree, NodeKind::RoutineText, row.1);
    holds(rt, frames.needs(text) == row.2, row.0);
    drop(frames);
    drop(ranges);
    drop(tree);
}

#[test]
fn needs(rt: HostRuntime) {
    for row in NEEDS {
        need_is_told(&rt, rt.alloc(), row);
    }
}

fn slots_are_told(rt: &impl Abort, alloc: Global, row: &(&str, NodeKind, u32, u32, bool)) {
    let tree = tree_of(rt, alloc, row.0).expect(rt, row.0);
    let ranges = ranges(alloc, &tree).expect(rt, row.0);
    let frames = frames(alloc, &tree, &ranges).expect(rt, row.0);
    let range = node_at(rt, &tree, row.1, row.2);
    holds(rt, frames.slots(range) == row.3, row.0);
    holds(rt, frames.makes_frame(range) == row.4, row.0);
    let mut slot = 0;
    for definition in ranges.declared(range) {
        if let Some(found) = frames.slot(range, *definition) {
            holds(rt, found == slot && slot < 9, row.0);
            slot += 1;
        }
    }
    holds(rt, slot == row.3, row.0);
    drop(frames);
    drop(ranges);
    drop(tree);
}

#[test]
fn slots(rt: HostRuntime) {
    for row in SLOTS {
        slots_are_told(&rt, rt.alloc(), row);
    }
}

fn mode_word_is_told(rt: &impl Abort, alloc: Global, row: &(&str, u32, u32, u32)) {
    let tree = tree_of(rt, alloc, row.0).expect(rt, row.0);
    let ranges = ranges(alloc, &tree).expect(rt, row.0);
    let frames = frames(alloc, &tree, &ranges).expect(rt, row.0);
    let at = node_at(rt, &tree, NodeKind::Declarer, row.1);
    let definition = ranges.mode_word(at, tree.node(at).name).expect(rt, row.0);
    holds(rt, definition < tree.len(), row.0);
    holds(rt, frames.hops(at, definition) == row.2, row.0);
    holds(rt, frames.frames_about(at) == row.3, row.0);
    drop(frames);
    drop(ranges);
    drop(tree);
}

#[test]
fn mode_words(rt: HostRuntime) {
    for row in MODE_WORDS {
        mode_word_is_told(&rt, rt.alloc(), row);
    }
}

fn operator_is_told(rt: &impl Abort, alloc: Global, row: &(&str, [u32; 3], Option<u32>)) {
    let tree = tree_of(rt, alloc, row.0).expect(rt, row.0);
    let ranges = ranges(alloc, &tree).expect(rt, row.0);
    let frames = frames(alloc, &tree, &ranges).expect(rt, row.0);
    let definition = node_at(rt, &tree, NodeKind::OpDefinition, row.1[0]);
    let at = node_at(rt, &tree, NodeKind::Sign, row.1[1]);
    let text = node_at(rt, &tree, NodeKind::RoutineText, row.1[2]);
    let mut needs = vec![in alloc; None; tree.len() as usize].expect(rt, row.0);
    frames.lower(&mut needs, at, definition);
    holds(rt, needs[text as usize] == row.2, row.0);
    drop(needs);
    drop(frames);
    drop(ranges);
    drop(tree);
}

#[test]
fn operators(rt: HostRuntime) {
    for row in OPERATORS {
        operator_is_told(&rt, rt.alloc(), row);
    }
}
