//! Operators of one range whose operands are related, by hand from the text (Report, 7.1.1).
use crate::shapes::shaped;
use crate::table::holds;
use a68_declare::declare;
use a68_identify::{declared_modes_are_there, related_pair};
use a68_ranges::ranges;
use a68_tree::{NodeId, Tree};
use std::alloc::Global;
use std::panic::Expect;
use std::process::Abort;

/// A text, and the byte of the first operator that a related one precedes in its range.
const RELATED: &[(&str, Option<u32>)] = &[
    ("( OP + = (INT a, b) INT: a; SKIP )", None),
    (
        "( OP + = (INT a, b) INT: a; OP + = (INT a, b) INT: b; SKIP )",
        Some(31),
    ),
    (
        "( OP A = (INT a) VOID: SKIP; OP A = (REF INT a) VOID: SKIP; SKIP )",
        Some(32),
    ),
    (
        "( OP A = (PROC REF INT a) VOID: SKIP; OP A = (INT a) VOID: SKIP; SKIP )",
        Some(41),
    ),
    (
        "( OP A = (INT a) VOID: SKIP; OP B = (INT a) VOID: SKIP; SKIP )",
        None,
    ),
    (
        "( OP & = (INT a, b) INT: a; OP AND = (INT a, b) INT: b; SKIP )",
        None,
    ),
    (
        "( OP - = (INT a) INT: a; OP - = (INT a, b) INT: b; SKIP )",
        None,
    ),
    (
        "( OP + = (INT a, BOOL b) INT: a; OP + = (INT a, CHAR b) INT: a; SKIP )",
        None,
    ),
    (
        "( OP + = (INT a, BOOL b) INT: a; OP + = (REF INT a, PROC BOOL b) INT: a; SKIP )",
        Some(36),
    ),
    (
        "( OP + = (INT a, b) INT: a; ( OP + = (INT a, b) INT: b; SKIP ) )",
        None,
    ),
    (
        "( OP + = (INT a, b) INT: a; ( OP + = (CHAR a, b) INT: 1; OP + = (CHAR a, b) INT: 2; SKIP ) )",
        Some(60),
    ),
    (
        "( OP A = (UNION (INT, BOOL) u) VOID: SKIP; OP A = (INT a) VOID: SKIP; SKIP )",
        Some(46),
    ),
    (
        "( OP A = (UNION (INT, BOOL) u) VOID: SKIP; OP A = (CHAR a) VOID: SKIP; SKIP )",
        None,
    ),
    (
        "( OP A = (STRING s) VOID: SKIP; OP A = ([] CHAR s) VOID: SKIP; SKIP )",
        Some(35),
    ),
    (
        "( OP A = (STRING s) VOID: SKIP; OP A = (CHAR s) VOID: SKIP; SKIP )",
        None,
    ),
    (
        "( OP A = (INT a) VOID: SKIP; OP A = (BOOL a) VOID: SKIP; OP A = (REF INT a) VOID: SKIP; SKIP )",
        Some(60),
    ),
    (
        "( OP A = (INT a) VOID: SKIP, A = (INT a) VOID: SKIP; SKIP )",
        Some(29),
    ),
    ("( OP (INT) INT A = SKIP, A = SKIP; SKIP )", Some(25)),
    (
        "( OP (INT, BOOL) INT A = SKIP; OP A = (INT a, BOOL b) INT: a; SKIP )",
        Some(34),
    ),
    (
        "( OP (INT, BOOL) INT A = SKIP; OP A = (INT a) INT: a; SKIP )",
        None,
    ),
    ("( OP A = INT: 1; OP A = BOOL: TRUE; SKIP )", Some(20)),
    (
        "( INT i; OP A = (INT a) VOID: SKIP; INT j; OP A = (REF INT a) VOID: SKIP; SKIP )",
        Some(46),
    ),
    (
        "( WHILE OP A = (INT a) VOID: SKIP; TRUE DO OP A = (INT a) VOID: SKIP; SKIP OD )",
        None,
    ),
    (
        "( ( OP A = (INT a) VOID: SKIP; OP A = (INT a) VOID: SKIP; SKIP ); OP B = (INT a) VOID: SKIP; OP B = (INT a) VOID: SKIP; SKIP )",
        Some(34),
    ),
    (
        "( OP B = (INT a) VOID: SKIP; OP B = (INT a) VOID: SKIP; ( OP A = (INT a) VOID: SKIP; OP A = (INT a) VOID: SKIP; SKIP ) )",
        Some(32),
    ),
    (
        "( MODE P = REF INT; OP A = (P p) VOID: SKIP; INT x; OP A = (INT i) VOID: SKIP; SKIP )",
        Some(55),
    ),
];

// Where a node begins.
fn place_of(rt: &impl Abort, tree: &Tree, id: Option<NodeId>) -> Option<u32> {
    match id {
        None => None,
        Some(id) => {
            holds(rt, id < tree.len(), "a node of the tree");
            Some(tree.node(id).span.from)
        }
    }
}

fn pair_is_told(rt: &impl Abort, alloc: Global, row: &(&str, Option<u32>)) {
    let tree = shaped(rt, alloc, row.0).expect(rt, row.0);
    let ranges = ranges(alloc, &tree).expect(rt, row.0);
    let found = declare(alloc, &tree, &ranges).expect(rt, row.0);
    declared_modes_are_there();
    let late = related_pair(
        alloc,
        &tree,
        &ranges,
        &found.modes,
        &found.classes,
        &found.of,
    )
    .expect(rt, row.0);
    holds(rt, place_of(rt, &tree, late) == row.1, row.0);
    drop(found);
    drop(ranges);
    drop(tree);
}

#[test]
fn related_operators(rt: HostRuntime) {
    for row in RELATED {
        pair_is_told(&rt, rt.alloc(), row);
    }
}
