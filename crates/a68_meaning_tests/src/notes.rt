//! Mode words: where each is defined, and how many frames further in it stands, by hand from the text (Report, 3.2, 4.8 and 7.2).
use crate::listings::tree_of;
use crate::ranges::node_at;
use crate::table::holds;
use a68_annot::Note;
use a68_check::annotate;
use a68_tree::{NodeKind, Tree};
use std::alloc::Global;
use std::panic::Expect;
use std::process::Abort;

/// The byte of a definition, and how many frames further in a mode word stands.
type Told = Option<(u32, u32)>;

/// A text, the byte of a declarer in it, and what is told of it, where it is a mode word.
const DECLARERS: &[(&str, u32, Told)] = &[
    ("( MODE M = INT; M x = 1; SKIP )", 11, None),
    ("( MODE M = INT; M x = 1; SKIP )", 16, Some((7, 0))),
    // Neither range has a slot, so none makes a frame.
    (
        "( MODE M = INT; ( MODE N = M; SKIP ); SKIP )",
        27,
        Some((7, 0)),
    ),
    // Both ranges have a slot.
    (
        "( MODE M = INT; INT i = 1; ( M k = i; SKIP ) )",
        29,
        Some((7, 1)),
    ),
    // The outer range has none, the loop and its body have one each.
    (
        "( MODE M = INT; FOR i TO 3 DO M x = i; SKIP OD )",
        30,
        Some((7, 2)),
    ),
    // A parameter stands in the frame of its routine.
    (
        "( MODE M = INT; PROC f = (M a) INT: a; SKIP )",
        26,
        Some((7, 1)),
    ),
    // The elements of a row.
    ("( MODE M = INT; [2] M v; SKIP )", 20, Some((7, 0))),
    // The inner one of two definitions counts.
    (
        "( MODE M = INT; INT i = 1; ( MODE M = BOOL; M b = TRUE; SKIP ) )",
        44,
        Some((34, 0)),
    ),
];

// Is known of a declarer what is told of it?
fn is_as_told(tree: &Tree, note: &Note, told: Told) -> bool {
    match (note.definition, told) {
        (Some(id), Some((place, hops))) => {
            id < tree.len()
                && tree.node(id).span.from == place
                && note.step.hops == hops
                && note.step.slot == 0
        }
        (None, None) => true,
        _ => false,
    }
}

fn declarer_is_told(rt: &impl Abort, alloc: Global, row: &(&str, u32, Told)) {
    let program = annotate(alloc, tree_of(rt, alloc, row.0)).expect(rt, row.0);
    let at = node_at(rt, &program.tree, NodeKind::Declarer, row.1);
    let is = is_as_told(&program.tree, program.note(at), row.2);
    drop(program);
    holds(rt, is, row.0);
}

#[test]
fn mode_words_lead_to_their_definitions(rt: HostRuntime) {
    for row in DECLARERS {
        declarer_is_told(&rt, rt.alloc(), row);
    }
}
