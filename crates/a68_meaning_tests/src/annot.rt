//! A note of a tree of one node.
use crate::table::holds;
use crate::trees::tree_of;
use a68_annot::{Annotated, Note, Notes};
use a68_modes::{Modes, Path};
use a68_tree::FrameStep;
use std::alloc::Global;
use std::panic::Expect;

/// A note without coercions.
pub fn note(alloc: Global, mode: u32) -> Note {
    Note {
        mode,
        path: Path {
            items: Vec::new(alloc),
        },
        goal: mode,
        op: None,
        definition: None,
        step: FrameStep { hops: 0, slot: 0 },
        slots: 0,
        need: None,
    }
}

#[test]
fn note_of_a_node(rt: HostRuntime) {
    let alloc = rt.alloc();
    let modes = Modes::new(alloc).expect(&rt, "memory");
    let mut items = Vec::new(alloc);
    items.push(note(alloc, 1)).expect(&rt, "memory");
    let tree = tree_of(&rt, alloc, "Skip 0 4 0", "SKIP");
    holds(&rt, tree.len() == 1, "one node");
    let annotated = Annotated {
        tree,
        modes,
        notes: Notes { items },
    };
    holds(&rt, annotated.note(0).mode == 1, "its note");
    drop(annotated);
}
