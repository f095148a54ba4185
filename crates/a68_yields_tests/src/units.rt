//! How a row says what a unit may yield and what is found at it.
ghost use Rattle.std.specs.Prelude.{◌<◌, length};

use crate::looking::{looked, modes_of, tree_of};
use crate::table::holds;
use a68_coerce::Leaf;
use a68_identify::Identified;
use a68_mode_table::ModeTable;
use a68_modes::{ModeId, Shape};
use a68_signs::Operator;
use a68_tree::{NodeId, NodeKind, Tree};
use a68_yields::{Finding, leaves_of};
use std::alloc::Global;
use std::panic::Expect;
use std::process::Abort;
use std::str::SplitWhitespace;

/// A text, the kind of a node in it, the byte at which it begins, what the node may yield, and what is found at it.
///
/// It may yield units of modes, with commas between; `~` is one that may stand in strong positions only; or what it yields is unknown. A
/// structure and a union stand for all of their kind. What is found is nothing, where nothing is looked for; a mode; `own` and the byte of an
/// operator's definition; the row of a standard operator with the numbers of the modes of its operands; or none.
pub type Expected = (&'static str, NodeKind, u32, &'static str, &'static str);

// The node of that kind that begins at that byte, with the least number.
fn node_at(rt: &impl Abort, tree: &Tree, kind: NodeKind, place: u32, case: &str) -> NodeId
    ensures { result < length tree.now.nodes }
{
    for id in 0..tree.len() {
        let node = tree.node(id);
        if node.span.from == place && node.kind == kind {
            return id;
        }
    }
    rt.panic(case)
}

fn is_next(rt: &impl Abort, words: &mut SplitWhitespace<'_>, told: &str, case: &str) {
    let word = words.next().expect(rt, case);
    holds(rt, word == told, case);
}

fn is_number(rt: &impl Abort, words: &mut SplitWhitespace<'_>, told: u32, case: &str) {
    let word = words.next().expect(rt, case);
    holds(rt, word.parse::<u32>().expect(rt, word) == told, case);
}

// How a row is written that has so many dimensions.
fn row_word(dims: u32, flex: bool) -> &'static str {
    match (dims, flex) {
        (1, false) => "[]",
        (1, true) => "FLEX[]",
        (2, false) => "[,]",
        _ => "[..]",
    }
}

// How a mode is written, or its beginning.
fn mode_word(shape: &Shape) -> &'static str {
    match shape {
        Shape::Void => "VOID",
        Shape::Int => "INT",
        Shape::Long => "LONGINT",
        Shape::Bool => "BOOL",
        Shape::Char => "CHAR",
        Shape::Bits => "BITS",
        Shape::Sema => "SEMA",
        Shape::Layout => "LAYOUT",
        Shape::Ref(_) => "REF",
        Shape::Rows { dims, flex, of: _ } => row_word(*dims, *flex),
        Shape::Struct(_) => "STRUCT",
        Shape::Union(_) => "UNION",
        Shape::Proc {
            params: _,
            result: _,
        } => "PROC",
        Shape::Same(_) | Shape::Blank => "no mode",
    }
}

// The words tell of these modes, which are no more than `depth` modes deep.
#[cycle(modes)]
fn are_modes(
    rt: &impl Abort,
    table: &ModeTable,
    modes: &[ModeId],
    words: &mut SplitWhitespace<'_>,
    depth: u32,
    case: &str,
) {
    if depth == 0 {
        rt.panic(case)
    }
    for mode in modes {
        is_mode(rt, table, *mode, words, depth - 1, case);
    }
}

// The words tell of this mode.
#[cycle(modes)]
fn is_mode(
    rt: &impl Abort,
    table: &ModeTable,
    mode: ModeId,
    words: &mut SplitWhitespace<'_>,
    depth: u32,
    case: &str,
) {
    if depth == 0 || mode >= table.len() {
        rt.panic(case)
    }
    let shape = table.shape(mode);
    is_next(rt, words, mode_word(shape), case);
    match shape {
        Shape::Ref(of) => is_mode(rt, table, *of, words, depth - 1, case),
        Shape::Rows {
            dims: _,
            flex: _,
            of,
        } => is_mode(rt, table, *of, words, depth - 1, case),
        Shape::Proc { params, result } => {
            is_next(rt, words, "(", case);
            are_modes(rt, table, &params.items, words, depth - 1, case);
            is_next(rt, words, ")", case);
            is_mode(rt, table, *result, words, depth - 1, case);
        }
        _ => {}
    }
}

// The words tell of this unit.
fn is_leaf(
    rt: &impl Abort,
    table: &ModeTable,
    leaf: Leaf,
    words: &mut SplitWhitespace<'_>,
    case: &str,
) {
    match leaf {
        Leaf::Mode(mode) => is_mode(rt, table, mode, words, 20, case),
        Leaf::StrongOnly => is_next(rt, words, "~", case),
    }
}

// The words tell of these units.
fn are_leaves(
    rt: &impl Abort,
    table: &ModeTable,
    leaves: &[Leaf],
    words: &mut SplitWhitespace<'_>,
    case: &str,
) {
    for (place, leaf) in leaves.iter().enumerate() {
        if place > 0 {
            is_next(rt, words, ",", case);
        }
        is_leaf(rt, table, *leaf, words, case);
    }
}

// The words tell of what a node may yield.
fn is_yield(rt: &impl Abort, table: &ModeTable, leaves: Option<&[Leaf]>, answer: &str, case: &str) {
    let mut words = answer.split_whitespace();
    match leaves {
        Some(leaves) => are_leaves(rt, table, leaves, &mut words, case),
        None => is_next(rt, &mut words, "unknown", case),
    }
    holds(rt, words.next().is_none(), case);
}

fn is_row(rt: &impl Abort, told: Operator, words: &mut SplitWhitespace<'_>, case: &str) {
    is_next(rt, words, "row", case);
    is_number(rt, words, told.row, case);
    is_number(rt, words, told.left, case);
    is_number(rt, words, told.right, case);
}

// The words tell of this operator.
fn is_operator(
    rt: &impl Abort,
    tree: &Tree,
    told: Identified,
    words: &mut SplitWhitespace<'_>,
    case: &str,
) {
    match told {
        Identified::Declared(id) => {
            is_next(rt, words, "own", case);
            holds(rt, id < tree.len(), case);
            is_number(rt, words, tree.node(id).span.from, case);
        }
        Identified::Standard(operator) => is_row(rt, operator, words, case),
    }
}

// The words tell of what is found.
fn is_found(
    rt: &impl Abort,
    tree: &Tree,
    table: &ModeTable,
    found: Finding,
    answer: &str,
    case: &str,
) {
    let mut words = answer.split_whitespace();
    match found {
        Finding::Nothing => is_next(rt, &mut words, "nothing", case),
        Finding::Mode(Some(mode)) => is_mode(rt, table, mode, &mut words, 20, case),
        Finding::Operator(Some(operator)) => is_operator(rt, tree, operator, &mut words, case),
        Finding::Mode(None) | Finding::Operator(None) => is_next(rt, &mut words, "none", case),
    }
    holds(rt, words.next().is_none(), case);
}

fn unit_is_told(rt: &impl Abort, alloc: Global, row: &Expected) {
    let tree = tree_of(rt, alloc, row.0).expect(rt, row.0);
    let mut made = modes_of(rt, alloc, &tree, row.0);
    let found = looked(rt, alloc, &tree, &mut made, row.0);
    let node = node_at(rt, &tree, row.1, row.2, row.0);
    let leaves = leaves_of(alloc, &tree, &found.yields, node).expect(rt, "memory");
    is_yield(rt, &made.modes, leaves.as_deref(), row.3, row.0);
    is_found(
        rt,
        &tree,
        &made.modes,
        found.findings[node as usize],
        row.4,
        row.0,
    );
    drop(leaves);
    drop(found);
    drop(made);
    drop(tree);
}

/// What the rows say holds of each text.
pub fn are_told(rt: &impl Abort, alloc: Global, rows: &[Expected]) {
    for row in rows {
        unit_is_told(rt, alloc, row);
    }
}
