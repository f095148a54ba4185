//! What is asked of a node of a text.
ghost use Rattle.std.specs.Prelude.{◌<◌, ℕ, length};
ghost use Rattle.a68_definitions.specs.Defined.{AreBelow};
ghost use Rattle.a68_identify.specs.Operators.{NumbersAreThere};
ghost use Rattle.a68_ranges.specs.Tables.{AreRanges};
ghost use Rattle.a68_ranges.specs.Twice.{IsTwice};

use crate::table::holds;
use a68_declare::{Declared, NodeModes, declare};
use a68_definitions::{applied_tags, defined_modes, kind_of};
use a68_mode_table::ModeTable;
use a68_modes::{ModeId, Shape, Sort};
use a68_op_ident::shape;
use a68_parse::{parse, symbols_are_bounded};
use a68_positions::{Position, positions};
use a68_ranges::{Ranges, ranges};
use a68_symbols::symbols;
use a68_tree::{NodeId, NodeKind, Tree};
use a68_words::words;
use a68_yields::find_yields;
use std::alloc::Global;
use std::panic::Expect;
use std::process::Abort;

/// A mode: a standard one by its number; or what it is made of, the modes within it by their numbers.
#[derive(Clone, Copy)]
pub enum Named {
    Is(ModeId),
    /// The dimensions of a row, whether it is FLEX, and its element.
    Row(u32, bool, ModeId),
    NameOfRow(u32, bool, ModeId),
    /// How many fields the structure has.
    NameOfStructure(usize),
    /// How many members there are.
    Union(usize),
    Proc(&'static [ModeId], ModeId),
}

/// What is asked of a node; of a goal the kind of the node that sets it.
#[derive(Clone, Copy)]
pub enum Question {
    Nowhere,
    Unlooked,
    Called,
    Items,
    Goal(Named, Option<NodeKind>),
    Asks(Sort, Option<Named>),
}

fn tree_of(rt: &impl Abort, alloc: Global, text: &str) -> Tree {
    let found = symbols(alloc, text.as_bytes()).expect(rt, "symbols");
    let classes = words(alloc, &found).expect(rt, "classes");
    symbols_are_bounded();
    let tree = parse(alloc, &found, &classes, text.len() as u32).expect(rt, text);
    drop(classes);
    drop(found);
    tree
}

// The tree of a text with its formulas shaped.
fn shaped(rt: &impl Abort, alloc: Global, text: &str) -> Tree {
    let tree = tree_of(rt, alloc, text);
    let ranges = ranges(alloc, &tree).expect(rt, text);
    let shaped = shape(alloc, tree, &ranges).expect(rt, text);
    drop(ranges);
    shaped
}

// The modes of the declarers of a tree.
fn declared(
    rt: &impl Abort,
    alloc: Global,
    tree: &Tree,
    ranges: &Ranges,
    text: &str,
) -> (ModeTable, NodeModes)
    requires ranges { AreRanges tree.now ranges.now }
    requires once { (id : ℕ) → IsTwice tree.now id → ⊥ }
    ensures below { AreBelow (length result.0) result.1 }
    ensures there { NumbersAreThere tree.now result.0 result.1 }
{
    let declared = declare(alloc, tree, ranges).expect(rt, text);
    let Declared {
        modes,
        classes,
        of,
        fixed,
    } = declared;
    (ModeTable::new(modes, classes, fixed), of)
}

// What is asked of all nodes of a tree, and the modes.
fn asked_of_all(
    rt: &impl Abort,
    alloc: Global,
    tree: &Tree,
    text: &str,
) -> (ModeTable, Vec<Position>) {
    let ranges = ranges(alloc, tree).expect(rt, "ranges");
    let (mut modes, of) = declared(rt, alloc, tree, &ranges, text);
    let tags = applied_tags(alloc, tree, &ranges).expect(rt, "tags");
    let defined = defined_modes(alloc, tree, &of, &mut modes).expect(rt, "definitions");
    let found = find_yields(alloc, tree, &ranges, &tags, &of, &defined, &mut modes).expect(
        rt, "yields",
    );
    let asked = positions(
        alloc,
        tree,
        &tags,
        &of,
        &defined,
        &mut modes,
        &found.yields,
        &found.findings,
    )
    .expect(rt, "positions");
    drop(found);
    drop(defined);
    drop(tags);
    drop(of);
    drop(ranges);
    (modes, asked)
}

// The node of that kind that begins at that byte.
fn node_at(rt: &impl Abort, tree: &Tree, kind: NodeKind, place: u32, case: &str) -> NodeId {
    for id in 0..tree.len() {
        let node = tree.node(id);
        if node.kind == kind && node.span.from == place {
            return id;
        }
    }
    rt.panic(case)
}

fn is_row(shape: &Shape, row: (u32, bool, ModeId)) -> bool {
    match shape {
        Shape::Rows { dims, flex, of } => (*dims, *flex, *of) == row,
        _ => false,
    }
}

fn is_structure(shape: &Shape, count: usize) -> bool {
    match shape {
        Shape::Struct(fields) => fields.items.len() == count,
        _ => false,
    }
}

fn is_union(shape: &Shape, count: usize) -> bool {
    match shape {
        Shape::Union(members) => members.items.len() == count,
        _ => false,
    }
}

fn is_procedure(shape: &Shape, told: &[ModeId], of: ModeId) -> bool {
    match shape {
        Shape::Proc { params, result } => params.items.as_slice() == told && *result == of,
        _ => false,
    }
}

// What a mode is a name of; the mode itself where it is no name.
fn referred(rt: &impl Abort, modes: &ModeTable, mode: ModeId) -> ModeId
    ensures { result < length modes.now }
{
    holds(rt, mode < modes.len(), "a mode");
    let of = match modes.shape(mode) {
        Shape::Ref(of) => *of,
        _ => mode,
    };
    holds(rt, of < modes.len(), "a mode");
    of
}

fn is_mode(rt: &impl Abort, modes: &ModeTable, mode: ModeId, told: Named) -> bool {
    let of = referred(rt, modes, mode);
    match told {
        Named::Is(other) => mode == other,
        Named::Row(dims, flex, element) => {
            mode == of && is_row(modes.shape(of), (dims, flex, element))
        }
        Named::NameOfRow(dims, flex, element) => {
            mode != of && is_row(modes.shape(of), (dims, flex, element))
        }
        Named::NameOfStructure(count) => mode != of && is_structure(modes.shape(of), count),
        Named::Union(count) => mode == of && is_union(modes.shape(of), count),
        Named::Proc(params, result_mode) => {
            mode == of && is_procedure(modes.shape(of), params, result_mode)
        }
    }
}

fn is_found(
    rt: &impl Abort,
    modes: &ModeTable,
    found: Option<ModeId>,
    told: Option<Named>,
) -> bool {
    match told {
        None => found.is_none(),
        Some(told) => match found {
            Some(mode) => is_mode(rt, modes, mode, told),
            None => false,
        },
    }
}

fn is_set_by(tree: &Tree, setter: Option<NodeId>, told: Option<NodeKind>) -> bool {
    match told {
        None => setter.is_none(),
        Some(kind) => match setter {
            Some(node) => kind_of(tree, node) == kind,
            None => false,
        },
    }
}

fn is_asked(
    rt: &impl Abort,
    tree: &Tree,
    modes: &ModeTable,
    position: Position,
    told: Question,
) -> bool {
    match position {
        Position::Nowhere => matches!(told, Question::Nowhere),
        Position::Unlooked => matches!(told, Question::Unlooked),
        Position::Called => matches!(told, Question::Called),
        Position::Items(_) => matches!(told, Question::Items),
        Position::Goal(mode, setter) => match told {
            Question::Goal(goal, kind) => {
                is_mode(rt, modes, mode, goal) && is_set_by(tree, setter, kind)
            }
            _ => false,
        },
        Position::Asks(sort, found) => match told {
            Question::Asks(told_sort, mode) => sort == told_sort
                && is_found(rt, modes, found, mode),
            _ => false,
        },
    }
}

fn row_is_asked(rt: &impl Abort, alloc: Global, row: &(&str, NodeKind, u32, Question)) {
    let tree = shaped(rt, alloc, row.0);
    let node = node_at(rt, &tree, row.1, row.2, row.0);
    let (modes, asked) = asked_of_all(rt, alloc, &tree, row.0);
    let position = asked.get(node as usize).expect(rt, row.0);
    holds(rt, is_asked(rt, &tree, &modes, *position, row.3), row.0);
    drop(asked);
    drop(modes);
    drop(tree);
}

/// All rows of a table hold.
pub fn all_are_asked(rt: &impl Abort, alloc: Global, rows: &[(&str, NodeKind, u32, Question)]) {
    for row in rows {
        row_is_asked(rt, alloc, row);
    }
}
