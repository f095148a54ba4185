//! Modes that join those of a text, by hand from the text and the modes (Report, 4.6, 7.1 and 7.3).
ghost use Rattle.std.specs.Prelude.{◌<◌, ◌↔◌, IsTrue, length};
ghost use Rattle.std.specs.List.{All};
ghost use Rattle.a68_mode_table.specs.Growing.{AreSound};

use crate::declared::tree_of;
use crate::table::holds;
use a68_declare::{Declared, declare};
use a68_mode_table::ModeTable;
use a68_modes::{Members, ModeId, Shape};
use a68_ranges::ranges;
use std::alloc::Global;
use std::panic::Expect;
use std::process::Abort;

/// What joins the modes.
enum Joins {
    /// The name of a mode.
    Name(ModeId),
    /// A row of so many dimensions, FLEX or not, of a mode.
    Row(u32, bool, ModeId),
    /// A procedure with these parameters and this result.
    Procedure(&'static [ModeId], ModeId),
    /// The union of INT and LONG INT.
    Number,
}

/// No modes but the standard ones.
const PLAIN: &str = "( INT a; SKIP )";
/// 15 is PROC (INT) BOOL.
const ROUTINE: &str = "( PROC (INT) BOOL p; SKIP )";
/// 15 is FLEX [] BOOL.
const FLEXIBLE: &str = "( FLEX [1:0] BOOL f; SKIP )";
/// 15 is REF REF BOOL, 16 is REF BOOL.
const NAMES: &str = "( REF REF BOOL r; SKIP )";

/// 15 is UNION (INT, LONG INT).
const NUMBER: &str = "( UNION (LONG INT, INT) u; SKIP )";

/// A text, what joins its modes, the node of that, how many nodes there are then, and the node of the same mode without its FLEX.
const GROWTH: &[(&str, Joins, ModeId, u32, ModeId)] = &[
    // REF INT, REF STRING and REF BOOL
    (PLAIN, Joins::Name(1), 9, 15, 9),
    (PLAIN, Joins::Name(12), 10, 15, 10),
    (PLAIN, Joins::Name(2), 15, 16, 15),
    // [] CHAR, STRING, [] BOOL and FLEX [] BOOL
    (PLAIN, Joins::Row(1, false, 3), 7, 15, 7),
    (PLAIN, Joins::Row(1, true, 3), 12, 15, 7),
    (PLAIN, Joins::Row(1, false, 2), 11, 15, 11),
    (PLAIN, Joins::Row(1, true, 2), 15, 16, 11),
    // [,] INT, and FLEX [,] INT behind it
    (PLAIN, Joins::Row(2, false, 1), 15, 16, 15),
    (PLAIN, Joins::Row(2, true, 1), 16, 17, 15),
    // [] [] CHAR, and before [] STRING and FLEX [] STRING
    (PLAIN, Joins::Row(1, false, 7), 15, 16, 15),
    (PLAIN, Joins::Row(1, false, 12), 16, 17, 15),
    (PLAIN, Joins::Row(1, true, 12), 16, 17, 15),
    // PROC INT, PROC (INT) BOOL and PROC (INT, INT) VOID
    (PLAIN, Joins::Procedure(&[], 1), 15, 16, 15),
    (PLAIN, Joins::Procedure(&[1], 2), 15, 16, 15),
    (PLAIN, Joins::Procedure(&[1, 1], 0), 15, 16, 15),
    (ROUTINE, Joins::Procedure(&[1], 2), 15, 16, 15),
    (ROUTINE, Joins::Procedure(&[2], 1), 16, 17, 16),
    (ROUTINE, Joins::Name(15), 16, 17, 16),
    (FLEXIBLE, Joins::Row(1, true, 2), 15, 16, 11),
    (FLEXIBLE, Joins::Name(15), 16, 17, 16),
    // [] [] BOOL before [] FLEX [] BOOL
    (FLEXIBLE, Joins::Row(1, false, 15), 17, 18, 16),
    (NAMES, Joins::Name(2), 16, 17, 16),
    (NAMES, Joins::Name(16), 15, 17, 15),
    (NAMES, Joins::Name(15), 17, 18, 17),
    (PLAIN, Joins::Number, 15, 16, 15),
    (ROUTINE, Joins::Number, 16, 17, 16),
    (NUMBER, Joins::Number, 15, 16, 15),
];

/// A text, the node of a union in it, and its members in order.
const MEMBERS: &[(&str, ModeId, &[ModeId])] = &[
    ("( INT a; SKIP )", 8, &[1, 13, 2, 3, 4, 7, 6]),
    ("( UNION (BOOL, INT) u; SKIP )", 15, &[1, 2]),
    ("( UNION (REF BOOL, INT) u; SKIP )", 15, &[1, 16]),
    ("( UNION (STRING, BITS, INT) u; SKIP )", 15, &[1, 4, 7]),
    (NUMBER, 15, &[1, 13]),
    (
        "( UNION (SEMA, UNION (CHAR, INT), BOOL) u; SKIP )",
        15,
        &[1, 2, 3, 5],
    ),
];

// The table of the modes of a text.
fn table_of(rt: &impl Abort, alloc: Global, text: &str) -> ModeTable
    ensures { AreSound result }
{
    let tree = tree_of(rt, alloc, text);
    let ranges = ranges(alloc, &tree).expect(rt, "ranges");
    let declared = declare(alloc, &tree, &ranges).expect(rt, text);
    let Declared {
        modes,
        classes,
        of,
        fixed,
    } = declared;
    drop(of);
    drop(ranges);
    drop(tree);
    ModeTable::new(modes, classes, fixed)
}

// Are these modes among the first so many?
fn are_there(modes: &[ModeId], count: u32) -> bool
    ensures { IsTrue result ↔ All (λ mode. mode < count) modes.now }
{
    modes.iter().all(|mode| *mode < count)
}

// The node of what joins the modes.
fn joined(rt: &impl Abort, alloc: Global, table: &mut ModeTable, joins: &Joins) -> ModeId {
    let count = table.len();
    match joins {
        Joins::Name(of) => {
            holds(rt, *of < count, "a mode");
            table.name_of(alloc, *of).expect(rt, "a name")
        }
        Joins::Row(dims, flex, of) => {
            holds(rt, *of < count, "an element");
            holds(rt, *dims > 0, "dimensions");
            table.row_of(alloc, *dims, *flex, *of).expect(rt, "a row")
        }
        Joins::Procedure(params, of) => {
            holds(rt, *of < count, "a result");
            holds(rt, are_there(params, count), "parameters");
            let params = Members::from_slice(alloc, params).expect(rt, "parameters");
            table
                .procedure(alloc, params, *of)
                .expect(rt, "a procedure")
        }
        Joins::Number => table.number(alloc).expect(rt, "a union"),
    }
}

fn grows(rt: &impl Abort, alloc: Global, row: &(&str, Joins, ModeId, u32, ModeId)) {
    let mut table = table_of(rt, alloc, row.0);
    let node = joined(rt, alloc, &mut table, &row.1);
    holds(rt, node == row.2, row.0);
    let count = table.len();
    holds(rt, count == row.3, row.0);
    holds(rt, node < count, row.0);
    holds(rt, table.without_flex(node) == row.4, row.0);
    drop(table);
}

#[test]
fn modes_that_join(rt: HostRuntime) {
    for row in GROWTH {
        grows(&rt, rt.alloc(), row);
    }
}

fn has_members(rt: &impl Abort, alloc: Global, row: &(&str, ModeId, &[ModeId])) {
    let table = table_of(rt, alloc, row.0);
    let count = table.len();
    holds(rt, row.1 < count, row.0);
    match table.shape(row.1) {
        Shape::Union(members) => holds(rt, members.items.as_slice() == row.2, row.0),
        _ => rt.panic(row.0),
    }
    drop(table);
}

#[test]
fn members_in_order(rt: HostRuntime) {
    for row in MEMBERS {
        has_members(&rt, rt.alloc(), row);
    }
}
