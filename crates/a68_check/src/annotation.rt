//! Trees with what is known of each node.
ghost use Rattle.std.specs.Prelude.{◌≡◌, IfOk, IfErr};
ghost use Rattle.a68_check.specs.Annotates.{Annotates, AreKnown, DeclaresOnce, Refuses};
ghost use Rattle.a68_meaning.specs.Meaning.{IsMisused};
ghost use Rattle.a68_notes.specs.Rows.{with_rows};
ghost use Rattle.a68_ranges.specs.Tables.{AreRanges};
ghost use Rattle.a68_ranges.specs.Twice.{StopsBy};

use a68_annot::{Annotated, Notes};
use a68_base::{NoMemory, Stop};
use a68_meaning::{Meaning, find_meaning};
use a68_modes::Modes;
use a68_notes::{add_rows, find_notes};
use a68_op_ident::shape;
use a68_ranges::{Ranges, ranges};
use a68_tree::Tree;
use std::alloc::Global;

// Finds all modes of a tree whose formulas are shaped, and what is known of its nodes, by its ranges.
fn known_by(alloc: Global, tree: &Tree, ranges: &Ranges) -> Result<(Modes, Notes), Stop>
    requires ranges { AreRanges tree.now ranges.now }
    requires once { DeclaresOnce tree.now }
    ensures known { IfOk result (λ found. AreKnown tree.now found.0 found.1) }
    ensures wrong { IfErr result (StopsBy (IsMisused tree.now)) }
{
    let meaning = find_meaning(alloc, tree, ranges)?;
    let notes = find_notes(alloc, tree, ranges, &meaning)?;
    let modes = rowed_modes(alloc, meaning)?;
    Ok((modes, notes))
}

// The same, where the ranges are yet to be found.
fn known(alloc: Global, tree: &Tree) -> Result<(Modes, Notes), Stop>
    requires once { DeclaresOnce tree.now }
    ensures known { IfOk result (λ found. AreKnown tree.now found.0 found.1) }
    ensures wrong { IfErr result (StopsBy (IsMisused tree.now)) }
{
    let ranges = ranges(alloc, tree)?;
    known_by(alloc, tree, &ranges)
}

// Keeps the modes of what is known, and lets the rest go.
fn modes_of(meaning: Meaning) -> Modes
    ensures { result ≡ meaning.modes }
{
    let Meaning {
        modes,
        of: _,
        tags: _,
        defined: _,
        yields: _,
        positions: _,
    } = meaning;
    modes.into_modes()
}

// Keeps the modes of what is known, with the rows by way of which values become rows of several dimensions.
fn rowed_modes(alloc: Global, meaning: Meaning) -> Result<Modes, NoMemory>
    ensures { IfOk result (λ modes. modes ≡ with_rows meaning.modes) }
{
    let mut modes = modes_of(meaning);
    add_rows(alloc, &mut modes)?;
    Ok(modes)
}

// Annotates a tree whose formulas are shaped.
fn annotate_shaped(alloc: Global, tree: Tree) -> Result<Annotated, Stop>
    requires once { DeclaresOnce tree }
    ensures tree { IfOk result (λ program. program.tree ≡ tree) }
    ensures known { IfOk result (λ program. AreKnown program.tree program.modes program.notes) }
    ensures wrong { IfErr result (StopsBy (IsMisused tree)) }
{
    match known(alloc, &tree) {
        Ok((modes, notes)) => Ok(Annotated { tree, modes, notes }),
        Err(stop) => {
            drop(tree);
            Err(stop)
        }
    }
}

// Annotates a tree whose formulas are flat and whose ranges declare no word twice.
fn annotate_flat(alloc: Global, tree: Tree, ranges: &Ranges) -> Result<Annotated, Stop>
    requires ranges { AreRanges tree ranges.now }
    requires once { DeclaresOnce tree }
    ensures ok { IfOk result (λ program. Annotates tree program) }
    ensures refused { IfErr result (StopsBy (Refuses tree)) }
{
    let shaped = shape(alloc, tree, ranges)?;
    annotate_shaped(alloc, shaped)
}

/// Finds what each node of a tree means, whose formulas are flat. The tree is refused by N3 where a range declares a word of one
/// sort twice, or a structure has two fields of one tag (Report, 7.1.1 and 7.2.1); by O3 where a sign between two operands
/// has no priority (4.3); by N2, L4, M1, M2 or C4, the first of these that its declarers break (4.6 to 4.8 and 7.4); by O2
/// where a range defines two operators of one sign with related parameters (7.1.1); each time at the first place in the text
/// that breaks the rule. Else it is refused by the first of N1, N4, O1, C1, C2, C3, P1, P2, J1 and J2 that a node breaks, where parts
/// come before their node (3.3 to 3.4, 5.2 to 5.4, 6.1 and 7.2).
pub fn annotate(alloc: Global, tree: Tree) -> Result<Annotated, Stop>
    ensures ok { IfOk result (λ program. Annotates tree program) }
    ensures refused { IfErr result (StopsBy (Refuses tree)) }
{
    match ranges(alloc, &tree) {
        Ok(ranges) => annotate_flat(alloc, tree, &ranges),
        Err(stop) => {
            drop(tree);
            Err(stop)
        }
    }
}
