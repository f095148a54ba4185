//! What each node of a tree means.
ghost use Rattle.std.specs.Prelude.{◌≡◌, ◌≤◌, ℕ, IfOk, IfErr, length};
ghost use Rattle.a68_definitions.specs.Defined.{AllBelow};
ghost use Rattle.a68_meaning.specs.Meaning.{AreSoundModes, IsMeaning, IsMisused, IsUnbroken};
ghost use Rattle.a68_positions.specs.Below.{ArePositionsBelow};
ghost use Rattle.a68_ranges.specs.Tables.{AreRanges};
ghost use Rattle.a68_ranges.specs.Twice.{IsTwice, StopsBy};
ghost use Rattle.a68_yields.specs.Below.{AreTablesBelow};

use a68_base::{NoMemory, Refusal, Rule, Stop};
use a68_declare::{Declared, NodeModes, declare};
use a68_declarers::place_of;
use a68_definitions::{Tags, applied_tags, defined_modes};
use a68_identify::{declared_modes_are_there, related_pair};
use a68_mode_table::ModeTable;
use a68_modes::ModeId;
use a68_positions::{Position, positions};
use a68_ranges::Ranges;
use a68_refusals::{first_broken, rule_of};
use a68_tree::Tree;
use a68_yields::{Yields, find_yields};
use std::alloc::Global;

/// What is known of each node of a tree: all modes, those of declarers, the definitions of tags, the modes of definitions, what nodes yield and
/// what is found at them, and what is asked of them.
#[derive(Drop)]
pub struct Meaning {
    pub modes: ModeTable,
    pub of: NodeModes,
    pub tags: Tags,
    pub defined: Vec<ModeId>,
    pub yields: Yields,
    pub positions: Vec<Position>,
}

// The modes of the declarers of a tree, where its ranges define no related operators.
fn declared_modes(
    alloc: Global,
    tree: &Tree,
    ranges: &Ranges,
) -> Result<(ModeTable, NodeModes), Stop>
    requires ranges { AreRanges tree.now ranges.now }
    requires once { (id : ℕ) → IsTwice tree.now id → ⊥ }
    ensures modes { IfOk result (λ found. AreSoundModes tree.now found.1 found.0) }
    ensures refused { IfErr result (StopsBy (IsMisused tree.now)) }
{
    let declared = declare(alloc, tree, ranges)?;
    let Declared {
        modes,
        classes,
        of,
        fixed,
    } = declared;
    declared_modes_are_there();
    let related = related_pair(alloc, tree, ranges, &modes, &classes, &of)?;
    match related {
        None => Ok((ModeTable::new(modes, classes, fixed), of)),
        Some(later) => Err(Stop::Refused(Refusal {
            rule: Rule::O2,
            place: place_of(tree, later),
        })),
    }
}

// What is known of each node of a tree, with these modes of its declarers.
fn meaning_by(
    alloc: Global,
    tree: &Tree,
    ranges: &Ranges,
    modes: ModeTable,
    of: NodeModes,
) -> Result<Meaning, NoMemory>
    requires ranges { AreRanges tree.now ranges.now }
    requires modes { AreSoundModes tree.now of modes }
    ensures is { IfOk result (λ m. IsMeaning m.of (record { tree = tree.now; tags = m.tags; defined = m.defined.items; nodes = m.modes; ys = m.yields.yields.items; fs = m.yields.findings.items; ps = m.positions.items })) }
    ensures below { IfOk result (λ m. AllBelow (length m.modes) m.defined.items) }
    ensures tables { IfOk result (λ m. AreTablesBelow (length m.modes) (length tree.now.nodes) m.yields.yields.items m.yields.findings.items) }
    ensures positions { IfOk result (λ m. ArePositionsBelow (length m.modes) m.positions.items) }
{
    let mut modes = modes;
    declared_modes_are_there();
    let tags = applied_tags(alloc, tree, ranges)?;
    let defined = defined_modes(alloc, tree, &of, &mut modes)?;
    let yields = find_yields(alloc, tree, ranges, &tags, &of, &defined, &mut modes)?;
    let asked = positions(
        alloc,
        tree,
        &tags,
        &of,
        &defined,
        &mut modes,
        &yields.yields,
        &yields.findings,
    )?;
    let _few = modes.len();
    Ok(Meaning {
        modes,
        of,
        tags,
        defined,
        yields,
        positions: asked,
    })
}

/// Finds what each node of a tree means, whose formulas are shaped and whose ranges declare no word twice. The tree is refused by N2, L4, M1, M2
/// or C4, the first of these that its declarers break (4.6 to 4.8 and 7.4); else by O2 where a range defines two operators of one sign with
/// related parameters (7.1.1); else by the first of N1, N4, O1, C1, C2, C3, P1, P2, J1 and J2 that a node breaks, where parts come before their node.
pub fn find_meaning(alloc: Global, tree: &Tree, ranges: &Ranges) -> Result<Meaning, Stop>
    requires ranges { AreRanges tree.now ranges.now }
    requires once { (id : ℕ) → IsTwice tree.now id → ⊥ }
    ensures ok { IfOk result (λ m. IsUnbroken m.of (record { tree = tree.now; tags = m.tags; defined = m.defined.items; nodes = m.modes; ys = m.yields.yields.items; fs = m.yields.findings.items; ps = m.positions.items })) }
    ensures tables { IfOk result (λ m. AreTablesBelow (length m.modes) (length tree.now.nodes) m.yields.yields.items m.yields.findings.items) }
    ensures positions { IfOk result (λ m. ArePositionsBelow (length m.modes) m.positions.items) }
    ensures refused { IfErr result (StopsBy (IsMisused tree.now)) }
{
    let (modes, of) = declared_modes(alloc, tree, ranges)?;
    let meaning = meaning_by(alloc, tree, ranges, modes, of)?;
    let first = first_broken(
        alloc,
        tree,
        &meaning.tags,
        &meaning.defined,
        &meaning.modes,
        &meaning.yields.yields,
        &meaning.yields.findings,
        &meaning.positions,
    )?;
    match first {
        None => Ok(meaning),
        Some(broken) => Err(Stop::Refused(Refusal {
            rule: rule_of(broken.rule),
            place: broken.place,
        })),
    }
}
