//! The yields of all nodes, and what is found at them.
ghost use Rattle.std.specs.Prelude.{◌≡◌, ◌≤◌, ◌<◌, ◌+◌, List, IfOk, OnOk, length, replicate, slice_set};
ghost use Rattle.a68_definitions.specs.Defined.{AllBelow};
ghost use Rattle.a68_fields.specs.Fields.{AreFieldsOf, KeepFields};
ghost use Rattle.a68_identify.specs.Operators.{AreListed, NumbersAreThere};
ghost use Rattle.a68_modes.specs.declared.shape.Shape.{Shape};
ghost use Rattle.a68_ranges.specs.Tables.{AreRanges};
ghost use Rattle.a68_yields.specs.Below.{AreTablesBelow, IsToldBelow, IsYieldingBelow};
ghost use Rattle.a68_yields.specs.Yields.{AreYields, AreYieldsFrom, IsToldYield};

use crate::found::found_at;
use crate::parts::part_mode;
use crate::sought::sought_at;
use crate::told::{Told, yields_of};
use crate::yielding::{Finding, Yielding};
use a68_base::NoMemory;
use a68_coerce::Leaf;
use a68_declare::NodeModes;
use a68_definitions::{Tags, parts_of};
use a68_fields::FieldTable;
use a68_identify::OperatorModes;
use a68_mode_table::ModeTable;
use a68_modes::ModeId;
use a68_ranges::Ranges;
use a68_tree::{NodeId, Tree};
use std::alloc::Global;

// Gives the yield that is told; a mode that is not there joins the others.
fn granted(
    alloc: Global,
    modes: &mut ModeTable,
    nodes: u32,
    node: NodeId,
    told: Told,
) -> Result<Yielding, NoMemory>
    requires { IsToldBelow (length modes.old) nodes node told }
    ensures is { IfOk result (IsToldYield modes.old told modes.new) }
    ensures below { IfOk result (IsYieldingBelow (length modes.new) nodes node) }
    ensures longer { OnOk result (length modes.old ≤ length modes.new) }
    ensures fields { OnOk result (KeepFields modes.old modes.new) }
{
    let _place = (nodes, node);
    match told {
        Told::Yields(yielding) => Ok(yielding),
        Told::PartOf(part) => {
            let mode = part_mode(alloc, modes, part)?;
            Ok(Yielding::Unit(Leaf::Mode(mode)))
        }
    }
}

// Notes what a node yields; nothing where there is no such node.
fn note_yield(yields: &mut [Yielding], node: NodeId, yielding: Yielding)
    ensures { yields.new ≡ slice_set yields.old node yielding }
{
    let place = node as usize;
    if place < yields.len() {
        yields[place] = yielding;
    }
}

// Notes what is found at a node; nothing where there is no such node.
fn note_finding(findings: &mut [Finding], node: NodeId, found: Finding)
    ensures { findings.new ≡ slice_set findings.old node found }
{
    let place = node as usize;
    if place < findings.len() {
        findings[place] = found;
    }
}

// Looks at one node more.
fn look_at(
    alloc: Global,
    tree: &Tree,
    ranges: &Ranges,
    tags: &Tags,
    of: &OperatorModes<'_>,
    defined: &[ModeId],
    modes: &mut ModeTable,
    fields: &FieldTable,
    yields: &mut [Yielding],
    findings: &mut [Finding],
    node: NodeId,
) -> Result<(), NoMemory>
    requires there { node < length tree.now.nodes }
    requires ranges { AreRanges tree.now ranges.now }
    requires of { NumbersAreThere tree.now modes.old of.now.of }
    requires listed { AreListed tree.now of.now }
    requires defined { AllBelow (length modes.old) defined.now }
    requires fields { AreFieldsOf modes.old fields.now }
    requires tables { AreTablesBelow (length modes.old) (length tree.now.nodes) yields.old findings.old }
    ensures yields { OnOk result ((start : List Shape) → AreYieldsFrom (record { tree = tree.now; tags = tags.now; of = of.now.of; defined = defined.now }) start (node + 1) modes.old yields.old findings.old
        → AreYieldsFrom (record { tree = tree.now; tags = tags.now; of = of.now.of; defined = defined.now }) start node modes.new yields.new findings.new) }
    ensures of { OnOk result (NumbersAreThere tree.now modes.new of.now.of) }
    ensures defined { OnOk result (AllBelow (length modes.new) defined.now) }
    ensures fields { OnOk result (AreFieldsOf modes.new fields.now) }
    ensures tables { OnOk result (AreTablesBelow (length modes.new) (length tree.now.nodes) yields.new findings.new) }
{
    let _modes = modes.modes();
    let _parts = parts_of(tree, node);
    let sought = sought_at(tree, tags, node);
    let found = found_at(alloc, tree, ranges, modes, of, yields, node, sought)?;
    let told = yields_of(
        tree,
        tags,
        defined,
        modes.modes(),
        fields,
        yields,
        node,
        found,
    );
    let yielding = granted(alloc, modes, tree.len(), node, told)?;
    note_yield(yields, node, yielding);
    note_finding(findings, node, found);
    Ok(())
}

// Looks at all nodes, from the last to the first.
fn look_at_all(
    alloc: Global,
    tree: &Tree,
    ranges: &Ranges,
    tags: &Tags,
    of: &OperatorModes<'_>,
    defined: &[ModeId],
    modes: &mut ModeTable,
    fields: &FieldTable,
    yields: &mut [Yielding],
    findings: &mut [Finding],
) -> Result<(), NoMemory>
    requires ranges { AreRanges tree.now ranges.now }
    requires of { NumbersAreThere tree.now modes.old of.now.of }
    requires listed { AreListed tree.now of.now }
    requires defined { AllBelow (length modes.old) defined.now }
    requires fields { AreFieldsOf modes.old fields.now }
    requires no_yields { yields.old ≡ replicate (length tree.now.nodes) Yielding.Unknown }
    requires no_findings { findings.old ≡ replicate (length tree.now.nodes) Finding.Nothing }
    ensures yields { OnOk result (AreYields (record { tree = tree.now; tags = tags.now; of = of.now.of; defined = defined.now }) modes.old modes.new yields.new findings.new) }
    ensures of { OnOk result (NumbersAreThere tree.now modes.new of.now.of) }
    ensures defined { OnOk result (AllBelow (length modes.new) defined.now) }
    ensures tables { OnOk result (AreTablesBelow (length modes.new) (length tree.now.nodes) yields.new findings.new) }
{
    let mut left = tree.len();
    while left > 0 {
        left -= 1;
        look_at(
            alloc, tree, ranges, tags, of, defined, modes, fields, yields, findings, left,
        )?;
    }
    Ok(())
}

/// What the nodes of a tree may yield, and what is found at them for the parts of which something is asked.
#[derive(Drop)]
pub struct Yields {
    pub yields: Vec<Yielding>,
    pub findings: Vec<Finding>,
}

// Finds what the nodes of a tree may yield, where the modes of parameters are listed.
fn yields_by(
    alloc: Global,
    tree: &Tree,
    ranges: &Ranges,
    tags: &Tags,
    of: &OperatorModes<'_>,
    defined: &[ModeId],
    modes: &mut ModeTable,
) -> Result<Yields, NoMemory>
    requires ranges { AreRanges tree.now ranges.now }
    requires of { NumbersAreThere tree.now modes.old of.now.of }
    requires listed { AreListed tree.now of.now }
    requires defined { AllBelow (length modes.old) defined.now }
    ensures yields { IfOk result (λ found. AreYields (record { tree = tree.now; tags = tags.now; of = of.now.of; defined = defined.now }) modes.old modes.new found.yields.items found.findings.items) }
    ensures of { OnOk result (NumbersAreThere tree.now modes.new of.now.of) }
    ensures defined { OnOk result (AllBelow (length modes.new) defined.now) }
    ensures tables { IfOk result (λ found. AreTablesBelow (length modes.new) (length tree.now.nodes) found.yields.items found.findings.items) }
{
    let fields = FieldTable::of(alloc, modes.modes())?;
    let mut yields = vec![in alloc; Yielding::Unknown; tree.len() as usize]?;
    let mut findings = vec![in alloc; Finding::Nothing; tree.len() as usize]?;
    look_at_all(
        alloc,
        tree,
        ranges,
        tags,
        of,
        defined,
        modes,
        &fields,
        &mut yields,
        &mut findings,
    )?;
    Ok(Yields { yields, findings })
}

/// Finds what the nodes of a tree may yield, whatever is asked of them, and the modes and operators for what they ask of their parts (3.2.1,
/// 3.4.1, 5.2 to 5.4). A mode that is not there joins the others.
pub fn find_yields(
    alloc: Global,
    tree: &Tree,
    ranges: &Ranges,
    tags: &Tags,
    of: &NodeModes,
    defined: &[ModeId],
    modes: &mut ModeTable,
) -> Result<Yields, NoMemory>
    requires ranges { AreRanges tree.now ranges.now }
    requires of { NumbersAreThere tree.now modes.old of.now }
    requires defined { AllBelow (length modes.old) defined.now }
    ensures yields { IfOk result (λ found. AreYields (record { tree = tree.now; tags = tags.now; of = of.now; defined = defined.now }) modes.old modes.new found.yields.items found.findings.items) }
    ensures of { OnOk result (NumbersAreThere tree.now modes.new of.now) }
    ensures defined { OnOk result (AllBelow (length modes.new) defined.now) }
    ensures tables { IfOk result (λ found. AreTablesBelow (length modes.new) (length tree.now.nodes) found.yields.items found.findings.items) }
{
    let listed = OperatorModes::new(alloc, tree, of)?;
    let found = yields_by(alloc, tree, ranges, tags, &listed, defined, modes)?;
    Ok(found)
}
