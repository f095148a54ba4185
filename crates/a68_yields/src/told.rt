//! What a node yields, by what is found of its parts.
ghost use Rattle.std.specs.Prelude.{◌≡◌, ◌<◌, ◌^◌, length};
ghost use Rattle.a68_declare.specs.Outcome.{ByNode};
ghost use Rattle.a68_definitions.specs.Defined.{AllBelow};
ghost use Rattle.a68_fields.specs.Fields.{AreFieldsOf};
ghost use Rattle.a68_ranges.specs.Nodes.{kind_at, spelling_at};
ghost use Rattle.a68_yields.specs.Leaves as leaves;
ghost use Rattle.a68_yields.specs.Below.{IsFindingBelow};
ghost use Rattle.a68_yields.specs.Yields as specs;

use crate::parts::{Part, Rowed, Structured, as_row, as_structure, field_mode, result_of};
use crate::sought::is_subscript;
use crate::yielding::{Finding, Yielding, yield_of};
use a68_coerce::Leaf;
use a68_definitions::{
    Tags, called_by, is_label, kind_of, part_from_end, part_number, parts_from, parts_of,
};
use a68_fields::FieldTable;
use a68_identify::Identified;
use a68_modes::{ModeId, Modes, standard};
use a68_ranges::tags;
use a68_tree::{NodeId, NodeKind, Tree};

/// A yield; or a unit of the mode of a part, which may have to join the modes first.
#[derive(Clone, Copy)]
pub enum Told {
    Yields(Yielding),
    PartOf(Part),
}

fn unknown() -> Told
    ensures { result ≡ specs.unknown }
{
    Told::Yields(Yielding::Unknown)
}

fn a_unit(mode: ModeId) -> Told
    ensures { result ≡ specs.a_unit mode }
{
    Told::Yields(Yielding::Unit(Leaf::Mode(mode)))
}

fn is_item(spelling: &[u8]) -> bool
    ensures { result ≡ specs.is_item spelling.now }
{
    if spelling.len() == 3 {
        return true;
    }
    spelling.len() == 4 && spelling[1] == b'"'
}

fn is_truth(spelling: &[u8]) -> bool
    ensures { result ≡ specs.is_truth spelling.now }
{
    spelling == b"TRUE".as_slice() || spelling == b"FALSE".as_slice()
}

fn begins_quote(spelling: &[u8]) -> bool
    ensures { result ≡ specs.begins_quote spelling.now }
{
    !spelling.is_empty() && spelling[0] == b'"'
}

fn has_r(spelling: &[u8]) -> bool
    ensures { result ≡ specs.has_r spelling.now }
{
    for byte in spelling {
        if *byte == b'r' {
            return true;
        }
    }
    false
}

/// Gives the mode of a denotation (8.1 to 8.3).
pub fn denoted_mode(spelling: &[u8]) -> ModeId
    ensures { result ≡ specs.denoted_mode spelling.now }
{
    if begins_quote(spelling) {
        if is_item(spelling) {
            standard::CHAR
        } else {
            standard::ROW_OF_CHAR
        }
    } else if is_truth(spelling) {
        standard::BOOL
    } else if has_r(spelling) {
        standard::BITS
    } else {
        standard::INT
    }
}

fn denoted(tree: &Tree, node: NodeId) -> Told
    requires { node < length tree.now.nodes }
    ensures { result ≡ specs.denoted (spelling_at tree.now node) }
{
    a_unit(denoted_mode(tree.spelling(tree.node(node).name)))
}

fn long_tag(place: u32) -> Told
    ensures { result ≡ specs.long_tag place }
{
    match place {
        tags::LONGMAXINT => a_unit(standard::LONG_INT),
        tags::LONGINTWIDTH => a_unit(standard::INT),
        _ => unknown(),
    }
}

fn standard_tag(place: u32) -> Told
    ensures { result ≡ specs.standard_tag place }
{
    if place < tags::NEWLINE {
        a_unit(standard::INT)
    } else if place < tags::PRINT {
        a_unit(standard::LAYOUT)
    } else {
        long_tag(place)
    }
}

fn declared_tag(tree: &Tree, defined: &[ModeId], definition: NodeId) -> Told
    ensures { result ≡ specs.declared_tag tree.now defined.now definition }
{
    if is_label(tree, definition) {
        unknown()
    } else {
        a_unit(part_number(defined, definition as usize))
    }
}

fn tag(tree: &Tree, defined: &[ModeId], found: Option<NodeId>) -> Told
    ensures { result ≡ specs.tag tree.now defined.now found }
{
    let nodes = tree.len();
    match found {
        None => unknown(),
        Some(definition) if definition < nodes => declared_tag(tree, defined, definition),
        Some(definition) => standard_tag(definition - nodes),
    }
}

/// Is what a node may yield not known?
pub fn is_unknown(yielding: Yielding) -> bool
    ensures { result ≡ specs.is_unknown yielding }
{
    matches!(yielding, Yielding::Unknown)
}

fn handed(yields: &[Yielding], parts: &[NodeId]) -> Told
    ensures { result ≡ specs.handed yields.now parts.now }
{
    if parts.is_empty() {
        return unknown();
    }
    let part = part_from_end(parts, 1);
    if is_unknown(yield_of(yields, part)) {
        unknown()
    } else {
        Told::Yields(Yielding::Part(part))
    }
}

/// Is what one of these parts yields, specs left out, not known?
fn any_unknown(tree: &Tree, yields: &[Yielding], parts: &[NodeId]) -> bool
    ensures { result ≡ specs.any_unknown yields.now (leaves.unspecified tree.now parts.now) }
{
    for part in parts {
        if kind_of(tree, *part) != NodeKind::Spec && is_unknown(yield_of(yields, *part)) {
            return true;
        }
    }
    false
}

/// Gives the parts behind the first.
pub fn behind_first(parts: &[NodeId]) -> &[NodeId]
    ensures { result.now ≡ specs.behind_first parts.now }
{
    if parts.is_empty() { parts } else { &parts[1..] }
}

fn choice(tree: &Tree, yields: &[Yielding], parts: &[NodeId]) -> Told
    ensures { result ≡ specs.choice yields.now (leaves.choices tree.now parts.now) }
{
    if any_unknown(tree, yields, behind_first(parts)) {
        unknown()
    } else {
        Told::Yields(Yielding::Choice)
    }
}

/// Is EXIT among these parts of a serial clause?
pub fn has_exit(tree: &Tree, parts: &[NodeId]) -> bool
    ensures { result ≡ leaves.has_exit tree.now parts.now }
{
    for part in parts {
        if kind_of(tree, *part) == NodeKind::Exit {
            return true;
        }
    }
    false
}

/// May a serial clause yield a unit behind which these parts stand: none, or EXIT and more?
pub fn ends(tree: &Tree, behind: &[NodeId]) -> bool
    ensures { result ≡ leaves.ends tree.now behind.now }
{
    match behind.first() {
        None => true,
        Some(part) => kind_of(tree, *part) == NodeKind::Exit,
    }
}

// Is what one of the units yields that a serial clause may yield not known?
fn ends_unknown(tree: &Tree, yields: &[Yielding], parts: &[NodeId]) -> bool
    ensures { result ≡ specs.any_unknown yields.now (leaves.endings tree.now parts.now) }
{
    let mut place = 0;
    for part in parts {
        place += 1;
        if ends(tree, parts_from(parts, place)) && is_unknown(yield_of(yields, *part)) {
            return true;
        }
    }
    false
}

fn serial(tree: &Tree, yields: &[Yielding], parts: &[NodeId]) -> Told
    ensures { result ≡ specs.serial tree.now yields.now parts.now }
{
    if !has_exit(tree, parts) {
        return handed(yields, parts);
    }
    if ends_unknown(tree, yields, parts) {
        unknown()
    } else {
        Told::Yields(Yielding::Choice)
    }
}

fn found_unit(found: Finding) -> Told
    ensures { result ≡ specs.found_unit found }
{
    match found {
        Finding::Mode(Some(mode)) => a_unit(mode),
        _ => unknown(),
    }
}

fn field_part(structured: Structured, field: Option<ModeId>) -> Told
    ensures { result ≡ specs.field_part structured field }
{
    match field {
        Some(of) => Told::PartOf(Part {
            named: structured.named,
            dims: structured.dims,
            flex: structured.flex,
            of,
        }),
        None => unknown(),
    }
}

fn selected(modes: &Modes, fields: &FieldTable, tag: u32, found: Finding) -> Told
    requires found { IsFindingBelow (length modes.now) found }
    requires fields { AreFieldsOf modes.now fields.now }
    ensures { result ≡ specs.selected modes.now tag found }
{
    match found {
        Finding::Mode(Some(mode)) => match as_structure(modes, mode) {
            Some(structured) => field_part(structured, field_mode(fields, structured.node, tag)),
            None => unknown(),
        },
        _ => unknown(),
    }
}

/// Counts the trimmers among these indexes.
fn trimmers(tree: &Tree, indexes: &[NodeId]) -> u32
    requires { length indexes.now < 2 ^ 32 }
    ensures { result ≡ specs.trimmers tree.now indexes.now }
{
    let mut count = 0;
    for index in indexes {
        if !is_subscript(tree, parts_of(tree, *index)) {
            count += 1;
        }
    }
    count
}

fn sliced_from(tree: &Tree, indexes: &[NodeId], row: Option<Rowed>) -> Told
    ensures { result ≡ specs.sliced_from tree.now indexes.now row }
{
    match row {
        Some(row) if indexes.len() == row.dims as usize => Told::PartOf(Part {
            named: row.named,
            dims: trimmers(tree, indexes),
            flex: row.flex,
            of: row.of,
        }),
        _ => unknown(),
    }
}

fn sliced(tree: &Tree, modes: &Modes, parts: &[NodeId], found: Finding) -> Told
    requires { IsFindingBelow (length modes.now) found }
    ensures { result ≡ specs.sliced tree.now modes.now parts.now found }
{
    match found {
        Finding::Mode(Some(mode)) => sliced_from(tree, behind_first(parts), as_row(modes, mode)),
        _ => unknown(),
    }
}

fn unit_of(mode: Option<ModeId>) -> Told
    ensures { result ≡ specs.unit_of mode }
{
    match mode {
        Some(mode) => a_unit(mode),
        None => unknown(),
    }
}

fn called(modes: &Modes, place: Option<u32>, found: Finding) -> Told
    requires { IsFindingBelow (length modes.now) found }
    ensures { result ≡ specs.called modes.now place found }
{
    match place {
        Some(tags::WHOLE) => a_unit(standard::ROW_OF_CHAR),
        Some(_) => a_unit(standard::VOID),
        None => match found {
            Finding::Mode(Some(mode)) => unit_of(result_of(modes, mode)),
            _ => unknown(),
        },
    }
}

fn yielded_by(modes: &Modes, defined: &[ModeId], operator: Identified) -> Told
    requires { AllBelow (length modes.now) defined.now }
    ensures { result ≡ specs.yielded_by modes.now defined.now operator }
{
    match operator {
        Identified::Declared(definition) => {
            unit_of(result_of(modes, part_number(defined, definition as usize)))
        }
        Identified::Standard(operator) => a_unit(operator.result),
    }
}

fn formula(modes: &Modes, defined: &[ModeId], found: Finding) -> Told
    requires { AllBelow (length modes.now) defined.now }
    ensures { result ≡ specs.formula modes.now defined.now found }
{
    match found {
        Finding::Operator(Some(operator)) => yielded_by(modes, defined, operator),
        _ => unknown(),
    }
}

/// Tells what a node yields, by what its parts yield and what is found of them.
pub fn yields_of(
    tree: &Tree,
    tags: &Tags,
    defined: &[ModeId],
    modes: &Modes,
    fields: &FieldTable,
    yields: &[Yielding],
    node: NodeId,
    found: Finding,
) -> Told
    requires there { node < length tree.now.nodes }
    requires found { IsFindingBelow (length modes.now) found }
    requires defined { AllBelow (length modes.now) defined.now }
    requires fields { AreFieldsOf modes.now fields.now }
    ensures { (of : ByNode) → result ≡ specs.told (record { tree = tree.now; tags = tags.now; of = of; defined = defined.now }) modes.now yields.now node found (kind_at tree.now node) }
{
    match kind_of(tree, node) {
        NodeKind::Denotation => denoted(tree, node),
        NodeKind::LongDenotation => a_unit(standard::LONG_INT),
        NodeKind::Tag => tag(tree, defined, tags.at(node)),
        NodeKind::Closed | NodeKind::Out => handed(yields, parts_of(tree, node)),
        NodeKind::Serial => serial(tree, yields, parts_of(tree, node)),
        NodeKind::Conditional | NodeKind::Case | NodeKind::Conformity => {
            choice(tree, yields, parts_of(tree, node))
        }
        NodeKind::Skip | NodeKind::GoTo | NodeKind::Nil | NodeKind::Vacuum | NodeKind::Collateral =>
            Told::Yields(Yielding::Unit(Leaf::StrongOnly)),
        NodeKind::Parallel | NodeKind::Loop => a_unit(0),
        NodeKind::Cast | NodeKind::Generator | NodeKind::RoutineText => {
            a_unit(part_number(defined, node as usize))
        }
        NodeKind::Identity => a_unit(2),
        NodeKind::Assignation => found_unit(found),
        NodeKind::Selection => selected(modes, fields, tree.node(node).name, found),
        NodeKind::Slice => sliced(tree, modes, parts_of(tree, node), found),
        NodeKind::Call => called(modes, called_by(tree, tags, node), found),
        NodeKind::Monadic | NodeKind::Dyadic => formula(modes, defined, found),
        _ => unknown(),
    }
}
