//! The lines that tell what the variables of a program refer to when its run has ended.
ghost use Rattle.std.specs.Prelude.{◌≡◌, ◌&&◌, ◌||◌, nat_eq, nat_le, ◌++◌, true, slice_get, IfOk, OnOk};
ghost use Rattle.a68_modes.specs.Nodes.{shape_at};
ghost use Rattle.a68_modes.specs.declared.standard.TheConstants as standard;
ghost use Rattle.a68_ops.specs.Yields.{IsAsTold};
ghost use Rattle.a68_ranges.specs.Definitions.{if_joined, unjoined};
ghost use Rattle.a68_ranges.specs.Nodes.{kind_at, parts_at};
ghost use Rattle.a68_report.specs.Variables as spec;

use crate::put::put;
use a68_annot::Annotated;
use a68_base::{NoMemory, Text};
use a68_modes::{ModeId, Modes, Shape, standard};
use a68_ops::{OpStop, item_text, whole};
use a68_tree::{NodeId, NodeKind, Tree};
use a68_values::{Cells, Held, Kept, Name, Plain, Slots, Value, ValueNode};
use std::alloc::Global;

/// Stands in a line for a value that is not there.
const UNSET: &str = "unset";

// Finds the mode of a value of INT, LONG INT, BOOL, CHAR or BITS.
fn mode_of(held: Plain) -> ModeId
    ensures { result ≡ spec.mode_of held }
{
    match held {
        Plain::Int(_) => standard::INT,
        Plain::Long(_) => standard::LONG_INT,
        Plain::Bool(_) => standard::BOOL,
        Plain::Char(_) => standard::CHAR,
        Plain::Bits(_) => standard::BITS,
        _ => standard::VOID,
    }
}

// Writes a value of one of these modes.
fn written(alloc: Global, held: Plain) -> Result<Text, OpStop>
    ensures { IsAsTold (λ text. true) result (spec.written held) }
{
    match held {
        Plain::Int(number) => whole(alloc, i128::from(number), 0),
        Plain::Long(number) => whole(alloc, number.number(), 0),
        _ => item_text(alloc, &Value::of(held)),
    }
}

// Puts a value as it is written.
fn put_written(alloc: Global, text: &mut Text, held: Plain) -> Result<(), NoMemory>
    ensures { OnOk result (text.new ≡ text.old ++ spec.or_unset (spec.written held)) }
{
    match written(alloc, held) {
        Ok(bytes) => put(text, bytes.as_slice()),
        Err(OpStop::Fault(_)) => put(text, UNSET.as_bytes()),
        Err(OpStop::NoMemory) => Err(NoMemory),
    }
}

// Puts the text of a variable of a name of that mode.
fn put_value(
    alloc: Global,
    text: &mut Text,
    mode: ModeId,
    value: Option<Plain>,
) -> Result<(), NoMemory>
    ensures { OnOk result (text.new ≡ text.old ++ spec.value_text mode value) }
{
    match value {
        None => put(text, UNSET.as_bytes()),
        Some(held) => {
            if mode_of(held) == mode {
                put_written(alloc, text, held)
            } else {
                put(text, UNSET.as_bytes())
            }
        }
    }
}

// Puts the line of a variable.
fn put_variable(
    alloc: Global,
    text: &mut Text,
    tag: &[u8],
    mode: ModeId,
    value: Option<Plain>,
) -> Result<(), NoMemory>
    ensures { OnOk result (text.new ≡ text.old ++ spec.line tag.now mode value) }
{
    put(text, tag)?;
    put(text, b" = ")?;
    put_value(alloc, text, mode, value)?;
    put(text, b"\n")
}

// Finds the name that a value is.
fn as_name(value: &Value) -> Option<Name>
    ensures { result ≡ spec.name_in (Some (Some value.now)) }
{
    match &value.node {
        ValueNode::Plain(Plain::Name(name)) => Some(*name),
        _ => None,
    }
}

// Finds the name that a slot is bound to.
fn name_in(slots: &Slots, slot: u32) -> Option<Name>
    ensures { result ≡ spec.name_in (slice_get slots.now slot) }
{
    match slots.items.get(slot as usize) {
        None => None,
        Some(None) => None,
        Some(Some(value)) => as_name(value),
    }
}

// Finds the value that stands in a cell.
fn plain_in(cells: &Cells, cell: u32) -> Option<Plain>
    ensures { result ≡ spec.plain_in (slice_get cells.now cell) }
{
    match cells.items.get(cell as usize) {
        None => None,
        Some(Held::Plain(held)) => Some(*held),
        Some(_) => None,
    }
}

// Finds the value to which the name in a slot refers.
fn value_of(kept: &Kept, slot: u32) -> Option<Plain>
    ensures { result ≡ spec.value_of kept.now slot }
{
    match name_in(&kept.outer, slot) {
        None => None,
        Some(name) => plain_in(&kept.cells, name.cell),
    }
}

// Have variables of names of this mode a line?
fn is_told(mode: ModeId) -> bool
    ensures { result ≡ ((nat_le standard.INT mode && nat_le mode standard.BITS) || nat_eq mode standard.LONG_INT) }
{
    (mode >= standard::INT && mode <= standard::BITS) || mode == standard::LONG_INT
}

// Finds the mode to which names of a shape refer, where variables of it have a line.
fn told_by(shape: &Shape) -> Option<ModeId>
    ensures { result ≡ spec.told_mode shape.now }
{
    match shape {
        Shape::Ref(mode) => { if is_told(*mode) { Some(*mode) } else { None } }
        _ => None,
    }
}

// Finds the mode to which names of a mode refer, where variables of it have a line.
fn told_mode(modes: &Modes, mode: ModeId) -> Option<ModeId>
    ensures { result ≡ spec.told_mode (shape_at modes.now mode) }
{
    if mode < modes.len() {
        told_by(modes.shape(mode))
    } else {
        None
    }
}

fn is_variable(kind: NodeKind) -> bool
    ensures { result ≡ spec.is_variable kind }
{
    matches!(kind, NodeKind::Variable)
}

// Puts the line of a definition, where it has one.
fn put_definition(
    alloc: Global,
    text: &mut Text,
    program: &Annotated,
    kept: &Kept,
    id: NodeId,
) -> Result<(), NoMemory>
    ensures { OnOk result (text.new ≡ text.old ++ spec.definition_line program.now kept.now id) }
{
    if id >= program.tree.len() {
        return Ok(());
    }
    let node = program.tree.node(id);
    if !is_variable(node.kind) {
        return Ok(());
    }
    let note = program.note(id);
    match told_mode(&program.modes, note.mode) {
        None => Ok(()),
        Some(mode) => {
            let tag = program.tree.spelling(node.name);
            put_variable(alloc, text, tag, mode, value_of(kept, note.step.slot))
        }
    }
}

// Puts the lines of definitions.
fn put_definitions(
    alloc: Global,
    text: &mut Text,
    program: &Annotated,
    kept: &Kept,
    ids: &[NodeId],
) -> Result<(), NoMemory>
    ensures { OnOk result (text.new ≡ text.old ++ spec.definition_lines program.now kept.now ids.now) }
{
    for id in ids {
        put_definition(alloc, text, program, kept, *id)?;
    }
    Ok(())
}

// Finds the kind of a node; a number of no node has that of a skip.
fn kind_of(tree: &Tree, id: NodeId) -> NodeKind
    ensures { result ≡ kind_at tree.now id }
{
    if id < tree.len() {
        tree.node(id).kind
    } else {
        NodeKind::Skip
    }
}

// Finds the parts of a node; a number of no node has none.
fn parts_of(tree: &Tree, id: NodeId) -> &[NodeId]
    ensures { result.now ≡ parts_at tree.now id }
{
    if id < tree.len() { tree.parts(id) } else { &[] }
}

// Puts the lines of the definitions of a phrase.
fn put_phrase(
    alloc: Global,
    text: &mut Text,
    program: &Annotated,
    kept: &Kept,
    id: NodeId,
) -> Result<(), NoMemory>
    ensures { OnOk result (text.new ≡ text.old ++ spec.definition_lines program.now kept.now (if_joined program.now.tree id (kind_at program.now.tree id))) }
{
    match kind_of(&program.tree, id) {
        NodeKind::Joined => {
            let parts = parts_of(&program.tree, id);
            put_definitions(alloc, text, program, kept, parts)
        }
        _ => put_definitions(alloc, text, program, kept, &[id]),
    }
}

// Puts the lines of the definitions of phrases.
fn put_phrases(
    alloc: Global,
    text: &mut Text,
    program: &Annotated,
    kept: &Kept,
    phrases: &[NodeId],
) -> Result<(), NoMemory>
    ensures { OnOk result (text.new ≡ text.old ++ spec.definition_lines program.now kept.now (unjoined program.now.tree phrases.now)) }
{
    for phrase in phrases {
        put_phrase(alloc, text, program, kept, *phrase)?;
    }
    Ok(())
}

// Finds the phrases of the program's own range.
fn own_phrases(tree: &Tree) -> &[NodeId]
    ensures { result.now ≡ spec.own_phrases tree.now (kind_at tree.now 0) }
{
    match kind_of(tree, 0) {
        NodeKind::Closed => match parts_of(tree, 0).get(0) {
            None => &[],
            Some(serial) => parts_of(tree, *serial),
        },
        _ => &[],
    }
}

/// Writes a line for each variable of the range of a program that is a closed clause, in order of text (own): its tag,
/// and what it refers to when the run has ended, as `whole (v, 0)` or `print` writes it.
///
/// The variables are those of the modes REF INT, REF LONG INT, REF BOOL, REF CHAR and REF BITS. `unset` stands where the variable is
/// not bound yet or nothing was assigned to it. Inner ranges have no lines, and neither has any other program.
pub fn names_text(alloc: Global, program: &Annotated, kept: &Kept) -> Result<Text, NoMemory>
    ensures { IfOk result (λ text. text ≡ spec.names_text program.now kept.now) }
{
    let mut text = Text {
        items: Vec::new(alloc),
    };
    let phrases = own_phrases(&program.tree);
    match put_phrases(alloc, &mut text, program, kept, phrases) {
        Ok(()) => Ok(text),
        Err(error) => {
            drop(text);
            Err(error)
        }
    }
}
