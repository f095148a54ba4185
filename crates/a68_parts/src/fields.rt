//! Fields of structures, and the one that a selection takes.
ghost use Rattle.std.specs.Option.{option_map_or};
ghost use Rattle.std.specs.Prelude.{◌≡◌, [], length, slice_get, IfOk};
ghost use Rattle.a68_acts.specs.Operations as operations;
ghost use Rattle.a68_annot.specs.declared.note.Note.{Note};
ghost use Rattle.a68_elab.specs.Made as made;
ghost use Rattle.a68_fields.specs.Fields.{AreFieldsOf};
ghost use Rattle.a68_modes.specs.Nodes.{shape_at};
ghost use Rattle.a68_parts.specs.Selecting as selecting;
ghost use Rattle.a68_parts.specs.Selecting.{AreSelected};

use a68_annot::Annotated;
use a68_base::NoMemory;
use a68_fields::FieldTable;
use a68_modes::{ModeId, Modes, Shape};
use a68_tree::{Node, NodeId, NodeKind};
use std::alloc::Global;

// The fields of a structure; none of another mode.
fn fields_in(modes: &Modes, mode: ModeId) -> &[(u32, ModeId)]
    ensures { result.now ≡ option_map_or (λ fields. fields) (operations.fields_in (shape_at modes.now mode)) [] }
{
    if mode >= modes.len() {
        return &[];
    }
    match modes.shape(mode) {
        Shape::Struct(fields) => &fields.items,
        _ => &[],
    }
}

// The fields of a structure, or of those in a row; none of another mode.
fn fields_behind(modes: &Modes, mode: ModeId) -> &[(u32, ModeId)]
    ensures { result.now ≡ option_map_or (λ fields. fields) (operations.fields_behind modes.now (shape_at modes.now mode)) [] }
{
    if mode >= modes.len() {
        return &[];
    }
    match modes.shape(mode) {
        Shape::Rows { of, .. } => fields_in(modes, *of),
        Shape::Struct(fields) => &fields.items,
        _ => &[],
    }
}

/// The fields of a structure, of those of a row, or of either to which a name of this mode refers; none of another mode.
pub fn fields_at(modes: &Modes, mode: ModeId) -> &[(u32, ModeId)]
    ensures { result.now ≡ made.fields_at modes.now mode }
{
    if mode >= modes.len() {
        return &[];
    }
    match modes.shape(mode) {
        Shape::Ref(to) => fields_behind(modes, *to),
        Shape::Rows { of, .. } => fields_in(modes, *of),
        Shape::Struct(fields) => &fields.items,
        _ => &[],
    }
}

// The element of a row; any other mode itself.
fn structure_in(modes: &Modes, mode: ModeId) -> ModeId
    ensures { result ≡ selecting.structure_in mode (shape_at modes.now mode) }
{
    if mode >= modes.len() {
        return mode;
    }
    match modes.shape(mode) {
        Shape::Rows { of, .. } => *of,
        _ => mode,
    }
}

// The mode whose fields are those of a structure, of a row, or of either to which a name of this mode refers.
fn structure_at(modes: &Modes, mode: ModeId) -> ModeId
    ensures { result ≡ selecting.structure_at modes.now mode }
{
    if mode >= modes.len() {
        return mode;
    }
    match modes.shape(mode) {
        Shape::Ref(to) => structure_in(modes, *to),
        _ => structure_in(modes, mode),
    }
}

// The place of a field among those of a structure, of a row, or of either to which a name of this mode refers, by the
// number of its tag; that behind them where there is none.
fn field_at(modes: &Modes, fields: &FieldTable, mode: ModeId, name: u32) -> usize
    requires { AreFieldsOf modes.now fields.now }
    ensures { result ≡ made.field_in name (made.fields_at modes.now mode) }
{
    match fields.find(structure_at(modes, mode), name) {
        Some(field) => field.place,
        None => fields_at(modes, mode).len(),
    }
}

// The mode that is asked of a node.
fn goal_of(program: &Annotated, id: NodeId) -> ModeId
    ensures { result ≡ option_map_or (λ (note : Note). note.goal) (slice_get program.now.notes id) 0 }
{
    if id >= program.tree.len() {
        return 0;
    }
    program.note(id).goal
}

/// The mode that is asked of the first of these nodes.
pub fn first_goal(program: &Annotated, ids: &[NodeId]) -> ModeId
    ensures { result ≡ made.first_goal program.now ids.now }
{
    if ids.len() == 0 {
        return 0;
    }
    goal_of(program, ids[0])
}

// The place of the field that a selection takes.
fn selected(program: &Annotated, fields: &FieldTable, node: &Node) -> usize
    requires { AreFieldsOf program.now.modes fields.now }
    ensures { result ≡ selecting.selected program.now node.now }
{
    match node.kind {
        NodeKind::Selection => field_at(
            &program.modes,
            fields,
            first_goal(program, &node.parts.items),
            node.name,
        ),
        _ => 0,
    }
}

// Lists the places of the fields that selections take.
fn list_selected(
    alloc: Global,
    program: &Annotated,
    fields: &FieldTable,
) -> Result<Vec<usize>, NoMemory>
    requires { AreFieldsOf program.now.modes fields.now }
    ensures { IfOk result (λ places. AreSelected program.now places.items) }
{
    let mut places = Vec::with_capacity(alloc, program.tree.len() as usize)?;
    for id in 0..program.tree.len() {
        places.push(selected(program, fields, program.tree.node(id)))?;
    }
    Ok(places)
}

/// For each node the place of the field that it takes, if it is a selection, among those of the structure: that behind them
/// where there is no such field. For any other node 0.
pub fn selected_fields(alloc: Global, program: &Annotated) -> Result<Vec<usize>, NoMemory>
    ensures { IfOk result (λ places. AreSelected program.now places.items) }
{
    let fields = FieldTable::of(alloc, &program.modes)?;
    let places = list_selected(alloc, program, &fields)?;
    Ok(places)
}
