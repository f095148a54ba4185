//! Rows, structures and routines as slices, selections and calls see them.
ghost use Rattle.std.specs.Prelude.{◌≡◌, ◌<◌, ◌&&◌, not, ℕ, List, IfOk, IfSome, length};
ghost use Rattle.a68_fields.specs.Fields.{AreFieldsOf};
ghost use Rattle.a68_modes.specs.Nodes.{ShapeIsWithin, shape_at};
ghost use Rattle.a68_modes.specs.declared.shape.Shape.{Shape};
ghost use Rattle.a68_yields.specs.Parts as specs;
ghost use Rattle.a68_yields.specs.Parts.{IsNamedPart, IsModeOfPart, IsRowPart};

use a68_base::NoMemory;
use a68_fields::FieldTable;
use a68_mode_table::ModeTable;
use a68_modes::{ModeId, Modes, Shape};
use std::alloc::Global;

/// A row of so many dimensions, or the name of one.
#[derive(Clone, Copy)]
pub struct Rowed {
    pub named: bool,
    pub dims: u32,
    pub flex: bool,
    pub of: ModeId,
}

/// A structure, of no dimensions, a row of structures, or the name of either; `node` is the mode of the structure.
#[derive(Clone, Copy)]
pub struct Structured {
    pub named: bool,
    pub dims: u32,
    pub flex: bool,
    pub node: ModeId,
}

/// A part of a row or a structure; of a part of a name the name. So many dimensions are left of those of the row.
#[derive(Clone, Copy)]
pub struct Part {
    pub named: bool,
    pub dims: u32,
    pub flex: bool,
    pub of: ModeId,
}

fn row_of(named: bool, shape: &Shape) -> Option<Rowed>
    ensures row { result ≡ specs.row_of named shape.now }
    ensures within { (n : ℕ) → ShapeIsWithin n shape.now → IfSome result (λ r. r.of < n) }
{
    match shape {
        Shape::Rows { dims, flex, of } => Some(Rowed {
            named,
            dims: *dims,
            flex: *flex,
            of: *of,
        }),
        _ => None,
    }
}

/// Sees a mode as a row, or the name of one (5.3.2).
pub fn as_row(modes: &Modes, mode: ModeId) -> Option<Rowed>
    requires { mode < length modes.now }
    ensures row { result ≡ specs.rowed modes.now mode }
    ensures there { IfSome result (λ r. r.of < length modes.now) }
{
    match modes.shape(mode) {
        Shape::Ref(of) => row_of(true, modes.shape(*of)),
        _ => row_of(false, modes.shape(mode)),
    }
}

fn structure_of(
    named: bool,
    dims: u32,
    flex: bool,
    node: ModeId,
    shape: &Shape,
) -> Option<Structured>
    ensures structure { result ≡ specs.structure_of named dims flex node shape.now }
    ensures node { IfSome result (λ s. s.node ≡ node) }
{
    match shape {
        Shape::Struct(_) => Some(Structured {
            named,
            dims,
            flex,
            node,
        }),
        _ => None,
    }
}

fn structure_within(modes: &Modes, named: bool, node: ModeId) -> Option<Structured>
    requires { node < length modes.now }
    ensures structure { result ≡ specs.structure_within modes.now named node (shape_at modes.now node) }
    ensures there { IfSome result (λ s. s.node < length modes.now) }
{
    match modes.shape(node) {
        Shape::Rows { dims, flex, of } => structure_of(named, *dims, *flex, *of, modes.shape(*of)),
        _ => structure_of(named, 0, false, node, modes.shape(node)),
    }
}

/// Sees a mode as a structure, a row of structures, or the name of either (5.3.1).
pub fn as_structure(modes: &Modes, mode: ModeId) -> Option<Structured>
    requires { mode < length modes.now }
    ensures structure { result ≡ specs.structured modes.now mode }
    ensures there { IfSome result (λ s. s.node < length modes.now) }
{
    match modes.shape(mode) {
        Shape::Ref(of) => structure_within(modes, true, *of),
        _ => structure_within(modes, false, mode),
    }
}

/// Finds the mode of the first field of that tag of a structure.
pub fn field_mode(fields: &FieldTable, node: ModeId, tag: u32) -> Option<ModeId>
    ensures { (nodes : List Shape) → AreFieldsOf nodes fields.now → result ≡ specs.field_mode tag (specs.fields_of (shape_at nodes node)) }
{
    match fields.find(node, tag) {
        Some(field) => Some(field.mode),
        None => None,
    }
}

/// Gives what a procedure yields; none of another mode.
pub fn result_of(modes: &Modes, mode: ModeId) -> Option<ModeId>
    requires { mode < length modes.now }
    ensures result { result ≡ specs.routine_result (shape_at modes.now mode) }
    ensures there { IfSome result (λ m. m < length modes.now) }
{
    match modes.shape(mode) {
        Shape::Proc { params: _, result } => Some(*result),
        _ => None,
    }
}

// Gives a row of so many dimensions; of none the element itself.
fn row_part(
    alloc: Global,
    modes: &mut ModeTable,
    dims: u32,
    flex: bool,
    of: ModeId,
) -> Result<ModeId, NoMemory>
    requires { of < length modes.old }
    ensures { IfOk result (IsRowPart modes.old dims flex of modes.new) }
{
    if dims == 0 {
        Ok(of)
    } else {
        modes.row_of(alloc, dims, flex, of)
    }
}

// Gives the name of a mode, or the mode itself.
fn named_part(
    alloc: Global,
    modes: &mut ModeTable,
    named: bool,
    of: ModeId,
) -> Result<ModeId, NoMemory>
    requires { of < length modes.old }
    ensures { IfOk result (IsNamedPart named modes.old of modes.new) }
{
    if named {
        modes.name_of(alloc, of)
    } else {
        Ok(of)
    }
}

/// Gives the mode of a part, which joins the others where it is not among them.
pub fn part_mode(alloc: Global, modes: &mut ModeTable, part: Part) -> Result<ModeId, NoMemory>
    requires { part.of < length modes.old }
    ensures { IfOk result (IsModeOfPart modes.old part modes.new) }
{
    let row = row_part(alloc, modes, part.dims, part.flex && !part.named, part.of)?;
    named_part(alloc, modes, part.named, row)
}
