//! A mode that joins the others.
ghost use Rattle.std.specs.Prelude.{◌≡◌, ◌<◌, ◌≤◌, ◌++◌, ◌∷◌, [], ℕ, nat_eq, if◌then◌else◌, IfOk, OnErr, length, vec_len, vec_capacity};
ghost use Rattle.a68_declare.specs.Clean.{IsNode};
ghost use Rattle.a68_equiv.specs.Dimensions.{HasDimensions};
ghost use Rattle.a68_equiv.specs.Related.{without_flex};
ghost use Rattle.a68_mode_table.specs.Growing.{IsInterned, IsNumberInterned, IsRowInterned};
ghost use Rattle.a68_mode_table.specs.Simple.{IsSimple};
ghost use Rattle.a68_mode_table.specs.Table.{IsTable};
ghost use Rattle.a68_modes.specs.Nodes.{ShapeIsWithin};

use a68_base::NoMemory;
use a68_equiv::{Classes, intern};
use a68_modes::{Members, ModeId, Modes, Shape, standard};
use std::alloc::Global;

// Adds a mode to a list that has room for it.
fn push_in_room(fixed: &mut Vec<ModeId>, mode: ModeId)
    requires { vec_len fixed.old < vec_capacity fixed.old }
    ensures { fixed.new.items ≡ fixed.old.items ++ mode ∷ [] }
{
    match fixed.push(mode) {
        Ok(()) => {}
        Err(_) => unreachable!(),
    }
}

// Notes the node of a new mode without its FLEX, where the mode has joined so many others.
fn note(fixed: &mut Vec<ModeId>, id: ModeId, count: u32, twin: ModeId)
    requires { vec_len fixed.old < vec_capacity fixed.old }
    ensures { fixed.new.items ≡ (if nat_eq id count then fixed.old.items ++ twin ∷ [] else fixed.old.items) }
{
    if id == count {
        push_in_room(fixed, twin);
    }
}

/// The node of a shape that is no union and no mode word, which joins the modes where none has it. `twin` is the node of the
/// mode without its FLEX, should it join: the new node itself, or one that is there.
pub fn grown(
    alloc: Global,
    modes: &mut Modes,
    classes: &mut Classes,
    fixed: &mut Vec<ModeId>,
    shape: Shape,
    twin: ModeId,
) -> Result<ModeId, NoMemory>
    requires table { IsTable modes.old classes.old fixed.old.items }
    requires within { ShapeIsWithin (length modes.old) shape }
    requires simple { IsSimple shape }
    requires dims { HasDimensions shape }
    requires twin { IsNode (modes.old ++ shape ∷ []) (without_flex (length modes.old)) twin }
    ensures table { IsTable modes.new classes.new fixed.new.items }
    ensures interned { IfOk result (λ id. IsInterned modes.old shape modes.new id) }
    ensures stays { OnErr result (modes.new ≡ modes.old) }
{
    fixed.reserve(1)?;
    let count = modes.len();
    match intern(alloc, modes, classes, shape) {
        Ok(id) => {
            let _there = modes.len();
            note(fixed, id, count, twin);
            Ok(id)
        }
        Err(_) => Err(NoMemory),
    }
}

/// The node of the union of INT and LONG INT, which joins the modes where it is not there.
pub fn grown_number(
    alloc: Global,
    modes: &mut Modes,
    classes: &mut Classes,
    fixed: &mut Vec<ModeId>,
) -> Result<ModeId, NoMemory>
    requires { IsTable modes.old classes.old fixed.old.items }
    ensures table { IsTable modes.new classes.new fixed.new.items }
    ensures interned { IfOk result (λ id. IsNumberInterned modes.old modes.new id) }
    ensures stays { OnErr result (modes.new ≡ modes.old) }
{
    fixed.reserve(1)?;
    let members = Members::from_slice(alloc, &[standard::INT, standard::LONG_INT])?;
    let count = modes.len();
    match intern(alloc, modes, classes, Shape::Union(members)) {
        Ok(id) => {
            let _there = modes.len();
            note(fixed, id, count, count);
            Ok(id)
        }
        Err(_) => Err(NoMemory),
    }
}

/// The node of a row of this element: the same row without FLEX, of the element without FLEX, joins the modes before it.
pub fn grown_row(
    alloc: Global,
    modes: &mut Modes,
    classes: &mut Classes,
    fixed: &mut Vec<ModeId>,
    dims: u32,
    flex: bool,
    of: ModeId,
) -> Result<ModeId, NoMemory>
    requires table { IsTable modes.old classes.old fixed.old.items }
    requires of { of < length modes.old }
    requires some { 0 < dims }
    ensures table { IsTable modes.new classes.new fixed.new.items }
    ensures interned { IfOk result (λ id. IsRowInterned modes.old dims flex of modes.new id) }
{
    let of_fixed = fixed[of as usize];
    let count = modes.len();
    let without_flex = Shape::Rows {
        dims,
        flex: false,
        of: of_fixed,
    };
    let twin = grown(alloc, modes, classes, fixed, without_flex, count)?;
    let row = grown(
        alloc,
        modes,
        classes,
        fixed,
        Shape::Rows { dims, flex, of },
        twin,
    )?;
    Ok(row)
}
