//! What stands within a mode.
ghost use Rattle.std.specs.Prelude.{◌≡◌, ◌<◌, ◌≤◌, ◌^◌, IfOk, length, map, true, false};
ghost use Rattle.std.specs.List.{All};
ghost use Rattle.a68_modes.specs.Nodes.{ShapeIsWithin};
ghost use Rattle.a68_equiv.specs.Unfolding.{passes_on};
ghost use Rattle.a68_equiv.specs.Graph.{number_of, ArePartsOf, IsShapeRow};

use crate::Mode;
use crate::spread::{is_union, spread};
use a68_base::NoMemory;
use a68_modes::{Members, ModeId, Modes, Shape};
use a68_partition::Row;
use std::alloc::Global;

/// Is FLEX taken away from the modes within a shape, where it is from the shape?
fn goes_in(fixed: bool, shape: &Shape) -> bool
    ensures { result ≡ passes_on fixed shape.now }
{
    fixed && !matches!(shape, Shape::Ref(_) | Shape::Proc { .. })
}

/// The row of a node whose shape behind all mode words is this one, and which leads by mode words and unions to `start`.
pub fn row_of(
    alloc: Global,
    modes: &Modes,
    start: &[ModeId],
    shape: &Shape,
    fixed: bool,
) -> Result<Row, NoMemory>
    requires few { length modes.now ≤ 2 ^ 24 }
    requires start { All (λ m. m < length modes.now) start.now }
    requires within { ShapeIsWithin (length modes.now) shape.now }
    ensures { IfOk result (λ row. IsShapeRow modes.now start.now shape.now fixed row) }
{
    let among = is_union(shape);
    let parts = parts(alloc, modes, start, shape)?;
    let items = numbers(alloc, &parts, goes_in(fixed, shape))?;
    Ok(Row { among, items })
}

/// The rows of such a node with its FLEX and without it.
pub fn both_rows(
    alloc: Global,
    modes: &Modes,
    start: &[ModeId],
    shape: &Shape,
) -> Result<(Row, Row), NoMemory>
    requires few { length modes.now ≤ 2 ^ 24 }
    requires start { All (λ m. m < length modes.now) start.now }
    requires within { ShapeIsWithin (length modes.now) shape.now }
    ensures kept { IfOk result (λ two. IsShapeRow modes.now start.now shape.now false two.0) }
    ensures taken { IfOk result (λ two. IsShapeRow modes.now start.now shape.now true two.1) }
{
    let among = is_union(shape);
    let parts = parts(alloc, modes, start, shape)?;
    let kept = numbers(alloc, &parts, false)?;
    let taken = numbers(alloc, &parts, goes_in(true, shape))?;
    let with = Row { among, items: kept };
    let without = Row {
        among,
        items: taken,
    };
    Ok((with, without))
}

/// What stands within such a node: the members of a union, or else the parts.
fn parts(alloc: Global, modes: &Modes, start: &[ModeId], shape: &Shape) -> Result<Members, NoMemory>
    requires start { All (λ m. m < length modes.now) start.now }
    requires within { ShapeIsWithin (length modes.now) shape.now }
    ensures parts { IfOk result (λ parts. ArePartsOf modes.now start.now shape.now parts) }
    ensures below { IfOk result (λ parts. All (λ m. m < length modes.now) parts) }
{
    if is_union(shape) {
        return spread(alloc, modes, start);
    }
    let parts = shape.parts(alloc)?;
    Ok(parts)
}

/// The number of a mode in the graph.
pub fn number(mode: Mode) -> u32
    requires { mode.id < 2 ^ 31 }
    ensures { result ≡ number_of mode }
{
    2 * mode.id + u32::from(mode.fixed)
}

/// The numbers of these modes, with or without their FLEX.
fn numbers(alloc: Global, parts: &Members, fixed: bool) -> Result<Vec<u32>, NoMemory>
    requires { All (λ m. m < 2 ^ 31) parts.now }
    ensures { IfOk result (λ items. items.items ≡ map (λ m. number_of (record { id = m; fixed = fixed })) parts.now) }
{
    let mut items = Vec::new(alloc);
    for id in &parts.items {
        items.push(number(Mode { id: *id, fixed }))?;
    }
    Ok(items)
}
