//! The cells of a new name.
ghost use Rattle.std.specs.Prelude.{◌≡◌, Ok, Err, IfOk, IsErrOf};
ghost use Rattle.a68_values.specs.Content.{contents_of};
ghost use Rattle.a68_values.specs.declared.act.FaultKind.{FaultKind};
ghost use Rattle.a68_layout.specs.Rooms as rooms;

use crate::measured::Measured;
use crate::wanted::{Wanted, plan_wanted};
use crate::{LayoutStop, Plan, takes_bounds};
use a68_base::NoMemory;
use a68_modes::{ModeId, Modes};
use a68_values::{FaultKind, Value};
use std::alloc::Global;

// Takes the bounds by twos, a lower and an upper one.
fn pairs(alloc: Global, bounds: &[i64]) -> Result<Vec<(i64, i64)>, NoMemory>
    ensures { IfOk result (λ pairs. pairs.items ≡ rooms.pairs_of bounds.now) }
{
    let count = bounds.len() / 2;
    let mut pairs = Vec::with_capacity(alloc, count)?;
    for i in 0..count {
        pairs.push((bounds[2 * i], bounds[2 * i + 1]))?;
    }
    Ok(pairs)
}

/// The cells of a new name of the mode with these bounds, a lower and an upper one for each dimension of each row in
/// it, from outside inwards, fields in order. The fault Kind comes exactly where another number of bounds is given, and
/// else Cells exactly where the cells are more than there may be, or elements of a row among them would lie above those.
#[tactic(auto, unfolding(crate::specs::Rooms::planned))]
pub fn plan(alloc: Global, modes: &Modes, mode: ModeId, bounds: &[i64]) -> Result<Plan, LayoutStop>
    ensures cells { IfOk result (λ plan. Ok plan ≡ rooms.planned modes.now mode bounds.now) }
    ensures fault { (kind : FaultKind) → IsErrOf result (LayoutStop.Fault kind) → Err kind ≡ rooms.planned modes.now mode bounds.now }
{
    let modes = Measured::new(alloc, modes, mode)?;
    if !takes_bounds(&modes, mode, bounds.len()) {
        return Err(LayoutStop::Fault(FaultKind::Kind));
    }
    let pairs = pairs(alloc, bounds)?;
    let wanted = Wanted::Bounds {
        mode,
        bounds: &pairs,
    };
    let plan = plan_wanted(alloc, &modes, &wanted)?;
    Ok(plan)
}

/// The cells of a new name of the mode for this value: its rows have the bounds that they have in the value. The fault
/// Cells comes exactly where they are more than there may be, or elements of a row among them would lie above those.
#[tactic(auto, unfolding(crate::specs::Rooms::planned_for))]
pub fn plan_for(
    alloc: Global,
    modes: &Modes,
    mode: ModeId,
    value: &Value,
) -> Result<Plan, LayoutStop>
    ensures cells { IfOk result (λ plan. Ok plan ≡ rooms.planned_for modes.now mode value.now) }
    ensures fault { (kind : FaultKind) → IsErrOf result (LayoutStop.Fault kind) → Err kind ≡ rooms.planned_for modes.now mode value.now }
{
    let wanted = Wanted::One { mode, value };
    let modes = Measured::bare(alloc, modes);
    let plan = plan_wanted(alloc, &modes, &wanted)?;
    Ok(plan)
}

/// The cells of new elements, of the mode, of a row of these values. The fault Cells comes exactly where they are more
/// than there may be, or elements of a row among them would lie above those.
#[tactic(auto, unfolding(crate::specs::Rooms::planned_elements))]
pub fn plan_elements(
    alloc: Global,
    modes: &Modes,
    mode: ModeId,
    values: &[Value],
) -> Result<Plan, LayoutStop>
    ensures cells { IfOk result (λ plan. Ok plan ≡ rooms.planned_elements modes.now mode (contents_of values.now)) }
    ensures fault { (kind : FaultKind) → IsErrOf result (LayoutStop.Fault kind) → Err kind ≡ rooms.planned_elements modes.now mode (contents_of values.now) }
{
    let wanted = Wanted::Elements { mode, values };
    let modes = Measured::bare(alloc, modes);
    let plan = plan_wanted(alloc, &modes, &wanted)?;
    Ok(plan)
}
