//! The cells of plans.
ghost use Rattle.std.specs.Prelude.{◌≡◌, ◌<◌, ◌+◌, ◌++◌, ◌^◌, true, length, map, take, IfOk, OnErr, OnOk};
ghost use Rattle.std.specs.List.{list_all};
ghost use Rattle.a68_acts.specs.Does as acts;

use a68_base::NoMemory;
use a68_layout::Plan;
use a68_values::{Descriptor, Held};

// Adds equal held values. Where there is no memory, some of them are added.
fn add_copies(cells: &mut Vec<Held>, new: &[Held]) -> Result<(), NoMemory>
    ensures ok { OnOk result (cells.new.items ≡ cells.old.items ++ new.now) }
    ensures err { OnErr result (take (length cells.old.items) cells.new.items ≡ cells.old.items) }
{
    for held in new {
        cells.push(held.copy()?)?;
    }
    Ok(())
}

// Is the first cell that a cell names one of so many, or the one behind them?
fn names_within(count: usize, held: &Held) -> bool
    ensures { result ≡ acts.names_within count held.now }
{
    match held {
        Held::Plain(_) => true,
        Held::Rows(descriptor) => descriptor.base as usize <= count,
        Held::Member { base, .. } => *base as usize <= count,
    }
}

/// Does a plan that is shifted name no cells but its own?
pub fn is_closed(plan: &Plan) -> bool
    ensures { result ≡ acts.is_closed plan.now }
{
    if !plan.shifted {
        return true;
    }
    let count = plan.cells.items.len();
    for held in &plan.cells.items {
        if !names_within(count, held) {
            return false;
        }
    }
    true
}

// An equal held value, where the cells that it names are counted from this one.
fn counted_from(base: u32, count: usize, held: &Held) -> Result<Held, NoMemory>
    requires within { acts.names_within count held.now ≡ true }
    requires room { base + count < 2 ^ 32 }
    ensures { IfOk result (λ made. made ≡ acts.counted_from base held.now) }
{
    match held {
        Held::Plain(plain) => Ok(Held::Plain(*plain)),
        Held::Rows(descriptor) => Ok(Held::Rows(Descriptor {
            base: base + descriptor.base,
            dims: descriptor.dims.copy()?,
        })),
        Held::Member { mode, base: first } => Ok(Held::Member {
            mode: *mode,
            base: base + *first,
        }),
    }
}

// Adds equal held values, where the cells that they name are counted from this one. Where there is no memory, some of them are
// added.
fn add_counted(cells: &mut Vec<Held>, base: u32, new: &[Held]) -> Result<(), NoMemory>
    requires within { list_all (acts.names_within (length new.now)) new.now ≡ true }
    requires room { base + length new.now < 2 ^ 32 }
    ensures ok { OnOk result (cells.new.items ≡ cells.old.items ++ map (acts.counted_from base) new.now) }
    ensures err { OnErr result (take (length cells.old.items) cells.new.items ≡ cells.old.items) }
{
    for held in new {
        cells.push(counted_from(base, new.len(), held)?)?;
    }
    Ok(())
}

// Adds the cells of a plan where the first one is this. Where there is no memory, some of them are added.
fn add_planned(cells: &mut Vec<Held>, base: u32, plan: &Plan) -> Result<(), NoMemory>
    requires closed { acts.is_closed plan.now ≡ true }
    requires room { base + length plan.now.cells < 2 ^ 32 }
    ensures ok { OnOk result (cells.new.items ≡ cells.old.items ++ acts.cells_from base plan.now) }
    ensures err { OnErr result (take (length cells.old.items) cells.new.items ≡ cells.old.items) }
{
    cells.reserve(plan.cells.items.len())?;
    if plan.shifted {
        return add_counted(cells, base, &plan.cells.items);
    }
    add_copies(cells, &plan.cells.items)
}

/// Adds the cells of a plan where the first one is this. Where there is no memory, the list stays as it was.
pub fn add_cells(cells: &mut Vec<Held>, base: u32, plan: &Plan) -> Result<(), NoMemory>
    requires closed { acts.is_closed plan.now ≡ true }
    requires room { base + length plan.now.cells < 2 ^ 32 }
    ensures ok { OnOk result (cells.new.items ≡ cells.old.items ++ acts.cells_from base plan.now) }
    ensures err { OnErr result (cells.new.items ≡ cells.old.items) }
{
    let count = cells.len();
    if let Err(error) = add_planned(cells, base, plan) {
        cells.truncate(count);
        return Err(error);
    }
    Ok(())
}
