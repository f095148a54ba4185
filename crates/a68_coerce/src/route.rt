//! Paths in short, and the paths themselves.
ghost use Rattle.std.specs.Prelude.{◌≡◌, ◌<◌, ◌++◌, IfOk, OnOk, length};
ghost use Rattle.a68_coerce.specs.Routes.{meek_way, path_of, with_last, with_rows};

use crate::walk::next_step;
use a68_base::NoMemory;
use a68_equiv::Mode;
use a68_modes::{Coercion, Modes, Path};
use std::alloc::Global;

/// A path in short: how many meek coercions it begins with, and the one that follows them.
#[derive(Clone, Copy)]
pub struct Route {
    pub meekly: u32,
    pub last: Option<Coercion>,
}

/// A route, and how often a dimension is added behind it.
#[derive(Clone, Copy)]
pub struct RowRoute {
    pub route: Route,
    pub rows: u64,
}

/// Writes out the path from a mode.
pub fn written(alloc: Global, modes: &Modes, from: Mode, rowed: RowRoute) -> Result<Path, NoMemory>
    requires { from.id < length modes.now }
    ensures { IfOk result (λ path. path ≡ path_of modes.now from rowed) }
{
    let mut items = Vec::new(alloc);
    push_meekly(&mut items, modes, from, rowed.route.meekly)?;
    push_last(&mut items, rowed.route.last)?;
    push_rows(&mut items, rowed.rows)?;
    Ok(Path { items })
}

/// Adds the first meek coercions of a mode.
fn push_meekly(
    items: &mut Vec<Coercion>,
    modes: &Modes,
    from: Mode,
    count: u32,
) -> Result<(), NoMemory>
    requires { from.id < length modes.now }
    ensures { OnOk result (items.new.items ≡ items.old.items ++ meek_way modes.now count from) }
{
    let mut at = from;
    for _ in 0..count {
        let Some(next) = next_step(modes, at) else {
            return Ok(());
        };
        items.push(next.coercion())?;
        at = next.to;
    }
    Ok(())
}

/// Adds the coercion behind them, if any.
fn push_last(items: &mut Vec<Coercion>, last: Option<Coercion>) -> Result<(), NoMemory>
    ensures { OnOk result (items.new.items ≡ with_last items.old.items last) }
{
    if let Some(last) = last {
        items.push(last)?;
    }
    Ok(())
}

/// Adds so many dimensions.
fn push_rows(items: &mut Vec<Coercion>, rows: u64) -> Result<(), NoMemory>
    ensures { OnOk result (items.new.items ≡ with_rows items.old.items rows) }
{
    for _ in 0..rows {
        items.push(Coercion::RowUp)?;
    }
    Ok(())
}
