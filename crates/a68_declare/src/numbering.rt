//! The classes of modes, numbered in the order of their first modes.
ghost use Rattle.std.specs.Prelude.{◌≡◌, ◌<◌, ◌≤◌, ◌^◌, IfOk, OnOk, length};
ghost use Rattle.a68_declare.specs.Numbering.{at_class, class_at, IsNumberOf, IsNumbering, NodesAreNumbered};
ghost use Rattle.a68_equiv.specs.Classes.{AreExact};

use a68_base::NoMemory;
use a68_equiv::{Classes, Mode};
use a68_modes::{ModeId, Modes};
use std::alloc::Global;
use std::collections::HashMap;

/// The number of each node, which is one for equivalent modes, and the first node of each number.
#[derive(Drop)]
pub struct Numbering {
    pub to: Vec<ModeId>,
    pub firsts: Vec<ModeId>,
}

// The number of a class, a new one where it has none.
fn number_of(
    table: &mut HashMap<u32, ModeId>,
    firsts: &mut Vec<ModeId>,
    class: u32,
    mode: ModeId,
) -> Result<ModeId, NoMemory>
    requires { length firsts.old.items < 2 ^ 32 }
    ensures { IfOk result (λ number. IsNumberOf table.old.entries table.new.entries firsts.old.items firsts.new.items class mode number (at_class table.old.entries class)) }
{
    if let Some(number) = table.get(&class) {
        return Ok(*number);
    }
    let number = firsts.len() as u32;
    firsts.push(mode)?;
    table.insert(class, number)?;
    Ok(number)
}

// Numbers the classes of all modes.
fn number_all(
    modes: &Modes,
    classes: &Classes,
    table: &mut HashMap<u32, ModeId>,
    to: &mut Vec<ModeId>,
    firsts: &mut Vec<ModeId>,
) -> Result<(), NoMemory>
    requires exact { AreExact modes.now classes.now.of }
    requires begun { NodesAreNumbered modes.now classes.now.of 0 table.old.entries to.old.items firsts.old.items }
    ensures { OnOk result (IsNumbering modes.now to.new.items firsts.new.items) }
{
    for id in 0..modes.len() {
        let class = classes.class(Mode::as_it_stands(id));
        let number = number_of(table, firsts, class, id)?;
        to.push(number)?;
    }
    Ok(())
}

/// The numbers of the classes of these modes, as they stand.
pub fn numbering_of(alloc: Global, modes: &Modes, classes: &Classes) -> Result<Numbering, NoMemory>
    requires { AreExact modes.now classes.now.of }
    ensures { IfOk result (λ found. IsNumbering modes.now found.to.items found.firsts.items) }
{
    let mut table = HashMap::new(alloc);
    let mut to = Vec::new(alloc);
    let mut firsts = Vec::new(alloc);
    number_all(modes, classes, &mut table, &mut to, &mut firsts)?;
    Ok(Numbering { to, firsts })
}
