//! The text of a program with as many strands as are asked for.
ghost use Rattle.std.specs.Prelude.{◌≡◌, ◌≤◌, ◌-◌, ◌++◌, string_bytes, IfOk, OnOk};
ghost use Rattle.a68_maker.specs.declared.maker.TheConstants.{FEWEST_UNITS, MOST_UNITS};
ghost use Rattle.a68_maker.specs.Making.{make_text, unit_lines, unit_text};

use a68_base::{NoMemory, Text};
use std::alloc::Global;

/// The fewest units that a parallel clause has.
pub const FEWEST_UNITS: u32 = 2;

/// The most units that are asked for.
pub const MOST_UNITS: u32 = 2_000;

// Puts bytes behind a text.
fn put(text: &mut Text, bytes: &[u8]) -> Result<(), NoMemory>
    ensures { OnOk result (text.new ≡ text.old ++ bytes.now) }
{
    text.items.extend_from_slice(bytes)?;
    Ok(())
}

// The unit of this number.
fn unit(alloc: Global, number: u32) -> Result<String, NoMemory>
    ensures { IfOk result (λ unit. string_bytes unit ≡ unit_text number) }
{
    let unit = format!(in alloc; "( DOWN g; t := t + {number}; UP g )")?;
    Ok(unit)
}

// Puts the unit of this number behind a text, and something behind that.
fn put_unit(alloc: Global, text: &mut Text, number: u32, end: &[u8]) -> Result<(), NoMemory>
    ensures { OnOk result (text.new ≡ text.old ++ (unit_text number ++ end.now)) }
{
    let unit = unit(alloc, number)?;
    put(text, unit.as_bytes())?;
    put(text, end)
}

// Puts the lines of all units but the last of so many.
fn put_units(alloc: Global, text: &mut Text, units: u32) -> Result<(), NoMemory>
    requires { 1 ≤ units }
    ensures { OnOk result (text.new ≡ text.old ++ unit_lines 1 (units - 1)) }
{
    for number in 1..units {
        put_unit(alloc, text, number, b",\n")?;
    }
    Ok(())
}

/// The text of a program whose parallel clause has so many units, 2 to 2,000 of them. Each adds its number, from 1 on, to
/// one sum, which a semaphore guards, and the sum is printed; so it prints the same whatever the order of its strands.
pub fn make_text(alloc: Global, units: u32) -> Result<Text, NoMemory>
    requires some { FEWEST_UNITS ≤ units }
    requires few { units ≤ MOST_UNITS }
    ensures { IfOk result (λ text. text ≡ make_text units) }
{
    let mut text = Text::from_slice(alloc, b"( INT t := 0; SEMA g = LEVEL 1; PAR (\n")?;
    put_units(alloc, &mut text, units)?;
    put_unit(alloc, &mut text, units, b"\n")?;
    put(&mut text, b"); print(t) )\n")?;
    Ok(text)
}
