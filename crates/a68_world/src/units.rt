//! The strands that an act makes.
ghost use Rattle.std.specs.Prelude.{◌≡◌, ◌≢◌, ◌<◌, ◌≤◌, ◌+◌, ◌++◌, ◌^◌, [], ◌∷◌, IsTrue, length, IfOk, IfSome, OnOk, OnErr};
ghost use Rattle.std.specs.Option.{option_map_or};
ghost use Rattle.std.specs.Vec.{vec_len, vec_capacity};
ghost use Rattle.a68_exec.specs.Rooms.{room_at};
ghost use Rattle.a68_heights.specs.Room.{Suffices};
ghost use Rattle.a68_stack.specs.Room.{has_room};
ghost use Rattle.a68_world.specs.Kin.{Forks};
ghost use Rattle.a68_world.specs.Stepping.{IsNewSeat, AreUnits, AreUnitsAt, AsksOther, AsksOtherAt, FewUnitsAt, units_asked, units_at, units_begun};

use crate::kin::{Kin, fork};
use crate::seat::Seat;
use a68_acts::Want;
use a68_base::NoMemory;
use a68_code::Code;
use a68_exec::Rooms;
use a68_instructions::Ask;
use a68_store::Store;
use a68_strand::Strand;
use a68_values::{Chain, Entrances};
use std::alloc::Global;

// The units for which this asks, where the act meets no fault.
fn units_asked<'a>(ask: &'a Ask, store: &Store) -> Option<&'a Entrances>
    ensures asked { option_map_or (λ entrances. entrances.now) result [] ≡ units_asked ask.now store.now }
    ensures fork { IfSome result (λ entrances. ask.now ≡ Ask.Want (Want.Fork entrances.now)) }
{
    let Ask::Want(want) = ask else {
        return None;
    };
    let Want::Fork(entrances) = want else {
        return None;
    };
    match store.fault_of(want) {
        None => Some(entrances),
        Some(_) => None,
    }
}

// A unit begins at its entrance.
fn begin_unit(
    alloc: Global,
    code: &Code,
    rooms: &Rooms,
    number: u32,
    entrance: u32,
    chain: &Chain,
) -> Result<Seat, NoMemory>
    requires few { length code.now.list < 2 ^ 32 }
    requires enough { Suffices code.now (room_at rooms.now) }
    requires room { IsTrue (has_room chain.now) }
    ensures { IfOk result (IsNewSeat code.now (units_at code.now chain.now (entrance ∷ [])) number 0) }
{
    let chain = chain.copy(alloc)?;
    let strand = Strand::begin(alloc, code, rooms, number, entrance, chain)?;
    Ok(Seat::Home(strand))
}

// The units begin in order, the first of them with this number.
fn begin_all(
    alloc: Global,
    code: &Code,
    rooms: &Rooms,
    first: u32,
    entrances: &[u32],
    chain: &Chain,
    units: &mut Vec<Seat>,
) -> Result<(), NoMemory>
    requires few { length code.now.list < 2 ^ 32 }
    requires enough { Suffices code.now (room_at rooms.now) }
    requires room { IsTrue (has_room chain.now) }
    requires numbers { first + length entrances.now < 2 ^ 32 }
    requires empty { units.old.items ≡ [] }
    ensures { OnOk result (AreUnits code.now (units_at code.now chain.now entrances.now) first units.new.items) }
{
    for i in 0..entrances.len() {
        let unit = begin_unit(alloc, code, rooms, first + i as u32, entrances[i], chain)?;
        units.push(unit)?;
    }
    Ok(())
}

// The seats of the strands that the act of a strand makes, the first of which has this number.
fn begin_units(
    alloc: Global,
    code: &Code,
    rooms: &Rooms,
    store: &Store,
    strand: &Strand,
    first: u32,
) -> Result<Vec<Seat>, NoMemory>
    requires few { length code.now.list < 2 ^ 32 }
    requires enough { Suffices code.now (room_at rooms.now) }
    requires numbers { first + length (units_asked strand.now.about.ask store.now) < 2 ^ 32 }
    ensures units { IfOk result (λ units. AreUnits code.now (units_begun code.now strand.now store.now) first units.items) }
    ensures err { OnErr result (AsksOther store.now strand.now) }
{
    let mut units = Vec::new(alloc);
    let Some(entrances) = units_asked(strand.ask(), store) else {
        return Ok(units);
    };
    match begin_all(
        alloc,
        code,
        rooms,
        first,
        &entrances.items,
        strand.chain(),
        &mut units,
    ) {
        Ok(()) => Ok(units),
        Err(error) => {
            drop(units);
            Err(error)
        }
    }
}

// There is room for so many further strands. For none it takes no memory.
fn reserve(seats: &mut Vec<Seat>, kin: &mut Vec<Kin>, count: usize) -> Result<(), NoMemory>
    ensures same { seats.new.items ≡ seats.old.items }
    ensures same_kin { kin.new.items ≡ kin.old.items }
    ensures room { OnOk result (vec_len seats.new + count ≤ vec_capacity seats.new) }
    ensures room_beside { OnOk result (vec_len kin.new + count ≤ vec_capacity kin.new) }
    ensures err { OnErr result (count ≢ 0) }
{
    let Ok(()) = seats.reserve(count) else {
        return Err(NoMemory);
    };
    let Ok(()) = kin.reserve(count) else {
        return Err(NoMemory);
    };
    Ok(())
}

// These seats, once there is room for them beside the others. For none it takes no memory.
fn with_room(
    seats: &mut Vec<Seat>,
    kin: &mut Vec<Kin>,
    units: Vec<Seat>,
) -> Result<Vec<Seat>, NoMemory>
    ensures same { seats.new.items ≡ seats.old.items }
    ensures same_kin { kin.new.items ≡ kin.old.items }
    ensures units { IfOk result (λ made. made.items ≡ units.items) }
    ensures room { IfOk result (λ made. vec_len seats.new + vec_len made ≤ vec_capacity seats.new) }
    ensures room_beside { IfOk result (λ made. vec_len kin.new + vec_len made ≤ vec_capacity kin.new) }
    ensures err { OnErr result (vec_len units ≢ 0) }
{
    match reserve(seats, kin, units.len()) {
        Ok(()) => Ok(units),
        Err(error) => {
            drop(units);
            Err(error)
        }
    }
}

/// The seats of the strands that the act of this strand makes, and room for them. An act that makes none takes no memory for
/// that.
pub fn units_ready(
    alloc: Global,
    code: &Code,
    rooms: &Rooms,
    store: &Store,
    seats: &mut Vec<Seat>,
    kin: &mut Vec<Kin>,
    n: usize,
) -> Result<Vec<Seat>, NoMemory>
    requires few { length code.now.list < 2 ^ 32 }
    requires enough { Suffices code.now (room_at rooms.now) }
    requires numbers { FewUnitsAt seats.old.items store.now n }
    ensures same { seats.new.items ≡ seats.old.items }
    ensures same_kin { kin.new.items ≡ kin.old.items }
    ensures units { IfOk result (λ units. AreUnitsAt code.now store.now seats.old.items n units.items) }
    ensures room { IfOk result (λ units. vec_len seats.new + vec_len units ≤ vec_capacity seats.new) }
    ensures room_beside { IfOk result (λ units. vec_len kin.new + vec_len units ≤ vec_capacity kin.new) }
    ensures err { OnErr result (AsksOtherAt store.now seats.old.items n) }
{
    let Some(Seat::Home(strand)) = seats.get(n) else {
        // The strand asks for an act.
        unreachable!();
    };
    let units = begin_units(alloc, code, rooms, store, strand, seats.len() as u32)?;
    with_room(seats, kin, units)
}

/// The same of a strand that is lent.
pub fn units_for(
    alloc: Global,
    code: &Code,
    rooms: &Rooms,
    store: &Store,
    seats: &mut Vec<Seat>,
    kin: &mut Vec<Kin>,
    strand: &Strand,
) -> Result<Vec<Seat>, NoMemory>
    requires few { length code.now.list < 2 ^ 32 }
    requires enough { Suffices code.now (room_at rooms.now) }
    requires numbers { length seats.old.items + length (units_asked strand.now.about.ask store.now) < 2 ^ 32 }
    ensures same { seats.new.items ≡ seats.old.items }
    ensures same_kin { kin.new.items ≡ kin.old.items }
    ensures units { IfOk result (λ units. AreUnits code.now (units_begun code.now strand.now store.now) (length seats.old.items) units.items) }
    ensures room { IfOk result (λ units. vec_len seats.new + vec_len units ≤ vec_capacity seats.new) }
    ensures room_beside { IfOk result (λ units. vec_len kin.new + vec_len units ≤ vec_capacity kin.new) }
    ensures err { OnErr result (AsksOther store.now strand.now) }
{
    let units = begin_units(alloc, code, rooms, store, strand, seats.len() as u32)?;
    with_room(seats, kin, units)
}

// New strands take their seats behind the others.
fn seat_units(seats: &mut Vec<Seat>, units: Vec<Seat>)
    requires { vec_len seats.old + vec_len units ≤ vec_capacity seats.old }
    ensures { seats.new.items ≡ seats.old.items ++ units.items }
{
    let mut units = units;
    // There is room for them.
    let _ = seats.append(&mut units);
    drop(units);
}

/// New strands, which this one has made, take their seats behind the others.
pub fn seat_all(seats: &mut Vec<Seat>, kin: &mut Vec<Kin>, n: u32, units: Vec<Seat>)
    requires room { vec_len seats.old + vec_len units ≤ vec_capacity seats.old }
    requires room_beside { vec_len kin.old + vec_len units ≤ vec_capacity kin.old }
    ensures seats { seats.new.items ≡ seats.old.items ++ units.items }
    ensures kin { Forks kin.old.items n (length units.items) kin.new.items }
{
    fork(kin, n, units.len());
    seat_units(seats, units);
}
