//! How many items an activation of a code may have on the stack, wherever it stands.
ghost use Rattle.std.specs.Prelude.{◌≡◌, ◌<◌, ◌≤◌, ◌^◌, ℕ, length, IsTrue, IfOk, IfSome, slice_index_or};
ghost use Rattle.std.specs.List.{list_all};
ghost use Rattle.a68_code.specs.Valid.{IsValid};
ghost use Rattle.a68_exec.specs.Rooms.{room_at};
ghost use Rattle.a68_heights.specs.Reach.{AreFalling, AreSettled, IsFallingAt, IsSettledAt, falls_to, is_low};
ghost use Rattle.a68_heights.specs.Room.{Suffices};

use crate::walk::Walk;
use crate::ways::find_ways;
use a68_base::NoMemory;
use a68_code::{Code, Does};
use a68_exec::Rooms;
use std::alloc::Global;

// The height that is known of a place; 0 where there is none.
fn height_at(heights: &[usize], at: usize) -> usize
    ensures { result ≡ slice_index_or heights.now at 0 }
{
    heights.get(at).copied().unwrap_or(0)
}

// A way comes to a place with this height.
fn raise(heights: &mut Vec<usize>, to: usize, height: usize) {
    if to < heights.len() {
        heights[to] = heights[to].max(height);
    }
}

// Ways come to places, each with its height.
fn raise_all(heights: &mut Vec<usize>, ways: &[(usize, usize)]) {
    for (to, height) in ways {
        raise(heights, *to, *height);
    }
}

// Follows the ways once, from each instruction, in order, and gives the greatest height that is found for each place. Once is enough
// but where one part behind an EXIT jumps back to another one to which nothing else leads.
fn follow(
    alloc: Global,
    code: &Code,
    found: &mut Vec<(usize, usize)>,
) -> Result<Vec<usize>, NoMemory> {
    let list = &code.list.items;
    let mut heights = vec![in alloc; 0usize; list.len()]?;
    for at in 0..list.len() {
        let height = height_at(&heights, at);
        if height < list.len() {
            let _ = find_ways(found, &code.modes, at, &list[at].does, height)?;
            raise_all(&mut heights, found);
        }
    }
    Ok(heights)
}

// Does a way come to its place with no more than is known there?
fn is_low(heights: &[usize], way: (usize, usize)) -> bool
    ensures { result ≡ is_low heights.now way }
{
    way.1 <= height_at(heights, way.0)
}

// Do all these?
fn are_low(heights: &[usize], ways: &[(usize, usize)]) -> bool
    ensures { result ≡ list_all (is_low heights.now) ways.now }
{
    ways.iter().all(|way| is_low(heights, *way))
}

// Do the ways behind the instruction at this place come to their places with no more than is known there?
fn is_settled_at(
    code: &Code,
    heights: &[usize],
    at: usize,
    found: &mut Vec<(usize, usize)>,
) -> Result<bool, NoMemory>
    requires { at < length code.now.list }
    ensures { IfOk result (λ settled. IsTrue settled → IsSettledAt code.now heights.now at) }
{
    let list = &code.list.items;
    let height = height_at(heights, at);
    if height >= list.len() {
        return Ok(false);
    }
    if !find_ways(found, &code.modes, at, &list[at].does, height)? {
        return Ok(false);
    }
    Ok(are_low(heights, found))
}

// The same of each instruction.
fn are_settled(
    code: &Code,
    heights: &[usize],
    found: &mut Vec<(usize, usize)>,
) -> Result<bool, NoMemory>
    ensures { IfOk result (λ settled. IsTrue settled → AreSettled code.now heights.now) }
{
    for at in 0..code.list.items.len() {
        if !is_settled_at(code, heights, at, found)? {
            return Ok(false);
        }
    }
    Ok(true)
}

// Has an activation no more room at the place to which a way comes than so much?
fn falls_to(rooms: &Rooms, room: usize, way: (usize, usize)) -> bool
    ensures { result ≡ falls_to (room_at rooms.now) room way }
{
    rooms.at(way.0) <= room
}

// Has it so at the places of all these?
fn all_fall_to(rooms: &Rooms, room: usize, ways: &[(usize, usize)]) -> bool
    ensures { result ≡ list_all (falls_to (room_at rooms.now) room) ways.now }
{
    ways.iter().all(|way| falls_to(rooms, room, *way))
}

// Is there room at this place for more than is known there, and do the ways behind its instruction lead to none with more room?
fn is_falling_at(
    code: &Code,
    heights: &[usize],
    rooms: &Rooms,
    at: usize,
    found: &mut Vec<(usize, usize)>,
) -> Result<bool, NoMemory>
    requires { at < length code.now.list }
    ensures { IfOk result (λ falling. IsTrue falling → IsFallingAt code.now heights.now (room_at rooms.now) at) }
{
    let list = &code.list.items;
    let height = height_at(heights, at);
    let room = rooms.at(at);
    if height >= room || height >= list.len() {
        return Ok(false);
    }
    if !find_ways(found, &code.modes, at, &list[at].does, height)? {
        return Ok(false);
    }
    Ok(all_fall_to(rooms, room, found))
}

// The same of each place.
fn are_falling(
    code: &Code,
    heights: &[usize],
    rooms: &Rooms,
    found: &mut Vec<(usize, usize)>,
) -> Result<bool, NoMemory>
    ensures { IfOk result (λ falling. IsTrue falling → AreFalling code.now heights.now (room_at rooms.now)) }
{
    for at in 0..code.list.items.len() {
        if !is_falling_at(code, heights, rooms, at, found)? {
            return Ok(false);
        }
    }
    Ok(true)
}

// The greater of two heights.
fn greater(one: usize, other: usize) -> usize
    ensures one { one ≤ result }
    ensures other { other ≤ result }
{
    if one < other { other } else { one }
}

// The greatest of these heights; 0 where there is none.
fn highest(tops: &[usize]) -> usize
    ensures { (at : ℕ) → slice_index_or tops.now at 0 ≤ result }
{
    let mut highest = 0;
    for top in tops {
        highest = greater(highest, *top);
    }
    highest
}

// Does an instruction make strands?
fn forks(code: &Code) -> bool {
    code.list
        .items
        .iter()
        .any(|instr| matches!(instr.does, Does::Fork(_)))
}

// Room for the greatest height of all, where the code has but one strand and this is found by following the ways once.
fn even_rooms(
    alloc: Global,
    code: &Code,
    found: &mut Vec<(usize, usize)>,
) -> Result<Option<Rooms>, NoMemory>
    requires { IsValid code.now }
    ensures { IfOk result (λ made. IfSome made (λ rooms. Suffices code.now (room_at rooms))) }
{
    if forks(code) {
        return Ok(None);
    }
    let heights = follow(alloc, code, found)?;
    if !are_settled(code, &heights, found)? {
        return Ok(None);
    }
    let most = highest(&heights);
    if most >= u32::MAX as usize {
        return Ok(None);
    }
    let rooms = Rooms::of(alloc, &[], most as u32)?;
    Ok(Some(rooms))
}

// Room at each place for what the walk has found there.
fn rooms_of(alloc: Global, walk: &Walk) -> Result<Rooms, NoMemory> {
    let mut places = Vec::new(alloc);
    for top in &walk.tops {
        places.push(top.unwrap_or(0))?;
    }
    Rooms::of(alloc, &places, 0)
}

// The same, where it is found that this suffices.
fn rooms_by_place(
    alloc: Global,
    code: &Code,
    found: &mut Vec<(usize, usize)>,
) -> Result<Option<Rooms>, NoMemory>
    requires { IsValid code.now }
    ensures { IfOk result (λ made. IfSome made (λ rooms. Suffices code.now (room_at rooms))) }
{
    let walk = Walk::through(alloc, code, found)?;
    if !are_settled(code, &walk.heights, found)? {
        return Ok(None);
    }
    let rooms = rooms_of(alloc, &walk)?;
    if !are_falling(code, &walk.heights, &rooms, found)? {
        return Ok(None);
    }
    Ok(Some(rooms))
}

/// Room for the activations of a code: wherever one stands, for as many items as it may have there and wherever the ways lead from
/// there; for as many as there are instructions, where that is not found. A code that makes no strands has one number for all places.
pub fn find_rooms(alloc: Global, code: &Code) -> Result<Rooms, NoMemory>
    requires valid { IsValid code.now }
    requires few { length code.now.list < 2 ^ 32 }
    ensures { IfOk result (λ rooms. Suffices code.now (room_at rooms)) }
{
    let mut found = Vec::new(alloc);
    if let Some(rooms) = even_rooms(alloc, code, &mut found)? {
        return Ok(rooms);
    }
    if let Some(rooms) = rooms_by_place(alloc, code, &mut found)? {
        return Ok(rooms);
    }
    Rooms::of(alloc, &[], code.list.items.len() as u32)
}
