//! Where ways lead behind an instruction, and how many values they come there with.
ghost use Rattle.std.specs.Prelude.{◌≡◌, ◌<◌, ◌+◌, ◌^◌, ◌++◌, ◌∷◌, [], ℕ, IfOk, IsTrue, OnOk, if◌then◌else◌, nat_eq};
ghost use Rattle.a68_code.specs.Flow.{last_place, leaves, takes};
ghost use Rattle.a68_code.specs.Walk.{at_height, to_members, ways};

use a68_base::NoMemory;
use a68_code::{Does, last_place};
use a68_modes::Modes;

// Adds places to which ways come with one height.
fn add_all(found: &mut Vec<(usize, usize)>, places: &[usize], height: usize) -> Result<(), NoMemory>
    ensures { OnOk result (found.new.items ≡ found.old.items ++ at_height height places.now) }
{
    for to in places {
        found.push((*to, height))?;
    }
    Ok(())
}

// The same of the places that an instruction names.
fn add_places(
    found: &mut Vec<(usize, usize)>,
    places: &[u32],
    height: usize,
) -> Result<(), NoMemory>
    ensures { OnOk result (found.new.items ≡ found.old.items ++ at_height height places.now) }
{
    for to in places {
        found.push((*to as usize, height))?;
    }
    Ok(())
}

// How many values are left at the place of a member, where the last place is this one.
fn left_at(to: u32, last: u32) -> usize
    ensures { result ≡ (if nat_eq to last then 0 else 1) }
{
    if to == last { 0 } else { 1 }
}

// Adds the places of the members of a union, with one value above so many; the last place with none.
fn add_members(
    found: &mut Vec<(usize, usize)>,
    places: &[u32],
    below: usize,
) -> Result<(), NoMemory>
    requires { below + 1 < 2 ^ 64 }
    ensures { OnOk result (found.new.items ≡ found.old.items ++ to_members (last_place places.now) below places.now) }
{
    let last = last_place(places);
    for to in places {
        found.push((*to as usize, below + left_at(*to, last)))?;
    }
    Ok(())
}

// Adds a place and another one, each with its height.
fn add_both(
    found: &mut Vec<(usize, usize)>,
    one: (usize, usize),
    other: (usize, usize),
) -> Result<(), NoMemory>
    ensures { OnOk result (found.new.items ≡ found.old.items ++ one ∷ other ∷ []) }
{
    found.push(one)?;
    found.push(other)?;
    Ok(())
}

// Adds the ways behind the instruction at this place, above so many values.
fn add_ways(
    found: &mut Vec<(usize, usize)>,
    modes: &Modes,
    at: usize,
    does: &Does,
    below: usize,
) -> Result<(), NoMemory>
    requires place { at + 1 < 2 ^ 64 }
    requires room { below + leaves modes.now does.now < 2 ^ 64 }
    ensures { OnOk result (found.new.items ≡ found.old.items ++ ways modes.now at does.now below) }
{
    let height = below + does.leaves(modes);
    match does {
        Does::Return | Does::Close | Does::End => add_all(found, &[], height),
        Does::Jump(to) => add_all(found, &[*to as usize], height),
        Does::Goto {
            to,
            height: cut,
            ..
        } => add_both(found, (*to as usize, *cut as usize), (at + 1, height)),
        Does::Case(places) => add_places(found, &places.items, height),
        Does::Member { places, .. } => add_members(found, &places.items, below),
        Does::Unless(to) | Does::Step(to) | Does::Advance(to) => add_all(
            found,
            &[at + 1, *to as usize],
            height,
        ),
        _ => add_all(found, &[at + 1], height),
    }
}

/// The ways behind the instruction at this place, which finds so many values, in the place of those that were found before. Tells
/// whether it finds as many as it takes; else there are none.
pub fn find_ways(
    found: &mut Vec<(usize, usize)>,
    modes: &Modes,
    at: usize,
    does: &Does,
    height: usize,
) -> Result<bool, NoMemory>
    requires place { at + 1 < 2 ^ 64 }
    requires room { height + 1 < 2 ^ 64 }
    ensures { IfOk result (λ finds. IsTrue finds → (below : ℕ) × (below + takes does.now ≡ height) × (found.new.items ≡ ways modes.now at does.now below)) }
{
    found.clear();
    let Some(takes) = does.takes() else {
        return Ok(false);
    };
    if height < takes {
        return Ok(false);
    }
    add_ways(found, modes, at, does, height - takes)?;
    Ok(true)
}
