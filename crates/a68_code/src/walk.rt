//! The walk along all ways, which finds the height of the stack at each place.
ghost use Rattle.std.specs.Prelude.{◌≡◌, ◌↔◌, ◌+◌, ◌∷◌, ◌<◌, ◌≤◌, ◌^◌, [], IfOk, IsTrue, MatchBool, None, Some, replicate, slice_set, nat_eq, if◌then◌else◌};
ghost use Rattle.a68_code.specs.Flow.{last_place, leaves, takes, MayMeet};
ghost use Rattle.a68_code.specs.Walk.{at_height, to_members, ways, AnyClashes, Clashes, StepFails, NotesWays, NotesHeight, NotesAll};

use crate::owner::Owner;
use crate::{Does, last_place};
use a68_base::NoMemory;
use a68_modes::Modes;
use std::alloc::Global;

/// The heights that are known, by places, and the places at which the walk has yet to go on, with their heights.
#[derive(Drop)]
pub struct Walk {
    pub heights: Vec<Option<usize>>,
    pub todo: Vec<(usize, usize)>,
}

// Whether the ways of an owner may meet the instruction with this height.
fn may_meet(whose: Owner, does: &Does, height: usize) -> bool
    ensures { IsTrue result ↔ MayMeet whose does.now height }
{
    match (whose, does) {
        (Owner::Program, Does::Return) => false,
        (Owner::Program, Does::Close) => false,
        (Owner::Texts { .. }, Does::End) => false,
        (Owner::Texts { .. }, Does::Close) => false,
        (Owner::Texts { yields }, Does::Return) => height == usize::from(yields),
        (Owner::Units, Does::End) => false,
        (Owner::Units, Does::Return) => false,
        (Owner::Units, Does::Close) => height == 0,
        _ => true,
    }
}

// How many values are left at the place of a member, where the last place is this one.
fn left_at(to: u32, last: u32) -> usize
    ensures { result ≡ (if nat_eq to last then 0 else 1) }
{
    if to == last { 0 } else { 1 }
}

/// A table in which no place has a height.
fn no_heights(alloc: Global, count: usize) -> Result<Vec<Option<usize>>, NoMemory>
    ensures { IfOk result (λ heights. heights.items ≡ replicate count None) }
{
    let heights = vec![in alloc; None; count]?;
    Ok(heights)
}

impl Walk {
    /// The walk before it comes to a place, through so many instructions.
    pub fn new(alloc: Global, count: usize) -> Result<Walk, NoMemory>
        ensures heights { IfOk result (λ walk. walk.heights.items ≡ replicate count None) }
        ensures todo { IfOk result (λ walk. walk.todo.items ≡ []) }
    {
        let heights = no_heights(alloc, count)?;
        let todo = Vec::new(alloc);
        Ok(Walk { heights, todo })
    }

    /// A way comes to this place with this height. False where the place is behind the list or has another height.
    fn note(&mut self, to: usize, height: usize) -> Result<bool, NoMemory>
        ensures { IfOk result (λ fits. MatchBool fits
            (NotesHeight to height self.old.heights.items self.old.todo.items
            self.new.heights.items self.new.todo.items)
            (Clashes to height self.old.heights.items)) }
    {
        if to >= self.heights.len() {
            return Ok(false);
        }
        match self.heights[to] {
            Some(known) => Ok(known == height),
            None => {
                self.todo.push((to, height))?;
                self.heights[to] = Some(height);
                Ok(true)
            }
        }
    }

    /// Ways come to these places with this height.
    pub fn note_all(&mut self, places: &[usize], height: usize) -> Result<bool, NoMemory>
        ensures { IfOk result (λ fits. MatchBool fits
            (NotesAll (at_height height places.now) self.old.heights.items self.old.todo.items
            self.new.heights.items self.new.todo.items)
            (AnyClashes (at_height height places.now) self.old.heights.items)) }
    {
        for to in places {
            if !self.note(*to, height)? {
                return Ok(false);
            }
        }
        Ok(true)
    }

    /// Ways come to the places of a list with this height.
    fn note_places(&mut self, places: &[u32], height: usize) -> Result<bool, NoMemory>
        ensures { IfOk result (λ fits. MatchBool fits
            (NotesAll (at_height height places.now) self.old.heights.items self.old.todo.items
            self.new.heights.items self.new.todo.items)
            (AnyClashes (at_height height places.now) self.old.heights.items)) }
    {
        for to in places {
            if !self.note(*to as usize, height)? {
                return Ok(false);
            }
        }
        Ok(true)
    }

    /// Ways come to the places of the members of a union, with one value above so many; with none to the last place.
    fn note_members(&mut self, places: &[u32], below: usize) -> Result<bool, NoMemory>
        requires { below + 1 < 2 ^ 64 }
        ensures { IfOk result (λ fits. MatchBool fits
            (NotesAll (to_members (last_place places.now) below places.now)
            self.old.heights.items self.old.todo.items
            self.new.heights.items self.new.todo.items)
            (AnyClashes (to_members (last_place places.now) below places.now)
            self.old.heights.items)) }
    {
        let last = last_place(places);
        for to in places {
            let left = left_at(*to, last);
            if !self.note(*to as usize, below + left)? {
                return Ok(false);
            }
        }
        Ok(true)
    }

    /// Ways come to a place and to another one, each with its height.
    fn note_both(
        &mut self,
        to: usize,
        height: usize,
        other: usize,
        other_height: usize,
    ) -> Result<bool, NoMemory>
        ensures { IfOk result (λ fits. MatchBool fits
            (NotesAll ((to, height) ∷ ((other, other_height) ∷ [])) self.old.heights.items self.old.todo.items
            self.new.heights.items self.new.todo.items)
            (AnyClashes ((to, height) ∷ ((other, other_height) ∷ [])) self.old.heights.items)) }
    {
        if !self.note(to, height)? {
            return Ok(false);
        }
        let fits = self.note(other, other_height)?;
        Ok(fits)
    }

    /// Ways come to the places where the machine may go on behind the instruction at this place, above so many values.
    fn note_landings(
        &mut self,
        modes: &Modes,
        at: usize,
        does: &Does,
        below: usize,
    ) -> Result<bool, NoMemory>
        requires place { at + 1 < 2 ^ 64 }
        requires room { below + leaves modes.now does.now < 2 ^ 64 }
        ensures { IfOk result (λ fits. MatchBool fits
            (NotesAll (ways modes.now at does.now below) self.old.heights.items self.old.todo.items
            self.new.heights.items self.new.todo.items)
            (AnyClashes (ways modes.now at does.now below) self.old.heights.items)) }
    {
        let height = below + does.leaves(modes);
        match does {
            Does::Return | Does::Close | Does::End => self.note_all(&[], height),
            Does::Jump(to) => self.note_all(&[*to as usize], height),
            Does::Goto {
                to,
                height: cut,
                ..
            } => self.note_both(*to as usize, *cut as usize, at + 1, height),
            Does::Case(places) => self.note_places(&places.items, height),
            Does::Member { places, .. } => self.note_members(&places.items, below),
            Does::Unless(to) | Does::Step(to) | Does::Advance(to) => self.note_all(
                &[at + 1, *to as usize],
                height,
            ),
            _ => self.note_all(&[at + 1], height),
        }
    }

    /// The walk goes on from this place, which has this height.
    pub fn go_on(
        &mut self,
        modes: &Modes,
        whose: Owner,
        at: usize,
        does: &Does,
        height: usize,
    ) -> Result<bool, NoMemory>
        requires place { at + 1 < 2 ^ 64 }
        requires room { height + 1 < 2 ^ 64 }
        requires one { leaves modes.now does.now ≤ takes does.now + 1 }
        ensures { IfOk result (λ fits. MatchBool fits
            (NotesWays modes.now whose at does.now height self.old.heights.items self.old.todo.items
            self.new.heights.items self.new.todo.items)
            (StepFails modes.now whose at does.now height self.old.heights.items)) }
    {
        let Some(takes) = does.takes() else {
            return Ok(false);
        };
        if !may_meet(whose, does, height) || height < takes {
            return Ok(false);
        }
        let below = height - takes;
        self.note_landings(modes, at, does, below)
    }
}
