//! Which codes the machine runs.
ghost use Rattle.std.specs.Prelude.{◌↔◌, ◌≡◌, ◌<◌, ◌++◌, ℕ, IfOk, OnOk, IsTrue, MatchOption, length};
ghost use Rattle.a68_code.specs.Flow as flow;
ghost use Rattle.a68_code.specs.Valid.{IsValid};
ghost use Rattle.a68_code.specs.Walk.{Agree, AllAgree, AreHeights, FitsAt};

use crate::order::is_in_order;
use crate::owner::Owner;
use crate::walk::Walk;
use crate::{Code, Does, Instr, RoutineEntrance};
use a68_base::NoMemory;
use std::alloc::Global;

// Adds the entrance of a routine text, where its body leaves a value, or where it leaves none.
fn add_entrance(
    places: &mut Vec<usize>,
    yields: bool,
    text: RoutineEntrance,
) -> Result<(), NoMemory>
    ensures { OnOk result (places.new.items ≡ places.old.items ++ flow.entrance_if yields text) }
{
    if text.yields == yields {
        places.push(text.at as usize)?;
    }
    Ok(())
}

// The entrances of those routine texts whose bodies leave a value, or of the others.
fn entrances_in(
    alloc: Global,
    yields: bool,
    texts: &[RoutineEntrance],
) -> Result<Vec<usize>, NoMemory>
    ensures { IfOk result (λ places. places.items ≡ flow.entrances_in yields texts.now) }
{
    let mut places = Vec::new(alloc);
    for text in texts {
        add_entrance(&mut places, yields, *text)?;
    }
    Ok(places)
}

// Adds the places where the units of parallel clauses begin that an instruction forks.
fn add_forked(places: &mut Vec<usize>, does: &Does) -> Result<(), NoMemory>
    ensures { OnOk result (places.new.items ≡ places.old.items ++ flow.forked_by does.now) }
{
    match does {
        Does::Fork(entrances) => add_all(places, &entrances.items),
        _ => Ok(()),
    }
}

// Adds places.
fn add_all(places: &mut Vec<usize>, more: &[u32]) -> Result<(), NoMemory>
    ensures { OnOk result (places.new.items ≡ places.old.items ++ more.now) }
{
    for place in more {
        places.push(*place as usize)?;
    }
    Ok(())
}

// The entrances of the units of parallel clauses.
fn entrances_of_units(alloc: Global, list: &[Instr]) -> Result<Vec<usize>, NoMemory>
    ensures { IfOk result (λ places. places.items ≡ flow.entrances_of_units list.now) }
{
    let mut places = Vec::new(alloc);
    for instr in list {
        add_forked(&mut places, &instr.does)?;
    }
    Ok(places)
}

// Whether two tables have no two heights at one place.
fn agree(heights: &[Option<usize>], others: &[Option<usize>]) -> bool
    requires { length heights.now ≡ length others.now }
    ensures { IsTrue result ↔ Agree heights.now others.now }
{
    for at in 0..heights.len() {
        if let (Some(one), Some(other)) = (heights[at], others[at]) {
            if one != other {
                return false;
            }
        }
    }
    true
}

// Whether no two of four tables have two heights at one place.
fn all_agree(
    heights: &[Option<usize>],
    others: &[Option<usize>],
    further: &[Option<usize>],
    last: &[Option<usize>],
) -> bool
    requires one { length heights.now ≡ length others.now }
    requires two { length heights.now ≡ length further.now }
    requires three { length heights.now ≡ length last.now }
    ensures { IsTrue result ↔ AllAgree heights.now others.now further.now last.now }
{
    agree(heights, others)
        && agree(heights, further)
        && agree(heights, last)
        && agree(others, further)
        && agree(others, last)
        && agree(further, last)
}

impl Code {
    /// Whether the machine runs the code (own): it never leaves the list, finds on the stack what an instruction takes,
    /// has a place for each member that a united value may have, goes back only by a jump to a label, or at the end of a loop, to a Step with a Turn behind it, and ends the program at End, a routine at
    /// Return, with a value just where its entrance says so, and a unit of a parallel clause at Close, with nothing on its
    /// stack. Takes time in proportion to the list and the places that it names.
    pub fn valid(&self, alloc: Global) -> Result<bool, NoMemory>
        ensures { IfOk result (λ valid. IsTrue valid ↔ IsValid self.now) }
    {
        if self.list.items.is_empty() || !self.all_fit() {
            return Ok(false);
        }
        self.ways_agree(alloc)
    }

    /// Whether each instruction has operands and a jump as it may have them.
    fn all_fit(&self) -> bool
        ensures { IsTrue result ↔ ((at : ℕ) → FitsAt self.now at) }
    {
        for at in 0..self.list.items.len() {
            if !self.fits(at) {
                return false;
            }
        }
        true
    }

    /// Whether the instruction at this place has operands and a jump as it may have them.
    fn fits(&self, at: usize) -> bool
        requires { at < length self.now.list }
        ensures { IsTrue result ↔ FitsAt self.now at }
    {
        let list = &self.list.items;
        let does = &list[at].does;
        let texts = self.texts.items.len();
        does.is_well_made(&self.modes, texts, list.len()) && is_in_order(list, at, does)
    }

    /// Walks along the ways of all owners.
    fn ways_agree(&self, alloc: Global) -> Result<bool, NoMemory>
        requires first { 0 < length self.now.list }
        requires fits { (at : ℕ) → FitsAt self.now at }
        ensures { IfOk result (λ agree. IsTrue agree ↔ IsValid self.now) }
    {
        let Some(program) = self.heights(alloc, Owner::Program)? else {
            return Ok(false);
        };
        let Some(yielding) = self.heights(alloc, Owner::Texts { yields: true })? else {
            return Ok(false);
        };
        let Some(others) = self.heights(alloc, Owner::Texts { yields: false })? else {
            return Ok(false);
        };
        let Some(units) = self.heights(alloc, Owner::Units)? else {
            return Ok(false);
        };
        Ok(all_agree(&program, &yielding, &others, &units))
    }

    /// Where the ways of an owner begin.
    fn entrances(&self, alloc: Global, whose: Owner) -> Result<Vec<usize>, NoMemory>
        ensures { IfOk result (λ places. places.items ≡ flow.entrances self.now whose) }
    {
        match whose {
            Owner::Program => {
                let mut places = Vec::new(alloc);
                places.push(0)?;
                Ok(places)
            }
            Owner::Texts { yields } => entrances_in(alloc, yields, &self.texts.items),
            Owner::Units => entrances_of_units(alloc, &self.list.items),
        }
    }

    /// Walks along all ways of an owner, and gives the heights of the stack at the places to which they lead; none where
    /// they meet what they may not. Each place is taken at most once.
    fn heights(&self, alloc: Global, whose: Owner) -> Result<Option<Vec<Option<usize>>>, NoMemory>
        requires { (at : ℕ) → FitsAt self.now at }
        ensures { IfOk result (λ known. MatchOption known (IsValid self.now → ⊥) (λ heights. AreHeights self.now whose heights.items)) }
    {
        let list = &self.list.items;
        let entrances = self.entrances(alloc, whose)?;
        let mut walk = Walk::new(alloc, list.len())?;
        if !walk.note_all(&entrances, 0)? {
            return Ok(None);
        }
        while let Some((at, height)) = walk.todo.pop() {
            if !walk.go_on(&self.modes, whose, at, &list[at].does, height)? {
                return Ok(None);
            }
        }
        Ok(Some(walk.heights))
    }
}
