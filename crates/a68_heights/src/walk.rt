//! A walk along all ways of a code, which finds how many items activations have along them.
use crate::ways::find_ways;
use a68_base::NoMemory;
use a68_code::{Code, Does};
use std::alloc::Global;

/// What a walk has found. It goes stretch by stretch: along the ways from the first instruction, from each routine text, from each unit
/// of a parallel clause, and then from each place to which it has not come, since a part to which nothing leads has a height too.
#[derive(Drop)]
pub struct Walk {
    /// The height with which the walk came to each place.
    pub heights: Vec<usize>,
    /// For each place the greatest height in its stretch, and in those into which that leads. The walk has come to a place that has
    /// one, which is its own height until the stretch is done.
    pub tops: Vec<Option<u32>>,
    // The places of the stretch in hand, in the order in which the walk came to them.
    stretch: Vec<usize>,
}

// A height as the table of the greatest ones keeps it.
fn short(height: usize) -> u32 {
    if height < u32::MAX as usize {
        height as u32
    } else {
        u32::MAX
    }
}

// The greatest height that is known of a place; none where the walk has not come there.
fn top_at(tops: &[Option<u32>], at: usize) -> Option<u32> {
    match tops.get(at) {
        Some(top) => *top,
        None => None,
    }
}

// All these places have this greatest height.
fn set_tops(tops: &mut Vec<Option<u32>>, places: &[usize], top: u32) {
    for at in places {
        if *at < tops.len() {
            tops[*at] = Some(top);
        }
    }
}

impl Walk {
    fn new(alloc: Global, count: usize) -> Result<Walk, NoMemory> {
        let heights = vec![in alloc; 0usize; count]?;
        let tops = vec![in alloc; None; count]?;
        let stretch = Vec::new(alloc);
        Ok(Walk {
            heights,
            tops,
            stretch,
        })
    }

    // A way comes to a place with this height. Gives the greatest height that is known there then.
    fn come(&mut self, to: usize, height: usize) -> Result<u32, NoMemory> {
        if let Some(top) = top_at(&self.tops, to) {
            return Ok(top);
        }
        if to >= self.heights.len() || to >= self.tops.len() {
            return Ok(0);
        }
        let top = short(height);
        self.stretch.push(to)?;
        self.heights[to] = height;
        self.tops[to] = Some(top);
        Ok(top)
    }

    // Finds the ways behind the instruction at a place. Where it takes more than there is nothing leads there: then it finds as many
    // as it takes. Gives its height.
    fn find_on(
        &mut self,
        code: &Code,
        at: usize,
        found: &mut Vec<(usize, usize)>,
    ) -> Result<u32, NoMemory> {
        found.clear();
        let list = &code.list.items;
        if at >= list.len() || at >= self.heights.len() {
            return Ok(0);
        }
        let height = self.heights[at];
        if height >= list.len() {
            return Ok(short(height));
        }
        let does = &list[at].does;
        if find_ways(found, &code.modes, at, does, height)? {
            return Ok(short(height));
        }
        let takes = does.takes().unwrap_or(0);
        if takes < list.len() {
            self.heights[at] = takes;
            let _ = find_ways(found, &code.modes, at, does, takes)?;
        }
        Ok(short(takes))
    }

    // Goes on behind the instruction at a place. Gives the greatest height that is known there and behind it.
    fn go_on(
        &mut self,
        code: &Code,
        at: usize,
        found: &mut Vec<(usize, usize)>,
    ) -> Result<u32, NoMemory> {
        let mut top = self.find_on(code, at, found)?;
        for (to, height) in found.as_slice() {
            top = top.max(self.come(*to, *height)?);
        }
        Ok(top)
    }

    // Goes along all ways from this place, where it has not come there.
    fn begin(
        &mut self,
        code: &Code,
        at: usize,
        found: &mut Vec<(usize, usize)>,
    ) -> Result<(), NoMemory> {
        if top_at(&self.tops, at).is_some() {
            return Ok(());
        }
        self.come(at, 0)?;
        let mut top = 0;
        for next in 0..code.list.items.len() {
            let Some(at) = self.stretch.get(next).copied() else {
                break;
            };
            top = top.max(self.go_on(code, at, found)?);
        }
        set_tops(&mut self.tops, &self.stretch, top);
        self.stretch.clear();
        Ok(())
    }

    // Goes along the ways of all units of parallel clauses.
    fn begin_units(
        &mut self,
        code: &Code,
        found: &mut Vec<(usize, usize)>,
    ) -> Result<(), NoMemory> {
        for instr in &code.list.items {
            if let Does::Fork(places) = &instr.does {
                for at in &places.items {
                    self.begin(code, *at as usize, found)?;
                }
            }
        }
        Ok(())
    }

    /// A walk through the code.
    pub fn through(
        alloc: Global,
        code: &Code,
        found: &mut Vec<(usize, usize)>,
    ) -> Result<Walk, NoMemory> {
        let count = code.list.items.len();
        let mut walk = Walk::new(alloc, count)?;
        walk.begin(code, 0, found)?;
        for text in &code.texts.items {
            walk.begin(code, text.at as usize, found)?;
        }
        walk.begin_units(code, found)?;
        for at in 0..count {
            walk.begin(code, at, found)?;
        }
        Ok(walk)
    }
}
