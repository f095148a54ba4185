//! What spellings are in the standard environ: its tags, and the priorities of its signs.
ghost use Rattle.std.specs.Prelude.{◌≡◌, ◌<◌, ℕ, IfOk, length, map, slice_get};
ghost use Rattle.std.specs.Option.{option_and_then};
ghost use Rattle.a68_ranges.specs.Standard as environ;
ghost use Rattle.a68_ranges.specs.Standard.{spelled};

use crate::tags::TAGS;
use a68_base::{NoMemory, find};
use a68_signs::priority_of;
use a68_tree::{NodeId, Tree};
use std::alloc::Global;

/// What a spelling is in the standard environ: a tag, by its place among the tags, and a sign, by its priority.
#[derive(Clone, Copy)]
pub struct Standard {
    pub tag: Option<u32>,
    pub priority: Option<u32>,
}

// What a spelling is in the standard environ.
#[tactic(auto, unfolding(crate::specs::Standard::standard_tags))]
fn standard_of(spelling: &[u8]) -> Standard
    ensures { result ≡ environ.standard_of spelling.now }
{
    Standard {
        tag: find(&TAGS, spelling),
        priority: priority_of(spelling),
    }
}

/// What each name is in the standard environ.
pub fn standard_names(alloc: Global, tree: &Tree) -> Result<Vec<Standard>, NoMemory>
    ensures { IfOk result (λ names. names.items ≡ map environ.standard_of tree.now.spellings) }
{
    let count = tree.names();
    if count > u32::MAX as usize {
        return Err(NoMemory);
    }
    let mut names = Vec::new(alloc);
    for name in 0..count {
        names.push(standard_of(tree.spelling(name as u32)))?;
    }
    Ok(names)
}
