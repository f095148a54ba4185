//! The priorities that definitions write.
ghost use Rattle.std.specs.Prelude.{◌≡◌, ◌<◌, ℕ, IfOk, Some, length, slice_get};
ghost use Rattle.a68_ranges.specs.Standard as environ;
ghost use Rattle.a68_ranges.specs.Standard.{AreWritten};

use a68_base::NoMemory;
use a68_tree::{NodeId, Tree};
use std::alloc::Global;

// The number that a digit spells.
fn digit_of(spelling: &[u8]) -> u32
    ensures { result ≡ environ.digit_of spelling.now }
{
    if spelling.is_empty() {
        return 0;
    }
    u32::from(spelling[0].saturating_sub(48))
}

// The priority that a definition writes.
#[tactic(auto, unfolding(crate::specs::Standard::written_priority))]
fn written_priority(tree: &Tree, definition: NodeId) -> u32
    requires { definition < length tree.now.nodes }
    ensures { result ≡ environ.written_priority tree.now definition }
{
    let parts = tree.parts(definition);
    if parts.is_empty() {
        return 0;
    }
    digit_of(tree.spelling(tree.node(parts[0]).name))
}

/// The priority that each node writes, as far as it is a definition of one.
pub fn written_of(alloc: Global, tree: &Tree) -> Result<Vec<u32>, NoMemory>
    ensures { IfOk result (λ written. AreWritten tree.now (length tree.now.nodes) written.items) }
{
    let mut written = Vec::new(alloc);
    for definition in 0..tree.len() {
        written.push(written_priority(tree, definition))?;
    }
    Ok(written)
}
