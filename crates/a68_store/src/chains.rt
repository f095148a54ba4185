//! Chains of frames, by the links from each frame to the one about it.
ghost use Rattle.std.specs.Prelude.{◌≡◌, ◌<◌, ◌≤◌, ◌∷◌, [], Some, length, slice_get, IfOk};
ghost use Rattle.a68_acts.specs.Store.{chain_of};
ghost use Rattle.a68_store.specs.Frames.{frame_of, links_of, AreLinked};

use crate::frame::Frame;
use a68_base::NoMemory;
use a68_values::{Chain, Environ};
use std::alloc::Global;

// A frame that is there.
#[inline(always)]
fn frame_at(frames: &[Frame], at: u32) -> Frame
    requires { at < length frames.now }
    ensures { slice_get (links_of frames.now) at ≡ Some (frame_of [] result) }
{
    frames[at as usize]
}

// How many frames stand about one.
fn frames_about(frames: &[Frame], inner: u32) -> usize
    requires there { inner < length frames.now }
    requires linked { AreLinked (links_of frames.now) }
    ensures few { result ≤ inner }
{
    let mut at = inner;
    let mut count: usize = 0;
    while at != 0 {
        at = frame_at(frames, at).outer;
        count += 1;
    }
    count
}

/// The chain of a new frame, which stands within an outer one.
pub fn chain_behind(
    alloc: Global,
    new: Environ,
    frames: &[Frame],
    outer: u32,
) -> Result<Chain, NoMemory>
    requires there { outer < length frames.now }
    requires linked { AreLinked (links_of frames.now) }
    ensures { IfOk result (λ chain. chain ≡ new ∷ chain_of (links_of frames.now) outer) }
{
    let mut items = Vec::with_capacity(alloc, frames_about(frames, outer) + 2)?;
    items.push(new)?;
    let mut at = outer;
    loop {
        let frame = frame_at(frames, at);
        items.push(Environ {
            frame: at,
            scope: frame.scope,
        })?;
        if at == 0 {
            break;
        }
        at = frame.outer;
    }
    Ok(Chain::outwards(items))
}
