//! Frames as the store keeps them.
ghost use Rattle.std.specs.Prelude.{◌≡◌};
ghost use Rattle.a68_store.specs.Frames.{place_in};

/// A frame: the one about it, its scope, and where its slots stand among those of all frames.
#[derive(Clone, Copy)]
pub struct Frame {
    pub outer: u32,
    pub scope: u32,
    /// The place of its first slot.
    pub first: u32,
    /// How many slots it has.
    pub count: u32,
}

/// The place of a slot of a frame among those of all frames; none where there is no such slot.
#[inline(always)]
pub fn place(frames: &[Frame], frame: u32, slot: u32) -> Option<usize>
    ensures { result ≡ place_in frames.now frame slot }
{
    let frame = frames.get(frame as usize)?;
    if slot >= frame.count {
        return None;
    }
    Some(frame.first as usize + slot as usize)
}
