//! What holds of all frames.
ghost use Rattle.a68_frames.specs.Frames.{WaysAreOne};

/// A law: from each node one way leads to the slot of a definition.
pub fn ways_are_one()
    ensures { WaysAreOne }
{}
