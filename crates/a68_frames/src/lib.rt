//! Frames: the slots of definitions, the way to them, and what routine texts use from outside (own; Report, 2.1.1.3 and 7.2.2).
#![tactic(auto)]

mod build;
mod chain;
mod laws;
mod map;
mod needs;
mod outlook;
mod reading;
mod slots;
mod ways;

pub use build::frames;
pub use laws::ways_are_one;
pub use map::FrameMap;
pub use reading::has_slot;
