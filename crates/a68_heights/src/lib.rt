//! How many items the activations of a strand that runs valid code have on its stack.
#![tactic(auto)]

mod laws;
mod reach;
mod walk;
mod ways;

pub use laws::{
    activations_fit, runs_keep_their_heights, stacks_keep_their_room, strands_keep_their_heights,
};
pub use reach::find_rooms;
