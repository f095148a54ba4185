//! Where a strand stands, and the instructions that have an operation, each on a strand that stands before it.
#![tactic(auto)]

mod ask;
mod asking;
mod body;
mod instructions;
mod operators;
mod rows;

pub use ask::{Ask, Parameters, PlainReply, Stance, Waiting};
pub use body::{About, Body};
pub use instructions::{
    bind, compose, deref, drop_value, fail, follow, heap, make, nil, print, push, same, select,
    skip, store, tag, unite, whole, yields_plain,
};
pub use operators::apply;
pub use rows::{display, row_up, row_up_name, slice, vacuum, widen};
