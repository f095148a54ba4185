//! A strand that is alone goes on by itself: instruction by instruction while plain values alone take part, and by the machine's
//! general way elsewhere.
#![tactic(auto)]

mod alone;
mod asked;
mod calling;
mod quickly;
mod steps;

pub use alone::go_alone;
