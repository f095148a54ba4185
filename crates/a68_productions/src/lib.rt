//! What each goal is made of: clauses, choices and loops, on the goals of units and declarations.
#![tactic(auto)]

mod choices;
mod clauses;
mod expansion;

pub use expansion::expand;
