//! The first rule that a node of a tree breaks, once the modes of its parts and what is asked of them are known (Report, 3.2 to 3.4, 5.2 to 5.4,
//! 6.1 and 7.2).
#![tactic(auto)]

mod first;
mod jump;
mod laws;
mod node;
mod rule;
mod turn;
mod unit;

pub use first::first_broken;
pub use laws::{first_broken_begins_by, first_broken_is_one};
pub use rule::{NodeRule, rule_of};
pub use turn::Broken;
