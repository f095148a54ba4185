//! What operations do with the values of their parts, and with the replies to their acts.
#![tactic(auto)]

mod members;
mod operations;

pub use members::member_of;
pub use operations::{
    advanced, applied, applied_to_one, applied_to_two, case_of, counter_of, has_turn, is_update,
    made, making, print_next, related, resumed, routine, united, updating, whole_of,
};
