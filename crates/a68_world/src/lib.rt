//! A run: the store and its strands, joined by the journal of their acts.
#![tactic(auto)]

mod alone;
mod calls;
mod deed;
mod kin;
mod leases;
mod passed;
mod resting;
mod seat;
mod status;
mod stepping;
mod turned;
mod turning;
mod units;
mod waking;
mod world;

pub use status::StrandState;
pub use turned::Turned;
pub use world::World;
