//! The store of a run: cells, frames and the printed text. Each call is one act.
#![tactic(auto)]

mod chains;
mod frame;
mod plans;
mod room;
mod slot;
mod stop;
mod store;
mod weight;

pub use slot::Slot;
pub use stop::StoreStop;
pub use store::Store;
