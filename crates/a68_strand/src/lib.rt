//! A strand of a run: it runs its silent instructions up to its next act, asks for that, and goes on with the reply.
#![tactic(auto)]

mod acts;
mod calls;
mod plainly;
mod strand;

pub use acts::act;
pub use calls::show_done;
pub use plainly::act_plain;
pub use strand::Strand;
