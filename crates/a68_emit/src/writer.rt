//! Writing instructions.
use a68_base::Stop;
use a68_builder::Builder;

/// The instructions that are written so far. Once one more was wanted than there may be, or memory ran out, it has
/// stopped: it keeps why, and nothing more is written.
#[derive(Drop)]
pub struct Writer {
    pub list: Builder,
    pub stop: Option<Stop>,
}
