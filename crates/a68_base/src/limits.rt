//! The limits of a text, of its code and of its run. Each stands here once, for code and definitions alike.

/// The most bytes of a text.
pub const MOST_BYTES: usize = 1_048_576;

/// The most bytes that are read of a text: one more than it may have, so that a longer one is told from it.
pub const MOST_READ: usize = 1_048_577;

/// The most symbols of a text.
pub const MOST_SYMBOLS: u32 = 262_144;

/// The most modes of a program, the standard ones among them.
pub const MOST_MODES: u32 = 16_777_216;

/// The most instructions of a program.
pub const MOST_INSTRUCTIONS: usize = 1_048_576;

/// The most that a store counts: cells, slots, and the values within those that slots are bound to.
pub const MOST_COUNTED: u32 = 4_194_304;

/// The most bytes that a run prints.
pub const MOST_PRINTED: usize = 16_777_216;

/// The most strands of a run, strand 0 among them.
pub const MOST_STRANDS: u32 = 65_536;

/// The events of a run whose words name no fuel.
pub const USUAL_FUEL: u32 = 4_000_000;

/// The most events of a run.
pub const MOST_FUEL: u32 = 16_000_000;
