//! The tags of the standard environ (Report, 10.2.1 and 10.3; `intwidth`, `longintwidth`, `bitswidth`, `newline`, `space`, `print`, `write`
//! and this form of `whole` are own), by their places.
//!
//! Those before [`NEWLINE`] stand for integers, those before [`PRINT`] for what `print` lays out, those up to [`WHOLE`] are
//! called, and those behind it stand for integers again.

pub const MAXINT: u32 = 0;

pub const INTWIDTH: u32 = 1;

pub const BITSWIDTH: u32 = 2;

pub const MAXABSCHAR: u32 = 3;

pub const NEWLINE: u32 = 4;

pub const SPACE: u32 = 5;

pub const PRINT: u32 = 6;

pub const WRITE: u32 = 7;

pub const WHOLE: u32 = 8;

pub const LONGMAXINT: u32 = 9;

pub const LONGINTWIDTH: u32 = 10;

/// The table of the tags.
pub const TAGS: [(&str, u32); 11] = [
    ("maxint", MAXINT),
    ("intwidth", INTWIDTH),
    ("bitswidth", BITSWIDTH),
    ("maxabschar", MAXABSCHAR),
    ("newline", NEWLINE),
    ("space", SPACE),
    ("print", PRINT),
    ("write", WRITE),
    ("whole", WHOLE),
    ("longmaxint", LONGMAXINT),
    ("longintwidth", LONGINTWIDTH),
];
