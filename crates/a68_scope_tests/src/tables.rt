//! The tags of the standard environ, as the language pages list them: the definitions cite their table, so a slip in a row would be
//! one in the statement too.

use crate::table::holds;
use a68_base::find;
use a68_ranges::tags::{self, TAGS};

// Tags by what they stand for: integers, what `print` lays out, and what is called.
const LISTED: &[(&str, u32)] = &[
    ("maxint", tags::MAXINT),
    ("intwidth", tags::INTWIDTH),
    ("bitswidth", tags::BITSWIDTH),
    ("maxabschar", tags::MAXABSCHAR),
    ("newline", tags::NEWLINE),
    ("space", tags::SPACE),
    ("print", tags::PRINT),
    ("write", tags::WRITE),
    ("whole", tags::WHOLE),
    ("longmaxint", tags::LONGMAXINT),
    ("longintwidth", tags::LONGINTWIDTH),
];

#[test]
fn tags_are_those_of_the_pages(rt: HostRuntime) {
    for (place, (tag, number)) in LISTED.iter().enumerate() {
        holds(&rt, find(&TAGS, tag.as_bytes()) == Some(*number), tag);
        holds(&rt, *number as usize == place, "each has its own number");
    }
    holds(&rt, LISTED.len() == TAGS.len(), "no other tag");
}
