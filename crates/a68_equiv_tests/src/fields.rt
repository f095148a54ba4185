//! The fields of structures by their tags, by hand.
use crate::nodes::modes_of;
use crate::table::holds;
use a68_fields::{Field, FieldTable};
use std::panic::Expect;

/// 15 a structure of INT, BOOL and CHAR, whose first and last field have one tag; 16 its name; 17 a structure of BOOL.
const DECLARED: &str = "\
STRUCT 5 1 7 2 5 3
REF 15
STRUCT 5 2
";

/// A structure, a tag, and the place and the mode of the field.
const FIELDS: &[(u32, u32, usize, u32)] = &[(15, 5, 0, 1), (15, 7, 1, 2), (17, 5, 0, 2)];

/// A mode, and a tag of which it has no field.
const LACKING: &[(u32, u32)] = &[(15, 6), (16, 5), (17, 7), (1, 5), (5, 15), (101, 5)];

#[test]
fn fields_are_found_by_their_tags(rt: HostRuntime) {
    let modes = modes_of(&rt, rt.alloc(), DECLARED);
    let table = FieldTable::of(rt.alloc(), &modes).expect(&rt, "memory");
    for (node, tag, place, mode) in FIELDS {
        let field = Field {
            place: *place,
            mode: *mode,
        };
        holds(&rt, table.find(*node, *tag) == Some(field), "a field");
    }
    for (node, tag) in LACKING {
        holds(&rt, table.find(*node, *tag).is_none(), "no field");
    }
    drop(table);
    drop(modes);
}
