//! For how many items the activations of small codes have room.
use crate::table::{cut, holds};
use crate::world::valid_code;
use a68_heights::find_rooms;
use std::alloc::Global;
use std::panic::Expect;
use std::process::Abort;

/// Codes: for each of some places the room there, and the instructions. What is told is one more than the greatest height that the
/// ways from the place lead to.
const CASES: &str = "\
0 2, 1 2, 2 2 | Push, Print 1, End
0 4, 3 4, 4 4 | Push, Push, Push, Print 3, End
a deep formula beside a unit of one item: 0 1, 2 2, 5 5 | Fork 2 5, End, Push, Drop, Close, Push, Push, Push, Push, Print 4, Close
the deep formula in the program: 0 5, 8 2 | Push, Push, Push, Push, Print 4, Fork 8 11, End, Skip 0, Push, Drop, Close, Close
in a routine text, beside one of one item: 0 2, 4 4, 10 2, 12 1 | Text 4 1, Text 10 1, Fork 12 12, Push, Drop, End, Push, Push, Push, Print 3, Push, Return, Push, Return, Close
behind a loop: 0 4 | Push, Push, Push, Counter, Step 9, Turn, Push, Drop, Advance 4, Forget, Fork 12 12, End, Close
before a jump back, and behind it: 0 1, 3 4, 7 4 | Fork 3 3, End, Skip 0, Push, Push, Push, Print 3, Goto 3, Close
two labels, of which the later one is come to first: 0 1, 2 4, 3 4, 8 4 | Fork 2 2, End, Jump 8, Push, Push, Push, Print 3, Close, Goto 3, Close
a part to which nothing leads: 0 1, 2 2, 6 2 | Fork 2 2, End, Push, Drop, Jump 7, Push, Drop, Close";

// Has an activation room for so many items at a place, as a word tells: the place and how many.
fn has_room(rt: &impl Abort, alloc: Global, ops: &str, told: &str, case: &str) {
    let code = valid_code(rt, alloc, ops);
    let rooms = find_rooms(alloc, &code).expect(rt, "memory");
    let (at, room) = cut(rt, told, " ");
    let at = at.parse::<usize>().expect(rt, "a place");
    let room = room.parse::<usize>().expect(rt, "a number of items");
    holds(rt, rooms.at(at) == room, case);
    drop(rooms);
    drop(code);
}

#[test]
fn activations_have_room_for_their_own_stretch(rt: HostRuntime) {
    let alloc = rt.alloc();
    for case in CASES.lines() {
        let (told, ops) = cut(&rt, case, " | ");
        let told = told.rsplit_once(": ").map_or(told, |parts| parts.1);
        for room in told.split(", ") {
            has_room(&rt, alloc, ops, room, case);
        }
    }
}
