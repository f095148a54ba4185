//! Which codes the machine runs.
use crate::codes::code_of;
use crate::table::{agrees, cut};
use std::alloc::Global;
use std::panic::Expect;
use std::process::Abort;

/// Codes: + where the machine runs it, what is to be seen in it, and its instructions. Push pushes an INT. The modes
/// are the standard ones: 0 VOID, 1 INT, 6 layout, 7 `[] CHAR`, 8 a union of seven, 9 REF INT; there are 15.
const CASES: &str = "\
+ BEGIN INT x := 5; print(x) END | Enter 1, Make 1 0, Push 5, Store 1, Bind 0, Tag 0 0, Deref 1, Print 1, Leave 0, End
- nothing |
+ SKIP | End
- a landing outside | Jump 2, End
+ a landing inside | Jump 1, End
- a landing outside, not reached | End, Jump 2
- a way past the end | Push, Drop
+ no way past the end | End, Push
- a way past the end behind a condition | Push, Unless 2, Skip 0
- a jump to itself | Jump 0
- a jump backwards | Jump 2, End, Jump 1
- a condition that goes backwards | Jump 2, End, Push, Unless 1, End
+ the same forwards | Jump 2, End, Push, Unless 4, End
- a value too few | Drop, End
+ a value too few, not reached | End, Drop, End
- a name and no value | Push, Store 1, Drop, End
- an item too few | Push, Print 2, End
- two values for a counter | Push, Push, Counter, Forget, End
+ a condition | Push, Unless 4, Push, Jump 5, Push, Drop, End
- two heights | Push, Unless 3, Push, End
+ one height | Push, Unless 4, Push, Drop, End
+ a loop | Push, Push, Push, Counter, Step 10, Turn, Push, Drop, Advance 4, Jump 10, Forget, End
+ its end comes first to its Step | Push, Push, Push, Counter, Jump 7, Step 9, Turn, Advance 5, Jump 9, Forget, End
- the end lands at no Step | Push, Push, Push, Counter, Step 10, Turn, Push, Drop, Advance 5, Jump 10, Forget, End
+ a Turn behind the Step | Push, Push, Push, Counter, Step 9, Turn, Push, Drop, Advance 4, Forget, End
- no Turn behind the Step | Push, Push, Push, Counter, Step 9, Jump 6, Push, Drop, Advance 4, Forget, End
+ the Step lands behind | Push, Push, Push, Counter, Step 9, Turn, Jump 8, Jump 9, Advance 4, Forget, End
- the Step lands before | Push, Push, Push, Counter, Step 7, Turn, Jump 8, Jump 9, Advance 4, Forget, End
- the Step lands at the end itself | Push, Push, Push, Counter, Step 8, Turn, Jump 8, Jump 9, Advance 4, Forget, End
- the end goes forwards | Push, Push, Push, Counter, Advance 6, Jump 8, Step 8, Turn, Forget, End
+ a Step forwards | Push, Push, Push, Counter, Jump 6, Jump 8, Step 8, Jump 8, Forget, End
- a Step backwards | Push, Push, Push, Counter, Jump 6, Jump 8, Step 5, Jump 8, Forget, End
+ a loop with frames | Push, Push, Push, Counter, Step 15, Turn, Enter 1, Index, Bind 0, Push, Unless 14, Leave 0, Advance 4, Jump 15, Leave 0, Forget, End
- a count of no counter | Index, Drop, Drop, End
- a turn that leaves a value | Push, Push, Push, Counter, Step 8, Turn, Push, Advance 4, Forget, End
+ a jump to a label | Goto 1, End
+ a jump to a label before it | Skip 0, Goto 0, End
+ a jump to itself as to a label | Goto 0, End
- a label outside | Goto 9, End
- a way on behind a jump to a label passes the end | Goto 0
- a way past the end by a jump to a label | Goto 2, End, Skip 0
- more values are kept than are there | Goto 1 0 1, End
+ as many values are kept as are there | Push, Goto 2 0 1, Drop, End
- a label finds fewer values than a way on behind the jump | Push, Goto 2 0 0 1, Drop, End
- a label finds fewer values than it takes | Jump 4, Drop, End, End, Push, Goto 1 0 0, Drop, End
+ a label finds what is kept | Jump 4, Drop, End, End, Push, Goto 1 0 1, Drop, End
+ a way on behind a jump to a label has a value more | Goto 3 0 0 1, Drop, End, End
- it has none more | Goto 3 0 0 0, Drop, End, End
+ it has a value more above those that are cut off | Push, Goto 4 0 0 1, Drop, Drop, End
- a unit jumps to the end of the program | Fork 2 4, End, Goto 1, Close, Close
- a jump to a label brings two heights to its place | Push, Unless 4, Push, Goto 5 0 1, Goto 5, End
+ SKIP of VOID | Skip 0, End
- SKIP of VOID leaves nothing | Skip 0, Drop, End
+ SKIP of INT | Skip 1, Drop, End
+ SKIP of REF INT | Skip 9, Drop, End
+ SKIP of layout | Skip 6, Drop, End
+ SKIP of a row | Skip 7, Drop, End
+ SKIP of a union | Skip 8, Drop, End
- a mode that is not there | Skip 15, Drop, End
+ a cell of INT | Make 1 0, Drop, End
+ a cell of VOID | Make 0 0, Drop, End
+ a cell with a bound | Push, Make 1 1, Drop, End
- a bound that is not there | Make 1 1, Drop, End
+ a row is fetched | Push, Deref 7, Drop, End
- a mode that is not there is fetched | Push, Deref 15, Drop, End
+ a row is assigned | Push, Push, Store 7, Drop, End
- a mode that is not there is assigned | Push, Push, Store 15, Drop, End
+ a cell of INT that stays | Heap 1 0, Drop, End
+ a cell of a row that stays | Heap 7 0, Drop, End
- a cell of a mode that is not there | Make 15 0, Drop, End
- a cell that stays of a mode that is not there | Heap 15 0, Drop, End
+ whether two names are the same | Nil, Nil, Same 1, Drop, End
- a relation of one name | Nil, Same 0, Drop, End
- a relation negated twice | Nil, Nil, Same 2, Drop, End
+ a structure | Push, Push, Compose 2, Drop, End
- a field too few | Push, Compose 2, Drop, End
- a structure without a field | Compose 0, Drop, End
- a structure leaves one value | Push, Push, Compose 2, Drop, Drop, End
+ a field is selected | Push, Select 12 1, Drop, End
- a field of a mode that is not there | Push, Select 15 0, Drop, End
- a field of nothing | Select 12 0, Drop, End
+ a number as a text | Push, Push, Whole, Drop, End
+ an item of a union | Push, Unite 1, Print 1, End
+ a value is kept | Enter 0, Push, Leave 1, Drop, End
+ no value is kept | Enter 0, Push, Drop, Leave 0, End
- two values are kept | Enter 0, Push, Push, Leave 2, Drop, Drop, End
- row 0 | Push, Push, Apply 0, Drop, End
+ row 1 | Push, Push, Apply 1, Drop, End
+ row 5 | Push, Push, Apply 5, Drop, End
- row 5 on one value | Push, Apply 5, Drop, End
+ row 6 | Push, Push, Apply 6, Drop, End
+ row 7 | Push, Push, Apply 7, Drop, End
+ row 23 | Push, Push, Apply 23, Drop, End
+ row 24 | Push, Push, Apply 24, Drop, End
+ row 26 | Push, Apply 26, Drop, End
- row 26 on nothing | Apply 26, Drop, End
+ row 33 | Push, Apply 33, Drop, End
+ row 34 | Push, Apply 34, Drop, End
+ row 35 leaves nothing | Push, Apply 35, End
+ row 40 | Push, Apply 40, Drop, End
+ row 39 | Push, Apply 39, Drop, End
- row 41 | Push, Apply 41, Drop, End
+ a limit's own step | Push, Push, Push, Apply 26, Counter, Step 9, Turn, Advance 5, Jump 9, Forget, End
+ a choice by a number | Push, Case 2 4 6, Skip 0, Jump 6, Skip 0, Jump 6, End
+ one part for every number | Push, Case 2, End
- a choice by no number | Case 1, End
- a part outside | Push, Case 2 9, End
- a part at the choice itself | Push, Case 1 2, End
- a part before the choice | Skip 0, Push, Case 0 3, End
- two parts of two heights | Push, Case 2 3, Push, End
+ two parts of one height | Push, Case 2 4, Push, Jump 5, Push, Drop, End
+ a choice by a member | Push, Unite 1, Member 8 3 5 5 5 5 5 5 5, Drop, Jump 5, End
- no value is left at the last place | Push, Unite 1, Member 8 3 5 5 5 5 5 5 5, Drop, Jump 5, Drop, End
- the value of a member is left | Push, Unite 1, Member 8 3 5 5 5 5 5 5 5, Skip 0, Jump 5, End
+ one place for all members | Push, Member 8 2 2 2 2 2 2 2 2, End
- a choice by a member of nothing | Member 8 1 1 1 1 1 1 1 1, End
- a choice by a member of a mode that is not there | Push, Member 15 2, End
- a member's part outside | Push, Member 8 2 9 2 2 2 2 2 2, End
- a member's part at the choice itself | Push, Member 8 1 2 2 2 2 2 2 2, End
- a place too few for the members | Push, Excess 8 2 2 2 2 2 2 2, End
- a place too many, and no member for it | Push, Member 8 2 2 2 2 2 2 2 2 2, End
- a member too many is told of | Push, Excess 8 2 2 2 2 2 2 2 2, End
+ one place for a mode that is no union | Push, Member 1 2, End
- two places for a mode that is no union | Push, Member 1 2 2, End
- a member of a mode that is no union is told of | Push, Excess 1 2, End
+ nothing is printed | Print 0, End
+ a routine that yields | Text 4 1, Routine 0 -, Call 0 1, Drop, End, Push 5, Return
- it yields where its entrance says it does not | Text 4 0, Routine 0 -, Call 0 1, Drop, End, Push 5, Return
+ a routine that yields nothing | Text 3 0, Routine 0 -, Call 0 0, End, Skip 0, Return
- it yields nothing where its entrance says it does | Text 3 1, Routine 0 -, Call 0 0, End, Skip 0, Return
- a way of a routine text meets End | Text 3 0, Routine 0 -, Call 0 0, End, Skip 0, End
- a way of a routine text passes the end | Text 3 0, Routine 0 -, Call 0 0, End, Skip 0
- the program meets Return | Return
- the program goes on into a routine text | Text 1 0, Skip 0, Return
+ a routine text that nobody calls | Text 1 0, End, Return
- an entrance outside | Text 9 0, End
- no such routine text | Routine 0 -, Drop, End
- a call with a parameter too few | Text 3 0, Routine 0 -, Call 1 0, End, Return
+ a call with its parameter | Text 4 0, Routine 0 0, Push 5, Call 1 0, End, Return
- a body that takes from its caller | Text 5 0, Push 5, Routine 0 -, Call 0 0, Drop, End, Drop, Return
- two texts of one body, one of which yields | Text 2 0, Text 2 1, Skip 0, End, Return
+ two texts of one body | Text 2 0, Text 2 0, Skip 0, End, Return
+ two units | Fork 2 4, End, Skip 0, Close, Skip 0, Close
+ two units of one place | Fork 2 2, End, Close
- one unit | Fork 2, End, Close
- a unit outside | Fork 2 9, End, Close
- a unit at the Fork itself | Fork 0 2, End, Close
+ a unit before its Fork | Jump 2, Close, Fork 1 4, End, Close
+ the same behind | Jump 2, Close, Fork 4 4, End, Close
- a way of a unit meets End | Fork 2 3, End, End, Close
- a way of a unit meets Return | Fork 2 3, End, Return, Close
- a way of a unit passes the end | Fork 2 3, End, Close, Skip 0
- a unit leaves a value | Fork 2 4, End, Push, Close, Close
+ a unit drops its value | Fork 2 5, End, Push, Drop, Close, Close
- a unit takes from its clause | Push, Fork 4 5, Drop, End, Drop, Close
+ a value below a parallel clause | Push, Fork 4 5, Drop, End, Close, Close
- a parallel clause leaves no value | Fork 3 4, Drop, End, Close, Close
- the program meets Close | Close
- the program goes on into a unit | Fork 1 2, Skip 0, Close
- a way of a routine text meets Close | Text 3 0, Routine 0 -, Call 0 0, End, Close
+ a parallel clause in a unit | Fork 2 3, End, Close, Fork 5 6, Close, Close, Close
+ a parallel clause in a routine text | Text 3 0, Routine 0 -, Call 0 0, End, Fork 5 6, Return, Close, Close
- a unit of a Fork that is not reached meets End | End, Fork 2 3, End, Close
+ a loop in a unit | Fork 2 11, End, Push, Push, Push, Counter, Step 9, Turn, Advance 6, Forget, Close, Close
";

// The sign of the code of these instructions: + where a copy of it is valid.
fn sign_of(rt: &impl Abort, alloc: Global, ops: &str) -> &'static str {
    let code = code_of(alloc, ops).expect(rt, "a code");
    let copy = code.copy(alloc).expect(rt, "memory");
    let valid = copy.valid(alloc).expect(rt, "memory");
    drop(copy);
    drop(code);
    if valid { "+" } else { "-" }
}

#[test]
fn valid_codes_and_others(rt: HostRuntime) {
    let alloc = rt.alloc();
    for line in CASES.lines() {
        let (sign, case) = cut(&rt, line, " ");
        let (what, ops) = cut(&rt, case, "|");
        agrees(&rt, sign_of(&rt, alloc, ops), sign, what);
    }
}
