//! The instructions of texts, by hand from what each construct becomes: the byte for which an instruction stands, its name and
//! its numbers.
use crate::table::{cut, holds, number};
use a68_check::annotate;
use a68_code::{Does, Instr, values_of_trims};
use a68_gen::generate;
use a68_layout::TrimForm;
use a68_parse::{parse, symbols_are_bounded};
use a68_symbols::symbols;
use a68_tree::Tree;
use a68_values::{Plain, Value, ValueNode};
use a68_words::words;
use std::alloc::Global;
use std::panic::Expect;
use std::process::Abort;

/// A text, and its instructions with semicolons between. Numbers that are 0 behind the last that is not are left out.
const LISTINGS: &[(&str, &str)] = &[
    // An identity, and an item that is united.
    (
        "( INT n = 3; print(n) )",
        "2 Enter 1;10 Push 3;6 Bind;19 Tag;19 Unite 1;13 Print 1;2 Leave;0 End",
    ),
    // A variable, whose value the formula takes; what the assignation yields is dropped.
    (
        "( INT x := 1; x := x + 2 )",
        "2 Enter 1;6 Make 1;11 Push 1;6 Store 1;6 Bind;14 Tag;19 Tag;19 Deref 1;23 Push 2;19 Apply 15;14 Store 1;14 Drop;2 Leave;0 End",
    ),
    // An operator that is combined with assignation, on a name that is not dereferenced.
    (
        "( INT x := 1; x +:= 2 )",
        "2 Enter 1;6 Make 1;11 Push 1;6 Store 1;6 Bind;14 Tag;20 Push 2;14 Apply 1;14 Drop;2 Leave;0 End",
    ),
    // A name in the heap, which is compared with itself.
    (
        "( REF INT p = HEAP INT := 5; print(p IS p) )",
        "2 Enter 1;14 Heap 1;26 Push 5;14 Store 1;10 Bind;35 Tag;40 Tag;35 Same;35 Unite 2;29 Print 1;2 Leave;0 End",
    ),
    (
        "( REF INT p = HEAP INT; print(p ISNT p) )",
        "2 Enter 1;14 Heap 1;10 Bind;30 Tag;37 Tag;30 Same 1;30 Unite 2;24 Print 1;2 Leave;0 End",
    ),
    // Each part of a choice is coerced by itself.
    (
        "( print((TRUE | 1 | 2)) )",
        "9 Truth 1;8 Unless 5;16 Push 1;16 Unite 1;8 Jump 7;20 Push 2;20 Unite 1;2 Print 1;0 End",
    ),
    // A choice without its other part does nothing else, by a skip of VOID.
    (
        "( (TRUE | print(1)) )",
        "3 Truth 1;2 Unless 6;16 Push 1;16 Unite 1;10 Print 1;2 Jump 7;2 Skip;0 End",
    ),
    // A tag of an outer range, so many frames outwards.
    (
        "( INT i = 1; ( INT k = i; SKIP ) )",
        "2 Enter 1;10 Push 1;6 Bind;15 Enter 1;23 Tag 1;19 Bind;26 Skip;15 Leave;2 Leave;0 End",
    ),
    // The inner one of two definitions counts, in its own source too.
    (
        "( INT i = 1; ( INT i = i; SKIP ); SKIP )",
        "2 Enter 1;10 Push 1;6 Bind;15 Enter 1;23 Tag;19 Bind;26 Skip;15 Leave;34 Skip;2 Leave;0 End",
    ),
    // A loop that counts up to a limit: with FOR each turn has a frame.
    (
        "( FOR i TO 3 DO print(i) OD )",
        "2 Push 1;2 Push 1;11 Push 3;2 Apply 26;2 Counter;2 Step 17;2 Turn;2 Enter 1;2 Index;2 Bind;22 Tag;22 Unite 1;16 Print 1;2 Leave;2 Advance 5;2 Jump 17;2 Leave;2 Forget;0 End",
    ),
    // Without TO there is no limit, and WHILE ends the loop.
    (
        "( WHILE FALSE DO SKIP OD )",
        "2 Push 1;2 Push 1;2 Skip 1;2 Counter;2 Step 11;2 Turn;8 Truth;2 Unless 11;17 Skip;2 Advance 4;2 Jump 11;2 Forget;0 End",
    ),
    // The items of print, each united.
    (
        "( print((1, TRUE)) )",
        "9 Push 1;9 Unite 1;12 Truth 1;12 Unite 2;2 Print 2;0 End",
    ),
    // A number as a text.
    (
        "( print(whole(5, 3)) )",
        "14 Push 5;14 Unite 1;17 Push 3;8 Whole;8 Unite 7;2 Print 1;0 End",
    ),
    // A cast whose value is dropped; units at any time.
    ("( REF INT (NIL) )", "11 Nil;2 Drop;0 End"),
    ("( (SKIP, SKIP); SKIP )", "3 Skip;9 Skip;16 Skip;0 End"),
    // What an enquiry declares holds in the parts too: the frame is left behind both.
    (
        "( IF INT i = 1; i = 2 THEN print(i) FI )",
        "5 Enter 1;13 Push 1;9 Bind;16 Tag;20 Push 2;16 Apply 9;2 Unless 11;33 Tag;33 Unite 1;27 Print 1;2 Jump 12;2 Skip;2 Leave;0 End",
    ),
    // A frame that is left with the value that was chosen.
    (
        "( print((INT i = 1; i > 0 | i | 0)) )",
        "9 Enter 1;17 Push 1;13 Bind;20 Tag;24 Push;20 Apply 14;8 Unless 10;28 Tag;28 Unite 1;8 Jump 12;32 Push;32 Unite 1;8 Leave 1;2 Print 1;0 End",
    ),
    // A chain of choices, whose jumps all come to its end.
    (
        "( IF FALSE THEN print(1) ELIF TRUE THEN print(2) ELSE print(3) FI )",
        "5 Truth;2 Unless 6;22 Push 1;22 Unite 1;16 Print 1;2 Jump 15;30 Truth 1;25 Unless 12;46 Push 2;46 Unite 1;40 Print 1;25 Jump 15;60 Push 3;60 Unite 1;54 Print 1;0 End",
    ),
    // In a chain a choice whose enquiry declares is left before the ends of those about it.
    (
        "( IF FALSE THEN SKIP ELIF BOOL b = TRUE; b THEN SKIP ELSE print(b) FI )",
        "5 Truth;2 Unless 4;16 Skip;2 Jump 15;26 Enter 1;35 Truth 1;31 Bind;41 Tag;21 Unless 11;48 Skip;21 Jump 14;64 Tag;64 Unite 2;58 Print 1;21 Leave;0 End",
    ),
    // A choice by a number; without a part for no number it does nothing else, by a skip of VOID.
    (
        "( CASE 2 IN print(1), print(2) ESAC )",
        "7 Push 2;2 Case 2 6 10;18 Push 1;18 Unite 1;12 Print 1;2 Jump 11;28 Push 2;28 Unite 1;22 Print 1;2 Jump 11;2 Skip;0 End",
    ),
    // The part behind OUT is the last place.
    (
        "( print(CASE 3 IN 1, 2 OUT 0 ESAC) )",
        "13 Push 3;8 Case 2 5 8;18 Push 1;18 Unite 1;8 Jump 10;21 Push 2;21 Unite 1;8 Jump 10;27 Push;27 Unite 1;2 Print 1;0 End",
    ),
    // A number that an enquiry declares, in the first part.
    (
        "( CASE INT n = 2; n IN print(n), SKIP ESAC )",
        "7 Enter 1;15 Push 2;11 Bind;18 Tag;2 Case 5 9 11;29 Tag;29 Unite 1;23 Print 1;2 Jump 12;33 Skip;2 Jump 12;2 Skip;2 Leave;0 End",
    ),
    // OUSE is a choice within the last place.
    (
        "( CASE 1 IN print(1), print(2) OUSE 2 IN print(3), print(4) ESAC )",
        "7 Push 1;2 Case 2 6 10;18 Push 1;18 Unite 1;12 Print 1;2 Jump 21;28 Push 2;28 Unite 1;22 Print 1;2 Jump 21;36 Push 2;31 Case 12 16 20;47 Push 3;47 Unite 1;41 Print 1;31 Jump 21;57 Push 4;57 Unite 1;51 Print 1;31 Jump 21;31 Skip;0 End",
    ),
    // A structure, whose second field is selected; its mode is the first that the text adds to those of the standard environ.
    (
        "( STRUCT (INT a, b) s = (1, 2); print(b OF s) )",
        "2 Enter 1;25 Push 1;28 Push 2;24 Compose 2;20 Bind;43 Tag;38 Select 15 1;38 Unite 1;32 Print 1;2 Leave;0 End",
    ),
    // A row: a lower bound that is left out is 1. A slice tells how many indexes and how many units it has.
    (
        "( [3] INT a; a[2] := 5; print(a[1]) )",
        "2 Enter 1;10 Push 1;3 Push 3;10 Make 15 2;10 Bind;13 Tag;15 Push 2;13 Slice 1 1;21 Push 5;13 Store 1;13 Drop;30 Tag;32 Push 1;30 Slice 1 1;30 Deref 1;30 Unite 1;24 Print 1;2 Leave;0 End",
    ),
    // A subscript and a trimmer with all its units.
    (
        "( [2, 0 : 1] INT a; a[1, 0 : 1 AT 3]; SKIP )",
        "2 Enter 1;17 Push 1;3 Push 2;6 Push;10 Push 1;17 Make 15 4;17 Bind;20 Tag;22 Push 1;25 Push;29 Push 1;34 Push 3;20 Slice 2 4;20 Drop;38 Skip;2 Leave;0 End",
    ),
    // A display, a row without elements, and a value that becomes a row of itself.
    (
        "( [] INT v = (1, 2); print(v[2]) )",
        "2 Enter 1;14 Push 1;17 Push 2;13 Display 2 15;9 Bind;27 Tag;29 Push 2;27 Slice 1 1;27 Unite 1;21 Print 1;2 Leave;0 End",
    ),
    (
        "( [] INT v = (); SKIP )",
        "2 Enter 1;13 Vacuum 15;9 Bind;17 Skip;2 Leave;0 End",
    ),
    (
        "( [] INT v = 7; SKIP )",
        "2 Enter 1;13 Push 7;13 RowUp 15;9 Bind;16 Skip;2 Leave;0 End",
    ),
    // A value that becomes a row of two dimensions by way of a row of one, which stands behind all other modes.
    (
        "( [,] INT a = 3; print(a[1,1]) )",
        "2 Enter 1;14 Push 3;14 RowUp 16;14 RowUp 15;10 Bind;23 Tag;25 Push 1;27 Push 1;23 Slice 2 2;23 Unite 1;17 Print 1;2 Leave;0 End",
    ),
    // Bounds of fields, those of STRING among them.
    (
        "( STRUCT ([2] INT a, STRING b) s; SKIP )",
        "2 Enter 1;31 Push 1;11 Push 2;31 Push 1;31 Push;31 Make 15 4;31 Bind;34 Skip;2 Leave;0 End",
    ),
    // A name becomes that of a row.
    (
        "( INT x := 1; REF [] INT r = x; SKIP )",
        "2 Enter 2;6 Make 1;11 Push 1;6 Store 1;6 Bind;29 Tag;29 RowUpName 15;25 Bind 1;32 Skip;2 Leave;0 End",
    ),
    // Bits become a row of truth values.
    (
        "( BITS b = 16r1; [] BOOL c = b; SKIP )",
        "2 Enter 2;11 another;7 Bind;29 Tag;29 Widen;25 Bind 1;32 Skip;2 Leave;0 End",
    ),
];

/// Parallel clauses: each Fork names the places where its units begin, which stand behind the program in order of text.
const PARALLEL_LISTINGS: &[(&str, &str)] = &[
    // Each unit ends in the Close of its clause.
    (
        "( PAR (print(1), print(2)) )",
        "2 Fork 2 6;0 End;13 Push 1;13 Unite 1;7 Print 1;2 Close;23 Push 2;23 Unite 1;17 Print 1;2 Close",
    ),
    // Units apply what is declared about the clause, and drop what they yield.
    (
        "( INT x := 1; PAR (x := 2, print(x)) )",
        "2 Enter 1;6 Make 1;11 Push 1;6 Store 1;6 Bind;14 Fork 8 13;2 Leave;0 End;19 Tag;24 Push 2;19 Store 1;19 Drop;14 Close;33 Tag;33 Deref 1;33 Unite 1;27 Print 1;14 Close",
    ),
    // A clause in a routine text, whose body stands before the units in it.
    (
        "( PROC p = VOID: PAR (SKIP, SKIP); p )",
        "2 Enter 1;11 Routine;7 Bind;35 Tag;35 Call;2 Leave;0 End;17 Fork 9 11;11 Return;22 Skip;17 Close;28 Skip;17 Close",
    ),
    // A clause that is a unit of another one: its own units stand between those of the outer one.
    (
        "( PAR (PAR (SKIP, SKIP), SKIP) )",
        "2 Fork 2 8;0 End;7 Fork 4 6;2 Close;12 Skip;7 Close;18 Skip;7 Close;25 Skip;2 Close",
    ),
    // A unit that is a routine text, which is called since VOID is asked of it, stands before the body of that.
    (
        "( PAR (VOID: SKIP, SKIP) )",
        "2 Fork 2 7;0 End;7 Routine;7 Call;2 Close;13 Skip;7 Return;19 Skip;2 Close",
    ),
];

/// The tree of a text.
pub fn tree_of(rt: &impl Abort, alloc: Global, text: &str) -> Tree {
    let found = symbols(alloc, text.as_bytes()).expect(rt, "symbols");
    let classes = words(alloc, &found).expect(rt, "classes");
    symbols_are_bounded();
    let tree = parse(alloc, &found, &classes, text.len() as u32);
    drop(classes);
    drop(found);
    tree.expect(rt, text)
}

// Names a constant, with its number.
fn constant(value: &Value) -> (&'static str, u32, u32) {
    match value.node {
        ValueNode::Plain(Plain::Int(number)) => ("Push", u32::try_from(number).unwrap_or(0), 0),
        ValueNode::Plain(Plain::Bool(truth)) => ("Truth", u32::from(truth), 0),
        _ => ("another", 0, 0),
    }
}

// Names a slice, with the numbers of its indexes and of their units.
fn sliced(forms: &[TrimForm]) -> (&'static str, u32, u32) {
    let units = values_of_trims(forms).unwrap_or(0);
    (
        "Slice",
        u32::try_from(forms.len()).unwrap_or(0),
        u32::try_from(units).unwrap_or(0),
    )
}

// Names an instruction, with its numbers.
fn told(does: &Does) -> (&'static str, u32, u32) {
    match does {
        Does::Push(value) => constant(value),
        Does::Skip(mode) => ("Skip", *mode, 0),
        Does::Nil => ("Nil", 0, 0),
        Does::Routine { text, .. } => ("Routine", *text, 0),
        Does::Tag { hops, slot } => ("Tag", *hops, *slot),
        Does::Enter(slots) => ("Enter", *slots, 0),
        Does::Leave(kept) => ("Leave", *kept, 0),
        Does::Bind(slot) => ("Bind", *slot, 0),
        Does::Make { mode, bounds } => ("Make", *mode, *bounds),
        Does::Heap { mode, bounds } => ("Heap", *mode, *bounds),
        Does::Deref(mode) => ("Deref", *mode, 0),
        Does::Store(mode) => ("Store", *mode, 0),
        Does::Apply(row) => ("Apply", *row, 0),
        Does::Same(negated) => ("Same", *negated, 0),
        Does::Slice(forms) => sliced(&forms.items),
        Does::Display { count, mode } => ("Display", *count, *mode),
        Does::Vacuum(mode) => ("Vacuum", *mode, 0),
        Does::RowUp(mode) => ("RowUp", *mode, 0),
        Does::RowUpName(mode) => ("RowUpName", *mode, 0),
        Does::Widen => ("Widen", 0, 0),
        Does::Compose(count) => ("Compose", *count, 0),
        Does::Select { mode, field } => ("Select", *mode, *field),
        Does::Unite(mode) => ("Unite", *mode, 0),
        Does::Drop => ("Drop", 0, 0),
        Does::Print(count) => ("Print", *count, 0),
        Does::Whole => ("Whole", 0, 0),
        Does::Call { count, gives } => ("Call", *count, u32::from(*gives)),
        Does::Return => ("Return", 0, 0),
        Does::Jump(to) => ("Jump", *to, 0),
        Does::Unless(to) => ("Unless", *to, 0),
        Does::Counter => ("Counter", 0, 0),
        Does::Index => ("Index", 0, 0),
        Does::Step(to) => ("Step", *to, 0),
        Does::Turn => ("Turn", 0, 0),
        Does::Advance(to) => ("Advance", *to, 0),
        Does::Forget => ("Forget", 0, 0),
        Does::Close => ("Close", 0, 0),
        Does::End => ("End", 0, 0),
        _ => ("another", 0, 0),
    }
}

// The number that a word is, and 0 where there is none.
fn number_or_0(rt: &impl Abort, word: Option<&str>) -> u32 {
    match word {
        Some(word) => number(rt, word),
        None => 0,
    }
}

// The places of a Case or of a Fork, with its name.
fn several(does: &Does) -> Option<(&'static str, &[u32])> {
    match does {
        Does::Case(places) => Some(("Case", &places.items)),
        Does::Fork(entrances) => Some(("Fork", &entrances.items)),
        _ => None,
    }
}

// Compares an instruction of this name and of these places with what is told of it.
fn are_places(rt: &impl Abort, name: &str, places: &[u32], line: &str, text: &str) {
    let mut words = line.split_whitespace();
    let told = words.next().expect(rt, "a name");
    holds(rt, told == name, text);
    for place in places {
        let word = words.next().expect(rt, text);
        holds(rt, number(rt, word) == *place, text);
    }
    holds(rt, words.next().is_none(), text);
}

// Compares an instruction with what is told of it.
fn is_as_told(rt: &impl Abort, instr: &Instr, line: &str, text: &str) {
    let (place, rest) = cut(rt, line, " ");
    if let Some((name, places)) = several(&instr.does) {
        holds(rt, instr.place == number(rt, place), text);
        are_places(rt, name, places, rest, text);
        return;
    }
    let mut parts = rest.split_whitespace();
    let name = parts.next().expect(rt, "a name");
    let first = number_or_0(rt, parts.next());
    let second = number_or_0(rt, parts.next());
    let (is, one, other) = told(&instr.does);
    holds(rt, instr.place == number(rt, place), text);
    holds(rt, is == name && one == first && other == second, text);
}

// Compares all instructions of a text with what is told of them.
fn are_as_told(rt: &impl Abort, list: &[Instr], listing: &str, text: &str) {
    let mut lines = listing.split(';');
    for instr in list {
        let line = lines.next().expect(rt, text);
        is_as_told(rt, instr, line, text);
    }
    holds(rt, lines.next().is_none(), text);
}

// Compares the code of each text with its listing.
fn become_instructions(rt: &impl Abort, alloc: Global, listings: &[(&str, &str)]) {
    for (text, listing) in listings {
        let program = annotate(alloc, tree_of(rt, alloc, text)).expect(rt, text);
        let code = generate(alloc, &program).expect(rt, text);
        drop(program);
        are_as_told(rt, &code.list.items, listing, text);
        drop(code);
    }
}

#[test]
fn texts_become_instructions(rt: HostRuntime) {
    let alloc = rt.alloc();
    become_instructions(&rt, alloc, LISTINGS);
}

#[test]
fn parallel_clauses_become_instructions(rt: HostRuntime) {
    let alloc = rt.alloc();
    become_instructions(&rt, alloc, PARALLEL_LISTINGS);
}
