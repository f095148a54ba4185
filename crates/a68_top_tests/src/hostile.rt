//! Texts that are long or deep, or whose modes are vast.
use crate::calls::{answers, of_words};
use crate::table::repeated;
use std::alloc::{AllocError, Global};
use std::panic::Expect;

/// Thirty modes, each with two of the one before it: a variable of the last has more cells than a run may have.
const DOUBLED: &str = "( MODE M0 = STRUCT (INT a, b, c), \
     M1 = STRUCT (M0 a, INT b, M0 c), \
     M2 = STRUCT (M1 a, INT b, M1 c), \
     M3 = STRUCT (M2 a, INT b, M2 c), \
     M4 = STRUCT (M3 a, INT b, M3 c), \
     M5 = STRUCT (M4 a, INT b, M4 c), \
     M6 = STRUCT (M5 a, INT b, M5 c), \
     M7 = STRUCT (M6 a, INT b, M6 c), \
     M8 = STRUCT (M7 a, INT b, M7 c), \
     M9 = STRUCT (M8 a, INT b, M8 c), \
     M10 = STRUCT (M9 a, INT b, M9 c), \
     M11 = STRUCT (M10 a, INT b, M10 c), \
     M12 = STRUCT (M11 a, INT b, M11 c), \
     M13 = STRUCT (M12 a, INT b, M12 c), \
     M14 = STRUCT (M13 a, INT b, M13 c), \
     M15 = STRUCT (M14 a, INT b, M14 c), \
     M16 = STRUCT (M15 a, INT b, M15 c), \
     M17 = STRUCT (M16 a, INT b, M16 c), \
     M18 = STRUCT (M17 a, INT b, M17 c), \
     M19 = STRUCT (M18 a, INT b, M18 c), \
     M20 = STRUCT (M19 a, INT b, M19 c), \
     M21 = STRUCT (M20 a, INT b, M20 c), \
     M22 = STRUCT (M21 a, INT b, M21 c), \
     M23 = STRUCT (M22 a, INT b, M22 c), \
     M24 = STRUCT (M23 a, INT b, M23 c), \
     M25 = STRUCT (M24 a, INT b, M24 c), \
     M26 = STRUCT (M25 a, INT b, M25 c), \
     M27 = STRUCT (M26 a, INT b, M26 c), \
     M28 = STRUCT (M27 a, INT b, M27 c), \
     M29 = STRUCT (M28 a, INT b, M28 c); \
     M29 m; SKIP )";

// A choice by a number whose OUSE has 6,000 further ones, one within another.
#[test]
fn long_choices_are_compiled(rt: HostRuntime) {
    let first = "( INT x := 9; CASE x IN print(1), SKIP";
    let link = " OUSE x IN SKIP, SKIP";
    let last = " OUT print(\"out\") ESAC )";
    let text = repeated(rt.alloc(), first, link, 6_000, last).expect(&rt, "memory");
    let given = of_words(&["run", "f"], text.as_str());
    let events = answers(&rt, rt.alloc(), given, 0, ("out", ""));
    drop(events);
}

// A choice by a mode whose OUSE has 3,000 further ones, one within another: the value is an INT, and each takes a BOOL.
#[test]
fn long_choices_by_modes_are_compiled(rt: HostRuntime) {
    let first = "( UNION (INT, BOOL) u := 1; CASE u IN (BOOL b): print(b)";
    let link = " OUSE u IN (BOOL b): print(b)";
    let last = " OUT print(\"out\") ESAC )";
    let text = repeated(rt.alloc(), first, link, 3_000, last).expect(&rt, "memory");
    let given = of_words(&["run", "f"], text.as_str());
    let events = answers(&rt, rt.alloc(), given, 0, ("out", ""));
    drop(events);
}

// 990 signs before one operand.
#[test]
fn many_signs_are_compiled(rt: HostRuntime) {
    let text = repeated(rt.alloc(), "( print(", "NOT ", 990, "TRUE) )").expect(&rt, "memory");
    let given = of_words(&["run", "f"], text.as_str());
    let events = answers(&rt, rt.alloc(), given, 0, ("T", ""));
    drop(events);
}

#[test]
fn vast_modes_are_refused_by_their_cells(rt: HostRuntime) {
    let given = of_words(&["run", "f"], DOUBLED);
    let notes = "a68: fault Cells at byte 1053\n";
    let events = answers(&rt, rt.alloc(), given, 3, ("", notes));
    drop(events);
}

// Three hundred flexible rows, one within another, without elements.
#[test]
fn flexible_rows_within_one_another_are_made(rt: HostRuntime) {
    let text = repeated(
        rt.alloc(),
        "( ",
        "FLEX [1:0] ",
        300,
        "INT a; print(UPB a) )",
    )
    .expect(&rt, "memory");
    let given = of_words(&["run", "f"], text.as_str());
    let events = answers(&rt, rt.alloc(), given, 0, ("                  +0", ""));
    drop(events);
}

const LETTERS: [&str; 10] = ["A", "B", "C", "D", "E", "F", "G", "H", "I", "J"];

// The mode word of a number: four letters, one for each digit.
fn push_word(text: &mut String, number: u32) -> Result<(), AllocError> {
    text.push_str(LETTERS[(number / 1_000 % 10) as usize])?;
    text.push_str(LETTERS[(number / 100 % 10) as usize])?;
    text.push_str(LETTERS[(number / 10 % 10) as usize])?;
    text.push_str(LETTERS[(number % 10) as usize])?;
    Ok(())
}

// A text that declares so many modes, each with the one before it between two pieces, and two names of the last.
fn within(
    alloc: Global,
    first: &str,
    before: &str,
    behind: &str,
    count: u32,
    last: &str,
) -> Result<String, AllocError> {
    let mut text = String::from_str(alloc, "( MODE AAAA = ")?;
    text.push_str(first)?;
    for i in 1..count {
        text.push_str(", ")?;
        push_word(&mut text, i)?;
        text.push_str(" = ")?;
        text.push_str(before)?;
        push_word(&mut text, i - 1)?;
        text.push_str(behind)?;
    }
    text.push_str("; ")?;
    push_word(&mut text, count.saturating_sub(1))?;
    text.push_str(last)?;
    Ok(text)
}

// A value of six hundred structures, one within another, assigned to a name.
#[test]
fn structures_within_one_another_are_assigned(rt: HostRuntime) {
    let last = " x, y; x := y; print(5) )";
    let text = within(rt.alloc(), "STRUCT (INT a)", "STRUCT (", " a)", 600, last).expect(
        &rt, "memory",
    );
    let given = of_words(&["run", "f"], text.as_str());
    let events = answers(&rt, rt.alloc(), given, 0, ("                  +5", ""));
    drop(events);
}

// A value of six hundred flexible rows, one within another, of one element each, assigned to a name.
#[test]
fn flexible_rows_within_one_another_are_assigned(rt: HostRuntime) {
    let last = " x, y; x := y; print(UPB x) )";
    let text = within(rt.alloc(), "FLEX [1:1] INT", "FLEX [1:1] ", "", 600, last).expect(
        &rt, "memory",
    );
    let given = of_words(&["run", "f"], text.as_str());
    let events = answers(&rt, rt.alloc(), given, 0, ("                  +1", ""));
    drop(events);
}

// Two thousand commas between the brackets of a row that an INT becomes: it has 2,001 dimensions, of one subscript each.
#[test]
fn rows_of_many_dimensions_are_made_of_one_value(rt: HostRuntime) {
    let last = "] INT a = 7; print(2001 UPB a) )";
    let text = repeated(rt.alloc(), "( [", ",", 2_000, last).expect(&rt, "memory");
    let given = of_words(&["run", "f"], text.as_str());
    let events = answers(&rt, rt.alloc(), given, 0, ("                  +1", ""));
    drop(events);
}
