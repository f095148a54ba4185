//! Values, acts and operations in words.
use a68_acts::{Doing, Next, Want};
use a68_layout::Plan;
use a68_values::{Bounds, Descriptor, Held, Plain, Value, ValueNode, Values};
use a68_values_tests::{plain, plain_in, tell_row};
use std::alloc::Global;
use std::fmt::Debug;
use std::string::String;

// Makes a text grow by bounds, as a declarer writes them.
fn tell_bounds(text: &mut String, bounds: &Bounds) -> Option<()> {
    text.push('[').ok()?;
    let mut is_first = true;
    for (lower, upper) in bounds.as_slice() {
        if !is_first {
            text.push(',').ok()?;
        }
        is_first = false;
        write!(text, "{lower}:{upper}").ok()?;
    }
    text.push(']').ok()
}

// Makes a text grow by a value that is made of others: a structure in brackets, a row behind its bounds, a united value
// behind its mode.
#[cycle(telling)]
fn tell(text: &mut String, value: &Value) -> Option<()> {
    match &value.node {
        ValueNode::Structure(parts) => tell_parts(text, parts),
        ValueNode::Row { bounds, parts } => {
            tell_bounds(text, bounds)?;
            tell_parts(text, parts.values())
        }
        ValueNode::United { mode, value } => {
            write!(text, "{mode}: ").ok()?;
            tell(text, value)
        }
        _ => {
            let held = plain(value);
            write!(text, "{held:?}").ok()
        }
    }
}

#[cycle(telling)]
fn tell_parts(text: &mut String, parts: &Values) -> Option<()> {
    text.push('(').ok()?;
    let mut is_first = true;
    for part in &parts.items {
        if !is_first {
            text.push(' ').ok()?;
        }
        is_first = false;
        tell(text, part)?;
    }
    text.push(')').ok()
}

fn yielded(alloc: Global, value: &Value) -> Option<String> {
    let mut text = String::new(alloc);
    tell(&mut text, value)?;
    Some(text)
}

// An act that prints nothing: its name, its numbers, and the value that it is given.
type Told = (
    &'static str,
    Option<usize>,
    Option<u32>,
    Option<u32>,
    Option<Plain>,
);

fn parts(want: &Want) -> Told {
    match want {
        Want::Enter {
            outer,
            scope,
            slots,
        } => (
            "Enter",
            Some(*outer as usize),
            Some(*scope),
            Some(*slots),
            None,
        ),
        Want::Bind { frame, slot, value } => {
            let value = Some(plain(value));
            ("Bind", Some(*frame as usize), Some(*slot), None, value)
        }
        Want::Look { frame, slot } => ("Look", Some(*frame as usize), Some(*slot), None, None),
        Want::Fetch { cell } => ("Fetch", Some(*cell as usize), None, None, None),
        Want::Assign { cell, held } => {
            let value = plain_in(held).unwrap_or(Plain::Unset);
            ("Assign", Some(*cell as usize), None, None, Some(value))
        }
        Want::Up { cell } => ("Up", Some(*cell as usize), None, None, None),
        Want::Down { cell } => ("Down", Some(*cell as usize), None, None, None),
        Want::Turn => ("Turn", None, None, None, None),
        Want::Fork(entrances) => ("Fork", Some(entrances.items.len()), None, None, None),
        Want::Close => ("Close", None, None, None, None),
        _ => ("another", None, None, None, None),
    }
}

// Makes a text grow by a part, where there is one; none where memory runs out.
fn add(text: &mut String, part: &Option<impl Debug>) -> Option<()> {
    if let Some(part) = part {
        write!(text, " {part:?}").ok()?;
    }
    Some(())
}

fn in_words(alloc: Global, told: &Told) -> Option<String> {
    let (name, one, two, three, value) = told;
    let mut text = String::from_str(alloc, name).ok()?;
    add(&mut text, one)?;
    add(&mut text, two)?;
    add(&mut text, three)?;
    add(&mut text, value)?;
    Some(text)
}

// Tells a text that is printed, in quotes.
fn printing(alloc: Global, bytes: &[u8]) -> Option<String> {
    let text = String::from_utf8_lossy(alloc, bytes).ok()?;
    format!(in alloc; "Print {text:?}").ok()
}

fn assigning_row(alloc: Global, cell: u32, row: &Descriptor) -> Option<String> {
    let mut text = format!(in alloc; "Assign {cell} row ").ok()?;
    tell_row(&mut text, row)?;
    Some(text)
}

// Tells how many cells are made, and a row that is the only one.
fn making(alloc: Global, cells: &[Held]) -> Option<String> {
    let count = cells.len();
    let mut text = format!(in alloc; "Make {count}").ok()?;
    if count == 1 {
        if let Held::Rows(row) = &cells[0] {
            text.push(' ').ok()?;
            tell_row(&mut text, row)?;
        }
    }
    Some(text)
}

/// Tells an act by its name, its numbers, and what it is given; none where memory runs out.
pub fn act(alloc: Global, want: &Want) -> Option<String> {
    match want {
        Want::Print(text) => printing(alloc, &text.items),
        Want::Assign {
            cell,
            held: Held::Member { mode, base },
        } => format!(in alloc; "Assign {cell} Member {mode} {base}").ok(),
        Want::Assign {
            cell,
            held: Held::Rows(row),
        } => assigning_row(alloc, *cell, row),
        Want::Make(Plan { cells, .. }) => making(alloc, &cells.items),
        _ => in_words(alloc, &parts(want)),
    }
}

fn asking(alloc: Global, want: &Want, next: &Next) -> Option<String> {
    let act = act(alloc, want)?;
    match next {
        Next::Made { scope } => format!(in alloc; "{act} of scope {scope}").ok(),
        _ => Some(act),
    }
}

/// Tells what comes of an operation; none where memory runs out.
pub fn doing(alloc: Global, doing: &Doing) -> Option<String> {
    match doing {
        Doing::Yields(value) => yielded(alloc, value),
        Doing::Asks(want, next) => asking(alloc, want, next),
        Doing::Meets(kind) => format!(in alloc; "{kind:?}").ok(),
    }
}
