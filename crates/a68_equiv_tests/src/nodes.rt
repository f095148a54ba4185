//! Modes from lines of text.
ghost use Rattle.std.specs.Prelude.{◌≡◌, ◌<◌, IsTrue, length};
ghost use Rattle.a68_modes.specs.Nodes.{ShapeIsWithin, shape_at};
ghost use Rattle.a68_modes.specs.declared.shape.Shape.TheVariants.{Blank};

use crate::table::{holds, number, numbers};
use a68_modes::{Fields, Members, ModeId, Modes, Shape};
use std::alloc::Global;
use std::panic::Expect;
use std::process::Abort;

/// The mode of this number, which is there.
pub fn mode_there(rt: &impl Abort, modes: &Modes, word: &str) -> ModeId
    ensures { result < length modes.now }
{
    let mode = number(rt, word);
    holds(rt, mode < modes.len(), word);
    mode
}

/// Each mode within the shape is there.
pub fn parts_are_there(rt: &impl Abort, alloc: Global, modes: &Modes, shape: &Shape)
    ensures { ShapeIsWithin (length modes.now) shape.now }
{
    let parts = shape.parts(alloc).expect(rt, "memory");
    for part in &parts.items {
        holds(rt, *part < modes.len(), "a mode that is there");
    }
}

/// A node behind the others.
pub fn add(rt: &impl Abort, alloc: Global, modes: &mut Modes, shape: Shape) -> ModeId {
    parts_are_there(rt, alloc, modes, &shape);
    modes.add(shape).expect(rt, "a node")
}

fn is_blank(shape: &Shape) -> bool
    ensures { IsTrue result → shape.now ≡ Blank }
{
    matches!(shape, Shape::Blank)
}

// A mode word gets its mode.
fn define(rt: &impl Abort, modes: &mut Modes, word: &str, mode: &str) {
    let word = mode_there(rt, modes, word);
    let mode = mode_there(rt, modes, mode);
    holds(rt, is_blank(modes.shape(word)), "a mode word");
    modes.set(word, Shape::Same(mode));
}

// Tags and modes, one behind the other.
fn structure(rt: &impl Abort, alloc: Global, numbers: &[u32]) -> Shape {
    let mut items = Vec::new(alloc);
    for i in 0..numbers.len() / 2 {
        let field = (numbers[2 * i], numbers[2 * i + 1]);
        items.push(field).expect(rt, "memory");
    }
    Shape::Struct(Fields { items })
}

fn members(rt: &impl Abort, alloc: Global, modes: &[ModeId]) -> Members {
    Members::from_slice(alloc, modes).expect(rt, "memory")
}

// The parameters, and what it yields.
fn procedure(rt: &impl Abort, alloc: Global, numbers: &[ModeId]) -> Shape {
    let (result, params) = numbers.split_last().expect(rt, "a result");
    Shape::Proc {
        params: members(rt, alloc, params),
        result: *result,
    }
}

// Dimensions, and the mode of the elements.
fn row_of(flex: bool, numbers: &[u32]) -> Shape {
    Shape::Rows {
        dims: first(numbers),
        flex,
        of: last(numbers),
    }
}

fn first(numbers: &[u32]) -> u32 {
    numbers.first().copied().unwrap_or(0)
}

fn last(numbers: &[u32]) -> u32 {
    numbers.last().copied().unwrap_or(0)
}

// A shape by its constructor and numbers; a mode word that is not defined yet, where it is no other.
fn shape_of(rt: &impl Abort, alloc: Global, name: &str, numbers: &[u32]) -> Shape {
    match name {
        "REF" => Shape::Ref(last(numbers)),
        "SAME" => Shape::Same(last(numbers)),
        "ROW" => row_of(false, numbers),
        "FLEX" => row_of(true, numbers),
        "STRUCT" => structure(rt, alloc, numbers),
        "UNION" => Shape::Union(members(rt, alloc, numbers)),
        "PROC" => procedure(rt, alloc, numbers),
        _ => Shape::Blank,
    }
}

/// The shape of a line.
pub fn shape(rt: &impl Abort, alloc: Global, line: &str) -> Shape {
    let mut words = line.split_whitespace();
    let name = words.next().expect(rt, "a constructor");
    let numbers = numbers(rt, alloc, words);
    shape_of(rt, alloc, name, &numbers)
}

// A mode for a line, behind the others; or a mode word IS a mode.
fn add_line(rt: &impl Abort, alloc: Global, modes: &mut Modes, line: &str) {
    match line.split_once(" IS ") {
        Some((word, mode)) => define(rt, modes, word, mode),
        None => {
            let shape = shape(rt, alloc, line);
            add(rt, alloc, modes, shape);
        }
    }
}

/// The standard modes, and behind them, from 15 on, a mode for each line; or a mode word IS a mode.
pub fn modes_of(rt: &impl Abort, alloc: Global, text: &str) -> Modes {
    let mut modes = Modes::new(alloc).expect(rt, "memory");
    for line in text.lines() {
        add_line(rt, alloc, &mut modes, line);
    }
    modes
}
