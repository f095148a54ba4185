//! Rows: what stands within each number of a graph.
use std::marker::Model;

/// What stands within a number, by number: all of it at one place, or each at its own.
#[derive(Drop)]
pub struct Row {
    pub among: bool,
    pub items: Vec<u32>,
}

impl Model for Row {
    ghost use Rattle.std.specs.Prelude.{Bool, List, ℕ};

    ghost Value = { Bool × List ℕ };

    ghost view = { λ row. (row.among, row.items.items) };
}
