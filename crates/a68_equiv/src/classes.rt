//! The classes of equivalent modes.
ghost use Rattle.std.specs.Prelude.{◌≡◌, ◌<◌, ◌+◌, ◌*◌, ◌^◌, ◌↔◌, List, IfOk, IsTrue, length};
ghost use Rattle.a68_modes.specs.declared.shape.Shape.{Shape};
ghost use Rattle.a68_equiv.specs.Unfolding.{Equivalent};
ghost use Rattle.a68_equiv.specs.Related.{as_it_stands};
ghost use Rattle.a68_equiv.specs.Graph.{AreBehind, IsGraphOf};
ghost use Rattle.a68_partition.specs.Rounds.{IsWired};
ghost use Rattle.a68_equiv.specs.Classes.{class_of, AreExact, AreKept};

use crate::Mode;
use crate::graph::ModeGraph;
use crate::keys::{classes_by_key, nodes_by_key};
use a68_base::NoMemory;
use a68_modes::{ModeId, Modes};
use a68_partition::{Table, refine};
use std::alloc::Global;
use std::marker::Model;

/// The class of each mode with and without its FLEX down to the next REF or PROC, and the tables in which `intern` finds
/// classes and nodes.
///
/// Contracts see the list of the classes, for each node two numbers, that of the mode as it stands and that of the mode
/// without its FLEX; and the entries of the tables.
#[derive(Drop)]
pub struct Classes {
    pub(crate) items: Vec<u32>,
    pub(crate) keys: Table,
    pub(crate) nodes: Table,
}

impl Model for Classes {
    ghost use Rattle.a68_equiv.specs.Classes.{Classified};

    ghost Value = { Classified };

    ghost view = { λ classes. record { of = classes.items.items; by_key = classes.keys.entries; nodes_by_key = classes.nodes.entries } };
}

/// The classes of these modes (7.3).
pub fn settle(alloc: Global, modes: &Modes) -> Result<Classes, NoMemory>
    ensures { IfOk result (λ classes. AreKept modes.now classes) }
{
    let graph = ModeGraph::of(alloc, modes)?;
    let classes = classes_of(alloc, modes, &graph)?;
    Ok(classes)
}

/// The classes of these modes, by the graph in which they are compared.
fn classes_of(alloc: Global, modes: &Modes, graph: &ModeGraph) -> Result<Classes, NoMemory>
    requires graph { IsGraphOf modes.now graph.now.heads.items graph.now.rows.items }
    requires behind { AreBehind modes.now graph.now.behind.items }
    requires wired { IsWired graph.now.heads.items graph.now.rows.items }
    requires few { length graph.now.rows.items < 2 ^ 32 }
    ensures { IfOk result (λ classes. AreKept modes.now classes) }
{
    let items = refine(alloc, &graph.heads, &graph.rows)?;
    let keys = classes_by_key(alloc, modes, graph, &items)?;
    let nodes = nodes_by_key(alloc, modes, graph, &items)?;
    Ok(Classes { items, keys, nodes })
}

impl Classes {
    /// Are the two modes equivalent, as they stand? The classes are those of some modes; for these the answer is exact.
    pub fn same(&self, a: ModeId, b: ModeId) -> bool
        requires a_there { 2 * a + 1 < length self.now.of }
        requires b_there { 2 * b + 1 < length self.now.of }
        ensures { (nodes : List Shape) → AreExact nodes self.now.of → IsTrue result ↔ Equivalent nodes (as_it_stands a) (as_it_stands b) }
    {
        self.are_same(Mode::as_it_stands(a), Mode::as_it_stands(b))
    }

    /// Are the two modes, with or without their FLEX, equivalent?
    pub fn are_same(&self, a: Mode, b: Mode) -> bool
        requires a_there { 2 * a.id + 1 < length self.now.of }
        requires b_there { 2 * b.id + 1 < length self.now.of }
        ensures class { IsTrue result ↔ (class_of self.now.of a ≡ class_of self.now.of b) }
        ensures equivalent { (nodes : List Shape) → AreExact nodes self.now.of → IsTrue result ↔ Equivalent nodes a b }
    {
        self.class(a) == self.class(b)
    }

    /// The class of a mode: the same number for equivalent ones.
    pub fn class(&self, mode: Mode) -> u32
        requires { 2 * mode.id + 1 < length self.now.of }
        ensures { result ≡ class_of self.now.of mode }
    {
        self.items[2 * mode.id as usize + usize::from(mode.fixed)]
    }
}
