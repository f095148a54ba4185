//! Well-formed modes.
ghost use Rattle.std.specs.Prelude.{◌≡◌, ◌<◌, ◌^◌, ◌↔◌, ℕ, length, slice_index, IfOk, IsTrue};
ghost use Rattle.std.specs.List.{All};
ghost use Rattle.a68_equiv.specs.Dimensions.{HasDimensions, HaveDimensions};
ghost use Rattle.a68_equiv.specs.Ways.{AreWellFormed, StepsStayInside, IsFirstIllFormed, Way};

use crate::steps::{Inward, graph};
use crate::walk::reached;
use a68_base::NoMemory;
use a68_modes::{Members, ModeId, Modes, Shape};
use std::alloc::Global;

/// The place in `roots` of the first mode that is not well formed; None exactly where all are (7.4).
pub fn ill_formed(alloc: Global, modes: &Modes, roots: &[ModeId]) -> Result<Option<u32>, NoMemory>
    requires roots { All (λ root. root < length modes.now) roots.now }
    requires few { length roots.now < 2 ^ 32 }
    ensures { IfOk result (λ place. IsFirstIllFormed modes.now roots.now place) }
{
    let besides_names = graph(alloc, modes, Inward::BesidesNames)?;
    let besides_structures = graph(alloc, modes, Inward::BesidesStructures)?;
    for (place, root) in roots.iter().enumerate() {
        let by_names = comes_back(alloc, &besides_names, *root)?;
        let by_structures = comes_back(alloc, &besides_structures, *root)?;
        if by_names || by_structures {
            return Ok(Some(place as u32));
        }
    }
    Ok(None)
}

/// Does a way of one or more steps lead from the node back to itself?
pub fn comes_back(alloc: Global, graph: &[Members], node: u32) -> Result<bool, NoMemory>
    requires there { node < length graph.now }
    requires closed { StepsStayInside graph.now }
    ensures { IfOk result (λ back. IsTrue back ↔ Way graph.now node node) }
{
    let seen = reached(alloc, graph, node)?;
    Ok(seen[node as usize])
}

/// Are all modes well formed?
pub fn all_well_formed(alloc: Global, modes: &Modes) -> Result<bool, NoMemory>
    ensures { IfOk result (λ are. IsTrue are ↔ AreWellFormed modes.now) }
{
    let roots = numbers(alloc, modes)?;
    match ill_formed(alloc, modes, &roots)? {
        None => Ok(true),
        Some(_) => Ok(false),
    }
}

/// Has each row a dimension?
pub fn all_have_dimensions(modes: &Modes) -> bool
    ensures { IsTrue result ↔ HaveDimensions modes.now }
{
    for id in 0..modes.len() {
        if !has_dimensions(modes.shape(id)) {
            return false;
        }
    }
    true
}

fn has_dimensions(shape: &Shape) -> bool
    ensures { IsTrue result ↔ HasDimensions shape.now }
{
    match shape {
        Shape::Rows {
            dims,
            flex: _,
            of: _,
        } => *dims > 0,
        _ => true,
    }
}

/// The numbers of all modes.
fn numbers(alloc: Global, modes: &Modes) -> Result<Vec<ModeId>, NoMemory>
    ensures long { IfOk result (λ ids. length ids.items ≡ length modes.now) }
    ensures each { IfOk result (λ ids. (k : ℕ) → k < length modes.now → slice_index ids.items k ≡ k) }
    ensures few { length modes.now < 2 ^ 32 }
{
    let mut ids = Vec::new(alloc);
    for id in 0..modes.len() {
        ids.push(id)?;
    }
    Ok(ids)
}
