//! The steps from a mode to the modes within it.
ghost use Rattle.std.specs.Prelude.{◌≡◌, [], IfOk, MatchBool, map};
ghost use Rattle.a68_modes.specs.Nodes.{parts_of};
ghost use Rattle.a68_equiv.specs.Ways.{steps_of, StepsStayInside};

use a68_base::NoMemory;
use a68_modes::{Members, Modes, Shape};
use std::alloc::Global;

/// Which steps from a mode to the modes within it are taken.
#[derive(Clone, Copy, PartialEq, Eq)]
pub enum Inward {
    /// All but those from a REF or a PROC.
    BesidesNames,
    /// All but those from a STRUCT or from a PROC with parameters.
    BesidesStructures,
    /// Those of mode words and of unions alone.
    WithinUnions,
}

/// Are such steps taken from this shape?
fn are_taken(steps: Inward, shape: &Shape) -> bool
    ensures { MatchBool result (steps_of steps shape.now ≡ parts_of shape.now) (steps_of steps shape.now ≡ []) }
{
    match shape {
        Shape::Ref(_) => steps == Inward::BesidesStructures,
        Shape::Rows { .. } => steps != Inward::WithinUnions,
        Shape::Struct(_) => steps == Inward::BesidesNames,
        Shape::Proc { params, .. } => {
            steps == Inward::BesidesStructures && params.items.is_empty()
        }
        _ => true,
    }
}

/// The modes to which such a step leads from a shape.
pub fn row(alloc: Global, steps: Inward, shape: &Shape) -> Result<Members, NoMemory>
    ensures { IfOk result (λ row. row ≡ steps_of steps shape.now) }
{
    let taken = are_taken(steps, shape);
    if taken {
        shape.parts(alloc)
    } else {
        Members::from_slice(alloc, &[])
    }
}

/// The graph of such steps: for each node those to which a step leads.
pub fn graph(alloc: Global, modes: &Modes, which: Inward) -> Result<Vec<Members>, NoMemory>
    ensures rows { IfOk result (λ graph. graph.items ≡ map (steps_of which) modes.now) }
    ensures closed { IfOk result (λ graph. StepsStayInside graph.items) }
{
    let mut graph = Vec::new(alloc);
    for id in 0..modes.len() {
        graph.push(row(alloc, which, modes.shape(id))?)?;
    }
    Ok(graph)
}
