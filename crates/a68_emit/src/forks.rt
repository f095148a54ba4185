//! The instructions of parallel clauses.
ghost use Rattle.std.specs.Prelude.{◌≡◌, length, IfOk};
ghost use Rattle.a68_elab.specs.Made as made;
ghost use Rattle.a68_elab.specs.Trees as trees;
ghost use Rattle.a68_emit.specs.Listing.{stretch};
ghost use Rattle.a68_emit.specs.Writers.{Wrote};
ghost use Rattle.a68_tree.specs.Trees.{AllBetween};

use crate::numbered::Numbered;
use crate::view::View;
use crate::writer::Writer;
use a68_base::NoMemory;
use a68_code::{Does, Places};
use a68_tree::NodeId;
use std::alloc::Global;

// The numbers of units.
fn numbers_of(
    alloc: Global,
    program: &Numbered,
    id: NodeId,
    parts: &[NodeId],
) -> Result<Vec<u32>, NoMemory>
    requires { AllBetween id (length program.now.tree.nodes) parts.now }
    ensures { IfOk result (λ numbers. numbers.items ≡ made.numbers_of program.now parts.now) }
{
    let mut numbers = Vec::new(alloc);
    for part in parts {
        numbers.push(program.unit_number(program.node(*part).span.from))?;
    }
    Ok(numbers)
}

/// Fork, which names the units by their numbers.
pub fn parallel(
    alloc: Global,
    program: &View,
    id: NodeId,
    parts: &[NodeId],
    place: u32,
    out: &mut Writer,
)
    requires { AllBetween id (length program.now.of.now.tree.nodes) parts.now }
    ensures { Wrote out.old out.new (stretch (trees.parallel place (made.numbers_of program.now.of.now parts.now)) (length out.old.list)) }
{
    match numbers_of(alloc, program.of, id, parts) {
        Ok(items) => out.emit(place, Does::Fork(Places { items })),
        Err(_) => out.run_out(),
    }
}
