//! What is reached in a graph.
ghost use Rattle.std.specs.Prelude.{◌≡◌, ◌<◌, IfOk, OnOk, length};
ghost use Rattle.std.specs.List.{All};
ghost use Rattle.a68_equiv.specs.Ways.{StepsStayInside};
ghost use Rattle.a68_equiv.specs.Reached.{AreReached, Visited};

use a68_base::NoMemory;
use a68_modes::Members;
use std::alloc::Global;

/// The nodes to which a way of one or more steps leads from the root.
pub fn reached(alloc: Global, graph: &[Members], root: u32) -> Result<Vec<bool>, NoMemory>
    requires root { root < length graph.now }
    requires closed { StepsStayInside graph.now }
    ensures { IfOk result (λ seen. AreReached graph.now root seen.items) }
{
    let mut seen = vec![in alloc; false; graph.len()]?;
    let mut noted = Vec::new(alloc);
    noted.push(root)?;
    while let Some(at) = noted.pop() {
        let row = &graph[at as usize];
        visit(&mut seen, &mut noted, &row.items)?;
    }
    Ok(seen)
}

/// Marks the nodes, and notes those that were not marked.
fn visit(seen: &mut Vec<bool>, noted: &mut Vec<u32>, nodes: &[u32]) -> Result<(), NoMemory>
    requires { All (λ p. p < length seen.old.items) nodes.now }
    ensures { OnOk result (Visited nodes.now seen.old.items noted.old.items seen.new.items noted.new.items) }
{
    for node in nodes {
        if seen[*node as usize] {
            continue;
        }
        seen[*node as usize] = true;
        noted.push(*node)?;
    }
    Ok(())
}
