//! Actual declarers.
ghost use Rattle.std.specs.Prelude.{◌≡◌, ◌<◌, ◌↔◌, IsTrue, IfOk, length};
ghost use Rattle.std.specs.List.{All};
ghost use Rattle.a68_declarers.specs.Actual as actual;
ghost use Rattle.a68_declarers.specs.Actual.{AreActual, AreMarked, IsSource};

use crate::form::{form_of, hands_on};
use crate::reading::{follow, is_declarer, is_marked, kind_of};
use a68_base::NoMemory;
use a68_tree::{NodeId, NodeKind, Tree};
use std::alloc::Global;

/// Whose declarers are meant: those of all that have actual ones, or of mode definitions alone.
#[derive(Clone, Copy)]
pub enum Holders {
    All,
    ModeDefinitions,
}

// Has a node of that kind an actual declarer?
fn is_holder(which: Holders, kind: NodeKind) -> bool
    ensures { result ≡ actual.is_holder which kind }
{
    match which {
        Holders::All => matches!(
            kind,
            NodeKind::Variable | NodeKind::Generator | NodeKind::ModeDefinition
        ),
        Holders::ModeDefinitions => matches!(kind, NodeKind::ModeDefinition),
    }
}

// Are the declarers among a node's parts actual? The node itself is, where it is marked.
fn is_source(tree: &Tree, which: Holders, id: NodeId, marked: bool) -> bool
    requires there { id < length tree.now.nodes }
    requires marked { IsTrue marked ↔ actual.IsActual tree.now which id }
    ensures { IsTrue result ↔ IsSource tree.now which id }
{
    if is_holder(which, kind_of(tree, id)) {
        return true;
    }
    marked && hands_on(form_of(tree, id))
}

// Marks the declarers among these nodes.
fn mark(tree: &Tree, nodes: &[NodeId], marks: &mut Vec<bool>)
    requires { All (λ p. p < length marks.old.items) nodes.now }
    ensures { AreMarked tree.now nodes.now marks.old.items marks.new.items }
{
    for node in nodes {
        if is_declarer(tree, *node) {
            marks[*node as usize] = true;
        }
    }
}

/// For each node, whether it is an actual declarer of these.
pub fn actual(alloc: Global, tree: &Tree, which: Holders) -> Result<Vec<bool>, NoMemory>
    ensures { IfOk result (λ marks. AreActual tree.now which marks.items) }
{
    follow(tree);
    let mut marks = vec![in alloc; false; tree.len() as usize]?;
    for id in 0..tree.len() {
        if is_source(tree, which, id, is_marked(&marks, id)) {
            mark(tree, tree.parts(id), &mut marks);
        }
    }
    Ok(marks)
}
