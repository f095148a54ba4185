//! The nodes of the modes of declarers.
ghost use Rattle.std.specs.Prelude.{◌≡◌, ◌<◌, ◌≤◌, ◌+◌, ◌*◌, ◌^◌, IfOk, length};
ghost use Rattle.a68_declarers.specs.Numbers.{declarers, number_at, twin_of, AreNumbers};

use crate::reading::is_declarer;
use a68_base::NoMemory;
use a68_modes::{ModeId, standard};
use a68_tree::{NodeId, Tree};
use std::alloc::Global;
use std::marker::Model;

/// The nodes of the modes of declarers: two for each, as it stands and without its FLEX, behind the standard ones.
///
/// Contracts see the list of the first of the two, for each node of the tree.
#[derive(Drop)]
pub struct Numbers {
    items: Vec<ModeId>,
}

impl Model for Numbers {
    ghost use Rattle.std.specs.Prelude.{◌<◌, ◌^◌, List, ℕ};
    ghost use Rattle.std.specs.List.{All};

    ghost Value = { List ℕ };

    ghost view = { λ numbers. numbers.items.items };

    ghost invariant = { λ numbers. All (λ m. m < 2 ^ 24) numbers.items.items };
}

impl Numbers {
    /// The node of the mode of a declarer, as it stands or without its FLEX down to the next REF or PROC; VOID for all that
    /// is no declarer.
    pub fn of(&self, declarer: NodeId, fixed: bool) -> ModeId
        ensures { result ≡ number_at self.now declarer fixed }
    {
        let first = match self.items.get(declarer as usize) {
            Some(first) => *first,
            None => 0,
        };
        if fixed && first != 0 {
            first + 1
        } else {
            first
        }
    }
}

/// The node of the mode of a node without its FLEX down to the next REF or PROC: of the two nodes of a declarer the second.
pub fn twin(node: ModeId) -> ModeId
    requires { node < 2 ^ 24 }
    ensures { result ≡ twin_of node }
{
    if node < standard::STRING {
        node
    } else if node == standard::STRING {
        standard::ROW_OF_CHAR
    } else if node < standard::STANDARD {
        node
    } else {
        node + node % 2
    }
}

/// The nodes of the modes of all declarers.
pub fn numbers_of(alloc: Global, tree: &Tree) -> Result<Numbers, NoMemory>
    requires { declarers tree.now (length tree.now.nodes) ≤ 4096 }
    ensures { IfOk result (λ numbers. AreNumbers tree.now numbers) }
{
    let mut items = Vec::new(alloc);
    let mut next = standard::STANDARD;
    for id in 0..tree.len() {
        let mut number = 0;
        if is_declarer(tree, id) {
            number = next;
            next += 2;
        }
        items.push(number)?;
    }
    Ok(Numbers { items })
}
