//! From drafts to nodes.
ghost use Rattle.std.specs.Prelude.{◌≡◌, ◌-◌, ◌<◌, ◌≤◌, ◌^◌, length, map, IfOk};
ghost use Rattle.a68_tree.specs.Nodes.{node_of, turned, turned_entry};
ghost use Rattle.a68_nodes.specs.Views.{view, views};

use crate::places::{name, span};
use a68_base::NoMemory;
use a68_nodes::Draft;
use a68_symbols::Symbols;
use a68_tree::{Node, Parts};
use std::alloc::Global;

/// The numbers from the other end.
fn turned_parts(alloc: Global, parts: &[usize], last: usize) -> Result<Vec<u32>, NoMemory>
    requires { last < 2 ^ 32 }
    ensures { IfOk result (λ list. list.items ≡ map (λ p. last - p) parts.now) }
{
    Ok(
        parts
            .iter()
            .map(|part| last.saturating_sub(*part) as u32)
            .collect(alloc)?,
    )
}

/// The node of a draft.
fn node(alloc: Global, symbols: &Symbols, draft: &Draft, last: usize) -> Result<Node, NoMemory>
    requires { last < 2 ^ 32 }
    ensures { IfOk result (λ node. node ≡ node_of symbols.now.symbols (turned_entry last (view draft.now))) }
{
    let items = turned_parts(alloc, &draft.parts, last)?;
    let span = span(symbols, draft.before, draft.after);
    let name = if draft.before == draft.after {
        0
    } else {
        name(symbols, draft.named)
    };
    Ok(Node {
        kind: draft.kind,
        span,
        name,
        parts: Parts { items },
    })
}

/// The nodes of the drafts backwards, with their numbers from the other end.
pub fn turned(
    alloc: Global,
    symbols: &Symbols,
    mut drafts: Vec<Draft>,
) -> Result<Vec<Node>, NoMemory>
    requires { length drafts.items ≤ 2 ^ 32 }
    ensures { IfOk result (λ nodes. nodes.items ≡ map (node_of symbols.now.symbols) (turned (views drafts.items))) }
{
    let last = drafts.len().saturating_sub(1);
    let mut list = Vec::new(alloc);
    while let Some(draft) = drafts.pop() {
        list.push(node(alloc, symbols, &draft, last)?)?;
    }
    Ok(list)
}
