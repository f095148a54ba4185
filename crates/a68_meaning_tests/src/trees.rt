//! Trees from lines of text.
ghost use Rattle.std.specs.Prelude.{◌≡◌, ◌<◌, ℕ, IsTrue, Some, length, slice_get};
ghost use Rattle.a68_tree.specs.Trees.{AllBetween, IsSound};
ghost use Rattle.a68_tree.specs.declared.node.Node.{Node};

use crate::table::{holds, number, numbers};
use a68_base::{Span, Text, find};
use a68_tree::{Node, NodeKind, Parts, Tree};
use std::alloc::Global;
use std::panic::Expect;
use std::process::Abort;
use std::str::SplitWhitespace;

const KINDS: &[(&str, NodeKind)] = &[
    ("Call", NodeKind::Call),
    ("Closed", NodeKind::Closed),
    ("Denotation", NodeKind::Denotation),
    ("Formula", NodeKind::Formula),
    ("GoTo", NodeKind::GoTo),
    ("Serial", NodeKind::Serial),
    ("Sign", NodeKind::Sign),
    ("Skip", NodeKind::Skip),
    ("Tag", NodeKind::Tag),
];

fn next_number(rt: &impl Abort, words: &mut SplitWhitespace<'_>) -> u32 {
    number(rt, words.next().expect(rt, "a number"))
}

// The node of a line: its kind, from where and to where it stands, its name and its parts.
fn node(rt: &impl Abort, alloc: Global, line: &str) -> Node {
    let mut words = line.split_whitespace();
    let kind = words.next().expect(rt, "a word");
    let kind = find(KINDS, kind.as_bytes()).expect(rt, "a kind");
    let from = next_number(rt, &mut words);
    let to = next_number(rt, &mut words);
    let name = next_number(rt, &mut words);
    let items = numbers(rt, alloc, words);
    Node {
        kind,
        span: Span { from, to },
        name,
        parts: Parts { items },
    }
}

fn nodes(rt: &impl Abort, alloc: Global, lines: &str) -> Vec<Node> {
    let mut nodes = Vec::new(alloc);
    for line in lines.lines() {
        nodes.push(node(rt, alloc, line)).expect(rt, "memory");
    }
    nodes
}

fn spellings(rt: &impl Abort, alloc: Global, names: &str) -> Vec<Text> {
    let mut spellings = Vec::new(alloc);
    for name in names.split_whitespace() {
        let text = Text::from_slice(alloc, name.as_bytes()).expect(rt, "memory");
        spellings.push(text).expect(rt, "memory");
    }
    spellings
}

// Do the parts stand behind place i, and before the end?
fn are_between(i: usize, count: usize, parts: &[u32]) -> bool
    ensures { IsTrue result → AllBetween i count parts.now }
{
    match parts.split_first() {
        None => true,
        Some((first, rest)) => {
            let part = *first as usize;
            i < part && part < count && are_between(i, count, rest)
        }
    }
}

// All nodes have parts that stand behind them, and names that are there.
fn are_sound(rt: &impl Abort, nodes: &[Node], names: usize)
    ensures behind { (i : ℕ) (n : Node) → slice_get nodes.now i ≡ Some n → AllBetween i (length nodes.now) n.parts }
    ensures named { (i : ℕ) (n : Node) → slice_get nodes.now i ≡ Some n → n.name < names }
{
    for (i, node) in nodes.iter().enumerate() {
        let behind = are_between(i, nodes.len(), &node.parts.items);
        holds(rt, behind, "parts behind their node");
        holds(rt, (node.name as usize) < names, "a name that is there");
    }
}

/// The tree of these nodes, a line each, and of these spellings; it does not tell where its symbols begin.
pub fn tree_of(rt: &impl Abort, alloc: Global, lines: &str, names: &str) -> Tree {
    let spellings = spellings(rt, alloc, names);
    let nodes = nodes(rt, alloc, lines);
    holds(rt, nodes.len() > 0, "a node");
    holds(rt, nodes.len() < 1000, "few nodes");
    are_sound(rt, &nodes, spellings.len());
    Tree::new(nodes, spellings, Vec::new(alloc))
}
