//! Trees.
ghost use Rattle.std.specs.Prelude.{◌≡◌, ◌<◌, length, slice_get, Some, IfOk};
ghost use Rattle.std.specs.Option.{option_map};
ghost use Rattle.a68_tree.specs.Trees.{IsSound, AllBetween};

use crate::{Node, NodeId};
use a68_base::Text;
use std::marker::Model;

/// A tree: its nodes, each before its parts, the spellings of the names, and where the symbols of the text begin.
#[derive(Drop)]
pub struct Tree {
    nodes: Vec<Node>,
    spellings: Vec<Text>,
    // The first byte of each symbol, in order of text: some places stand at a symbol that begins no node.
    starts: Vec<u32>,
}

impl Model for Tree {
    ghost use Rattle.std.specs.Prelude.{length};
    ghost use Rattle.a68_tree.specs.Trees.{Built, IsSound};

    ghost Value = { Built };

    ghost view = { λ tree. record { nodes = tree.nodes.items; spellings = tree.spellings.items; starts = tree.starts.items } };

    ghost invariant = { λ tree. IsSound tree.nodes.items (length tree.spellings.items) };
}

impl Tree {
    /// A tree of these nodes and spellings, whose symbols begin at these bytes.
    pub fn new(nodes: Vec<Node>, spellings: Vec<Text>, starts: Vec<u32>) -> Tree
        requires { IsSound nodes.items (length spellings.items) }
        ensures { result ≡ record { nodes = nodes.items; spellings = spellings.items; starts = starts.items } }
    {
        Tree {
            nodes,
            spellings,
            starts,
        }
    }

    /// The nodes, the spellings, and where the symbols begin.
    pub fn apart(self) -> (Vec<Node>, Vec<Text>, Vec<u32>)
        ensures nodes { result.0.items ≡ self.nodes }
        ensures spellings { result.1.items ≡ self.spellings }
        ensures starts { result.2.items ≡ self.starts }
        ensures sound { IsSound self.nodes (length self.spellings) }
    {
        let Tree {
            nodes,
            spellings,
            starts,
        } = self;
        (nodes, spellings, starts)
    }

    /// How many names there are.
    pub fn names(&self) -> usize
        ensures { result ≡ length self.now.spellings }
    {
        self.spellings.len()
    }

    /// The node of the whole text.
    pub fn root(&self) -> NodeId
        ensures first { result ≡ 0 }
        ensures within { 0 < length self.now.nodes }
    {
        let _ = &self.nodes;
        0
    }

    /// How many nodes there are.
    pub fn len(&self) -> u32
        ensures { result ≡ length self.now.nodes }
    {
        self.nodes.len() as u32
    }

    /// The node of that number.
    pub fn node(&self, id: NodeId) -> &Node
        requires { id < length self.now.nodes }
        ensures is { slice_get self.now.nodes id ≡ Some result.now }
        ensures named { result.now.name < length self.now.spellings }
        ensures behind { AllBetween id (length self.now.nodes) result.now.parts }
    {
        &self.nodes[id as usize]
    }

    /// The parts of the node of that number, in order of text.
    pub fn parts(&self, id: NodeId) -> &[NodeId]
        requires { id < length self.now.nodes }
        ensures is { option_map (λ n. n.parts) (slice_get self.now.nodes id) ≡ Some result.now }
        ensures behind { AllBetween id (length self.now.nodes) result.now }
    {
        &self.nodes[id as usize].parts.items
    }

    /// The first bytes of all symbols of the text, in order.
    pub fn starts(&self) -> &[u32]
        ensures { result.now ≡ self.now.starts }
    {
        &self.starts
    }

    /// The bytes that spell the symbols of that name, without layout; of a string all of them.
    pub fn spelling(&self, name: u32) -> &[u8]
        requires { name < length self.now.spellings }
        ensures { slice_get self.now.spellings name ≡ Some result.now }
    {
        self.spellings[name as usize].as_slice()
    }
}
