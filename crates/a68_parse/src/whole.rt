//! The tree of a text.
ghost use Rattle.std.specs.Prelude.{◌≡◌, ◌<◌, ◌^◌, length, map, IfOk};
ghost use Rattle.a68_tree.specs.Nodes.{node_of};
ghost use Rattle.a68_tree.specs.Trees.{entries};
ghost use Rattle.a68_nodes.specs.Views.{views};
ghost use Rattle.a68_parse.specs.Drafted.{AreDrafted, SpellsAlike, AreStarts};

use crate::nodes::turned;
use crate::places::starts;
use crate::spellings::spellings;
use a68_base::NoMemory;
use a68_nodes::Draft;
use a68_symbols::Symbols;
use a68_tree::Tree;
use std::alloc::Global;

/// The tree of the drafts of a derivation of all the symbols, of which there is one at least.
pub fn tree(alloc: Global, symbols: &Symbols, drafts: Vec<Draft>) -> Result<Tree, NoMemory>
    requires some { 0 < length symbols.now.symbols }
    requires few { length drafts.items < 2 ^ 32 }
    requires drafted { AreDrafted (views drafts.items) }
    ensures listed { IfOk result (λ tree. (d : AreDrafted (views drafts.items)) → tree.nodes ≡ map (node_of symbols.now.symbols) (entries d.kind d.under)) }
    ensures spellings { IfOk result (λ tree. SpellsAlike symbols.now tree.spellings) }
    ensures starts { IfOk result (λ tree. AreStarts symbols.now tree.starts) }
{
    let nodes = turned(alloc, symbols, drafts)?;
    let spellings = spellings(alloc, symbols)?;
    Ok(Tree::new(nodes, spellings, starts(alloc, symbols)?))
}
