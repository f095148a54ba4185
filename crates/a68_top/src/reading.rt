//! A text read up to its tree.
ghost use Rattle.std.specs.Prelude.{◌≡◌, ◌<◌, ◌≤◌, ◌^◌, List, length, map, IfOk, IfErr};
ghost use Rattle.a68_parse.specs.Drafted.{SpellsAlike};
ghost use Rattle.a68_parse.specs.Parses.{IsTree};
ghost use Rattle.a68_ranges.specs.Twice.{StopsBy};
ghost use Rattle.a68_symbols.specs.Names.{AreNamed};
ghost use Rattle.a68_symbols.specs.Symbols.{SymbolsAre, piece_of};
ghost use Rattle.a68_tree.specs.declared.node.Node.{Node};
ghost use Rattle.a68_top.specs.Answer.{IsListingOf};
ghost use Rattle.a68_top.specs.Compiles.{IsReadAs, IsTreeOf, RefusedBefore};
ghost use Rattle.a68_words.specs.Classes.{IsClassed};

use a68_base::{Stop, Text};
use a68_lister::listing;
use a68_parse::{parse, symbols_are_bounded};
use a68_symbols::{Symbols, symbols};
use a68_tree::Tree;
use a68_words::{Classed, words};
use std::alloc::Global;

/// The symbols of a text and its tree, formulas flat; or the rule that the text breaks up to there.
pub fn read_tree(alloc: Global, text: &[u8]) -> Result<(Symbols, Tree), Stop>
    requires { length text.now < 2 ^ 32 }
    ensures ok { IfOk result (λ read. IsReadAs text.now read.0 read.1) }
    ensures refused { IfErr result (λ why. StopsBy (RefusedBefore text.now) why) }
{
    let found = symbols(alloc, text)?;
    let classes = words(alloc, &found)?;
    symbols_are_bounded();
    let tree = parse(alloc, &found, &classes, text.len() as u32)?;
    Ok((found, tree))
}

/// The text laid out anew, or the rule that it breaks before it has a tree.
pub fn laid_out(alloc: Global, text: &[u8]) -> Result<Text, Stop>
    requires { length text.now < 2 ^ 32 }
    ensures ok { IfOk result (λ out. IsListingOf text.now out) }
    ensures refused { IfErr result (λ why. StopsBy (RefusedBefore text.now) why) }
{
    let (found, tree) = read_tree(alloc, text)?;
    drop(tree);
    let out = listing(alloc, &found)?;
    Ok(out)
}
