//! Whole programs.
ghost use Rattle.std.specs.Prelude.{◌≡◌, ◌<◌, ◌≤◌, ℕ, List, length, map, slice_get, Some, IfOk};
ghost use Rattle.a68_base.specs.declared.refusal.Rule as rules;
ghost use Rattle.a68_symbols.specs.declared.symbol.Symbol.{Symbol};
ghost use Rattle.a68_symbols.specs.Limits.{most_symbols};
ghost use Rattle.a68_symbols.specs.Names.{Named};
ghost use Rattle.a68_symbols.specs.Symbols.{SymbolsAre, IsRefused, piece_of};
ghost use Rattle.a68_parse.specs.Drafted.{SpellsAlike, AreStarts};
ghost use Rattle.a68_parse.specs.Parses.{Parses, IsTree};
ghost use Rattle.a68_tree.specs.declared.node.Node.{Node};
ghost use Rattle.a68_words.specs.declared.class.Class.{Class};
ghost use Rattle.std.specs.declared.option.Option.{Option};

use crate::places::place;
use crate::text::text;
use crate::whole::tree;
use a68_base::{Refusal, Rule, Stop};
use a68_read::{Unread, read};
use a68_symbols::Symbols;
use a68_tree::Tree;
use a68_words::Classed;
use std::alloc::Global;

/// The tree of the symbols, whose words have these classes; or the refusal S6: at the symbol that does not go on the form
/// that was chosen, or at the text's end, where symbols ran out.
pub fn parse(alloc: Global, symbols: &Symbols, classes: &Classed, end: u32) -> Result<Tree, Stop>
    requires { length symbols.now.symbols ≤ most_symbols }
    ensures parses { Parses symbols.now classes.now end result }
    ensures spellings { IfOk result (λ tree. SpellsAlike symbols.now tree.spellings) }
    ensures starts { IfOk result (λ tree. AreStarts symbols.now tree.starts) }
{
    let list = text(alloc, symbols, classes)?;
    match read(alloc, &list) {
        Ok(drafts) => Ok(tree(alloc, symbols, drafts)?),
        Err(Unread::Memory) => Err(Stop::NoMemory),
        Err(Unread::NoTree(left)) => Err(Stop::Refused(Refusal {
            rule: Rule::S6,
            place: place(symbols, left, end),
        })),
    }
}

/// A law: the symbols of a text are as few as `parse` asks, and begin within it; so a refusal's place does not pass the
/// text's end.
pub fn symbols_are_bounded()
    ensures few { (text : List ℕ) (found : Named) → SymbolsAre text (map piece_of found.symbols) → length found.symbols ≤ most_symbols }
    ensures within { (text : List ℕ) (found : Named) → SymbolsAre text (map piece_of found.symbols)
        → (i : ℕ) (s : Symbol) → slice_get found.symbols i ≡ Some s → s.span.from ≤ length text }
    ensures refused { (text : List ℕ) (rule : rules.Rule) (place : ℕ) → IsRefused text rule place → place ≤ length text }
    ensures filled { (found : Named) (classes : List (Option Class)) (list : List Node) → IsTree found classes list → 0 < length found.symbols }
{}

/// A law: each node of a tree begins within its text.
pub fn trees_lie_in_texts()
    ensures { (text : List ℕ) (found : Named) (classes : List (Option Class)) (list : List Node) → SymbolsAre text (map piece_of found.symbols)
        → IsTree found classes list → (id : ℕ) (n : Node) → slice_get list id ≡ Some n → n.span.from ≤ length text }
{}
