//! The spellings of the symbols.
ghost use Rattle.std.specs.Prelude.{length, IfOk};
ghost use Rattle.a68_symbols.specs.Names.{HaveNames};
ghost use Rattle.a68_parse.specs.Drafted.{SpellsAlike};

use a68_base::{NoMemory, Text};
use a68_symbols::Symbols;
use std::alloc::Global;

/// The spellings of the symbols, by their names.
pub fn spellings(alloc: Global, symbols: &Symbols) -> Result<Vec<Text>, NoMemory>
    ensures names { IfOk result (λ list. HaveNames symbols.now.symbols (length list.items)) }
    ensures alike { IfOk result (λ list. SpellsAlike symbols.now list.items) }
{
    let mut list = Vec::new(alloc);
    for name in 0..symbols.names() {
        list.push(Text::from_slice(alloc, symbols.spelling(name))?)?;
    }
    Ok(list)
}
