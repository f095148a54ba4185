//! Places in a text, by how many of its symbols are left there.
ghost use Rattle.std.specs.Prelude.{◌≡◌, slice_get, IfOk};
ghost use Rattle.a68_tree.specs.Nodes.{span_of, symbol_at, symbol_behind, name_of, first_byte, end_byte};
ghost use Rattle.a68_parse.specs.Drafted.{AreStarts};
ghost use Rattle.a68_parse.specs.Places.{place_of};

use a68_base::{NoMemory, Span};
use a68_symbols::{Symbol, Symbols};
use std::alloc::Global;

/// The symbol of that number, if there is one.
fn nth(symbols: &Symbols, at: usize) -> Option<Symbol>
    ensures { result ≡ slice_get symbols.now.symbols at }
{
    if at < symbols.len() as usize {
        Some(symbols.at(at as u32))
    } else {
        None
    }
}

/// The first byte of the symbol at which so many are left.
fn first_byte(symbols: &Symbols, left: usize) -> u32
    ensures { result ≡ first_byte (symbol_at symbols.now.symbols left) }
{
    match nth(symbols, (symbols.len() as usize).saturating_sub(left)) {
        Some(symbol) => symbol.span.from,
        None => 0,
    }
}

/// The byte behind the symbol behind which so many are left.
fn end_byte(symbols: &Symbols, left: usize) -> u32
    ensures { result ≡ end_byte (symbol_behind symbols.now.symbols left) }
{
    let behind = (symbols.len() as usize).saturating_sub(left);
    match nth(symbols, behind.saturating_sub(1)) {
        Some(symbol) => symbol.span.to,
        None => 0,
    }
}

/// The name of the symbol at which so many are left.
pub fn name(symbols: &Symbols, left: usize) -> u32
    ensures { result ≡ name_of (symbol_at symbols.now.symbols left) }
{
    match nth(symbols, (symbols.len() as usize).saturating_sub(left)) {
        Some(symbol) => symbol.name,
        None => 0,
    }
}

/// The byte at which a text does not go on: the first one of the symbol at which so many are left, or the text's end.
pub fn place(symbols: &Symbols, left: usize, end: u32) -> u32
    ensures { result ≡ place_of symbols.now.symbols left end }
{
    match nth(symbols, (symbols.len() as usize).saturating_sub(left)) {
        Some(symbol) => symbol.span.from,
        None => end,
    }
}

/// The stretch between where so many symbols are left.
pub fn span(symbols: &Symbols, before: usize, after: usize) -> Span
    ensures { result ≡ span_of symbols.now.symbols before after }
{
    let from = first_byte(symbols, before);
    if before == after {
        Span { from, to: from }
    } else {
        let to = end_byte(symbols, after);
        Span { from, to }
    }
}

/// The first bytes of all symbols, in order.
pub fn starts(alloc: Global, symbols: &Symbols) -> Result<Vec<u32>, NoMemory>
    ensures { IfOk result (λ starts. AreStarts symbols.now starts.items) }
{
    let mut starts = Vec::new(alloc);
    for i in 0..symbols.len() {
        starts.push(symbols.at(i).span.from)?;
    }
    Ok(starts)
}
