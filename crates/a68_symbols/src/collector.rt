//! Symbols that are taken in one behind the other, and get their names.
ghost use Rattle.std.specs.Prelude.{◌≡◌, ◌<◌, length, IfOk, OnOk, []};
ghost use Rattle.a68_symbols.specs.Limits.{most_symbols};
ghost use Rattle.a68_symbols.specs.Names.{Adds, spelling_of};

use crate::bytes::without_layout;
use crate::spelling::syms_spelled;
use crate::symbol::{Spelling, Symbol, SymbolKind, Symbols};
use a68_base::{NoMemory, Span};
use indexmap::IndexSet;
use std::alloc::Global;
use std::marker::Model;

/// Symbols as far as they are taken in, with a set that finds their spellings. It stands apart from [`Symbols`], whose users
/// look up spellings by numbers alone, so that no crate above reads what is proved of sets.
#[derive(Drop)]
pub struct Collector {
    items: Vec<Symbol>,
    spellings: IndexSet<Spelling>,
}

impl Model for Collector {
    ghost use Rattle.std.specs.Prelude.{map};
    ghost use Rattle.a68_symbols.specs.Names.{Named, IsSound, spelled_of};

    ghost Value = { Named };

    ghost view = { λ s. record { symbols = s.items.items; spellings = map spelled_of s.spellings.keys } };

    ghost invariant = { λ s. IsSound s.items.items s.spellings.keys };
}

// What spells a stretch: all of a string, and of any other symbol what is no layout.
fn spell(alloc: Global, kind: SymbolKind, stretch: &[u8]) -> Result<Vec<u8>, NoMemory>
    ensures { IfOk result (λ bytes. bytes.items ≡ spelling_of kind stretch.now) }
{
    match kind {
        SymbolKind::Quoted => Ok(Vec::from_slice(alloc, stretch)?),
        _ => without_layout(alloc, stretch),
    }
}

impl Collector {
    /// No symbols.
    pub fn new(alloc: Global) -> Collector
        ensures symbols { result.symbols ≡ [] }
        ensures spellings { result.spellings ≡ [] }
    {
        Collector {
            items: Vec::new(alloc),
            spellings: IndexSet::new(alloc),
        }
    }

    /// How many symbols there are.
    pub fn len(&self) -> u32
        ensures { result ≡ length self.now.symbols }
    {
        self.items.len() as u32
    }

    /// Adds a symbol behind the others.
    pub fn push(
        &mut self,
        alloc: Global,
        kind: SymbolKind,
        stretch: &[u8],
        span: Span,
    ) -> Result<(), NoMemory>
        requires { length self.old.symbols < most_symbols }
        ensures { OnOk result (Adds self.old self.new kind span (record { kind = kind; bytes = spelling_of kind stretch.now })) }
    {
        self.items.reserve(1)?;
        let bytes = spell(alloc, kind, stretch)?;
        let (index, _) = self.spellings.insert_full(Spelling { kind, bytes })?;
        self.items.push(Symbol {
            kind,
            span,
            name: index as u32,
        })?;
        Ok(())
    }

    /// The symbols, with their spellings in order; each spelling is looked up in the table of symbols once.
    pub fn finish(self, alloc: Global) -> Result<Symbols, NoMemory>
        ensures { IfOk result (λ found. found ≡ self) }
    {
        let Collector { items, spellings } = self;
        let spellings: Vec<Spelling> = spellings.into_iter().collect(alloc)?;
        let syms = syms_spelled(alloc, &spellings)?;
        Ok(Symbols {
            items,
            spellings,
            syms,
        })
    }
}
