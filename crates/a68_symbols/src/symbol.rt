//! Symbols and lists of them.
ghost use Rattle.std.specs.Prelude.{◌≡◌, ◌<◌, length, slice_get};
ghost use Rattle.std.specs.Option.{option_map};
ghost use Rattle.a68_symbols.specs.Names.{HaveNames};
ghost use Rattle.a68_symbols.specs.Spellings.{syms_of};

use crate::sym::Sym;
use a68_base::Span;
use std::marker::Model;

/// The kinds of symbols (Report, 9.4).
#[derive(Clone, Copy, Debug, PartialEq, Eq, Hash)]
pub enum SymbolKind {
    /// A bold word: a capital, then capitals and digits.
    Word,
    /// A tag: a small letter, then small letters and digits, with layout between them where it likes.
    Tag,
    /// A denotation of an INT.
    Number,
    /// A denotation of BITS.
    BitsNumber,
    /// A denotation of a character or a string.
    Quoted,
    /// A bracket, a separator or a sign.
    Mark,
}

/// A symbol: its kind, its stretch of the text, and the number of its kind and spelling.
#[derive(Clone, Copy)]
pub struct Symbol {
    pub kind: SymbolKind,
    pub span: Span,
    pub name: u32,
}

/// A kind of symbol, and the bytes that spell it.
#[derive(PartialEq, Eq, Hash, Drop)]
pub struct Spelling {
    pub kind: SymbolKind,
    pub bytes: Vec<u8>,
}

/// The symbols of a text in order, and their spellings, numbered from 0 as they are first seen.
#[derive(Drop)]
pub struct Symbols {
    pub(crate) items: Vec<Symbol>,
    pub(crate) spellings: Vec<Spelling>,
    // The symbols of the grammar that have these spellings.
    pub(crate) syms: Vec<Sym>,
}

impl Model for Symbols {
    ghost use Rattle.std.specs.Prelude.{map};
    ghost use Rattle.a68_symbols.specs.Names.{Named, spelled_of};
    ghost use Rattle.a68_symbols.specs.Kept.{IsKept};

    ghost Value = { Named };

    ghost view = { λ s. record { symbols = s.items.items; spellings = map spelled_of s.spellings.items } };

    ghost invariant = { λ s. IsKept s.items.items s.spellings.items s.syms.items };
}

impl Symbols {
    /// How many symbols there are.
    pub fn len(&self) -> u32
        ensures { result ≡ length self.now.symbols }
    {
        self.items.len() as u32
    }

    /// How many spellings there are.
    pub fn names(&self) -> u32
        ensures count { result ≡ length self.now.spellings }
        ensures all { HaveNames self.now.symbols result }
    {
        self.spellings.len() as u32
    }

    /// The symbol of that number, from 0.
    pub fn at(&self, i: u32) -> Symbol
        requires { i < length self.now.symbols }
        ensures symbol { slice_get self.now.symbols i ≡ Some result }
        ensures named { result.name < length self.now.spellings }
    {
        self.items[i as usize]
    }

    /// The symbol of that number, from 0, as the grammar tells it apart. Until words have classes, each word that is not
    /// reserved is one that no rule takes.
    pub fn sym_at(&self, i: u32) -> Sym
        requires { i < length self.now.symbols }
        ensures { slice_get (syms_of self.now) i ≡ Some result }
    {
        let symbol = self.items[i as usize];
        self.syms[symbol.name as usize]
    }

    /// The bytes that spell the symbols of that name: those of the symbol without layout, and of a string all of them.
    pub fn spelling(&self, name: u32) -> &[u8]
        requires { name < length self.now.spellings }
        ensures { option_map (λ s. s.bytes) (slice_get self.now.spellings name) ≡ Some result.now }
    {
        match self.spellings.get(name as usize) {
            Some(spelling) => &spelling.bytes,
            None => &[],
        }
    }
}
