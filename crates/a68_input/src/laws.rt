//! What the pieces stand for, and what their symbols are.
ghost use Rattle.std.specs.Prelude.{ℕ, List};
ghost use Rattle.a68_denote.specs.Strings.{Denotes};
ghost use Rattle.a68_input.specs.Joining.{quoted};
ghost use Rattle.a68_input.specs.Lines.{HasNoFeed, OneWay};
ghost use Rattle.a68_input.specs.Symbols.{PreludesHaveSymbols, SymbolsJoin};

/// A law: the string denotation of a line stands for its bytes.
pub fn lines_read_back()
    ensures { (line : List ℕ) → HasNoFeed line → Denotes (quoted line) line }
{}

/// A law: an input has its lines in one way.
pub fn lines_are_one()
    ensures { OneWay }
{}

/// A law: what stands in front of a program has symbols, at most 15 for each line and 92, and keeps the limit of bytes.
pub fn preludes_have_symbols()
    ensures { PreludesHaveSymbols }
{}

/// A law: a program with the definitions in front of it has their symbols, then its own, each as many bytes further on as the
/// definitions have, and the closing bracket; where the whole keeps the limits of bytes and of symbols.
pub fn joined_texts_have_the_symbols()
    ensures { SymbolsJoin }
{}
