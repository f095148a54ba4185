//! The symbols of a text: each the longest that begins at its byte, with layout, comments and pragmats alone between.
#![tactic(auto)]

mod bytes;
mod collector;
mod comments;
mod cut;
mod form;
mod judge;
mod marks;
mod runs;
mod spelling;
mod stretch;
mod strings;
mod sym;
mod symbol;

pub use cut::{symbols, symbols_are_one};
pub use judge::LEFT_OUT;
pub use spelling::{SYMBOLS, sym_of, syms};
pub use sym::{Bracket, Sym, Token};
pub use symbol::{Symbol, SymbolKind, Symbols};
