//! Tests of what reads a text: denotations, symbols, classes of words and trees, by hand.
#![tactic(auto)]

#[cfg(test)]
mod denote;
#[cfg(test)]
mod draft;
#[cfg(test)]
mod parse;
#[cfg(test)]
mod pieces;
#[cfg(test)]
mod symbols;
#[cfg(test)]
mod table;
#[cfg(test)]
mod tables;
#[cfg(test)]
mod turn;
#[cfg(test)]
mod words;
