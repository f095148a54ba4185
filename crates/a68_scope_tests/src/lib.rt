//! Tests of where definitions stand, as seen from a place of a text, of the shapes of formulas, and of their operators, by hand.
#![tactic(auto)]

#[cfg(test)]
mod frames;
#[cfg(test)]
mod operators;
#[cfg(test)]
mod related;
#[cfg(test)]
mod shapes;
#[cfg(test)]
mod table;
#[cfg(test)]
mod tables;
