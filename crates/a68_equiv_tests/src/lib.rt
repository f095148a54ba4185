//! Tests of modes by their nodes, of their classes and of coercions, by hand.
#![tactic(auto)]

#[cfg(test)]
mod coerce;
#[cfg(test)]
mod equiv;
#[cfg(test)]
mod fields;
#[cfg(test)]
mod modes;
#[cfg(test)]
mod nodes;
#[cfg(test)]
mod table;
