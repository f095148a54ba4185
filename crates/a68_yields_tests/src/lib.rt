//! Tests of what the units of a text may yield, and of what is found for the parts of which something is asked, by hand.
#![tactic(auto)]

#[cfg(test)]
mod clauses;
#[cfg(test)]
mod formulas;
#[cfg(test)]
mod looking;
#[cfg(test)]
mod primaries;
#[cfg(test)]
mod table;
#[cfg(test)]
mod units;
