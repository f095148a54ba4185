//! Tests of what is asked of the nodes of a tree, by hand.
#![tactic(auto)]

#[cfg(test)]
mod asked;
#[cfg(test)]
mod clauses;
#[cfg(test)]
mod table;
#[cfg(test)]
mod units;
