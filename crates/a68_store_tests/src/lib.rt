//! Tests of stacks and stores, by hand.
#![tactic(auto)]

#[cfg(test)]
mod stack;
#[cfg(test)]
mod store;
#[cfg(test)]
mod table;
