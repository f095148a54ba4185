//! Tests of the modes that a text declares, by hand.
#![tactic(auto)]

#[cfg(test)]
mod declared;
#[cfg(test)]
mod growth;
#[cfg(test)]
mod many;
#[cfg(test)]
mod table;
