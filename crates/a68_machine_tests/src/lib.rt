//! Tests of strands and runs, by hand.
#![tactic(auto)]

#[cfg(test)]
mod leases;
#[cfg(test)]
mod parallel;
#[cfg(test)]
mod rooms;
#[cfg(test)]
mod strand;
#[cfg(test)]
mod table;
#[cfg(test)]
mod workers;
#[cfg(test)]
mod world;
