//! Tests of the whole call over shelves and sinks in memory, by hand.
#![tactic(auto)]

#[cfg(test)]
mod calls;
#[cfg(test)]
mod edges;
#[cfg(test)]
mod failing;
#[cfg(test)]
mod hostile;
#[cfg(test)]
mod labels;
#[cfg(test)]
mod longs;
#[cfg(test)]
mod parallel;
#[cfg(test)]
mod races;
#[cfg(test)]
mod table;
#[cfg(test)]
mod top;
#[cfg(test)]
mod workers;
