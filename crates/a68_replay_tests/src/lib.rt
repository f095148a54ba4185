//! Tests of schedules and of runs that follow them, by hand.
#![tactic(auto)]

#[cfg(test)]
mod replays;
#[cfg(test)]
mod table;
