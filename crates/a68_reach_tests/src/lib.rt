//! Tests of the words of the command line, of listings, and of calls over two files, by hand.
#![tactic(auto)]

#[cfg(test)]
mod calls;
#[cfg(test)]
mod inputs;
#[cfg(test)]
mod listings;
#[cfg(test)]
mod replays;
#[cfg(test)]
mod schedules;
#[cfg(test)]
mod table;
#[cfg(test)]
mod words;
