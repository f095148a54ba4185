//! Tests of ranges, formulas, annotated trees and their code, by hand.
#![tactic(auto)]

#[cfg(test)]
mod annot;
#[cfg(test)]
mod check;
#[cfg(test)]
mod listings;
#[cfg(test)]
mod notes;
#[cfg(test)]
mod op_ident;
#[cfg(test)]
mod ranges;
#[cfg(test)]
mod table;
#[cfg(test)]
mod translation;
#[cfg(test)]
mod trees;
