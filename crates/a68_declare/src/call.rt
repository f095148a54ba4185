//! The modes of the declarers of a tree, or the first rule that these break.
ghost use Rattle.std.specs.Prelude.{◌≡◌, ◌<◌, ◌≤◌, ◌^◌, ℕ, IfOk, IfErr, OnOk, length};
ghost use Rattle.a68_base.specs.declared.refusal.Stop.TheVariants as stops;
ghost use Rattle.a68_declare.specs.Broken.{IsIllFormed, IsWrongUnion};
ghost use Rattle.a68_declare.specs.Clean.{AreFixed, CleansTo, CleanMembersHaveNoFlex};
ghost use Rattle.a68_declare.specs.Numbering.{number_in};
ghost use Rattle.a68_declare.specs.Outcome.{AreModesOf, AreRaw, IsFirstBroken, IsNotBroken};
ghost use Rattle.a68_declarers.specs.Bounds.{HasWrongBounds};
ghost use Rattle.a68_declarers.specs.Modes.{AreOrdered};
ghost use Rattle.a68_declarers.specs.Numbers.{declarers, number_at};
ghost use Rattle.a68_declarers.specs.Words.{IsUndefinedWord};
ghost use Rattle.a68_equiv.specs.Classes.{AreExact, AreKept};
ghost use Rattle.a68_equiv.specs.Dimensions.{HaveDimensions};
ghost use Rattle.a68_equiv.specs.Ways.{AreWellFormed};
ghost use Rattle.a68_ranges.specs.Tables.{AreRanges};
ghost use Rattle.a68_ranges.specs.Twice.{IsTwice, StopsBy};

use crate::clean::{Cleaned, clean_modes};
use crate::formed::ill_definition;
use crate::modes::{Declared, of_nodes};
use crate::unions::wrong_union;
use a68_base::{Refusal, Rule, Stop};
use a68_declarers::{
    Numbers, bracket, count, crowded, follow, numbers_of, place_of, raw_modes, undefined_word,
    wrong_bounds,
};
use a68_equiv::{Classes, settle};
use a68_modes::Modes;
use a68_ranges::Ranges;
use a68_tree::Tree;
use std::alloc::Global;

/// How many declarers a text may have.
const MOST_DECLARERS: u32 = 4096;

// A refusal by that rule, at that byte.
fn refused(rule: Rule, place: u32) -> Stop
    ensures { result ≡ stops.Refused (record { rule = rule; place = place }) }
{
    Stop::Refused(Refusal { rule, place })
}

// Refuses mode words without a definition, and too many declarers.
fn check_words(tree: &Tree, ranges: &Ranges) -> Result<(), Stop>
    requires { AreRanges tree.now ranges.now }
    ensures defined { OnOk result ((d : ℕ) → IsUndefinedWord tree.now d → ⊥) }
    ensures few { OnOk result (declarers tree.now (length tree.now.nodes) ≤ 4096) }
    ensures broken { IfErr result (StopsBy (IsFirstBroken tree.now)) }
{
    if let Some(word) = undefined_word(tree, ranges) {
        return Err(refused(Rule::N2, place_of(tree, word)));
    }
    if count(tree) > MOST_DECLARERS {
        return Err(refused(Rule::L4, crowded(tree)));
    }
    Ok(())
}

// Refuses modes that are not well formed.
fn check_modes(alloc: Global, tree: &Tree, numbers: &Numbers, raw: &Modes) -> Result<(), Stop>
    requires raw { AreRaw tree.now raw.now (number_at numbers.now) }
    requires ordered { AreOrdered tree.now raw.now (number_at numbers.now) }
    ensures fine { OnOk result ((d : ℕ) → IsIllFormed tree.now raw.now (number_at numbers.now) d → ⊥) }
    ensures formed { OnOk result (AreWellFormed raw.now) }
    ensures broken { IfErr result (StopsBy (IsFirstBroken tree.now)) }
{
    follow(tree);
    let _there = raw.len();
    match ill_definition(alloc, tree, raw, numbers)? {
        None => Ok(()),
        Some(definition) => Err(refused(Rule::M1, place_of(tree, definition))),
    }
}

// Refuses unions with members that they may not have.
fn check_unions(
    alloc: Global,
    tree: &Tree,
    numbers: &Numbers,
    raw: &Modes,
    classes: &Classes,
) -> Result<(), Stop>
    requires raw { AreRaw tree.now raw.now (number_at numbers.now) }
    requires well { (d : ℕ) → IsIllFormed tree.now raw.now (number_at numbers.now) d → ⊥ }
    requires formed { AreWellFormed raw.now }
    requires exact { AreExact raw.now classes.now.of }
    ensures fine { OnOk result ((d : ℕ) → IsWrongUnion tree.now raw.now (number_at numbers.now) d → ⊥) }
    ensures broken { IfErr result (StopsBy (IsFirstBroken tree.now)) }
{
    match wrong_union(alloc, tree, raw, classes, numbers)? {
        None => Ok(()),
        Some(union) => Err(refused(Rule::M2, place_of(tree, union))),
    }
}

// Refuses bounds that are not as they must be.
fn check_bounds(alloc: Global, tree: &Tree, numbers: &Numbers, raw: &Modes) -> Result<(), Stop>
    requires raw { AreRaw tree.now raw.now (number_at numbers.now) }
    requires well { (d : ℕ) → IsIllFormed tree.now raw.now (number_at numbers.now) d → ⊥ }
    requires unions { (d : ℕ) → IsWrongUnion tree.now raw.now (number_at numbers.now) d → ⊥ }
    ensures fine { OnOk result ((d : ℕ) → HasWrongBounds tree.now d → ⊥) }
    ensures broken { IfErr result (StopsBy (IsFirstBroken tree.now)) }
{
    let _numbers = numbers;
    let _raw = raw;
    match wrong_bounds(alloc, tree)? {
        None => Ok(()),
        Some(declarer) => Err(refused(Rule::C4, bracket(tree, tree.starts(), declarer))),
    }
}

// Judges the modes as they are declared, and makes them clean.
fn judged(alloc: Global, tree: &Tree, numbers: &Numbers, raw: &Modes) -> Result<Cleaned, Stop>
    requires raw { AreRaw tree.now raw.now (number_at numbers.now) }
    requires ordered { AreOrdered tree.now raw.now (number_at numbers.now) }
    requires few { length raw.now ≤ 2 ^ 20 }
    ensures judged { OnOk result (IsNotBroken tree.now raw.now (number_at numbers.now)) }
    ensures cleans { IfOk result (λ cleaned. CleansTo raw.now (number_in cleaned.to.items) cleaned.modes) }
    ensures formed { IfOk result (λ cleaned. AreWellFormed cleaned.modes) }
    ensures rows { IfOk result (λ cleaned. HaveDimensions cleaned.modes) }
    ensures members { IfOk result (λ cleaned. CleanMembersHaveNoFlex cleaned.modes) }
    ensures fixed { ((id : ℕ) → IsTwice tree.now id → ⊥) → IfOk result (λ cleaned. AreFixed cleaned.modes cleaned.fixed.items) }
    ensures broken { IfErr result (StopsBy (IsFirstBroken tree.now)) }
{
    let _there = raw.len();
    check_modes(alloc, tree, numbers, raw)?;
    let classes = settle(alloc, raw)?;
    check_unions(alloc, tree, numbers, raw, &classes)?;
    check_bounds(alloc, tree, numbers, raw)?;
    let cleaned = clean_modes(alloc, raw, &classes)?;
    Ok(cleaned)
}

/// The modes of all declarers of a tree, or the first rule that these break (4.6 to 4.8, 7.4).
///
/// A text is refused by the first of these rules that is broken, at the first such place in the text: N2 at a mode word that
/// no surrounding range defines; L4 at the declarer behind the first 4,096; M1 at a mode word whose mode is not well formed;
/// M2 at a union with two different members that are firmly related, or without two different members; C4 at the `[` of a
/// declarer with bounds that are not as they must be.
pub fn declare(alloc: Global, tree: &Tree, ranges: &Ranges) -> Result<Declared, Stop>
    requires { AreRanges tree.now ranges.now }
    ensures modes { IfOk result (λ declared. AreModesOf tree.now declared.modes declared.of) }
    ensures formed { IfOk result (λ declared. AreWellFormed declared.modes) }
    ensures rows { IfOk result (λ declared. HaveDimensions declared.modes) }
    ensures members { IfOk result (λ declared. CleanMembersHaveNoFlex declared.modes) }
    ensures fixed { ((id : ℕ) → IsTwice tree.now id → ⊥) → IfOk result (λ declared. AreFixed declared.modes declared.fixed.items) }
    ensures classes { IfOk result (λ declared. AreKept declared.modes declared.classes) }
    ensures refused { IfErr result (StopsBy (IsFirstBroken tree.now)) }
{
    check_words(tree, ranges)?;
    let numbers = numbers_of(alloc, tree)?;
    let raw = raw_modes(alloc, tree, ranges, &numbers)?;
    let _there = raw.len();
    let cleaned = judged(alloc, tree, &numbers, &raw)?;
    let of = of_nodes(alloc, tree, &numbers, &cleaned.to)?;
    let classes = settle(alloc, &cleaned.modes)?;
    Ok(Declared {
        modes: cleaned.modes,
        classes,
        of,
        fixed: cleaned.fixed,
    })
}
