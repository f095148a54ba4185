//! A text cut into its symbols.
ghost use Rattle.std.specs.Prelude.{◌≡◌, ◌≤◌, ℕ, List, length, map, IfOk};
ghost use Rattle.a68_base.specs.declared.refusal.Rule.{Rule};
ghost use Rattle.a68_symbols.specs.Gives as specs;
ghost use Rattle.a68_symbols.specs.Limits.{most_bytes};
ghost use Rattle.a68_symbols.specs.Names.{Named, AreNamed, no_symbols};
ghost use Rattle.a68_symbols.specs.Steps.{Keeps};
ghost use Rattle.a68_symbols.specs.Symbols.{Answers, Collects, HasSymbols, IsRefused, Piece, piece_of};

use crate::Symbols;
use crate::collector::Collector;
use crate::form::{Given, StretchForm};
use crate::judge::{is_long, judge};
use crate::stretch::longest;
use a68_base::{MOST_BYTES, MOST_SYMBOLS, Refusal, Rule, Span, Stop};
use std::alloc::Global;

fn refused(rule: Rule, place: u32) -> Stop
    ensures { result ≡ Stop.Refused (record { rule = rule; place = place }) }
{
    Stop::Refused(Refusal { rule, place })
}

// Takes in what a stretch of that form gives. Is LONG the last symbol, before it and then?
fn keep(
    alloc: Global,
    long: bool,
    found: &mut Collector,
    form: StretchForm,
    stretch: &[u8],
    span: Span,
) -> Result<bool, Stop>
    ensures { Keeps long found.old found.new (specs.gives long form stretch.now) stretch.now span result }
{
    match judge(alloc, long, form, stretch)? {
        Given::Nothing => Ok(long),
        Given::Broken(rule) => Err(refused(rule, span.from)),
        Given::Symbol(kind) => {
            if found.len() >= MOST_SYMBOLS {
                return Err(refused(Rule::L2, span.from));
            }
            found.push(alloc, kind, stretch, span)?;
            Ok(is_long(kind, stretch))
        }
    }
}

// Takes in the symbols of a text, where there are none yet.
fn collect(alloc: Global, bytes: &[u8], found: &mut Collector) -> Result<(), Stop>
    requires short { length bytes.now ≤ most_bytes }
    requires none { found.old ≡ no_symbols }
    ensures { Collects bytes.now found.new result }
{
    let mut rest = bytes;
    let mut at = 0;
    let mut long = false;
    while !rest.is_empty() {
        let Some((form, n)) = longest(rest) else {
            return Err(refused(Rule::S2, at));
        };
        let (stretch, behind) = rest.split_at(n);
        let to = at + n as u32;
        long = keep(alloc, long, found, form, stretch, Span { from: at, to })?;
        rest = behind;
        at = to;
    }
    Ok(())
}

/// The symbols of a text, each the longest that begins at its byte; or the refusal of the text by the first rule of
/// symbols that it breaks: L1 at byte 1,048,576 of a longer text, else the first byte at which no list of symbols can
/// go on, with S2 where no symbol begins, S1 where a string, comment or pragmat has no end, S3 at a word of a part of
/// the language that is left out, S5 at a misformed number or one that is too large for an INT, or behind the word LONG for
/// a LONG INT, and L2 at a symbol behind 262,144 others
/// (Report, 8 and 9; the limits and S3 are this project's own).
pub fn symbols(alloc: Global, bytes: &[u8]) -> Result<Symbols, Stop>
    ensures answer { Answers bytes.now result }
    ensures names { IfOk result (λ found. AreNamed bytes.now found) }
{
    if bytes.len() > MOST_BYTES {
        return Err(refused(Rule::L1, MOST_BYTES as u32));
    }
    let mut found = Collector::new(alloc);
    let done = collect(alloc, bytes, &mut found);
    if let Err(stop) = done {
        drop(found);
        return Err(stop);
    }
    Ok(found.finish(alloc)?)
}

/// A law: a text has one list of symbols at most; it breaks one rule first, at one place, at most; and where it breaks
/// one it has no symbols.
pub fn symbols_are_one()
    ensures list { (text : List ℕ) (pieces others : List Piece) → HasSymbols text pieces → HasSymbols text others → others ≡ pieces }
    ensures refusal { (text : List ℕ) (rule other : Rule) (place at : ℕ)
        → IsRefused text rule place → IsRefused text other at → (other ≡ rule) × (at ≡ place) }
    ensures apart { (text : List ℕ) (rule : Rule) (place : ℕ) (pieces : List Piece)
        → IsRefused text rule place → HasSymbols text pieces → ⊥ }
    ensures named { (text : List ℕ) (found other : Named) → map piece_of other.symbols ≡ map piece_of found.symbols
        → AreNamed text found → AreNamed text other → other ≡ found }
{}
