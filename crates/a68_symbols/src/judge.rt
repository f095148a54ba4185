//! What a stretch gives.
ghost use Rattle.std.specs.Prelude.{◌≡◌, IfOk};
ghost use Rattle.a68_symbols.specs.Gives as specs;
ghost use Rattle.a68_symbols.specs.Words as words;

use crate::SymbolKind;
use crate::bytes::without_layout;
use crate::comments::is_opener;
use crate::form::{Given, StretchForm};
use a68_base::{NoMemory, Rule, is_listed};
use a68_denote::{bits_of, int_of, long_of};
use std::alloc::Global;

/// The words of the parts of the language that are left out (own).
pub const LEFT_OUT: [&str; 6] = ["REAL", "COMPL", "BYTES", "FORMAT", "SHORT", "EMPTY"];

// What a word gives. An opener that is a word by itself has no end.
fn judge_word(word: &[u8]) -> Given
    ensures { result ≡ specs.word_gives word.now }
{
    if is_opener(word) {
        Given::Broken(Rule::S1)
    } else if is_listed(&LEFT_OUT, word) {
        Given::Broken(Rule::S3)
    } else {
        Given::Symbol(SymbolKind::Word)
    }
}

// Is it a number, behind LONG or not?
fn is_number(long: bool, spelling: &[u8]) -> bool
    ensures { result ≡ specs.is_number long spelling.now }
{
    if long {
        long_of(spelling).is_some()
    } else {
        int_of(spelling).is_some()
    }
}

// What digits and small letters give.
fn judge_number(long: bool, spelling: &[u8]) -> Given
    ensures { result ≡ specs.number_gives long spelling.now }
{
    if is_number(long, spelling) {
        Given::Symbol(SymbolKind::Number)
    } else if bits_of(spelling).is_some() {
        Given::Symbol(SymbolKind::BitsNumber)
    } else {
        Given::Broken(Rule::S5)
    }
}

/// Is a symbol of that kind and stretch the word LONG?
pub fn is_long(kind: SymbolKind, stretch: &[u8]) -> bool
    ensures { result ≡ words.is_long kind stretch.now }
{
    kind == SymbolKind::Word && stretch == "LONG".as_bytes()
}

/// What a stretch of that form gives; `long` where the symbol before it is LONG.
pub fn judge(
    alloc: Global,
    long: bool,
    form: StretchForm,
    stretch: &[u8],
) -> Result<Given, NoMemory>
    ensures { IfOk result (λ given. given ≡ specs.gives long form stretch.now) }
{
    match form {
        StretchForm::Layout | StretchForm::SharpComment | StretchForm::WordComment => Ok(
            Given::Nothing,
        ),
        StretchForm::OpenComment | StretchForm::OpenString => Ok(Given::Broken(Rule::S1)),
        StretchForm::Word => Ok(judge_word(stretch)),
        StretchForm::Tag => Ok(Given::Symbol(SymbolKind::Tag)),
        StretchForm::Number => {
            let spelling = without_layout(alloc, stretch)?;
            Ok(judge_number(long, &spelling))
        }
        StretchForm::Quoted => Ok(Given::Symbol(SymbolKind::Quoted)),
        StretchForm::Mark => Ok(Given::Symbol(SymbolKind::Mark)),
    }
}
