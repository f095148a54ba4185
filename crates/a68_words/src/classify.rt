//! The classes of all words of a text.
ghost use Rattle.std.specs.Prelude.{◌≡◌, ◌<◌, ℕ, List, Option, slice_get, Some, length, IfOk};
ghost use Rattle.a68_base.specs.declared.refusal.Rule.{Rule};
ghost use Rattle.a68_base.specs.declared.refusal.Stop.TheVariants.{Refused};
ghost use Rattle.a68_symbols.specs.declared.symbol.Symbol.{Symbol};
ghost use Rattle.a68_symbols.specs.Names.{Named};
ghost use Rattle.a68_words.specs.declared.class.Class.{Class};
ghost use Rattle.a68_words.specs.Classes.{AnswersWords, AreClasses, IsClassed, IsRefusedAt};
ghost use Rattle.a68_words.specs.Known.{IsFine};
ghost use Rattle.a68_words.specs.Spellings.{names_of, roles_of};

use crate::definitions::Definitions;
use crate::known::BrokenRule;
use crate::places::walk;
use crate::spelling::{names, roles};
use crate::{Class, Classed};
use a68_base::{NoMemory, Refusal, Stop};
use a68_symbols::Symbols;
use std::alloc::Global;

// The refusal of a text by a rule that a symbol breaks.
fn refused(symbols: &Symbols, fault: BrokenRule) -> Stop
    requires { fault.symbol < length symbols.now.symbols }
    ensures { (s : Symbol) × (slice_get symbols.now.symbols fault.symbol ≡ Some s) × (result ≡ Refused (record { rule = fault.rule; place = s.span.from })) }
{
    let _count = symbols.len();
    let symbol = symbols.at(fault.symbol as u32);
    Stop::Refused(Refusal {
        rule: fault.rule,
        place: symbol.span.from,
    })
}

// The classes of the symbols of a text in which nothing is broken.
fn classes(
    alloc: Global,
    symbols: &Symbols,
    definitions: &Definitions,
) -> Result<Vec<Option<Class>>, NoMemory>
    requires outline { definitions.now ≡ record { roles = roles_of symbols.now; names = names_of symbols.now } }
    requires fine { IsFine definitions.now }
    ensures { IfOk result (λ classes. AreClasses symbols.now classes.items) }
{
    let mut classes = Vec::new(alloc);
    for i in 0..symbols.len() {
        let known = definitions.known(i as usize);
        classes.push(known.class_in(symbols.at(i).kind))?;
    }
    Ok(classes)
}

/// The class of each word of a text: a reserved word, a word that stands for a mode, or one that is an operator. A
/// standard operator word is an operator; any other word that is not reserved is what it is defined as (Report, 4.2, 4.3
/// and 4.5; that places alone decide is this project's own).
///
/// Or the refusal by the first symbol at which something is broken: S4 where a word is defined otherwise than at an
/// earlier place, or a standard operator word as a mode; N2 at a word that is defined nowhere; L3 at an opening bracket
/// where 200 are open, or at a symbol that is nested deeper than 1,000. At one symbol S4 comes before N2, and N2 before
/// L3.
pub fn words(alloc: Global, symbols: &Symbols) -> Result<Classed, Stop>
    ensures { AnswersWords symbols.now result }
{
    let roles = roles(alloc, symbols)?;
    let names = names(alloc, symbols)?;
    let places = walk(alloc, &roles)?;
    let too_deep = places.too_deep;
    let definitions = Definitions::new(alloc, roles, names, places)?;
    match definitions.first_fault(too_deep) {
        Some(fault) => Err(refused(symbols, fault)),
        None => {
            let classes = classes(alloc, symbols, &definitions)?;
            Ok(Classed { classes })
        }
    }
}

/// A law: a text has one list of classes at most; it breaks one rule of words first, at one place, at most; and where it
/// breaks one its words have no classes.
pub fn classes_are_one()
    ensures list { (found : Named) (classes others : List (Option Class)) → IsClassed found classes → IsClassed found others → others ≡ classes }
    ensures refusal { (found : Named) (rule other : Rule) (place at : ℕ)
        → IsRefusedAt found rule place → IsRefusedAt found other at → (other ≡ rule) × (at ≡ place) }
    ensures apart { (found : Named) (rule : Rule) (place : ℕ) (classes : List (Option Class))
        → IsRefusedAt found rule place → IsClassed found classes → ⊥ }
{}
