//! What is known of the words of a text, and what is the first thing broken.
ghost use Rattle.std.specs.Prelude.{◌≡◌, ◌<◌, length, IfOk};
ghost use Rattle.a68_base.specs.declared.refusal.Rule.TheVariants.{S4, N2};
ghost use Rattle.a68_words.specs.declared.class.Class.TheVariants.{ModeWord, OperatorWord};
ghost use Rattle.a68_words.specs.Classes.{BreaksAt};
ghost use Rattle.a68_words.specs.Definitions.{Defines};
ghost use Rattle.a68_words.specs.Known as known;
ghost use Rattle.a68_words.specs.Levels.{IsTooDeep};
ghost use Rattle.a68_words.specs.Steps as steps;

use crate::known::{BrokenRule, Known, earlier};
use crate::places::{DefinedWords, first};
use crate::role::Role;
use a68_base::{NoMemory, Rule};
use std::alloc::Global;
use std::marker::Model;

/// The symbols of a text by roles and names, for each of them whether its word is defined as a mode or as an operator
/// there, and for each name the first symbols that are defined so. Contracts see the roles and the names.
#[derive(Drop)]
pub struct Definitions {
    roles: Vec<Role>,
    names: Vec<u32>,
    modes: Vec<bool>,
    operators: Vec<bool>,
    first_modes: Vec<Option<usize>>,
    first_operators: Vec<Option<usize>>,
}

impl Model for Definitions {
    ghost use Rattle.a68_words.specs.Known.{AreTables, Outline};

    ghost Value = { Outline };

    ghost view = { λ d. record { roles = d.roles.items; names = d.names.items } };

    ghost invariant = { λ d. AreTables (record { roles = d.roles.items; names = d.names.items }) d.modes.items d.operators.items d.first_modes.items d.first_operators.items };
}

// A number above all names.
fn count_of(names: &[u32]) -> usize
    ensures { steps.NamesAreBelow names.now result }
{
    let mut count = 0;
    for name in names {
        count = count.max(*name as usize + 1);
    }
    count
}

// For each name the first symbol that is flagged and has it.
fn firsts(
    alloc: Global,
    flags: &[bool],
    names: &[u32],
    count: usize,
) -> Result<Vec<Option<usize>>, NoMemory>
    requires same { length flags.now ≡ length names.now }
    requires below { steps.NamesAreBelow names.now count }
    ensures { IfOk result (λ table. steps.AreFirstFlagged flags.now names.now count (length names.now) table.items) }
{
    let mut table = vec![in alloc; None; count]?;
    for i in 0..names.len() {
        let name = names[i] as usize;
        table[name] = first(table[name], flags[i], i);
    }
    Ok(table)
}

// A rule's first symbol as a fault.
fn fault_of(rule: Rule, symbol: Option<usize>) -> Option<BrokenRule>
    ensures { result ≡ known.fault_of rule symbol }
{
    match symbol {
        Some(symbol) => Some(BrokenRule { rule, symbol }),
        None => None,
    }
}

impl Definitions {
    /// The tables of a text of these roles, names and places.
    pub fn new(
        alloc: Global,
        roles: Vec<Role>,
        names: Vec<u32>,
        places: DefinedWords,
    ) -> Result<Definitions, NoMemory>
        requires same { length names.items ≡ length roles.items }
        requires modes { steps.AreFlags (λ i. Defines roles.items i ModeWord) (length roles.items) places.modes.items }
        requires operators { steps.AreFlags (λ i. Defines roles.items i OperatorWord) (length roles.items) places.operators.items }
        ensures { IfOk result (λ d. d ≡ record { roles = roles.items; names = names.items }) }
    {
        let count = count_of(&names);
        let first_modes = firsts(alloc, &places.modes, &names, count)?;
        let first_operators = firsts(alloc, &places.operators, &names, count)?;
        Ok(Definitions {
            roles,
            names,
            modes: places.modes,
            operators: places.operators,
            first_modes,
            first_operators,
        })
    }

    /// What is known of symbol `i`.
    pub fn known(&self, i: usize) -> Known
        requires { i < length self.now.roles }
        ensures { known.IsKnown self.now.roles self.now.names i result }
    {
        let name = self.names[i] as usize;
        Known {
            role: self.roles[i],
            mode: self.modes[i],
            operator: self.operators[i],
            first_mode: self.first_modes[name],
            first_operator: self.first_operators[name],
        }
    }

    // The first symbol that is defined otherwise than before.
    fn differs(&self) -> Option<usize>
        ensures { steps.IsFirstSymbol (λ i. BreaksAt self.now.roles self.now.names i S4) (length self.now.roles) result }
    {
        let mut found = None;
        for i in 0..self.roles.len() {
            found = first(found, self.known(i).differs(i), i);
        }
        found
    }

    // The first word that is defined nowhere.
    fn undefined(&self) -> Option<usize>
        ensures { steps.IsFirstSymbol (λ i. BreaksAt self.now.roles self.now.names i N2) (length self.now.roles) result }
    {
        let mut found = None;
        for i in 0..self.roles.len() {
            found = first(found, self.known(i).is_undefined(), i);
        }
        found
    }

    /// The first thing broken in a text whose first symbol that is too deep is that one.
    pub fn first_fault(&self, too_deep: Option<usize>) -> Option<BrokenRule>
        requires { steps.IsFirstSymbol (IsTooDeep self.now.roles) (length self.now.roles) too_deep }
        ensures { known.IsFirstFault self.now result }
    {
        let differs = fault_of(Rule::S4, self.differs());
        let undefined = fault_of(Rule::N2, self.undefined());
        earlier(earlier(differs, undefined), fault_of(Rule::L3, too_deep))
    }
}
