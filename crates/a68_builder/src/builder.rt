//! The builder of a code.
ghost use Rattle.std.specs.Prelude.{◌≡◌, ◌<◌, ◌≤◌, ◌++◌, ◌∷◌, [], drop, length, map, slice_index, slice_index_or, take, IfOk, OnErr, MatchResult};
ghost use Rattle.a68_base.specs.declared.limits.TheConstants.{MOST_INSTRUCTIONS};
ghost use Rattle.a68_builder.specs.Aiming.{aimed, aimed_at, names, names_at};
ghost use Rattle.a68_builder.specs.Labels.{settled};
ghost use Rattle.a68_builder.specs.Linking.{entrances_numbered, linked, linked_does};
ghost use Rattle.a68_builder.specs.Stopping.{BuildStops};

use crate::labels::{Labels, settle_all};
use a68_base::{MOST_INSTRUCTIONS, NoMemory};
use a68_code::{Code, Does, Instr, Instrs, Places, Routines};
use a68_modes::Modes;
use std::alloc::Global;
use std::marker::Model;

/// Why an instruction could not be written.
#[derive(Clone, Copy)]
pub enum BuildStop {
    /// There are 1,048,576 instructions already.
    Full,
    /// There was no memory.
    NoMemory,
}

/// The instructions that are written so far, at most 1,048,576.
#[derive(Drop)]
pub struct Builder {
    list: Vec<Instr>,
}

impl Model for Builder {
    ghost use Rattle.std.specs.Coded.{coded_list};
    ghost use Rattle.std.specs.Prelude.{List, ◌≤◌, length};
    ghost use Rattle.a68_base.specs.declared.limits.TheConstants.{MOST_INSTRUCTIONS};
    ghost use Rattle.a68_code.specs.contracts.code.Instr as instr;
    ghost use Rattle.a68_code.specs.declared.code.Instr.{Instr};

    ghost Value = { List Instr };

    ghost coded = { coded_list instr.the_row.coded };

    ghost view = { λ builder. builder.list.items };

    ghost invariant = { λ builder. length builder.list.items ≤ MOST_INSTRUCTIONS };
}

/// How many places an instruction names.
fn names(does: &Does) -> usize
    ensures { result ≡ names does.now }
{
    match does {
        Does::Jump(_) | Does::Unless(_) | Does::Step(_) | Does::Advance(_) => 1,
        Does::Goto { .. } => 1,
        Does::Case(places) => places.items.len(),
        Does::Fork(entrances) => entrances.items.len(),
        Does::Member { places, .. } => places.items.len(),
        _ => 0,
    }
}

/// Puts a place where the instruction names one.
fn aim(does: &mut Does, which: usize, to: u32)
    requires { which < names does.old }
    ensures { does.new ≡ aimed does.old which to }
{
    match does {
        Does::Jump(place) => *place = to,
        Does::Goto { to: place, .. } => *place = to,
        Does::Unless(place) => *place = to,
        Does::Step(place) => *place = to,
        Does::Advance(place) => *place = to,
        Does::Case(places) => places.items[which] = to,
        Does::Fork(entrances) => entrances.items[which] = to,
        Does::Member { places, .. } => places.items[which] = to,
        _ => {}
    }
}

// The entrance of the unit of this number.
fn entrance(units: &[u32], number: u32) -> u32
    ensures { result ≡ slice_index_or units.now number 0 }
{
    units.get(number as usize).copied().unwrap_or(0)
}

// Puts the entrances of units in the place of their numbers.
fn enter_units(numbers: &mut [u32], units: &[u32])
    ensures { numbers.new ≡ entrances_numbered units.now numbers.old }
{
    for i in 0..numbers.len() {
        numbers[i] = entrance(units, numbers[i]);
    }
}

// Does so in an instruction, where it is a Fork.
fn link(does: &mut Does, units: &[u32])
    ensures { does.new ≡ linked_does units.now does.old }
{
    if let Does::Fork(numbers) = does {
        enter_units(&mut numbers.items, units);
    }
}

// Does so in all instructions.
fn link_all(list: &mut [Instr], units: &[u32])
    ensures { list.new ≡ map (linked units.now) list.old }
{
    for i in 0..list.len() {
        link(&mut list[i].does, units);
    }
}

impl Builder {
    /// No instructions.
    pub fn new(alloc: Global) -> Result<Builder, NoMemory>
        ensures { MatchResult result (λ builder. builder ≡ []) (λ _. Unit {0}) }
    {
        Ok(Builder {
            list: Vec::new(alloc),
        })
    }

    /// How many instructions there are.
    pub fn len(&self) -> u32
        ensures long { result ≡ length self.now }
        ensures few { result ≤ MOST_INSTRUCTIONS }
    {
        self.list.len() as u32
    }

    /// How many places the instruction of this number names; none where there is no such instruction.
    pub fn names(&self, at: u32) -> usize
        ensures { result ≡ names_at self.now at }
    {
        match self.list.get(at as usize) {
            Some(instr) => names(&instr.does),
            None => 0,
        }
    }

    /// Writes an instruction behind all others, and gives its number. It is Full exactly where there are 1,048,576
    /// instructions already; with an error nothing has changed.
    pub fn emit(&mut self, instr: Instr) -> Result<u32, BuildStop>
        ensures ok { IfOk result (λ at. (at ≡ length self.old) × (self.new ≡ self.old ++ instr ∷ [])) }
        ensures err { OnErr result (self.new ≡ self.old) }
        ensures full { MatchResult result (λ _. length self.old < MOST_INSTRUCTIONS) (λ stop. BuildStops stop (length self.old)) }
    {
        if self.list.len() == MOST_INSTRUCTIONS {
            drop(instr);
            return Err(BuildStop::Full);
        }
        let at = self.list.len() as u32;
        match self.list.push(instr) {
            Ok(()) => Ok(at),
            Err(_) => Err(BuildStop::NoMemory),
        }
    }

    /// Puts a place into an instruction: the one of this number among those that it names, counted from 0.
    pub fn patch(&mut self, at: u32, which: u32, to: u32)
        requires { which < names_at self.old at }
        ensures { self.new ≡ aimed_at self.old at which to }
    {
        let instr = &mut self.list[at as usize];
        aim(&mut instr.does, which as usize, to);
    }

    /// Lets the jumps from this instruction on that name these labels go to their places, which are the numbers of these.
    pub fn settle(&mut self, from: u32, labels: &Labels)
        ensures { self.new ≡ take from self.old ++ map (settled labels.now) (drop from self.old) }
    {
        if (from as usize) < self.list.len() {
            settle_all(&mut self.list[from as usize..], labels);
        }
    }

    /// The code of the instructions, with these entrances of routine texts and of units, and these modes. Each Fork, which
    /// named units by their numbers, names their entrances. It takes no memory.
    pub fn finish(self, texts: Routines, units: Places, modes: Modes) -> Code
        ensures { result ≡ record { list = map (linked units) self; texts = texts; units = units; modes = modes } }
    {
        let Builder { mut list } = self;
        link_all(&mut list, &units.items);
        Code {
            list: Instrs { items: list },
            texts,
            units,
            modes,
        }
    }
}
