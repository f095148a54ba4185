//! Writing instructions.
ghost use Rattle.std.specs.Option.{is_some, option_map_or};
ghost use Rattle.std.specs.Prelude.{◌≡◌, ◌≤◌, ◌⊎◌, ◌∷◌, ◌++◌, [], drop, length, map, take, IfOk};
ghost use Rattle.a68_builder.specs.Aiming.{aimed_at};
ghost use Rattle.a68_builder.specs.Labels.{settled};
ghost use Rattle.a68_emit.specs.Listing.{instr};
ghost use Rattle.a68_emit.specs.Numbers.{put_all, put_at};
ghost use Rattle.a68_emit.specs.Writers.{Wrote};
ghost use Rattle.a68_emit.specs.Writing.{aim_all, most, ran_out};
ghost use Rattle.a68_values.specs.Content.{plain};
ghost use Rattle.a68_values.specs.declared.plain.Plain.TheVariants as value_of;

use crate::writer::Writer;
use a68_base::{NoMemory, Refusal, Rule, Stop};
use a68_builder::{BuildStop, Builder, Labels};
use a68_code::{Does, Instr};
use a68_values::{Plain, Value};
use std::alloc::Global;

impl Writer {
    /// No instructions.
    pub fn new(alloc: Global) -> Result<Writer, NoMemory>
        ensures list { IfOk result (λ writer. writer.list ≡ []) }
        ensures stop { IfOk result (λ writer. writer.stop ≡ None) }
    {
        let list = Builder::new(alloc)?;
        Ok(Writer { list, stop: None })
    }

    /// How many instructions there are, at most 1,048,576.
    pub fn len(&self) -> u32
        ensures long { result ≡ length self.now.list }
        ensures few { result ≤ most }
    {
        self.list.len()
    }

    /// Has it stopped? Then nothing more is written.
    pub fn has_stopped(&self) -> bool
        ensures { result ≡ is_some self.now.stop }
    {
        self.stop.is_some()
    }

    /// Writes an instruction behind all others.
    pub fn emit(&mut self, place: u32, does: Does)
        ensures { Wrote self.old self.new (instr place does ∷ []) }
    {
        if self.stop.is_some() {
            drop(does);
            return;
        }
        match self.list.emit(Instr { place, does }) {
            Ok(_) => {}
            Err(BuildStop::Full) => {
                self.stop = Some(Stop::Refused(Refusal {
                    rule: Rule::L7,
                    place,
                }));
            }
            Err(BuildStop::NoMemory) => self.stop = Some(Stop::NoMemory),
        }
    }

    /// Puts a place into the instruction of this number, where it names one.
    #[tactic(auto, using(crate::proofs::Writing::aimed_none))]
    pub fn patch(&mut self, at: u32, to: u32)
        ensures list { self.new.list ≡ aimed_at self.old.list at 0 to }
        ensures stop { self.new.stop ≡ self.old.stop }
    {
        if 0 < self.list.names(at) {
            self.list.patch(at, 0, to);
        }
    }

    /// Puts a place into the instruction of this number, where there is one.
    pub fn patch_some(&mut self, at: Option<u32>, to: u32)
        ensures list { self.new.list ≡ option_map_or (λ at. aimed_at self.old.list at 0 to) at self.old.list }
        ensures stop { self.new.stop ≡ self.old.stop }
    {
        if let Some(at) = at {
            self.patch(at, to);
        }
    }

    /// Puts a place into each of these instructions.
    pub fn patch_all(&mut self, places: &[u32], to: u32)
        ensures list { self.new.list ≡ aim_all self.old.list places.now to }
        ensures stop { self.new.stop ≡ self.old.stop }
    {
        for at in places {
            self.patch(*at, to);
        }
    }

    // Puts a place into the instruction of this number, where it names so many.
    fn patch_one(&mut self, at: u32, which: u32, to: u32)
        ensures list { self.new.list ≡ put_at self.old.list at which to }
        ensures stop { self.new.stop ≡ self.old.stop }
    {
        if (which as usize) < self.list.names(at) {
            self.list.patch(at, which, to);
        }
    }

    // Puts so many places into the instruction of this number.
    fn patch_so_many(&mut self, at: u32, places: &[u32], count: u32)
        requires { count ≡ length places.now }
        ensures list { self.new.list ≡ put_all self.old.list at 0 places.now }
        ensures stop { self.new.stop ≡ self.old.stop }
    {
        for which in 0..count {
            self.patch_one(at, which, places[which as usize]);
        }
    }

    /// Puts these places into the instruction of this number. There is no memory for more than it can tell.
    pub fn patch_each(&mut self, at: u32, places: &[u32])
        ensures { ((self.new.list ≡ put_all self.old.list at 0 places.now) × (self.new.stop ≡ self.old.stop)) ⊎ (self.new.stop ≡ ran_out self.old.stop) }
    {
        match u32::try_from(places.len()) {
            Ok(count) => self.patch_so_many(at, places, count),
            Err(_) => self.run_out(),
        }
    }

    /// Lets the jumps from this instruction on that name these labels go to their places, which are the numbers of these.
    pub fn settle(&mut self, from: u32, labels: &Labels)
        ensures list { self.new.list ≡ take from self.old.list ++ map (settled labels.now) (drop from self.old.list) }
        ensures stop { self.new.stop ≡ self.old.stop }
    {
        self.list.settle(from, labels);
    }

    /// Stops for want of memory, where it has not stopped before.
    pub fn run_out(&mut self)
        ensures list { self.new.list ≡ self.old.list }
        ensures stop { self.new.stop ≡ ran_out self.old.stop }
    {
        if self.stop.is_none() {
            self.stop = Some(Stop::NoMemory);
        }
    }
}

/// So many zeros.
pub fn zeros(alloc: Global, count: usize) -> Result<Vec<u32>, NoMemory>
    ensures { IfOk result (λ v. length v.items ≡ count) }
{
    let zeros = vec![in alloc; 0; count]?;
    Ok(zeros)
}

/// An INT that is pushed.
pub fn push_int(value: i64) -> Does
    ensures { result ≡ Does.Push (plain (value_of.Int value)) }
{
    Does::Push(Value::of(Plain::Int(value)))
}
