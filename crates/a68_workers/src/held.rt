//! A world of the run that was handed in.
ghost use Rattle.std.specs.Prelude.{◌≡◌, ℕ, List, [], ◌∷◌, length, take, false};
ghost use Rattle.std.specs.Coded.{Coded-set, coded_list};
ghost use Rattle.a68_code.specs.contracts.code.Code as code;
ghost use Rattle.a68_strand.specs.Strands.{is_spent};
ghost use Rattle.a68_values.specs.contracts.act.Entry as entry;
ghost use Rattle.a68_code.specs.declared.code.Code.{Code};
ghost use Rattle.a68_values.specs.declared.act.Entry.{Entry};
ghost use Rattle.a68_workers.specs.Runs.{GoesFrom, IsAtRest};
ghost use Rattle.a68_world.specs.Leases.{ActOf, BackOf, IsHeld, IsReplay, LendOf};
ghost use Rattle.a68_world.specs.Run.{IsNumber, IsSoundRun};

use a68_acts::Reply;
use a68_strand::Strand;
use a68_world::{StrandState, Turned, World};
use std::alloc::Global;
use std::marker::{Brand, PhantomData};

/// What was handed in: the code, the fuel and the entries so far. A code stands in a list of one, so that `Brand` has a
/// code to name too.
pub trait GivenRun {
    ghost code: { List Code };

    ghost fuel: { ℕ };

    ghost first: { List Entry };
}

impl GivenRun for Brand {
    ghost code = { [] };

    ghost fuel = { 0 };

    ghost first = { [] };
}

/// A world of that run, gone on.
#[derive(Drop)]
pub struct HeldWorld<J: GivenRun> {
    world: World,
    // Behind so many events a first strand that is alone is left to one worker.
    sole: u64,
    of: PhantomData<J>,
    ghost same_code: { world.code ∷ [] ≡ J.code } by { Coded-set (coded_list code.the_row.coded) _ _ },
    ghost same_fuel: { world.fuel ≡ J.fuel },
    ghost goes_on: { take (length J.first) world.entries ≡ J.first } by { Coded-set (coded_list entry.the_row.coded) _ _ },
}

// A turn of a strand. Tells whether there was memory.
fn turn_any(alloc: Global, world: &mut World, strand: u32) -> bool
    ensures goes { GoesFrom world.old world.new }
    ensures rest { IsAtRest world.old → IsAtRest world.new }
{
    match world.turn(alloc, strand) {
        Turned::NoMemory => false,
        Turned::Acted | Turned::Over(_) | Turned::NotReady => true,
    }
}

// The calls for strands that are lent, each with what it says of the run.
fn lend_any(world: &mut World, strand: u32) -> Option<Strand>
    ensures goes { GoesFrom world.old world.new }
    ensures lends { LendOf world.old strand result world.new }
{
    let lent = world.lend(strand);
    lent
}

fn act_any(alloc: Global, world: &mut World, strand: &Strand) -> Result<Reply, Turned>
    requires { IsHeld world.old strand.now }
    ensures goes { GoesFrom world.old world.new }
    ensures acts { ActOf world.old strand.now result world.new }
{
    let done = world.act(alloc, strand);
    done
}

fn back_any(alloc: Global, world: &mut World, strand: Strand)
    requires lent { IsNumber world.old strand.number StrandState.Lent }
    requires replay { is_spent strand.about.ask ≡ false → IsReplay world.old.code world.old.entries strand }
    ensures goes { GoesFrom world.old world.new }
    ensures back { BackOf world.old strand (is_spent strand.about.ask) world.new }
{
    world.back(alloc, strand);
}

impl<J: GivenRun> HeldWorld<J> {
    /// The world that was handed in. Behind so many events several workers leave a first strand that is alone to one.
    pub fn new(world: World, sole: u64) -> HeldWorld<J>
        requires code { world.code ∷ [] ≡ J.code }
        requires fuel { world.fuel ≡ J.fuel }
        requires first { world.entries ≡ J.first }
        ensures { result.world ≡ world }
    {
        HeldWorld {
            world,
            sole,
            of: PhantomData,
        }
    }

    /// The world as it is now.
    pub fn into_world(self) -> World
        ensures same { result ≡ self.world }
        ensures code { result.code ∷ [] ≡ J.code }
        ensures fuel { result.fuel ≡ J.fuel }
        ensures goes_on { take (length J.first) result.entries ≡ J.first }
    {
        let HeldWorld { world, .. } = self;
        world
    }

    /// The world, to look at.
    pub fn world(&self) -> &World
        ensures same { result.now ≡ self.now.world }
        ensures code { self.now.world.code ∷ [] ≡ J.code }
    {
        &self.world
    }

    /// Is the first strand alone, behind so many events that it is left to one worker?
    pub fn is_left(&self) -> bool {
        self.world.events() >= self.sole && self.world.is_alone()
    }

    /// What is known of every run.
    pub fn known(&self)
        ensures known { IsSoundRun self.now.world }
        ensures code { self.now.world.code ∷ [] ≡ J.code }
    {
        let _known = self.world.code();
    }

    /// A turn of this strand. Tells whether there was memory.
    pub fn turn(&mut self, alloc: Global, strand: u32) -> bool
        ensures { IsAtRest self.old.world → IsAtRest self.new.world }
    {
        turn_any(alloc, &mut self.world, strand)
    }

    /// `World::lend`.
    pub fn lend(&mut self, strand: u32) -> Option<Strand>
        ensures { LendOf self.old.world strand result self.new.world }
    {
        lend_any(&mut self.world, strand)
    }

    /// `World::act`.
    pub fn act(&mut self, alloc: Global, strand: &Strand) -> Result<Reply, Turned>
        requires { IsHeld self.old.world strand.now }
        ensures { ActOf self.old.world strand.now result self.new.world }
    {
        act_any(alloc, &mut self.world, strand)
    }

    /// `World::back`.
    pub fn back(&mut self, alloc: Global, strand: Strand)
        requires lent { IsNumber self.old.world strand.number StrandState.Lent }
        requires replay { is_spent strand.about.ask ≡ false → IsReplay self.old.world.code self.old.world.entries strand }
        ensures { BackOf self.old.world strand (is_spent strand.about.ask) self.new.world }
    {
        back_any(alloc, &mut self.world, strand);
    }
}
