//! Each act of a store, by hand.
#![tactic(auto, unfolding(a68_acts::specs::Does::does))]

ghost use Rattle.std.specs.Prelude.{◌≡◌, ◌∷◌, [], false, length};
ghost use Rattle.a68_acts.specs.Store.{opening_store, standard_frame};
ghost use Rattle.a68_store_tests.specs.Stores.{entered, bound, forked};

use crate::table::holds;
use a68_acts::Want;
use a68_layout::Plan;
use a68_store::{Store, StoreStop};
use a68_values::{Cells, Chain, Entrances, Environ, FaultKind, Held, Plain, Value};
use a68_values_tests::{plain, plain_in};
use std::alloc::Global;
use std::panic::Expect;
use std::process::Abort;

const UNSET: StoreStop = StoreStop::Fault(FaultKind::Unset);

const FULL: StoreStop = StoreStop::Fault(FaultKind::Cells);

const KIND: StoreStop = StoreStop::Fault(FaultKind::Kind);

const OVERFLOW: StoreStop = StoreStop::Fault(FaultKind::Overflow);

const STRANDS: StoreStop = StoreStop::Fault(FaultKind::Strands);

const FRAMES: [Environ; 2] = [
    Environ { frame: 0, scope: 0 },
    Environ { frame: 1, scope: 1 },
];

// A frame of two slots.
fn enters(rt: &impl Abort, alloc: Global, store: &mut Store)
    requires { store.old ≡ opening_store }
    ensures { store.new ≡ entered }
{
    holds(rt, store.frames() == 1, "one frame");
    holds(rt, store.slots(0) == 0, "no slots");
    let chain = store.enter(alloc, 0, 1, 2).ok().expect(rt, "a frame");
    let has_both = chain.inwards() == FRAMES.as_slice();
    holds(rt, has_both, "a new frame");
    drop(chain);
    let unset = store.look(alloc, 1, 0).err();
    holds(rt, unset == Some(UNSET), "an unset slot");
}

// Its first slot is bound to 5.
fn binds(rt: &impl Abort, alloc: Global, store: &mut Store)
    requires { store.old ≡ entered }
    ensures { store.new ≡ bound }
{
    holds(
        rt,
        store.bind(1, 0, Value::of(Plain::Int(5))).is_ok(),
        "a slot is bound",
    );
    let value = store.look(alloc, 1, 0).ok().expect(rt, "a value");
    let first = plain(&value);
    drop(value);
    let second = store.look(alloc, 1, 1).err();
    holds(
        rt,
        (first, second) == (Plain::Int(5), Some(UNSET)),
        "what slots are bound to",
    );
}

#[test]
fn slots(rt: HostRuntime) {
    let alloc = rt.alloc();
    let mut store = Store::new(alloc).expect(&rt, "memory");
    enters(&rt, alloc, &mut store);
    binds(&rt, alloc, &mut store);
    let first = store.plain_at(1, 0);
    let others = (store.plain_at(1, 1), store.plain_at(2, 0));
    drop(store);
    holds(
        &rt,
        (first, others) == (Some(Plain::Int(5)), (None, None)),
        "plain slots",
    );
}

// A new cell is the first.
fn make(rt: &impl Abort, alloc: Global, store: &mut Store)
    requires { store.old.frames ≡ standard_frame ∷ [] }
    ensures { store.new.frames ≡ standard_frame ∷ [] }
{
    let items = vec![in alloc; Held::Plain(Plain::Unset)].expect(rt, "memory");
    let plan = Plan {
        cells: Cells { items },
        shifted: false,
    };
    let made = store.make(&plan).ok();
    drop(plan);
    holds(rt, made == Some(0), "a cell");
}

// The only cell holds this.
fn fetches(rt: &impl Abort, alloc: Global, store: &Store, wanted: Plain) {
    holds(rt, store.cells() == 1, "one cell");
    let held = store.fetch(0).expect(rt, "memory");
    holds(rt, plain_in(&held) == Some(wanted), "what the cell holds");
    drop(held);
}

fn assigns(rt: &impl Abort, store: &mut Store)
    requires { store.old.frames ≡ standard_frame ∷ [] }
    ensures { store.new.frames ≡ standard_frame ∷ [] }
{
    holds(rt, store.cells() == 1, "one cell");
    store.assign(0, Held::Plain(Plain::Int(7)));
    let seven = Some(Plain::Int(7));
    holds(
        rt,
        (store.plain_in(0), store.plain_in(1)) == (seven, None),
        "plain cells",
    );
}

fn is_full(rt: &impl Abort, alloc: Global, store: &mut Store)
    requires { store.old.frames ≡ standard_frame ∷ [] }
{
    let stop = store.enter(alloc, 0, 1, 4_194_304).err();
    holds(rt, stop == Some(FULL), "the store is full");
    holds(rt, store.cells() == 1, "one cell");
}

#[test]
fn cells(rt: HostRuntime) {
    let alloc = rt.alloc();
    let mut store = Store::new(alloc).expect(&rt, "memory");
    make(&rt, alloc, &mut store);
    fetches(&rt, alloc, &store, Plain::Unset);
    assigns(&rt, &mut store);
    fetches(&rt, alloc, &store, Plain::Int(7));
    is_full(&rt, alloc, &mut store);
    drop(store);
}

// New cells for a union whose member is planned to lie so many cells behind the first one.
fn make_shifted(
    rt: &impl Abort,
    alloc: Global,
    store: &mut Store,
    behind: u32,
) -> Result<u32, StoreStop> {
    let member = Held::Member {
        mode: 1,
        base: behind,
    };
    let items = vec![in alloc; member, Held::Plain(Plain::Unset)].expect(rt, "memory");
    let plan = Plan {
        cells: Cells { items },
        shifted: true,
    };
    let made = store.make(&plan);
    drop(plan);
    made
}

// The third cell names the fourth one.
fn names_the_last(rt: &impl Abort, alloc: Global, store: &Store) {
    holds(rt, store.cells() == 4, "four cells");
    let held = store.fetch(2).expect(rt, "memory");
    holds(
        rt,
        matches!(&held, Held::Member { mode: 1, base: 3 }),
        "the member's cell",
    );
    drop(held);
}

// The cells that a plan names are counted from its first one; a plan names no cells behind its own.
#[test]
fn shifted_plans(rt: HostRuntime) {
    let alloc = rt.alloc();
    let mut store = Store::new(alloc).expect(&rt, "memory");
    let first = make_shifted(&rt, alloc, &mut store, 1);
    let second = make_shifted(&rt, alloc, &mut store, 1);
    let beyond = make_shifted(&rt, alloc, &mut store, 3);
    holds(&rt, (first, second) == (Ok(0), Ok(2)), "two plans");
    let kind = Err(StoreStop::Fault(FaultKind::Kind));
    holds(&rt, beyond == kind, "a cell that is not planned");
    names_the_last(&rt, alloc, &store);
    drop(store);
}

// A piece that is printed stands from one byte to another.
fn prints(rt: &impl Abort, store: &mut Store, piece: &[u8], from: u32, to: u32) {
    let printed = store.print(piece).ok().expect(rt, "a span");
    holds(rt, printed.from == from, "where it begins");
    holds(rt, printed.to == to, "where it ends");
}

#[test]
fn text(rt: HostRuntime) {
    let mut store = Store::new(rt.alloc()).expect(&rt, "memory");
    prints(&rt, &mut store, b"a", 0, 1);
    prints(&rt, &mut store, b"bc", 1, 3);
    drop(store);
}

/// What a cell holds, what comes of a semaphore in it that is raised, and what the cell holds then.
const RAISED: &[(Plain, Result<(), StoreStop>, Plain)] = &[
    (Plain::Int(1), Ok(()), Plain::Int(2)),
    (Plain::Int(0), Ok(()), Plain::Int(1)),
    (Plain::Int(-1), Ok(()), Plain::Int(0)),
    (
        Plain::Int(9223372036854775806),
        Ok(()),
        Plain::Int(9223372036854775807),
    ),
    (
        Plain::Int(9223372036854775807),
        Err(OVERFLOW),
        Plain::Int(9223372036854775807),
    ),
    (Plain::Unset, Err(KIND), Plain::Unset),
    (Plain::Sema(0), Err(KIND), Plain::Sema(0)),
];

/// The same of one that is lowered.
const LOWERED: &[(Plain, Result<(), StoreStop>, Plain)] = &[
    (Plain::Int(2), Ok(()), Plain::Int(1)),
    (Plain::Int(1), Ok(()), Plain::Int(0)),
    (Plain::Int(0), Err(StoreStop::Waits), Plain::Int(0)),
    (Plain::Int(-1), Err(StoreStop::Waits), Plain::Int(-1)),
    (
        Plain::Int(9223372036854775807),
        Ok(()),
        Plain::Int(9223372036854775806),
    ),
    (Plain::Unset, Err(KIND), Plain::Unset),
    (Plain::Sema(0), Err(KIND), Plain::Sema(0)),
];

// A store of one cell that holds this.
fn one_cell(rt: &impl Abort, alloc: Global, held: Plain) -> Store {
    let mut store = Store::new(alloc).expect(rt, "memory");
    make(rt, alloc, &mut store);
    holds(rt, store.cells() == 1, "one cell");
    store.assign(0, Held::Plain(held));
    store
}

#[test]
fn semaphores_are_raised(rt: HostRuntime) {
    for (old, answer, new) in RAISED {
        let mut store = one_cell(&rt, rt.alloc(), *old);
        holds(&rt, store.up(1) == Err(KIND), "a cell that is not there");
        holds(&rt, store.up(0) == *answer, "what comes of it");
        holds(&rt, store.plain_in(0) == Some(*new), "its count");
        drop(store);
    }
}

#[test]
fn semaphores_are_lowered(rt: HostRuntime) {
    for (old, answer, new) in LOWERED {
        let mut store = one_cell(&rt, rt.alloc(), *old);
        holds(&rt, store.down(1) == Err(KIND), "a cell that is not there");
        let waits = store.waits(&Want::Down { cell: 0 });
        let has_to = *answer == Err(StoreStop::Waits);
        holds(&rt, waits == has_to, "what has to wait");
        holds(&rt, store.down(0) == *answer, "what comes of it");
        holds(&rt, store.plain_in(0) == Some(*new), "its count");
        drop(store);
    }
}

// The units of a parallel clause, all of which begin at 7.
fn units(rt: &impl Abort, alloc: Global, count: usize) -> Entrances
    ensures { length result ≡ count }
{
    Entrances {
        items: vec![in alloc; 7; count].expect(rt, "memory"),
    }
}

// The two units of a parallel clause get strands.
fn forks(rt: &impl Abort, alloc: Global, store: &mut Store)
    requires { store.old ≡ opening_store }
    ensures { store.new ≡ forked }
{
    let both = units(rt, alloc, 2);
    let first = store.fork(&both).ok().expect(rt, "strands");
    holds(rt, first == 1, "the program is strand 0");
    drop(both);
}

/// The units of the further parallel clauses of a run, and what comes of each: the run has 65,536 strands at most.
const FORKED: &[(usize, Result<u32, StoreStop>, Option<FaultKind>)] = &[
    (3, Ok(3), None),
    (65_531, Err(STRANDS), Some(FaultKind::Strands)),
    (65_530, Ok(6), None),
    (2, Err(STRANDS), Some(FaultKind::Strands)),
];

#[test]
fn strands(rt: HostRuntime) {
    let alloc = rt.alloc();
    let mut store = Store::new(alloc).expect(&rt, "memory");
    forks(&rt, alloc, &mut store);
    for (count, answer, fault) in FORKED {
        let want = Want::Fork(units(&rt, alloc, *count));
        holds(
            &rt,
            store.fault_of(&want) == *fault,
            "whether there is room",
        );
        holds(&rt, !store.waits(&want), "no Fork has to wait");
        drop(want);
        let entrances = units(&rt, alloc, *count);
        holds(&rt, store.fork(&entrances) == *answer, "the first of them");
        drop(entrances);
    }
    holds(&rt, store.fault_of(&Want::Close).is_none(), "a unit closes");
    holds(&rt, !store.waits(&Want::Close), "no Close has to wait");
    drop(store);
}
