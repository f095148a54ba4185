//! Runs by several workers: under one lock, and with strands that are carried.
use crate::parallel::{LOCKED, PASSED, WITHIN};
use crate::table::holds;
use crate::world::world;
use a68_lease::run_leased;
use a68_outside::FreeGate;
use a68_values::End;
use a68_workers::run_all;
use a68_world::World;
use std::alloc::Global;
use std::marker::Sync;
use std::panic::Expect;
use std::process::Abort;
use std::sync::Wait;
use std::thread::Threads;

/// Runs: the instructions, how many events there are, and the end, whoever takes which turn.
const RUNS: &[(&str, u64, End)] = &[
    (PASSED, 11, End::Done),
    (LOCKED, 7, End::AllHalted),
    (WITHIN, 9, End::Done),
];

fn has_ended(rt: &impl Abort, world: World, events: u64, end: End, ops: &str) {
    holds(rt, world.events() == events, ops);
    holds(rt, world.end() == Some(end), ops);
    drop(world);
}

// The run, once by each way.
fn runs<R: Threads + Wait + Sync + Abort>(
    rt: &R,
    alloc: Global,
    workers: u32,
    row: &(&str, u64, End),
) {
    let (ops, events, end) = *row;
    holds(rt, 1 <= workers, "some workers");
    holds(rt, workers <= 64, "few workers");
    let run = world(rt, alloc, ops, 99);
    let run = run_all(rt, alloc, run, workers, &FreeGate).expect(rt, "memory");
    has_ended(rt, run, events, end, ops);
    let run = world(rt, alloc, ops, 99);
    let run = run_leased(rt, alloc, run, workers, &FreeGate).expect(rt, "memory");
    has_ended(rt, run, events, end, ops);
}

#[test]
fn workers_run_to_the_end(rt: HostRuntime) {
    for workers in [1, 2, 4, 64] {
        for row in RUNS {
            runs(&rt, rt.alloc(), workers, row);
        }
    }
}
