//! Runs by several workers.
use crate::calls::{answers, of_words};
use crate::table::{holds, strings};
use a68_outside::{FreeGate, Gate, MemoryShelf, MemorySink};
use a68_top::a68;
use std::alloc::Global;
use std::marker::Sync;
use std::panic::Expect;
use std::process::Abort;
use std::sync::Wait;
use std::sync::atomic::{AtomicU64, Ordering};
use std::thread::Threads;

// Does a call over this gate end with this status, and print one of these texts?
fn runs<R: Threads + Wait + Sync + Abort, G: Gate>(
    rt: &R,
    alloc: Global,
    words: &[&str],
    text: &str,
    gate: &G,
    status: u8,
    texts: &[&str],
) {
    let words = strings(rt, alloc, words);
    let mut shelf = MemoryShelf::new(alloc, "f", text.as_bytes(), 100, &[]).expect(rt, "memory");
    let mut out = MemorySink::new(alloc, 1000, 100, &[]).expect(rt, "memory");
    let mut notes = MemorySink::new(alloc, 200, 100, &[]).expect(rt, "memory");
    let finish = a68(rt, alloc, &words, &mut shelf, &mut out, &mut notes, gate);
    holds(rt, finish.status.number() == status, "the status");
    let is_permitted = texts.iter().any(|text| out.taken() == text.as_bytes());
    holds(rt, is_permitted, "what is printed");
    drop(finish);
    drop(notes);
    drop(out);
    drop(shelf);
    drop(words);
}

/// Texts, the status, and what may be printed.
const PARALLEL: &[(&str, u8, &[&str])] = &[
    (
        "( SEMA s = LEVEL 0; PAR ( (DOWN s; print(\"b\")), (print(\"a\"); UP s) ) )",
        0,
        &["ab"],
    ),
    (
        "( INT x := 0; PAR ( x := x + 1, x := x + 1 ); print(x) )",
        0,
        &["                  +1", "                  +2"],
    ),
    (
        "( [1:4] INT buf; INT in := 1, out := 1; SEMA free = LEVEL 4, full = LEVEL 0, one = LEVEL 1; PAR ( FOR i TO 20 DO DOWN free; DOWN one; buf[in] := i * i; in := in MOD 4 + 1; UP one; UP full OD, TO 20 DO DOWN full; DOWN one; print((whole(buf[out], 0), space)); out := out MOD 4 + 1; UP one; UP free OD ) )",
        0,
        &["1 4 9 16 25 36 49 64 81 100 121 144 169 196 225 256 289 324 361 400 "],
    ),
    (
        "( SEMA a = LEVEL 0, b = LEVEL 0; PAR ( (DOWN a; UP b), (DOWN b; UP a) ) )",
        4,
        &[""],
    ),
];

#[test]
fn workers_run_strands(rt: HostRuntime) {
    for workers in ["1", "2", "4", "64"] {
        for (text, status, texts) in PARALLEL {
            let words = ["run", "f", "--workers", workers];
            runs(&rt, rt.alloc(), &words, text, &FreeGate, *status, texts);
        }
    }
}

#[test]
fn workers_run_made_texts(rt: HostRuntime) {
    for workers in ["1", "4", "64"] {
        let words = ["make", "2000", "--workers", workers];
        let due = ["            +2001000"];
        runs(&rt, rt.alloc(), &words, "", &FreeGate, 0, &due);
    }
}

/// A semaphore by which one unit waits for the other.
const FIRST_AND_THEN: &str =
    "( SEMA s = LEVEL 0; PAR ( (DOWN s; print(\"b\")), (print(\"a\"); UP s) ) )";

// What is told, and how many events there are, is the same with any number of workers.
#[test]
fn workers_tell_what_one_tells(rt: HostRuntime) {
    for workers in ["1", "4", "64"] {
        let run = ["run", "f", "--workers", workers];
        let words = of_words(&run, FIRST_AND_THEN);
        let events = answers(&rt, rt.alloc(), words, 0, ("ab", ""));
        holds(&rt, events == 13, "events of two units");
        let words = of_words(&run, "( print(max int + 1) )");
        let notes = "a68: fault Overflow at byte 8\n";
        let events = answers(&rt, rt.alloc(), words, 3, ("", notes));
        holds(&rt, events == 0, "events before a fault");
        let make = ["make", "3", "--workers", workers];
        let told = ("                  +6", "units 3 events 38\n");
        let events = answers(&rt, rt.alloc(), of_words(&make, ""), 0, told);
        holds(&rt, events == 38, "events of a made text");
    }
}

// A gate that holds the first passes of strands 1 and 2 until both have begun.
#[derive(Drop)]
struct Meeting {
    first: AtomicU64,
    second: AtomicU64,
    // How many of the two have met the other.
    met: AtomicU64,
}

fn no_meeting() -> Meeting {
    Meeting {
        first: AtomicU64::new(0),
        second: AtomicU64::new(0),
        met: AtomicU64::new(0),
    }
}

// As often as one looks for the other.
const MOST_LOOKS: u32 = 100_000_000;

// The first pass of a strand begins, and waits for that of the other.
fn meet(own: &AtomicU64, other: &AtomicU64, met: &AtomicU64) {
    if own.fetch_add(1, Ordering::SeqCst) > 0 {
        return;
    }
    for _ in 0..MOST_LOOKS {
        if other.load(Ordering::SeqCst) > 0 {
            met.fetch_add(1, Ordering::SeqCst);
            return;
        }
    }
}

impl Gate for Meeting {
    fn pass(&self, _worker: u32, strand: u32, _events: u64) {
        match strand {
            1 => meet(&self.first, &self.second, &self.met),
            2 => meet(&self.second, &self.first, &self.met),
            _ => {}
        }
    }
}

/// Two units that print.
const TWO_UNITS: &str = "( PAR ( (print(\"a\"); print(\"c\")), print(\"b\") ) )";

#[test]
fn two_strands_meet(rt: HostRuntime) {
    let gate = no_meeting();
    let words = ["run", "f", "--workers", "2"];
    let due = ["abc", "acb", "bac"];
    runs(&rt, rt.alloc(), &words, TWO_UNITS, &gate, 0, &due);
    holds(
        &rt,
        gate.met.load(Ordering::SeqCst) == 2,
        "the two strands met",
    );
}

// A gate that keeps the places at which strands 1 and 2 first stand outside, and holds each of the two there until both
// have come. A strand stands outside while its act is done, the turn is given on, and it is not yet told the reply.
#[derive(Drop)]
struct Outside {
    meeting: Meeting,
    first_place: AtomicU64,
    second_place: AtomicU64,
}

// Keeps the place, where it is the first one of the strand.
fn keep_first(place: &AtomicU64, seen: &AtomicU64, found: u32) {
    if seen.load(Ordering::SeqCst) == 0 {
        place.store(u64::from(found), Ordering::SeqCst);
    }
}

impl Gate for Outside {
    fn pass(&self, _worker: u32, _strand: u32, _events: u64) {}

    fn out(&self, _worker: u32, strand: u32, place: u32) {
        let Meeting { first, second, met } = &self.meeting;
        match strand {
            1 => {
                keep_first(&self.first_place, first, place);
                meet(first, second, met);
            }
            2 => {
                keep_first(&self.second_place, second, place);
                meet(second, first, met);
            }
            _ => {}
        }
    }
}

#[test]
fn strands_are_out(rt: HostRuntime) {
    let gate = Outside {
        meeting: no_meeting(),
        first_place: AtomicU64::new(0),
        second_place: AtomicU64::new(0),
    };
    let words = ["run", "f", "--workers", "2"];
    let due = ["abc", "acb", "bac"];
    runs(&rt, rt.alloc(), &words, TWO_UNITS, &gate, 0, &due);
    let met = gate.meeting.met.load(Ordering::SeqCst);
    holds(&rt, met == 2, "the two strands were out at once");
    // Those of print("a") and of print("b").
    let places = (
        gate.first_place.load(Ordering::SeqCst),
        gate.second_place.load(Ordering::SeqCst),
    );
    holds(&rt, places == (9, 34), "where they stood");
}
