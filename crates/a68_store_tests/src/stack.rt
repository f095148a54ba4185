//! What is put on a stack and taken off it.
use crate::table::holds;
use a68_acts::Counter;
use a68_stack::{Item, Stack};
use a68_values::{Plain, Value};
use a68_values_tests::plain;
use std::alloc::Global;
use std::panic::Expect;
use std::process::Abort;

const COUNTER: Counter = Counter {
    at: 1,
    by: 2,
    to: None,
};

// A counter above a value.
fn counts(rt: &impl Abort, stack: &mut Stack) {
    stack.push_plain(Plain::Int(1)).expect(rt, "memory");
    stack.push(Item::Counter(COUNTER)).expect(rt, "memory");
    holds(rt, stack.take_plain() == None, "a counter is no value");
    holds(rt, stack.counter() == Some(COUNTER), "a counter");
    holds(rt, stack.take_counter() == Some(COUNTER), "a counter");
    holds(rt, stack.take_counter() == None, "one counter");
}

#[test]
fn values_and_counters(rt: HostRuntime) {
    let mut stack = Stack::new(rt.alloc());
    counts(&rt, &mut stack);
    let scope = stack.top_scope();
    stack.push_plain(Plain::Int(2)).expect(&rt, "memory");
    let (first, second) = (stack.take_two(), stack.take_two());
    let two = (Plain::Int(1), Plain::Int(2));
    holds(
        &rt,
        (scope, first, second) == (Some(0), Some(two), None),
        "two values",
    );
    drop(stack);
}

fn push_all(rt: &impl Abort, stack: &mut Stack) {
    for value in 1..5 {
        stack
            .push(Item::Value(Value::of(Plain::Int(value))))
            .expect(rt, "memory");
    }
}

// The topmost two, of which 4 is the first.
fn gives_many(rt: &impl Abort, alloc: Global, stack: &mut Stack) {
    let many = stack
        .pop_many(alloc, 2)
        .expect(rt, "memory")
        .expect(rt, "two values");
    holds(rt, many.items.len() == 2, "two values");
    let first = many.items.first().map(plain);
    holds(rt, first == Some(Plain::Int(4)), "the topmost first");
    drop(many);
}

// The other two, and no more.
fn gives_two(rt: &impl Abort, stack: &mut Stack) {
    let (one, two) = stack.pop_two().expect(rt, "two values");
    holds(rt, plain(&one) == Plain::Int(1), "the first");
    holds(rt, plain(&two) == Plain::Int(2), "the second");
    drop(one);
    drop(two);
    let more = stack.pop();
    holds(rt, more.is_none(), "no more");
    drop(more);
}

#[test]
fn values_together(rt: HostRuntime) {
    let alloc = rt.alloc();
    let mut stack = Stack::new(alloc);
    push_all(&rt, &mut stack);
    gives_many(&rt, alloc, &mut stack);
    gives_two(&rt, &mut stack);
    drop(stack);
}
