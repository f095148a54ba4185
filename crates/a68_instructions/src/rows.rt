//! The instructions on rows, each on a strand that stands before it.
#![tactic(auto, unfolding(a68_acts::specs::Operations::start))]

ghost use Rattle.std.specs.Prelude.{◌≡◌, ◌<◌, ◌-◌, ◌^◌, suc, IfOk, MatchOption, OnOk, List, reverse};
ghost use Rattle.a68_modes.specs.Nodes.{shape_at};
ghost use Rattle.a68_modes.specs.declared.shape.Shape.{Shape};
ghost use Rattle.a68_acts.specs.Operations as operations;
ghost use Rattle.a68_acts.specs.Rowing as rowing;
ghost use Rattle.a68_code.specs.Flow.{values_of_trims};
ghost use Rattle.a68_instructions.specs.Bodies.{state_of, stance_of, StaysWhereAsking};
ghost use Rattle.a68_instructions.specs.Machine.{operates};

use crate::body::{About, Body};
use crate::instructions::{fail, follow};
use crate::{Ask, Stance};
use a68_acts::Doing;
use a68_base::NoMemory;
use a68_code::slice_takes;
use a68_layout::TrimForms;
use a68_modes::{ModeId, Modes};
use a68_rows::{displayed, rowed, rowed_name, sliced, vacuous, widened};
use a68_values::{FaultKind, Values};
use std::alloc::Global;

// A slice of values, the latest of which comes first.
fn sliced_of(alloc: Global, forms: &TrimForms, latest_first: Values) -> Result<Doing, NoMemory>
    ensures { IfOk result (λ doing. doing ≡ rowing.sliced forms.now (reverse latest_first)) }
{
    let mut values = latest_first;
    values.items.reverse();
    let doing = sliced(alloc, forms, &values.items)?;
    Ok(doing)
}

// Slice of a row by one subscript or trimmer, which takes no list of the values.
fn slice_by_one(
    alloc: Global,
    forms: &TrimForms,
    body: &mut Body,
    about: &mut About,
) -> Result<(), NoMemory>
    requires at { body.old.at < 2 ^ 32 - 1 }
    requires idle { about.old.ask ≡ Ask.Runs }
    ensures state { (modes : List Shape) → OnOk result (state_of body.new (stance_of about.new) ≡ operates modes (state_of body.old Stance.Idle) (operations.slice forms.now) 2) }
    ensures stays { OnOk result (StaysWhereAsking about.new.ask body.old.at body.new.at) }
    ensures room { body.new.stack.room ≡ body.old.stack.room }
{
    let doing = match body.stack.pop_two() {
        None => Doing::Meets(FaultKind::Kind),
        Some((row, index)) => sliced(alloc, forms, &[row, index])?,
    };
    follow(body, about, true, doing)
}

// Slice of a row by two of them, which takes no list of the values.
fn slice_by_two(
    alloc: Global,
    forms: &TrimForms,
    body: &mut Body,
    about: &mut About,
) -> Result<(), NoMemory>
    requires at { body.old.at < 2 ^ 32 - 1 }
    requires idle { about.old.ask ≡ Ask.Runs }
    ensures state { (modes : List Shape) → OnOk result (state_of body.new (stance_of about.new) ≡ operates modes (state_of body.old Stance.Idle) (operations.slice forms.now) 3) }
    ensures stays { OnOk result (StaysWhereAsking about.new.ask body.old.at body.new.at) }
    ensures room { body.new.stack.room ≡ body.old.stack.room }
{
    let doing = match body.stack.pop_three() {
        None => Doing::Meets(FaultKind::Kind),
        Some((row, first, second)) => sliced(alloc, forms, &[row, first, second])?,
    };
    follow(body, about, true, doing)
}

// Slice of a row by any number of them, on so many values with the row.
fn slice_by_many(
    alloc: Global,
    forms: &TrimForms,
    count: usize,
    body: &mut Body,
    about: &mut About,
) -> Result<(), NoMemory>
    requires at { body.old.at < 2 ^ 32 - 1 }
    requires idle { about.old.ask ≡ Ask.Runs }
    ensures state { (modes : List Shape) → OnOk result (state_of body.new (stance_of about.new) ≡ operates modes (state_of body.old Stance.Idle) (operations.slice forms.now) count) }
    ensures stays { OnOk result (StaysWhereAsking about.new.ask body.old.at body.new.at) }
    ensures room { body.new.stack.room ≡ body.old.stack.room }
{
    let doing = match body.stack.pop_many(alloc, count)? {
        None => Doing::Meets(FaultKind::Kind),
        Some(latest_first) => sliced_of(alloc, forms, latest_first)?,
    };
    follow(body, about, true, doing)
}

// Slice, on so many values.
fn slice_values(
    alloc: Global,
    forms: &TrimForms,
    count: usize,
    body: &mut Body,
    about: &mut About,
) -> Result<(), NoMemory>
    requires at { body.old.at < 2 ^ 32 - 1 }
    requires idle { about.old.ask ≡ Ask.Runs }
    ensures state { (modes : List Shape) → OnOk result (state_of body.new (stance_of about.new) ≡ operates modes (state_of body.old Stance.Idle) (operations.slice forms.now) count) }
    ensures stays { OnOk result (StaysWhereAsking about.new.ask body.old.at body.new.at) }
    ensures room { body.new.stack.room ≡ body.old.stack.room }
{
    match count {
        2 => slice_by_one(alloc, forms, body, about),
        3 => slice_by_two(alloc, forms, body, about),
        _ => slice_by_many(alloc, forms, count, body, about),
    }
}

// How many values a slice takes; none where there are fewer.
fn takes_within(forms: &TrimForms, most: usize) -> Option<usize>
    ensures { MatchOption result (most < suc (values_of_trims forms.now)) (λ count. count ≡ suc (values_of_trims forms.now)) }
{
    let Some(count) = slice_takes(&forms.items) else {
        return None;
    };
    if count > most {
        return None;
    }
    Some(count)
}

/// Slice.
pub fn slice(
    alloc: Global,
    forms: &TrimForms,
    body: &mut Body,
    about: &mut About,
) -> Result<(), NoMemory>
    requires at { body.old.at < 2 ^ 32 - 1 }
    requires idle { about.old.ask ≡ Ask.Runs }
    ensures state { (modes : List Shape) → OnOk result (state_of body.new (stance_of about.new) ≡ operates modes (state_of body.old Stance.Idle) (operations.slice forms.now) (suc (values_of_trims forms.now))) }
    ensures stays { OnOk result (StaysWhereAsking about.new.ask body.old.at body.new.at) }
    ensures room { body.new.stack.room ≡ body.old.stack.room }
{
    let most = body.stack.len();
    match takes_within(forms, most) {
        None => {
            fail(body, about, FaultKind::Kind);
            Ok(())
        }
        Some(count) => slice_values(alloc, forms, count, body, about),
    }
}

// A row, of this mode, of values, the latest of which comes first.
fn displayed_of(
    alloc: Global,
    modes: &Modes,
    mode: ModeId,
    latest_first: Values,
) -> Result<Doing, NoMemory>
    ensures { IfOk result (λ doing. doing ≡ rowing.displayed (shape_at modes.now mode) (reverse latest_first)) }
{
    let mut values = latest_first;
    values.items.reverse();
    let doing = displayed(alloc, modes, mode, values)?;
    Ok(doing)
}

/// Display.
pub fn display(
    alloc: Global,
    modes: &Modes,
    count: u32,
    mode: ModeId,
    body: &mut Body,
    about: &mut About,
) -> Result<(), NoMemory>
    requires at { body.old.at < 2 ^ 32 - 1 }
    requires idle { about.old.ask ≡ Ask.Runs }
    ensures state { OnOk result (state_of body.new (stance_of about.new) ≡ operates modes.now (state_of body.old Stance.Idle) (operations.display count mode) count) }
    ensures stays { OnOk result (StaysWhereAsking about.new.ask body.old.at body.new.at) }
    ensures room { body.new.stack.room ≡ body.old.stack.room }
{
    let doing = match body.stack.pop_many(alloc, count as usize)? {
        None => Doing::Meets(FaultKind::Kind),
        Some(latest_first) => displayed_of(alloc, modes, mode, latest_first)?,
    };
    follow(body, about, true, doing)
}

/// Vacuum.
pub fn vacuum(
    alloc: Global,
    modes: &Modes,
    mode: ModeId,
    body: &mut Body,
    about: &mut About,
) -> Result<(), NoMemory>
    requires at { body.old.at < 2 ^ 32 - 1 }
    requires idle { about.old.ask ≡ Ask.Runs }
    ensures state { OnOk result (state_of body.new (stance_of about.new) ≡ operates modes.now (state_of body.old Stance.Idle) (operations.vacuum mode) 0) }
    ensures stays { OnOk result (StaysWhereAsking about.new.ask body.old.at body.new.at) }
    ensures room { body.new.stack.room ≡ body.old.stack.room }
{
    let doing = vacuous(alloc, modes, mode)?;
    follow(body, about, true, doing)
}

/// RowUp.
pub fn row_up(
    alloc: Global,
    modes: &Modes,
    mode: ModeId,
    body: &mut Body,
    about: &mut About,
) -> Result<(), NoMemory>
    requires at { body.old.at < 2 ^ 32 - 1 }
    requires idle { about.old.ask ≡ Ask.Runs }
    ensures state { OnOk result (state_of body.new (stance_of about.new) ≡ operates modes.now (state_of body.old Stance.Idle) (operations.row_up mode) 1) }
    ensures stays { OnOk result (StaysWhereAsking about.new.ask body.old.at body.new.at) }
    ensures room { body.new.stack.room ≡ body.old.stack.room }
{
    let doing = match body.stack.pop_value() {
        None => Doing::Meets(FaultKind::Kind),
        Some(value) => rowed(alloc, modes, mode, value)?,
    };
    follow(body, about, true, doing)
}

/// RowUpName.
pub fn row_up_name(
    alloc: Global,
    modes: &Modes,
    mode: ModeId,
    body: &mut Body,
    about: &mut About,
) -> Result<(), NoMemory>
    requires at { body.old.at < 2 ^ 32 - 1 }
    requires idle { about.old.ask ≡ Ask.Runs }
    ensures state { OnOk result (state_of body.new (stance_of about.new) ≡ operates modes.now (state_of body.old Stance.Idle) (operations.row_up_name mode) 1) }
    ensures stays { OnOk result (StaysWhereAsking about.new.ask body.old.at body.new.at) }
    ensures room { body.new.stack.room ≡ body.old.stack.room }
{
    let doing = match body.stack.pop_value() {
        None => Doing::Meets(FaultKind::Kind),
        Some(name) => {
            let doing = rowed_name(alloc, modes, mode, &name);
            drop(name);
            doing?
        }
    };
    follow(body, about, true, doing)
}

/// Widen.
pub fn widen(alloc: Global, body: &mut Body, about: &mut About) -> Result<(), NoMemory>
    requires at { body.old.at < 2 ^ 32 - 1 }
    requires idle { about.old.ask ≡ Ask.Runs }
    ensures state { (modes : List Shape) → OnOk result (state_of body.new (stance_of about.new) ≡ operates modes (state_of body.old Stance.Idle) operations.widen 1) }
    ensures stays { OnOk result (StaysWhereAsking about.new.ask body.old.at body.new.at) }
    ensures room { body.new.stack.room ≡ body.old.stack.room }
{
    let doing = match body.stack.pop_value() {
        None => Doing::Meets(FaultKind::Kind),
        Some(value) => {
            let doing = widened(alloc, &value);
            drop(value);
            doing?
        }
    };
    follow(body, about, true, doing)
}
