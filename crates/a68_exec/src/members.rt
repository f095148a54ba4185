//! The instruction that chooses by the member that a united value has.
ghost use Rattle.std.specs.Prelude.{◌≡◌, true, Ok, OnOk};
ghost use Rattle.a68_modes.specs.Nodes.{shape_at};
ghost use Rattle.a68_instructions.specs.Bodies.{state_of, stance_of, StaysWhereAsking};
ghost use Rattle.a68_instructions.specs.Machine as machine;
ghost use Rattle.a68_values.specs.Content.{is_united};

use crate::control::place_in;
use a68_base::NoMemory;
use a68_code::{Places, last_place};
use a68_instructions::{About, Ask, Body, Stance, fail};
use a68_modes::{ModeId, Modes};
use a68_perform::member_of;
use a68_stack::Item;
use a68_values::{FaultKind, Plain, Value};

// The value united in one, or the united one where it is so said.
fn kept_of(whole: u32, value: Value) -> Value
    requires { is_united value ≡ true }
    ensures { result ≡ machine.kept_of whole value }
{
    if whole != 0 {
        return value;
    }
    match value.into_member() {
        Some((_, inner)) => inner,
        None => Value::of(Plain::Unset),
    }
}

// To the place of a member, by its number: nothing is left where that is the last one, else what is kept of the value.
fn to_member(
    places: &Places,
    whole: &Places,
    number: usize,
    value: Value,
    body: &mut Body,
) -> Result<(), NoMemory>
    requires { is_united value ≡ true }
    ensures state { OnOk result (state_of body.new Stance.Idle
        ≡ machine.to_member (state_of body.old Stance.Idle) places.now whole.now body.old.stack.items value (Ok number)) }
    ensures room { body.new.stack.room ≡ body.old.stack.room }
{
    let to = place_in(places, number);
    if to == last_place(&places.items) {
        drop(value);
    } else {
        let kept = kept_of(place_in(whole, number), value);
        body.stack.push(Item::Value(kept))?;
    }
    body.at = to;
    Ok(())
}

/// Member.
pub fn member(
    modes: &Modes,
    mode: ModeId,
    places: &Places,
    whole: &Places,
    body: &mut Body,
    about: &mut About,
) -> Result<(), NoMemory>
    requires idle { about.old.ask ≡ Ask.Runs }
    ensures state { OnOk result (state_of body.new (stance_of about.new)
        ≡ machine.members (shape_at modes.now mode) (state_of body.old Stance.Idle) places.now whole.now body.old.stack.items) }
    ensures stays { OnOk result (StaysWhereAsking about.new.ask body.old.at body.new.at) }
    ensures room { body.new.stack.room ≡ body.old.stack.room }
{
    let Some(value) = body.stack.pop_value() else {
        fail(body, about, FaultKind::Kind);
        return Ok(());
    };
    match member_of(modes, mode, &value) {
        Ok(number) => to_member(places, whole, number, value, body),
        Err(kind) => {
            drop(value);
            fail(body, about, kind);
            Ok(())
        }
    }
}
