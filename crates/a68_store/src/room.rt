//! Room for frames, slots and what is kept of them: it is made before anything changes, so that the lists grow without
//! fail.
ghost use Rattle.std.specs.Prelude.{◌≡◌, ◌<◌, ◌≤◌, ◌+◌, ◌++◌, ◌∷◌, [], None, take, drop, length, replicate, slice_get, OnErr, OnOk};
ghost use Rattle.std.specs.Option.{option_map_or};
ghost use Rattle.std.specs.Vec.{vec_len, vec_capacity};
ghost use Rattle.a68_store.specs.Frames.{frames_of, AreLaid, HasRoom};

use crate::frame::Frame;
use crate::slot::Slot;
use a68_base::NoMemory;
use a68_values::Value;
use std::alloc::Global;
use std::mem;

// Makes room for what is kept of a new frame, where it is frame 1.
fn make_room_to_keep(
    alloc: Global,
    frames: &[Frame],
    kept: &mut Vec<Option<Value>>,
    new: Frame,
) -> Result<(), NoMemory>
    requires none { kept.old.items ≡ [] }
    requires room { HasRoom frames.now kept.old }
    ensures none { kept.new.items ≡ [] }
    ensures ok { OnOk result (HasRoom (frames.now ++ new ∷ []) kept.new) }
    ensures err { OnErr result (HasRoom frames.now kept.new) }
{
    if frames.len() == 1 {
        let room = Vec::with_capacity(alloc, new.count as usize)?;
        let old = mem::replace(kept, room);
        drop(old);
    }
    Ok(())
}

/// Makes room for a new frame, its slots, and what is kept of it where it is frame 1. Mostly there is room already.
#[inline(always)]
pub fn make_room(
    alloc: Global,
    frames: &mut Vec<Frame>,
    bound: &mut Vec<Slot>,
    kept: &mut Vec<Option<Value>>,
    new: Frame,
) -> Result<(), NoMemory>
    requires none { kept.old.items ≡ [] }
    requires room { HasRoom frames.old.items kept.old }
    ensures frames { frames.new.items ≡ frames.old.items }
    ensures bound { bound.new.items ≡ bound.old.items }
    ensures none { kept.new.items ≡ [] }
    ensures frame_room { OnOk result (vec_len frames.new < vec_capacity frames.new) }
    ensures slots_room { OnOk result (vec_len bound.new + new.count ≤ vec_capacity bound.new) }
    ensures ok { OnOk result (HasRoom (frames.old.items ++ new ∷ []) kept.new) }
    ensures err { OnErr result (HasRoom frames.old.items kept.new) }
{
    let many = frames.len();
    if many == 1 {
        return make_more_room(alloc, frames, bound, kept, new);
    }
    if many >= frames.capacity() {
        return make_more_room(alloc, frames, bound, kept, new);
    }
    if new.count as usize > bound.capacity() - bound.len() {
        return make_more_room(alloc, frames, bound, kept, new);
    }
    Ok(())
}

// Makes room where there may be none yet.
#[cold]
#[inline(never)]
fn make_more_room(
    alloc: Global,
    frames: &mut Vec<Frame>,
    bound: &mut Vec<Slot>,
    kept: &mut Vec<Option<Value>>,
    new: Frame,
) -> Result<(), NoMemory>
    requires none { kept.old.items ≡ [] }
    requires room { HasRoom frames.old.items kept.old }
    ensures frames { frames.new.items ≡ frames.old.items }
    ensures bound { bound.new.items ≡ bound.old.items }
    ensures none { kept.new.items ≡ [] }
    ensures frame_room { OnOk result (vec_len frames.new < vec_capacity frames.new) }
    ensures slots_room { OnOk result (vec_len bound.new + new.count ≤ vec_capacity bound.new) }
    ensures ok { OnOk result (HasRoom (frames.old.items ++ new ∷ []) kept.new) }
    ensures err { OnErr result (HasRoom frames.old.items kept.new) }
{
    frames.reserve(1)?;
    bound.reserve(new.count as usize)?;
    make_room_to_keep(alloc, frames, kept, new)
}

/// Adds a frame to a list that has room for it.
#[inline(always)]
pub fn push_frame(frames: &mut Vec<Frame>, frame: Frame)
    requires { vec_len frames.old < vec_capacity frames.old }
    ensures { frames.new.items ≡ frames.old.items ++ frame ∷ [] }
{
    frames.push_reserved(frame);
}

// Adds a slot to a list that has room for it.
#[inline(always)]
fn push_unbound(bound: &mut Vec<Slot>)
    requires { vec_len bound.old < vec_capacity bound.old }
    ensures items { bound.new.items ≡ bound.old.items ++ None ∷ [] }
    ensures len { vec_len bound.new ≡ vec_len bound.old + 1 }
    ensures capacity { vec_capacity bound.old ≤ vec_capacity bound.new }
{
    bound.push_reserved(Slot::unbound());
}

/// Adds so many slots that are not bound to a list that has room for them.
#[inline(always)]
pub fn add_unbound(bound: &mut Vec<Slot>, slots: u32)
    requires { vec_len bound.old + slots ≤ vec_capacity bound.old }
    ensures { bound.new.items ≡ bound.old.items ++ replicate slots None }
{
    for _ in 0..slots {
        push_unbound(bound);
    }
}

// Adds what a slot is bound to, to a list that has room for it.
fn push_value(kept: &mut Vec<Option<Value>>, value: Option<Value>)
    requires { vec_len kept.old < vec_capacity kept.old }
    ensures items { kept.new.items ≡ kept.old.items ++ value ∷ [] }
    ensures len { vec_len kept.new ≡ vec_len kept.old + 1 }
    ensures capacity { vec_capacity kept.old ≤ vec_capacity kept.new }
{
    kept.push_reserved(value);
}

// What a slot is bound to; it is no longer bound.
fn take_value(slot: &mut Slot) -> Option<Value>
    ensures { result ≡ slot.old }
{
    mem::replace(slot, Slot::unbound()).into_value()
}

// Moves what so many slots are bound to, from this place on, into a list that has room for it.
fn move_values(kept: &mut Vec<Option<Value>>, bound: &mut [Slot], first: usize, count: usize)
    requires within { first + count ≤ length bound.old }
    requires none { kept.old.items ≡ [] }
    requires room { count ≤ vec_capacity kept.old }
    ensures { kept.new.items ≡ take count (drop first bound.old) }
{
    for i in 0..count {
        push_value(kept, take_value(&mut bound[first + i]));
    }
}

/// Moves what the slots of frame 1 are bound to into a list that has room for it. Where there is no frame 1 nothing is
/// moved.
pub fn keep(kept: &mut Vec<Option<Value>>, frames: &[Frame], bound: &mut [Slot])
    requires laid { AreLaid 0 frames.now (length bound.old) }
    requires none { kept.old.items ≡ [] }
    requires room { HasRoom frames.now kept.old }
    ensures { kept.new.items ≡ option_map_or (λ frame. frame.slots) (slice_get (frames_of bound.old frames.now) 1) [] }
{
    if let Some(frame) = frames.get(1) {
        move_values(kept, bound, frame.first as usize, frame.count as usize);
    }
}
