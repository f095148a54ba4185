//! Slots as the store keeps them.
ghost use Rattle.std.specs.Prelude.{◌≡◌, ◌-◌, ◌^◌, None, Some, true, min, is_some, IfOk, IfSome, MatchBool, OnErr};
ghost use Rattle.a68_acts.specs.Store.{slot_weight};
ghost use Rattle.a68_store.specs.Bound.{bound_of};
ghost use Rattle.a68_store.specs.Frames.{plain_bound};
ghost use Rattle.a68_values.specs.Content.{as_plain, plain};
ghost use Rattle.a68_values.specs.declared.plain.Plain.{Plain};

use crate::weight::weight;
use a68_base::NoMemory;
use a68_values::{Long, Name, Plain, Routine, Value};
use std::alloc::Global;
use std::marker::Model;

/// A slot. Contracts see the value that it is bound to, if it is.
pub struct Slot {
    pub node: SlotNode,
}

/// What a slot is bound to. A plain value stands in the slot by its kind, and any other one behind it, so that each slot is
/// small.
pub enum SlotNode {
    Unset,
    Int(i64),
    Long(Long),
    Bool(bool),
    Char(u8),
    Bits(u64),
    Nil,
    Name(Name),
    Routine(Routine),
    Sema(u32),
    Unbound,
    Other(Box<Value>),
}

impl Drop for Slot {
    fn drop(self) {
        let Slot { node: _ } = self;
    }
}

impl Drop for SlotNode {
    fn drop(self) {
        match self {
            SlotNode::Unset
            | SlotNode::Int(_)
            | SlotNode::Long(_)
            | SlotNode::Bool(_)
            | SlotNode::Char(_)
            | SlotNode::Bits(_)
            | SlotNode::Nil
            | SlotNode::Name(_)
            | SlotNode::Routine(_)
            | SlotNode::Sema(_)
            | SlotNode::Unbound
            | SlotNode::Other(_) => {}
        }
    }
}

impl SlotNode {
    // It is bound to a plain value.
    #[inline(always)]
    fn of_plain(held: Plain) -> SlotNode
        ensures { bound_of result ≡ Some (plain held) }
    {
        match held {
            Plain::Unset => SlotNode::Unset,
            Plain::Int(number) => SlotNode::Int(number),
            Plain::Long(number) => SlotNode::Long(number),
            Plain::Bool(holds) => SlotNode::Bool(holds),
            Plain::Char(code) => SlotNode::Char(code),
            Plain::Bits(bits) => SlotNode::Bits(bits),
            Plain::Nil => SlotNode::Nil,
            Plain::Name(name) => SlotNode::Name(name),
            Plain::Routine(routine) => SlotNode::Routine(routine),
            Plain::Sema(cell) => SlotNode::Sema(cell),
        }
    }

    // The plain value that it is bound to; none where it is bound to none.
    #[inline(always)]
    fn plain(&self) -> Option<Plain>
        ensures { result ≡ plain_bound (Some (bound_of self.now)) }
    {
        match self {
            SlotNode::Unset => Some(Plain::Unset),
            SlotNode::Int(number) => Some(Plain::Int(*number)),
            SlotNode::Long(number) => Some(Plain::Long(*number)),
            SlotNode::Bool(holds) => Some(Plain::Bool(*holds)),
            SlotNode::Char(code) => Some(Plain::Char(*code)),
            SlotNode::Bits(bits) => Some(Plain::Bits(*bits)),
            SlotNode::Nil => Some(Plain::Nil),
            SlotNode::Name(name) => Some(Plain::Name(*name)),
            SlotNode::Routine(routine) => Some(Plain::Routine(*routine)),
            SlotNode::Sema(cell) => Some(Plain::Sema(*cell)),
            SlotNode::Unbound => None,
            SlotNode::Other(value) => value.plain(),
        }
    }

    // The value that it is bound to, if it is.
    fn into_value(self) -> Option<Value>
        ensures { result ≡ bound_of self }
    {
        match self {
            SlotNode::Other(value) => Some(Box::into_inner(value)),
            _ => match self.plain() {
                Some(held) => Some(Value::of(held)),
                None => None,
            },
        }
    }

    // An equal value to the one that it is bound to, if it is. A plain value takes no memory.
    fn value(&self, alloc: Global) -> Result<Option<Value>, NoMemory>
        ensures value { IfOk result (λ value. value ≡ bound_of self.now) }
        ensures memory { OnErr result (plain_bound (Some (bound_of self.now)) ≡ None) }
    {
        if let Some(held) = self.plain() {
            return Ok(Some(Value::of(held)));
        }
        match self {
            SlotNode::Other(value) => Ok(Some(value.copy(alloc)?)),
            _ => Ok(None),
        }
    }
}

impl Model for Slot {
    ghost use Rattle.std.specs.Coded.{coded_option};
    ghost use Rattle.std.specs.declared.option.Option.{Option};
    ghost use Rattle.a68_values.specs.Codes.{content_code};
    ghost use Rattle.a68_values.specs.Content.{Content};

    ghost Value = { Option Content };

    ghost coded = { coded_option content_code };

    ghost use Rattle.a68_store.specs.Bound.{bound_of};

    ghost view = { λ slot. bound_of slot.node };
}

impl Slot {
    /// A slot that is not bound.
    #[inline(always)]
    pub fn unbound() -> Slot
        ensures { result ≡ None }
    {
        Slot {
            node: SlotNode::Unbound,
        }
    }

    /// A slot that is bound to a plain value.
    #[inline(always)]
    pub fn of_plain(held: Plain) -> Slot
        ensures { result ≡ Some (plain held) }
    {
        Slot {
            node: SlotNode::of_plain(held),
        }
    }

    /// A slot that is bound to a value. A plain value takes no memory.
    pub fn of(alloc: Global, value: Value) -> Result<Slot, NoMemory>
        ensures slot { IfOk result (λ slot. slot ≡ Some value) }
        ensures memory { OnErr result (as_plain value ≡ None) }
    {
        if let Some(held) = value.plain() {
            drop(value);
            return Ok(Slot::of_plain(held));
        }
        let value = Box::new(alloc, value)?;
        Ok(Slot {
            node: SlotNode::Other(value),
        })
    }

    /// The value that it is bound to, if it is.
    pub fn into_value(self) -> Option<Value>
        ensures { result ≡ self }
    {
        let Slot { node } = self;
        node.into_value()
    }

    /// An equal value to the one that it is bound to, if it is. A plain value takes no memory.
    pub fn value(&self, alloc: Global) -> Result<Option<Value>, NoMemory>
        ensures value { IfOk result (λ value. value ≡ self.now) }
        ensures memory { OnErr result (plain_bound (Some self.now) ≡ None) }
    {
        self.node.value(alloc)
    }

    /// Is it bound to a value?
    #[inline(always)]
    pub fn is_bound(&self) -> bool
        ensures { result ≡ is_some self.now }
    {
        !matches!(&self.node, SlotNode::Unbound)
    }

    /// The plain value that it is bound to; none where it is bound to none.
    #[inline(always)]
    pub fn plain(&self) -> Option<Plain>
        ensures { result ≡ plain_bound (Some self.now) }
    {
        self.node.plain()
    }

    /// The INT that it is bound to, where that stands in the slot; none where another value does.
    #[inline(always)]
    pub fn int(&self) -> Option<i64>
        ensures { IfSome result (λ number. self.now ≡ Some (plain (Plain.Int number))) }
    {
        match &self.node {
            SlotNode::Int(number) => Some(*number),
            _ => None,
        }
    }

    /// The name that it is bound to, where that stands in the slot; none where another value does.
    #[inline(always)]
    pub fn name(&self) -> Option<Name>
        ensures { IfSome result (λ name. self.now ≡ Some (plain (Plain.Name name))) }
    {
        match &self.node {
            SlotNode::Name(name) => Some(*name),
            _ => None,
        }
    }

    /// The routine that it is bound to, where that stands in the slot; none where another value does.
    #[inline(always)]
    pub fn routine(&self) -> Option<Routine>
        ensures { IfSome result (λ routine. self.now ≡ Some (plain (Plain.Routine routine))) }
    {
        match &self.node {
            SlotNode::Routine(routine) => Some(*routine),
            _ => None,
        }
    }

    /// The truth value that it is bound to, where that stands in the slot; none where another value does.
    #[inline(always)]
    pub fn truth(&self) -> Option<bool>
        ensures { IfSome result (λ holds. self.now ≡ Some (plain (Plain.Bool holds))) }
    {
        match &self.node {
            SlotNode::Bool(holds) => Some(*holds),
            _ => None,
        }
    }

    /// Is it bound to a value in a box? No other slot holds memory.
    #[inline(always)]
    pub fn is_boxed(&self) -> bool
        ensures { MatchBool result (is_some self.now ≡ true) (Unit {0}) }
    {
        matches!(&self.node, SlotNode::Other(_))
    }

    /// What it counts: itself, and the values within the one that it is bound to; at the last value of u64 it stands
    /// still.
    #[inline(always)]
    pub fn weight(&self) -> u64
        ensures { result ≡ min (slot_weight self.now) (2 ^ 64 - 1) }
    {
        match &self.node {
            SlotNode::Other(value) => weight(value).saturating_add(1),
            _ => 1,
        }
    }
}
