//! Items in the form in which a stack keeps them.
ghost use Rattle.std.specs.Prelude.{◌≡◌, false, None, IfOk, IsTrue, MatchBool, MatchOption, OnErr, slice_get, true};
ghost use Rattle.std.specs.Option.{option_copied, option_map};
ghost use Rattle.a68_stack.specs.declared.stack.Item.{Item};
ghost use Rattle.a68_acts.specs.declared.operation.Counter.{Counter};
ghost use Rattle.a68_stack.specs.Below.{caller_scope};
ghost use Rattle.a68_stack.specs.Inside.{boxed_plain, counter_in, is_value, item_of, keeps_room, value_in, wants_memory};
ghost use Rattle.a68_stack.specs.Values.{is_caller, plain_in};
ghost use Rattle.a68_values.specs.Content.{plain, scope_of};
ghost use Rattle.a68_values.specs.declared.chain.Environ.{Environ};
ghost use Rattle.a68_values.specs.declared.plain.Plain.{Plain};

use crate::{Caller, Item};
use a68_acts::Counter;
use a68_base::NoMemory;
use a68_values::{Chain, Plain, Value, ValueNode};
use std::alloc::Global;
use std::marker::Model;
use std::mem;

/// An item in few bytes, so that it is moved at little cost. Contracts see the item.
pub struct Packed {
    form: Form,
}

impl Drop for Packed {
    fn drop(self) {
        let Packed { form: _ } = self;
    }
}

/// Where the item stands. A plain value is never in a box, and neither is a value that is none, a counter or a caller. A counter with a last value has
/// a form of its own, so that it takes as few bytes as the others.
pub enum Form {
    Plain(Plain),
    Value(Box<Value>),
    Void,
    Bounded { at: i64, by: i64, to: i64 },
    Endless { at: i64, by: i64 },
    Caller { to: u32, chain: Chain },
}

impl Drop for Form {
    fn drop(self) {
        match self {
            Form::Plain(_) | Form::Value(_) | Form::Void | Form::Caller { to: _, chain: _ } => {}
            Form::Bounded {
                at: _,
                by: _,
                to: _,
            }
            | Form::Endless { at: _, by: _ } => {}
        }
    }
}

impl Model for Packed {
    ghost use Rattle.std.specs.Prelude.{◌≡◌, IsTrue, None};
    ghost use Rattle.a68_stack.specs.declared.stack.Item.{Item};
    ghost use Rattle.a68_stack.specs.contracts.stack.Item as item;

    ghost Value = { Item };

    ghost coded = { item.the_row.coded };

    ghost use Rattle.a68_stack.specs.Inside.{boxed_plain, item_of, keeps_room};

    ghost view = { λ kept. item_of kept.form };

    ghost invariant = { λ kept. (boxed_plain kept.form ≡ None) × IsTrue (keeps_room kept.form) };
}

// The scope of the innermost frame.
#[inline(always)]
fn scope_of_first(chain: &Chain) -> Option<u32>
    ensures { result ≡ option_map (λ (e : Environ). e.scope) (slice_get chain.now 0) }
{
    match chain.outer(0) {
        Some(environ) => Some(environ.scope),
        None => None,
    }
}

impl Form {
    // The form of a counter.
    #[inline(always)]
    fn of_counter(counter: Counter) -> Form
        ensures is { item_of result ≡ Item.Counter counter }
        ensures unboxed { boxed_plain result ≡ None }
        ensures room { IsTrue (keeps_room result) }
    {
        let Counter { at, by, to } = counter;
        match to {
            Some(to) => Form::Bounded { at, by, to },
            None => Form::Endless { at, by },
        }
    }

    // The item.
    #[inline(always)]
    fn into_item(self) -> Item
        requires { IsTrue (keeps_room self) }
        ensures { result ≡ item_of self }
    {
        match self {
            Form::Plain(held) => Item::Value(Value::of(held)),
            Form::Value(value) => Item::Value(Box::into_inner(value)),
            Form::Void => Item::Value(Value {
                node: ValueNode::Void,
            }),
            Form::Bounded { at, by, to } => Item::Counter(Counter {
                at,
                by,
                to: Some(to),
            }),
            Form::Endless { at, by } => Item::Counter(Counter { at, by, to: None }),
            Form::Caller { to, chain } => Item::Caller(Caller { to, chain }),
        }
    }

    // The caller; none where it is another item.
    #[inline(always)]
    fn into_caller(self) -> Option<Caller>
        requires { IsTrue (keeps_room self) }
        ensures { MatchOption result (is_caller (item_of self) ≡ false) (λ caller. item_of self ≡ Item.Caller caller) }
    {
        match self {
            Form::Caller { to, chain } => Some(Caller { to, chain }),
            Form::Plain(_) => None,
            Form::Value(_) => None,
            Form::Void => None,
            Form::Bounded {
                at: _,
                by: _,
                to: _,
            } => None,
            Form::Endless { at: _, by: _ } => None,
        }
    }
}

impl Packed {
    /// Keeps a plain value, which takes no memory.
    #[inline(always)]
    pub fn of_plain(held: Plain) -> Packed
        ensures { result ≡ Item.Value (plain held) }
    {
        // A truth value is made anew, so that its byte alone is moved.
        if let Plain::Bool(holds) = held {
            return Packed {
                form: Form::Plain(Plain::Bool(holds)),
            };
        }
        Packed {
            form: Form::Plain(held),
        }
    }

    /// Keeps an item.
    pub fn of(alloc: Global, item: Item) -> Result<Packed, NoMemory>
        ensures { IfOk result (λ kept. kept ≡ item) }
    {
        match item {
            Item::Value(value) => Packed::of_value(alloc, value),
            Item::Counter(counter) => Ok(Packed::of_counter(counter)),
            Item::Caller(caller) => Ok(Packed::of_caller(caller)),
        }
    }

    /// Keeps a value.
    pub fn of_value(alloc: Global, value: Value) -> Result<Packed, NoMemory>
        ensures ok { IfOk result (λ kept. kept ≡ Item.Value value) }
        ensures full { OnErr result (wants_memory value ≡ true) }
    {
        if let Some(held) = value.plain() {
            // A plain value holds no memory.
            mem::forget(value);
            return Ok(Packed::of_plain(held));
        }
        if matches!(&value.node, ValueNode::Void) {
            mem::forget(value);
            return Ok(Packed { form: Form::Void });
        }
        Ok(Packed {
            form: Form::Value(Box::new(alloc, value)?),
        })
    }

    /// Keeps a counter, which takes no memory.
    #[inline(always)]
    pub fn of_counter(counter: Counter) -> Packed
        ensures { result ≡ Item.Counter counter }
    {
        Packed {
            form: Form::of_counter(counter),
        }
    }

    /// Keeps a caller, which takes no memory.
    #[inline(always)]
    pub fn of_caller(caller: Caller) -> Packed
        ensures { result ≡ Item.Caller caller }
    {
        let Caller { to, chain } = caller;
        Packed {
            form: Form::Caller { to, chain },
        }
    }

    /// The item.
    #[inline(always)]
    pub fn into_item(self) -> Item
        ensures { result ≡ self }
    {
        let Packed { form } = self;
        form.into_item()
    }

    /// The caller; none where it is another item.
    #[inline(always)]
    pub fn into_caller(self) -> Option<Caller>
        ensures { MatchOption result (is_caller self ≡ false) (λ caller. self ≡ Item.Caller caller) }
    {
        let Packed { form } = self;
        form.into_caller()
    }

    /// The plain value that it is; none where it is another item.
    #[inline(always)]
    pub fn plain(&self) -> Option<Plain>
        ensures { result ≡ plain_in self.now }
    {
        match &self.form {
            Form::Plain(held) => Some(*held),
            Form::Value(_) => None,
            Form::Void => None,
            Form::Bounded {
                at: _,
                by: _,
                to: _,
            } => None,
            Form::Endless { at: _, by: _ } => None,
            Form::Caller { to: _, chain: _ } => None,
        }
    }

    /// The plain value that it is, where it stands; none where it is another item.
    #[inline(always)]
    pub fn held(&self) -> Option<&Plain>
        ensures { option_copied result ≡ plain_in self.now }
    {
        match &self.form {
            Form::Plain(held) => Some(held),
            Form::Value(_) => None,
            Form::Void => None,
            Form::Bounded {
                at: _,
                by: _,
                to: _,
            } => None,
            Form::Endless { at: _, by: _ } => None,
            Form::Caller { to: _, chain: _ } => None,
        }
    }

    /// The counter that it is; none where it is another item.
    #[inline(always)]
    pub fn counter(&self) -> Option<Counter>
        ensures { result ≡ counter_in self.now }
    {
        if let Form::Bounded { at, by, to } = &self.form {
            return Some(Counter {
                at: *at,
                by: *by,
                to: Some(*to),
            });
        }
        if let Form::Endless { at, by } = &self.form {
            return Some(Counter {
                at: *at,
                by: *by,
                to: None,
            });
        }
        None
    }

    /// Is it a value?
    #[inline(always)]
    pub fn is_value(&self) -> bool
        ensures { result ≡ is_value self.now }
    {
        matches!(&self.form, Form::Plain(_) | Form::Value(_) | Form::Void)
    }

    /// Is it a caller?
    #[inline(always)]
    pub fn is_caller(&self) -> bool
        ensures { result ≡ is_caller self.now }
    {
        matches!(&self.form, Form::Caller { to: _, chain: _ })
    }

    /// The scope of the innermost frame of the caller that it is; none where it is another item.
    #[inline(always)]
    pub fn caller_scope(&self) -> Option<u32>
        ensures { result ≡ caller_scope self.now }
    {
        match &self.form {
            Form::Caller { to: _, chain } => scope_of_first(chain),
            Form::Plain(_) => None,
            Form::Value(_) => None,
            Form::Void => None,
            Form::Bounded {
                at: _,
                by: _,
                to: _,
            } => None,
            Form::Endless { at: _, by: _ } => None,
        }
    }

    /// The scope of the value that it is; none where it is another item.
    pub fn scope(&self) -> Option<u32>
        ensures { result ≡ option_map scope_of (value_in self.now) }
    {
        match &self.form {
            Form::Plain(held) => Some(held.scope()),
            Form::Value(value) => Some(value.scope()),
            Form::Void => Some(0),
            Form::Bounded {
                at: _,
                by: _,
                to: _,
            } => None,
            Form::Endless { at: _, by: _ } => None,
            Form::Caller { to: _, chain: _ } => None,
        }
    }

    /// Puts a plain value in the place of the one that it is; another item stays.
    #[inline(always)]
    pub fn set_plain(&mut self, held: Plain) -> bool
        ensures { MatchBool result ((p : Plain) × (self.old ≡ Item.Value (plain p)) × (self.new ≡ Item.Value (plain held))) ((plain_in self.old ≡ None) × (self.new ≡ self.old)) }
    {
        match &mut self.form {
            Form::Plain(place) => {
                *place = held;
                true
            }
            Form::Value(_) => false,
            Form::Void => false,
            Form::Bounded {
                at: _,
                by: _,
                to: _,
            } => false,
            Form::Endless { at: _, by: _ } => false,
            Form::Caller { to: _, chain: _ } => false,
        }
    }

    /// Puts an equal plain value in the place of the one that it is; another item stays. Each kind is moved by itself, since a
    /// move of all that a plain value may be stalls the processor where one kind has just been written.
    #[inline(always)]
    pub fn set_copy(&mut self, held: &Plain) -> bool
        ensures { MatchBool result ((p : Plain) × (self.old ≡ Item.Value (plain p)) × (self.new ≡ Item.Value (plain held.now))) ((plain_in self.old ≡ None) × (self.new ≡ self.old)) }
    {
        if let Plain::Int(number) = held {
            return self.set_plain(Plain::Int(*number));
        }
        if let Plain::Name(name) = held {
            return self.set_plain(Plain::Name(*name));
        }
        if let Plain::Bool(holds) = held {
            return self.set_plain(Plain::Bool(*holds));
        }
        self.set_plain(*held)
    }

    /// Puts a number in the place of that of the counter that it is; another item stays.
    #[inline(always)]
    pub fn set_number(&mut self, number: i64) -> bool
        ensures { MatchBool result ((c : Counter) × (self.old ≡ Item.Counter c) × (self.new ≡ Item.Counter (record c { at = number }))) ((counter_in self.old ≡ None) × (self.new ≡ self.old)) }
    {
        match &mut self.form {
            Form::Bounded { at, by: _, to: _ } => {
                *at = number;
                true
            }
            Form::Endless { at, by: _ } => {
                *at = number;
                true
            }
            Form::Plain(_) => false,
            Form::Value(_) => false,
            Form::Void => false,
            Form::Caller { to: _, chain: _ } => false,
        }
    }
}
