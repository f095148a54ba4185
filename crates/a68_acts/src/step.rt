//! Steps of operations of many acts.
ghost use Rattle.std.specs.Prelude.{◌≡◌, ◌<◌, ◌==◌, [], ◌∷◌, length, reverse, slice_set, IfSome, OnOk, OnErr, MatchOption};
ghost use Rattle.std.specs.Vec.{vec_len};
ghost use Rattle.a68_acts.specs.Passing.{PassesAssign, PassesFetch};

use a68_base::NoMemory;
use a68_values::{Bounds, Elements, Held, Name, Plain, Value, Values};
use std::alloc::Global;
use std::marker::Model;
use std::mem;

/// A step of an operation of many acts. The values that steps leave are kept until a step takes them.
#[derive(Drop)]
pub enum Step {
    /// It leaves what this cell holds.
    Fetch {
        cell: u32,
    },
    /// It leaves the row, of elements of this mode, whose descriptor this cell holds.
    FetchRow {
        of: u32,
        cell: u32,
    },
    /// It leaves what the union of this cell holds.
    FetchUnion {
        cell: u32,
    },
    /// It makes a structure of the last so many values.
    Structure {
        count: usize,
    },
    /// It makes a row with these bounds of the last so many values.
    Row {
        bounds: Bounds,
        count: usize,
    },
    /// It unites the last value.
    Unite {
        mode: u32,
    },
    /// It leaves this value.
    Leave(Value),
    /// It gives a cell this to hold.
    Assign {
        cell: u32,
        held: Held,
    },
    /// It waits until the cell has it.
    Assigned,
    /// It assigns a value of this mode to the name of a union.
    AssignUnion {
        cell: u32,
        mode: u32,
        value: Value,
    },
    /// It assigns a row with these bounds and parts to the name of a row of elements of this mode.
    AssignRow {
        of: u32,
        flex: bool,
        cell: u32,
        bounds: Bounds,
        parts: Elements,
    },
    /// It assigns what the operator of this row makes of the last value and the operand to the name of the text that the
    /// last value is.
    Update {
        row: u32,
        name: Name,
        operand: Value,
    },
    /// It meets the fault Kind.
    Stray,
}

// The cell to which a step gives a plain value, and that value.
#[inline(always)]
fn plainly_given(step: &Step) -> Option<(u32, Plain)>
    ensures { IfSome result (λ given. step.now ≡ Step.Assign given.0 (Held.Plain given.1)) }
{
    let Step::Assign {
        cell,
        held: Held::Plain(held),
    } = step
    else {
        return None;
    };
    Some((*cell, *held))
}

// Puts a step in the place of another.
#[inline(always)]
fn put(steps: &mut Vec<Step>, at: usize, step: Step)
    requires { at < length steps.old.items }
    ensures items { steps.new.items ≡ slice_set steps.old.items at step }
    ensures len { vec_len steps.new ≡ vec_len steps.old }
{
    steps[at] = step;
}

/// Steps. Contracts see the next one first.
pub struct Steps {
    items: Vec<Step>,
}

impl Drop for Steps {
    fn drop(self) {
        let Steps { items: _ } = self;
    }
}

impl Model for Steps {
    ghost use Rattle.std.specs.Coded.{coded_list};
    ghost use Rattle.std.specs.Prelude.{List, reverse};
    ghost use Rattle.a68_acts.specs.contracts.step.Step as step;
    ghost use Rattle.a68_acts.specs.declared.step.Step.{Step};

    ghost Value = { List Step };

    ghost coded = { coded_list step.the_row.coded };

    ghost view = { λ steps. reverse steps.items.items };
}

impl Steps {
    /// No step.
    pub fn new(alloc: Global) -> Steps
        ensures { result ≡ [] }
    {
        Steps {
            items: Vec::new(alloc),
        }
    }

    /// A step put in front of the others.
    pub fn push(&mut self, step: Step) -> Result<(), NoMemory>
        ensures ok { OnOk result (self.new ≡ step ∷ self.old) }
        ensures err { OnErr result (self.new ≡ self.old) }
    {
        self.items.push(step)?;
        Ok(())
    }

    /// Takes the next step off.
    pub fn pop(&mut self) -> Option<Step>
        ensures { MatchOption result ((self.old ≡ []) × (self.new ≡ [])) (λ step. self.old ≡ step ∷ self.new) }
    {
        self.items.pop()
    }

    /// Takes the next step off where it fetches a plain cell and the one behind it does too, and gives the cell of that one.
    #[inline(always)]
    pub fn pass_fetch(&mut self) -> Option<u32>
        ensures { MatchOption result (self.new ≡ self.old) (λ cell. PassesFetch self.old cell self.new) }
    {
        let count = self.items.len();
        if count < 2 {
            return None;
        }
        let Step::Fetch { cell: _ } = &self.items[count - 1] else {
            return None;
        };
        let Step::Fetch { cell } = &self.items[count - 2] else {
            return None;
        };
        let cell = *cell;
        let passed = self.items.pop();
        drop(passed);
        Some(cell)
    }

    /// Where the next step waits until a cell has what it is given, and the one behind it gives a cell a plain value: takes the
    /// first off and lets the other wait in its turn. Gives that cell and the value.
    #[inline(always)]
    pub fn pass_assign(&mut self) -> Option<(u32, Plain)>
        ensures { MatchOption result (self.new ≡ self.old) (λ next. PassesAssign self.old next.0 next.1 self.new) }
    {
        let count = self.items.len();
        if count < 2 {
            return None;
        }
        let Step::Assigned = &self.items[count - 1] else {
            return None;
        };
        let next = plainly_given(&self.items[count - 2])?;
        put(&mut self.items, count - 2, Step::Assigned);
        let passed = self.items.pop();
        drop(passed);
        Some(next)
    }
}

/// The values that steps have left. Contracts see the latest one first.
pub struct Left {
    items: Vec<Value>,
}

impl Drop for Left {
    fn drop(self) {
        let Left { items: _ } = self;
    }
}

impl Model for Left {
    ghost use Rattle.std.specs.Coded.{coded_list};
    ghost use Rattle.std.specs.Prelude.{List, reverse};
    ghost use Rattle.a68_values.specs.Codes.{content_code};
    ghost use Rattle.a68_values.specs.Content.{Content};

    ghost Value = { List Content };

    ghost coded = { coded_list content_code };

    ghost view = { λ left. reverse left.items.items };
}

impl Left {
    /// No value.
    pub fn new(alloc: Global) -> Left
        ensures { result ≡ [] }
    {
        Left {
            items: Vec::new(alloc),
        }
    }

    /// A value that a step leaves.
    pub fn push(&mut self, value: Value) -> Result<(), NoMemory>
        ensures ok { OnOk result (self.new ≡ value ∷ self.old) }
        ensures err { OnErr result (self.new ≡ self.old) }
    {
        self.items.push(value)?;
        Ok(())
    }

    /// How many values are left?
    pub fn len(&self) -> usize
        ensures { result ≡ length self.now }
    {
        self.items.len()
    }

    /// Takes all values, in the order in which they were left.
    pub fn take_all(&mut self, alloc: Global) -> Values
        ensures values { result ≡ reverse self.old }
        ensures none { self.new ≡ [] }
    {
        let items = mem::replace(&mut self.items, Vec::new(alloc));
        Values { items }
    }

    /// Is no value left?
    pub fn is_empty(&self) -> bool
        ensures { result ≡ (length self.now == 0) }
    {
        self.items.is_empty()
    }

    /// Takes the latest value.
    pub fn pop(&mut self) -> Option<Value>
        ensures { MatchOption result ((self.old ≡ []) × (self.new ≡ [])) (λ value. self.old ≡ value ∷ self.new) }
    {
        self.items.pop()
    }
}
