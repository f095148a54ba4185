//! The levels of a text that are open.
ghost use Rattle.std.specs.Prelude.{◌≡◌, ◌+◌, ◌<◌, ◌^◌, ◌↔◌, true, List, [], ◌∷◌, OnOk, map};
ghost use Rattle.a68_words.specs.Levels.{IsOver, at_role, brackets, closed, depth};
ghost use Rattle.a68_words.specs.Steps as steps;

use crate::Class;
use crate::role::Role;
use a68_base::NoMemory;
use std::alloc::Global;
use std::marker::Model;

// The most brackets that may be open where another is opened.
const MOST_BRACKETS: usize = 200;

// The deepest nesting of a symbol.
const MOST_NESTING: usize = 1000;

/// A level: where it begins, how many symbols of its present stretch have passed, what its last MODE, PRIO or OP defines,
/// and whether an OP directly before `(` waits for its `=` there.
#[derive(Clone, Copy)]
pub struct OpenLevel {
    pub begins: usize,
    pub passed: usize,
    pub last: Option<Class>,
    pub waits: bool,
}

impl OpenLevel {
    fn fresh(begins: usize) -> OpenLevel
        ensures { result ≡ steps.fresh begins }
    {
        OpenLevel {
            begins,
            passed: 0,
            last: None,
            waits: false,
        }
    }

    // Does an OP before `(` wait for its `=` behind that symbol?
    fn waits_behind(&self, previous: Role, role: Role) -> bool
        ensures { result ≡ steps.or_old (steps.new_waits previous role) self.now.waits }
    {
        if role.is_equals() {
            false
        } else if previous.is_op() && role.is_round() {
            true
        } else {
            self.waits
        }
    }

    // What the last MODE, PRIO or OP defines behind that symbol.
    fn last_behind(&self, role: Role) -> Option<Class>
        ensures { result ≡ steps.or_old (steps.new_last role) self.now.last }
    {
        match role.definer() {
            Some(class) => Some(class),
            None => self.last,
        }
    }

    // The level behind a symbol of its own.
    fn noted(&self, previous: Role, role: Role) -> OpenLevel
        requires { self.now.passed + 1 < 2 ^ 64 }
        ensures { result ≡ steps.noted previous role self.now }
    {
        OpenLevel {
            begins: self.begins,
            passed: if role.separates() { 0 } else { self.passed + 1 },
            last: self.last_behind(role),
            waits: self.waits_behind(previous, role),
        }
    }
}

/// The open levels, of which contracts see the list, innermost first.
#[derive(Drop)]
pub struct Levels {
    top: OpenLevel,
    below: Vec<OpenLevel>,
    nesting: usize,
}

impl Model for Levels {
    ghost use Rattle.std.specs.Prelude.{◌≡◌, List, ◌∷◌, map, reverse};
    ghost use Rattle.a68_words.specs.declared.levels.OpenLevel.{OpenLevel};
    ghost use Rattle.a68_words.specs.Levels.{depth};
    ghost use Rattle.a68_words.specs.Steps.{plain};

    ghost Value = { List OpenLevel };

    ghost view = { λ s. s.top ∷ reverse s.below.items };

    ghost invariant = { λ s. s.nesting ≡ depth (map plain (s.top ∷ reverse s.below.items)) };
}

impl Levels {
    /// The text outside all brackets.
    pub fn new(alloc: Global) -> Levels
        ensures { result ≡ steps.fresh 0 ∷ [] }
    {
        Levels {
            top: OpenLevel::fresh(0),
            below: Vec::new(alloc),
            nesting: 1,
        }
    }

    /// The innermost level.
    pub fn top(&self) -> OpenLevel
        ensures { (more : List OpenLevel) × (self.now ≡ result ∷ more) }
    {
        self.top
    }

    /// How many brackets are open.
    pub fn brackets(&self) -> usize
        ensures { result ≡ brackets self.now }
    {
        self.below.len()
    }

    /// How deep the next symbol is nested.
    pub fn nesting(&self) -> usize
        ensures { result ≡ depth (map steps.plain self.now) }
    {
        self.nesting
    }

    /// Closes the innermost bracket, if one is open.
    pub fn close(&mut self)
        ensures { self.new ≡ closed self.old }
    {
        if let Some(outer) = self.below.pop() {
            self.nesting -= 1 + self.top.passed;
            self.top = outer;
        }
    }

    /// Passes a symbol of the innermost level.
    pub fn pass(&mut self, previous: Role, role: Role)
        requires { depth (map steps.plain self.old) + 1 < 2 ^ 64 }
        ensures { self.new ≡ steps.noted_by previous role self.old }
    {
        let next = self.top.noted(previous, role);
        self.nesting = self.nesting - self.top.passed + next.passed;
        self.top = next;
    }

    /// Opens a bracket, within which that symbol is the first.
    pub fn open(&mut self, begins: usize) -> Result<(), NoMemory>
        requires { depth (map steps.plain self.old) + 1 < 2 ^ 64 }
        ensures { OnOk result (self.new ≡ steps.fresh begins ∷ self.old) }
    {
        self.below.push(self.top)?;
        self.top = OpenLevel::fresh(begins);
        self.nesting += 1;
        Ok(())
    }

    /// Is a symbol of that role too deep there?
    pub fn is_over(&self, role: Role) -> bool
        ensures { (result ≡ true) ↔ IsOver role (map steps.plain self.now) }
    {
        role.opens() && self.brackets() >= MOST_BRACKETS || self.nesting() > MOST_NESTING
    }

    /// Comes to a symbol of that role, at which a closing bracket is open no more.
    pub fn reach(&mut self, role: Role)
        ensures { self.new ≡ at_role role self.old }
    {
        if role.closes() {
            self.close();
        }
    }

    /// Goes on behind symbol `i`, which has that role.
    pub fn leave(&mut self, i: usize, previous: Role, role: Role) -> Result<(), NoMemory>
        requires shallow { depth (map steps.plain self.old) + 2 < 2 ^ 64 }
        requires within { i + 1 < 2 ^ 64 }
        ensures { OnOk result (self.new ≡ steps.left i previous role self.old) }
    {
        self.pass(previous, role);
        if role.opens() {
            self.open(i + 1)?;
        }
        Ok(())
    }
}
