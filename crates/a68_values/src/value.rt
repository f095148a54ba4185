//! Values of any mode.
//!
//! Drops that are written by hand are proved once, in their crate; a derived one is proved anew in each crate that lets
//! such a value go.
ghost use Rattle.std.specs.Prelude.{◌≡◌, ◌<◌, ◌++◌, ◌∷◌, [], false, None, IfOk, MatchOption, OnOk, vec_len};
ghost use Rattle.std.specs.Vec.{vec_capacity};
ghost use Rattle.a68_values.specs.Content.{as_plain, is_row, is_structure, is_united, plain, row, structure, united, contents_of, scope_of, newest_scope};
ghost use Rattle.a68_values.specs.Nodes.{content_of};

use crate::{Bounds, Layout, Plain};
use a68_base::NoMemory;
use std::alloc::Global;
use std::marker::Model;
use std::sync::Arc;

/// A value. Contracts see it as a tree of contents.
#[cycle(value)]
pub struct Value {
    pub node: ValueNode,
}

impl Drop for Value {
    #[cycle(value)]
    fn drop(self) {
        let Value { node: _ } = self;
    }
}

/// What a value is made of.
#[cycle(value)]
pub enum ValueNode {
    /// The value of a construct that yields none (Report, 2.1.3.1).
    Void,
    Plain(Plain),
    Layout(Layout),
    /// The fields in order (2.1.3.3).
    Structure(Values),
    /// The elements in order, the last subscript running fastest (2.1.3.4).
    Row { bounds: Bounds, parts: Elements },
    /// A value united to a union, with the mode of the member that it has (2.1.3.6).
    United { mode: u32, value: Box<Value> },
}

impl Drop for ValueNode {
    #[cycle(value)]
    fn drop(self) {
        match self {
            ValueNode::Void
            | ValueNode::Plain(_)
            | ValueNode::Layout(_)
            | ValueNode::Structure(_)
            | ValueNode::Row {
                bounds: _,
                parts: _,
            }
            | ValueNode::United { mode: _, value: _ } => {}
        }
    }
}

/// The fields of a structure or the elements of a row, in order.
#[cycle(value)]
pub struct Values {
    pub items: Vec<Value>,
}

impl Drop for Values {
    #[cycle(value)]
    fn drop(self) {
        let Values { items: _ } = self;
    }
}

/// The elements of a row in order, which all copies of the row share.
#[cycle(value)]
pub struct Elements {
    shared: Arc<Values>,
}

impl Drop for Elements {
    #[cycle(value)]
    fn drop(self) {
        let Elements { shared: _ } = self;
    }
}

impl Model for Elements {
    ghost use Rattle.std.specs.Arc.{arc_value};
    ghost use Rattle.std.specs.Coded.{coded_list};
    ghost use Rattle.std.specs.Prelude.{List, ◌+◌};
    ghost use Rattle.a68_values.specs.Codes.{content_code};
    ghost use Rattle.a68_values.specs.Content.{Content, size_of_all};

    ghost Value = { List Content };

    ghost coded = { coded_list content_code };

    ghost view = { λ elements. arc_value elements.shared };

    ghost size = { λ parts. 1 + size_of_all parts };

    ghost use Rattle.std.proofs.Common.{arith};

    ghost size_decreases = { λ a h. omega arith };
}

impl Elements {
    /// The elements as values.
    #[inline(always)]
    pub fn values(&self) -> &Values
        ensures { result.now ≡ self.now }
    {
        &self.shared
    }

    /// The elements.
    #[inline(always)]
    pub fn as_slice(&self) -> &[Value]
        ensures { result.now ≡ self.now }
    {
        &self.values().items
    }

    /// The same as values of their own: themselves where no other row shares them, and else equal ones.
    pub fn into_values(self, alloc: Global) -> Result<Values, NoMemory>
        ensures { IfOk result (λ values. values ≡ self) }
    {
        let Elements { shared } = self;
        match Arc::try_unwrap(shared) {
            Ok(values) => Ok(values),
            Err(shared) => {
                let values = shared.copy(alloc);
                drop(shared);
                values
            }
        }
    }

    /// The same elements once more, without memory of their own. It fails only where more share them than can be counted.
    pub fn copy(&self) -> Result<Elements, NoMemory>
        ensures { IfOk result (λ made. made ≡ self.now) }
    {
        let shared = self.shared.clone()?;
        Ok(Elements { shared })
    }
}

impl ValueNode {
    // The parts of the structure that it is.
    fn into_parts(self) -> Option<Values>
        ensures { MatchOption result (is_structure (content_of self) ≡ false) (λ parts. content_of self ≡ structure (contents_of parts)) }
    {
        match self {
            ValueNode::Structure(parts) => Some(parts),
            ValueNode::Void
            | ValueNode::Plain(_)
            | ValueNode::Layout(_)
            | ValueNode::Row {
                bounds: _,
                parts: _,
            }
            | ValueNode::United { mode: _, value: _ } => None,
        }
    }

    // The bounds and the elements of the row that it is.
    fn into_row(self) -> Option<(Bounds, Elements)>
        ensures { MatchOption result (is_row (content_of self) ≡ false) (λ found. content_of self ≡ row found.0 (contents_of found.1)) }
    {
        match self {
            ValueNode::Row { bounds, parts } => Some((bounds, parts)),
            ValueNode::Void
            | ValueNode::Plain(_)
            | ValueNode::Layout(_)
            | ValueNode::Structure(_)
            | ValueNode::United { mode: _, value: _ } => None,
        }
    }

    // The value that is united in it, with its mode.
    fn into_member(self) -> Option<(u32, Value)>
        ensures { MatchOption result (is_united (content_of self) ≡ false) (λ member. content_of self ≡ united member.0 member.1) }
    {
        match self {
            ValueNode::United { mode, value } => Some((mode, Box::into_inner(value))),
            ValueNode::Void
            | ValueNode::Plain(_)
            | ValueNode::Layout(_)
            | ValueNode::Structure(_)
            | ValueNode::Row {
                bounds: _,
                parts: _,
            } => None,
        }
    }
}

impl Model for Value {
    ghost use Rattle.a68_values.specs.Codes.{content_code};
    ghost use Rattle.a68_values.specs.Content.{Content, size_of};

    ghost Value = { Content };

    ghost coded = { content_code };

    ghost use Rattle.a68_values.specs.Nodes.{content_of};

    ghost view = { λ value. content_of value.node };

    ghost size = { size_of };

    ghost use Rattle.a68_values.specs.PartsFall.{depth_le-size_of};

    ghost size_decreases = { λ a h. depth_le-size_of a.node };
}

impl Model for Values {
    ghost use Rattle.std.specs.Coded.{coded_list};
    ghost use Rattle.std.specs.Prelude.{List};
    ghost use Rattle.a68_values.specs.Codes.{content_code};
    ghost use Rattle.a68_values.specs.Content.{Content, size_of_all};

    ghost Value = { List Content };

    ghost coded = { coded_list content_code };

    ghost view = { λ parts. parts.items.items };

    ghost size = { size_of_all };

    ghost use Rattle.std.proofs.Common.{arith};
    ghost use Rattle.a68_values.specs.Content.{most_le-size_of_all};

    ghost size_decreases = { λ a h. omega (arith, most_le-size_of_all a.items.items) };
}

impl Value {
    /// A value that is not made of others.
    pub fn of(held: Plain) -> Value
        ensures { result ≡ plain held }
    {
        Value {
            node: ValueNode::Plain(held),
        }
    }

    /// The plain value that it is; none where it is another.
    #[inline(always)]
    pub fn plain(&self) -> Option<Plain>
        ensures { MatchOption result (as_plain self.now ≡ None) (λ held. self.now ≡ plain held) }
    {
        match &self.node {
            ValueNode::Plain(held) => Some(*held),
            _ => None,
        }
    }

    /// The parts of the structure that it is; none where it is another.
    pub fn into_parts(self) -> Option<Values>
        ensures { MatchOption result (is_structure self ≡ false) (λ parts. self ≡ structure (contents_of parts)) }
    {
        let Value { node } = self;
        node.into_parts()
    }

    /// The bounds and the elements of the row that it is; none where it is another.
    pub fn into_row(self) -> Option<(Bounds, Elements)>
        ensures { MatchOption result (is_row self ≡ false) (λ found. self ≡ row found.0 (contents_of found.1)) }
    {
        let Value { node } = self;
        node.into_row()
    }

    /// The value that is united in it, with its mode; none where it is another.
    pub fn into_member(self) -> Option<(u32, Value)>
        ensures { MatchOption result (is_united self ≡ false) (λ member. self ≡ united member.0 member.1) }
    {
        let Value { node } = self;
        node.into_member()
    }

    /// An equal value. A plain one takes no memory.
    #[cycle(copy)]
    pub fn copy(&self, alloc: Global) -> Result<Value, NoMemory>
        ensures { IfOk result (λ value. value ≡ self.now) }
    {
        let node = match &self.node {
            ValueNode::Void => ValueNode::Void,
            ValueNode::Plain(plain) => ValueNode::Plain(*plain),
            ValueNode::Layout(layout) => ValueNode::Layout(*layout),
            ValueNode::Structure(parts) => ValueNode::Structure(parts.copy(alloc)?),
            ValueNode::Row { bounds, parts } => ValueNode::Row {
                bounds: bounds.copy(alloc)?,
                parts: parts.copy()?,
            },
            ValueNode::United { mode, value } => ValueNode::United {
                mode: *mode,
                value: Box::new(alloc, value.copy(alloc)?)?,
            },
        };
        Ok(Value { node })
    }

    /// The scope of the value: the newest of its parts' scopes (Report, 2.1.1.3).
    #[cycle(scope)]
    pub fn scope(&self) -> u32
        ensures { result ≡ scope_of self.now }
    {
        match &self.node {
            ValueNode::Void => 0,
            ValueNode::Layout(_) => 0,
            ValueNode::Plain(plain) => plain.scope(),
            ValueNode::Structure(parts) => parts.scope(),
            ValueNode::Row { parts, .. } => parts.values().scope(),
            ValueNode::United { value, .. } => value.scope(),
        }
    }
}

impl Values {
    /// The same as elements of a row, which its copies share.
    pub fn shared(self) -> Result<Elements, NoMemory>
        ensures { IfOk result (λ elements. elements ≡ self) }
    {
        let shared = Arc::new(*self.items.allocator(), self)?;
        Ok(Elements { shared })
    }

    /// Equal parts.
    #[cycle(copy)]
    pub fn copy(&self, alloc: Global) -> Result<Values, NoMemory>
        ensures { IfOk result (λ parts. parts ≡ self.now) }
    {
        let mut items = Vec::with_capacity(alloc, self.items.len())?;
        for part in &self.items {
            add_copy(part, alloc, &mut items)?;
        }
        Ok(Values { items })
    }

    /// The newest of the parts' scopes; 0 where there is none.
    #[cycle(scope)]
    pub fn scope(&self) -> u32
        ensures { result ≡ newest_scope self.now }
    {
        let mut newest = 0;
        for part in &self.items {
            newest = part.scope().max(newest);
        }
        newest
    }
}

// Puts an equal value behind others, among which there is room. Structures lie within one another as deep as modes do, so a copy is put
// where it is to stand and not handed back: that takes less of the stack at each level.
#[cycle(copy)]
fn add_copy(value: &Value, alloc: Global, to: &mut Vec<Value>) -> Result<(), NoMemory>
    requires room { vec_len to.old < vec_capacity to.old }
    ensures added { OnOk result (to.new.items ≡ to.old.items ++ value.now ∷ []) }
    ensures room { vec_capacity to.new ≡ vec_capacity to.old }
{
    match &value.node {
        ValueNode::Plain(plain) => {
            to.push_reserved(Value::of(*plain));
            Ok(())
        }
        ValueNode::Structure(parts) => add_structure(parts, alloc, to),
        _ => add_other(value, alloc, to),
    }
}

// The same of a structure with these fields.
#[cycle(copy)]
#[inline(never)]
fn add_structure(parts: &Values, alloc: Global, to: &mut Vec<Value>) -> Result<(), NoMemory>
    requires room { vec_len to.old < vec_capacity to.old }
    ensures added { OnOk result (to.new.items ≡ to.old.items ++ structure (contents_of parts.now) ∷ []) }
    ensures room { vec_capacity to.new ≡ vec_capacity to.old }
{
    let mut items = Vec::with_capacity(alloc, parts.items.len())?;
    for part in &parts.items {
        add_copy(part, alloc, &mut items)?;
    }
    to.push_reserved(Value {
        node: ValueNode::Structure(Values { items }),
    });
    Ok(())
}

// The same of a value that is no structure.
#[cycle(copy)]
#[inline(never)]
fn add_other(value: &Value, alloc: Global, to: &mut Vec<Value>) -> Result<(), NoMemory>
    requires room { vec_len to.old < vec_capacity to.old }
    ensures added { OnOk result (to.new.items ≡ to.old.items ++ value.now ∷ []) }
    ensures room { vec_capacity to.new ≡ vec_capacity to.old }
{
    to.push_reserved(value.copy(alloc)?);
    Ok(())
}
