//! Values of which a part is unset.
ghost use Rattle.std.specs.Prelude.{◌≡◌};
ghost use Rattle.a68_ops.specs.Yields as yields;
ghost use Rattle.a68_values.specs.Content.{contents_of, plain};

use a68_values::{Plain, Value, ValueNode, Values};

/// Tells whether a plain value is unset.
#[inline(always)]
pub fn is_unset_plain(held: Plain) -> bool
    ensures { result ≡ yields.is_unset (plain held) }
{
    matches!(held, Plain::Unset)
}

/// Tells whether a value is unset or has a part that is.
#[cycle(unset)]
pub fn is_unset(value: &Value) -> bool
    ensures { result ≡ yields.is_unset value.now }
{
    match &value.node {
        ValueNode::Plain(held) => is_unset_plain(*held),
        ValueNode::Structure(parts) => some_unset(parts),
        ValueNode::Row { parts, .. } => some_unset(parts.values()),
        ValueNode::United { value, .. } => is_unset(value),
        ValueNode::Void | ValueNode::Layout(_) => false,
    }
}

/// Tells whether one of these parts is unset or has a part that is.
#[cycle(unset)]
fn some_unset(parts: &Values) -> bool
    ensures { result ≡ yields.some_unset (contents_of parts.now) }
{
    for part in &parts.items {
        if is_unset(part) {
            return true;
        }
    }
    false
}
