//! How many values are within a value.
ghost use Rattle.std.specs.Prelude.{◌≡◌, ◌-◌, ◌^◌, min};
ghost use Rattle.a68_acts.specs.Store.{further_parts, all_parts};
ghost use Rattle.a68_values.specs.Content.{contents_of};

use a68_values::{Value, ValueNode, Values};

/// How many values are within a value, its parts and theirs; at the last value of u64 it stands still.
#[cycle(weight)]
pub fn weight(value: &Value) -> u64
    ensures { result ≡ min (further_parts value.now) (2 ^ 64 - 1) }
{
    match &value.node {
        ValueNode::Void => 0,
        ValueNode::Plain(_) => 0,
        ValueNode::Layout(_) => 0,
        ValueNode::Structure(parts) => weight_of_all(parts),
        ValueNode::Row { parts, .. } => weight_of_all(parts.values()),
        ValueNode::United { value, .. } => weight(value).saturating_add(1),
    }
}

#[cycle(weight)]
fn weight_of_all(parts: &Values) -> u64
    ensures { result ≡ min (all_parts (contents_of parts.now)) (2 ^ 64 - 1) }
{
    let mut all: u64 = 0;
    for part in &parts.items {
        all = all.saturating_add(1).saturating_add(weight(part));
    }
    all
}
