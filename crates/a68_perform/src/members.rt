//! The members of unions.
ghost use Rattle.std.specs.Prelude.{◌≡◌};
ghost use Rattle.a68_acts.specs.Members as members;
ghost use Rattle.a68_modes.specs.Nodes.{shape_at};

use a68_modes::{ModeId, Modes, Shape};
use a68_values::{FaultKind, Plain, Value, ValueNode};

// The number of a mode among others, from 0.
fn number_among(mode: ModeId, among: &[ModeId]) -> Option<usize>
    ensures { result ≡ members.number_among mode among.now }
{
    let mut number = 0;
    for other in among {
        if *other == mode {
            return Some(number);
        }
        number += 1;
    }
    None
}

// The number of a mode among the members of a union.
fn number_in(modes: &Modes, union: ModeId, mode: ModeId) -> Option<usize>
    ensures { result ≡ members.number_among mode (members.members_of (shape_at modes.now union)) }
{
    if union >= modes.len() {
        return None;
    }
    match modes.shape(union) {
        Shape::Union(members) => number_among(mode, &members.items),
        _ => None,
    }
}

/// Which member of a union a value has, by its number among them, from 0.
#[tactic(auto, unfolding(a68_acts::specs::Members::member_of))]
pub fn member_of(modes: &Modes, union: ModeId, value: &Value) -> Result<usize, FaultKind>
    ensures { result ≡ members.member_of (shape_at modes.now union) value.now }
{
    match &value.node {
        ValueNode::Plain(Plain::Unset) => Err(FaultKind::Unset),
        ValueNode::United { mode, .. } => match number_in(modes, union, *mode) {
            Some(number) => Ok(number),
            None => Err(FaultKind::Kind),
        },
        _ => Err(FaultKind::Kind),
    }
}
