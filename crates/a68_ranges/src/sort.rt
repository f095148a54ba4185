//! Sorts of words.
ghost use Rattle.std.specs.Prelude.{◌≡◌};
ghost use Rattle.a68_ranges.specs.Definitions as definitions;
ghost use Rattle.a68_ranges.specs.Tables as tables;

use a68_tree::NodeKind;

/// What a word or sign is defined as: a tag, a mode word, a sign with a priority, an operator, or the tag of a field.
#[derive(Clone, Copy, Debug, PartialEq, Eq)]
pub enum IndicatorKind {
    Tag,
    ModeWord,
    Priority,
    Operator,
    Field,
}

/// What a node of that kind defines.
#[tactic(auto, unfolding(crate::specs::Definitions::defines))]
pub fn defines(kind: NodeKind) -> Option<IndicatorKind>
    ensures { result ≡ definitions.defines kind }
{
    match kind {
        NodeKind::Variable
        | NodeKind::IdentityDefinition
        | NodeKind::Parameter
        | NodeKind::For
        | NodeKind::Label => Some(IndicatorKind::Tag),
        NodeKind::ModeDefinition => Some(IndicatorKind::ModeWord),
        NodeKind::Priority => Some(IndicatorKind::Priority),
        NodeKind::OpDefinition => Some(IndicatorKind::Operator),
        NodeKind::Field => Some(IndicatorKind::Field),
        _ => None,
    }
}

/// Does a node of that kind define something of that sort?
#[tactic(auto, unfolding(crate::specs::Tables::same_sort))]
pub fn is_sort(sort: IndicatorKind, kind: NodeKind) -> bool
    ensures { result ≡ tables.is_sort sort (definitions.defines kind) }
{
    match defines(kind) {
        Some(IndicatorKind::Tag) => matches!(sort, IndicatorKind::Tag),
        Some(IndicatorKind::ModeWord) => matches!(sort, IndicatorKind::ModeWord),
        Some(IndicatorKind::Priority) => matches!(sort, IndicatorKind::Priority),
        Some(IndicatorKind::Operator) => matches!(sort, IndicatorKind::Operator),
        Some(IndicatorKind::Field) => matches!(sort, IndicatorKind::Field),
        None => false,
    }
}
