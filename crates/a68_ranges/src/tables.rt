//! The ranges of a tree, and the definition that counts at a node.
ghost use Rattle.std.specs.Prelude.{◌≡◌, ◌<◌, ◌+◌, ◌^◌, List, ℕ, None, Some, length, slice_get};
ghost use Rattle.std.specs.Option.{option_and_then};
ghost use Rattle.a68_ranges.specs.Definitions.{declared_in};
ghost use Rattle.a68_ranges.specs.Standard.{IsTagOf, IsModeWordOf, IsPriorityOf};
ghost use Rattle.a68_ranges.specs.Tables.{AreRanges, Nested, operators_in};
ghost use Rattle.a68_ranges.specs.Links.{IsBelow, layered};
ghost use Rattle.a68_ranges.specs.Surroundings.{Lies};
ghost use Rattle.a68_ranges.specs.Visible.{IsTwin};
ghost use Rattle.a68_ranges.specs.Tables as tables;
ghost use Rattle.a68_ranges.specs.declared.standard.Standard.{Standard as Named};
ghost use Rattle.a68_tree.specs.Trees.{Built};

use crate::index::Index;
use crate::nests::{Layer, Nests};
use crate::operators::{OperatorIndex, at_sign};
use crate::standard::Standard;
use crate::visible::Visible;
use a68_tree::{NodeId, Parts};
use std::marker::Model;

/// The ranges about each node of a tree, what they declare, and what is standard.
///
/// Contracts see its tables.
#[derive(Drop)]
pub struct Ranges {
    pub(crate) count: u32,
    pub(crate) nests: Nests,
    pub(crate) declared: Vec<Parts>,
    pub(crate) operators: OperatorIndex,
    pub(crate) tags: Index,
    pub(crate) mode_words: Index,
    pub(crate) priorities: Index,
    pub(crate) visible_tags: Visible,
    pub(crate) visible_mode_words: Visible,
    pub(crate) visible_priorities: Visible,
    pub(crate) standard: Vec<Standard>,
    pub(crate) written: Vec<u32>,
}

impl Model for Ranges {
    ghost use Rattle.a68_ranges.specs.Tables.{RangeTables};
    ghost use Rattle.a68_ranges.specs.Visible.{AreVisible};

    ghost Value = { RangeTables };

    ghost view = { λ ranges. record { count = ranges.count; nests = ranges.nests; declared = ranges.declared.items; operators = ranges.operators.entries; tags = ranges.tags.entries; mode_words = ranges.mode_words.entries; priorities = ranges.priorities.entries; standard = ranges.standard.items; written = ranges.written.items } };

    ghost invariant = { λ ranges. AreVisible ranges.nests.layers ranges.tags.entries ranges.visible_tags × (AreVisible ranges.nests.layers ranges.mode_words.entries ranges.visible_mode_words × AreVisible ranges.nests.layers ranges.priorities.entries ranges.visible_priorities) };
}

impl Ranges {
    /// The definition of a tag that is applied at a node: the one in the innermost of the ranges about it that declares
    /// the tag, else the standard one, which has a number from that of the nodes upwards.
    pub fn tag(&self, at: NodeId, name: u32) -> Option<NodeId>
        requires { at < length self.now.nests.about }
        ensures { (tree : Built) → AreRanges tree self.now → IsTagOf tree at name result }
    {
        let found = self.nests.find(&self.visible_tags, at, name);
        tag_or(found, standard_tag(&self.standard, name), self.count)
    }

    /// The definition of a mode word that is applied at a node: the one in the innermost of the ranges about it that
    /// declares the word.
    pub fn mode_word(&self, at: NodeId, name: u32) -> Option<NodeId>
        requires { at < length self.now.nests.about }
        ensures { (tree : Built) → AreRanges tree self.now → IsModeWordOf tree at name result }
    {
        self.nests.find(&self.visible_mode_words, at, name)
    }

    /// The priority of a sign that is applied at a node: the one in the innermost of the ranges about it that declares
    /// it, else the standard one.
    pub fn priority(&self, at: NodeId, name: u32) -> Option<u32>
        requires { at < length self.now.nests.about }
        ensures { (tree : Built) → AreRanges tree self.now → IsPriorityOf tree at name result }
    {
        let found = self.nests.find(&self.visible_priorities, at, name);
        priority_or(
            found,
            &self.written,
            standard_priority(&self.standard, name),
        )
    }

    /// The number of the innermost layer about a node: of the ranges that it lies in, the innermost first. A range that
    /// declares nothing has no layer, unless it is a routine text. None where the node lies in no range that has one.
    pub fn about(&self, at: NodeId) -> Option<usize>
        requires { at < length self.now.nests.about }
        ensures ranges { (tree : Built) → AreRanges tree self.now → (ranges : List ℕ) → Lies tree at ranges → Nested self.now.nests.layers result (layered tree ranges) }
        ensures there { IsBelow (length self.now.nests.layers) result }
    {
        self.nests.about(at)
    }

    /// The layer of that number: a range, and the next outer layer, which has a lower number.
    pub fn layer(&self, number: usize) -> Layer
        requires { number < length self.now.nests.layers }
        ensures is { slice_get self.now.nests.layers number ≡ Some result }
        ensures outer { IsBelow number result.outer }
    {
        self.nests.layer(number)
    }

    /// An earlier layer that is the same as the one of that number, where there is one: parts of one range lie in layers that are
    /// the same, and a few of these have no twin.
    pub fn twin(&self, number: usize) -> Option<usize>
        requires { number < length self.now.nests.layers }
        ensures { IsTwin self.now.nests.layers number result }
    {
        self.nests.twin(number)
    }

    /// What a range declares, in order of text.
    pub fn declared(&self, range: NodeId) -> &[NodeId]
        requires { range < length self.now.declared }
        ensures { (tree : Built) → AreRanges tree self.now → result.now ≡ declared_in tree range }
    {
        &self.declared[range as usize].items
    }

    /// The operator definitions of a sign among what a range declares, in order of text.
    pub fn operators(&self, range: NodeId, sign: u32) -> &[NodeId]
        ensures { (tree : Built) → AreRanges tree self.now → result.now ≡ operators_in tree range sign }
    {
        at_sign(&self.operators, range, sign)
    }
}

// The place of a name among the standard tags.
fn standard_tag(standard: &[Standard], name: u32) -> Option<u32>
    ensures { result ≡ option_and_then (λ (s : Named). s.tag) (slice_get standard.now name) }
{
    let found = standard.get(name as usize)?;
    found.tag
}

// The standard priority of a name.
fn standard_priority(standard: &[Standard], name: u32) -> Option<u32>
    ensures { result ≡ option_and_then (λ (s : Named). s.priority) (slice_get standard.now name) }
{
    let found = standard.get(name as usize)?;
    found.priority
}

// The tag that was found, else the standard one, with the number behind those of the nodes.
fn tag_or(found: Option<NodeId>, place: Option<u32>, count: u32) -> Option<NodeId>
    ensures found { (id : ℕ) → found ≡ Some id → result ≡ Some id }
    ensures nowhere { found ≡ None → place ≡ None → result ≡ None }
    ensures standard { (k : ℕ) → found ≡ None → place ≡ Some k → count + k < 2 ^ 32 → result ≡ Some (count + k) }
{
    match (found, place) {
        (Some(_), _) => found,
        (None, None) => None,
        (None, Some(place)) => count.checked_add(place),
    }
}

// The priority that the definition writes which was found, else the standard one.
fn priority_or(found: Option<NodeId>, written: &[u32], standard: Option<u32>) -> Option<u32>
    ensures { result ≡ tables.priority_or found written.now standard }
{
    match found {
        Some(id) => written.get(id as usize).copied(),
        None => standard,
    }
}
