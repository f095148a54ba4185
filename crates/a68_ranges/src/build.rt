//! The tables of the ranges of a tree.
ghost use Rattle.std.specs.Prelude.{◌≡◌, ◌<◌, ◌+◌, ◌^◌, ℕ, IfOk, IfErr, length};
ghost use Rattle.a68_base.specs.declared.refusal.Rule.TheVariants.{N3};
ghost use Rattle.a68_ranges.specs.Definitions.{AreDeclared};
ghost use Rattle.a68_ranges.specs.Indexed.{IsLeast};
ghost use Rattle.a68_ranges.specs.Nodes as nodes;
ghost use Rattle.a68_ranges.specs.Tables.{AreFirst, AreRanges};
ghost use Rattle.a68_ranges.specs.Twice.{IsTwice, IsFirstInText, RefusesTwice, StopsBy};
ghost use Rattle.a68_ranges.specs.declared.sort.IndicatorKind.TheVariants as sorts;

use crate::declared::declared_of;
use crate::index::{Index, index_of};
use crate::nests::nests_of;
use crate::operators::operators_of;
use crate::reading::{earlier, place_of};
use crate::sort::IndicatorKind;
use crate::standard::standard_names;
use crate::tables::Ranges;
use crate::visible::visible_of;
use crate::written::written_of;
use a68_base::{NoMemory, Refusal, Rule, Stop};
use a68_tree::{NodeId, Parts, Tree};
use std::alloc::Global;

/// The definitions by range and name, and the first in text of those that come too late.
#[derive(Drop)]
pub struct Indices {
    pub tags: Index,
    pub mode_words: Index,
    pub priorities: Index,
    pub late: Option<NodeId>,
}

// The definitions of all sorts by range and name.
fn indices_of(alloc: Global, tree: &Tree, declared: &[Parts]) -> Result<Indices, NoMemory>
    requires { AreDeclared tree.now (length tree.now.nodes) declared.now }
    ensures tags { IfOk result (λ found. AreFirst tree.now sorts.Tag found.tags.entries) }
    ensures mode_words { IfOk result (λ found. AreFirst tree.now sorts.ModeWord found.mode_words.entries) }
    ensures priorities { IfOk result (λ found. AreFirst tree.now sorts.Priority found.priorities.entries) }
    ensures late { IfOk result (λ found. IsLeast tree.now (IsTwice tree.now) found.late) }
{
    let tags = index_of(alloc, tree, IndicatorKind::Tag, declared)?;
    let mode_words = index_of(alloc, tree, IndicatorKind::ModeWord, declared)?;
    let priorities = index_of(alloc, tree, IndicatorKind::Priority, declared)?;
    let fields = index_of(alloc, tree, IndicatorKind::Field, declared)?;
    let words = earlier(tree, tags.late, mode_words.late);
    let others = earlier(tree, priorities.late, fields.late);
    let late = earlier(tree, words, others);
    Ok(Indices {
        tags: tags.index,
        mode_words: mode_words.index,
        priorities: priorities.index,
        late,
    })
}

// All tables, of what is declared and of its indices.
fn tables_of(
    alloc: Global,
    tree: &Tree,
    declared: Vec<Parts>,
    indices: Indices,
) -> Result<Ranges, NoMemory>
    requires few { length tree.now.nodes + 11 < 2 ^ 32 }
    requires declared { AreDeclared tree.now (length tree.now.nodes) declared.items }
    requires tags { AreFirst tree.now sorts.Tag indices.tags.entries }
    requires mode_words { AreFirst tree.now sorts.ModeWord indices.mode_words.entries }
    requires priorities { AreFirst tree.now sorts.Priority indices.priorities.entries }
    requires once { (id : ℕ) → IsTwice tree.now id → ⊥ }
    ensures { IfOk result (λ ranges. AreRanges tree.now ranges) }
{
    let nests = nests_of(alloc, tree, &declared)?;
    let visible_tags = visible_of(alloc, tree, IndicatorKind::Tag, &declared, &nests)?;
    let visible_mode_words = visible_of(alloc, tree, IndicatorKind::ModeWord, &declared, &nests)?;
    let visible_priorities = visible_of(alloc, tree, IndicatorKind::Priority, &declared, &nests)?;
    let operators = operators_of(alloc, tree, &declared)?;
    let standard = standard_names(alloc, tree)?;
    let written = written_of(alloc, tree)?;
    Ok(Ranges {
        count: tree.len(),
        nests,
        declared,
        operators,
        tags: indices.tags,
        mode_words: indices.mode_words,
        priorities: indices.priorities,
        visible_tags,
        visible_mode_words,
        visible_priorities,
        standard,
        written,
    })
}

/// The ranges of a tree, what they declare, and which nodes lie in them (3.0.2, 4.8).
///
/// A text is refused by N3 where a range declares a tag, a mode word or a priority twice, or a structure has two fields
/// of one tag: at the later definition, and at the first of these in the text.
pub fn ranges(alloc: Global, tree: &Tree) -> Result<Ranges, Stop>
    ensures are { IfOk result (λ ranges. AreRanges tree.now ranges) }
    ensures once { IfOk result (λ ranges. (id : ℕ) → IsTwice tree.now id → ⊥) }
    ensures refused { IfErr result (λ why. StopsBy (RefusesTwice tree.now) why) }
{
    if tree.len() >= u32::MAX - 11 {
        return Err(Stop::NoMemory);
    }
    let declared = declared_of(alloc, tree)?;
    let indices = indices_of(alloc, tree, &declared)?;
    if let Some(id) = indices.late {
        return Err(Stop::Refused(Refusal {
            rule: Rule::N3,
            place: place_of(tree, id),
        }));
    }
    let tables = tables_of(alloc, tree, declared, indices)?;
    Ok(tables)
}
