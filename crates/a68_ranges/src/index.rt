//! The definitions of one sort by range and name, and which of them come too late.
ghost use Rattle.std.specs.Prelude.{◌≡◌, ◌<◌, ◌≤◌, ℕ, IfOk, OnOk, None, length};
ghost use Rattle.a68_ranges.specs.Definitions.{AreDeclared};
ghost use Rattle.a68_ranges.specs.Definitions as definitions;
ghost use Rattle.a68_ranges.specs.Nodes as nodes;
ghost use Rattle.a68_ranges.specs.Tables.{at_key, first_named, AreFirst};
ghost use Rattle.a68_ranges.specs.Tables as tables;
ghost use Rattle.a68_ranges.specs.Indexed.{IsNoted, IsOneNoted, IsLateIn, IsLateBefore, IsLeast, AreIndexed};

use crate::reading::{earlier, kind_of, name_of};
use crate::sort::{IndicatorKind, is_sort};
use a68_base::NoMemory;
use a68_tree::{NodeId, Parts, Tree};
use indexmap::IndexMap;
use std::alloc::Global;

/// The first definition by range and name, in declared order.
pub type Index = IndexMap<(NodeId, u32), NodeId>;

/// The definitions of one sort, and the first in text of those that another one in their range precedes.
#[derive(Drop)]
pub struct Indexed {
    pub index: Index,
    pub late: Option<NodeId>,
}

// Notes the definition of a name in a range, where it is the first one. Was one there before?
fn note(index: &mut Index, range: NodeId, name: u32, id: NodeId) -> Result<bool, NoMemory>
    ensures { IfOk result (λ late. IsNoted index.old.entries index.new.entries range name id late) }
{
    if let Some(_) = index.get(&(range, name)) {
        return Ok(true);
    }
    index.insert((range, name), id)?;
    Ok(false)
}

// Notes a node that a range declares, where it defines something of that sort. The node, where another one precedes it.
fn note_one(
    index: &mut Index,
    tree: &Tree,
    sort: IndicatorKind,
    range: NodeId,
    id: NodeId,
) -> Result<Option<NodeId>, NoMemory>
    ensures { IfOk result (λ late. IsOneNoted tree.now index.old.entries index.new.entries range id (tables.is_sort sort (definitions.defines (nodes.kind_at tree.now id))) late) }
{
    if !is_sort(sort, kind_of(tree, id)) {
        return Ok(None);
    }
    if note(index, range, name_of(tree, id), id)? {
        return Ok(Some(id));
    }
    Ok(None)
}

// Notes what a range declares of that sort. The first in text of those that another one precedes.
fn note_list(
    index: &mut Index,
    tree: &Tree,
    sort: IndicatorKind,
    range: NodeId,
    list: &[NodeId],
) -> Result<Option<NodeId>, NoMemory>
    requires { (name : ℕ) → at_key index.old.entries range name ≡ None }
    ensures named { OnOk result ((name : ℕ) → at_key index.new.entries range name ≡ first_named tree.now sort name list.now) }
    ensures others { OnOk result ((r name : ℕ) → (r ≡ range → ⊥) → at_key index.new.entries r name ≡ at_key index.old.entries r name) }
    ensures late { IfOk result (λ late. IsLeast tree.now (IsLateIn tree.now sort list.now (length list.now)) late) }
{
    let mut late = None;
    for id in list {
        late = earlier(tree, late, note_one(index, tree, sort, range, *id)?);
    }
    Ok(late)
}

/// The nodes of a list.
pub fn items(parts: &Parts) -> &[NodeId]
    ensures { result.now ≡ parts.now }
{
    &parts.items
}

// Notes what all nodes declare of that sort.
fn note_all(
    index: &mut Index,
    tree: &Tree,
    sort: IndicatorKind,
    declared: &[Parts],
) -> Result<Option<NodeId>, NoMemory>
    requires declared { AreDeclared tree.now (length tree.now.nodes) declared.now }
    requires fresh { (range name : ℕ) → at_key index.old.entries range name ≡ None }
    ensures indexed { OnOk result (AreIndexed tree.now sort index.new.entries (length tree.now.nodes)) }
    ensures late { IfOk result (λ late. IsLeast tree.now (IsLateBefore tree.now sort (length tree.now.nodes)) late) }
{
    let mut late = None;
    for range in 0..tree.len() {
        let list = items(&declared[range as usize]);
        late = earlier(tree, late, note_list(index, tree, sort, range, list)?);
    }
    Ok(late)
}

/// The definitions of one sort by range and name.
pub fn index_of(
    alloc: Global,
    tree: &Tree,
    sort: IndicatorKind,
    declared: &[Parts],
) -> Result<Indexed, NoMemory>
    requires { AreDeclared tree.now (length tree.now.nodes) declared.now }
    ensures first { IfOk result (λ found. AreFirst tree.now sort found.index.entries) }
    ensures late { IfOk result (λ found. IsLeast tree.now (IsLateBefore tree.now sort (length tree.now.nodes)) found.late) }
{
    let mut index = IndexMap::new(alloc);
    let late = note_all(&mut index, tree, sort, declared)?;
    Ok(Indexed { index, late })
}
