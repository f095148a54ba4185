//! The numbers of routine texts and of units of parallel clauses, which nodes run, and the labels of clauses.
ghost use Rattle.std.specs.Option.{option_map};
ghost use Rattle.std.specs.Prelude.{◌≡◌, ◌<◌, ◌≤◌, ◌++◌, ◌+◌, [], suc, true, max, map, length, slice_get, Some, IfOk, OnOk};
ghost use Rattle.a68_elab.specs.Made as made;
ghost use Rattle.a68_elab.specs.Programs as programs;
ghost use Rattle.a68_elab.specs.Runs.{is_outcome, outcome, runs};
ghost use Rattle.a68_elab.specs.Trees.{is_label_in};
ghost use Rattle.a68_emit.specs.Seats.{labels_among};
ghost use Rattle.a68_emit.specs.Texts as texts;
ghost use Rattle.a68_emit.specs.Texts.{AreFirsts, AreFirstUnits, AreInside, AreNumbered};
ghost use Rattle.a68_modes.specs.Nodes.{shape_at, is_void};
ghost use Rattle.a68_parts.specs.Selecting.{selected};
ghost use Rattle.a68_tree.specs.Trees.{AllBetween};

use crate::entered::{Entered, UnitNode};
use crate::labels::{ClauseLabels, clause_labels};
use a68_annot::{Annotated, Note};
use a68_base::NoMemory;
use a68_modes::{ModeId, Modes};
use a68_parts::selected_fields;
use a68_runs::{is_run, leaves};
use a68_tree::{Node, NodeId, NodeKind};
use std::alloc::Global;
use std::marker::Model;

/// An annotated tree whose routine texts and units of parallel clauses are numbered in order of text, and of which it is
/// known which fields selections take and which labels clauses have. The numbers are kept by the bytes at
/// which these begin, so that each is found at once.
#[derive(Drop)]
pub struct Numbered<'a> {
    program: &'a Annotated,
    apart: Vec<Entered>,
    texts: Vec<u32>,
    units: Vec<u32>,
    fields: Vec<usize>,
    labels: ClauseLabels,
}

impl<'a> Model for Numbered<'a> {
    ghost use Rattle.a68_annot.specs.contracts.annotated.Annotated as annotated;
    ghost use Rattle.a68_annot.specs.declared.annotated.Annotated.{Annotated};
    ghost use Rattle.a68_emit.specs.Seats.{AreLabels};
    ghost use Rattle.a68_emit.specs.Texts.{AreNumbered};
    ghost use Rattle.a68_parts.specs.Selecting.{AreSelected};

    ghost Value = { Annotated };

    ghost coded = { annotated.the_row.coded };

    ghost view = { λ numbered. numbered.program.now };

    ghost invariant = { λ numbered. AreNumbered numbered.program.now numbered.apart.items numbered.texts.items numbered.units.items × AreSelected numbered.program.now numbered.fields.items × AreLabels numbered.program.now numbered.labels.keys };
}

// The byte behind that at which a node begins, or one that is behind it already.
fn behind(end: usize, from: u32) -> usize
    requires { end ≤ 4294967296 }
    ensures behind { result ≡ max (suc from) end }
    ensures few { result ≤ 4294967296 }
{
    let next = from as usize + 1;
    if end < next { next } else { end }
}

// A byte behind those at which nodes begin.
fn behind_all(program: &Annotated) -> usize
    ensures all { result ≡ made.behind_all program.now.tree.nodes }
    ensures few { result ≤ 4294967296 }
{
    let mut end = 0;
    let mut left = program.tree.len();
    while left > 0 {
        left -= 1;
        end = behind(end, program.tree.node(left).span.from);
    }
    end
}

// Is a node a routine text?
fn is_routine_text(node: &Node) -> bool
    ensures { result ≡ made.is_routine_text node.now.kind }
{
    matches!(node.kind, NodeKind::RoutineText)
}

// Is it a parallel clause?
fn is_parallel(node: &Node) -> bool
    ensures { result ≡ made.is_parallel node.now.kind }
{
    matches!(node.kind, NodeKind::Parallel)
}

// The first routine text that begins at each byte: of several the one with the least number, which is the outermost.
fn first_texts(alloc: Global, program: &Annotated) -> Result<Vec<Option<NodeId>>, NoMemory>
    ensures firsts { IfOk result (λ table. AreFirsts program.now 0 table.items) }
    ensures few { IfOk result (λ table. length table.items ≤ 4294967296) }
{
    let mut table = vec![in alloc; None; behind_all(program)]?;
    let mut left = program.tree.len();
    while left > 0 {
        left -= 1;
        let node = program.tree.node(left);
        if is_routine_text(node) {
            table[node.span.from as usize] = Some(left);
        }
    }
    Ok(table)
}

// Notes these units of a parallel clause in front of those of the nodes behind it, each where it begins.
fn note_all(
    program: &Annotated,
    id: NodeId,
    place: u32,
    parts: &[NodeId],
    table: &mut [Option<UnitNode>],
)
    requires between { AllBetween id (length program.now.tree.nodes) parts.now }
    requires behind { AreFirstUnits program.now 0 [] (id + 1) table.old }
    ensures { AreFirstUnits program.now place parts.now (id + 1) table.new }
{
    let mut left = parts.len();
    while left > 0 {
        left -= 1;
        let part = parts[left];
        let from = program.tree.node(part).span.from;
        table[from as usize] = Some(UnitNode { place, id: part });
    }
}

// Notes the units of a node, where it is a parallel clause, in front of those of the nodes behind it.
fn note_units(program: &Annotated, id: NodeId, table: &mut [Option<UnitNode>])
    requires there { id < length program.now.tree.nodes }
    requires behind { AreFirstUnits program.now 0 [] (id + 1) table.old }
    ensures { AreFirstUnits program.now 0 [] id table.new }
{
    let node = program.tree.node(id);
    if is_parallel(node) {
        note_all(program, id, node.span.from, program.tree.parts(id), table);
    }
}

// The first unit of a parallel clause that begins at each byte.
fn first_units(alloc: Global, program: &Annotated) -> Result<Vec<Option<UnitNode>>, NoMemory>
    ensures { IfOk result (λ table. AreFirstUnits program.now 0 [] 0 table.items) }
{
    let mut table = vec![in alloc; None; behind_all(program)]?;
    let mut left = program.tree.len();
    while left > 0 {
        left -= 1;
        note_units(program, left, &mut table);
    }
    Ok(table)
}

// Keeps a routine text, if there is one, and counts it.
fn keep_text(
    apart: &mut Vec<Entered>,
    count: usize,
    first: Option<NodeId>,
) -> Result<usize, NoMemory>
    requires { count < 4294967296 }
    ensures count { IfOk result (λ next. next ≡ count + length (texts.listed first)) }
    ensures kept { OnOk result (apart.new.items ≡ apart.old.items ++ texts.entered_text first) }
{
    let Some(id) = first else {
        return Ok(count);
    };
    apart.push(Entered::Text(id))?;
    Ok(count + 1)
}

// Keeps a unit of a parallel clause, if there is one, and counts it.
fn keep_unit(
    apart: &mut Vec<Entered>,
    count: usize,
    first: Option<UnitNode>,
) -> Result<usize, NoMemory>
    requires { count < 4294967296 }
    ensures count { IfOk result (λ next. next ≡ count + length (texts.listed_unit first)) }
    ensures kept { OnOk result (apart.new.items ≡ apart.old.items ++ texts.entered_unit first) }
{
    let Some(unit) = first else {
        return Ok(count);
    };
    apart.push(Entered::Unit(unit))?;
    Ok(count + 1)
}

// Goes over all bytes, and keeps what stands apart, and how many routine texts and units begin before each byte.
fn number_apart(
    program: &Annotated,
    first_texts: &[Option<NodeId>],
    first_units: &[Option<UnitNode>],
    apart: &mut Vec<Entered>,
    texts: &mut Vec<u32>,
    units: &mut Vec<u32>,
) -> Result<(), NoMemory>
    requires first_texts { AreFirsts program.now 0 first_texts.now }
    requires first_units { AreFirstUnits program.now 0 [] 0 first_units.now }
    requires few { length first_texts.now ≤ 4294967296 }
    requires none { apart.old.items ≡ [] }
    requires no_texts { texts.old.items ≡ [] }
    requires no_units { units.old.items ≡ [] }
    ensures { OnOk result (AreNumbered program.now apart.new.items texts.new.items units.new.items) }
{
    let mut text_count = 0;
    let mut unit_count = 0;
    for byte in 0..first_texts.len() {
        texts.push(text_count as u32)?;
        units.push(unit_count as u32)?;
        unit_count = keep_unit(apart, unit_count, first_units[byte])?;
        text_count = keep_text(apart, text_count, first_texts[byte])?;
    }
    Ok(())
}

impl<'a> Numbered<'a> {
    /// An annotated tree with its routine texts and units numbered.
    pub fn new(alloc: Global, program: &'a Annotated) -> Result<Numbered<'a>, NoMemory>
        ensures { IfOk result (λ numbered. numbered ≡ program.now) }
    {
        let fields = selected_fields(alloc, program)?;
        let labels = clause_labels(alloc, program)?;
        let first_texts = first_texts(alloc, program)?;
        let first_units = first_units(alloc, program)?;
        let mut apart = Vec::new(alloc);
        let mut texts = Vec::new(alloc);
        let mut units = Vec::new(alloc);
        number_apart(
            program,
            &first_texts,
            &first_units,
            &mut apart,
            &mut texts,
            &mut units,
        )?;
        Ok(Numbered {
            program,
            apart,
            texts,
            units,
            fields,
            labels,
        })
    }

    /// The annotated tree.
    pub fn annotated(&self) -> &Annotated
        ensures { result.now ≡ self.now }
    {
        self.program
    }

    /// The node of the whole text.
    pub fn root(&self) -> NodeId
        ensures first { result ≡ 0 }
        ensures within { 0 < length self.now.tree.nodes }
    {
        self.program.tree.root()
    }

    /// How many nodes there are.
    pub fn len(&self) -> u32
        ensures { result ≡ length self.now.tree.nodes }
    {
        self.program.tree.len()
    }

    /// The node of that number.
    pub fn node(&self, id: NodeId) -> &Node
        requires { id < length self.now.tree.nodes }
        ensures is { slice_get self.now.tree.nodes id ≡ Some result.now }
        ensures named { result.now.name < length self.now.tree.spellings }
        ensures behind { AllBetween id (length self.now.tree.nodes) result.now.parts }
    {
        self.program.tree.node(id)
    }

    /// The parts of the node of that number, in order of text.
    pub fn parts(&self, id: NodeId) -> &[NodeId]
        requires { id < length self.now.tree.nodes }
        ensures is { option_map (λ n. n.parts) (slice_get self.now.tree.nodes id) ≡ Some result.now }
        ensures behind { AllBetween id (length self.now.tree.nodes) result.now }
    {
        self.program.tree.parts(id)
    }

    /// What is known of a node.
    pub fn note(&self, id: NodeId) -> &Note
        requires { id < length self.now.tree.nodes }
        ensures { slice_get self.now.notes id ≡ Some result.now }
    {
        self.program.note(id)
    }

    /// Does a node run: does it leave what is asked of it? It is asked when the node is written, so that no more bounds are looked
    /// at than instructions are written.
    pub fn runs(&self, id: NodeId) -> Result<bool, NoMemory>
        requires { id < length self.now.tree.nodes }
        ensures { IfOk result (λ is_run. is_run ≡ runs self.now id) }
    {
        let alloc = *self.fields.allocator();
        is_run(alloc, self.program, &self.fields, id)
    }

    /// The same, but that it does not tell that a node runs where there is no memory to find out.
    pub fn surely_runs(&self, id: NodeId) -> bool
        requires { id < length self.now.tree.nodes }
        ensures { result ≡ true → runs self.now id ≡ true }
    {
        matches!(self.runs(id), Ok(true))
    }

    /// The place of the field that a node takes, if it is a selection, among those of the structure; else 0.
    pub fn field(&self, id: NodeId) -> usize
        requires { id < length self.now.tree.nodes }
        ensures { option_map (selected self.now) (slice_get self.now.tree.nodes id) ≡ Some result }
    {
        self.fields[id as usize]
    }

    /// Has a serial clause a label?
    pub fn has_label(&self, clause: NodeId, label: NodeId) -> bool
        ensures { result ≡ is_label_in label (labels_among self.now (made.parts_at self.now clause)) }
    {
        self.labels.contains(&(clause, label))
    }

    /// Is a value asked of a node?
    pub fn asks_value(&self, id: NodeId) -> bool
        requires { id < length self.now.tree.nodes }
        ensures { result ≡ is_outcome true (outcome self.now id) }
    {
        leaves(self.program, true, id)
    }

    /// The modes that the tree names.
    pub fn modes(&self) -> &Modes
        ensures { result.now ≡ self.now.modes }
    {
        &self.program.modes
    }

    /// Is a mode VOID?
    pub fn is_void(&self, mode: ModeId) -> bool
        ensures { result ≡ is_void (shape_at self.now.modes mode) }
    {
        self.program.modes.is_void(mode)
    }

    /// All routine texts and all units of parallel clauses, in order of text.
    pub fn apart(&self) -> &[Entered]
        ensures are { map (texts.apart_of self.now) result.now ≡ (programs.program_of self.now).apart }
        ensures inside { AreInside (length self.now.tree.nodes) result.now }
    {
        &self.apart
    }

    /// The number of the routine text that begins at a byte: how many begin before it.
    pub fn text_number(&self, byte: u32) -> u32
        requires { byte < made.behind_all self.now.tree.nodes }
        ensures { result ≡ made.text_number self.now byte }
    {
        self.texts[byte as usize]
    }

    /// The number of the unit that begins at a byte: how many begin before it.
    pub fn unit_number(&self, byte: u32) -> u32
        requires { byte < made.behind_all self.now.tree.nodes }
        ensures { result ≡ made.unit_number self.now byte }
    {
        self.units[byte as usize]
    }
}
