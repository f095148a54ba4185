//! What is seen outwards from frames.
ghost use Rattle.std.specs.Prelude.{◌≡◌, ◌<◌, ℕ, List, IfOk, Some, length, if◌then◌else◌};
ghost use Rattle.a68_frames.specs.Frames.{has_slot as has_slot_lem, with_slots};
ghost use Rattle.a68_frames.specs.Outlooks as outlooks;
ghost use Rattle.a68_frames.specs.Outlooks.{AreFirstViews, AreViews, HavePlaces, HoldsAll, HoldsToo, IsNextView};
ghost use Rattle.a68_frames.specs.Tables.{AreTexts};
ghost use Rattle.a68_maps.specs.Found.{IsMade, found};
ghost use Rattle.a68_ranges.specs.Definitions.{declared_in};
ghost use Rattle.a68_ranges.specs.Nodes.{kind_at};
ghost use Rattle.a68_ranges.specs.Tables.{AreRanges};

use crate::chain::Chains;
use crate::reading::{has_slot, is_routine_text, is_told, kind_of};
use a68_base::NoMemory;
use a68_maps::{Map, Maps};
use a68_ranges::Ranges;
use a68_tree::{NodeId, Tree};
use std::alloc::Global;
use std::marker::Model;

/// What is seen outwards from a frame: how many frames there are, the innermost of them that is of a routine text, and in which
/// one each definition has its slot.
#[derive(Clone, Copy)]
pub struct View {
    pub depth: u32,
    pub text: Option<usize>,
    pub slots: Map,
}

/// What is seen from each frame. Nothing is walked for: a chain of choices may have very many ranges about each use.
#[derive(Drop)]
pub struct Outlook {
    views: Vec<View>,
    maps: Maps,
    texts: Vec<bool>,
}

impl Model for Outlook {
    ghost use Rattle.a68_frames.specs.Outlooks.{Seen};

    ghost Value = { Seen };

    ghost view = { λ outlook. record { views = outlook.views.items; maps = outlook.maps; texts = outlook.texts.items } };
}

// What is seen from a frame; nothing from outside all frames.
fn view_at(views: &[View], start: Option<usize>) -> View
    ensures { result ≡ outlooks.view_at views.now start }
{
    let nothing = View {
        depth: 0,
        text: None,
        slots: None,
    };
    let Some(number) = start else {
        return nothing;
    };
    match views.get(number) {
        Some(view) => *view,
        None => nothing,
    }
}

impl Outlook {
    /// What is seen from a frame.
    pub fn view(&self, start: Option<usize>) -> View
        ensures { result ≡ outlooks.view_at self.now.views start }
    {
        view_at(&self.views, start)
    }

    /// The innermost frame from that one outwards in which a definition has a slot.
    pub fn holder(&self, start: Option<usize>, definition: NodeId) -> Option<u32>
        ensures { result ≡ found self.now.maps (outlooks.view_at self.now.views start).slots definition }
    {
        self.maps.get(view_at(&self.views, start).slots, definition)
    }
}

// Puts the frame in which a definition has its slot, where it has one.
fn put_slot(
    maps: &mut Maps,
    tree: &Tree,
    id: NodeId,
    number: u32,
    outer: Map,
) -> Result<Map, NoMemory>
    requires { IsMade maps.old outer }
    ensures { IfOk result (λ map. HoldsToo maps.old maps.new outer id number (has_slot_lem (kind_at tree.now id)) map) }
{
    if !has_slot(kind_of(tree, id)) {
        return Ok(outer);
    }
    let map = maps.with(outer, id, number)?;
    Ok(map)
}

// Puts the frame in which these definitions have their slots.
fn put_slots(
    maps: &mut Maps,
    tree: &Tree,
    list: &[NodeId],
    number: u32,
    outer: Map,
) -> Result<Map, NoMemory>
    requires { IsMade maps.old outer }
    ensures { IfOk result (λ map. HoldsAll maps.old maps.new outer (with_slots tree.now list.now) number map) }
{
    let mut map = outer;
    let mut place = list.len();
    'places: while place > 0 {
        place -= 1;
        let next = put_slot(maps, tree, list[place], number, map)?;
        map = next;
    }
    Ok(map)
}

// What a range declares. A number of no node declares nothing.
fn declared_at<'a>(tree: &Tree, ranges: &'a Ranges, range: NodeId) -> &'a [NodeId]
    requires { AreRanges tree.now ranges.now }
    ensures { result.now ≡ declared_in tree.now range }
{
    if range < tree.len() {
        ranges.declared(range)
    } else {
        &[]
    }
}

// The frame itself, where it is of a routine text, else the one that is seen from outside it.
fn text_of(is_text: bool, number: usize, outside: Option<usize>) -> Option<usize>
    ensures { result ≡ (if is_text then Some number else outside) }
{
    if is_text { Some(number) } else { outside }
}

// What is seen from the next frame.
fn next_view(
    maps: &mut Maps,
    views: &[View],
    tree: &Tree,
    ranges: &Ranges,
    chains: &Chains,
    texts: &[bool],
) -> Result<View, NoMemory>
    requires ranges { AreRanges tree.now ranges.now }
    requires there { length views.now < length chains.now.frames }
    requires before { AreFirstViews tree.now chains.now.frames texts.now maps.old views.now (length views.now) }
    ensures { IfOk result (λ view. IsNextView tree.now chains.now.frames texts.now maps.old maps.new (length views.now) view) }
{
    let number = views.len();
    let frame = chains.frame(number);
    let outside = view_at(views, frame.outer);
    let list = declared_at(tree, ranges, frame.range);
    let slots = put_slots(maps, tree, list, number as u32, outside.slots)?;
    Ok(View {
        depth: outside.depth + 1,
        text: text_of(is_told(texts, frame.range), number, outside.text),
        slots,
    })
}

// Which nodes are routine texts.
fn texts_of(alloc: Global, tree: &Tree) -> Result<Vec<bool>, NoMemory>
    ensures { IfOk result (λ texts. AreTexts tree.now texts.items) }
{
    let mut texts = Vec::new(alloc);
    for node in 0..tree.len() {
        texts.push(is_routine_text(kind_of(tree, node)))?;
    }
    Ok(texts)
}

/// What is seen from each frame of a tree.
pub fn outlook_of(
    alloc: Global,
    tree: &Tree,
    ranges: &Ranges,
    chains: &Chains,
) -> Result<Outlook, NoMemory>
    requires { AreRanges tree.now ranges.now }
    ensures texts { IfOk result (λ outlook. AreTexts tree.now outlook.texts) }
    ensures views { IfOk result (λ outlook. (entries : List ((ℕ × ℕ) × ℕ)) → HavePlaces tree.now entries → AreViews chains.now.frames entries outlook) }
{
    let texts = texts_of(alloc, tree)?;
    let mut maps = Maps::new(alloc);
    let mut views = Vec::new(alloc);
    'frames: while views.len() < chains.len() {
        let view = next_view(&mut maps, &views, tree, ranges, chains, &texts)?;
        views.push(view)?;
    }
    Ok(Outlook { views, maps, texts })
}
