//! The chains of the frames about nodes.
ghost use Rattle.std.specs.Prelude.{◌≡◌, ◌<◌, ◌+◌, ◌^◌, IfOk, OnOk, None, Some, false, length, slice_get, slice_index_or};
ghost use Rattle.a68_frames.specs.Tables.{AreMade, AreChained, StayChained, AreAboutBefore, Extends, IsLayerAdded, frame_at};
ghost use Rattle.a68_ranges.specs.Links.{IsBelow, LayersAreLinked};
ghost use Rattle.a68_ranges.specs.Tables.{AreRanges};

use crate::reading;
use a68_base::NoMemory;
use a68_ranges::{Layer, Ranges};
use a68_tree::{NodeId, Tree};
use std::alloc::Global;
use std::marker::Model;

/// The innermost frame about each node, and each frame with the next outer one. Ranges that make no frame are left out.
#[derive(Drop)]
pub struct Chains {
    about: Vec<Option<usize>>,
    frames: Vec<Layer>,
}

impl Model for Chains {
    ghost use Rattle.std.specs.Prelude.{◌<◌, ◌^◌, length};
    ghost use Rattle.a68_frames.specs.Tables.{Chain};
    ghost use Rattle.a68_ranges.specs.Links.{LayersAreLinked};

    ghost Value = { Chain };

    ghost view = { λ chains. record { about = chains.about.items; frames = chains.frames.items } };

    ghost invariant = { λ chains. LayersAreLinked chains.about.items chains.frames.items × (length chains.frames.items < 2 ^ 32) };
}

/// The frames of the layers so far: the innermost frame of each layer, and the frames.
#[derive(Drop)]
pub struct Growing {
    by_layer: Vec<Option<usize>>,
    frames: Vec<Layer>,
}

// The innermost frame of a layer.
fn frame_of(by_layer: &[Option<usize>], layer: Option<usize>) -> Option<usize>
    requires { IsBelow (length by_layer.now) layer }
    ensures { result ≡ frame_at by_layer.now layer }
{
    match layer {
        None => None,
        Some(number) => by_layer[number],
    }
}

// Adds the frame of the next layer, where its range makes one.
fn add_layer(growing: &mut Growing, makes: &[bool], layer: Layer) -> Result<(), NoMemory>
    requires { IsBelow (length growing.old.by_layer.items) layer.outer }
    ensures { OnOk result (IsLayerAdded growing.old.by_layer.items growing.old.frames.items growing.new.by_layer.items growing.new.frames.items layer (slice_index_or makes.now layer.range false)) }
{
    let outer = frame_of(&growing.by_layer, layer.outer);
    if !reading::is_told(makes, layer.range) {
        growing.by_layer.push(outer)?;
        return Ok(());
    }
    let number = growing.frames.len();
    growing.by_layer.push(Some(number))?;
    growing.frames.push(Layer {
        range: layer.range,
        outer,
    })?;
    Ok(())
}

// Adds the next layer: with the frame of an earlier one that is the same, where there is one.
fn add_next(growing: &mut Growing, makes: &[bool], ranges: &Ranges) -> Result<(), NoMemory>
    requires there { length growing.old.by_layer.items < length ranges.now.nests.layers }
    requires linked { LayersAreLinked growing.old.by_layer.items growing.old.frames.items }
    ensures linked { OnOk result (LayersAreLinked growing.new.by_layer.items growing.new.frames.items) }
    ensures extends { OnOk result (Extends growing.old.frames.items growing.new.frames.items) }
    ensures one { OnOk result (length growing.new.by_layer.items ≡ length growing.old.by_layer.items + 1) }
    ensures chained { OnOk result (StayChained ranges.now.nests.layers makes.now growing.old.by_layer.items growing.old.frames.items growing.new.by_layer.items growing.new.frames.items) }
{
    let number = growing.by_layer.len();
    if let Some(twin) = ranges.twin(number) {
        let frame = growing.by_layer[twin];
        growing.by_layer.push(frame)?;
        return Ok(());
    }
    add_layer(growing, makes, ranges.layer(number))?;
    Ok(())
}

// Adds the frames of the layers up to that one.
fn grow(
    growing: &mut Growing,
    makes: &[bool],
    ranges: &Ranges,
    number: usize,
) -> Result<(), NoMemory>
    requires there { number < length ranges.now.nests.layers }
    requires linked { LayersAreLinked growing.old.by_layer.items growing.old.frames.items }
    ensures linked { OnOk result (LayersAreLinked growing.new.by_layer.items growing.new.frames.items) }
    ensures extends { OnOk result (Extends growing.old.frames.items growing.new.frames.items) }
    ensures reached { OnOk result (number < length growing.new.by_layer.items) }
    ensures chained { OnOk result (StayChained ranges.now.nests.layers makes.now growing.old.by_layer.items growing.old.frames.items growing.new.by_layer.items growing.new.frames.items) }
{
    'layers: while growing.by_layer.len() <= number {
        add_next(growing, makes, ranges)?;
    }
    Ok(())
}

// The innermost frame of a layer, as far as there is one.
fn reach(
    growing: &mut Growing,
    makes: &[bool],
    ranges: &Ranges,
    layer: Option<usize>,
) -> Result<Option<usize>, NoMemory>
    requires there { IsBelow (length ranges.now.nests.layers) layer }
    requires linked { LayersAreLinked growing.old.by_layer.items growing.old.frames.items }
    ensures linked { OnOk result (LayersAreLinked growing.new.by_layer.items growing.new.frames.items) }
    ensures extends { OnOk result (Extends growing.old.frames.items growing.new.frames.items) }
    ensures chained { OnOk result (StayChained ranges.now.nests.layers makes.now growing.old.by_layer.items growing.old.frames.items growing.new.by_layer.items growing.new.frames.items) }
    ensures below { IfOk result (λ nest. IsBelow (length growing.new.frames.items) nest) }
    ensures is { IfOk result (λ nest. (nest ≡ frame_at growing.new.by_layer.items layer) × IsBelow (length growing.new.by_layer.items) layer) }
{
    if let Some(number) = layer {
        grow(growing, makes, ranges, number)?;
    }
    Ok(frame_of(&growing.by_layer, layer))
}

// Adds the innermost frame about each node.
fn add_abouts(
    about: &mut Vec<Option<usize>>,
    growing: &mut Growing,
    makes: &[bool],
    tree: &Tree,
    ranges: &Ranges,
) -> Result<(), NoMemory>
    requires ranges { AreRanges tree.now ranges.now }
    requires makes { AreMade tree.now makes.now }
    requires linked { LayersAreLinked growing.old.by_layer.items growing.old.frames.items }
    requires chained { AreChained tree.now ranges.now.nests.layers growing.old.by_layer.items growing.old.frames.items }
    requires before { AreAboutBefore tree.now 0 about.old.items growing.old.frames.items }
    ensures { OnOk result (AreAboutBefore tree.now (length tree.now.nodes) about.new.items growing.new.frames.items) }
{
    for at in 0..tree.len() {
        let nest = reach(growing, makes, ranges, ranges.about(at))?;
        about.push(nest)?;
    }
    Ok(())
}

/// The frames about each node of a tree. More than have numbers of 32 bits are want of memory.
pub fn chains_of(
    alloc: Global,
    tree: &Tree,
    ranges: &Ranges,
    makes: &[bool],
) -> Result<Chains, NoMemory>
    requires ranges { AreRanges tree.now ranges.now }
    requires makes { AreMade tree.now makes.now }
    ensures { IfOk result (λ chains. AreAboutBefore tree.now (length tree.now.nodes) chains.about chains.frames) }
{
    let mut about = Vec::new(alloc);
    let mut growing = Growing {
        by_layer: Vec::new(alloc),
        frames: Vec::new(alloc),
    };
    add_abouts(&mut about, &mut growing, makes, tree, ranges)?;
    let Growing {
        by_layer: _,
        frames,
    } = growing;
    if frames.len() > u32::MAX as usize {
        return Err(NoMemory);
    }
    Ok(Chains { about, frames })
}

impl Chains {
    /// How many frames there are.
    pub fn len(&self) -> usize
        ensures is { result ≡ length self.now.frames }
        ensures few { length self.now.frames < 2 ^ 32 }
    {
        self.frames.len()
    }

    /// The innermost frame about a node.
    pub fn about(&self, at: NodeId) -> Option<usize>
        requires { at < length self.now.about }
        ensures is { result ≡ slice_index_or self.now.about at None }
        ensures there { IsBelow (length self.now.frames) result }
    {
        self.about[at as usize]
    }

    /// The frame of that number.
    pub fn frame(&self, number: usize) -> Layer
        requires { number < length self.now.frames }
        ensures is { slice_get self.now.frames number ≡ Some result }
        ensures outer { IsBelow number result.outer }
        ensures few { length self.now.frames < 2 ^ 32 }
    {
        self.frames[number]
    }
}
