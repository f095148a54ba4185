//! The modes of a text, as they grow.
ghost use Rattle.std.specs.Prelude.{◌≡◌, ◌<◌, IfOk, OnErr, length};
ghost use Rattle.std.specs.List.{All};
ghost use Rattle.a68_declare.specs.Clean.{AreFixed, IsNode, CleanMembersHaveNoFlex};
ghost use Rattle.a68_equiv.specs.Classes.{AreExact, AreKept};
ghost use Rattle.a68_equiv.specs.Dimensions.{HaveDimensions};
ghost use Rattle.a68_equiv.specs.Related.{without_flex};
ghost use Rattle.a68_equiv.specs.Ways.{AreWellFormed};
ghost use Rattle.a68_mode_table.specs.Growing.{AreSound, IsInterned, IsNumberInterned, IsRowInterned};
ghost use Rattle.a68_modes.specs.Nodes.{shape_at, HoldsNodes};
ghost use Rattle.a68_modes.specs.declared.shape.Shape.TheVariants.{Proc, Ref};

use crate::growing::{grown, grown_number, grown_row};
use a68_base::NoMemory;
use a68_equiv::{Classes, Mode};
use a68_modes::{Members, ModeId, Modes, Shape};
use std::alloc::Global;
use std::marker::Model;

/// The modes of a text, which are clean and well formed, with their classes; and of each mode the node of the same mode without
/// its FLEX down to the next REF or PROC.
///
/// Contracts see the list of the shapes.
#[derive(Drop)]
pub struct ModeTable {
    modes: Modes,
    classes: Classes,
    fixed: Vec<ModeId>,
}

impl Model for ModeTable {
    ghost use Rattle.std.specs.Prelude.{List};
    ghost use Rattle.a68_modes.specs.declared.shape.Shape.{Shape};

    ghost Value = { List Shape };

    ghost view = { λ table. table.modes };

    ghost use Rattle.a68_mode_table.specs.Table.{IsTable};

    ghost invariant = { λ table. IsTable table.modes table.classes table.fixed.items };
}

impl ModeTable {
    /// The table of these modes, of their classes, and of the node of each mode without its FLEX.
    pub fn new(modes: Modes, classes: Classes, fixed: Vec<ModeId>) -> ModeTable
        requires sound { AreSound modes }
        requires kept { AreKept modes classes }
        requires fixed { AreFixed modes fixed.items }
        ensures { result ≡ modes }
    {
        ModeTable {
            modes,
            classes,
            fixed,
        }
    }

    /// How many nodes there are.
    pub fn len(&self) -> u32
        ensures length { result ≡ length self.now }
        ensures sound { AreSound self.now }
    {
        self.modes.len()
    }

    /// The shape of a node.
    pub fn shape(&self, mode: ModeId) -> &Shape
        requires { mode < length self.now }
        ensures shape { result.now ≡ shape_at self.now mode }
        ensures sound { AreSound self.now }
    {
        self.modes.shape(mode)
    }

    /// The modes.
    pub fn modes(&self) -> &Modes
        ensures is { result.now ≡ self.now }
        ensures sound { AreSound self.now }
        ensures formed { AreWellFormed self.now }
        ensures rows { HaveDimensions self.now }
        ensures members { CleanMembersHaveNoFlex self.now }
        ensures holds { HoldsNodes self.now }
    {
        &self.modes
    }

    /// The modes, to which nothing more joins.
    pub fn into_modes(self) -> Modes
        ensures is { result ≡ self }
    {
        let ModeTable {
            modes,
            classes: _,
            fixed: _,
        } = self;
        modes
    }

    /// Their classes.
    pub fn classes(&self) -> &Classes
        ensures exact { AreExact self.now result.now.of }
        ensures kept { AreKept self.now result.now }
    {
        &self.classes
    }

    /// The node of a mode without its FLEX down to the next REF or PROC.
    pub fn without_flex(&self, mode: ModeId) -> ModeId
        requires { mode < length self.now }
        ensures { IsNode self.now (without_flex mode) result }
    {
        self.fixed[mode as usize]
    }

    /// The node of a mode, with or without its FLEX.
    pub fn node_of(&self, mode: Mode) -> ModeId
        requires { mode.id < length self.now }
        ensures { IsNode self.now mode result }
    {
        if mode.fixed {
            self.without_flex(mode.id)
        } else {
            mode.id
        }
    }

    /// The node of the name of a mode, which joins the modes where it is not there. NoMemory also where 16,777,216 nodes are
    /// there; an error leaves the modes as they were.
    pub fn name_of(&mut self, alloc: Global, of: ModeId) -> Result<ModeId, NoMemory>
        requires { of < length self.old }
        ensures interned { IfOk result (λ id. IsInterned self.old (Ref of) self.new id) }
        ensures stays { OnErr result (self.new ≡ self.old) }
    {
        let itself = self.modes.len();
        grown(
            alloc,
            &mut self.modes,
            &mut self.classes,
            &mut self.fixed,
            Shape::Ref(of),
            itself,
        )
    }

    /// The node of a procedure, which joins the modes where it is not there. NoMemory also where 16,777,216 nodes are there; an
    /// error leaves the modes as they were.
    pub fn procedure(
        &mut self,
        alloc: Global,
        params: Members,
        of: ModeId,
    ) -> Result<ModeId, NoMemory>
        requires params { All (λ param. param < length self.old) params }
        requires of { of < length self.old }
        ensures interned { IfOk result (λ id. IsInterned self.old (Proc params of) self.new id) }
        ensures stays { OnErr result (self.new ≡ self.old) }
    {
        let itself = self.modes.len();
        grown(
            alloc,
            &mut self.modes,
            &mut self.classes,
            &mut self.fixed,
            Shape::Proc { params, result: of },
            itself,
        )
    }

    /// The node of the union of INT and LONG INT, which joins the modes where it is not there. NoMemory also where 16,777,216
    /// nodes are there; an error leaves the modes as they were.
    pub fn number(&mut self, alloc: Global) -> Result<ModeId, NoMemory>
        ensures interned { IfOk result (λ id. IsNumberInterned self.old self.new id) }
        ensures stays { OnErr result (self.new ≡ self.old) }
    {
        grown_number(alloc, &mut self.modes, &mut self.classes, &mut self.fixed)
    }

    /// The node of a row, which joins the modes where it is not there; before it the same row without FLEX, of the element
    /// without FLEX. NoMemory also where 16,777,216 nodes are there; the modes may have grown by one then.
    pub fn row_of(
        &mut self,
        alloc: Global,
        dims: u32,
        flex: bool,
        of: ModeId,
    ) -> Result<ModeId, NoMemory>
        requires of { of < length self.old }
        requires some { 0 < dims }
        ensures { IfOk result (λ id. IsRowInterned self.old dims flex of self.new id) }
    {
        grown_row(
            alloc,
            &mut self.modes,
            &mut self.classes,
            &mut self.fixed,
            dims,
            flex,
            of,
        )
    }
}
