//! The modes of all declarers of a tree.
ghost use Rattle.std.specs.Prelude.{◌≡◌, ◌<◌, ◌≤◌, ◌+◌, ◌*◌, ◌^◌, ℕ, Bool, IfOk, OnOk, length, take};
ghost use Rattle.a68_declarers.specs.Modes.{ModesAreDeclared, AreOrdered};
ghost use Rattle.a68_declarers.specs.Declarers.{form_at, IsDeclarerAt};
ghost use Rattle.a68_declarers.specs.Numbers.{declarers, number_at, AreNumbers};
ghost use Rattle.a68_declarers.specs.Shapes.{IsShapeOf};
ghost use Rattle.a68_modes.specs.Nodes.{shape_at, standard_shapes};
ghost use Rattle.a68_modes.specs.declared.shape.Shape.TheVariants.{Blank};
ghost use Rattle.a68_ranges.specs.Tables.{AreRanges};

use crate::crowd::count;
use crate::numbers::Numbers;
use crate::reading::is_declarer;
use crate::shapes::shape_of;
use a68_base::NoMemory;
use a68_modes::{ModeStop, Modes, Shape};
use a68_ranges::Ranges;
use a68_tree::{NodeId, Tree};
use std::alloc::Global;

/// Adds so many nodes without a shape.
pub fn add_blank(modes: &mut Modes, count: u32) -> Result<(), NoMemory>
    requires { length modes.old + count ≤ 2 ^ 20 }
    ensures long { OnOk result (length modes.new ≡ length modes.old + count) }
    ensures blank { OnOk result ((m : ℕ) → length modes.old ≤ m → shape_at modes.new m ≡ Blank) }
{
    'adding: for _ in 0..count {
        match modes.add(Shape::Blank) {
            Ok(_) => {}
            Err(_) => return Err(NoMemory),
        }
    }
    Ok(())
}

// Gives one node of a declarer its shape.
fn set_one(
    alloc: Global,
    modes: &mut Modes,
    tree: &Tree,
    ranges: &Ranges,
    numbers: &Numbers,
    declarer: NodeId,
    fixed: bool,
) -> Result<(), NoMemory>
    requires there { declarer < length tree.now.nodes }
    requires ranges { AreRanges tree.now ranges.now }
    requires within { (d : ℕ) (fixed : Bool) → number_at numbers.now d fixed < length modes.old }
    requires standard { 15 ≤ length modes.old }
    requires blank { shape_at modes.old (number_at numbers.now declarer fixed) ≡ Blank }
    ensures long { OnOk result (length modes.new ≡ length modes.old) }
    ensures set { OnOk result (IsShapeOf tree.now (number_at numbers.now) declarer fixed (form_at tree.now declarer) (shape_at modes.new (number_at numbers.now declarer fixed))) }
    ensures others { OnOk result ((m : ℕ) → (m ≡ number_at numbers.now declarer fixed → ⊥) → shape_at modes.new m ≡ shape_at modes.old m) }
{
    let shape = shape_of(alloc, tree, ranges, numbers, declarer, fixed)?;
    modes.set(numbers.of(declarer, fixed), shape);
    Ok(())
}

// Gives all nodes of declarers their shapes.
fn set_all(
    alloc: Global,
    modes: &mut Modes,
    tree: &Tree,
    ranges: &Ranges,
    numbers: &Numbers,
) -> Result<(), NoMemory>
    requires ranges { AreRanges tree.now ranges.now }
    requires numbers { AreNumbers tree.now numbers.now }
    requires long { length modes.old ≡ 15 + 2 * declarers tree.now (length tree.now.nodes) }
    requires blank { (m : ℕ) → 15 ≤ m → shape_at modes.old m ≡ Blank }
    ensures declared { OnOk result (ModesAreDeclared tree.now modes.new (number_at numbers.now)) }
    ensures long { OnOk result (length modes.new ≡ length modes.old) }
{
    for id in 0..tree.len() {
        if is_declarer(tree, id) {
            set_one(alloc, modes, tree, ranges, numbers, id, false)?;
            set_one(alloc, modes, tree, ranges, numbers, id, true)?;
        }
    }
    Ok(())
}

/// The modes of all declarers of a tree, as they are declared: mode words stand for the modes of their definitions.
pub fn raw_modes(
    alloc: Global,
    tree: &Tree,
    ranges: &Ranges,
    numbers: &Numbers,
) -> Result<Modes, NoMemory>
    requires ranges { AreRanges tree.now ranges.now }
    requires numbers { AreNumbers tree.now numbers.now }
    requires few { declarers tree.now (length tree.now.nodes) ≤ 4096 }
    ensures declared { IfOk result (λ modes. ModesAreDeclared tree.now modes (number_at numbers.now)) }
    ensures ordered { IfOk result (λ modes. AreOrdered tree.now modes (number_at numbers.now)) }
    ensures standard { IfOk result (λ modes. take 15 modes ≡ standard_shapes) }
    ensures few { IfOk result (λ modes. length modes ≤ 2 ^ 20) }
{
    let mut modes = Modes::new(alloc)?;
    add_blank(&mut modes, 2 * count(tree))?;
    set_all(alloc, &mut modes, tree, ranges, numbers)?;
    let _there = modes.len();
    Ok(modes)
}
