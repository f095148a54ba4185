//! Clean modes.
ghost use Rattle.std.specs.Prelude.{◌≡◌, ◌<◌, ◌≤◌, ◌+◌, ◌^◌, ℕ, IfOk, OnOk, length};
ghost use Rattle.std.specs.List.{All};
ghost use Rattle.a68_declare.specs.Clean.{AreFixed, CleansTo, UnionsHaveNoFlex, CleanMembersHaveNoFlex};
ghost use Rattle.a68_declare.specs.Numbering.{number_in, AreShapesFrom, IsNumbering, AreFull, AreTwins, HaveTwins};
ghost use Rattle.a68_equiv.specs.Classes.{AreExact};
ghost use Rattle.a68_equiv.specs.Dimensions.{HaveDimensions};
ghost use Rattle.a68_equiv.specs.Ways.{AreWellFormed};
ghost use Rattle.a68_modes.specs.Nodes.{shape_at};
ghost use Rattle.a68_modes.specs.declared.shape.Shape.TheVariants.{Blank};

use crate::image::{number, shape_from};
use crate::numbering::{Numbering, numbering_of};
use a68_base::NoMemory;
use a68_declarers::{add_blank, twin};
use a68_equiv::Classes;
use a68_modes::{ModeId, Modes, standard};
use std::alloc::Global;

/// Clean modes, the number of each old node, and of each clean mode the node without its FLEX.
#[derive(Drop)]
pub struct Cleaned {
    pub modes: Modes,
    pub to: Vec<ModeId>,
    pub fixed: Vec<ModeId>,
}

// Gives all nodes behind the standard ones their shapes.
fn set_all(
    alloc: Global,
    new: &mut Modes,
    modes: &Modes,
    numbering: &Numbering,
) -> Result<(), NoMemory>
    requires numbering { IsNumbering modes.now numbering.now.to.items numbering.now.firsts.items }
    requires long { length new.old ≡ length numbering.now.firsts.items }
    requires blank { (j : ℕ) → 15 ≤ j → shape_at new.old j ≡ Blank }
    ensures long { OnOk result (length new.new ≡ length numbering.now.firsts.items) }
    ensures shapes { OnOk result (AreShapesFrom modes.now numbering.now.to.items numbering.now.firsts.items (length numbering.now.firsts.items) new.new) }
{
    let _there = modes.len();
    for number in standard::STANDARD..new.len() {
        let first = numbering.firsts[number as usize];
        let shape = shape_from(alloc, modes, &numbering.to, first)?;
        new.set(number, shape);
    }
    Ok(())
}

// The nodes of the modes of all numbers without their FLEX.
fn fixed_of(alloc: Global, numbering: &Numbering) -> Result<Vec<ModeId>, NoMemory>
    requires { All (λ first. first < 2 ^ 24) numbering.now.firsts.items }
    ensures { IfOk result (λ fixed. AreTwins numbering.now.to.items numbering.now.firsts.items fixed.items) }
{
    let mut fixed = Vec::new(alloc);
    for first in &numbering.firsts {
        fixed.push(number(&numbering.to, twin(*first)))?;
    }
    Ok(fixed)
}

// How many nodes there are behind the standard ones.
fn blanks(numbering: &Numbering, count: u32) -> u32
    requires enough { 15 ≤ length numbering.now.firsts.items }
    requires few { length numbering.now.firsts.items ≤ count }
    ensures { result + 15 ≡ length numbering.now.firsts.items }
{
    let _count = count;
    (numbering.firsts.len() - standard::STANDARD as usize) as u32
}

/// Clean modes that mean the same as these: no two of them are equivalent, none is a mode word, and the members of inner unions
/// stand in the place of these. Of each it is told which node has the mode without its FLEX, where old nodes have such nodes.
pub fn clean_modes(alloc: Global, modes: &Modes, classes: &Classes) -> Result<Cleaned, NoMemory>
    requires exact { AreExact modes.now classes.now.of }
    requires formed { AreWellFormed modes.now }
    requires full { AreFull modes.now }
    requires few { length modes.now ≤ 2 ^ 20 }
    ensures cleans { IfOk result (λ cleaned. CleansTo modes.now (number_in cleaned.to.items) cleaned.modes) }
    ensures formed { IfOk result (λ cleaned. AreWellFormed cleaned.modes) }
    ensures rows { IfOk result (λ cleaned. HaveDimensions modes.now → HaveDimensions cleaned.modes) }
    ensures members { IfOk result (λ cleaned. UnionsHaveNoFlex modes.now → CleanMembersHaveNoFlex cleaned.modes) }
    ensures fixed { IfOk result (λ cleaned. HaveTwins modes.now → AreFixed cleaned.modes cleaned.fixed.items) }
{
    let count = modes.len();
    let numbering = numbering_of(alloc, modes, classes)?;
    let mut new = Modes::new(alloc)?;
    add_blank(&mut new, blanks(&numbering, count))?;
    set_all(alloc, &mut new, modes, &numbering)?;
    let _new = new.len();
    let fixed = fixed_of(alloc, &numbering)?;
    let Numbering { to, firsts: _ } = numbering;
    Ok(Cleaned {
        modes: new,
        to,
        fixed,
    })
}
