//! Mode definitions whose modes are not well formed.
ghost use Rattle.std.specs.Prelude.{◌≡◌, ◌<◌, ◌↔◌, ◌⊎◌, ℕ, Bool, IfOk, IsTrue, length, map};
ghost use Rattle.a68_declare.specs.Broken.{IsIllFormed};
ghost use Rattle.a68_declare.specs.Slopes.{IsSlope};
ghost use Rattle.a68_declarers.specs.Declarers.{is_mode_definition};
ghost use Rattle.a68_declarers.specs.Numbers.{number_at};
ghost use Rattle.a68_equiv.specs.Ways.{steps_of, IsWellFormed};
ghost use Rattle.a68_equiv.specs.declared.steps.Inward.TheVariants as steps;
ghost use Rattle.a68_ranges.specs.Indexed.{IsLeast};
ghost use Rattle.a68_ranges.specs.Nodes.{kind_at};

use crate::slopes::{Slope, leads_back, sloped};
use a68_base::NoMemory;
use a68_declarers::{Numbers, last_mode, sooner};
use a68_equiv::{Inward, graph_of};
use a68_modes::{ModeId, Modes};
use a68_tree::{NodeId, NodeKind, Tree};
use std::alloc::Global;

/// The steps from mode to mode by which modes are not well formed where they lead back.
#[derive(Drop)]
pub struct Steppings {
    pub names: Slope,
    pub structures: Slope,
}

// The steps between these modes.
fn steps_between(alloc: Global, modes: &Modes) -> Result<Steppings, NoMemory>
    ensures names { IfOk result (λ found. found.names.rows.items ≡ map (steps_of steps.BesidesNames) modes.now) }
    ensures structures { IfOk result (λ found. found.structures.rows.items ≡ map (steps_of steps.BesidesStructures) modes.now) }
    ensures names_slope { IfOk result (λ found. IsSlope found.names) }
    ensures structures_slope { IfOk result (λ found. IsSlope found.structures) }
{
    let names = graph_of(alloc, modes, Inward::BesidesNames)?;
    let names = sloped(alloc, names)?;
    let structures = graph_of(alloc, modes, Inward::BesidesStructures)?;
    let structures = sloped(alloc, structures)?;
    Ok(Steppings { names, structures })
}

// Is a mode not well formed?
fn is_ill_mode(
    alloc: Global,
    modes: &Modes,
    names: &Slope,
    structures: &Slope,
    mode: ModeId,
) -> Result<bool, NoMemory>
    requires there { mode < length modes.now }
    requires names { names.now.rows.items ≡ map (steps_of steps.BesidesNames) modes.now }
    requires structures { structures.now.rows.items ≡ map (steps_of steps.BesidesStructures) modes.now }
    requires names_slope { IsSlope names.now }
    requires structures_slope { IsSlope structures.now }
    ensures { IfOk result (λ ill. IsTrue ill ↔ (IsWellFormed modes.now mode → ⊥)) }
{
    let _there = modes.len();
    let by_names = leads_back(alloc, names, mode)?;
    let by_structures = leads_back(alloc, structures, mode)?;
    Ok(by_names || by_structures)
}

// Is the node a mode definition whose mode is not well formed?
fn is_ill_formed(
    alloc: Global,
    tree: &Tree,
    modes: &Modes,
    numbers: &Numbers,
    steppings: &Steppings,
    id: NodeId,
) -> Result<bool, NoMemory>
    requires there { id < length tree.now.nodes }
    requires within { (d : ℕ) (fixed : Bool) → number_at numbers.now d fixed < length modes.now }
    requires names { steppings.now.names.rows.items ≡ map (steps_of steps.BesidesNames) modes.now }
    requires structures { steppings.now.structures.rows.items ≡ map (steps_of steps.BesidesStructures) modes.now }
    requires names_slope { IsSlope steppings.now.names }
    requires structures_slope { IsSlope steppings.now.structures }
    ensures { IfOk result (λ ill. IsTrue ill ↔ IsIllFormed tree.now modes.now (number_at numbers.now) id) }
{
    if !is_definition(tree, id) {
        return Ok(false);
    }
    let names = &steppings.names;
    let structures = &steppings.structures;
    let as_it_stands = last_mode(numbers, tree.parts(id), false);
    let without_flex = last_mode(numbers, tree.parts(id), true);
    let one = is_ill_mode(alloc, modes, names, structures, as_it_stands)?;
    let other = is_ill_mode(alloc, modes, names, structures, without_flex)?;
    Ok(one || other)
}

// Is the node a mode definition?
fn is_definition(tree: &Tree, id: NodeId) -> bool
    requires { id < length tree.now.nodes }
    ensures { result ≡ is_mode_definition (kind_at tree.now id) }
{
    matches!(tree.node(id).kind, NodeKind::ModeDefinition)
}

/// The first mode definition in the text whose mode is not well formed: as it stands, or without its FLEX.
pub fn ill_definition(
    alloc: Global,
    tree: &Tree,
    modes: &Modes,
    numbers: &Numbers,
) -> Result<Option<NodeId>, NoMemory>
    requires { (d : ℕ) (fixed : Bool) → number_at numbers.now d fixed < length modes.now }
    ensures { IfOk result (λ found. IsLeast tree.now (IsIllFormed tree.now modes.now (number_at numbers.now)) found) }
{
    let steppings = steps_between(alloc, modes)?;
    let mut found = None;
    for id in 0..tree.len() {
        let ill = is_ill_formed(alloc, tree, modes, numbers, &steppings, id)?;
        if ill {
            found = sooner(tree, found, id);
        }
    }
    Ok(found)
}
