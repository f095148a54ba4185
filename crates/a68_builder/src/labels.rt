//! Labels, each with a number, as that of the place behind it.
ghost use Rattle.std.specs.Prelude.{◌≡◌, ◌++◌, ◌∷◌, [], ℕ, List, IfOk, OnOk, map};
ghost use Rattle.a68_builder.specs.Known.{AreKnown};
ghost use Rattle.a68_builder.specs.Labels.{number_of, place_to, settled, settled_does};

use a68_base::{MOST_INSTRUCTIONS, NoMemory};
use a68_code::{Does, Instr};
use std::alloc::Global;
use std::collections::HashMap;
use std::marker::Model;

/// Labels, each with a number. Of several numbers of one label the first counts. Each label is found at once.
#[derive(Drop)]
pub struct Labels {
    pairs: Vec<(u32, u32)>,
    known: HashMap<u32, u32>,
}

impl Model for Labels {
    ghost use Rattle.std.specs.Coded.{coded_list, coded_ℕ, coded×};
    ghost use Rattle.std.specs.Prelude.{ℕ, List};
    ghost use Rattle.a68_builder.specs.Known.{AreKnown};

    ghost Value = { List (ℕ × ℕ) };

    ghost coded = { coded_list (coded× coded_ℕ coded_ℕ) };

    ghost view = { λ labels. labels.pairs.items };

    ghost invariant = { λ labels. AreKnown labels.pairs.items labels.known.entries };
}

// Notes the number of a label that has none yet.
fn know(known: &mut HashMap<u32, u32>, label: u32, number: u32) -> Result<(), NoMemory>
    ensures { OnOk result ((pairs : List (ℕ × ℕ)) → AreKnown pairs known.old.entries → AreKnown (pairs ++ (label, number) ∷ []) known.new.entries) }
{
    if known.contains_key(&label) {
        return Ok(());
    }
    known.insert(label, number)?;
    Ok(())
}

// The numbers of labels by the labels.
fn known_by(alloc: Global, pairs: &[(u32, u32)]) -> Result<HashMap<u32, u32>, NoMemory>
    ensures { IfOk result (λ known. AreKnown pairs.now known.entries) }
{
    let mut known = HashMap::new(alloc);
    for pair in pairs {
        know(&mut known, pair.0, pair.1)?;
    }
    Ok(known)
}

impl Labels {
    /// These labels with these numbers.
    pub fn new(alloc: Global, pairs: Vec<(u32, u32)>) -> Result<Labels, NoMemory>
        ensures { IfOk result (λ labels. labels ≡ pairs.items) }
    {
        let known = known_by(alloc, &pairs)?;
        Ok(Labels { pairs, known })
    }

    /// The number of a label, where it is one of these.
    pub fn number(&self, label: u32) -> Option<u32>
        ensures { result ≡ number_of self.now label }
    {
        self.known.get(&label).copied()
    }
}

// Where a jump goes, which names a place or a label.
fn place_to(labels: &Labels, to: u32) -> u32
    ensures { result ≡ place_to labels.now to }
{
    if (to as usize) < MOST_INSTRUCTIONS {
        return to;
    }
    let label = to - MOST_INSTRUCTIONS as u32;
    match labels.number(label) {
        Some(place) => place,
        None => to,
    }
}

// Lets an instruction go to the place of the label that it names.
fn settle(does: &mut Does, labels: &Labels)
    ensures { does.new ≡ settled_does labels.now does.old }
{
    if let Does::Goto { to, .. } = does {
        *to = place_to(labels, *to);
    }
}

/// Lets instructions go to the places of the labels that they name.
pub(crate) fn settle_all(list: &mut [Instr], labels: &Labels)
    ensures { list.new ≡ map (settled labels.now) list.old }
{
    for i in 0..list.len() {
        settle(&mut list[i].does, labels);
    }
}
