//! Mode words without a definition.
ghost use Rattle.std.specs.Prelude.{◌≡◌, ◌<◌, ◌↔◌, IsTrue, length};
ghost use Rattle.a68_declarers.specs.Words.{IsUndefinedWord};
ghost use Rattle.a68_ranges.specs.Indexed.{IsLeast};
ghost use Rattle.a68_ranges.specs.Tables.{AreRanges};

use crate::form::{form_of, is_word};
use crate::reading::{is_declarer, name_of, sooner};
use a68_ranges::Ranges;
use a68_tree::{NodeId, Tree};

// Is the node a mode word that no surrounding range defines?
fn is_undefined(tree: &Tree, ranges: &Ranges, id: NodeId) -> bool
    requires there { id < length tree.now.nodes }
    requires ranges { AreRanges tree.now ranges.now }
    ensures { IsTrue result ↔ IsUndefinedWord tree.now id }
{
    if !is_declarer(tree, id) {
        return false;
    }
    if !is_word(form_of(tree, id)) {
        return false;
    }
    match ranges.mode_word(id, name_of(tree, id)) {
        None => true,
        Some(_definition) => false,
    }
}

/// The first mode word in the text that no surrounding range defines.
pub fn undefined_word(tree: &Tree, ranges: &Ranges) -> Option<NodeId>
    requires { AreRanges tree.now ranges.now }
    ensures { IsLeast tree.now (IsUndefinedWord tree.now) result }
{
    let mut found = None;
    for id in 0..tree.len() {
        if is_undefined(tree, ranges, id) {
            found = sooner(tree, found, id);
        }
    }
    found
}
