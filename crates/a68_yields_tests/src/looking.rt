//! What is found of a text.
ghost use Rattle.std.specs.Prelude.{length};
ghost use Rattle.a68_definitions.specs.Defined.{AllBelow, AreBelow};
ghost use Rattle.a68_identify.specs.Operators.{NumbersAreThere};
ghost use Rattle.a68_ranges.specs.Tables.{AreRanges};
ghost use Rattle.a68_yields.specs.Below.{AreTablesBelow};

use a68_base::Stop;
use a68_declare::{Declared, NodeModes, declare};
use a68_definitions::{
    Tags, applied_tags, defined_modes, definitions_are_one, definitions_are_sound,
    definitions_keep_nodes, definitions_keep_shapes, modes_of_declarers_are_below,
};
use a68_identify::declared_modes_are_there;
use a68_mode_table::ModeTable;
use a68_modes::ModeId;
use a68_op_ident::shape;
use a68_parse::{parse, symbols_are_bounded};
use a68_ranges::{Ranges, ranges};
use a68_symbols::symbols;
use a68_tree::Tree;
use a68_words::words;
use a68_yields::{Yields, find_yields, yields_are_one, yields_are_sound, yields_keep_nodes};
use std::alloc::Global;
use std::panic::Expect;
use std::process::Abort;

/// The modes of a text, and which are those of its declarers.
#[derive(Drop)]
pub struct Built {
    pub modes: ModeTable,
    pub of: NodeModes,
}

// The tree of a text, its formulas as the grammar gives them.
fn parsed(rt: &impl Abort, alloc: Global, text: &str) -> Tree {
    let found = symbols(alloc, text.as_bytes()).expect(rt, "symbols");
    let classes = words(alloc, &found).expect(rt, "classes");
    symbols_are_bounded();
    let tree = parse(alloc, &found, &classes, text.len() as u32).expect(rt, text);
    drop(classes);
    drop(found);
    tree
}

/// The tree of a text, or why it has none.
pub fn tree_of(rt: &impl Abort, alloc: Global, text: &str) -> Result<Tree, Stop> {
    let tree = parsed(rt, alloc, text);
    let ranges = ranges(alloc, &tree).expect(rt, text);
    let shaped = shape(alloc, tree, &ranges);
    drop(ranges);
    shaped
}

/// The modes of a tree whose ranges declare no word twice.
pub fn modes_of(rt: &impl Abort, alloc: Global, tree: &Tree, case: &str) -> Built
    ensures there { NumbersAreThere tree.now result.modes result.of }
    ensures below { AreBelow (length result.modes) result.of }
{
    let ranges = ranges(alloc, tree).expect(rt, case);
    let declared = declare(alloc, tree, &ranges).expect(rt, case);
    declared_modes_are_there();
    modes_of_declarers_are_below();
    drop(ranges);
    let Declared {
        modes,
        classes,
        of,
        fixed,
    } = declared;
    Built {
        modes: ModeTable::new(modes, classes, fixed),
        of,
    }
}

// The modes of the definitions of a tree.
fn defined(
    rt: &impl Abort,
    alloc: Global,
    tree: &Tree,
    of: &NodeModes,
    modes: &mut ModeTable,
) -> Vec<ModeId>
    requires there { NumbersAreThere tree.now modes.old of.now }
    requires below { AreBelow (length modes.old) of.now }
    ensures there { NumbersAreThere tree.now modes.new of.now }
    ensures defined { AllBelow (length modes.new) result.items }
{
    definitions_keep_shapes();
    declared_modes_are_there();
    defined_modes(alloc, tree, of, modes).expect(rt, "memory")
}

// What the nodes of a tree may yield, by the definitions of its tags and the modes of its definitions.
fn found(
    rt: &impl Abort,
    alloc: Global,
    tree: &Tree,
    ranges: &Ranges,
    tags: &Tags,
    made: &mut Built,
) -> Yields
    requires ranges { AreRanges tree.now ranges.now }
    requires there { NumbersAreThere tree.now made.old.modes made.old.of }
    requires below { AreBelow (length made.old.modes) made.old.of }
    ensures { AreTablesBelow (length made.new.modes) (length tree.now.nodes) result.yields.items result.findings.items }
{
    let defined = defined(rt, alloc, tree, &made.of, &mut made.modes);
    let found = find_yields(
        alloc,
        tree,
        ranges,
        tags,
        &made.of,
        &defined,
        &mut made.modes,
    )
    .expect(rt, "memory");
    drop(defined);
    found
}

/// What the nodes of a tree may yield, and what is found at them.
pub fn looked(rt: &impl Abort, alloc: Global, tree: &Tree, made: &mut Built, case: &str) -> Yields
    requires there { NumbersAreThere tree.now made.old.modes made.old.of }
    requires below { AreBelow (length made.old.modes) made.old.of }
    ensures { AreTablesBelow (length made.new.modes) (length tree.now.nodes) result.yields.items result.findings.items }
{
    definitions_are_one();
    definitions_are_sound();
    definitions_keep_nodes();
    yields_are_one();
    yields_are_sound();
    yields_keep_nodes();
    let ranges = ranges(alloc, tree).expect(rt, case);
    let tags = applied_tags(alloc, tree, &ranges).expect(rt, "memory");
    let found = found(rt, alloc, tree, &ranges, &tags, made);
    drop(tags);
    drop(ranges);
    found
}
