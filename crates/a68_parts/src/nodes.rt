//! What is asked of nodes and of their modes.
ghost use Rattle.std.specs.Option.{option_map};
ghost use Rattle.std.specs.Prelude.{◌≡◌, ◌<◌, ◌||◌, length, map, ℕ, IfSome};
ghost use Rattle.a68_elab.specs.Made as made;
ghost use Rattle.a68_modes.specs.Nodes.{shape_at};
ghost use Rattle.a68_tree.specs.Trees.{AllBetween};

use a68_annot::Annotated;
use a68_base::is_listed;
use a68_modes::{ModeId, Modes, Shape};
use a68_tree::{NodeId, NodeKind};

/// Whether a word is one of some.
pub fn is_one_of(words: &[&str], spelling: Option<&[u8]>) -> bool
    ensures { result ≡ made.is_one_of (map (λ word. word.now) words.now) (option_map (λ bytes. bytes.now) spelling.entry) }
{
    match spelling {
        Some(bytes) => is_listed(words, bytes),
        None => false,
    }
}

/// The kind of a node; that of VOID where there is no such node.
pub fn kind_at(program: &Annotated, id: NodeId) -> NodeKind
    ensures { result ≡ made.kind_at program.now id }
{
    if id >= program.tree.len() {
        return NodeKind::VoidWord;
    }
    program.tree.node(id).kind
}

/// Is a node a label?
pub fn is_label(program: &Annotated, id: NodeId) -> bool
    ensures { result ≡ made.is_label (made.kind_at program.now id) }
{
    matches!(kind_at(program, id), NodeKind::Label)
}

/// Does a node stand for EXIT?
pub fn is_exit(program: &Annotated, id: NodeId) -> bool
    ensures { result ≡ made.is_exit (made.kind_at program.now id) }
{
    matches!(kind_at(program, id), NodeKind::Exit)
}

// Is a node a label, or does it stand for EXIT?
fn is_label_or_exit(program: &Annotated, id: NodeId) -> bool
    ensures { result ≡ (made.is_label (made.kind_at program.now id) || made.is_exit (made.kind_at program.now id)) }
{
    matches!(kind_at(program, id), NodeKind::Label | NodeKind::Exit)
}

/// Is a serial clause of these nodes one with labels? One of them is a label or EXIT, behind which one stands.
pub fn is_labelled(program: &Annotated, ids: &[NodeId]) -> bool
    ensures { result ≡ made.is_labelled program.now ids.now }
{
    ids.iter().any(|id| is_label_or_exit(program, *id))
}

/// The parts of a node; none where there is no such node.
pub fn parts_at(program: &Annotated, id: NodeId) -> &[NodeId]
    ensures { result.now ≡ made.parts_at program.now id }
{
    if id >= program.tree.len() {
        return &[];
    }
    program.tree.parts(id)
}

/// The mode of a node; VOID where there is no such node.
pub fn mode_at(program: &Annotated, id: NodeId) -> ModeId
    ensures { result ≡ made.mode_of program.now id }
{
    if id >= program.tree.len() {
        return 0;
    }
    program.note(id).mode
}

/// The last of these nodes; the first node of all where there is none.
pub fn last_id(ids: &[NodeId]) -> NodeId
    ensures { result ≡ made.last_id ids.now }
{
    if ids.len() == 0 {
        return 0;
    }
    ids[ids.len() - 1]
}

/// Does the first of these nodes stand for HEAP?
pub fn begins_in_heap(program: &Annotated, id: NodeId, parts: &[NodeId]) -> bool
    requires { AllBetween id (length program.now.tree.nodes) parts.now }
    ensures { result ≡ made.begins_with made.is_heap program.now parts.now }
{
    parts.len() > 0 && matches!(kind_at(program, parts[0]), NodeKind::Heap)
}

/// Is the first of these nodes a declarer?
pub fn begins_with_declarer(program: &Annotated, id: NodeId, parts: &[NodeId]) -> bool
    requires { AllBetween id (length program.now.tree.nodes) parts.now }
    ensures { result ≡ made.begins_with made.is_declarer program.now parts.now }
{
    parts.len() > 0 && matches!(kind_at(program, parts[0]), NodeKind::Declarer)
}

/// The parts behind HEAP.
pub fn behind_heap(has_heap: bool, parts: &[NodeId]) -> &[NodeId]
    ensures parts { result.now ≡ made.behind_heap has_heap parts.now }
    ensures between { (id end : ℕ) → AllBetween id end parts.now → AllBetween id end result.now }
{
    if has_heap && parts.len() > 0 {
        &parts[1..]
    } else {
        parts
    }
}

// Does a node of this kind stand for OUT or OUSE?
fn is_out(kind: NodeKind) -> bool
    ensures { result ≡ made.is_out kind }
{
    matches!(kind, NodeKind::Out)
}

/// The last of these nodes, where it stands for OUT or OUSE.
pub fn out_of(program: &Annotated, id: NodeId, parts: &[NodeId]) -> Option<NodeId>
    requires { AllBetween id (length program.now.tree.nodes) parts.now }
    ensures out { result ≡ made.out_of program.now parts.now }
    ensures within { IfSome result (λ p. (id < p) × (p < length program.now.tree.nodes)) }
{
    if parts.len() == 0 {
        return None;
    }
    let last = parts[parts.len() - 1];
    if is_out(kind_at(program, last)) {
        Some(last)
    } else {
        None
    }
}

/// The other nodes.
pub fn before_out<'a>(program: &'a Annotated, id: NodeId, parts: &'a [NodeId]) -> &'a [NodeId]
    requires { AllBetween id (length program.now.tree.nodes) parts.now }
    ensures parts { result.now ≡ made.before_out program.now parts.now }
    ensures between { AllBetween id (length program.now.tree.nodes) result.now }
{
    match out_of(program, id, parts) {
        Some(_) => &parts[..parts.len().saturating_sub(1)],
        None => parts,
    }
}

/// The spelling of what is called, where it is a tag that is not defined.
pub fn called(program: &Annotated, id: NodeId) -> Option<&[u8]>
    requires { id < length program.now.tree.nodes }
    ensures { option_map (λ bytes. bytes.now) result ≡ made.called program.now id }
{
    let node = program.tree.node(id);
    let note = program.note(id);
    match (node.kind, note.definition) {
        (NodeKind::Tag, None) => Some(program.tree.spelling(node.name)),
        _ => None,
    }
}

/// The items of print: the units of a collateral clause, or one unit.
pub fn items_at<'a>(program: &'a Annotated, id: NodeId, parts: &'a [NodeId]) -> &'a [NodeId]
    requires { AllBetween id (length program.now.tree.nodes) parts.now }
    ensures items { result.now ≡ made.items_at program.now parts.now }
    ensures between { AllBetween id (length program.now.tree.nodes) result.now }
{
    if parts.len() == 1 && matches!(kind_at(program, parts[0]), NodeKind::Collateral) {
        program.tree.parts(parts[0])
    } else {
        parts
    }
}

/// The mode of what a name of this mode refers to; VOID for another mode.
pub fn behind_ref(modes: &Modes, mode: ModeId) -> ModeId
    ensures { result ≡ made.behind_ref (shape_at modes.now mode) }
{
    if mode >= modes.len() {
        return 0;
    }
    match modes.shape(mode) {
        Shape::Ref(to) => *to,
        _ => 0,
    }
}

/// The mode of what a procedure of this mode yields; VOID for another mode.
pub fn behind_proc(modes: &Modes, mode: ModeId) -> ModeId
    ensures { result ≡ made.behind_proc (shape_at modes.now mode) }
{
    if mode >= modes.len() {
        return 0;
    }
    match modes.shape(mode) {
        Shape::Proc { result, .. } => *result,
        _ => 0,
    }
}

/// The tags that print.
pub fn printers() -> &'static [&'static str]
    ensures { map (λ word. word.now) result.now ≡ made.printers }
{
    &["print", "write"]
}

/// The tag that writes a number as a text.
pub fn wholes() -> &'static [&'static str]
    ensures { map (λ word. word.now) result.now ≡ made.wholes }
{
    &["whole"]
}
