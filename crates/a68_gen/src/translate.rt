//! Translation.
ghost use Rattle.std.specs.Prelude.{◌≡◌, ◌<◌, ◌⊎◌, ◌∷◌, ◌++◌, [], ℕ, false, ◌≤◌, List, Some, slice_get, length, IfOk, IfErr};
ghost use Rattle.a68_annot.specs.declared.annotated.Annotated.{Annotated};
ghost use Rattle.a68_base.specs.declared.refusal.Refusal.{Refusal};
ghost use Rattle.a68_code.specs.declared.code.Code.{Code};
ghost use Rattle.a68_code.specs.declared.code.Instr.{Instr};
ghost use Rattle.a68_code.specs.Valid.{IsValid};
ghost use Rattle.a68_elab.specs.Made.{last_id, parts_at, texts_in, units_in};
ghost use Rattle.a68_elab.specs.Programs.{asked_tree, body_of, body_yields, parallel_unit_of, program_of};
ghost use Rattle.a68_elab.specs.Places.{ProgramBeginsBy};
ghost use Rattle.a68_elab.specs.Trees.{Program, routine_text, parallel_unit};
ghost use Rattle.a68_gen.specs.Fits.{Fits, ApartFits};
ghost use Rattle.a68_emit.specs.Listing.{apart_stretch, apart_stretches, instr, listing, stretch, text_entrances, texts_entered, unit_entrances, units_entered, written};
ghost use Rattle.a68_gen.specs.Operands.{FitsModes, ApartFitsModes};
ghost use Rattle.a68_gen.specs.Refusals.{IsNotGenerated};
ghost use Rattle.a68_emit.specs.Stretches.{Translates};
ghost use Rattle.a68_emit.specs.Texts.{apart_of, node_of, pair_of};
ghost use Rattle.a68_emit.specs.Writers.{Wrote};
ghost use Rattle.a68_emit.specs.Writing.{IsTooLong, Stops, most, ran_out};
ghost use Rattle.a68_ranges.specs.Twice.{StopsBy};
ghost use Rattle.a68_tree.specs.declared.node.Node.{Node};

use a68_annot::Annotated;
use a68_base::Stop;
use a68_code::{Code, Does, Places, RoutineEntrance, Routines};
use a68_constructs::unit;
use a68_elab::Sight;
use a68_emit::{Entered, Numbered, UnitNode, View, Writer, misfit};
use a68_parts::behind_proc;
use a68_runs::{leaves, look_at_all};
use a68_tree::NodeId;
use std::alloc::Global;

// Does the body of a routine text leave a value?
fn yields(program: &Numbered, id: NodeId) -> bool
    requires { id < length program.now.tree.nodes }
    ensures { result ≡ body_yields program.now id }
{
    let mode = program.note(id).mode;
    !program.is_void(behind_proc(program.modes(), mode))
}

// The body of a routine text: its last part.
fn body(program: &Numbered, id: NodeId) -> NodeId
    requires { id < length program.now.tree.nodes }
    ensures last { result ≡ last_id (parts_at program.now id) }
    ensures within { result < length program.now.tree.nodes }
{
    let root = program.root();
    let parts = program.parts(id);
    if parts.len() == 0 {
        root
    } else {
        parts[parts.len() - 1]
    }
}

// Writes a node of which a value is asked or none: [unit], or a misfit in the place of one that leaves something else.
fn write_asked(alloc: Global, program: &Numbered, wanted: bool, id: NodeId, out: &mut Writer)
    requires { id < length program.now.tree.nodes }
    ensures { Wrote out.old out.new (stretch (asked_tree program.now wanted id) (length out.old.list)) }
{
    if !leaves(program.annotated(), wanted, id) {
        misfit(program.node(id).span.from, wanted, out);
        return;
    }
    let view = View {
        of: program,
        sight: Sight::Here,
        height: 0,
        depth: 0,
        clauses: &[],
    };
    unit(alloc, &view, id, out);
}

// Where routine texts and units of parallel clauses begin, each by their numbers.
#[derive(Drop)]
struct TextEntrances {
    texts: Vec<RoutineEntrance>,
    units: Vec<u32>,
}

// Keeps where a routine text begins.
fn enter_text(texts: &mut Vec<RoutineEntrance>, at: u32, yields: bool, out: &mut Writer)
    ensures list { out.new.list ≡ out.old.list }
    ensures stop { (out.new.stop ≡ out.old.stop) ⊎ (out.new.stop ≡ ran_out out.old.stop) }
    ensures kept { out.new.stop ≡ None → texts.new.items ≡ texts.old.items ++ (record { at = at; yields = yields }) ∷ [] }
{
    if texts.push(RoutineEntrance { at, yields }).is_err() {
        out.run_out();
    }
}

// Keeps where a unit begins.
fn enter_unit(units: &mut Vec<u32>, at: u32, out: &mut Writer)
    ensures list { out.new.list ≡ out.old.list }
    ensures stop { (out.new.stop ≡ out.old.stop) ⊎ (out.new.stop ≡ ran_out out.old.stop) }
    ensures kept { out.new.stop ≡ None → units.new.items ≡ units.old.items ++ at ∷ [] }
{
    if units.push(at).is_err() {
        out.run_out();
    }
}

// [program] End.
fn write_program(alloc: Global, program: &Numbered, out: &mut Writer)
    ensures { Wrote out.old out.new (stretch (program_of program.now).tree (length out.old.list) ++ instr (program_of program.now).place Does.End ∷ []) }
{
    let root = program.root();
    let place = program.node(root).span.from;
    write_asked(alloc, program, false, root, out);
    out.emit(place, Does::End);
}

// [body] Return: and keeps where a routine text begins.
fn write_text(
    alloc: Global,
    program: &Numbered,
    id: NodeId,
    texts: &mut Vec<RoutineEntrance>,
    out: &mut Writer,
)
    requires { id < length program.now.tree.nodes }
    ensures writes { Wrote out.old out.new (apart_stretch (routine_text (body_of program.now id)) (length out.old.list)) }
    ensures entered { out.new.stop ≡ None → texts.new.items ≡ texts.old.items ++ (record { at = length out.old.list; yields = (body_of program.now id).yields }) ∷ [] }
{
    let place = program.node(id).span.from;
    let start = out.len();
    let wanted = yields(program, id);
    enter_text(texts, start, wanted, out);
    write_asked(alloc, program, wanted, body(program, id), out);
    out.emit(place, Does::Return);
}

// [unit] Close: and keeps where a unit of a parallel clause begins.
fn write_unit(
    alloc: Global,
    program: &Numbered,
    node: UnitNode,
    units: &mut Vec<u32>,
    out: &mut Writer,
)
    requires { node.id < length program.now.tree.nodes }
    ensures writes { Wrote out.old out.new (apart_stretch (parallel_unit (parallel_unit_of program.now (pair_of node))) (length out.old.list)) }
    ensures entered { out.new.stop ≡ None → units.new.items ≡ units.old.items ++ length out.old.list ∷ [] }
{
    let start = out.len();
    enter_unit(units, start, out);
    write_asked(alloc, program, false, node.id, out);
    out.emit(node.place, Does::Close);
}

// A routine text or a unit of a parallel clause.
fn write_entered(
    alloc: Global,
    program: &Numbered,
    entered: Entered,
    entrances: &mut TextEntrances,
    out: &mut Writer,
)
    requires { node_of entered < length program.now.tree.nodes }
    ensures writes { Wrote out.old out.new (apart_stretch (apart_of program.now entered) (length out.old.list)) }
    ensures texts { out.new.stop ≡ None → entrances.new.texts.items ≡ entrances.old.texts.items ++ text_entrances (apart_of program.now entered ∷ []) (length out.old.list) }
    ensures units { out.new.stop ≡ None → entrances.new.units.items ≡ entrances.old.units.items ++ unit_entrances (apart_of program.now entered ∷ []) (length out.old.list) }
{
    match entered {
        Entered::Text(id) => write_text(alloc, program, id, &mut entrances.texts, out),
        Entered::Unit(node) => write_unit(alloc, program, node, &mut entrances.units, out),
    }
}

// All routine texts and units, one behind the other.
fn write_apart(alloc: Global, program: &Numbered, entrances: &mut TextEntrances, out: &mut Writer)
    requires no_texts { entrances.old.texts.items ≡ [] }
    requires no_units { entrances.old.units.items ≡ [] }
    ensures writes { Wrote out.old out.new (apart_stretches (program_of program.now).apart (length out.old.list)) }
    ensures texts { out.new.stop ≡ None → entrances.new.texts.items ≡ text_entrances (program_of program.now).apart (length out.old.list) }
    ensures units { out.new.stop ≡ None → entrances.new.units.items ≡ unit_entrances (program_of program.now).apart (length out.old.list) }
{
    let all = program.apart();
    for entered in all {
        write_entered(alloc, program, *entered, entrances, out);
    }
}

// The program, and its routine texts and units behind it.
fn write_all(alloc: Global, program: &Numbered, entrances: &mut TextEntrances, out: &mut Writer)
    requires empty { out.old.list ≡ [] }
    requires no_texts { entrances.old.texts.items ≡ [] }
    requires no_units { entrances.old.units.items ≡ [] }
    ensures writes { Wrote out.old out.new (written (program_of program.now)) }
    ensures texts { out.new.stop ≡ None → entrances.new.texts.items ≡ texts_entered (program_of program.now) }
    ensures units { out.new.stop ≡ None → entrances.new.units.items ≡ units_entered (program_of program.now) }
{
    write_program(alloc, program, out);
    write_apart(alloc, program, entrances, out);
}

// The code of a program.
fn code_of(alloc: Global, program: &Annotated) -> Result<Code, Stop>
    requires fits { Fits program.now.modes (length (units_in program.now)) false (program_of program.now).tree }
    requires apart { ApartFits program.now.modes (length (units_in program.now)) (program_of program.now).apart }
    requires modes { FitsModes program.now.modes (length (texts_in program.now)) (program_of program.now).tree }
    requires apart_modes { ApartFitsModes program.now.modes (length (texts_in program.now)) (program_of program.now).apart }
    ensures translates { IfOk result (λ code. Translates (program_of program.now) code) }
    ensures valid { IfOk result (λ code. IsValid code) }
    ensures short { IfOk result (λ code. length code.list ≤ most) }
    ensures too_long { IfErr result (λ stop. Stops stop (listing (program_of program.now))) }
{
    let numbered = Numbered::new(alloc, program)?;
    let mut entrances = TextEntrances {
        texts: Vec::new(alloc),
        units: Vec::new(alloc),
    };
    let mut out = Writer::new(alloc)?;
    write_all(alloc, &numbered, &mut entrances, &mut out);
    let Writer { list, stop } = out;
    if let Some(stop) = stop {
        return Err(stop);
    }
    let mut modes = program.modes.copy(alloc)?;
    modes.lay_out(alloc)?;
    let TextEntrances { texts, units } = entrances;
    let code = list.finish(Routines { items: texts }, Places { items: units }, modes);
    Ok(code)
}

/// The code of a program: that of each construct, in order, End behind it, and that of each routine text and of each unit
/// of a parallel clause in order. A program that has more than 1,048,576 instructions is refused, at the construct that
/// needs the next.
pub fn generate(alloc: Global, program: &Annotated) -> Result<Code, Stop>
    ensures translates { IfOk result (λ code. Translates (program_of program.now) code) }
    ensures valid { IfOk result (λ code. IsValid code) }
    ensures short { IfOk result (λ code. length code.list ≤ most) }
    ensures refused { IfErr result (StopsBy (IsNotGenerated program.now)) }
{
    let _root = program.tree.root();
    look_at_all(program);
    code_of(alloc, program)
}

/// A law: the instructions of a program and the entrances of its routine texts and of its units are those that are listed,
/// and a program has one code; what is refused for its length has more instructions than a program may have, and is refused at a
/// construct of the program. A program that is refused is refused by one rule at one place, within the program, and has
/// no code.
pub fn translations_are_listings()
    ensures list { (program : Program) (code : Code) → Translates program code → code.list ≡ listing program }
    ensures texts { (program : Program) (code : Code) → Translates program code → code.texts ≡ texts_entered program }
    ensures units { (program : Program) (code : Code) → Translates program code → code.units ≡ units_entered program }
    ensures code { (program : Program) (code other : Code) → Translates program code → Translates program other → other ≡ code }
    ensures limit { (list : List Instr) (refusal : Refusal) → IsTooLong list refusal → length list ≤ most → ⊥ }
    ensures place { (program : Program) (end : ℕ) (refusal : Refusal) → ProgramBeginsBy end program → IsTooLong (listing program) refusal
        → refusal.place ≤ end }
    ensures one { (program : Annotated) (refusal other : Refusal) → IsNotGenerated program refusal → IsNotGenerated program other → other ≡ refusal }
    ensures apart { (program : Annotated) (code : Code) (refusal : Refusal) → Translates (program_of program) code → length code.list ≤ most
        → IsNotGenerated program refusal → ⊥ }
    ensures within { (program : Annotated) (end : ℕ) (refusal : Refusal)
        → ((id : ℕ) (n : Node) → slice_get program.tree.nodes id ≡ Some n → n.span.from ≤ end) → IsNotGenerated program refusal → refusal.place ≤ end }
{}
