//! How operations of many acts go from act to act.
ghost use Rattle.std.specs.Prelude.{◌≡◌, ◌<◌, [], ◌∷◌, List, length, take, drop, reverse, true, false, Ok, Err, IfOk, IsErrOf, OnOk};
ghost use Rattle.std.specs.declared.result.Result.{Result};
ghost use Rattle.a68_layout.specs.declared.types.Plan.{Plan};
ghost use Rattle.a68_ops.specs.Applied.{updated};
ghost use Rattle.a68_values.specs.declared.act.FaultKind.{FaultKind};
ghost use Rattle.a68_acts.specs.Steps as spec;
ghost use Rattle.a68_acts.specs.Steps.{is_update_step, silent, then_goes};
ghost use Rattle.a68_values.specs.Content.{Content, row, structure, contents_of};

use crate::elements::{assigns, fetches_row};
use crate::fetching::{assign_steps, fetch_steps};
use a68_acts::{Doing, Left, Next, Reply, Step, Steps, Want};
use a68_base::NoMemory;
use a68_layout::{LayoutStop, Plan, end_of, plan_elements, plan_for};
use a68_modes::{ModeId, Modes};
use a68_ops::{OpStop, updated};
use a68_values::{Bounds, FaultKind, Held, Name, Plain, Value, ValueNode, Values};
use std::alloc::Global;

// So many of the latest values, in the order in which they were left.
fn latest(alloc: Global, count: usize, left: &mut Left) -> Result<Values, NoMemory>
    ensures values { IfOk result (λ values. values ≡ reverse (take count left.old)) }
    ensures rest { IfOk result (λ values. left.new ≡ drop count left.old) }
{
    if count == left.len() {
        return Ok(left.take_all(alloc));
    }
    let mut items = Vec::new(alloc);
    take_latest(count, left, &mut items)?;
    items.reverse();
    Ok(Values { items })
}

// So many of the latest values made a structure.
fn compose(alloc: Global, count: usize, left: &mut Left) -> Result<(), NoMemory>
    ensures { OnOk result (left.new ≡ structure (contents_of (reverse (take count left.old))) ∷ drop count left.old) }
{
    let values = latest(alloc, count, left)?;
    left.push(Value {
        node: ValueNode::Structure(values),
    })
}

// So many of the latest values made a row with these bounds.
fn make_row(alloc: Global, bounds: Bounds, count: usize, left: &mut Left) -> Result<(), NoMemory>
    ensures { OnOk result (left.new ≡ row bounds (contents_of (reverse (take count left.old))) ∷ drop count left.old) }
{
    let parts = latest(alloc, count, left)?.shared()?;
    left.push(Value {
        node: ValueNode::Row { bounds, parts },
    })
}

// So many of the latest values taken, the latest first.
fn take_latest(count: usize, left: &mut Left, taken: &mut Vec<Value>) -> Result<(), NoMemory>
    requires { taken.old.items ≡ [] }
    ensures taken { OnOk result (taken.new.items ≡ take count left.old) }
    ensures rest { OnOk result (left.new ≡ drop count left.old) }
{
    for _ in 0..count {
        match left.pop() {
            None => return Ok(()),
            Some(value) => taken.push(value)?,
        }
    }
    Ok(())
}

// The first step done where it asks for no act: was it?
fn do_first(alloc: Global, steps: &mut Steps, left: &mut Left) -> Result<bool, NoMemory>
    ensures same { IfOk result (λ done. silent steps.new left.new ≡ silent steps.old left.old) }
    ensures fewer { IfOk result (λ done. done ≡ true → length steps.new < length steps.old) }
    ensures still { IfOk result (λ done. done ≡ false → silent steps.new left.new ≡ (steps.new, left.new)) }
{
    let Some(step) = steps.pop() else {
        return Ok(false);
    };
    match step {
        Step::Structure { count } => {
            compose(alloc, count, left)?;
            Ok(true)
        }
        Step::Row { bounds, count } => {
            make_row(alloc, bounds, count, left)?;
            Ok(true)
        }
        Step::Unite { mode } => match left.pop() {
            Some(value) => {
                let value = Box::new(alloc, value)?;
                left.push(Value {
                    node: ValueNode::United { mode, value },
                })?;
                Ok(true)
            }
            None => {
                steps.push(Step::Unite { mode })?;
                Ok(false)
            }
        },
        Step::Leave(value) => {
            left.push(value)?;
            Ok(true)
        }
        other => {
            steps.push(other)?;
            Ok(false)
        }
    }
}

// All steps done up to the next one that asks for an act.
fn do_silent(alloc: Global, steps: &mut Steps, left: &mut Left) -> Result<(), NoMemory>
    ensures { OnOk result (silent steps.old left.old ≡ (steps.new, left.new)) }
{
    while do_first(alloc, steps, left)? {}
    Ok(())
}

// The yield, where no step is left.
fn last_left(mut left: Left) -> Doing
    ensures { result ≡ spec.last_left left }
{
    let Some(value) = left.pop() else {
        return Doing::Meets(FaultKind::Kind);
    };
    if left.is_empty() {
        return Doing::Yields(value);
    }
    drop(value);
    Doing::Meets(FaultKind::Kind)
}

// New cells, as they are planned.
fn makes(planned: Result<Plan, LayoutStop>) -> Result<Result<Want, FaultKind>, NoMemory>
    ensures { (told : Result Plan FaultKind) → IfOk planned (λ plan. Ok plan ≡ told) → ((kind : FaultKind) → IsErrOf planned (LayoutStop.Fault kind) → Err kind ≡ told)
        → IfOk result (λ want. want ≡ spec.makes told) }
{
    match planned {
        Ok(plan) => Ok(Ok(Want::Make(plan))),
        Err(LayoutStop::Fault(kind)) => Ok(Err(kind)),
        Err(LayoutStop::NoMemory) => Err(NoMemory),
    }
}

// The act by which a row is assigned.
fn replaces(
    alloc: Global,
    modes: &Modes,
    of: ModeId,
    flex: bool,
    cell: u32,
    parts: &[Value],
) -> Result<Result<Want, FaultKind>, NoMemory>
    ensures { IfOk result (λ want. want ≡ spec.replaces modes.now of flex cell parts.now) }
{
    if !flex {
        return Ok(Ok(Want::Fetch { cell }));
    }
    let want = makes(plan_elements(alloc, modes, of, parts))?;
    Ok(want)
}

// A text that an operator made, to be assigned to the flexible name that it came from: the act that this asks for first.
fn updates(
    alloc: Global,
    modes: &Modes,
    name: Name,
    made: Value,
    steps: &mut Steps,
) -> Result<Result<Want, FaultKind>, NoMemory>
    ensures { (left : List Content) → IfOk result (λ want. spec.told want steps.new left ≡ spec.updates modes.now name (Ok made) steps.old left) }
{
    let Some((bounds, parts)) = made.into_row() else {
        return Ok(Err(FaultKind::Kind));
    };
    let want = makes(plan_elements(alloc, modes, 3, parts.as_slice()))?;
    steps.push(Step::Leave(Value::of(Plain::Name(name))))?;
    steps.push(Step::AssignRow {
        of: 3,
        flex: true,
        cell: name.cell,
        bounds,
        parts,
    })?;
    Ok(want)
}

// What an operator makes of a text, to be assigned to its name.
fn update(
    alloc: Global,
    modes: &Modes,
    row: u32,
    name: Name,
    old: &Value,
    operand: &Value,
    steps: &mut Steps,
) -> Result<Result<Want, FaultKind>, NoMemory>
    ensures { (left : List Content) → IfOk result (λ want. spec.told want steps.new left ≡ spec.updates modes.now name (updated row old.now operand.now) steps.old left) }
{
    match updated(alloc, row, old, operand) {
        Ok(made) => {
            let want = updates(alloc, modes, name, made, steps)?;
            Ok(want)
        }
        Err(OpStop::Fault(kind)) => Ok(Err(kind)),
        Err(OpStop::NoMemory) => Err(NoMemory),
    }
}

// The act for which a step asks that is no update, or the fault that it meets. What takes the reply stands in front of
// the steps then.
fn asked(
    alloc: Global,
    modes: &Modes,
    step: Step,
    steps: &mut Steps,
) -> Result<Result<Want, FaultKind>, NoMemory>
    requires { is_update_step step ≡ false }
    ensures { (left : List Content) → IfOk result (λ want. spec.told want steps.new left ≡ spec.asked modes.now step steps.old left) }
{
    match step {
        Step::Fetch { cell } => {
            steps.push(Step::Fetch { cell })?;
            Ok(Ok(Want::Fetch { cell }))
        }
        Step::FetchUnion { cell } => {
            steps.push(Step::FetchUnion { cell })?;
            Ok(Ok(Want::Fetch { cell }))
        }
        Step::Assign { cell, held } => {
            steps.push(Step::Assigned)?;
            Ok(Ok(Want::Assign { cell, held }))
        }
        Step::FetchRow { of, cell } => {
            steps.push(Step::FetchRow { of, cell })?;
            Ok(Ok(Want::Fetch { cell }))
        }
        Step::AssignUnion { cell, mode, value } => {
            let want = makes(plan_for(alloc, modes, mode, &value))?;
            steps.push(Step::AssignUnion { cell, mode, value })?;
            Ok(want)
        }
        Step::AssignRow {
            of,
            flex,
            cell,
            bounds,
            parts,
        } => {
            let want = replaces(alloc, modes, of, flex, cell, parts.as_slice())?;
            steps.push(Step::AssignRow {
                of,
                flex,
                cell,
                bounds,
                parts,
            })?;
            Ok(want)
        }
        other => {
            drop(other);
            Ok(Err(FaultKind::Kind))
        }
    }
}

// The same of an update, which takes the latest value.
fn update_asked(
    alloc: Global,
    modes: &Modes,
    row: u32,
    name: Name,
    operand: Value,
    steps: &mut Steps,
    left: &mut Left,
) -> Result<Result<Want, FaultKind>, NoMemory>
    ensures { IfOk result (λ want. spec.told want steps.new left.new ≡ spec.asked modes.now (Step.Update row name operand) steps.old left.old) }
{
    let Some(old) = left.pop() else {
        drop(operand);
        return Ok(Err(FaultKind::Kind));
    };
    let want = update(alloc, modes, row, name, &old, &operand, steps);
    drop(old);
    drop(operand);
    want
}

// The act of any step, or the fault that it meets.
fn step_asked(
    alloc: Global,
    modes: &Modes,
    step: Step,
    steps: &mut Steps,
    left: &mut Left,
) -> Result<Result<Want, FaultKind>, NoMemory>
    ensures { IfOk result (λ want. spec.told want steps.new left.new ≡ spec.asked modes.now step steps.old left.old) }
{
    match step {
        Step::Update { row, name, operand } => {
            let want = update_asked(alloc, modes, row, name, operand, steps, left)?;
            Ok(want)
        }
        step => {
            let want = asked(alloc, modes, step, steps)?;
            Ok(want)
        }
    }
}

// The act of the first step, or the yield.
fn acting(alloc: Global, modes: &Modes, mut steps: Steps, mut left: Left) -> Result<Doing, NoMemory>
    ensures { IfOk result (λ doing. doing ≡ spec.acting modes.now steps left) }
{
    let Some(step) = steps.pop() else {
        return Ok(last_left(left));
    };
    match step_asked(alloc, modes, step, &mut steps, &mut left)? {
        Ok(want) => Ok(Doing::Asks(want, Next::Steps(steps, left))),
        Err(kind) => Ok(Doing::Meets(kind)),
    }
}

/// How an operation goes on with these steps.
#[tactic(auto, unfolding(a68_acts::specs::Steps::goes))]
pub fn goes(
    alloc: Global,
    modes: &Modes,
    mut steps: Steps,
    mut left: Left,
) -> Result<Doing, NoMemory>
    ensures { IfOk result (λ doing. doing ≡ spec.goes modes.now steps left) }
{
    do_silent(alloc, &mut steps, &mut left)?;
    let doing = acting(alloc, modes, steps, left)?;
    Ok(doing)
}

// The steps of fetching the member of a union, put in front of the steps; or the fault that is met.
fn fetches_member(
    modes: &Modes,
    mode: ModeId,
    cell: u32,
    steps: &mut Steps,
) -> Result<Option<FaultKind>, NoMemory>
    ensures { (left : List Content) → IfOk result (λ why. then_goes why modes.now steps.new left ≡ spec.fetches_member modes.now mode cell steps.old left) }
{
    let Some(end) = end_of(modes, mode, cell) else {
        return Ok(Some(FaultKind::Cells));
    };
    steps.push(Step::Unite { mode })?;
    fetch_steps(modes, mode, end, steps)?;
    Ok(None)
}

// The steps of assigning the member of a union, and the cell that names it last, put in front of the steps; or the fault
// that is met.
fn assigns_member(
    alloc: Global,
    modes: &Modes,
    cell: u32,
    mode: ModeId,
    base: u32,
    value: Value,
    steps: &mut Steps,
) -> Result<Option<FaultKind>, NoMemory>
    ensures { (left : List Content) → IfOk result (λ why. then_goes why modes.now steps.new left ≡ spec.assigns_member modes.now cell mode base value steps.old left) }
{
    let Some(end) = end_of(modes, mode, base) else {
        drop(value);
        return Ok(Some(FaultKind::Cells));
    };
    let named = Step::Assign {
        cell,
        held: Held::Member { mode, base },
    };
    steps.push(named)?;
    assign_steps(alloc, modes, mode, end, value, steps)?;
    Ok(None)
}

// A step done with the reply to its act; the fault that is met, where it meets one.
fn replied(
    alloc: Global,
    modes: &Modes,
    step: Step,
    reply: Reply,
    steps: &mut Steps,
    left: &mut Left,
) -> Result<Option<FaultKind>, NoMemory>
    ensures { IfOk result (λ why. then_goes why modes.now steps.new left.new ≡ spec.replied modes.now step reply steps.old left.old) }
{
    match (step, reply) {
        (Step::Fetch { cell: _ }, Reply::Held(Held::Plain(held))) => {
            left.push(Value::of(held))?;
            Ok(None)
        }
        (Step::FetchUnion { cell: _ }, Reply::Held(Held::Plain(Plain::Unset))) => {
            left.push(Value::of(Plain::Unset))?;
            Ok(None)
        }
        (Step::FetchUnion { cell: _ }, Reply::Held(Held::Member { mode, base })) => {
            let why = fetches_member(modes, mode, base, steps)?;
            Ok(why)
        }
        (Step::Assigned, Reply::Go) => Ok(None),
        (Step::AssignUnion { cell, mode, value }, Reply::Base(base)) => {
            let why = assigns_member(alloc, modes, cell, mode, base, value, steps)?;
            Ok(why)
        }
        (Step::FetchRow { of, cell: _ }, Reply::Held(Held::Rows(descriptor))) => {
            let why = fetches_row(alloc, modes, of, &descriptor, steps);
            drop(descriptor);
            why
        }
        (
            Step::AssignRow {
                of,
                flex,
                cell,
                bounds,
                parts,
            },
            reply,
        ) => {
            let why = assigns(alloc, modes, of, flex, cell, bounds, parts, reply, steps)?;
            Ok(why)
        }
        (step, reply) => {
            drop(step);
            drop(reply);
            Ok(Some(FaultKind::Kind))
        }
    }
}

/// How an operation goes on with the reply to the act of its first step.
#[tactic(auto, unfolding(a68_acts::specs::Steps::stepped))]
pub fn stepped(
    alloc: Global,
    modes: &Modes,
    mut steps: Steps,
    mut left: Left,
    reply: Reply,
) -> Result<Doing, NoMemory>
    ensures { IfOk result (λ doing. doing ≡ spec.stepped modes.now steps reply left) }
{
    let Some(step) = steps.pop() else {
        drop(reply);
        return Ok(Doing::Meets(FaultKind::Kind));
    };
    match replied(alloc, modes, step, reply, &mut steps, &mut left)? {
        None => {
            let doing = goes(alloc, modes, steps, left)?;
            Ok(doing)
        }
        Some(kind) => Ok(Doing::Meets(kind)),
    }
}
