//! Operations on the values of their parts.
ghost use Rattle.std.specs.Prelude.{◌≡◌, ℤ, None, IfSome, ◌<◌, [], ◌∷◌, ℕ, true, false, length, reverse, List, IfOk, MatchResult, Ok, OnErr};
ghost use Rattle.a68_acts.specs.Fetching as fetching;
ghost use Rattle.a68_acts.specs.Operations as operations;
ghost use Rattle.a68_acts.specs.Rowing.{ints_of};
ghost use Rattle.a68_values.specs.declared.chain.Environ.{Environ};
ghost use Rattle.a68_acts.specs.Operations.{yielding};
ghost use Rattle.a68_acts.specs.Rowing as rowing;
ghost use Rattle.a68_perform.specs.Plainly.{one_plainly, resumes_plainly, two_plainly, yields_plain};
ghost use Rattle.a68_perform.specs.Told.{is_row_reply};
ghost use Rattle.a68_modes.specs.Nodes.{shape_at};
ghost use Rattle.a68_modes.specs.declared.shape.Shape.{Shape};
ghost use Rattle.a68_ops.specs.Applied.{applied, updated};
ghost use Rattle.a68_ops.specs.Printed.{item_text, member, whole as whole_number};
ghost use Rattle.a68_values.specs.Content.{plain};
ghost use Rattle.a68_values.specs.declared.plain.Plain.TheVariants as value_of;

use a68_acts::{Counter, Doing, Next, Reply, Want};
use a68_base::{NoMemory, Text};
use a68_layout::{LayoutStop, Plan, plan};
use a68_modes::{ModeId, Modes, Shape};
use a68_ops::{OpStop, apply, is_unset, item_text, text_value, updated, whole};
use a68_rows::{
    bound_of, bounded, bounded_by, extends, ints_of, names_field, names_part, updating_text,
    with_dimension,
};
use a68_signs::operators;
use a68_steps::stepped;
use a68_values::{
    Cells, Chain, Descriptor, FaultKind, Held, Name, Plain, Routine, Value, ValueNode, Values,
};
use std::alloc::Global;

// A new name for a value of the mode with these bounds, of a scope.
fn made_with(
    alloc: Global,
    modes: &Modes,
    mode: ModeId,
    scope: u32,
    bounds: &[i64],
) -> Result<Doing, NoMemory>
    ensures { IfOk result (λ doing. doing ≡ operations.making modes.now mode scope (Ok bounds.now)) }
{
    match plan(alloc, modes, mode, bounds) {
        Ok(plan) => Ok(Doing::Asks(Want::Make(plan), Next::Made { scope })),
        Err(LayoutStop::Fault(kind)) => Ok(Doing::Meets(kind)),
        Err(LayoutStop::NoMemory) => Err(NoMemory),
    }
}

/// A new name for a value of the mode with the bounds that these values are, of a scope.
pub fn making(
    alloc: Global,
    modes: &Modes,
    mode: ModeId,
    scope: u32,
    bounds: &[Value],
) -> Result<Doing, NoMemory>
    ensures { IfOk result (λ doing. doing ≡ operations.making modes.now mode scope (rowing.ints_of bounds.now)) }
{
    match ints_of(alloc, bounds) {
        Ok(bounds) => {
            let doing = made_with(alloc, modes, mode, scope, bounds.as_slice())?;
            Ok(doing)
        }
        Err(OpStop::Fault(kind)) => Ok(Doing::Meets(kind)),
        Err(OpStop::NoMemory) => Err(NoMemory),
    }
}

/// A new name for a value of the mode with the bounds that these values are, of the scope of the innermost frame.
pub fn made(
    alloc: Global,
    modes: &Modes,
    mode: ModeId,
    chain: &Chain,
    bounds: &[Value],
) -> Result<Doing, NoMemory>
    ensures { IfOk result (λ doing. doing ≡ operations.in_frame chain.now (λ (e : Environ). operations.making modes.now mode e.scope (ints_of bounds.now))) }
{
    let Some(environ) = chain.outer(0) else {
        return Ok(Doing::Meets(FaultKind::Kind));
    };
    let doing = making(alloc, modes, mode, environ.scope, bounds)?;
    Ok(doing)
}

/// A routine of the routine text of that number, of the scope of the frame so many frames outwards; of scope 0 where
/// there is no distance.
#[tactic(auto, unfolding(a68_acts::specs::Operations::start))]
pub fn routine(text: u32, distance: Option<u32>, chain: &Chain) -> Doing
    ensures { (modes : List Shape) → result ≡ operations.start modes (operations.routine text distance) chain.now [] }
{
    let Some(environ) = chain.outer(0) else {
        return Doing::Meets(FaultKind::Kind);
    };
    let frame = environ.frame;
    let scope = match distance {
        None => 0,
        Some(hops) => match chain.outer(hops) {
            None => return Doing::Meets(FaultKind::Kind),
            Some(outer) => outer.scope,
        },
    };
    Doing::Yields(Value::of(Plain::Routine(Routine { text, frame, scope })))
}

// Whether two names refer to the same.
fn is_same(left: &Value, right: &Value) -> Result<bool, FaultKind>
    ensures { result ≡ operations.is_same left.now right.now }
{
    match (&left.node, &right.node) {
        (ValueNode::Plain(Plain::Unset), _) | (_, ValueNode::Plain(Plain::Unset)) => {
            Err(FaultKind::Unset)
        }
        (ValueNode::Plain(Plain::Nil), ValueNode::Plain(Plain::Nil)) => Ok(true),
        (ValueNode::Plain(Plain::Name(left)), ValueNode::Plain(Plain::Name(right))) => {
            Ok(left.cell == right.cell)
        }
        (ValueNode::Plain(Plain::Nil), ValueNode::Plain(Plain::Name(_))) => Ok(false),
        (ValueNode::Plain(Plain::Name(_)), ValueNode::Plain(Plain::Nil)) => Ok(false),
        _ => Err(FaultKind::Kind),
    }
}

/// An identity relation between two names, which is negated where that is not 0.
pub fn related(negated: u32, left: &Value, right: &Value) -> Doing
    ensures { result ≡ operations.related negated (operations.is_same left.now right.now) }
{
    match is_same(left, right) {
        Ok(same) => Doing::Yields(Value::of(Plain::Bool(same == (negated == 0)))),
        Err(kind) => Doing::Meets(kind),
    }
}

// Is the mode a union?
fn is_union(modes: &Modes, mode: ModeId) -> bool
    ensures { result ≡ fetching.is_union (shape_at modes.now mode) }
{
    mode < modes.len() && matches!(modes.shape(mode), Shape::Union(_))
}

/// A value of a mode united; one that is united already stays.
pub fn united(alloc: Global, modes: &Modes, mode: ModeId, value: Value) -> Result<Doing, NoMemory>
    ensures { IfOk result (λ doing. doing ≡ operations.united_as (shape_at modes.now mode) mode value) }
{
    if is_union(modes, mode) {
        return Ok(Doing::Yields(value));
    }
    let value = Box::new(alloc, value)?;
    Ok(Doing::Yields(Value {
        node: ValueNode::United { mode, value },
    }))
}

// What is printed of an item, or the fault that it meets.
fn printed_item(alloc: Global, item: &Value) -> Result<Result<Text, FaultKind>, NoMemory>
    ensures { IfOk result (λ printed. printed ≡ item_text item.now) }
{
    match item_text(alloc, item) {
        Ok(text) => Ok(Ok(text)),
        Err(OpStop::Fault(kind)) => Ok(Err(kind)),
        Err(OpStop::NoMemory) => Err(NoMemory),
    }
}

/// The items that are left printed, the next one last.
pub fn print_next(alloc: Global, mut left: Values) -> Result<Doing, NoMemory>
    ensures { IfOk result (λ doing. doing ≡ operations.print_next (reverse left)) }
{
    let Some(item) = left.items.pop() else {
        return Ok(Doing::Yields(Value {
            node: ValueNode::Void,
        }));
    };
    let printed = printed_item(alloc, &item);
    drop(item);
    match printed? {
        Ok(text) => Ok(Doing::Asks(Want::Print(text), Next::Printing(left))),
        Err(kind) => Ok(Doing::Meets(kind)),
    }
}

// A number as a text of a width.
fn worded(alloc: Global, value: i128, width: i64) -> Result<Doing, NoMemory>
    ensures { IfOk result (λ doing. doing ≡ operations.worded (whole_number value width)) }
{
    match whole(alloc, value, width) {
        Ok(text) => Ok(Doing::Yields(text_value(alloc, &text.items)?)),
        Err(OpStop::Fault(kind)) => Ok(Doing::Meets(kind)),
        Err(OpStop::NoMemory) => Err(NoMemory),
    }
}

// The number that an INT or a LONG INT is.
fn number_of(value: &Value) -> Option<i128>
    ensures { result ≡ operations.number_in value.now }
{
    match &value.node {
        ValueNode::Plain(Plain::Int(number)) => Some(i128::from(*number)),
        ValueNode::Plain(Plain::Long(number)) => Some(number.number()),
        _ => None,
    }
}

// The same of the member that a value of a union has.
fn united_number(value: &Value) -> Option<i128>
    ensures { result ≡ operations.number_in (member value.now) }
{
    match &value.node {
        ValueNode::United { value, .. } => number_of(value),
        _ => number_of(value),
    }
}

// A number, where there is one, as a text of a width.
fn whole_by(alloc: Global, value: &Value, width: i64) -> Result<Doing, NoMemory>
    ensures { IfOk result (λ doing. doing ≡ operations.whole_by value.now (operations.number_in (member value.now)) width) }
{
    match united_number(value) {
        Some(number) => worded(alloc, number, width),
        None if is_unset(value) => Ok(Doing::Meets(FaultKind::Unset)),
        None => Ok(Doing::Meets(FaultKind::Kind)),
    }
}

/// A number, an INT or a LONG INT that may be united, as a text of a width.
pub fn whole_of(alloc: Global, value: &Value, width: &Value) -> Result<Doing, NoMemory>
    ensures { IfOk result (λ doing. doing ≡ operations.whole_of value.now width.now) }
{
    match &width.node {
        ValueNode::Plain(Plain::Int(width)) => whole_by(alloc, value, *width),
        _ if is_unset(value) || is_unset(width) => Ok(Doing::Meets(FaultKind::Unset)),
        _ => Ok(Doing::Meets(FaultKind::Kind)),
    }
}

/// Is the operator of a row combined with assignation, and does its name stand in front?
#[inline(always)]
pub fn is_update(row: u32) -> bool
    ensures { result ≡ operations.is_update row }
{
    0 < row && row < operators::PLUSTO
}

/// An operator that is combined with assignation, on a name and another operand.
pub fn updating(alloc: Global, row: u32, name: &Value, operand: &Value) -> Result<Doing, NoMemory>
    ensures ok { IfOk result (λ doing. doing ≡ operations.updating row name.now operand.now) }
    ensures full { OnErr result (rowing.is_number operand.now ≡ false) }
{
    match &operand.node {
        ValueNode::Plain(Plain::Int(number)) => Ok(updating_by(row, name, Plain::Int(*number))),
        ValueNode::Plain(Plain::Long(number)) => Ok(updating_by(row, name, Plain::Long(*number))),
        _ => {
            let doing = updating_text(alloc, row, name, operand)?;
            Ok(doing)
        }
    }
}

// The same where the other operand is an integer.
fn updating_by(row: u32, name: &Value, operand: Plain) -> Doing
    ensures { result ≡ operations.updating_by row name.now operand }
{
    match &name.node {
        ValueNode::Plain(Plain::Name(name)) => {
            let name = *name;
            Doing::Asks(
                Want::Fetch { cell: name.cell },
                Next::Update { row, name, operand },
            )
        }
        ValueNode::Plain(Plain::Nil) => Doing::Meets(FaultKind::Nil),
        _ if is_unset(name) => Doing::Meets(FaultKind::Unset),
        _ => Doing::Meets(FaultKind::Kind),
    }
}

/// LEVEL: from an integer a new semaphore with that count; of a semaphore its count.
pub fn leveled(alloc: Global, value: &Value) -> Result<Doing, NoMemory>
    ensures ok { IfOk result (λ doing. doing ≡ operations.leveled value.now) }
    ensures full { OnErr result (rowing.is_integer value.now ≡ true) }
{
    match &value.node {
        ValueNode::Plain(Plain::Unset) => Ok(Doing::Meets(FaultKind::Unset)),
        ValueNode::Plain(Plain::Int(count)) => {
            let plan = one_cell(alloc)?;
            Ok(Doing::Asks(Want::Make(plan), Next::Raised { count: *count }))
        }
        ValueNode::Plain(Plain::Sema(cell)) => {
            Ok(Doing::Asks(Want::Fetch { cell: *cell }, Next::Count))
        }
        _ => Ok(Doing::Meets(FaultKind::Kind)),
    }
}

// One cell to which nothing is assigned yet.
fn one_cell(alloc: Global) -> Result<Plan, NoMemory>
    ensures { IfOk result (λ plan. plan ≡ operations.one_cell) }
{
    let mut items = Vec::with_capacity(alloc, 1)?;
    items.push(Held::Plain(Plain::Unset))?;
    Ok(Plan {
        cells: Cells { items },
        shifted: true,
    })
}

// UP of a semaphore.
fn raising(value: &Value) -> Doing
    ensures { result ≡ operations.on_sema (λ cell. Want.Up cell) value.now }
{
    match &value.node {
        ValueNode::Plain(Plain::Unset) => Doing::Meets(FaultKind::Unset),
        ValueNode::Plain(Plain::Sema(cell)) => Doing::Asks(Want::Up { cell: *cell }, Next::Void),
        _ => Doing::Meets(FaultKind::Kind),
    }
}

// DOWN of a semaphore.
fn lowering(value: &Value) -> Doing
    ensures { result ≡ operations.on_sema (λ cell. Want.Down cell) value.now }
{
    match &value.node {
        ValueNode::Plain(Plain::Unset) => Doing::Meets(FaultKind::Unset),
        ValueNode::Plain(Plain::Sema(cell)) => Doing::Asks(Want::Down { cell: *cell }, Next::Void),
        _ => Doing::Meets(FaultKind::Kind),
    }
}

/// An operator before one value, by its row in the table of operators.
pub fn applied_to_one(alloc: Global, row: u32, value: &Value) -> Result<Doing, NoMemory>
    ensures ok { IfOk result (λ doing. doing ≡ operations.applied_to_one row value.now) }
    ensures full { OnErr result (one_plainly row value.now ≡ false) }
{
    match row {
        operators::LEVEL => {
            let doing = leveled(alloc, value)?;
            Ok(doing)
        }
        operators::UP => Ok(raising(value)),
        operators::DOWN => Ok(lowering(value)),
        operators::LWB => Ok(bounded(false, 1, value)),
        operators::UPB => Ok(bounded(true, 1, value)),
        _ => {
            let none = Value {
                node: ValueNode::Void,
            };
            let doing = applied(alloc, row, &none, value)?;
            Ok(doing)
        }
    }
}

/// An operator between two values, by its row in the table of operators.
pub fn applied_to_two(
    alloc: Global,
    row: u32,
    left: &Value,
    right: &Value,
) -> Result<Doing, NoMemory>
    ensures ok { IfOk result (λ doing. doing ≡ operations.applied_to_two row left.now right.now) }
    ensures full { OnErr result (two_plainly row left.now right.now ≡ false) }
{
    if is_update(row) {
        let doing = updating(alloc, row, left, right)?;
        return Ok(doing);
    }
    match row {
        operators::PLUSTO => {
            let doing = updating(alloc, row, right, left)?;
            Ok(doing)
        }
        operators::LWB_OF => Ok(bounded_by(false, left, right)),
        operators::UPB_OF => Ok(bounded_by(true, left, right)),
        _ => {
            let doing = applied(alloc, row, left, right)?;
            Ok(doing)
        }
    }
}

// A value that an operator made given to a name.
fn put_value(name: Name, made: &Value) -> Doing
    ensures { result ≡ operations.put name (Ok made.now) }
{
    match &made.node {
        ValueNode::Plain(held) => {
            let cell = name.cell;
            let assign = Want::Assign {
                cell,
                held: Held::Plain(*held),
            };
            Doing::Asks(assign, Next::Name(name))
        }
        _ => Doing::Meets(FaultKind::Kind),
    }
}

// A name given what an operator makes of the old value and the other operand.
#[tactic(auto, using(crate::proofs::Wanting::row_yielded))]
fn put(alloc: Global, row: u32, name: Name, old: Plain, operand: Plain) -> Result<Doing, NoMemory>
    ensures ok { IfOk result (λ doing. doing ≡ operations.put name (updated row (plain old) (plain operand))) }
    ensures full { OnErr result (yields_plain (updated row (plain old) (plain operand)) ≡ false) }
{
    match updated(alloc, row, &Value::of(old), &Value::of(operand)) {
        Ok(made) => Ok(put_value(name, &made)),
        Err(OpStop::Fault(kind)) => Ok(Doing::Meets(kind)),
        Err(OpStop::NoMemory) => Err(NoMemory),
    }
}

// The count of a semaphore.
fn counted(held: Plain) -> Doing
    ensures { result ≡ operations.counted held }
{
    match held {
        Plain::Int(count) => Doing::Yields(Value::of(Plain::Int(count))),
        _ => Doing::Meets(FaultKind::Kind),
    }
}

// A new semaphore given its count.
fn raised(cell: u32, count: i64) -> Doing
    ensures { result ≡ Doing.Asks (Want.Assign cell (Held.Plain (value_of.Int count))) (Next.Sema cell) }
{
    let held = Held::Plain(Plain::Int(count));
    Doing::Asks(Want::Assign { cell, held }, Next::Sema { cell })
}

// How an operation goes on that is told a row in the store.
fn resumed_by(alloc: Global, modes: &Modes, next: Next, row: Descriptor) -> Result<Doing, NoMemory>
    ensures { IfOk result (λ doing. doing ≡ operations.resumed_by modes.now next row) }
{
    match next {
        Next::Update {
            row: number,
            name,
            operand,
        } => {
            let operand = Value::of(operand);
            let doing = extends(alloc, modes, number, name, operand, &row)?;
            Ok(doing)
        }
        Next::Extend {
            row: number,
            name,
            operand,
        } => {
            let doing = extends(alloc, modes, number, name, operand, &row)?;
            Ok(doing)
        }
        Next::Sliced { trims, scope } => {
            let doing = names_part(alloc, scope, &row, &trims)?;
            Ok(doing)
        }
        Next::Selected { offset, scope } => {
            let doing = names_field(alloc, scope, offset, row)?;
            Ok(doing)
        }
        Next::Rowed { scope } => {
            let doing = with_dimension(alloc, scope, &row)?;
            Ok(doing)
        }
        Next::Bound { upper, dimension } => {
            let doing = bound_of(alloc, upper, row.dims.as_slice(), dimension)?;
            Ok(doing)
        }
        next => {
            drop(next);
            drop(row);
            Ok(Doing::Meets(FaultKind::Kind))
        }
    }
}

// How an operation goes on that has no more steps and is told no row.
fn resumed_with(alloc: Global, next: Next, reply: Reply) -> Result<Doing, NoMemory>
    ensures ok { IfOk result (λ doing. doing ≡ operations.resumed_with next reply) }
    ensures full { OnErr result (resumes_plainly next reply ≡ false) }
{
    match (next, reply) {
        (Next::Value, Reply::Value(value)) => Ok(Doing::Yields(value)),
        (Next::Held, Reply::Held(Held::Plain(held))) => Ok(Doing::Yields(Value::of(held))),
        (Next::Void, Reply::Go) => Ok(Doing::Yields(Value {
            node: ValueNode::Void,
        })),
        (Next::Name(name), Reply::Go) => Ok(Doing::Yields(Value::of(Plain::Name(name)))),
        (Next::Update { row, name, operand }, Reply::Held(Held::Plain(old))) => {
            let doing = put(alloc, row, name, old, operand)?;
            Ok(doing)
        }
        (Next::Raised { count }, Reply::Base(cell)) => Ok(raised(cell, count)),
        (Next::Sema { cell }, Reply::Go) => Ok(Doing::Yields(Value::of(Plain::Sema(cell)))),
        (Next::Count, Reply::Held(Held::Plain(held))) => Ok(counted(held)),
        (Next::Made { scope }, Reply::Base(cell)) => {
            Ok(Doing::Yields(Value::of(Plain::Name(Name { cell, scope }))))
        }
        (Next::Printing(left), Reply::Go) => {
            let doing = print_next(alloc, left)?;
            Ok(doing)
        }
        (next, reply) => {
            drop(next);
            drop(reply);
            Ok(Doing::Meets(FaultKind::Kind))
        }
    }
}

// The row in the store that is told; the reply itself where it tells another thing.
fn row_told(reply: Reply) -> Result<Descriptor, Reply>
    ensures { MatchResult result (λ row. reply ≡ Reply.Held (Held.Rows row)) (λ other. (other ≡ reply) × (is_row_reply reply ≡ false)) }
{
    match reply {
        Reply::Held(Held::Rows(row)) => Ok(row),
        reply => Err(reply),
    }
}

// The same where it is told anything.
fn resumed_told(alloc: Global, modes: &Modes, next: Next, reply: Reply) -> Result<Doing, NoMemory>
    requires { operations.has_steps next ≡ false }
    ensures ok { IfOk result (λ doing. doing ≡ operations.resumed modes.now next reply) }
    ensures full { OnErr result (resumes_plainly next reply ≡ false) }
{
    match row_told(reply) {
        Ok(row) => {
            let doing = resumed_by(alloc, modes, next, row)?;
            Ok(doing)
        }
        Err(reply) => {
            let doing = resumed_with(alloc, next, reply)?;
            Ok(doing)
        }
    }
}

/// How an operation goes on with the reply to its act.
#[tactic(auto, unfolding(a68_acts::specs::Operations::resumed))]
pub fn resumed(alloc: Global, modes: &Modes, next: Next, reply: Reply) -> Result<Doing, NoMemory>
    ensures ok { IfOk result (λ doing. doing ≡ operations.resumed modes.now next reply) }
    ensures full { OnErr result (resumes_plainly next reply ≡ false) }
{
    match next {
        Next::Steps(steps, left) => {
            let doing = stepped(alloc, modes, steps, left, reply)?;
            Ok(doing)
        }
        next => {
            let doing = resumed_told(alloc, modes, next, reply)?;
            Ok(doing)
        }
    }
}

/// An operator on two values, by its row in the table of operators; before one value the left one is Void.
#[tactic(auto, using(crate::proofs::Wanting::row_yielded))]
pub fn applied(alloc: Global, row: u32, left: &Value, right: &Value) -> Result<Doing, NoMemory>
    ensures ok { IfOk result (λ doing. doing ≡ yielding (applied row left.now right.now)) }
    ensures full { OnErr result (yields_plain (applied row left.now right.now) ≡ false) }
{
    match apply(alloc, row, left, right) {
        Ok(value) => Ok(Doing::Yields(value)),
        Err(OpStop::Fault(kind)) => Ok(Doing::Meets(kind)),
        Err(OpStop::NoMemory) => Err(NoMemory),
    }
}

// Which of so many parts a number chooses, from 0; that number of parts itself where it chooses none.
#[inline(always)]
fn chosen(parts: usize, number: i64) -> usize
    ensures { Ok result ≡ operations.case_of parts (plain (value_of.Int number)) }
{
    match usize::try_from(number) {
        Ok(number) if 1 <= number && number <= parts => number - 1,
        _ => parts,
    }
}

/// Which of so many parts a value chooses, from 0; that number of parts itself where it chooses none.
#[tactic(auto, unfolding(a68_acts::specs::Operations::case_of))]
#[inline(always)]
pub fn case_of(parts: usize, value: Plain) -> Result<usize, FaultKind>
    ensures { result ≡ operations.case_of parts (plain value) }
{
    match value {
        Plain::Int(number) => Ok(chosen(parts, number)),
        Plain::Unset => Err(FaultKind::Unset),
        _ => Err(FaultKind::Kind),
    }
}

/// The counter of a loop.
#[tactic(auto, unfolding(a68_acts::specs::Operations::counter_of))]
pub fn counter_of(start: &Value, by: &Value, to: &Value) -> Result<Counter, FaultKind>
    ensures { result ≡ operations.counter_of start.now by.now to.now }
{
    let to = match &to.node {
        ValueNode::Plain(Plain::Unset) => Some(None),
        ValueNode::Plain(Plain::Int(to)) => Some(Some(*to)),
        _ => None,
    };
    match (&start.node, &by.node, to) {
        (ValueNode::Plain(Plain::Unset), _, _) | (_, ValueNode::Plain(Plain::Unset), _) => {
            Err(FaultKind::Unset)
        }
        (ValueNode::Plain(Plain::Int(at)), ValueNode::Plain(Plain::Int(by)), Some(to)) => Ok(
            Counter {
                at: *at,
                by: *by,
                to,
            },
        ),
        _ => Err(FaultKind::Kind),
    }
}

/// Has the loop one more turn?
#[tactic(auto, unfolding(a68_acts::specs::Operations::has_turn))]
pub fn has_turn(counter: &Counter) -> bool
    ensures { result ≡ operations.has_turn counter.now }
{
    match counter.to {
        None => true,
        Some(to) => {
            let is_above = counter.by > 0 && counter.at > to;
            let is_below = counter.by < 0 && counter.at < to;
            !(is_above || is_below)
        }
    }
}

/// The counter of the next turn; none where it is no INT.
#[tactic(auto, unfolding(a68_acts::specs::Operations::advanced))]
pub fn advanced(counter: Counter) -> Option<Counter>
    ensures advanced { result ≡ operations.advanced counter }
    ensures kept { IfSome result (λ next. next ≡ record counter { at = next.at }) }
{
    match counter.at.checked_add(counter.by) {
        Some(at) if at != i64::MIN => Some(Counter { at, ..counter }),
        _ => None,
    }
}
