//! The workers, each with a seat that was split from the caller's.
ghost use Rattle.std.specs.Prelude.{◌≡◌, ◌+◌, ◌<◌, ◌^◌, [], ◌∷◌, length, vec_len, All, IfOk};
ghost use Rattle.a68_lease.specs.Crew.{IsReadyAt};
ghost use Rattle.a68_lease.specs.Places.{IsBoard, IsIdle};

use crate::carry::work;
use crate::plays::{Desk, OnePart, Place};
use a68_base::NoMemory;
use a68_code::Code;
use a68_outside::Gate;
use a68_workers::GivenRun;
use std::alloc::Global;
use std::marker::{Send, Sync};
use std::sync::Wait;
use std::thread;
use std::thread::Threads;

/// A seat has no bytes, so it stands beside a number.
#[derive(Drop)]
pub struct Carrier<J: GivenRun> {
    place: Place<J>,
    number: u32,
}

/// Splits a seat for each worker from the caller's.
pub fn hire<J: GivenRun>(
    desk: &Desk<J>,
    alloc: Global,
    seat: &mut Place<J>,
    count: u32,
) -> Result<Vec<Carrier<J>>, NoMemory>
    requires table { (seat.old.table_id ≡ desk.now.table_id) × IsBoard desk.now.table_id }
    requires idle { IsIdle seat.old.me × (seat.old.me.0.parts ≡ count + 1) }
    ensures table { seat.new.table_id ≡ seat.old.table_id }
    ensures idle { IfOk result (λ v. IsIdle seat.new.me × (seat.new.me.0.parts ≡ 1) × (vec_len v ≡ count)) }
    ensures crew { IfOk result (λ v. All (λ c. IsReadyAt desk.now.table_id c.place) v.items) }
{
    let mut crew = Vec::new(alloc);
    for number in 0..count {
        let place = desk.split_seat::<OnePart>(seat);
        if crew.push(Carrier { place, number }).is_err() {
            return Err(NoMemory);
        }
    }
    Ok(crew)
}

/// Joins the workers' seats to the caller's.
pub fn dismiss<J: GivenRun>(desk: &Desk<J>, seat: &mut Place<J>, mut crew: Vec<Carrier<J>>)
    requires table { (seat.old.table_id ≡ desk.now.table_id) × IsBoard desk.now.table_id }
    requires idle { IsIdle seat.old.me }
    requires crew { All (λ c. IsReadyAt desk.now.table_id c.place) crew.items }
    ensures table { seat.new.table_id ≡ seat.old.table_id }
    ensures idle { IsIdle seat.new.me × (seat.new.me.0.parts ≡ seat.old.me.0.parts + vec_len crew) }
{
    while let Some(carrier) = crew.pop() {
        let Carrier { place, number: _ } = carrier;
        desk.join_seat::<OnePart>(seat, place);
    }
    drop(crew);
}

/// Lets each worker work to the end.
pub fn let_work<J: GivenRun + Send + Sync, R: Threads + Wait + Sync, G: Gate>(
    rt: &R,
    desk: &Desk<J>,
    code: &Code,
    alloc: Global,
    crew: &mut [Carrier<J>],
    gate: &G,
)
    requires code { code.now ∷ [] ≡ J.code }
    requires few { length code.now.list < 2 ^ 32 }
    requires table { IsBoard desk.now.table_id }
    requires crew { All (λ c. IsReadyAt desk.now.table_id c.place) crew.old }
    ensures { All (λ c. IsReadyAt desk.now.table_id c.place) crew.new × (length crew.new ≡ length crew.old) }
{
    let count = crew.len();
    if count == 0 {
        return;
    }
    thread::for_each_mut(
        rt,
        crew,
        count,
        &|_i: usize, carrier: &mut Carrier<J>|
            requires { (code.now ∷ [] ≡ J.code) × (length code.now.list < 2 ^ 32) × IsBoard desk.now.table_id × IsReadyAt desk.now.table_id carrier.old.place }
            ensures { IsReadyAt desk.entry.now.table_id carrier.new.place }
        {
            work(
                rt,
                desk,
                code,
                alloc,
                &mut carrier.place,
                carrier.number,
                gate,
            )
        },
    );
}
