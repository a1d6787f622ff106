//! A queue behind its lock, which no other thread takes, and the same queue alone.
ghost use Rattle.std.specs.Prelude.{◌≡◌};

use crate::cluster::{
    Client, Clients, open_clients, open_lock, pull, register_all, respond, stamp, submit,
};
use crate::fault::Fault;
use crate::load::{Kind, Load, mixed};
use crate::queues::pull_all;
use crate::watch::{add_since, print, start};
use dmc_book::pass::WorkerPass;
use dmc_index::index::Indexes;
use dmc_ledger::mint::Blank;
use dmc_ledger::setup::Setup;
use dmc_ledger::unit::Unit;
use dmc_qlock::lock::QueueLock;
use dmc_tag::scheduler::Scheduler;
use dmc_tag::tag::Tag;
use dmc_types::ids::{ClientId, Token};
use dmc_types::info::ClientInfo;
use dmc_types::moment::Moment;
use dmc_types::params::ReqParams;
use std::sync::Wait;

/// The result of a load of batches: the nanoseconds of its two parts, and its checksum.
#[derive(Clone, Copy)]
struct Taken {
    submitting: u128,
    pulling: u128,
    checksum: u64,
}

const NOTHING: Taken = Taken {
    submitting: 0,
    pulling: 0,
    checksum: 0,
};

/// The number of batches: each takes a round for each client.
fn batch_count(load: Load) -> u32 {
    load.rounds.checked_div(load.clients).unwrap_or(0)
}

/// The moment of a batch: one tick after the one before.
fn moment_of(batch: u32) -> Result<Moment, Fault> {
    Ok(Moment::new(u64::from(batch))?)
}

/// Writes the two parts, and returns the checksum.
fn print_parts(rt: &HostRuntime, load: Load, taken: Taken) -> Result<u64, Fault> {
    let calls = batch_count(load).saturating_mul(load.clients);
    print(rt, "submit", calls, taken.submitting)?;
    print(rt, "pull", calls, taken.pulling)?;
    Ok(taken.checksum)
}

/// A checksum with the ids of these clients in it.
fn mix_all(checksum: u64, granted: &[ClientId]) -> u64 {
    let mut checksum = checksum;
    for client in granted {
        checksum = mixed(checksum, u64::from(client.0));
    }
    checksum
}

/// A checksum with the ids of the clients of these units in it.
fn mix_units(checksum: u64, granted: &[Unit]) -> u64 {
    let mut checksum = checksum;
    for unit in granted {
        checksum = mixed(checksum, u64::from(unit.client().0));
    }
    checksum
}

// ---- behind the lock

/// In batches, each client stamps and submits a request, one worker pulls them all, and each unit is returned to its client's
/// tracker. The time of the submits and that of the pulls are measured.
pub fn serve_locked<T: Tag, I: Indexes<T>, S: Setup, R: Wait>(
    rt: &HostRuntime,
    waiter: &R,
    load: Load,
    blank: Blank,
) -> Result<u64, Fault>
    requires { blank.name ≡ S.name }
{
    let mut mint = blank.open::<S>();
    let Clients { desks, mut clients } = open_clients(rt.alloc(), &mut mint, load.clients)?;
    let (lock, mut passes) = open_lock::<T, I, S>(rt.alloc(), &mut mint, desks, 1)?;
    let served = serve_by_one(
        rt,
        waiter,
        &lock,
        passes.as_mut_slice(),
        clients.as_mut_slice(),
        load,
    );
    drop(lock);
    served
}

/// The first pass serves all batches.
fn serve_by_one<T: Tag, I: Indexes<T>, S: Setup, R: Wait>(
    rt: &HostRuntime,
    waiter: &R,
    lock: &QueueLock<T, I, S>,
    passes: &mut [WorkerPass<S>],
    clients: &mut [Client<S>],
    load: Load,
) -> Result<u64, Fault> {
    let Some(pass) = passes.first_mut() else {
        return Err(Fault::Usage);
    };
    let taken = serve_batches(rt, waiter, lock, pass, clients, load)?;
    print_parts(rt, load, taken)
}

fn serve_batches<T: Tag, I: Indexes<T>, S: Setup, R: Wait>(
    rt: &HostRuntime,
    waiter: &R,
    lock: &QueueLock<T, I, S>,
    pass: &mut WorkerPass<S>,
    clients: &mut [Client<S>],
    load: Load,
) -> Result<Taken, Fault> {
    register_all(waiter, lock, pass, load.clients)?;
    let mut granted = Vec::new(rt.alloc());
    let mut taken = NOTHING;
    for batch in 0..batch_count(load) {
        let at = moment_of(batch)?;
        taken = serve_batch(rt, waiter, lock, pass, clients, at, taken, &mut granted)?;
        if load.kind == Kind::RotatedQueue {
            release(waiter, lock, load.clients, batch);
        }
    }
    Ok(taken)
}

/// How many requests there are about between two releases of events. Each is two events.
const SEGMENT: u32 = 32_768;

/// Releases the lock's events after a batch, if enough were recorded since the last time.
#[inline(never)]
fn release<T: Tag, I: Indexes<T>, S: Setup, R: Wait>(
    waiter: &R,
    lock: &QueueLock<T, I, S>,
    clients: u32,
    batch: u32,
) {
    let batches = SEGMENT.checked_div(clients).unwrap_or(0).max(1);
    if batch.checked_rem(batches) == Some(0) {
        drop(lock.rotate(waiter));
    }
}

/// One batch.
fn serve_batch<T: Tag, I: Indexes<T>, S: Setup, R: Wait>(
    rt: &HostRuntime,
    waiter: &R,
    lock: &QueueLock<T, I, S>,
    pass: &mut WorkerPass<S>,
    clients: &mut [Client<S>],
    at: Moment,
    taken: Taken,
    granted: &mut Vec<Unit>,
) -> Result<Taken, Fault> {
    stamp_each(clients)?;
    let begun = start(rt)?;
    submit_each(waiter, lock, pass, clients, at)?;
    let submitting = add_since(rt, begun, taken.submitting)?;
    let begun = start(rt)?;
    pull_each(waiter, lock, pass, clients.len(), at, granted)?;
    let pulling = add_since(rt, begun, taken.pulling)?;
    let checksum = mix_units(taken.checksum, granted.as_slice());
    respond_each(pass, clients, granted)?;
    Ok(Taken {
        submitting,
        pulling,
        checksum,
    })
}

fn stamp_each<S: Setup>(clients: &mut [Client<S>]) -> Result<(), Fault> {
    for client in clients.iter_mut() {
        stamp(client)?;
    }
    Ok(())
}

#[inline(never)]
fn submit_each<T: Tag, I: Indexes<T>, S: Setup, R: Wait>(
    waiter: &R,
    lock: &QueueLock<T, I, S>,
    pass: &mut WorkerPass<S>,
    clients: &mut [Client<S>],
    at: Moment,
) -> Result<(), Fault> {
    for client in clients.iter_mut() {
        submit(waiter, lock, pass, client, at)?;
    }
    Ok(())
}

/// Pulls this often, and takes the unit of each grant.
#[inline(never)]
fn pull_each<T: Tag, I: Indexes<T>, S: Setup, R: Wait>(
    waiter: &R,
    lock: &QueueLock<T, I, S>,
    pass: &mut WorkerPass<S>,
    count: usize,
    at: Moment,
    granted: &mut Vec<Unit>,
) -> Result<(), Fault> {
    for _ in 0..count {
        if pull(waiter, lock, pass, at).is_none() {
            continue;
        }
        if let Some(unit) = pass.take_unit() {
            granted.push(unit)?;
        }
    }
    Ok(())
}

/// Returns the units that were taken. None is left.
fn respond_each<S: Setup>(
    pass: &mut WorkerPass<S>,
    clients: &mut [Client<S>],
    granted: &mut Vec<Unit>,
) -> Result<(), Fault> {
    while let Some(unit) = granted.pop() {
        respond(pass, clients, unit)?;
    }
    Ok(())
}

// ---- alone

/// The same batches at the queue alone, whose requests have the counts of the stamps: 0 at first, and then a delta of 1.
pub fn serve_alone<T: Tag, Q: Scheduler<T>>(
    rt: &HostRuntime,
    queue: &mut Q,
    load: Load,
) -> Result<u64, Fault> {
    register_alone(queue, load.clients)?;
    let mut granted = Vec::new(rt.alloc());
    let mut taken = NOTHING;
    for batch in 0..batch_count(load) {
        let begun = start(rt)?;
        let at = moment_of(batch)?;
        add_each(queue, load.clients, batch.min(1), at)?;
        taken.submitting = add_since(rt, begun, taken.submitting)?;
        let begun = start(rt)?;
        pull_all(queue, load.clients, at, &mut granted)?;
        taken.pulling = add_since(rt, begun, taken.pulling)?;
        taken.checksum = mix_all(taken.checksum, granted.as_slice());
        granted.clear();
    }
    print_parts(rt, load, taken)
}

fn register_alone<T: Tag, Q: Scheduler<T>>(queue: &mut Q, count: u32) -> Result<(), Fault> {
    let info = ClientInfo::new(None, 1, None)?;
    for id in 0..count {
        queue.register(ClientId(id), info, Moment::zero())?;
    }
    Ok(())
}

/// Queues a request of each client.
#[inline(never)]
fn add_each<T: Tag, Q: Scheduler<T>>(
    queue: &mut Q,
    count: u32,
    delta: u32,
    at: Moment,
) -> Result<(), Fault> {
    let params = ReqParams::new(delta, 0)?;
    for id in 0..count {
        queue.add_request(ClientId(id), Token(id), params, at)?;
    }
    Ok(())
}
