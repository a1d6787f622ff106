//! What the book of a lock leaves, once no thread shares the lock.
use crate::setup::Lock;
use dmc_book::pass::WorkerPass;
use dmc_book::seat::Seat;
use dmc_book::settled::Settled;
use dmc_ledger::setup::Setup;
use dmc_tests_setup::opening::{Book, both, drop_book};
use dmc_tick::tick::TickTag;
use std::alloc::Global;
use std::test::Fail;

/// What a worker leaves.
#[derive(Clone, Copy, Debug, PartialEq, Eq)]
pub(crate) struct Numbers {
    pub(crate) worker: u32,
    pub(crate) calls: u64,
    pub(crate) misses: u64,
    pub(crate) tokens: u64,
    pub(crate) grants: u64,
    pub(crate) granted: u64,
    pub(crate) cost: u64,
}

/// The requests that are left, and what each of two workers leaves.
pub(crate) type Remains = (u32, Numbers, Numbers);

fn numbers_of<S: Setup>(seat: &Seat<S>) -> Numbers {
    Numbers {
        worker: seat.worker().0,
        calls: seat.calls(),
        misses: seat.misses(),
        tokens: seat.tokens(),
        grants: seat.grants(),
        granted: seat.granted(),
        cost: seat.cost(),
    }
}

fn remains<S: Setup>(settled: &Settled<TickTag, S>) -> Result<Remains, Fail> {
    match (settled.workers.first(), settled.workers.get(1)) {
        (Some(first), Some(second)) => Ok((settled.left, numbers_of(first), numbers_of(second))),
        _ => Err(Fail::new("two workers")),
    }
}

pub(crate) fn settle_book<S: Setup>(
    alloc: Global,
    book: &mut Book<S>,
    passes: Vec<WorkerPass<S>>,
) -> Result<Remains, Fail> {
    match book.settle(alloc, passes) {
        Ok(settled) => {
            let remains = remains(&settled);
            drop(settled);
            remains
        }
        Err(_) => Err(Fail::new("its own passes")),
    }
}

/// Settles a book with the passes of its two workers.
fn settle_pair<S: Setup>(
    alloc: Global,
    book: &mut Book<S>,
    first: WorkerPass<S>,
    second: WorkerPass<S>,
) -> Result<Remains, Fail> {
    let passes = both(alloc, first, second)?;
    settle_book(alloc, book, passes)
}

/// Opens the lock of two workers, and settles its book with their passes.
pub(crate) fn settle<S: Setup>(
    alloc: Global,
    lock: Lock<S>,
    first: WorkerPass<S>,
    second: WorkerPass<S>,
) -> Result<Remains, Fail> {
    let mut book = lock.into_book();
    let remains = settle_pair(alloc, &mut book, first, second);
    drop_book(book);
    remains
}
