//! Tests of histories.
use crate::failures::Failures;
use crate::same::assert_same;
use dmc_history::{History, ReserveFault};
use std::process::Abort;
use std::test::Fail;

// The number of slots in a block.
const BLOCK: usize = 1024;

// Helpers with no contract: they are tested by running them, and a test that calls them takes little to prove.

fn reserve(history: &mut History<u32>) -> Result<(), ReserveFault> {
    history.reserve_one()
}

fn push(history: &mut History<u32>, event: u32) -> Result<(), ReserveFault> {
    history.reserve_one()?;
    history.push_reserved(event);
    Ok(())
}

fn count(history: &History<u32>) -> usize {
    history.len()
}

fn event_at(history: &History<u32>, index: usize) -> Option<u32> {
    history.at(index).copied()
}

// Records one event. An allocation is refused only at a block's first event: then the history has as many events as before, and
// the next try is Ok.
fn record(
    rt: &impl Abort,
    history: &mut History<u32>,
    failures: &mut Failures,
    event: u32,
) -> Result<(), Fail> {
    let before = count(history);
    if let Err(fault) = reserve(history) {
        failures.note();
        assert_same(rt, &fault, &ReserveFault::Memory);
        assert_same(rt, &(before % BLOCK), &0);
        assert_same(rt, &count(history), &before);
    }
    push(history, event)?;
    Ok(())
}

#[test]
fn history_limit(rt: HostRuntime) -> Result<(), Fail> {
    assert!(rt; History::<u32>::new(rt.alloc(), 0).is_err());
    assert!(rt; History::<u32>::new(rt.alloc(), (1 << 30) + 1).is_err());
    let mut history = History::new(rt.alloc(), 2)?;
    assert_same(&rt, &history.most(), &2);
    assert!(rt; history.is_empty());
    push(&mut history, 7)?;
    push(&mut history, 8)?;
    assert_same(&rt, &reserve(&mut history), &Err(ReserveFault::HistoryFull));
    assert_same(&rt, &count(&history), &2);
    assert!(rt; !history.is_empty());
    assert_same(&rt, &event_at(&history, 1), &Some(8));
    assert_same(&rt, &event_at(&history, 2), &None);
    Ok(())
}

#[test]
fn history_blocks(rt: HostRuntime) -> Result<(), Fail> {
    let mut failures = Failures::none();
    let mut history = History::new(rt.alloc(), 3000)?;
    for event in 0..2049 {
        record(&rt, &mut history, &mut failures, event)?;
    }
    assert_same(&rt, &count(&history), &2049);
    for index in [0, 1023, 1024, 2048] {
        assert_same(&rt, &event_at(&history, index), &Some(index as u32));
    }
    assert_same(&rt, &event_at(&history, 2049), &None);
    Ok(failures.end()?)
}
