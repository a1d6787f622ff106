//! Runs whose histories or trackers are too small.
use super::setup::{Prompt, granted, sent_and_completed, stopped, three_servers, units_left};
use crate::replays::must_replay;
use crate::same::assert_same;
use dmc_driver::limits::Limits;
use dmc_driver::moments::StepClock;
use dmc_driver::run::run_limited;
use dmc_settle::report::{ClusterReport, StopCause};
use dmc_tick::tick::TickTag;
use std::process::Abort;
use std::sync::Wait;
use std::test::Fail;
use std::thread::Threads;

/// The report of `three_servers` with limits that stop it for this cause. Its histories replay.
fn run_within<R: Abort + AllocGlobal + Threads + Wait + Sync>(
    rt: &R,
    events: u32,
    completions: u32,
    cause: StopCause,
) -> Result<ClusterReport<TickTag>, Fail> {
    let scene = three_servers(rt.alloc())?;
    let clock = StepClock::new(scene.step());
    let Some(limits) = Limits::new(events, completions) else {
        return Err(Fail::new("limits"));
    };
    let answer = run_limited(rt, rt.alloc(), &scene, &Prompt, &clock, limits);
    let report = stopped(answer, cause)?;
    must_replay(rt, rt.alloc(), &scene, &report)?;
    Ok(report)
}

#[test]
fn full_histories(rt: HostRuntime) -> Result<(), Fail> {
    let report = run_within(&rt, 500, u32::MAX, StopCause::HistoryFull)?;
    for row in &report.servers {
        assert!(rt; row.history.len() <= 500);
    }
    let report = run_within(&rt, 1 << 30, 100, StopCause::TrackFull)?;
    for row in &report.clients {
        assert!(rt; row.completed <= 100);
    }
    let (_, completed) = sent_and_completed(&report.clients);
    let units = units_left(&report.servers);
    let granted = granted(&report.servers);
    assert_same(&rt, &completed.checked_add(units), &Some(granted));
    Ok(())
}

#[test]
fn limits_are_kept(rt: HostRuntime) -> Result<(), Fail> {
    assert_same(&rt, &Limits::new(255, 1), &None);
    assert_same(&rt, &Limits::new(1 << 31, 1), &None);
    assert_same(&rt, &Limits::new(256, 0), &None);
    assert_same(&rt, &Limits::new(256, 1).is_some(), &true);
    let widest = Limits::new(1 << 30, u32::MAX);
    assert_same(&rt, &widest, &Some(Limits::widest()));
    Ok(())
}
