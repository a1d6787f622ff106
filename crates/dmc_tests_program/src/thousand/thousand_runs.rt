//! A thousand runs in a row, each of another scene and with another clock.
use super::clock::JumpingClock;
use super::scenes::scene_of;
use super::totals::{Totals, all_done, are_balanced, totals_of};
use super::words::word_of;
use crate::replays::must_replay;
use dmc_driver::fault::DriveFault;
use dmc_driver::run::run_cluster;
use dmc_driver::service::{Job, ServeFault, Service};
use dmc_scene::scene::Scene;
use dmc_settle::report::{ClusterReport, StopCause};
use dmc_tick::tick::TickTag;
use std::alloc::{AllocError, Global};
use std::process::Abort;
use std::sync::Wait;
use std::test::Fail;
use std::thread::Threads;

/// Fails for odd tokens.
struct Fickle;

impl Service for Fickle {
    fn serve(&self, job: &Job) -> Result<(), ServeFault> {
        if job.token.0 % 2 == 1 {
            Err(ServeFault)
        } else {
            Ok(())
        }
    }
}

type Report = ClusterReport<TickTag>;

/// Whether a worker stopped because an allocation failed, or its thread could not be started.
fn lacked_memory(report: &Report) -> bool {
    let lacks = |cause: StopCause| cause == StopCause::Memory || cause == StopCause::Spawn;
    report.clients.iter().any(|row| row.stop.is_some_and(lacks))
        || report
            .servers
            .iter()
            .any(|row| row.stops.iter().any(|cause| lacks(*cause)))
}

/// The report of a run, and whether all was done. If it was not, a worker took its last turn.
fn observed(answer: Result<Report, DriveFault<TickTag>>) -> Result<(Report, bool), Fail> {
    match answer {
        Ok(report) => Ok((report, true)),
        Err(DriveFault::TurnsOut(report)) => Ok((report, false)),
        Err(DriveFault::Stopped(report)) if lacked_memory(&report) => Err(AllocError.into()),
        Err(DriveFault::Stopped(_)) => Err(Fail::new("stopped")),
        Err(DriveFault::Memory) => Err(AllocError.into()),
        Err(DriveFault::Torn) => Err(Fail::new("torn")),
    }
}

/// Runs a scene with a clock of this seed: its report, and whether all was done. Each history replays.
fn run_once<R: Threads + Wait + Sync>(
    rt: &R,
    alloc: Global,
    scene: &Scene,
    seed: u64,
) -> Result<(Totals, bool), Fail> {
    let clock = JumpingClock::new(seed);
    let answer = run_cluster(rt, alloc, scene, &Fickle, &clock);
    let (report, done) = observed(answer)?;
    must_replay(rt, alloc, scene, &report)?;
    Ok((totals_of(&report), done))
}

/// The run of a number, whose workers take at most this many turns. Returns whether all was done.
fn run_number<R: Abort + AllocGlobal + Threads + Wait + Sync>(
    rt: &R,
    run: u64,
    max_pulls: u32,
) -> Result<bool, Fail> {
    let scene = scene_of(rt.alloc(), run, max_pulls)?;
    let (totals, done) = run_once(rt, rt.alloc(), &scene, word_of(run))?;
    assert!(rt; are_balanced(totals), "run {run}");
    if done {
        assert_eq!(rt; totals, all_done(&scene), "run {run}");
    }
    Ok(done)
}

/// The runs of 250 numbers, from the first on.
fn run_quarter<R: Abort + AllocGlobal + Threads + Wait + Sync>(
    rt: &R,
    first: u64,
) -> Result<(), Fail> {
    let mut turned_out = 0u32;
    for i in 0..250u64 {
        let run = first.wrapping_add(i);
        if run % 8 == 7 {
            let done = run_number(rt, run, 2)?;
            turned_out = turned_out.wrapping_add(u32::from(!done));
        } else {
            assert!(rt; run_number(rt, run, 1_000_000)?, "run {run}");
        }
    }
    assert!(rt; turned_out > 0);
    Ok(())
}

// A test may take a minute, so these are four.

#[test]
fn thousand_runs_first(rt: HostRuntime) -> Result<(), Fail> {
    run_quarter(&rt, 0)
}

#[test]
fn thousand_runs_second(rt: HostRuntime) -> Result<(), Fail> {
    run_quarter(&rt, 250)
}

#[test]
fn thousand_runs_third(rt: HostRuntime) -> Result<(), Fail> {
    run_quarter(&rt, 500)
}

#[test]
fn thousand_runs_fourth(rt: HostRuntime) -> Result<(), Fail> {
    run_quarter(&rt, 750)
}
