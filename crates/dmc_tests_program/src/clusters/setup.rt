//! The scene `three_servers`, and what its tests expect of a report.
use crate::same::assert_same;
use dmc_driver::fault::DriveFault;
use dmc_driver::moments::{Moments, StepClock};
use dmc_driver::run::run_cluster;
use dmc_driver::service::{Job, ServeFault, Service};
use dmc_scene::scene::{Scene, read_scene};
use dmc_settle::report::{ClientReport, ClusterReport, ServerReport, StopCause};
use dmc_tick::tick::TickTag;
use std::alloc::{AllocError, Global};
use std::process::Abort;
use std::sync::Wait;
use std::test::Fail;
use std::thread::Threads;

pub(super) type Answer = Result<ClusterReport<TickTag>, DriveFault<TickTag>>;

/// Clients 1 to 4 of weight 1, with 200 requests each and a window of 8.
const CLIENTS: &str = "[[client]]\nid = 1\nweight = 1\nrequests = 200\nwindow = 8\n\
                       [[client]]\nid = 2\nweight = 1\nrequests = 200\nwindow = 8\n\
                       [[client]]\nid = 3\nweight = 1\nrequests = 200\nwindow = 8\n\
                       [[client]]\nid = 4\nweight = 1\nrequests = 200\nwindow = 8\n";

/// The scene `three_servers`, with this many servers, this many turns of a worker at most, and this counting form.
pub(super) fn scene(
    alloc: Global,
    servers: u32,
    max_pulls: u32,
    counting: &str,
) -> Result<Scene, Fail> {
    let text = format!(in alloc;
        "hz = 1000\ntags = \"tick\"\nservers = {servers}\nworkers = 2\nstep = 1\nseed = 7\n\
         max_pulls = {max_pulls}\ncounting = \"{counting}\"\n{CLIENTS}"
    )?;
    Ok(read_scene(alloc, text.as_bytes())?)
}

/// The scene as it is.
pub(super) fn three_servers(alloc: Global) -> Result<Scene, Fail> {
    scene(alloc, 3, 1_000_000, "all")
}

/// Serves at once.
pub(super) struct Prompt;

impl Service for Prompt {
    fn serve(&self, _job: &Job) -> Result<(), ServeFault> {
        Ok(())
    }
}

/// Runs a scene with this service and this clock. Callers know nothing of the result's contract.
pub(super) fn run_by<R, V, M>(rt: &R, scene: &Scene, service: &V, clock: &M) -> Answer
where
    R: AllocGlobal + Threads + Wait + Sync,
    V: Service + Sync,
    M: Moments + Sync,
{
    run_cluster(rt, rt.alloc(), scene, service, clock)
}

/// Runs a scene with this service and a clock that advances by the scene's step.
pub(super) fn run<R, V>(rt: &R, scene: &Scene, service: &V) -> Answer
where
    R: AllocGlobal + Threads + Wait + Sync,
    V: Service + Sync,
{
    run_by(rt, scene, service, &StepClock::new(scene.step()))
}

/// Whether a worker stopped for this cause.
pub(super) fn stopped_for(report: &ClusterReport<TickTag>, cause: StopCause) -> bool {
    report.clients.iter().any(|row| row.stop == Some(cause))
        || report
            .servers
            .iter()
            .any(|row| row.stops.iter().any(|other| *other == cause))
}

/// The end of a test at a report whose workers had an allocation failure, or whose thread could not be started, with the causes
/// of their stops. `None` if no worker had.
fn shortage(report: &ClusterReport<TickTag>) -> Option<Fail> {
    let rung = stopped_for(report, StopCause::Rung);
    if stopped_for(report, StopCause::Memory) {
        return Some(Fail::new(match rung {
            true => "out of memory: Memory, Rung",
            false => "out of memory: Memory",
        }));
    }
    if stopped_for(report, StopCause::Spawn) {
        return Some(Fail::new(match rung {
            true => "out of memory: Spawn, Rung",
            false => "out of memory: Spawn",
        }));
    }
    None
}

/// The end of a test at a report that it did not expect.
fn unwanted(report: &ClusterReport<TickTag>, what: &'static str) -> Fail {
    match shortage(report) {
        Some(fail) => fail,
        None => Fail::new(what),
    }
}

/// The end of a test at a result that it did not expect.
fn unwanted_answer(answer: Answer) -> Fail {
    match answer {
        Ok(_) => Fail::new("done"),
        Err(DriveFault::Memory) => AllocError.into(),
        Err(DriveFault::Torn) => Fail::new("torn"),
        Err(DriveFault::TurnsOut(report)) => unwanted(&report, "turns out"),
        Err(DriveFault::Stopped(report)) => unwanted(&report, "stopped"),
    }
}

/// The report of a run that was done.
pub(super) fn done(answer: Answer) -> Result<ClusterReport<TickTag>, Fail> {
    match answer {
        Ok(report) => Ok(report),
        answer => Err(unwanted_answer(answer)),
    }
}

/// The report of a run that stopped for this cause.
pub(super) fn stopped(answer: Answer, cause: StopCause) -> Result<ClusterReport<TickTag>, Fail> {
    let report = match answer {
        Err(DriveFault::Stopped(report)) => report,
        answer => return Err(unwanted_answer(answer)),
    };
    if !stopped_for(&report, cause) {
        return Err(unwanted(&report, "another cause"));
    }
    Ok(report)
}

/// The report of a run in which a worker took its last turn.
pub(super) fn turned_out(answer: Answer) -> Result<ClusterReport<TickTag>, Fail> {
    match answer {
        Err(DriveFault::TurnsOut(report)) => Ok(report),
        answer => Err(unwanted_answer(answer)),
    }
}

/// Each client sent and completed 200 requests of cost 1, and this many of them failed; nothing is left.
pub(super) fn is_whole(rt: &impl Abort, report: &ClusterReport<TickTag>, failed: u64) {
    for row in &report.clients {
        let held = (row.held.stamps, row.held.delta, row.held.rho);
        assert_same(
            rt,
            &(row.sent, row.completed, row.cost, row.failed),
            &(200, 200, 200, failed),
        );
        assert_same(rt, &held, &(0, 0, 0));
        assert_same(rt, &row.stop, &None);
    }
    for row in &report.servers {
        let held = (row.held.reservation, row.held.priority);
        assert_same(rt, &(row.left, held), &(0, (0, 0)));
        assert_same(rt, &row.stops.len(), &0);
    }
    assert_same(rt, &granted(&report.servers), &800);
}

/// The number of grants.
pub(super) fn granted(rows: &[ServerReport<TickTag>]) -> u64 {
    let mut sum = 0u64;
    for row in rows {
        sum = sum.wrapping_add(row.reservation).wrapping_add(row.priority);
    }
    sum
}

/// The number of units of grants that were left.
pub(super) fn units_left(rows: &[ServerReport<TickTag>]) -> u64 {
    let mut sum = 0u64;
    for row in rows {
        sum = sum
            .wrapping_add(row.held.reservation)
            .wrapping_add(row.held.priority);
    }
    sum
}

/// The number of requests that were left in the queues.
pub(super) fn left(rows: &[ServerReport<TickTag>]) -> u64 {
    let mut sum = 0u64;
    for row in rows {
        sum = sum.wrapping_add(u64::from(row.left));
    }
    sum
}

/// The numbers of requests that were sent and completed.
pub(super) fn sent_and_completed(rows: &[ClientReport]) -> (u64, u64) {
    let mut sent = 0u64;
    let mut completed = 0u64;
    for row in rows {
        sent = sent.wrapping_add(row.sent);
        completed = completed.wrapping_add(row.completed);
    }
    (sent, completed)
}
