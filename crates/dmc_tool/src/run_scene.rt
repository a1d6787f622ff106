//! A scene that is run in threads, and its report.
ghost use Rattle.std.specs.Prelude.{◌≡◌};
ghost use Rattle.dmc_text.specs.Watching.{stream_of};
ghost use Rattle.dmc_tool.specs.RunReports.{ReportNoted, RunsOn, RunsScene};
ghost use Rattle.dmc_tool.specs.internal.RunReports.{WritesReport, WritesFaultReport};
ghost use Rattle.dmc_tool.specs.declared.run_scene.RunSceneFault.TheVariants.{Memory};

use crate::progress::Progress;
use crate::run_report::report_text;
use crate::verdicts::check_all;
use dmc_driver::fault::DriveFault;
use dmc_driver::moments::StepClock;
use dmc_driver::run::run_cluster;
use dmc_driver::service::{Job, ServeFault, Service};
use dmc_ratio::ratio::RatioTag;
use dmc_scene::scene::Scene;
use dmc_settle::report::ClusterReport;
use dmc_tag::tag::Tag;
use dmc_text::send::send;
use dmc_text::watched::Watched;
use dmc_tick::tick::TickTag;
use dmc_types::config::TagKind;
use std::alloc::{AllocError, Global};
use std::io::Write;
use std::sync::Wait;
use std::sync::atomic::Ordering;
use std::thread::Threads;

/// The reason why a run did not end with all of it done and reported.
#[derive(Clone, Copy, Debug, PartialEq, Eq)]
pub enum RunSceneFault {
    /// An allocation failed, before any thread was started or for the report's text.
    Memory,
    /// What was set up and what came back are parts of different set-ups.
    Torn,
    /// The report can't be written.
    Write,
    /// The report is written: not all was done, and some worker took its last turn.
    TurnsOut,
    /// The report is written: not all was done, and no worker took its last turn.
    Stopped,
}

impl From<AllocError> for RunSceneFault {
    ghost from_gives = { λ _ fault. fault ≡ Memory };

    fn from(_: AllocError) -> RunSceneFault {
        RunSceneFault::Memory
    }
}

/// A service that does each job by counting it.
#[derive(Drop)]
struct CountingService<'a> {
    progress: &'a Progress,
}

impl Service for CountingService<'_> {
    fn serve(&self, _job: &Job) -> Result<(), ServeFault> {
        self.progress.requests.fetch_add(1, Ordering::SeqCst);
        Ok(())
    }
}

/// Runs a scene in threads, at the moments of a clock that advances by the scene's step, and writes the report.
pub fn run_scene<R: Threads + Wait + Sync, W: Write>(
    rt: &R,
    alloc: Global,
    scene: &Scene,
    progress: &Progress,
    writer: &mut Watched<W>,
) -> Result<(), RunSceneFault>
    ensures bytes { RunsScene scene.now (W.contents (stream_of writer.old)) (W.contents (stream_of writer.new)) result }
    ensures note { ReportNoted writer.old writer.new result }
{
    match scene.tags() {
        TagKind::Tick => run_on::<TickTag, R, W>(rt, alloc, scene, progress, writer),
        TagKind::Ratio => run_on::<RatioTag, R, W>(rt, alloc, scene, progress, writer),
    }
}

/// Runs a scene on tags of this type.
fn run_on<T: Tag + Send + Sync, R: Threads + Wait + Sync, W: Write>(
    rt: &R,
    alloc: Global,
    scene: &Scene,
    progress: &Progress,
    writer: &mut Watched<W>,
) -> Result<(), RunSceneFault>
    ensures bytes { RunsOn T.ops scene.now (W.contents (stream_of writer.old)) (W.contents (stream_of writer.new)) result }
    ensures note { ReportNoted writer.old writer.new result }
{
    let clock = StepClock::new(scene.step());
    let service = CountingService { progress };
    match run_cluster::<T, R, CountingService<'_>, StepClock>(rt, alloc, scene, &service, &clock) {
        Ok(report) => write_report(rt, alloc, scene, &report, writer),
        Err(fault) => write_fault_report(rt, alloc, scene, fault, writer),
    }
}

/// Writes the report of a run that was not done, if it has one, and returns why it was not.
fn write_fault_report<T: Tag + Sync, R: Threads + Sync, W: Write>(
    rt: &R,
    alloc: Global,
    scene: &Scene,
    fault: DriveFault<T>,
    writer: &mut Watched<W>,
) -> Result<(), RunSceneFault>
    ensures bytes { WritesFaultReport T.ops scene.now fault (W.contents (stream_of writer.old)) (W.contents (stream_of writer.new)) result }
    ensures note { ReportNoted writer.old writer.new result }
{
    match fault {
        DriveFault::Memory => Err(RunSceneFault::Memory),
        DriveFault::Torn => Err(RunSceneFault::Torn),
        DriveFault::TurnsOut(report) => {
            write_report(rt, alloc, scene, &report, writer)?;
            Err(RunSceneFault::TurnsOut)
        }
        DriveFault::Stopped(report) => {
            write_report(rt, alloc, scene, &report, writer)?;
            Err(RunSceneFault::Stopped)
        }
    }
}

/// Writes the text of a report.
fn write_report<T: Tag + Sync, R: Threads + Sync, W: Write>(
    rt: &R,
    alloc: Global,
    scene: &Scene,
    report: &ClusterReport<T>,
    writer: &mut Watched<W>,
) -> Result<(), RunSceneFault>
    ensures bytes { WritesReport T.ops scene.now report.now (W.contents (stream_of writer.old)) (W.contents (stream_of writer.new)) result }
    ensures note { ReportNoted writer.old writer.new result }
{
    let verdicts = check_all(rt, alloc, scene.config(), &report.servers)?;
    let text = report_text(alloc, scene.has_costs(), report, &verdicts)?;
    if !send(text.as_bytes(), writer) {
        return Err(RunSceneFault::Write);
    }
    Ok(())
}
