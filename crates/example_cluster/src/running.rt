//! A scene's run in threads.
ghost use Rattle.std.specs.Prelude.{OnOk, IfOk, ◌≡◌};
ghost use Rattle.dmclock_cluster.specs.Done.{IsDone};

use anyhow::bail;
use dmclock_cluster::{
    ClusterReport, DriveFault, Job, Scene, ServeFault, Service, StepClock, TickTag, run_cluster,
};
use std::alloc::Global;
use std::sync::Wait;
use std::thread::Threads;

/// A device that needs no time.
struct Instantly;

impl Service for Instantly {
    fn serve(&self, _job: &Job) -> Result<(), ServeFault> {
        Ok(())
    }
}

/// The report of a run in which every client sent and completed all of its requests.
pub fn run<R: Threads + Wait + Sync>(
    rt: &R,
    alloc: Global,
    scene: &Scene,
) -> anyhow::Result<ClusterReport<TickTag>>
    ensures { IfOk result (IsDone scene.now) }
{
    let clock = StepClock::new(scene.step());
    match run_cluster::<TickTag, R, Instantly, StepClock>(rt, alloc, scene, &Instantly, &clock) {
        Ok(report) => Ok(report),
        Err(DriveFault::Memory) => bail!("out of memory"),
        Err(DriveFault::Torn) => bail!("what the threads left does not belong together"),
        Err(DriveFault::TurnsOut(_)) => bail!("a worker took its last turn"),
        Err(DriveFault::Stopped(_)) => bail!("a worker stopped"),
    }
}
