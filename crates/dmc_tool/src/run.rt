//! The command `run`.
ghost use Rattle.std.specs.Prelude.{◌≡◌, string_bytes};
ghost use Rattle.dmc_text.specs.Watching.{stream_of};
ghost use Rattle.dmc_tool.specs.Faults.{fault_of_run};
ghost use Rattle.dmc_tool.specs.Notes.{ReportNoted};
ghost use Rattle.dmc_tool.specs.Remarks.{RemarksOn};
ghost use Rattle.dmc_tool.specs.SceneRuns.{RunsRun};

use crate::fault::Fault;
use crate::outcome::Outcome;
use crate::progress::Progress;
use crate::run_scene::{RunSceneFault, run_scene};
use crate::scenes::scene_of;
use dmc_text::watched::Watched;
use std::alloc::Global;
use std::io::{Read, Write};
use std::sync::Wait;
use std::thread::Threads;

impl From<RunSceneFault> for Fault {
    ghost from_gives = { λ run fault. fault ≡ fault_of_run run };

    fn from(fault: RunSceneFault) -> Fault {
        match fault {
            RunSceneFault::Memory => Fault::Memory,
            RunSceneFault::Torn => Fault::Torn,
            RunSceneFault::Write => Fault::Write,
            RunSceneFault::TurnsOut => Fault::TurnsOut,
            RunSceneFault::Stopped => Fault::Stopped,
        }
    }
}

/// Runs the scene that is read in threads, and writes the report. If the run was not done, that is reported after the report.
/// Each request that is served is counted. If an explanation is asked for, the keys of the scene that are ignored are remarked.
pub fn run_on<X: Threads + Wait + Sync, R: Read, W: Write>(
    rt: &X,
    alloc: Global,
    is_explained: bool,
    progress: &Progress,
    reader: &mut Watched<R>,
    writer: &mut Watched<W>,
    remarks: &mut String,
) -> Result<Outcome, Fault>
    ensures bytes { RunsRun (R.remaining (stream_of reader.old)) (R.remaining (stream_of reader.new)) (W.contents (stream_of writer.old)) (W.contents (stream_of writer.new)) result }
    ensures notes { ReportNoted reader.old reader.new writer.old writer.new result }
    ensures remarks { RemarksOn is_explained (R.remaining (stream_of reader.old)) (R.remaining (stream_of reader.new)) result (string_bytes remarks.old) (string_bytes remarks.new) }
{
    let scene = scene_of(alloc, is_explained, reader, remarks)?;
    run_scene(rt, alloc, &scene, progress, writer)?;
    Ok(Outcome::Done)
}
