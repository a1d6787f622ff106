//! The command `sim`.
ghost use Rattle.std.specs.Prelude.{◌≡◌, string_bytes};
ghost use Rattle.dmc_text.specs.Watching.{stream_of};
ghost use Rattle.dmc_tool.specs.Faults.{fault_of_sim};
ghost use Rattle.dmc_tool.specs.Notes.{ReportNoted};
ghost use Rattle.dmc_tool.specs.Remarks.{RemarksOn};
ghost use Rattle.dmc_tool.specs.Sims.{RunsSim, end_of_sim};

use crate::fault::Fault;
use crate::outcome::Outcome;
use crate::progress::Progress;
use crate::scenes::scene_of;
use dmc_sim::report::{SimFault, SimReport, report_text};
use dmc_sim::simulation::simulate;
use dmc_text::send::send;
use dmc_text::watched::Watched;
use std::alloc::Global;
use std::io::{Read, Write};

impl From<SimFault> for Fault {
    ghost from_gives = { λ sim fault. fault ≡ fault_of_sim sim };

    fn from(fault: SimFault) -> Fault {
        match fault {
            SimFault::Refused(_) => Fault::Range,
            SimFault::Memory => Fault::Memory,
        }
    }
}

/// Simulates the scene that is read, and writes the report. If the round limit was reached, that is reported after the report.
/// Each round is counted. If an explanation is asked for, the keys of the scene that are ignored are remarked.
pub fn simulate_on<R: Read, W: Write>(
    alloc: Global,
    is_explained: bool,
    progress: &Progress,
    reader: &mut Watched<R>,
    writer: &mut Watched<W>,
    remarks: &mut String,
) -> Result<Outcome, Fault>
    ensures bytes { RunsSim (R.remaining (stream_of reader.old)) (R.remaining (stream_of reader.new)) (W.contents (stream_of writer.old)) (W.contents (stream_of writer.new)) result }
    ensures notes { ReportNoted reader.old reader.new writer.old writer.new result }
    ensures remarks { RemarksOn is_explained (R.remaining (stream_of reader.old)) (R.remaining (stream_of reader.new)) result (string_bytes remarks.old) (string_bytes remarks.new) }
{
    let scene = scene_of(alloc, is_explained, reader, remarks)?;
    let report = simulate(alloc, &scene, &progress.rounds)?;
    let text = report_text(alloc, &report)?;
    if !send(text.as_bytes(), writer) {
        return Err(Fault::Write);
    }
    end_of(&report)
}

/// The end of a simulation, once its report is written.
fn end_of(report: &SimReport) -> Result<Outcome, Fault>
    ensures { result ≡ end_of_sim report.now }
{
    if report.turns_out {
        Err(Fault::TurnsOut)
    } else {
        Ok(Outcome::Done)
    }
}
