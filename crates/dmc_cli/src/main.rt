//! The program `dmclock`.
#![tactic(auto)]

use dmc_text::watched::Watched;
use dmc_tool::fault::Fault;
use dmc_tool::fault_line::write_fault;
use dmc_tool::inputs::SystemFiles;
use dmc_tool::progress::{Counted, Progress};
use dmc_tool::tool::run_tool;
use std::io::ErrorKind;
use std::process::ExitCode;
use std::{env, io};

/// Runs what the program's words ask for, on the standard streams.
fn main(rt: HostRuntime) -> ExitCode {
    let mut fault_writer = Watched::new(rt.stderr());
    let words = match program_words(&rt) {
        Ok(words) => words,
        Err(fault) => return ExitCode::from(write_fault(fault, &mut fault_writer)),
    };
    let progress = Progress::new();
    let mut reader = Watched::new(Counted::new(rt.reader(), &progress));
    let mut writer = Watched::new(io::writer(&rt));
    let status = run_tool(
        &rt,
        &SystemFiles::new(&rt, &progress),
        words.as_slice(),
        &progress,
        &mut reader,
        &mut writer,
        &mut fault_writer,
    );
    ExitCode::from(status)
}

/// The words after the program's name. A word that is no UTF-8 is a usage fault.
fn program_words(rt: &HostRuntime) -> Result<Vec<String>, Fault> {
    let all = env::args(rt).map_err(words_fault)?;
    all.skip(1).collect(rt.alloc()).map_err(|_| Fault::Memory)
}

/// The program's fault for one of the system's words.
fn words_fault(fault: io::Error) -> Fault {
    match fault.kind() {
        ErrorKind::OutOfMemory => Fault::Memory,
        _ => Fault::Usage,
    }
}
