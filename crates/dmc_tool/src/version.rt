//! The program's version.
ghost use Rattle.dmc_tool.specs.Runs.{WritesVersion};

use crate::fault::{Fault, FaultText};
use crate::fault_line::send_text;
use crate::outcome::Outcome;
use dmc_text::watched::Watched;
use std::io::Write;

/// The version of the program, as the file `VERSION` of the repository has it.
pub const VERSION: &str = "0.2.0";

/// Writes the version as one line.
pub(crate) fn write_version<W: Write>(writer: &mut Watched<W>) -> Result<Outcome, Fault>
    ensures { WritesVersion W.contents writer.old writer.new result }
{
    let text = FaultText {
        head: "dmclock ",
        number: None,
        tail: VERSION,
    };
    if !send_text(&text, writer) {
        return Err(Fault::Write);
    }
    Ok(Outcome::Done)
}
