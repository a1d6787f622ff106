//! The command `script`.
ghost use Rattle.std.specs.Prelude.{◌≡◌};
ghost use Rattle.dmc_text.specs.Replies.{tag_text};
ghost use Rattle.dmc_text.specs.Texts.{RunsAs};
ghost use Rattle.dmc_text.specs.Watching.{stream_of, SendsNoted};
ghost use Rattle.dmc_tool.specs.Faults.{fault_of_script};
ghost use Rattle.dmc_tool.specs.Runs.{RunsScript};

use crate::fault::Fault;
use crate::makers::HeapMaker;
use dmc_ratio::ratio::RatioTag;
use dmc_text::script::{ScriptFault, run_script};
use dmc_text::tag::TagText;
use dmc_text::watched::Watched;
use dmc_tick::tick::TickTag;
use dmc_types::config::TagKind;
use std::alloc::Global;
use std::io::{Read, Write};

impl From<ScriptFault> for Fault {
    ghost from_gives = { λ script fault. fault ≡ fault_of_script script };

    fn from(fault: ScriptFault) -> Fault {
        match fault {
            ScriptFault::Line(number, cause) => Fault::Line { number, cause },
            ScriptFault::Read => Fault::Read,
            ScriptFault::Write => Fault::Write,
            ScriptFault::Memory => Fault::Memory,
        }
    }
}

/// Runs a script on a queue of tags of this kind.
pub fn run_on<R: Read, W: Write>(
    alloc: Global,
    tags: TagKind,
    reader: &mut Watched<R>,
    writer: &mut Watched<W>,
) -> Result<(), ScriptFault>
    ensures bytes { RunsScript tags (R.remaining (stream_of reader.old)) (R.remaining (stream_of reader.new)) (W.contents (stream_of writer.old)) (W.contents (stream_of writer.new)) result }
    ensures notes { SendsNoted R.remaining 0 reader.old reader.new writer.old writer.new result }
{
    match tags {
        TagKind::Tick => run_on_heaps::<TickTag, R, W>(alloc, reader, writer),
        TagKind::Ratio => run_on_heaps::<RatioTag, R, W>(alloc, reader, writer),
    }
}

/// Runs a script on an indexed queue over heaps.
fn run_on_heaps<T: TagText, R: Read, W: Write>(
    alloc: Global,
    reader: &mut Watched<R>,
    writer: &mut Watched<W>,
) -> Result<(), ScriptFault>
    ensures bytes { RunsAs T.ops (tag_text T.numerator T.denominator) (R.remaining (stream_of reader.old)) (R.remaining (stream_of reader.new)) (W.contents (stream_of writer.old)) (W.contents (stream_of writer.new)) result }
    ensures notes { SendsNoted R.remaining 0 reader.old reader.new writer.old writer.new result }
{
    run_script::<T, HeapMaker, R, W>(alloc, &mut HeapMaker { alloc }, reader, writer)
}
