//! The command `check`.
ghost use Rattle.dmc_text.specs.Watching.{stream_of, EndsNoted};
ghost use Rattle.dmc_tool.specs.Runs.{ChecksEvents};

use dmc_check::check::Verdict;
use dmc_check::text::check_text;
use dmc_ratio::ratio::RatioTag;
use dmc_text::script::ScriptFault;
use dmc_text::watched::Watched;
use dmc_tick::tick::TickTag;
use dmc_types::config::TagKind;
use std::alloc::Global;
use std::io::{Read, Write};

/// Checks an event text whose tags are of this kind.
pub fn check_on<R: Read, W: Write>(
    alloc: Global,
    tags: TagKind,
    reader: &mut Watched<R>,
    writer: &mut Watched<W>,
) -> Result<Verdict, ScriptFault>
    ensures bytes { ChecksEvents tags (R.remaining (stream_of reader.old)) (R.remaining (stream_of reader.new)) (W.contents (stream_of writer.old)) (W.contents (stream_of writer.new)) result }
    ensures notes { EndsNoted R.remaining 0 reader.old reader.new writer.old writer.new result }
{
    match tags {
        TagKind::Tick => check_text::<TickTag, R, W>(alloc, reader, writer),
        TagKind::Ratio => check_text::<RatioTag, R, W>(alloc, reader, writer),
    }
}
