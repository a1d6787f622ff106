//! What is proved of segments, as calls that do nothing.
ghost use Rattle.std.specs.Prelude.{◌≡◌, ◌++◌, IsTrue, drop};
ghost use Rattle.dmc_tag.specs.Replay.{replays};

use crate::segment::Segment;
use dmc_ledger::setup::Setup;
use dmc_tag::tag::Tag;

/// The history up to a segment's end replays.
pub fn segment_replays<T: Tag, S: Setup>(segment: &Segment<T, S>)
    ensures { replays T.ops segment.now.config segment.now.history }
{
    let _ = &segment.config;
}
