//! The texts of events and of segments, written.
ghost use Rattle.std.specs.Prelude.{OnOk};
ghost use Rattle.std.specs.Io.KnownBytes.{Appends};
ghost use Rattle.std.specs.List.{AllByRecursion};
ghost use Rattle.dmc_text.specs.Replies.{tag_text};
ghost use Rattle.dmc_check.specs.SegmentTexts.{IsEventAgain, IsSegmentAgain, events_text, segment_text};

use dmc_ledger::setup::Setup;
use dmc_queue_history::laws::segment_replays;
use dmc_queue_history::list::EventList;
use dmc_queue_history::segment::Segment;
use dmc_text::tag::TagText;
use dmc_text::write_line::{write_event, write_header};
use std::io;

/// Writes the lines of events, in order. If the writer fails, a part of them may have been written.
pub fn write_events<T: TagText, L: EventList<T>, W: io::Write>(
    events: &L,
    out: &mut W,
) -> io::Result<()>
    ensures text { OnOk result
        (Appends (W.contents out.old) (W.contents out.new) (events_text (tag_text T.numerator T.denominator) (L.events events.now))) }
    ensures again { OnOk result (AllByRecursion (IsEventAgain T.made (tag_text T.numerator T.denominator)) (L.events events.now)) }
{
    for index in 0..events.count() {
        if let Some(event) = events.event_at(index) {
            write_event(&event, out)?;
        }
    }
    Ok(())
}

/// Writes a segment as an event text has it: its header, and the lines of its events. If the writer fails, a part of it may have
/// been written.
pub fn write_segment<T: TagText, S: Setup, W: io::Write>(
    segment: &Segment<T, S>,
    out: &mut W,
) -> io::Result<()>
    ensures text { OnOk result
        (Appends (W.contents out.old) (W.contents out.new) (segment_text (tag_text T.numerator T.denominator) segment.now)) }
    ensures again { OnOk result (IsSegmentAgain T.made (tag_text T.numerator T.denominator) segment.now) }
{
    segment_replays(segment);
    write_header(segment.server(), segment.first(), out)?;
    write_events(segment.events(), out)
}
