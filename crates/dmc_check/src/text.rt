//! Checks of event texts.
ghost use Rattle.std.specs.Prelude.{◌≡◌, ◌==◌, Option, None, Some, [], Err, IfOk, OnOk, IsTrue, is_some};
ghost use Rattle.dmc_text.specs.declared.cause.LineCause.{LineCause};
ghost use Rattle.dmc_text.specs.Watching.{stream_of, EndsNoted};
ghost use Rattle.dmc_check.specs.EventTexts.{Recorded, placed, with_line, verdict_text, ChecksAs};
ghost use Rattle.dmc_check.specs.internal.TextLines.{Holds, Follows, long_event, next_line, replayed};
ghost use Rattle.dmc_check.specs.internal.Checking.{IsChecked, WritesVerdict, VerdictNoted};

use crate::check::Verdict;
use crate::replay::Replay;
use dmc_tag::tag::Tag;
use dmc_text::cause::LineCause;
use dmc_text::event_line::{EventLine, read_event_line};
use dmc_text::script::ScriptFault;
use dmc_text::send::send;
use dmc_text::tag::TagText;
use dmc_text::walk::{TakesLines, Walk};
use dmc_text::watched::Watched;
use dmc_types::config::QueueConfig;
use std::alloc::{AllocError, Global};
use std::io::{Read, Write};

/// The replay of an event text. There is none before the `hz` line.
#[derive(Drop)]
struct Checking<T: Tag> {
    replay: Option<Replay<T>>,
}

/// The result of a text: the verdict on its events, and the number of events.
#[derive(Clone, Copy)]
struct Checked {
    verdict: Verdict,
    events: usize,
}

/// How many events were replayed.
fn replayed<T: Tag>(replay: &Option<Replay<T>>) -> usize
    ensures { result ≡ replayed replay.now }
{
    match replay {
        None => 0,
        Some(replay) => replay.events(),
    }
}

/// Whether a segment whose first event has this number may come after this many events.
fn comes_after(events: usize, first: u64) -> bool
    ensures { result ≡ (first == events) }
{
    first == events as u64
}

/// A line that comes after this many events. A segment's header has to say so.
fn placed<T: Copy>(events: usize, line: EventLine<T>) -> Result<EventLine<T>, LineCause>
    ensures { result ≡ placed events line }
{
    match line {
        EventLine::Segment { first, .. } if !comes_after(events, first) => Err(LineCause::Number),
        line => Ok(line),
    }
}

/// The meaning of the next line.
fn read_next<T: TagText>(replay: &Option<Replay<T>>, line: &[u8]) -> Result<EventLine<T>, LineCause>
    ensures { result ≡ next_line T.made replay.now line.now }
{
    let line = read_event_line(line, replay.is_some())?;
    placed(replayed(replay), line)
}

/// Begins a new replay.
fn begin<T: TagText>(alloc: Global, replay: &mut Option<Replay<T>>, config: QueueConfig)
    ensures { Holds T.ops (Some (record { config = config; events = [] })) replay.new }
{
    *replay = Some(Replay::new(alloc, config));
}

/// Carries out a line.
fn carry_out<T: TagText>(
    alloc: Global,
    replay: &mut Option<Replay<T>>,
    line: EventLine<T>,
) -> Result<(), AllocError>
    ensures { OnOk result ((recorded : Option (Recorded T)) → Holds T.ops recorded replay.old → Holds T.ops (with_line recorded line) replay.new) }
{
    match line {
        EventLine::Skip => Ok(()),
        EventLine::Segment { .. } => Ok(()),
        EventLine::Config(config) => {
            begin(alloc, replay, config);
            Ok(())
        }
        EventLine::Event(event) => match replay {
            None => Ok(()),
            Some(replay) => replay.add(&event),
        },
    }
}

impl<T: TagText> TakesLines for Checking<T> {
    type Maker = Global;

    ghost has_config = { λ s. is_some s.replay };

    ghost takes = { λ s line answer t. Follows T.ops T.made s.replay line answer t.replay };

    ghost refuses = { λ s line cause. next_line T.made s.replay line ≡ Err cause };

    fn is_headed(&self) -> bool {
        self.replay.is_some()
    }

    fn take(
        &mut self,
        maker: &mut Global,
        line: &[u8],
        _out: &mut Vec<u8>,
    ) -> Result<Option<LineCause>, AllocError> {
        let line = match read_next(&self.replay, line) {
            Ok(line) => line,
            Err(cause) => return Ok(Some(cause)),
        };
        carry_out(*maker, &mut self.replay, line)?;
        Ok(None)
    }

    ghost long = { λ s line. long_event T.made s.replay line };
}

impl<T: TagText> Checking<T> {
    /// The result of the text.
    fn checked(&self) -> Checked
        requires { IsTrue (is_some self.now.replay) }
        ensures { IsChecked self.now.replay result }
    {
        let Some(replay) = &self.replay else {
            unreachable!()
        };
        Checked {
            verdict: replay.verdict(),
            events: replay.events(),
        }
    }
}

/// The line of a verdict, with its LF.
fn verdict_line(alloc: Global, checked: Checked) -> Result<Vec<u8>, AllocError>
    ensures { IfOk result (λ line. line.items ≡ verdict_text checked.verdict checked.events) }
{
    let mut line = Vec::new(alloc);
    let written = match checked.verdict {
        Verdict::Replays => write!(line, "replays {}\n", checked.events),
        Verdict::Differs(index) => write!(line, "differs {index}\n"),
    };
    if written.is_err() {
        return Err(AllocError);
    }
    Ok(line)
}

/// Writes the line of a verdict.
fn write_verdict<W: Write>(
    alloc: Global,
    checked: Checked,
    writer: &mut Watched<W>,
) -> Result<Verdict, ScriptFault>
    ensures bytes { WritesVerdict (W.contents (stream_of writer.old)) (W.contents (stream_of writer.new)) checked result }
    ensures note { VerdictNoted writer.old writer.new result }
{
    let Ok(line) = verdict_line(alloc, checked) else {
        return Err(ScriptFault::Memory);
    };
    if !send(&line, writer) {
        return Err(ScriptFault::Write);
    }
    Ok(checked.verdict)
}

/// Takes all lines of an event text in, from no event on, and writes the verdict.
fn check_lines<T: TagText, R: Read, W: Write>(
    alloc: Global,
    checking: &mut Checking<T>,
    reader: &mut Watched<R>,
    writer: &mut Watched<W>,
) -> Result<Verdict, ScriptFault>
    requires { Holds T.ops None checking.old.replay }
    ensures bytes { ChecksAs T.ops T.made (R.remaining (stream_of reader.old)) (R.remaining (stream_of reader.new)) (W.contents (stream_of writer.old)) (W.contents (stream_of writer.new)) result }
    ensures notes { EndsNoted R.remaining 0 reader.old reader.new writer.old writer.new result }
{
    let Ok(mut walk) = Walk::new(alloc, 0) else {
        return Err(ScriptFault::Memory);
    };
    let mut maker = alloc;
    walk.run(checking, &mut maker, reader, writer)?;
    write_verdict(alloc, checking.checked(), writer)
}

/// Checks an event text. Each event is replayed over an indexed queue, and the verdict is written as a line, `replays N` of N
/// events, or `differs I`. All of the text is read, also after a difference. No event is kept.
///
/// The header of a segment, `# server S first N`, that comes before or after the event N is faulty, for the cause `Number`; so a
/// text that lacks a segment is.
pub fn check_text<T: TagText, R: Read, W: Write>(
    alloc: Global,
    reader: &mut Watched<R>,
    writer: &mut Watched<W>,
) -> Result<Verdict, ScriptFault>
    ensures bytes { ChecksAs T.ops T.made (R.remaining (stream_of reader.old)) (R.remaining (stream_of reader.new)) (W.contents (stream_of writer.old)) (W.contents (stream_of writer.new)) result }
    ensures notes { EndsNoted R.remaining 0 reader.old reader.new writer.old writer.new result }
{
    let mut checking: Checking<T> = Checking { replay: None };
    check_lines(alloc, &mut checking, reader, writer)
}
