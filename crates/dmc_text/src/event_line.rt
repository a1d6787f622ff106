//! The lines of an event text.
ghost use Rattle.std.specs.Prelude.{◌≡◌, ⊤};
ghost use Rattle.std.specs.Option.{option_map};
ghost use Rattle.dmc_text.specs.Answers.{Gives};
ghost use Rattle.dmc_text.specs.Commands.{command, seen};
ghost use Rattle.dmc_text.specs.Words.{words};
ghost use Rattle.dmc_text.specs.Replies.{seen_reply};
ghost use Rattle.dmc_text.specs.EventLines.{answer_words, comment, event_words, event_said, event_of, header_of, header_said, header_words, names_header, sure};
ghost use Rattle.dmc_text.specs.internal.EventLines.{seen_event};

use crate::cause::LineCause;
use crate::command::{CommandWords, command_words, next_word, read_command};
use crate::line::{LineKind, read_kind};
use crate::number::{read_u32, read_u64};
use crate::reply::{ReplyWords, reply_said, reply_words};
use crate::tag::TagText;
use crate::word::{first_word, spells};
use dmc_tag::event::Event;
use dmc_types::command::Command;
use dmc_types::config::QueueConfig;
use dmc_types::ids::{ServerId, WorkerId};
use std::alloc::AllocError;

/// The meaning of a line.
#[derive(Copy)]
pub enum EventLine<T> {
    /// It is ignored: it has no word, or its first begins with `#` and it is no header of a segment.
    Skip,
    /// The configuration of the queue.
    Config(QueueConfig),
    /// The header of a segment: whose queue it is, and the number of its first event, which is the number of events before.
    Segment { server: ServerId, first: u64 },
    /// A worker's command, and the recorded reply.
    Event(Event<T>),
}

impl<T: Copy> Clone for EventLine<T> {
    ghost is_clone = { λ x y. y ≡ x };

    ghost is_infallible = { λ _. ⊤ };

    fn clone(&self) -> Result<EventLine<T>, AllocError> {
        Ok(*self)
    }
}

/// An event whose words are not yet read as numbers or tags.
#[derive(Clone, Copy)]
struct EventWords<'a> {
    worker: &'a [u8],
    command: CommandWords<'a>,
    reply: ReplyWords<'a>,
}

/// The words of the reply, after the command: `=`, and a reply up to the end of the line.
#[tactic(auto, unfolding(crate::specs::EventLines::answer_words))]
fn answer_words(text: &[u8]) -> Result<ReplyWords<'_>, LineCause>
    ensures { Gives seen_reply result (answer_words (words text.now)) }
{
    let (sign, rest) = next_word(text)?;
    if !spells(sign, b"=") {
        return Err(LineCause::Words);
    }
    reply_words(rest)
}

/// The words of an event's line. The only cause is `Words`.
#[tactic(auto, unfolding(crate::specs::EventLines::event_words))]
fn event_words(line: &[u8]) -> Result<EventWords<'_>, LineCause>
    ensures { Gives seen_event result (event_words (words line.now)) }
{
    let (worker, rest) = next_word(line)?;
    let (command, rest) = command_words(rest)?;
    let reply = answer_words(rest)?;
    Ok(EventWords {
        worker,
        command,
        reply,
    })
}

/// The command of words. A value that a script would refuse is no number.
fn sure_command(words: CommandWords<'_>) -> Result<Command, LineCause>
    ensures { result ≡ sure (command (seen words.entry)) }
{
    read_command(words).map_err(|_| LineCause::Number)
}

/// The event of words: each number and each tag is read.
#[tactic(auto, unfolding(crate::specs::EventLines::event_said))]
fn read_event<T: TagText>(words: EventWords<'_>) -> Result<Event<T>, LineCause>
    ensures { result ≡ event_said T.made (seen_event words.entry) }
{
    let worker = WorkerId(read_u32(words.worker).ok_or(LineCause::Number)?);
    let command = sure_command(words.command)?;
    let reply = reply_said(words.reply)?;
    Ok(Event {
        worker,
        command,
        reply,
    })
}

/// Whether three words are those that name a segment's header.
fn names_header(sign: &[u8], server: &[u8], first: &[u8]) -> bool
    ensures { result ≡ names_header sign.now server.now first.now }
{
    spells(sign, b"#") && spells(server, b"server") && spells(first, b"first")
}

/// The third and the fifth of the words of a segment's header.
#[tactic(auto, unfolding(crate::specs::EventLines::header_words))]
fn header_words(line: &[u8]) -> Option<(&[u8], &[u8])>
    ensures { option_map (λ x. (x.0.now, x.1.now)) result ≡ header_words (words line.now) }
{
    let (sign, rest) = first_word(line)?;
    let (server, rest) = first_word(rest)?;
    let (number, rest) = first_word(rest)?;
    let (first, rest) = first_word(rest)?;
    let (count, rest) = first_word(rest)?;
    if first_word(rest).is_some() || !names_header(sign, server, first) {
        return None;
    }
    Some((number, count))
}

/// The header of a segment, of its two numbers.
#[tactic(auto, unfolding(crate::specs::EventLines::header_said))]
fn header_said(server: &[u8], first: &[u8]) -> Option<(ServerId, u64)>
    ensures { result ≡ header_said (server.now, first.now) }
{
    let server = ServerId(read_u32(server)?);
    Some((server, read_u64(first)?))
}

/// The header of a segment in a line: the server, and the number of the first event.
fn read_header(line: &[u8]) -> Option<(ServerId, u64)>
    ensures { result ≡ header_of (words line.now) }
{
    let (server, first) = header_words(line)?;
    header_said(server, first)
}

/// The meaning of a line that has no word, or whose first begins with `#`.
fn read_comment<T>(line: &[u8], has_config: bool) -> Result<EventLine<T>, LineCause>
    ensures { result ≡ comment has_config (header_of (words line.now)) }
{
    match read_header(line) {
        None => Ok(EventLine::Skip),
        Some((server, first)) if has_config => Ok(EventLine::Segment { server, first }),
        Some(_) => Err(LineCause::Hz),
    }
}

/// The meaning of a line of an event text, without its LF. `has_config`: an `hz` line was read before.
pub fn read_event_line<T: TagText>(line: &[u8], has_config: bool) -> Result<EventLine<T>, LineCause>
    ensures { result ≡ event_of T.made has_config line.now }
{
    match read_kind(line, has_config)? {
        LineKind::Skip => read_comment(line, has_config),
        LineKind::Config(config) => Ok(EventLine::Config(config)),
        LineKind::Command => Ok(EventLine::Event(read_event(event_words(line)?)?)),
    }
}
