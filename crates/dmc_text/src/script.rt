//! Scripts: each line's command is carried out, and its reply written.
ghost use Rattle.std.specs.Prelude.{◌≡◌, ◌++◌, ◌∷◌, List, OnOk, OnErr, Err, is_some};
ghost use Rattle.std.specs.Option.{option_map};
ghost use Rattle.dmc_tag.specs.State.{opening};
ghost use Rattle.dmc_tag.specs.Step.{step};
ghost use Rattle.dmc_text.specs.Lines.{line_of};
ghost use Rattle.dmc_text.specs.Replies.{reply_text, tag_text};
ghost use Rattle.dmc_text.specs.Texts.{with_line_end, value_text, has_config_after, written, RunsAs};
ghost use Rattle.dmc_text.specs.Walks.{IsCut};
ghost use Rattle.dmc_text.specs.Watching.{stream_of, SendsNoted};
ghost use Rattle.dmc_text.specs.internal.ScriptLines.{Answers};
ghost use Rattle.dmc_text.specs.internal.Runs.{answer_text, settled_of};
ghost use Rattle.dmc_text.specs.LineLaws.{long_line};

use crate::cause::LineCause;
use crate::line::{Line, read_line};
use crate::send::send;
use crate::tag::TagText;
use crate::walk::{TakesLines, Walk};
use crate::watched::Watched;
use crate::write::write_reply;
use dmc_tag::reply::Reply;
use dmc_tag::scheduler::Scheduler;
use dmc_tag::tag::Tag;
use dmc_types::command::Command;
use dmc_types::config::QueueConfig;
use dmc_types::refusal::ValueFault;
use std::alloc::{AllocError, Global};
use std::io::{Read, Write};
use thiserror::Error;

/// Makes the queue of a script, when its `hz` line is read.
pub trait QueueMaker<T: Tag> {
    /// The kind of its queues.
    type Queue: Scheduler<T> + Drop;

    /// A queue in the opening state of a configuration.
    fn make(&mut self, config: QueueConfig) -> Self::Queue
        ensures { Self.Queue.state result ≡ opening T.ops config };
}

/// The text of a refused value.
fn value_text(fault: ValueFault) -> &'static [u8]
    ensures { result.now ≡ value_text fault }
{
    match fault {
        ValueFault::Moment => b"refused moment",
        ValueFault::Params => b"refused params",
        ValueFault::Cost => b"refused cost",
        ValueFault::Rate => b"refused rate",
        ValueFault::Config => b"refused config",
    }
}

/// Adds a line with these bytes. If the allocation fails, nothing is left to write.
fn put_line(text: &[u8], out: &mut Vec<u8>) -> Result<(), AllocError>
    ensures ok { OnOk result (out.new.items ≡ out.old.items ++ with_line_end text.now) }
    ensures err { OnErr result (IsCut out.old.items out.new.items) }
{
    if out.extend_from_slice(text).is_err() || out.push(b'\n').is_err() {
        out.clear();
        return Err(AllocError);
    }
    Ok(())
}

/// Adds the line of a reply. If the allocation fails, nothing is left to write.
fn put_reply<T: TagText>(reply: &Reply<T>, out: &mut Vec<u8>) -> Result<(), AllocError>
    ensures ok { OnOk result (out.new.items ≡ out.old.items ++ with_line_end (reply_text (tag_text T.numerator T.denominator) reply.now)) }
    ensures err { OnErr result (IsCut out.old.items out.new.items) }
{
    if write_reply(reply, out).is_err() || out.push(b'\n').is_err() {
        out.clear();
        return Err(AllocError);
    }
    Ok(())
}

/// Carries out a command, and adds the line of its reply.
fn ask<T: TagText, Q: Scheduler<T>>(
    queue: &mut Q,
    command: &Command,
    out: &mut Vec<u8>,
) -> Result<(), AllocError>
    ensures reply { OnOk result (out.new.items ≡ out.old.items ++ with_line_end (reply_text (tag_text T.numerator T.denominator) ((step T.ops (Q.state queue.old) command.now).1))) }
    ensures state { OnOk result (Q.state queue.new ≡ (step T.ops (Q.state queue.old) command.now).0) }
    ensures err { OnErr result (IsCut out.old.items out.new.items) }
{
    let reply = queue.apply(command)?;
    put_reply(&reply, out)
}

/// The reason why a run of a script ends early.
#[derive(Clone, Copy, Debug, PartialEq, Eq, Error)]
pub enum ScriptFault {
    /// A line is faulty: its number, counted from 1, and its cause.
    #[error("line {0}: {1}")]
    Line(u64, LineCause),
    /// The reader failed, or the text has more than 2^32 bytes.
    #[error("the text cannot be read")]
    Read,
    /// The writer failed.
    #[error("the replies cannot be written")]
    Write,
    /// An allocation failed.
    #[error("out of memory")]
    Memory,
}

/// The queue of a script. There is none before the `hz` line.
#[derive(Drop)]
struct Answering<T: Tag, M: QueueMaker<T>> {
    queue: Option<M::Queue>,
}

/// Carries out a line, and adds the line of its reply.
fn carry_out<T: TagText, M: QueueMaker<T>>(
    maker: &mut M,
    queue: &mut Option<M::Queue>,
    line: Line,
    out: &mut Vec<u8>,
) -> Result<(), AllocError>
    ensures has_config { OnOk result (is_some (option_map M.Queue.state queue.new) ≡ has_config_after (is_some (option_map M.Queue.state queue.old)) line) }
    ensures out { OnOk result (out.new.items ≡ out.old.items ++ answer_text T.ops (tag_text T.numerator T.denominator) (option_map M.Queue.state queue.old) line) }
    ensures rest { OnOk result ((rest : List Line) →
        answer_text T.ops (tag_text T.numerator T.denominator) (option_map M.Queue.state queue.old) line ++ written T.ops (tag_text T.numerator T.denominator) (option_map M.Queue.state queue.new) rest
        ≡ written T.ops (tag_text T.numerator T.denominator) (option_map M.Queue.state queue.old) (line ∷ rest)) }
    ensures err { OnErr result (IsCut out.old.items out.new.items) }
{
    match line {
        Line::Skip => Ok(()),
        Line::Config(config) => {
            *queue = Some(maker.make(config));
            Ok(())
        }
        Line::Value(fault) => put_line(value_text(fault), out),
        Line::Ask(command) => match queue {
            None => Ok(()),
            Some(queue) => ask(queue, &command, out),
        },
    }
}

impl<T: TagText, M: QueueMaker<T>> TakesLines for Answering<T, M> {
    type Maker = M;

    ghost has_config = { λ s. is_some (option_map M.Queue.state s.queue) };

    ghost takes = { λ s line answer t. Answers T.ops (tag_text T.numerator T.denominator) (option_map M.Queue.state s.queue) line answer (option_map M.Queue.state t.queue) };

    ghost refuses = { λ s line cause. line_of (is_some (option_map M.Queue.state s.queue)) line ≡ Err cause };

    fn is_headed(&self) -> bool {
        self.queue.is_some()
    }

    fn take(
        &mut self,
        maker: &mut M,
        line: &[u8],
        out: &mut Vec<u8>,
    ) -> Result<Option<LineCause>, AllocError> {
        let line = match read_line(line, self.queue.is_some()) {
            Ok(line) => line,
            Err(cause) => return Ok(Some(cause)),
        };
        carry_out(maker, &mut self.queue, line, out)?;
        Ok(None)
    }

    ghost long = { λ s line. long_line (is_some (option_map M.Queue.state s.queue)) line };
}

/// The capacity for replies in bytes. They are written before more lines are read, and no reply has more than ten times the bytes
/// of its line.
const OUT: usize = 1 << 20;

/// Carries out a script: each line's command in turn, each reply a line of its own. Nothing of a line is kept. Only the two
/// buffers and the queue allocate.
pub fn run_script<T: TagText, M: QueueMaker<T>, R: Read, W: Write>(
    alloc: Global,
    maker: &mut M,
    reader: &mut Watched<R>,
    writer: &mut Watched<W>,
) -> Result<(), ScriptFault>
    ensures bytes { RunsAs T.ops (tag_text T.numerator T.denominator)
        (R.remaining (stream_of reader.old)) (R.remaining (stream_of reader.new)) (W.contents (stream_of writer.old)) (W.contents (stream_of writer.new)) result }
    ensures notes { SendsNoted R.remaining 0 reader.old reader.new writer.old writer.new result }
{
    let Ok(mut walk) = Walk::new(alloc, OUT) else {
        return Err(ScriptFault::Memory);
    };
    let mut answering: Answering<T, M> = Answering { queue: None };
    let ended = walk.run(&mut answering, maker, reader, writer);
    let is_sent = send(walk.unsent(), writer);
    settled(ended, is_sent)
}

/// The result of a run, by whether its last replies were sent.
fn settled(ended: Result<(), ScriptFault>, is_sent: bool) -> Result<(), ScriptFault>
    ensures { result ≡ settled_of ended is_sent }
{
    match ended {
        Ok(()) | Err(ScriptFault::Line(_, _)) if !is_sent => Err(ScriptFault::Write),
        ended => ended,
    }
}
