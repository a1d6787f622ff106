//! The loop over the lines of a text.
ghost use Rattle.std.specs.Prelude.{◌≡◌, ◌≤◌, ◌<◌, ◌-◌, ◌^◌, ℕ, Bool, List, None, length, IfOk};
ghost use Rattle.dmc_types.specs.Limits.{max_line_bytes};
ghost use Rattle.dmc_text.specs.declared.cause.LineCause.{LineCause};
ghost use Rattle.dmc_text.specs.declared.cause.LineCause.TheVariants.{Bytes};
ghost use Rattle.dmc_text.specs.Reading.{max_bytes, next_line};
ghost use Rattle.dmc_text.specs.Watching.{stream_of, EndsNoted};
ghost use Rattle.dmc_text.specs.Walks.{IsAnswer, Starts, Finds, EndsAs};
ghost use Rattle.dmc_text.specs.internal.Walks.{Takes, TakesLast, end_result};

use crate::cause::LineCause;
use crate::lines::LineReader;
use crate::script::ScriptFault;
use crate::send::drain;
use crate::watched::Watched;
use std::alloc::{AllocError, Global};
use std::io::{Read, Write};

/// Takes the lines of a text in turn.
pub trait TakesLines {
    /// The maker of its queue.
    type Maker;

    /// Whether an `hz` line was taken.
    ghost has_config: { Self → Bool };

    /// The next state after a line, and what is to be written for it.
    ghost takes: { Self → List ℕ → List ℕ → Self → Type 0 };

    /// Whether a line is faulty in a state, for this cause.
    ghost refuses: { Self → List ℕ → LineCause → Type 0 };

    /// Whether an `hz` line was taken.
    fn is_headed(&self) -> bool
        ensures { result ≡ has_config self.now };

    /// Takes a line, without its LF, and adds what is to be written for it. If the line is faulty, its cause is returned and
    /// nothing changes.
    fn take(
        &mut self,
        maker: &mut Self::Maker,
        line: &[u8],
        out: &mut Vec<u8>,
    ) -> Result<Option<LineCause>, AllocError>
        ensures { IsAnswer takes refuses self.old line.now self.new out.old.items out.new.items result };

    /// A line that is too long is faulty.
    ghost long: { (state : Self) (line : List ℕ) → max_line_bytes < length line → refuses state line Bytes };
}

/// The lines of a text, as far as they have been taken, and what is to be written for them.
#[derive(Drop)]
pub struct Walk {
    lines: LineReader,
    /// The number of the next line.
    number: u64,
    /// What is to be written.
    out: Vec<u8>,
}

impl Walk {
    /// A walk that has read nothing yet, with this capacity for what is to be written.
    pub fn new(alloc: Global, room: usize) -> Result<Walk, AllocError>
        ensures { IfOk result Starts }
    {
        Ok(Walk {
            lines: LineReader::new(alloc)?,
            number: 1,
            out: Vec::with_capacity(alloc, room)?,
        })
    }

    /// Finds the next whole line. While there is none, it writes what is to be written, and then reads more. Returns false at the
    /// end of the text.
    fn find<R: Read, W: Write>(
        &mut self,
        reader: &mut Watched<R>,
        writer: &mut Watched<W>,
    ) -> Result<bool, ScriptFault>
        requires { self.old.lines.taken ≤ max_bytes }
        ensures bytes { Finds (R.remaining (stream_of reader.old)) (W.contents (stream_of writer.old)) self.old (R.remaining (stream_of reader.new)) (W.contents (stream_of writer.new)) self.new result }
        ensures notes { EndsNoted R.remaining self.old.lines.taken reader.old reader.new writer.old writer.new result }
    {
        while !self.lines.find() {
            if self.lines.is_long() {
                return Err(ScriptFault::Line(self.number, LineCause::Bytes));
            }
            if drain(&mut self.out, writer).is_err() {
                return Err(ScriptFault::Write);
            }
            match self.lines.fill(reader) {
                Ok(true) => {}
                Ok(false) => return Ok(false),
                Err(_) => return Err(ScriptFault::Read),
            }
        }
        Ok(true)
    }

    /// Takes the line that was found last.
    fn take<L: TakesLines>(
        &mut self,
        taker: &mut L,
        maker: &mut L::Maker,
    ) -> Result<(), ScriptFault>
        requires { self.old.number < 2 ^ 64 - 1 }
        ensures { Takes L.takes L.refuses taker.old self.old taker.new self.new result }
    {
        match taker.take(maker, self.lines.line(), &mut self.out) {
            Ok(None) => {
                self.number += 1;
                Ok(())
            }
            Ok(Some(cause)) => Err(ScriptFault::Line(self.number, cause)),
            Err(_) => Err(ScriptFault::Memory),
        }
    }

    /// Takes the last line, if it lacks its LF.
    fn take_last<L: TakesLines>(
        &mut self,
        taker: &mut L,
        maker: &mut L::Maker,
    ) -> Result<(), ScriptFault>
        requires number { self.old.number < 2 ^ 64 - 1 }
        requires none { next_line self.old.lines.rest ≡ None }
        ensures { TakesLast L.takes L.refuses taker.old self.old taker.new self.new result }
    {
        if !self.lines.find_last() {
            return Ok(());
        }
        self.take(taker, maker)
    }

    /// Ends a text whose lines are all taken: without an `hz` line it is faulty.
    fn close<L: TakesLines>(&self, taker: &L) -> Result<(), ScriptFault>
        ensures { result ≡ end_result (L.has_config taker.now) self.now.number }
    {
        if !taker.is_headed() {
            return Err(ScriptFault::Line(self.number, LineCause::Hz));
        }
        Ok(())
    }

    /// Takes line after line, to the end of the text or to the first faulty one. What is to be written is written before more is
    /// read, and what is added last is left.
    pub fn run<L: TakesLines, R: Read, W: Write>(
        &mut self,
        taker: &mut L,
        maker: &mut L::Maker,
        reader: &mut Watched<R>,
        writer: &mut Watched<W>,
    ) -> Result<(), ScriptFault>
        requires { Starts self.old }
        ensures bytes { EndsAs L.takes L.refuses L.has_config taker.old (R.remaining (stream_of reader.old)) (W.contents (stream_of writer.old))
            taker.new (R.remaining (stream_of reader.new)) (W.contents (stream_of writer.new)) self.new result }
        ensures notes { EndsNoted R.remaining 0 reader.old reader.new writer.old writer.new result }
    {
        while self.find(reader, writer)? {
            self.take(taker, maker)?;
        }
        self.take_last(taker, maker)?;
        self.close(taker)
    }

    /// What is left to be written.
    pub fn unsent(&self) -> &[u8]
        ensures { result.now ≡ self.now.out.items }
    {
        &self.out
    }
}
