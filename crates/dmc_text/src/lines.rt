//! The lines of a reader, which are read in pieces into one buffer.
ghost use Rattle.std.specs.Prelude.{◌≡◌, ◌≢◌, ℕ, List, false, ◌+◌, ◌-◌, ◌<◌, ◌≤◌, [], length, take, drop, slice_range, IfOk, IfErr, OnErr, MatchResult, vec_len, nat_lt};
ghost use Rattle.std.specs.Io.KnownBytes.{Keeps, Consumes, IsAtEnd, ReadConsumes};
ghost use Rattle.std.specs.IoError.{error_kind};
ghost use Rattle.dmc_types.specs.Limits.{max_line_bytes};
ghost use Rattle.dmc_text.specs.Reading.{Reading, buffer_size, max_bytes, Finds, FindsLast, Fills};
ghost use Rattle.dmc_text.specs.Watching.{stream_of, IsNoted, FillsNoted};

use crate::line::MAX_LINE_BYTES;
use crate::watched::Watched;
use crate::word::first_of;
use std::alloc::{AllocError, Global};
use std::io::{self, ErrorKind, Read};
use std::marker::Model;

/// The size of the buffer in bytes.
const CAPACITY: usize = 1 << 16;

/// The greatest length of a text in bytes.
const MOST: u64 = 1 << 32;

/// Reads the lines of a text. Contracts see the line that was found last, what is read and not yet returned, how many bytes may
/// be read after that, and how many were read.
#[derive(Drop)]
pub struct LineReader {
    buffer: Vec<u8>,
    line_start: usize,
    line_end: usize,
    start: usize,
    end: usize,
    taken: u64,
}

impl Model for LineReader {
    ghost use Rattle.std.specs.Prelude.{◌≡◌, ◌≤◌, ◌-◌, length, slice_range};
    ghost use Rattle.dmc_text.specs.Reading.{Reading, buffer_size, max_bytes};

    ghost Value = { Reading };

    ghost view = { λ r. record { line = slice_range r.buffer.items r.line_start r.line_end; rest = slice_range r.buffer.items r.start r.end; room = buffer_size - r.end; taken = r.taken } };

    ghost invariant = { λ r. (length r.buffer.items ≡ buffer_size) × (r.line_start ≤ r.line_end) × (r.line_end ≤ buffer_size) × (r.start ≤ r.end) × (r.end ≤ buffer_size) × (r.taken ≤ max_bytes) };
}

/// A buffer of zeros.
fn zeros(alloc: Global) -> Result<Vec<u8>, AllocError>
    ensures { IfOk result (λ buffer. vec_len buffer ≡ buffer_size) }
{
    let mut buffer = Vec::with_capacity(alloc, CAPACITY)?;
    buffer.resize(CAPACITY, 0)?;
    Ok(buffer)
}

impl LineReader {
    /// A reader of lines that has read nothing yet.
    pub fn new(alloc: Global) -> Result<LineReader, AllocError>
        ensures { IfOk result (λ r. r ≡ record { line = []; rest = []; room = buffer_size; taken = 0 }) }
    {
        Ok(LineReader {
            buffer: zeros(alloc)?,
            line_start: 0,
            line_end: 0,
            start: 0,
            end: 0,
            taken: 0,
        })
    }

    /// The line that was found last, without its LF.
    pub fn line(&self) -> &[u8]
        ensures { result.now ≡ self.now.line }
    {
        &self.buffer[self.line_start..self.line_end]
    }

    /// What is read and not yet returned.
    fn rest(&self) -> &[u8]
        ensures { result.now ≡ self.now.rest }
    {
        &self.buffer[self.start..self.end]
    }

    /// Finds the next whole line in what is read.
    pub fn find(&mut self) -> bool
        ensures { Finds self.old self.new result }
    {
        let Some(len) = first_of(self.rest(), b'\n') else {
            return false;
        };
        self.line_start = self.start;
        self.line_end = self.start + len;
        self.start = self.line_end + 1;
        true
    }

    /// Finds the last line of a text that is read to its end, if it lacks its LF.
    pub fn find_last(&mut self) -> bool
        ensures { FindsLast self.old self.new result }
    {
        if self.start == self.end {
            return false;
        }
        self.line_start = self.start;
        self.line_end = self.end;
        self.start = self.end;
        true
    }

    /// Whether what is left has more bytes than a line may have.
    pub fn is_long(&self) -> bool
        ensures value { result ≡ nat_lt max_line_bytes (length self.now.rest) }
    {
        self.end - self.start > MAX_LINE_BYTES
    }

    /// Moves what is left to the front of the buffer.
    fn move_to_front(&mut self)
        ensures rest { self.new.rest ≡ self.old.rest }
        ensures room { self.new.room ≡ buffer_size - length self.old.rest }
        ensures taken { self.new.taken ≡ self.old.taken }
    {
        self.buffer.copy_within(self.start..self.end, 0);
        self.end -= self.start;
        self.start = 0;
        self.line_start = 0;
        self.line_end = 0;
    }

    /// Reads more of the text after what is left. Returns false at its end. A text of more than 2^32 bytes is an error once they
    /// are read. The line that was found last is not kept.
    pub fn fill<R: Read>(&mut self, reader: &mut Watched<R>) -> io::Result<bool>
        requires { length self.old.rest ≤ max_line_bytes }
        ensures bytes { Fills (R.remaining (stream_of reader.old)) (R.remaining (stream_of reader.new)) self.old self.new result }
        ensures taken { self.new.taken ≤ max_bytes }
        ensures retried { IfErr result (λ e. error_kind e ≢ ErrorKind.Interrupted) }
        ensures note { FillsNoted R.remaining self.old.taken reader.old reader.new result }
    {
        self.move_to_front();
        if self.taken == MOST {
            return reads_too_much(reader);
        }
        let most = MOST - self.taken;
        match read_at(reader, &mut self.buffer, self.end, most) {
            Ok(0) => Ok(false),
            Ok(n) => {
                self.end += n;
                self.taken += n as u64;
                Ok(true)
            }
            Err(fault) => Err(fault),
        }
    }
}

/// Reads at most this many bytes into the buffer, from an index on.
fn read_at<R: Read>(
    reader: &mut Watched<R>,
    buffer: &mut Vec<u8>,
    at: usize,
    most: u64,
) -> io::Result<usize>
    requires { at ≤ vec_len buffer.old }
    ensures len { vec_len buffer.new ≡ vec_len buffer.old }
    ensures front { take at buffer.new.items ≡ take at buffer.old.items }
    ensures bound { IfOk result (λ n. (n ≤ most) × (at + n ≤ vec_len buffer.new)) }
    ensures bytes { MatchResult result
        (λ n. Consumes (R.remaining (stream_of reader.old)) (R.remaining (stream_of reader.new)) (take n (drop at buffer.new.items)))
        (λ _. Keeps (R.remaining (stream_of reader.old)) (R.remaining (stream_of reader.new))) }
    ensures retried { IfErr result (λ e. error_kind e ≢ ErrorKind.Interrupted) }
    ensures end { IfOk result (λ n. n ≡ 0 → at < vec_len buffer.old → 0 < most → IsAtEnd (R.remaining (stream_of reader.new))) }
    ensures note { IsNoted reader.old reader.new result }
{
    let room = buffer.len() - at;
    let most = room.min(usize::try_from(most).unwrap_or(room));
    reader.read(&mut buffer[at..at + most])
}

/// Reads until the buffer is full or the reader at its end. Returns how many bytes were read; they are at the front.
pub fn read_text<R: Read>(reader: &mut Watched<R>, buffer: &mut Vec<u8>) -> io::Result<usize>
    ensures len { vec_len buffer.new ≡ vec_len buffer.old }
    ensures within { IfOk result (λ n. n ≤ vec_len buffer.old) }
    ensures bytes { IfOk result (λ n. Consumes (R.remaining (stream_of reader.old)) (R.remaining (stream_of reader.new)) (take n buffer.new.items)) }
    ensures end { IfOk result (λ n. n < vec_len buffer.old → IsAtEnd (R.remaining (stream_of reader.new))) }
    ensures err { OnErr result
        ((bytes : List ℕ) × Consumes (R.remaining (stream_of reader.old)) (R.remaining (stream_of reader.new)) bytes × (length bytes ≤ vec_len buffer.old)) }
    ensures note { IsNoted reader.old reader.new result }
{
    let mut len = 0;
    while len < buffer.len() {
        match read_at(reader, buffer, len, MOST)? {
            0 => return Ok(len),
            n => len += n,
        }
    }
    Ok(len)
}

/// Whether a text that has all the bytes that it may have goes on. Then it is an error.
fn reads_too_much<R: Read>(reader: &mut Watched<R>) -> io::Result<bool>
    ensures bytes { MatchResult result (λ more. (more ≡ false) × IsAtEnd (R.remaining (stream_of reader.new)) × Keeps (R.remaining (stream_of reader.old)) (R.remaining (stream_of reader.new)))
        (λ _. (bytes : List ℕ) × Consumes (R.remaining (stream_of reader.old)) (R.remaining (stream_of reader.new)) bytes × (length bytes ≤ 1)) }
    ensures retried { IfErr result (λ e. error_kind e ≢ ErrorKind.Interrupted) }
    ensures note { FillsNoted R.remaining max_bytes reader.old reader.new result }
{
    let mut one = [0];
    if reader.read(&mut one)? > 0 {
        return Err(io::Error::from(ErrorKind::FileTooLarge));
    }
    Ok(false)
}
