//! Streams whose failures are noted. So contracts can speak of a failed read or write, of which those of the standard library say
//! nothing.
ghost use Rattle.std.specs.Prelude.{◌≡◌, ◌≢◌, ◌<◌, ◌≤◌, length, false, IfOk, IfErr};
ghost use Rattle.std.specs.Io.KnownBytes.{Keeps, ReadConsumes, WriteAppends};
ghost use Rattle.std.specs.IoError.{error_kind};
ghost use Rattle.dmc_text.specs.Watching.{stream_of, failed, IsNoted};

use std::io::{self, ErrorKind, Read, Write};

/// A stream, and a note whether a call of it failed. The note is set only by `read`, `write` and `flush`, which are the only
/// calls of the stream, and is never reset.
#[derive(Drop)]
pub struct Watched<S> {
    stream: S,
    has_failed: bool,
}

impl<S> Watched<S> {
    /// A stream, of which no call has failed yet.
    pub fn new(stream: S) -> Watched<S>
        ensures stream { stream_of result ≡ stream }
        ensures note { failed result ≡ false }
    {
        Watched {
            stream,
            has_failed: false,
        }
    }

    /// Whether a call of the stream failed.
    pub fn has_failed(&self) -> bool
        ensures { result ≡ failed self.now }
    {
        self.has_failed
    }

    /// The stream.
    pub fn stream(&self) -> &S
        ensures { result.now ≡ stream_of self.now }
    {
        &self.stream
    }
}

impl<R: Read> Watched<R> {
    /// Reads once, and again after an interruption, which is never the error and no failure. An error is noted.
    pub fn read(&mut self, buffer: &mut [u8]) -> io::Result<usize>
        ensures bound { IfOk result (λ n. n ≤ length buffer.new) }
        ensures bytes { ReadConsumes (R.remaining (stream_of self.old)) (R.remaining (stream_of self.new)) result buffer.new }
        ensures len { length buffer.new ≡ length buffer.old }
        ensures retried { IfErr result (λ e. error_kind e ≢ ErrorKind.Interrupted) }
        ensures note { IsNoted self.old self.new result }
    {
        let read = read_once(&mut self.stream, buffer);
        if read.is_err() {
            self.has_failed = true;
        }
        read
    }
}

impl<W: Write> Watched<W> {
    /// Writes once, and again after an interruption, which is never the error and no failure. An error is noted. It is one, too,
    /// if none of some bytes is taken.
    pub fn write(&mut self, bytes: &[u8]) -> io::Result<usize>
        ensures bound { IfOk result (λ n. n ≤ length bytes.now) }
        ensures some { IfOk result (λ n. 0 < length bytes.now → 0 < n) }
        ensures bytes { WriteAppends (W.contents (stream_of self.old)) (W.contents (stream_of self.new)) result bytes.now }
        ensures retried { IfErr result (λ e. error_kind e ≢ ErrorKind.Interrupted) }
        ensures note { IsNoted self.old self.new result }
    {
        let written = write_some(&mut self.stream, bytes);
        if written.is_err() {
            self.has_failed = true;
        }
        written
    }

    /// Flushes. An error is noted.
    pub fn flush(&mut self) -> io::Result<()>
        ensures bytes { Keeps (W.contents (stream_of self.old)) (W.contents (stream_of self.new)) }
        ensures note { IsNoted self.old self.new result }
    {
        let flushed = self.stream.flush();
        if flushed.is_err() {
            self.has_failed = true;
        }
        flushed
    }
}

/// Reads once, and again after an interruption, which is never the error.
fn read_once<R: Read>(stream: &mut R, buffer: &mut [u8]) -> io::Result<usize>
    ensures bound { IfOk result (λ n. n ≤ length buffer.new) }
    ensures bytes { ReadConsumes (R.remaining stream.old) (R.remaining stream.new) result buffer.new }
    ensures len { length buffer.new ≡ length buffer.old }
    ensures retried { IfErr result (λ e. error_kind e ≢ ErrorKind.Interrupted) }
{
    for _ in 0..u64::MAX {
        match stream.read(buffer) {
            Err(fault) if fault.kind() == ErrorKind::Interrupted => {}
            result => return result,
        }
    }
    Err(io::Error::from(ErrorKind::TimedOut))
}

/// Writes once, and again after an interruption, which is never the error.
fn write_once<W: Write>(stream: &mut W, bytes: &[u8]) -> io::Result<usize>
    ensures bound { IfOk result (λ n. n ≤ length bytes.now) }
    ensures bytes { WriteAppends (W.contents stream.old) (W.contents stream.new) result bytes.now }
    ensures retried { IfErr result (λ e. error_kind e ≢ ErrorKind.Interrupted) }
{
    for _ in 0..u64::MAX {
        match stream.write(bytes) {
            Err(fault) if fault.kind() == ErrorKind::Interrupted => {}
            result => return result,
        }
    }
    Err(io::Error::from(ErrorKind::TimedOut))
}

/// Writes some of the bytes. If there are some and none is taken, that is an error.
fn write_some<W: Write>(stream: &mut W, bytes: &[u8]) -> io::Result<usize>
    ensures bound { IfOk result (λ n. n ≤ length bytes.now) }
    ensures some { IfOk result (λ n. 0 < length bytes.now → 0 < n) }
    ensures bytes { WriteAppends (W.contents stream.old) (W.contents stream.new) result bytes.now }
    ensures retried { IfErr result (λ e. error_kind e ≢ ErrorKind.Interrupted) }
{
    let taken = write_once(stream, bytes)?;
    if taken == 0 && !bytes.is_empty() {
        return Err(io::Error::from(ErrorKind::WriteZero));
    }
    Ok(taken)
}
