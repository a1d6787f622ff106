//! Runs of the program in the tests: what they read, and what they have to write. The capacity for all that is written is
//! reserved before a run, so that an allocation failure is never reported as a failed write.
ghost use Rattle.std.specs.Prelude.{⊤};

use crate::same::assert_same;
use dmc_text::watched::Watched;
use dmc_tool::inputs::Inputs;
use dmc_tool::progress::Progress;
use dmc_tool::tool::run_tool;
use std::alloc::{AllocError, Global};
use std::convert::AsStr;
use std::io::{self, Read, Write};
use std::process::Abort;
use std::sync::Wait;
use std::test::Fail;
use std::thread::Threads;

/// More bytes than any run of the tests writes.
pub const ROOM: usize = 4096;

/// The lines of a text, each with its LF. In the text they are separated by `; `.
pub fn lines(alloc: Global, text: &str) -> Result<Vec<u8>, AllocError> {
    if text.is_empty() {
        return Ok(Vec::new(alloc));
    }
    let mut bytes = Vec::with_capacity(alloc, text.len() + 1)?;
    let mut was_end = false;
    for byte in text.as_bytes() {
        match *byte {
            b';' => bytes.push(b'\n')?,
            b' ' if was_end => {}
            byte => bytes.push(byte)?,
        }
        was_end = *byte == b';';
    }
    bytes.push(b'\n')?;
    Ok(bytes)
}

/// The files that a run finds: one of this name, with these bytes.
#[derive(Clone, Copy)]
pub struct OneFile<'a> {
    pub name: &'a str,
    pub bytes: &'a [u8],
}

impl<'a> Inputs for OneFile<'a> {
    type Input = &'a [u8];

    ghost is_opened = { λ _ _ _. ⊤ };

    ghost is_refused = { λ _ _. ⊤ };

    fn open(&self, name: &str) -> io::Result<&'a [u8]> {
        if name != self.name {
            return Err(io::Error::from(io::ErrorKind::NotFound));
        }
        Ok(self.bytes)
    }
}

/// A file that no run names.
pub const UNNAMED: OneFile<'static> = OneFile {
    name: "",
    bytes: b"",
};

/// Runs the program on these words over these streams, watched, and returns its status. No test relies on what the contract says
/// of the streams.
fn status_of<
    T: AllocGlobal + Threads + Wait + Sync,
    I: Inputs,
    S: AsStr,
    R: Read,
    W: Write,
    E: Write + Send,
>(rt: &T, inputs: &I, words: &[S], reader: &mut R, writer: &mut W, fault_writer: &mut E) -> u8 {
    run_tool(
        rt,
        inputs,
        words,
        &Progress::new(),
        &mut Watched::new(reader),
        &mut Watched::new(writer),
        &mut Watched::new(fault_writer),
    )
}

/// Runs the program on these words, checks the text of its fault, and returns its status. An allocation failure is an error.
pub fn status_with_fault<T: AllocGlobal + Threads + Wait + Sync + Abort, R: Read, W: Write>(
    rt: &T,
    words: &[&str],
    reader: &mut R,
    writer: &mut W,
    fault: &[u8],
) -> Result<u8, Fail> {
    status_on_file(rt, &UNNAMED, words, reader, writer, fault)
}

/// The same, if there is a file that the words may name.
fn status_on_file<T: AllocGlobal + Threads + Wait + Sync + Abort, R: Read, W: Write>(
    rt: &T,
    file: &OneFile<'_>,
    words: &[&str],
    reader: &mut R,
    writer: &mut W,
    fault: &[u8],
) -> Result<u8, Fail> {
    let mut observed = Vec::with_capacity(rt.alloc(), ROOM)?;
    let status = status_of(rt, file, words, reader, writer, &mut observed);
    if observed.as_slice().starts_with(b"dmclock: memory\n") {
        return Err(AllocError.into());
    }
    assert_same(rt, &observed.as_slice(), &fault);
    Ok(status)
}

/// Runs the program on these words and bytes, and checks all that it writes and its status. An allocation failure is an error.
pub fn runs<T: AllocGlobal + Threads + Wait + Sync + Abort>(
    rt: &T,
    words: &[&str],
    input: &[u8],
    output: &[u8],
    fault: &[u8],
    status: u8,
) -> Result<(), Fail> {
    let mut reader = input;
    let mut written = Vec::with_capacity(rt.alloc(), ROOM)?;
    let ended = status_with_fault(rt, words, &mut reader, &mut written, fault)?;
    assert_same(rt, &written.as_slice(), &output);
    assert_same(rt, &ended, &status);
    Ok(())
}

/// Runs the program on these words and this file, with an input that fails at each read, and checks all that it writes and its
/// status. An allocation failure is an error.
pub fn runs_on_file<T: AllocGlobal + Threads + Wait + Sync + Abort>(
    rt: &T,
    file: &OneFile<'_>,
    words: &[&str],
    output: &[u8],
    fault: &[u8],
    status: u8,
) -> Result<(), Fail> {
    let mut reader = FailingReader::new(b"", 0);
    let mut written = Vec::with_capacity(rt.alloc(), ROOM)?;
    let ended = status_on_file(rt, file, words, &mut reader, &mut written, fault)?;
    assert_same(rt, &written.as_slice(), &output);
    assert_same(rt, &ended, &status);
    Ok(())
}

/// Returns its bytes one at a time, and fails in place of the n-th read.
#[derive(Drop)]
pub struct FailingReader<'a> {
    bytes: &'a [u8],
    left: usize,
}

impl<'a> FailingReader<'a> {
    /// A reader of these bytes that fails after this many reads.
    pub fn new(bytes: &'a [u8], left: usize) -> FailingReader<'a> {
        FailingReader { bytes, left }
    }
}

impl<'a> Read for FailingReader<'a> {
    fn read(&mut self, buffer: &mut [u8]) -> io::Result<usize> {
        if self.left == 0 {
            return Err(io::Error::from(io::ErrorKind::Other));
        }
        self.left -= 1;
        match (self.bytes.split_first(), buffer.first_mut()) {
            (Some((first, rest)), Some(place)) => {
                *place = *first;
                self.bytes = rest;
                Ok(1)
            }
            _ => Ok(0),
        }
    }
}

/// Takes a byte at a time, and fails in place of the n-th write, or at a flush.
#[derive(Drop)]
pub struct FailingWriter {
    written: Vec<u8>,
    left: usize,
    is_flushed: bool,
}

impl FailingWriter {
    /// A writer that takes this many bytes and then fails. Its capacity is reserved here.
    pub fn new(alloc: Global, left: usize) -> Result<FailingWriter, AllocError> {
        let written = Vec::with_capacity(alloc, ROOM)?;
        Ok(FailingWriter {
            written,
            left,
            is_flushed: true,
        })
    }

    /// A writer that takes all and fails at a flush.
    pub fn unflushed(alloc: Global) -> Result<FailingWriter, AllocError> {
        let written = Vec::with_capacity(alloc, ROOM)?;
        Ok(FailingWriter {
            written,
            left: ROOM,
            is_flushed: false,
        })
    }

    /// What it took.
    pub fn written(&self) -> &[u8] {
        self.written.as_slice()
    }
}

impl Write for FailingWriter {
    fn write(&mut self, bytes: &[u8]) -> io::Result<usize> {
        if self.left == 0 {
            return Err(io::Error::from(io::ErrorKind::Other));
        }
        self.left -= 1;
        match bytes.first() {
            None => Ok(0),
            Some(byte) => {
                self.written.push(*byte)?;
                Ok(1)
            }
        }
    }

    fn flush(&mut self) -> io::Result<()> {
        if self.is_flushed {
            return Ok(());
        }
        Err(io::Error::from(io::ErrorKind::Other))
    }
}

/// Runs a command over bytes of which this many are read before a read fails: that fault, and what is written before it.
pub fn fails_to_read<T: AllocGlobal + Threads + Wait + Sync + Abort>(
    rt: &T,
    command: &str,
    input: &[u8],
    left: usize,
    output: &[u8],
) -> Result<(), Fail> {
    let mut reader = FailingReader::new(input, left);
    let mut written = Vec::with_capacity(rt.alloc(), ROOM)?;
    let (words, fault) = ([command], b"dmclock: read\n");
    let status = status_with_fault(rt, words.as_slice(), &mut reader, &mut written, fault)?;
    assert_same(rt, &written.as_slice(), &output);
    assert_same(rt, &status, &1);
    Ok(())
}

/// Runs a command whose writer fails: that fault, and what the writer took before it.
pub fn fails_to_write<T: AllocGlobal + Threads + Wait + Sync + Abort>(
    rt: &T,
    command: &str,
    input: &[u8],
    mut writer: FailingWriter,
    output: &[u8],
) -> Result<(), Fail> {
    let mut reader = input;
    let (words, fault) = ([command], b"dmclock: write\n");
    let status = status_with_fault(rt, words.as_slice(), &mut reader, &mut writer, fault)?;
    assert_same(rt, &writer.written(), &output);
    assert_same(rt, &status, &1);
    Ok(())
}

/// Runs a command whose writer fails in place of each write of a byte in turn.
pub fn fails_at_each_write<T: AllocGlobal + Threads + Wait + Sync + Abort>(
    rt: &T,
    command: &str,
    input: &[u8],
    output: &[u8],
) -> Result<(), Fail> {
    for left in 0..output.len() {
        let writer = FailingWriter::new(rt.alloc(), left)?;
        fails_to_write(rt, command, input, writer, &output[..left])?;
    }
    Ok(())
}

/// Runs a command over streams that take a byte at a time: it writes all of its output.
pub fn runs_byte_by_byte<T: AllocGlobal + Threads + Wait + Sync + Abort>(
    rt: &T,
    command: &str,
    input: &[u8],
    output: &[u8],
) -> Result<(), Fail> {
    let mut reader = FailingReader::new(input, input.len() + 1);
    let mut writer = FailingWriter::new(rt.alloc(), output.len())?;
    let words = [command];
    let status = status_with_fault(rt, words.as_slice(), &mut reader, &mut writer, b"")?;
    assert_same(rt, &writer.written(), &output);
    assert_same(rt, &status, &0);
    Ok(())
}

/// Is interrupted before each read, or before each write.
#[derive(Drop)]
pub struct Interrupted<S> {
    stream: S,
    is_ready: bool,
}

impl<S> Interrupted<S> {
    /// The stream, interrupted.
    pub fn new(stream: S) -> Interrupted<S> {
        Interrupted {
            stream,
            is_ready: false,
        }
    }

    /// What is interrupted.
    pub fn stream(&self) -> &S {
        &self.stream
    }

    // Every other turn is an interruption.
    fn turn(&mut self) -> io::Result<()> {
        self.is_ready = !self.is_ready;
        if self.is_ready {
            return Err(io::Error::from(io::ErrorKind::Interrupted));
        }
        Ok(())
    }
}

impl<S: Read> Read for Interrupted<S> {
    fn read(&mut self, buffer: &mut [u8]) -> io::Result<usize> {
        self.turn()?;
        self.stream.read(buffer)
    }
}

impl<S: Write> Write for Interrupted<S> {
    fn write(&mut self, bytes: &[u8]) -> io::Result<usize> {
        self.turn()?;
        self.stream.write(bytes)
    }

    fn flush(&mut self) -> io::Result<()> {
        self.stream.flush()
    }
}
