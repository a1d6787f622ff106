//! How far a command is, and the lines that show it.
ghost use Rattle.std.specs.Prelude.{◌≡◌};
ghost use Rattle.dmc_tool.specs.FaultLine.{Sends, line_of};
ghost use Rattle.dmc_tool.specs.Progress.{WritesProgress, progress_line, unit_of};

use crate::fault::FaultText;
use crate::fault_line::send_text;
use crate::words::ToolCommand;
use dmc_text::watched::Watched;
use std::io::{self, Read, Write};
use std::sync::Wait;
use std::sync::atomic::{AtomicBool, AtomicU64, Ordering};
use std::thread::Parker;
use std::time::Duration;

/// The seconds from one line to the next.
const PERIOD: u64 = 1;

/// How far a command is: what it has counted so far, and whether it has ended. One thread runs the command, and another reads
/// these counts. Of atomics no contract can say what they hold.
#[derive(Drop)]
pub struct Progress {
    /// The LFs that were read.
    pub(crate) lines: AtomicU64,
    /// The rounds that were simulated.
    pub(crate) rounds: AtomicU64,
    /// The requests that were served.
    pub(crate) requests: AtomicU64,
    has_ended: AtomicBool,
    parker: Parker,
}

impl Progress {
    /// No command was run yet.
    pub fn new() -> Progress {
        Progress {
            lines: AtomicU64::new(0),
            rounds: AtomicU64::new(0),
            requests: AtomicU64::new(0),
            has_ended: AtomicBool::new(false),
            parker: Parker::new(),
        }
    }

    /// What a command has counted so far.
    fn count(&self, command: ToolCommand) -> u64 {
        let counter = match command {
            ToolCommand::Script | ToolCommand::Check => &self.lines,
            ToolCommand::Sim => &self.rounds,
            ToolCommand::Run => &self.requests,
        };
        counter.load(Ordering::SeqCst)
    }

    /// Notes that the command has ended, and wakes the thread that waits for that.
    pub(crate) fn end(&self) {
        self.has_ended.store(true, Ordering::SeqCst);
        self.parker.unpark();
    }

    /// Waits until the command has ended, or for the time from one line to the next. Returns whether it has ended.
    fn wait<X: Wait>(&self, rt: &X) -> bool {
        if !self.has_ended.load(Ordering::SeqCst) {
            self.parker.park_timeout(rt, Duration::from_secs(PERIOD));
        }
        self.has_ended.load(Ordering::SeqCst)
    }
}

/// A reader whose lines are counted as they are read.
#[derive(Drop)]
pub struct Counted<'a, R> {
    reader: R,
    progress: &'a Progress,
}

impl<'a, R> Counted<'a, R> {
    /// Counts the lines that are read from this reader.
    pub fn new(reader: R, progress: &'a Progress) -> Counted<'a, R>
        ensures { result.reader ≡ reader }
    {
        Counted { reader, progress }
    }
}

impl<R: Read> Read for Counted<'_, R> {
    ghost remaining = { λ counted. R.remaining counted.reader };

    fn read(&mut self, buffer: &mut [u8]) -> io::Result<usize> {
        let read = self.reader.read(buffer);
        if let Ok(len) = read {
            self.progress
                .lines
                .fetch_add(count_line_ends(&buffer[..len]), Ordering::SeqCst);
        }
        read
    }
}

/// How many LFs there are.
fn count_line_ends(bytes: &[u8]) -> u64 {
    bytes.iter().filter(|byte| **byte == b'\n').count() as u64
}

/// Writes the progress of a command: a line every second until it has ended. If the writer fails, a first part is written, and no
/// further line is tried.
pub(crate) fn write_progress<X: Wait, E: Write>(
    rt: &X,
    command: ToolCommand,
    progress: &Progress,
    writer: &mut Watched<E>,
)
    ensures { WritesProgress E.contents command writer.old writer.new }
{
    for _ in 0..u64::MAX {
        if progress.wait(rt) {
            return;
        }
        if !write_count(command, progress.count(command), writer) {
            return;
        }
    }
}

/// Writes the line of a count. Returns false if the writer fails.
fn write_count<E: Write>(command: ToolCommand, count: u64, writer: &mut Watched<E>) -> bool
    ensures { Sends E.contents (progress_line command count) writer.old writer.new result }
{
    send_text(&count_text(command, count), writer)
}

/// The text of a count.
fn count_text(command: ToolCommand, count: u64) -> FaultText<'static>
    ensures { line_of result ≡ progress_line command count }
{
    FaultText {
        head: "dmclock: progress: ",
        number: Some(count),
        tail: unit_of(command),
    }
}

/// What a command counts.
fn unit_of<'a>(command: ToolCommand) -> &'a str
    ensures { result.now ≡ unit_of command }
{
    match command {
        ToolCommand::Script | ToolCommand::Check => " lines read",
        ToolCommand::Sim => " rounds simulated",
        ToolCommand::Run => " requests served",
    }
}
