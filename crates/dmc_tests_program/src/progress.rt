//! Lines of progress: whatever is written, and the status, is as without them.
use crate::examples::{AT_LIMIT, AT_LIMIT_OUT};
use crate::runs::{FailingWriter, ROOM, UNNAMED};
use crate::same::assert_same;
use dmc_text::watched::Watched;
use dmc_tool::progress::{Counted, Progress};
use dmc_tool::tool::run_tool;
use std::io::{self, Read, Write};
use std::process::Abort;
use std::sync::Wait;
use std::test::Fail;
use std::thread::{self, Threads};
use std::time::{Clock, Duration};

/// A reader that gives its bytes at once, and sleeps before each later read, for longer than a second also on a busy machine.
#[derive(Drop)]
struct Slow<'a, C> {
    rt: &'a C,
    bytes: &'a [u8],
    is_begun: bool,
}

impl<C: Clock> Read for Slow<'_, C> {
    fn read(&mut self, buffer: &mut [u8]) -> io::Result<usize> {
        if self.is_begun {
            thread::sleep(self.rt, Duration::from_secs(5));
        }
        self.is_begun = true;
        self.bytes.read(buffer)
    }
}

/// Runs a command with `--progress` on bytes that come slowly. Returns its status.
fn status_of<T: AllocGlobal + Threads + Wait + Sync + Clock, W: Write, E: Write + Send>(
    rt: &T,
    command: &str,
    bytes: &[u8],
    writer: &mut W,
    fault_writer: &mut E,
) -> u8 {
    let progress = Progress::new();
    let slow = Slow {
        rt,
        bytes,
        is_begun: false,
    };
    run_tool(
        rt,
        &UNNAMED,
        [command, "--progress"].as_slice(),
        &progress,
        &mut Watched::new(Counted::new(slow, &progress)),
        &mut Watched::new(writer),
        &mut Watched::new(fault_writer),
    )
}

/// What is left of a text without the lines of this kind at its front, of which there is one or more.
fn behind<'a, A: Abort>(rt: &A, text: &'a [u8], line: &[u8]) -> &'a [u8] {
    assert!(rt; text.starts_with(line));
    let mut rest = text;
    for _ in 0..ROOM {
        match rest.strip_prefix(line) {
            None => return rest,
            Some(more) => rest = more,
        }
    }
    rest
}

/// A command writes lines of progress, and then this fault. Its output and its status are these.
fn shows<T: AllocGlobal + Threads + Wait + Sync + Abort + Clock>(
    rt: &T,
    command: &str,
    bytes: &[u8],
    output: &[u8],
    line: &[u8],
    fault: &[u8],
    status: u8,
) -> Result<(), Fail> {
    let mut written = Vec::with_capacity(rt.alloc(), ROOM)?;
    let mut observed = Vec::with_capacity(rt.alloc(), ROOM)?;
    let ended = status_of(rt, command, bytes, &mut written, &mut observed);
    assert_same(rt, &ended, &status);
    assert_same(rt, &written.as_slice(), &output);
    assert_same(rt, &behind(rt, &observed, line), &fault);
    Ok(())
}

#[test]
fn progress_of_texts(rt: HostRuntime) -> Result<(), Fail> {
    let line = b"dmclock: progress: 2 lines read\n".as_slice();
    let fault = b"dmclock: line 3 number\n".as_slice();
    let script = b"hz 1000\npull 0\npull x".as_slice();
    shows(&rt, "script", script, b"none\n", line, fault, 1)?;
    let events = b"hz 1000\n1 pull 0 = none\n".as_slice();
    shows(&rt, "check", events, b"replays 1\n", line, b"", 0)
}

/// What is counted of a scene begins with its first round or request.
#[test]
fn progress_of_scenes(rt: HostRuntime) -> Result<(), Fail> {
    let fault = b"dmclock: scene missing hz\n".as_slice();
    let rounds = b"dmclock: progress: 0 rounds simulated\n".as_slice();
    shows(&rt, "sim", b"servers = 1\n", b"", rounds, fault, 1)?;
    let requests = b"dmclock: progress: 0 requests served\n".as_slice();
    shows(&rt, "run", b"servers = 1\n", b"", requests, fault, 1)
}

#[test]
fn progress_not_written(rt: HostRuntime) -> Result<(), Fail> {
    let mut written = Vec::with_capacity(rt.alloc(), ROOM)?;
    let mut failing = FailingWriter::new(rt.alloc(), 5)?;
    let ended = status_of(&rt, "script", AT_LIMIT, &mut written, &mut failing);
    assert_same(&rt, &ended, &0);
    assert_same(&rt, &written.as_slice(), &AT_LIMIT_OUT);
    assert_same(&rt, &failing.written(), &b"dmclo".as_slice());
    Ok(())
}
