//! Scripts over streams that fail.
use super::{AT_LIMIT, AT_LIMIT_OUT};
use crate::runs::{fails_at_each_write, fails_to_read, runs_byte_by_byte};
use std::test::Fail;

#[test]
fn failing_reader(rt: HostRuntime) -> Result<(), Fail> {
    let input = b"hz 1000\nclient 1 - 1 - 0\npu";
    fails_to_read(&rt, "script", input, input.len(), b"ok\n")
}

/// What is written for the whole lines of the script at a limit once at least this many of its bytes are read.
const ANSWERED: [(usize, &[u8]); 6] = [
    (0, b""),
    (27, b"ok\n"),
    (41, b"ok\ntags 100 50 1000\n"),
    (48, b"ok\ntags 100 50 1000\nfuture 50\n"),
    (56, b"ok\ntags 100 50 1000\nfuture 50\ngrant 1 7 priority\n"),
    (64, AT_LIMIT_OUT),
];

/// What is written for the whole lines of its first bytes, this many.
fn answered(len: usize) -> &'static [u8] {
    let mut out: &'static [u8] = b"";
    for (from, written) in ANSWERED {
        if from <= len {
            out = written;
        }
    }
    out
}

#[test]
fn failing_reads(rt: HostRuntime) -> Result<(), Fail> {
    for left in 0..AT_LIMIT.len() + 1 {
        fails_to_read(&rt, "script", AT_LIMIT, left, answered(left))?;
    }
    Ok(())
}

#[test]
fn failing_writer(rt: HostRuntime) -> Result<(), Fail> {
    fails_at_each_write(&rt, "script", AT_LIMIT, AT_LIMIT_OUT)
}

#[test]
fn byte_by_byte(rt: HostRuntime) -> Result<(), Fail> {
    runs_byte_by_byte(&rt, "script", AT_LIMIT, AT_LIMIT_OUT)
}
