//! How failing streams end a run, for both commands, and that words which ask for no tool leave the streams alone.
use crate::event_examples::{PULLS, PULLS_VERDICT};
use crate::examples::{AT_LIMIT, AT_LIMIT_OUT};
use crate::runs::{
    FailingReader, FailingWriter, Interrupted, ROOM, fails_to_write, status_with_fault,
};
use crate::same::assert_same;
use dmc_text::watched::Watched;
use std::process::Abort;
use std::sync::Wait;
use std::test::Fail;
use std::thread::Threads;

/// A command, a text, and what is written for it.
const RUNS: [(&str, &[u8], &[u8]); 2] = [
    ("script", AT_LIMIT, AT_LIMIT_OUT),
    ("check", PULLS, PULLS_VERDICT),
];

#[test]
fn failing_flush(rt: HostRuntime) -> Result<(), Fail> {
    for (command, input, output) in RUNS {
        let writer = FailingWriter::unflushed(rt.alloc())?;
        fails_to_write(&rt, command, input, writer, output)?;
    }
    Ok(())
}

#[test]
fn interrupted_streams(rt: HostRuntime) -> Result<(), Fail> {
    for (command, input, output) in RUNS {
        let mut reader = Interrupted::new(FailingReader::new(input, input.len() + 1));
        let mut writer = Interrupted::new(FailingWriter::new(rt.alloc(), output.len())?);
        let words = [command];
        let status = status_with_fault(&rt, words.as_slice(), &mut reader, &mut writer, b"")?;
        assert_same(&rt, &writer.stream().written(), &output);
        assert_same(&rt, &status, &0);
    }
    Ok(())
}

#[test]
fn noted_failures(rt: HostRuntime) -> Result<(), Fail> {
    let mut buffer = [0; 4];
    let mut reader = Watched::new(FailingReader::new(b"ab", 3));
    for n in [1, 1, 0] {
        assert_same(&rt, &reader.read(&mut buffer)?, &n);
        assert!(&rt; !reader.has_failed());
    }
    assert!(&rt; reader.read(&mut buffer).is_err());
    assert!(&rt; reader.has_failed());
    let mut writer = Watched::new(FailingWriter::new(rt.alloc(), 1)?);
    assert_same(&rt, &writer.write(b"ab")?, &1);
    writer.flush()?;
    assert!(&rt; !writer.has_failed());
    assert!(&rt; writer.write(b"b").is_err());
    assert!(&rt; writer.has_failed());
    let mut unflushed = Watched::new(FailingWriter::unflushed(rt.alloc())?);
    assert!(&rt; unflushed.flush().is_err());
    assert!(&rt; unflushed.has_failed());
    Ok(())
}

#[test]
fn interruptions_not_noted(rt: HostRuntime) -> Result<(), Fail> {
    let mut reader = Watched::new(Interrupted::new(FailingReader::new(b"a", 2)));
    assert_same(&rt, &reader.read(&mut [0; 4])?, &1);
    assert!(&rt; !reader.has_failed());
    let mut writer = Watched::new(Interrupted::new(FailingWriter::new(rt.alloc(), 1)?));
    assert_same(&rt, &writer.write(b"a")?, &1);
    assert!(&rt; !writer.has_failed());
    Ok(())
}

#[test]
fn nothing_taken(rt: HostRuntime) -> Result<(), Fail> {
    let mut room = [0; 1];
    let mut full = Watched::new(room.as_mut_slice());
    assert_same(&rt, &full.write(b"ab")?, &1);
    assert!(&rt; !full.has_failed());
    assert!(&rt; full.write(b"b").is_err());
    assert!(&rt; full.has_failed());
    Ok(())
}

/// Words that ask for no tool: the usage fault is written, no byte is read and none written.
fn refuses<T: AllocGlobal + Threads + Wait + Sync + Abort>(
    rt: &T,
    words: &[&str],
) -> Result<(), Fail> {
    let mut reader = AT_LIMIT;
    let mut written = Vec::with_capacity(rt.alloc(), ROOM)?;
    let usage = b"usage: dmclock script|check [--tags tick|ratio] | sim | run\n";
    let status = status_with_fault(rt, words, &mut reader, &mut written, usage)?;
    assert_same(rt, &status, &2);
    assert_same(rt, &reader.len(), &AT_LIMIT.len());
    assert_same(rt, &written.len(), &0);
    Ok(())
}

/// Words that ask for no tool.
const REFUSED: [&[&str]; 12] = [
    &[],
    &["serve"],
    &["script", "--tag", "tick"],
    &["script", "--tags"],
    &["check", "--tags", "whole"],
    &["--help"],
    &["-h"],
    &["help"],
    &["script", "check", "sim"],
    &["check", "--tags", "tick", "ratio", "whole"],
    &["sim", "--tags", "tick"],
    &["run", "--tags", "tick"],
];

#[test]
fn refused_words(rt: HostRuntime) -> Result<(), Fail> {
    for words in REFUSED {
        refuses(&rt, words)?;
    }
    Ok(())
}
