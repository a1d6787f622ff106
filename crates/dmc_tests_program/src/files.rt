//! Runs on a file that the words name, those of the version, and faults that are explained.
use crate::event_examples::{PULLS, PULLS_VERDICT};
use crate::examples::{AT_LIMIT, AT_LIMIT_OUT};
use crate::runs::{FailingWriter, OneFile, fails_to_write, runs_on_file};
use dmc_tool::version::VERSION;
use std::process::Abort;
use std::sync::Wait;
use std::test::Fail;
use std::thread::Threads;

#[test]
fn file_in_place_of_input(rt: HostRuntime) -> Result<(), Fail> {
    for (words, bytes, output) in [
        (["script", "at_limit"], AT_LIMIT, AT_LIMIT_OUT),
        (["check", "pulls"], PULLS, PULLS_VERDICT),
    ] {
        let file = OneFile {
            name: words[1],
            bytes,
        };
        runs_on_file(&rt, &file, words.as_slice(), output, b"", 0)?;
    }
    Ok(())
}

#[test]
fn missing_file(rt: HostRuntime) -> Result<(), Fail> {
    let file = OneFile {
        name: "scene",
        bytes: b"",
    };
    for command in ["script", "check", "sim", "run"] {
        let words = [command, "other"];
        runs_on_file(&rt, &file, words.as_slice(), b"", b"dmclock: read\n", 1)?;
    }
    let fault = b"dmclock: scene missing hz\n";
    runs_on_file(&rt, &file, ["sim", "scene"].as_slice(), b"", fault, 1)
}

/// A usage fault of these words, which is explained by this line.
fn is_unlike<T: AllocGlobal + Threads + Wait + Sync + Abort>(
    rt: &T,
    words: &[&str],
    line: &str,
) -> Result<(), Fail> {
    let file = OneFile {
        name: "",
        bytes: b"",
    };
    let usage = "usage: dmclock script|check [--tags tick|ratio] | sim | run";
    let fault = format!(in rt.alloc(); "{usage}\n{line}")?;
    runs_on_file(rt, &file, words, b"", fault.as_bytes(), 2)
}

#[test]
fn explained_usage(rt: HostRuntime) -> Result<(), Fail> {
    is_unlike(&rt, &["script", "--tags", "whole"], "")?;
    is_unlike(
        &rt,
        &["script", "--tags", "whole", "--explain"],
        "dmclock: unlike the usage from the word --tags\n",
    )?;
    is_unlike(
        &rt,
        &["sim", "one", "other", "--explain"],
        "dmclock: unlike the usage from the word other\n",
    )?;
    is_unlike(
        &rt,
        &["--explain"],
        "dmclock: unlike the usage from the word --explain\n",
    )
}

#[test]
fn explained_faults(rt: HostRuntime) -> Result<(), Fail> {
    let file = OneFile {
        name: "text",
        bytes: b"hz 1000\npull 01\n",
    };
    let number = b"dmclock: line 2 number\n\
                   dmclock: line 2: expected a number in digits, without a leading 0, that fits its type\n";
    let words = ["script", "--explain", "text"];
    runs_on_file(&rt, &file, words.as_slice(), b"", number, 1)?;
    let key =
        b"dmclock: scene missing hz\ndmclock: key hz: expected an integer from 1 to 1000000000\n";
    let file = OneFile {
        name: "text",
        bytes: b"servers = 3\n",
    };
    let words = ["sim", "text", "--explain"];
    runs_on_file(&rt, &file, words.as_slice(), b"", key, 1)?;
    let file = OneFile {
        name: "text",
        bytes: PULLS,
    };
    let words = ["check", "text", "--explain"];
    runs_on_file(&rt, &file, words.as_slice(), PULLS_VERDICT, b"", 0)
}

#[test]
fn version(rt: HostRuntime) -> Result<(), Fail> {
    let file = OneFile {
        name: "",
        bytes: b"",
    };
    let words = ["--version"];
    let line = format!(in rt.alloc(); "dmclock {VERSION}\n")?;
    runs_on_file(&rt, &file, words.as_slice(), line.as_bytes(), b"", 0)?;
    for left in 0..line.len() {
        let writer = FailingWriter::new(rt.alloc(), left)?;
        fails_to_write(&rt, "--version", b"", writer, &line.as_bytes()[..left])?;
    }
    Ok(())
}
