//! The texts of scripts: values out of their limits, and faulty lines.
use super::{BOTH, faults, gives};
use crate::queues::over_queues;
use crate::runs::{lines, runs};
use dmc_text::cause::LineCause;
use std::alloc::{AllocError, Global};
use std::test::Fail;

#[test]
fn moment_past_limit(rt: HostRuntime) -> Result<(), Fail> {
    gives(
        &rt,
        BOTH,
        "hz 1000; client 1 - 1 - 0; pull 4611686018427387905; add 1 1 0 0 0; pull 0",
        "ok; refused moment; tags - 0 0; grant 1 1 priority",
    )
}

#[test]
fn refused_values(rt: HostRuntime) -> Result<(), Fail> {
    gives(
        &rt,
        BOTH,
        "hz 1000; client 1 - 1 - 0; add 1 1 1 2 0; client 2 0 1 - 0; add 1 1 1 2 0 cost 0; add 1 1 1 1 0 cost 0",
        "ok; refused params; refused rate; refused params; refused cost",
    )
}

#[test]
fn empty_script(rt: HostRuntime) -> Result<(), Fail> {
    gives(&rt, BOTH, "hz 1000", "")
}

#[test]
fn no_header(rt: HostRuntime) -> Result<(), Fail> {
    faults(&rt, b"", b"", 1, LineCause::Hz)
}

#[test]
fn missing_words(rt: HostRuntime) -> Result<(), Fail> {
    let input = b"hz 1000\nclient 1 - 1 - 0\nadd 1 7 1\n";
    faults(&rt, input, b"ok\n", 3, LineCause::Words)
}

#[test]
fn last_line_without_end(rt: HostRuntime) -> Result<(), Fail> {
    let input = b"hz 1000\nclient 1 10 1 20 0\nadd 1 7 1 1 0\npull 0\npull 50\npull 50";
    let output = b"ok\ntags 100 50 1000\nfuture 50\ngrant 1 7 priority\nnone\n";
    for kind in BOTH {
        over_queues(&rt, kind, input, output, Ok(()))?;
        let words = ["script", "--tags", kind];
        runs(&rt, words.as_slice(), input, output, b"", 0)?;
    }
    Ok(())
}

/// An `hz` line and a line of this many spaces.
fn blanks(alloc: Global, n: usize) -> Result<Vec<u8>, AllocError> {
    let mut input = lines(alloc, "hz 1000")?;
    for _ in 0..n {
        input.push(b' ')?;
    }
    input.push(b'\n')?;
    Ok(input)
}

/// Scripts that write nothing, each with the number of its faulty line and the cause.
const FAULTS: [(&[u8], u64, LineCause); 11] = [
    (b"hz 1000\npull 0\r\n", 2, LineCause::Bytes),
    (b"hz 1000\npull 01\n", 2, LineCause::Number),
    (
        b"hz 1000\npull 18446744073709551616\n",
        2,
        LineCause::Number,
    ),
    (b"hz 1000\nadd 1 4294967296 0 0 0\n", 2, LineCause::Number),
    (b"hz 1000\nadd 1 1 0 0 0 price 2\n", 2, LineCause::Words),
    (b"hz 1000\nadd 1 1 0 0 0 cost\n", 2, LineCause::Words),
    (b"hz 1000\nadd 1 1 0 0 0 cost 02\n", 2, LineCause::Number),
    (b"hz 1000\nhz 1000\n", 2, LineCause::Hz),
    (b"hz 1000 100\n", 1, LineCause::Words),
    (b"hz 0\n", 1, LineCause::Hz),
    (b"hz 1000 2 1\n", 1, LineCause::Hz),
];

#[test]
fn script_faults(rt: HostRuntime) -> Result<(), Fail> {
    let most = blanks(rt.alloc(), 256)?;
    for kind in BOTH {
        over_queues(&rt, kind, &most, b"", Ok(()))?;
    }
    runs(&rt, ["script"].as_slice(), &most, b"", b"", 0)?;
    let long = blanks(rt.alloc(), 257)?;
    faults(&rt, long.as_slice(), b"", 2, LineCause::Bytes)?;
    for (input, number, cause) in FAULTS {
        faults(&rt, input, b"", number, cause)?;
    }
    Ok(())
}
