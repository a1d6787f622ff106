//! The worked examples of scripts, each under its name, by subject. Lines are separated by `; `.
mod clients;
mod grants;
mod streams;
mod tags;
mod texts;

use crate::queues::over_queues;
use crate::runs::{lines, runs};
use dmc_text::cause::LineCause;
use dmc_text::script::ScriptFault;
use std::process::Abort;
use std::sync::Wait;
use std::test::Fail;
use std::thread::Threads;

/// An example whose rates have whole spacings means the same with either tag type.
const BOTH: &[&str] = &["tick", "ratio"];

/// A script that writes these lines and no fault, with each of the tag types, over the reference queue, the indexed queue over
/// sorted vectors, and the program's own queue over heaps.
fn gives<T: AllocGlobal + Threads + Wait + Sync + Abort>(
    rt: &T,
    tags: &[&str],
    input: &str,
    output: &str,
) -> Result<(), Fail> {
    let input = lines(rt.alloc(), input)?;
    let output = lines(rt.alloc(), output)?;
    for kind in tags {
        over_queues(rt, kind, &input, &output, Ok(()))?;
        let words = ["script", "--tags", kind];
        runs(rt, words.as_slice(), &input, &output, b"", 0)?;
    }
    Ok(())
}

/// A script whose line of this number is faulty for this cause: what it writes, and the fault, over the same queues.
fn faults<T: AllocGlobal + Threads + Wait + Sync + Abort>(
    rt: &T,
    input: &[u8],
    output: &[u8],
    number: u64,
    cause: LineCause,
) -> Result<(), Fail> {
    let word = match cause {
        LineCause::Bytes => "bytes",
        LineCause::Hz => "hz",
        LineCause::Words => "words",
        LineCause::Number => "number",
    };
    let fault = format!(in rt.alloc(); "dmclock: line {number} {word}\n")?;
    for kind in BOTH {
        over_queues(
            rt,
            kind,
            input,
            output,
            Err(ScriptFault::Line(number, cause)),
        )?;
        let words = ["script", "--tags", kind];
        runs(rt, words.as_slice(), input, output, fault.as_bytes(), 1)?;
    }
    Ok(())
}

/// A script.
pub const AT_LIMIT: &[u8] =
    b"hz 1000\nclient 1 10 1 20 0\nadd 1 7 1 1 0\npull 0\npull 50\npull 50\n";

/// What is written for it.
pub const AT_LIMIT_OUT: &[u8] = b"ok\ntags 100 50 1000\nfuture 50\ngrant 1 7 priority\nnone\n";
