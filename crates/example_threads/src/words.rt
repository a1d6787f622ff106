//! The words of an example's command line.
use anyhow::{Result, bail};
use std::env;

/// How many requests each client makes if no word says it.
const REQUESTS: u32 = 5_000;

/// What the words ask for: how many requests each client makes, and how many milliseconds are between two reports, of which there
/// are none if it is 0.
#[derive(Clone, Copy)]
pub struct Words {
    pub requests: u32,
    pub report: u64,
}

/// Reads the words `[REQUESTS [MILLISECONDS]]`.
pub fn read_words(rt: &HostRuntime) -> Result<Words> {
    let words: Vec<String> = env::args(rt)?.skip(1).collect(rt.alloc())?;
    let (requests, report) = match words.as_slice() {
        [] => (REQUESTS, 0),
        [requests] => (requests.as_str().parse()?, 0),
        [requests, report] => (requests.as_str().parse()?, report.as_str().parse()?),
        _ => bail!("expected at most two words: REQUESTS MILLISECONDS"),
    };
    Ok(Words { requests, report })
}
