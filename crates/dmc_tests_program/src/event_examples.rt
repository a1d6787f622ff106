//! The worked examples of event texts, each under its name.
use crate::runs::{fails_at_each_write, fails_to_read, lines, runs, runs_byte_by_byte};
use std::process::Abort;
use std::sync::Wait;
use std::test::Fail;
use std::thread::Threads;

/// An event text with this verdict and this status.
fn checks<T: AllocGlobal + Threads + Wait + Sync + Abort>(
    rt: &T,
    tags: &str,
    input: &str,
    verdict: &[u8],
    status: u8,
) -> Result<(), Fail> {
    let input = lines(rt.alloc(), input)?;
    let words = ["check", "--tags", tags];
    runs(rt, words.as_slice(), &input, verdict, b"", status)
}

/// An event text that has this fault.
fn faults<T: AllocGlobal + Threads + Wait + Sync + Abort>(
    rt: &T,
    input: &str,
    fault: &[u8],
) -> Result<(), Fail> {
    let input = lines(rt.alloc(), input)?;
    runs(rt, ["check"].as_slice(), &input, b"", fault, 1)
}

#[test]
fn changed_grant(rt: HostRuntime) -> Result<(), Fail> {
    checks(
        &rt,
        "tick",
        "hz 1000; 1 client 1 - 1 - 0 = ok; 1 client 2 - 1 - 0 = ok; 1 add 1 11 1 0 0 = tags - 0 1000; \
         1 add 1 12 1 0 0 = tags - 0 2000; 1 pull 0 = grant 1 11 priority; \
         1 add 2 21 1 0 500 = tags - 500 1000; 1 pull 500 = grant 2 12 priority",
        b"differs 6\n",
        3,
    )?;
    checks(
        &rt,
        "tick",
        "hz 1000; 1 client 1 - 1 - 0 = ok; 1 client 2 - 1 - 0 = ok; 1 add 1 11 1 0 0 = tags - 0 1000; \
         1 add 1 12 1 0 0 = tags - 0 2000; 1 pull 0 = grant 1 11 priority; \
         1 add 2 21 1 0 500 = tags - 500 1000; 1 pull 500 = grant 1 12 priority",
        b"replays 7\n",
        0,
    )
}

#[test]
fn check_texts(rt: HostRuntime) -> Result<(), Fail> {
    checks(&rt, "tick", "hz 1000", b"replays 0\n", 0)?;
    checks(&rt, "tick", "hz 1000; 1 pull 0 = none", b"replays 1\n", 0)?;
    faults(&rt, "hz 1000; 1 pull 0", b"dmclock: line 2 words\n")?;
    faults(
        &rt,
        "hz 1000; 1 add 1 1 1 2 0 = ok",
        b"dmclock: line 2 number\n",
    )
}

#[test]
fn beyond_not_recorded(rt: HostRuntime) -> Result<(), Fail> {
    checks(
        &rt,
        "tick",
        "hz 1000 allow; 1 client 1 - 1 20 0 = ok; 1 add 1 7 1 0 0 = tags - 50 1000; 1 pull 0 = future 50",
        b"differs 2\n",
        3,
    )
}

// A grant has the cost of its request.
#[test]
fn costs_recorded(rt: HostRuntime) -> Result<(), Fail> {
    for (grant, verdict, status) in [
        ("grant 1 11 priority cost 4", b"replays 3\n", 0),
        ("grant 1 11 priority", b"differs 2\n", 3),
    ] {
        let input = format!(in rt.alloc();
            "hz 1000; 1 client 1 - 1 - 0 = ok; 1 add 1 11 0 0 0 cost 4 = tags - 0 0; 2 pull 0 = {grant}"
        )?;
        checks(&rt, "tick", &input, verdict, status)?;
    }
    Ok(())
}

/// Event texts, each with its fault.
const FAULTS: [(&str, &[u8]); 6] = [
    ("", b"dmclock: line 1 hz\n"),
    ("1 pull 0 = none", b"dmclock: line 1 hz\n"),
    (
        "hz 1000; 1 pull 0 = ok; 1 pull 0 = no",
        b"dmclock: line 3 words\n",
    ),
    ("hz 1000; one pull 01 = grant 1", b"dmclock: line 2 words\n"),
    ("hz 1000; one pull 0 = none", b"dmclock: line 2 number\n"),
    (
        "hz 1000; 1 add 1 1 0 0 0 cost 0 = ok",
        b"dmclock: line 2 number\n",
    ),
];

// A fault after the first difference is reported, and words are checked to the end of a line before its numbers.
#[test]
fn faults_of_events(rt: HostRuntime) -> Result<(), Fail> {
    for (input, fault) in FAULTS {
        faults(&rt, input, fault)?;
    }
    Ok(())
}

// The ratio tags of exact_thirds: they replay, one that is changed differs, and no tick tag has their text.
#[test]
fn thirds_recorded(rt: HostRuntime) -> Result<(), Fail> {
    let thirds = "hz 1000; 1 client 1 - 3 - 0 = ok; 1 add 1 1 1 0 0 = tags - 0 1000/3; \
                  2 add 1 2 1 0 0 = tags - 0 2000/3; 1 add 1 3 1 0 0 = tags - 0 1000";
    checks(&rt, "ratio", thirds, b"replays 4\n", 0)?;
    checks(
        &rt,
        "ratio",
        "hz 1000; 1 client 1 - 3 - 0 = ok; 1 add 1 1 1 0 0 = tags - 0 1000/3; 2 add 1 2 1 0 0 = tags - 0 2000/9",
        b"differs 2\n",
        3,
    )?;
    faults(&rt, thirds, b"dmclock: line 3 number\n")
}

/// An event text.
pub const PULLS: &[u8] = b"hz 1000\n1 pull 0 = none\n# again\n2 pull 7 = none\n";

/// What is written for it.
pub const PULLS_VERDICT: &[u8] = b"replays 2\n";

#[test]
fn failing_reader_of_events(rt: HostRuntime) -> Result<(), Fail> {
    for left in 0..PULLS.len() + 1 {
        fails_to_read(&rt, "check", PULLS, left, b"")?;
    }
    Ok(())
}

#[test]
fn failing_writer_of_a_verdict(rt: HostRuntime) -> Result<(), Fail> {
    fails_at_each_write(&rt, "check", PULLS, PULLS_VERDICT)
}

#[test]
fn events_byte_by_byte(rt: HostRuntime) -> Result<(), Fail> {
    runs_byte_by_byte(&rt, "check", PULLS, PULLS_VERDICT)
}
