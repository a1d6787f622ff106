//! Registrations, updates, removals, cancels and cleans.
use super::{BOTH, gives};
use std::process::Abort;
use std::sync::Wait;
use std::test::Fail;
use std::thread::Threads;

#[test]
fn unknown_and_known(rt: HostRuntime) -> Result<(), Fail> {
    gives(
        &rt,
        BOTH,
        "hz 1000; add 5 1 1 1 0; client 1 - 1 - 0; client 1 - 2 - 0",
        "refused unknown; ok; refused known",
    )
}

#[test]
fn dropped_requests(rt: HostRuntime) -> Result<(), Fail> {
    gives(
        &rt,
        BOTH,
        "hz 1000; client 1 - 1 - 0; add 1 1 1 0 0; add 1 2 1 0 0; drop 1; drop 1; add 1 3 1 0 0",
        "ok; tags - 0 1000; tags - 0 2000; dropped 2; dropped 0; tags - 0 3000",
    )
}

/// Four requests of a client with a limit, one of which comes later.
const FOUR: &str =
    "hz 1000; client 1 - 1 10 0; add 1 11 1 1 0; add 1 12 1 1 0; add 1 13 1 1 0; add 1 14 1 1 250";

/// What is written for it.
const FOUR_TAGS: &str = "ok; tags - 100 1000; tags - 200 2000; tags - 300 3000; tags - 400 4000";

/// The four requests, and then these lines.
fn after_four<T: AllocGlobal + Threads + Wait + Sync + Abort>(
    rt: &T,
    input: &str,
    output: &str,
) -> Result<(), Fail> {
    let input = format!(in rt.alloc(); "{FOUR}; {input}")?;
    let output = format!(in rt.alloc(); "{FOUR_TAGS}; {output}")?;
    gives(rt, BOTH, input.as_str(), output.as_str())
}

#[test]
fn cancelled(rt: HostRuntime) -> Result<(), Fail> {
    after_four(
        &rt,
        "cancel 1 12 others; pull 100; pull 200; pull 299; cancel 1 14 others; add 1 15 1 1 299",
        "dropped 1; grant 1 11 priority; grant 1 13 priority; future 300; dropped 1; tags - 350 3000",
    )
}

#[test]
fn cancelled_all(rt: HostRuntime) -> Result<(), Fail> {
    after_four(
        &rt,
        "cancel 1 12 all; pull 100; pull 200; pull 299; pull 300",
        "dropped 1; grant 1 11 priority; future 300; future 300; grant 1 13 priority",
    )
}

#[test]
fn cancelled_idle_between(rt: HostRuntime) -> Result<(), Fail> {
    gives(
        &rt,
        BOTH,
        "hz 1000; client 1 - 1 10 0; add 1 11 1 1 0; add 1 12 1 1 200; add 1 13 1 1 200; cancel 1 12 others; \
         cancel 1 11 others; pull 250; pull 300",
        "ok; tags - 100 1000; tags - 200 2000; tags - 300 3000; dropped 1; dropped 1; future 300; \
         grant 1 13 priority",
    )
}

#[test]
fn cancels_refused(rt: HostRuntime) -> Result<(), Fail> {
    after_four(
        &rt,
        "cancel 2 11 all; cancel 1 15 others; cancel 1 11 all; cancel 1 11 all",
        "refused unknown; dropped 0; dropped 1; dropped 0",
    )
}

#[test]
fn idle_then_erased(rt: HostRuntime) -> Result<(), Fail> {
    gives(
        &rt,
        BOTH,
        "hz 1000 100 1000; client 1 - 1 - 0; clean 100; add 1 1 0 0 100; pull 100; clean 199; clean 200; \
         clean 1099; clean 1100; add 1 2 0 0 1100",
        "ok; cleaned 0 0; tags - 100 100; grant 1 1 priority; cleaned 0 0; cleaned 1 0; cleaned 0 0; \
         cleaned 0 1; refused unknown",
    )
}

#[test]
fn updates(rt: HostRuntime) -> Result<(), Fail> {
    gives(
        &rt,
        &["tick"],
        "hz 1000; client 1 - 1 - 0; add 1 1 1 0 0; update 1 - 2 - 0; add 1 2 1 0 0; update 1 10 2 - 0; \
         drop 1; update 1 10 2 - 0; add 1 3 1 1 0; update 1 - 3 - 0; update 2 - 1 - 0",
        "ok; tags - 0 1000; updated; tags - 0 1500; refused busy; dropped 2; updated; tags 100 0 2000; \
         refused inexact weight; refused unknown",
    )
}
