//! The scripts that docs/CHOOSING.md cites, each under its name and without its comments. Lines are separated by `; `.
use crate::runs::{lines, runs};
use std::process::Abort;
use std::sync::Wait;
use std::test::Fail;
use std::thread::Threads;

/// A script that writes these lines and no fault, with this kind of tags.
fn gives<T: AllocGlobal + Threads + Wait + Sync + Abort>(
    rt: &T,
    tags: &str,
    input: &str,
    output: &str,
) -> Result<(), Fail> {
    let input = lines(rt.alloc(), input)?;
    let output = lines(rt.alloc(), output)?;
    runs(
        rt,
        ["script", "--tags", tags].as_slice(),
        &input,
        &output,
        b"",
        0,
    )
}

#[test]
fn rates_in_ticks(rt: HostRuntime) -> Result<(), Fail> {
    gives(
        &rt,
        "tick",
        "hz 1000; client 1 - 3 - 0; client 1 - 4 - 0",
        "refused inexact weight; ok",
    )
}

#[test]
fn many_divisors(rt: HostRuntime) -> Result<(), Fail> {
    gives(
        &rt,
        "tick",
        "hz 720720; client 1 7 11 13 0; client 2 16 9 - 0",
        "ok; ok",
    )
}

#[test]
fn thirds(rt: HostRuntime) -> Result<(), Fail> {
    gives(
        &rt,
        "ratio",
        "hz 1000; client 1 - 3 - 0; add 1 1 1 0 0; add 1 2 1 0 0; add 1 3 1 0 0",
        "ok; tags - 0 1000/3; tags - 0 2000/3; tags - 0 1000",
    )
}

#[test]
fn small_weights(rt: HostRuntime) -> Result<(), Fail> {
    gives(
        &rt,
        "tick",
        "hz 1000; client 1 - 1 - 0; client 2 - 2 - 0; add 1 1 1 1 0; add 1 2 1 1 0; add 2 1 1 \
         1 0; add 2 2 1 1 0; pull 0; add 1 3 1 1 0; pull 100; add 2 3 1 1 100; pull 200; add \
         1 4 1 1 200; pull 300; add 2 4 1 1 300; pull 400; add 2 5 1 1 400; pull 500; add 1 5 \
         1 1 500; pull 600; add 2 6 1 1 600; pull 700; add 2 7 1 1 700; pull 800; add 1 6 1 1 \
         800; pull 900; add 2 8 1 1 900; pull 1000; add 2 9 1 1 1000; pull 1100; add 1 7 1 1 \
         1100; pull 1200; add 2 10 1 1 1200; pull 1300; add 2 11 1 1 1300; pull 1400; add 1 8 \
         1 1 1400",
        "ok; ok; tags - 0 1000; tags - 0 2000; tags - 0 500; tags - 0 1000; grant 1 1 \
         priority; tags - 0 2000; grant 2 1 priority; tags - 100 1500; grant 1 2 priority; \
         tags - 200 3000; grant 2 2 priority; tags - 300 2000; grant 2 3 priority; tags - 400 \
         2500; grant 1 3 priority; tags - 500 4000; grant 2 4 priority; tags - 600 3000; \
         grant 2 5 priority; tags - 700 3500; grant 1 4 priority; tags - 800 5000; grant 2 6 \
         priority; tags - 900 4000; grant 2 7 priority; tags - 1000 4500; grant 1 5 priority; \
         tags - 1100 6000; grant 2 8 priority; tags - 1200 5000; grant 2 9 priority; tags - \
         1300 5500; grant 1 6 priority; tags - 1400 7000",
    )
}

#[test]
fn great_weights(rt: HostRuntime) -> Result<(), Fail> {
    gives(
        &rt,
        "tick",
        "hz 1000; client 1 - 500 - 0; client 2 - 1000 - 0; add 1 1 1 1 0; add 1 2 1 1 0; add \
         2 1 1 1 0; add 2 2 1 1 0; pull 0; add 1 3 1 1 0; pull 100; add 2 3 1 1 100; pull \
         200; add 1 4 1 1 200; pull 300; add 2 4 1 1 300; pull 400; add 1 5 1 1 400; pull \
         500; add 2 5 1 1 500; pull 600; add 1 6 1 1 600; pull 700; add 2 6 1 1 700; pull \
         800; add 1 7 1 1 800; pull 900; add 2 7 1 1 900; pull 1000; add 1 8 1 1 1000; pull \
         1100; add 2 8 1 1 1100; pull 1200; add 1 9 1 1 1200; pull 1300; add 2 9 1 1 1300; \
         pull 1400; add 1 10 1 1 1400",
        "ok; ok; tags - 0 2; tags - 0 4; tags - 0 1; tags - 0 2; grant 1 1 priority; tags - 0 \
         4; grant 2 1 priority; tags - 100 100; grant 1 2 priority; tags - 200 200; grant 2 2 \
         priority; tags - 300 300; grant 1 3 priority; tags - 400 400; grant 2 3 priority; \
         tags - 500 500; grant 1 4 priority; tags - 600 600; grant 2 4 priority; tags - 700 \
         700; grant 1 5 priority; tags - 800 800; grant 2 5 priority; tags - 900 900; grant 1 \
         6 priority; tags - 1000 1000; grant 2 6 priority; tags - 1100 1100; grant 1 7 \
         priority; tags - 1200 1200; grant 2 7 priority; tags - 1300 1300; grant 1 8 \
         priority; tags - 1400 1400",
    )
}

#[test]
fn refused_for_good(rt: HostRuntime) -> Result<(), Fail> {
    gives(
        &rt,
        "ratio",
        "hz 1; client 1 - 65521 - 0; client 2 - 65519 - 0; client 3 - 3 - 0; client 4 - 1 - \
         0; client 5 - 1 - 0; add 3 1 0 0 0; pull 0; add 1 1 1 0 0; add 4 1 1 0 0; pull 0; \
         pull 0; add 2 1 1 0 0; add 5 1 1 0 0; pull 0; pull 0; pull 0; add 3 2 1 0 0; add 3 2 \
         1 0 1000000",
        "ok; ok; ok; ok; ok; tags - 0 0; grant 3 1 priority; tags - 0 1/65521; tags - 0 1; \
         grant 1 1 priority; grant 4 1 priority; tags - 0 1/65519; tags - 0 1; grant 2 1 \
         priority; grant 5 1 priority; none; refused range; refused range",
    )
}

#[test]
fn backlog_all(rt: HostRuntime) -> Result<(), Fail> {
    gives(
        &rt,
        "tick",
        "hz 1000; client 1 - 1 10 0; add 1 1 0 0 0; add 1 2 0 0 0; add 1 3 0 0 0; pull 0; \
         pull 0; pull 0",
        "ok; tags - 0 0; tags - 0 0; tags - 0 0; grant 1 1 priority; grant 1 2 priority; \
         grant 1 3 priority",
    )
}

#[test]
fn backlog_others(rt: HostRuntime) -> Result<(), Fail> {
    gives(
        &rt,
        "tick",
        "hz 1000; client 1 - 1 10 0; add 1 1 1 1 0; add 1 2 1 1 0; add 1 3 1 1 0; pull 0; \
         pull 100; pull 100; pull 200",
        "ok; tags - 100 1000; tags - 200 2000; tags - 300 3000; future 100; grant 1 1 \
         priority; future 200; grant 1 2 priority",
    )
}

#[test]
fn at_limit(rt: HostRuntime) -> Result<(), Fail> {
    gives(
        &rt,
        "tick",
        "hz 1000; client 1 10 1 20 0; add 1 7 1 1 0; pull 0; pull 50; pull 50",
        "ok; tags 100 50 1000; future 50; grant 1 7 priority; none",
    )
}

#[test]
fn beyond(rt: HostRuntime) -> Result<(), Fail> {
    gives(
        &rt,
        "tick",
        "hz 1000 allow; client 1 - 1 20 0; add 1 1 1 0 0; pull 0",
        "ok; tags - 50 1000; grant 1 1 priority beyond",
    )
}

#[test]
fn reservation_above_limit(rt: HostRuntime) -> Result<(), Fail> {
    gives(
        &rt,
        "tick",
        "hz 1000; client 1 20 1 10 0; add 1 1 1 1 0; add 1 2 1 1 0; pull 50; pull 100",
        "ok; tags 50 100 1000; tags 100 200 2000; grant 1 1 reservation; grant 1 2 reservation",
    )
}

#[test]
fn ages(rt: HostRuntime) -> Result<(), Fail> {
    gives(
        &rt,
        "tick",
        "hz 1000 100 300; client 1 - 1 - 0; add 1 1 0 0 0; pull 0; clean 99; clean 100; clean \
         299; clean 300; add 1 2 0 0 300",
        "ok; tags - 0 0; grant 1 1 priority; cleaned 0 0; cleaned 1 0; cleaned 0 0; cleaned 0 \
         1; refused unknown",
    )
}

#[test]
fn comes_back(rt: HostRuntime) -> Result<(), Fail> {
    gives(
        &rt,
        "tick",
        "hz 1000; client 1 - 1 - 0; client 2 - 1 - 0; add 1 1 1 0 0; add 1 2 1 0 0; add 1 3 1 \
         0 0; add 2 1 1 0 0; pull 0; pull 0; pull 0; pull 0",
        "ok; ok; tags - 0 1000; tags - 0 2000; tags - 0 3000; tags - 0 1000; grant 1 1 \
         priority; grant 1 2 priority; grant 2 1 priority; grant 1 3 priority",
    )
}

#[test]
fn lost_response(rt: HostRuntime) -> Result<(), Fail> {
    gives(
        &rt,
        "tick",
        "hz 1000; client 1 - 1 - 0; client 2 - 1 - 0; add 1 1 0 0 0; add 2 1 0 0 0; pull 0; \
         pull 0; add 1 2 1 0 0; add 2 2 0 0 0; pull 0; pull 0",
        "ok; ok; tags - 0 0; tags - 0 0; grant 1 1 priority; grant 2 1 priority; tags - 0 \
         1000; tags - 0 0; grant 2 2 priority; grant 1 2 priority",
    )
}

#[test]
fn response_counted(rt: HostRuntime) -> Result<(), Fail> {
    gives(
        &rt,
        "tick",
        "hz 1000; client 1 - 1 - 0; client 2 - 1 - 0; add 1 1 0 0 0; add 2 1 0 0 0; pull 0; \
         pull 0; add 1 2 1 0 0; add 2 2 1 0 0; pull 0; pull 0",
        "ok; ok; tags - 0 0; tags - 0 0; grant 1 1 priority; grant 2 1 priority; tags - 0 \
         1000; tags - 0 1000; grant 1 2 priority; grant 2 2 priority",
    )
}

#[test]
fn server_restarts(rt: HostRuntime) -> Result<(), Fail> {
    gives(
        &rt,
        "tick",
        "hz 1000; client 1 10 1 - 5000; add 1 1 3 3 5000; pull 5000",
        "ok; tags 5000 5000 5000; grant 1 1 reservation",
    )
}

#[test]
fn two_processes(rt: HostRuntime) -> Result<(), Fail> {
    gives(
        &rt,
        "tick",
        "hz 1000; client 1 - 1 - 0; add 1 1 0 0 0; add 1 2 0 0 0; pull 0; pull 0; add 1 3 1 0 \
         0; add 1 4 1 0 0",
        "ok; tags - 0 0; tags - 0 0; grant 1 1 priority; grant 1 2 priority; tags - 0 1000; \
         tags - 0 2000",
    )
}

#[test]
fn newcomer_clock(rt: HostRuntime) -> Result<(), Fail> {
    gives(
        &rt,
        "tick",
        "hz 1000; client 1 - 1 - 0; client 2 - 1 - 0; add 1 11 1 1 0; add 1 12 1 1 0; pull 0; \
         pull 0; add 2 21 1 1 0; add 1 13 1 1 0; add 2 22 1 1 0; pull 0; pull 0; pull 0",
        "ok; ok; tags - 0 1000; tags - 0 2000; grant 1 11 priority; grant 1 12 priority; tags \
         - 0 1000; tags - 0 3000; tags - 0 2000; grant 2 21 priority; grant 2 22 priority; \
         grant 1 13 priority",
    )
}

#[test]
fn newcomer_virtual(rt: HostRuntime) -> Result<(), Fail> {
    gives(
        &rt,
        "tick",
        "hz 1000 virtual; client 1 - 1 - 0; client 2 - 1 - 0; add 1 11 1 1 0; add 1 12 1 1 0; \
         pull 0; pull 0; add 2 21 1 1 0; add 1 13 1 1 0; add 2 22 1 1 0; pull 0; pull 0; pull \
         0",
        "ok; ok; tags - 0 1000; tags - 0 2000; grant 1 11 priority; grant 1 12 priority; tags \
         - 0 2000; tags - 0 3000; tags - 0 3000; grant 2 21 priority; grant 1 13 priority; \
         grant 2 22 priority",
    )
}
