//! Scenes whose keys are not all known, with `--explain`: what is written besides is as without it.
use crate::runs::{lines, runs};
use std::alloc::{AllocError, Global};
use std::process::Abort;
use std::sync::Wait;
use std::test::Fail;
use std::thread::Threads;

/// A scene of two clients, with these keys of its own and these of the second client.
fn scene(alloc: Global, keys: &str, of_second: &str) -> Result<Vec<u8>, AllocError> {
    let text = format!(in alloc;
        "hz = 1000; tags = \"tick\"; servers = 1; workers = 1; step = 50; seed = 1; max_pulls = 100{keys}; \
         [[client]]; id = 1; weight = 1; requests = 1; window = 1; [[client]]; id = 7; {of_second}"
    )?;
    lines(alloc, &text)
}

/// The keys of the second client that it has to have.
const SECOND: &str = "weight = 1; requests = 0; window = 1";

/// What `sim` writes for the scene, and what `run` does.
const REPORTS: [(&str, &str); 2] = [
    (
        "sim",
        "client 1 sent 1 completed 1 reservation 0 priority 1; client 7 sent 0 completed 0 reservation 0 priority 0; \
         server 0 reservation 0 priority 1 left 0; end 0",
    ),
    (
        "run",
        "client 1 sent 1 completed 1 failed 0 units 0; client 7 sent 0 completed 0 failed 0 units 0; \
         server 0 left 0 units 0 replays; total sent 1 completed 1",
    ),
];

/// The scene with these keys is simulated and run as without them, and these lines are written if an explanation is asked for.
fn remarks<T: AllocGlobal + Threads + Wait + Sync + Abort>(
    rt: &T,
    keys: &str,
    of_second: &str,
    remarked: &str,
) -> Result<(), Fail> {
    let of_second = format!(in rt.alloc(); "{SECOND}{of_second}")?;
    let text = scene(rt.alloc(), keys, &of_second)?;
    let remarked = lines(rt.alloc(), remarked)?;
    for (command, report) in REPORTS {
        let report = lines(rt.alloc(), report)?;
        runs(rt, [command].as_slice(), &text, &report, b"", 0)?;
        let words = [command, "--explain"];
        runs(rt, words.as_slice(), &text, &report, &remarked, 0)?;
    }
    Ok(())
}

#[test]
fn known_keys(rt: HostRuntime) -> Result<(), Fail> {
    remarks(&rt, "; shares = \"clock\"", "; reservation = 1", "")
}

#[test]
fn ignored_keys(rt: HostRuntime) -> Result<(), Fail> {
    remarks(
        &rt,
        "; worker = 2; Seed = 1",
        "; wieght = 2; hz = 1",
        "dmclock: key Seed: ignored, since no scene has it; dmclock: key worker: ignored, since no scene has it; \
         dmclock: client 2: key hz: ignored, since no client has it; \
         dmclock: client 2: key wieght: ignored, since no client has it",
    )
}

/// Sixty-four letters.
const LONG: &str = "abcdefghijklmnopqrstuvwxyzabcdefghijklmnopqrstuvwxyzabcdefghijkl";

/// A name is shown as printable ASCII, and no more than its first 64 bytes.
#[test]
fn shown_names(rt: HostRuntime) -> Result<(), Fail> {
    remarks(
        &rt,
        "; \"\\u001b[31m\" = 1; \"a b~\" = 1; \"\u{e9}\" = 1",
        "",
        "dmclock: key ?[31m: ignored, since no scene has it; dmclock: key a b~: ignored, since no scene has it; \
         dmclock: key ??: ignored, since no scene has it",
    )?;
    let keys = format!(in rt.alloc(); "; {LONG} = 1; {LONG}m = 1")?;
    let remarked = format!(in rt.alloc();
        "dmclock: key {LONG}: ignored, since no scene has it; dmclock: key {LONG}..: ignored, since no scene has it"
    )?;
    remarks(&rt, &keys, "", &remarked)
}

/// A scene with these keys has this fault, which is explained by these lines.
fn is_refused<T: AllocGlobal + Threads + Wait + Sync + Abort>(
    rt: &T,
    of_second: &str,
    fault: &str,
    explained: &str,
) -> Result<(), Fail> {
    let text = scene(rt.alloc(), "; worker = 2", of_second)?;
    for command in ["sim", "run"] {
        let line = lines(rt.alloc(), fault)?;
        runs(rt, [command].as_slice(), &text, b"", &line, 1)?;
        let explained = format!(in rt.alloc(); "{fault}; {explained}")?;
        let explained = lines(rt.alloc(), &explained)?;
        let words = [command, "--explain"];
        runs(rt, words.as_slice(), &text, b"", &explained, 1)?;
    }
    Ok(())
}

#[test]
fn faulty_client(rt: HostRuntime) -> Result<(), Fail> {
    is_refused(
        &rt,
        "wieght = 1",
        "dmclock: scene missing weight",
        "dmclock: client 2: key weight: expected an integer from 1 to 2^32-1, with ticks one that divides hz; \
         dmclock: key worker: ignored, since no scene has it; \
         dmclock: client 2: key wieght: ignored, since no client has it",
    )?;
    is_refused(
        &rt,
        "weight = 1; requests = 0; window = 0",
        "dmclock: scene value window",
        "dmclock: client 2: key window: expected an integer from 1 to 1024; \
         dmclock: key worker: ignored, since no scene has it",
    )?;
    is_refused(
        &rt,
        "weight =",
        "dmclock: scene text",
        "dmclock: input: expected a scene in TOML, of at most 2^20 bytes",
    )
}
