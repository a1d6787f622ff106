//! The worked examples of runs in threads, each under its name. Lines are separated by `; `.
use crate::runs::{ROOM, lines, runs, status_with_fault};
use crate::same::assert_same;
use std::alloc::{AllocError, Global};
use std::process::Abort;
use std::sync::Wait;
use std::test::Fail;
use std::thread::Threads;

/// What each run of the scene `three_servers` writes that ends well.
const DONE: &str =
    "client 1 sent 200 completed 200 failed 0 units 0; client 2 sent 200 completed 200 failed 0 units 0; \
                    client 3 sent 200 completed 200 failed 0 units 0; client 4 sent 200 completed 200 failed 0 units 0; \
                    server 0 left 0 units 0 replays; server 1 left 0 units 0 replays; server 2 left 0 units 0 replays; \
                    total sent 800 completed 800";

/// The scene `three_servers`, with these keys added.
fn three_servers(alloc: Global, keys: &str) -> Result<Vec<u8>, AllocError> {
    let client = "weight = 1; requests = 200; window = 8";
    let text = format!(in alloc;
        "hz = 1000; servers = 3; workers = 2; step = 1; seed = 7; {keys}; \
         [[client]]; id = 1; {client}; [[client]]; id = 2; {client}; \
         [[client]]; id = 3; {client}; [[client]]; id = 4; {client}"
    )?;
    lines(alloc, &text)
}

/// The scene with these keys ends well.
fn is_done<T: AllocGlobal + Threads + Wait + Sync + Abort>(rt: &T, keys: &str) -> Result<(), Fail> {
    let scene = three_servers(rt.alloc(), keys)?;
    let report = lines(rt.alloc(), DONE)?;
    runs(rt, ["run"].as_slice(), &scene, &report, b"", 0)
}

#[test]
fn three_servers_run(rt: HostRuntime) -> Result<(), Fail> {
    is_done(&rt, "tags = \"tick\"; max_pulls = 1000000")?;
    is_done(&rt, "tags = \"ratio\"; max_pulls = 1000000")
}

#[test]
fn three_servers_others(rt: HostRuntime) -> Result<(), Fail> {
    is_done(
        &rt,
        "tags = \"tick\"; max_pulls = 1000000; counting = \"others\"",
    )
}

/// What each run of a scene with costs writes. Of client 1's ten requests four cost 1, three 2 and three 3.
const COSTS_DONE: &str =
    "client 1 sent 10 completed 10 failed 0 units 0 cost 19; client 2 sent 7 completed 7 failed 0 units 0 cost 7; \
                          server 0 left 0 units 0 replays; server 1 left 0 units 0 replays; total sent 17 completed 17";

#[test]
fn run_with_costs(rt: HostRuntime) -> Result<(), Fail> {
    let report = lines(rt.alloc(), COSTS_DONE)?;
    for (tags, counting) in [("tick", "all"), ("ratio", "others")] {
        let text = format!(in rt.alloc();
            "hz = 1000; servers = 2; workers = 2; step = 1; seed = 7; max_pulls = 1000000; tags = \"{tags}\"; \
             counting = \"{counting}\"; \
             [[client]]; id = 1; reservation = 10; weight = 1; requests = 10; window = 4; costs = [1, 2, 3]; \
             [[client]]; id = 2; weight = 1; requests = 7; window = 2"
        )?;
        let scene = lines(rt.alloc(), &text)?;
        runs(&rt, ["run"].as_slice(), &scene, &report, b"", 0)?;
    }
    Ok(())
}

/// Whether the text has these bytes somewhere.
fn has(text: &[u8], bytes: &[u8]) -> bool {
    (0..text.len()).any(|start| text[start..].starts_with(bytes))
}

/// Each worker of a server takes one turn. What is left differs from run to run, so only the words of the lines are compared.
#[test]
fn turns_out_run(rt: HostRuntime) -> Result<(), Fail> {
    let scene = three_servers(rt.alloc(), "tags = \"tick\"; max_pulls = 1")?;
    let mut reader = scene.as_slice();
    let mut written = Vec::with_capacity(rt.alloc(), ROOM)?;
    let fault = b"dmclock: turns out\n";
    let status = status_with_fault(&rt, ["run"].as_slice(), &mut reader, &mut written, fault)?;
    assert_same(&rt, &status, &4);
    assert!(rt; written.starts_with(b"client 1 sent "));
    for words in [
        " failed 0 units ",
        "\nserver 2 left ",
        " units 0 replays\ntotal sent ",
    ] {
        assert!(rt; has(&written, words.as_bytes()));
    }
    Ok(())
}

/// A fault of the scene, before any thread is started.
#[test]
fn run_of_no_scene(rt: HostRuntime) -> Result<(), Fail> {
    let fault = b"dmclock: scene missing hz\n";
    runs(&rt, ["run"].as_slice(), b"servers = 3\n", b"", fault, 1)
}
