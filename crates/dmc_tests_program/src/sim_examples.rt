//! The worked examples of simulations, each under its name. Lines are separated by `; `.
use crate::runs::{FailingWriter, fails_to_read, fails_to_write, lines, runs, status_with_fault};
use crate::same::assert_same;
use std::alloc::{AllocError, Global};
use std::process::Abort;
use std::sync::Wait;
use std::test::Fail;
use std::thread::Threads;

/// The clients of the scene `two_clients`.
const TWO: &str = "[[client]]; id = 1; reservation = 10; weight = 1; requests = 2; window = 1; \
                   [[client]]; id = 2; weight = 2; requests = 2; window = 1";

/// What the scene `two_clients` writes.
const TWO_OUT: &str =
    "client 1 sent 2 completed 2 reservation 2 priority 0; client 2 sent 2 completed 2 reservation 0 priority 2; \
                       server 0 reservation 2 priority 2 left 0; end 150";

/// A scene at 1000 ticks a second, with one worker a server.
fn scene(alloc: Global, keys: &str, clients: &str) -> Result<Vec<u8>, AllocError> {
    let text = format!(in alloc; "hz = 1000; workers = 1; seed = 1; {keys}; {clients}")?;
    lines(alloc, &text)
}

/// A scene with this report, fault and status.
fn ends<T: AllocGlobal + Threads + Wait + Sync + Abort>(
    rt: &T,
    scene: &[u8],
    report: &str,
    fault: &[u8],
    status: u8,
) -> Result<(), Fail> {
    let report = lines(rt.alloc(), report)?;
    runs(rt, ["sim"].as_slice(), scene, &report, fault, status)
}

/// The scene `two_clients` with these keys and this report.
fn gives<T: AllocGlobal + Threads + Wait + Sync + Abort>(
    rt: &T,
    keys: &str,
    report: &str,
) -> Result<(), Fail> {
    ends(rt, &scene(rt.alloc(), keys, TWO)?, report, b"", 0)
}

#[test]
fn two_clients(rt: HostRuntime) -> Result<(), Fail> {
    gives(
        &rt,
        "tags = \"tick\"; servers = 1; step = 50; max_pulls = 100",
        TWO_OUT,
    )?;
    gives(
        &rt,
        "tags = \"ratio\"; servers = 1; step = 50; max_pulls = 100",
        TWO_OUT,
    )
}

#[test]
fn sim_turns_out(rt: HostRuntime) -> Result<(), Fail> {
    let keys = "tags = \"tick\"; servers = 1; step = 50; max_pulls = 1";
    ends(
        &rt,
        &scene(rt.alloc(), keys, TWO)?,
        "client 1 sent 1 completed 1 reservation 1 priority 0; client 2 sent 1 completed 0 reservation 0 priority 0; \
         server 0 reservation 1 priority 0 left 1; end 0",
        b"dmclock: turns out\n",
        4,
    )
}

/// Clients of which the first has costs.
const COSTLY: &str = "[[client]]; id = 1; weight = 1; requests = 3; window = 1; costs = [5, 2]; \
                      [[client]]; id = 2; weight = 1; requests = 1; window = 1";

#[test]
fn sim_with_costs(rt: HostRuntime) -> Result<(), Fail> {
    let keys = "tags = \"tick\"; servers = 1; step = 50; max_pulls = 100";
    ends(
        &rt,
        &scene(rt.alloc(), keys, COSTLY)?,
        "client 1 sent 3 completed 3 reservation 0 priority 3 cost 12; \
         client 2 sent 1 completed 1 reservation 0 priority 1 cost 1; server 0 reservation 0 priority 4 left 0; end 150",
        b"",
        0,
    )
}

// What is sent and not completed does not count. Client 1's second request has a P of 5000, client 2's first a P of 0.
#[test]
fn costs_of_the_completed(rt: HostRuntime) -> Result<(), Fail> {
    let keys = "tags = \"tick\"; servers = 1; step = 50; max_pulls = 2";
    ends(
        &rt,
        &scene(rt.alloc(), keys, COSTLY)?,
        "client 1 sent 2 completed 1 reservation 0 priority 1 cost 5; \
         client 2 sent 1 completed 1 reservation 0 priority 1 cost 1; server 0 reservation 0 priority 2 left 1; end 50",
        b"dmclock: turns out\n",
        4,
    )
}

// The test for all completions comes before the count of rounds.
#[test]
fn sim_in_time(rt: HostRuntime) -> Result<(), Fail> {
    gives(
        &rt,
        "tags = \"tick\"; servers = 1; step = 50; max_pulls = 4",
        TWO_OUT,
    )
}

#[test]
fn sim_others(rt: HostRuntime) -> Result<(), Fail> {
    gives(
        &rt,
        "tags = \"tick\"; servers = 1; step = 50; max_pulls = 100; counting = \"others\"",
        "client 1 sent 2 completed 2 reservation 1 priority 1; client 2 sent 2 completed 2 reservation 0 priority 2; \
         server 0 reservation 1 priority 3 left 0; end 150",
    )
}

// A round stamps before it pulls. Clients send in the scene's order: the second newcomer shifts the first to the moment, so the
// first is granted. Client 1, whose window is full, sends nothing in round 1.
#[test]
fn order_of_a_round(rt: HostRuntime) -> Result<(), Fail> {
    let keys = "tags = \"tick\"; servers = 1; step = 1; max_pulls = 2; counting = \"others\"";
    let clients = "[[client]]; id = 2; weight = 1; requests = 9; window = 1; \
                   [[client]]; id = 1; weight = 1; requests = 9; window = 1";
    ends(
        &rt,
        &scene(rt.alloc(), keys, clients)?,
        "client 2 sent 2 completed 1 reservation 0 priority 1; client 1 sent 1 completed 1 reservation 0 priority 1; \
         server 0 reservation 0 priority 2 left 1; end 1",
        b"dmclock: turns out\n",
        4,
    )
}

// No round is needed.
#[test]
fn no_requests(rt: HostRuntime) -> Result<(), Fail> {
    let clients = "[[client]]; id = 7; weight = 1; requests = 0; window = 1";
    let keys = "tags = \"tick\"; servers = 2; step = 50; max_pulls = 1";
    ends(
        &rt,
        &scene(rt.alloc(), keys, clients)?,
        "client 7 sent 0 completed 0 reservation 0 priority 0; server 0 reservation 0 priority 0 left 0; \
         server 1 reservation 0 priority 0 left 0; end 0",
        b"",
        0,
    )
}

/// A text that is no scene.
fn faults<T: AllocGlobal + Threads + Wait + Sync + Abort>(
    rt: &T,
    scene: &[u8],
    fault: &[u8],
) -> Result<(), Fail> {
    ends(rt, scene, "", fault, 1)
}

/// A scene with a first key and these clients that has this fault.
fn refuses<T: AllocGlobal + Threads + Wait + Sync + Abort>(
    rt: &T,
    hz: &str,
    clients: &str,
    fault: &[u8],
) -> Result<(), Fail> {
    let text = format!(in rt.alloc();
        "{hz}tags = \"tick\"; servers = 1; workers = 1; step = 50; seed = 1; max_pulls = 100; {clients}"
    )?;
    faults(rt, &lines(rt.alloc(), &text)?, fault)
}

/// First keys and clients of a scene, each with its fault.
const FAULTS: [(&str, &str, &[u8]); 5] = [
    ("", TWO, b"dmclock: scene missing hz\n"),
    ("hz = \"1000\"; ", TWO, b"dmclock: scene kind hz\n"),
    ("hz = -1; ", TWO, b"dmclock: scene value hz\n"),
    ("hz = 1000; ", "client = 5", b"dmclock: scene kind client\n"),
    (
        "hz = 1000; ",
        "[[client]]; id = 1; weight =",
        b"dmclock: scene text\n",
    ),
];

#[test]
fn scene_faults(rt: HostRuntime) -> Result<(), Fail> {
    for (hz, clients, fault) in FAULTS {
        refuses(&rt, hz, clients, fault)?;
    }
    Ok(())
}

#[test]
fn scene_faults_of_values(rt: HostRuntime) -> Result<(), Fail> {
    let keys = "tags = \"tick\"; servers = 0; step = 50; max_pulls = 100";
    faults(
        &rt,
        &scene(rt.alloc(), keys, TWO)?,
        b"dmclock: scene value servers\n",
    )?;
    let third = "[[client]]; id = 1; reservation = 10; weight = 3; requests = 2; window = 1";
    refuses(&rt, "hz = 1000; ", third, b"dmclock: scene value weight\n")?;
    let twice = "[[client]]; id = 1; weight = 1; requests = 2; window = 1; [[client]]; id = 1";
    refuses(&rt, "hz = 1000; ", twice, b"dmclock: scene value id\n")
}

// Of a longer text 2^20 + 1 bytes are read.
#[test]
fn long_scene(rt: HostRuntime) -> Result<(), Fail> {
    let input = vec![in rt.alloc(); b' '; 1_048_580]?;
    let mut reader = input.as_slice();
    let mut written = Vec::new(rt.alloc());
    let words = ["sim"];
    let fault = b"dmclock: scene text\n";
    let status = status_with_fault(&rt, words.as_slice(), &mut reader, &mut written, fault)?;
    assert_same(&rt, &status, &1);
    assert_same(&rt, &reader.len(), &3);
    assert_same(&rt, &written.len(), &0);
    Ok(())
}

// A newcomer shifts a client by a tag of another's weight, and the next sum of the two fractions is no value.
#[test]
fn sim_refused(rt: HostRuntime) -> Result<(), Fail> {
    let input = lines(
        rt.alloc(),
        "hz = 1000; workers = 1; seed = 3; tags = \"ratio\"; servers = 2; step = 1; max_pulls = 1000; counting = \"others\"; \
         [[client]]; id = 1; weight = 100003; requests = 99; window = 99; \
         [[client]]; id = 2; weight = 100019; requests = 99; window = 99; \
         [[client]]; id = 3; weight = 100043; requests = 99; window = 99",
    )?;
    faults(&rt, &input, b"dmclock: refused range\n")
}

#[test]
fn sim_streams(rt: HostRuntime) -> Result<(), Fail> {
    let keys = "tags = \"tick\"; servers = 1; step = 50; max_pulls = 100";
    let input = scene(rt.alloc(), keys, TWO)?;
    fails_to_read(&rt, "sim", &input, 40, b"")
}

#[test]
fn sim_writes(rt: HostRuntime) -> Result<(), Fail> {
    let keys = "tags = \"tick\"; servers = 1; step = 50; max_pulls = 100";
    let input = scene(rt.alloc(), keys, TWO)?;
    let first = b"client 1 sent 2 completed 2 reservation 2 priority 0\nclient ".as_slice();
    let writer = FailingWriter::new(rt.alloc(), 60)?;
    fails_to_write(&rt, "sim", &input, writer, first)
}
