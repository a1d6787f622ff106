//! The scenes of the examples, and the faults of scenes that are close to them.
use crate::same::assert_same;
use dmc_scene::fault::SceneFault;
use dmc_scene::key::Key;
use dmc_scene::scene::{Scene, read_scene};
use dmc_types::config::{AtLimit, Counting, QueueConfig, Shares, TagKind};
use dmc_types::cost::Cost;
use dmc_types::ids::ClientId;
use dmc_types::info::ClientInfo;
use std::alloc::{AllocError, Global};
use std::process::Abort;
use std::test::Fail;

const TWO_CLIENTS: &str = "hz = 1000
tags = \"tick\"
servers = 1
workers = 1
step = 50
seed = 1
max_pulls = 100
[[client]]
id = 1
reservation = 10
weight = 1
requests = 2
window = 1
[[client]]
id = 2
weight = 2
requests = 2
window = 1
";

const THREE_SERVERS: &str = "hz = 1000
tags = \"tick\"
servers = 3
workers = 2
step = 1
seed = 7
max_pulls = 1000000
[[client]]
id = 1
weight = 1
requests = 200
window = 8
[[client]]
id = 2
weight = 1
requests = 200
window = 8
[[client]]
id = 3
weight = 1
requests = 200
window = 8
[[client]]
id = 4
weight = 1
requests = 200
window = 8
";

const OLDEST: u64 = 1 << 62;

/// The text with the first occurrence of `old` replaced by `new`.
fn changed(alloc: Global, text: &str, old: &str, new: &str) -> Result<String, AllocError> {
    match text.split_once(old) {
        Some((before, after)) => Ok(format!(in alloc; "{before}{new}{after}")?),
        None => Ok(String::from_str(alloc, text)?),
    }
}

/// The fault for which the text is refused, if it is. An allocation failure is an error.
fn fault_of(alloc: Global, text: &[u8]) -> Result<Option<SceneFault>, SceneFault> {
    match read_scene(alloc, text) {
        Ok(_) => Ok(None),
        Err(SceneFault::Memory) => Err(SceneFault::Memory),
        Err(fault) => Ok(Some(fault)),
    }
}

fn assert_changed(
    rt: &impl Abort,
    alloc: Global,
    old: &str,
    new: &str,
    fault: Option<SceneFault>,
) -> Result<(), SceneFault> {
    let text = changed(alloc, TWO_CLIENTS, old, new)?;
    assert_eq!(rt; fault_of(alloc, text.as_str().as_bytes())?, fault, "{new}");
    Ok(())
}

#[test]
fn two_clients(rt: HostRuntime) -> Result<(), Fail> {
    let scene = read_scene(rt.alloc(), TWO_CLIENTS.as_bytes())?;
    let config = QueueConfig::new(1000, OLDEST, OLDEST, AtLimit::Wait)?;
    assert_same(&rt, &scene.config(), &config);
    assert_same(&rt, &scene.tags(), &TagKind::Tick);
    assert_same(&rt, &scene.servers(), &1);
    assert_same(&rt, &scene.workers(), &1);
    assert_same(&rt, &scene.step(), &50);
    assert_same(&rt, &scene.seed(), &1);
    assert_same(&rt, &scene.max_pulls(), &100);
    assert_same(&rt, &scene.counting(), &Counting::All);
    assert_eq!(rt; scene.clients().len(), 2);
    let first = scene.clients()[0];
    assert_same(&rt, &first.id(), &ClientId(1));
    assert_same(&rt, &first.info(), &ClientInfo::new(Some(10), 1, None)?);
    assert_same(&rt, &first.requests(), &2);
    assert_same(&rt, &first.window(), &1);
    let second = scene.clients()[1];
    assert_same(&rt, &second.id(), &ClientId(2));
    assert_same(&rt, &second.info(), &ClientInfo::new(None, 2, None)?);
    Ok(())
}

#[test]
fn three_servers(rt: HostRuntime) -> Result<(), Fail> {
    let scene = read_scene(rt.alloc(), THREE_SERVERS.as_bytes())?;
    assert_same(&rt, &scene.servers(), &3);
    assert_same(&rt, &scene.workers(), &2);
    assert_same(&rt, &scene.step(), &1);
    assert_same(&rt, &scene.seed(), &7);
    assert_same(&rt, &scene.max_pulls(), &1_000_000);
    assert_eq!(rt; scene.clients().len(), 4);
    let last = scene.clients()[3];
    assert_same(&rt, &last.id(), &ClientId(4));
    assert_same(&rt, &last.requests(), &200);
    assert_same(&rt, &last.window(), &8);
    Ok(())
}

/// Blanks are read up to 2^20 bytes.
fn blanks_are_refused<R: AllocGlobal + Abort>(rt: &R) -> Result<(), Fail> {
    let alloc = rt.alloc();
    let long = vec![in alloc; b' '; (1 << 20) + 1]?;
    let faults = [
        fault_of(alloc, long.as_slice())?,
        fault_of(alloc, &long.as_slice()[1..])?,
    ];
    let wanted = [SceneFault::Text, SceneFault::Missing(Key::Hz, None)];
    assert_same(rt, &faults, &wanted.map(Some));
    Ok(())
}

/// The text of both parts has this fault.
fn refuses<R: AllocGlobal + Abort>(
    rt: &R,
    before: &str,
    rest: &str,
    fault: SceneFault,
) -> Result<(), Fail> {
    let text = format!(in rt.alloc(); "{before}{rest}")?;
    assert_same(rt, &fault_of(rt.alloc(), text.as_bytes())?, &Some(fault));
    Ok(())
}

/// A replacement for the clients, and its fault.
const CLIENTS: [(&str, SceneFault); 5] = [
    ("client = 5\n", SceneFault::Kind(Key::Client, None)),
    ("[client]\nid = 1\n", SceneFault::Kind(Key::Client, None)),
    (
        "client = [{ id = 1 }, 5]\n",
        SceneFault::Kind(Key::Client, None),
    ),
    ("client = []\n", SceneFault::Value(Key::Client, None)),
    ("", SceneFault::Missing(Key::Client, None)),
];

#[test]
fn scene_faults(rt: HostRuntime) -> Result<(), Fail> {
    blanks_are_refused(&rt)?;
    let fault = fault_of(rt.alloc(), b"hz = \"\xff\"")?;
    assert_same(&rt, &fault, &Some(SceneFault::Text));
    let (before, _) = TWO_CLIENTS.split_once("weight =").ok_or("no weight")?;
    refuses(&rt, before, "weight =", SceneFault::Text)?;
    let (before, _) = TWO_CLIENTS.split_once("[[client]]").ok_or("no client")?;
    for (rest, fault) in CLIENTS {
        refuses(&rt, before, rest, fault)?;
    }
    Ok(())
}

/// Changes of the scene, each with the fault that it makes.
const CHANGES: [(&str, &str, SceneFault); 14] = [
    ("hz = 1000\n", "", SceneFault::Missing(Key::Hz, None)),
    (
        "hz = 1000",
        "hz = \"1000\"",
        SceneFault::Kind(Key::Hz, None),
    ),
    ("hz = 1000", "hz = -1", SceneFault::Value(Key::Hz, None)),
    (
        "servers = 1",
        "servers = 0",
        SceneFault::Value(Key::Servers, None),
    ),
    (
        "weight = 1",
        "weight = 3",
        SceneFault::Value(Key::Weight, Some(1)),
    ),
    ("id = 2", "id = 1", SceneFault::Value(Key::Id, Some(2))),
    (
        "tags = \"tick\"",
        "tags = \"ticks\"",
        SceneFault::Value(Key::Tags, None),
    ),
    (
        "seed = 1",
        "counting = \"none\"",
        SceneFault::Missing(Key::Seed, None),
    ),
    (
        "step",
        "idle_age = 9\nerase_age = 8\nstep",
        SceneFault::Value(Key::EraseAge, None),
    ),
    (
        "step",
        "at_limit = true\nstep",
        SceneFault::Kind(Key::AtLimit, None),
    ),
    (
        "step",
        "shares = 1\nstep",
        SceneFault::Kind(Key::Shares, None),
    ),
    (
        "step",
        "shares = \"real\"\nstep",
        SceneFault::Value(Key::Shares, None),
    ),
    (
        "window = 1",
        "window = 1025",
        SceneFault::Value(Key::Window, Some(1)),
    ),
    (
        "window = 1",
        "window = 0\ncosts = 1",
        SceneFault::Value(Key::Window, Some(1)),
    ),
];

/// The scene in ratios, with thirds.
fn thirds(alloc: Global) -> Result<Scene, SceneFault> {
    let ratios =
        "tags = \"ratio\"\ncounting = \"others\"\nat_limit = \"allow\"\nshares = \"virtual\"";
    let text = changed(alloc, TWO_CLIENTS, "tags = \"tick\"", ratios)?;
    let text = changed(alloc, &text, "weight = 1", "weight = 3\nlimit = 20")?;
    read_scene(alloc, text.as_bytes())
}

#[test]
fn changed_scenes(rt: HostRuntime) -> Result<(), Fail> {
    for (old, new, fault) in CHANGES {
        assert_changed(&rt, rt.alloc(), old, new, Some(fault))?;
    }
    let scene = thirds(rt.alloc())?;
    assert_same(&rt, &scene.tags(), &TagKind::Ratio);
    assert_same(&rt, &scene.counting(), &Counting::Others);
    assert_same(&rt, &scene.config().at_limit(), &AtLimit::Allow);
    assert_same(&rt, &scene.config().shares(), &Shares::Virtual);
    let info = ClientInfo::new(Some(10), 3, Some(20))?;
    assert_same(&rt, &scene.clients()[0].info(), &info);
    Ok(())
}

const SIXTEEN: &str = "[1, 2, 3, 4, 5, 6, 7, 8, 9, 10, 11, 12, 13, 14, 15, 16]";

const SEVENTEEN: &str = "[1, 2, 3, 4, 5, 6, 7, 8, 9, 10, 11, 12, 13, 14, 15, 16, 17]";

const SEVENTEEN_AND_A_TEXT: &str =
    "[1, 2, 3, 4, 5, 6, 7, 8, 9, 10, 11, 12, 13, 14, 15, 16, \"17\"]";

/// The costs of the first client, and the fault that they make.
const COSTS: [(&str, Option<SceneFault>); 15] = [
    ("[1]", None),
    ("[1024, 1]", None),
    (SIXTEEN, None),
    (SEVENTEEN, Some(SceneFault::Value(Key::Costs, Some(1)))),
    ("[]", Some(SceneFault::Value(Key::Costs, Some(1)))),
    ("[0]", Some(SceneFault::Value(Key::Costs, Some(1)))),
    ("[-1]", Some(SceneFault::Value(Key::Costs, Some(1)))),
    ("[1024, 1025]", Some(SceneFault::Value(Key::Costs, Some(1)))),
    ("1", Some(SceneFault::Kind(Key::Costs, Some(1)))),
    ("\"1\"", Some(SceneFault::Kind(Key::Costs, Some(1)))),
    ("[1, \"2\"]", Some(SceneFault::Kind(Key::Costs, Some(1)))),
    ("[1, 2.0]", Some(SceneFault::Kind(Key::Costs, Some(1)))),
    ("[[1]]", Some(SceneFault::Kind(Key::Costs, Some(1)))),
    ("[0, \"2\"]", Some(SceneFault::Kind(Key::Costs, Some(1)))),
    (
        SEVENTEEN_AND_A_TEXT,
        Some(SceneFault::Kind(Key::Costs, Some(1))),
    ),
];

#[test]
fn costs(rt: HostRuntime) -> Result<(), Fail> {
    for (costs, fault) in COSTS {
        let with_costs = format!(in rt.alloc(); "window = 1\ncosts = {costs}")?;
        assert_changed(&rt, rt.alloc(), "window = 1", &with_costs, fault)?;
    }
    Ok(())
}

#[test]
fn costs_in_turn(rt: HostRuntime) -> Result<(), Fail> {
    let text = changed(
        rt.alloc(),
        TWO_CLIENTS,
        "window = 1",
        "window = 1\ncosts = [5, 1, 1024]",
    )?;
    let scene = read_scene(rt.alloc(), text.as_bytes())?;
    assert_eq!(rt; scene.clients().len(), 2);
    let first = scene.clients()[0];
    let costs = [0, 1, 2, 3, 4, u32::MAX].map(|number| first.cost(number).units());
    // u32::MAX is a multiple of 3
    assert_same(&rt, &costs, &[5, 1, 1024, 5, 1, 5]);
    assert!(rt; first.has_costs());
    let second = scene.clients()[1];
    assert!(rt; !second.has_costs());
    assert_same(&rt, &second.cost(1), &Cost::ONE);
    Ok(())
}

#[test]
fn names(rt: HostRuntime) {
    assert_same(&rt, &Key::MaxPulls.name(), &"max_pulls");
    assert_same(&rt, &Key::Id.name(), &"id");
}
