//! The worked examples of the cluster core.
use crate::failures::Failures;
use crate::same::assert_same;
use dmc_core::cluster_core::ClusterCore;
use dmc_core::event::{CoreEvent, CoreFault, CoreReply};
use dmc_scene::scene::read_scene;
use dmc_tag::reply::{Reply, Tags};
use dmc_tag::tag::Tag;
use dmc_tick::tick::TickTag;
use dmc_types::config::{PhaseType, TagKind};
use dmc_types::cost::Cost;
use dmc_types::ids::{ClientId, ServerId, Token};
use dmc_types::info::ClientInfo;
use dmc_types::moment::Moment;
use dmc_types::params::ReqParams;
use dmc_types::refusal::Refusal;
use dmc_work::plan::plan;
use std::alloc::Global;
use std::process::Abort;
use std::test::Fail;

/// A cluster core, and the allocation failures that it reported.
#[derive(Drop)]
pub struct Core {
    cluster: ClusterCore<TickTag>,
    failures: Failures,
}

type Answer = Result<CoreReply<TickTag>, CoreFault>;

pub const ONE: ClientId = ClientId(1);

pub const ZERO: ServerId = ServerId(0);

// ---- scenes

// A scene in ticks, with further keys for the scene and for client 1.
pub fn open(alloc: Global, scene: &str, client: &str) -> Result<Core, Fail> {
    let text = format!(in alloc;
        "hz = 1000\ntags = \"tick\"\nworkers = 1\nstep = 50\nseed = 1\nmax_pulls = 100\n{scene}
[[client]]\nid = 1\nweight = 1\nrequests = 2\nwindow = 1\n{client}\n"
    )?;
    let scene = read_scene(alloc, text.as_bytes())?;
    match scene.tags() {
        TagKind::Tick => Ok(Core {
            cluster: ClusterCore::new(alloc, &scene)?,
            failures: Failures::none(),
        }),
        TagKind::Ratio => Err(Fail::new("no ticks")),
    }
}

// Client 1 with a reservation of 10, and client 2 with the weight 2.
pub fn two_clients(alloc: Global) -> Result<Core, Fail> {
    open(
        alloc,
        "servers = 1",
        "reservation = 10\n[[client]]\nid = 2\nweight = 2\nrequests = 2\nwindow = 1",
    )
}

// The completions of client 1: what they cost, and what those by the reservation cost.
pub fn completions(core: &Core) -> Option<(u64, u64)> {
    core.cluster.completions(ONE)
}

// Ends a test of a cluster.
pub fn end(core: Core) -> Result<(), Fail> {
    let Core { cluster, failures } = core;
    drop(cluster);
    Ok(failures.end()?)
}

// ---- events

fn moment(ticks: u32) -> Moment {
    Moment::new(u64::from(ticks)).unwrap()
}

pub fn stamp_of_cost(client: ClientId, server: ServerId, token: u32, cost: Cost) -> CoreEvent {
    CoreEvent::Stamp {
        client,
        server,
        token: Token(token),
        cost,
    }
}

pub fn stamp(client: ClientId, server: ServerId, token: u32) -> CoreEvent {
    stamp_of_cost(client, server, token, Cost::ONE)
}

pub fn arrive(client: ClientId, server: ServerId, ticks: u32) -> CoreEvent {
    CoreEvent::Arrive {
        client,
        server,
        at: moment(ticks),
    }
}

pub fn pull(server: ServerId, ticks: u32) -> CoreEvent {
    CoreEvent::Pull {
        server,
        at: moment(ticks),
    }
}

pub fn respond_of_cost(
    client: ClientId,
    server: ServerId,
    phase: PhaseType,
    cost: Cost,
) -> CoreEvent {
    CoreEvent::Respond {
        client,
        server,
        phase,
        cost,
    }
}

pub fn respond(client: ClientId, server: ServerId, phase: PhaseType) -> CoreEvent {
    respond_of_cost(client, server, phase, Cost::ONE)
}

pub fn update(server: ServerId, client: ClientId, info: ClientInfo) -> CoreEvent {
    CoreEvent::Update {
        server,
        client,
        info,
        at: Moment::zero(),
    }
}

pub fn remove(server: ServerId, client: ClientId) -> CoreEvent {
    CoreEvent::Remove { server, client }
}

pub fn clean(server: ServerId, ticks: u32) -> CoreEvent {
    CoreEvent::Clean {
        server,
        at: moment(ticks),
    }
}

// ---- events with their results

fn step(core: &mut Core, event: &CoreEvent) -> Answer {
    core.cluster.step(*event)
}

// The result of an event. One that reports an allocation failure has changed nothing, so the event is tried once more.
fn answer(core: &mut Core, event: &CoreEvent) -> Answer {
    let answer = step(core, event);
    if answer == Err(CoreFault::Memory) {
        core.failures.note();
        return step(core, event);
    }
    answer
}

// An event has this result.
pub fn answers(rt: &impl Abort, core: &mut Core, event: CoreEvent, expected: Answer) {
    assert_same(rt, &answer(core, &event), &expected);
}

// A server's queue has this reply to an event.
pub fn replies(rt: &impl Abort, core: &mut Core, event: CoreEvent, reply: Reply<TickTag>) {
    answers(rt, core, event, Ok(CoreReply::Served(reply)));
}

// A server's queue does not know the client.
pub fn refuses_unknown(rt: &impl Abort, core: &mut Core, event: CoreEvent) {
    replies(rt, core, event, Reply::Refused(Refusal::Unknown));
}

// An event is refused.
pub fn refuses(rt: &impl Abort, core: &mut Core, event: CoreEvent, fault: CoreFault) {
    answers(rt, core, event, Err(fault));
}

// A client stamps a request to a server with these counts: delta and rho.
pub fn stamps(
    rt: &impl Abort,
    core: &mut Core,
    client: ClientId,
    server: ServerId,
    token: u32,
    counts: (u32, u32),
) {
    let params = ReqParams::new(counts.0, counts.1).expect(rt, "rho is at most delta");
    let stamped = CoreReply::Stamped(params);
    answers(rt, core, stamp(client, server, token), Ok(stamped));
}

pub fn tick(ticks: u32) -> TickTag {
    TickTag::of_moment(moment(ticks))
}

// A request of client 1 arrives at server 0, and has these tags: reservation, limit and weight.
pub fn arrives(rt: &impl Abort, core: &mut Core, ticks: u32, tags: (Option<u32>, u32, u32)) {
    let tags = Tags {
        r: tags.0.map(tick),
        l: tick(tags.1),
        p: tick(tags.2),
    };
    replies(rt, core, arrive(ONE, ZERO, ticks), Reply::Tagged(tags));
}

fn granted(token: u32, phase: PhaseType, beyond: bool) -> Reply<TickTag> {
    Reply::Granted {
        client: ONE,
        token: Token(token),
        phase,
        cost: Cost::ONE,
        beyond,
    }
}

pub fn granted_of_cost(token: u32, cost: Cost) -> Reply<TickTag> {
    Reply::Granted {
        client: ONE,
        token: Token(token),
        phase: PhaseType::Priority,
        cost,
        beyond: false,
    }
}

// Server 0 grants a request of client 1, within its limit.
pub fn grants(rt: &impl Abort, core: &mut Core, ticks: u32, token: u32, phase: PhaseType) {
    replies(rt, core, pull(ZERO, ticks), granted(token, phase, false));
}

// Client 1 responds to a grant of server 0.
fn responds(rt: &impl Abort, core: &mut Core, phase: PhaseType) {
    answers(rt, core, respond(ONE, ZERO, phase), Ok(CoreReply::Counted));
}

// The result of an event that needs no memory: it is given once.
pub fn answers_at_once(
    rt: &impl Abort,
    core: &mut Core,
    event: CoreEvent,
    reply: CoreReply<TickTag>,
) {
    assert_same(rt, &step(core, &event), &Ok(reply));
}

// ---- the worked examples

// The plan half of the example.
fn plans_zero(rt: &impl Abort, alloc: Global) -> Result<(), Fail> {
    let servers = plan(alloc, 1, ONE, 1, 3)?;
    assert_same(rt, &servers.as_slice(), &[ZERO; 3].as_slice());
    Ok(())
}

#[test]
fn plan_and_core(rt: HostRuntime) -> Result<(), Fail> {
    plans_zero(&rt, rt.alloc())?;
    let mut core = two_clients(rt.alloc())?;
    let phase = PhaseType::Reservation;
    stamps(&rt, &mut core, ONE, ZERO, 0, (0, 0));
    arrives(&rt, &mut core, 0, (Some(0), 0, 0));
    grants(&rt, &mut core, 0, 0, phase);
    responds(&rt, &mut core, phase);
    refuses(&rt, &mut core, arrive(ONE, ZERO, 0), CoreFault::NoFlight);
    refuses(
        &rt,
        &mut core,
        respond(ONE, ZERO, phase),
        CoreFault::NoGrant,
    );
    end(core)
}

// A request of client 1, with a limit of 20, is granted at 0 and its response counted; the next one arrives at 0.
pub fn limited(rt: &impl Abort, core: &mut Core) {
    let phase = PhaseType::Priority;
    stamps(rt, core, ONE, ZERO, 1, (0, 0));
    arrives(rt, core, 0, (None, 0, 0));
    grants(rt, core, 0, 1, phase);
    responds(rt, core, phase);
    stamps(rt, core, ONE, ZERO, 2, (1, 0));
    arrives(rt, core, 0, (None, 50, 1000));
}

// At its limit a request waits.
fn waits_at_limit(rt: &impl Abort, alloc: Global) -> Result<(), Fail> {
    let mut core = open(alloc, "servers = 1", "limit = 20")?;
    limited(rt, &mut core);
    replies(rt, &mut core, pull(ZERO, 0), Reply::Later(50));
    grants(rt, &mut core, 50, 2, PhaseType::Priority);
    end(core)
}

// A request is granted beyond its limit.
fn allowed_past_limit(rt: &impl Abort, alloc: Global) -> Result<(), Fail> {
    let mut core = open(alloc, "servers = 1\nat_limit = \"allow\"", "limit = 20")?;
    limited(rt, &mut core);
    let beyond = granted(2, PhaseType::Priority, true);
    replies(rt, &mut core, pull(ZERO, 0), beyond);
    end(core)
}

#[test]
fn limit_bound(rt: HostRuntime) -> Result<(), Fail> {
    waits_at_limit(&rt, rt.alloc())?;
    allowed_past_limit(&rt, rt.alloc())
}

#[test]
fn reservation_bound(rt: HostRuntime) -> Result<(), Fail> {
    let mut core = open(rt.alloc(), "servers = 1", "reservation = 10")?;
    let phase = PhaseType::Reservation;
    stamps(&rt, &mut core, ONE, ZERO, 1, (0, 0));
    arrives(&rt, &mut core, 0, (Some(0), 0, 0));
    grants(&rt, &mut core, 0, 1, phase);
    responds(&rt, &mut core, phase);
    stamps(&rt, &mut core, ONE, ZERO, 2, (1, 1));
    arrives(&rt, &mut core, 0, (Some(100), 0, 1000));
    grants(&rt, &mut core, 100, 2, phase);
    end(core)
}

// ---- what the examples leave out

// A stamp counts itself and the completions at the other server. Each client has its own tracker.
#[test]
fn other_servers(rt: HostRuntime) -> Result<(), Fail> {
    let (two, other) = (ClientId(2), ServerId(1));
    let mut core = open(
        rt.alloc(),
        "servers = 2\ncounting = \"others\"",
        "reservation = 10\n[[client]]\nid = 2\nweight = 2\nrequests = 2\nwindow = 1",
    )?;
    let phase = PhaseType::Reservation;
    stamps(&rt, &mut core, ONE, ZERO, 1, (1, 1));
    arrives(&rt, &mut core, 100, (Some(100), 100, 1000));
    grants(&rt, &mut core, 100, 1, phase);
    responds(&rt, &mut core, phase);
    stamps(&rt, &mut core, ONE, other, 2, (2, 2));
    stamps(&rt, &mut core, ONE, ZERO, 3, (1, 1));
    stamps(&rt, &mut core, two, other, 4, (1, 1));
    end(core)
}

// Three messages of a pair: two arrive, and are granted in the order of their stamps.
fn two_of_three(rt: &impl Abort, core: &mut Core) {
    for token in [7, 8, 9] {
        stamps(rt, core, ONE, ZERO, token, (0, 0));
    }
    arrives(rt, core, 0, (None, 0, 0));
    arrives(rt, core, 0, (None, 0, 0));
    grants(rt, core, 0, 7, PhaseType::Priority);
    grants(rt, core, 0, 8, PhaseType::Priority);
    replies(rt, core, pull(ZERO, 0), Reply::Nothing);
}

// The messages of a pair arrive in the order of their stamps. A message that the queue refuses stays in flight.
#[test]
fn messages_in_order(rt: HostRuntime) -> Result<(), Fail> {
    let mut core = open(rt.alloc(), "servers = 1\nidle_age = 5\nerase_age = 10", "")?;
    two_of_three(&rt, &mut core);
    let cleaned = Reply::Cleaned {
        idled: 0,
        erased: 1,
    };
    replies(&rt, &mut core, clean(ZERO, 10), cleaned);
    refuses_unknown(&rt, &mut core, arrive(ONE, ZERO, 10));
    refuses_unknown(&rt, &mut core, arrive(ONE, ZERO, 10));
    end(core)
}
