//! What the histories show: which worker gave each command, to which server, in which order, and when.
use super::setup::{Prompt, done, run, three_servers};
use crate::same::assert_same;
use dmc_driver::service::{Job, ServeFault, Service};
use dmc_queue_history::history::EventHistory;
use dmc_scene::scene::{Scene, read_scene};
use dmc_tag::event::Event;
use dmc_tag::reply::Reply;
use dmc_tick::tick::TickTag;
use dmc_types::command::Command;
use dmc_types::ids::{ServerId, Token};
use dmc_types::moment::Moment;
use dmc_work::plan::plan;
use std::alloc::{AllocError, Global};
use std::process::Abort;
use std::test::Fail;
use std::thread;

/// The plans of the clients 1 to 4.
fn plans_of(alloc: Global, scene: &Scene) -> Result<Vec<Vec<ServerId>>, AllocError> {
    let mut plans = Vec::with_capacity(alloc, 4)?;
    for client in scene.clients() {
        let (seed, servers) = (scene.seed(), scene.servers());
        plans.push(plan(alloc, seed, client.id(), servers, client.requests())?)?;
    }
    Ok(plans)
}

/// The server that is planned for a request of the client at an index.
fn planned(plans: &[Vec<ServerId>], place: u32, token: Token) -> Option<ServerId> {
    let plan = plans.get(place as usize)?;
    plan.get(token.0 as usize).copied()
}

/// Whether the command is one of a worker who gives it to that server: worker 0 registers, the client at index i is worker i, and
/// server s has the workers 4 + 2s and 5 + 2s.
fn is_in_place(plans: &[Vec<ServerId>], server: ServerId, event: &Event<TickTag>) -> bool {
    let worker = event.worker.0;
    match event.command {
        Command::Register { at, .. } => worker == 0 && at == Moment::zero(),
        Command::Add { client, token, .. } => {
            client.0 == worker.wrapping_add(1) && planned(plans, worker, token) == Some(server)
        }
        Command::Pull { .. } => (worker / 2).checked_sub(2) == Some(server.0),
        _ => false,
    }
}

/// Whether there is an event at an index, and its worker and server are right.
fn is_in_place_at(
    plans: &[Vec<ServerId>],
    server: ServerId,
    history: &EventHistory<TickTag>,
    index: usize,
) -> bool {
    match history.at(index) {
        Some(event) => is_in_place(plans, server, &event),
        None => false,
    }
}

/// Each event of the history has the right worker and server.
fn are_in_place(
    rt: &impl Abort,
    plans: &[Vec<ServerId>],
    server: ServerId,
    history: &EventHistory<TickTag>,
) {
    for i in 0..history.len() {
        assert!(rt; is_in_place_at(plans, server, history, i), "at {i}");
    }
}

#[test]
fn each_to_its_server(rt: HostRuntime) -> Result<(), Fail> {
    let scene = three_servers(rt.alloc())?;
    let report = done(run(&rt, &scene, &Prompt))?;
    let plans = plans_of(rt.alloc(), &scene)?;
    for row in &report.servers {
        are_in_place(&rt, &plans, row.server, &row.history);
    }
    Ok(())
}

/// Client 1 sends 40 requests to one server, whose one worker serves them. At most 3 are outstanding, and its limit has the worker
/// pull when none is due.
const ONE: &str = "hz = 1000\ntags = \"tick\"\nservers = 1\nworkers = 1\nstep = 1\nseed = 7\n\
                   max_pulls = 1000000\n[[client]]\nid = 1\nweight = 1\nlimit = 100\nrequests = 40\nwindow = 3\n";

/// Serves after a while, so that a client that does not wait would get ahead.
struct Slow;

impl Service for Slow {
    fn serve(&self, _job: &Job) -> Result<(), ServeFault> {
        for _ in 0..1000u32 {
            thread::yield_now();
        }
        Ok(())
    }
}

/// What a history shows up to some event: how many requests were added and granted, and the last moments.
#[derive(Clone, Copy, Debug, PartialEq, Eq)]
struct Seen {
    added: u32,
    granted: u32,
    last_add: Option<Moment>,
    last_pull: Option<Moment>,
}

/// With one more event, or `None` if a token or a moment is not in order.
fn seen_with(seen: Seen, event: &Event<TickTag>) -> Option<Seen> {
    let is_grant = matches!(&event.reply, Reply::Granted { .. });
    match event.command {
        Command::Register { .. } => Some(seen),
        Command::Add { token, at, .. } if token.0 == seen.added && Some(at) > seen.last_add => {
            Some(Seen {
                added: seen.added.wrapping_add(1),
                last_add: Some(at),
                ..seen
            })
        }
        Command::Pull { at } if Some(at) > seen.last_pull => Some(Seen {
            granted: seen.granted.wrapping_add(u32::from(is_grant)),
            last_pull: Some(at),
            ..seen
        }),
        _ => None,
    }
}

/// With the event at an index more, or `None` if there is none or it is not in order.
fn seen_at(seen: Seen, history: &EventHistory<TickTag>, index: usize) -> Option<Seen> {
    match history.at(index) {
        Some(event) => seen_with(seen, &event),
        None => None,
    }
}

/// With the event at an index more, which is there and in order.
fn next_seen(rt: &impl Abort, seen: Seen, history: &EventHistory<TickTag>, index: usize) -> Seen {
    match seen_at(seen, history, index) {
        Some(next) => next,
        None => panic!(rt; "at {index}"),
    }
}

/// What the whole history shows. It is in order, and at most 3 requests are queued at once.
fn seen_in(rt: &impl Abort, history: &EventHistory<TickTag>) -> Seen {
    let mut seen = Seen {
        added: 0,
        granted: 0,
        last_add: None,
        last_pull: None,
    };
    for i in 0..history.len() {
        seen = next_seen(rt, seen, history, i);
        assert!(rt; seen.added <= seen.granted.saturating_add(3), "at {i}");
    }
    seen
}

#[test]
fn one_client_in_order(rt: HostRuntime) -> Result<(), Fail> {
    let scene = read_scene(rt.alloc(), ONE.as_bytes())?;
    let report = done(run(&rt, &scene, &Slow))?;
    for row in &report.servers {
        let seen = seen_in(&rt, &row.history);
        assert_same(&rt, &(seen.added, seen.granted), &(40, 40));
    }
    assert_same(&rt, &report.servers.len(), &1);
    Ok(())
}
