//! What the settings of a cluster give before there is a cluster: a scene is read from its text, one of its requests is followed
//! event by event, and the whole scene is run in threads. It names `dmclock_cluster` alone.
#![tactic(auto)]

mod following;
mod running;

use crate::following::follow_one;
use crate::running::run;
use anyhow::Result;
use dmclock_cluster::{ClientId, CoreReply, Moment, Reply, ServerId, read_scene};

/// One server, and two clients of which the first has a reservation.
const SETTINGS: &str = "hz = 1000
tags = \"tick\"
servers = 1
workers = 2
step = 50
seed = 1
max_pulls = 100000
[[client]]
id = 1
reservation = 10
weight = 1
requests = 20
window = 2
[[client]]
id = 2
weight = 2
requests = 20
window = 2
";

fn main(rt: HostRuntime) -> Result<()> {
    let scene = read_scene(rt.alloc(), SETTINGS.as_bytes())?;
    let replies = follow_one(rt.alloc(), &scene, ClientId(1), ServerId(0), Moment::zero())?;
    let granted = matches!(replies.pulled, Ok(CoreReply::Served(Reply::Granted { .. })));
    println!(&rt; "the first request is granted: {granted}")?;
    let report = run(&rt, rt.alloc(), &scene)?;
    for client in report.clients.iter() {
        println!(&rt;
            "client {}: {} completed",
            client.client.0, client.completed
        )?;
    }
    Ok(())
}
