//! How a cluster opens for a scene: every client registers at every server at moment 0, in the scene's order, and has a
//! tracker of its own. Nothing is in flight.
ghost use Rattle.std.specs.Prelude.{◌≡◌, IfOk, OnOk, length, map};
ghost use Rattle.std.specs.List.{AllByRecursion};
ghost use Rattle.dmc_pull.specs.Queue.{state_of};
ghost use Rattle.dmc_tag.specs.State.{opening};
ghost use Rattle.dmc_core.specs.Core.{RepresentsRun};
ghost use Rattle.dmc_core.specs.Opening.{HaveSpacings, opening_of};
ghost use Rattle.dmc_core.specs.internal.Opening.{opening_state, opening_client};

use crate::client::CoreClient;
use crate::cluster::Cluster;
use crate::ids::ClientIds;
use crate::server::CoreServer;
use dmc_index::index::Indexes;
use dmc_pull::queue::PullQueue;
use dmc_scene::scene::Scene;
use dmc_tag::scheduler::Scheduler;
use dmc_tag::tag::Tag;
use dmc_types::moment::Moment;
use dmc_types::refusal::QueueFault;
use std::alloc::{AllocError, Global};

/// The clients, each with nothing under way.
fn open_clients(alloc: Global, scene: &Scene) -> Result<Vec<CoreClient>, AllocError>
    ensures { IfOk result (λ clients. clients.items ≡ map (opening_client scene.now.counting scene.now.servers) scene.now.clients) }
{
    let counting = scene.counting();
    let servers = scene.servers();
    let mut clients = Vec::with_capacity(alloc, scene.clients().len())?;
    for client in scene.clients() {
        clients.push(CoreClient::new(alloc, client.id(), servers, counting)?)?;
    }
    Ok(clients)
}

/// Registers the clients of a scene at a new queue. None is refused: their ids differ, and their rates have spacings.
fn register_all<T: Tag, Q: Scheduler<T>>(queue: &mut Q, scene: &Scene) -> Result<(), AllocError>
    requires opens { Q.state queue.old ≡ opening T.ops scene.now.config }
    requires spaced { HaveSpacings T.ops scene.now }
    ensures { OnOk result (Q.state queue.new ≡ opening_state T.ops scene.now) }
{
    for client in scene.clients() {
        match queue.register(client.id(), client.info(), Moment::zero()) {
            Ok(()) => {}
            Err(QueueFault::Memory) => return Err(AllocError),
            Err(QueueFault::Refused(_)) => unreachable!(),
        }
    }
    Ok(())
}

/// A server at whose new queue the clients register. None of its counts of grants is full.
fn open_server<T: Tag, Q: Scheduler<T> + Drop>(
    mut queue: Q,
    scene: &Scene,
) -> Result<CoreServer<Q>, AllocError>
    requires opens { Q.state queue ≡ opening T.ops scene.now.config }
    requires spaced { HaveSpacings T.ops scene.now }
    ensures { IfOk result (λ server. (Q.state server.queue ≡ opening_state T.ops scene.now) × (server.full ≡ 0)) }
{
    register_all(&mut queue, scene)?;
    Ok(CoreServer { queue, full: 0 })
}

/// The servers of a scene.
fn open_servers<T: Tag, I: Indexes<T>>(
    alloc: Global,
    scene: &Scene,
) -> Result<Vec<CoreServer<PullQueue<T, I>>>, AllocError>
    requires { HaveSpacings T.ops scene.now }
    ensures as_many { IfOk result (λ servers. length servers.items ≡ scene.now.servers) }
    ensures each { IfOk result (λ servers. AllByRecursion (λ s. (state_of s.queue ≡ opening_state T.ops scene.now) × (s.full ≡ 0)) servers.items) }
{
    let mut servers = Vec::with_capacity(alloc, scene.servers() as usize)?;
    for _ in 0..scene.servers() {
        let queue = PullQueue::new(alloc, scene.config());
        let server = open_server(queue, scene)?;
        servers.push(server)?;
    }
    Ok(servers)
}

/// The cluster that a scene opens, over indexed queues.
pub fn open_cluster<T: Tag, I: Indexes<T>>(
    alloc: Global,
    scene: &Scene,
) -> Result<Cluster<PullQueue<T, I>>, AllocError>
    requires { HaveSpacings T.ops scene.now }
    ensures { IfOk result (λ cluster. RepresentsRun state_of cluster (opening_of T.ops scene.now)) }
{
    let clients = open_clients(alloc, scene)?;
    let ids = ClientIds::of_clients(alloc, scene.clients())?;
    let servers = open_servers(alloc, scene)?;
    Ok(Cluster::of_parts(ids, clients, servers))
}
