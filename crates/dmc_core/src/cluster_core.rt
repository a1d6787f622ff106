//! The cluster core: the cluster over indexed queues with heaps.
ghost use Rattle.std.specs.List.{find};
ghost use Rattle.std.specs.Prelude.{◌≡◌, IfOk, length, slice_get};
ghost use Rattle.std.specs.Option.{option_map};
ghost use Rattle.dmc_core.specs.Core.{Follows, RepresentsRun, completions_of};
ghost use Rattle.dmc_core.specs.Opening.{HaveSpacings, opening_of};
ghost use Rattle.dmc_pull.specs.Queue.{state_of};
ghost use Rattle.dmc_tag.specs.State.{queued_requests, is_client};

use crate::cluster::Cluster;
use crate::event::{CoreEvent, CoreFault, CoreReply};
use crate::opening::open_cluster;
use dmc_heap::adaptive_index::HeapIndexes;
use dmc_pull::queue::PullQueue;
use dmc_scene::scene::Scene;
use dmc_tag::scheduler::Scheduler;
use dmc_tag::tag::Tag;
use dmc_types::ids::{ClientId, ServerId};
use std::alloc::{AllocError, Global};
use std::marker::Model;

/// One thread's cluster: a queue of dmClock per server (indexed, over heaps), a service tracker per client, and per pair of a
/// client and a server the messages in flight and the grants that wait for their responses.
///
/// Contracts see each server's queue, and each client with its tracker's numbers, messages and grants. Which states of a
/// cluster run the core represents says `RepresentsRun` (`specs/Core.antt`); what a run is and what an event makes of it,
/// `specs/Run.antt` and `specs/Events.antt`. A client is found where a table of hints has it, or else by a hash of its id, and
/// a server by its index. No call walks over clients or servers but inside a queue, as a clean does.
#[derive(Drop)]
pub struct ClusterCore<T: Tag> {
    cluster: Cluster<PullQueue<T, HeapIndexes>>,
}

impl<T: Tag> Model for ClusterCore<T> {
    ghost use Rattle.dmc_core.specs.Core.{CoreValue};
    ghost use Rattle.dmc_pull.specs.Queue.{Queue};

    ghost Value = { CoreValue (Queue T) };

    ghost view = { λ c. c.cluster };
}

impl<T: Tag> ClusterCore<T> {
    /// The cluster that a scene opens: each queue has the scene's configuration, every client has registered at every server
    /// at moment 0, in the scene's order, and has a tracker of 2^32-1 completions in the scene's counting form. Each rate of
    /// the scene has to have a spacing in `T`: in ticks a scene with `tags = "tick"` has them. The error is a failed allocation.
    pub fn new(alloc: Global, scene: &Scene) -> Result<ClusterCore<T>, AllocError>
        requires { HaveSpacings T.ops scene.now }
        ensures { IfOk result (λ core. RepresentsRun state_of core (opening_of T.ops scene.now)) }
    {
        Ok(ClusterCore {
            cluster: open_cluster(alloc, scene)?,
        })
    }

    /// Carries out an event. From each run that the core represents, the answer is that of the rules, and the core then
    /// represents the run after the event; a refused event has changed nothing. Of several causes the first is reported, in the order of
    /// `CoreFault`. `Memory` comes last, of a stamp or an arrival alone: the rules and the queue would have accepted it, and
    /// the core represents what it did before.
    #[inline(always)]
    pub fn step(&mut self, event: CoreEvent) -> Result<CoreReply<T>, CoreFault>
        ensures { Follows T.ops state_of event self.old self.new result }
    {
        self.cluster.carry_out(event)
    }

    /// The costs of a client's completions, and of those in the constraint phase; `None` if the cluster has no such client.
    pub fn completions(&self, client: ClientId) -> Option<(u64, u64)>
        ensures { result ≡ option_map completions_of (find (λ h. is_client client h.id) self.now.clients) }
    {
        self.cluster.completions(client)
    }

    /// How many requests are queued at a server, if there is such a server.
    pub fn request_count(&self, server: ServerId) -> Option<u32>
        ensures { result ≡ option_map (λ queue. length (queued_requests (state_of queue).clients)) (slice_get self.now.servers server.0) }
    {
        Some(self.cluster.queue(server)?.request_count())
    }
}
