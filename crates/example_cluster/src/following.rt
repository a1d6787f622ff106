//! One request through a cluster core, and what the laws say of it.
ghost use Rattle.std.specs.Prelude.{IfOk};
ghost use Rattle.dmclock_cluster.specs.Steps.{Steps};
ghost use Rattle.dmclock_cluster.specs.Types.{state_of, tick_ops};
ghost use Rattle.example_cluster.specs.Limits.{KeepsToLimits, steps_of};

use anyhow::bail;
use dmclock_cluster::laws::{cores_keep_to_limits, scenes_have_spacings};
use dmclock_cluster::{
    ClientId, ClusterCore, CoreEvent, CoreFault, CoreReply, Cost, Moment, Scene, ServerId, TagKind,
    TickTag, Token,
};
use std::alloc::Global;

/// What a core replies to the stamp of a request, to its arrival, and to the pull after it.
#[derive(Drop)]
pub struct Replies {
    pub stamped: Result<CoreReply<TickTag>, CoreFault>,
    pub arrived: Result<CoreReply<TickTag>, CoreFault>,
    pub pulled: Result<CoreReply<TickTag>, CoreFault>,
}

/// Follows a client's first request to a server, at one moment. What the core replies keeps to the limits of all clients.
pub fn follow_one(
    alloc: Global,
    scene: &Scene,
    client: ClientId,
    server: ServerId,
    at: Moment,
) -> anyhow::Result<Replies>
    ensures { IfOk result (λ replies. KeepsToLimits scene.now (steps_of client server at replies)) }
{
    if scene.tags() != TagKind::Tick {
        bail!("the settings name tags in ratios");
    }
    scenes_have_spacings(scene);
    let mut core = ClusterCore::<TickTag>::new(alloc, scene)?;
    let replies = follow(&mut core, client, server, at);
    cores_keep_to_limits::<TickTag>();
    Ok(replies)
}

/// Stamps a request, has it arrive, and pulls.
fn follow(
    core: &mut ClusterCore<TickTag>,
    client: ClientId,
    server: ServerId,
    at: Moment,
) -> Replies
    ensures { Steps tick_ops state_of core.old (steps_of client server at result) core.new }
{
    let token = Token(1);
    let stamped = core.step(CoreEvent::Stamp {
        client,
        server,
        token,
        cost: Cost::ONE,
    });
    let arrived = core.step(CoreEvent::Arrive { client, server, at });
    let pulled = core.step(CoreEvent::Pull { server, at });
    Replies {
        stamped,
        arrived,
        pulled,
    }
}
