//! What C holds.
ghost use Rattle.std.specs.Prelude.{◌≡◌};
ghost use Rattle.dmc_c.specs.Calls.{AtQueue, AtTracker, Asks, counts_of, Stamps, Skips, Responds, track_at};

use crate::fault::Fault;
use crate::outputs::DmcTrack;
use crate::reading::Grant;
use dmc_any_queue::any_queue::AnyQueue;
use dmc_any_queue::fraction::TagFraction;
use dmc_shards::tracker::ShardTracker;
use dmc_tag::reply::Reply;
use dmc_tracker::tracker::{ServiceTracker, TrackFault};
use dmc_types::command::Command;
use dmc_types::cost::Cost;
use dmc_types::ids::ServerId;
use dmc_types::params::ReqParams;

/// A queue, a tracker or a shard tracker. A call that is for another is refused `NoneHeld`.
#[derive(Drop)]
pub enum Kept {
    Queue(AnyQueue),
    Tracker(ServiceTracker),
    Shards(ShardTracker),
}

impl Kept {
    /// The queue's reply to a command, if its values are within their limits.
    #[inline(always)]
    pub fn ask(&mut self, command: Result<Command, Fault>) -> Result<Reply<TagFraction>, Fault>
        ensures { AtQueue (Asks command) self.old self.new result }
    {
        let Kept::Queue(queue) = self else {
            return Err(Fault::NoneHeld);
        };
        let command = command?;
        Ok(queue.apply(&command)?)
    }

    /// How many clients are registered and how many requests are queued.
    pub fn counts(&self) -> Result<(u32, u32), Fault>
        ensures { result ≡ counts_of self.now }
    {
        let Kept::Queue(queue) = self else {
            return Err(Fault::NoneHeld);
        };
        Ok((queue.client_count(), queue.request_count()))
    }

    /// The tracker's stamp of a request to a server, if the number is a cost.
    pub fn stamp(&mut self, server: ServerId, cost: Result<Cost, Fault>) -> Result<ReqParams, Fault>
        ensures { AtTracker (Stamps server cost) self.old self.new result }
    {
        let Kept::Tracker(tracker) = self else {
            return Err(Fault::NoneHeld);
        };
        let cost = cost?;
        Ok(tracker.get_req_params(server, cost)?)
    }

    /// Skips what is pending at a server.
    pub fn skip(&mut self, server: ServerId) -> Result<(), Fault>
        ensures { AtTracker (Skips server) self.old self.new result }
    {
        let Kept::Tracker(tracker) = self else {
            return Err(Fault::NoneHeld);
        };
        Ok(tracker.skip(server)?)
    }

    /// Counts a completion of a server, if the numbers name a grant.
    pub fn respond(&mut self, server: ServerId, grant: Result<Grant, Fault>) -> Result<(), Fault>
        ensures { AtTracker (Responds server grant) self.old self.new result }
    {
        let Kept::Tracker(tracker) = self else {
            return Err(Fault::NoneHeld);
        };
        let grant = grant?;
        Ok(tracker.track_resp(server, grant.phase, grant.cost)?)
    }

    /// What the tracker reports of a server.
    pub fn track(&self, server: ServerId) -> Result<DmcTrack, Fault>
        ensures { result ≡ track_at server self.now }
    {
        let Kept::Tracker(tracker) = self else {
            return Err(Fault::NoneHeld);
        };
        let (Some(pending), Some(sent)) = (tracker.pending(server), tracker.sent(server)) else {
            return Err(Fault::Track(TrackFault::NoServer));
        };
        let completions = tracker.completions();
        Ok(DmcTrack {
            pending_delta: pending.0,
            pending_rho: pending.1,
            sent_delta: sent.0,
            sent_rho: sent.1,
            completions: completions.0,
            reservation: completions.1,
        })
    }
}
