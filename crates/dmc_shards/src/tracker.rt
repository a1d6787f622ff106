//! The shard tracker.
ghost use Rattle.std.specs.Prelude.{◌≡◌, ◌<◌, ◌≤◌, ◌+◌, ◌↔◌, Option, List, [], ◌∷◌, ◌++◌, length, IfOk, IfSome, OnOk, OnErr, IsOk, IsErrOf, IsOkUnless, slice_get};
ghost use Rattle.dmc_types.specs.Limits.{max_completions, max_servers, max_count};
ghost use Rattle.dmc_types.specs.Values.{counts_of};
ghost use Rattle.dmc_tracker.specs.Numbers.{AreLimits};
ghost use Rattle.dmc_tracker.specs.TrackerList.{plus};
ghost use Rattle.dmc_shards.specs.declared.call.ShardCall.{ShardCall};
ghost use Rattle.dmc_shards.specs.CallList.{demanded};
ghost use Rattle.dmc_shards.specs.ShardNumbers.{Numbers, new_numbers, next_counts, next_params, after_arrival, after_give_back, after_skip, IsFullAt, IsNotSentAt, Keeps, RepresentsCalls};

use crate::call::ShardCall;
use crate::shard::ShardCounts;
use crate::status::ShardStatus;
use dmc_tracker::counts::Counts;
use dmc_tracker::tracker::{MakeFault, TrackFault};
use dmc_types::ids::ServerId;
use dmc_types::limits::{MAX_COMPLETIONS, MAX_COUNT, MAX_SERVERS};
use dmc_types::params::ReqParams;
use std::alloc::Global;
use std::marker::Model;
use thiserror::Error;

/// Why counts can't be given back. The tracker is as it was.
#[derive(Clone, Copy, Debug, PartialEq, Eq, Error)]
pub enum GiveBackFault {
    /// The tracker has no such shard.
    #[error("the tracker has no such shard")]
    NoServer,
    /// More is given back than was sent to the shard, in one of the two counts.
    #[error("more is given back than was sent to the shard")]
    NotSent,
}

/// The tracker of one client for shards 0, 1, .. of one server, each with a queue of its own (extension: to the rules a shard is a
/// server).
///
/// Each shard's queue has the client's full rates, and has to know what the client was served elsewhere. A request's stamp says
/// what completed since the client's last request to this server; the shard's stamp says what came in since the last request to
/// this shard. It is the service tracker in the form `All` whose completions come in amounts, with the stamps. Every call takes
/// constant time, and only `new` allocates.
///
/// A client whose requests bring no stamps, since its service tracker is at this server, needs none: its tracker stamps for the
/// shards, as its servers.
#[derive(Drop)]
pub struct ShardTracker {
    most: u64,
    came: Counts,
    shards: Vec<ShardCounts>,
}

impl Model for ShardTracker {
    ghost use Rattle.dmc_shards.specs.ShardNumbers.{Numbers};

    ghost Value = { Numbers };

    ghost use Rattle.dmc_shards.specs.Kept.{view_of, AreKept};

    ghost view = { λ t. view_of t.most t.came t.shards.items };

    ghost invariant = { λ t. AreKept t.most t.came t.shards.items };
}

impl ShardTracker {
    /// A tracker of `shards` shards (1 to 64), to which deltas of `most` in all can come (1 to 2^62): refused `Limit`, then
    /// `Memory`. It represents the empty list.
    pub fn new(alloc: Global, shards: u32, most: u64) -> Result<ShardTracker, MakeFault>
        ensures ok { IfOk result (λ tracker. tracker ≡ new_numbers most shards) }
        ensures represents { IfOk result (λ tracker. RepresentsCalls tracker []) }
        ensures limit { (AreLimits shards most → ⊥) → result ≡ Err MakeFault.Limit }
        ensures memory { AreLimits shards most → IsOkUnless result MakeFault.Memory }
    {
        if shards < 1 || shards > MAX_SERVERS || most < 1 || most > MAX_COMPLETIONS {
            return Err(MakeFault::Limit);
        }
        let counts = vec![in alloc; ShardCounts::none(); shards as usize]?;
        Ok(ShardTracker {
            most,
            came: Counts::none(),
            shards: counts,
        })
    }

    /// A request that came in with this stamp goes to a shard: what it returns is the stamp for the shard's queue, of
    /// the same cost. The delta and the rho that came are pending at each shard, and what is now pending at this one is stamped.
    ///
    /// Refused `NoServer`, then `TrackFull` if the deltas that came would pass `most`, or the stamped delta 2^32-1. A shard to
    /// which the client sent nothing for more than that refuses from then on, until what is pending there is skipped.
    pub fn arrive(&mut self, shard: ServerId, params: ReqParams) -> Result<ReqParams, TrackFault>
        ensures params { IfOk result (λ stamped. stamped ≡ next_params self.old shard params) }
        ensures after { OnOk result (self.new ≡ after_arrival shard params self.old) }

        // Of each list that the tracker represents, it takes the numbers to those of the list with this arrival, and the stamp
        // is what the list demands.
        ensures represents { IfOk result (λ stamped. (calls : List ShardCall) → RepresentsCalls self.old calls
            → (stamped ≡ demanded shard params calls) × RepresentsCalls self.new (calls ++ ShardCall.Arrive shard params ∷ [])) }

        ensures no_server { IsErrOf result TrackFault.NoServer ↔ (length self.old.shards ≤ shard.0) }
        ensures full { IsErrOf result TrackFault.TrackFull ↔ IsFullAt self.old shard params }
        ensures err { OnErr result (self.new ≡ self.old) }
        ensures kept { Keeps self.old self.new }
    {
        let stamped = self.next(shard, params)?;
        self.take_arrival(shard, params, stamped);
        Ok(stamped)
    }

    /// The stamp that `arrive` would return; nothing changes. So a request can be given to the shard's queue first, and come in if that
    /// accepts it: if it is refused, it leaves no trace, and its client may keep its stamp. Both calls are made while no other request
    /// of the client comes in.
    ///
    /// Refused as `arrive` would be.
    pub fn next(&self, shard: ServerId, params: ReqParams) -> Result<ReqParams, TrackFault>
        ensures params { IfOk result (λ stamped. stamped ≡ next_params self.now shard params) }

        // It is the stamp that each list demands that the tracker represents.
        ensures demanded { IfOk result (λ stamped. (calls : List ShardCall) → RepresentsCalls self.now calls
            → stamped ≡ demanded shard params calls) }

        ensures no_server { IsErrOf result TrackFault.NoServer ↔ (length self.now.shards ≤ shard.0) }
        ensures full { IsErrOf result TrackFault.TrackFull ↔ IsFullAt self.now shard params }
        ensures within { OnOk result (shard.0 < length self.now.shards) }
        ensures counted { OnOk result (self.now.came.delta + params.delta ≤ self.now.most) }
    {
        self.test_arrival(shard, params)?;
        Ok(self.next_stamp(shard, params))
    }

    /// What an arrival that passed the test is stamped with.
    fn next_stamp(&self, shard: ServerId, params: ReqParams) -> ReqParams
        requires within { shard.0 < length self.now.shards }
        requires counted { self.now.came.delta + params.delta ≤ self.now.most }
        requires carried { (next_counts self.now shard params).delta ≤ max_count }
        ensures { result ≡ next_params self.now shard params }
    {
        let came = self.came.plus(Counts::of_stamp(params));
        let next = self.shards[shard.0 as usize].pending(came);
        next.stamp(params.cost())
    }

    /// Whether an arrival would be refused, and why.
    fn test_arrival(&self, shard: ServerId, params: ReqParams) -> Result<(), TrackFault>
        ensures no_server { IsErrOf result TrackFault.NoServer ↔ (length self.now.shards ≤ shard.0) }
        ensures full { IsErrOf result TrackFault.TrackFull ↔ IsFullAt self.now shard params }
        ensures within { OnOk result (shard.0 < length self.now.shards) }
        ensures counted { OnOk result (self.now.came.delta + params.delta ≤ self.now.most) }
        ensures carried { OnOk result ((next_counts self.now shard params).delta ≤ max_count) }
    {
        let index = shard.0 as usize;
        if index >= self.shards.len() {
            return Err(TrackFault::NoServer);
        }
        let came = self.came.plus(Counts::of_stamp(params));
        let next = self.shards[index].pending(came);
        if came.delta > self.most || next.delta > u64::from(MAX_COUNT) {
            return Err(TrackFault::TrackFull);
        }
        Ok(())
    }

    /// An arrival that passed the test, with its stamp.
    fn take_arrival(&mut self, shard: ServerId, params: ReqParams, stamped: ReqParams)
        requires within { shard.0 < length self.old.shards }
        requires counted { self.old.came.delta + params.delta ≤ self.old.most }
        requires stamped { stamped ≡ next_params self.old shard params }
        ensures after { self.new ≡ after_arrival shard params self.old }
        ensures kept { Keeps self.old self.new }
    {
        let came = self.came.plus(Counts::of_stamp(params));
        let index = shard.0 as usize;
        let counts = self.shards[index];
        self.came = came;
        self.shards[index] = ShardCounts {
            sent: counts.sent.plus(Counts::of_stamp(stamped)),
            ..counts
        };
    }

    /// The shard's queue refused a request that was stamped with these counts (it was full, or the request was over its limit): what
    /// was stamped is pending there again, and the next stamp to the shard carries it. The request's cost does not matter. Other
    /// requests may have been stamped in between: sums alone are kept, so that each request that was refused gives its counts back
    /// once, in any order.
    ///
    /// Refused `NoServer`, then `NotSent` if it is more than was sent to the shard and was not given back, in one of the counts.
    pub fn give_back(&mut self, shard: ServerId, params: ReqParams) -> Result<(), GiveBackFault>
        ensures after { OnOk result (self.new ≡ after_give_back shard params self.old) }

        // Of each list that the tracker represents, it takes the numbers to those of the list with this call.
        ensures represents { OnOk result ((calls : List ShardCall) → RepresentsCalls self.old calls
            → RepresentsCalls self.new (calls ++ ShardCall.GiveBack shard params ∷ [])) }

        ensures no_server { IsErrOf result GiveBackFault.NoServer ↔ (length self.old.shards ≤ shard.0) }
        ensures not_sent { IsErrOf result GiveBackFault.NotSent ↔ IsNotSentAt self.old shard params }
        ensures err { OnErr result (self.new ≡ self.old) }
        ensures kept { Keeps self.old self.new }
    {
        let index = shard.0 as usize;
        if index >= self.shards.len() {
            return Err(GiveBackFault::NoServer);
        }
        let counts = self.shards[index];
        let given = Counts::of_stamp(params);
        if given.delta > counts.sent.delta || given.rho > counts.sent.rho {
            return Err(GiveBackFault::NotSent);
        }
        self.shards[index] = ShardCounts {
            sent: counts.sent.minus(given),
            ..counts
        };
        Ok(())
    }

    /// Skips what is pending at a shard: the next stamp to it counts only what comes later. It sends nothing. If an arrival is refused
    /// `TrackFull` for its delta, a skip ends that. Refused `NoServer`.
    pub fn skip(&mut self, shard: ServerId) -> Result<(), TrackFault>
        ensures after { OnOk result (self.new ≡ after_skip shard self.old) }

        // Of each list that the tracker represents, it takes the numbers to those of the list with this skip.
        ensures represents { OnOk result ((calls : List ShardCall) → RepresentsCalls self.old calls
            → RepresentsCalls self.new (calls ++ ShardCall.Skip shard ∷ [])) }

        ensures ok { IsOk result ↔ (shard.0 < length self.old.shards) }
        ensures no_server { IsErrOf result TrackFault.NoServer ↔ (length self.old.shards ≤ shard.0) }
        ensures err { OnErr result (self.new ≡ self.old) }
        ensures kept { Keeps self.old self.new }
    {
        let index = shard.0 as usize;
        if index >= self.shards.len() {
            return Err(TrackFault::NoServer);
        }
        let counts = self.shards[index];
        let pending = counts.pending(self.came);
        self.shards[index] = ShardCounts {
            skipped: counts.skipped.plus(pending),
            ..counts
        };
        Ok(())
    }

    /// What was sent to a shard, what was skipped and what is pending there, or `None` if the tracker has no such shard.
    pub fn status(&self, shard: ServerId) -> Option<ShardStatus>
        ensures value { result ≡ slice_get self.now.shards shard.0 }
        ensures sums { IfSome result (λ status. plus (plus status.sent status.skipped) status.pending ≡ self.now.came) }
    {
        let counts = *self.shards.get(shard.0 as usize)?;
        Some(ShardStatus {
            sent: counts.sent,
            skipped: counts.skipped,
            pending: counts.pending(self.came),
        })
    }

    /// The counts that came in, at all shards.
    pub fn came(&self) -> Counts
        ensures value { result ≡ self.now.came }
        ensures part { result.rho ≤ result.delta }
        ensures bound { result.delta ≤ self.now.most }
    {
        self.came
    }

    /// How many shards it has.
    pub fn shards(&self) -> u32
        ensures value { result ≡ length self.now.shards }
        ensures some { 0 < result }
        ensures limit { result ≤ max_servers }
    {
        self.shards.len() as u32
    }

    /// The most that can come, by the deltas.
    pub fn most(&self) -> u64
        ensures value { result ≡ self.now.most }
        ensures some { 0 < result }
        ensures limit { result ≤ max_completions }
    {
        self.most
    }
}
