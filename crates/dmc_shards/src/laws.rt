//! What follows from a list of calls, and from it and the history of a shard's queue. Each law is the contract of a function that
//! does nothing: a caller that calls it knows the law.
ghost use Rattle.std.specs.Prelude.{◌≡◌, ◌<◌, List};
ghost use Rattle.dmc_types.specs.Values.{Setting, no_counts};
ghost use Rattle.dmc_types.specs.declared.ids.ServerId.{ServerId};
ghost use Rattle.dmc_tracker.specs.TrackerList.{plus};
ghost use Rattle.dmc_shards.specs.declared.call.ShardCall.{ShardCall};
ghost use Rattle.dmc_shards.specs.CallList.{came, given_back, stamped, sent, skips, skipped, skipped_after, pending, IsAccepted};
ghost use Rattle.dmc_shards.specs.ShardBounds.{LimitAcrossShards, LimitAcrossShardsWithCancels, ReservationAcrossShards, ReservationAcrossShardsWithCancels};

use crate::call::ShardCall;
use dmc_tag::tag::Tag;

/// What was sent to a shard, what was skipped and what is pending there is what came in, in both counts, of every list whose calls
/// were accepted.
pub fn sent_and_pending_is_what_came()
    ensures { (calls : List ShardCall) (s : ServerId) → IsAccepted calls → plus (plus (sent s calls) (skipped s calls)) (pending s calls) ≡ came calls }
{}

/// What was stamped to a shard, what was skipped and what is pending there is what came in and what the shard gave back, in both
/// counts, of every list.
pub fn stamped_and_pending_is_what_came_and_came_back()
    ensures { (calls : List ShardCall) (s : ServerId) → plus (plus (stamped s calls) (skipped s calls)) (pending s calls) ≡ plus (came calls) (given_back s calls) }
{}

/// If a shard was never skipped, nothing was skipped there.
pub fn nothing_is_skipped()
    ensures { (s : ServerId) (before calls : List ShardCall) → skips s calls ≡ 0 → skipped_after s before calls ≡ no_counts }
{}

/// A limit holds across the shards of a server, whatever was taken back: from an accepted add of a client at a shard, a_i, to the
/// grant of a_k there in phase Priority, not beyond, hz times the sum of the deltas that came in, for all shards, between the stamps
/// of a_i and a_k is at most the limit times the ticks between, and hz for each unit of cost of those arrivals at this shard between
/// the two that a Cancel in the form `Others` took out: what they were charged is given back to those behind them. Of a client of
/// which no request was taken back (no Cancel of it was accepted) the last is none.
///
/// That is so if what was stamped between for other requests of the shard, which its queue refused, was given back before a_k was
/// stamped, and nothing was skipped at the shard between. What was not given back is in the bound; so is a request that arrives at
/// the queue out of the order of the stamps, and so is what was skipped, since no stamp to the shard counts it.
pub fn limits_hold_across_shards<T: Tag>()
    ensures with_cancels { (config : Setting) → 0 < config.hz → LimitAcrossShardsWithCancels T.ops config }
    ensures never_cancelled { (config : Setting) → 0 < config.hz → LimitAcrossShards T.ops config }
{}

/// A reservation holds across the shards of a server, whatever was taken back: up to the grant of a_k in phase Reservation, hz times
/// the sum of the rhos that came in between, less hz for each unit of cost of the client's Priority grants at the shard after a_i, is
/// at most the reservation times the ticks between, and hz for each unit of cost of what Cancels in the form `Others` took out, on
/// the same condition. Of a client of which no request was taken back the last is none.
pub fn reservations_hold_across_shards<T: Tag>()
    ensures with_cancels { (config : Setting) → 0 < config.hz → ReservationAcrossShardsWithCancels T.ops config }
    ensures never_cancelled { (config : Setting) → 0 < config.hz → ReservationAcrossShards T.ops config }
{}
