//! The shard tracker's calls.
ghost use Rattle.std.specs.Prelude.{◌≡◌, ⊤, Result, None};
ghost use Rattle.dmc_types.specs.Values.{Params};
ghost use Rattle.dmc_types.specs.declared.ids.ServerId.{ServerId};
ghost use Rattle.dmc_c.specs.declared.fault.Fault.{Fault};
ghost use Rattle.dmc_c.specs.Codes.{code_of};
ghost use Rattle.dmc_c.specs.Reading as reading;
ghost use Rattle.dmc_c.specs.Outputs.{value_or_old, stamp_written};
ghost use Rattle.dmc_c.specs.Calls.{Makes, Opens};
ghost use Rattle.dmc_c.specs.ShardCalls.{AtShards, Arrives, GivesBack, Nexts, SkipsShard, shard_at, ArrivesHeld, NextsHeld, GivesBackHeld, SkipsShardHeld, shard_held, new_shards, shards_opened};

use crate::fault::{Fault, code_of};
use crate::handle::{Handle, check_vacant, fill, put, take};
use crate::kept::Kept;
use crate::outputs::{DmcStamp, DmcTrack, write_stamp, write_value};
use crate::reading;
use dmc_shards::tracker::ShardTracker;
use dmc_tracker::tracker::TrackFault;
use dmc_types::ids::ServerId;
use dmc_types::params::ReqParams;
use std::alloc::Global;

impl Kept {
    /// The stamp for a shard of a request that came in, if the numbers are a stamp.
    pub fn arrive(
        &mut self,
        shard: ServerId,
        params: Result<ReqParams, Fault>,
    ) -> Result<ReqParams, Fault>
        ensures { AtShards (Arrives shard params) self.old self.new result }
    {
        let Kept::Shards(shards) = self else {
            return Err(Fault::NoneHeld);
        };
        let params = params?;
        Ok(shards.arrive(shard, params)?)
    }

    /// The stamp that an arrival would get, if the numbers are a stamp; nothing changes.
    pub fn next_stamp(
        &mut self,
        shard: ServerId,
        params: Result<ReqParams, Fault>,
    ) -> Result<ReqParams, Fault>
        ensures { AtShards (Nexts shard params) self.old self.new result }
    {
        let Kept::Shards(shards) = self else {
            return Err(Fault::NoneHeld);
        };
        let params = params?;
        Ok(shards.next(shard, params)?)
    }

    /// Gives back the counts of a stamp that a shard's queue refused, if the numbers are a stamp.
    pub fn give_back(
        &mut self,
        shard: ServerId,
        params: Result<ReqParams, Fault>,
    ) -> Result<(), Fault>
        ensures { AtShards (GivesBack shard params) self.old self.new result }
    {
        let Kept::Shards(shards) = self else {
            return Err(Fault::NoneHeld);
        };
        let params = params?;
        Ok(shards.give_back(shard, params)?)
    }

    /// Skips what is pending at a shard.
    pub fn skip_shard(&mut self, shard: ServerId) -> Result<(), Fault>
        ensures { AtShards (SkipsShard shard) self.old self.new result }
    {
        let Kept::Shards(shards) = self else {
            return Err(Fault::NoneHeld);
        };
        Ok(shards.skip(shard)?)
    }

    /// What the shard tracker reports of a shard.
    pub fn shard(&self, shard: ServerId) -> Result<DmcTrack, Fault>
        ensures { result ≡ shard_at shard self.now }
    {
        let Kept::Shards(shards) = self else {
            return Err(Fault::NoneHeld);
        };
        let Some(status) = shards.status(shard) else {
            return Err(Fault::Track(TrackFault::NoServer));
        };
        let came = shards.came();
        Ok(DmcTrack {
            pending_delta: status.pending.delta,
            pending_rho: status.pending.rho,
            sent_delta: status.sent.delta,
            sent_rho: status.sent.rho,
            completions: came.delta,
            reservation: came.rho,
        })
    }
}

/// A shard tracker with nothing counted yet.
#[tactic(auto, unfolding(crate::specs::ShardCalls::new_shards))]
fn make_shards(shards: u32, most: u64, alloc: Global) -> Result<ShardTracker, Fault>
    ensures { Makes (new_shards shards most) result }
{
    Ok(ShardTracker::new(alloc, shards, most)?)
}

/// Makes a shard tracker where nothing is held.
fn open_shards(shards: &mut Handle, count: u32, most: u64, alloc: Global) -> Result<(), Fault>
    ensures { Opens (shards_opened (new_shards count most)) shards.old.value shards.new.value result }
{
    check_vacant(shards, alloc)?;
    let made = make_shards(count, most, alloc)?;
    fill(shards, Kept::Shards(made), alloc)
}

/// The stamp for a shard, by the shard tracker that is held.
fn arrive(
    shards: &mut Handle,
    shard: ServerId,
    params: Result<ReqParams, Fault>,
    alloc: Global,
) -> Result<ReqParams, Fault>
    ensures { ArrivesHeld shard params shards.old.value shards.new.value result }
{
    let Some(mut held) = take(shards, alloc) else {
        return Err(Fault::NoneHeld);
    };
    let answer = held.arrive(shard, params);
    put(shards, held, alloc);
    answer
}

/// The stamp that an arrival would get, by the shard tracker that is held.
fn next_stamp(
    shards: &mut Handle,
    shard: ServerId,
    params: Result<ReqParams, Fault>,
    alloc: Global,
) -> Result<ReqParams, Fault>
    ensures { NextsHeld shard params shards.old.value shards.new.value result }
{
    let Some(mut held) = take(shards, alloc) else {
        return Err(Fault::NoneHeld);
    };
    let answer = held.next_stamp(shard, params);
    put(shards, held, alloc);
    answer
}

/// Gives back the counts of a stamp, at the shard tracker that is held.
fn give_back(
    shards: &mut Handle,
    shard: ServerId,
    params: Result<ReqParams, Fault>,
    alloc: Global,
) -> Result<(), Fault>
    ensures { GivesBackHeld shard params shards.old.value shards.new.value result }
{
    let Some(mut held) = take(shards, alloc) else {
        return Err(Fault::NoneHeld);
    };
    let answer = held.give_back(shard, params);
    put(shards, held, alloc);
    answer
}

/// Skips what is pending at a shard, at the shard tracker that is held.
fn skip(shards: &mut Handle, shard: ServerId, alloc: Global) -> Result<(), Fault>
    ensures { SkipsShardHeld shard shards.old.value shards.new.value result }
{
    let Some(mut held) = take(shards, alloc) else {
        return Err(Fault::NoneHeld);
    };
    let answer = held.skip_shard(shard);
    put(shards, held, alloc);
    answer
}

/// What the shard tracker in the handle reports of a shard.
fn status(shards: &mut Handle, shard: ServerId, alloc: Global) -> Result<DmcTrack, Fault>
    ensures value { result ≡ shard_held shard shards.old.value }
    ensures same { shards.new.value ≡ shards.old.value }
{
    let Some(held) = take(shards, alloc) else {
        return Err(Fault::NoneHeld);
    };
    let answer = held.shard(shard);
    put(shards, held, alloc);
    answer
}

/// Makes a shard tracker of `count` shards (1 to 64), to which deltas of `most` in all can come (1 to 2^62): `DMC_HELD`,
/// `DMC_LIMIT`, `DMC_MEMORY`.
#[unsafe(no_mangle)]
pub extern "C" fn dmc_shards_new(shards: &mut Handle, count: u32, most: u64, alloc: Global) -> u32
    ensures { (answer : Result ⊤ Fault) × Opens (shards_opened (new_shards count most)) shards.old.value shards.new.value answer
        × (result ≡ code_of answer) }
{
    let answer = open_shards(shards, count, most, alloc);
    code_of(&answer)
}

/// Ends what is held, if anything is.
#[unsafe(no_mangle)]
pub extern "C" fn dmc_shards_free(shards: &mut Handle, alloc: Global)
    ensures { shards.new.value ≡ None }
{
    if let Some(held) = take(shards, alloc) {
        drop(held);
    }
}

/// Makes of the stamp that a request brought to the server the one for the shard that it goes to: `DMC_NONE_HELD`,
/// `DMC_BAD_PARAMS`, `DMC_BAD_COST`, `DMC_NO_SERVER`, `DMC_TRACK_FULL`.
#[unsafe(no_mangle)]
pub extern "C" fn dmc_shards_arrive(
    shards: &mut Handle,
    shard: u32,
    stamp: &mut DmcStamp,
    alloc: Global,
) -> u32
    ensures { (answer : Result Params Fault)
        × ArrivesHeld (record { 0 = shard }) (reading.stamp_in stamp.old.delta stamp.old.rho stamp.old.cost) shards.old.value shards.new.value answer
        × (result ≡ code_of answer) × (stamp.new ≡ stamp_written answer stamp.old) }
{
    let params = reading::stamped(stamp.delta, stamp.rho, stamp.cost);
    let answer = arrive(shards, ServerId(shard), params, alloc);
    write_stamp(&answer, stamp);
    code_of(&answer)
}

/// Makes of the stamp that a request brought the one that `dmc_shards_arrive` would make, and changes nothing else. If the shard's
/// queue refuses the request, it is then as if it had not come: `DMC_NONE_HELD`, `DMC_BAD_PARAMS`, `DMC_BAD_COST`, `DMC_NO_SERVER`,
/// `DMC_TRACK_FULL`.
#[unsafe(no_mangle)]
pub extern "C" fn dmc_shards_next(
    shards: &mut Handle,
    shard: u32,
    stamp: &mut DmcStamp,
    alloc: Global,
) -> u32
    ensures { (answer : Result Params Fault)
        × NextsHeld (record { 0 = shard }) (reading.stamp_in stamp.old.delta stamp.old.rho stamp.old.cost) shards.old.value shards.new.value answer
        × (result ≡ code_of answer) × (stamp.new ≡ stamp_written answer stamp.old) }
{
    let params = reading::stamped(stamp.delta, stamp.rho, stamp.cost);
    let next = next_stamp(shards, ServerId(shard), params, alloc);
    write_stamp(&next, stamp);
    code_of(&next)
}

/// The shard's queue refused the request that this stamp was made for: its counts are pending there again. `DMC_NONE_HELD`,
/// `DMC_BAD_PARAMS`, `DMC_BAD_COST`, `DMC_NO_SERVER`, `DMC_NOT_SENT`.
#[unsafe(no_mangle)]
pub extern "C" fn dmc_shards_give_back(
    shards: &mut Handle,
    shard: u32,
    stamp: &DmcStamp,
    alloc: Global,
) -> u32
    ensures { (answer : Result ⊤ Fault)
        × GivesBackHeld (record { 0 = shard }) (reading.stamp_in stamp.now.delta stamp.now.rho stamp.now.cost) shards.old.value shards.new.value answer
        × (result ≡ code_of answer) }
{
    let params = reading::stamped(stamp.delta, stamp.rho, stamp.cost);
    let answer = give_back(shards, ServerId(shard), params, alloc);
    code_of(&answer)
}

/// Skips what is pending at a shard: the next stamp for it counts only what comes later. It sends nothing. `DMC_NONE_HELD`,
/// `DMC_NO_SERVER`.
#[unsafe(no_mangle)]
pub extern "C" fn dmc_shards_skip(shards: &mut Handle, shard: u32, alloc: Global) -> u32
    ensures { (answer : Result ⊤ Fault)
        × SkipsShardHeld (record { 0 = shard }) shards.old.value shards.new.value answer
        × (result ≡ code_of answer) }
{
    let answer = skip(shards, ServerId(shard), alloc);
    code_of(&answer)
}

/// Writes what the shard tracker knows of a shard; its completions are what came in. `DMC_NONE_HELD`,
/// `DMC_NO_SERVER`.
#[unsafe(no_mangle)]
pub extern "C" fn dmc_shards_status(
    shards: &mut Handle,
    shard: u32,
    track: &mut DmcTrack,
    alloc: Global,
) -> u32
    ensures code { result ≡ code_of (shard_held (record { 0 = shard }) shards.old.value) }
    ensures same { shards.new.value ≡ shards.old.value }
    ensures written { track.new ≡ value_or_old (shard_held (record { 0 = shard }) shards.old.value) track.old }
{
    let answer = status(shards, ServerId(shard), alloc);
    write_value(&answer, track);
    code_of(&answer)
}
