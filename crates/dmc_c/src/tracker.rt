//! The tracker's calls.
ghost use Rattle.std.specs.Prelude.{◌≡◌, ⊤, Result, None};
ghost use Rattle.dmc_types.specs.Values.{Params};
ghost use Rattle.dmc_types.specs.declared.ids.ServerId.{ServerId};
ghost use Rattle.dmc_c.specs.declared.fault.Fault.{Fault};
ghost use Rattle.dmc_c.specs.Codes.{code_of};
ghost use Rattle.dmc_c.specs.Reading as reading;
ghost use Rattle.dmc_c.specs.Outputs.{value_or_old, stamp_written};
ghost use Rattle.dmc_c.specs.Calls.{StampsHeld, SkipsHeld, RespondsHeld, track_held, new_tracker, Makes, tracker_opened, Opens};

use crate::fault::{Fault, code_of};
use crate::handle::{Handle, check_vacant, fill, put, take};
use crate::kept::Kept;
use crate::outputs::{DmcStamp, DmcTrack, write_stamp, write_value};
use crate::reading::{self, Grant};
use dmc_tracker::tracker::ServiceTracker;
use dmc_types::cost::Cost;
use dmc_types::ids::ServerId;
use dmc_types::params::ReqParams;
use std::alloc::Global;

/// A tracker with nothing counted yet.
#[tactic(auto, unfolding(crate::specs::Calls::tracker_of))]
fn make_tracker(servers: u32, most: u64, form: u32, alloc: Global) -> Result<ServiceTracker, Fault>
    ensures { Makes (new_tracker servers most form) result }
{
    let form = reading::counting(form)?;
    Ok(ServiceTracker::new(alloc, servers, most, form)?)
}

/// Makes a tracker where nothing is held.
fn open_tracker(
    tracker: &mut Handle,
    servers: u32,
    most: u64,
    form: u32,
    alloc: Global,
) -> Result<(), Fault>
    ensures { Opens (tracker_opened (new_tracker servers most form)) tracker.old.value tracker.new.value result }
{
    check_vacant(tracker, alloc)?;
    let made = make_tracker(servers, most, form, alloc)?;
    fill(tracker, Kept::Tracker(made), alloc)
}

/// The stamp to a server, by the tracker that is held.
fn stamp(
    tracker: &mut Handle,
    server: ServerId,
    cost: Result<Cost, Fault>,
    alloc: Global,
) -> Result<ReqParams, Fault>
    ensures { StampsHeld server cost tracker.old.value tracker.new.value result }
{
    let Some(mut held) = take(tracker, alloc) else {
        return Err(Fault::NoneHeld);
    };
    let answer = held.stamp(server, cost);
    put(tracker, held, alloc);
    answer
}

/// Skips what is pending at a server, at the tracker that is held.
fn skip(tracker: &mut Handle, server: ServerId, alloc: Global) -> Result<(), Fault>
    ensures { SkipsHeld server tracker.old.value tracker.new.value result }
{
    let Some(mut held) = take(tracker, alloc) else {
        return Err(Fault::NoneHeld);
    };
    let answer = held.skip(server);
    put(tracker, held, alloc);
    answer
}

/// Counts a completion at the tracker that is held.
fn respond(
    tracker: &mut Handle,
    server: ServerId,
    grant: Result<Grant, Fault>,
    alloc: Global,
) -> Result<(), Fault>
    ensures { RespondsHeld server grant tracker.old.value tracker.new.value result }
{
    let Some(mut held) = take(tracker, alloc) else {
        return Err(Fault::NoneHeld);
    };
    let answer = held.respond(server, grant);
    put(tracker, held, alloc);
    answer
}

/// What the tracker in the handle reports of a server.
fn track(tracker: &mut Handle, server: ServerId, alloc: Global) -> Result<DmcTrack, Fault>
    ensures value { result ≡ track_held server tracker.old.value }
    ensures same { tracker.new.value ≡ tracker.old.value }
{
    let Some(held) = take(tracker, alloc) else {
        return Err(Fault::NoneHeld);
    };
    let answer = held.track(server);
    put(tracker, held, alloc);
    answer
}

/// Makes a tracker of `servers` servers (1 to 64), which counts completions of at most `most` units of cost (1 to 2^62):
/// `DMC_HELD`, `DMC_BAD_CONFIG`, `DMC_LIMIT`, `DMC_MEMORY`.
#[unsafe(no_mangle)]
pub extern "C" fn dmc_tracker_new(
    tracker: &mut Handle,
    servers: u32,
    most: u64,
    counting: u32,
    alloc: Global,
) -> u32
    ensures { (answer : Result ⊤ Fault) × Opens (tracker_opened (new_tracker servers most counting)) tracker.old.value tracker.new.value answer
        × (result ≡ code_of answer) }
{
    let answer = open_tracker(tracker, servers, most, counting, alloc);
    code_of(&answer)
}

/// Ends what is held, if anything is.
#[unsafe(no_mangle)]
pub extern "C" fn dmc_tracker_free(tracker: &mut Handle, alloc: Global)
    ensures { tracker.new.value ≡ None }
{
    if let Some(held) = take(tracker, alloc) {
        drop(held);
    }
}

/// Stamps a request of a cost to a server, and writes its counts and the cost: `DMC_NONE_HELD`, `DMC_BAD_COST`, `DMC_NO_SERVER`,
/// `DMC_TRACK_FULL`.
#[unsafe(no_mangle)]
pub extern "C" fn dmc_tracker_stamp(
    tracker: &mut Handle,
    server: u32,
    cost: u32,
    params: &mut DmcStamp,
    alloc: Global,
) -> u32
    ensures { (answer : Result Params Fault)
        × StampsHeld (record { 0 = server }) (reading.cost cost) tracker.old.value tracker.new.value answer
        × (result ≡ code_of answer) × (params.new ≡ stamp_written answer params.old) }
{
    let answer = stamp(tracker, ServerId(server), reading::cost(cost), alloc);
    write_stamp(&answer, params);
    code_of(&answer)
}

/// Skips what is pending at a server: the next stamp to it counts only later completions. It sends nothing. `DMC_NONE_HELD`,
/// `DMC_NO_SERVER`.
#[unsafe(no_mangle)]
pub extern "C" fn dmc_tracker_skip(tracker: &mut Handle, server: u32, alloc: Global) -> u32
    ensures { (answer : Result ⊤ Fault)
        × SkipsHeld (record { 0 = server }) tracker.old.value tracker.new.value answer
        × (result ≡ code_of answer) }
{
    let answer = skip(tracker, ServerId(server), alloc);
    code_of(&answer)
}

/// Counts a completion: a server completed a request of a cost that it granted in a phase. `DMC_NONE_HELD`, `DMC_BAD_PHASE`,
/// `DMC_BAD_COST`, `DMC_NO_SERVER`, `DMC_TRACK_FULL`.
#[unsafe(no_mangle)]
pub extern "C" fn dmc_tracker_respond(
    tracker: &mut Handle,
    server: u32,
    phase: u32,
    cost: u32,
    alloc: Global,
) -> u32
    ensures { (answer : Result ⊤ Fault)
        × RespondsHeld (record { 0 = server }) (reading.grant_named phase cost) tracker.old.value tracker.new.value answer
        × (result ≡ code_of answer) }
{
    let answer = respond(
        tracker,
        ServerId(server),
        reading::grant_named(phase, cost),
        alloc,
    );
    code_of(&answer)
}

/// Puts the counts of `returned` into `stamp` besides: of a request to the same server that no server took, and that is given up.
/// `DMC_BAD_CONFIG` if `counting` names no form, `DMC_BAD_PARAMS`, `DMC_BAD_COST`, `DMC_TRACK_FULL` if a count would pass 2^32 - 1.
#[unsafe(no_mangle)]
pub extern "C" fn dmc_stamp_with_returned(
    stamp: &mut DmcStamp,
    returned: &DmcStamp,
    counting: u32,
) -> u32
    ensures code { result ≡ code_of (reading.returned_into stamp.old returned.now counting) }
    ensures written { stamp.new ≡ stamp_written (reading.returned_into stamp.old returned.now counting) stamp.old }
{
    let answer = reading::with_returned(stamp, returned, counting);
    write_stamp(&answer, stamp);
    code_of(&answer)
}

/// Writes what the tracker knows of a server: `DMC_NONE_HELD`, `DMC_NO_SERVER`.
#[unsafe(no_mangle)]
pub extern "C" fn dmc_tracker_status(
    tracker: &mut Handle,
    server: u32,
    status: &mut DmcTrack,
    alloc: Global,
) -> u32
    ensures code { result ≡ code_of (track_held (record { 0 = server }) tracker.old.value) }
    ensures same { tracker.new.value ≡ tracker.old.value }
    ensures written { status.new ≡ value_or_old (track_held (record { 0 = server }) tracker.old.value) status.old }
{
    let answer = track(tracker, ServerId(server), alloc);
    write_value(&answer, status);
    code_of(&answer)
}
