//! One entry more, in a tracker and in its list.
ghost use Rattle.std.specs.Prelude.{◌≡◌, ◌+◌, ◌<◌, ◌≤◌, [], ◌∷◌, ◌++◌, length};
ghost use Rattle.dmc_tracker.specs.declared.event.TrackerEvent.{TrackerEvent};
ghost use Rattle.dmc_tracker.specs.Numbers.{IsFullAt, next_params, after_stamp, after_skip, after_response};

use dmc_history::History;
use dmc_ledger::setup::Setup;
use dmc_shared::segmented::SegmentedList;
use dmc_tracker::event::TrackerEvent;
use dmc_tracker::tracker::ServiceTracker;
use dmc_types::config::PhaseType;
use dmc_types::cost::Cost;
use dmc_types::ids::ServerId;
use dmc_types::params::ReqParams;

/// The list of a tracker's entries, of which the first may have been released.
pub(crate) type EntryList<S> = SegmentedList<History<TrackerEvent>, S>;

/// Stamps a request of this cost, and puts the stamp into the list.
pub(crate) fn record_stamp<S: Setup>(
    tracker: &mut ServiceTracker,
    list: &mut EntryList<S>,
    server: ServerId,
    cost: Cost,
) -> ReqParams
    requires within { server.0 < length tracker.old.servers }
    requires not_full { IsFullAt tracker.old server cost → ⊥ }
    requires place { 0 < list.old.room }
    ensures params { result ≡ next_params tracker.old server cost }
    ensures tracker { tracker.new ≡ after_stamp server cost tracker.old }
    ensures events { list.new.events ≡ list.old.events ++ TrackerEvent.Stamp server (next_params tracker.old server cost) ∷ [] }
    ensures number { list.new.number ≡ list.old.number }
    ensures first { list.new.first ≡ list.old.first }
    ensures most { list.new.most ≡ list.old.most }
{
    let params = tracker.stamp_checked(server, cost);
    list.push_reserved(TrackerEvent::Stamp { server, params });
    params
}

/// Skips what is pending at a server, and puts the skip into the list.
pub(crate) fn record_skip<S: Setup>(
    tracker: &mut ServiceTracker,
    list: &mut EntryList<S>,
    server: ServerId,
)
    requires within { server.0 < length tracker.old.servers }
    requires place { 0 < list.old.room }
    ensures tracker { tracker.new ≡ after_skip server tracker.old }
    ensures events { list.new.events ≡ list.old.events ++ TrackerEvent.Skip server ∷ [] }
    ensures number { list.new.number ≡ list.old.number }
    ensures first { list.new.first ≡ list.old.first }
    ensures most { list.new.most ≡ list.old.most }
{
    let Ok(()) = tracker.skip(server) else {
        unreachable!()
    };
    list.push_reserved(TrackerEvent::Skip { server });
}

/// Counts a response of this cost, and puts it into the list.
pub(crate) fn record_response<S: Setup>(
    tracker: &mut ServiceTracker,
    list: &mut EntryList<S>,
    server: ServerId,
    phase: PhaseType,
    cost: Cost,
)
    requires within { server.0 < length tracker.old.servers }
    requires not_full { tracker.old.completions.delta + cost ≤ tracker.old.most }
    requires place { 0 < list.old.room }
    ensures tracker { tracker.new ≡ after_response server phase cost tracker.old }
    ensures events { list.new.events ≡ list.old.events ++ TrackerEvent.Response server phase cost ∷ [] }
    ensures number { list.new.number ≡ list.old.number }
    ensures first { list.new.first ≡ list.old.first }
    ensures most { list.new.most ≡ list.old.most }
{
    tracker.track_checked(server, phase, cost);
    list.push_reserved(TrackerEvent::Response {
        server,
        phase,
        cost,
    });
}
