//! What a tracker book is made of.
ghost use Rattle.std.specs.Prelude.{◌≡◌, ◌<◌, ◌≤◌, [], length, IfOk, OnOk, IsOkUnless, vec_capacity};
ghost use Rattle.dmc_tracker.specs.Numbers.{RepresentsEvents, new_numbers};
ghost use Rattle.dmc_tlock.specs.Opening.{AreBookLimits};

use crate::settled::StampsHeld;
use dmc_history::History;
use dmc_ledger::bundle::StampTills;
use dmc_ledger::setup::Setup;
use dmc_tracker::event::TrackerEvent;
use dmc_tracker::tracker::{MakeFault, ServiceTracker};
use dmc_types::config::Counting;
use dmc_types::limits::MAX_SERVERS;
use std::alloc::Global;

/// An empty tracker and an empty list, room for the client's pass, and room for what it holds when the book is settled.
#[derive(Drop)]
pub(crate) struct Parts<S: Setup> {
    pub(crate) tracker: ServiceTracker,
    pub(crate) history: History<TrackerEvent>,
    pub(crate) tills: Vec<StampTills<S>>,
    pub(crate) held: Vec<StampsHeld>,
}

/// The parts of a book, for this number of servers: refused `Limit`, then `Memory`.
pub(crate) fn make_parts<S: Setup>(
    alloc: Global,
    servers: usize,
    most: u64,
    max_events: u32,
    counting: Counting,
) -> Result<Parts<S>, MakeFault>
    ensures tracker { IfOk result (λ parts. (parts.tracker ≡ new_numbers counting most servers) × RepresentsEvents parts.tracker []) }
    ensures history { IfOk result (λ parts. (parts.history.events ≡ []) × (parts.history.most ≡ max_events)) }
    ensures limits { OnOk result (AreBookLimits servers most max_events) }
    ensures tills { IfOk result (λ parts. (length parts.tills.items ≡ 0) × (servers ≤ vec_capacity parts.tills)) }
    ensures held { IfOk result (λ parts. length parts.held.items ≡ servers) }
    ensures limit { (AreBookLimits servers most max_events → ⊥) → result ≡ Err MakeFault.Limit }
    ensures memory { AreBookLimits servers most max_events → IsOkUnless result MakeFault.Memory }
{
    if servers > MAX_SERVERS as usize {
        return Err(MakeFault::Limit);
    }
    let Ok(history) = History::new(alloc, max_events) else {
        return Err(MakeFault::Limit);
    };
    let tracker = ServiceTracker::new(alloc, servers as u32, most, counting)?;
    let tills = Vec::with_capacity(alloc, servers)?;
    let held = vec![in alloc; StampsHeld::default(); servers]?;
    Ok(Parts {
        tracker,
        history,
        tills,
        held,
    })
}
