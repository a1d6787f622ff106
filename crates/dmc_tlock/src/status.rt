//! What a tracker book reports.
ghost use Rattle.std.specs.Prelude.{◌≡◌, ◌+◌, ◌≤◌};
ghost use Rattle.dmc_ledger.specs.Bundles.{server_side};
ghost use Rattle.dmc_tlock.specs.Consistent.{responded};
ghost use Rattle.dmc_tlock.specs.internal.Status.{IsReadable, IsReadOff};

use dmc_ledger::desk::ServerDesk;
use dmc_ledger::setup::Setup;
use dmc_tracker::tracker::ServiceTracker;
use dmc_types::config::Counting;
use dmc_types::ids::ServerId;

/// What a tracker counts, in units of cost, seen from one server. Each pair has a count of all and one of those in the constraint
/// phase.
#[derive(Clone, Copy, Debug, PartialEq, Eq)]
pub struct TrackStatus {
    /// The deltas and the rhos that were sent to the server, summed.
    pub sent: (u64, u64),
    /// The completions that were skipped there.
    pub skipped: (u64, u64),
    /// The completions that its next stamp would count.
    pub pending: (u64, u64),
    /// The completions at all servers.
    pub completions: (u64, u64),
    /// Which completions a stamp counts.
    pub counting: Counting,
    /// How many stamps to the server there are.
    pub stamps: u64,
    /// What the stamps to the server count for their own requests: in the form `Others` what these cost, else 0.
    pub own: u64,
    /// The completions at the other servers.
    pub others: (u64, u64),
}

/// The status of a server, read off the tracker and the server's desk.
pub(crate) fn read_status<S: Setup>(
    tracker: &ServiceTracker,
    desk: &ServerDesk<S>,
    server: ServerId,
) -> TrackStatus
    requires { IsReadable tracker.now (server_side desk.now) server }
    ensures { IsReadOff tracker.now (server_side desk.now) server result }
{
    let completions = tracker.completions();
    let sent = tracker.sent(server).unwrap();
    let skipped = tracker.skipped(server).unwrap();
    let pending = tracker.pending(server).unwrap();
    let others = others_than(desk, completions);
    let counting = tracker.counting();
    let own = match counting {
        Counting::All => 0,
        Counting::Others => sent.0 + skipped.0 + pending.0 - others.0,
    };
    TrackStatus {
        sent,
        skipped,
        pending,
        completions,
        counting,
        stamps: desk.books.stamps.total(),
        own,
        others,
    }
}

/// The completions without those at the desk's server.
fn others_than<S: Setup>(desk: &ServerDesk<S>, completions: (u64, u64)) -> (u64, u64)
    requires all { responded (server_side desk.now) ≤ completions.0 }
    requires constraint { (server_side desk.now).held.reservation.cost.amount ≤ completions.1 }
    ensures all { result.0 + responded (server_side desk.now) ≡ completions.0 }
    ensures constraint { result.1 + (server_side desk.now).held.reservation.cost.amount ≡ completions.1 }
{
    let (all, constraint) = completions;
    let reservation = desk.held.reservation.cost.amount();
    let priority = desk.held.priority.cost.amount();
    (all - reservation - priority, constraint - reservation)
}
