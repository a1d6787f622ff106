//! What follows from a tracker list alone. Each law is the contract of a function that does nothing: a caller that calls it
//! knows the law.
ghost use Rattle.std.specs.Prelude.{◌≡◌, ℕ, ◌+◌, ◌≤◌, List, [], ◌∷◌, ◌++◌};
ghost use Rattle.dmc_types.specs.Values.{Params, no_counts, with_returned};
ghost use Rattle.dmc_types.specs.declared.ids.ServerId.{ServerId};
ghost use Rattle.dmc_types.specs.declared.config.Counting.{Counting};
ghost use Rattle.dmc_types.specs.declared.config.PhaseType.{PhaseType};
ghost use Rattle.dmc_tracker.specs.declared.event.TrackerEvent.{TrackerEvent};
ghost use Rattle.dmc_tracker.specs.TrackerList.{plus, completions, completions_at, others, stamp_costs, skips, marks, sent, skipped, skipped_after, pending, demanded, IsTracked};

use crate::event::TrackerEvent;
use dmc_types::config::Counting;

/// The empty list is tracked.
pub fn empty_list_is_tracked()
    ensures { (counting : Counting) → IsTracked counting [] }
{}

/// A tracked list stays tracked by a stamp that carries what the list demands.
pub fn stamp_keeps_tracked()
    ensures { (counting : Counting) (events : List TrackerEvent) (s : ServerId) (cost : ℕ) → IsTracked counting events
        → IsTracked counting (events ++ TrackerEvent.Stamp s (demanded counting s cost events) ∷ []) }
{}

/// A tracked list stays tracked by a skip.
pub fn skip_keeps_tracked()
    ensures { (counting : Counting) (events : List TrackerEvent) (s : ServerId) → IsTracked counting events
        → IsTracked counting (events ++ TrackerEvent.Skip s ∷ []) }
{}

/// A tracked list stays tracked by a response.
pub fn response_keeps_tracked()
    ensures { (counting : Counting) (events : List TrackerEvent) (s : ServerId) (phase : PhaseType) (cost : ℕ) → IsTracked counting events
        → IsTracked counting (events ++ TrackerEvent.Response s phase cost ∷ []) }
{}

/// The completions at a server and those at the other servers are all completions, in both counts.
pub fn completions_by_server()
    ensures { (events : List TrackerEvent) (s : ServerId)
        → plus (completions_at s events) (others s events) ≡ completions events }
{}

/// If a server was never skipped, nothing was skipped there.
pub fn nothing_is_skipped()
    ensures { (counting : Counting) (s : ServerId) (before events : List TrackerEvent) → skips s events ≡ 0
        → skipped_after counting s before events ≡ no_counts }
{}

/// In the form `All` what was sent to a server, what was skipped and what is pending there are the completions, in both
/// counts.
pub fn sent_and_pending_in_all()
    ensures { (events : List TrackerEvent) (s : ServerId) → IsTracked Counting.All events
        → plus (plus (sent s events) (skipped Counting.All s events)) (pending Counting.All s events) ≡ completions events }
{}

/// In the form `Others` what was sent to a server, what was skipped and what is pending there are the costs of the stamps to it
/// and the completions at the other servers, in both counts.
pub fn sent_and_pending_in_others()
    ensures { (events : List TrackerEvent) (s : ServerId) → IsTracked Counting.Others events
        → plus (plus (sent s events) (skipped Counting.Others s events)) (pending Counting.Others s events)
        ≡ plus (record { delta = stamp_costs s events; rho = stamp_costs s events }) (others s events) }
{}

/// In the form `All` the counts stamped to a server and skipped there after one of its stamps, up to a later one, sum to the
/// difference of the completions at these two stamps.
pub fn sent_between_stamps()
    ensures { (before between after : List TrackerEvent) (s : ServerId) (first last : Params)
        → IsTracked Counting.All (before ++ TrackerEvent.Stamp s first ∷ (between ++ TrackerEvent.Stamp s last ∷ after))
        → plus (completions before) (plus (sent s (between ++ TrackerEvent.Stamp s last ∷ []))
        (skipped_after Counting.All s (before ++ TrackerEvent.Stamp s first ∷ []) (between ++ TrackerEvent.Stamp s last ∷ [])))
        ≡ completions (before ++ TrackerEvent.Stamp s first ∷ between) }
{}

/// In the form `All` the next stamp takes what was sent to its server no further than the completions.
pub fn next_stamp_in_all()
    ensures { (events : List TrackerEvent) (s : ServerId) (cost : ℕ) → IsTracked Counting.All events
        → (sent s events).delta + (demanded Counting.All s cost events).delta ≤ (completions events).delta }
{}

/// A stamp whose request no server took leaves no trace, if its counts go into the next stamp to its server: the list without the
/// one, and with these counts in the other, is tracked too. So every law of a tracked list holds of what the servers took, and in
/// the form `All` the deltas that a server took, one after the other, are the differences of the completions.
pub fn returned_stamps_leave_no_trace()
    ensures { (counting : Counting) (before between after : List TrackerEvent) (s : ServerId) (returned next : Params)
        → IsTracked counting (before ++ TrackerEvent.Stamp s returned ∷ (between ++ TrackerEvent.Stamp s next ∷ after))
        → marks s between ≡ 0
        → IsTracked counting (before ++ (between ++ TrackerEvent.Stamp s (with_returned counting returned next) ∷ after)) }
{}
