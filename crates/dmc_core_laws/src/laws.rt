//! Laws of every cluster run. Each law is the contract of a function that does nothing.
ghost use Rattle.std.specs.Prelude.{◌≡◌};
ghost use Rattle.dmc_types.specs.declared.config.TagKind.TheVariants.{Tick, Ratio};
ghost use Rattle.dmc_tick.specs.Tick.{tick_ops};
ghost use Rattle.dmc_ratio.specs.Ratio.{ratio_ops};
ghost use Rattle.dmc_core.specs.Opening.{HaveSpacings};
ghost use Rattle.dmc_core_laws.specs.Bounds.{ArrivalsFollowStamps, LimitOverRuns, LimitOverRunsWithCancels, NothingGivenBackInRuns, ReservationOverRuns, ReservationOverRunsWithCancels};
ghost use Rattle.dmc_core_laws.specs.Histories.{HistoriesReplay};
ghost use Rattle.dmc_core_laws.specs.Steps.{StepsAreRuns, LimitOfCores, LimitOfCoresWithCancels, NothingGivenBackInCores, ReservationOfCores, ReservationOfCoresWithCancels};
ghost use Rattle.dmc_pull.specs.Queue.{Queue, state_of};

use dmc_scene::scene::Scene;
use dmc_tag::tag::Tag;

/// Each rate of a scene has a spacing in the tags that the scene names: a `ClusterCore` can be opened for it with them.
pub fn scenes_have_spacings(scene: &Scene)
    ensures tick { scene.now.tags ≡ Tick → HaveSpacings tick_ops scene.now }
    ensures ratio { scene.now.tags ≡ Ratio → HaveSpacings ratio_ops scene.now }
{
    let _ = scene.tags();
}

/// The history of a server replays, and the state after it by the rules is the server's plain state.
pub fn histories_replay<T: Tag>()
    ensures { HistoriesReplay T.ops }
{}

/// A client's requests arrive at a server in the order of their stamps, with the counts of their stamps.
pub fn arrivals_follow_stamps<T: Tag>()
    ensures { ArrivalsFollowStamps T.ops }
{}

/// In the form `All` of counting nothing is given back, whatever was taken back: a request is charged when it completes, which one
/// that is taken back never does. So in the bounds of limits and reservations what Cancels gave back counts in the form `Others`
/// alone, in runs and in what the step of a `ClusterCore` returned.
pub fn completions_are_not_given_back<T: Tag>()
    ensures runs { NothingGivenBackInRuns T.ops }
    ensures cores { NothingGivenBackInCores T.ops (λ (q : Queue T). state_of q) }
{}

/// Every cluster run keeps to the limits, whatever was taken back: if a server grants a client's a_k in phase Priority, not beyond,
/// hz times the costs of the client's completions at all servers between the stamps of a_i and a_k is at most the limit times the
/// ticks between. In the form `Others` it is hz times the deltas of a_(i+1) .. a_k, and at most the limit times the ticks between
/// and hz for each unit of cost of those arrivals between the two that a Cancel took out: what they were charged is given back to
/// those behind them. Of a client of which no request was taken back (no Cancel of it was accepted) the last is none.
pub fn runs_keep_to_limits<T: Tag>()
    ensures with_cancels { LimitOverRunsWithCancels T.ops }
    ensures never_cancelled { LimitOverRuns T.ops }
{}

/// Every cluster run keeps to the reservations, whatever was taken back: if a server grants a_k in phase Reservation, hz times the
/// rhos of a_(i+1) .. a_k, less hz times the costs of the client's Priority grants at the server after a_i, is at most the reservation
/// times the ticks between, and hz for each unit of cost of those arrivals between the two that a Cancel in the form `Others` took
/// out. Of a client of which no request was taken back (no Cancel of it was accepted) the last is none.
pub fn runs_keep_to_reservations<T: Tag>()
    ensures with_cancels { ReservationOverRunsWithCancels T.ops }
    ensures never_cancelled { ReservationOverRuns T.ops }
{}

/// What the step of a `ClusterCore` returned, event by event, is what the rules give in a run. From each run that the core
/// represented, the events at which no allocation failed got these replies, and the core represents the run after them.
pub fn steps_are_runs<T: Tag>()
    ensures { StepsAreRuns T.ops (λ (q : Queue T). state_of q) }
{}

/// A `ClusterCore` keeps to the limits: both bounds of every run hold of what its step returned, from a scene's opening on and up
/// to a grant in phase Priority, not beyond.
pub fn cores_keep_to_limits<T: Tag>()
    ensures with_cancels { LimitOfCoresWithCancels T.ops (λ (q : Queue T). state_of q) }
    ensures never_cancelled { LimitOfCores T.ops (λ (q : Queue T). state_of q) }
{}

/// A `ClusterCore` keeps to the reservations: both bounds of every run hold, up to a grant in phase Reservation.
pub fn cores_keep_to_reservations<T: Tag>()
    ensures with_cancels { ReservationOfCoresWithCancels T.ops (λ (q : Queue T). state_of q) }
    ensures never_cancelled { ReservationOfCores T.ops (λ (q : Queue T). state_of q) }
{}
