//! Laws of every history that replays. Each law is the contract of a function that does nothing.
ghost use Rattle.std.specs.Prelude.{◌≡◌, ℕ, ◌<◌};
ghost use Rattle.dmc_types.specs.Values.{Setting};
ghost use Rattle.dmc_types.specs.declared.config.AtLimit.TheVariants.{Reject};
ghost use Rattle.dmc_types.specs.declared.config.Shares.TheVariants.{Virtual};
ghost use Rattle.dmc_history_laws.specs.Bounds.{InOrderIfNeverCancelled, InOrderOfArrival, LimitBound, LimitBoundWithCancels, ReservationBound, ReservationBoundWithCancels};
ghost use Rattle.dmc_history_laws.specs.Rejecting.{AreAddedInTime, AreQueuedInTime, IsFutureInTime};
ghost use Rattle.dmc_history_laws.specs.Shares.{NoCredit, NoDebt, NoDebtWithCancels};

use dmc_tag::tag::Tag;

/// A client's queued requests are those of its accepted adds that wait, in their order, each with the token and the cost that it
/// was added with: a grant takes the first, a Remove takes all, and a Cancel takes those with its token. Of a client of which no
/// request was taken back (no Cancel of it was accepted) they are its accepted adds without the first ones, as many as were removed.
pub fn requests_leave_in_order<T: Tag>()
    ensures waiting { (config : Setting) → 0 < config.hz → InOrderOfArrival T.ops config }
    ensures never_cancelled { (config : Setting) → 0 < config.hz → InOrderIfNeverCancelled T.ops config }
{}

/// Every history that replays keeps to the limit of each client: from an accepted add of it, a_i, to a grant of a_k in phase
/// Priority, not beyond, hz times the deltas of a_(i+1) .. a_k is at most the limit times the ticks between, and hz for each unit of
/// cost of those arrivals between the two that a Cancel in the form Others took out: what they were charged is given back to those
/// behind them. Of a client of which no request was taken back (no Cancel of it was accepted) it is at most the limit times the
/// ticks between.
pub fn histories_keep_to_limits<T: Tag>()
    ensures with_cancels { (config : Setting) → 0 < config.hz → LimitBoundWithCancels T.ops config }
    ensures never_cancelled { (config : Setting) → 0 < config.hz → LimitBound T.ops config }
{}

/// Every history that replays keeps to the reservation of each client: up to a grant of a_k in phase Reservation, hz times the rhos
/// of a_(i+1) .. a_k is at most the reservation times the ticks between, and hz for each unit of cost of the client's Priority grants
/// after a_i, and of those arrivals between the two that a Cancel in the form Others took out. Of a client of which no request was
/// taken back (no Cancel of it was accepted) the last are none.
pub fn histories_keep_to_reservations<T: Tag>()
    ensures with_cancels { (config : Setting) → 0 < config.hz → ReservationBoundWithCancels T.ops config }
    ensures never_cancelled { (config : Setting) → 0 < config.hz → ReservationBound T.ops config }
{}

/// With shares in virtual time nobody has a credit: the P of a request that arrives is at least the P of every request that was
/// granted by weight before it, whatever was taken back. Whoever comes, or comes back, starts where the others are (extension:
/// start-time fair queueing).
pub fn shares_give_no_credit<T: Tag>()
    ensures { (config : Setting) → 0 < config.hz → config.shares ≡ Virtual → NoCredit T.ops config }
{}

/// With shares in virtual time nobody has a debt: whoever asks all the time, and is within its limit, is never behind another's
/// service by weight by more than where both began, and by what Cancels in the form Others gave back to the other for what they took
/// out in between. Of two clients of which no request was taken back (no Cancel of them was accepted) nothing was given back
/// (extension: start-time fair queueing).
pub fn shares_leave_no_debt<T: Tag>()
    ensures with_cancels { (config : Setting) → 0 < config.hz → config.shares ≡ Virtual → NoDebtWithCancels T.ops T.fraction config }
    ensures never_cancelled { (config : Setting) → 0 < config.hz → config.shares ≡ Virtual → NoDebt T.ops T.fraction config }
{}

/// If adds are refused at the limit, nobody waits longer for a limit than the threshold: the L of a request is at most `threshold`
/// ticks past the moment of its add, and so a Future is at most `threshold` ticks past the last arrival of each client with a
/// queued request, whatever was taken back (extension: Ceph's `AtLimit::Reject`).
pub fn nobody_waits_past_the_threshold<T: Tag>()
    ensures added { (config : Setting) → 0 < config.hz → (threshold : ℕ) → config.at_limit ≡ Reject threshold → AreAddedInTime T.ops config threshold }
    ensures queued { (config : Setting) → 0 < config.hz → (threshold : ℕ) → config.at_limit ≡ Reject threshold → AreQueuedInTime T.ops config threshold }
    ensures future { (config : Setting) → 0 < config.hz → (threshold : ℕ) → config.at_limit ≡ Reject threshold → IsFutureInTime T.ops config threshold }
{}
