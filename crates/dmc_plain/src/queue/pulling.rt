//! A pull of the reference queue.
ghost use Rattle.std.specs.Prelude.{◌≡◌, ◌<◌, true, length, Some, None};
ghost use Rattle.std.specs.Option.{option_map, option_map_or};
ghost use Rattle.dmc_tag.specs.declared.reply.Pulled.TheVariants as pulls;
ghost use Rattle.dmc_tag.specs.Best.{best_of_all, by_weight, is_any, is_free};
ghost use Rattle.dmc_tag.specs.Answers.{sure_call_reply, pull_reply};
ghost use Rattle.dmc_tag.specs.Rules as rules_of;
ghost use Rattle.dmc_tag.specs.State.{queued_requests};
ghost use Rattle.dmc_types.specs.declared.config.PhaseType.TheVariants as phases;
ghost use Rattle.dmc_plain.specs.internal.Due.{least_due};
ghost use Rattle.dmc_plain.specs.internal.Places.{found_among, found_at, IsPlace};
ghost use Rattle.dmc_plain.specs.internal.Settled.{Settles};

use crate::best::{Place, Set, best_place};
use crate::due::least_due;
use crate::queue::PlainQueue;
use dmc_tag::plain::QueuedRequest;
use dmc_tag::progress::count_grant;
use dmc_tag::reply::Pulled;
use dmc_tag::tag::Tag;
use dmc_types::config::{AtLimit, PhaseType};
use dmc_types::cost::Cost;
use dmc_types::ids::ClientId;
use dmc_types::moment::Moment;
use dmc_types::refusal::Refusal;

impl<T: Tag> PlainQueue<T> {
    /// The client and the request at a place.
    fn request_at(&self, place: Place) -> (ClientId, QueuedRequest<T>)
        requires { IsPlace self.now.clients place }
        ensures { option_map (λ found. (found.client.id, found.request)) (found_at self.now.clients place) ≡ Some result }
    {
        let client = &self.clients[place.client];
        (client.id(), client.requests()[place.request])
    }

    /// Removes the request at a place, and takes an amount off its client's R tags.
    fn take_out(&mut self, place: Place, amount: Option<T>, at: Moment)
        requires { IsPlace self.old.clients place }
        ensures { option_map (λ found. rules_of.taken_out T.ops self.old at found phases.Reservation amount) (found_at self.old.clients place) ≡ Some self.new }
    {
        let client = &mut self.clients[place.client];
        client.take_out(place.request);
        client.reduce(amount);
        self.last_moment = at;
    }

    /// Grants the request at a place in the constraint phase.
    pub(super) fn grant_early(&mut self, place: Place, at: Moment) -> Pulled
        requires { IsPlace self.old.clients place }
        ensures { Settles self.old self.new (rules_of.pulled_early T.ops self.old at (found_at self.old.clients place)) (Some (pull_reply result)) }
    {
        let (client, request) = self.request_at(place);
        self.take_out(place, None, at);
        Pulled::Returning {
            client,
            token: request.token,
            phase: PhaseType::Reservation,
            beyond: false,
            cost: request.cost,
        }
    }

    /// What a Priority grant of the request at a place takes off its client's R tags. It is refused `Range`.
    fn can_grant(&self, place: Place) -> Result<Option<T>, Refusal>
        requires { IsPlace self.now.clients place }
        ensures { option_map (rules_of.can_grant T.ops self.now.config.hz) (found_at self.now.clients place) ≡ Some result }
    {
        let client = &self.clients[place.client];
        let cost = client.requests()[place.request].cost;
        let amount = reduction_for(self.config.hz(), client.info().reservation(), cost)?;
        if !client.can_reduce_without(place.request, amount) {
            return Err(Refusal::Range);
        }
        Ok(amount)
    }

    /// Grants the request at a place in the weight phase. It is refused `Range`.
    fn grant_priority(&mut self, place: Place, at: Moment, beyond: bool) -> Result<Pulled, Refusal>
        requires { IsPlace self.old.clients place }
        ensures { Settles self.old self.new (rules_of.grant_found T.ops self.old at beyond (found_at self.old.clients place)) (sure_call_reply pull_reply result) }
    {
        let (client, request) = self.request_at(place);
        let amount = self.can_grant(place)?;
        self.take_out(place, amount, at);
        count_grant(self.config.shares(), &mut self.progress, request.tags.p);
        Ok(Pulled::Returning {
            client,
            token: request.token,
            phase: PhaseType::Priority,
            beyond,
            cost: request.cost,
        })
    }

    /// Grants the next request in the weight phase, if none is due by its reservation. It is refused `Range`.
    pub(super) fn pull_free(&mut self, at: Moment) -> Result<Pulled, Refusal>
        ensures { Settles self.old self.new
            (rules_of.pulled_free T.ops self.old at (best_of_all T.ops by_weight (is_free T.ops at) self.old.clients))
            (sure_call_reply pull_reply result) }
    {
        match best_place(&self.clients, &Set::Free(at)) {
            Some(place) => self.grant_priority(place, at, false),
            None => self.pull_at_limit(at),
        }
    }

    /// Grants the best request by weight, though it is beyond its limit. It is refused `Range`.
    fn pull_beyond(&mut self, at: Moment) -> Result<Pulled, Refusal>
        ensures { Settles self.old self.new
            (rules_of.grant_found T.ops self.old at true (best_of_all T.ops by_weight is_any self.old.clients))
            (sure_call_reply pull_reply result) }
    {
        match best_place(&self.clients, &Set::All) {
            Some(place) => self.grant_priority(place, at, true),
            None => {
                self.last_moment = at;
                Ok(Pulled::Nothing)
            }
        }
    }

    /// The result of a pull if no request is early or free.
    fn pull_at_limit(&mut self, at: Moment) -> Result<Pulled, Refusal>
        ensures { Settles self.old self.new (rules_of.nothing_due T.ops self.old at (queued_requests self.old.clients)) (sure_call_reply pull_reply result) }
    {
        match self.config.at_limit() {
            AtLimit::Allow => self.pull_beyond(at),
            AtLimit::Wait | AtLimit::Reject { .. } => Ok(self.report_due(at)),
        }
    }

    /// The moment at which the next request is due, as a pull returns it.
    fn report_due(&mut self, at: Moment) -> Pulled
        ensures now { self.new ≡ record self.old { last_moment = at } }
        ensures answer { result ≡ option_map_or pulls.Future (least_due T.ops (queued_requests self.old.clients)) pulls.Nothing }
    {
        self.last_moment = at;
        due_at(least_due(&self.clients))
    }
}

/// The result of a pull if something is due at a moment, or if nothing is queued.
fn due_at(due: Option<u128>) -> Pulled
    ensures { result ≡ option_map_or pulls.Future due pulls.Nothing }
{
    match due {
        None => Pulled::Nothing,
        Some(moment) => Pulled::Future(moment),
    }
}

/// What a Priority grant of a request of this cost takes off its client's R tags: a spacing for each unit, and nothing without a
/// reservation.
fn reduction_for<T: Tag>(
    hz: u32,
    reservation: Option<u32>,
    cost: Cost,
) -> Result<Option<T>, Refusal>
    ensures { result ≡ rules_of.reduction_at T.ops hz reservation cost }
{
    let Some(rate) = reservation else {
        return Ok(None);
    };
    let spacing = T::spacing(hz, rate).ok_or(Refusal::Range)?;
    let amount = spacing.steps(cost.units()).ok_or(Refusal::Range)?;
    Ok(Some(amount))
}
