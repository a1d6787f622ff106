//! A pull of the indexed queue.
ghost use Rattle.std.specs.Prelude.{◌≡◌, ◌≤◌, List, ◌∷◌, false, true, Some, None, Ok, is_some, IfSome, IfOk};
ghost use Rattle.std.specs.Option.{option_map};
ghost use Rattle.dmc_adjust.specs.Changes as changes;
ghost use Rattle.dmc_pull.specs.Allowed.{PullsIf};
ghost use Rattle.dmc_pull.specs.internal.Allowed.{SettlesIf};
ghost use Rattle.dmc_pull.specs.internal.Choice.{first_at, after_grant, IsFirstOf, Early, ByWeight, Settles};
ghost use Rattle.dmc_pull.specs.Queue.{state_of};
ghost use Rattle.dmc_pull.specs.internal.Queue.{IsMarked};
ghost use Rattle.dmc_pull.specs.Represented.{clients_in};
ghost use Rattle.dmc_roster.specs.Entries.{record_at, with_record_at, AreDistinct};
ghost use Rattle.dmc_tag.specs.Answers.{pull_reply};
ghost use Rattle.dmc_tag.specs.Best.{best_of_all, by_reservation, by_weight, is_early, is_free};
ghost use Rattle.dmc_tag.specs.Rules as rules_of;
ghost use Rattle.dmc_tag.specs.State.{queued_requests};
ghost use Rattle.dmc_tag.specs.declared.plain.QueuedRequest.{QueuedRequest};
ghost use Rattle.dmc_types.specs.declared.config.PhaseType.TheVariants as phases;

use crate::granting::{GrantTest, PullFault};
use crate::heads::{due_moment, renew};
use crate::queue::PullQueue;
use crate::records::{first_tags, grant_first};
use dmc_adjust::reduction::reduction_for;
use dmc_index::index::Indexes;
use dmc_tag::due::is_due;
use dmc_tag::plain::QueuedRequest;
use dmc_tag::progress::count_grant;
use dmc_tag::reply::Pulled;
use dmc_tag::tag::Tag;
use dmc_types::config::{AtLimit, PhaseType, Shares};
use dmc_types::ids::ClientId;
use dmc_types::moment::Moment;
use dmc_types::refusal::Refusal;

impl<T: Tag, I: Indexes<T>> PullQueue<T, I> {
    /// The key and the client of the least R, if it is at most the moment.
    fn early(&self, at: Moment) -> Option<(usize, ClientId)>
        ensures { Early T.ops at self.now.roster.entries result }
    {
        match self.heads.0.least_by_reservation() {
            None => None,
            Some((key, rank)) => {
                if is_due(rank.tag, at) {
                    Some((key, rank.client))
                } else {
                    None
                }
            }
        }
    }

    /// Advances to a moment, and marks each head ready whose L is at most that.
    fn advance(&mut self, at: Moment)
        requires { self.old.last_moment ≤ at }
        ensures state { state_of self.new ≡ record (state_of self.old) { last_moment = at } }
        ensures marked { IsMarked T.ops self.new }
    {
        self.heads.0.promote(at);
        self.last_moment = at;
    }

    /// Goes back to a moment, and resets the marks of the heads whose L is above it.
    fn go_back(&mut self, before: Moment)
        ensures { state_of self.new ≡ record (state_of self.old) { last_moment = before } }
    {
        self.heads.0.set_back(before);
        self.last_moment = before;
    }

    /// The key and the client of the least P of the free requests, or of all, and whether it is free. `None` if nothing is
    /// queued.
    fn by_weight(&self) -> Option<(usize, ClientId, bool)>
        requires { IsMarked T.ops self.now }
        ensures { ByWeight T.ops self.now.last_moment self.now.roster.entries result }
    {
        match self.heads.0.least_by_weight() {
            None => None,
            Some((key, rank)) => Some((key, rank.client, rank.ready)),
        }
    }

    /// The least whole number at which some request is early or free, if none is free and something is queued.
    fn next_due(&self) -> u128
        requires { best_of_all T.ops by_weight (is_free T.ops self.now.last_moment) (clients_in self.now.roster.entries) ≡ None }
        ensures { (first : QueuedRequest T) (rest : List (QueuedRequest T)) → queued_requests (clients_in self.now.roster.entries) ≡ first ∷ rest →
            result ≡ rules_of.least_due T.ops first rest }
    {
        let Some((_, limit)) = self.heads.0.least_by_limit() else {
            return 0;
        };
        let free = due_moment(limit.tag);
        let Some((_, reservation)) = self.heads.0.least_by_reservation() else {
            return 0;
        };
        match reservation.tag {
            None => free,
            Some(tag) => free.min(due_moment(tag)),
        }
    }

    /// Removes the first request of a client, and takes an amount off the R of its others.
    // Inlined: callers read a part of the request, and need no copy of it.
    #[inline(always)]
    fn take_out(
        &mut self,
        key: usize,
        client: ClientId,
        amount: Option<T>,
        at: Moment,
    ) -> QueuedRequest<T>
        requires first { IsFirstOf self.old.roster.entries key client }
        requires reducible { IfSome (record_at key self.old.roster.entries) (λ rec. changes.is_reducible T.ops amount (changes.popped rec) ≡ true) }
        requires later { self.old.last_moment ≤ at }
        ensures distinct { AreDistinct self.old.roster.entries }
        ensures request { Some result ≡ option_map (λ found. found.request) (first_at key self.old.roster.entries) }
        ensures roster { IfSome (record_at key self.old.roster.entries) (λ rec. self.new.roster ≡ with_record_at self.old.roster key (after_grant T.ops amount rec)) }
        ensures config { self.new.config ≡ self.old.config }
        ensures moment { self.new.last_moment ≡ at }
        ensures progress { self.new.progress ≡ self.old.progress }
    {
        let rec = self.roster.at_mut(key);
        let request = grant_first(rec, amount).unwrap();
        let tags = first_tags(rec);
        self.queued -= 1;
        self.last_moment = at;
        renew(&mut self.heads.0, key, client, tags, at);
        request
    }

    /// Grants the first request of a client in the constraint phase.
    fn grant_early(&mut self, key: usize, client: ClientId, at: Moment) -> Pulled
        requires first { IsFirstOf self.old.roster.entries key client }
        requires later { self.old.last_moment ≤ at }
        ensures { IfSome (first_at key self.old.roster.entries) (λ found.
            Settles (state_of self.old) (state_of self.new) (Ok (rules_of.taken_out T.ops (state_of self.old) at found phases.Reservation None, rules_of.granted found phases.Reservation false)) (Some (pull_reply result))) }
    {
        let request = self.take_out(key, client, None, at);
        Pulled::Returning {
            client,
            token: request.token,
            phase: PhaseType::Reservation,
            beyond: false,
            cost: request.cost,
        }
    }

    /// What a grant of a client's first request in the weight phase takes off its R tags. It is refused `Range`.
    // Inlined: the amount is not copied.
    #[inline(always)]
    fn can_grant(&self, key: usize) -> Result<Option<T>, Refusal>
        requires { is_some (first_at key self.now.roster.entries) ≡ true }
        ensures distinct { AreDistinct self.now.roster.entries }
        ensures reducible { IfOk result (λ amount.
            IfSome (record_at key self.now.roster.entries) (λ rec. changes.is_reducible T.ops amount (changes.popped rec) ≡ true)) }
        ensures value { IfSome (first_at key self.now.roster.entries) (λ found. result ≡ rules_of.can_grant T.ops self.now.config.hz found) }
    {
        let rec = self.roster.at(key);
        let request = rec.head().unwrap();
        reduction_for(rec, request.cost)
    }

    /// Counts a grant by weight of a client's first request. By the clock nothing changes.
    #[inline(always)]
    fn count_first(&mut self, key: usize)
        requires { is_some (first_at key self.old.roster.entries) ≡ true }
        ensures roster { self.new.roster ≡ self.old.roster }
        ensures config { self.new.config ≡ self.old.config }
        ensures moment { self.new.last_moment ≡ self.old.last_moment }
        ensures progress { IfSome (first_at key self.old.roster.entries) (λ found.
            self.new.progress ≡ rules_of.progress_granted T.ops phases.Priority self.old.config.shares found.request.tags.p self.old.progress) }
    {
        match self.config.shares() {
            Shares::Clock => {}
            Shares::Virtual => self.count_first_in_virtual_time(key),
        }
    }

    /// Counts a grant by weight of a client's first request, if shares are in virtual time.
    #[cold]
    #[inline(never)]
    fn count_first_in_virtual_time(&mut self, key: usize)
        requires { is_some (first_at key self.old.roster.entries) ≡ true }
        ensures roster { self.new.roster ≡ self.old.roster }
        ensures config { self.new.config ≡ self.old.config }
        ensures moment { self.new.last_moment ≡ self.old.last_moment }
        ensures progress { IfSome (first_at key self.old.roster.entries) (λ found.
            self.new.progress ≡ rules_of.progress_granted T.ops phases.Priority self.old.config.shares found.request.tags.p self.old.progress) }
    {
        let request = self.roster.at(key).head().unwrap();
        count_grant(self.config.shares(), &mut self.progress, request.tags.p);
    }

    /// Grants the first request of a client in the weight phase, if the test allows it.
    #[inline(always)]
    fn grant_priority<A: GrantTest>(
        &mut self,
        key: usize,
        client: ClientId,
        beyond: bool,
        test: &A,
    ) -> Result<Pulled, PullFault>
        requires { IsFirstOf self.old.roster.entries key client }
        ensures { IfSome (first_at key self.old.roster.entries) (λ found.
            SettlesIf (A.allows test.now) (state_of self.old) (state_of self.new) (rules_of.grant_priority T.ops (state_of self.old) self.old.last_moment found beyond) result) }
    {
        let amount = match self.can_grant(key) {
            Ok(amount) => amount,
            Err(refusal) => return Err(PullFault::Refused(refusal)),
        };
        if !test.allows(client, PhaseType::Priority, key) {
            return Err(PullFault::Declined);
        }
        self.count_first(key);
        let at = self.last_moment();
        let request = self.take_out(key, client, amount, at);
        Ok(Pulled::Returning {
            client,
            token: request.token,
            phase: PhaseType::Priority,
            beyond,
            cost: request.cost,
        })
    }

    /// The result of a pull if no request is early.
    fn pull_by_weight<A: GrantTest>(&mut self, test: &A) -> Result<Pulled, PullFault>
        requires { IsMarked T.ops self.old }
        ensures { SettlesIf (A.allows test.now) (state_of self.old) (state_of self.new)
            (rules_of.pulled_free T.ops (state_of self.old) self.old.last_moment (best_of_all T.ops by_weight (is_free T.ops self.old.last_moment) (clients_in self.old.roster.entries)))
            result }
    {
        let Some((key, client, free)) = self.by_weight() else {
            return Ok(Pulled::Nothing);
        };
        if free {
            return self.grant_priority(key, client, false, test);
        }
        match self.config.at_limit() {
            AtLimit::Allow => self.grant_priority(key, client, true, test),
            AtLimit::Wait | AtLimit::Reject { .. } => Ok(Pulled::Future(self.next_due())),
        }
    }

    /// Grants the next request if the test allows it, and otherwise returns `Declined` and changes nothing (extension).
    pub fn pull_allowed<A: GrantTest>(&mut self, at: Moment, test: &A) -> Result<Pulled, PullFault>
        ensures { PullsIf (A.allows test.now) T.ops (state_of self.old) (state_of self.new) at result }
    {
        let before = self.last_moment();
        let at = self.effective(at);
        if let Some((key, client)) = self.early(at) {
            if !test.allows(client, PhaseType::Reservation, key) {
                return Err(PullFault::Declined);
            }
            return Ok(self.grant_early(key, client, at));
        }
        self.advance(at);
        let answer = self.pull_by_weight(test);
        if answer.is_err() {
            self.go_back(before);
        }
        answer
    }
}
