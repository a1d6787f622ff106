//! An add to the indexed queue.
ghost use Rattle.std.specs.Prelude.{◌≡◌, ◌≤◌, ◌<◌, ◌==◌, true, Some, None, Ok, is_some, IfSome, OnOk, OnErr, IsOkUnless};
ghost use Rattle.std.specs.List.{list_all};
ghost use Rattle.dmc_adjust.specs.Changes.{is_shiftable};
ghost use Rattle.dmc_client.specs.Record.{client_of};
ghost use Rattle.dmc_pull.specs.internal.Adding as adding_of;
ghost use Rattle.dmc_pull.specs.internal.Adding.{AddTags, CanAdd, IsAddition};
ghost use Rattle.dmc_pull.specs.Queue.{state_of};
ghost use Rattle.dmc_roster.specs.Entries.{entry_keyed};
ghost use Rattle.dmc_tag.specs.Rules as rules_of;
ghost use Rattle.dmc_tag.specs.State.{PlainClient};
ghost use Rattle.dmc_types.specs.declared.ids.Token.{Token};

use crate::adding::{Addition, Shiftable, adjusts, shift_others, unless_nothing};
use crate::heads::head_at;
use crate::queue::PullQueue;
use crate::range::{all_have_less, widen};
use dmc_adjust::adjustment::shift_for;
use dmc_assign::assignment::{slack_for, tags_for};
use dmc_index::index::Indexes;
use dmc_tag::due::is_over_limit;
use dmc_tag::plain::QueuedRequest;
use dmc_tag::progress::{count_arrival, share_floor};
use dmc_tag::reply::Tags;
use dmc_tag::tag::Tag;
use dmc_types::cost::Cost;
use dmc_types::ids::{ClientId, Token};
use dmc_types::limits::MAX_REQUESTS;
use dmc_types::moment::Moment;
use dmc_types::params::ReqParams;
use dmc_types::refusal::{QueueFault, Refusal};

impl<T: Tag, I: Indexes<T>> PullQueue<T, I> {
    /// The amount by which all others are shifted for a client that arrives at t, and is idle or not. `None` if it is not idle,
    /// if nothing is queued, if shares are in virtual time, or if the amount is 0.
    fn needed_shift(&mut self, idle: bool, t: T) -> Result<Option<T>, Refusal>
        ensures value { (arriving : PlainClient T) → arriving.idle ≡ idle → result ≡ adding_of.needed_shift T.ops (state_of self.old).config.shares (state_of self.old).clients arriving t }
        ensures same { self.new ≡ self.old }
    {
        if idle {
            return self.shift_for_idle(t);
        }
        Ok(None)
    }

    /// The amount by which all others are shifted for an idle client that arrives at t. `None` if nothing is queued, if shares are
    /// in virtual time, or if the amount is 0.
    #[cold]
    #[inline(never)]
    fn shift_for_idle(&mut self, t: T) -> Result<Option<T>, Refusal>
        ensures value { (arriving : PlainClient T) → arriving.idle ≡ true → result ≡ adding_of.needed_shift T.ops (state_of self.old).config.shares (state_of self.old).clients arriving t }
        ensures same { self.new ≡ self.old }
    {
        if self.queued == 0 || !adjusts(self.config.shares()) {
            return Ok(None);
        }
        let Some(least) = self.heads.0.least_share() else {
            return Ok(None);
        };
        match shift_for(least, t) {
            None => Err(Refusal::Range),
            Some(amount) => Ok(unless_nothing(amount)),
        }
    }

    /// Whether each tag that a shift changes stays a value. If that does not follow from the range, each record is tested.
    fn can_shift_by(&self, shift: Option<T>) -> bool
        ensures { result ≡ rules_of.can_shift_by T.ops shift (state_of self.now).clients }
    {
        match shift {
            None => true,
            Some(amount) => all_have_less(self.range, amount) || self.each_has_less(amount),
        }
    }

    /// Whether each tag of each client that is not idle, less the amount, is a value.
    fn each_has_less(&self, amount: T) -> bool
        ensures { result ≡ list_all (λ e. is_shiftable T.ops amount e.rec) self.now.roster.entries }
    {
        self.roster.count(&Shiftable { amount }) == self.roster.len()
    }

    /// The tests of an add, and its effect: the key of the client, the shift of all others and the new tags. The client is looked
    /// for at the index `hint` first.
    pub(super) fn can_add(
        &mut self,
        client: ClientId,
        hint: usize,
        params: ReqParams,
        at: Moment,
    ) -> Result<Addition<T>, Refusal>
        ensures outcome { CanAdd T.ops T.fraction T.is_value self.old client params at result }
        ensures same { self.new ≡ self.old }
    {
        let addition = self.add_tags(client, hint, params, at)?;
        if self.rejects(&addition, at) {
            return Err(Refusal::OverLimit);
        }
        Ok(addition)
    }

    /// Whether the new request would wait for its limit too long.
    fn rejects(&self, addition: &Addition<T>, at: Moment) -> bool
        ensures { result ≡ rules_of.is_over_limit T.ops (state_of self.now).config.at_limit at addition.now.tags.l }
    {
        is_over_limit(self.config.at_limit(), at, addition.tags.l)
    }

    /// The same, whatever the limit.
    fn add_tags(
        &mut self,
        client: ClientId,
        hint: usize,
        params: ReqParams,
        at: Moment,
    ) -> Result<Addition<T>, Refusal>
        ensures outcome { AddTags T.ops T.fraction T.is_value self.old client params at result }
        ensures same { self.new ≡ self.old }
    {
        let Some(key) = self.roster.find_with_hint(client, hint) else {
            return Err(Refusal::Unknown);
        };
        if self.queued >= MAX_REQUESTS as usize {
            return Err(Refusal::QueueFull);
        }
        let t = T::of_moment(at);
        let floor = share_floor(self.config.shares(), &self.progress, self.queued == 0, t);
        let rec = self.roster.at(key);
        let assigned = tags_for(rec, params, t, floor);
        let idle = rec.is_idle();
        let shift = self.needed_shift(idle, t)?;
        if !self.can_shift_by(shift) {
            return Err(Refusal::Range);
        }
        let Some(tags) = assigned else {
            return Err(Refusal::Range);
        };
        let slack = slack_for(self.roster.at(key), tags, t, floor);
        Ok(Addition {
            key,
            shift,
            tags,
            slack,
        })
    }

    /// Queues a request, and shifts all others. In virtual time its P is counted.
    pub(super) fn queue(
        &mut self,
        client: ClientId,
        token: Token,
        cost: Cost,
        addition: Addition<T>,
        at: Moment,
    ) -> Result<(), QueueFault>
        requires addition { IsAddition T.ops T.fraction T.is_value self.old client addition }
        requires later { self.old.last_moment ≤ at }
        ensures ok { OnOk result (state_of self.new ≡
            rules_of.queued T.ops (state_of self.old) addition.shift client (record { token = token; cost = cost; tags = addition.tags; slack = addition.slack }) at) }
        ensures err { OnErr result (self.new ≡ self.old) }
        ensures memory { IsOkUnless result QueueFault.Memory }
    {
        let Addition {
            key,
            shift,
            tags,
            slack,
        } = addition;
        let request = QueuedRequest {
            token,
            cost,
            tags,
            slack,
        };
        let rec = self.roster.at_mut(key);
        let is_first = rec.is_empty();
        if rec.push(request, at).is_err() {
            return Err(QueueFault::Memory);
        }
        widen(&mut self.range, tags.p, shift);
        shift_others(&mut self.roster, &mut self.heads.0, shift, key);
        count_arrival(
            self.config.shares(),
            &mut self.progress,
            self.queued == 0,
            tags.p,
        );
        if is_first {
            self.heads.0.insert(key, head_at(client, tags, at));
        }
        self.queued += 1;
        self.last_moment = at;
        Ok(())
    }
}
