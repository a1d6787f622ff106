//! A client's book of arrivals.
ghost use Rattle.std.specs.Prelude.{◌≡◌, ◌+◌, ◌-◌, ◌*◌, ◌<◌, ◌≤◌, ◌↔◌, ◌⊎◌, length, map, IfOk, IfErr, IfSome, OnOk, OnErr, IsOk, IsErrAnd, IsErrOf, IsOkUnless, slice_get};
ghost use Rattle.dmc_tag.specs.declared.reply.Reply.TheVariants as replies;
ghost use Rattle.dmc_types.specs.declared.command.Command.TheVariants as commands;
ghost use Rattle.dmc_tracker.specs.Numbers.{AreLimits};
ghost use Rattle.dmc_tracker.specs.TrackerList.{plus};
ghost use Rattle.dmc_shards.specs.ShardNumbers.{next_params, IsFullAt};
ghost use Rattle.dmc_ledger.specs.Bundles.{books_per_pair, client_side, phase_holdings, HoldsGrant};
ghost use Rattle.dmc_ledger.specs.Moves.{without_grant};
ghost use Rattle.dmc_book.specs.BookState.{pass_state};
ghost use Rattle.dmc_qlock.specs.Calls.{Replied};
ghost use Rattle.dmc_sharded.specs.BookState.{AreOpenLimits, IsNewBook, AreNewQueues, IsConsistent, desk_state, desk_at};
ghost use Rattle.dmc_sharded.specs.Arriving.{book_after_arrival, book_after_skip, covered, taken, IsAfterRefusal, IsArrivalFull, IsStampFull, PassAfter};
ghost use Rattle.dmc_sharded.specs.Responding.{book_after_unit, IsUnitOf};

use crate::desk::{ShardDesk, find_grants, open_desks};
use crate::fault::{ArriveFault, UnitCause, UnitFault};
use dmc_book::book::QueueBook;
use dmc_book::pass::WorkerPass;
use dmc_index::index::Indexes;
use dmc_ledger::bundle::PhaseTills;
use dmc_ledger::desk::{BOOKS_PER_PAIR, ClientDesk};
use dmc_ledger::mint::Mint;
use dmc_ledger::setup::Setup;
use dmc_ledger::unit::Unit;
use dmc_qlock::lock::QueueLock;
use dmc_shards::status::ShardStatus;
use dmc_shards::tracker::ShardTracker;
use dmc_tag::reply::Tags;
use dmc_tag::tag::Tag;
use dmc_tracker::counts::Counts;
use dmc_tracker::tracker::{MakeFault, TrackFault};
use dmc_types::ids::{ClientId, ServerId, Token};
use dmc_types::moment::Moment;
use dmc_types::params::ReqParams;
use std::alloc::Global;
use std::marker::Model;
use std::sync::Wait;

/// What a client's requests brought to a server, and what of it went to each shard: its shard tracker, and a desk for each shard
/// (extension).
///
/// What holds of every book is the invariant of its type (`IsConsistent`; `laws::book_is_consistent` gives it): what was sent to a
/// shard, what was skipped there and what is pending is what came in, and the books of a shard's stamps total what was sent there
/// and what was made for a request that the queue then refused.
#[derive(Drop)]
pub struct ArrivalBook<S: Setup> {
    client: ClientId,
    tracker: ShardTracker,
    pub(crate) desks: Vec<ShardDesk<S>>,
}

impl<S: Setup> Model for ArrivalBook<S> {
    ghost use Rattle.std.specs.Prelude.{map};
    ghost use Rattle.dmc_sharded.specs.BookState.{BookState, IsConsistent, desk_state};

    ghost Value = { BookState };

    ghost view = { λ b. record { client = b.client.0; tracker = b.tracker; desks = map desk_state b.desks.items } };

    ghost invariant = { λ b. IsConsistent (record { client = b.client.0; tracker = b.tracker; desks = map desk_state b.desks.items }) };
}

/// Changes nothing, and shows that the rho of a stamp is a part of its delta.
fn rho_is_part(params: ReqParams)
    ensures { params.rho ≤ params.delta }
{
    let _ = params.rho();
}

impl<S: Setup> ArrivalBook<S> {
    /// A client's book for the shards 0, 1, .. of a server (1 to 64), to which deltas of `most` in all can come (1 to 2^62), and the
    /// desk of each shard's queue, in their order. The mint gives `BOOKS_PER_PAIR` numbers for each shard.
    ///
    /// Refused `Limit` if these are past their limits or the mint has fewer numbers left, then `Memory`, with the mint as it was.
    pub fn open(
        alloc: Global,
        mint: &mut Mint<S>,
        client: ClientId,
        shards: u32,
        most: u64,
    ) -> Result<(ArrivalBook<S>, Vec<ClientDesk<S>>), MakeFault>
        ensures book { IfOk result (λ opened. IsNewBook client.0 shards most mint.old.opened opened.0) }
        ensures queues { IfOk result (λ opened. AreNewQueues client.0 shards mint.old.opened (map client_side opened.1.items)) }
        ensures mint { OnOk result (mint.new ≡ record { opened = mint.old.opened + books_per_pair * shards; left = mint.old.left - books_per_pair * shards }) }
        ensures kept { OnErr result (mint.new ≡ mint.old) }
        ensures limit { (AreOpenLimits shards most mint.old.left → ⊥) → result ≡ Err MakeFault.Limit }
        ensures memory { AreOpenLimits shards most mint.old.left → IsOkUnless result MakeFault.Memory }
    {
        if mint.left() < BOOKS_PER_PAIR * u64::from(shards) {
            return Err(MakeFault::Limit);
        }
        let tracker = ShardTracker::new(alloc, shards, most)?;
        let mut queues = Vec::with_capacity(alloc, shards as usize)?;
        let mut desks = Vec::with_capacity(alloc, shards as usize)?;
        open_desks(mint, client, shards, &mut queues, &mut desks);
        let book = ArrivalBook {
            client,
            tracker,
            desks,
        };
        Ok((book, queues))
    }

    /// A request of this client came in with this stamp, and goes to a shard: queues it there with the stamp that the shard needs, of
    /// the same cost, and answers its tags. The delta and the rho that came are then pending at the other shards.
    ///
    /// Refused `NoServer`, `TrackFull`, then as the shard's queue refuses a submit. Nothing is counted then: what the request's stamp
    /// carries is its client's, which may send it again.
    pub fn submit<T: Tag, I: Indexes<T>, R: Wait>(
        &mut self,
        rt: &R,
        queue: &QueueLock<T, I, S>,
        pass: &mut WorkerPass<S>,
        shard: ServerId,
        params: ReqParams,
        token: Token,
        at: Moment,
    ) -> Result<Tags<T>, ArriveFault>
        ensures accepted { IfOk result (λ tags. Replied T.ops (pass_state pass.old) (pass_state pass.new)
            (commands.Add (record { 0 = self.old.client }) token (next_params self.old.tracker shard params) at) (replies.Tagged tags)) }
        ensures arrived { OnOk result (self.new ≡ book_after_arrival shard params self.old) }
        ensures its_server { OnOk result (shard.0 ≡ queue.now.server) }
        ensures refused { IfErr result (IsAfterRefusal shard params self.old self.new) }
        ensures pass { IfErr result (PassAfter T.ops (pass_state pass.old) (pass_state pass.new)
            (commands.Add (record { 0 = self.old.client }) token (next_params self.old.tracker shard params) at)) }
        ensures no_server { IsErrOf result ArriveFault.NoServer ↔ (length self.old.desks ≤ shard.0) }
        ensures full { IsErrOf result ArriveFault.TrackFull ↔ IsArrivalFull self.old shard params }
    {
        let client = self.client;
        self.submit_for(rt, queue, pass, client, shard, params, token, at)
    }

    /// The same, for a client: a lock knows whose book it guards, and its contract says it.
    pub(crate) fn submit_for<T: Tag, I: Indexes<T>, R: Wait>(
        &mut self,
        rt: &R,
        queue: &QueueLock<T, I, S>,
        pass: &mut WorkerPass<S>,
        client: ClientId,
        shard: ServerId,
        params: ReqParams,
        token: Token,
        at: Moment,
    ) -> Result<Tags<T>, ArriveFault>
        ensures accepted { IfOk result (λ tags. Replied T.ops (pass_state pass.old) (pass_state pass.new)
            (commands.Add (record { 0 = client.0 }) token (next_params self.old.tracker shard params) at) (replies.Tagged tags)) }
        ensures arrived { OnOk result (self.new ≡ book_after_arrival shard params self.old) }
        ensures its_server { OnOk result (shard.0 ≡ queue.now.server) }
        ensures refused { IfErr result (IsAfterRefusal shard params self.old self.new) }
        ensures pass { IfErr result (PassAfter T.ops (pass_state pass.old) (pass_state pass.new)
            (commands.Add (record { 0 = client.0 }) token (next_params self.old.tracker shard params) at)) }
        ensures no_server { IsErrOf result ArriveFault.NoServer ↔ (length self.old.desks ≤ shard.0) }
        ensures full { IsErrOf result ArriveFault.TrackFull ↔ IsArrivalFull self.old shard params }
    {
        let stamped = self.tracker.next(shard, params)?;
        self.submit_stamped(rt, queue, pass, client, shard, params, stamped, token, at)
    }

    /// The same with the shard's stamp, which the tracker does not refuse.
    fn submit_stamped<T: Tag, I: Indexes<T>, R: Wait>(
        &mut self,
        rt: &R,
        queue: &QueueLock<T, I, S>,
        pass: &mut WorkerPass<S>,
        client: ClientId,
        shard: ServerId,
        params: ReqParams,
        stamped: ReqParams,
        token: Token,
        at: Moment,
    ) -> Result<Tags<T>, ArriveFault>
        requires within { shard.0 < length self.old.desks }
        requires stamped { stamped ≡ next_params self.old.tracker shard params }
        requires fits { IsFullAt self.old.tracker shard params → ⊥ }
        requires counted { self.old.tracker.came.delta + params.delta ≤ self.old.tracker.most }
        ensures accepted { IfOk result (λ tags. Replied T.ops (pass_state pass.old) (pass_state pass.new)
            (commands.Add (record { 0 = client.0 }) token stamped at) (replies.Tagged tags)) }
        ensures arrived { OnOk result (self.new ≡ book_after_arrival shard params self.old) }
        ensures its_server { OnOk result (shard.0 ≡ queue.now.server) }
        ensures refused { IfErr result (IsAfterRefusal shard params self.old self.new) }
        ensures pass { IfErr result (PassAfter T.ops (pass_state pass.old) (pass_state pass.new) (commands.Add (record { 0 = client.0 }) token stamped at)) }
        ensures no_server { IsErrOf result ArriveFault.NoServer → ⊥ }
        ensures full { IsErrOf result ArriveFault.TrackFull ↔ IsStampFull (desk_at self.old.desks shard.0) }
    {
        rho_is_part(params);
        rho_is_part(stamped);
        let desk = &mut self.desks[shard.0 as usize];
        match desk.submit(rt, queue, pass, client, shard, stamped, token, at) {
            Ok(tags) => {
                let Ok(_) = self.tracker.arrive(shard, params) else {
                    unreachable!()
                };
                Ok(tags)
            }
            Err(fault) => Err(fault),
        }
    }

    /// Skips what is pending at a shard, as its tracker does: the next stamp to it counts only what comes later. Refused `NoServer`.
    pub fn skip(&mut self, shard: ServerId) -> Result<(), TrackFault>
        ensures book { OnOk result (self.new ≡ book_after_skip shard self.old) }
        ensures no_server { IsErrOf result TrackFault.NoServer ↔ (length self.old.desks ≤ shard.0) }
        ensures ok { IsOk result ↔ (shard.0 < length self.old.desks) }
        ensures kept { OnErr result (self.new ≡ self.old) }
    {
        self.tracker.skip(shard)
    }

    /// The response to a unit's grant leaves for the client: takes the grant from the worker's tills, of its phase and with its cost.
    /// A worker can be dismissed once this was done with each of its grants. What the client's own tracker counts of it is not known
    /// here.
    ///
    /// Refused `NoServer`; `Stranger` if the unit is another client's, or the tills are not of this client's grants at its shard in
    /// its phase. Each refusal hands the unit back.
    pub fn respond(&mut self, unit: Unit, tills: &mut PhaseTills<S>) -> Result<(), UnitFault>
        requires { HoldsGrant (phase_holdings tills.old) unit.cost }
        ensures book { OnOk result (self.new ≡ book_after_unit unit self.old) }
        ensures tills { OnOk result (phase_holdings tills.new ≡ without_grant unit.cost (phase_holdings tills.old)) }
        ensures handed_back { IfErr result (λ fault. fault.unit ≡ unit) }
        ensures kept { OnErr result (self.new ≡ self.old) }
        ensures tills_kept { OnErr result (phase_holdings tills.new ≡ phase_holdings tills.old) }
        ensures no_server { IsErrAnd result (λ fault. fault.cause ≡ UnitCause.NoServer) ↔ (length self.old.desks ≤ unit.server) }
        ensures stranger { IsErrAnd result (λ fault. fault.cause ≡ UnitCause.Stranger)
            ↔ ((unit.server < length self.old.desks) × (IsUnitOf self.old unit (phase_holdings tills.old) → ⊥)) }
    {
        match self.respond_to(&unit, tills) {
            Ok(()) => Ok(()),
            Err(cause) => Err(UnitFault { unit, cause }),
        }
    }

    /// The same with a unit that is lent.
    pub(crate) fn respond_to(
        &mut self,
        unit: &Unit,
        tills: &mut PhaseTills<S>,
    ) -> Result<(), UnitCause>
        requires { HoldsGrant (phase_holdings tills.old) unit.now.cost }
        ensures book { OnOk result (self.new ≡ book_after_unit unit.now self.old) }
        ensures tills { OnOk result (phase_holdings tills.new ≡ without_grant unit.now.cost (phase_holdings tills.old)) }
        ensures kept { OnErr result (self.new ≡ self.old) }
        ensures tills_kept { OnErr result (phase_holdings tills.new ≡ phase_holdings tills.old) }
        ensures no_server { IsErrOf result UnitCause.NoServer ↔ (length self.old.desks ≤ unit.now.server) }
        ensures stranger { IsErrOf result UnitCause.Stranger
            ↔ ((unit.now.server < length self.old.desks) × (IsUnitOf self.old unit.now (phase_holdings tills.old) → ⊥)) }
    {
        let place = find_grants(&self.desks, self.client, unit, tills)?;
        self.desks[place].take(unit.phase(), unit.cost(), tills);
        Ok(())
    }

    /// What was sent to a shard, what was skipped there and what is pending, or `None` if there is no such shard.
    pub fn status(&self, shard: ServerId) -> Option<ShardStatus>
        ensures value { result ≡ slice_get self.now.tracker.shards shard.0 }
        ensures sums { IfSome result (λ status. plus (plus status.sent status.skipped) status.pending ≡ self.now.tracker.came) }
    {
        self.tracker.status(shard)
    }

    /// The counts that came in, for all shards.
    pub fn came(&self) -> Counts
        ensures { result ≡ self.now.tracker.came }
    {
        self.tracker.came()
    }

    /// How many shards there are.
    pub fn shards(&self) -> u32
        ensures { result ≡ length self.now.desks }
    {
        self.tracker.shards()
    }

    /// Whose book it is.
    pub fn client(&self) -> ClientId
        ensures { result.0 ≡ self.now.client }
    {
        self.client
    }
}
