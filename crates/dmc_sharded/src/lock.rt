//! A client's book behind its lock.
ghost use Rattle.std.specs.Prelude.{◌≡◌, ◌≢◌, IfOk, IfErr, IfSome, OnErr, OnOk};
ghost use Rattle.dmc_types.specs.Values.{Params};
ghost use Rattle.dmc_tag.specs.declared.reply.Reply.TheVariants as replies;
ghost use Rattle.dmc_types.specs.declared.command.Command.TheVariants as commands;
ghost use Rattle.dmc_tracker.specs.TrackerList.{plus};
ghost use Rattle.dmc_ledger.specs.Bundles.{phase_holdings, HoldsGrant};
ghost use Rattle.dmc_ledger.specs.Moves.{without_grant};
ghost use Rattle.dmc_book.specs.BookState.{pass_state};
ghost use Rattle.dmc_qlock.specs.Calls.{Replied};
ghost use Rattle.dmc_sharded.specs.Arriving.{IsStampFor, PassAfter};

use crate::book::ArrivalBook;
use crate::fault::{ArriveFault, UnitFault};
use dmc_book::pass::WorkerPass;
use dmc_index::index::Indexes;
use dmc_ledger::bundle::PhaseTills;
use dmc_ledger::setup::Setup;
use dmc_ledger::unit::Unit;
use dmc_qlock::lock::QueueLock;
use dmc_shards::status::ShardStatus;
use dmc_shared::pad::{CACHE_PAD, CachePad};
use dmc_tag::reply::Tags;
use dmc_tag::tag::Tag;
use dmc_tracker::counts::Counts;
use dmc_tracker::tracker::TrackFault;
use dmc_types::ids::{ClientId, ServerId, Token};
use dmc_types::moment::Moment;
use dmc_types::params::ReqParams;
use std::marker::Model;
use std::sync::{Mutex, Wait};

/// What came in of a client for all shards, and what of it was sent to one shard, is pending there, and was skipped.
#[derive(Clone, Copy, Debug, PartialEq, Eq)]
pub struct ArrivalStatus {
    pub came: Counts,
    pub shard: ShardStatus,
}

/// A client's book that threads share. Each time that the lock is taken the book is consistent: that is the invariant of its type.
/// Contracts see whose it is.
#[derive(Drop)]
pub struct ArrivalLock<S: Setup> {
    client: ClientId,
    guarded: Mutex<ArrivalBook<S>>,
    // Between this lock and what lies beside it.
    apart: CachePad,
}

impl<S: Setup> Model for ArrivalLock<S> {
    ghost use Rattle.dmc_sharded.specs.BookState.{LockValue};

    ghost Value = { LockValue };

    ghost view = { λ l. record { client = l.client.0 } };
}

impl<S: Setup> ArrivalLock<S> {
    /// The book behind a lock.
    pub fn new(book: ArrivalBook<S>) -> ArrivalLock<S>
        ensures { result.client ≡ book.client }
    {
        ArrivalLock {
            client: book.client(),
            guarded: Mutex::new(book),
            apart: CACHE_PAD,
        }
    }

    /// The book, once no thread shares the lock. `laws::book_is_consistent` says what holds of it.
    pub fn into_book(self) -> ArrivalBook<S> {
        let ArrivalLock { guarded, .. } = self;
        guarded.into_inner()
    }

    /// Whose book it is.
    pub fn client(&self) -> ClientId
        ensures { result.0 ≡ self.now.client }
    {
        self.client
    }

    /// Lets a request come in at a shard, as the book does, and queues it at the shard's lock, which is taken while this one is held.
    pub(crate) fn submit<T: Tag, I: Indexes<T>, R: Wait>(
        &self,
        rt: &R,
        queue: &QueueLock<T, I, S>,
        pass: &mut WorkerPass<S>,
        shard: ServerId,
        params: ReqParams,
        token: Token,
        at: Moment,
    ) -> Result<Tags<T>, ArriveFault>
        ensures accepted { IfOk result (λ tags. (stamped : Params) × IsStampFor params stamped × Replied T.ops (pass_state pass.old) (pass_state pass.new)
            (commands.Add (record { 0 = self.now.client }) token stamped at) (replies.Tagged tags)) }
        ensures refused { IfErr result (λ fault. (stamped : Params) × IsStampFor params stamped × PassAfter T.ops (pass_state pass.old) (pass_state pass.new)
            (commands.Add (record { 0 = self.now.client }) token stamped at) fault) }
    {
        let mut book = self.guarded.lock(rt);
        book.submit_for(rt, queue, pass, self.client, shard, params, token, at)
    }

    /// Skips what is pending at a shard: the next stamp to it counts only what comes later. Refused `NoServer`.
    pub fn skip<R: Wait>(&self, rt: &R, shard: ServerId) -> Result<(), TrackFault>
        ensures { result ≢ Err TrackFault.TrackFull }
    {
        self.guarded.lock(rt).skip(shard)
    }

    /// The response to a unit's grant leaves for the client: takes the grant from the worker's tills, as the book does. A refusal hands
    /// the unit back.
    pub fn respond<R: Wait>(
        &self,
        rt: &R,
        unit: Unit,
        tills: &mut PhaseTills<S>,
    ) -> Result<(), UnitFault>
        requires { HoldsGrant (phase_holdings tills.old) unit.cost }
        ensures tills { OnOk result (phase_holdings tills.new ≡ without_grant unit.cost (phase_holdings tills.old)) }
        ensures kept { OnErr result (phase_holdings tills.new ≡ phase_holdings tills.old) }
        ensures handed_back { IfErr result (λ fault. fault.unit ≡ unit) }
    {
        let taken = self.guarded.lock(rt).respond_to(&unit, tills);
        match taken {
            Ok(()) => Ok(()),
            Err(cause) => Err(UnitFault { unit, cause }),
        }
    }

    /// What came in, and what of it was sent to a shard, skipped there and is pending, or `None` if there is no such shard.
    pub fn status<R: Wait>(&self, rt: &R, shard: ServerId) -> Option<ArrivalStatus>
        ensures { IfSome result (λ status. plus (plus status.shard.sent status.shard.skipped) status.shard.pending ≡ status.came) }
    {
        let book = self.guarded.lock(rt);
        let shard = book.status(shard)?;
        Some(ArrivalStatus {
            came: book.came(),
            shard,
        })
    }
}
