//! A client's side of a shard.
ghost use Rattle.std.specs.Prelude.{◌≡◌, ℕ, ◌+◌, ◌-◌, ◌*◌, ◌<◌, ◌≤◌, ◌^◌, ◌↔◌, length, map, vec_capacity, IfOk, IfErr, OnOk, OnErr, IsErr, IsErrOf};
ghost use Rattle.dmc_ledger.specs.Accounts.{total_of};
ghost use Rattle.dmc_ledger.specs.Bundles.{books_per_pair, client_side, new_client_side, phase_holdings, stamp_accounts, stamp_holdings, Covers, HoldsGrant};
ghost use Rattle.dmc_ledger.specs.Moves.{after_issue, books_after_opening, new_tills, tills_in, with_more, without_grant, AreOf, AreSamePhase};
ghost use Rattle.dmc_sharded.specs.BookState.{desk_state, new_desk, desk_at, queue_at};
ghost use Rattle.dmc_book.specs.BookState.{pass_state};
ghost use Rattle.dmc_qlock.specs.Calls.{Replied};
ghost use Rattle.dmc_tag.specs.declared.reply.Reply.TheVariants as replies;
ghost use Rattle.dmc_types.specs.declared.command.Command.TheVariants as commands;
ghost use Rattle.dmc_sharded.specs.Arriving.{covered, taken, IsDeskAfterRefusal, IsStampFull, PassAfter};
ghost use Rattle.dmc_sharded.specs.Responding.{desk_after_response, IsUnitAt};
ghost use Rattle.dmc_sharded.specs.internal.Opening.{IsOneTill};

use crate::fault::{ArriveFault, UnitCause};
use dmc_book::pass::WorkerPass;
use dmc_index::index::Indexes;
use dmc_ledger::book::Book;
use dmc_ledger::bundle::{PhaseTills, StampBooks, StampTills};
use dmc_ledger::desk::{ClientDesk, ServerDesk, open_pair};
use dmc_ledger::full::Full;
use dmc_ledger::mint::Mint;
use dmc_ledger::setup::Setup;
use dmc_ledger::stamp::make_stamp;
use dmc_ledger::till::Till;
use dmc_ledger::unit::Unit;
use dmc_qlock::lock::QueueLock;
use dmc_tag::reply::Tags;
use dmc_tag::tag::Tag;
use dmc_types::config::PhaseType;
use dmc_types::cost::Cost;
use dmc_types::ids::{ClientId, ServerId, Token};
use dmc_types::moment::Moment;
use dmc_types::params::ReqParams;
use std::sync::Wait;

/// A client's side of a shard: the books of the stamps that it made for the shard's queue, and the tills of what it made and the
/// queue has not taken.
#[derive(Drop)]
pub(crate) struct ShardDesk<S: Setup> {
    pub(crate) side: ServerDesk<S>,
    pub(crate) tills: StampTills<S>,
}

/// Opens a second till of each book.
fn open_tills<S: Setup>(books: &mut StampBooks<S>) -> StampTills<S>
    requires { IsOneTill (stamp_accounts books.old) }
    ensures books { stamp_accounts books.new ≡ books_after_opening (stamp_accounts books.old) }
    ensures tills { stamp_holdings result ≡ new_tills (stamp_accounts books.old) }
{
    let Ok(stamps) = books.stamps.till() else {
        unreachable!()
    };
    let Ok(delta) = books.delta.till() else {
        unreachable!()
    };
    let Ok(rho) = books.rho.till() else {
        unreachable!()
    };
    StampTills { stamps, delta, rho }
}

/// The desks of a client at a shard, with new books: the queue's, and the client's.
fn open_desk<S: Setup>(
    mint: &mut Mint<S>,
    client: ClientId,
    shard: ServerId,
) -> (ClientDesk<S>, ShardDesk<S>)
    requires { books_per_pair ≤ mint.old.left }
    ensures queue { client_side result.0 ≡ new_client_side client.0 shard.0 mint.old.opened }
    ensures desk { desk_state result.1 ≡ new_desk client.0 shard.0 mint.old.opened }
    ensures mint { mint.new ≡ record { opened = mint.old.opened + books_per_pair; left = mint.old.left - books_per_pair } }
{
    let Ok((queue, side)) = open_pair(mint, client, shard) else {
        unreachable!()
    };
    let mut side = side;
    let tills = open_tills(&mut side.books);
    (queue, ShardDesk { side, tills })
}

/// Opens the desks of a client at shards 0, 1, .., in room that was made.
pub(crate) fn open_desks<S: Setup>(
    mint: &mut Mint<S>,
    client: ClientId,
    shards: u32,
    queues: &mut Vec<ClientDesk<S>>,
    desks: &mut Vec<ShardDesk<S>>,
)
    requires numbers { books_per_pair * shards ≤ mint.old.left }
    requires no_queue { length queues.old.items ≡ 0 }
    requires no_desk { length desks.old.items ≡ 0 }
    requires queue_room { shards ≤ vec_capacity queues.old }
    requires desk_room { shards ≤ vec_capacity desks.old }
    ensures queues { length queues.new.items ≡ shards }
    ensures each_queue { (k : ℕ) → k < shards → queue_at (map client_side queues.new.items) k ≡ new_client_side client.0 k (mint.old.opened + books_per_pair * k) }
    ensures desks { length desks.new.items ≡ shards }
    ensures each_desk { (k : ℕ) → k < shards → desk_at (map desk_state desks.new.items) k ≡ new_desk client.0 k (mint.old.opened + books_per_pair * k) }
    ensures mint { mint.new ≡ record { opened = mint.old.opened + books_per_pair * shards; left = mint.old.left - books_per_pair * shards } }
{
    for shard in 0..shards {
        let (queue, desk) = open_desk(mint, client, ServerId(shard));
        queues.push(queue).unwrap();
        desks.push(desk).unwrap();
    }
}

/// Issues into a till what it lacks of an amount. Refused `Full`, with nothing changed, if the total would be above 2^63.
fn issue_missing<S: Setup>(book: &mut Book<S>, till: &mut Till<S>, amount: u64) -> Result<(), Full>
    requires { till.old.number ≡ book.old.number }
    ensures full { IsErr result ↔ (2 ^ 63 < total_of book.old + (amount - till.old.amount)) }
    ensures book { OnOk result (book.new ≡ after_issue (amount - till.old.amount) book.old) }
    ensures till { OnOk result (till.new ≡ with_more (amount - till.old.amount) till.old) }
    ensures kept { OnErr result (book.new ≡ book.old) }
    ensures till_kept { OnErr result (till.new ≡ till.old) }
{
    let missing = amount.saturating_sub(till.amount());
    book.issue(till, missing)
}

impl<S: Setup> ShardDesk<S> {
    /// Makes the tills hold a stamp with these params: issues into them what they lack. Refused `Full`, with nothing changed, exactly
    /// if the total of the stamps would be above 2^63.
    pub(crate) fn cover(&mut self, params: ReqParams) -> Result<(), Full>
        requires of { AreOf (desk_state self.old).tills (desk_state self.old).side.books }
        requires delta { total_of (desk_state self.old).side.books.delta + (params.delta - (desk_state self.old).tills.delta.amount) ≤ 2 ^ 63 }
        requires rho { total_of (desk_state self.old).side.books.rho + (params.rho - (desk_state self.old).tills.rho.amount) ≤ 2 ^ 63 }
        ensures full { IsErr result ↔ IsStampFull (desk_state self.old) }
        ensures desk { OnOk result (desk_state self.new ≡ covered params (desk_state self.old)) }
        ensures covers { OnOk result (Covers (stamp_holdings self.new.tills) params) }
        ensures kept { OnErr result (desk_state self.new ≡ desk_state self.old) }
    {
        let delta = u64::from(params.delta());
        let rho = u64::from(params.rho());
        let books = &mut self.side.books;
        issue_missing(&mut books.stamps, &mut self.tills.stamps, 1)?;
        let Ok(()) = issue_missing(&mut books.delta, &mut self.tills.delta, delta) else {
            unreachable!()
        };
        let Ok(()) = issue_missing(&mut books.rho, &mut self.tills.rho, rho) else {
            unreachable!()
        };
        Ok(())
    }

    /// Makes a stamp of the client for the shard's queue, and submits a request with it. Refused `TrackFull` if no stamp can be made,
    /// or as the queue refuses the request: then the tills still hold what was made.
    pub(crate) fn submit<T: Tag, I: Indexes<T>, R: Wait>(
        &mut self,
        rt: &R,
        queue: &QueueLock<T, I, S>,
        pass: &mut WorkerPass<S>,
        client: ClientId,
        shard: ServerId,
        stamped: ReqParams,
        token: Token,
        at: Moment,
    ) -> Result<Tags<T>, ArriveFault>
        requires of { AreOf (desk_state self.old).tills (desk_state self.old).side.books }
        requires delta { total_of (desk_state self.old).side.books.delta + (stamped.delta - (desk_state self.old).tills.delta.amount) ≤ 2 ^ 63 }
        requires rho { total_of (desk_state self.old).side.books.rho + (stamped.rho - (desk_state self.old).tills.rho.amount) ≤ 2 ^ 63 }
        ensures accepted { IfOk result (λ tags. Replied T.ops (pass_state pass.old) (pass_state pass.new)
            (commands.Add (record { 0 = client.0 }) token stamped at) (replies.Tagged tags)) }
        ensures taken { OnOk result (desk_state self.new ≡ taken stamped (desk_state self.old)) }
        ensures its_server { OnOk result (shard.0 ≡ queue.now.server) }
        ensures refused { IfErr result (IsDeskAfterRefusal stamped (desk_state self.old) (desk_state self.new)) }
        ensures pass { IfErr result (PassAfter T.ops (pass_state pass.old) (pass_state pass.new) (commands.Add (record { 0 = client.0 }) token stamped at)) }
        ensures no_server { IsErrOf result ArriveFault.NoServer → ⊥ }
        ensures full { IsErrOf result ArriveFault.TrackFull ↔ IsStampFull (desk_state self.old) }
    {
        if self.cover(stamped).is_err() {
            return Err(ArriveFault::TrackFull);
        }
        let stamp = make_stamp(client, shard, stamped, &self.tills);
        match queue.submit(rt, pass, &mut self.tills, stamp, token, at) {
            Ok(tags) => Ok(tags),
            Err(fault) => Err(ArriveFault::Queue(fault.cause)),
        }
    }

    /// Takes a grant of a phase with its cost out of a worker's tills.
    pub(crate) fn take(&mut self, phase: PhaseType, cost: Cost, tills: &mut PhaseTills<S>)
        requires same_books { AreSamePhase (phase_holdings tills.old) (tills_in phase (desk_state self.old).side.held) }
        requires holds { HoldsGrant (phase_holdings tills.old) cost }
        ensures desk { desk_state self.new ≡ desk_after_response phase cost (desk_state self.old) }
        ensures tills { phase_holdings tills.new ≡ without_grant cost (phase_holdings tills.old) }
    {
        self.side.held.take(phase, cost, tills);
    }
}

/// The place of the desk of a unit's shard, if the unit is of this client, and the tills are of its grants there in its phase.
pub(crate) fn find_grants<S: Setup>(
    desks: &[ShardDesk<S>],
    client: ClientId,
    unit: &Unit,
    tills: &PhaseTills<S>,
) -> Result<usize, UnitCause>
    ensures place { IfOk result (λ i. i ≡ unit.now.server) }
    ensures within { IfOk result (λ i. unit.now.server < length desks.now) }
    ensures its { IfOk result (λ i. IsUnitAt client.0 (desk_at (map desk_state desks.now) unit.now.server) unit.now (phase_holdings tills.now)) }
    ensures no_server { IsErrOf result UnitCause.NoServer ↔ (length desks.now ≤ unit.now.server) }
    ensures stranger { IsErrOf result UnitCause.Stranger ↔ ((unit.now.server < length desks.now)
        × (IsUnitAt client.0 (desk_at (map desk_state desks.now) unit.now.server) unit.now (phase_holdings tills.now) → ⊥)) }
{
    let place = unit.server().0 as usize;
    let Some(desk) = desks.get(place) else {
        return Err(UnitCause::NoServer);
    };
    if unit.client() != client || !desk.side.held.are_of_phase(unit.phase(), tills) {
        return Err(UnitCause::Stranger);
    }
    Ok(place)
}
