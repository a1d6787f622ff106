//! A queue's history, and the counts of its events.
ghost use Rattle.std.specs.Prelude.{◌≡◌, ◌-◌, ◌≤◌, ◌<◌, ◌↔◌, ◌∷◌, length, map, true, None, IfNone, IfSome, OnSome, IsErrOf, IsSome, IsTrue, OnOk};
ghost use Rattle.dmc_history.specs.Log.{FillBlocks};
ghost use Rattle.dmc_ledger.specs.Bundles.{Covers, client_side, stamp_holdings};
ghost use Rattle.dmc_ledger.specs.Moves.{tills_after_submit};
ghost use Rattle.dmc_pull.specs.Allowed.{is_allowed};
ghost use Rattle.dmc_tag.specs.Replay.{replays};
ghost use Rattle.dmc_tag.specs.declared.reply.Reply.TheVariants as replies;
ghost use Rattle.dmc_types.specs.declared.command.Command.TheVariants as commands;
ghost use Rattle.dmc_book.specs.BookState.{pass_state, worker_side};
ghost use Rattle.dmc_book.specs.Calls.{event_of, lacks_desk};
ghost use Rattle.dmc_book.specs.Consistent.{AreConsistent};
ghost use Rattle.dmc_book.specs.Counts as counts;
ghost use Rattle.dmc_book.specs.Moves.{IsEnrolled, desk_place, pass_after, takes};
ghost use Rattle.dmc_book.specs.internal.Moves.{accounts_after};
ghost use Rattle.dmc_book.specs.Renewing.{renewed_pass};
ghost use Rattle.dmc_book.specs.internal.Renewing.{accounts_renewed};
ghost use Rattle.dmc_book.specs.Rotating.{MayRotate};
ghost use Rattle.dmc_book.specs.internal.Rotating.{accounts_rotated};
ghost use Rattle.dmc_book.specs.internal.Submits.{FindsDesk};

use crate::desk::{find_stamps, hand_out, take_stamp};
use crate::names::place_with_hint;
use crate::pass::WorkerPass;
use crate::seat::{Seat, are_low, count, is_enrolled, renew_seat};
use dmc_history::ReserveFault;
use dmc_ledger::bundle::StampTills;
use dmc_ledger::desk::ClientDesk;
use dmc_ledger::setup::Setup;
use dmc_ledger::stamp::Stamp;
use dmc_queue_history::history::AddedRequest;
use dmc_queue_history::segment::Segment;
use dmc_queue_history::segmented::SegmentedHistory;
use dmc_tag::event::Event;
use dmc_tag::reply::{Reply, Tags};
use dmc_tag::tag::Tag;
use dmc_types::command::Command;
use dmc_types::config::QueueConfig;
use dmc_types::ids::{ClientId, ServerId, Token};
use dmc_types::moment::Moment;
use indexmap::IndexSet;
use std::marker::Model;

/// The most that all grants may cost together when events are released.
const MAX_COST: u64 = 1 << 62;

/// The history of a server's queue, the books of each enrolled worker, and a desk for each client.
///
/// What holds of all accounts is the invariant of the type: the books of each worker total its counts over the history, and
/// each desk holds what the history took from its client and totals what it granted.
#[derive(Drop)]
pub(crate) struct Accounts<T: Tag, S: Setup> {
    pub(crate) server: ServerId,
    pub(crate) history: SegmentedHistory<T, S>,
    pub(crate) workers: Vec<Seat<S>>,
    pub(crate) clients: IndexSet<ClientId>,
    pub(crate) desks: Vec<ClientDesk<S>>,
    // What all grants of the history cost together.
    pub(crate) cost: u64,
}

impl<T: Tag, S: Setup> Model for Accounts<T, S> {
    ghost use Rattle.std.specs.Prelude.{◌≡◌, map};
    ghost use Rattle.dmc_ledger.specs.Bundles.{client_side};
    ghost use Rattle.dmc_book.specs.BookState.{AccountsState, accounts_of, worker_side};
    ghost use Rattle.dmc_book.specs.Consistent.{AreConsistent};
    ghost use Rattle.dmc_book.specs.Counts.{count, grant_cost};

    ghost Value = { AccountsState T };

    ghost view = { λ a. accounts_of a.server.0 a.history (map worker_side a.workers.items) (map client_side a.desks.items) };

    ghost invariant = { λ a. AreConsistent (accounts_of a.server.0 a.history (map worker_side a.workers.items) (map client_side a.desks.items))
        × (a.clients.keys ≡ map (λ d. d.client) a.desks.items)
        × (a.cost ≡ count grant_cost a.history.events) };
}

impl<T: Tag, S: Setup> Accounts<T, S> {
    /// Whether the pass is of a worker that is enrolled, and its tills are of that worker's books.
    #[inline(always)]
    pub(crate) fn is_enrolled(&self, pass: &WorkerPass<S>) -> bool
        ensures { IsTrue result ↔ IsEnrolled self.now.workers (pass_state pass.now) }
    {
        is_enrolled(&self.workers, pass)
    }

    /// The index of a client's desk, which is looked for at an index first.
    #[inline(always)]
    pub(crate) fn desk_with_hint(&self, hint: usize, client: ClientId) -> Option<usize>
        ensures { result ≡ desk_place client.0 self.now.desks }
    {
        place_with_hint(&self.clients, hint, client)
    }

    /// Whether the command registers a client that has no desk.
    pub(crate) fn lacks_desk_for(&self, command: &Command) -> bool
        ensures { result ≡ lacks_desk self.now.desks command.now }
    {
        match *command {
            Command::Register { client, .. } => self.desk_with_hint(0, client).is_none(),
            _ => false,
        }
    }

    /// The place of the desk that takes a stamp: the worker is enrolled, the stamp is for this server, and the tills are of the
    /// books of the desk's stamps.
    #[inline(always)]
    pub(crate) fn find_desk(
        &self,
        pass: &WorkerPass<S>,
        tills: &StampTills<S>,
        stamp: &Stamp,
    ) -> Option<usize>
        ensures { FindsDesk self.now.server self.now.workers self.now.desks (pass_state pass.now) stamp.now (stamp_holdings tills.now) result }
    {
        if !is_enrolled(&self.workers, pass) {
            return None;
        }
        find_stamps(
            &self.clients,
            &self.desks,
            self.server,
            tills,
            stamp,
            &pass.recent,
        )
    }

    /// How many events were recorded, released or not.
    pub(crate) fn event_count(&self) -> u64
        ensures { result ≡ length self.now.history }
    {
        self.history.len()
    }

    /// Reserves the place of the next event: refused `HistoryFull` exactly if it keeps as many as it may, then `Memory`,
    /// which comes only if the events that are kept fill their blocks.
    #[inline(always)]
    pub(crate) fn reserve(&mut self) -> Result<(), ReserveFault>
        ensures ok { OnOk result (0 < self.new.room) }
        ensures fewer { OnOk result (length self.old.history < self.old.most) }
        ensures full { IsErrOf result ReserveFault.HistoryFull ↔ (length self.old.history ≡ self.old.most) }
        ensures memory { IsErrOf result ReserveFault.Memory → FillBlocks (length self.old.history - self.old.first) }
        ensures kept { self.new ≡ record self.old { room = self.new.room } }
    {
        self.history.reserve_one()
    }

    /// Records the queue's reply to a worker's command, in the reserved place: it counts the event in the worker's books and
    /// tills, and issues a grant, whose unit the pass has then.
    #[inline(always)]
    pub(crate) fn record(&mut self, pass: &mut WorkerPass<S>, command: Command, reply: Reply<T>)
        requires room { 0 < self.old.room }
        requires fewer { length self.old.history < self.old.most }
        requires enrolled { IsEnrolled self.old.workers (pass_state pass.old) }
        requires no_stamp { counts.accepted (event_of (pass_state pass.old).worker command reply) ≡ None }
        requires unit { is_allowed (takes self.old.desks (pass_state pass.old).clients (pass_state pass.old).units) reply ≡ true }
        ensures accounts { self.new ≡ accounts_after (event_of (pass_state pass.old).worker command reply) self.old }
        ensures pass { pass_state pass.new ≡ pass_after self.old.server command reply (pass_state pass.old) }
    {
        let event = Event {
            worker: pass.worker,
            command,
            reply,
        };
        count(&mut self.workers, pass.place, &mut pass.tills, &event);
        let unit = hand_out(
            self.server,
            &pass.clients,
            pass.recent.get(),
            &mut self.desks,
            &mut pass.units,
            &event,
        );
        if let Some(unit) = unit {
            self.cost += u64::from(unit.cost().units());
            pass.granted = Some(unit);
        }
        self.history.push_reserved(event);
    }

    /// Puts an accepted add on record, in the reserved place: it counts the event in the worker's books and tills, and moves the
    /// stamp from the tills to the desk at a place.
    #[inline(always)]
    pub(crate) fn record_add(
        &mut self,
        pass: &mut WorkerPass<S>,
        tills: &mut StampTills<S>,
        desk: usize,
        stamp: &Stamp,
        token: Token,
        at: Moment,
        tags: Tags<T>,
    )
        requires room { 0 < self.old.room }
        requires fewer { length self.old.history < self.old.most }
        requires found { FindsDesk self.old.server self.old.workers self.old.desks (pass_state pass.old) stamp.now (stamp_holdings tills.old) (Some desk) }
        requires covers { Covers (stamp_holdings tills.old) stamp.now.params }
        ensures accounts { self.new ≡ accounts_after (event_of (pass_state pass.old).worker (commands.Add (record { 0 = stamp.now.client }) token stamp.now.params at) (replies.Tagged tags)) self.old }
        ensures pass { pass_state pass.new ≡ pass_after self.old.server (commands.Add (record { 0 = stamp.now.client }) token stamp.now.params at) (replies.Tagged tags) (pass_state pass.old) }
        ensures tills { stamp_holdings tills.new ≡ tills_after_submit stamp.now.params (stamp_holdings tills.old) }
    {
        let (client, params) = (stamp.client(), stamp.params());
        let event = Event {
            worker: pass.worker,
            command: Command::Add {
                client,
                token,
                params,
                at,
            },
            reply: Reply::Tagged(tags),
        };
        count(&mut self.workers, pass.place, &mut pass.tills, &event);
        take_stamp(&mut self.desks[desk].held, tills, params);
        self.history.push_reserved(AddedRequest {
            worker: pass.worker,
            client,
            token,
            params,
            at,
            tags,
        });
    }

    /// Begins the sums of a worker's tokens anew: what they were, which is what the pass held.
    pub(crate) fn renew(&mut self, pass: &mut WorkerPass<S>) -> (u64, u64)
        requires enrolled { IsEnrolled self.old.workers (pass_state pass.old) }
        ensures accounts { self.new ≡ accounts_renewed (pass_state pass.old).place self.old }
        ensures pass { pass_state pass.new ≡ renewed_pass (pass_state pass.old) }
        ensures tokens { result.0 ≡ (pass_state pass.old).tills.tokens.amount }
        ensures granted { result.1 ≡ (pass_state pass.old).tills.granted.amount }
    {
        let events = self.history.len();
        renew_seat(&mut self.workers[pass.place], &mut pass.tills, events)
    }

    /// Releases the events that are kept, of a queue of this configuration. `None`, and nothing changes, if more than 2^62
    /// events were recorded, a sum of a worker's tokens is past 2^62, all grants cost more than 2^62 together, or the accounts are
    /// settled.
    pub(crate) fn rotate(&mut self, config: QueueConfig) -> Option<Segment<T, S>>
        requires { replays T.ops config self.old.history }
        ensures segment { IfSome result (λ segment.
            segment ≡ record { config = config; server = self.old.server; number = self.old.number; history = self.old.history; first = self.old.first }) }
        ensures some { IsSome result ↔ MayRotate self.old.history self.old.first self.old.most self.old.workers }
        ensures rotated { IfSome result (λ _. self.new ≡ accounts_rotated self.old) }
        ensures within { OnSome result (self.old.first ≤ length self.old.history) }
        ensures kept { IfNone result (self.new ≡ self.old) }
    {
        if self.cost > MAX_COST || !are_low(&self.workers) {
            return None;
        }
        let part = self.history.rotate()?;
        Some(Segment::new(config, self.server, part))
    }
}
