//! The tracker book.
ghost use Rattle.std.specs.Prelude.{◌≡◌, ◌≢◌, ◌+◌, ◌<◌, ◌≤◌, ◌↔◌, drop, length, map, IfNone, IfOk, IfErr, IfSome, IsSome, OnOk, OnErr, OnSome, IsOk, IsErrAnd, IsErrOf, IsTrue};
ghost use Rattle.dmc_types.specs.declared.ids.ServerId.{ServerId};
ghost use Rattle.dmc_tracker.specs.Numbers.{IsFullAt, next_params};
ghost use Rattle.dmc_tracker.specs.TrackerList.{completions};
ghost use Rattle.dmc_shared.specs.Segmented.{max_released};
ghost use Rattle.dmc_ledger.specs.Bundles.{HoldsGrant, phase_holdings, stamp_holdings, server_side};
ghost use Rattle.dmc_ledger.specs.Moves.{AreOf, tills_after_stamp, without_grant};
ghost use Rattle.dmc_tlock.specs.BookState.{desk_at, tills_at};
ghost use Rattle.dmc_tlock.specs.Consistent.{IsConsistent};
ghost use Rattle.dmc_tlock.specs.Entries.{book_after_stamp, book_after_skip, book_after_unit, AreTillsOf, IsUnitOf};
ghost use Rattle.dmc_tlock.specs.Opening.{AreNew, AreBookLimits, new_book_state, new_pass};
ghost use Rattle.dmc_tlock.specs.Segments.{after_rotating, segment_of};
ghost use Rattle.dmc_tlock.specs.Settling.{IsOwn, AreGathered, IsSettledDesk, held_of};
ghost use Rattle.dmc_tlock.specs.Status.{IsStatusOf, IsWithin, AreSums};

use crate::desk::{audit_tills, find_desk, find_grants, issue_stamp, take_unit};
use crate::entry::{EntryList, record_response, record_skip, record_stamp};
use crate::fault::{EntryFault, RespondFault, TillFault};
use crate::parts::{Parts, make_parts};
use crate::pass::{ClientPass, open_desks};
use crate::segment::TrackerSegment;
use crate::settled::{StampsHeld, TrackerSettled, gather_pass, is_own};
use crate::status::{TrackStatus, read_status};
use dmc_ledger::bundle::{PhaseTills, StampTills};
use dmc_ledger::desk::ServerDesk;
use dmc_ledger::setup::Setup;
use dmc_ledger::stamp::{Stamp, make_stamp};
use dmc_ledger::unit::Unit;
use dmc_tracker::tracker::{MakeFault, ServiceTracker};
use dmc_types::config::Counting;
use dmc_types::cost::Cost;
use dmc_types::ids::{ClientId, ServerId};
use std::alloc::Global;
use std::marker::Model;

/// A client's tracker with the list of its stamps, skips and responses, and its desk for each server.
///
/// What holds of every book is the invariant of its type (`IsConsistent`; `laws::book_is_consistent` gives it): for each
/// server the two sums hold, the stamp books total what the list sent there, and the held grant tills are its responses of
/// each phase, in number and in cost.
#[derive(Drop)]
pub struct TrackerBook<S: Setup> {
    client: ClientId,
    pub(crate) tracker: ServiceTracker,
    pub(crate) list: EntryList<S>,
    desks: Vec<ServerDesk<S>>,
    held: Vec<StampsHeld>,
}

impl<S: Setup> Model for TrackerBook<S> {
    ghost use Rattle.std.specs.Prelude.{◌≡◌, map, length};
    ghost use Rattle.dmc_ledger.specs.Bundles.{server_side};
    ghost use Rattle.dmc_tlock.specs.BookState.{BookState, state_of};

    ghost Value = { BookState };

    ghost use Rattle.dmc_tlock.specs.Consistent.{IsConsistent};

    ghost view = { λ b. state_of b.client.0 b.tracker b.list (map server_side b.desks.items) };

    ghost invariant = { λ b. IsConsistent (state_of b.client.0 b.tracker b.list (map server_side b.desks.items))
        × (length b.held.items ≡ length b.desks.items) };
}

/// Why a tracker book could not be made, with the desks as they were.
#[derive(Drop)]
pub struct TrackerFault<S: Setup> {
    pub desks: Vec<ServerDesk<S>>,
    pub cause: MakeFault,
}

/// A book, and a pass that is not its own. Both are as they were.
#[derive(Drop)]
pub struct Unsettled<S: Setup> {
    pub book: TrackerBook<S>,
    pub pass: ClientPass<S>,
}

impl<S: Setup> TrackerBook<S> {
    /// A client's book of an empty list, and the client's pass, which holds nothing. The desks are the client's for the
    /// servers 0, 1, .. in order, as `open_pair` gave them: the book's list is that of the first. `most` is the tracker's
    /// (1 to 2^62), `max_events` how many entries the list keeps (1 to 2^30). Refused `Limit` if these or the number of desks (1 to 64) are past their limits, then `Memory`; the
    /// desks are returned. The room that `settle` needs is made here.
    pub fn new(
        alloc: Global,
        client: ClientId,
        desks: Vec<ServerDesk<S>>,
        most: u64,
        max_events: u32,
        counting: Counting,
    ) -> Result<(TrackerBook<S>, ClientPass<S>), TrackerFault<S>>
        requires { AreNew client.0 (map server_side desks.items) }
        ensures book { IfOk result (λ made. made.0 ≡ new_book_state client.0 counting most max_events (map server_side desks.items)) }
        ensures pass { IfOk result (λ made. made.1 ≡ new_pass (map server_side desks.items)) }
        ensures back { IfErr result (λ fault. fault.desks ≡ desks) }
        ensures limit { (AreBookLimits (length desks.items) most max_events → ⊥)
            → IsErrAnd result (λ fault. fault.cause ≡ MakeFault.Limit) }
        ensures memory { AreBookLimits (length desks.items) most max_events
            → IfErr result (λ fault. fault.cause ≡ MakeFault.Memory) }
    {
        let parts = match make_parts(alloc, desks.len(), most, max_events, counting) {
            Ok(parts) => parts,
            Err(cause) => return Err(TrackerFault { desks, cause }),
        };
        let Parts {
            tracker,
            history,
            mut tills,
            held,
        } = parts;
        let mut desks = desks;
        let (number, list) = open_desks(&mut desks, &mut tills);
        let book = TrackerBook {
            client,
            tracker,
            list: EntryList::new(number, list.open(), history),
            desks,
            held,
        };
        Ok((book, ClientPass { tills }))
    }

    /// Stamps a request of this cost to a server, and puts the stamp into the tills: one unit, its delta and its rho.
    ///
    /// Refused `NoServer`; `Stranger` if the tills are not of the server's stamp books; `TrackFull` as the tracker says
    /// (`ServiceTracker::can_stamp`); `HistoryFull`; `Memory`.
    pub fn stamp(
        &mut self,
        server: ServerId,
        cost: Cost,
        tills: &mut StampTills<S>,
    ) -> Result<Stamp, EntryFault>
        ensures stamp { IfOk result (λ stamp.
            stamp ≡ record { client = self.old.client; server = server.0; params = next_params self.old.tracker server cost }) }
        ensures book { OnOk result (self.new ≡ book_after_stamp server cost self.old) }
        ensures tills { OnOk result
            (stamp_holdings tills.new ≡ tills_after_stamp (next_params self.old.tracker server cost) (stamp_holdings tills.old)) }
        ensures kept { OnErr result (self.new ≡ self.old) }
        ensures tills_kept { OnErr result (tills.new ≡ tills.old) }
        ensures no_server { IsErrOf result EntryFault.NoServer ↔ (length self.old.desks ≤ server.0) }
        ensures stranger { IsErrOf result EntryFault.Stranger ↔ ((server.0 < length self.old.desks)
            × (AreOf (stamp_holdings tills.old) (desk_at self.old.desks server).books → ⊥)) }
        ensures track_full { IsErrOf result EntryFault.TrackFull
            ↔ (AreTillsOf self.old server (stamp_holdings tills.old) × IsFullAt self.old.tracker server cost) }
        ensures history_full { IsErrOf result EntryFault.HistoryFull
            ↔ (AreTillsOf self.old server (stamp_holdings tills.old)
            × (IsFullAt self.old.tracker server cost → ⊥)
            × (length self.old.events ≡ self.old.first + self.old.max_events)) }
    {
        let index = find_desk(&self.desks, server, tills)?;
        self.tracker.can_stamp(server, cost)?;
        self.list.reserve_one()?;
        let params = record_stamp(&mut self.tracker, &mut self.list, server, cost);
        issue_stamp(&mut self.desks[index], tills, params);
        Ok(make_stamp(self.client, server, params, tills))
    }

    /// Skips what is pending at a server, as the tracker does: the next stamp to it counts only later completions. It is an
    /// entry of the list, sends nothing, and moves no till.
    ///
    /// Refused `NoServer`; `HistoryFull`; `Memory`.
    pub fn skip(&mut self, server: ServerId) -> Result<(), EntryFault>
        ensures book { OnOk result (self.new ≡ book_after_skip server self.old) }
        ensures kept { OnErr result (self.new ≡ self.old) }
        ensures no_server { IsErrOf result EntryFault.NoServer ↔ (length self.old.desks ≤ server.0) }
        ensures history_full { IsErrOf result EntryFault.HistoryFull
            ↔ ((server.0 < length self.old.desks) × (length self.old.events ≡ self.old.first + self.old.max_events)) }
        ensures its { result ≢ Err EntryFault.Stranger }
        ensures never_full { result ≢ Err EntryFault.TrackFull }
    {
        if server.0 as usize >= self.desks.len() {
            return Err(EntryFault::NoServer);
        }
        self.list.reserve_one()?;
        record_skip(&mut self.tracker, &mut self.list, server);
        Ok(())
    }

    /// Counts a response to the grant of a unit, of its server, in its phase and of its cost, and takes the grant from the tills.
    ///
    /// Refused `NoServer`; `Stranger` if the unit is another client's, or the tills are not of the client's grants at its server
    /// in its phase; `TrackFull` if the completions would pass the tracker's `most`; `HistoryFull`; `Memory`. Each refusal hands
    /// the unit back.
    pub fn respond(&mut self, unit: Unit, tills: &mut PhaseTills<S>) -> Result<(), RespondFault>
        requires { HoldsGrant (phase_holdings tills.old) unit.cost }
        ensures book { OnOk result (self.new ≡ book_after_unit unit self.old) }
        ensures tills { OnOk result (phase_holdings tills.new ≡ without_grant unit.cost (phase_holdings tills.old)) }
        ensures handed_back { IfErr result (λ fault. fault.unit ≡ unit) }
        ensures kept { OnErr result (self.new ≡ self.old) }
        ensures tills_kept { OnErr result (phase_holdings tills.new ≡ phase_holdings tills.old) }
        ensures no_server { IsErrAnd result (λ fault. fault.cause ≡ EntryFault.NoServer) ↔ (length self.old.desks ≤ unit.server) }
        ensures stranger { IsErrAnd result (λ fault. fault.cause ≡ EntryFault.Stranger)
            ↔ ((unit.server < length self.old.desks) × (IsUnitOf self.old unit (phase_holdings tills.old) → ⊥)) }
        ensures track_full { IsErrAnd result (λ fault. fault.cause ≡ EntryFault.TrackFull)
            ↔ (IsUnitOf self.old unit (phase_holdings tills.old)
            × (self.old.tracker.most < self.old.tracker.completions.delta + unit.cost)) }
        ensures history_full { IsErrAnd result (λ fault. fault.cause ≡ EntryFault.HistoryFull)
            ↔ (IsUnitOf self.old unit (phase_holdings tills.old)
            × (self.old.tracker.completions.delta + unit.cost ≤ self.old.tracker.most)
            × (length self.old.events ≡ self.old.first + self.old.max_events)) }
    {
        match self.respond_to(&unit, tills) {
            Ok(()) => Ok(()),
            Err(cause) => Err(RespondFault { unit, cause }),
        }
    }

    /// Counts a response to the grant of a unit that is lent: see `respond`.
    pub(crate) fn respond_to(
        &mut self,
        unit: &Unit,
        tills: &mut PhaseTills<S>,
    ) -> Result<(), EntryFault>
        requires { HoldsGrant (phase_holdings tills.old) unit.now.cost }
        ensures book { OnOk result (self.new ≡ book_after_unit unit.now self.old) }
        ensures tills { OnOk result (phase_holdings tills.new ≡ without_grant unit.now.cost (phase_holdings tills.old)) }
        ensures kept { OnErr result (self.new ≡ self.old) }
        ensures tills_kept { OnErr result (phase_holdings tills.new ≡ phase_holdings tills.old) }
        ensures no_server { IsErrOf result EntryFault.NoServer ↔ (length self.old.desks ≤ unit.now.server) }
        ensures stranger { IsErrOf result EntryFault.Stranger
            ↔ ((unit.now.server < length self.old.desks) × (IsUnitOf self.old unit.now (phase_holdings tills.old) → ⊥)) }
        ensures track_full { IsErrOf result EntryFault.TrackFull
            ↔ (IsUnitOf self.old unit.now (phase_holdings tills.old)
            × (self.old.tracker.most < self.old.tracker.completions.delta + unit.now.cost)) }
        ensures history_full { IsErrOf result EntryFault.HistoryFull
            ↔ (IsUnitOf self.old unit.now (phase_holdings tills.old)
            × (self.old.tracker.completions.delta + unit.now.cost ≤ self.old.tracker.most)
            × (length self.old.events ≡ self.old.first + self.old.max_events)) }
    {
        let index = find_grants(&self.desks, self.client, unit, tills)?;
        let (server, phase, cost) = (unit.server(), unit.phase(), unit.cost());
        self.tracker.can_respond(server, cost)?;
        self.list.reserve_one()?;
        record_response(&mut self.tracker, &mut self.list, server, phase, cost);
        take_unit(&mut self.desks[index], phase, cost, tills);
        Ok(())
    }

    /// What its tracker counts, seen from a server, by one of the tills of the server's stamp books: refused `NoServer`,
    /// then `Stranger`. What was sent is at least what the tills hold.
    pub fn status(&self, server: ServerId, tills: &StampTills<S>) -> Result<TrackStatus, TillFault>
        ensures status { IfOk result (λ status. IsStatusOf self.now server status) }
        ensures sent { IfOk result (λ status. IsWithin (stamp_holdings tills.now) status) }
        ensures sums { IfOk result (λ status. AreSums status) }
        ensures no_server { IsErrOf result TillFault.NoServer ↔ (length self.now.desks ≤ server.0) }
        ensures stranger { IsErrOf result TillFault.Stranger ↔ ((server.0 < length self.now.desks)
            × (AreOf (stamp_holdings tills.now) (desk_at self.now.desks server).books → ⊥)) }
    {
        let index = find_desk(&self.desks, server, tills)?;
        let desk = &self.desks[index];
        audit_tills(desk, tills);
        Ok(read_status(&self.tracker, desk, server))
    }

    /// Releases the entries of the list since some were last released, in a time that does not grow with their number. It does
    /// not allocate. The book goes on with none of them kept, and can keep `max_events` again. It is an extension.
    ///
    /// `None`, and nothing changes, exactly if more than 2^62 entries were recorded.
    pub fn rotate(&mut self) -> Option<TrackerSegment<S>>
        ensures segment { IfSome result (λ segment. segment ≡ segment_of self.old) }
        ensures some { IsSome result ↔ (length self.old.events ≤ max_released) }
        ensures rotated { IfSome result (λ _. self.new ≡ after_rotating self.old) }
        ensures within { OnSome result (self.old.first ≤ length self.old.events) }
        ensures kept { IfNone result (self.new ≡ self.old) }
    {
        let part = self.list.rotate()?;
        Some(TrackerSegment::new(self.client, self.tracker.counting(), part))
    }

    /// Ends the book: gathers its own pass, and answers the entries of the list that are kept, what was left in the pass, and
    /// the desks. In these each stamp book has one till open, that of the queue's desk. A pass that is not its own is returned
    /// with the book. It does not allocate.
    pub fn settle(self, pass: ClientPass<S>) -> Result<TrackerSettled<S>, Unsettled<S>>
        ensures own { IsOk result ↔ IsOwn pass self.desks }
        ensures back { IfErr result (λ fault. (fault.book ≡ self) × (fault.pass ≡ pass)) }
        ensures events { IfOk result (λ settled. settled.events.events ≡ drop self.first self.events) }
        ensures held { IfOk result (λ settled. settled.held.items ≡ map held_of pass) }
        ensures gathered { IfOk result (λ settled. AreGathered pass self.desks (map server_side settled.desks.items)) }
        ensures desks { IfOk result (λ settled. (s : ServerId) → s.0 < length self.desks
            → IsSettledDesk self.client self.events s (tills_at pass s) (desk_at (map server_side settled.desks.items) s)) }

        // So the list is what the numbers of the book were.
        ensures consistent { OnOk result (IsConsistent self) }
    {
        if !is_own(&self.desks, &pass.tills) {
            return Err(Unsettled { book: self, pass });
        }
        let TrackerBook {
            client: _,
            tracker: _,
            mut list,
            mut desks,
            mut held,
        } = self;
        let ClientPass { tills } = pass;
        gather_pass(&mut desks, tills, &mut held);
        Ok(TrackerSettled {
            events: list.take(),
            held,
            desks,
        })
    }

    /// The costs of the completions at all servers, and of those in the constraint phase.
    pub fn completions(&self) -> (u64, u64)
        ensures value { result ≡ (self.now.tracker.completions.delta, self.now.tracker.completions.rho) }
        ensures list { result ≡ ((completions self.now.events).delta, (completions self.now.events).rho) }
    {
        self.tracker.completions()
    }

    /// Which completions its stamps count.
    pub fn counting(&self) -> Counting
        ensures { result ≡ self.now.tracker.counting }
    {
        self.tracker.counting()
    }

    /// How many entries were released, which is the number of the first that is kept.
    pub fn first(&self) -> u64
        ensures value { result ≡ self.now.first }
        ensures within { result ≤ length self.now.events }
        ensures few { result ≤ max_released }
    {
        self.list.first()
    }

    /// Whose book it is.
    pub fn client(&self) -> ClientId
        ensures { result.0 ≡ self.now.client }
    {
        self.client
    }

    /// Its desk for each server, in their order.
    pub fn desks(&self) -> &[ServerDesk<S>]
        ensures { map server_side result.now ≡ self.now.desks }
    {
        &self.desks
    }

    /// Whether the pass is its own: `settle` takes it then.
    pub fn owns(&self, pass: &ClientPass<S>) -> bool
        ensures { IsTrue result ↔ IsOwn pass.now self.now.desks }
    {
        is_own(&self.desks, &pass.tills)
    }
}
