//! A tracker book behind a lock. Each time that the lock is taken, the book is consistent: that is the invariant of its type.
ghost use Rattle.std.specs.Prelude.{◌≡◌, ◌≢◌, IfOk, IfErr, OnOk, OnErr};
ghost use Rattle.dmc_ledger.specs.Bundles.{HoldsGrant, phase_holdings, stamp_holdings};
ghost use Rattle.dmc_ledger.specs.Moves.{tills_after_stamp, without_grant};
ghost use Rattle.dmc_tlock.specs.Later.{IsLater, IsReleased};
ghost use Rattle.dmc_tlock.specs.Status.{IsWithin, AreSums};

use crate::book::TrackerBook;
use crate::fault::{EntryFault, RespondFault, TillFault};
use crate::segment::TrackerSegment;
use crate::status::TrackStatus;
use dmc_ledger::bundle::{PhaseTills, StampTills};
use dmc_ledger::setup::Setup;
use dmc_ledger::stamp::{Stamp, make_stamp};
use dmc_ledger::unit::Unit;
use dmc_shared::pad::{CACHE_PAD, CachePad};
use dmc_shared::witness::{Lasting, NoWitness, ReleaseWitness, Witness};
use dmc_types::cost::Cost;
use dmc_types::ids::{ClientId, ServerId};
use dmc_types::params::ReqParams;
use std::marker::Model;
use std::sync::{Mutex, Wait};

impl<S: Setup> Lasting for TrackerBook<S> {
    ghost later = { IsLater };

    ghost released = { IsReleased };
}

/// A book with its witness.
#[derive(Drop)]
struct Guarded<B: Lasting, W: Witness<B>> {
    book: B,
    witness: W,
}

impl<B: Lasting, W: Witness<B>> Model for Guarded<B, W> {
    ghost Value = { B };

    ghost view = { λ g. g.book };

    ghost invariant = { λ g. W.holds g.witness g.book };
}

impl<S: Setup, W: Witness<TrackerBook<S>>> Guarded<TrackerBook<S>, W> {
    /// Stamps a request to a server, as the book does, and answers what the stamp carries.
    fn stamp_params(
        &mut self,
        server: ServerId,
        cost: Cost,
        tills: &mut StampTills<S>,
    ) -> Result<ReqParams, EntryFault>
        ensures cost { IfOk result (λ params. params.cost ≡ cost) }
        ensures tills { IfOk result (λ params. stamp_holdings tills.new ≡ tills_after_stamp params (stamp_holdings tills.old)) }
        ensures kept { OnErr result (tills.new ≡ tills.old) }
    {
        Ok(self.book.stamp(server, cost, tills)?.params())
    }

    /// Skips what is pending at a server, as the book does.
    fn skip(&mut self, server: ServerId) -> Result<(), EntryFault>
        ensures its { result ≢ Err EntryFault.Stranger }
        ensures never_full { result ≢ Err EntryFault.TrackFull }
    {
        self.book.skip(server)
    }

    /// Counts a response, as the book does.
    fn respond(&mut self, unit: &Unit, tills: &mut PhaseTills<S>) -> Result<(), EntryFault>
        requires { HoldsGrant (phase_holdings tills.old) unit.now.cost }
        ensures tills { OnOk result (phase_holdings tills.new ≡ without_grant unit.now.cost (phase_holdings tills.old)) }
        ensures kept { OnErr result (phase_holdings tills.new ≡ phase_holdings tills.old) }
    {
        self.book.respond_to(unit, tills)
    }
}

impl<S: Setup, W: ReleaseWitness<TrackerBook<S>>> Guarded<TrackerBook<S>, W> {
    /// Releases the entries since the last segment, as the book does.
    fn rotate(&mut self) -> Option<TrackerSegment<S>> {
        self.book.rotate()
    }
}

/// A tracker book that threads share, and a witness of what it was. Contracts see whose book it is. A caller's own tills step
/// with each call; each call is one of the book's, and refuses as that does. It is generic in the book, as a queue's lock is.
#[derive(Drop)]
pub struct LockedTracker<B: Lasting, W: Witness<B>> {
    client: ClientId,
    guarded: Mutex<Guarded<B, W>>,
    // Between this lock and what lies beside it.
    apart: CachePad,
}

/// A tracker book that threads share, without a witness.
pub type TrackerLock<S> = LockedTracker<TrackerBook<S>, NoWitness>;

impl<B: Lasting, W: Witness<B>> Model for LockedTracker<B, W> {
    ghost use Rattle.dmc_tlock.specs.BookState.{LockValue};

    ghost Value = { LockValue };

    ghost view = { λ l. record { client = l.client.0 } };
}

impl<S: Setup> LockedTracker<TrackerBook<S>, NoWitness> {
    /// The book behind a lock.
    pub fn new(book: TrackerBook<S>) -> LockedTracker<TrackerBook<S>, NoWitness>
        ensures { result.client ≡ book.client }
    {
        LockedTracker::with_witness(book, NoWitness)
    }

    /// The book, once no thread shares the lock. `laws::book_is_consistent` says what holds of it.
    pub fn into_book(self) -> TrackerBook<S> {
        let (book, _) = self.into_parts();
        book
    }
}

impl<S: Setup, W: Witness<TrackerBook<S>>> LockedTracker<TrackerBook<S>, W> {
    /// The book behind a lock, with a witness of it.
    pub fn with_witness(book: TrackerBook<S>, witness: W) -> LockedTracker<TrackerBook<S>, W>
        requires { W.holds witness book }
        ensures { result.client ≡ book.client }
    {
        LockedTracker {
            client: book.client(),
            guarded: Mutex::new(Guarded { book, witness }),
            apart: CACHE_PAD,
        }
    }

    /// Stamps a request of this cost to a server, and puts the stamp into the tills: one unit, its delta and its rho.
    pub fn stamp<R: Wait>(
        &self,
        rt: &R,
        server: ServerId,
        cost: Cost,
        tills: &mut StampTills<S>,
    ) -> Result<Stamp, EntryFault>
        ensures client { IfOk result (λ stamp. stamp.client ≡ self.now.client) }
        ensures server { IfOk result (λ stamp. stamp.server ≡ server.0) }
        ensures cost { IfOk result (λ stamp. stamp.params.cost ≡ cost) }
        ensures tills { IfOk result (λ stamp. stamp_holdings tills.new ≡ tills_after_stamp stamp.params (stamp_holdings tills.old)) }
        ensures kept { OnErr result (tills.new ≡ tills.old) }
    {
        let params = self.guarded.lock(rt).stamp_params(server, cost, tills)?;
        Ok(make_stamp(self.client, server, params, tills))
    }

    /// Skips what is pending at a server: the next stamp to it counts only later completions. It sends nothing.
    pub fn skip<R: Wait>(&self, rt: &R, server: ServerId) -> Result<(), EntryFault>
        ensures its { result ≢ Err EntryFault.Stranger }
        ensures never_full { result ≢ Err EntryFault.TrackFull }
    {
        self.guarded.lock(rt).skip(server)
    }

    /// Counts a response to the grant of a unit, of its server, in its phase and of its cost, and takes the grant from the tills.
    /// A refusal hands the unit back.
    pub fn respond<R: Wait>(
        &self,
        rt: &R,
        unit: Unit,
        tills: &mut PhaseTills<S>,
    ) -> Result<(), RespondFault>
        requires { HoldsGrant (phase_holdings tills.old) unit.cost }
        ensures tills { OnOk result (phase_holdings tills.new ≡ without_grant unit.cost (phase_holdings tills.old)) }
        ensures kept { OnErr result (phase_holdings tills.new ≡ phase_holdings tills.old) }
        ensures handed_back { IfErr result (λ fault. fault.unit ≡ unit) }
    {
        let counted = self.guarded.lock(rt).respond(&unit, tills);
        match counted {
            Ok(()) => Ok(()),
            Err(cause) => Err(RespondFault { unit, cause }),
        }
    }

    /// What its tracker counts, seen from a server, by one of the tills of the server's stamp books.
    pub fn status<R: Wait>(
        &self,
        rt: &R,
        server: ServerId,
        tills: &StampTills<S>,
    ) -> Result<TrackStatus, TillFault>
        ensures sent { IfOk result (λ status. IsWithin (stamp_holdings tills.now) status) }
        ensures sums { IfOk result (λ status. AreSums status) }
    {
        self.guarded.lock(rt).book.status(server, tills)
    }
}

// A witness may say how many entries were released. So a lock rotates only if its witness is still true afterwards.
impl<S: Setup, W: ReleaseWitness<TrackerBook<S>>> LockedTracker<TrackerBook<S>, W> {
    /// Releases the entries of the list since the last segment. It does not allocate, and takes a time that does not grow with the
    /// number of entries. `None`, and nothing changes, exactly if the book's `rotate` returns it.
    ///
    /// Segments of one lock are parts of one list: `TrackerSegment::follows` shows which is the next.
    pub fn rotate<R: Wait>(&self, rt: &R) -> Option<TrackerSegment<S>> {
        self.guarded.lock(rt).rotate()
    }
}

impl<B: Lasting, W: Witness<B>> LockedTracker<B, W> {
    /// The book and its witness, once no thread shares the lock.
    pub fn into_parts(self) -> (B, W)
        ensures { W.holds result.1 result.0 }
    {
        let LockedTracker { guarded, .. } = self;
        let Guarded { book, witness } = guarded.into_inner();
        (book, witness)
    }
}
