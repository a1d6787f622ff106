//! The tills of a worker.
ghost use Rattle.std.specs.Prelude.{◌≡◌, ◌<◌, ◌^◌, ◌↔◌, ◌⊎◌, None, IsTrue, option_map, slice_get};
ghost use Rattle.std.specs.Borrow.{sem, Lends, LendsIf};
ghost use Rattle.std.specs.Option.{option_copied_mut};
ghost use Rattle.dmc_ledger.specs.Bundles.{grant_holdings, phase_holdings};
ghost use Rattle.dmc_ledger.specs.Moves.{tills_in};
ghost use Rattle.dmc_ledger.specs.contracts.bundle.GrantTills.{the_row as unit_row};
ghost use Rattle.dmc_ledger.specs.contracts.bundle.PhaseTills.{the_row as phase_row};
ghost use Rattle.dmc_book.specs.BookState.{pass_state};
ghost use Rattle.dmc_book.specs.Lending.{tills_for, with_tills, with_unit, given_back};
ghost use Rattle.dmc_book.specs.contracts.pass.WorkerPass.{the_row as pass_row};

use crate::seat::WorkerTills;
use dmc_ledger::bundle::{GrantTills, PhaseTills};
use dmc_ledger::setup::Setup;
use dmc_ledger::unit::Unit;
use dmc_types::config::PhaseType;
use dmc_types::ids::{ClientId, WorkerId};
use indexmap::IndexSet;
use std::alloc::Global;
use std::cell::Cell;
use std::sync::Arc;

/// A sum of tokens past this one is to be renewed.
const RENEWAL: u64 = 1 << 61;

/// A worker's tills: one of each of its own counts, and for each client with a desk those of the grants of each phase.
///
/// Tills of grants are lent to whoever responds. What was lent may come back changed: that is found out when it is next
/// used, or when the pass is settled. The unit of a grant is taken out once the grant was pulled, and goes with the response.
#[derive(Drop)]
pub struct WorkerPass<S: Setup> {
    pub(crate) worker: WorkerId,
    // If the worker is in the book.
    pub(crate) place: usize,
    pub(crate) tills: WorkerTills<S>,
    // The names of the desks, in order. The passes share them.
    pub(crate) clients: Arc<IndexSet<ClientId>, Global>,
    pub(crate) units: Vec<GrantTills<S>>,
    // Of the last grant, until it is taken.
    pub(crate) granted: Option<Unit>,
    // The place of the desk that was found last, if the next one is looked for first.
    pub(crate) recent: Cell<usize>,
}

impl<S: Setup> WorkerPass<S> {
    /// Takes out the unit of the last grant that was pulled with this pass: it goes with the response. `None` if it was taken
    /// already, or nothing was granted yet. A unit that is not taken before the next grant is lost.
    pub fn take_unit(&mut self) -> Option<Unit>
        ensures value { result ≡ (pass_state self.old).granted }
        ensures taken { pass_state self.new ≡ record (pass_state self.old) { granted = None } }
    {
        self.granted.take()
    }

    /// Lends the tills of a client's grants in a phase, or `None` if the pass has none for the client.
    pub fn grant_tills(&mut self, client: ClientId, phase: PhaseType) -> Option<&mut PhaseTills<S>>
        // The pass has then these tills as they were given back, and all else as it was.
        ensures* writes_back { sem 𝓛 (LendsIf (pass_row S.row (record { name = S.name })) (phase_row S.row (record { name = S.name })) self.entry result (λ tills. given_back self.old client phase tills) self.old) }

        ensures value { option_map phase_holdings (option_copied_mut result) ≡ tills_for (pass_state self.old) client phase }
    {
        let place = self.clients.get_index_of(&client)?;
        let unit = self.unit_mut(place)?;
        Some(tills_mut(unit, phase))
    }

    /// Whether a sum of its tokens is past 2^61: `renew` it then.
    pub fn needs_renewal(&self) -> bool
        ensures { IsTrue result ↔ (2 ^ 61 < (pass_state self.now).tills.tokens.amount) ⊎ (2 ^ 61 < (pass_state self.now).tills.granted.amount) }
    {
        self.tills.tokens.amount() > RENEWAL || self.tills.granted.amount() > RENEWAL
    }

    /// Lends the tills of the client at a place.
    fn unit_mut(&mut self, place: usize) -> Option<&mut GrantTills<S>>
        ensures* writes_back { sem 𝓛 (LendsIf (pass_row S.row (record { name = S.name })) (unit_row S.row (record { name = S.name })) self.entry result (λ unit. with_unit self.old place unit) self.old) }

        ensures value { option_copied_mut result ≡ slice_get self.old.units.items place }
    {
        self.units.get_mut(place)
    }
}

/// Lends the tills of a phase.
fn tills_mut<S: Setup>(unit: &mut GrantTills<S>, phase: PhaseType) -> &mut PhaseTills<S>
    ensures* writes_back { sem 𝓛 (Lends (unit_row S.row (record { name = S.name })) (phase_row S.row (record { name = S.name })) unit.entry result (λ tills. with_tills phase tills unit.old)) }

    ensures value { phase_holdings result.now ≡ tills_in phase (grant_holdings unit.old) }
{
    match phase {
        PhaseType::Reservation => &mut unit.reservation,
        PhaseType::Priority => &mut unit.priority,
    }
}
