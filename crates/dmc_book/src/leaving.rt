//! Workers that leave.
ghost use Rattle.std.specs.Prelude.{◌≡◌, ◌↔◌, map, IfErr, IsOk, IsTrue, OnErr, OnOk};
ghost use Rattle.std.specs.List.{AllByRecursion};
ghost use Rattle.dmc_ledger.specs.Bundles.{grant_holdings, phase_holdings};
ghost use Rattle.dmc_book.specs.BookState.{pass_state};
ghost use Rattle.dmc_book.specs.Leaving.{HoldsNoGrant, HoldsNothing, IsGone, MayLeave};

use crate::accounts::Accounts;
use crate::book::QueueBook;
use crate::pass::WorkerPass;
use crate::settled::{is_own, take_pass};
use dmc_index::index::Indexes;
use dmc_ledger::bundle::{GrantTills, PhaseTills};
use dmc_ledger::setup::Setup;
use dmc_tag::tag::Tag;

impl<T: Tag, I: Indexes<T>, S: Setup> QueueBook<T, I, S> {
    /// Dismisses a worker: its pass is gathered. Its counts stay, and `settle` returns them with those of the others; its sums of
    /// tokens no longer keep events from being released. No worker of its number can be enrolled again.
    ///
    /// The pass is returned, and nothing changes, exactly if it is of no worker here, has tills of other desks than the
    /// worker reaches, or holds a unit of a grant: that one was not responded yet, and would be lost.
    pub fn dismiss(&mut self, pass: WorkerPass<S>) -> Result<(), WorkerPass<S>>
        ensures own { IsOk result ↔ MayLeave self.old.workers self.old.desks (pass_state pass) }
        ensures gone { OnOk result (IsGone self.old.workers self.old.desks (pass_state pass) self.new.workers self.new.desks) }
        ensures rest { OnOk result (self.new ≡ record self.old { workers = self.new.workers; desks = self.new.desks }) }
        ensures kept { OnErr result (self.new ≡ self.old) }
        ensures back { IfErr result (λ back. back ≡ pass) }
    {
        if !self.accounts.may_leave(&pass) {
            return Err(pass);
        }
        self.accounts.dismiss(pass);
        Ok(())
    }
}

impl<T: Tag, S: Setup> Accounts<T, S> {
    /// Whether the pass is of a worker here, and each of its grants was responded.
    fn may_leave(&self, pass: &WorkerPass<S>) -> bool
        ensures { IsTrue result ↔ MayLeave self.now.workers self.now.desks (pass_state pass.now) }
    {
        is_own(&self.workers, &self.desks, pass) && hold_nothing(&pass.units)
    }

    /// Gathers the pass of a worker that leaves.
    fn dismiss(&mut self, pass: WorkerPass<S>)
        requires { MayLeave self.old.workers self.old.desks (pass_state pass) }
        ensures gone { IsGone self.old.workers self.old.desks (pass_state pass) self.new.workers self.new.desks }
        ensures rest { self.new ≡ record self.old { workers = self.new.workers; desks = self.new.desks } }
    {
        take_pass(&mut self.workers, &mut self.desks, pass);
    }
}

/// Whether no grant of a client is with a worker, by its tills.
fn hold_nothing<S: Setup>(units: &[GrantTills<S>]) -> bool
    ensures { IsTrue result ↔ AllByRecursion HoldsNothing (map grant_holdings units.now) }
{
    for unit in units {
        if !holds_nothing(unit) {
            return false;
        }
    }
    true
}

fn holds_nothing<S: Setup>(unit: &GrantTills<S>) -> bool
    ensures { IsTrue result ↔ HoldsNothing (grant_holdings unit.now) }
{
    hold_no_grant(&unit.reservation) && hold_no_grant(&unit.priority)
}

fn hold_no_grant<S: Setup>(tills: &PhaseTills<S>) -> bool
    ensures { IsTrue result ↔ HoldsNoGrant (phase_holdings tills.now) }
{
    tills.grants.amount() == 0 && tills.cost.amount() == 0
}
