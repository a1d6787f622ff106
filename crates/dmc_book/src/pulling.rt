//! A pull from the queue's book.
ghost use Rattle.std.specs.Prelude.{◌≡◌, ◌<◌, ◌↔◌, true, false, length, OnOk, IsErrOf};
ghost use Rattle.dmc_types.specs.declared.command.Command.TheVariants as commands;
ghost use Rattle.dmc_pull.specs.Allowed.{is_allowed};
ghost use Rattle.dmc_book.specs.BookState.{pass_state};
ghost use Rattle.dmc_book.specs.Calls.{HasNoPlace, WasPulled, asked, reply_to};
ghost use Rattle.dmc_book.specs.Moves.{IsEnrolled, takes};
ghost use Rattle.dmc_book.specs.internal.Runs.{Runs};

use crate::asking::{ask_to_pull, reply_of};
use crate::book::QueueBook;
use crate::fault::{RunFault, RunOrRange};
use crate::pass::WorkerPass;
use dmc_index::index::Indexes;
use dmc_ledger::setup::Setup;
use dmc_tag::reply::Pulled;
use dmc_tag::tag::Tag;
use dmc_types::command::Command;
use dmc_types::moment::Moment;

impl<T: Tag, I: Indexes<T>, S: Setup> QueueBook<T, I, S> {
    /// Pulls: grants the next request, or says when one is due, or that nothing is queued. It records and counts as `run` does
    /// for a Pull, and takes less time.
    ///
    /// Refused `Range` by the rules, which is recorded; and with nothing recorded `Stranger`, `Behind`, `HistoryFull`, `Memory`,
    /// as for `run`: `Memory` only if the events that are kept fill their blocks, or there are none. A pass that is behind
    /// still pulls the requests of all clients that it has tills for: if the pull is `Behind`, `extend` the pass and pull
    /// again.
    pub fn pull(&mut self, pass: &mut WorkerPass<S>, at: Moment) -> Result<Pulled, RunOrRange>
        ensures pulled { WasPulled T.ops self.old self.new (pass_state pass.old) (pass_state pass.new) at result }
        ensures stranger { (IsEnrolled self.old.workers (pass_state pass.old) → ⊥) → result ≡ Err (RunOrRange.Run RunFault.Stranger) }
        ensures strays { IsErrOf result (RunOrRange.Run RunFault.Stranger) → IsEnrolled self.old.workers (pass_state pass.old)
            → is_allowed (takes self.old.desks (pass_state pass.old).clients (pass_state pass.old).units) (reply_to T.ops self.old (commands.Pull at)) ≡ false }
        ensures behind { IsErrOf result (RunOrRange.Run RunFault.Behind) → IsEnrolled self.old.workers (pass_state pass.old)
            × (length (pass_state pass.old).units < length self.old.desks)
            × (is_allowed (takes self.old.desks (pass_state pass.old).clients (pass_state pass.old).units) (reply_to T.ops self.old (commands.Pull at)) ≡ false) }
        ensures not_behind { IsErrOf result (RunOrRange.Run RunFault.Stranger) → IsEnrolled self.old.workers (pass_state pass.old)
            → length (pass_state pass.old).units < length self.old.desks → ⊥ }
        ensures granted { OnOk result
            (is_allowed (takes self.old.desks (pass_state pass.old).clients (pass_state pass.old).units) (reply_to T.ops self.old (commands.Pull at)) ≡ true) }
        ensures history_full { IsErrOf result (RunOrRange.Run RunFault.HistoryFull)
            ↔ (IsEnrolled self.old.workers (pass_state pass.old) × (length self.old.history ≡ self.old.most)) }
        ensures memory { IsErrOf result (RunOrRange.Run RunFault.Memory) → HasNoPlace self.old }
    {
        self.pull_next(pass, at)
    }

    /// Pulls: see `pull`.
    #[inline(always)]
    fn pull_next(&mut self, pass: &mut WorkerPass<S>, at: Moment) -> Result<Pulled, RunOrRange>
        ensures { Runs T.ops self.old (pass_state pass.old) (commands.Pull at) self.new (pass_state pass.new) (asked result) }
    {
        if !self.accounts.is_enrolled(pass) {
            return Err(RunOrRange::Run(RunFault::Stranger));
        }
        if let Err(fault) = self.accounts.reserve() {
            return Err(RunOrRange::Run(RunFault::from(fault)));
        }
        let answer = ask_to_pull(&mut self.queue.0, &self.accounts, pass, at);
        let reply = match reply_of(&answer) {
            Ok(reply) => reply,
            Err(fault) => return Err(RunOrRange::Run(fault)),
        };
        self.accounts.record(pass, Command::Pull { at }, reply);
        answer
    }
}
