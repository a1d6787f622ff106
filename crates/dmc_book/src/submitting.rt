//! A submit to the queue's book.
ghost use Rattle.std.specs.Prelude.{◌≡◌, ◌↔◌, length, true, false, IfOk, IfErr, OnOk, OnErr, IsErrAnd};
ghost use Rattle.dmc_ledger.specs.Bundles.{Covers, stamp_holdings};
ghost use Rattle.dmc_ledger.specs.Moves.{tills_after_submit};
ghost use Rattle.dmc_tag.specs.declared.reply.Reply.TheVariants as replies;
ghost use Rattle.dmc_types.specs.declared.command.Command.TheVariants as commands;
ghost use Rattle.dmc_book.specs.BookState.{pass_state};
ghost use Rattle.dmc_book.specs.Calls.{IsForDesk, LacksMemory, Ran, SubmitRefused};
ghost use Rattle.dmc_book.specs.Moves.{IsEnrolled};
ghost use Rattle.dmc_book.specs.internal.Submits.{Submits};

use crate::asking::{Added, ask_to_add};
use crate::book::QueueBook;
use crate::fault::{SubmitCause, SubmitFault};
use crate::pass::WorkerPass;
use dmc_index::index::Indexes;
use dmc_ledger::bundle::StampTills;
use dmc_ledger::setup::Setup;
use dmc_ledger::stamp::Stamp;
use dmc_tag::reply::{Reply, Tags};
use dmc_tag::tag::Tag;
use dmc_types::command::Command;
use dmc_types::ids::Token;
use dmc_types::moment::Moment;

impl<T: Tag, I: Indexes<T>, S: Setup> QueueBook<T, I, S> {
    /// Queues a stamped request for its client, and answers its tags. It moves the stamp with its delta and rho from the tills
    /// to the client's desk, and adds one to the worker's calls, and the token to its tokens.
    ///
    /// Refused `Stranger`, `Closed`, `HistoryFull`, `Memory`, or as the queue refuses an add; this last is recorded, as a call
    /// and a miss, and nothing else moves. Each refusal hands the stamp back. `Memory` comes of any submit: the event's place may
    /// need an allocation, as for `run`, and so may the place of the request in the queue.
    pub fn submit(
        &mut self,
        pass: &mut WorkerPass<S>,
        tills: &mut StampTills<S>,
        stamp: Stamp,
        token: Token,
        at: Moment,
    ) -> Result<Tags<T>, SubmitFault>
        requires { Covers (stamp_holdings tills.old) stamp.params }
        ensures accepted { IfOk result (λ tags. Ran T.ops self.old self.new (pass_state pass.old) (pass_state pass.new) (commands.Add (record { 0 = stamp.client }) token stamp.params at) (replies.Tagged tags)) }
        ensures taken { OnOk result (stamp_holdings tills.new ≡ tills_after_submit stamp.params (stamp_holdings tills.old)) }
        ensures refused { IfErr result (λ fault. SubmitRefused T.ops self.old self.new (pass_state pass.old) (pass_state pass.new) (commands.Add (record { 0 = stamp.client }) token stamp.params at) fault.cause) }
        ensures handed_back { IfErr result (λ fault. fault.stamp ≡ stamp) }
        ensures tills_kept { OnErr result (stamp_holdings tills.new ≡ stamp_holdings tills.old) }
        ensures stranger { IsErrAnd result (λ fault. fault.cause ≡ SubmitCause.Stranger)
            ↔ (IsEnrolled self.old.workers (pass_state pass.old) × IsForDesk self.old.server self.old.desks stamp (stamp_holdings tills.old) → ⊥) }
        ensures closed { IsErrAnd result (λ fault. fault.cause ≡ SubmitCause.Closed)
            ↔ (IsEnrolled self.old.workers (pass_state pass.old) × IsForDesk self.old.server self.old.desks stamp (stamp_holdings tills.old)
            × (self.old.closed ≡ true)) }
        ensures history_full { IsErrAnd result (λ fault. fault.cause ≡ SubmitCause.HistoryFull)
            ↔ (IsEnrolled self.old.workers (pass_state pass.old) × IsForDesk self.old.server self.old.desks stamp (stamp_holdings tills.old)
            × (self.old.closed ≡ false) × (length self.old.history ≡ self.old.most)) }
        ensures memory { IsErrAnd result (λ fault. fault.cause ≡ SubmitCause.Memory)
            → LacksMemory T.ops self.old (commands.Add (record { 0 = stamp.client }) token stamp.params at) }
    {
        match self.add(pass, tills, &stamp, token, at) {
            Ok(tags) => Ok(tags),
            Err(cause) => Err(SubmitFault { stamp, cause }),
        }
    }

    /// Queues a request with the stamp that is lent: see `submit`.
    #[inline(always)]
    fn add(
        &mut self,
        pass: &mut WorkerPass<S>,
        tills: &mut StampTills<S>,
        stamp: &Stamp,
        token: Token,
        at: Moment,
    ) -> Result<Tags<T>, SubmitCause>
        requires { Covers (stamp_holdings tills.old) stamp.now.params }
        ensures { Submits T.ops self.old self.new (pass_state pass.old) (pass_state pass.new) stamp.now (stamp_holdings tills.old) (stamp_holdings tills.new) token at result }
    {
        let Some(desk) = self.accounts.find_desk(pass, tills, stamp) else {
            return Err(SubmitCause::Stranger);
        };
        if self.closed {
            return Err(SubmitCause::Closed);
        }
        self.accounts.reserve()?;
        let (client, params) = (stamp.client(), stamp.params());
        match ask_to_add(&mut self.queue.0, desk, client, token, params, at) {
            Added::Tagged(tags) => {
                self.accounts
                    .record_add(pass, tills, desk, stamp, token, at, tags);
                Ok(tags)
            }
            Added::Refused(refusal) => {
                let command = Command::Add {
                    client,
                    token,
                    params,
                    at,
                };
                self.accounts.record(pass, command, Reply::Refused(refusal));
                Err(SubmitCause::Refused(refusal))
            }
            Added::Memory => Err(SubmitCause::Memory),
        }
    }
}
