//! What a queue's lock guards: the book, a witness of what it was, and how many threads are in a pull that waits.
ghost use Rattle.std.specs.Prelude.{◌≡◌, ◌+◌, ◌-◌, true, false, IfOk, IfErr, OnOk, OnErr, IsErrOf, IsErrAnd};
ghost use Rattle.std.specs.List.{AllByRecursion};
ghost use Rattle.dmc_ledger.specs.Bundles.{Covers, client_side, stamp_holdings};
ghost use Rattle.dmc_ledger.specs.Moves.{tills_after_submit};
ghost use Rattle.dmc_tag.specs.declared.reply.Pulled.TheVariants as pulls;
ghost use Rattle.dmc_tag.specs.declared.reply.Reply.TheVariants as replies;
ghost use Rattle.dmc_types.specs.declared.command.Command.TheVariants as commands;
ghost use Rattle.dmc_book.specs.BookState.{pass_state};
ghost use Rattle.dmc_book.specs.Calls.{is_add};
ghost use Rattle.dmc_book.specs.Joining.{IsUnused};
ghost use Rattle.dmc_book.specs.Leaving.{HoldsNothing};
ghost use Rattle.dmc_book.specs.PerCount.{books_per_worker};
ghost use Rattle.dmc_book.specs.Renewing.{renewed_pass};
ghost use Rattle.dmc_qlock.specs.Calls.{Replied, IsExtended, IsNewPass, PullReplied, SubmitReplied, is_pull, registers};
ghost use Rattle.dmc_qlock.specs.internal.Calls.{must_wait};

use crate::fault::RunOrRange;
use dmc_book::book::QueueBook;
use dmc_book::fault::{AdmitFault, EnrolFault, ExtendFault, RunFault, SubmitFault};
use dmc_book::pass::WorkerPass;
use dmc_index::index::Indexes;
use dmc_ledger::bundle::StampTills;
use dmc_ledger::desk::ClientDesk;
use dmc_ledger::mint::Mint;
use dmc_ledger::setup::Setup;
use dmc_ledger::stamp::Stamp;
use dmc_queue_history::segment::Segment;
use dmc_shared::witness::{Lasting, NoWitness, ReleaseWitness, Witness};
use dmc_tag::reply::{Pulled, Reply, Tags};
use dmc_tag::tag::Tag;
use dmc_types::command::Command;
use dmc_types::ids::{Token, WorkerId};
use dmc_types::moment::Moment;
use std::alloc::Global;
use std::marker::Model;

/// A book with its witness. Contracts see the book.
#[derive(Drop)]
pub(crate) struct Guarded<B: Lasting, W: Witness<B>> {
    pub(crate) book: B,
    pub(crate) witness: W,
    waiting: u64,
}

impl<B: Lasting, W: Witness<B>> Model for Guarded<B, W> {
    ghost Value = { B };

    ghost view = { λ g. g.book };

    ghost invariant = { λ g. W.holds g.witness g.book };
}

impl<B: Lasting, W: Witness<B>> Guarded<B, W> {
    /// A book that no thread waits for.
    pub(crate) fn new(book: B, witness: W) -> Guarded<B, W>
        requires { W.holds witness book }
        ensures { result ≡ book }
    {
        Guarded {
            book,
            witness,
            waiting: 0,
        }
    }

    /// One thread more waits.
    pub(crate) fn begin_waiting(&mut self)
        ensures { self.new ≡ self.old }
    {
        self.waiting = self.waiting.saturating_add(1);
    }

    /// One thread waits no longer.
    pub(crate) fn end_waiting(&mut self)
        ensures { self.new ≡ self.old }
    {
        self.waiting = self.waiting.saturating_sub(1);
    }
}

impl<T: Tag, I: Indexes<T>, S: Setup, W: Witness<QueueBook<T, I, S>>> Guarded<
    QueueBook<T, I, S>,
    W,
> {
    /// Whether nothing is queued and more may come.
    pub(crate) fn must_wait(&self) -> bool
        ensures { result ≡ must_wait T.ops self.now }
    {
        self.book.is_empty() && !self.book.is_closed()
    }

    /// Whether a thread that waits can pull now.
    pub(crate) fn must_wake(&self) -> bool {
        self.waiting > 0 && !self.must_wait()
    }

    /// Hands a command to the queue, as the book does.
    pub(crate) fn run(
        &mut self,
        pass: &mut WorkerPass<S>,
        command: Command,
    ) -> Result<Reply<T>, RunFault>
        requires { is_add command ≡ false }
        ensures answered { IfOk result (λ reply. Replied T.ops (pass_state pass.old) (pass_state pass.new) command reply) }
        ensures kept { OnErr result (pass_state pass.new ≡ pass_state pass.old) }
        ensures behind { IsErrOf result RunFault.Behind → is_pull command ≡ true }
        ensures no_desk { IsErrOf result RunFault.NoDesk → registers command ≡ true }
    {
        self.book.run(pass, command)
    }

    /// Queues a request, as the book does.
    pub(crate) fn submit(
        &mut self,
        pass: &mut WorkerPass<S>,
        tills: &mut StampTills<S>,
        stamp: Stamp,
        token: Token,
        at: Moment,
    ) -> Result<Tags<T>, SubmitFault>
        requires { Covers (stamp_holdings tills.old) stamp.params }
        ensures accepted { IfOk result (λ tags. Replied T.ops (pass_state pass.old) (pass_state pass.new) (commands.Add (record { 0 = stamp.client }) token stamp.params at) (replies.Tagged tags)) }
        ensures taken { OnOk result (stamp_holdings tills.new ≡ tills_after_submit stamp.params (stamp_holdings tills.old)) }
        ensures refused { IfErr result (λ fault. SubmitReplied T.ops (pass_state pass.old) (pass_state pass.new) (commands.Add (record { 0 = stamp.client }) token stamp.params at) fault.cause) }
        ensures handed_back { IfErr result (λ fault. fault.stamp ≡ stamp) }
        ensures tills_kept { OnErr result (stamp_holdings tills.new ≡ stamp_holdings tills.old) }
    {
        self.book.submit(pass, tills, stamp, token, at)
    }

    /// Pulls, as the book does.
    pub(crate) fn pull(
        &mut self,
        pass: &mut WorkerPass<S>,
        at: Moment,
    ) -> Result<Pulled, RunOrRange>
        ensures { PullReplied T.ops (pass_state pass.old) (pass_state pass.new) at result }
    {
        self.book.pull(pass, at)
    }

    /// One pull after a wait: something is queued, or the book is closed.
    pub(crate) fn pull_waited(
        &mut self,
        pass: &mut WorkerPass<S>,
        at: Moment,
    ) -> Result<Pulled, RunOrRange>
        requires { must_wait T.ops self.old ≡ false }
        ensures pulled { PullReplied T.ops (pass_state pass.old) (pass_state pass.new) at result }
        ensures nothing { IfOk result (λ pulled. pulled ≡ pulls.Nothing → self.old.closed ≡ true) }
    {
        self.book.pull(pass, at)
    }

    /// Begins the sums of the worker's tokens anew, as the book does.
    pub(crate) fn renew(&mut self, pass: &mut WorkerPass<S>) -> Result<(u64, u64), RunFault>
        ensures tokens { IfOk result (λ sums. sums.0 ≡ (pass_state pass.old).tills.tokens.amount) }
        ensures granted { IfOk result (λ sums. sums.1 ≡ (pass_state pass.old).tills.granted.amount) }
        ensures pass { OnOk result (pass_state pass.new ≡ renewed_pass (pass_state pass.old)) }
        ensures stranger { IfErr result (λ fault. fault ≡ RunFault.Stranger) }
        ensures kept { OnErr result (pass_state pass.new ≡ pass_state pass.old) }
    {
        self.book.renew(pass)
    }

    /// Takes no more requests from now on.
    pub(crate) fn close(&mut self) {
        self.book.close();
    }
}

impl<T: Tag, I: Indexes<T>, S: Setup, W: ReleaseWitness<QueueBook<T, I, S>>> Guarded<
    QueueBook<T, I, S>,
    W,
> {
    /// Releases the events since the last segment, as the book does.
    pub(crate) fn rotate(&mut self) -> Option<Segment<T, S>> {
        self.book.rotate()
    }
}

impl<T: Tag, I: Indexes<T>, S: Setup> Guarded<QueueBook<T, I, S>, NoWitness> {
    /// Admits a client, as the book does.
    pub(crate) fn admit(&mut self, desk: ClientDesk<S>) -> Result<(), AdmitFault<S>>
        ensures unused { OnOk result (IsUnused desk.server.0 (client_side desk)) }
        ensures back { IfErr result (λ fault. fault.desk ≡ desk) }
    {
        self.book.admit(desk)
    }

    /// Extends a pass, as the book does.
    pub(crate) fn extend(
        &mut self,
        alloc: Global,
        pass: &mut WorkerPass<S>,
    ) -> Result<(), ExtendFault>
        ensures extended { OnOk result (IsExtended (pass_state pass.old) (pass_state pass.new)) }
        ensures kept { OnErr result (pass_state pass.new ≡ pass_state pass.old) }
    {
        self.book.extend(alloc, pass)
    }

    /// Enrols a worker, as the book does.
    pub(crate) fn enrol(
        &mut self,
        alloc: Global,
        worker: WorkerId,
        mint: &mut Mint<S>,
    ) -> Result<WorkerPass<S>, EnrolFault>
        ensures pass { IfOk result (λ pass. IsNewPass mint.old.opened worker (pass_state pass)) }
        ensures mint { OnOk result (mint.new ≡ record { opened = mint.old.opened + books_per_worker; left = mint.old.left - books_per_worker }) }
        ensures kept { OnErr result (mint.new ≡ mint.old) }
    {
        self.book.enrol(alloc, worker, mint)
    }

    /// Dismisses a worker, as the book does.
    pub(crate) fn dismiss(&mut self, pass: WorkerPass<S>) -> Result<(), WorkerPass<S>>
        ensures responded { OnOk result (AllByRecursion HoldsNothing (pass_state pass).units) }
        ensures back { IfErr result (λ back. back ≡ pass) }
    {
        self.book.dismiss(pass)
    }
}
