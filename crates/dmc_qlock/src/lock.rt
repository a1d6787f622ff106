//! A queue's book behind a lock. Each time that the lock is taken the book is consistent: that is the invariant of its type.
ghost use Rattle.std.specs.Prelude.{◌≡◌, ◌+◌, ◌-◌, ℕ, true, false, IfOk, IfErr, OnOk, OnErr, IsErrOf, IsErrAnd};
ghost use Rattle.std.specs.List.{AllByRecursion};
ghost use Rattle.dmc_ledger.specs.Bundles.{Covers, client_side, stamp_holdings};
ghost use Rattle.dmc_ledger.specs.Moves.{tills_after_submit};
ghost use Rattle.dmc_tag.specs.declared.reply.Reply.TheVariants as replies;
ghost use Rattle.dmc_types.specs.declared.command.Command.TheVariants as commands;
ghost use Rattle.dmc_book.specs.BookState.{pass_state};
ghost use Rattle.dmc_book.specs.Calls.{is_add};
ghost use Rattle.dmc_book.specs.Joining.{IsUnused};
ghost use Rattle.dmc_book.specs.Leaving.{HoldsNothing};
ghost use Rattle.dmc_book.specs.PerCount.{books_per_worker};
ghost use Rattle.dmc_book.specs.Renewing.{renewed_pass};
ghost use Rattle.dmc_book.specs.Status.{AreHeld, counts_in};
ghost use Rattle.dmc_qlock.specs.Calls.{Replied, IsExtended, IsNewPass, PullReplied, SubmitReplied, is_pull, registers};

use crate::fault::RunOrRange;
use crate::guarded::Guarded;
use dmc_book::book::QueueBook;
use dmc_book::fault::{
    AdmitCause, AdmitFault, EnrolFault, ExtendFault, RunFault, SubmitCause, SubmitFault,
};
use dmc_book::pass::WorkerPass;
use dmc_book::status::Status;
use dmc_index::index::Indexes;
use dmc_ledger::bundle::StampTills;
use dmc_ledger::desk::ClientDesk;
use dmc_ledger::mint::Mint;
use dmc_ledger::setup::Setup;
use dmc_ledger::stamp::Stamp;
use dmc_queue_history::segment::Segment;
use dmc_shared::pad::{CACHE_PAD, CachePad};
use dmc_shared::witness::{Lasting, NoWitness, ReleaseWitness, Witness};
use dmc_tag::reply::{Pulled, Reply, Tags};
use dmc_tag::tag::Tag;
use dmc_types::command::Command;
use dmc_types::ids::{ServerId, Token, WorkerId};
use dmc_types::moment::Moment;
use std::alloc::Global;
use std::marker::Model;
use std::sync::{Condvar, Mutex, Wait};

/// What is of one server.
pub trait OfServer {
    /// The number of its server.
    ghost server_of: { Self → ℕ };

    /// Its server.
    fn its_server(&self) -> ServerId
        ensures { result.0 ≡ server_of self.now };
}

impl<T: Tag, I: Indexes<T>, S: Setup> OfServer for QueueBook<T, I, S> {
    ghost server_of = { λ book. book.server };

    fn its_server(&self) -> ServerId {
        self.server()
    }
}

/// A book that threads share, and a witness of what it was. Contracts see whose book it is. It is generic in the book, since
/// generic code may not pass on by value what is generic in indexes, but for what is held behind a type parameter.
#[derive(Drop)]
pub struct LockedQueue<B: Lasting, W: Witness<B>> {
    server: ServerId,
    guarded: Mutex<Guarded<B, W>>,
    // Notified if something is queued and a thread waits, and if the book is closed.
    changed: Condvar,
    // Between this lock and what lies beside it.
    apart: CachePad,
}

/// A queue's book that threads share, without a witness. A worker's own pass steps with each call; each call is one of the
/// book's, and refuses as that does.
pub type QueueLock<T, I, S> = LockedQueue<QueueBook<T, I, S>, NoWitness>;

/// The same, generic in the book.
pub type Locked<B> = LockedQueue<B, NoWitness>;

impl<B: Lasting, W: Witness<B>> Model for LockedQueue<B, W> {
    ghost use Rattle.dmc_qlock.specs.LockState.{LockState};

    ghost Value = { LockState };

    ghost view = { λ l. record { server = l.server.0 } };
}

impl<B: OfServer + Lasting> LockedQueue<B, NoWitness> {
    /// The book behind a lock.
    pub fn new(book: B) -> LockedQueue<B, NoWitness>
        ensures { result.server ≡ B.server_of book }
    {
        LockedQueue::with_witness(book, NoWitness)
    }
}

impl<B: Lasting> LockedQueue<B, NoWitness> {
    /// The book, once no thread shares the lock. The laws of dmc_book say what holds of it.
    pub fn into_book(self) -> B {
        let (book, _) = self.into_parts();
        book
    }
}

impl<B: OfServer + Lasting, W: Witness<B>> LockedQueue<B, W> {
    /// The book behind a lock, with a witness of it.
    pub fn with_witness(book: B, witness: W) -> LockedQueue<B, W>
        requires { W.holds witness book }
        ensures { result.server ≡ B.server_of book }
    {
        LockedQueue {
            server: book.its_server(),
            guarded: Mutex::new(Guarded::new(book, witness)),
            changed: Condvar::new(),
            apart: CACHE_PAD,
        }
    }
}

impl<B: Lasting, W: Witness<B>> LockedQueue<B, W> {
    /// Whose book it is.
    pub fn server(&self) -> ServerId
        ensures { result.0 ≡ self.now.server }
    {
        self.server
    }

    /// The book and its witness, once no thread shares the lock.
    pub fn into_parts(self) -> (B, W)
        ensures { W.holds result.1 result.0 }
    {
        let LockedQueue { guarded, .. } = self;
        let Guarded { book, witness, .. } = guarded.into_inner();
        (book, witness)
    }
}

impl<T: Tag, I: Indexes<T>, S: Setup, W: Witness<QueueBook<T, I, S>>> LockedQueue<
    QueueBook<T, I, S>,
    W,
> {
    /// Runs any command but an Add, and records its reply. The pass has one call more, one miss more if the reply is Later, Nothing
    /// or Refused, and of a grant one grant, its token, its cost, and the unit of its client and phase, which it takes to the
    /// response (`WorkerPass::take_unit`).
    ///
    /// Refused, with nothing recorded: `Stranger`, `Behind` (of a Pull alone), `NoDesk` (of a Register alone), `HistoryFull`,
    /// `Memory`.
    pub fn run<R: Wait>(
        &self,
        rt: &R,
        pass: &mut WorkerPass<S>,
        command: Command,
    ) -> Result<Reply<T>, RunFault>
        requires { is_add command ≡ false }
        ensures answered { IfOk result (λ reply. Replied T.ops (pass_state pass.old) (pass_state pass.new) command reply) }
        ensures kept { OnErr result (pass_state pass.new ≡ pass_state pass.old) }
        ensures behind { IsErrOf result RunFault.Behind → is_pull command ≡ true }
        ensures no_desk { IsErrOf result RunFault.NoDesk → registers command ≡ true }
    {
        self.guarded.lock(rt).run(pass, command)
    }

    /// Queues a stamped request for its client, and answers its tags. The pass has one call and the token more, and the tills
    /// one stamp, its delta and its rho less. It wakes a thread that waits for a request.
    ///
    /// Refused `Stranger` (if the stamp names another server, before the lock is taken), `Closed`, `HistoryFull`, `Memory`,
    /// or as the queue refuses an add; this last is recorded, and the pass has one call and one miss more. Nothing else moves.
    /// Each refusal hands the stamp back.
    pub fn submit<R: Wait>(
        &self,
        rt: &R,
        pass: &mut WorkerPass<S>,
        tills: &mut StampTills<S>,
        stamp: Stamp,
        token: Token,
        at: Moment,
    ) -> Result<Tags<T>, SubmitFault>
        requires { Covers (stamp_holdings tills.old) stamp.params }
        ensures accepted { IfOk result (λ tags. Replied T.ops (pass_state pass.old) (pass_state pass.new) (commands.Add (record { 0 = stamp.client }) token stamp.params at) (replies.Tagged tags)) }
        ensures taken { OnOk result (stamp_holdings tills.new ≡ tills_after_submit stamp.params (stamp_holdings tills.old)) }
        ensures its_server { OnOk result (stamp.server ≡ self.now.server) }
        ensures refused { IfErr result (λ fault. SubmitReplied T.ops (pass_state pass.old) (pass_state pass.new) (commands.Add (record { 0 = stamp.client }) token stamp.params at) fault.cause) }
        ensures handed_back { IfErr result (λ fault. fault.stamp ≡ stamp) }
        ensures tills_kept { OnErr result (stamp_holdings tills.new ≡ stamp_holdings tills.old) }
        ensures stranger { (stamp.server ≡ self.now.server → ⊥) → IsErrAnd result (λ fault. fault.cause ≡ SubmitCause.Stranger) }
    {
        if stamp.server() != self.server {
            return Err(SubmitFault {
                stamp,
                cause: SubmitCause::Stranger,
            });
        }
        let mut guarded = self.guarded.lock(rt);
        let answer = guarded.submit(pass, tills, stamp, token, at);
        let wakes = guarded.must_wake();
        drop(guarded);
        if wakes {
            self.changed.notify_one();
        }
        answer
    }

    /// Pulls: grants the next request, or says when one is due, or that nothing is queued. The pass steps as for `run`.
    ///
    /// Refused `Range` by the rules, which is recorded; and `Stranger`, `Behind`, `HistoryFull` or `Memory`, with nothing
    /// recorded.
    pub fn pull<R: Wait>(
        &self,
        rt: &R,
        pass: &mut WorkerPass<S>,
        at: Moment,
    ) -> Result<Pulled, RunOrRange>
        ensures { PullReplied T.ops (pass_state pass.old) (pass_state pass.new) at result }
    {
        self.guarded.lock(rt).pull(pass, at)
    }

    /// Waits, recording nothing, while nothing is queued and the book isn't closed, and then pulls once. If something is
    /// still queued, it wakes the next thread that waits.
    pub fn pull_or_wait<R: Wait>(
        &self,
        rt: &R,
        pass: &mut WorkerPass<S>,
        at: Moment,
    ) -> Result<Pulled, RunOrRange>
        ensures { PullReplied T.ops (pass_state pass.old) (pass_state pass.new) at result }
    {
        let mut free = self.guarded.lock(rt);
        free.begin_waiting();
        let mut guarded = self
            .changed
            .wait_while(rt, free, |guarded| guarded.must_wait());
        guarded.end_waiting();
        let answer = guarded.pull_waited(pass, at);
        let wakes = guarded.must_wake();
        drop(guarded);
        if wakes {
            self.changed.notify_one();
        }
        answer
    }

    /// What the pass holds of the worker's counts, and the book's numbers; refused `Stranger` alone.
    pub fn status<R: Wait>(&self, rt: &R, pass: &WorkerPass<S>) -> Result<Status, RunFault>
        ensures held { IfOk result (λ status. AreHeld (counts_in status) (pass_state pass.now).tills) }
        ensures stranger { IfErr result (λ fault. fault ≡ RunFault.Stranger) }
    {
        self.guarded.lock(rt).book.status(pass)
    }

    /// Begins the sums of the worker's tokens anew: what they were, which is what the pass held. `WorkerPass::needs_renewal`
    /// shows when it is time.
    ///
    /// Refused `Stranger` as by the book.
    pub fn renew<R: Wait>(&self, rt: &R, pass: &mut WorkerPass<S>) -> Result<(u64, u64), RunFault>
        ensures tokens { IfOk result (λ sums. sums.0 ≡ (pass_state pass.old).tills.tokens.amount) }
        ensures granted { IfOk result (λ sums. sums.1 ≡ (pass_state pass.old).tills.granted.amount) }
        ensures pass { OnOk result (pass_state pass.new ≡ renewed_pass (pass_state pass.old)) }
        ensures stranger { IfErr result (λ fault. fault ≡ RunFault.Stranger) }
        ensures kept { OnErr result (pass_state pass.new ≡ pass_state pass.old) }
    {
        self.guarded.lock(rt).renew(pass)
    }

    /// Takes no more requests from now on, and wakes who waits for one. What is queued is still granted.
    pub fn close<R: Wait>(&self, rt: &R) {
        self.guarded.lock(rt).close();
        self.changed.notify_all();
    }
}

// A witness may say how many events were released. So a lock rotates only if its witness is still true afterwards.
impl<T: Tag, I: Indexes<T>, S: Setup, W: ReleaseWitness<QueueBook<T, I, S>>> LockedQueue<
    QueueBook<T, I, S>,
    W,
> {
    /// Releases the events recorded since the last segment. It does not allocate, and takes a time that does not grow with the
    /// number of events. `None`, and nothing changes, exactly if the book's `rotate` returns it.
    ///
    /// Segments of one lock are parts of one history: `Segment::follows` shows which is the next.
    pub fn rotate<R: Wait>(&self, rt: &R) -> Option<Segment<T, S>> {
        self.guarded.lock(rt).rotate()
    }
}

// A witness may say who has a desk and who is enrolled, so a lock with one admits and enrols nobody.
impl<T: Tag, I: Indexes<T>, S: Setup> LockedQueue<QueueBook<T, I, S>, NoWitness> {
    /// Admits a client that has no desk here yet: from now on it can register. The desk is this server's, as `open_pair` gave it.
    /// A pull that would grant the client is refused `Behind` until the worker's pass is extended.
    ///
    /// Refused `Stranger` (if the desk is another server's, before the lock is taken), `Known`, `Clients`, `Memory`. Each
    /// refusal returns the desk.
    pub fn admit<R: Wait>(&self, rt: &R, desk: ClientDesk<S>) -> Result<(), AdmitFault<S>>
        ensures unused { OnOk result (IsUnused self.now.server (client_side desk)) }
        ensures back { IfErr result (λ fault. fault.desk ≡ desk) }
        ensures stranger { (desk.server.0 ≡ self.now.server → ⊥) → IsErrAnd result (λ fault. fault.cause ≡ AdmitCause.Stranger) }
    {
        if desk.server != self.server {
            return Err(AdmitFault {
                desk,
                cause: AdmitCause::Stranger,
            });
        }
        self.guarded.lock(rt).admit(desk)
    }

    /// Opens tills of the desks that came after the pass, which has then tills of each desk. A worker calls it if its pull is
    /// refused `Behind`, and pulls again. The lock is held for a time that grows with the number of desks.
    ///
    /// Refused `Stranger`, `Memory`, with nothing changed.
    pub fn extend<R: Wait>(
        &self,
        rt: &R,
        alloc: Global,
        pass: &mut WorkerPass<S>,
    ) -> Result<(), ExtendFault>
        ensures extended { OnOk result (IsExtended (pass_state pass.old) (pass_state pass.new)) }
        ensures kept { OnErr result (pass_state pass.new ≡ pass_state pass.old) }
    {
        self.guarded.lock(rt).extend(alloc, pass)
    }

    /// Enrols a worker that was not enrolled here before: its pass holds nothing, and has tills of each desk. The mint gives it
    /// `BOOKS_PER_WORKER` numbers. The lock is held for a time that grows with the numbers of workers and of desks.
    ///
    /// Refused `Known`, `Limit`, `Memory`, with the mint as it was.
    pub fn enrol<R: Wait>(
        &self,
        rt: &R,
        alloc: Global,
        worker: WorkerId,
        mint: &mut Mint<S>,
    ) -> Result<WorkerPass<S>, EnrolFault>
        ensures pass { IfOk result (λ pass. IsNewPass mint.old.opened worker (pass_state pass)) }
        ensures mint { OnOk result (mint.new ≡ record { opened = mint.old.opened + books_per_worker; left = mint.old.left - books_per_worker }) }
        ensures kept { OnErr result (mint.new ≡ mint.old) }
    {
        self.guarded.lock(rt).enrol(alloc, worker, mint)
    }

    /// Dismisses a worker: its pass is gathered. Its counts stay in what the book's `settle` returns, and its sums of tokens no
    /// longer keep events from being released. The lock is held for a time that grows with the number of desks.
    ///
    /// The pass is returned exactly if the book's `dismiss` returns it.
    pub fn dismiss<R: Wait>(&self, rt: &R, pass: WorkerPass<S>) -> Result<(), WorkerPass<S>>
        ensures responded { OnOk result (AllByRecursion HoldsNothing (pass_state pass).units) }
        ensures back { IfErr result (λ back. back ≡ pass) }
    {
        self.guarded.lock(rt).dismiss(pass)
    }
}
