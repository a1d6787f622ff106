//! The queue's book.
ghost use Rattle.std.specs.Prelude.{◌≡◌, ◌<◌, ◌≤◌, ◌+◌, ◌*◌, ◌↔◌, ◌⊎◌, drop, length, map, true, false, IfNone, IfSome, OnSome, IfOk, IfErr, IsOk, IsSome, IsTrue, OnOk, OnErr, IsErrOf, IsErrAnd};
ghost use Rattle.std.specs.List.{AllByRecursion};
ghost use Rattle.dmc_types.specs.Limits.{max_events, max_workers};
ghost use Rattle.dmc_ledger.specs.Bundles.{client_side};
ghost use Rattle.dmc_tag.specs.State.{queued_requests};
ghost use Rattle.dmc_tag.specs.Replay.{after, replays};
ghost use Rattle.dmc_book.specs.BookState.{pass_state, worker_side};
ghost use Rattle.dmc_book.specs.Calls.{LacksMemory, Ran, Strays, is_add, lacks_desk, reply_to};
ghost use Rattle.dmc_book.specs.Later.{IsLater, IsReleased};
ghost use Rattle.dmc_book.specs.Moves.{IsEnrolled, takes};
ghost use Rattle.dmc_book.specs.Opening.{AreBookLimits, AreNamedOnce, IsNewDesk, new_passes, new_state};
ghost use Rattle.dmc_book.specs.PerCount.{books_per_worker};
ghost use Rattle.dmc_book.specs.Renewing.{book_renewed, renewed_pass};
ghost use Rattle.dmc_book.specs.Rotating.{MayRotate, after_rotating, segment_of};
ghost use Rattle.dmc_book.specs.internal.Runs.{Runs};
ghost use Rattle.dmc_book.specs.Settling.{AreGrantsOfDesks, AreOwn, AreSettledDesks, IsSettledWorker, after_settling, closed_worker};
ghost use Rattle.dmc_book.specs.Status.{IsStatusOf};

use crate::accounts::Accounts;
use crate::asking::ask;
use crate::fault::{BookFault, NewFault, RunFault};
use crate::opening::{make_parts, open_accounts};
use crate::pass::WorkerPass;
use crate::settled::Settled;
use crate::status::Status;
use dmc_index::index::Indexes;
use dmc_ledger::desk::ClientDesk;
use dmc_ledger::mint::Mint;
use dmc_ledger::setup::Setup;
use dmc_pull::queue::PullQueue;
use dmc_queue_history::segment::Segment;
use dmc_shared::witness::Lasting;
use dmc_tag::reply::Reply;
use dmc_tag::scheduler::Scheduler;
use dmc_tag::tag::Tag;
use dmc_types::command::Command;
use dmc_types::config::QueueConfig;
use dmc_types::ids::{ServerId, WorkerId};
use std::alloc::Global;
use std::marker::Model;

/// Wrapper without bounds: the toolchain cannot drop a struct generic in `Indexes` that holds this field directly.
#[derive(Drop)]
pub(crate) struct Droppable<P>(pub(crate) P);

/// A server's queue with its history, the books of each enrolled worker, and a desk for each client.
///
/// What holds of every book is the invariant of its type, and of its accounts: the three indexes hold exactly the clients with a
/// queued request, the history replays, the books of each worker total its counts over the history, and each desk holds what
/// the history took from its client and totals what it granted. The laws state it.
#[derive(Drop)]
pub struct QueueBook<T: Tag, I: Indexes<T>, S: Setup> {
    pub(crate) config: QueueConfig,
    pub(crate) queue: Droppable<PullQueue<T, I>>,
    pub(crate) accounts: Accounts<T, S>,
    pub(crate) closed: bool,
}

impl<T: Tag, I: Indexes<T>, S: Setup> Model for QueueBook<T, I, S> {
    ghost use Rattle.dmc_pull.specs.Queue as queue_specs;
    ghost use Rattle.dmc_book.specs.BookState.{BookState, state_of};
    ghost use Rattle.dmc_book.specs.Consistent.{IsReplayed};

    ghost Value = { BookState T };

    ghost view = { λ b. state_of b.config b.accounts b.closed };

    ghost invariant = { λ b. IsReplayed T.ops (queue_specs.state_of b.queue.0) b.config b.accounts.history };
}

impl<T: Tag, I: Indexes<T>, S: Setup> Lasting for QueueBook<T, I, S> {
    ghost later = { IsLater };

    ghost released = { IsReleased };
}

impl<T: Tag, I: Indexes<T>, S: Setup> QueueBook<T, I, S> {
    /// A book of an empty queue, which is open, and a pass for each worker, in their order, which holds nothing. The desks are
    /// this server's, as `open_pair` gave them; beside the held till of each of their books each pass has one. The book keeps
    /// at most `most` events (1 to 2^30). The mint gives `BOOKS_PER_WORKER` numbers to each worker, and one to the history.
    ///
    /// Refused `Limit`, `Twice`, `Memory`, with the desks returned and the mint as it was. Names are compared in memory that
    /// is allocated for it: if there is none, names that are there twice are refused `Memory`.
    pub fn new(
        alloc: Global,
        config: QueueConfig,
        server: ServerId,
        workers: &[WorkerId],
        desks: Vec<ClientDesk<S>>,
        mint: &mut Mint<S>,
        most: u32,
    ) -> Result<(QueueBook<T, I, S>, Vec<WorkerPass<S>>), BookFault<S>>
        requires few { length workers.now ≤ max_workers }
        requires new { AllByRecursion (IsNewDesk server.0) (map client_side desks.items) }
        ensures book { IfOk result (λ made.
            made.0 ≡ new_state config server.0 most mint.old.opened workers.now (map client_side desks.items)) }
        ensures passes { IfOk result (λ made. map pass_state made.1.items
            ≡ new_passes 0 mint.old.opened (map (λ d. d.client) desks.items) (map client_side desks.items) workers.now) }
        ensures opened { OnOk result (mint.new.opened ≡ mint.old.opened + (books_per_worker * length workers.now + 1)) }
        ensures left { OnOk result (mint.new.left + (books_per_worker * length workers.now + 1) ≡ mint.old.left) }
        ensures once { OnOk result (AreNamedOnce workers.now (map client_side desks.items)) }
        ensures back { IfErr result (λ fault. fault.desks ≡ desks) }
        ensures mint_kept { OnErr result (mint.new ≡ mint.old) }
        ensures limit { IsErrAnd result (λ fault. fault.cause ≡ NewFault.Limit)
            ↔ (AreBookLimits (length workers.now) (length desks.items) mint.old.left most → ⊥) }
        ensures twice { IsErrAnd result (λ fault. fault.cause ≡ NewFault.Twice)
            → AreNamedOnce workers.now (map client_side desks.items) → ⊥ }
    {
        let parts = match make_parts(alloc, workers, &desks, mint.left(), most) {
            Ok(parts) => parts,
            Err(cause) => return Err(BookFault { desks, cause }),
        };
        let (accounts, passes) = open_accounts(server, workers, desks, mint, parts);
        let book = QueueBook {
            config,
            queue: Droppable(PullQueue::new(alloc, config)),
            accounts,
            closed: false,
        };
        Ok((book, passes))
    }

    /// Takes no more requests from now on. What is queued is still granted. A second close changes nothing.
    pub fn close(&mut self)
        ensures { self.new ≡ record self.old { closed = true } }
    {
        self.closed = true;
    }

    /// What the pass holds of the worker's counts, and the book's numbers; refused `Stranger` if the pass is of no worker
    /// that is enrolled here, or its tills are not of that worker's books.
    pub fn status(&self, pass: &WorkerPass<S>) -> Result<Status, RunFault>
        ensures status { IfOk result (λ status. IsStatusOf T.ops self.now (pass_state pass.now).tills status) }
        ensures enrolled { OnOk result (IsEnrolled self.now.workers (pass_state pass.now)) }
        ensures stranger { OnErr result (IsEnrolled self.now.workers (pass_state pass.now) → ⊥) }
        ensures cause { IfErr result (λ fault. fault ≡ RunFault.Stranger) }
    {
        if !self.accounts.is_enrolled(pass) {
            return Err(RunFault::Stranger);
        }
        Ok(Status {
            calls: pass.tills.calls.amount(),
            misses: pass.tills.misses.amount(),
            tokens: pass.tills.tokens.amount(),
            grants: pass.tills.grants.amount(),
            granted: pass.tills.granted.amount(),
            cost: pass.tills.cost.amount(),
            clients: self.queue.0.client_count(),
            requests: self.queue.0.request_count(),
            events: self.accounts.event_count(),
            closed: self.closed,
        })
    }

    /// Passes a command that is not an Add to the queue, and records its reply, refusals included. It adds
    /// one to the worker's calls, one to its misses if the reply is Later, Nothing or Refused, and a grant with its cost to the
    /// pass's tills of its client and phase. The pass has the grant's unit then: see `WorkerPass::take_unit`.
    ///
    /// Refused, with nothing recorded: `Stranger`, `Behind`, `NoDesk`, `HistoryFull`, `Memory`. A pull that would grant a request
    /// whose unit the pass has no till for is `Behind` if desks came after the pass, else `Stranger`; that is seen once the
    /// place of the event is made. `Memory` comes only of a Register, or if the events that are kept fill their blocks of
    /// 1,024, or there are none: else the event has its place already, and needs no allocation.
    pub fn run(&mut self, pass: &mut WorkerPass<S>, command: Command) -> Result<Reply<T>, RunFault>
        requires { is_add command ≡ false }
        ensures ran { IfOk result (λ reply. Ran T.ops self.old self.new (pass_state pass.old) (pass_state pass.new) command reply) }
        ensures kept { OnErr result (self.new ≡ self.old) }
        ensures pass_kept { OnErr result (pass_state pass.new ≡ pass_state pass.old) }
        ensures stranger { (IsEnrolled self.old.workers (pass_state pass.old) → ⊥) → result ≡ Err RunFault.Stranger }
        ensures strays { IsErrOf result RunFault.Stranger → IsEnrolled self.old.workers (pass_state pass.old)
            → Strays (takes self.old.desks (pass_state pass.old).clients (pass_state pass.old).units) command (reply_to T.ops self.old command) }
        ensures behind { IsErrOf result RunFault.Behind → IsEnrolled self.old.workers (pass_state pass.old)
            × (length (pass_state pass.old).units < length self.old.desks)
            × Strays (takes self.old.desks (pass_state pass.old).clients (pass_state pass.old).units) command (reply_to T.ops self.old command) }
        ensures not_behind { IsErrOf result RunFault.Stranger → IsEnrolled self.old.workers (pass_state pass.old)
            → length (pass_state pass.old).units < length self.old.desks → ⊥ }
        ensures granted { OnOk result
            (Strays (takes self.old.desks (pass_state pass.old).clients (pass_state pass.old).units) command (reply_to T.ops self.old command) → ⊥) }
        ensures no_desk { IsErrOf result RunFault.NoDesk
            ↔ (IsEnrolled self.old.workers (pass_state pass.old) × (lacks_desk self.old.desks command ≡ true)) }
        ensures history_full { IsErrOf result RunFault.HistoryFull
            ↔ (IsEnrolled self.old.workers (pass_state pass.old) × (lacks_desk self.old.desks command ≡ false)
            × (length self.old.history ≡ self.old.most)) }
        ensures memory { IsErrOf result RunFault.Memory → LacksMemory T.ops self.old command }
    {
        self.hand_on(pass, command)
    }

    /// Runs a command at the queue and records its reply: see `run`.
    fn hand_on(&mut self, pass: &mut WorkerPass<S>, command: Command) -> Result<Reply<T>, RunFault>
        requires { is_add command ≡ false }
        ensures { Runs T.ops self.old (pass_state pass.old) command self.new (pass_state pass.new) result }
    {
        if !self.accounts.is_enrolled(pass) {
            return Err(RunFault::Stranger);
        }
        if self.accounts.lacks_desk_for(&command) {
            return Err(RunFault::NoDesk);
        }
        self.accounts.reserve()?;
        let reply = ask(&mut self.queue.0, &self.accounts, pass, &command)?;
        self.accounts.record(pass, command, reply);
        Ok(reply)
    }

    /// Settles the book with exactly the passes that `new` and `enrol` gave and that were not dismissed, in any order. It gathers them, and returns the events that were
    /// not released, how many requests are queued, the workers with what their passes held, and the desks: of each grant book
    /// what was gathered is what the passes held, and the held till of its pair alone is open. The book is then empty: it has
    /// no worker, no desk and no event, so nothing is counted twice. Other passes are returned, and the book is as it was.
    /// It does not allocate.
    pub fn settle(
        &mut self,
        alloc: Global,
        passes: Vec<WorkerPass<S>>,
    ) -> Result<Settled<T, S>, Vec<WorkerPass<S>>>
        ensures own { IsOk result ↔ AreOwn self.old.workers self.old.desks (map pass_state passes.items) }
        ensures back { IfErr result (λ back. back ≡ passes) }
        ensures kept { OnErr result (self.new ≡ self.old) }
        ensures emptied { OnOk result (self.new ≡ after_settling self.old) }
        ensures history { IfOk result (λ settled. settled.history.events ≡ drop self.old.first self.old.history) }
        ensures replays { OnOk result (replays T.ops self.old.config self.old.history) }
        ensures left { IfOk result (λ settled. settled.left ≡ length (queued_requests (after T.ops self.old.config self.old.history).clients)) }
        ensures workers { IfOk result (λ settled. map worker_side settled.workers.items ≡ map closed_worker self.old.workers) }
        ensures counts { IfOk result (λ settled. AllByRecursion (IsSettledWorker self.old.history) (map worker_side settled.workers.items)) }
        ensures desks { IfOk result (λ settled.
            AreSettledDesks self.old.history (map pass_state passes.items) self.old.desks (map client_side settled.desks.items)) }
    {
        if !self.owns(&passes) {
            return Err(passes);
        }
        Ok(self.settle_own(alloc, passes))
    }

    /// Settles the book with passes that are its own, as `owns` says. The desks are of different clients, and each grant is of a
    /// client with a desk: so what the desks' clients were granted in a phase is together all that was granted in it.
    pub fn settle_own(&mut self, alloc: Global, passes: Vec<WorkerPass<S>>) -> Settled<T, S>
        requires own { AreOwn self.old.workers self.old.desks (map pass_state passes.items) }
        ensures emptied { self.new ≡ after_settling self.old }
        ensures history { result.history.events ≡ drop self.old.first self.old.history }
        ensures few { length result.history.events ≤ max_events }
        ensures replays { replays T.ops self.old.config self.old.history }
        ensures left { result.left ≡ length (queued_requests (after T.ops self.old.config self.old.history).clients) }
        ensures workers { map worker_side result.workers.items ≡ map closed_worker self.old.workers }
        ensures counts { AllByRecursion (IsSettledWorker self.old.history) (map worker_side result.workers.items) }
        ensures desks { AreSettledDesks self.old.history (map pass_state passes.items) self.old.desks (map client_side result.desks.items) }
        ensures grants { AreGrantsOfDesks self.old.history self.old.desks }
    {
        let left = self.queue.0.request_count();
        self.queue = Droppable(PullQueue::new(alloc, self.config));
        self.accounts.settle(alloc, passes, left)
    }

    /// Begins the sums of the worker's tokens anew, of those that it added and of those that it was granted: what they were,
    /// which is what the pass held. For these two books `status`, `settle` and the law of counts speak of the events since then.
    /// So sums of large tokens do not keep events from being released.
    ///
    /// Refused `Stranger`, with nothing changed, if the pass is of no worker that is enrolled here, or its tills are not of
    /// that worker's books.
    pub fn renew(&mut self, pass: &mut WorkerPass<S>) -> Result<(u64, u64), RunFault>
        ensures tokens { IfOk result (λ sums. sums.0 ≡ (pass_state pass.old).tills.tokens.amount) }
        ensures granted { IfOk result (λ sums. sums.1 ≡ (pass_state pass.old).tills.granted.amount) }
        ensures book { OnOk result (self.new ≡ book_renewed (pass_state pass.old).place self.old) }
        ensures pass { OnOk result (pass_state pass.new ≡ renewed_pass (pass_state pass.old)) }
        ensures stranger { IsErrOf result RunFault.Stranger ↔ (IsEnrolled self.old.workers (pass_state pass.old) → ⊥) }
        ensures no_other { IfErr result (λ fault. fault ≡ RunFault.Stranger) }
        ensures kept { OnErr result (self.new ≡ self.old) }
        ensures pass_kept { OnErr result (pass_state pass.new ≡ pass_state pass.old) }
    {
        if !self.accounts.is_enrolled(pass) {
            return Err(RunFault::Stranger);
        }
        Ok(self.accounts.renew(pass))
    }

    /// Releases the events recorded since the last release, in a time that grows with the number of workers and
    /// not with that of events. It does not allocate. The book goes on with none of them kept.
    ///
    /// `None`, and nothing changes, exactly if more than 2^62 events were recorded, a worker's sum of tokens (added, or
    /// granted) is past 2^62, all grants cost more than 2^62 together, or the book is settled.
    pub fn rotate(&mut self) -> Option<Segment<T, S>>
        ensures segment { IfSome result (λ segment. segment ≡ segment_of self.old) }
        ensures some { IsSome result ↔ MayRotate self.old.history self.old.first self.old.most self.old.workers }
        ensures rotated { IfSome result (λ _. self.new ≡ after_rotating self.old) }
        ensures within { OnSome result (self.old.first ≤ length self.old.history) }
        ensures kept { IfNone result (self.new ≡ self.old) }
    {
        self.accounts.rotate(self.config)
    }
}
