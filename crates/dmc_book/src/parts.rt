//! What a book shows of itself, and whose passes are its own.
ghost use Rattle.std.specs.Prelude.{◌≡◌, ◌==◌, ◌≤◌, ◌↔◌, drop, length, map, IsTrue};
ghost use Rattle.dmc_ledger.specs.Bundles.{client_side};
ghost use Rattle.dmc_tag.specs.State.{queued_requests};
ghost use Rattle.dmc_tag.specs.Replay.{after, replays};
ghost use Rattle.dmc_book.specs.BookState.{pass_state};
ghost use Rattle.dmc_book.specs.Settling.{AreOwn};

use crate::book::QueueBook;
use crate::pass::WorkerPass;
use crate::settled::are_own;
use dmc_index::index::Indexes;
use dmc_ledger::desk::ClientDesk;
use dmc_ledger::setup::Setup;
use dmc_queue_history::history::EventHistory;
use dmc_tag::tag::Tag;
use dmc_types::config::QueueConfig;
use dmc_types::ids::ServerId;

impl<T: Tag, I: Indexes<T>, S: Setup> QueueBook<T, I, S> {
    /// The events recorded since the last release, oldest first.
    pub fn history(&self) -> &EventHistory<T>
        ensures events { result.now.events ≡ drop self.now.first self.now.history }
        ensures replays { replays T.ops self.now.config self.now.history }
    {
        self.accounts.history.kept()
    }

    /// How many events were released, which is the number of the first event of `history`.
    pub fn first(&self) -> u64
        ensures value { result ≡ self.now.first }
        ensures within { result ≤ length self.now.history }
    {
        self.accounts.history.first()
    }

    /// Whose book it is.
    pub fn server(&self) -> ServerId
        ensures { result.0 ≡ self.now.server }
    {
        self.accounts.server
    }

    /// Whether no request is queued.
    pub fn is_empty(&self) -> bool
        ensures { result ≡ (length (queued_requests (after T.ops self.now.config self.now.history).clients) == 0) }
    {
        self.queue.0.empty()
    }

    /// Whether it takes no more requests.
    pub fn is_closed(&self) -> bool
        ensures { result ≡ self.now.closed }
    {
        self.closed
    }

    /// How its queue is set up.
    pub fn config(&self) -> QueueConfig
        ensures { result ≡ self.now.config }
    {
        self.config
    }

    /// The desk of each client, in their order.
    pub fn desks(&self) -> &[ClientDesk<S>]
        ensures { map client_side result.now ≡ self.now.desks }
    {
        &self.accounts.desks
    }

    /// Whether these are exactly its passes: `settle` takes them then.
    pub fn owns(&self, passes: &[WorkerPass<S>]) -> bool
        ensures { IsTrue result ↔ AreOwn self.now.workers self.now.desks (map pass_state passes.now) }
    {
        are_own(&self.accounts.workers, &self.accounts.desks, passes)
    }
}
