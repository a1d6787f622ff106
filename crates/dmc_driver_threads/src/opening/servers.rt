//! The servers of a run, opened: their queues, at which every client is registered, and their workers.
ghost use Rattle.std.specs.Prelude.{◌≡◌, ◌+◌, ◌*◌, ◌<◌, ◌≤◌, ◌^◌, ◌++◌, ◌∷◌, [], length, map, IfOk, OnOk};
ghost use Rattle.std.specs.List.{AllByRecursion, range_with_len};
ghost use Rattle.dmc_types.specs.Limits.{max_scene_clients, max_server_workers, max_servers, max_workers};
ghost use Rattle.dmc_ledger.specs.Bundles.{client_side};
ghost use Rattle.dmc_book.specs.BookState.{pass_state};
ghost use Rattle.dmc_book.specs.Opening.{AreApart, AreBookLimits, AreNamedOnce, IsNewDesk, new_passes, new_state};
ghost use Rattle.dmc_book.specs.PerCount.{books_per_worker};
ghost use Rattle.dmc_driver_threads.specs.Opened.{IsOpenedBook, commands_of, registration};
ghost use Rattle.dmc_driver_threads.specs.internal.Books.{AreNumbered, IsFirstEnrolled, IsNewBook, IsSetAsBefore, books_of_server, enrolled};
ghost use Rattle.dmc_driver_threads.specs.internal.Desks.{ids_of, queues_of};

use super::desks::QueueDesks;
use super::registering::register_each;
use super::{Opened, Opening, push_last};
use crate::bell::Ringer;
use crate::client_worker::ClientJob;
use crate::origin::{AsOpened, Origin, ServerLock};
use crate::server_worker::ServerJob;
use crate::threads::Senders;
use dmc_book::book::QueueBook;
use dmc_book::fault::NewFault;
use dmc_book::pass::WorkerPass;
use dmc_index::index::Indexes;
use dmc_ledger::desk::ClientDesk;
use dmc_ledger::mint::Mint;
use dmc_ledger::setup::Setup;
use dmc_qlock::lock::{LockedQueue, OfServer};
use dmc_queue_history::history::EventHistory;
use dmc_settle::report::{ServerReport, StopCause, UnitsHeld};
use dmc_shared::witness::{Lasting, Witness};
use dmc_tag::tag::Tag;
use dmc_types::config::QueueConfig;
use dmc_types::ids::{ServerId, WorkerId};
use std::alloc::{AllocError, Global};

impl<'a> Opening<'a> {
    /// Opens the servers with these desks, in order.
    pub(super) fn open_servers<T: Tag, I: Indexes<T>, S: Origin>(
        &self,
        mint: &mut Mint<S>,
        desks: Vec<QueueDesks<S>>,
        opened: &mut Opened<T, QueueBook<T, I, S>, AsOpened<S>, S>,
    ) -> Result<(), AllocError>
        requires scene { S.scene ≡ self.now.scene.now }
        requires limits { S.limits ≡ self.now.limits }
        requires desks { desks.items ≡ queues_of self.now.scene.now.servers (ids_of self.now.scene.now.clients) }
        requires left { self.now.scene.now.servers * books_of_server self.now.scene.now ≤ mint.old.left }
        requires jobs { length opened.old.senders.jobs.items ≡ length self.now.scene.now.clients }
        requires rows { opened.old.remains.report.servers.items ≡ [] }
        ensures rows { OnOk result
            (map (λ r. r.server.0) opened.new.remains.report.servers.items ≡ range_with_len 0 self.now.scene.now.servers) }
        ensures clients { OnOk result (opened.new.remains.report.clients ≡ opened.old.remains.report.clients) }
        ensures queues { OnOk result
            (length opened.new.cluster.queues.items ≡ length opened.old.cluster.queues.items + self.now.scene.now.servers) }
        ensures trackers { OnOk result (length opened.new.cluster.trackers.items ≡ length opened.old.cluster.trackers.items) }
    {
        let mut desks = desks;
        for _ in 0..self.scene.servers() {
            let next = desks.remove(0);
            self.open_server(mint, next, opened)?;
        }
        Ok(())
    }

    /// The next server, with its desks: its queue, its row and its workers. Its worker 0, the first client's, registers every
    /// client.
    fn open_server<T: Tag, I: Indexes<T>, S: Origin>(
        &self,
        mint: &mut Mint<S>,
        desks: QueueDesks<S>,
        opened: &mut Opened<T, QueueBook<T, I, S>, AsOpened<S>, S>,
    ) -> Result<(), AllocError>
        requires scene { S.scene ≡ self.now.scene.now }
        requires limits { S.limits ≡ self.now.limits }
        requires desks { desks.clients ≡ ids_of self.now.scene.now.clients }
        requires few { desks.server < max_servers }
        requires left { books_of_server self.now.scene.now ≤ mint.old.left }
        requires jobs { length opened.old.senders.jobs.items ≡ length self.now.scene.now.clients }
        ensures left { OnOk result (mint.new.left + books_of_server self.now.scene.now ≡ mint.old.left) }
        ensures jobs { OnOk result (length opened.new.senders.jobs.items ≡ length opened.old.senders.jobs.items) }
        ensures rows { OnOk result (map (λ r. r.server.0) opened.new.remains.report.servers.items
            ≡ map (λ r. r.server.0) opened.old.remains.report.servers.items ++ desks.server ∷ []) }
        ensures clients { OnOk result (opened.new.remains.report.clients ≡ opened.old.remains.report.clients) }
        ensures queues { OnOk result (length opened.new.cluster.queues.items ≡ length opened.old.cluster.queues.items + 1) }
        ensures trackers { OnOk result (length opened.new.cluster.trackers.items ≡ length opened.old.cluster.trackers.items) }
    {
        let server = desks.server;
        let (mut passes, stops) = self.open_queue(mint, desks, &mut opened.cluster.queues)?;
        let row = self.new_row(server, stops);
        push_last(row, &mut opened.remains.report.servers)?;
        self.hand_out(
            server,
            &mut passes,
            &mut opened.senders,
            &mut opened.servers,
        )?;
        push_last(passes, &mut opened.remains.passes.workers)?;
        push_last(self.new_ends()?, &mut opened.remains.ends)?;
        Ok(())
    }

    /// A server's queue behind its lock, with every client registered, the passes of its workers, and what the queue refused.
    fn open_queue<T: Tag, I: Indexes<T>, S: Origin>(
        &self,
        mint: &mut Mint<S>,
        desks: QueueDesks<S>,
        queues: &mut Vec<ServerLock<T, I, S>>,
    ) -> Result<(Vec<WorkerPass<S>>, Vec<StopCause>), AllocError>
        requires scene { S.scene ≡ self.now.scene.now }
        requires limits { S.limits ≡ self.now.limits }
        requires desks { desks.clients ≡ ids_of self.now.scene.now.clients }
        requires few { desks.server < max_servers }
        requires left { books_of_server self.now.scene.now ≤ mint.old.left }
        ensures passes { IfOk result (λ opened. length opened.0.items ≡ enrolled self.now.scene.now) }
        ensures left { OnOk result (mint.new.left + books_of_server self.now.scene.now ≡ mint.old.left) }
        ensures queues { OnOk result (length queues.new.items ≡ length queues.old.items + 1) }
    {
        let (mut book, mut passes) = self.new_book(mint, desks)?;
        match self.register_all(&mut book, &mut passes) {
            Ok(stops) => {
                push_queue(book, AsOpened::new(), queues)?;
                Ok((passes, stops))
            }
            Err(error) => {
                drop(book);
                Err(error)
            }
        }
    }

    /// A server's book with the workers that are enrolled there, and their passes.
    fn new_book<T: Tag, I: Indexes<T>, S: Setup>(
        &self,
        mint: &mut Mint<S>,
        desks: QueueDesks<S>,
    ) -> Result<(QueueBook<T, I, S>, Vec<WorkerPass<S>>), AllocError>
        requires desks { desks.clients ≡ ids_of self.now.scene.now.clients }
        requires few { desks.server < max_servers }
        requires left { books_of_server self.now.scene.now ≤ mint.old.left }
        ensures book { IfOk result (λ made. IsNewBook self.now.scene.now self.now.limits made.0) }
        ensures passes { IfOk result (λ made. length made.1.items ≡ enrolled self.now.scene.now) }
        ensures first { IfOk result (λ made. IsFirstEnrolled made.0.workers made.1.items) }
        ensures some { OnOk result (0 < length self.now.scene.now.clients) }
        ensures left { OnOk result (mint.new.left + books_of_server self.now.scene.now ≡ mint.old.left) }
    {
        let QueueDesks { server, desks } = desks;
        let clients = self.scene.clients().len() as u32;
        let workers = self.enroll(server, clients)?;
        let config = self.scene.config();
        let most = self.limits.events();
        let made = make_book(self.alloc, config, server, &workers, desks, mint, most)?;
        Ok(made)
    }

    /// The workers that are enrolled at a server: those of this number of clients, and then its own. No two have one number.
    fn enroll(&self, server: ServerId, clients: u32) -> Result<Vec<WorkerId>, AllocError>
        requires server { server.0 < max_servers }
        requires clients { clients ≤ max_scene_clients }
        ensures apart { IfOk result (λ ids. AreApart (λ w. w.0) ids.items) }
        ensures as_many { IfOk result (λ ids. length ids.items ≡ clients + self.now.scene.now.workers) }
        ensures few { OnOk result (self.now.scene.now.workers ≤ max_server_workers) }
    {
        let workers = self.scene.workers();
        let mut ids = Vec::with_capacity(self.alloc, self.enrolled())?;
        add_workers(0, clients, &mut ids)?;
        add_workers(clients + server.0 * workers, workers, &mut ids)?;
        Ok(ids)
    }

    /// How many workers are enrolled at a server: one of each client, and its own.
    fn enrolled(&self) -> usize {
        (self.scene.clients().len() as u32 + self.scene.workers()) as usize
    }

    /// Registers the clients by the first of the passes. What comes back is what the queue refused, with room for the stops of
    /// the workers.
    fn register_all<T: Tag, I: Indexes<T>, S: Setup>(
        &self,
        book: &mut QueueBook<T, I, S>,
        passes: &mut [WorkerPass<S>],
    ) -> Result<Vec<StopCause>, AllocError>
        requires new { IsNewBook self.now.scene.now self.now.limits book.old }
        requires some { 0 < length passes.old }
        requires first { IsFirstEnrolled book.old.workers passes.old }
        ensures kept { OnOk result (IsSetAsBefore book.old book.new) }
        ensures registered { OnOk result (commands_of book.new.history ≡ map registration self.now.scene.now.clients) }
    {
        let mut stops = Vec::with_capacity(self.alloc, self.enrolled())?;
        register_each(book, &mut passes[0], self.scene.clients(), &mut stops)?;
        Ok(stops)
    }

    /// A server that did nothing yet, with these stops.
    fn new_row<T: Tag>(&self, server: ServerId, stops: Vec<StopCause>) -> ServerReport<T>
        ensures { result.server ≡ server }
    {
        ServerReport {
            server,
            reservation: 0,
            priority: 0,
            left: 0,
            held: UnitsHeld::default(),
            history: EventHistory::new(self.alloc, self.limits.events()).unwrap(),
            stops,
        }
    }

    /// Hands the last passes to the workers of the server, and the others to those of the clients. `passes` keeps their room.
    fn hand_out<S: Setup>(
        &self,
        server: ServerId,
        passes: &mut Vec<WorkerPass<S>>,
        senders: &mut Senders<S>,
        servers: &mut Vec<ServerJob<S>>,
    ) -> Result<(), AllocError>
        requires passes { length passes.old.items ≡ enrolled self.now.scene.now }
        requires jobs { length senders.old.jobs.items ≡ length self.now.scene.now.clients }
        ensures { OnOk result (length senders.new.jobs.items ≡ length senders.old.jobs.items) }
    {
        self.hand_to_server(server, passes, &mut senders.ringers, servers)?;
        hand_to_clients(passes, &mut senders.jobs)
    }

    /// Hands the last passes to the workers of a server, from the last one on.
    fn hand_to_server<S: Setup>(
        &self,
        server: ServerId,
        passes: &mut Vec<WorkerPass<S>>,
        ringers: &mut [Ringer],
        jobs: &mut Vec<ServerJob<S>>,
    ) -> Result<(), AllocError>
        requires { self.now.scene.now.workers ≤ length passes.old.items }
        ensures { OnOk result (length passes.new.items + self.now.scene.now.workers ≡ length passes.old.items) }
    {
        for place in (0..self.scene.workers() as usize).rev() {
            let Some(pass) = passes.pop() else {
                unreachable!()
            };
            let job = server_job(self.alloc, server, place, pass, ringers)?;
            push_last(job, jobs)?;
        }
        Ok(())
    }

    /// How the workers of a server end whose threads are not started.
    fn new_ends(&self) -> Result<Vec<Option<StopCause>>, AllocError> {
        let workers = self.scene.workers();
        let mut ends = Vec::with_capacity(self.alloc, workers as usize)?;
        for _ in 0..workers {
            ends.push(Some(StopCause::Spawn))?;
        }
        Ok(ends)
    }
}

/// A book within its limits, in which nobody is named twice. It is refused memory alone.
fn make_book<T: Tag, I: Indexes<T>, S: Setup>(
    alloc: Global,
    config: QueueConfig,
    server: ServerId,
    workers: &[WorkerId],
    desks: Vec<ClientDesk<S>>,
    mint: &mut Mint<S>,
    most: u32,
) -> Result<(QueueBook<T, I, S>, Vec<WorkerPass<S>>), AllocError>
    requires few { length workers.now ≤ max_workers }
    requires new { AllByRecursion (IsNewDesk server.0) (map client_side desks.items) }
    requires limits { AreBookLimits (length workers.now) (length desks.items) mint.old.left most }
    requires once { AreNamedOnce workers.now (map client_side desks.items) }
    ensures book { IfOk result (λ made.
        made.0 ≡ new_state config server.0 most mint.old.opened workers.now (map client_side desks.items)) }
    ensures passes { IfOk result (λ made. map pass_state made.1.items
        ≡ new_passes 0 mint.old.opened (map (λ d. d.client) desks.items) (map client_side desks.items) workers.now) }
    ensures left { OnOk result (mint.new.left + (books_per_worker * length workers.now + 1) ≡ mint.old.left) }
{
    match QueueBook::new(alloc, config, server, workers, desks, mint, most) {
        Ok(made) => Ok(made),
        Err(fault) => match fault.cause {
            NewFault::Memory => Err(AllocError),
            NewFault::Limit => unreachable!(),
            NewFault::Twice => unreachable!(),
        },
    }
}

/// Adds this number of workers, numbered from `first` on. Those that are there have lower numbers.
fn add_workers(first: u32, count: u32, ids: &mut Vec<WorkerId>) -> Result<(), AllocError>
    requires fits { first + count < 2 ^ 32 }
    requires numbered { AreNumbered first ids.old.items }
    ensures numbered { OnOk result (AreNumbered (first + count) ids.new.items) }
    ensures as_many { OnOk result (length ids.new.items ≡ length ids.old.items + count) }
{
    for worker in first..first + count {
        ids.push(WorkerId(worker))?;
    }
    Ok(())
}

/// One queue more, behind its lock with a witness.
fn push_queue<B: OfServer + Lasting + Drop, W: Witness<B> + Drop>(
    book: B,
    witness: W,
    queues: &mut Vec<LockedQueue<B, W>>,
) -> Result<(), AllocError>
    requires { W.holds witness book }
    ensures { OnOk result (length queues.new.items ≡ length queues.old.items + 1) }
{
    push_last(LockedQueue::with_witness(book, witness), queues)
}

/// The worker of a server at a place, with a ringer at each client's door.
fn server_job<S: Setup>(
    alloc: Global,
    server: ServerId,
    place: usize,
    pass: WorkerPass<S>,
    ringers: &mut [Ringer],
) -> Result<ServerJob<S>, AllocError> {
    let failures = vec![in alloc; 0u64; ringers.len()]?;
    let ringers = more_ringers(alloc, ringers)?;
    Ok(ServerJob {
        server,
        place,
        pass,
        ringers,
        failures,
        stop: Some(StopCause::Spawn),
    })
}

/// One ringer more at each door.
fn more_ringers(alloc: Global, ringers: &mut [Ringer]) -> Result<Vec<Ringer>, AllocError> {
    let mut more = Vec::with_capacity(alloc, ringers.len())?;
    for ringer in ringers.iter_mut() {
        more.push(ringer.another()?)?;
    }
    Ok(more)
}

/// Hands the last passes to the workers of the clients, from the last one on.
fn hand_to_clients<S: Setup>(
    passes: &mut Vec<WorkerPass<S>>,
    jobs: &mut [ClientJob<S>],
) -> Result<(), AllocError>
    requires { length jobs.old ≤ length passes.old.items }
{
    for place in (0..jobs.len()).rev() {
        let Some(pass) = passes.pop() else {
            unreachable!()
        };
        push_last(pass, &mut jobs[place].passes)?;
    }
    Ok(())
}
