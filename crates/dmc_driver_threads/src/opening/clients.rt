//! The clients of a run, opened: their trackers, doorbells and plans.
ghost use Rattle.std.specs.Prelude.{◌≡◌, ◌+◌, ◌*◌, ◌<◌, ◌≤◌, [], length, map, OnOk};
ghost use Rattle.std.specs.List.{range_with_len};
ghost use Rattle.dmc_types.specs.Limits.{max_servers};
ghost use Rattle.dmc_ledger.specs.Bundles.{books_per_pair};
ghost use Rattle.dmc_driver_threads.specs.internal.Desks.{ids_of, queues_of, with_client};

use super::desks::{QueueDesks, TrackerDesks, open_pairs};
use super::{Opening, push_last};
use crate::bell::{Doorbell, Ringer, hang_bell};
use crate::client_worker::ClientJob;
use crate::cluster::Cluster;
use crate::origin::{AsOpened, ClientLock, Origin};
use crate::threads::Senders;
use dmc_ledger::mint::Mint;
use dmc_ledger::setup::Setup;
use dmc_scene::client::SceneClient;
use dmc_settle::report::{ClientReport, StampsLeft, StopCause};
use dmc_shared::witness::{Lasting, Witness};
use dmc_tlock::book::TrackerBook;
use dmc_tlock::lock::LockedTracker;
use dmc_tlock::pass::ClientPass;
use dmc_tracker::tracker::MakeFault;
use dmc_types::ids::ClientId;
use dmc_work::plan::plan;
use std::alloc::{AllocError, Global};

/// No worker of a client yet.
pub(crate) fn no_senders<S: Setup>(alloc: Global) -> Senders<S>
    ensures { result.jobs.items ≡ [] }
{
    Senders {
        jobs: Vec::new(alloc),
        ringers: Vec::new(alloc),
    }
}

/// Makes room for the workers of this number of clients.
pub(crate) fn reserve_senders<S: Setup>(
    clients: usize,
    senders: &mut Senders<S>,
) -> Result<(), AllocError>
    ensures { OnOk result (senders.new.jobs.items ≡ senders.old.jobs.items) }
{
    senders.jobs.reserve_exact(clients)?;
    senders.ringers.reserve_exact(clients)?;
    Ok(())
}

impl<'a> Opening<'a> {
    /// A row for each client, in order.
    pub(super) fn add_rows(&self, rows: &mut Vec<ClientReport>) -> Result<(), AllocError>
        requires { rows.old.items ≡ [] }
        ensures { OnOk result (map (λ r. r.client) rows.new.items ≡ map (λ c. c.id) self.now.scene.now.clients) }
    {
        for client in self.scene.clients() {
            rows.push(new_row(client.id()))?;
        }
        Ok(())
    }

    /// Opens the clients in order, with a desk of each at each of these servers.
    pub(super) fn open_clients<B: Lasting, W: Witness<B>, S: Origin>(
        &self,
        mint: &mut Mint<S>,
        queues: &mut [QueueDesks<S>],
        cluster: &mut Cluster<B, W, S>,
        senders: &mut Senders<S>,
    ) -> Result<(), AllocError>
        requires scene { S.scene ≡ self.now.scene.now }
        requires limits { S.limits ≡ self.now.limits }
        requires queues { queues.old ≡ queues_of (length queues.old) [] }
        requires some { 0 < length queues.old }
        requires few { length queues.old ≤ max_servers }
        requires left { length self.now.scene.now.clients * (books_per_pair * length queues.old) ≤ mint.old.left }
        requires jobs { senders.old.jobs.items ≡ [] }
        ensures queues { OnOk result (queues.new ≡ queues_of (length queues.old) (ids_of self.now.scene.now.clients)) }
        ensures left { OnOk result (mint.new.left + length self.now.scene.now.clients * (books_per_pair * length queues.old) ≡ mint.old.left) }
        ensures jobs { OnOk result (length senders.new.jobs.items ≡ length self.now.scene.now.clients) }
        ensures queues_kept { OnOk result (length cluster.new.queues.items ≡ length cluster.old.queues.items) }
        ensures trackers { OnOk result
            (length cluster.new.trackers.items ≡ length cluster.old.trackers.items + length self.now.scene.now.clients) }
    {
        for client in self.scene.clients() {
            self.open_client(mint, *client, queues, cluster, senders)?;
        }
        Ok(())
    }

    /// The next client: its id, its desks, its tracker and its worker.
    fn open_client<B: Lasting, W: Witness<B>, S: Origin>(
        &self,
        mint: &mut Mint<S>,
        client: SceneClient,
        queues: &mut [QueueDesks<S>],
        cluster: &mut Cluster<B, W, S>,
        senders: &mut Senders<S>,
    ) -> Result<(), AllocError>
        requires scene { S.scene ≡ self.now.scene.now }
        requires limits { S.limits ≡ self.now.limits }
        requires servers { map (λ q. q.server) queues.old ≡ range_with_len 0 (length queues.old) }
        requires some { 0 < length queues.old }
        requires few { length queues.old ≤ max_servers }
        requires left { books_per_pair * length queues.old ≤ mint.old.left }
        ensures queues { OnOk result (queues.new ≡ map (with_client client.id.0) queues.old) }
        ensures left { OnOk result (mint.new.left + books_per_pair * length queues.old ≡ mint.old.left) }
        ensures jobs { OnOk result (length senders.new.jobs.items ≡ length senders.old.jobs.items + 1) }
        ensures queues_kept { OnOk result (length cluster.new.queues.items ≡ length cluster.old.queues.items) }
        ensures trackers { OnOk result (length cluster.new.trackers.items ≡ length cluster.old.trackers.items + 1) }
    {
        cluster.ids.insert(client.id())?;
        let desks = open_pairs(self.alloc, mint, client.id(), queues)?;
        let tills = self.open_tracker(desks, &mut cluster.trackers)?;
        self.open_sender(client, tills, senders)?;
        Ok(())
    }

    /// A client's tracker behind its lock, the next one, and the client's pass.
    fn open_tracker<S: Origin>(
        &self,
        desks: TrackerDesks<S>,
        trackers: &mut Vec<ClientLock<S>>,
    ) -> Result<ClientPass<S>, AllocError>
        requires scene { S.scene ≡ self.now.scene.now }
        requires limits { S.limits ≡ self.now.limits }
        requires some { 0 < desks.servers }
        requires few { desks.servers ≤ max_servers }
        ensures { OnOk result (length trackers.new.items ≡ length trackers.old.items + 1) }
    {
        let TrackerDesks { client, desks } = desks;
        let most = u64::from(self.limits.completions());
        let events = self.limits.events();
        let counting = self.scene.counting();
        match TrackerBook::new(self.alloc, client, desks, most, events, counting) {
            Ok((book, tills)) => {
                push_last(LockedTracker::with_witness(book, AsOpened::new()), trackers)?;
                Ok(tills)
            }
            Err(fault) => match fault.cause {
                MakeFault::Memory => Err(AllocError),
                MakeFault::Limit => unreachable!(),
            },
        }
    }

    /// The worker of the next client, with its doorbell, and a ringer at that door.
    fn open_sender<S: Setup>(
        &self,
        client: SceneClient,
        tills: ClientPass<S>,
        senders: &mut Senders<S>,
    ) -> Result<(), AllocError>
        ensures { OnOk result (length senders.new.jobs.items ≡ length senders.old.jobs.items + 1) }
    {
        let bell = open_bell(self.alloc, self.rings_of(client), &mut senders.ringers)?;
        let job = self.client_job(client, senders.jobs.len(), tills, bell)?;
        push_last(job, &mut senders.jobs)
    }

    /// The worker of the client at a place, with no pass yet.
    fn client_job<S: Setup>(
        &self,
        client: SceneClient,
        place: usize,
        tills: ClientPass<S>,
        bell: Doorbell,
    ) -> Result<ClientJob<S>, AllocError> {
        let scene = self.scene;
        let servers = scene.servers();
        let plan = plan(
            self.alloc,
            scene.seed(),
            client.id(),
            servers,
            client.requests(),
        )?;
        let passes = Vec::with_capacity(self.alloc, servers as usize)?;
        Ok(ClientJob {
            place,
            plan,
            client,
            tills,
            passes,
            bell,
            stop: Some(StopCause::Spawn),
        })
    }

    /// How many rings a client's doorbell has room for: its window, and one of each server's worker.
    fn rings_of(&self, client: SceneClient) -> usize
        ensures { 1 ≤ result }
    {
        client.window() as usize + self.server_workers()
    }
}

/// A doorbell with room for this number of rings, and one ringer more, at its door.
fn open_bell(alloc: Global, room: usize, ringers: &mut Vec<Ringer>) -> Result<Doorbell, AllocError>
    requires { 0 < room }
{
    let (ringer, bell) = hang_bell(alloc, room)?;
    push_last(ringer, ringers)?;
    Ok(bell)
}

/// A client that did nothing yet.
fn new_row(client: ClientId) -> ClientReport
    ensures { result.client ≡ client }
{
    ClientReport {
        client,
        sent: 0,
        completed: 0,
        cost: 0,
        failed: 0,
        held: StampsLeft::default(),
        stop: None,
    }
}
