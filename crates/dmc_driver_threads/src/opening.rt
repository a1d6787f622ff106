//! All that a run needs, made before any of its threads.
ghost use Rattle.std.specs.Prelude.{◌≡◌, ◌*◌, ◌≤◌, [], ◌∷◌, ◌++◌, length, IfOk, OnOk};
ghost use Rattle.dmc_types.specs.Limits.{max_server_workers, max_servers};
ghost use Rattle.dmc_settle.specs.Reports.{AreRows};
ghost use Rattle.dmc_driver_threads.specs.Opened.{books_of};

mod clients;
mod desks;
mod registering;
mod servers;

use crate::cluster::Cluster;
use crate::limits::Limits;
use crate::origin::{AsOpened, Origin};
use crate::remains::{Remains, no_remains, reserve_of_clients, reserve_of_servers};
use crate::server_worker::ServerJob;
use crate::threads::Senders;
use clients::{no_senders, reserve_senders};
use dmc_book::book::QueueBook;
use dmc_index::index::Indexes;
use dmc_ledger::mint::Mint;
use dmc_scene::scene::Scene;
use dmc_shared::witness::{Lasting, Witness};
use dmc_tag::tag::Tag;
use indexmap::IndexSet;
use std::alloc::{AllocError, Global};

/// The workers of a run, what they share, and room for what they leave.
#[derive(Drop)]
pub(crate) struct Opened<T: Tag, B: Lasting, W: Witness<B>, S: Origin> {
    pub(crate) cluster: Cluster<B, W, S>,
    /// The clients' workers.
    pub(crate) senders: Senders<S>,
    /// The servers' workers.
    pub(crate) servers: Vec<ServerJob<S>>,
    pub(crate) remains: Remains<T, B, S>,
}

/// What a run is opened from.
#[derive(Drop)]
struct Opening<'a> {
    alloc: Global,
    scene: &'a Scene,
    limits: Limits,
}

/// Opens the clients and servers of a scene, and registers each client at each server.
pub(crate) fn open<T: Tag, I: Indexes<T>, S: Origin>(
    alloc: Global,
    mint: &mut Mint<S>,
    scene: &Scene,
    limits: Limits,
) -> Result<Opened<T, QueueBook<T, I, S>, AsOpened<S>, S>, AllocError>
    requires scene { S.scene ≡ scene.now }
    requires limits { S.limits ≡ limits }
    requires numbers { books_of scene.now ≤ mint.old.left }
    ensures rows { IfOk result (λ opened. AreRows S.scene opened.remains.report) }
    ensures queues { IfOk result (λ opened. length opened.cluster.queues.items ≡ S.scene.servers) }
    ensures trackers { IfOk result (λ opened. length opened.cluster.trackers.items ≡ length S.scene.clients) }
{
    let opening = Opening {
        alloc,
        scene,
        limits,
    };
    let mut opened = opening.none_opened()?;
    match opening.open_all(mint, &mut opened) {
        Ok(()) => Ok(opened),
        Err(error) => {
            drop(opened);
            Err(error)
        }
    }
}

impl<'a> Opening<'a> {
    /// No client and no server yet, with room for the clients' ids.
    fn none_opened<T: Tag, B: Lasting, W: Witness<B>, S: Origin>(
        &self,
    ) -> Result<Opened<T, B, W, S>, AllocError>
        ensures queues { IfOk result (λ opened. length opened.cluster.queues.items ≡ 0) }
        ensures trackers { IfOk result (λ opened. length opened.cluster.trackers.items ≡ 0) }
        ensures jobs { IfOk result (λ opened. opened.senders.jobs.items ≡ []) }
        ensures clients { IfOk result (λ opened. opened.remains.report.clients.items ≡ []) }
        ensures servers { IfOk result (λ opened. opened.remains.report.servers.items ≡ []) }
    {
        let alloc = self.alloc;
        let ids = IndexSet::with_capacity(alloc, self.scene.clients().len())?;
        Ok(Opened {
            cluster: Cluster {
                queues: Vec::new(alloc),
                trackers: Vec::new(alloc),
                ids,
                max_pulls: self.scene.max_pulls(),
            },
            senders: no_senders(alloc),
            servers: Vec::new(alloc),
            remains: no_remains(alloc),
        })
    }

    /// Opens the clients, and then the servers.
    fn open_all<T: Tag, I: Indexes<T>, S: Origin>(
        &self,
        mint: &mut Mint<S>,
        opened: &mut Opened<T, QueueBook<T, I, S>, AsOpened<S>, S>,
    ) -> Result<(), AllocError>
        requires scene { S.scene ≡ self.now.scene.now }
        requires limits { S.limits ≡ self.now.limits }
        requires numbers { books_of self.now.scene.now ≤ mint.old.left }
        requires queues { length opened.old.cluster.queues.items ≡ 0 }
        requires trackers { length opened.old.cluster.trackers.items ≡ 0 }
        requires jobs { opened.old.senders.jobs.items ≡ [] }
        requires clients { opened.old.remains.report.clients.items ≡ [] }
        requires servers { opened.old.remains.report.servers.items ≡ [] }
        ensures rows { OnOk result (AreRows self.now.scene.now opened.new.remains.report) }
        ensures queues { OnOk result (length opened.new.cluster.queues.items ≡ self.now.scene.now.servers) }
        ensures trackers { OnOk result (length opened.new.cluster.trackers.items ≡ length self.now.scene.now.clients) }
    {
        self.reserve_all(opened)?;
        self.add_rows(&mut opened.remains.report.clients)?;
        let mut desks = self.no_desks()?;
        self.open_clients(mint, &mut desks, &mut opened.cluster, &mut opened.senders)?;
        self.open_servers(mint, desks, opened)?;
        Ok(())
    }

    /// Makes room for the clients and the servers.
    fn reserve_all<T: Tag, B: Lasting, W: Witness<B>, S: Origin>(
        &self,
        opened: &mut Opened<T, B, W, S>,
    ) -> Result<(), AllocError>
        ensures queues { OnOk result (length opened.new.cluster.queues.items ≡ length opened.old.cluster.queues.items) }
        ensures trackers { OnOk result (length opened.new.cluster.trackers.items ≡ length opened.old.cluster.trackers.items) }
        ensures jobs { OnOk result (opened.new.senders.jobs.items ≡ opened.old.senders.jobs.items) }
        ensures clients { OnOk result (opened.new.remains.report.clients.items ≡ opened.old.remains.report.clients.items) }
        ensures servers { OnOk result (opened.new.remains.report.servers.items ≡ opened.old.remains.report.servers.items) }
    {
        let clients = self.scene.clients().len();
        let servers = self.scene.servers() as usize;
        reserve_locks(clients, servers, &mut opened.cluster)?;
        reserve_senders(clients, &mut opened.senders)?;
        opened.servers.reserve_exact(self.server_workers())?;
        reserve_of_clients(clients, &mut opened.remains)?;
        reserve_of_servers(servers, &mut opened.remains)
    }

    /// How many workers the servers have.
    fn server_workers(&self) -> usize
        ensures { result ≤ max_servers * max_server_workers }
    {
        (self.scene.servers() * self.scene.workers()) as usize
    }
}

/// Makes room for this number of trackers and queues.
fn reserve_locks<B: Lasting, W: Witness<B>, S: Origin>(
    clients: usize,
    servers: usize,
    cluster: &mut Cluster<B, W, S>,
) -> Result<(), AllocError>
    ensures queues { OnOk result (length cluster.new.queues.items ≡ length cluster.old.queues.items) }
    ensures trackers { OnOk result (length cluster.new.trackers.items ≡ length cluster.old.trackers.items) }
{
    cluster.trackers.reserve_exact(clients)?;
    cluster.queues.reserve_exact(servers)?;
    Ok(())
}

/// Puts one item more at the end. If there is no memory for it, it is dropped.
fn push_last<X: Drop>(item: X, items: &mut Vec<X>) -> Result<(), AllocError>
    ensures { OnOk result (items.new.items ≡ items.old.items ++ item ∷ []) }
{
    items.push(item)?;
    Ok(())
}
