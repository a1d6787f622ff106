//! The desks of a cluster while they are opened.
ghost use Rattle.std.specs.Prelude.{◌≡◌, ◌+◌, ◌*◌, ◌<◌, ◌≤◌, ℕ, [], length, map, IfOk, OnOk};
ghost use Rattle.std.specs.List.{range_with_len};
ghost use Rattle.dmc_types.specs.Limits.{max_servers};
ghost use Rattle.dmc_ledger.specs.Bundles.{books_per_pair, client_side, server_side, new_server_side};
ghost use Rattle.dmc_book.specs.Opening.{IsNewDesk};
ghost use Rattle.dmc_driver_threads.specs.internal.Desks.{queue_of, queues_of, with_client, with_server};

use super::Opening;
use dmc_ledger::desk::{ClientDesk, ServerDesk, open_pair};
use dmc_ledger::mint::Mint;
use dmc_ledger::setup::Setup;
use dmc_types::ids::{ClientId, ServerId};
use std::alloc::{AllocError, Global};
use std::marker::Model;

/// A server's desks for the clients, as `open_pair` gave them.
#[derive(Drop)]
pub(crate) struct QueueDesks<S: Setup> {
    pub(crate) server: ServerId,
    pub(crate) desks: Vec<ClientDesk<S>>,
}

impl<S: Setup> Model for QueueDesks<S> {
    ghost use Rattle.std.specs.Prelude.{map};
    ghost use Rattle.std.specs.List.{AllByRecursion};
    ghost use Rattle.dmc_ledger.specs.Bundles.{client_side};
    ghost use Rattle.dmc_book.specs.Opening.{IsNewDesk};
    ghost use Rattle.dmc_driver_threads.specs.internal.Desks.{QueueDesksValue};

    ghost Value = { QueueDesksValue };

    ghost view = { λ d. record { server = d.server.0; clients = map (λ c. c.client) (map client_side d.desks.items) } };

    ghost invariant = { λ d. AllByRecursion (IsNewDesk d.server.0) (map client_side d.desks.items) };
}

impl<S: Setup> QueueDesks<S> {
    /// None yet, and room for this number.
    fn new(alloc: Global, server: ServerId, room: usize) -> Result<QueueDesks<S>, AllocError>
        ensures { IfOk result (λ made. made ≡ queue_of [] server.0) }
    {
        let desks = Vec::with_capacity(alloc, room)?;
        Ok(QueueDesks { server, desks })
    }

    /// Adds a desk.
    fn push(&mut self, desk: ClientDesk<S>) -> Result<(), AllocError>
        requires { IsNewDesk self.old.server (client_side desk) }
        ensures { OnOk result (self.new ≡ with_client desk.client.0 self.old) }
    {
        self.desks.push(desk)?;
        Ok(())
    }
}

/// A client's desks for servers 0, 1, .., as `open_pair` gave them.
#[derive(Drop)]
pub(crate) struct TrackerDesks<S: Setup> {
    pub(crate) client: ClientId,
    pub(crate) desks: Vec<ServerDesk<S>>,
}

impl<S: Setup> Model for TrackerDesks<S> {
    ghost use Rattle.std.specs.Prelude.{length, map};
    ghost use Rattle.dmc_ledger.specs.Bundles.{server_side};
    ghost use Rattle.dmc_tlock.specs.Opening.{AreNew};
    ghost use Rattle.dmc_driver_threads.specs.internal.Desks.{TrackerDesksValue};

    ghost Value = { TrackerDesksValue };

    ghost view = { λ d. record { client = d.client.0; servers = length d.desks.items } };

    ghost invariant = { λ d. AreNew d.client.0 (map server_side d.desks.items) };
}

impl<S: Setup> TrackerDesks<S> {
    /// None yet, and room for this number.
    fn new(alloc: Global, client: ClientId, room: usize) -> Result<TrackerDesks<S>, AllocError>
        ensures { IfOk result (λ made. made ≡ record { client = client.0; servers = 0 }) }
    {
        let desks = Vec::with_capacity(alloc, room)?;
        Ok(TrackerDesks { client, desks })
    }

    /// One more, for the next server.
    fn push(&mut self, desk: ServerDesk<S>) -> Result<(), AllocError>
        requires { (n : ℕ) × (server_side desk ≡ new_server_side self.old.client self.old.servers n) }
        ensures { OnOk result (self.new ≡ with_server self.old) }
    {
        self.desks.push(desk)?;
        Ok(())
    }
}

impl<'a> Opening<'a> {
    /// The desks of each server, none yet, and room for those of all clients.
    pub(super) fn no_desks<S: Setup>(&self) -> Result<Vec<QueueDesks<S>>, AllocError>
        ensures queues { IfOk result (λ queues. queues.items ≡ queues_of self.now.scene.now.servers []) }
        ensures some { OnOk result (0 < self.now.scene.now.servers) }
        ensures few { OnOk result (self.now.scene.now.servers ≤ max_servers) }
    {
        let clients = self.scene.clients().len();
        let mut queues = Vec::with_capacity(self.alloc, self.scene.servers() as usize)?;
        for server in 0..self.scene.servers() {
            let queue = QueueDesks::new(self.alloc, ServerId(server), clients)?;
            queues.push(queue)?;
        }
        Ok(queues)
    }
}

/// The desks of a client at each server. The servers are 0, 1, .. in order.
pub(crate) fn open_pairs<S: Setup>(
    alloc: Global,
    mint: &mut Mint<S>,
    client: ClientId,
    queues: &mut [QueueDesks<S>],
) -> Result<TrackerDesks<S>, AllocError>
    requires servers { map (λ q. q.server) queues.old ≡ range_with_len 0 (length queues.old) }
    requires left { books_per_pair * length queues.old ≤ mint.old.left }
    ensures queues { OnOk result (queues.new ≡ map (with_client client.0) queues.old) }
    ensures sides { IfOk result (λ sides. sides ≡ record { client = client.0; servers = length queues.old }) }
    ensures left { OnOk result (mint.new.left + books_per_pair * length queues.old ≡ mint.old.left) }
{
    let mut sides = TrackerDesks::new(alloc, client, queues.len())?;
    for queue in queues.iter_mut() {
        open_next(mint, queue, &mut sides)?;
    }
    Ok(sides)
}

/// The desks of a client at the next server.
fn open_next<S: Setup>(
    mint: &mut Mint<S>,
    queue: &mut QueueDesks<S>,
    sides: &mut TrackerDesks<S>,
) -> Result<(), AllocError>
    requires server { queue.old.server ≡ sides.old.servers }
    requires left { books_per_pair ≤ mint.old.left }
    ensures queue { OnOk result (queue.new ≡ with_client sides.old.client queue.old) }
    ensures sides { OnOk result (sides.new ≡ with_server sides.old) }
    ensures left { OnOk result (mint.new.left + books_per_pair ≡ mint.old.left) }
{
    let Ok((desk, side)) = open_pair(mint, sides.client, queue.server) else {
        unreachable!()
    };
    queue.push(desk)?;
    sides.push(side)?;
    Ok(())
}
