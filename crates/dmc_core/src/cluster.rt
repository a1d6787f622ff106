//! The cluster over any queue: the clients by their ids, and the servers.
ghost use Rattle.std.specs.Prelude.{◌≡◌, ℕ, ◌-◌, ◌<◌, ◌≤◌, List, length, map, position, slice_get, slice_set, option_copied, Some, None, IfOk, OnOk, IfErr, Err, option_map};
ghost use Rattle.std.specs.List.{find};
ghost use Rattle.dmc_pull.specs.Queue.{state_of};
ghost use Rattle.dmc_tag.specs.State.{is_client};
ghost use Rattle.dmc_core.specs.Core.{Held, Follows, completions_of, room_at, room_for};
ghost use Rattle.dmc_core.specs.internal.Serving.{IsServed};
ghost use Rattle.dmc_core.specs.declared.event.CoreEvent.{CoreEvent};
ghost use Rattle.dmc_core.specs.internal.Parts.{IsKept, IsGranted, place_of, full_counts};
ghost use Rattle.dmc_core.specs.Run.{grants, pair_at};
ghost use Rattle.dmc_core.specs.declared.event.CoreEvent.TheVariants as events;

use crate::client::CoreClient;
use crate::event::{CoreEvent, CoreFault, CoreReply};
use crate::ids::ClientIds;
use crate::server::CoreServer;
use dmc_index::index::Indexes;
use dmc_pull::queue::PullQueue;
use dmc_tag::reply::Reply;
use dmc_tag::scheduler::Scheduler;
use dmc_tag::tag::Tag;
use dmc_types::command::Command;
use dmc_types::config::PhaseType;
use dmc_types::cost::Cost;
use dmc_types::ids::{ClientId, ServerId, Token};
use dmc_types::moment::Moment;
use std::marker::Model;

/// The most grants of a server to a client in a phase that wait for their responses.
const MAX_GRANTS: usize = 0xffff_ffff;

/// The clients in the scene's order, found by their ids, and server 0, 1, ..
#[derive(Drop)]
pub struct Cluster<Q> {
    ids: ClientIds,
    clients: Vec<CoreClient>,
    servers: Vec<CoreServer<Q>>,
}

impl<Q> Model for Cluster<Q> {
    ghost use Rattle.std.specs.Prelude.{map};
    ghost use Rattle.dmc_core.specs.Core.{CoreValue};

    ghost Value = { CoreValue Q };

    ghost use Rattle.dmc_core.specs.internal.Parts.{IsKept};

    ghost view = { λ c. record { servers = map (λ s. s.queue) c.servers.items; clients = c.clients.items } };

    ghost invariant = { λ c. IsKept c.ids c.clients.items c.servers.items };
}

impl<Q> Cluster<Q> {
    /// The cluster of these clients and servers.
    pub fn of_parts(
        ids: ClientIds,
        clients: Vec<CoreClient>,
        servers: Vec<CoreServer<Q>>,
    ) -> Cluster<Q>
        requires { IsKept ids clients.items servers.items }
        ensures { result ≡ record { servers = map (λ s. s.queue) servers.items; clients = clients.items } }
    {
        Cluster {
            ids,
            clients,
            servers,
        }
    }

    /// The place of the client that an event at a server names; refused `NoClient`, `NoServer`, in this order.
    fn place(&self, client: ClientId, server: ServerId) -> Result<usize, CoreFault>
        ensures value { result ≡ place_of client server self.now }
        ensures within { IfOk result (λ place. place < length self.now.clients) }
        ensures server { OnOk result (server.0 < length self.now.servers) }
        ensures paired { IfOk result (λ place. (h : Held) → slice_get self.now.clients place ≡ Some h → server.0 < length h.pairs) }
    {
        let Some(place) = self.ids.place(client) else {
            return Err(CoreFault::NoClient);
        };
        if server.0 as usize >= self.servers.len() {
            return Err(CoreFault::NoServer);
        }
        Ok(place)
    }

    /// The queue of a server, if there is such a server.
    pub fn queue(&self, server: ServerId) -> Option<&Q>
        ensures { option_copied result ≡ slice_get self.now.servers server.0 }
    {
        let server = self.servers.get(server.0 as usize)?;
        Some(&server.queue)
    }

    /// The costs of a client's completions, and of those in the constraint phase.
    pub fn completions(&self, client: ClientId) -> Option<(u64, u64)>
        ensures { result ≡ option_map completions_of (find (λ h. is_client client h.id) self.now.clients) }
    {
        let place = self.ids.place(client)?;
        Some(self.clients[place].completions())
    }

    /// A client stamps a request to a server.
    pub fn stamp<T: Tag>(
        &mut self,
        client: ClientId,
        server: ServerId,
        token: Token,
        cost: Cost,
    ) -> Result<CoreReply<T>, CoreFault>
    where
        Q: Scheduler<T>,
        ensures { Follows T.ops Q.state (events.Stamp client server token cost) self.old self.new result }
    {
        let place = self.place(client, server)?;
        self.clients[place].stamp(server, token, cost)
    }

    /// The oldest message of a client to a server arrives at the server's queue. It stays in flight if the queue refuses it. As
    /// long as the queue has erased no client, the client has there the place that it has here.
    pub fn arrive<T: Tag>(
        &mut self,
        client: ClientId,
        server: ServerId,
        at: Moment,
    ) -> Result<CoreReply<T>, CoreFault>
    where
        Q: Scheduler<T>,
        ensures { Follows T.ops Q.state (events.Arrive client server at) self.old self.new result }
    {
        let place = self.place(client, server)?;
        let Some(message) = self.clients[place].oldest(server) else {
            return Err(CoreFault::NoFlight);
        };
        let reply = self.servers[server.0 as usize].add(place, client, message, at)?;
        if let Reply::Tagged(_) = reply {
            self.clients[place].take_oldest(server);
        }
        Ok(CoreReply::Served(reply))
    }

    /// A client counts the completion of a request that a server granted.
    pub fn respond<T: Tag>(
        &mut self,
        client: ClientId,
        server: ServerId,
        phase: PhaseType,
        cost: Cost,
    ) -> Result<CoreReply<T>, CoreFault>
    where
        Q: Scheduler<T>,
        ensures { Follows T.ops Q.state (events.Respond client server phase cost) self.old self.new result }
    {
        let place = self.place(client, server)?;
        let is_full = self.clients[place].grant_count(server, phase) == MAX_GRANTS;
        let reply = self.clients[place].respond(server, phase, cost)?;
        if is_full {
            self.servers[server.0 as usize].full -= 1;
        }
        Ok(reply)
    }

    /// The place of a server; refused `NoServer`.
    fn server(&self, server: ServerId) -> Result<usize, CoreFault>
        ensures ok { IfOk result (λ index. (index ≡ server.0) × (index < length self.now.servers)) }
        ensures err { IfErr result (λ fault. (fault ≡ CoreFault.NoServer) × (length self.now.servers ≤ server.0)) }
    {
        let index = server.0 as usize;
        if index >= self.servers.len() {
            return Err(CoreFault::NoServer);
        }
        Ok(index)
    }

    /// A server pulls. A grant waits for its response.
    pub fn pull<T: Tag>(&mut self, server: ServerId, at: Moment) -> Result<CoreReply<T>, CoreFault>
    where
        Q: Scheduler<T>,
        ensures { Follows T.ops Q.state (events.Pull server at) self.old self.new result }
    {
        let index = self.server(server)?;
        if self.servers[index].full > 0 {
            return Err(CoreFault::GrantsFull);
        }
        let reply = self.servers[index].pull(at);
        if let Reply::Granted {
            client,
            phase,
            cost,
            ..
        } = reply
        {
            self.add_grant(client, server, phase, cost);
        }
        Ok(CoreReply::Served(reply))
    }

    /// A grant of a server to a client waits for its response, in the room that was made when its request was stamped. None of the
    /// server's lists of grants is full.
    fn add_grant(&mut self, client: ClientId, server: ServerId, phase: PhaseType, cost: Cost)
        requires within { server.0 < length self.old.servers }
        requires room { full_counts server self.old.clients ≡ 0 }
        ensures servers { self.new.servers ≡ self.old.servers }
        ensures nobody { position (λ h. is_client client h.id) self.old.clients ≡ None → self.new.clients ≡ self.old.clients }
        ensures granted { (place : ℕ) (h : Held) → position (λ h. is_client client h.id) self.old.clients ≡ Some place → slice_get self.old.clients place ≡ Some h
            → length (grants phase (pair_at server h.pairs)) < room_for phase (room_at server h.rooms)
            → IsGranted server phase cost place h self.old.clients self.new.clients }
    {
        let Ok(place) = self.place(client, server) else {
            return;
        };
        self.clients[place].add_grant(server, phase, cost);
        if self.clients[place].grant_count(server, phase) == MAX_GRANTS {
            self.servers[server.0 as usize].full += 1;
        }
    }

    /// A server takes out a client's queued requests. They will not be granted.
    fn remove<T: Tag>(
        &mut self,
        server: ServerId,
        client: ClientId,
    ) -> Result<CoreReply<T>, CoreFault>
    where
        Q: Scheduler<T>,
        ensures { Follows T.ops Q.state (events.Remove server client) self.old self.new result }
    {
        let index = self.server(server)?;
        let reply = self.servers[index].serve(&Command::Remove { client })?;
        if let Reply::Removed(count) = reply {
            self.forget(client, server, count);
        }
        Ok(CoreReply::Served(reply))
    }

    /// A server took out this number of a client's queued requests.
    fn forget(&mut self, client: ClientId, server: ServerId, count: u32)
        requires within { server.0 < length self.old.servers }
        ensures servers { self.new.servers ≡ self.old.servers }
        ensures nobody { position (λ h. is_client client h.id) self.old.clients ≡ None → self.new.clients ≡ self.old.clients }
        ensures forgotten { (place : ℕ) (h : Held) → position (λ h. is_client client h.id) self.old.clients ≡ Some place → slice_get self.old.clients place ≡ Some h
            → self.new.clients ≡ slice_set self.old.clients place (record h {
              rooms = slice_set h.rooms server.0 (record (room_at server h.rooms) { waiting = (room_at server h.rooms).waiting - count });
            }) }
    {
        let Ok(place) = self.place(client, server) else {
            return;
        };
        self.clients[place].forget(server, count);
    }

    /// A server takes out a client's queued requests with a token, by the counting of the client's stamps. They will not be
    /// granted.
    fn cancel<T: Tag>(
        &mut self,
        server: ServerId,
        client: ClientId,
        token: Token,
    ) -> Result<CoreReply<T>, CoreFault>
    where
        Q: Scheduler<T>,
        ensures { Follows T.ops Q.state (events.Cancel server client token) self.old self.new result }
    {
        let place = self.place(client, server)?;
        let command = Command::Cancel {
            client,
            token,
            counting: self.clients[place].counting(),
        };
        let reply = self.servers[server.0 as usize].serve(&command)?;
        if let Reply::Removed(count) = reply {
            self.clients[place].forget(server, count);
        }
        Ok(CoreReply::Served(reply))
    }

    /// A server carries out a command that is an event of the cluster as it is: an update or a clean.
    fn serve<T: Tag>(
        &mut self,
        server: ServerId,
        command: &Command,
    ) -> Result<CoreReply<T>, CoreFault>
    where
        Q: Scheduler<T>,
        ensures { (event : CoreEvent) → IsServed server command.now event → Follows T.ops Q.state event self.old self.new result }
    {
        let index = self.server(server)?;
        let reply = self.servers[index].serve(command)?;
        Ok(CoreReply::Served(reply))
    }

    /// Carries out an event.
    #[inline(always)]
    pub fn step<T: Tag>(&mut self, event: CoreEvent) -> Result<CoreReply<T>, CoreFault>
    where
        Q: Scheduler<T>,
        ensures { Follows T.ops Q.state event self.old self.new result }
    {
        // Inlined: a caller that names its event keeps that arm alone.
        match event {
            CoreEvent::Stamp {
                client,
                server,
                token,
                cost,
            } => self.stamp(client, server, token, cost),
            CoreEvent::Arrive { client, server, at } => self.arrive(client, server, at),
            CoreEvent::Pull { server, at } => self.pull(server, at),
            CoreEvent::Respond {
                client,
                server,
                phase,
                cost,
            } => self.respond(client, server, phase, cost),
            CoreEvent::Update {
                server,
                client,
                info,
                at,
            } => self.serve(server, &Command::Update { client, info, at }),
            CoreEvent::Remove { server, client } => self.remove(server, client),
            CoreEvent::Cancel {
                server,
                client,
                token,
            } => self.cancel(server, client, token),
            CoreEvent::Clean { server, at } => self.serve(server, &Command::Clean { at }),
        }
    }
}

/// Over indexed queues.
impl<T: Tag, I: Indexes<T>> Cluster<PullQueue<T, I>> {
    /// Carries out an event.
    #[inline(always)]
    pub fn carry_out(&mut self, event: CoreEvent) -> Result<CoreReply<T>, CoreFault>
        ensures { Follows T.ops state_of event self.old self.new result }
    {
        self.step(event)
    }
}
