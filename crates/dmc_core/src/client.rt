//! A client of the cluster: its tracker, and what is under way between it and each server.
ghost use Rattle.std.specs.List.{list_any};
ghost use Rattle.std.specs.Prelude.{◌≡◌, ◌≢◌, ◌⊎◌, ◌-◌, ◌<◌, ◌≤◌, [], ◌∷◌, ◌++◌, drop, length, map, replicate, slice_get, slice_set, Err, IfOk, OnOk, IsTrue, ◌==◌};
ghost use Rattle.dmc_types.specs.Limits.{max_servers};
ghost use Rattle.dmc_tracker.specs.Numbers.{new_numbers};
ghost use Rattle.dmc_core.specs.Core.{ClientFollows, no_room, room_at, room_for};
ghost use Rattle.dmc_core.specs.Events.{stamp, response};
ghost use Rattle.dmc_core.specs.internal.Parts.{pair_of, room_of, KeepsGrants, KeepsRooms};
ghost use Rattle.dmc_core.specs.Run.{max_completions, no_pair, grants, pair_at, with_pair, with_flight, with_grants, without_first};

use crate::event::{CoreFault, CoreReply, Message};
use crate::pair::Pairing;
use dmc_tracker::tracker::ServiceTracker;
use dmc_types::config::{Counting, PhaseType};
use dmc_types::cost::Cost;
use dmc_types::ids::{ClientId, ServerId, Token};
use std::alloc::{AllocError, Global};
use std::marker::Model;

/// The most completions of a client.
const MAX_RUN_COMPLETIONS: u64 = 0xffff_ffff;

/// A client: its id, its tracker, and what is under way between it and server 0, 1, ..
#[derive(Drop)]
pub struct CoreClient {
    id: ClientId,
    tracker: ServiceTracker,
    pairs: Vec<Pairing>,
}

impl Model for CoreClient {
    ghost use Rattle.std.specs.Prelude.{map};
    ghost use Rattle.dmc_core.specs.Core.{Held};

    ghost Value = { Held };

    ghost use Rattle.dmc_core.specs.internal.Parts.{pair_of, room_of};

    ghost view = { λ c. record {
      id = c.id;
      tracker = c.tracker;
      pairs = map pair_of c.pairs.items;
      rooms = map room_of c.pairs.items;
    } };
}

impl CoreClient {
    /// A client of `servers` servers, with nothing counted and nothing under way.
    pub fn new(
        alloc: Global,
        id: ClientId,
        servers: u32,
        counting: Counting,
    ) -> Result<CoreClient, AllocError>
        requires some { 0 < servers }
        requires limit { servers ≤ max_servers }
        ensures { IfOk result (λ client. client ≡ record {
          id = id;
          tracker = new_numbers counting max_completions servers;
          pairs = replicate servers no_pair;
          rooms = replicate servers no_room;
        }) }
    {
        let Ok(tracker) = ServiceTracker::new(alloc, servers, MAX_RUN_COMPLETIONS, counting) else {
            return Err(AllocError);
        };
        Ok(CoreClient {
            id,
            tracker,
            pairs: no_pairs(alloc, servers as usize)?,
        })
    }

    /// Stamps a request to a server; the message is the last in flight. Refused `FlightFull`, `TrackFull`, `Memory`, in this
    /// order.
    pub fn stamp<T>(
        &mut self,
        server: ServerId,
        token: Token,
        cost: Cost,
    ) -> Result<CoreReply<T>, CoreFault>
        requires { server.0 < length self.old.pairs }
        ensures id { self.new.id ≡ self.old.id }
        ensures grants { KeepsGrants self.old.pairs self.new.pairs }
        ensures rooms { KeepsRooms self.old self.new }
        ensures follows { ClientFollows (λ counting c. stamp counting server token cost c) self.old self.new result }
    {
        let pair = &mut self.pairs[server.0 as usize];
        if pair.is_flight_full() {
            return Err(CoreFault::FlightFull);
        }
        self.tracker.can_stamp(server, cost)?;
        pair.reserve()?;
        let params = self.tracker.stamp_checked(server, cost);
        pair.send(Message { token, params });
        Ok(CoreReply::Stamped(params))
    }

    /// How many grants of a server in a phase wait for their responses.
    pub fn grant_count(&self, server: ServerId, phase: PhaseType) -> usize
        requires { server.0 < length self.now.pairs }
        ensures { result ≡ length (grants phase (pair_at server self.now.pairs)) }
    {
        self.pairs[server.0 as usize].grant_count(phase)
    }

    /// The first grant of this cost, of a server in a phase, no longer waits for its response, and the completion is counted.
    /// Refused `NoGrant`, `TrackFull`, in this order.
    pub fn respond<T>(
        &mut self,
        server: ServerId,
        phase: PhaseType,
        cost: Cost,
    ) -> Result<CoreReply<T>, CoreFault>
        requires { server.0 < length self.old.pairs }
        ensures id { self.new.id ≡ self.old.id }
        ensures pairs { OnOk result (self.new.pairs ≡ with_pair server
            (with_grants phase (without_first cost (grants phase (pair_at server self.old.pairs))) (pair_at server self.old.pairs)) self.old.pairs) }
        ensures rooms { KeepsRooms self.old self.new }
        ensures some { OnOk result (IsTrue (list_any (λ c. c == cost) (grants phase (pair_at server self.old.pairs)))) }
        ensures no_growth { result ≢ Err CoreFault.Memory }
        ensures follows { ClientFollows (λ counting c. response server phase cost c) self.old self.new result }
    {
        let pair = &mut self.pairs[server.0 as usize];
        let place = pair.grant_of(phase, cost).ok_or(CoreFault::NoGrant)?;
        self.tracker.track_resp(server, phase, cost)?;
        pair.end_grant(phase, place);
        Ok(CoreReply::Counted)
    }

    /// The costs of its completions, and of those in the constraint phase.
    pub fn completions(&self) -> (u64, u64)
        ensures { result ≡ (self.now.tracker.completions.delta, self.now.tracker.completions.rho) }
    {
        self.tracker.completions()
    }

    /// The oldest message in flight to a server.
    pub fn oldest(&self, server: ServerId) -> Option<Message>
        requires { server.0 < length self.now.pairs }
        ensures { result ≡ slice_get (pair_at server self.now.pairs).flight 0 }
    {
        self.pairs[server.0 as usize].oldest()
    }

    /// Takes out the oldest message in flight to a server.
    pub fn take_oldest(&mut self, server: ServerId)
        requires { server.0 < length self.old.pairs }
        ensures { self.new ≡ record self.old {
          pairs = with_pair server
              (with_flight (drop 1 (pair_at server self.old.pairs).flight) (pair_at server self.old.pairs)) self.old.pairs;
        } }
    {
        self.pairs[server.0 as usize].take_oldest();
    }

    /// A server granted a request in a phase, which waits for its response now.
    pub fn add_grant(&mut self, server: ServerId, phase: PhaseType, cost: Cost)
        requires within { server.0 < length self.old.pairs }
        ensures id { self.new.id ≡ self.old.id }
        ensures tracker { self.new.tracker ≡ self.old.tracker }
        ensures either { (self.new.pairs ≡ self.old.pairs) ⊎ (self.new.pairs ≡ with_pair server
            (with_grants phase (grants phase (pair_at server self.old.pairs) ++ cost ∷ []) (pair_at server self.old.pairs)) self.old.pairs) }
        ensures granted { length (grants phase (pair_at server self.old.pairs)) < room_for phase (room_at server self.old.rooms)
            → (self.new.pairs ≡ with_pair server
            (with_grants phase (grants phase (pair_at server self.old.pairs) ++ cost ∷ []) (pair_at server self.old.pairs)) self.old.pairs)
            × ((room_at server self.new.rooms).waiting ≡ (room_at server self.old.rooms).waiting - 1) }
        ensures as_much { (phase : PhaseType) → room_for phase (room_at server self.old.rooms) ≤ room_for phase (room_at server self.new.rooms) }
        ensures elsewhere { (other : ServerId) → (other.0 ≡ server.0 → ⊥) → room_at other self.new.rooms ≡ room_at other self.old.rooms }
    {
        self.pairs[server.0 as usize].add_grant(phase, cost);
    }

    /// The form of counting of its stamps.
    pub fn counting(&self) -> Counting
        ensures { result ≡ self.now.tracker.counting }
    {
        self.tracker.counting()
    }

    /// A server took out this number of the client's queued requests. They will not be granted.
    pub fn forget(&mut self, server: ServerId, count: u32)
        requires within { server.0 < length self.old.pairs }
        ensures { self.new ≡ record self.old {
          rooms = slice_set self.old.rooms server.0 (record (room_at server self.old.rooms) { waiting = (room_at server self.old.rooms).waiting - count });
        } }
    {
        self.pairs[server.0 as usize].forget(count);
    }
}

/// With nothing under way at any server.
fn no_pairs(alloc: Global, servers: usize) -> Result<Vec<Pairing>, AllocError>
    ensures pairs { IfOk result (λ pairs. map pair_of pairs.items ≡ replicate servers no_pair) }
    ensures rooms { IfOk result (λ pairs. map room_of pairs.items ≡ replicate servers no_room) }
{
    let mut pairs = Vec::with_capacity(alloc, servers)?;
    for _ in 0..servers {
        pairs.push(Pairing::new(alloc))?;
    }
    Ok(pairs)
}
