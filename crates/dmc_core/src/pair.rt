//! What is under way between a client and a server.
ghost use Rattle.std.specs.Prelude.{◌≡◌, ◌==◌, ◌+◌, ◌-◌, ◌<◌, ◌≤◌, ◌∷◌, ◌++◌, [], drop, slice_get, nat_le, length, position, OnOk};
ghost use Rattle.std.specs.List.{remove};
ghost use Rattle.dmc_core.specs.Core.{no_room, room_for};
ghost use Rattle.dmc_core.specs.internal.Parts.{pair_of, room_of, HasMessageRoom, IsOneMore};
ghost use Rattle.dmc_core.specs.Run.{no_pair, with_flight, grants, with_grants, max_in_flight};

use crate::event::Message;
use crate::flight::Flight;
use dmc_types::config::PhaseType;
use dmc_types::cost::Cost;
use std::alloc::{AllocError, Global};

/// The most messages in flight.
const MAX_IN_FLIGHT: usize = 1 << 20;

/// What is under way between a client and a server. Each request has room as a grant of either phase from its stamp on, so that no
/// grant needs memory.
#[derive(Drop)]
pub struct Pairing {
    /// The costs of the grants in the constraint phase that wait for their responses, in the order of the grants.
    pub reservation: Vec<Cost>,
    /// Those in the weight phase.
    pub priority: Vec<Cost>,
    /// Messages that were stamped and have not yet arrived, oldest first.
    pub flight: Flight,
    /// How many requests may still be granted: those in flight and those queued.
    pub waiting: usize,
}

impl Pairing {
    /// Nothing is under way.
    pub fn new(alloc: Global) -> Pairing
        ensures pair { pair_of result ≡ no_pair }
        ensures room { room_of result ≡ no_room }
    {
        Pairing {
            reservation: Vec::new(alloc),
            priority: Vec::new(alloc),
            flight: Flight::new(alloc),
            waiting: 0,
        }
    }

    /// Whether no further message may be sent.
    pub fn is_flight_full(&self) -> bool
        ensures { result ≡ nat_le max_in_flight (length (pair_of self.now).flight) }
    {
        self.flight.len() >= MAX_IN_FLIGHT
    }

    /// Makes room for one more message, and for its request as a grant.
    pub fn reserve(&mut self) -> Result<(), AllocError>
        ensures same { pair_of self.new ≡ pair_of self.old }
        ensures waiting { self.new.waiting ≡ self.old.waiting }
        ensures as_much { (phase : PhaseType) → room_for phase (room_of self.old) ≤ room_for phase (room_of self.new) }
        ensures room { OnOk result (HasMessageRoom self.new) }
    {
        let waiting = self.waiting.checked_add(1).ok_or(AllocError)?;
        self.reservation.reserve(waiting)?;
        self.priority.reserve(waiting)?;
        self.flight.reserve()
    }

    /// Puts a message behind the others, in the room that was made.
    pub fn send(&mut self, message: Message)
        requires { HasMessageRoom self.old }
        ensures pair { pair_of self.new ≡ with_flight ((pair_of self.old).flight ++ message ∷ []) (pair_of self.old) }
        ensures room { room_of self.new ≡ record (room_of self.old) { waiting = self.old.waiting + 1 } }
    {
        self.flight.send(message);
        self.waiting += 1;
    }

    /// The oldest message in flight.
    pub fn oldest(&self) -> Option<Message>
        ensures { result ≡ slice_get (pair_of self.now).flight 0 }
    {
        self.flight.oldest
    }

    /// Takes out the oldest message, whose request is queued now.
    pub fn take_oldest(&mut self)
        ensures pair { pair_of self.new ≡ with_flight (drop 1 (pair_of self.old).flight) (pair_of self.old) }
        ensures room { room_of self.new ≡ room_of self.old }
    {
        self.flight.take_oldest();
    }

    /// The costs of the grants of a phase that wait for their responses.
    fn grants(&self, phase: PhaseType) -> &Vec<Cost>
        ensures { result.now.items ≡ grants phase (pair_of self.now) }
    {
        match phase {
            PhaseType::Reservation => &self.reservation,
            PhaseType::Priority => &self.priority,
        }
    }

    /// How many grants of a phase wait for their responses.
    pub fn grant_count(&self, phase: PhaseType) -> usize
        ensures { result ≡ length (grants phase (pair_of self.now)) }
    {
        self.grants(phase).len()
    }

    /// A request that was queued is granted. Its room was made when it was stamped.
    pub fn add_grant(&mut self, phase: PhaseType, cost: Cost)
        ensures flight { (pair_of self.new).flight ≡ (pair_of self.old).flight }
        ensures either { IsOneMore phase cost (pair_of self.old) (pair_of self.new) }
        ensures granted { length (grants phase (pair_of self.old)) < room_for phase (room_of self.old)
            → (pair_of self.new ≡ with_grants phase (grants phase (pair_of self.old) ++ cost ∷ []) (pair_of self.old))
            × (self.new.waiting ≡ self.old.waiting - 1) }
        ensures as_much { (phase : PhaseType) → room_for phase (room_of self.old) ≤ room_for phase (room_of self.new) }
    {
        let pushed = match phase {
            PhaseType::Reservation => self.reservation.push(cost),
            PhaseType::Priority => self.priority.push(cost),
        };
        if pushed.is_ok() {
            self.waiting = self.waiting.saturating_sub(1);
        }
    }

    /// The place of the first grant of this cost and phase that waits for its response.
    pub fn grant_of(&self, phase: PhaseType, cost: Cost) -> Option<usize>
        ensures { result ≡ position (λ c. c == cost) (grants phase (pair_of self.now)) }
    {
        self.grants(phase).iter().position(|other| *other == cost)
    }

    /// The grant at a place of those of a phase no longer waits.
    pub fn end_grant(&mut self, phase: PhaseType, place: usize)
        requires { place < length (grants phase (pair_of self.old)) }
        ensures pair { pair_of self.new ≡ with_grants phase (remove (grants phase (pair_of self.old)) place) (pair_of self.old) }
        ensures room { room_of self.new ≡ room_of self.old }
    {
        match phase {
            PhaseType::Reservation => self.reservation.remove(place),
            PhaseType::Priority => self.priority.remove(place),
        };
    }

    /// This number of requests that were queued will not be granted.
    pub fn forget(&mut self, count: u32)
        ensures pair { pair_of self.new ≡ pair_of self.old }
        ensures room { room_of self.new ≡ record (room_of self.old) { waiting = self.old.waiting - count } }
    {
        self.waiting = self.waiting.saturating_sub(count as usize);
    }
}
