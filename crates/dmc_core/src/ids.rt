//! The clients of a scene by their ids.
ghost use Rattle.std.specs.Prelude.{◌≡◌, ◌==◌, ◌<◌, AllPairs, IfOk, IfSome, Some, length, map, position, slice_get};
ghost use Rattle.dmc_scene.specs.SceneValue.{AreApart};

use dmc_scene::client::SceneClient;
use dmc_types::ids::ClientId;
use indexmap::IndexSet;
use std::alloc::{AllocError, Global};
use std::marker::Model;

/// An odd number whose products have their high bits far apart, for ids that are close together and for ids that are evenly
/// spaced.
const SPREAD: u32 = 0x9E37_79B1;

/// The ids of a scene's clients, in the scene's order.
///
/// Each event of a cluster looks for a client. So a table has for each id, by a product of it, the place of a client that may be
/// the one: that place is looked at first, and an id is hashed only if another is there.
#[derive(Drop)]
pub struct ClientIds {
    ids: IndexSet<ClientId>,
    // Places that may be those of the ids that have these slots.
    hints: Vec<u32>,
}

impl Model for ClientIds {
    ghost use Rattle.std.specs.Prelude.{List};
    ghost use Rattle.dmc_types.specs.declared.ids.ClientId.{ClientId};

    ghost Value = { List ClientId };

    ghost view = { λ c. c.ids.keys };
}

impl ClientIds {
    /// The ids of these clients. The error is a failed allocation.
    pub fn of_clients(alloc: Global, clients: &[SceneClient]) -> Result<ClientIds, AllocError>
        requires { AllPairs AreApart clients.now }
        ensures { IfOk result (λ ids. ids ≡ map (λ c. c.id) clients.now) }
    {
        let hints = hints_for(alloc, clients)?;
        let ids = ids_of(alloc, clients)?;
        Ok(ClientIds { ids, hints })
    }

    /// The place of a client, if there is one of this id.
    pub fn place(&self, client: ClientId) -> Option<usize>
        ensures index { result ≡ position (λ id. client.0 == id.0) self.now }
        ensures within { IfSome result (λ place. place < length self.now) }
    {
        let hint = hint_at(&self.hints, client);
        if let Some(place) = find_at(self.ids.as_slice(), hint, client) {
            return Some(place);
        }
        self.ids.get_index_of(&client)
    }
}

/// The ids of these clients, each of which is found by its hash.
fn ids_of(alloc: Global, clients: &[SceneClient]) -> Result<IndexSet<ClientId>, AllocError>
    requires { AllPairs AreApart clients.now }
    ensures { IfOk result (λ ids. ids.keys ≡ map (λ c. c.id) clients.now) }
{
    let mut ids = IndexSet::with_capacity(alloc, clients.len())?;
    for client in clients {
        ids.insert(client.id())?;
    }
    Ok(ids)
}

/// Looks for a client at a place.
fn find_at(ids: &[ClientId], place: usize, client: ClientId) -> Option<usize>
    ensures { IfSome result (λ found. slice_get ids.now found ≡ Some client) }
{
    if ids.get(place) == Some(&client) {
        return Some(place);
    }
    None
}

/// A table of hints for the ids of these clients, with some room between them. If two have one slot, the later one has it.
fn hints_for(alloc: Global, clients: &[SceneClient]) -> Result<Vec<u32>, AllocError> {
    let mut hints = vec![in alloc; 0; clients.len().saturating_mul(8)]?;
    for (place, client) in clients.iter().enumerate() {
        let slot = slot_of(client.id(), hints.len());
        if let Some(hint) = hints.get_mut(slot) {
            *hint = u32::try_from(place).unwrap_or(0);
        }
    }
    Ok(hints)
}

/// The place that the hints give for a client.
fn hint_at(hints: &[u32], client: ClientId) -> usize {
    match hints.get(slot_of(client, hints.len())) {
        Some(place) => *place as usize,
        None => 0,
    }
}

/// The slot of an id among this number of slots.
fn slot_of(client: ClientId, slots: usize) -> usize {
    let spread = u64::from(client.0.wrapping_mul(SPREAD));
    (spread.wrapping_mul(slots as u64) >> 32) as usize
}
