//! Searches among clients.
ghost use Rattle.std.specs.Prelude.{◌≡◌, ◌<◌, ◌≤◌, length, IfSome, slice_get};
ghost use Rattle.std.specs.List.{list_all};
ghost use Rattle.std.specs.Option.{option_and_then};
ghost use Rattle.dmc_types.specs.Limits.{max_requests};
ghost use Rattle.dmc_tag.specs.State as state;
ghost use Rattle.dmc_tag.specs.Rules as rules_of;

use crate::client::Client;
use dmc_tag::tag::Tag;
use dmc_types::ids::ClientId;

/// The index of the client of this id.
pub fn index_of<T>(clients: &[Client<T>], id: ClientId) -> Option<usize>
    ensures client { option_and_then (slice_get clients.now) result ≡ state.client_named id clients.now }
    ensures bound { IfSome result (λ i. i < length clients.now) }
{
    for i in 0..clients.len() {
        if clients[i].id() == id {
            return Some(i);
        }
    }
    None
}

/// Whether each tag that a shift changes stays a value.
pub fn can_shift<T: Tag>(clients: &[Client<T>], amount: T) -> bool
    ensures { result ≡ list_all (rules_of.client_can_shift T.ops amount) clients.now }
{
    clients.iter().all(|client| client.can_shift(amount))
}

/// The number of queued requests of all clients.
pub fn count_requests<T>(clients: &[Client<T>]) -> usize
    requires { length (state.queued_requests clients.now) ≤ max_requests }
    ensures { result ≡ length (state.queued_requests clients.now) }
{
    let mut count: usize = 0;
    for client in clients {
        count += client.requests().len();
    }
    count
}
