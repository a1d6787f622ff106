//! If a client is among names.
ghost use Rattle.std.specs.Prelude.{◌≡◌, ◌↔◌, IsTrue, Some, slice_get};
ghost use Rattle.dmc_book.specs.Moves.{place_of};

use dmc_types::ids::ClientId;
use indexmap::IndexSet;
use std::cell::Cell;

/// Whether a client is at an index.
fn is_at(names: &[ClientId], place: usize, client: ClientId) -> bool
    ensures { IsTrue result ↔ (slice_get names.now place ≡ Some client) }
{
    names.get(place) == Some(&client)
}

/// The place of a client: looked for at a place first, if it often is, and else by its hash.
pub(crate) fn place_with_hint(
    names: &IndexSet<ClientId>,
    hint: usize,
    client: ClientId,
) -> Option<usize>
    ensures { result ≡ place_of client.0 names.now.keys }
{
    if is_at(names.as_slice(), hint, client) {
        return Some(hint);
    }
    names.get_index_of(&client)
}

/// The place of a client: where one was found last, or at the place after it, and else by its hash. It is then where one was
/// found last.
pub(crate) fn place_recent(
    names: &IndexSet<ClientId>,
    recent: &Cell<usize>,
    client: ClientId,
) -> Option<usize>
    ensures { result ≡ place_of client.0 names.now.keys }
{
    let last = recent.get();
    if is_at(names.as_slice(), last, client) {
        return Some(last);
    }
    let place = place_with_hint(names, last.wrapping_add(1), client)?;
    recent.set(place);
    Some(place)
}
