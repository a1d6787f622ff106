//! The best of a set of requests.
ghost use Rattle.std.specs.Prelude.{◌≡◌, ◌<◌, length, IfSome, Some, slice_get};
ghost use Rattle.std.specs.Option.{option_map, option_and_then};
ghost use Rattle.dmc_tag.specs.Best.{best, best_of_one, best_of_all, better_found, is_below};
ghost use Rattle.dmc_plain.specs.internal.Places.{found_at, place_found, IsPlace};
ghost use Rattle.dmc_plain.specs.internal.Sets.{members, tag_of, rank_of, one_found, beats, better_at};

use crate::client::Client;
use dmc_tag::due::is_due;
use dmc_tag::plain::QueuedRequest;
use dmc_tag::rank::{Rank, TagRank};
use dmc_tag::tag::Tag;
use dmc_types::moment::Moment;

/// A set of requests.
#[derive(Clone, Copy)]
pub enum Set {
    /// The requests whose R is at or before the moment, ordered by R.
    Early(Moment),
    /// The requests whose L is at or before the moment, ordered by P.
    Free(Moment),
    /// All requests, ordered by P.
    All,
}

/// Where a request is: the index of its client, and its own index among that client's requests.
#[derive(Clone, Copy)]
pub struct Place {
    pub client: usize,
    pub request: usize,
}

impl Set {
    /// Whether the request is a member.
    fn contains<T: Tag>(&self, request: &QueuedRequest<T>) -> bool
        ensures { result ≡ members T.ops self.now request.now }
    {
        match *self {
            Set::Early(at) => is_due(request.tags.r, at),
            Set::Free(at) => is_due(Some(request.tags.l), at),
            Set::All => true,
        }
    }

    /// The tag by which the set orders a request.
    fn tag<T: Tag>(&self, request: &QueuedRequest<T>) -> Option<T>
        ensures { result ≡ tag_of self.now request.now }
    {
        match *self {
            Set::Early(_) => request.tags.r,
            Set::Free(_) | Set::All => Some(request.tags.p),
        }
    }

    /// Whether the tag of one request is below another's.
    fn is_below<T: Tag>(&self, a: &QueuedRequest<T>, b: &QueuedRequest<T>) -> bool
        ensures { result ≡ is_below T.ops (tag_of self.now) a.now b.now }
    {
        match (self.tag(a), self.tag(b)) {
            (None, _) => false,
            (Some(_), None) => true,
            (Some(a), Some(b)) => a.cmp(&b).is_lt(),
        }
    }
}

/// The index of the best of the set among one client's requests. The scan goes from the back, so the first of equals is found.
fn best_index<T: Tag>(requests: &[QueuedRequest<T>], set: &Set) -> Option<usize>
    ensures found { one_found requests.now result ≡ best (is_below T.ops (tag_of set.now)) (members T.ops set.now) requests.now }
    ensures bound { IfSome result (λ i. i < length requests.now) }
{
    let mut found: Option<usize> = None;
    for i in (0..requests.len()).rev() {
        found = better_index(requests, set, found, i, &requests[i]);
    }
    found
}

/// The index i of a request, or the one that was found behind it if that is better.
fn better_index<T: Tag>(
    requests: &[QueuedRequest<T>],
    set: &Set,
    found: Option<usize>,
    i: usize,
    request: &QueuedRequest<T>,
) -> Option<usize>
    requires { IfSome found (λ j. j < length requests.now) }
    ensures { result ≡ better_at (is_below T.ops (tag_of set.now)) (members T.ops set.now) requests.now found i request.now }
{
    if set.contains(request) && !is_beaten(requests, set, found, request) {
        Some(i)
    } else {
        found
    }
}

/// Whether the request that was found is before another.
fn is_beaten<T: Tag>(
    requests: &[QueuedRequest<T>],
    set: &Set,
    found: Option<usize>,
    request: &QueuedRequest<T>,
) -> bool
    requires { IfSome found (λ j. j < length requests.now) }
    ensures { result ≡ beats (is_below T.ops (tag_of set.now)) requests.now found request.now }
{
    match found {
        None => false,
        Some(j) => set.is_below(&requests[j], request),
    }
}

/// The place of the best of the set. The scan goes from the back, so of equals that of the client which registered first is found.
pub fn best_place<T: Tag>(clients: &[Client<T>], set: &Set) -> Option<Place>
    ensures found { place_found clients.now result ≡ best_of_all T.ops (tag_of set.now) (members T.ops set.now) clients.now }
    ensures bound { IfSome result (IsPlace clients.now) }
{
    let mut found: Option<Place> = None;
    for i in (0..clients.len()).rev() {
        found = better_place(clients, set, found, i);
    }
    found
}

/// The place of the best of the client at i, or the one that was found behind it if that is better.
fn better_place<T: Tag>(
    clients: &[Client<T>],
    set: &Set,
    found: Option<Place>,
    i: usize,
) -> Option<Place>
    requires client { i < length clients.now }
    requires place { IfSome found (IsPlace clients.now) }
    ensures found { place_found clients.now result ≡ better_found T.ops (tag_of set.now) (option_and_then (best_of_one T.ops (tag_of set.now) (members T.ops set.now)) (slice_get clients.now i)) (place_found clients.now found) }
    ensures bound { IfSome result (IsPlace clients.now) }
{
    let Some(request) = best_index(clients[i].requests(), set) else {
        return found;
    };
    let place = Place { client: i, request };
    match found {
        None => Some(place),
        Some(other) => Some(earlier_place(clients, set, place, other)),
    }
}

/// Of two places that whose request is before the other's; the first, if neither is.
fn earlier_place<T: Tag>(clients: &[Client<T>], set: &Set, a: Place, b: Place) -> Place
    requires a { IsPlace clients.now a }
    requires b { IsPlace clients.now b }
    ensures found { found_at clients.now result ≡ better_found T.ops (tag_of set.now) (found_at clients.now a) (found_at clients.now b) }
    ensures bound { IsPlace clients.now result }
{
    if rank_at(clients, set, b).is_below(&rank_at(clients, set, a)) {
        b
    } else {
        a
    }
}

/// The rank by which the set orders the request at a place.
fn rank_at<T: Tag>(clients: &[Client<T>], set: &Set, place: Place) -> TagRank<T>
    requires { IsPlace clients.now place }
    ensures { option_map (rank_of set.now) (found_at clients.now place) ≡ Some result }
{
    let client = &clients[place.client];
    TagRank {
        tag: set.tag(&client.requests()[place.request]),
        client: client.id(),
    }
}
