//! Tests of a client's requests.
ghost use Rattle.std.specs.Prelude.{◌≡◌, ◌<◌, true, length, remove};
ghost use Rattle.std.specs.Option.{option_map_or};
ghost use Rattle.std.specs.List.{list_all};
ghost use Rattle.dmc_tag.specs.Rules as rules_of;
ghost use Rattle.dmc_plain.specs.internal.Reductions.{are_reducible};

use dmc_tag::plain::QueuedRequest;
use dmc_tag::shifting::has_less;
use dmc_tag::tag::Tag;

/// Whether each P tag less the amount is a value.
pub fn can_shift<T: Tag>(requests: &[QueuedRequest<T>], amount: T) -> bool
    ensures { result ≡ list_all (λ r. rules_of.has_less T.ops amount r.tags.p) requests.now }
{
    requests
        .iter()
        .all(|request| has_less(request.tags.p, amount))
}

/// Whether each R tag less the amount is a value.
fn can_reduce<T: Tag>(requests: &[QueuedRequest<T>], amount: T) -> bool
    ensures { result ≡ are_reducible T.ops amount requests.now }
{
    requests
        .iter()
        .all(|request| is_reducible(request.tags.r, amount))
}

/// Whether each R tag less the amount is a value, leaving one request out.
pub fn can_reduce_others<T: Tag>(requests: &[QueuedRequest<T>], index: usize, amount: T) -> bool
    requires { index < length requests.now }
    ensures { result ≡ are_reducible T.ops amount (remove requests.now index) }
{
    can_reduce(&requests[..index], amount) && can_reduce(&requests[index + 1..], amount)
}

/// Whether the tag, if there is one, less the amount is a value.
fn is_reducible<T: Tag>(tag: Option<T>, amount: T) -> bool
    ensures { result ≡ option_map_or (rules_of.has_less T.ops amount) tag true }
{
    match tag {
        None => true,
        Some(tag) => has_less(tag, amount),
    }
}
