//! A cancel of a client's requests.
ghost use Rattle.std.specs.Prelude.{◌≡◌, ◌≤◌, filter, length, not};
ghost use Rattle.dmc_tag.specs.Cancel as rules_of;
ghost use Rattle.dmc_plain.specs.internal.Passed.{passed};

use dmc_tag::cancel::{Befores, charges_of};
use dmc_tag::plain::QueuedRequest;
use dmc_tag::spacing::Spacings;
use dmc_tag::tag::Tag;
use dmc_types::config::Counting;
use dmc_types::ids::Token;

/// Whether the request has the token.
fn has_token<T>(request: &QueuedRequest<T>, token: Token) -> bool
    ensures { result ≡ rules_of.has_token token request.now }
{
    request.token == token
}

/// Whether the last request has the token.
pub fn is_last<T>(requests: &[QueuedRequest<T>], token: Token) -> bool
    ensures { result ≡ rules_of.last_has_token token requests.now }
{
    !requests.is_empty() && has_token(&requests[requests.len() - 1], token)
}

/// How many requests have the token.
pub fn count<T>(requests: &[QueuedRequest<T>], token: Token) -> usize
    ensures value { result ≡ length (filter (rules_of.has_token token) requests.now) }
    ensures bound { result ≤ length requests.now }
{
    let mut count: usize = 0;
    for request in requests {
        if has_token(request, token) {
            count += 1;
        }
    }
    count
}

/// Changes a request after what became of those before. One with the token was charged its cost by these spacings.
fn pass<T: Tag>(
    befores: &mut Befores<T>,
    request: &mut QueuedRequest<T>,
    token: Token,
    counting: Counting,
    spacings: Option<Spacings<T>>,
)
    ensures request { request.new ≡ rules_of.fallen_request T.ops befores.old request.old }
    ensures next { befores.new ≡ rules_of.befores_next T.ops (rules_of.has_token token request.old) (rules_of.charges_of T.ops counting spacings request.old.cost) befores.old request.old }
{
    let cancelled = has_token(request, token);
    let charged = charges_of(counting, spacings, request.cost);
    befores.pass(cancelled, charged, request);
}

/// Changes each request, from front to back, and returns what became of the last one's tags. Those with the token are still there.
fn pass_each<T: Tag>(
    requests: &mut [QueuedRequest<T>],
    token: Token,
    counting: Counting,
    spacings: Option<Spacings<T>>,
) -> Befores<T>
    ensures requests { requests.new ≡ passed T.ops token (rules_of.charges_of T.ops counting spacings) rules_of.no_befores requests.old }
    ensures last { result ≡ rules_of.befores_after T.ops token (rules_of.charges_of T.ops counting spacings) rules_of.no_befores requests.old }
{
    let mut befores = Befores::none();
    for request in requests.iter_mut() {
        pass(&mut befores, request, token, counting, spacings);
    }
    befores
}

/// Changes each request of a vector, as `pass_each` does.
fn pass_all<T: Tag>(
    requests: &mut Vec<QueuedRequest<T>>,
    token: Token,
    counting: Counting,
    spacings: Option<Spacings<T>>,
) -> Befores<T>
    ensures requests { requests.new.items ≡ passed T.ops token (rules_of.charges_of T.ops counting spacings) rules_of.no_befores requests.old.items }
    ensures last { result ≡ rules_of.befores_after T.ops token (rules_of.charges_of T.ops counting spacings) rules_of.no_befores requests.old.items }
{
    pass_each(requests, token, counting, spacings)
}

/// Removes the requests with the token.
fn remove<T: Drop>(requests: &mut Vec<QueuedRequest<T>>, token: Token)
    ensures { requests.new.items ≡ filter (λ r. not (rules_of.has_token token r)) requests.old.items }
{
    requests.retain(|request| !has_token(request, token));
}

/// Takes back the requests with the token. What they were charged by these spacings, under `Counting::Others`, is given back to
/// those that stay. Returns what became of the last one's tags.
pub fn take_back<T: Tag>(
    requests: &mut Vec<QueuedRequest<T>>,
    token: Token,
    counting: Counting,
    spacings: Option<Spacings<T>>,
) -> Befores<T>
    ensures requests { requests.new.items ≡ rules_of.staying T.ops token (rules_of.charges_of T.ops counting spacings) rules_of.no_befores requests.old.items }
    ensures last { result ≡ rules_of.befores_after T.ops token (rules_of.charges_of T.ops counting spacings) rules_of.no_befores requests.old.items }
{
    let befores = pass_all(requests, token, counting, spacings);
    remove(requests, token);
    befores
}
