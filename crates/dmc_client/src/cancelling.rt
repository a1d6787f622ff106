//! Requests that are taken back out of a queue, in place.
ghost use Rattle.std.specs.Prelude.{◌≡◌, ◌<◌, ◌≤◌, ◌||◌, not, true, false, is_some, filter, take, None, Some};
ghost use Rattle.std.specs.List.{AllByRecursion};
ghost use Rattle.std.specs.VecDeque.{deque_len};
ghost use Rattle.dmc_client.specs.internal.Passed as passed;
ghost use Rattle.dmc_client.specs.internal.Passed.{all_passed, IsOfRecord};
ghost use Rattle.dmc_tag.specs.Cancel.{has_token, charges_of, fallen_request, befores_next, befores_after, staying};

use dmc_tag::cancel::{Before, Befores, Level, charges_of, no_charges};
use dmc_tag::plain::QueuedRequest;
use dmc_tag::spacing::Spacings;
use dmc_tag::tag::Tag;
use dmc_types::config::Counting;
use dmc_types::ids::Token;
use std::collections::VecDeque;

/// What becomes of the next request, if those with the token are taken back.
// A call, so that the loop over requests that stay as they are is short.
#[inline(never)]
pub fn pass<T: Tag>(
    befores: &mut Befores<T>,
    token: Token,
    counting: Counting,
    spacings: &Spacings<T>,
    request: &mut QueuedRequest<T>,
)
    ensures request { request.new ≡ fallen_request T.ops befores.old request.old }
    ensures next { befores.new ≡ befores_next T.ops (has_token token request.old) (charges_of T.ops counting (Some spacings.now) request.old.cost) befores.old request.old }
{
    if request.token == token {
        pass_cancelled(befores, counting, spacings, request);
        return;
    }
    befores.pass(false, no_charges(), request);
}

/// What becomes of the next request, which is taken back.
// A call, since few have the token: the others are passed with no charges.
#[inline(never)]
fn pass_cancelled<T: Tag>(
    befores: &mut Befores<T>,
    counting: Counting,
    spacings: &Spacings<T>,
    request: &mut QueuedRequest<T>,
)
    ensures request { request.new ≡ fallen_request T.ops befores.old request.old }
    ensures next { befores.new ≡ befores_next T.ops true (charges_of T.ops counting (Some spacings.now) request.old.cost) befores.old request.old }
{
    let charged = charges_of(counting, Some(*spacings), request.cost);
    befores.pass(true, charged, request);
}

/// Whether a tag stays as it is: the one before it did not fall, and is not of a cancelled request.
#[inline(always)]
fn leaves_tag<T: Tag>(before: Option<Before<T>>) -> bool
    ensures { result ≡ passed.leaves_tag T.ops before }
{
    match before {
        None => true,
        Some(before) => !before.cancelled && before.was.cmp(&before.level.tag).is_eq(),
    }
}

/// Whether the next request stays as it is.
#[inline(always)]
fn leaves_next<T: Tag>(befores: &Befores<T>) -> bool
    ensures { result ≡ passed.leaves_next T.ops befores.now }
{
    leaves_tag(befores.r) && leaves_tag(befores.l) && leaves_tag(befores.p)
}

/// What became of a tag that is as it was.
fn unfallen<T: Copy>(tag: T, slack: T) -> Before<T>
    ensures { result ≡ passed.unfallen tag slack }
{
    Before {
        was: tag,
        level: Level { tag, slack },
        cancelled: false,
    }
}

/// What became of the tags of a request that is as it was.
fn unchanged<T: Copy>(request: QueuedRequest<T>) -> Befores<T>
    ensures { result ≡ passed.unchanged request }
{
    let QueuedRequest { tags, slack, .. } = request;
    let r = match tags.r {
        None => None,
        Some(tag) => Some(unfallen(tag, slack.r)),
    };
    Befores {
        r,
        l: Some(unfallen(tags.l, slack.l)),
        p: Some(unfallen(tags.p, slack.p)),
    }
}

/// Notes what became of the tags of the request before an index, if those that stay as they are were passed over.
#[inline(never)]
fn note<T: Tag>(
    befores: &mut Befores<T>,
    leaves: bool,
    queue: &VecDeque<QueuedRequest<T>>,
    index: usize,
)
    requires { index ≤ deque_len queue.now }
    ensures { befores.new ≡ passed.noted leaves befores.old (take index queue.now.items) }
{
    if leaves && index > 0 {
        *befores = unchanged(queue[index - 1]);
    }
}

/// Whether a request may change: one before it fell or is cancelled, or it has the token itself.
#[inline(always)]
fn may_change<T: Tag>(leaves: bool, token: Token, request: &QueuedRequest<T>) -> bool
    ensures { result ≡ (not leaves || has_token token request.now) }
{
    !leaves || request.token == token
}

/// What becomes of each request, those with the token among them. Those that stay as they are are only passed over.
fn pass_all<T: Tag>(
    queue: &mut VecDeque<QueuedRequest<T>>,
    token: Token,
    counting: Counting,
    spacings: &Spacings<T>,
    befores: &mut Befores<T>,
)
    requires known { AllByRecursion (IsOfRecord T.ops (is_some spacings.now.r)) queue.old.items }
    requires reserved { is_some spacings.now.r ≡ false → befores.old.r ≡ None }
    ensures items { queue.new.items ≡ all_passed T.ops token (charges_of T.ops counting (Some spacings.now)) befores.old queue.old.items }
    ensures last { befores.new ≡ befores_after T.ops token (charges_of T.ops counting (Some spacings.now)) befores.old queue.old.items }
{
    let mut leaves = leaves_next(befores);
    for i in 0..queue.len() {
        if may_change(leaves, token, &queue[i]) {
            note(befores, leaves, queue, i);
            pass(befores, token, counting, spacings, &mut queue[i]);
            leaves = leaves_next(befores);
        }
    }
    note(befores, leaves, queue, queue.len());
}

/// Takes out the requests with the token.
fn remove<T: Tag>(queue: &mut VecDeque<QueuedRequest<T>>, token: Token)
    ensures { queue.new.items ≡ filter (λ r. not (has_token token r)) queue.old.items }
{
    let mut kept = 0;
    for i in 0..queue.len() {
        if queue[i].token != token {
            if kept < i {
                queue[kept] = queue[i];
            }
            kept += 1;
        }
    }
    queue.truncate(kept);
}

/// Takes back the requests with the token, after what became of the request before.
pub fn cancel_all<T: Tag>(
    queue: &mut VecDeque<QueuedRequest<T>>,
    token: Token,
    counting: Counting,
    spacings: &Spacings<T>,
    befores: &mut Befores<T>,
)
    requires known { AllByRecursion (IsOfRecord T.ops (is_some spacings.now.r)) queue.old.items }
    requires reserved { is_some spacings.now.r ≡ false → befores.old.r ≡ None }
    ensures items { queue.new.items ≡ staying T.ops token (charges_of T.ops counting (Some spacings.now)) befores.old queue.old.items }
    ensures last { befores.new ≡ befores_after T.ops token (charges_of T.ops counting (Some spacings.now)) befores.old queue.old.items }
{
    pass_all(queue, token, counting, spacings, befores);
    remove(queue, token);
}
