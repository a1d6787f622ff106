//! Assignment: the tags of a new request.
ghost use Rattle.std.specs.Prelude.{◌≡◌};
ghost use Rattle.dmc_tag.specs.Outcome.{in_range};
ghost use Rattle.dmc_tag.specs.Rules as rules_of;

use crate::plain::{Previous, Slack};
use crate::reply::Tags;
use crate::spacing::Spacings;
use crate::tag::Tag;
use dmc_types::moment::Moment;
use dmc_types::params::ReqParams;

/// One tag's step: max(previous + k*spacing, floor). `None` if a sum is no value (mClock's Algorithm 1, with dmClock's counts).
pub fn next_tag<T: Tag>(previous: T, k: u32, spacing: T, floor: T) -> Option<T>
    ensures { in_range result ≡ rules_of.next_tag T.ops previous k spacing floor }
{
    let sum = previous.plus(spacing.steps(k)?)?;
    Some(sum.max(floor))
}

/// The tags of a request that arrives at t, after the previous tags. `floor` is what P is compared with: t by the clock, how far
/// the service has come in virtual time. `None` if a sum is no value. Without a reservation there is no R.
pub fn next_tags<T: Tag>(
    spacings: &Spacings<T>,
    previous: &Previous<T>,
    params: ReqParams,
    t: T,
    floor: T,
) -> Option<Tags<T>>
    ensures { in_range result ≡ rules_of.next_tags T.ops spacings.now previous.now params t floor }
{
    let r = match spacings.r {
        None => None,
        Some(spacing) => Some(next_tag(previous.r, params.rho(), spacing, t)?),
    };
    let l = next_tag(previous.l, params.delta(), spacings.l, t)?;
    let p = next_tag(previous.p, params.delta(), spacings.p, floor)?;
    Some(Tags { r, l, p })
}

/// Before the first request all is 0.
pub fn no_previous<T: Tag>() -> Previous<T>
    ensures { result ≡ rules_of.no_previous T.ops }
{
    let zero = T::of_moment(Moment::zero());
    Previous {
        r: zero,
        l: zero,
        p: zero,
        slack: Slack {
            r: zero,
            l: zero,
            p: zero,
        },
        cancelled: false,
    }
}

/// A tag less another, or nothing if that is no value.
pub fn above<T: Tag>(tag: T, floor: T) -> T
    ensures { result ≡ rules_of.above T.ops tag floor }
{
    tag.minus(floor).unwrap_or(T::of_moment(Moment::zero()))
}

/// The slack of a tag. Behind a cancelled request it is at most what that had left.
pub fn slack_behind<T: Tag>(cancelled: bool, left: T, slack: T) -> T
    ensures { result ≡ rules_of.slack_behind T.ops cancelled left slack }
{
    if cancelled {
        return left.min(slack);
    }
    slack
}

/// The slack of each tag of a request that arrives at t, after the previous tags. `floor` is what its P was compared with
/// (extension).
pub fn slack_of<T: Tag>(previous: &Previous<T>, tags: Tags<T>, t: T, floor: T) -> Slack<T>
    ensures { result ≡ rules_of.slack_of T.ops previous.now tags t floor }
{
    let Previous {
        slack,
        cancelled,
        ..
    } = *previous;
    let r = match tags.r {
        None => slack.r,
        Some(r) => slack_behind(cancelled, slack.r, above(r, t)),
    };
    Slack {
        r,
        l: slack_behind(cancelled, slack.l, above(tags.l, t)),
        p: slack_behind(cancelled, slack.p, above(tags.p, floor)),
    }
}

/// The previous tags after a request with these tags and this slack. Without an R, the previous R stays.
pub fn previous_after<T: Copy>(tags: Tags<T>, slack: Slack<T>, previous: Previous<T>) -> Previous<T>
    ensures { result ≡ rules_of.previous_after tags slack previous }
{
    Previous {
        r: tags.r.unwrap_or(previous.r),
        l: tags.l,
        p: tags.p,
        slack,
        cancelled: false,
    }
}
