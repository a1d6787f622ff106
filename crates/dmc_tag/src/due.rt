//! When a tag is due.
ghost use Rattle.std.specs.Prelude.{◌≡◌};
ghost use Rattle.dmc_tag.specs.Best as best_of;
ghost use Rattle.dmc_tag.specs.Rules as rules_of;
ghost use Rattle.dmc_types.specs.declared.config.AtLimit.TheVariants as limits;

use crate::tag::Tag;
use dmc_types::config::AtLimit;
use dmc_types::moment::Moment;

/// Whether there is a tag, and it is at or before the moment.
pub fn is_due<T: Tag>(tag: Option<T>, at: Moment) -> bool
    ensures { result ≡ best_of.is_due T.ops at tag }
{
    match tag {
        None => false,
        Some(tag) => !tag.cmp(&T::of_moment(at)).is_gt(),
    }
}

/// Whether a request with this L tag, which comes at a moment, would wait for its limit longer than the configuration allows
/// (extension: Ceph's `AtLimit::Reject`).
#[inline(always)]
pub fn is_over_limit<T: Tag>(at_limit: AtLimit, at: Moment, l: T) -> bool
    ensures { result ≡ rules_of.is_over_limit T.ops at_limit at l }
{
    match at_limit {
        AtLimit::Wait | AtLimit::Allow => false,
        AtLimit::Reject { threshold } => is_past(l, at, threshold),
    }
}

/// Whether a tag is past a moment by more than this many ticks.
fn is_past<T: Tag>(tag: T, at: Moment, ticks: u64) -> bool
    ensures { result ≡ rules_of.is_over_limit T.ops (limits.Reject ticks) at tag }
{
    tag.ceil() > i128::from(at.ticks()) + i128::from(ticks)
}
