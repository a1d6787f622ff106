//! Cancel: requests that are taken back give back what they were charged, if their stamps counted it (extension).
ghost use Rattle.std.specs.Prelude.{◌≡◌, false, Some, ⊤};
ghost use Rattle.std.specs.Option.{option_map, option_map_or};
ghost use Rattle.dmc_tag.specs.Cancel as rules_of;

use crate::assignment::{above, slack_behind};
use crate::plain::{Previous, QueuedRequest, Slack};
use crate::spacing::Spacings;
use crate::tag::Tag;
use dmc_types::config::Counting;
use dmc_types::cost::Cost;
use dmc_types::moment::Moment;
use std::alloc::AllocError;

/// A tag, and how far it may fall.
#[derive(Copy, Debug)]
pub struct Level<T> {
    pub tag: T,
    pub slack: T,
}

impl<T: Copy> Clone for Level<T> {
    ghost is_clone = { λ x y. y ≡ x };

    ghost is_infallible = { λ _. ⊤ };

    fn clone(&self) -> Result<Level<T>, AllocError> {
        Ok(*self)
    }
}

/// What a cancel made of a tag of the request before.
#[derive(Copy, Debug)]
pub struct Before<T> {
    /// The tag as it was.
    pub was: T,
    /// What it is; of a cancelled request, what its place is without its own charge.
    pub level: Level<T>,
    /// Whether that request is cancelled.
    pub cancelled: bool,
}

impl<T: Copy> Clone for Before<T> {
    ghost is_clone = { λ x y. y ≡ x };

    ghost is_infallible = { λ _. ⊤ };

    fn clone(&self) -> Result<Before<T>, AllocError> {
        Ok(*self)
    }
}

/// What a cancel made of each tag of the request before. `None` of a tag that no request before has.
#[derive(Copy, Debug)]
pub struct Befores<T> {
    pub r: Option<Before<T>>,
    pub l: Option<Before<T>>,
    pub p: Option<Before<T>>,
}

impl<T: Copy> Clone for Befores<T> {
    ghost is_clone = { λ x y. y ≡ x };

    ghost is_infallible = { λ _. ⊤ };

    fn clone(&self) -> Result<Befores<T>, AllocError> {
        Ok(*self)
    }
}

/// What a cost of this many spacings is. It is nothing if there is no spacing, or if that is no value.
fn charge<T: Tag>(spacing: Option<T>, cost: Cost) -> T
    ensures { result ≡ rules_of.charge T.ops spacing cost }
{
    let Some(spacing) = spacing else {
        return T::of_moment(Moment::zero());
    };
    spacing
        .steps(cost.units())
        .unwrap_or(T::of_moment(Moment::zero()))
}

/// What a request was charged that was charged nothing.
pub fn no_charges<T: Tag>() -> Slack<T>
    ensures { result ≡ rules_of.no_charges T.ops }
{
    let zero = T::of_moment(Moment::zero());
    Slack {
        r: zero,
        l: zero,
        p: zero,
    }
}

/// What a request of this cost was charged by its own share. It is nothing if its stamp did not count it.
pub fn charges_of<T: Tag>(counting: Counting, spacings: Option<Spacings<T>>, cost: Cost) -> Slack<T>
    ensures { result ≡ rules_of.charges_of T.ops counting spacings cost }
{
    match counting {
        Counting::All => no_charges(),
        Counting::Others => match spacings {
            None => no_charges(),
            Some(spacings) => Slack {
                r: charge(spacings.r, cost),
                l: charge(Some(spacings.l), cost),
                p: charge(Some(spacings.p), cost),
            },
        },
    }
}

// These are inlined, so that a walk over many requests keeps what became of a tag in registers.
/// The level less an amount, if tag and slack stay values.
#[inline(always)]
fn lower<T: Tag>(amount: T, level: Level<T>) -> Level<T>
    ensures { result ≡ rules_of.lower T.ops amount level }
{
    match (level.tag.minus(amount), level.slack.minus(amount)) {
        (Some(tag), Some(slack)) => Level { tag, slack },
        _ => level,
    }
}

/// How far the tag of the request before fell.
#[inline(always)]
fn fall_of<T: Tag>(before: Option<Before<T>>) -> T
    ensures { result ≡ rules_of.fall_of T.ops before }
{
    match before {
        None => T::of_moment(Moment::zero()),
        Some(before) => above(before.was, before.level.tag),
    }
}

/// Behind a cancelled request the slack is at most what that had left.
#[inline(always)]
fn behind<T: Tag>(before: Option<Before<T>>, level: Level<T>) -> Level<T>
    ensures { result ≡ rules_of.behind T.ops before level }
{
    match before {
        None => level,
        Some(before) => Level {
            slack: slack_behind(before.cancelled, before.level.slack, level.slack),
            ..level
        },
    }
}

/// What becomes of a tag: it falls as far as that of the request before it, but at most by its slack.
#[inline(always)]
fn fallen<T: Tag>(before: Option<Before<T>>, level: Level<T>) -> Level<T>
    ensures { result ≡ rules_of.fallen T.ops before level }
{
    behind(before, lower(fall_of(before).min(level.slack), level))
}

/// How much a cancelled request gives back at most: its slack, and how far its tag is past that of the request before.
fn most_given<T: Tag>(before: Option<Before<T>>, level: Level<T>) -> T
    ensures { result ≡ rules_of.most_given T.ops before level }
{
    match before {
        None => level.slack,
        Some(before) => above(level.tag, before.level.tag).min(level.slack),
    }
}

/// The place of a cancelled request without what it was charged.
fn without_charge<T: Tag>(charged: T, before: Option<Before<T>>, level: Level<T>) -> Level<T>
    ensures { result ≡ rules_of.without_charge T.ops charged before level }
{
    lower(charged.min(most_given(before, level)), level)
}

/// What becomes of a tag and its slack, after what became of those before.
#[inline(always)]
fn pass<T: Tag>(
    before: &mut Option<Before<T>>,
    cancelled: bool,
    charged: T,
    level: Level<T>,
) -> Level<T>
    ensures level { result ≡ rules_of.fallen T.ops before.old level }
    ensures next { before.new ≡ Some (rules_of.before_next T.ops cancelled charged before.old level) }
{
    let fallen = fallen(*before, level);
    let place = if cancelled {
        without_charge(charged, *before, fallen)
    } else {
        fallen
    };
    *before = Some(Before {
        was: level.tag,
        level: place,
        cancelled,
    });
    fallen
}

/// What becomes of an R and its slack. Without an R, what became of the R before stays.
#[inline(always)]
fn pass_reservation<T: Tag>(
    before: &mut Option<Before<T>>,
    cancelled: bool,
    charged: T,
    r: Option<T>,
    slack: T,
) -> (Option<T>, T)
    ensures tag { result.0 ≡ option_map (λ tag. (rules_of.fallen T.ops before.old (rules_of.level tag slack)).tag) r }
    ensures slack { result.1 ≡ option_map_or (λ tag. (rules_of.fallen T.ops before.old (rules_of.level tag slack)).slack) r slack }
    ensures next { before.new ≡ option_map_or (λ tag. Some (rules_of.before_next T.ops cancelled charged before.old (rules_of.level tag slack))) r before.old }
{
    let Some(tag) = r else {
        return (None, slack);
    };
    let fallen = pass(before, cancelled, charged, Level { tag, slack });
    (Some(fallen.tag), fallen.slack)
}

impl<T: Tag> Befores<T> {
    /// There is no request before.
    pub fn none() -> Befores<T>
        ensures { result ≡ rules_of.no_befores }
    {
        Befores {
            r: None,
            l: None,
            p: None,
        }
    }

    /// What becomes of the next request, which is cancelled or not, and was charged this by its own share.
    // Tag by tag, so that few values are kept at a time.
    #[inline(always)]
    pub fn pass(&mut self, cancelled: bool, charged: Slack<T>, request: &mut QueuedRequest<T>)
        ensures request { request.new ≡ rules_of.fallen_request T.ops self.old request.old }
        ensures next { self.new ≡ rules_of.befores_next T.ops cancelled charged self.old request.old }
    {
        let r = pass_reservation(
            &mut self.r,
            cancelled,
            charged.r,
            request.tags.r,
            request.slack.r,
        );
        request.tags.r = r.0;
        request.slack.r = r.1;
        let l = Level {
            tag: request.tags.l,
            slack: request.slack.l,
        };
        let l = pass(&mut self.l, cancelled, charged.l, l);
        request.tags.l = l.tag;
        request.slack.l = l.slack;
        let p = Level {
            tag: request.tags.p,
            slack: request.slack.p,
        };
        let p = pass(&mut self.p, cancelled, charged.p, p);
        request.tags.p = p.tag;
        request.slack.p = p.slack;
    }

    /// Whether the request before is cancelled. It is not if there is none.
    pub fn is_last_cancelled(&self) -> bool
        ensures { result ≡ option_map_or (λ before. before.cancelled) self.now.l false }
    {
        match self.l {
            None => false,
            Some(before) => before.cancelled,
        }
    }

    /// What becomes of the previous tags behind all requests.
    pub fn last(&self, cancelled: bool, previous: Previous<T>) -> Previous<T>
        ensures { result ≡ rules_of.fallen_previous T.ops self.now cancelled previous }
    {
        let Previous { r, l, p, slack, .. } = previous;
        let r = fallen(
            self.r,
            Level {
                tag: r,
                slack: slack.r,
            },
        );
        let l = fallen(
            self.l,
            Level {
                tag: l,
                slack: slack.l,
            },
        );
        let p = fallen(
            self.p,
            Level {
                tag: p,
                slack: slack.p,
            },
        );
        Previous {
            r: r.tag,
            l: l.tag,
            p: p.tag,
            slack: Slack {
                r: r.slack,
                l: l.slack,
                p: p.slack,
            },
            cancelled,
        }
    }
}
