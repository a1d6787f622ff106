//! Replies with fractions in place of tags, which are the same whichever tags a queue has.
ghost use Rattle.std.specs.Prelude.{◌≡◌};
ghost use Rattle.dmc_any_queue.specs.AnyState.{tags_in_fractions, in_fractions};

use dmc_ratio::ratio::RatioTag;
use dmc_tag::reply::{Reply, Tags};
use dmc_tag::tag::Tag;
use dmc_tick::tick::TickTag;
use std::marker::Model;

/// The fraction that a tag represents: `numer/denom` ticks, in lowest terms. Contracts see it as that fraction.
#[derive(Clone, Copy, Debug, PartialEq, Eq)]
pub struct TagFraction {
    pub numer: i128,
    pub denom: u64,
}

impl Model for TagFraction {
    ghost use Rattle.dmc_tag.specs.Tag.{Fraction};

    ghost Value = { Fraction };

    ghost view = { λ f. record { numer = f.numer; denom = f.denom } };

    ghost inverse = { λ f. record { numer = f.numer; denom = f.denom } };
}

/// A tag that can be given as its fraction.
pub trait AsFraction: Tag {
    /// The fraction that it represents.
    fn as_fraction(self) -> TagFraction
        ensures { result ≡ Self.fraction self };
}

impl AsFraction for TickTag {
    fn as_fraction(self) -> TagFraction {
        TagFraction {
            numer: self.ticks(),
            denom: 1,
        }
    }
}

impl AsFraction for RatioTag {
    fn as_fraction(self) -> TagFraction {
        TagFraction {
            numer: self.numer(),
            denom: self.denom(),
        }
    }
}

/// The fraction of each tag.
#[inline(always)]
fn tags_in_fractions<T: AsFraction>(tags: Tags<T>) -> Tags<TagFraction>
    ensures { result ≡ tags_in_fractions T.fraction tags }
{
    let r = match tags.r {
        None => None,
        Some(tag) => Some(tag.as_fraction()),
    };
    Tags {
        r,
        l: tags.l.as_fraction(),
        p: tags.p.as_fraction(),
    }
}

/// The reply, with the fraction of each tag in it.
#[inline(always)]
pub fn in_fractions<T: AsFraction>(reply: Reply<T>) -> Reply<TagFraction>
    ensures { result ≡ in_fractions T.fraction reply }
{
    match reply {
        Reply::Registered => Reply::Registered,
        Reply::Updated => Reply::Updated,
        Reply::Tagged(tags) => Reply::Tagged(tags_in_fractions(tags)),
        Reply::Granted {
            client,
            token,
            phase,
            beyond,
            cost,
        } => Reply::Granted {
            client,
            token,
            phase,
            beyond,
            cost,
        },
        Reply::Later(due) => Reply::Later(due),
        Reply::Nothing => Reply::Nothing,
        Reply::Removed(count) => Reply::Removed(count),
        Reply::Cleaned { idled, erased } => Reply::Cleaned { idled, erased },
        Reply::Refused(refusal) => Reply::Refused(refusal),
    }
}
