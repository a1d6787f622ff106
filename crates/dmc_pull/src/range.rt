//! Between which two tags the P tags of a queue lie.
ghost use Rattle.std.specs.Prelude.{◌≡◌, ⊤};
ghost use Rattle.std.specs.Option.{option_map};
ghost use Rattle.dmc_pull.specs.internal.Range as range_of;
ghost use Rattle.dmc_pull.specs.internal.ShareRange.{IsWithin};

use crate::adding::adjusts;
use dmc_tag::reply::Tags;
use dmc_tag::shifting::has_less;
use dmc_tag::tag::Tag;
use dmc_types::config::Shares;
use dmc_types::moment::Moment;
use std::alloc::AllocError;

/// Two tags between which each P of a queue lies. The range may be wider than it has to be.
#[derive(Copy)]
pub struct ShareRange<T> {
    pub least: T,
    pub greatest: T,
}

impl<T: Copy> Clone for ShareRange<T> {
    ghost is_clone = { λ x y. y ≡ x };

    ghost is_infallible = { λ _. ⊤ };

    fn clone(&self) -> Result<ShareRange<T>, AllocError> {
        Ok(*self)
    }
}

/// The range of a queue without clients: 0 alone. It is known only if tags are whole numbers, and if there are shifts.
pub fn first_range<T: Tag>(shares: Shares) -> Option<ShareRange<T>>
    ensures { IsWithin T.ops result (T.ops.of_moment 0) }
{
    if !T::is_whole() || !adjusts(shares) {
        return None;
    }
    let zero = T::of_moment(Moment::zero());
    Some(ShareRange {
        least: zero,
        greatest: zero,
    })
}

/// Widens the range for a request that arrives with a P, and for a shift of all others. If a bound is then no value, the range
/// is no longer known.
pub fn widen<T: Tag>(range: &mut Option<ShareRange<T>>, share: T, shift: Option<T>)
    ensures { range.new ≡ range_of.range_after T.ops range.old share shift }
{
    let Some(known) = range else {
        return;
    };
    include(known, share);
    if let Some(amount) = shift {
        *range = with_less(*known, amount);
    }
}

/// Widens the range for a client of which requests were taken back: none of its P is below that of its first request, or above the
/// previous one.
pub fn widen_between<T: Tag>(range: &mut Option<ShareRange<T>>, first: Option<Tags<T>>, previous: T)
    ensures { range.new ≡ option_map (range_of.with_shares_between T.ops first previous) range.old }
{
    let Some(known) = range else {
        return;
    };
    include(known, previous);
    if let Some(first) = first {
        include(known, first.p);
    }
}

/// Whether it follows from the range that each P less the amount is a value. What lies between two whole numbers that are values
/// is a value.
pub fn all_have_less<T: Tag>(range: Option<ShareRange<T>>, amount: T) -> bool
    ensures { result ≡ range_of.all_have_less T.whole T.ops amount range }
{
    match range {
        None => false,
        Some(range) => {
            T::is_whole() && has_less(range.least, amount) && has_less(range.greatest, amount)
        }
    }
}

/// Widens the range for one more tag.
fn include<T: Tag>(range: &mut ShareRange<T>, share: T)
    ensures { range.new ≡ range_of.with_share T.ops share range.old }
{
    if range.least.cmp(&share).is_gt() {
        range.least = share;
    }
    if !range.greatest.cmp(&share).is_gt() {
        range.greatest = share;
    }
}

/// The range after an amount was taken off each tag. `None` if a bound less the amount is no value.
fn with_less<T: Tag>(range: ShareRange<T>, amount: T) -> Option<ShareRange<T>>
    ensures { result ≡ range_of.with_less T.ops amount range }
{
    let least = range.least.minus(amount)?;
    let greatest = range.greatest.minus(amount)?;
    let mut wider = range;
    include(&mut wider, least);
    include(&mut wider, greatest);
    Some(wider)
}
