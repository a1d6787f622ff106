//! The spacings of a client's rates.
ghost use Rattle.std.specs.Prelude.{◌≡◌, IfOk, ⊤};
ghost use Rattle.dmc_tag.specs.Order.{AreSpacings};
ghost use Rattle.dmc_tag.specs.Spacing.{spacing_of, optional_spacing, spacings_of};

use crate::tag::Tag;
use dmc_types::info::ClientInfo;
use dmc_types::moment::Moment;
use dmc_types::refusal::Field;
use std::alloc::AllocError;

/// The distance between a client's tags: hz/rate ticks for each of its rates, and 0 for an absent limit.
#[derive(Copy, Debug)]
pub struct Spacings<T> {
    pub r: Option<T>,
    pub l: T,
    pub p: T,
}

impl<T: Copy> Clone for Spacings<T> {
    ghost is_clone = { λ x y. y ≡ x };

    ghost is_infallible = { λ _. ⊤ };

    fn clone(&self) -> Result<Spacings<T>, AllocError> {
        Ok(*self)
    }
}

fn spacing_for<T: Tag>(hz: u32, field: Field, rate: u32) -> Result<T, Field>
    ensures { result ≡ spacing_of T.ops hz field rate }
{
    T::spacing(hz, rate).ok_or(field)
}

fn optional_spacing_for<T: Tag>(
    hz: u32,
    field: Field,
    rate: Option<u32>,
) -> Result<Option<T>, Field>
    ensures { result ≡ optional_spacing T.ops hz field rate }
{
    match rate {
        None => Ok(None),
        Some(rate) => Ok(Some(spacing_for(hz, field, rate)?)),
    }
}

/// The spacings of a client's rates, or the first rate whose spacing is no value: reservation, weight, limit (extension).
pub fn spacings_for<T: Tag>(hz: u32, info: ClientInfo) -> Result<Spacings<T>, Field>
    ensures value { result ≡ spacings_of T.ops hz info }
    ensures spacings { IfOk result (AreSpacings T.ops info) }
{
    let r = optional_spacing_for(hz, Field::Reservation, info.reservation())?;
    let p = spacing_for(hz, Field::Weight, info.weight())?;
    let l = optional_spacing_for(hz, Field::Limit, info.limit())?;
    let l = l.unwrap_or(T::of_moment(Moment::zero()));
    Ok(Spacings { r, l, p })
}
