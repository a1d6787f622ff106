//! Sums of tags.
use crate::fault::Fault;
use crate::load::{Load, mixed};
use crate::watch::{add_since, print, start};
use dmc_tag::tag::Tag;
use dmc_types::moment::Moment;

/// Adds the summands in turn, as many as the load has rounds, and returns a checksum of the sums.
pub fn sum_tags<T: Tag>(
    rt: &HostRuntime,
    load: Load,
    first: Option<T>,
    second: Option<T>,
) -> Result<u64, Fault> {
    let begun = start(rt)?;
    let checksum = sum_of(first, second, load.rounds);
    let nanos = add_since(rt, begun, 0)?;
    print(rt, "sum", load.rounds, nanos)?;
    Ok(checksum)
}

/// Adds the summands in turn, from 0 on again if a sum is no value, and returns a checksum of the sums.
fn sum_of<T: Tag>(first: Option<T>, second: Option<T>, rounds: u32) -> u64 {
    let zero = T::of_moment(Moment::zero());
    let mut sum = zero;
    let mut checksum: u64 = 0;
    for round in 0..rounds {
        let summand = if round % 2 == 0 { first } else { second };
        sum = summand.and_then(|tag| sum.plus(tag)).unwrap_or(zero);
        checksum = mixed(checksum, u64::try_from(sum.ceil()).unwrap_or(0));
    }
    checksum
}
