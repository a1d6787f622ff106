//! Tests of tags.
use crate::same::assert_same;
use dmc_ratio::ratio::RatioTag;
use dmc_tag::tag::Tag;
use dmc_tick::tick::TickTag;
use std::process::Abort;
use std::test::Fail;

#[test]
fn tick_bounds(rt: HostRuntime) -> Result<(), Fail> {
    let greatest = 1_237_940_039_285_380_274_899_124_224;
    let tag = TickTag::new(greatest).ok_or("no tag")?;
    assert_same(&rt, &tag.ticks(), &greatest);
    assert!(rt; TickTag::new(greatest + 1).is_none());
    assert!(rt; TickTag::new(-greatest).is_some());
    assert!(rt; TickTag::new(-greatest - 1).is_none());
    Ok(())
}

/// The sum of 1/a and 1/b.
fn sum(a: u64, b: u64) -> Option<RatioTag> {
    RatioTag::new(1, a)?.plus(RatioTag::new(1, b)?)
}

/// The sum of 1/a and 1/b is a tag with this numerator and denominator. It is returned.
fn assert_sum(
    rt: &impl Abort,
    (a, b): (u64, u64),
    parts: (i128, u64),
) -> Result<RatioTag, &'static str> {
    let sum = sum(a, b).ok_or("a sum")?;
    assert_same(rt, &(sum.numer(), sum.denom()), &parts);
    Ok(sum)
}

// The results are computed by hand.
#[test]
fn ratio_sums(rt: HostRuntime) -> Result<(), Fail> {
    let half = assert_sum(&rt, (3, 6), (1, 2))?;
    assert_sum(&rt, (65537, 65537), (2, 65537))?;
    let fine = assert_sum(&rt, (65521, 65519), (131040, 4292870399))?;
    assert!(rt; fine.plus(half).is_none());
    let below = RatioTag::new(-1, 2).ok_or("-1/2")?;
    assert_same(&rt, &below.ceil(), &0);
    Ok(())
}
