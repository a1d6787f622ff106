//! Assignment at tick tags.
use crate::same::assert_same;
use dmc_assign::assignment::tags_for;
use dmc_client::record::ClientRec;
use dmc_tag::plain::{QueuedRequest, Slack};
use dmc_tag::reply::Tags;
use dmc_tag::spacing::spacings_for;
use dmc_tag::tag::Tag;
use dmc_tick::tick::TickTag;
use dmc_types::cost::Cost;
use dmc_types::ids::Token;
use dmc_types::info::ClientInfo;
use dmc_types::moment::Moment;
use dmc_types::params::ReqParams;
use std::alloc::Global;
use std::test::Fail;

const GREATEST: i128 = 1_237_940_039_285_380_274_899_124_224;

/// A record of 1,000 ticks a request, whose one request has the greatest P.
fn record_at_greatest(alloc: Global) -> Result<ClientRec<TickTag>, Fail> {
    let info = ClientInfo::new(None, 1, None)?;
    let spacings = spacings_for::<TickTag>(1000, info)
        .ok()
        .ok_or("no spacing")?;
    let zero = TickTag::of_moment(Moment::zero());
    let p = TickTag::new(GREATEST).ok_or("no tag")?;
    let request = QueuedRequest {
        token: Token(1),
        cost: Cost::ONE,
        tags: Tags {
            r: None,
            l: zero,
            p,
        },
        slack: Slack {
            r: zero,
            l: zero,
            p,
        },
    };
    let mut rec = ClientRec::new(alloc, info, spacings, Moment::zero());
    rec.push(request, Moment::zero())?;
    Ok(rec)
}

/// The P that the next request gets at moment 0, in ticks.
fn next_share(rec: &ClientRec<TickTag>, params: ReqParams) -> Option<i128> {
    let zero = TickTag::of_moment(Moment::zero());
    let tags = tags_for(rec, params, zero, zero)?;
    Some(tags.p.ticks())
}

#[test]
fn tick_bounds(rt: HostRuntime) -> Result<(), Fail> {
    let (one, nothing) = (ReqParams::new(1, 0)?, ReqParams::new(0, 0)?);
    let rec = record_at_greatest(rt.alloc())?;
    assert_same(&rt, &next_share(&rec, one), &None);
    assert_same(&rt, &next_share(&rec, nothing), &Some(GREATEST));
    Ok(())
}
