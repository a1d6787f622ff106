//! Plans: which server each request goes to.
use crate::same::assert_same;
use dmc_types::ids::{ClientId, ServerId};
use dmc_work::plan::plan;
use rand_core::utils::NextWord;
use rand_pcg::Lcg64Xsh32;
use std::test::Fail;

// The plan half of the example.
#[test]
fn plan_and_core(rt: HostRuntime) -> Result<(), Fail> {
    let plan = plan(rt.alloc(), 1, ClientId(1), 1, 3)?;
    assert_same(&rt, &plan.as_slice(), &[ServerId(0); 3].as_slice());
    Ok(())
}

// The first words of the reference generator in PCG's C code, and the plan that they give over three servers.
#[test]
fn reference_words(rt: HostRuntime) -> Result<(), Fail> {
    let mut words = Lcg64Xsh32::new(42, 54);
    for word in [0xa15c_02b7, 0x7b47_f409, 0xba1d_3330] {
        assert_same(&rt, &words.next_word(), &word);
    }
    let plan = plan(rt.alloc(), 42, ClientId(54), 3, 3)?;
    let wanted = [ServerId(0), ServerId(0), ServerId(2)];
    assert_same(&rt, &plan.as_slice(), &wanted.as_slice());
    Ok(())
}

#[test]
fn no_request(rt: HostRuntime) -> Result<(), Fail> {
    let plan = plan(rt.alloc(), 42, ClientId(54), 3, 0)?;
    assert_same(&rt, &plan.len(), &0);
    Ok(())
}
