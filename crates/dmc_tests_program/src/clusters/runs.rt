//! Runs that are done, and one that ends at its round limit.
use super::setup::{
    Prompt, done, granted, is_whole, left, run, scene, sent_and_completed, three_servers,
    turned_out, units_left,
};
use crate::same::assert_same;
use dmc_settle::report::StopCause;
use std::test::Fail;

#[test]
fn three_servers_run(rt: HostRuntime) -> Result<(), Fail> {
    let scene = three_servers(rt.alloc())?;
    let report = done(run(&rt, &scene, &Prompt))?;
    is_whole(&rt, &report, 0);
    Ok(())
}

#[test]
fn three_servers_others(rt: HostRuntime) -> Result<(), Fail> {
    let scene = scene(rt.alloc(), 3, 1_000_000, "others")?;
    let report = done(run(&rt, &scene, &Prompt))?;
    is_whole(&rt, &report, 0);
    Ok(())
}

#[test]
fn turns_out_run(rt: HostRuntime) -> Result<(), Fail> {
    let scene = scene(rt.alloc(), 3, 1, "all")?;
    let report = turned_out(run(&rt, &scene, &Prompt))?;
    let (sent, completed) = sent_and_completed(&report.clients);
    let grants = granted(&report.servers);
    let left = left(&report.servers);
    let units = units_left(&report.servers);
    assert_same(&rt, &grants.checked_add(left), &Some(sent));
    assert_same(&rt, &completed.checked_add(units), &Some(grants));
    assert!(rt; grants <= 6);
    for row in &report.servers {
        assert!(rt; row.stops.iter().all(|cause| *cause == StopCause::Turns));
    }
    Ok(())
}
