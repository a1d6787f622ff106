//! A run on tags in which a client's weight has no spacing.
use super::setup::{Prompt, run, sent_and_completed, stopped};
use crate::same::assert_same;
use dmc_scene::scene::read_scene;
use dmc_settle::report::StopCause;
use dmc_types::refusal::{Field, Refusal};
use std::test::Fail;

/// One client, whose weight does not divide hz.
const SCENE: &str = "hz = 1000\ntags = \"ratio\"\nservers = 2\nworkers = 1\nstep = 1\nseed = 1\n\
                     max_pulls = 100\n[[client]]\nid = 1\nweight = 3\nrequests = 9\nwindow = 2\n";

#[test]
fn refused_rates(rt: HostRuntime) -> Result<(), Fail> {
    let scene = read_scene(rt.alloc(), SCENE.as_bytes())?;
    let inexact = StopCause::Refused(Refusal::Inexact(Field::Weight));
    let report = stopped(run(&rt, &scene, &Prompt), inexact)?;
    for row in &report.clients {
        assert_same(&rt, &row.stop, &Some(StopCause::Refused(Refusal::Unknown)));
    }
    for row in &report.servers {
        assert_same(&rt, &row.stops.as_slice(), &[inexact].as_slice());
    }
    assert_same(&rt, &sent_and_completed(&report.clients), &(0, 0));
    Ok(())
}
