//! A test that the histories of a run replay, by the checker.
use dmc_check::check::Verdict;
use dmc_scene::scene::Scene;
use dmc_settle::report::ClusterReport;
use dmc_tag::tag::Tag;
use dmc_tool::verdicts::check_all;
use std::alloc::Global;
use std::test::Fail;
use std::thread::Threads;

/// Each server's history replays.
pub(crate) fn must_replay<T: Tag + Sync, R: Threads + Sync>(
    rt: &R,
    alloc: Global,
    scene: &Scene,
    report: &ClusterReport<T>,
) -> Result<(), Fail> {
    let verdicts = check_all(rt, alloc, scene.config(), &report.servers)?;
    if !verdicts.iter().all(|verdict| *verdict == Verdict::Replays) {
        return Err(Fail::new("a history differs"));
    }
    Ok(())
}
