//! Verdicts on the histories of a report.
ghost use Rattle.std.specs.Prelude.{◌<◌, IfOk, length};
ghost use Rattle.dmc_tool.specs.Verdicts.{AreVerdicts};
ghost use Rattle.dmc_tool.specs.internal.Verdicts.{IsVerdictAt};

use dmc_check::check::{Verdict, check};
use dmc_settle::report::ServerReport;
use dmc_tag::tag::Tag;
use dmc_types::config::QueueConfig;
use std::alloc::{AllocError, Global};
use std::thread;
use std::thread::Threads;

/// Whether each server's history replays from this configuration. Each is checked in a thread of its own, if one can be
/// started. `AllocError`: an allocation failed.
pub fn check_all<T: Tag + Sync, R: Threads + Sync>(
    rt: &R,
    alloc: Global,
    config: QueueConfig,
    servers: &[ServerReport<T>],
) -> Result<Vec<Verdict>, AllocError>
    ensures { IfOk result (λ verdicts. AreVerdicts T.ops config servers.now verdicts.items) }
{
    let checked = thread::map_indices(
        rt,
        alloc,
        servers.len(),
        &|i| { check_at(alloc, config, servers, i) },
    )?;
    let mut verdicts = Vec::with_capacity(alloc, checked.len())?;
    for i in 0..checked.len() {
        verdicts.push(checked[i]?)?;
    }
    Ok(verdicts)
}

/// Whether the history of the server at an index replays.
fn check_at<T: Tag>(
    alloc: Global,
    config: QueueConfig,
    servers: &[ServerReport<T>],
    place: usize,
) -> Result<Verdict, AllocError>
    requires { place < length servers.now }
    ensures { IfOk result (λ verdict. IsVerdictAt T.ops config servers.now place verdict) }
{
    check(alloc, config, &servers[place].history)
}
