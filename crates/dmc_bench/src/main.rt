//! Loads that are measured: `dmc_bench LOAD CLIENTS ROUNDS [LIMIT]` runs a load and writes a checksum of its results to standard
//! output. To standard error it writes a line for each part of the load: its name, how many calls it made, and how many
//! nanoseconds they took.
#![tactic(auto)]

mod cluster;
mod fault;
mod indexes;
mod load;
mod locked;
mod queues;
mod shards;
mod sharing;
mod sums;
mod watch;

use crate::fault::Fault;
use crate::load::{Load, read_load, run_load};
use std::env;
use std::process::ExitCode;
use std::sync::Wait;
use std::thread::Threads;

/// Runs the load that the words name. Status 0: done; 1: an allocation failed, there is no clock, or a stream fails; 2: the words
/// name no load.
fn main(rt: HostRuntime) -> ExitCode {
    match measure(&rt, &rt) {
        Ok(()) => ExitCode::SUCCESS,
        Err(Fault::Usage) => {
            let _ = eprintln!(&rt;
                "usage: dmc_bench plain|list|heap|ratio-heap|deep|alone|locked|warm|rotated|shared|shards|list-index|heap-index|ticks|ratios CLIENTS ROUNDS [LIMIT|SHARDS]"
            );
            ExitCode::from(2)
        }
        Err(Fault::Failed) => ExitCode::from(1),
    }
}

/// Runs the load, and writes its checksum.
fn measure<R: Threads + Wait + Sync>(rt: &HostRuntime, threads: &R) -> Result<(), Fault> {
    let words: Vec<String> = env::args(rt)?.skip(1).collect(rt.alloc())?;
    let load: Load = read_load(words.as_slice())?;
    let checksum = run_load(rt, threads, load)?;
    println!(rt; "{checksum}")?;
    Ok(())
}
