//! Services overlap: one waits for two others, one of them at its own server.
use super::setup::{done, is_whole, run, scene};
use dmc_driver::service::{Job, ServeFault, Service};
use std::sync::atomic::{AtomicU64, Ordering};
use std::test::Fail;
use std::thread;

/// Holds the first job of server 0 until a second one of it and one of server 1 were served.
#[derive(Drop)]
struct Gatekeeper {
    begun: AtomicU64,
    second: AtomicU64,
    other: AtomicU64,
}

impl Gatekeeper {
    fn is_open(&self) -> bool {
        self.second.load(Ordering::SeqCst) > 0 && self.other.load(Ordering::SeqCst) > 0
    }

    fn wait(&self) -> Result<(), ServeFault> {
        for _ in 0..10_000_000u32 {
            if self.is_open() {
                return Ok(());
            }
            thread::yield_now();
        }
        Err(ServeFault)
    }
}

impl Service for Gatekeeper {
    fn serve(&self, job: &Job) -> Result<(), ServeFault> {
        if job.server.0 != 0 {
            self.other.fetch_add(1, Ordering::SeqCst);
            Ok(())
        } else if self.begun.fetch_add(1, Ordering::SeqCst) == 0 {
            self.wait()
        } else {
            self.second.fetch_add(1, Ordering::SeqCst);
            Ok(())
        }
    }
}

#[test]
fn gate(rt: HostRuntime) -> Result<(), Fail> {
    let scene = scene(rt.alloc(), 2, 1_000_000, "all")?;
    let keeper = Gatekeeper {
        begun: AtomicU64::new(0),
        second: AtomicU64::new(0),
        other: AtomicU64::new(0),
    };
    let report = done(run(&rt, &scene, &keeper))?;
    is_whole(&rt, &report, 0);
    Ok(())
}
