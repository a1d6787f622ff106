//! A service that fails for odd tokens and counts its jobs.
use super::setup::{done, is_whole, run, three_servers};
use crate::same::assert_same;
use dmc_driver::service::{Job, ServeFault, Service};
use dmc_types::config::PhaseType;
use std::sync::atomic::{AtomicU64, Ordering};
use std::test::Fail;

/// The jobs of each server in each phase, and of each client.
#[derive(Drop)]
struct Tally {
    reservation: [AtomicU64; 3],
    priority: [AtomicU64; 3],
    clients: [AtomicU64; 4],
}

impl Tally {
    fn new() -> Tally {
        Tally {
            reservation: [AtomicU64::new(0), AtomicU64::new(0), AtomicU64::new(0)],
            priority: [AtomicU64::new(0), AtomicU64::new(0), AtomicU64::new(0)],
            clients: [
                AtomicU64::new(0),
                AtomicU64::new(0),
                AtomicU64::new(0),
                AtomicU64::new(0),
            ],
        }
    }
}

fn count(words: &[AtomicU64], index: u32) {
    if let Some(word) = words.get(index as usize) {
        word.fetch_add(1, Ordering::SeqCst);
    }
}

fn observed(words: &[AtomicU64], index: u32) -> Option<u64> {
    words
        .get(index as usize)
        .map(|word| word.load(Ordering::SeqCst))
}

impl Service for Tally {
    fn serve(&self, job: &Job) -> Result<(), ServeFault> {
        count(&self.clients, job.client.0.wrapping_sub(1));
        match job.phase {
            PhaseType::Reservation => count(&self.reservation, job.server.0),
            PhaseType::Priority => count(&self.priority, job.server.0),
        }
        if job.token.0 % 2 == 1 {
            Err(ServeFault)
        } else {
            Ok(())
        }
    }
}

#[test]
fn failing_service(rt: HostRuntime) -> Result<(), Fail> {
    let scene = three_servers(rt.alloc())?;
    let tally = Tally::new();
    let report = done(run(&rt, &scene, &tally))?;
    is_whole(&rt, &report, 100);
    for row in &report.servers {
        let server = row.server.0;
        let reserved = observed(&tally.reservation, server);
        assert_same(&rt, &reserved, &Some(row.reservation));
        assert_same(&rt, &observed(&tally.priority, server), &Some(row.priority));
    }
    for row in &report.clients {
        let index = row.client.0.wrapping_sub(1);
        assert_same(&rt, &observed(&tally.clients, index), &Some(row.completed));
    }
    Ok(())
}
