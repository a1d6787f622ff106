//! The auditor's thread: it releases what the queue and the trackers recorded, replays the queue's events, and drops both.
ghost use Rattle.std.specs.Prelude.{OnOk};
ghost use Rattle.dmclock.specs.Replay.{replays};

use crate::shared::{SERVER, Shared, config};
use anyhow::{Result, bail};
use dmclock::locks::{Segment, Setup, TrackerLock, TrackerSegment};
use dmclock::{Replayer, Tag, TickTag, Verdict};
use std::alloc::Global;
use std::io::Eprint;
use std::rt::Clock;
use std::sync::Wait;
use std::time::Instant;

/// Replays segment after segment, in the memory of one queue. It keeps the last segment of each tracker, and none of the queue.
#[derive(Drop)]
pub struct Auditor<S: Setup> {
    replayer: Replayer<TickTag>,
    last: Vec<Option<TrackerSegment<S>>>,
}

/// Replays the next segment of a queue, which has to begin where the last one ended. Where it is Ok, the whole history so far is
/// what the rules give.
fn replay<T: Tag, S: Setup>(replayer: &mut Replayer<T>, segment: &Segment<T, S>) -> Result<()>
    ensures { OnOk result (replays T.ops replayer.new.config replayer.new.events) }
{
    match replayer.replay(segment)? {
        Verdict::Replays => Ok(()),
        _ => bail!("an event is not what the rules give"),
    }
}

/// Releases what a tracker recorded, which has to go on where its last segment ended.
fn release<S: Setup, R: Wait>(
    rt: &R,
    tracker: &TrackerLock<S>,
    last: &mut Option<TrackerSegment<S>>,
) -> Result<()> {
    let Some(segment) = tracker.rotate(rt) else {
        bail!("a tracker released nothing");
    };
    let follows = match last {
        Some(last) => last.follows(&segment),
        None => segment.first() == 0,
    };
    *last = Some(segment);
    if !follows {
        bail!("a tracker's segment does not follow the last one");
    }
    Ok(())
}

impl<S: Setup> Auditor<S> {
    /// An auditor of the server's queue and trackers, from their first events on.
    pub fn new(alloc: Global, shared: &Shared<S>) -> Result<Auditor<S>> {
        let mut last = Vec::new(alloc);
        for _ in &shared.clients {
            last.push(None)?;
        }
        Ok(Auditor {
            replayer: Replayer::new(alloc, config()?, SERVER),
            last,
        })
    }

    /// How many events were replayed.
    pub fn event_count(&self) -> u64 {
        self.replayer.event_count()
    }

    /// Audits what was recorded since the last time.
    pub fn audit<R: Wait>(&mut self, rt: &R, shared: &Shared<S>) -> Result<()> {
        let Some(segment) = shared.queue.rotate(rt) else {
            bail!("the queue released nothing");
        };
        replay(&mut self.replayer, &segment)?;
        self.release_trackers(rt, shared)?;
        shared.backlog.note_released(rt, self.event_count());
        Ok(())
    }

    fn release_trackers<R: Wait>(&mut self, rt: &R, shared: &Shared<S>) -> Result<()> {
        for (client, last) in shared.clients.iter().zip(self.last.iter_mut()) {
            release(rt, &client.tracker, last)?;
        }
        Ok(())
    }

    /// Audits whenever enough was recorded, until the server ends. It reports as often as asked. If it fails, all threads
    /// end.
    pub fn run<R: Wait + Clock + Eprint>(
        &mut self,
        rt: &R,
        shared: &Shared<S>,
        report: u64,
    ) -> Result<()> {
        let audited = self.audit_all(rt, shared, report);
        if audited.is_err() {
            shared.give_up(rt);
        }
        audited
    }

    fn audit_all<R: Wait + Clock + Eprint>(
        &mut self,
        rt: &R,
        shared: &Shared<S>,
        report: u64,
    ) -> Result<()> {
        let mut reported = shared.start;
        for _ in rt.forever() {
            if !shared.backlog.wait_for_enough(rt) {
                return Ok(());
            }
            self.audit(rt, shared)?;
            reported = self.report(rt, reported, report)?;
        }
        unreachable!()
    }

    /// Reports how many events were replayed, if the last report is this many milliseconds old. Returns when the last one was.
    fn report<R: Clock + Eprint>(&self, rt: &R, last: Instant, millis: u64) -> Result<Instant> {
        if millis == 0 || last.elapsed(rt)?.as_millis() < u128::from(millis) {
            return Ok(last);
        }
        eprintln!(rt; "{} events", self.event_count())?;
        Ok(Instant::now(rt)?)
    }
}
