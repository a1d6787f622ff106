//! An auditor's thread: it releases what the queue of its shard recorded, replays it, and drops it.
ghost use Rattle.std.specs.Prelude.{OnOk};
ghost use Rattle.dmclock.specs.Replay.{replays};

use crate::shared::{FIRST, Shared, config};
use crate::sums::Sums;
use anyhow::{Error, Result, bail};
use dmclock::locks::{Segment, Setup, TickLock};
use dmclock::{Replayer, ServerId, Tag, TickTag, Verdict};
use std::io::Eprint;
use std::rt::Clock;
use std::sync::Wait;
use std::time::Instant;

/// What the auditor's thread of a shard has of its own.
#[derive(Drop)]
pub struct Auditor {
    pub shard: ServerId,
    /// How many events were replayed.
    pub events: u64,
    /// What they say came in.
    pub sums: Sums,
    pub fault: Option<Error>,
}

/// Replays the next segment of a shard, which has to begin where the last one ended. If it is Ok, the whole history so far is what
/// the rules give.
fn replay<T: Tag, S: Setup>(replayer: &mut Replayer<T>, segment: &Segment<T, S>) -> Result<()>
    ensures { OnOk result (replays T.ops replayer.new.config replayer.new.events) }
{
    match replayer.replay(segment)? {
        Verdict::Replays => Ok(()),
        _ => bail!("an event is not what the rules give"),
    }
}

/// Replays what was recorded since the last time, and sums up what came in.
fn audit<S: Setup, R: Wait>(
    rt: &R,
    queue: &TickLock<S>,
    replayer: &mut Replayer<TickTag>,
    sums: &mut Sums,
) -> Result<()> {
    let Some(segment) = queue.rotate(rt) else {
        bail!("a shard released nothing");
    };
    replay(replayer, &segment)?;
    sums.add_segment(&segment)
}

impl Auditor {
    /// Audits whenever enough was recorded, and once more when the server has ended. If that fails, all threads end.
    pub fn run<S: Setup, R: Wait + Clock + Eprint>(
        &mut self,
        rt: &R,
        shared: &Shared<S>,
        report: u64,
    ) {
        self.fault = self.audit_all(rt, shared, report).err();
        if self.fault.is_some() {
            shared.give_up(rt);
        }
    }

    /// Audits in the memory of one queue.
    fn audit_all<S: Setup, R: Wait + Clock + Eprint>(
        &mut self,
        rt: &R,
        shared: &Shared<S>,
        report: u64,
    ) -> Result<()> {
        let mut replayer = Replayer::new(shared.alloc, config()?, self.shard);
        self.audit_with(rt, shared, report, &mut replayer)
    }

    fn audit_with<S: Setup, R: Wait + Clock + Eprint>(
        &mut self,
        rt: &R,
        shared: &Shared<S>,
        report: u64,
        replayer: &mut Replayer<TickTag>,
    ) -> Result<()> {
        let Some(queue) = shared.server.shard(self.shard) else {
            bail!("there is no such shard");
        };
        let backlog = shared.backlog(self.shard)?;
        let mut reported = shared.start;
        for _ in rt.forever() {
            let goes_on = backlog.wait_for_enough(rt);
            audit(rt, queue, replayer, &mut self.sums)?;
            backlog.note_released(rt, replayer.event_count());
            let total = self.count(rt, shared, replayer.event_count());
            reported = self.report(rt, reported, report, total)?;
            if !goes_on {
                return Ok(());
            }
        }
        unreachable!()
    }

    /// Counts what was replayed until now. Returns how many events that is of all shards.
    fn count<S: Setup, R: Wait>(&mut self, rt: &R, shared: &Shared<S>, events: u64) -> u64 {
        let more = events.saturating_sub(self.events);
        self.events = events;
        shared.add_replayed(rt, more)
    }

    /// The first shard's auditor reports how many events were replayed, if the last report is this many milliseconds old. Returns when
    /// the last one was.
    fn report<R: Clock + Eprint>(
        &self,
        rt: &R,
        last: Instant,
        millis: u64,
        total: u64,
    ) -> Result<Instant> {
        let is_due = millis > 0 && last.elapsed(rt)?.as_millis() >= u128::from(millis);
        if self.shard != FIRST || !is_due {
            return Ok(last);
        }
        eprintln!(rt; "{total} events")?;
        Ok(Instant::now(rt)?)
    }
}
