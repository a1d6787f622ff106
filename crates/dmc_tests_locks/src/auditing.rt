//! An auditor releases the events of a lock and replays them, while two threads submit.
ghost use Rattle.std.specs.Prelude.{◌≡◌};

use crate::same::assert_same;
use crate::settling::settle;
use crate::setup::{Lock, drop_lock};
use crate::threads::{Job, open_two, pass_of, register_both, submit_both};
use dmc_check::check::Verdict;
use dmc_check::replayer::{ReplayFault, Replayer};
use dmc_ledger::mint::Blank;
use dmc_ledger::setup::Setup;
use dmc_queue_history::segment::Segment;
use dmc_tick::tick::TickTag;
use std::alloc::Global;
use std::marker::Brand;
use std::sync::Wait;
use std::test::Fail;
use std::thread;
use std::thread::Threads;

// How often the auditor releases events while the threads submit.
const ROUNDS: u32 = 40;

/// A thread that replays one segment after the other.
#[derive(Drop)]
struct Auditor<S: Setup> {
    replayer: Replayer<TickTag>,
    last: Segment<TickTag, S>,
}

/// The next segment of a lock.
fn rotate<S: Setup, R: Wait>(rt: &R, lock: &Lock<S>) -> Result<Segment<TickTag, S>, Fail> {
    match lock.rotate(rt) {
        Some(segment) => Ok(segment),
        None => Err(Fail::new("a segment")),
    }
}

/// Whether the next segment follows the last one and replays.
fn audit_next<S: Setup, R: Wait>(
    rt: &R,
    lock: &Lock<S>,
    auditor: &mut Auditor<S>,
) -> Result<bool, ReplayFault> {
    let Some(segment) = lock.rotate(rt) else {
        return Ok(false);
    };
    let verdict = auditor.replayer.replay(&segment);
    let follows = auditor.last.follows(&segment);
    auditor.last = segment;
    Ok(verdict? == Verdict::Replays && follows)
}

fn audit_all<S: Setup, R: Wait>(
    rt: &R,
    lock: &Lock<S>,
    auditor: &mut Auditor<S>,
) -> Result<bool, ReplayFault> {
    let mut sound = true;
    for _ in 0..ROUNDS {
        sound = audit_next(rt, lock, auditor)? && sound;
    }
    Ok(sound)
}

/// Two threads submit 100 requests each while an auditor replays what is released; then it replays the rest. Returns whether all
/// is sound, and how many events there were.
fn submit_amid_audit<S: Setup + Send + Sync, R: Threads + Wait + Sync>(
    rt: &R,
    alloc: Global,
    lock: &Lock<S>,
    first: &mut Job<S>,
    second: &mut Job<S>,
) -> Result<(bool, u64), Fail> {
    register_both(rt, lock, &mut first.pass)?;
    let segment = rotate(rt, lock)?;
    let mut replayer = Replayer::new(alloc, segment.config(), segment.server());
    let begun = replayer.replay(&segment)? == Verdict::Replays;
    let mut auditor = Auditor {
        replayer,
        last: segment,
    };
    let lent = &mut auditor;
    let (submitted, sound) = thread::join(
        rt,
        move || submit_both(rt, lock, first, second),
        move || audit_all(rt, lock, lent),
    );
    submitted?;
    let sound = sound? && audit_next(rt, lock, &mut auditor)?;
    Ok((begun && sound, auditor.replayer.event_count()))
}

/// What an audit amid submits finds, and how many events are left to the book.
fn audited<S: Setup + Send + Sync, R: Threads + Wait + Sync>(
    rt: &R,
    alloc: Global,
    blank: Blank,
) -> Result<(bool, u64, u32), Fail>
    requires { blank.name ≡ S.name }
{
    let mut mint = blank.open::<S>();
    let (lock, mut first, mut second) = open_two(alloc, &mut mint)?;
    match submit_amid_audit(rt, alloc, &lock, &mut first, &mut second) {
        Ok((sound, events)) => {
            let (left, _, _) = settle(alloc, lock, pass_of(first), pass_of(second))?;
            Ok((sound, events, left))
        }
        Err(fail) => {
            drop((first, second));
            drop_lock(lock);
            Err(fail)
        }
    }
}

#[test]
fn audit_amid_submits(rt: HostRuntime) -> Result<(), Fail> {
    let audited = audited::<Brand, HostRuntime>(&rt, rt.alloc(), Blank::new(27))?;
    assert_same(&rt, &audited, &(true, 202, 200));
    Ok(())
}
