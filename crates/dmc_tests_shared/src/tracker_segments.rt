//! Trackers that release their lists in segments, in one hand and behind a lock.
ghost use Rattle.std.specs.Prelude.{◌≡◌};

use crate::same::assert_same;
use crate::tracker_tests::{Left, TrackerTest, open_small, see_both};
use dmc_ledger::bundle::{PhaseTills, StampTills};
use dmc_ledger::mint::{Blank, Mint};
use dmc_ledger::setup::Setup;
use dmc_tests_setup::opening::ZERO;
use dmc_tests_setup::tracker_calls::TrackerCalls;
use dmc_tlock::fault::EntryFault;
use dmc_tlock::segment::TrackerSegment;
use dmc_tlock::status::TrackStatus;
use dmc_types::config::Counting;
use dmc_types::ids::ClientId;
use std::alloc::Global;
use std::marker::Brand;
use std::sync::Wait;
use std::test::Fail;

/// What the calls of a tracker return that fills its list of three entries, releases them, and goes on.
#[derive(Clone, Copy, Debug, PartialEq, Eq)]
struct Filled {
    full: Option<EntryFault>,
    next: (u32, u32),
    status: TrackStatus,
}

/// The number of a segment's first entry, and how many it has.
type Shape = (u64, usize);

/// What the segments of one tracker show, beside one of another's.
#[derive(Clone, Copy, Debug, PartialEq, Eq)]
struct Segments {
    shapes: [Shape; 3],
    follows: [bool; 5],
    owner: (ClientId, Counting),
}

const FILLED: Filled = Filled {
    full: Some(EntryFault::HistoryFull),
    next: (1, 0),
    status: TrackStatus {
        sent: (2, 0),
        skipped: (1, 0),
        pending: (0, 0),
        completions: (3, 0),
        counting: Counting::All,
        stamps: 2,
        own: 0,
        others: (0, 0),
    },
};

const SEGMENTS: Segments = Segments {
    shapes: [(0, 3), (3, 3), (6, 0)],
    follows: [true, true, false, false, false],
    owner: (ClientId(1), Counting::All),
};

fn shape<S: Setup>(segment: &TrackerSegment<S>) -> Shape {
    (segment.first(), segment.entries().len())
}

fn read_segments<S: Setup>(
    first: &TrackerSegment<S>,
    second: &TrackerSegment<S>,
    none: &TrackerSegment<S>,
    other: &TrackerSegment<S>,
) -> Segments {
    Segments {
        shapes: [shape(first), shape(second), shape(none)],
        follows: [
            first.follows(second),
            second.follows(none),
            second.follows(first),
            first.follows(none),
            first.follows(other),
        ],
        owner: (second.client(), second.counting()),
    }
}

/// A value that may be sent to another thread.
fn sent<T: Send>(value: T) -> T {
    value
}

/// The next segment.
fn rotate<S: Setup, C: TrackerCalls<S>>(tracker: &mut C) -> Result<TrackerSegment<S>, Fail> {
    match tracker.try_rotate() {
        Some(segment) => Ok(sent(segment)),
        None => Err(Fail::new("a segment")),
    }
}

/// Fills a list of three entries, and returns the refusal of one more.
fn fill<S: Setup, C: TrackerCalls<S>>(
    tracker: &mut C,
    tills: &mut StampTills<S>,
    grants: &mut PhaseTills<S>,
) -> Result<Option<EntryFault>, EntryFault> {
    tracker.try_respond(ZERO, grants)?;
    tracker.try_stamp(ZERO, tills)?;
    tracker.try_respond(ZERO, grants)?;
    Ok(tracker.try_skip(ZERO).err())
}

/// Makes three entries more.
fn go_on<S: Setup, C: TrackerCalls<S>>(
    tracker: &mut C,
    tills: &mut StampTills<S>,
    grants: &mut PhaseTills<S>,
    full: Option<EntryFault>,
) -> Result<Filled, Fail> {
    tracker.try_skip(ZERO)?;
    tracker.try_respond(ZERO, grants)?;
    let next = tracker.try_stamp(ZERO, tills)?;
    let status = tracker.try_status(ZERO, tills)?;
    Ok(Filled { full, next, status })
}

/// Fills a list, releases it, goes on, releases twice more, and makes one entry.
#[derive(Drop)]
struct RotationTest<S: Setup> {
    /// A segment of another client's list, which is empty.
    other: TrackerSegment<S>,
}

impl<S: Setup> TrackerTest<S> for RotationTest<S> {
    type Seen = (Filled, Segments);

    fn run<C: TrackerCalls<S>>(
        &self,
        tracker: &mut C,
        tills: &mut StampTills<S>,
        grants: &mut PhaseTills<S>,
    ) -> Result<(Filled, Segments), Fail> {
        let full = fill(tracker, tills, grants)?;
        let first = rotate(tracker)?;
        let filled = go_on(tracker, tills, grants, full)?;
        let second = rotate(tracker)?;
        let none = rotate(tracker)?;
        tracker.try_skip(ZERO)?;
        Ok((filled, read_segments(&first, &second, &none, &self.other)))
    }
}

/// The test, with a segment of client 2's list.
fn rotations<S: Setup>(alloc: Global, mint: &mut Mint<S>) -> Result<RotationTest<S>, Fail> {
    let mut opened = open_small(alloc, mint, 2, Counting::All)?;
    let segment = rotate(&mut opened.book);
    drop(opened);
    Ok(RotationTest { other: segment? })
}

fn rotated<S: Setup, R: Wait>(
    rt: &R,
    alloc: Global,
    blank: Blank,
) -> Result<[((Filled, Segments), Left); 2], Fail>
    requires { blank.name ≡ S.name }
{
    let mut mint = blank.open::<S>();
    let test = rotations(alloc, &mut mint)?;
    see_both(rt, alloc, &mut mint, Counting::All, &test)
}

#[test]
fn tracker_segments_follow(rt: HostRuntime) -> Result<(), Fail> {
    let seen = rotated::<Brand, HostRuntime>(&rt, rt.alloc(), Blank::new(21))?;
    let left = Left {
        released: 6,
        entries: 1,
        held: (2, 2, 0),
    };
    assert_same(&rt, &seen, &[((FILLED, SEGMENTS), left); 2]);
    Ok(())
}
