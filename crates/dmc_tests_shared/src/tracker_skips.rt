//! A server that is skipped, in a tracker's book and behind its lock.
ghost use Rattle.std.specs.Prelude.{◌≡◌};

use crate::same::assert_same;
use crate::tracker_tests::{Left, TrackerTest, see_both};
use dmc_ledger::bundle::{PhaseTills, StampTills};
use dmc_ledger::mint::Blank;
use dmc_ledger::setup::Setup;
use dmc_tests_setup::opening::ZERO;
use dmc_tests_setup::tracker_calls::TrackerCalls;
use dmc_tlock::fault::EntryFault;
use dmc_tlock::status::TrackStatus;
use dmc_types::config::Counting;
use dmc_types::ids::ServerId;
use std::alloc::Global;
use std::marker::Brand;
use std::sync::Wait;
use std::test::Fail;

/// What is seen after a response and a skip: the status, what the next stamp carries, and what a skip is refused with at a
/// server that the tracker has not, and if the list is full.
#[derive(Clone, Copy, Debug, PartialEq, Eq)]
struct AfterSkip {
    status: TrackStatus,
    next: (u32, u32),
    unknown: Option<EntryFault>,
    full: Option<EntryFault>,
}

const IN_ALL: AfterSkip = AfterSkip {
    status: TrackStatus {
        sent: (0, 0),
        skipped: (1, 0),
        pending: (0, 0),
        completions: (1, 0),
        counting: Counting::All,
        stamps: 0,
        own: 0,
        others: (0, 0),
    },
    next: (0, 0),
    unknown: Some(EntryFault::NoServer),
    full: Some(EntryFault::HistoryFull),
};

/// The only server's own completions are pending nowhere, so that nothing is skipped.
const IN_OTHERS: AfterSkip = AfterSkip {
    status: TrackStatus {
        sent: (0, 0),
        skipped: (0, 0),
        pending: (0, 0),
        completions: (1, 0),
        counting: Counting::Others,
        stamps: 0,
        own: 0,
        others: (0, 0),
    },
    next: (1, 1),
    unknown: Some(EntryFault::NoServer),
    full: Some(EntryFault::HistoryFull),
};

/// Responds and skips, stamps, and skips a server that the tracker has not, and once too often.
#[derive(Drop)]
struct SkipTest;

impl<S: Setup> TrackerTest<S> for SkipTest {
    type Seen = AfterSkip;

    fn run<C: TrackerCalls<S>>(
        &self,
        tracker: &mut C,
        tills: &mut StampTills<S>,
        grants: &mut PhaseTills<S>,
    ) -> Result<AfterSkip, Fail> {
        tracker.try_respond(ZERO, grants)?;
        tracker.try_skip(ZERO)?;
        let status = tracker.try_status(ZERO, tills)?;
        let next = tracker.try_stamp(ZERO, tills)?;
        let unknown = tracker.try_skip(ServerId(1)).err();
        let full = tracker.try_skip(ZERO).err();
        Ok(AfterSkip {
            status,
            next,
            unknown,
            full,
        })
    }
}

fn skips<S: Setup, R: Wait>(
    rt: &R,
    alloc: Global,
    blank: Blank,
    counting: Counting,
) -> Result<[(AfterSkip, Left); 2], Fail>
    requires { blank.name ≡ S.name }
{
    let mut mint = blank.open::<S>();
    see_both(rt, alloc, &mut mint, counting, &SkipTest)
}

#[test]
fn skipped_server(rt: HostRuntime) -> Result<(), Fail> {
    for wanted in [IN_ALL, IN_OTHERS] {
        let counting = wanted.status.counting;
        let seen = skips::<Brand, HostRuntime>(&rt, rt.alloc(), Blank::new(14), counting)?;
        let (delta, rho) = wanted.next;
        let left = Left {
            released: 0,
            entries: 3,
            held: (1, u64::from(delta), u64::from(rho)),
        };
        assert_same(&rt, &seen, &[(wanted, left); 2]);
    }
    Ok(())
}
