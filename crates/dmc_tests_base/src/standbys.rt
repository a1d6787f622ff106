//! A replayer of events that differ gives no queue that could take over.
use crate::same::assert_same;
use dmc_check::check::Verdict;
use dmc_check::replayer::Replayer;
use dmc_history::History;
use dmc_tag::event::Event;
use dmc_tag::reply::Reply;
use dmc_tick::tick::TickTag;
use dmc_types::command::Command;
use dmc_types::config::{AtLimit, QueueConfig};
use dmc_types::ids::{ServerId, WorkerId};
use dmc_types::moment::Moment;
use std::alloc::Global;
use std::test::Fail;

type Events = History<Event<TickTag>>;

const SERVER: ServerId = ServerId(2);

fn config() -> Result<QueueConfig, Fail> {
    Ok(QueueConfig::new(1000, 400, 800, AtLimit::Wait)?)
}

/// What a replayer answers of a pull at an empty queue that was recorded as `Later`, and whether it can take over.
fn replay_changed(alloc: Global) -> Result<(Verdict, bool), Fail> {
    let mut events: Events = History::new(alloc, 2)?;
    for reply in [Reply::Nothing, Reply::Later(1)] {
        events.reserve_one()?;
        events.push_reserved(Event {
            worker: WorkerId(1),
            command: Command::Pull { at: Moment::zero() },
            reply,
        });
    }
    let mut replayer: Replayer<TickTag> = Replayer::new(alloc, config()?, SERVER);
    let verdict = replayer.replay_events(0, &events)?;
    Ok((verdict, replayer.into_queue().is_some()))
}

#[test]
fn no_standby_after_a_difference(rt: HostRuntime) -> Result<(), Fail> {
    let changed = replay_changed(rt.alloc())?;
    assert_same(&rt, &changed, &(Verdict::Differs(1), false));
    Ok(())
}
