//! Checks of histories.
ghost use Rattle.std.specs.Prelude.{◌≡◌, ◌↔◌, IfOk};
ghost use Rattle.dmc_tag.specs.Replay.{replays};
ghost use Rattle.dmc_check.specs.Verdicts.{IsVerdict};

use crate::replay::Replay;
use dmc_queue_history::list::EventList;
use dmc_tag::tag::Tag;
use dmc_types::config::QueueConfig;
use std::alloc::{AllocError, Global};

/// Whether events replay.
#[derive(Clone, Copy, Debug, PartialEq, Eq)]
pub enum Verdict {
    /// Each reply is the one that the rules give.
    Replays,
    /// The first event, counted from 0, whose reply is not the one that the rules give.
    Differs(usize),
}

/// Replays a history over an indexed queue in the opening state. An error is an allocation failure.
pub fn check<T: Tag, L: EventList<T>>(
    alloc: Global,
    config: QueueConfig,
    history: &L,
) -> Result<Verdict, AllocError>
    ensures verdict { IfOk result (λ v. IsVerdict T.ops config (L.events history.now) v) }
    ensures exactly { IfOk result (λ v. (v ≡ Verdict.Replays) ↔ replays T.ops config (L.events history.now)) }
{
    let mut replay = Replay::new(alloc, config);
    for index in 0..history.count() {
        if let Some(event) = history.event_at(index) {
            replay.add(&event)?;
        }
    }
    Ok(replay.verdict())
}
