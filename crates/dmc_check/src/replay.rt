//! Events are replayed one after the other.
ghost use Rattle.std.specs.Prelude.{◌≡◌, ◌↔◌, ◌++◌, ◌∷◌, [], List, None, OnErr, OnOk, IfOk, IfSome, IsSome, IsTrue};
ghost use Rattle.dmc_types.specs.Values.{Setting};
ghost use Rattle.dmc_tag.specs.declared.event.Event.{Event};
ghost use Rattle.dmc_pull.specs.Queue.{state_of};
ghost use Rattle.dmc_check.specs.Verdicts.{RepresentsEvents, SoFar};
ghost use Rattle.dmc_check.specs.internal.Verdicts.{ReplaysNext, verdict_of};

use crate::check::Verdict;
use crate::same::is_same_reply;
use dmc_heap::adaptive_index::HeapIndexes;
use dmc_pull::queue::PullQueue;
use dmc_tag::event::Event;
use dmc_tag::scheduler::Scheduler;
use dmc_tag::tag::Tag;
use dmc_types::config::QueueConfig;
use std::alloc::{AllocError, Global};

/// A queue that carries out the commands of events, up to the first whose recorded reply is another.
#[derive(Drop)]
pub(crate) struct Replay<T: Tag> {
    queue: PullQueue<T, HeapIndexes>,
    /// The number of events.
    events: usize,
    /// The first event whose recorded reply is another. After it nothing is carried out.
    difference: Option<usize>,
}

/// Carries out the command of an event. Returns whether the reply is the recorded one.
fn replays_next<T: Tag>(
    queue: &mut PullQueue<T, HeapIndexes>,
    event: &Event<T>,
) -> Result<bool, AllocError>
    ensures replayed { IfOk result (λ same. ReplaysNext T.ops (state_of queue.old) (state_of queue.new) event.now same) }
    ensures kept { OnErr result (state_of queue.new ≡ state_of queue.old) }
{
    let reply = queue.apply(&event.command)?;
    Ok(is_same_reply(&event.reply, &reply))
}

impl<T: Tag> Replay<T> {
    /// A replay of no event yet, from the opening state.
    pub(crate) fn new(alloc: Global, config: QueueConfig) -> Replay<T>
        ensures { RepresentsEvents T.ops config [] result }
    {
        Replay {
            queue: PullQueue::new(alloc, config),
            events: 0,
            difference: None,
        }
    }

    /// The first difference, after one more event.
    fn difference_with(&mut self, event: &Event<T>) -> Result<Option<usize>, AllocError>
        ensures so_far { (config : Setting) (events : List (Event T)) →
            RepresentsEvents T.ops config events self.old → IfOk result (λ found. SoFar T.ops config (events ++ event.now ∷ []) (state_of self.new.queue) found) }
        ensures count { self.new.events ≡ self.old.events }
        ensures kept { (config : Setting) (events : List (Event T)) →
            RepresentsEvents T.ops config events self.old → OnErr result (RepresentsEvents T.ops config events self.new) }
    {
        if self.difference.is_some() {
            return Ok(self.difference);
        }
        if replays_next(&mut self.queue, event)? {
            return Ok(None);
        }
        Ok(Some(self.events))
    }

    /// Replays one more event. It fails if the allocator refuses a growth, or if there is no number for the event, and then
    /// nothing was replayed.
    pub(crate) fn add(&mut self, event: &Event<T>) -> Result<(), AllocError>
        ensures added { (config : Setting) (events : List (Event T)) →
            RepresentsEvents T.ops config events self.old → OnOk result (RepresentsEvents T.ops config (events ++ event.now ∷ []) self.new) }
        ensures kept { (config : Setting) (events : List (Event T)) →
            RepresentsEvents T.ops config events self.old → OnErr result (RepresentsEvents T.ops config events self.new) }
    {
        let events = self.events.checked_add(1).ok_or(AllocError)?;
        self.difference = self.difference_with(event)?;
        self.events = events;
        Ok(())
    }

    /// The number of events.
    pub(crate) fn events(&self) -> usize
        ensures { result ≡ self.now.events }
    {
        self.events
    }

    /// The queue, unless an event did not replay.
    pub(crate) fn into_queue(self) -> Option<PullQueue<T, HeapIndexes>>
        ensures some { IsSome result ↔ (self.difference ≡ None) }
        ensures queue { IfSome result (λ queue. queue ≡ self.queue) }
    {
        match self.difference {
            None => Some(self.queue),
            Some(_) => None,
        }
    }

    /// Whether they replay.
    pub(crate) fn verdict(&self) -> Verdict
        ensures { result ≡ verdict_of self.now.difference }
    {
        match self.difference {
            None => Verdict::Replays,
            Some(index) => Verdict::Differs(index),
        }
    }
}
