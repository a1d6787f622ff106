//! The history of a queue that runs for long: what was recorded is released from time to time, in segments.
ghost use Rattle.std.specs.Prelude.{◌≡◌};
ghost use Rattle.dmc_tag.specs.declared.event.Event.{Event};
ghost use Rattle.dmc_queue_history.specs.Kept.{event_of_added};

use crate::history::{AddedRequest, EventHistory};
use dmc_history::ReserveFault;
use dmc_shared::kept::{KeptList, Takes};
use dmc_shared::segmented::SegmentedList;
use dmc_tag::event::Event;
use dmc_tag::tag::Tag;

/// A list of events that only grows, of which the first may have been released.
pub type SegmentedHistory<T, S> = SegmentedList<EventHistory<T>, S>;

impl<T: Tag> KeptList for EventHistory<T> {
    type Record = Event<T>;

    ghost log = { λ history. history };

    fn count(&self) -> usize {
        self.len()
    }

    fn reserve_place(&mut self) -> Result<(), ReserveFault> {
        self.reserve_one()
    }

    fn take_all(&mut self) -> EventHistory<T> {
        self.take()
    }
}

impl<T: Tag> Takes<Event<T>> for EventHistory<T> {
    ghost taken = { λ event. event };

    #[inline(always)]
    fn put(&mut self, event: Event<T>) {
        self.push_reserved(event);
    }
}

impl<T: Tag> Takes<AddedRequest<T>> for EventHistory<T> {
    ghost taken = { λ added. event_of_added added };

    #[inline(always)]
    fn put(&mut self, added: AddedRequest<T>) {
        self.push_added(added);
    }
}
