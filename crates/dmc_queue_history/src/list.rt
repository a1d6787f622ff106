//! What events are read from.
ghost use Rattle.std.specs.Prelude.{◌≡◌, List, length, slice_get};
ghost use Rattle.dmc_tag.specs.declared.event.Event.{Event as Of};

use crate::history::EventHistory;
use dmc_history::History;
use dmc_tag::event::Event;
use dmc_tag::tag::Tag;

/// A list of events.
pub trait EventList<T> {
    /// Its events, oldest first.
    ghost events: { Self → List (Of T) };

    /// How many events it has.
    fn count(&self) -> usize
        ensures { result ≡ length (events self.now) };

    /// The event at an index, counted from 0, or `None` past the end.
    fn event_at(&self, index: usize) -> Option<Event<T>>
        ensures { result ≡ slice_get (events self.now) index };
}

impl<T: Tag> EventList<T> for EventHistory<T> {
    ghost events = { λ history. history.events };

    fn count(&self) -> usize {
        self.len()
    }

    fn event_at(&self, index: usize) -> Option<Event<T>> {
        self.at(index)
    }
}

impl<T: Copy> EventList<T> for History<Event<T>> {
    ghost events = { λ history. history.events };

    fn count(&self) -> usize {
        self.len()
    }

    fn event_at(&self, index: usize) -> Option<Event<T>> {
        self.at(index).copied()
    }
}
