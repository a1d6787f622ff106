//! How long the histories of a run may grow, and how far its trackers count.
ghost use Rattle.std.specs.Prelude.{◌≡◌, ◌≤◌, ◌<◌, ◌↔◌, IfSome, IsSome};
ghost use Rattle.dmc_types.specs.Limits.{max_events, max_run_completions};

use dmc_types::limits::MAX_EVENTS;
use std::marker::Model;

/// The most events of a history, 256 to 2^30, and the most that a tracker counts of completions, 1 to 2^32-1 units of cost.
#[derive(Clone, Copy, Debug, PartialEq, Eq)]
pub struct Limits {
    events: u32,
    completions: u32,
}

impl Model for Limits {
    ghost use Rattle.std.specs.Prelude.{◌≤◌};
    ghost use Rattle.dmc_types.specs.Limits.{max_events};
    ghost use Rattle.dmc_driver_threads.specs.LimitsValue.{LimitsValue};

    ghost Value = { LimitsValue };

    ghost view = { λ l. record { events = l.events; completions = l.completions } };

    ghost invariant = { λ l. (256 ≤ l.events) × (l.events ≤ max_events) × (1 ≤ l.completions) };

    ghost inverse = { λ l. record { events = l.events; completions = l.completions } };
}

impl Limits {
    /// These limits, or `None` if one is out of its own.
    pub fn new(events: u32, completions: u32) -> Option<Limits>
        ensures some { IsSome result ↔ ((256 ≤ events) × (events ≤ max_events) × (1 ≤ completions)) }
        ensures value { IfSome result (λ limits. limits ≡ record { events = events; completions = completions }) }
    {
        if events < 256 || events > MAX_EVENTS || completions < 1 {
            return None;
        }
        Some(Limits {
            events,
            completions,
        })
    }

    /// The widest limits: 2^30 events, and completions of 2^32-1 units of cost.
    pub fn widest() -> Limits
        ensures { result ≡ record { events = max_events; completions = max_run_completions } }
    {
        Limits {
            events: MAX_EVENTS,
            completions: u32::MAX,
        }
    }

    /// The most events of a history.
    pub fn events(self) -> u32
        ensures value { result ≡ self.events }
        ensures some { 256 ≤ result }
        ensures limit { result ≤ max_events }
    {
        self.events
    }

    /// The most that a tracker counts of completions, in units of cost.
    pub fn completions(self) -> u32
        ensures value { result ≡ self.completions }
        ensures some { 1 ≤ result }
    {
        self.completions
    }
}
